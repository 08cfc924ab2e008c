//! The positions of one loan.

ghost use Rattle.std.specs.Prelude.{◌≡◌, pos, ◌+ℤ◌, ◌-ℤ◌, ◌≤ℤ◌, neg_ℤ};
ghost use Rattle.advance_book.specs.Positions.{IsSum, pi_held, pi_advanced, pi_residual, escrow_held, escrow_advanced};

use svc_base::Cents;

/// Where a loan's principal and interest stand with its investor, in cents.
#[derive(Clone, Copy, Debug, PartialEq, Eq)]
pub struct PiPosition {
    /// Collected and not yet remitted.
    pub held: Cents,
    /// Remitted by the servicer before it was collected.
    pub advanced: Cents,
    /// What a settled loan leaves to the servicer; below 0 where it takes from it.
    pub residual: Cents,
}

/// Where a loan's escrow account and unapplied funds stand, in cents.
#[derive(Clone, Copy, Debug, PartialEq, Eq)]
pub struct EscrowPosition {
    /// The borrower's money in custody.
    pub held: Cents,
    /// Paid out by the servicer beyond the escrow balance.
    pub advanced: Cents,
}

/// The position of a loan that collected and remitted so much principal and interest, the
/// servicing fee not counted. A loan is settled where it is paid off and remitted in full.
pub fn position(collected: Cents, remitted: Cents, settled: bool) -> PiPosition
    requires collected { IsSum collected }
    requires remitted { IsSum remitted }
    ensures held { result.held ≡ pi_held collected remitted settled }
    ensures advanced { result.advanced ≡ pi_advanced collected remitted settled }
    ensures residual { result.residual ≡ pi_residual collected remitted settled }

    // What is held is what was collected, less what left, plus what was advanced.
    ensures balanced { result.held ≡ collected -ℤ remitted -ℤ result.residual +ℤ result.advanced }
    ensures held_low { pos 0 ≤ℤ result.held }
    ensures advanced_low { pos 0 ≤ℤ result.advanced }
{
    let net = collected - remitted;
    if settled {
        PiPosition {
            held: 0,
            advanced: 0,
            residual: net,
        }
    } else {
        PiPosition {
            held: net.max(0),
            advanced: (-net).max(0),
            residual: 0,
        }
    }
}

/// The position of a loan with that escrow balance and those unapplied funds.
pub fn escrow_position(escrow: Cents, suspense: Cents) -> EscrowPosition
    requires escrow { IsSum escrow }
    requires suspense { IsSum suspense }
    requires suspense_low { pos 0 ≤ℤ suspense }
    ensures held { result.held ≡ escrow_held escrow suspense }
    ensures advanced { result.advanced ≡ escrow_advanced escrow }

    // What is held is the borrower's balance, plus what was advanced.
    ensures balanced { result.held ≡ suspense +ℤ escrow +ℤ result.advanced }
    ensures held_low { pos 0 ≤ℤ result.held }
    ensures advanced_low { pos 0 ≤ℤ result.advanced }
{
    EscrowPosition {
        held: suspense + escrow.max(0),
        advanced: (-escrow).max(0),
    }
}
