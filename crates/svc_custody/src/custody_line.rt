//! The custodial line: what both accounts hold for all loans.

ghost use Rattle.std.specs.Prelude.{◌≡◌, ◌+ℤ◌, ◌-ℤ◌};
ghost use Rattle.svc_custody.specs.Positions as rule;
ghost use Rattle.svc_custody.specs.Positions.{IsHolding, IsPosition, IsLine};
ghost use Rattle.svc_custody.specs.Positions.{IsShare, AreShares, IsLineSum};

use crate::position::Position;
use svc_base::Cents;
use svc_world::Custody;

/// The custodial line after one loan's position changed.
pub(crate) fn line_after(line: &Custody, before: &Position, later: &Position) -> Custody
    requires line { IsLine line.now }
    requires before { IsPosition before.now }
    requires later { IsPosition later.now }
    ensures { result ≡ rule.line_after line.now before.now later.now }
{
    let was = share_of(before);
    let is = share_of(later);
    Custody {
        t: sum_after(line.t, was.t, is.t),
        p: sum_after(line.p, was.p, is.p),
        suspense: sum_after(line.suspense, was.suspense, is.suspense),
        escrow: sum_after(line.escrow, was.escrow, is.escrow),
        escrow_advance: sum_after(line.escrow_advance, was.escrow_advance, is.escrow_advance),
        held: sum_after(line.held, was.held, is.held),
        pi_advance: sum_after(line.pi_advance, was.pi_advance, is.pi_advance),
    }
}

/// A sum over all loans after one loan's share of it changed.
#[tactic(auto, using(svc_base::proofs::CentsRules::cents))]
fn sum_after(sum: Cents, was: Cents, is: Cents) -> Cents
    requires sum { IsLineSum sum }
    requires was { IsShare was }
    requires is { IsShare is }
    ensures { result ≡ sum +ℤ (is -ℤ was) }
{
    sum + (is - was)
}

/// What a loan counts for in the custodial line.
fn share_of(position: &Position) -> Custody
    requires { IsPosition position.now }
    ensures value { result ≡ rule.share_of position.now }
    ensures limits { AreShares result }
{
    Custody {
        t: borrower_cash(
            position.suspense,
            position.escrow,
            position.totals.escrow_advance,
        ),
        p: position.held,
        suspense: position.suspense,
        escrow: position.escrow,
        escrow_advance: position.totals.escrow_advance,
        held: position.held,
        pi_advance: position.totals.pi_advance,
    }
}

/// The borrower's money, with what the servicer advanced.
#[tactic(auto, using(svc_base::proofs::CentsRules::cents))]
fn borrower_cash(suspense: Cents, escrow: Cents, advance: Cents) -> Cents
    requires suspense { IsHolding suspense }
    requires escrow { IsHolding escrow }
    requires advance { IsHolding advance }
    ensures { result ≡ suspense +ℤ escrow +ℤ advance }
{
    suspense + escrow + advance
}
