//! What custody holds for each loan.

ghost use Rattle.std.specs.Prelude.{◌≡◌, ◌<◌, length, slice_index_or};
ghost use Rattle.svc_loan.specs.Loans.{IsThere, held_in};
ghost use Rattle.svc_world.specs.Held.{Held, find_loan};
ghost use Rattle.svc_rules.specs.State.{world_of};
ghost use Rattle.svc_custody.specs.Positions as rule;
ghost use Rattle.svc_custody.specs.Positions.{CanRead, IsPosition};

use crate::cash::kept_position;
use custodial_book::Totals;
use svc_base::Cents;
use svc_loan::Place;
use svc_replay::LoanBooks;
use svc_rules::State;

/// What custody holds for a loan, in cents.
#[derive(Clone, Copy, PartialEq, Eq)]
pub struct Position {
    /// What was moved so far of each part of custodial cash.
    pub totals: Totals,
    /// Money that is not yet applied.
    pub suspense: Cents,
    /// The escrow balance.
    pub escrow: Cents,
    /// Principal and interest that are held for it.
    pub held: Cents,
}

/// What custody holds for the loan that stands at a place.
#[inline(always)]
pub fn position_of<B: LoanBooks>(state: &State<B>, place: Place) -> Position
    requires read { CanRead (world_of state.now.today state.now.loans state.now.seals) state.now.loans.loans }
    requires place { IsThere place state.now.loans.loans }
    ensures value { result ≡ rule.position (world_of state.now.today state.now.loans state.now.seals)
        (find_loan place.id (held_in state.now.loans.loans)) }
    ensures limits { IsPosition result }
{
    kept_position(state.loans.loan(place), state.seals.remitted())
}

/// What custody holds for the loan at a place, in the order of numbers.
pub(crate) fn position_at<B: LoanBooks>(state: &State<B>, place: usize) -> Position
    requires read { CanRead (world_of state.now.today state.now.loans state.now.seals) state.now.loans.loans }
    requires place { place < length state.now.loans.loans }
    ensures value { (d : Held) → result ≡ rule.position_of
        (world_of state.now.today state.now.loans state.now.seals)
        (slice_index_or (held_in state.now.loans.loans) place d) }
    ensures limits { IsPosition result }
{
    kept_position(state.loans.at(place), state.seals.remitted())
}

/// Nothing of any part.
pub fn no_position() -> Position
    ensures value { result ≡ rule.no_position }
    ensures limits { IsPosition result }
{
    Position {
        totals: Totals {
            received: 0,
            returned: 0,
            refunded: 0,
            disbursed: 0,
            collected: 0,
            fee: 0,
            late: 0,
            pi_advance: 0,
            escrow_advance: 0,
            remitted: 0,
            residual: 0,
        },
        suspense: 0,
        escrow: 0,
        held: 0,
    }
}
