//! What taking a loan on makes of the world.

ghost use Rattle.std.specs.Prelude.{◌≡◌, ◌+◌, ◌≤◌, None};
ghost use Rattle.std.specs.List.{All};
ghost use Rattle.svc_types.specs.Requests.{IsCommand};
ghost use Rattle.svc_types.specs.declared.requests.Command.TheVariants as request;
ghost use Rattle.svc_world.specs.Refusals.{refusal_of};
ghost use Rattle.svc_world.specs.World.{after};
ghost use Rattle.svc_loan.specs.Loans.{IsThere};
ghost use Rattle.svc_custody.specs.Cash.{IsKeptIn};
ghost use Rattle.svc_core.specs.Ready.{IsBoarding};
ghost use Rattle.svc_core.specs.State.{IsState, world_of};

use svc_loan::{Loan, Place};
use svc_replay::LoanBooks;
use svc_rules::State;
use svc_types::Terms;

/// Takes a loan on that was made for the command with these terms, as the one after `count` others, and answers where it
/// stands. Nothing else changes.
pub(crate) fn change_new<B: LoanBooks>(
    count: u32,
    id: u32,
    terms: &Terms,
    loan: Box<Loan<B>>,
    state: &mut State<B>,
) -> Place
    requires state { IsState count state.old.today state.old.loans state.old.seals }
    requires command { IsCommand (request.Board id terms.now) }
    requires fresh { refusal_of count (world_of state.old.today state.old.loans state.old.seals)
        (request.Board id terms.now) ≡ None }
    requires loan { IsBoarding id terms.now state.old.today loan.value }
    requires room { 1 ≤ state.old.loans.room }
    ensures world { world_of state.new.today state.new.loans state.new.seals
        ≡ after (count + 1) (world_of state.old.today state.old.loans state.old.seals)
        (request.Board id terms.now) }
    ensures kept { All (IsKeptIn (world_of state.new.today state.new.loans state.new.seals))
        state.new.loans.loans }
    ensures id { result.id ≡ id }
    ensures place { IsThere result state.new.loans.loans }
{
    state.loans.insert(loan)
}
