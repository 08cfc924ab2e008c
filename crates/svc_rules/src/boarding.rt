//! Why a loan is not boarded.

ghost use Rattle.std.specs.Prelude.{◌≡◌, is_some, length, [], ◌∷◌, ◌++◌};
ghost use Rattle.svc_types.specs.declared.replies.Refusal.TheVariants.{BoardedLate};
ghost use Rattle.svc_base.specs.Calendar.{month_of as month_number};
ghost use Rattle.svc_loan.specs.Loans.{held_in};
ghost use Rattle.svc_world.specs.Held.{find_loan};
ghost use Rattle.svc_world.specs.Refusals as rule;
ghost use Rattle.svc_rules.specs.State.{world_of};

use crate::limits::MOST_LOANS;
use crate::state::State;
use svc_base::{Day, month_of};
use svc_loan::Loans;
use svc_replay::LoanBooks;
use svc_types::{Limit, Refusal, Terms};

/// Why a loan is not boarded: `Full` (of 12,000 loans), `LoanExists`, `BadTerms` (the first range that they miss),
/// `BoardedLate` (in a closed month), `FutureDated`.
pub(crate) fn refuse_board<B: LoanBooks>(
    state: &State<B>,
    id: u32,
    terms: &Terms,
) -> Option<Refusal>
    ensures { result ≡ rule.first_of (rule.board_cases
        (world_of state.now.today state.now.loans state.now.seals) id terms.now) }
{
    if count(&state.loans) >= MOST_LOANS {
        return Some(Refusal::Full(Limit::Loans));
    }
    if has_loan(&state.loans, id) {
        return Some(Refusal::LoanExists);
    }
    if let Err(fault) = terms.check() {
        return Some(Refusal::BadTerms(fault));
    }
    refuse_boarded(state, terms.boarded)
}

/// Why a loan is not boarded on a day: `BoardedLate`, `FutureDated`.
fn refuse_boarded<B: LoanBooks>(state: &State<B>, boarded: Day) -> Option<Refusal>
    ensures { result ≡ rule.first_of (rule.with_last BoardedLate
        (world_of state.now.today state.now.loans state.now.seals) (month_number boarded)
        ++ (rule.future_dated (world_of state.now.today state.now.loans state.now.seals) boarded ∷ [])) }
{
    if let Some(last) = state.seals.closed() {
        if month_of(boarded) <= last {
            return Some(Refusal::BoardedLate(last));
        }
    }
    if state.today < boarded {
        return Some(Refusal::FutureDated(state.today));
    }
    None
}

/// How many loans there are.
fn count<B: LoanBooks>(loans: &Loans<B>) -> usize
    ensures { result ≡ length (held_in loans.now.loans) }
{
    loans.len()
}

/// Whether a loan is there.
fn has_loan<B: LoanBooks>(loans: &Loans<B>, id: u32) -> bool
    ensures { result ≡ is_some (find_loan id (held_in loans.now.loans)) }
{
    loans.get(id).is_some()
}
