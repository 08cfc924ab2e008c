//! Why the remittance type of a loan is not changed.

ghost use Rattle.std.specs.Prelude.{◌≡◌};
ghost use Rattle.svc_world.specs.Refusals as rule;
ghost use Rattle.svc_rules.specs.State.{world_of};

use crate::limits::MOST_TYPES;
use crate::state::State;
use svc_base::{Month, month_of};
use svc_loan::Loan;
use svc_replay::LoanBooks;
use svc_types::{Limit, Refusal};

/// Why the remittance type is not changed from a month on: `Full` (of 64 changes), `BeforeBoarding`, `ClosedMonth`.
pub(crate) fn refuse_retype<B: LoanBooks>(
    state: &State<B>,
    loan: &Loan<B>,
    from: Month,
) -> Option<Refusal>
    ensures { result ≡ rule.first_of (rule.retype_cases
        (world_of state.now.today state.now.loans state.now.seals) from loan.now.held) }
{
    if loan.type_count() >= MOST_TYPES {
        return Some(Refusal::Full(Limit::Types));
    }
    let boarded = loan.terms().boarded;
    if from < month_of(boarded) {
        return Some(Refusal::BeforeBoarding(boarded));
    }
    match state.seals.closed() {
        Some(last) if from <= last => Some(Refusal::ClosedMonth(last)),
        _ => None,
    }
}
