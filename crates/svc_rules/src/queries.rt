//! Why a query is refused that asks for books of a day or for a report.

ghost use Rattle.std.specs.Prelude.{◌≡◌, ◌≤◌, None, IfSome, is_some, true};
ghost use Rattle.period_adjust.specs.Conditions.{first_month, last_month};
ghost use Rattle.svc_world.specs.Refusals as rule;
ghost use Rattle.svc_rules.specs.State.{world_of};

use crate::state::State;
use svc_base::{Day, Month};
use svc_loan::Loan;
use svc_replay::LoanBooks;
use svc_types::Refusal;

/// Why the books of a day are not told: `FutureDated` (after the business day), `BeforeBoarding`.
pub fn refuse_day_of<B: LoanBooks>(state: &State<B>, loan: &Loan<B>, day: Day) -> Option<Refusal>
    ensures cause { result ≡ rule.first_of (rule.day_cases
        (world_of state.now.today state.now.loans state.now.seals) day loan.now.held) }
    ensures since { result ≡ None → loan.now.held.account.terms.boarded ≤ day }
    ensures until { result ≡ None → day ≤ state.now.today }
{
    if state.today < day {
        return Some(Refusal::FutureDated(state.today));
    }
    let boarded = loan.terms().boarded;
    if day < boarded {
        return Some(Refusal::BeforeBoarding(boarded));
    }
    None
}

/// Why a report is not there: `NotClosed`.
pub fn refuse_report<B: LoanBooks>(state: &State<B>, month: Month) -> Option<Refusal>
    ensures cause { result ≡ rule.first_of
        (rule.report_cases (world_of state.now.today state.now.loans state.now.seals) month) }
    ensures until { result ≡ None → is_some (last_month state.now.seals.reporting.reports) ≡ true }
    ensures last { result ≡ None →
        IfSome (last_month state.now.seals.reporting.reports) (λ last. month ≤ last) }
    ensures first { result ≡ None →
        IfSome (first_month state.now.seals.reporting.reports) (λ first. first ≤ month) }
{
    match state.seals.closed() {
        Some(last) if month <= last => {}
        closed => return Some(Refusal::NotClosed(closed)),
    }
    let reports = state.seals.reports();
    if month < reports[0].month() {
        return Some(Refusal::NotClosed(state.seals.closed()));
    }
    None
}
