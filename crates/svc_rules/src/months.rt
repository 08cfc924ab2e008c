//! Why a month is not closed, and why it is not remitted.

ghost use Rattle.std.specs.Prelude.{◌≡◌, ◌+◌, ◌<◌, is_some, true, IfSome};
ghost use Rattle.svc_base.specs.Calendar.{months_end};
ghost use Rattle.period_adjust.specs.Conditions.{last_month};
ghost use Rattle.period_adjust.specs.Kept.{next_remit};
ghost use Rattle.svc_loan.specs.Loans.{held_in};
ghost use Rattle.svc_world.specs.Refusals as rule;
ghost use Rattle.svc_rules.specs.State.{world_of};

use crate::limits::MOST_MONTHS;
use crate::state::State;
use period_adjust::Seals;
use svc_base::{Month, last_day, month_of};
use svc_loan::Loans;
use svc_replay::LoanBooks;
use svc_types::{Limit, Refusal};

/// Why a month is not closed: `Full` (of 600 months), `WrongPeriod` (another one is next), `NotEnded`.
pub(crate) fn refuse_close<B: LoanBooks>(state: &State<B>, month: Month) -> Option<Refusal>
    requires ended { IfSome (last_month state.now.seals.reporting.reports) (λ last. last + 1 < months_end) }
    ensures { result ≡ rule.first_of (rule.close_cases
        (world_of state.now.today state.now.loans state.now.seals) month) }
{
    if state.seals.reports().len() >= MOST_MONTHS {
        return Some(Refusal::Full(Limit::Months));
    }
    let next = next_to_close(state);
    if month != next {
        return Some(Refusal::WrongPeriod(next));
    }
    let last = last_day(month);
    if state.today <= last {
        return Some(Refusal::NotEnded(last));
    }
    None
}

/// The month that is closed next: the one after the last closed; else the first boarded month; else the
/// business day's.
pub fn next_to_close<B: LoanBooks>(state: &State<B>) -> Month
    requires ended { IfSome (last_month state.now.seals.reporting.reports) (λ last. last + 1 < months_end) }
    ensures { result ≡ rule.expected_close (world_of state.now.today state.now.loans state.now.seals) }
{
    match state.seals.closed() {
        Some(last) => last.plus(1),
        None => first_expected(&state.loans, month_of(state.today)),
    }
}

/// The first month in which a loan was boarded; a month where no loan is there.
fn first_expected<B: LoanBooks>(loans: &Loans<B>, month: Month) -> Month
    ensures { result ≡ rule.first_expected month (held_in loans.now.loans) }
{
    match loans.first_boarded() {
        Some(first) => first,
        None => month,
    }
}

/// Why a month is not remitted: `NotClosed`, `WrongRemit` (another one is next).
pub(crate) fn refuse_remit<B: LoanBooks>(state: &State<B>, month: Month) -> Option<Refusal>
    requires ended { IfSome (last_month state.now.seals.reporting.reports) (λ last. last + 1 < months_end) }
    ensures { result ≡ rule.first_of (rule.remit_cases
        (world_of state.now.today state.now.loans state.now.seals) month) }
{
    match state.seals.closed() {
        Some(last) if month <= last => {}
        closed => return Some(Refusal::NotClosed(closed)),
    }
    let next = next_to_remit(&state.seals);
    if month != next {
        return Some(Refusal::WrongRemit(next));
    }
    None
}

/// The month that is remitted next, where one is closed.
pub fn next_to_remit(seals: &Seals) -> Month
    requires closed { is_some (last_month seals.now.reporting.reports) ≡ true }
    requires ended { IfSome (last_month seals.now.reporting.reports) (λ last. last + 1 < months_end) }
    ensures { result ≡ next_remit seals.now.remitted seals.now.reporting.reports }
{
    let reports = seals.reports();
    match seals.remitted() {
        Some(last) => last.plus(1),
        None => reports[0].month(),
    }
}
