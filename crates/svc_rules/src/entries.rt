//! Why an entry is refused, whatever its act is: one of a day, one of the business day, and the adjustments that
//! it may make.

ghost use Rattle.std.specs.Prelude.{◌≡◌, ◌+◌, ◌≤◌, None, [], ◌∷◌};
ghost use Rattle.svc_world.specs.Refusals as rule;
ghost use Rattle.svc_rules.specs.State.{world_of};

use crate::limits::{MOST_ADJUSTMENTS, MOST_ENTRIES};
use crate::state::State;
use period_adjust::Seals;
use svc_base::{Cents, Day, Month};
use svc_loan::Loan;
use svc_replay::LoanBooks;
use svc_types::{Limit, Refusal};

/// Why an entry of a day is refused before what its act asks is looked at: `Full` (of 4,096 entries), `BadAmount` (not
/// 1 to 10^10 cents), `FutureDated` (after the business day), `BeforeBoarding`.
pub(crate) fn refuse_dated<B: LoanBooks>(
    state: &State<B>,
    loan: &Loan<B>,
    day: Day,
    cents: Cents,
) -> Option<Refusal>
    ensures cause { result ≡ rule.first_of
        (rule.full_of_entries loan.now.held ∷ rule.bad_amount cents
        ∷ rule.future_dated (world_of state.now.today state.now.loans state.now.seals) day
        ∷ rule.before_boarding loan.now.held day ∷ []) }
    ensures since { result ≡ None → loan.now.held.account.terms.boarded ≤ day }
    ensures until { result ≡ None → day ≤ state.now.today }
{
    if loan.moved().entries >= MOST_ENTRIES {
        return Some(Refusal::Full(Limit::Entries));
    }
    if !(1 <= cents && cents <= 10_000_000_000) {
        return Some(Refusal::BadAmount);
    }
    if state.today < day {
        return Some(Refusal::FutureDated(state.today));
    }
    let boarded = loan.terms().boarded;
    if day < boarded {
        return Some(Refusal::BeforeBoarding(boarded));
    }
    None
}

/// Why an entry of the business day is refused before what its act asks is looked at: `Full` (of 4,096 entries),
/// `BadAmount` (not 1 to 10^10 cents).
pub(crate) fn refuse_present<B: LoanBooks>(loan: &Loan<B>, cents: Cents) -> Option<Refusal>
    ensures { result ≡ rule.first_of (rule.full_of_entries loan.now.held ∷ rule.bad_amount cents ∷ []) }
{
    if loan.moved().entries >= MOST_ENTRIES {
        return Some(Refusal::Full(Limit::Entries));
    }
    if !(1 <= cents && cents <= 10_000_000_000) {
        return Some(Refusal::BadAmount);
    }
    None
}

/// Why an entry is refused by the adjustments that it may make: `AdjustmentsFull`, one for each closed month from the
/// entry's on would be more than 4,000,000 in all.
pub(crate) fn refuse_adjustments<B: LoanBooks>(state: &State<B>, month: Month) -> Option<Refusal>
    ensures { result ≡ rule.first_of
        (rule.adjustments_full (world_of state.now.today state.now.loans state.now.seals) month ∷ []) }
{
    let held = state.seals.held();
    if MOST_ADJUSTMENTS < u64::from(held) + closed_from(&state.seals, month) {
        return Some(Refusal::AdjustmentsFull(held));
    }
    None
}

/// How many months are closed from one on.
fn closed_from(seals: &Seals, month: Month) -> u64
    ensures value { result ≡ rule.closed_from seals.now.reporting.reports month }
    ensures few { result ≤ 25_680 }
{
    let count = seals.reports().len() as u64;
    match seals.closed() {
        Some(last) => count.min(u64::from(last.number() + 1).saturating_sub(u64::from(
            month.number(),
        ))),
        None => 0,
    }
}
