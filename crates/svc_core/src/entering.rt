//! Commands that may change what is due of a loan for closed months: an entry, and a reversal. What they
//! change is recorded for the investor.

ghost use Rattle.std.specs.Prelude.{◌≡◌, ◌+◌, ◌*◌, ◌≤◌, true, is_some, Some, None, length, vec_capacity};
ghost use Rattle.std.specs.List.{All};
ghost use Rattle.svc_base.specs.Calendar.{month_of as month_number};
ghost use Rattle.period_adjust.specs.Changes.{adjustments_of};
ghost use Rattle.period_adjust.specs.Conditions.{MayChange};
ghost use Rattle.period_adjust.specs.Totals as totals;
ghost use Rattle.period_adjust.specs.Totals.{Change};
ghost use Rattle.svc_types.specs.declared.requests.Command.TheVariants as request;
ghost use Rattle.svc_spec.specs.Accounts.{entry_of};
ghost use Rattle.svc_world.specs.Held as held;
ghost use Rattle.svc_world.specs.Refusals.{refusal_of};
ghost use Rattle.svc_world.specs.World.{after};
ghost use Rattle.svc_world.specs.Changing.{MayEnter, world_with};
ghost use Rattle.svc_loan.specs.Kept.{IsReady};
ghost use Rattle.svc_loan.specs.Loans.{IsThere, OfLoan};
ghost use Rattle.svc_custody.specs.Cash.{IsKeptIn};
ghost use Rattle.svc_core.specs.Changing.{dues_since};
ghost use Rattle.svc_core.specs.Costs.{accepting_cost, entering_cost};
ghost use Rattle.svc_core.specs.State.{IsState, world_of};

use period_adjust::Seals;
use remit_types::MonthDue;
use std::sync::ledger::Ledger;
use svc_base::{Month, Steps, month_of};
use svc_loan::{Loans, Place};
use svc_replay::LoanBooks;
use svc_rules::State;
use svc_types::Entry;

/// Adds an entry to a loan as the command after `count` others, and records what it changes in the dues
/// of closed months.
pub(crate) fn enter<B: LoanBooks, L: Ledger>(
    count: u32,
    place: Place,
    entry: &Entry,
    state: &mut State<B>,
    dues: &mut Vec<MonthDue>,
    steps: &mut Steps<L>,
)
    requires place { IsThere place state.old.loans.loans }
    requires state { IsState count state.old.today state.old.loans state.old.seals }
    requires entry { MayEnter count (world_of state.old.today state.old.loans state.old.seals) place.id entry.now }
    requires ready { OfLoan place.id state.old.loans.loans (IsReady state.old.today) }
    requires dues { 2 * length state.old.seals.reporting.reports ≤ vec_capacity dues.old }
    requires adjustments { length state.old.seals.reporting.reports ≤ state.old.seals.adjustment_room }
    ensures world { world_of state.new.today state.new.loans state.new.seals
        ≡ world_with (world_of state.old.today state.old.loans state.old.seals) place.id (held.with_entry entry.now)
        (count + 1) }
    ensures place { IsThere place state.new.loans.loans }
    ensures kept { All (IsKeptIn (world_of state.new.today state.new.loans state.new.seals))
        state.new.loans.loans }
    ensures steps { steps.new ≤ steps.old + entering_cost B.cost B.month_cost
        (world_of state.new.today state.new.loans state.new.seals) place.id (month_number entry.now.day) }
{
    let month = month_of(entry.day);
    copy_dues(&state.loans, place, month, dues);
    state.loans.post(place, entry, steps);
    record_dues(
        count + 1,
        place,
        month,
        dues,
        &state.loans,
        &mut state.seals,
    );
}

/// Reverses an entry of a loan as the command after `count` others, and records what it changes in the dues
/// of closed months.
pub(crate) fn reverse<B: LoanBooks, L: Ledger>(
    count: u32,
    place: Place,
    number: u32,
    state: &mut State<B>,
    dues: &mut Vec<MonthDue>,
    steps: &mut Steps<L>,
)
    requires place { IsThere place state.old.loans.loans }
    requires state { IsState count state.old.today state.old.loans state.old.seals }
    requires fresh { refusal_of count (world_of state.old.today state.old.loans state.old.seals)
        (request.Reverse place.id number) ≡ None }
    requires ready { OfLoan place.id state.old.loans.loans (IsReady state.old.today) }
    requires dues { 2 * length state.old.seals.reporting.reports ≤ vec_capacity dues.old }
    requires adjustments { length state.old.seals.reporting.reports ≤ state.old.seals.adjustment_room }
    ensures world { world_of state.new.today state.new.loans state.new.seals
        ≡ after (count + 1) (world_of state.old.today state.old.loans state.old.seals)
        (request.Reverse place.id number) }
    ensures place { IsThere place state.new.loans.loans }
    ensures kept { All (IsKeptIn (world_of state.new.today state.new.loans state.new.seals))
        state.new.loans.loans }
    ensures steps { steps.new ≤ steps.old + accepting_cost B.cost B.month_cost
        (world_of state.old.today state.old.loans state.old.seals)
        (world_of state.new.today state.new.loans state.new.seals) (request.Reverse place.id number) }
{
    let entry = entry_there(&state.loans, place, number);
    let month = month_of(entry.day);
    copy_dues(&state.loans, place, month, dues);
    state.loans.reverse(place, &entry, count + 1, steps);
    record_dues(
        count + 1,
        place,
        month,
        dues,
        &state.loans,
        &mut state.seals,
    );
}

/// The entry of a loan with that number, which is there.
fn entry_there<B: LoanBooks>(loans: &Loans<B>, place: Place, number: u32) -> Entry
    requires place { IsThere place loans.now.loans }
    requires entry { OfLoan place.id loans.now.loans (λ k. is_some (entry_of k.held.account number) ≡ true) }
    ensures { OfLoan place.id loans.now.loans (λ k. entry_of k.held.account number ≡ Some result) }
{
    match loans.loan(place).entry(number) {
        Some(entry) => entry,
        None => unreachable!(),
    }
}

/// Copies what is due of a loan for its closed months from one on.
fn copy_dues<B: LoanBooks>(loans: &Loans<B>, place: Place, month: Month, dues: &mut Vec<MonthDue>)
    requires place { IsThere place loans.now.loans }
    requires since { OfLoan place.id loans.now.loans (λ k. held.boarded_month k.held ≤ month) }
    requires room { OfLoan place.id loans.now.loans (λ k. length (dues_since month k) ≤ vec_capacity dues.old) }
    ensures dues { OfLoan place.id loans.now.loans (λ k. dues.new.items ≡ dues_since month k) }
    ensures capacity { vec_capacity dues.new ≡ vec_capacity dues.old }
{
    dues.clear();
    loans.loan(place).add_dues(month, dues);
}

/// Records what a command changed in what is due of a loan for its closed months from one on, where a list holds what
/// was due before it.
fn record_dues<B: LoanBooks>(
    number: u32,
    place: Place,
    month: Month,
    dues: &mut Vec<MonthDue>,
    loans: &Loans<B>,
    seals: &mut Seals,
)
    requires place { IsThere place loans.now.loans }
    requires since { OfLoan place.id loans.now.loans (λ k. held.boarded_month k.held ≤ month) }
    requires dues { OfLoan place.id loans.now.loans
        (λ k. length dues.old.items + length (dues_since month k) ≤ vec_capacity dues.old) }
    requires change { OfLoan place.id loans.now.loans
        (λ k. MayChange seals.old.reporting number place.id dues.old.items (dues_since month k)) }
    requires room { OfLoan place.id loans.now.loans (λ k. length (adjustments_of number place.id dues.old.items
        (dues_since month k)) ≤ seals.old.adjustment_room) }
    ensures done { OfLoan place.id loans.now.loans (λ k. seals.new.reporting
        ≡ totals.after seals.old.reporting (Change number place.id dues.old.items (dues_since month k))) }
    ensures remitted { seals.new.remitted ≡ seals.old.remitted }
{
    let former = dues.len();
    loans.loan(place).add_dues(month, dues);
    let (before, later) = dues.split_at(former);
    match seals.record_change(number, place.id(), before, later) {
        Ok(()) => {}
        Err(_) => unreachable!(),
    }
}
