//! Calls of books for which room was made: none of them fails.

ghost use Rattle.std.specs.Prelude.{◌≡◌, ◌+◌, ◌-◌, ◌≤◌, ◌<◌, length, None, Some};
ghost use Rattle.svc_base.specs.Calendar.{month_of as month_number};
ghost use Rattle.svc_spec.specs.Accounts as rule;
ghost use Rattle.svc_spec.specs.Books.{IsAct};
ghost use Rattle.svc_replay.specs.Faults.{most_entries};
ghost use Rattle.svc_replay.specs.Kept.{IsLoweredBy, one_entry, one_reversal, some_months};

use std::sync::ledger::Ledger;
use svc_base::{Day, Steps};
use svc_replay::LoanBooks;
use svc_types::Entry;

/// Adds an entry.
pub(crate) fn post_reserved<B: LoanBooks, L: Ledger>(
    books: &mut B,
    entry: &Entry,
    steps: &mut Steps<L>,
)
    requires entry { rule.MayPost (B.account books.old) entry.now }
    requires few { length (B.account books.old).entries < most_entries }
    requires room { 1 ≤ (B.room books.old).entries }
    ensures account { B.account books.new ≡ rule.posted entry.now (B.account books.old) }
    ensures room { IsLoweredBy one_entry (B.room books.old) (B.room books.new) }
    ensures steps { steps.new ≤ steps.old + B.cost (B.account books.new) (month_number entry.now.day) }
{
    match books.post(*entry, steps) {
        Ok(()) => {}
        Err(_) => unreachable!(),
    }
}

/// Reverses an entry that is there and was not reversed.
#[tactic(auto, using(crate::proofs::LoanLemmas::entry_act, crate::proofs::LoanLemmas::entry_since))]
pub(crate) fn reverse_reserved<B: LoanBooks, L: Ledger>(
    books: &mut B,
    entry: &Entry,
    by: u32,
    steps: &mut Steps<L>,
)
    requires entry { rule.entry_of (B.account books.old) entry.now.number ≡ Some entry.now }
    requires live { rule.reverser_of (B.account books.old) entry.now.number ≡ None }
    requires room { 1 ≤ (B.room books.old).reversals }
    ensures account { B.account books.new
        ≡ rule.reversed_in entry.now.number by (B.account books.old) }
    ensures room { IsLoweredBy one_reversal (B.room books.old) (B.room books.new) }
    ensures act { IsAct entry.now.act }
    ensures since { (B.account books.old).terms.boarded ≤ entry.now.day }
    ensures steps { steps.new ≤ steps.old + B.cost (B.account books.new) (month_number entry.now.day) }
{
    books.is_account();
    match books.reverse(entry.number, by, steps) {
        Ok(()) => {}
        Err(_) => unreachable!(),
    }
}

/// Moves the business day on.
pub(crate) fn advance_reserved<B: LoanBooks, L: Ledger>(
    books: &mut B,
    today: Day,
    steps: &mut Steps<L>,
)
    requires later { (B.account books.old).today ≤ today }
    requires room { month_number today ≤ month_number (B.account books.old).today + (B.room books.old).months }
    ensures account { B.account books.new ≡ rule.advanced_to today (B.account books.old) }
    ensures room { IsLoweredBy (some_months (month_number today - month_number (B.account books.old).today))
        (B.room books.old) (B.room books.new) }
    ensures steps { steps.new ≤ steps.old
        + B.cost (B.account books.new) (month_number (B.account books.old).today) }
{
    match books.advance(today, steps) {
        Ok(()) => {}
        Err(_) => unreachable!(),
    }
}
