//! What holds of all events, and of all ways of keeping books.

ghost use Rattle.std.specs.Prelude.{◌≡◌, ◌≤◌, ◌++◌, AllPairs, IsTrue, IsPermutation};
ghost use Rattle.std.specs.List.{All, filter};
ghost use Rattle.svc_base.specs.Calendar.{month_of};
ghost use Rattle.svc_spec.specs.Accounts.{Account, IsAccount, books_of, live_of};
ghost use Rattle.svc_spec.specs.Events.{month_marks, late_marks, entry_events, events_to};
ghost use Rattle.svc_spec.specs.History.{is_entry, history_of};
ghost use Rattle.svc_spec.specs.HistoryLaws.{AddUp, IsBalanced, entries_told};
ghost use Rattle.svc_spec.specs.Order.{MayPrecede};

use crate::loan_books::LoanBooks;
use std::sync::ledger::Ledger;
use svc_base::{Day, Month, Steps};
use svc_types::{Books, Entry, MonthFacts, Terms};

/// The events of a loan up to a day are its month marks, its late marks and its live entries up to that day, each once.
/// They stand in order: by day, and on one day the month mark, then late marks, then entries, and these as they stand
/// among the live ones, which is by number. The function has no code.
pub fn events_stand_in_order(terms: &Terms, live: &[Entry], day: Day)
    ensures order { AllPairs MayPrecede (events_to terms.now live.now day) }
    ensures all { IsPermutation
        (month_marks terms.now day ++ late_marks terms.now day ++ entry_events live.now day)
        (events_to terms.now live.now day) }
    ensures entries { AllPairs (λ a b. a.day ≤ b.day) live.now
        → filter (λ e. is_entry e.what) (events_to terms.now live.now day) ≡ entry_events live.now day }
{}

/// A loan's history adds up: each of its columns, summed, is that number of the books at the business day; each line
/// moved what its event brought in less what it paid out; and its lines of entries are the live entries, in their
/// order. The function has no code.
pub fn histories_add_up()
    ensures columns { (a : Account) → IsAccount a → AddUp (history_of a) (books_of a a.today) }
    ensures lines { (a : Account) → IsAccount a → All IsBalanced (history_of a) }
    ensures entries { (a : Account) → IsAccount a → entries_told (history_of a) ≡ live_of a }
{}

/// Whether two values give the same books now, the same at a day and the same facts of a month: they
/// do, however each keeps them, where they stand for one account.
pub fn agree<A: LoanBooks, B: LoanBooks, L: Ledger>(
    one: &A,
    other: &B,
    day: Day,
    month: Month,
    steps: &mut Steps<L>,
) -> bool
    requires account { A.account one.now ≡ B.account other.now }
    requires day_after { (A.account one.now).terms.boarded ≤ day }
    requires day_until { day ≤ (A.account one.now).today }
    requires month_after { month_of (A.account one.now).terms.boarded ≤ month }
    requires month_until { month ≤ month_of (A.account one.now).today }
    ensures { IsTrue result }
{
    let earlier = are_same_books(&one.books_at(day, steps), &other.books_at(day, steps));
    let facts = are_same_facts(&one.month(month, steps), &other.month(month, steps));
    earlier && facts && are_same_books(one.now(), other.now())
}

/// Whether books are the same: they are where all their fields are.
fn are_same_books(books: &Books, others: &Books) -> bool
    requires { books.now ≡ others.now }
    ensures { IsTrue result }
{
    *books == *others
}

/// Whether facts of a month are the same: they are where all their fields are.
fn are_same_facts(facts: &MonthFacts, others: &MonthFacts) -> bool
    requires { facts.now ≡ others.now }
    ensures { IsTrue result }
{
    *facts == *others
}
