//! The books at the ends of months: folding from one to the next.

ghost use Rattle.std.specs.Prelude.{◌≡◌, ◌+◌, ◌-◌, ◌≤◌, length, vec_len, vec_capacity};
ghost use Rattle.svc_base.specs.Calendar.{month_of as month_number, IsDay};
ghost use Rattle.svc_spec.specs.Accounts.{IsAccount, live_of, books_of};
ghost use Rattle.svc_spec.specs.Books.{AreBooks};
ghost use Rattle.svc_spec.specs.Months.{counted, books_at_end};
ghost use Rattle.svc_replay.specs.Left.{IsPlace};
ghost use Rattle.svc_types.specs.Collected.{collected_of};
ghost use Rattle.svc_replay.specs.Collected.{AreWithin};
ghost use Rattle.svc_checkpoint.specs.Ends as rule;
ghost use Rattle.svc_checkpoint.specs.Plans.{AreNamed};

use crate::month_end::MonthEnd;
use crate::plans::{Plans, plan_with};
use std::sync::ledger::Ledger;
use svc_apply::start;
use svc_base::{Day, Month, Steps, last_day, month_of};
use svc_replay::{Cursor, LoanAccount, fold_along, fold_on};
use svc_types::{Books, Collected};

/// How many months a month is after the boarded one.
pub(crate) fn place_of(kept: &LoanAccount, month: Month) -> usize
    requires { month_number kept.now.account.terms.boarded ≤ month }
    ensures { month_number kept.now.account.terms.boarded + result ≡ month }
{
    (month.number() - month_of(kept.terms().boarded).number()) as usize
}

/// The books at the end of the month before one; in the boarded month those of the boarded day.
fn folded_before<L: Ledger>(
    kept: &LoanAccount,
    ends: &[MonthEnd],
    month: Month,
    steps: &mut Steps<L>,
) -> Books
    requires after { month_number kept.now.account.terms.boarded ≤ month }
    requires until { month ≤ month_number kept.now.account.today }
    requires count { month ≤ month_number kept.now.account.terms.boarded + length ends.now }
    requires ends { rule.AreEnds kept.now.account ends.now
        (month - month_number kept.now.account.terms.boarded) }
    ensures books { result ≡ books_of kept.now.account result.day }
    ensures day { result.day ≡ rule.day_before kept.now.account month }
    ensures sound { AreBooks kept.now.account.terms result }
    ensures steps { steps.new + rule.counted_before kept.now.account month
        ≡ steps.old + counted kept.now.account.terms (live_of kept.now.account) result.day }
{
    kept.is_account();
    let place = place_of(kept, month);
    if place == 0 {
        return kept.refolded(kept.terms().boarded, steps);
    }
    books_from(kept, &ends[place - 1], last_day(month.previous()))
}

/// The books of which that is kept.
fn books_from(kept: &LoanAccount, end: &MonthEnd, day: Day) -> Books
    requires { rule.IsEnd kept.now.account day end.now }
    ensures books { result ≡ books_of kept.now.account day }
    ensures sound { AreBooks kept.now.account.terms result }
{
    kept.is_account();
    let plan = plan_with(kept, end.plan);
    let earlier = plan_with(kept, end.earlier);
    end.books(kept.terms(), day, plan, earlier)
}

/// The plans at the end of the month before one; before the boarded one that of boarding.
fn plans_before(kept: &LoanAccount, ends: &[MonthEnd], place: usize) -> Plans
    requires count { place ≤ length ends.now }
    requires ends { rule.AreEnds kept.now.account ends.now place }
    ensures { AreNamed kept.now.account result }
{
    if place == 0 {
        return Plans::with(kept, None, None);
    }
    let end = ends[place - 1];
    Plans::with(kept, end.plan, end.earlier)
}

/// What is kept of books at a month's end, by plans of the account, which become theirs.
fn end_with(kept: &LoanAccount, plans: &mut Plans, books: &Books) -> MonthEnd
    requires plans { AreNamed kept.now.account plans.old }
    requires books { books.now ≡ books_of kept.now.account books.now.day }
    ensures end { rule.IsEnd kept.now.account books.now.day result }
    ensures plans { AreNamed kept.now.account plans.new }
{
    kept.is_account();
    plans.move_to(kept, books);
    MonthEnd::of(books, plans.newest.number, plans.earlier.number)
}

/// The books at a day, folded on from the end of the month before; in the boarded month from boarding.
#[inline(always)]
pub(crate) fn folded<L: Ledger>(
    kept: &LoanAccount,
    ends: &[MonthEnd],
    day: Day,
    steps: &mut Steps<L>,
) -> Books
    requires after { kept.now.account.terms.boarded ≤ day }
    requires until { day ≤ kept.now.account.today }
    requires count { month_number day ≤ month_number kept.now.account.terms.boarded + length ends.now }
    requires ends { rule.AreEnds kept.now.account ends.now
        (month_number day - month_number kept.now.account.terms.boarded) }
    ensures books { result ≡ books_of kept.now.account day }
    ensures sound { AreBooks kept.now.account.terms result }
    ensures steps { steps.new + rule.counted_before kept.now.account (month_number day)
        ≡ steps.old + counted kept.now.account.terms (live_of kept.now.account) day }
{
    kept.is_account();
    let mut books = folded_before(kept, ends, month_of(day), steps);
    fold_on(&mut books, kept.terms(), &kept.live(), day, steps);
    books
}

/// Makes the end of each month from one on anew, and gives the books of the business day.
#[inline(always)]
pub(crate) fn refreshed<L: Ledger>(
    kept: &LoanAccount,
    ends: &mut Vec<MonthEnd>,
    from: Month,
    steps: &mut Steps<L>,
) -> Books
    requires after { month_number kept.now.account.terms.boarded ≤ from }
    requires until { from ≤ month_number kept.now.account.today }
    requires count { month_number kept.now.account.terms.boarded + length ends.old.items
        ≡ month_number kept.now.account.today }
    requires ends { rule.AreEnds kept.now.account ends.old.items
        (from - month_number kept.now.account.terms.boarded) }
    ensures account { IsAccount kept.now.account }
    ensures ends { rule.AreEnds kept.now.account ends.new.items (length ends.new.items) }
    ensures count { length ends.new.items ≡ length ends.old.items }
    ensures len { vec_len ends.new ≡ vec_len ends.old }
    ensures capacity { vec_capacity ends.new ≡ vec_capacity ends.old }
    ensures books { result ≡ books_of kept.now.account kept.now.account.today }
    ensures sound { AreBooks kept.now.account.terms result }
    ensures steps { steps.new + rule.counted_before kept.now.account from ≡ steps.old
        + counted kept.now.account.terms (live_of kept.now.account) kept.now.account.today }
{
    kept.is_account();
    let terms = kept.terms();
    let live = kept.live();
    let last = month_of(kept.today());
    let mut books = folded_before(kept, ends, from, steps);
    let mut cursor = Cursor::after(terms, &live, books.day);
    let mut plans = plans_before(kept, ends, place_of(kept, from));
    let mut month = from;
    while month < last {
        let day = last_day(month);
        fold_along(&mut books, &mut cursor, terms, &live, day, steps);
        let place = place_of(kept, month);
        ends[place] = end_with(kept, &mut plans, &books);
        month = month.plus(1);
    }
    fold_along(&mut books, &mut cursor, terms, &live, kept.today(), steps);
    books
}

/// Moves books and their cursor on to a later day, and adds the ends of the months from theirs to the one before that
/// day.
#[inline(always)]
pub(crate) fn push_on<L: Ledger>(
    kept: &LoanAccount,
    ends: &mut Vec<MonthEnd>,
    now: &mut Books,
    cursor: &mut Cursor,
    day: Day,
    steps: &mut Steps<L>,
)
    requires exists { IsDay now.old.day }
    requires after { kept.now.account.terms.boarded ≤ now.old.day }
    requires until { now.old.day ≤ day }
    requires books { now.old ≡ books_of kept.now.account now.old.day }
    requires place { IsPlace kept.now.account.terms (live_of kept.now.account) now.old.day cursor.old }
    requires count { month_number kept.now.account.terms.boarded + length ends.old.items
        ≡ month_number now.old.day }
    requires ends { rule.AreEnds kept.now.account ends.old.items (length ends.old.items) }
    requires room { vec_len ends.old + (month_number day - month_number now.old.day)
        ≤ vec_capacity ends.old }
    ensures count { month_number kept.now.account.terms.boarded + length ends.new.items ≡ month_number day }
    ensures ends { rule.AreEnds kept.now.account ends.new.items (length ends.new.items) }
    ensures capacity { vec_capacity ends.new ≡ vec_capacity ends.old }
    ensures books { now.new ≡ books_of kept.now.account day }
    ensures sound { AreBooks kept.now.account.terms now.new }
    ensures place { IsPlace kept.now.account.terms (live_of kept.now.account) day cursor.new }
    ensures steps { steps.new + counted kept.now.account.terms (live_of kept.now.account) now.old.day
        ≡ steps.old + counted kept.now.account.terms (live_of kept.now.account) day }
{
    kept.is_account();
    let last = month_of(day);
    let mut plans = plans_before(kept, ends, ends.len());
    let mut month = month_of(now.day);
    while month < last {
        fold_along(
            now,
            cursor,
            kept.terms(),
            &kept.live(),
            last_day(month),
            steps,
        );
        ends.push_reserved(end_with(kept, &mut plans, now));
        month = month.plus(1);
    }
    fold_along(now, cursor, kept.terms(), &kept.live(), day, steps);
}

/// What was collected by the end of the month before one; before the boarded one nothing.
pub(crate) fn collected_before(kept: &LoanAccount, ends: &[MonthEnd], month: Month) -> Collected
    requires after { month_number kept.now.account.terms.boarded ≤ month }
    requires until { month ≤ month_number kept.now.account.today }
    requires count { month ≤ month_number kept.now.account.terms.boarded + length ends.now }
    requires ends { rule.AreEnds kept.now.account ends.now (length ends.now) }
    ensures collected { result ≡ collected_of (books_at_end kept.now.account (month - 1)) }
    ensures within { AreWithin result }
{
    kept.is_account();
    let place = place_of(kept, month);
    if place == 0 {
        return Collected::of(&start(kept.terms()));
    }
    ends[place - 1].collected()
}

/// What was collected by the end of a month; by that of the business day's month what was until now.
pub(crate) fn collected_by(
    kept: &LoanAccount,
    ends: &[MonthEnd],
    now: &Books,
    month: Month,
) -> Collected
    requires after { month_number kept.now.account.terms.boarded ≤ month }
    requires until { month ≤ month_number kept.now.account.today }
    requires account { IsAccount kept.now.account }
    requires today { IsDay kept.now.account.today }
    requires count { month_number kept.now.account.terms.boarded + length ends.now
        ≡ month_number kept.now.account.today }
    requires ends { rule.AreEnds kept.now.account ends.now (length ends.now) }
    requires now { now.now ≡ books_of kept.now.account kept.now.account.today }
    requires sound { AreBooks kept.now.account.terms now.now }
    ensures collected { result ≡ collected_of (books_at_end kept.now.account month) }
    ensures within { AreWithin result }
{
    let place = place_of(kept, month);
    if place < ends.len() {
        return ends[place].collected();
    }
    Collected::of(now)
}
