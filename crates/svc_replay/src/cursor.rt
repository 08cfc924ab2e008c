//! A walk over the events of a loan in their order, without a list of them.

ghost use Rattle.std.specs.Prelude.{◌≡◌, ℕ, ◌+◌, ◌≤◌, ◌<◌, min, length, get_or, true, false, None, Some, IfSome, MatchOption};
ghost use Rattle.std.specs.List.{All, AllPairs};
ghost use Rattle.svc_base.specs.Calendar.{IsReadDay, month_of as month_number};
ghost use Rattle.svc_base.specs.Calendar as months;
ghost use Rattle.svc_types.specs.declared.account.Entry.{Entry};
ghost use Rattle.svc_types.specs.Terms.{IsSound};
ghost use Rattle.svc_spec.specs.Entries.{AreEntries};
ghost use Rattle.svc_spec.specs.Events as events;
ghost use Rattle.svc_replay.specs.Left as rule;

use crate::entries::Live;
use svc_base::{Day, Month, add_days, add_months, first_day, month_of};
use svc_types::{Event, Terms, What};

/// The late marks up to a day: how many they are, and the day of the next one.
#[derive(Clone, Copy, Debug)]
pub struct Lates {
    pub count: u32,
    pub next: Option<Day>,
}

/// What has been passed: the last month whose mark was, the late marks and the number of entries.
#[derive(Drop, Debug)]
pub struct Cursor {
    pub(crate) month: Month,
    pub(crate) lates: Lates,
    pub(crate) entry: usize,
}

impl Cursor {
    /// Before all events of a loan.
    pub(crate) fn new(terms: &Terms) -> Cursor
        requires terms { IsSound terms.now }
        requires boarded { IsReadDay terms.now.boarded }
        ensures month { result.month ≡ month_number terms.now.boarded }
        ensures late { result.lates.count ≡ 0 }
        ensures next { result.lates.next ≡ rule.next_late terms.now 0 }
        ensures entry { result.entry ≡ 0 }
    {
        Cursor {
            month: month_of(terms.boarded),
            lates: lates_after(terms, 0),
            entry: 0,
        }
    }

    /// After all events of a loan up to a day.
    pub fn after(terms: &Terms, live: &Live, day: Day) -> Cursor
        requires terms { IsSound terms.now }
        requires boarded { IsReadDay terms.now.boarded }
        requires order { AllPairs (λ a b. a.day ≤ b.day) live.now }
        ensures { rule.IsPlace terms.now live.now day result }
    {
        Cursor {
            month: month_of(day),
            lates: lates_after(terms, lates_by(terms, day)),
            entry: live.up_to(day),
        }
    }

    /// After all events of a loan up to a day that is not before its entries.
    pub fn after_all(terms: &Terms, live: &Live, day: Day, lates: &Lates) -> Cursor
        requires until { All (λ e. e.day ≤ day) live.now }
        requires lates { rule.AreLates terms.now day lates.now }
        ensures { rule.IsPlace terms.now live.now day result }
    {
        Cursor {
            month: month_of(day),
            lates: *lates,
            entry: live.len(),
        }
    }

    /// The late marks that have been passed.
    pub fn lates(&self) -> Lates
        ensures { result ≡ self.now.lates }
    {
        self.lates
    }

    /// The earliest event that is left, up to a day; on one day a month mark, then a late mark,
    /// then the entries as they stand.
    #[inline(always)]
    pub(crate) fn next(&mut self, terms: &Terms, live: &Live, day: Day) -> Option<Event>
        requires terms { IsSound terms.now }
        requires boarded { IsReadDay terms.now.boarded }
        requires entries { AreEntries terms.now live.now }
        requires next { self.old.lates.next ≡ rule.next_late terms.now self.old.lates.count }
        ensures follows { rule.Follows result
            (rule.left terms.now live.now day self.old.month self.old.lates.count self.old.entry)
            (rule.left terms.now live.now day self.new.month self.new.lates.count self.new.entry) }
        ensures next { self.new.lates.next ≡ rule.next_late terms.now self.new.lates.count }
        ensures by { rule.IsBy terms.now live.now day self.old.month self.old.lates.count self.old.entry
            → rule.IsBy terms.now live.now day self.new.month self.new.lates.count self.new.entry }
        ensures kept { result ≡ None → self.new ≡ self.old }
    {
        let until = self.until(live, day);
        if self.is_month_next(until) {
            self.month = self.month.plus(1);
            return Some(Event {
                day: first_day(self.month),
                what: What::MonthMark,
            });
        }
        if let Some(late) = self.late_by(until) {
            self.lates = lates_after(terms, self.lates.count + 1);
            return Some(Event {
                day: late,
                what: What::LateMark(self.lates.count),
            });
        }
        if self.entry >= live.len() {
            return None;
        }
        let entry = live.at(self.entry);
        if entry.day > day {
            return None;
        }
        self.entry += 1;
        Some(Event {
            day: entry.day,
            what: What::Act(entry.act),
        })
    }

    /// The day of the next entry, or a day that is before it: a mark that is left up to then comes first.
    #[inline(always)]
    fn until(&self, live: &Live, day: Day) -> Day
        ensures by { result ≤ day }
        ensures none { length live.now ≤ self.now.entry → result ≡ day }
        ensures some { self.now.entry < length live.now → (e : Entry)
            → get_or live.now self.now.entry e ≡ e → result ≡ min e.day day }
    {
        if self.entry >= live.len() {
            return day;
        }
        let first = live.day_at(self.entry);
        if first > day {
            return day;
        }
        first
    }

    /// Whether a month mark is left up to a day, and no late mark before it.
    #[inline(always)]
    fn is_month_next(&self, until: Day) -> bool
        ensures month { result ≡ true → self.now.month < month_number until }
        ensures late { result ≡ true
            → IfSome self.now.lates.next (λ late. months.first_day (self.now.month + 1) ≤ late) }
        ensures later { result ≡ false → (d : ℕ) → d ≤ until
            → IfSome self.now.lates.next (λ late. d ≤ late) → d < months.first_day (self.now.month + 1) }
    {
        if self.month >= month_of(until) {
            return false;
        }
        match self.lates.next {
            Some(late) => first_day(self.month.plus(1)) <= late,
            None => true,
        }
    }

    /// The next late mark, where it is left up to a day.
    #[inline(always)]
    fn late_by(&self, until: Day) -> Option<Day>
        ensures { MatchOption result (IfSome self.now.lates.next (λ late. until < late))
            (λ late. (self.now.lates.next ≡ Some late) × (late ≤ until)) }
    {
        let late = self.lates.next?;
        if late > until {
            return None;
        }
        Some(late)
    }
}

/// The first so many late marks, and the day of the next one.
fn lates_after(terms: &Terms, count: u32) -> Lates
    requires terms { IsSound terms.now }
    requires boarded { IsReadDay terms.now.boarded }
    ensures count { result.count ≡ count }
    ensures next { result.next ≡ rule.next_late terms.now count }
{
    Lates {
        count,
        next: late_after(terms, count),
    }
}

/// The day of the late mark after the first so many, where there is one.
fn late_after(terms: &Terms, count: u32) -> Option<Day>
    requires terms { IsSound terms.now }
    requires boarded { IsReadDay terms.now.boarded }
    ensures { result ≡ rule.next_late terms.now count }
{
    if count >= terms.term {
        return None;
    }
    Some(late_day(terms, count + 1))
}

/// The first day after the grace of installment k.
fn late_day(terms: &Terms, k: u32) -> Day
    requires terms { IsSound terms.now }
    requires boarded { IsReadDay terms.now.boarded }
    requires first { 1 ≤ k }
    requires last { k ≤ terms.now.term }
    ensures { result ≡ events.late_day terms.now k }
{
    let month = add_months(terms.first, k - 1);
    // all months have 28 days
    if terms.grace <= 26 {
        return Day::new(month, terms.grace + 2);
    }
    add_days(first_day(month), terms.grace + 1)
}

/// Of how many installments the grace is over by a day: of all that were due two months before it or
/// earlier, and of at most two more.
fn lates_by(terms: &Terms, day: Day) -> u32
    requires terms { IsSound terms.now }
    requires boarded { IsReadDay terms.now.boarded }
    ensures few { result ≤ terms.now.term }
    ensures over { 1 ≤ result → events.late_day terms.now result ≤ day }
    ensures open_grace { result < terms.now.term → day < events.late_day terms.now (result + 1) }
{
    let months = month_of(day).number();
    let due = months.saturating_sub(terms.first.number() + 1);
    let mut late = due.min(terms.term);
    while late < terms.term && late_day(terms, late + 1) <= day {
        late += 1;
    }
    late
}
