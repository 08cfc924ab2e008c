//! A day of the calendar.

ghost use Rattle.std.specs.Prelude.{◌≡◌, ℕ, ◌+◌, ◌*◌, ◌<◌, ◌≤◌, ◌-◌};
ghost use Rattle.svc_base.specs.Calendar.{year_of_month, number_in_year, month_of, day_in_month};
ghost use Rattle.svc_base.specs.Calendar.{month_length, IsDay};
ghost use Rattle.std.specs.Prelude.{◌==◌};
ghost use Rattle.std.proofs.Common.{rules};
ghost use Rattle.std.specs.Cmp.{partial_order_from_own_ties as own_order};
ghost use Rattle.std.specs.Cmp.Rules.{comparing};
ghost use Rattle.std.specs.Ordering.{nat_cmp, on, as_partial_cmp};

use crate::month::Month;
use std::cmp::Ordering;
use std::marker::Model;

/// A day of the calendar: its value in contracts is 31 for each month before its month, and the
/// days of the month before it, so that later days have greater values.
#[derive(Clone, Copy, Debug)]
pub struct Day {
    month: Month,
    day: u8,
}

impl Model for Day {
    ghost use Rattle.std.specs.Prelude.{ℕ, ◌+◌, ◌*◌, ◌-◌, ◌/◌, ◌%◌};
    ghost use Rattle.svc_base.specs.DayFields.{IsDayOf};

    ghost Value = { ℕ };

    ghost view = { λ d. 31 * d.month + (d.day - 1) };

    ghost invariant = { λ d. IsDayOf d.month d.day };

    ghost inverse = { λ n. record { month = n / 31; day = n % 31 + 1 } };

    ghost use Rattle.svc_base.specs.DayLemmas.{fields_back};

    ghost inverse_ok = { fields_back };
}

#[tactic(auto, using(crate::specs::DayLemmas::month_length_most))]
impl Day {
    /// The day of that number, from 1, in a month that has it.
    pub fn new(month: Month, day: u32) -> Day
        requires first { 1 ≤ day }
        requires last { day ≤ month_length month }
        ensures { result ≡ 31 * month + (day - 1) }
    {
        Day {
            month,
            day: day as u8,
        }
    }

    /// Its month.
    pub fn in_month(&self) -> Month
        ensures { result ≡ month_of self.now }
    {
        self.month
    }

    /// Its year.
    pub fn year(&self) -> u32
        ensures { result ≡ year_of_month (month_of self.now) }
    {
        self.month.year()
    }

    /// The number of its month in the year, from 1.
    pub fn month(&self) -> u32
        ensures { result ≡ number_in_year (month_of self.now) }
    {
        self.month.month()
    }

    /// Its place in the month, from 1.
    pub fn day(&self) -> u32
        ensures place { result ≡ day_in_month self.now }
        ensures exists { IsDay self.now }
    {
        u32::from(self.day)
    }

    /// 31 for each month before its month, and the days of the month before it.
    fn number(&self) -> u32
        ensures { result ≡ self.now }
    {
        31 * self.month.number() + u32::from(self.day) - 1
    }
}

impl PartialEq for Day {
    ghost eq = { on (λ d. d) ◌==◌ };

    ghost laws = { Prim.search (comparing, rules) };

    fn eq(&self, other: &Day) -> bool {
        self.number() == other.number()
    }
}

impl Eq for Day {
    ghost laws = { Prim.search (comparing, rules) };
}

impl Ord for Day {
    ghost cmp = { nat_cmp };

    ghost total = { Prim.search (comparing, rules) };

    ghost matches_partial_cmp = { Prim.search (comparing, rules) };

    ghost matches_eq = { Prim.search (comparing, rules) };

    fn cmp(&self, other: &Day) -> Ordering {
        self.number().cmp(&other.number())
    }
}

impl PartialOrd for Day {
    ghost partial_cmp = { as_partial_cmp nat_cmp };

    ghost laws = { own_order (Prim.search (comparing, rules)) (Prim.search (comparing, rules)) };

    fn partial_cmp(&self, other: &Day) -> Option<Ordering> {
        Some(self.cmp(other))
    }
}
