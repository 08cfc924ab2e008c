//! A month of a year.

ghost use Rattle.std.specs.Prelude.{◌≡◌, ℕ, ◌+◌, ◌*◌, ◌<◌, ◌≤◌, ◌-◌};
ghost use Rattle.svc_base.specs.Calendar.{year_of_month, number_in_year, months_begin, months_end};

use std::marker::Model;

/// A month of a year: its value in contracts is the count of months since January of the year 0.
#[derive(Clone, Copy, Debug, PartialEq, Eq, PartialOrd, Ord, Hash)]
pub struct Month {
    number: u16,
}

impl Model for Month {
    ghost use Rattle.std.specs.Prelude.{ℕ};
    ghost use Rattle.svc_base.specs.Calendar.{IsMonth};

    ghost Value = { ℕ };

    ghost view = { λ m. m.number };

    ghost invariant = { λ m. IsMonth m.number };

    ghost inverse = { λ n. record { number = n } };
}

impl Month {
    /// The month of that number, from 1, in a year from 1989 to 2140.
    pub fn new(year: u32, month: u32) -> Month
        requires first_year { 1989 ≤ year }
        requires last_year { year ≤ 2140 }
        requires first { 1 ≤ month }
        requires last { month ≤ 12 }
        ensures { result ≡ 12 * year + (month - 1) }
    {
        Month {
            number: (12 * year + (month - 1)) as u16,
        }
    }

    /// Its year.
    pub fn year(&self) -> u32
        ensures { result ≡ year_of_month self.now }
    {
        u32::from(self.number) / 12
    }

    /// Its number in the year, from 1.
    pub fn month(&self) -> u32
        ensures { result ≡ number_in_year self.now }
    {
        u32::from(self.number) % 12 + 1
    }

    /// The count of months since January of the year 0.
    pub fn number(&self) -> u32
        ensures value { result ≡ self.now }
        ensures begin { months_begin ≤ self.now }
        ensures end { self.now < months_end }
    {
        u32::from(self.number)
    }

    /// The month that many months later.
    pub fn plus(&self, n: u32) -> Month
        requires { self.now + n < months_end }
        ensures { result ≡ self.now + n }
    {
        Month {
            number: (u32::from(self.number) + n) as u16,
        }
    }

    /// The month before.
    pub fn previous(&self) -> Month
        requires { months_begin < self.now }
        ensures { result + 1 ≡ self.now }
    {
        Month {
            number: self.number - 1,
        }
    }
}
