//! Days and months that follow from others, and days of a year of 360.

ghost use Rattle.std.specs.Prelude.{◌≡◌, ◌+◌, ◌<◌, ◌≤◌, ◌-◌, ◌*◌};
ghost use Rattle.svc_base.specs.Calendar as calendar;

use crate::day::Day;
use crate::month::Month;
use jiff::civil::Date;

/// The month that a day is in.
pub fn month_of(day: Day) -> Month
    ensures { result ≡ calendar.month_of day }
{
    day.in_month()
}

/// The first day of a month.
#[tactic(auto, using(crate::specs::DayLemmas::month_length_least))]
pub fn first_day(month: Month) -> Day
    ensures { result ≡ calendar.first_day month }
{
    Day::new(month, 1)
}

/// The last day of a month.
#[tactic(auto, using(crate::specs::DayLemmas::month_length_least))]
pub fn last_day(month: Month) -> Day
    ensures { result ≡ calendar.last_day month }
{
    Day::new(month, month_length(month))
}

/// The month that many months later, up to the end of 2140.
pub fn add_months(month: Month, n: u32) -> Month
    requires { month + n < calendar.months_end }
    ensures { result ≡ month + n }
{
    month.plus(n)
}

/// How many days a month has.
#[tactic(auto, using(std::proofs::lemmas::Int::ints), unfolding(crate::specs::Calendar::month_length))]
fn month_length(month: Month) -> u32
    ensures { result ≡ calendar.month_length month }
{
    match Date::new(month.year() as i16, month.month() as i8, 1) {
        Ok(first) => first.days_in_month() as u32,
        Err(_) => unreachable!(),
    }
}

/// The day that many days later, up to the end of 2140.
pub fn add_days(day: Day, n: u32) -> Day
    requires { calendar.month_of (calendar.day_after day n) < calendar.months_end }
    ensures { result ≡ calendar.day_after day n }
{
    let length = month_length(day.in_month());
    if day.day() + n <= length {
        return Day::new(day.in_month(), day.day() + n);
    }
    add_days(
        first_day(day.in_month().plus(1)),
        day.day() + n - length - 1,
    )
}

/// Days from one day to another where each month has 30 days and the 31st counts as the 30th;
/// never below 0.
pub fn days360(from: Day, to: Day) -> u32
    ensures { result ≡ calendar.days360 from to }
{
    place360(to).saturating_sub(place360(from))
}

fn place360(day: Day) -> u32
    ensures { result ≡ calendar.place360 day }
{
    30 * day.in_month().number() + day.day().min(30)
}
