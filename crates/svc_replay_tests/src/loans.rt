//! The loan that the tests take, and a few of its entries.

ghost use Rattle.std.specs.Prelude.{◌≡◌, ◌+◌, ◌-◌, ◌*◌, ◌≤◌, pos};
ghost use Rattle.svc_base.specs.Calendar.{IsReadDay};
ghost use Rattle.svc_types.specs.Terms.{IsSound};

use svc_base::{Day, Month};
use svc_types::{Act, Designation, Entry, RemitType, Terms};

/// A day before the 29th, of a year from 1990 to 2099.
#[tactic(auto, using(svc_base::specs::DayLemmas::month_length_least))]
pub(crate) fn day(year: u32, month: u32, day: u32) -> Day
    requires year { 1990 ≤ year }
    requires last { year ≤ 2099 }
    requires month { 1 ≤ month }
    requires december { month ≤ 12 }
    requires day { 1 ≤ day }
    requires short { day ≤ 28 }
    ensures value { result ≡ 31 * (12 * year + (month - 1)) + (day - 1) }
    ensures read { IsReadDay result }
{
    Day::new(Month::new(year, month), day)
}

/// A loan of 200,000.00 at 6 percent over 30 years, with 15 days of grace and a late charge of 5
/// percent, boarded in December 2023 and first due in February.
#[tactic(auto, using(svc_base::specs::DayLemmas::month_length_least), unfolding(svc_base::specs::Money::month_interest))]
pub(crate) fn loan() -> Terms
    ensures sound { IsSound result }
    ensures boarded { result.boarded ≡ 31 * (12 * 2023 + 11) + 14 }
    ensures read { IsReadDay result.boarded }
{
    Terms {
        boarded: day(2023, 12, 15),
        principal: 20_000_000,
        rate: 6_000,
        fee: 250,
        pi: 119_910,
        term: 360,
        first: Month::new(2024, 2),
        grace: 15,
        late: 500,
        cushion: 2,
        escrow: 0,
        kind: RemitType::SS,
    }
}

/// A payment of one installment.
pub(crate) fn payment(number: u32, day: Day) -> Entry
    ensures number { result.number ≡ number }
    ensures day { result.day ≡ day }
    ensures act { result.act ≡ Act.Pay (pos 119_910) Designation.Regular }
{
    Entry {
        number,
        day,
        act: Act::Pay(119_910, Designation::Regular),
    }
}

/// A cent for escrow.
pub(crate) fn deposit(number: u32, day: Day) -> Entry
    ensures number { result.number ≡ number }
    ensures day { result.day ≡ day }
    ensures act { result.act ≡ Act.Deposit (pos 1) }
{
    Entry {
        number,
        day,
        act: Act::Deposit(1),
    }
}
