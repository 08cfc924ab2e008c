//! By how many days a loan is late.

ghost use Rattle.std.specs.Prelude.{◌≡◌, ◌≤◌};
ghost use Rattle.svc_base.specs.Calendar.{month_of as month_number, IsReadDay};
ghost use Rattle.svc_types.specs.Terms.{IsSound};
ghost use Rattle.svc_spec.specs.Books.{AreBooks};
ghost use Rattle.svc_world.specs.Desk as desk;

use svc_apply::open_installment;
use svc_base::{Day, Month, last_day, month_of};
use svc_types::{Books, Installment, Terms};

/// By how many days the open installment is late on a day; 0 where none is open, or it is not past due.
#[tactic(auto, unfolding(svc_world::specs::Desk::late_days))]
pub(crate) fn late_days(books: &Books, terms: &Terms, day: Day) -> u32
    requires terms { IsSound terms.now }
    requires boarded { IsReadDay terms.now.boarded }
    requires books { AreBooks terms.now books.now }
    ensures { result ≡ desk.late_days day terms.now books.now }
{
    match open_installment(books, terms) {
        None => 0,
        Some(owed) => late_by(&owed, day),
    }
}

/// The days from an installment's due day to a day; 0 where that is not later.
fn late_by(owed: &Installment, day: Day) -> u32
    ensures { result ≡ desk.late_by day owed.now }
{
    if owed.due < day {
        days_since(month_of(owed.due), day)
    } else {
        0
    }
}

/// The days from a month's first day to a day of that month or a later one.
fn days_since(month: Month, day: Day) -> u32
    requires { month ≤ month_number day }
    ensures { result ≡ desk.days_since month day }
{
    let last = month_of(day);
    let mut days = day.day() - 1;
    let mut next = month;
    while next.number() < last.number() {
        days += last_day(next).day();
        next = next.plus(1);
    }
    days
}
