//! The calendar, by rows that were worked by hand.

use std::test::Fail;
use svc_base::{
    Day, Month, add_days, add_months, days360, first_day, last_day, month_of, read_day, read_month,
    write_day, write_month,
};

/// The day that many days after the one that a text spells.
#[tactic(auto, using(svc_base::proofs::CalendarLemmas::day_after_most))]
fn later(text: &[u8], n: u32) -> Option<Day> {
    let day = read_day(text).ok()?;
    (n < 1_000).then(|| add_days(day, n))
}

#[test]
fn days_are_added_over_the_ends_of_months(rt: HostRuntime) {
    let rows = [
        ("2024-02-16", 0, "2024-02-16"),
        ("2024-02-16", 13, "2024-02-29"),
        ("2024-02-16", 14, "2024-03-01"),
        ("2024-02-16", 15, "2024-03-02"),
        ("2023-02-16", 15, "2023-03-03"),
        ("2024-02-29", 1, "2024-03-01"),
        ("2024-04-30", 1, "2024-05-01"),
        ("2024-12-31", 1, "2025-01-01"),
        ("2024-03-01", 15, "2024-03-16"),
        ("2024-01-31", 365, "2025-01-30"),
    ];
    for (from, n, want) in rows {
        assert_eq!(rt; later(from.as_bytes(), n), read_day(want.as_bytes()).ok());
    }
}

/// The days of a year of 360 between the days that two texts spell.
fn days_between(from: &str, to: &str) -> Option<u32> {
    let from = read_day(from.as_bytes()).ok()?;
    let to = read_day(to.as_bytes()).ok()?;
    Some(days360(from, to))
}

#[test]
fn a_year_of_360_has_months_of_30_days(rt: HostRuntime) {
    for (from, to, want) in [
        ("2024-02-01", "2024-03-01", 30),
        ("2024-01-31", "2024-02-01", 1),
        ("2024-01-30", "2024-02-01", 1),
        ("2024-02-01", "2024-02-29", 28),
        ("2024-01-01", "2024-01-31", 29),
        ("2024-02-29", "2024-03-31", 31),
        ("2023-12-15", "2024-12-15", 360),
        ("2024-03-01", "2024-02-01", 0),
        ("2024-02-01", "2024-02-01", 0),
    ] {
        assert_eq!(rt; days_between(from, to), Some(want));
    }
}

/// The first and the last day of the month that a text spells, and the month of its last day.
fn ends(month: &[u8]) -> Option<([u8; 10], [u8; 10], [u8; 7])> {
    let month = read_month(month).ok()?;
    let (first, last) = (first_day(month), last_day(month));
    Some((
        write_day(first),
        write_day(last),
        write_month(month_of(last)),
    ))
}

#[test]
fn months_have_their_first_and_last_days(rt: HostRuntime) {
    for (month, first, last) in [
        (b"2024-02", b"2024-02-01", b"2024-02-29"),
        (b"2023-02", b"2023-02-01", b"2023-02-28"),
        (b"2000-02", b"2000-02-01", b"2000-02-29"),
        (b"2024-04", b"2024-04-01", b"2024-04-30"),
        (b"2024-12", b"2024-12-01", b"2024-12-31"),
    ] {
        assert_eq!(rt; ends(month.as_slice()), Some((*first, *last, *month)));
    }
}

#[test]
fn months_are_counted_over_the_ends_of_years(rt: HostRuntime) -> Result<(), Fail> {
    let (first, last) = (read_month(b"2024-02")?, read_month(b"2054-01")?);
    assert_eq!(rt; add_months(first, 359), last);
    assert_eq!(rt; add_months(Month::new(2140, 11), 1), Month::new(2140, 12));
    assert_eq!(rt; (last.year(), last.month()), (2054, 1));
    let day = read_day(b"2024-02-29")?;
    assert_eq!(rt; (day.year(), day.month(), day.day()), (2024, 2, 29));
    Ok(())
}
