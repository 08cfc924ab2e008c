//! Texts and money, by rows that were worked by hand.

use std::alloc::{AllocError, Global};
use std::test::Fail;
use svc_base::{
    Cents, DayFault, OutOfMemory, day_interest, make_room, month_interest, push_signed,
    read_amount, read_day, read_month, read_number, share_bp, write_day, write_month,
};

#[test]
fn numbers_have_one_spelling(rt: HostRuntime) {
    let rows: [(&str, Option<u32>); 16] = [
        ("0", Some(0)),
        ("7", Some(7)),
        ("360", Some(360)),
        ("4294967295", Some(4_294_967_295)),
        ("4294967296", None),
        ("18446744073709551616", None),
        ("00", None),
        ("01", None),
        ("", None),
        ("+1", None),
        ("-1", None),
        ("1 ", None),
        (" 1", None),
        ("1.", None),
        ("12a", None),
        ("\u{661}", None),
    ];
    for (text, want) in rows {
        assert_eq!(rt; read_number(text.as_bytes()), want);
    }
}

#[test]
fn amounts_have_one_spelling(rt: HostRuntime) {
    let rows: [(&str, Option<Cents>); 18] = [
        ("0.00", Some(0)),
        ("0.05", Some(5)),
        ("0.50", Some(50)),
        ("1199.10", Some(119_910)),
        ("200000.00", Some(20_000_000)),
        ("99999999999.99", Some(9_999_999_999_999)),
        ("100000000000.00", None),
        ("00.00", None),
        ("01.00", None),
        (".50", None),
        ("1", None),
        ("1.", None),
        ("1.5", None),
        ("1.505", None),
        ("-1.00", None),
        ("+1.00", None),
        ("1,00", None),
        ("1.0a", None),
    ];
    for (text, want) in rows {
        assert_eq!(rt; read_amount(text.as_bytes()), want);
    }
}

/// The day that a text spells, written again.
fn written_day(text: &[u8]) -> Option<[u8; 10]> {
    Some(write_day(read_day(text).ok()?))
}

#[test]
fn days_are_read_and_written(rt: HostRuntime) {
    for text in [
        b"2024-02-29",
        b"1990-01-01",
        b"2099-12-31",
        b"2000-02-29",
        b"2023-04-30",
    ] {
        assert_eq!(rt; written_day(text.as_slice()), Some(*text));
    }
}

#[test]
fn days_are_civil_dates_of_the_years_that_are_read(rt: HostRuntime) {
    let rows = [
        ("2023-02-29", DayFault::NotADate),
        ("2100-02-29", DayFault::NotADate),
        ("2024-04-31", DayFault::NotADate),
        ("2024-13-01", DayFault::NotADate),
        ("2024-00-01", DayFault::NotADate),
        ("2024-01-00", DayFault::NotADate),
        ("2024-1-01", DayFault::NotADate),
        ("2024/01/01", DayFault::NotADate),
        ("2024-01-01 ", DayFault::NotADate),
        ("-024-01-01", DayFault::NotADate),
        ("10000-01-01", DayFault::NotADate),
        ("", DayFault::NotADate),
        ("2100-01-01", DayFault::YearOutside),
        ("1989-12-31", DayFault::YearOutside),
        ("0000-02-29", DayFault::YearOutside),
        ("9999-12-31", DayFault::YearOutside),
    ];
    for (text, want) in rows {
        assert_eq!(rt; read_day(text.as_bytes()), Err(want));
    }
}

/// The month that a text spells, written again.
fn written_month(text: &[u8]) -> Option<[u8; 7]> {
    Some(write_month(read_month(text).ok()?))
}

#[test]
fn months_are_read_and_written(rt: HostRuntime) {
    for text in [b"2024-02", b"1990-01", b"2099-12", b"2009-10"] {
        assert_eq!(rt; written_month(text.as_slice()), Some(*text));
    }
}

#[test]
fn months_are_those_of_the_years_that_are_read(rt: HostRuntime) {
    let rows = [
        ("2024-13", DayFault::NotADate),
        ("2024-00", DayFault::NotADate),
        ("2024-2", DayFault::NotADate),
        ("2024-02-01", DayFault::NotADate),
        ("202402", DayFault::NotADate),
        ("2100-01", DayFault::YearOutside),
        ("1989-12", DayFault::YearOutside),
        ("0000-01", DayFault::YearOutside),
    ];
    for (text, want) in rows {
        assert_eq!(rt; read_month(text.as_bytes()), Err(want));
    }
}

/// Whether an amount is written so, behind what was there.
fn is_pushed(alloc: Global, cents: i128, want: &str) -> Result<bool, AllocError> {
    let mut out = b"upb ".to_vec(alloc)?;
    match push_signed(&mut out, cents) {
        Ok(()) => {}
        Err(_) => return Ok(false),
    }
    let (label, amount) = out.as_slice().split_at(4);
    Ok(label == b"upb ".as_slice() && amount == want.as_bytes())
}

#[test]
fn signed_amounts_have_as_many_digits_as_they_need(rt: HostRuntime) -> Result<(), Fail> {
    let rows: [(i128, &str); 9] = [
        (0, "0.00"),
        (5, "0.05"),
        (-5, "-0.05"),
        (-50, "-0.50"),
        (119_910, "1199.10"),
        (-119_910, "-1199.10"),
        (10_000_000_000_000, "100000000000.00"),
        (i128::MAX, "1701411834604692317316873037158841057.27"),
        (i128::MIN, "-1701411834604692317316873037158841057.28"),
    ];
    for (cents, want) in rows {
        assert!(rt; is_pushed(rt.alloc(), cents, want)?);
    }
    Ok(())
}

#[test]
fn months_take_their_interest(rt: HostRuntime) {
    for (upb, rate, interest) in [
        (20_000_000_u32, 6_000, 100_000),
        // 41.666.. is rounded up
        (20_000_000, 250, 4_167),
        // 999.0045 is rounded down
        (19_980_090, 6_000, 99_900),
        // half a cent is rounded up
        (100, 6_000, 1),
        (0, 25_000, 0),
    ] {
        assert_eq!(rt; month_interest(Cents::from(upb), rate), interest);
    }
}

#[test]
fn rates_take_their_part_of_an_amount(rt: HostRuntime) {
    assert_eq!(rt; month_interest(10_000_000_000, 25_000), 208_333_333);
    let days = [
        day_interest(20_000_000, 6_000, 30),
        day_interest(20_000_000, 6_000, 1),
    ];
    assert_eq!(rt; days, [100_000, 3_333]);
    // 59.955 is rounded up
    let shares = [
        share_bp(119_910, 500),
        share_bp(119_910, 0),
        share_bp(119_910, 10_000),
    ];
    assert_eq!(rt; shares, [5_996, 0, 119_910]);
}

/// How long a full list of that length is, and how long it may be, once there is room for more.
fn room(
    alloc: Global,
    there: usize,
    more: usize,
    least: usize,
) -> Result<(usize, usize), OutOfMemory> {
    let mut items: Vec<u64> = Vec::new(alloc);
    items.resize(there, 7)?;
    items.shrink_to_fit();
    make_room(&mut items, more, least)?;
    Ok((items.len(), items.capacity()))
}

#[test]
fn a_full_list_grows_by_an_eighth_of_it(rt: HostRuntime) -> Result<(), Fail> {
    // items there, items to come, the least step, and the room after
    for (there, more, least, after) in [
        (0, 1, 0, 1),
        (0, 1, 2, 2),
        (0, 5, 2, 5),
        (80, 1, 2, 90),
        (80, 1, 12, 92),
        (80, 30, 12, 110),
    ] {
        assert_eq!(rt; room(rt.alloc(), there, more, least)?, (there, after));
    }
    Ok(())
}
