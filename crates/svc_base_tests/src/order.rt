//! The order of entries, and which of them are live.

use std::alloc::Global;
use std::test::Fail;
use svc_base::{DayFault, OutOfMemory, read_day};
use svc_types::{Act, Designation, Entry, before, live, place_of};

fn paid(number: u32, day: &[u8]) -> Result<Entry, DayFault> {
    Ok(Entry {
        number,
        day: read_day(day)?,
        act: Act::Pay(119_910, Designation::Regular),
    })
}

#[test]
fn entries_are_ordered_by_day_then_number(rt: HostRuntime) -> Result<(), Fail> {
    let february = paid(4, b"2024-02-01")?;
    let march = paid(3, b"2024-03-01")?;
    let again = paid(5, b"2024-02-01")?;
    let earlier = [before(&february, &march), before(&february, &again)];
    assert_eq!(rt; earlier, [true, true]);
    let later = [
        before(&march, &february),
        before(&again, &february),
        before(&february, &february),
    ];
    assert_eq!(rt; later, [false, false, false]);
    let places = [
        place_of(&[], &again),
        place_of(&[february], &again),
        place_of(&[march], &again),
    ];
    assert_eq!(rt; places, [0, 1, 0]);
    let unordered = [march, again, february];
    assert!(rt; are_live(rt.alloc(), &unordered, &[], &[february, again, march])?);
    Ok(())
}

/// Whether the live ones of some entries are these, in this order.
fn are_live(
    alloc: Global,
    entries: &[Entry],
    reversed: &[(u32, u32)],
    wanted: &[Entry],
) -> Result<bool, OutOfMemory> {
    Ok(live(alloc, entries, reversed)?.as_slice() == wanted)
}

#[test]
fn a_reversed_payment_is_not_live(rt: HostRuntime) -> Result<(), Fail> {
    let entries = [paid(3, b"2024-02-01")?, paid(4, b"2024-03-01")?];
    assert!(rt; are_live(rt.alloc(), &entries, &[(3, 14)], &[entries[1]])?);
    assert!(rt; are_live(rt.alloc(), &entries, &[(4, 14), (3, 15)], &[])?);
    Ok(())
}
