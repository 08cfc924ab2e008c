//! The books of a loan at a day, folded from boarding, by rows that were worked by hand.

ghost use Rattle.std.specs.Prelude.{◌≡◌, ◌<◌};

use crate::loans::loan;
use crate::steps::{Kind, act};
use std::alloc::Global;
use std::marker::Brand;
use std::sync::ledger::{Blank, Ledger};
use std::test::Fail;
use svc_base::{Cents, Steps, read_day};
use svc_replay::{BookFault, LoanAccount};
use svc_types::{Books, Entry};

/// What a row says of the books, in cents: the balance, the number of the open installment, money
/// in suspense, late charges, and what was collected.
#[derive(Clone, Copy, Debug, PartialEq, Eq)]
struct Row {
    upb: Cents,
    next: u32,
    suspense: Cents,
    late_owed: Cents,
    interest: Cents,
    fee: Cents,
    principal: Cents,
}

/// The loan's books at a day, after one payment on a day.
fn after_payment<L: Ledger>(
    alloc: Global,
    blank: Blank,
    cents: Cents,
    paid: &[u8],
    day: &[u8],
) -> Result<Option<Row>, BookFault>
    requires name { blank.name ≡ L.name }
    requires parts { blank.parts ≡ L.parts }
    requires some { 0 < L.parts }
{
    let (Ok(paid), Ok(day)) = (read_day(paid), read_day(day)) else {
        return Ok(None);
    };
    let terms = loan();
    let today = crate::loans::day(2024, 4, 1);
    if paid < terms.boarded || today < paid || day < terms.boarded || today < day {
        return Ok(None);
    }
    let Some(act) = act(Kind::Pay, cents) else {
        return Ok(None);
    };
    let mut account = LoanAccount::new(alloc, terms, today);
    account.post(&Entry {
        number: 1,
        day: paid,
        act,
    })?;
    let mut steps = Steps::<L>::new(blank);
    let books = account.refolded(day, &mut steps);
    Ok(Some(row_of(&books)))
}

fn row_of(books: &Books) -> Row {
    Row {
        upb: books.upb,
        next: books.next,
        suspense: books.suspense,
        late_owed: books.late_owed,
        interest: books.interest,
        fee: books.fee,
        principal: books.principal,
    }
}

const BOARDED: Row = Row {
    upb: 20_000_000,
    next: 1,
    suspense: 0,
    late_owed: 0,
    interest: 0,
    fee: 0,
    principal: 0,
};

const ONE_PAID: Row = Row {
    upb: 19_980_090,
    next: 2,
    suspense: 0,
    late_owed: 0,
    interest: 100_000,
    fee: 4_167,
    principal: 19_910,
};

const TWO_PAID: Row = Row {
    upb: 19_960_080,
    next: 3,
    suspense: 10_180,
    late_owed: 0,
    interest: 199_900,
    fee: 8_330,
    principal: 39_920,
};

#[test]
fn marks_and_a_payment_come_in_their_order(rt: HostRuntime) -> Result<(), Fail> {
    let late = |row: Row| Row {
        late_owed: 5_996,
        ..row
    };
    let waiting = Row {
        suspense: 130_090,
        ..ONE_PAID
    };
    let rows: [(Cents, &[u8], &[u8], Row); 10] = [
        (0, b"2024-01-10", b"2023-12-15", BOARDED),
        (0, b"2024-01-10", b"2024-02-16", BOARDED),
        (0, b"2024-01-10", b"2024-02-17", late(BOARDED)),
        (119_910, b"2024-02-01", b"2024-01-31", BOARDED),
        (119_910, b"2024-02-01", b"2024-02-01", ONE_PAID),
        (119_910, b"2024-02-01", b"2024-03-16", ONE_PAID),
        (119_910, b"2024-02-01", b"2024-03-17", late(ONE_PAID)),
        (119_910, b"2024-02-17", b"2024-02-17", late(ONE_PAID)),
        (250_000, b"2024-01-15", b"2024-01-31", waiting),
        (250_000, b"2024-01-15", b"2024-02-01", TWO_PAID),
    ];
    for (cents, paid, day, want) in rows {
        let row = after_payment::<Brand>(rt.alloc(), Blank::new(1), cents, paid, day)?;
        assert_eq!(rt; row, Some(want));
    }
    Ok(())
}
