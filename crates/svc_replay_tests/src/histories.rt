//! Late entries, reversals and faults by both ways of keeping books, and many loans with many months.

ghost use Rattle.std.specs.Prelude.{◌≡◌, ◌+◌, ◌*◌, ◌<◌, ◌≤◌, IfOk, OnOk};
ghost use Rattle.svc_replay_tests.specs.Standing.{StandsAt};

use crate::loans::{day, deposit, loan, payment};
use std::alloc::Global;
use std::marker::Brand;
use std::sync::ledger::{Blank, Ledger};
use std::test::Fail;
use svc_base::{Cents, Day, Month, Steps, first_day};
use svc_checkpoint::Checked;
use svc_replay::{BookFault, LoanBooks, Plain};
use svc_types::{Books, Entry, MonthFacts};

/// What a row says of the books, in cents, and of the open installment.
#[derive(Clone, Copy, Debug, PartialEq, Eq)]
struct Row {
    upb: Cents,
    next: u32,
    late_owed: Cents,
    interest: Cents,
    fee: Cents,
    principal: Cents,
}

fn row_of(books: &Books) -> Row {
    Row {
        upb: books.upb,
        next: books.next,
        late_owed: books.late_owed,
        interest: books.interest,
        fee: books.fee,
        principal: books.principal,
    }
}

/// A loan with a payment on 2024-02-01, number 3.
fn first_paid<B: LoanBooks, L: Ledger>(
    alloc: Global,
    today: Day,
    steps: &mut Steps<L>,
) -> Result<B, BookFault>
    requires { 31 * (12 * 2024 + 1) ≤ today }
    ensures { IfOk result (λ books. StandsAt (B.account books) 3 today) }
{
    let mut books = B::begin(alloc, loan(), today, steps)?;
    books.reserve(today)?;
    books.post(payment(3, day(2024, 2, 1)), steps)?;
    Ok(books)
}

/// One payment on its day, and one of March that is entered in April: the books before and after it,
/// those of the day before its own, and the facts of March.
fn late_payment<B: LoanBooks, L: Ledger>(
    alloc: Global,
    blank: Blank,
) -> Result<(Row, Row, Row, MonthFacts), BookFault>
    requires name { blank.name ≡ L.name }
    requires parts { blank.parts ≡ L.parts }
    requires some { 0 < L.parts }
{
    let mut steps = Steps::<L>::new(blank);
    let mut books: B = first_paid(alloc, day(2024, 2, 1), &mut steps)?;
    books.advance(day(2024, 4, 1), &mut steps)?;
    let before = row_of(books.now());
    books.post(payment(13, day(2024, 3, 10)), &mut steps)?;
    let after = row_of(books.now());
    let earlier = row_of(&books.books_at(day(2024, 3, 9), &mut steps));
    let march = books.month(Month::new(2024, 3), &mut steps);
    Ok((before, after, earlier, march))
}

/// Two payments of which the first is reversed by command 14: the books, and what a second reversal
/// and one of a number that is no entry answer.
fn reversal<B: LoanBooks, L: Ledger>(
    alloc: Global,
    blank: Blank,
) -> Result<(Row, Result<(), BookFault>, Result<(), BookFault>), BookFault>
    requires name { blank.name ≡ L.name }
    requires parts { blank.parts ≡ L.parts }
    requires some { 0 < L.parts }
{
    let mut steps = Steps::<L>::new(blank);
    let mut books: B = first_paid(alloc, day(2024, 4, 1), &mut steps)?;
    books.post(payment(4, day(2024, 3, 1)), &mut steps)?;
    books.reverse(3, 14, &mut steps)?;
    let again = books.reverse(3, 18, &mut steps);
    let unknown = books.reverse(5, 19, &mut steps);
    Ok((row_of(books.now()), again, unknown))
}

const ONE_PAID: Row = Row {
    upb: 19_980_090,
    next: 2,
    late_owed: 5_996,
    interest: 100_000,
    fee: 4_167,
    principal: 19_910,
};

const BOTH_PAID: Row = Row {
    upb: 19_960_080,
    next: 3,
    late_owed: 0,
    interest: 199_900,
    fee: 8_330,
    principal: 39_920,
};

#[test]
fn a_late_payment_counts_on_its_day(rt: HostRuntime) -> Result<(), Fail> {
    let rows = [
        late_payment::<Plain, Brand>(rt.alloc(), Blank::new(1))?,
        late_payment::<Checked, Brand>(rt.alloc(), Blank::new(1))?,
    ];
    let march = MonthFacts {
        month: Month::new(2024, 3),
        upb: 19_960_080,
        curtailed: 0,
        interest: 99_900,
        fee: 4_163,
        satisfied: false,
    };
    let earlier = Row {
        late_owed: 0,
        ..ONE_PAID
    };
    for row in rows {
        assert_eq!(rt; row, (ONE_PAID, BOTH_PAID, earlier, march));
    }
    Ok(())
}

#[test]
fn a_reversed_payment_is_as_if_it_had_never_been(rt: HostRuntime) -> Result<(), Fail> {
    let rows = [
        reversal::<Plain, Brand>(rt.alloc(), Blank::new(1))?,
        reversal::<Checked, Brand>(rt.alloc(), Blank::new(1))?,
    ];
    let second_alone = Row {
        late_owed: 11_992,
        ..ONE_PAID
    };
    for (row, again, unknown) in rows {
        assert_eq!(rt; row, second_alone);
        assert_eq!(rt; again, Err(BookFault::AlreadyReversed(14)));
        assert_eq!(rt; unknown, Err(BookFault::NoSuchEntry));
    }
    Ok(())
}

/// A loan with 4,096 entries.
fn full<B: LoanBooks, L: Ledger>(alloc: Global, steps: &mut Steps<L>) -> Result<B, BookFault>
    ensures { IfOk result (λ books. StandsAt (B.account books) 4_096 (31 * (12 * 2024 + 1))) }
{
    let today = day(2024, 2, 1);
    let mut books = B::begin(alloc, loan(), today, steps)?;
    for number in 1..4_097 {
        books.post(deposit(number, today), steps)?;
    }
    Ok(books)
}

/// The entry after 4,096 others, and what is known of one of them.
fn overfull<B: LoanBooks, L: Ledger>(
    alloc: Global,
    blank: Blank,
) -> Result<(u32, Result<(), BookFault>, Option<Entry>, Option<u32>), BookFault>
    requires name { blank.name ≡ L.name }
    requires parts { blank.parts ≡ L.parts }
    requires some { 0 < L.parts }
{
    let mut steps = Steps::<L>::new(blank);
    let mut books: B = full(alloc, &mut steps)?;
    let more = books.post(deposit(4_097, day(2024, 2, 1)), &mut steps);
    let term = books.terms().term;
    Ok((term, more, books.entry(4_096), books.reversed_by(4_096)))
}

#[test]
fn an_account_is_full_at_4096_entries(rt: HostRuntime) -> Result<(), Fail> {
    let (term, more, last, reversed) = overfull::<Plain, Brand>(rt.alloc(), Blank::new(1))?;
    assert_eq!(rt; term, 360);
    assert_eq!(rt; more, Err(BookFault::Full));
    assert_eq!(rt; last, Some(deposit(4_096, day(2024, 2, 1))));
    assert_eq!(rt; reversed, None);
    Ok(())
}

/// Eight deposits of a cent on the business day, in that month after 2024-01.
fn eight_deposits<B: LoanBooks, L: Ledger>(
    books: &mut B,
    month: u32,
    today: Day,
    steps: &mut Steps<L>,
) -> Result<(), BookFault>
    requires month { month < 400 }
    requires today { 31 * (12 * 2024) ≤ today }
    requires before { StandsAt (B.account books.old) (8 * month) today }
    ensures { OnOk result (StandsAt (B.account books.new) (8 * month + 8) today) }
{
    for count in 0..8 {
        books.post(deposit(8 * month + count + 1, today), steps)?;
    }
    Ok(())
}

/// A loan on the first day of each of 400 months, with eight deposits of a cent on each: what escrow
/// holds, and the late charges that are owed.
fn deposits<B: LoanBooks, L: Ledger>(
    alloc: Global,
    blank: Blank,
) -> Result<(Cents, Cents), BookFault>
    requires name { blank.name ≡ L.name }
    requires parts { blank.parts ≡ L.parts }
    requires some { 0 < L.parts }
{
    let terms = loan();
    let mut steps = Steps::<L>::new(blank);
    let mut books = B::begin(alloc, terms, terms.boarded, &mut steps)?;
    for month in 0..400 {
        let today = first_day(Month::new(2024, 1).plus(month));
        books.advance(today, &mut steps)?;
        eight_deposits(&mut books, month, today, &mut steps)?;
    }
    Ok((books.now().escrow, books.now().late_owed))
}

#[test]
fn two_thousand_loans_with_400_months_each(rt: HostRuntime) -> Result<(), Fail> {
    for _ in 0..2_000 {
        let (escrow, late_owed) = deposits::<Checked, Brand>(rt.alloc(), Blank::new(1))?;
        assert_eq!(rt; escrow, 3_200);
        assert_eq!(rt; late_owed, 2_158_560);
    }
    Ok(())
}
