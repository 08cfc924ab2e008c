//! The lines of a loan's history, and its books on a later day, over both ways of keeping books: by rows that were
//! worked by hand.

ghost use Rattle.std.specs.Prelude.{◌≡◌, ◌+◌, ◌-◌, ◌*◌, ◌<◌, ◌≤◌, IfOk, OnOk, pos, ◌≤ℤ◌};
ghost use Rattle.svc_spec.specs.Books.{IsAct};
ghost use Rattle.svc_replay_tests.specs.Standing.{StandsAt};

use crate::loans::{day, loan, payment};
use std::alloc::Global;
use std::marker::Brand;
use std::sync::ledger::{Blank, Ledger};
use std::test::Fail;
use svc_apply::payoff_due;
use svc_base::{Cents, Day, Month, Steps, last_day};
use svc_checkpoint::Checked;
use svc_replay::{BookFault, LoanBooks, Plain, history};
use svc_types::{Act, Designation, Entry, HistoryLine, What};

/// A regular payment of up to 2,000.00.
fn regular(cents: Cents) -> Act
    requires low { pos 0 ≤ℤ cents }
    requires high { cents ≤ℤ pos 200_000 }
    ensures { IsAct result }
{
    Act::Pay(cents, Designation::Regular)
}

/// A curtailment of 100.00.
fn curtailment() -> Act
    ensures { IsAct result }
{
    Act::Curtail(10_000)
}

/// The loan on 2024-02-01, on which command 3 paid its first installment.
fn first_paid<B: LoanBooks, L: Ledger>(alloc: Global, steps: &mut Steps<L>) -> Result<B, BookFault>
    ensures { IfOk result (λ books. StandsAt (B.account books) 3 (31 * (12 * 2024 + 1))) }
{
    let today = day(2024, 2, 1);
    let mut books = B::begin(alloc, loan(), today, steps)?;
    books.post(payment(3, today), steps)?;
    Ok(books)
}

/// One more entry on the business day.
fn post_today<B: LoanBooks, L: Ledger>(
    books: &mut B,
    number: u32,
    act: Act,
    steps: &mut Steps<L>,
) -> Result<(), BookFault>
    requires act { IsAct act }
    requires number { 4 ≤ number }
    requires before { StandsAt (B.account books.old) (number - 1) (31 * (12 * 2024 + 3) + 19) }
    ensures { OnOk result (StandsAt (B.account books.new) number (31 * (12 * 2024 + 3) + 19)) }
{
    let today = day(2024, 4, 20);
    books.post(
        Entry {
            number,
            day: today,
            act,
        },
        steps,
    )
}

/// Command 5 pays 1,500.00 on 2024-04-20.
fn pay_late<B: LoanBooks, L: Ledger>(books: &mut B, steps: &mut Steps<L>) -> Result<(), BookFault>
    requires { StandsAt (B.account books.old) 3 (31 * (12 * 2024 + 1)) }
    ensures { OnOk result (StandsAt (B.account books.new) 5 (31 * (12 * 2024 + 3) + 19)) }
{
    books.advance(day(2024, 4, 20), steps)?;
    post_today(books, 5, regular(150_000), steps)
}

/// Command 6 reverses that payment, 7 pays 1,498.20 and 8 curtails by 100.00.
fn pay_anew<B: LoanBooks, L: Ledger>(books: &mut B, steps: &mut Steps<L>) -> Result<(), BookFault>
    requires { StandsAt (B.account books.old) 5 (31 * (12 * 2024 + 3) + 19) }
    ensures { OnOk result (StandsAt (B.account books.new) 8 (31 * (12 * 2024 + 3) + 19)) }
{
    books.reverse(5, 6, steps)?;
    post_today(books, 7, regular(149_820), steps)?;
    post_today(books, 8, curtailment(), steps)
}

/// The histories after the first payment, after the late one, and after that was reversed and paid anew.
fn histories<B: LoanBooks, L: Ledger>(
    alloc: Global,
    blank: Blank,
) -> Result<(Vec<HistoryLine>, Vec<HistoryLine>, Vec<HistoryLine>), BookFault>
    requires name { blank.name ≡ L.name }
    requires parts { blank.parts ≡ L.parts }
    requires some { 0 < L.parts }
{
    let mut steps = Steps::<L>::new(blank);
    let mut books: B = first_paid(alloc, &mut steps)?;
    let first = history(alloc, books.kept(), &mut steps)?;
    pay_late(&mut books, &mut steps)?;
    let late = history(alloc, books.kept(), &mut steps)?;
    pay_anew(&mut books, &mut steps)?;
    let anew = history(alloc, books.kept(), &mut steps)?;
    Ok((first, late, anew))
}

/// The line of the first payment.
fn first_line() -> HistoryLine {
    HistoryLine {
        day: day(2024, 2, 1),
        number: Some(3),
        what: What::Act(Act::Pay(119_910, Designation::Regular)),
        interest: 100_000,
        principal: 19_910,
        escrow: 0,
        late: 0,
        charges: 0,
        suspense: 0,
        upb: 19_980_090,
        next: Some(Month::new(2024, 3)),
    }
}

/// The line of the late charge of installment k, in a month of 2024.
fn charge_line(month: u32, k: u32) -> HistoryLine
    requires low { 1 ≤ month }
    requires high { month ≤ 12 }
{
    HistoryLine {
        day: day(2024, month, 17),
        number: None,
        what: What::LateMark(k),
        interest: 0,
        principal: 0,
        late: 5_996,
        ..first_line()
    }
}

/// The line of a payment of the second installment, of which so much waits.
fn second_line(number: u32, cents: Cents, suspense: Cents) -> HistoryLine {
    HistoryLine {
        day: day(2024, 4, 20),
        number: Some(number),
        what: What::Act(Act::Pay(cents, Designation::Regular)),
        interest: 99_900,
        principal: 20_010,
        suspense,
        upb: 19_960_080,
        next: Some(Month::new(2024, 4)),
        ..first_line()
    }
}

/// The line of the curtailment.
fn curtail_line() -> HistoryLine {
    HistoryLine {
        number: Some(8),
        what: What::Act(Act::Curtail(10_000)),
        interest: 0,
        principal: 10_000,
        suspense: 0,
        upb: 19_950_080,
        ..second_line(8, 0, 0)
    }
}

#[test]
fn a_history_tells_live_entries_and_late_charges(rt: HostRuntime) -> Result<(), Fail> {
    let all = [
        histories::<Plain, Brand>(rt.alloc(), Blank::new(1))?,
        histories::<Checked, Brand>(rt.alloc(), Blank::new(1))?,
    ];
    let (paid, march, april) = (first_line(), charge_line(3, 2), charge_line(4, 3));
    let before = second_line(5, 150_000, 30_090);
    let after = second_line(7, 149_820, 29_910);
    for (first, late, anew) in &all {
        assert!(rt; first.as_slice() == [paid].as_slice());
        assert!(rt; late.as_slice() == [paid, march, april, before].as_slice());
        assert!(rt; anew.as_slice() == [paid, march, april, after, curtail_line()].as_slice());
    }
    Ok(())
}

/// What a payoff on 2024-06-30 asks by the books ahead of 2024-04-20, and whether these are the books when that day
/// has come.
fn payoff_ahead<B: LoanBooks, L: Ledger>(
    alloc: Global,
    blank: Blank,
) -> Result<(Cents, bool), BookFault>
    requires name { blank.name ≡ L.name }
    requires parts { blank.parts ≡ L.parts }
    requires some { 0 < L.parts }
{
    let mut steps = Steps::<L>::new(blank);
    let mut books: B = first_paid(alloc, &mut steps)?;
    pay_late(&mut books, &mut steps)?;
    pay_anew(&mut books, &mut steps)?;
    let later = last_day(Month::new(2024, 6));
    let ahead = books.books_ahead(later, &mut steps);
    books.is_account();
    let asked = payoff_due(&ahead, books.terms(), later);
    books.advance(later, &mut steps)?;
    Ok((asked, ahead == *books.now()))
}

#[test]
fn books_ahead_are_those_of_the_day_when_it_comes(rt: HostRuntime) -> Result<(), Fail> {
    let plain = payoff_ahead::<Plain, Brand>(rt.alloc(), Blank::new(1))?;
    assert_eq!(rt; plain, (20_339_831, true));
    let checked = payoff_ahead::<Checked, Brand>(rt.alloc(), Blank::new(1))?;
    assert_eq!(rt; checked, (20_339_831, true));
    Ok(())
}
