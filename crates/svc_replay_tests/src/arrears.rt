//! What brings a loan current, by rows that were worked out by hand.

ghost use Rattle.std.specs.Prelude.{◌≡◌, ◌+◌, ◌-◌, ◌*◌, ◌<◌, ◌≤◌, pos, ◌≤ℤ◌, IfOk, OnOk};
ghost use Rattle.svc_base.specs.Calendar.{IsReadDay};
ghost use Rattle.svc_types.specs.Terms.{IsSound};
ghost use Rattle.svc_replay_tests.specs.Standing.{StandsAt};

use crate::loans::{day, loan};
use crate::steps::Kind::{Curtail, Deposit, Late, MonthBegins, Pay, PayPrincipal, Payoff, Plan};
use crate::steps::{Step, books_after, checked, escrow_loan};
use std::alloc::Global;
use std::marker::Brand;
use std::sync::ledger::{Blank, Ledger};
use std::test::Fail;
use svc_apply::arrears;
use svc_base::{Cents, Day, Steps};
use svc_checkpoint::Checked;
use svc_replay::{BookFault, LoanBooks, Plain};
use svc_types::{Act, Arrears, Designation, Entry, Terms};

/// What brings a loan current on a day after some steps, with a counter of steps.
fn counted<L: Ledger>(blank: Blank, terms: &Terms, taken: &[Step], on: Day) -> Option<Arrears>
    requires name { blank.name ≡ L.name }
    requires parts { blank.parts ≡ L.parts }
    requires some { 0 < L.parts }
    requires terms { IsSound terms.now }
    requires boarded { IsReadDay terms.now.boarded }
{
    let books = books_after(terms, taken)?;
    let mut steps = Steps::<L>::new(blank);
    Some(arrears(&books, terms, on, &mut steps))
}

/// The same, with a counter of its own.
fn after(terms: &Terms, taken: &[Step], on: Day) -> Option<Arrears>
    requires terms { IsSound terms.now }
    requires boarded { IsReadDay terms.now.boarded }
{
    counted::<Brand>(Blank::new(1), terms, taken, on)
}

/// So many installments, what they ask, what waits, what is to be paid and the late charges owed.
fn row(installments: u32, due: Cents, suspense: Cents, pay: Cents, late: Cents) -> Arrears {
    Arrears {
        installments,
        due,
        suspense,
        pay,
        late,
    }
}

fn of_loan(taken: &[Step], on: Day) -> Option<Arrears> {
    after(&loan(), taken, on)
}

#[test]
fn installments_are_asked_from_their_due_days_on(rt: HostRuntime) {
    assert_eq!(rt; of_loan(&[], day(2024, 1, 28)), Some(row(0, 0, 0, 0, 0)));
    assert_eq!(rt;
        of_loan(&[], day(2024, 2, 1)),
        Some(row(1, 119_910, 0, 119_910, 0))
    );
    let one_late = [(2, 17, Late, 1)];
    assert_eq!(rt;
        of_loan(&one_late, day(2024, 2, 28)),
        Some(row(1, 119_910, 0, 119_910, 5_996))
    );
    assert_eq!(rt;
        of_loan(&one_late, day(2024, 3, 1)),
        Some(row(2, 239_820, 0, 239_820, 5_996))
    );
    let three_late = [(2, 17, Late, 1), (3, 17, Late, 2), (4, 17, Late, 3)];
    assert_eq!(rt;
        of_loan(&three_late, day(2024, 4, 20)),
        Some(row(3, 359_730, 0, 359_730, 17_988))
    );
}

#[test]
fn what_waits_is_taken_off(rt: HostRuntime) {
    let short = [(2, 1, Pay, 119_909)];
    assert_eq!(rt;
        of_loan(&short, day(2024, 2, 1)),
        Some(row(1, 119_910, 119_909, 1, 0))
    );
    let ahead = [(2, 1, Pay, 250_000)];
    assert_eq!(rt;
        of_loan(&ahead, day(2024, 3, 1)),
        Some(row(0, 0, 10_180, 0, 0))
    );
    let april = [
        (2, 1, Pay, 119_910),
        (2, 17, Late, 1),
        (3, 17, Late, 2),
        (4, 17, Late, 3),
        (4, 20, Pay, 150_000),
    ];
    assert_eq!(rt;
        of_loan(&april, day(2024, 4, 20)),
        Some(row(1, 119_910, 30_090, 89_820, 11_992))
    );
}

/// What brings the loan with escrow current on 2024-09-01, after its analysis and some steps.
fn of_escrow_loan(taken: &[Step]) -> Option<Arrears> {
    let terms = escrow_loan(day(2024, 6, 1))?;
    after(&terms, taken, day(2024, 9, 1))
}

#[test]
fn two_installments_ask_for_escrow_too(rt: HostRuntime) {
    let two_behind = [
        (6, 10, Deposit, 109_000),
        (6, 15, Plan(2024, 7, 0, 5_000), 13_000),
        (7, 1, PayPrincipal, 300_000),
        (7, 28, Pay, 70_000),
        (8, 17, Late, 2),
    ];
    assert_eq!(rt;
        of_escrow_loan(&two_behind),
        Some(row(2, 265_820, 70_000, 195_820, 5_996))
    );
}

#[test]
fn late_charges_are_not_in_what_is_to_be_paid(rt: HostRuntime) {
    let paid = [
        (6, 15, Plan(2024, 7, 0, 5_000), 13_000),
        (7, 1, PayPrincipal, 300_000),
        (7, 17, Late, 1),
        (7, 28, Pay, 70_000),
        (8, 1, MonthBegins, 0),
        (8, 17, Late, 2),
        (9, 1, Pay, 200_000),
    ];
    assert_eq!(rt; of_escrow_loan(&paid), Some(row(0, 0, 0, 0, 1_816)));
}

/// A loan of 1,000.00 at 6 percent that pays 400.00 a month: its third installment asks 209.07.
fn of_small_loan(taken: &[Step], on: Day) -> Option<Arrears> {
    let terms = checked(Terms {
        principal: 100_000,
        pi: 40_000,
        term: 12,
        ..loan()
    })?;
    after(&terms, taken, on)
}

#[test]
fn each_is_asked_on_the_balance_that_those_before_it_leave(rt: HostRuntime) {
    let late = [(2, 17, Late, 1), (3, 17, Late, 2)];
    assert_eq!(rt;
        of_small_loan(&late, day(2024, 3, 20)),
        Some(row(2, 80_000, 0, 80_000, 4_000))
    );
    let three = row(3, 100_907, 0, 100_907, 4_000);
    assert_eq!(rt; of_small_loan(&late, day(2024, 4, 1)), Some(three));
    assert_eq!(rt; of_small_loan(&late, day(2024, 12, 1)), Some(three));
    let waiting = [(3, 10, Pay, 90_000)];
    let one = row(1, 20_907, 10_000, 10_907, 0);
    assert_eq!(rt; of_small_loan(&waiting, day(2024, 4, 1)), Some(one));
}

/// What brings the loan of two installments current.
fn of_two_installments(on: Day) -> Option<Arrears> {
    let terms = checked(Terms { term: 2, ..loan() })?;
    after(&terms, &[], on)
}

#[test]
fn the_last_asks_for_all_of_the_balance(rt: HostRuntime) {
    let both = row(2, 20_199_900, 0, 20_199_900, 0);
    assert_eq!(rt;
        of_two_installments(day(2024, 2, 28)),
        Some(row(1, 119_910, 0, 119_910, 0))
    );
    assert_eq!(rt; of_two_installments(day(2024, 3, 1)), Some(both));
    assert_eq!(rt; of_two_installments(day(2034, 3, 1)), Some(both));
}

#[test]
fn a_satisfied_loan_asks_for_no_installment(rt: HostRuntime) {
    let paid_off = [
        (2, 1, Pay, 119_910),
        (2, 16, Payoff, 20_030_040),
        (3, 20, Deposit, 500),
    ];
    assert_eq!(rt;
        of_loan(&paid_off, day(2025, 2, 1)),
        Some(row(0, 0, 500, 0, 0))
    );
    let owing = [
        (2, 1, Pay, 119_910),
        (3, 17, Late, 2),
        (3, 20, Pay, 119_910),
        (3, 21, Curtail, 19_960_080),
    ];
    assert_eq!(rt;
        of_loan(&owing, day(2024, 4, 20)),
        Some(row(0, 0, 0, 0, 5_996))
    );
}

/// A regular payment of some cents.
fn payment_of(number: u32, on: Day, cents: Cents) -> Entry
    requires low { pos 0 ≤ℤ cents }
    requires high { cents ≤ℤ pos 100_000_000_000_000 }
    ensures number { result.number ≡ number }
    ensures day { result.day ≡ on }
    ensures act { result.act ≡ Act.Pay cents Designation.Regular }
{
    Entry {
        number,
        day: on,
        act: Act::Pay(cents, Designation::Regular),
    }
}

/// The loan on 2024-04-20, after one installment in February and 1,500.00 on that day.
fn behind<B: LoanBooks, L: Ledger>(alloc: Global, steps: &mut Steps<L>) -> Result<B, BookFault>
    ensures { IfOk result (λ books. StandsAt (B.account books) 5 (31 * (12 * 2024 + 3) + 19)) }
{
    let today = day(2024, 4, 20);
    let mut books = B::begin(alloc, loan(), today, steps)?;
    books.post(payment_of(3, day(2024, 2, 1), 119_910), steps)?;
    books.post(payment_of(5, today, 150_000), steps)?;
    Ok(books)
}

/// A regular payment on the business day, as the next entry.
fn pay<B: LoanBooks, L: Ledger>(
    books: &mut B,
    number: u32,
    today: Day,
    cents: Cents,
    steps: &mut Steps<L>,
) -> Result<(), BookFault>
    requires low { pos 0 ≤ℤ cents }
    requires high { cents ≤ℤ pos 100_000_000_000_000 }
    requires number { 1 ≤ number }
    requires today { 31 * (12 * 2024) ≤ today }
    requires before { StandsAt (B.account books.old) (number - 1) today }
    ensures { OnOk result (StandsAt (B.account books.new) number today) }
{
    books.post(payment_of(number, today, cents), steps)
}

/// What brings a loan current on a day.
fn of_books<B: LoanBooks, L: Ledger>(books: &B, on: Day, steps: &mut Steps<L>) -> Arrears {
    books.is_account();
    arrears(books.now(), books.terms(), on, steps)
}

/// What is asked first, after a payment that is a cent short of it, and after that cent.
fn cent_by_cent<B: LoanBooks, L: Ledger>(
    alloc: Global,
    blank: Blank,
) -> Result<(Arrears, Arrears, Arrears), BookFault>
    requires name { blank.name ≡ L.name }
    requires parts { blank.parts ≡ L.parts }
    requires some { 0 < L.parts }
{
    let today = day(2024, 4, 20);
    let mut steps = Steps::<L>::new(blank);
    let mut books: B = behind(alloc, &mut steps)?;
    let first = of_books(&books, today, &mut steps);
    pay(&mut books, 6, today, 89_819, &mut steps)?;
    let short = of_books(&books, today, &mut steps);
    pay(&mut books, 7, today, 1, &mut steps)?;
    let paid = of_books(&books, today, &mut steps);
    Ok((first, short, paid))
}

#[test]
fn a_cent_less_leaves_an_installment_open(rt: HostRuntime) -> Result<(), Fail> {
    let rows = [
        cent_by_cent::<Plain, Brand>(rt.alloc(), Blank::new(1))?,
        cent_by_cent::<Checked, Brand>(rt.alloc(), Blank::new(1))?,
    ];
    let first = row(1, 119_910, 30_090, 89_820, 11_992);
    let short = row(1, 119_910, 119_909, 1, 11_992);
    let paid = row(0, 0, 0, 0, 11_992);
    assert!(rt; rows[0] == (first, short, paid));
    assert!(rt; rows[1] == (first, short, paid));
    Ok(())
}
