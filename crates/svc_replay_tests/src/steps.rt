//! The books of a loan after a few events, by rows that were worked out by hand.

ghost use Rattle.std.specs.Prelude.{◌≡◌, ◌≤◌, ◌<◌, IfSome, IsTrue, length, pos, ◌≤ℤ◌};
ghost use Rattle.svc_base.specs.Calendar.{IsReadDay};
ghost use Rattle.svc_types.specs.Terms.{IsSound};
ghost use Rattle.svc_spec.specs.Books.{AreBooks, IsAct, IsPlan, IsEntryAmount, IsWhat};

use crate::loans::{day, loan};
use Kind::{
    Curtail, Deposit, Disburse, Late, MonthBegins, Pay, PayEscrow, PayPrincipal, Payoff, Plan,
    Refund, Waive,
};
use std::marker::Brand;
use std::sync::ledger::{Blank, Ledger};
use svc_apply::{available, fold_step, is_current, open_installment, payoff_due, start};
use svc_base::{Cents, Day, Month, Steps};
use svc_types::{Act, Books, Designation, EscrowPlan, Event, Settled, Terms, What};

/// What happens to the loan.
#[derive(Clone, Copy)]
pub(crate) enum Kind {
    /// A regular payment, and those whose rest goes to principal and to escrow.
    Pay,
    PayPrincipal,
    PayEscrow,
    Curtail,
    Payoff,
    Deposit,
    Disburse,
    Refund,
    Waive,
    MonthBegins,
    /// The grace of an installment is over.
    Late,
    /// An analysis settles on a plan from a month of a year on, with a credit and a refund.
    Plan(u32, u32, Cents, Cents),
}

/// A month and a day of 2024, what happens then, and its cents: of a plan the base; of a late mark the
/// number of the installment.
pub(crate) type Step = (u32, u32, Kind, Cents);

/// Whether an entry may name the amount.
#[tactic(auto, using(std::proofs::lemmas::Int::ints))]
fn is_entry_amount(cents: Cents) -> bool
    ensures { IsTrue result → IsEntryAmount cents }
{
    if cents < 0 {
        return false;
    }
    cents <= 100_000_000_000_000
}

/// What the entry does; none where it is no entry, or names too much.
pub(crate) fn act(kind: Kind, cents: Cents) -> Option<Act>
    ensures { IfSome result IsAct }
{
    if !is_entry_amount(cents) {
        return None;
    }
    match kind {
        Pay => Some(Act::Pay(cents, Designation::Regular)),
        PayPrincipal => Some(Act::Pay(cents, Designation::Principal)),
        PayEscrow => Some(Act::Pay(cents, Designation::Escrow)),
        Curtail => Some(Act::Curtail(cents)),
        Payoff => Some(Act::Payoff(cents)),
        Deposit => Some(Act::Deposit(cents)),
        Disburse => Some(Act::Disburse(cents, 1)),
        Refund => Some(Act::Refund(cents)),
        Waive => Some(Act::Waive(cents)),
        MonthBegins | Late | Plan(_, _, _, _) => None,
    }
}

/// A plan from a month of a year on.
fn plan(year: u32, month: u32, base: Cents, credit: Cents) -> Option<EscrowPlan>
    ensures { IfSome result IsPlan }
{
    if !(1990..=2099).contains(&year) || !(1..=12).contains(&month) {
        return None;
    }
    if !is_entry_amount(base) {
        return None;
    }
    if !is_entry_amount(credit) {
        return None;
    }
    Some(EscrowPlan {
        start: Month::new(year, month),
        base,
        credit,
        short: 0,
        short_months: 0,
        deficient: 0,
        deficient_months: 0,
    })
}

/// An analysis that settled on a plan, with a refund.
fn analysis(plan: EscrowPlan, refund: Cents) -> Option<Act>
    requires { IsPlan plan }
    ensures { IfSome result IsAct }
{
    if !is_entry_amount(refund) {
        return None;
    }
    Some(Act::Analyse(Settled {
        plan,
        refund,
        within30: 0,
    }))
}

/// What a step does; none where it names too much.
fn what(kind: Kind, cents: Cents) -> Option<What>
    ensures { IfSome result IsWhat }
{
    match kind {
        MonthBegins => Some(What::MonthMark),
        Late => Some(What::LateMark(u32::try_from(cents).ok()?)),
        Plan(year, month, credit, refund) => {
            let act = analysis(plan(year, month, cents, credit)?, refund)?;
            Some(What::Act(act))
        }
        _ => Some(What::Act(act(kind, cents)?)),
    }
}

/// The event of a step; none where there is no such day, or it names too much.
fn event(step: &Step) -> Option<Event>
    ensures { IfSome result (λ e. IsWhat e.what) }
{
    let (month, place, kind, cents) = *step;
    if !(1..=12).contains(&month) || !(1..=28).contains(&place) {
        return None;
    }
    let what = what(kind, cents)?;
    Some(Event {
        day: day(2024, month, place),
        what,
    })
}

/// The books after some steps, from boarding on; none where one is out of order or names too much.
fn folded<L: Ledger>(blank: Blank, terms: &Terms, taken: &[Step]) -> Option<Books>
    requires name { blank.name ≡ L.name }
    requires parts { blank.parts ≡ L.parts }
    requires some { 0 < L.parts }
    requires terms { IsSound terms.now }
    requires boarded { IsReadDay terms.now.boarded }
    requires few { length taken.now ≤ 1_000 }
    ensures { IfSome result (AreBooks terms.now) }
{
    let mut steps = Steps::<L>::new(blank);
    let mut books = start(terms);
    for step in taken {
        let Some(event) = event(step) else {
            return None;
        };
        if event.day < books.day {
            return None;
        }
        fold_step(&mut books, terms, &event, &mut steps);
    }
    Some(books)
}

/// The same, with a counter of steps of its own.
pub(crate) fn books_after(terms: &Terms, taken: &[Step]) -> Option<Books>
    requires terms { IsSound terms.now }
    requires boarded { IsReadDay terms.now.boarded }
    ensures { IfSome result (AreBooks terms.now) }
{
    if taken.len() > 1_000 {
        return None;
    }
    folded::<Brand>(Blank::new(1), terms, taken)
}

/// What a row says of the books, in cents.
#[derive(Clone, Copy, Debug, PartialEq, Eq)]
struct Row {
    upb: Cents,
    next: u32,
    escrow: Cents,
    suspense: Cents,
    late_owed: Cents,
    interest: Cents,
    fee: Cents,
    principal: Cents,
    curtailed: Cents,
    late_paid: Cents,
    satisfied: Option<Day>,
}

fn row_of(books: &Books) -> Row {
    Row {
        upb: books.upb,
        next: books.next,
        escrow: books.escrow,
        suspense: books.suspense,
        late_owed: books.late_owed,
        interest: books.interest,
        fee: books.fee,
        principal: books.principal,
        curtailed: books.curtailed,
        late_paid: books.late_paid,
        satisfied: books.satisfied,
    }
}

const BOARDED: Row = Row {
    upb: 20_000_000,
    next: 1,
    escrow: 0,
    suspense: 0,
    late_owed: 0,
    interest: 0,
    fee: 0,
    principal: 0,
    curtailed: 0,
    late_paid: 0,
    satisfied: None,
};

const ONE_PAID: Row = Row {
    upb: 19_980_090,
    next: 2,
    interest: 100_000,
    fee: 4_167,
    principal: 19_910,
    ..BOARDED
};

const TWO_PAID: Row = Row {
    upb: 19_960_080,
    next: 3,
    interest: 199_900,
    fee: 8_330,
    principal: 39_920,
    ..BOARDED
};

/// The terms, if they are sound.
pub(crate) fn checked(terms: Terms) -> Option<Terms>
    requires { IsReadDay terms.boarded }
    ensures sound { IfSome result IsSound }
    ensures boarded { IfSome result (λ terms. IsReadDay terms.boarded) }
{
    match terms.check() {
        Ok(()) => Some(terms),
        Err(_) => None,
    }
}

/// The same loan that asks 130.00 a month for escrow, first due in July 2024.
pub(crate) fn escrow_loan(boarded: Day) -> Option<Terms>
    requires { IsReadDay boarded }
    ensures sound { IfSome result IsSound }
    ensures boarded { IfSome result (λ terms. IsReadDay terms.boarded) }
{
    checked(Terms {
        boarded,
        first: Month::new(2024, 7),
        escrow: 13_000,
        ..loan()
    })
}

fn after(steps: &[Step]) -> Option<Row> {
    Some(row_of(&books_after(&loan(), steps)?))
}

/// Whether that is the row after some steps.
fn is_after(steps: &[Step], row: Row) -> bool {
    after(steps) == Some(row)
}

/// What a payoff on a day asks after some steps.
fn payoff_after(steps: &[Step], on: Day) -> Option<Cents> {
    let terms = loan();
    let books = books_after(&terms, steps)?;
    Some(payoff_due(&books, &terms, on))
}

#[test]
fn installments_wait_until_they_are_whole(rt: HostRuntime) {
    let waiting = Row {
        suspense: 119_909,
        ..BOARDED
    };
    let short = [(2, 1, Pay, 119_909)];
    assert!(rt; is_after(&short, waiting));
    let whole = [(2, 1, Pay, 119_909), (2, 1, Pay, 1)];
    assert!(rt; is_after(&whole, ONE_PAID));
    let both = [(2, 1, Pay, 239_820)];
    assert!(rt; is_after(&both, TWO_PAID));
    let ahead = Row {
        suspense: 119_910,
        ..TWO_PAID
    };
    let three = [(2, 1, Pay, 359_730)];
    assert!(rt; is_after(&three, ahead));
    let third_paid = Row {
        upb: 19_939_970,
        next: 4,
        interest: 299_700,
        fee: 12_488,
        principal: 60_030,
        ..BOARDED
    };
    let marked = [(2, 1, Pay, 359_730), (3, 1, MonthBegins, 0)];
    assert!(rt; is_after(&marked, third_paid));
}

#[test]
fn late_charges(rt: HostRuntime) {
    let owing = Row {
        late_owed: 5_996,
        ..ONE_PAID
    };
    let charged = [(2, 1, Pay, 119_910), (2, 17, Late, 1), (3, 17, Late, 2)];
    assert!(rt; is_after(&charged, owing));
    let paid = [
        (2, 1, Pay, 119_910),
        (3, 17, Late, 2),
        (3, 20, Pay, 125_906),
    ];
    let all_paid = Row {
        late_paid: 5_996,
        ..TWO_PAID
    };
    assert!(rt; is_after(&paid, all_paid));
    let waived = [
        (2, 1, Pay, 119_910),
        (3, 17, Late, 2),
        (3, 20, Waive, 5_996),
    ];
    assert!(rt; is_after(&waived, ONE_PAID));
}

/// The row of the loan that was paid off in February, with money that waits.
fn satisfied_with(suspense: Cents) -> Row {
    Row {
        upb: 0,
        suspense,
        interest: 149_950,
        fee: 6_248,
        principal: 20_000_000,
        satisfied: Some(day(2024, 2, 16)),
        ..ONE_PAID
    }
}

#[test]
fn a_payoff(rt: HostRuntime) {
    let paid = [(2, 1, Pay, 119_910)];
    assert_eq!(rt; payoff_after(&paid, day(2024, 2, 16)), Some(20_030_040));
    let paid_off = [(2, 1, Pay, 119_910), (2, 16, Payoff, 20_030_040)];
    assert!(rt; is_after(&paid_off, satisfied_with(0)));
    assert_eq!(rt; payoff_after(&paid_off, day(2024, 2, 20)), Some(0));
    let waiting = Row {
        suspense: 19_910_129,
        ..TWO_PAID
    };
    let short = [(2, 1, Pay, 119_910), (2, 16, Payoff, 20_030_039)];
    assert!(rt; is_after(&short, waiting));
    let deposited = [
        (2, 1, Pay, 119_910),
        (2, 16, Payoff, 20_030_040),
        (3, 17, Late, 2),
        (3, 20, Deposit, 500),
        (3, 21, Refund, 300),
    ];
    assert!(rt; is_after(&deposited, satisfied_with(200)));
}

#[test]
fn a_curtailment(rt: HostRuntime) {
    let curtailed = [(2, 1, Pay, 119_910), (2, 10, Curtail, 100_000)];
    let lower = Row {
        upb: 19_880_090,
        principal: 119_910,
        curtailed: 100_000,
        ..ONE_PAID
    };
    assert!(rt; is_after(&curtailed, lower));
}

/// The first installment is paid, and so much principal ahead of its time.
fn one_paid_ahead(ahead: Cents) -> Row
    requires low { pos 0 ≤ℤ ahead }
    requires high { ahead ≤ℤ pos 19_980_090 }
{
    Row {
        upb: 19_980_090 - ahead,
        principal: 19_910 + ahead,
        curtailed: ahead,
        ..ONE_PAID
    }
}

/// The first installment is still due, and 500.00 wait.
const STILL_DUE: Row = Row {
    suspense: 50_000,
    ..BOARDED
};

#[test]
fn what_a_payment_leaves_goes_where_it_is_designated(rt: HostRuntime) {
    let waiting = Row {
        suspense: 50_000,
        ..ONE_PAID
    };
    let in_escrow = Row {
        escrow: 50_000,
        ..ONE_PAID
    };
    assert!(rt; is_after(&[(2, 1, PayPrincipal, 169_910)], one_paid_ahead(50_000)));
    assert!(rt; is_after(&[(2, 1, PayEscrow, 169_910)], in_escrow));
    assert!(rt; is_after(&[(2, 1, Pay, 169_910)], waiting));
    assert!(rt; is_after(&[(2, 1, PayPrincipal, 239_820)], one_paid_ahead(119_910)));
    assert!(rt; is_after(&[(2, 1, Pay, 239_820)], TWO_PAID));
    assert!(rt; is_after(&[(2, 1, PayPrincipal, 119_911)], one_paid_ahead(1)));
    assert!(rt; is_after(&[(2, 1, PayPrincipal, 50_000)], STILL_DUE));
    assert!(rt; is_after(&[(2, 1, PayEscrow, 50_000)], STILL_DUE));
}

#[test]
fn installments_and_late_charges_come_before_what_is_designated(rt: HostRuntime) {
    let late_waiting = Row {
        suspense: 50_000,
        ..ONE_PAID
    };
    assert!(rt; is_after(&[(3, 10, PayPrincipal, 169_910)], late_waiting));
    let all_paid = Row {
        escrow: 50_000,
        late_paid: 5_996,
        ..TWO_PAID
    };
    let charged = [
        (2, 1, Pay, 119_910),
        (3, 17, Late, 2),
        (3, 20, PayEscrow, 175_906),
    ];
    assert!(rt; is_after(&charged, all_paid));
    let ahead = Row {
        escrow: 10_000,
        suspense: 60_180,
        ..TWO_PAID
    };
    let from_a_waiting_sum = [(2, 1, Pay, 300_000), (2, 10, PayEscrow, 10_000)];
    assert!(rt; is_after(&from_a_waiting_sum, ahead));
    let third_paid = Row {
        upb: 19_939_970,
        next: 4,
        escrow: 10_000,
        interest: 299_700,
        fee: 12_488,
        principal: 60_030,
        ..BOARDED
    };
    let then_the_next_installment = [(2, 1, Pay, 359_730), (3, 5, PayEscrow, 10_000)];
    assert!(rt; is_after(&then_the_next_installment, third_paid));
}

/// The loan is satisfied by extra principal on the day of its first installment.
fn satisfied_ahead(suspense: Cents) -> Row {
    Row {
        suspense,
        satisfied: Some(day(2024, 2, 1)),
        ..one_paid_ahead(19_980_090)
    }
}

#[test]
fn extra_principal_may_satisfy_the_loan(rt: HostRuntime) {
    assert!(rt; is_after(&[(2, 1, PayPrincipal, 20_100_000)], satisfied_ahead(0)));
    assert!(rt; is_after(&[(2, 1, PayPrincipal, 20_100_001)], satisfied_ahead(1)));
    let afterwards = [
        (2, 1, PayPrincipal, 20_100_000),
        (2, 20, PayPrincipal, 500),
        (2, 21, PayEscrow, 100),
    ];
    assert!(rt; is_after(&afterwards, satisfied_ahead(600)));
}

/// The row after some steps of the loan with another number of installments.
fn after_of_term(term: u32, steps: &[Step]) -> Option<Row> {
    let terms = checked(Terms { term, ..loan() })?;
    Some(row_of(&books_after(&terms, steps)?))
}

#[test]
fn the_last_installment_takes_all_of_the_balance(rt: HostRuntime) {
    let one = Row {
        upb: 0,
        next: 2,
        interest: 100_000,
        fee: 4_167,
        principal: 20_000_000,
        satisfied: Some(day(2024, 2, 1)),
        ..BOARDED
    };
    let paid = [(2, 1, Pay, 20_100_000)];
    assert_eq!(rt; after_of_term(1, &paid), Some(one));
    let waiting = Row {
        suspense: 20_099_999,
        ..BOARDED
    };
    let short = [(2, 1, Pay, 20_099_999)];
    assert_eq!(rt; after_of_term(1, &short), Some(waiting));
    let two = Row {
        upb: 0,
        next: 3,
        interest: 199_900,
        fee: 8_330,
        principal: 20_000_000,
        satisfied: Some(day(2024, 3, 1)),
        ..BOARDED
    };
    let both = [(2, 1, Pay, 119_910), (3, 1, Pay, 20_079_990)];
    assert_eq!(rt; after_of_term(2, &both), Some(two));
}

/// What the loan with escrow holds for it after some steps.
fn escrow_balance(steps: &[Step]) -> Option<Cents> {
    Some(books_after(&escrow_loan(day(2024, 6, 1))?, steps)?.escrow)
}

#[test]
fn escrow_balances(rt: HostRuntime) {
    let bill = [(6, 10, Deposit, 150_000), (6, 12, Disburse, 200_000)];
    assert_eq!(rt; escrow_balance(&bill), Some(-50_000));
    let deposit = [
        (6, 10, Deposit, 150_000),
        (6, 12, Disburse, 200_000),
        (6, 14, Deposit, 60_000),
    ];
    assert_eq!(rt; escrow_balance(&deposit), Some(10_000));
    let refund = [(6, 10, Deposit, 109_000), (6, 15, Refund, 5_000)];
    assert_eq!(rt; escrow_balance(&refund), Some(104_000));
    let payment = [(6, 20, Pay, 132_910)];
    assert_eq!(rt; escrow_balance(&payment), Some(13_000));
    let payoff = [
        (6, 10, Deposit, 150_000),
        (6, 12, Disburse, 200_000),
        (6, 20, Payoff, 20_113_333),
    ];
    assert_eq!(rt; escrow_balance(&payoff), Some(0));
}

/// The bases of the newest plan and of the one before it, and the escrow balance.
fn plans_after(steps: &[Step]) -> Option<(Cents, Cents, Cents)> {
    let books = books_after(&escrow_loan(day(2024, 6, 1))?, steps)?;
    Some((books.plan.base, books.earlier.base, books.escrow))
}

#[test]
fn a_plan_follows_the_newest_or_replaces_it(rt: HostRuntime) {
    let first = [
        (6, 10, Deposit, 109_000),
        (6, 15, Plan(2024, 7, 0, 5_000), 14_000),
    ];
    assert_eq!(rt; plans_after(&first), Some((14_000, 13_000, 104_000)));
    let replaced = [
        (6, 10, Deposit, 109_000),
        (6, 15, Plan(2024, 7, 0, 5_000), 14_000),
        (6, 16, Plan(2024, 7, 0, 5_000), 15_000),
    ];
    assert_eq!(rt; plans_after(&replaced), Some((15_000, 13_000, 99_000)));
    let followed = [
        (6, 10, Deposit, 109_000),
        (6, 15, Plan(2024, 7, 0, 5_000), 14_000),
        (6, 16, Plan(2024, 8, 0, 5_000), 15_000),
    ];
    assert_eq!(rt; plans_after(&followed), Some((15_000, 14_000, 99_000)));
}

/// What the installment of July 2024 asks for escrow, under a plan that was made in June.
fn escrow_part_under(year: u32, month: u32, base: Cents, credit: Cents) -> Option<Cents> {
    let terms = escrow_loan(day(2024, 6, 1))?;
    let books = books_after(&terms, &[(6, 15, Plan(year, month, credit, 0), base)])?;
    let open = open_installment(&books, &terms)?;
    Some(open.escrow)
}

#[test]
fn a_credit_lasts_a_year_and_goes_to_nothing(rt: HostRuntime) {
    for (year, month, base, credit, part) in [
        (2024, 7, 500, 300, 200),
        (2024, 7, 100, 300, 0),
        (2023, 8, 500, 300, 200),
        (2023, 7, 500, 300, 500),
        (2024, 8, 500, 300, 13_000),
    ] {
        assert_eq!(rt; escrow_part_under(year, month, base, credit), Some(part));
    }
}

/// When the loan was satisfied, if it is, and what may be refunded after some steps.
fn refundable_after(steps: &[Step]) -> Option<(Option<Day>, Cents)> {
    let books = books_after(&loan(), steps)?;
    Some((books.satisfied, available(&books)))
}

#[test]
fn what_may_be_refunded(rt: HostRuntime) {
    let paid = [(2, 1, Pay, 119_910)];
    assert_eq!(rt; refundable_after(&paid), Some((None, 0)));
    let deposited = [(2, 1, Deposit, 109_000)];
    assert_eq!(rt; refundable_after(&deposited), Some((None, 109_000)));
    let satisfied = [
        (2, 1, Pay, 119_910),
        (2, 16, Payoff, 20_030_040),
        (2, 20, Deposit, 500),
    ];
    assert_eq!(rt;
        refundable_after(&satisfied),
        Some((Some(day(2024, 2, 16)), 500))
    );
}

fn is_current_after(steps: &[Step], on: Day) -> Option<bool> {
    let terms = loan();
    let books = books_after(&terms, steps)?;
    Some(is_current(&books, &terms, on))
}

#[test]
fn thirty_days_past_due_are_current(rt: HostRuntime) {
    assert_eq!(rt; is_current_after(&[], day(2024, 3, 2)), Some(true));
    assert_eq!(rt; is_current_after(&[], day(2024, 3, 3)), Some(false));
    let paid_off = [(2, 1, Pay, 119_910), (2, 16, Payoff, 20_030_040)];
    assert_eq!(rt; is_current_after(&paid_off, day(2025, 2, 1)), Some(true));
}
