//! Each refusal, and which of two comes first.

use crate::desk::Part::{self, Each, Once};
use crate::desk::{TURNS, Turns, over_both};
use crate::first_quarter::{BOARDED, FIRST_PAID, SCHEDULED_MONTHS};
use crate::openings::WITH_BILLS;
use std::test::Fail;

/// Months out of their order, before any is closed.
const MONTHS_BEFORE: [Part; 3] = [
    Once(BOARDED),
    Once(FIRST_PAID),
    Once(
        "
> k4 day 2024-04-01
ok 4
> k5 close 2024-01
no 21 WrongPeriod 2023-12
> k5 close 2024-05
no 21 WrongPeriod 2023-12
> k5 remit 2023-12
no 23 NotClosed -
> ? trial 2023-12
no 23 NotClosed -
> k5 pay 1 2024-04-02 1.00
no 9 FutureDated 2024-04-01
> k5 pay 7 2024-04-01 1.00
no 5 NoSuchLoan
> k5 close 2023-12
ok 5 lines 1 interest 0.00 principal 0.00
",
    ),
];

/// Months out of their order, and amounts and days out of their range, after four months are remitted.
const MONTHS_AFTER: [Part; 4] = [
    Once(BOARDED),
    Once(FIRST_PAID),
    Once(SCHEDULED_MONTHS),
    Once(
        "
> k13 remit 2024-03
no 24 WrongRemit 2024-04
> k13 close 2024-03
no 21 WrongPeriod 2024-04
> k13 remit 2024-04
no 23 NotClosed 2024-03
> k13 remit 2024-06
no 23 NotClosed 2024-03
> ? report 2023-11
no 23 NotClosed 2024-03
> ? report 2024-04
no 23 NotClosed 2024-03
> k13 pay 1 2024-04-01 0.00
no 8 BadAmount
> k13 pay 1 2024-04-01 100000000.01
no 8 BadAmount
> k13 pay 1 2023-12-14 1.00
no 10 BeforeBoarding 2023-12-15
> k13 retype 1 2023-11 AA
no 10 BeforeBoarding 2023-12-15
> k13 retype 1 2024-03 AA
no 27 ClosedMonth 2024-03
> k13 board 2 2023-12-15 200000.00 6000 250 1199.10 360 2024-02 15 500 2 0.00 SS
no 7 BoardedLate 2024-03
> k13 board 2 2023-12-15 200000.00 6000 250 1199.10 360 2024-02 15 500 2 100000000.01 SS
no 6 BadTerms 10 EscrowPay
> k13 day 2024-04-02
ok 13
",
    ),
];

/// A month on its last day.
const ON_THE_LAST_DAY: [Part; 1] = [Once(
    "
> k1 day 2023-12-31
ok 1
> k2 board 1 2023-12-15 200000.00 6000 250 1199.10 360 2024-02 15 500 2 0.00 SS
ok 2
> k3 close 2023-12
no 22 NotEnded 2023-12-31
> k3 day 2024-01-01
ok 3
> k4 close 2023-12
ok 4 lines 1 interest 0.00 principal 0.00
",
)];

#[test]
fn months_are_closed_and_remitted_in_order(rt: HostRuntime) -> Result<(), Fail> {
    over_both(&rt, rt.alloc(), &MONTHS_BEFORE)?;
    over_both(&rt, rt.alloc(), &MONTHS_AFTER)?;
    over_both(&rt, rt.alloc(), &ON_THE_LAST_DAY)
}

/// Each fault of terms, before all that follow it, and after it that the loan is there.
const FAULTS_IN_ORDER: [Part; 2] = [
    Once(BOARDED),
    Once(
        "
> k3 board 2 2023-12-15 0.00 25001 25002 1000.00 481 2024-03 29 1001 3 100000000.01 SS
no 6 BadTerms 1 Principal
> k3 board 2 2023-12-15 200000.00 25001 25002 1000.00 481 2024-03 29 1001 3 100000000.01 SS
no 6 BadTerms 2 RateRange
> k3 board 2 2023-12-15 200000.00 6000 25002 1000.00 481 2024-03 29 1001 3 100000000.01 SS
no 6 BadTerms 3 FeeRange
> k3 board 2 2023-12-15 200000.00 6000 250 1000.00 481 2024-03 29 1001 3 100000000.01 SS
no 6 BadTerms 4 Payment
> k3 board 2 2023-12-15 200000.00 6000 250 1199.10 481 2024-03 29 1001 3 100000000.01 SS
no 6 BadTerms 5 Term
> k3 board 2 2023-12-15 200000.00 6000 250 1199.10 360 2024-03 29 1001 3 100000000.01 SS
no 6 BadTerms 6 FirstDue
> k3 board 2 2023-12-15 200000.00 6000 250 1199.10 360 2024-02 29 1001 3 100000000.01 SS
no 6 BadTerms 7 Grace
> k3 board 2 2023-12-15 200000.00 6000 250 1199.10 360 2024-02 15 1001 3 100000000.01 SS
no 6 BadTerms 8 Late
> k3 board 2 2023-12-15 200000.00 6000 250 1199.10 360 2024-02 15 500 3 100000000.01 SS
no 6 BadTerms 9 Cushion
> k3 board 2 2023-12-15 200000.00 6000 250 1199.10 360 2024-02 15 500 2 100000000.01 SS
no 6 BadTerms 10 EscrowPay
> k3 board 1 2023-12-15 0.00 25001 25002 1000.00 481 2024-03 29 1001 3 100000000.01 SS
no 4 LoanExists
> k3 board 2 2023-12-15 200000.00 6000 250 1199.10 360 2024-02 15 500 2 0.00 SS
ok 3
",
    ),
];

/// Boarding: a loan that is there, and one of a later day.
const NOT_BOARDED: [Part; 1] = [Once(
    "
> k1 day 2023-12-01
ok 1
> k2 board 1 2023-12-15 200000.00 6000 250 1199.10 360 2024-02 15 500 2 0.00 SS
no 9 FutureDated 2023-12-01
> k2 board 1 2023-12-15 200000.00 6000 250 1199.10 360 2024-02 15 500 3 100000000.01 SS
no 6 BadTerms 9 Cushion
> k2 day 2023-12-15
ok 2
> k3 board 1 2023-12-15 200000.00 6000 250 1199.10 360 2024-02 15 500 2 0.00 SS
ok 3
> k4 board 1 2023-12-15 200000.00 6000 250 1199.10 360 2024-02 15 500 2 0.00 SS
no 4 LoanExists
> k4 day 2023-12-15
no 3 DayNotLater 2023-12-15
> k4 day 2023-12-14
no 3 DayNotLater 2023-12-15
> k4 day 2023-12-16
ok 4
",
)];

#[test]
fn terms_are_refused_in_order(rt: HostRuntime) -> Result<(), Fail> {
    over_both(&rt, rt.alloc(), &FAULTS_IN_ORDER)?;
    over_both(&rt, rt.alloc(), &NOT_BOARDED)
}

/// Entries for which two rules hold: the first one refuses them.
const ENTRIES_REFUSED: [Part; 3] = [
    Once(BOARDED),
    Once(FIRST_PAID),
    Once(
        "
> k4 pay 7 2024-02-01 0.00
no 5 NoSuchLoan
> k4 pay 7 2024-02-02 1.00
no 5 NoSuchLoan
> k4 pay 1 2024-02-02 0.00
no 8 BadAmount
> k4 pay 1 2023-12-14 0.00
no 8 BadAmount
> k4 curtail 1 2023-12-14 200000.01
no 10 BeforeBoarding 2023-12-15
> k4 payoff 1 2023-12-14 0.01
no 10 BeforeBoarding 2023-12-15
> k4 disburse 1 2023-12-14 1.00 9
no 10 BeforeBoarding 2023-12-15
> k4 disburse 1 2024-02-01 0.00 9
no 8 BadAmount
> k4 disburse 1 2024-02-01 1.00 9
no 16 NoSuchLine
> k4 refund 1 0.00
no 8 BadAmount
> k4 waive 1 0.00
no 8 BadAmount
> k4 deposit 7 2024-02-01 1.00
no 5 NoSuchLoan
> k4 reverse 1 2
no 13 NoSuchEntry
> k4 reverse 7 3
no 5 NoSuchLoan
> k4 drop 1 1
no 16 NoSuchLine
> k4 drop 7 1
no 5 NoSuchLoan
> k4 retype 7 2023-11 AA
no 5 NoSuchLoan
> k4 reverse 1 3
ok 4
> k5 reverse 1 3
no 14 AlreadyReversed 4
> k5 reverse 1 4
no 13 NoSuchEntry
> k5 day 2024-02-02
ok 5
",
    ),
];

/// Entries of a day to come, and amounts out of their range, of which the kind's own rule holds too.
const DAYS_TO_COME: [Part; 3] = [
    Once(BOARDED),
    Once(FIRST_PAID),
    Once(
        "
> k4 curtail 1 2024-02-02 200000.01
no 9 FutureDated 2024-02-01
> k4 payoff 1 2024-02-02 0.01
no 9 FutureDated 2024-02-01
> k4 disburse 1 2024-02-02 1.00 9
no 9 FutureDated 2024-02-01
> k4 curtail 1 2024-02-01 100000000.01
no 8 BadAmount
> k4 payoff 1 2024-02-01 0.00
no 8 BadAmount
> k4 day 2024-02-02
ok 4
",
    ),
];

/// Entries of no amount for a loan that is not there.
const NOT_THERE: [Part; 2] = [
    Once(BOARDED),
    Once(
        "
> k3 curtail 7 2024-02-01 0.00
no 5 NoSuchLoan
> k3 payoff 7 2024-02-01 0.00
no 5 NoSuchLoan
> k3 disburse 7 2024-02-01 0.00 9
no 5 NoSuchLoan
> k3 refund 7 0.00
no 5 NoSuchLoan
> k3 waive 7 0.00
no 5 NoSuchLoan
> k3 day 2024-02-02
ok 3
",
    ),
];

/// Questions that are refused.
const QUESTIONS_REFUSED: [Part; 3] = [
    Once(BOARDED),
    Once(FIRST_PAID),
    Once(
        "
> ? books 7
no 5 NoSuchLoan
> ? escrow 7
no 5 NoSuchLoan
> ? at 7 2024-02-02
no 5 NoSuchLoan
> ? at 1 2024-02-02
no 9 FutureDated 2024-02-01
> ? at 1 2023-12-14
no 10 BeforeBoarding 2023-12-15
> ? payoff 1 2024-02-02
no 9 FutureDated 2024-02-01
> ? payoff 1 2023-12-14
no 10 BeforeBoarding 2023-12-15
> ? rows 0
no 13 NoSuchEntry
> ? rows 4
no 13 NoSuchEntry
",
    ),
];

#[test]
fn the_first_rule_that_holds_refuses(rt: HostRuntime) -> Result<(), Fail> {
    over_both(&rt, rt.alloc(), &ENTRIES_REFUSED)?;
    over_both(&rt, rt.alloc(), &DAYS_TO_COME)?;
    over_both(&rt, rt.alloc(), &NOT_THERE)?;
    over_both(&rt, rt.alloc(), &QUESTIONS_REFUSED)
}

/// Escrow lines that are wrong, and the seventeenth; one that is taken away leaves its place.
const LINES_REFUSED: [Part; 4] = [
    Once(BOARDED),
    Once(
        "
> k3 line 1 1 tax 13 5 0.00
no 17 BadLine 1 Amount
> k3 line 1 1 tax 13 5 1.00
no 17 BadLine 2 MonthRange
> k3 line 1 1 tax 0 12 1.00
no 17 BadLine 2 MonthRange
> k3 line 1 1 tax 12 5 1.00
no 17 BadLine 3 Every
> k3 line 7 1 tax 13 5 0.00
no 5 NoSuchLoan
",
    ),
    Each(Turns {
        turns: 16,
        number: 3,
        loan: 0,
        text: "
> k# line 1 & tax 7 12 1.00
ok #
",
        ..TURNS
    }),
    Once(
        "
> k19 line 1 16 tax 13 5 0.00
no 2 Full Lines
> k19 line 1 15 tax 13 5 0.00
no 17 BadLine 1 Amount
> k19 line 1 15 tax 8 6 2.00
ok 19
> k20 drop 1 0
ok 20
> k21 line 1 16 tax 7 12 1.00
ok 21
> k22 line 1 17 tax 7 12 1.00
no 2 Full Lines
",
    ),
];

/// The sixty-fifth change of a loan's type.
const TYPES_REFUSED: [Part; 3] = [
    Once(BOARDED),
    Each(Turns {
        turns: 32,
        number: 3,
        commands: 2,
        text: "
> k# retype 1 2024-02 AA
ok #
> k% retype 1 2024-03 SS
ok %
",
        ..TURNS
    }),
    Once(
        "
> k67 retype 1 2023-11 AA
no 2 Full Types
",
    ),
];

#[test]
fn limits_come_first(rt: HostRuntime) -> Result<(), Fail> {
    over_both(&rt, rt.alloc(), &LINES_REFUSED)?;
    over_both(&rt, rt.alloc(), &TYPES_REFUSED)
}

/// Plans that are not lawful: the balance is 1,090.00, of which 50.00 are a surplus.
const SURPLUS_REFUSED: [Part; 2] = [
    Once(WITH_BILLS),
    Once(
        "
> k7 analyse 2 - within30 -
no 18 BadPlan 6 NothingToPlan Short
> k7 analyse 2 - spread:11 -
no 18 BadPlan 6 NothingToPlan Short
> k7 analyse 2 retain - -
no 18 BadPlan 1 MustRefund
> k7 analyse 7 retain - -
no 5 NoSuchLoan
> k7 day 2024-06-16
ok 7
",
    ),
];

/// With a bill of 1,000.00 paid the balance is 90.00, which is short of 1,040.00 by 950.00.
const SHORTAGE_REFUSED: [Part; 2] = [
    Once(WITH_BILLS),
    Once(
        "
> k7 disburse 2 2024-06-12 1000.00 1
ok 7
> k8 analyse 2 - within30 -
no 18 BadPlan 2 MustSpread Short
> k8 analyse 2 - spread:11 -
no 18 BadPlan 4 TooFewMonths 11
> k8 analyse 2 - spread:61 -
no 18 BadPlan 5 TooManyMonths 61
> k8 analyse 2 retain - -
no 18 BadPlan 6 NothingToPlan Surplus
> k8 day 2024-06-16
ok 8
",
    ),
];

/// With a bill of 1,220.00 paid the balance is 130.00 below 0, as much as the base of a month: a deficiency that
/// may not be asked within 30 days. The shortage is judged before it.
const DEFICIENCY_REFUSED: [Part; 2] = [
    Once(WITH_BILLS),
    Once(
        "
> k7 disburse 2 2024-06-12 1220.00 1
ok 7
> k8 analyse 2 - - within30
no 18 BadPlan 3 MustSpread Deficient
> k8 analyse 2 - within30 within30
no 18 BadPlan 2 MustSpread Short
> k8 analyse 2 - - spread:1
no 18 BadPlan 4 TooFewMonths 1
> k8 analyse 2 - - spread:61
no 18 BadPlan 5 TooManyMonths 61
> k8 day 2024-06-16
ok 8
",
    ),
];

#[test]
fn plans_are_refused(rt: HostRuntime) -> Result<(), Fail> {
    over_both(&rt, rt.alloc(), &SURPLUS_REFUSED)?;
    over_both(&rt, rt.alloc(), &SHORTAGE_REFUSED)?;
    over_both(&rt, rt.alloc(), &DEFICIENCY_REFUSED)
}
