//! Designated payments, escrow, and types by month, worked by hand.

use crate::desk::Part::{self, Once};
use crate::desk::over_both;
use crate::first_quarter::{BOARDED, FIRST_PAID};
use crate::openings::{ACTUAL_MONTHS, BOARDED_ACTUAL, PAID_OFF, PAYOFF_REMITTED, WITH_BILLS};
use std::test::Fail;

/// What is over is paid on the principal.
const OVER_TO_PRINCIPAL: [Part; 2] = [
    Once(BOARDED),
    Once(
        "
> k3 pay 1 2024-02-01 1699.10 principal
ok 3
> ? books 1
books 1 2024-02-01 upb 199300.90 next 2024-03 escrow 0.00 suspense 0.00 late 0.00 interest 1000.00 fee 41.67 principal 699.10 charges 0.00 pay 1199.10
> ? rows 3
rows 3 count 3
row 1 Received Borrower T 1699.10
row 1 Collected T P 1699.10
row 1 Fee P Servicer 41.67
end
",
    ),
];

/// What is over is paid into escrow.
const OVER_TO_ESCROW: [Part; 2] = [
    Once(BOARDED),
    Once(
        "
> k3 pay 1 2024-02-01 1699.10 escrow
ok 3
> ? books 1
books 1 2024-02-01 upb 199800.90 next 2024-03 escrow 500.00 suspense 0.00 late 0.00 interest 1000.00 fee 41.67 principal 199.10 charges 0.00 pay 1199.10
",
    ),
];

/// What is over waits.
const OVER_WAITS: [Part; 2] = [
    Once(BOARDED),
    Once(
        "
> k3 pay 1 2024-02-01 1699.10
ok 3
> ? books 1
books 1 2024-02-01 upb 199800.90 next 2024-03 escrow 0.00 suspense 500.00 late 0.00 interest 1000.00 fee 41.67 principal 199.10 charges 0.00 pay 1199.10
",
    ),
];

#[test]
fn what_is_over_goes_where_it_is_designated(rt: HostRuntime) -> Result<(), Fail> {
    over_both(&rt, rt.alloc(), &OVER_TO_PRINCIPAL)?;
    over_both(&rt, rt.alloc(), &OVER_TO_ESCROW)?;
    over_both(&rt, rt.alloc(), &OVER_WAITS)
}

/// Two installments' cents, of which the second is paid on the principal.
const TWICE_TO_PRINCIPAL: [Part; 2] = [
    Once(BOARDED),
    Once(
        "
> k3 pay 1 2024-02-01 2398.20 principal
ok 3
> ? books 1
books 1 2024-02-01 upb 198601.80 next 2024-03 escrow 0.00 suspense 0.00 late 0.00 interest 1000.00 fee 41.67 principal 1398.20 charges 0.00 pay 1199.10
",
    ),
];

/// Two installments' cents, which pay both.
const TWICE_AHEAD: [Part; 2] = [
    Once(BOARDED),
    Once(
        "
> k3 pay 1 2024-02-01 2398.20
ok 3
> ? books 1
books 1 2024-02-01 upb 199600.80 next 2024-04 escrow 0.00 suspense 0.00 late 0.00 interest 1999.00 fee 83.30 principal 399.20 charges 0.00 pay 1199.10
",
    ),
];

/// Cents that pay no installment wait, whatever their word.
const TOO_FEW: [Part; 2] = [
    Once(BOARDED),
    Once(
        "
> k3 pay 1 2024-02-01 500.00 principal
ok 3
> ? books 1
books 1 2024-02-01 upb 200000.00 next 2024-02 escrow 0.00 suspense 500.00 late 0.00 interest 0.00 fee 0.00 principal 0.00 charges 0.00 pay 1199.10
",
    ),
];

#[test]
fn what_is_due_is_paid_before_what_is_over(rt: HostRuntime) -> Result<(), Fail> {
    over_both(&rt, rt.alloc(), &TWICE_TO_PRINCIPAL)?;
    over_both(&rt, rt.alloc(), &TWICE_AHEAD)?;
    over_both(&rt, rt.alloc(), &TOO_FEW)
}

/// An analysis with a surplus, which must be refunded.
const ANALYSED: [Part; 2] = [
    Once(WITH_BILLS),
    Once(
        "
> ? escrow 2
escrow 2 from 2024-07 base 130.00 cushion 260.00 opening 1040.00 balance 1090.00 surplus 50.00 short 0.00 deficient 0.00 pay 130.00
month 2024-07 paid 500.00 trial -370.00 target 670.00
month 2024-08 paid 0.00 trial -240.00 target 800.00
month 2024-09 paid 360.00 trial -470.00 target 570.00
month 2024-10 paid 0.00 trial -340.00 target 700.00
month 2024-11 paid 0.00 trial -210.00 target 830.00
month 2024-12 paid 700.00 trial -780.00 target 260.00
month 2025-01 paid 0.00 trial -650.00 target 390.00
month 2025-02 paid 0.00 trial -520.00 target 520.00
month 2025-03 paid 0.00 trial -390.00 target 650.00
month 2025-04 paid 0.00 trial -260.00 target 780.00
month 2025-05 paid 0.00 trial -130.00 target 910.00
month 2025-06 paid 0.00 trial 0.00 target 1040.00
end
> k7 analyse 2 credit - -
no 18 BadPlan 1 MustRefund
> k7 analyse 2 refund - -
ok 7 base 130.00 cushion 260.00 opening 1040.00 balance 1090.00 surplus 50.00 short 0.00 deficient 0.00 refund 50.00 within30 0.00 pay 130.00
> ? rows 7
rows 7 count 1
row 2 Refunded T Borrower 50.00
end
> k8 reverse 2 7
no 15 NotReversible
",
    ),
];

#[test]
fn a_surplus_is_refunded(rt: HostRuntime) -> Result<(), Fail> {
    over_both(&rt, rt.alloc(), &ANALYSED)
}

/// With a bill of 1,219.99 paid the deficiency is a cent less than the base of a month, and is asked within 30
/// days; of the shortage nothing is said, so nothing is asked for it.
const DEFICIENCY_ASKED: [Part; 2] = [
    Once(WITH_BILLS),
    Once(
        "
> k7 disburse 2 2024-06-12 1219.99 1
ok 7
> k8 analyse 2 - - within30
ok 8 base 130.00 cushion 260.00 opening 1040.00 balance -129.99 surplus 0.00 short 1040.00 deficient 129.99 refund 0.00 within30 129.99 pay 130.00
> ? rows 8
rows 8 count 0
end
",
    ),
];

#[test]
fn a_small_deficiency_is_asked_at_once(rt: HostRuntime) -> Result<(), Fail> {
    over_both(&rt, rt.alloc(), &DEFICIENCY_ASKED)
}

/// A bill above the escrow balance is advanced, and paid back by a deposit.
const ESCROW_ADVANCED: [Part; 1] = [Once(
    "
> k1 day 2024-06-15
ok 1
> k2 board 2 2024-06-01 200000.00 6000 250 1199.10 360 2024-07 15 500 2 130.00 AA
ok 2
> k3 board 3 2024-06-01 200000.00 6000 250 1199.10 360 2024-07 15 500 2 130.00 AA
ok 3
> k4 line 2 1 tax 7 12 2000.00
ok 4
> k5 deposit 2 2024-06-10 1500.00
ok 5
> k6 deposit 3 2024-06-10 300.00
ok 6
> k7 disburse 2 2024-06-12 2000.00 1
ok 7
> ? rows 7
rows 7 count 2
row 2 Disbursed T Payee 2000.00
row 2 EscrowAdvance Servicer T 500.00
end
> ? custodial
custodial T 300.00 P 0.00 suspense 0.00 escrow -200.00 escrow-advance 500.00 held 0.00 pi-advance 0.00
> k8 deposit 2 2024-06-14 600.00
ok 8
> ? rows 8
rows 8 count 2
row 2 Received Borrower T 600.00
row 2 EscrowAdvance Servicer T -500.00
end
> ? custodial
custodial T 400.00 P 0.00 suspense 0.00 escrow 400.00 escrow-advance 0.00 held 0.00 pi-advance 0.00
> k9 disburse 2 2024-06-12 1.00 9
no 16 NoSuchLine
",
)];

#[test]
fn a_bill_above_escrow_is_advanced(rt: HostRuntime) -> Result<(), Fail> {
    over_both(&rt, rt.alloc(), &ESCROW_ADVANCED)
}

/// The Actual/Actual loan is Scheduled/Actual from 2024-04 on.
const RETYPED: &str = "
> k13 day 2024-05-01
ok 13
> k14 retype 1 2024-04 SA
ok 14
> k15 close 2024-04
ok 15 lines 1 interest 1914.74 principal 0.00
> k16 remit 2024-04
ok 16 net 1914.74
> ? rows 16
rows 16 count 2
row 1 PiAdvance Servicer P 1914.74
row 1 Remitted P Investor 1914.74
end
> k17 retype 1 2024-04 AA
no 27 ClosedMonth 2024-04
";

/// A payment of a month before the other type.
const PAID_BEFORE: [Part; 5] = [
    Once(BOARDED_ACTUAL),
    Once(FIRST_PAID),
    Once(ACTUAL_MONTHS),
    Once(RETYPED),
    Once(
        "
> k17 pay 1 2024-03-10 1199.10
ok 17
> k18 day 2024-06-01
ok 18
> k19 close 2024-05
ok 19 lines 1 interest 955.47 principal 200.10
> ? report 2024-05
report 2024-05 lines 1
line 1 due 956.42 0.00 adjusted -0.95 200.10 upb 199600.80 balance 199600.80
adjust 17 1 2024-03 957.37 200.10
adjust 17 1 2024-04 -958.32 0.00
total interest 955.47 principal 200.10
end
",
    ),
];

/// The type of before again.
const TYPED_BACK: [Part; 5] = [
    Once(BOARDED_ACTUAL),
    Once(FIRST_PAID),
    Once(ACTUAL_MONTHS),
    Once(RETYPED),
    Once(
        "
> k17 day 2024-06-01
ok 17
> k18 retype 1 2024-05 AA
ok 18
> k19 close 2024-05
ok 19 lines 1 interest -1914.74 principal 0.00
> k20 remit 2024-05
ok 20 net -1914.74
",
    ),
];

#[test]
fn a_loan_is_retyped_from_a_month_on(rt: HostRuntime) -> Result<(), Fail> {
    over_both(&rt, rt.alloc(), &PAID_BEFORE)?;
    over_both(&rt, rt.alloc(), &TYPED_BACK)
}

/// A type from a month before boarding.
const TYPED_BEFORE: [Part; 2] = [
    Once(BOARDED),
    Once(
        "
> k3 retype 1 2023-11 AA
no 10 BeforeBoarding 2023-12-15
",
    ),
];

/// The interest of a satisfied loan that another type leaves due.
const TYPED_AFTER_PAYOFF: [Part; 5] = [
    Once(BOARDED),
    Once(FIRST_PAID),
    Once(PAID_OFF),
    Once(PAYOFF_REMITTED),
    Once(
        "
> k13 day 2024-04-01
ok 13
> k14 retype 1 2024-03 AA
ok 14
> k15 close 2024-03
ok 15 lines 1 interest 478.69 principal 0.00
> ? rows 15
rows 15 count 1
row 1 Residual P Servicer -478.69
end
> k16 remit 2024-03
ok 16 net 478.69
> ? rows 16
rows 16 count 1
row 1 Remitted P Investor 478.69
end
",
    ),
];

#[test]
fn a_type_counts_after_boarding_and_payoff(rt: HostRuntime) -> Result<(), Fail> {
    over_both(&rt, rt.alloc(), &TYPED_BEFORE)?;
    over_both(&rt, rt.alloc(), &TYPED_AFTER_PAYOFF)
}
