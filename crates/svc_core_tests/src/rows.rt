//! Payments, closed months, reversals and payoffs, worked by hand.

use crate::desk::Part::{self, Once};
use crate::desk::over_both;
use crate::first_quarter::{BOARDED, FIRST_PAID, SCHEDULED_MONTHS};
use crate::openings::{ACTUAL_MONTHS, BOARDED_ACTUAL, PAID_OFF, PAYOFF_REMITTED};
use std::test::Fail;

/// The first installment is paid: the books, and the rows.
const FIRST_INSTALLMENT: [Part; 3] = [
    Once(BOARDED),
    Once(FIRST_PAID),
    Once(
        "
> ? books 1
books 1 2024-02-01 upb 199800.90 next 2024-03 escrow 0.00 suspense 0.00 late 0.00 interest 1000.00 fee 41.67 principal 199.10 charges 0.00 pay 1199.10
> ? rows 3
rows 3 count 3
row 1 Received Borrower T 1199.10
row 1 Collected T P 1199.10
row 1 Fee P Servicer 41.67
end
",
    ),
];

#[test]
fn a_payment_pays_the_first_installment(rt: HostRuntime) -> Result<(), Fail> {
    over_both(&rt, rt.alloc(), &FIRST_INSTALLMENT)
}

/// A cent is missing, and comes.
const A_CENT_SHORT: [Part; 2] = [
    Once(BOARDED),
    Once(
        "
> k3 pay 1 2024-02-01 1199.09
ok 3
> ? books 1
books 1 2024-02-01 upb 200000.00 next 2024-02 escrow 0.00 suspense 1199.09 late 0.00 interest 0.00 fee 0.00 principal 0.00 charges 0.00 pay 1199.10
> k4 pay 1 2024-02-01 0.01
ok 4
> ? books 1
books 1 2024-02-01 upb 199800.90 next 2024-03 escrow 0.00 suspense 0.00 late 0.00 interest 1000.00 fee 41.67 principal 199.10 charges 0.00 pay 1199.10
",
    ),
];

#[test]
fn a_payment_waits_until_it_covers_the_installment(rt: HostRuntime) -> Result<(), Fail> {
    over_both(&rt, rt.alloc(), &A_CENT_SHORT)
}

/// The last day of grace, and the day after it.
const GRACE: [Part; 3] = [
    Once(BOARDED),
    Once(FIRST_PAID),
    Once(
        "
> k4 day 2024-03-16
ok 4
> ? books 1
books 1 2024-03-16 upb 199800.90 next 2024-03 escrow 0.00 suspense 0.00 late 0.00 interest 1000.00 fee 41.67 principal 199.10 charges 0.00 pay 1199.10
> k5 day 2024-03-17
ok 5
> ? books 1
books 1 2024-03-17 upb 199800.90 next 2024-03 escrow 0.00 suspense 0.00 late 59.96 interest 1000.00 fee 41.67 principal 199.10 charges 0.00 pay 1199.10
",
    ),
];

#[test]
fn a_late_charge_follows_the_days_of_grace(rt: HostRuntime) -> Result<(), Fail> {
    over_both(&rt, rt.alloc(), &GRACE)
}

/// What is advanced for March, which was not paid.
const ADVANCED: [Part; 4] = [
    Once(BOARDED),
    Once(FIRST_PAID),
    Once(SCHEDULED_MONTHS),
    Once(
        "
> ? rows 11
rows 11 count 1
row 1 Remitted P Investor 1157.43
end
> ? rows 12
rows 12 count 2
row 1 PiAdvance Servicer P 1157.47
row 1 Remitted P Investor 1157.47
end
> ? custodial
custodial T 0.00 P 0.00 suspense 0.00 escrow 0.00 escrow-advance 0.00 held 0.00 pi-advance 1157.47
",
    ),
];

#[test]
fn a_scheduled_installment_is_advanced(rt: HostRuntime) -> Result<(), Fail> {
    over_both(&rt, rt.alloc(), &ADVANCED)
}

/// A payment of a closed month, which pays an advance back: no report changes.
const PAID_BACK: [Part; 4] = [
    Once(BOARDED),
    Once(FIRST_PAID),
    Once(SCHEDULED_MONTHS),
    Once(
        "
> k13 pay 1 2024-03-10 1199.10
ok 13
> ? rows 13
rows 13 count 4
row 1 Received Borrower T 1199.10
row 1 Collected T P 1199.10
row 1 Fee P Servicer 41.63
row 1 PiAdvance Servicer P -1157.47
end
> ? books 1
books 1 2024-04-01 upb 199600.80 next 2024-04 escrow 0.00 suspense 0.00 late 0.00 interest 1999.00 fee 83.30 principal 399.20 charges 0.00 pay 1199.10
> k14 day 2024-05-01
ok 14
> k15 close 2024-04
ok 15 lines 1 interest 956.42 principal 201.10
> ? report 2024-04
report 2024-04 lines 1
line 1 due 956.42 201.10 adjusted 0.00 0.00 upb 199600.80 balance 199399.70
total interest 956.42 principal 201.10
end
",
    ),
];

#[test]
fn a_late_payment_pays_an_advance_back(rt: HostRuntime) -> Result<(), Fail> {
    over_both(&rt, rt.alloc(), &PAID_BACK)
}

/// A payment of a closed month, which the next report sends.
const SENT_LATER: [Part; 4] = [
    Once(BOARDED_ACTUAL),
    Once(FIRST_PAID),
    Once(ACTUAL_MONTHS),
    Once(
        "
> ? report 2024-03
report 2024-03 lines 1
line 1 due 0.00 0.00 adjusted 0.00 0.00 upb 199800.90 balance 199800.90
total interest 0.00 principal 0.00
end
> k13 pay 1 2024-03-10 1199.10
ok 13
> ? rows 13
rows 13 count 3
row 1 Received Borrower T 1199.10
row 1 Collected T P 1199.10
row 1 Fee P Servicer 41.63
end
> k14 day 2024-05-01
ok 14
> k15 close 2024-04
ok 15 lines 1 interest 957.37 principal 200.10
> ? report 2024-04
report 2024-04 lines 1
line 1 due 0.00 0.00 adjusted 957.37 200.10 upb 199600.80 balance 199600.80
adjust 13 1 2024-03 957.37 200.10
total interest 957.37 principal 200.10
end
> ? report 2024-03
report 2024-03 lines 1
line 1 due 0.00 0.00 adjusted 0.00 0.00 upb 199800.90 balance 199800.90
total interest 0.00 principal 0.00
end
> ? trial 2024-04
trial 2024-04 loans 1
loan 1 upb 199600.80 balance 199600.80
total upb 199600.80 balance 199600.80
end
",
    ),
];

#[test]
fn a_report_never_changes(rt: HostRuntime) -> Result<(), Fail> {
    over_both(&rt, rt.alloc(), &SENT_LATER)
}

/// A command sent again, and another one under its key.
const SENT_AGAIN: [Part; 3] = [
    Once(BOARDED),
    Once(FIRST_PAID),
    Once(
        "
> k3 pay 1 2024-02-01 1199.10
ok 3
> ? books 1
books 1 2024-02-01 upb 199800.90 next 2024-03 escrow 0.00 suspense 0.00 late 0.00 interest 1000.00 fee 41.67 principal 199.10 charges 0.00 pay 1199.10
> k3 pay 1 2024-02-01 1199.11
no 1 KeyReused 3
> ? books 1
books 1 2024-02-01 upb 199800.90 next 2024-03 escrow 0.00 suspense 0.00 late 0.00 interest 1000.00 fee 41.67 principal 199.10 charges 0.00 pay 1199.10
> k1 day 2023-02-01
no 1 KeyReused 1
> k4 day 2024-02-02
ok 4
",
    ),
];

#[test]
fn a_command_sent_again_has_its_reply(rt: HostRuntime) -> Result<(), Fail> {
    over_both(&rt, rt.alloc(), &SENT_AGAIN)
}

/// Two installments are paid and remitted, and the first is taken back.
const TAKEN_BACK: &str = "
> k1 day 2024-03-01
ok 1
> k2 board 1 2023-12-15 200000.00 6000 250 1199.10 360 2024-02 15 500 2 0.00 AA
ok 2
> k3 pay 1 2024-02-01 1199.10
ok 3
> k4 pay 1 2024-03-01 1199.10
ok 4
> k5 day 2024-04-01
ok 5
> k6 close 2023-12
ok 6 lines 1 interest 0.00 principal 0.00
> k7 close 2024-01
ok 7 lines 1 interest 0.00 principal 0.00
> k8 close 2024-02
ok 8 lines 1 interest 958.33 principal 199.10
> k9 close 2024-03
ok 9 lines 1 interest 957.37 principal 200.10
> k10 remit 2023-12
ok 10 net 0.00
> k11 remit 2024-01
ok 11 net 0.00
> k12 remit 2024-02
ok 12 net 1157.43
> k13 remit 2024-03
ok 13 net 1157.47
> k14 reverse 1 3
ok 14
> ? rows 14
rows 14 count 4
row 1 Returned T Borrower 1199.10
row 1 Collected T P -1199.10
row 1 Fee P Servicer -41.63
row 1 PiAdvance Servicer P 1157.47
end
> ? books 1
books 1 2024-04-01 upb 199800.90 next 2024-03 escrow 0.00 suspense 0.00 late 119.92 interest 1000.00 fee 41.67 principal 199.10 charges 0.00 pay 1199.10
";

/// What the next report sends of it.
const TAKEN_BACK_LATER: &str = "
> k15 day 2024-05-01
ok 15
> k16 close 2024-04
ok 16 lines 1 interest -957.37 principal -200.10
> ? report 2024-04
report 2024-04 lines 1
line 1 due 0.00 0.00 adjusted -957.37 -200.10 upb 199800.90 balance 199800.90
adjust 14 1 2024-02 -958.33 -199.10
adjust 14 1 2024-03 0.96 -1.00
total interest -957.37 principal -200.10
end
> k17 remit 2024-04
ok 17 net -1157.47
> ? rows 17
rows 17 count 2
row 1 PiAdvance Servicer P -1157.47
row 1 Remitted P Investor -1157.47
end
> k18 reverse 1 3
no 14 AlreadyReversed 14
> k18 reverse 1 14
no 13 NoSuchEntry
";

const REVERSED: [Part; 2] = [Once(TAKEN_BACK), Once(TAKEN_BACK_LATER)];

#[test]
fn a_reversal_changes_closed_months(rt: HostRuntime) -> Result<(), Fail> {
    over_both(&rt, rt.alloc(), &REVERSED)
}

const SATISFIED: [Part; 3] = [Once(BOARDED), Once(FIRST_PAID), Once(PAID_OFF)];

#[test]
fn a_payoff_satisfies_the_loan(rt: HostRuntime) -> Result<(), Fail> {
    over_both(&rt, rt.alloc(), &SATISFIED)
}

/// The whole balance is curtailed when a late charge is owed: a payoff of the satisfied loan owes that charge.
const SATISFIED_WITH_A_CHARGE: [Part; 1] = [Once(
    "
> k1 day 2024-01-15
ok 1
> k2 board 1 2024-01-15 200000.00 6000 250 1199.10 360 2024-02 15 500 2 0.00 AA
ok 2
> k3 day 2024-02-20
ok 3
> k4 curtail 1 2024-02-20 200000.00
ok 4
> k5 payoff 1 2024-02-20 0.01
no 12 PayoffShort 59.96
> k5 payoff 1 2024-02-20 59.96
ok 5
> k6 curtail 1 2024-02-20 0.01
no 11 OverPrincipal 0.00
> k6 payoff 1 2024-02-20 0.01
ok 6
> ? payoff 1 2024-02-20
payoff 1 2024-02-20 0.00
",
)];

#[test]
fn a_satisfied_loan_owes_its_late_charges(rt: HostRuntime) -> Result<(), Fail> {
    over_both(&rt, rt.alloc(), &SATISFIED_WITH_A_CHARGE)
}

/// The payoff is taken back.
const PAYOFF_TAKEN_BACK: [Part; 5] = [
    Once(BOARDED),
    Once(FIRST_PAID),
    Once(PAID_OFF),
    Once(PAYOFF_REMITTED),
    Once(
        "
> k13 reverse 1 5
ok 13
> ? rows 13
rows 13 count 5
row 1 Returned T Borrower 200300.40
row 1 Collected T P -200300.40
row 1 Fee P Servicer -20.81
row 1 PiAdvance Servicer P 199800.90
row 1 Residual P Servicer -478.69
end
> k14 day 2024-04-01
ok 14
> k15 close 2024-03
ok 15 lines 1 interest 957.37 principal -199600.80
> ? report 2024-03
report 2024-03 lines 1
line 1 due 957.37 200.10 adjusted 0.00 -199800.90 upb 199800.90 balance 199600.80
adjust 13 1 2024-02 0.00 -199800.90
total interest 957.37 principal -199600.80
end
> k16 remit 2024-03
ok 16 net -198643.43
> ? rows 16
rows 16 count 2
row 1 PiAdvance Servicer P -198643.43
row 1 Remitted P Investor -198643.43
end
",
    ),
];

#[test]
fn a_payoff_is_taken_back(rt: HostRuntime) -> Result<(), Fail> {
    over_both(&rt, rt.alloc(), &PAYOFF_TAKEN_BACK)
}

/// A curtailment, and one of a cent too much.
const CURTAILED: [Part; 3] = [
    Once(BOARDED),
    Once(FIRST_PAID),
    Once(
        "
> k4 day 2024-02-10
ok 4
> k5 curtail 1 2024-02-10 1000.00
ok 5
> ? books 1
books 1 2024-02-10 upb 198800.90 next 2024-03 escrow 0.00 suspense 0.00 late 0.00 interest 1000.00 fee 41.67 principal 1199.10 charges 0.00 pay 1199.10
> ? rows 5
rows 5 count 2
row 1 Received Borrower T 1000.00
row 1 Collected T P 1000.00
end
> k6 curtail 1 2024-02-10 198800.91
no 11 OverPrincipal 198800.90
> k6 day 2024-04-01
ok 6
> k7 close 2023-12
ok 7 lines 1 interest 0.00 principal 0.00
> k8 close 2024-01
ok 8 lines 1 interest 0.00 principal 0.00
> k9 close 2024-02
ok 9 lines 1 interest 958.33 principal 1199.10
> k10 close 2024-03
ok 10 lines 1 interest 952.58 principal 205.10
",
    ),
];

#[test]
fn a_curtailment_reduces_the_investors_balance(rt: HostRuntime) -> Result<(), Fail> {
    over_both(&rt, rt.alloc(), &CURTAILED)
}

/// What may be given up and paid out, and a late charge that is paid.
const LATE_CHARGE_PAID: [Part; 3] = [
    Once(BOARDED),
    Once(FIRST_PAID),
    Once(
        "
> k4 day 2024-03-20
ok 4
> k5 waive 1 59.97
no 20 OverWaiver 59.96
> k5 refund 1 0.01
no 19 OverRefund 0.00
> k5 pay 1 2024-03-20 1259.06
ok 5
> ? rows 5
rows 5 count 4
row 1 Received Borrower T 1259.06
row 1 Collected T P 1199.10
row 1 Fee P Servicer 41.63
row 1 Late T Servicer 59.96
end
",
    ),
];

#[test]
fn a_late_charge_is_paid_last(rt: HostRuntime) -> Result<(), Fail> {
    over_both(&rt, rt.alloc(), &LATE_CHARGE_PAID)
}
