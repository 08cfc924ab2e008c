//! Statements, insurance that ends, and a bank's movements: texts about the input.

use crate::texts::{Text, first_otherwise};
use crate::transfers::{LOAN_2, LOAN_3, TWO_LOANS};

const OF_TWO: &str = "statement 2024-06-15 loans 2
loan 2 upb 200000.00 next 2024-07 escrow 100.00 suspense 0.00 late 0.00 escrow-advance 0.00 held 0.00 pi-advance 0.00
loan 3 upb 200000.00 next 2024-07 escrow 300.00 suspense 0.00 late 0.00 escrow-advance 0.00 held 0.00 pi-advance 0.00
total T 400.00 P 0.00
end
";

const OF_LOAN_2: &str = "statement 2024-06-15 loans 1
loan 2 upb 200000.00 next 2024-07 escrow 100.00 suspense 0.00 late 0.00 escrow-advance 0.00 held 0.00 pi-advance 0.00
total T 100.00 P 0.00
end
";

/// The statement before the transfer, and by the servicer of the loan that went.
const STATED: [Text; 1] = [(&["j", "statement"], "", OF_TWO)];

/// It is confirmed there; its first line alone is none.
const STATED_THERE: [Text; 4] = [
    (&["j", "statement"], "", OF_LOAN_2),
    (&["j", "confirm"], OF_LOAN_2, "day same\nsame 2\nend\n"),
    (
        &["j", "confirm"],
        "statement 2024-06-15 loans 1\n",
        "bad 2\n",
    ),
    (&["j", "confirm"], "", "bad 1\n"),
];

/// The servicer who has the other loan misses it.
const STATED_HERE: [Text; 1] = [(
    &["j", "confirm"],
    OF_LOAN_2,
    "day same\nmissing 2\nextra 3\nend\n",
)];

#[test]
fn loans_are_stated_and_confirmed(rt: HostRuntime) {
    assert_eq!(rt; first_otherwise(rt.alloc(), TWO_LOANS, &STATED), None);
    assert_eq!(rt; first_otherwise(rt.alloc(), LOAN_2, &STATED_THERE), None);
    assert_eq!(rt; first_otherwise(rt.alloc(), LOAN_3, &STATED_HERE), None);
}

const FIRST_PAYMENT: &str = "k1 day 2024-02-01
k2 board 1 2023-12-15 200000.00 6000 250 1199.10 360 2024-02 15 500 2 0.00 SS
k3 pay 1 2024-02-01 1199.10
";

const A_MONTH_LATER: &str = "k1 day 2024-02-01
k2 board 1 2023-12-15 200000.00 6000 250 1199.10 360 2024-02 15 500 2 0.00 SS
k3 pay 1 2024-02-01 1199.10
k4 day 2024-03-01
";

const UNPAID: &str = "k1 day 2024-04-01
k2 board 1 2023-12-15 200000.00 6000 250 1199.10 360 2024-02 15 500 2 0.00 SS
";

const PAID_UP: &str = "k1 day 2024-04-01
k2 board 1 2023-12-15 200000.00 6000 250 1199.10 360 2024-02 15 500 2 0.00 SS
k3 pay 1 2024-04-01 3597.30
";

/// Insured loans over the first payment.
const INSURED: [Text; 6] = [
    (
        &["j", "pmi"],
        "loan,value,line,asked\n1,249900.00,4,2024-01-31\n1,249900.00,4,2024-02-01\n",
        "pmi 1 runs denied 2 Above 200000.00\npmi 1 ends 2024-02-01 Asked\n",
    ),
    (
        &["j", "pmi-drops"],
        "loan,value,line,asked\n1,249900.00,4,2024-01-31\n1,249900.00,4,2024-02-01\n",
        "pmi-1-4 drop 1 4\n",
    ),
    (
        &["j", "pmi"],
        "loan,value,line,asked\n9,1.00,4,\n1,0.00,4,\n1,249900.00,4,\n",
        "no 5 NoSuchLoan\nbad row 3 column 2\npmi 1 runs\n",
    ),
    (
        &["j", "pmi-drops"],
        "loan,value,line,asked\n9,1.00,4,\n1,0.00,4,\n1,249900.00,4,\n",
        "",
    ),
    (&["j", "pmi"], "1,249900.00,4,\n", "bad row 1 column 1\n"),
    (&["j", "pmi-drops"], "1,249900.00,4,\n", ""),
];

/// Insurance that ends by itself.
const ENDED: [Text; 2] = [
    (
        &["j", "pmi"],
        "loan,value,line,asked\n1,256000.00,4,\n",
        "pmi 1 ends 2024-03-01 Automatic\n",
    ),
    (
        &["j", "pmi-drops"],
        "loan,value,line,asked\n1,256000.00,4,\n",
        "pmi-1-4 drop 1 4\n",
    ),
];

/// It does not where installments are open.
const BEHIND: [Text; 1] = [(
    &["j", "pmi"],
    "loan,value,line,asked\n1,255800.00,4,2024-04-01\n",
    "pmi 1 runs denied 1 NotCurrent 2024-02-01\n",
)];

const CAUGHT_UP: [Text; 1] = [(
    &["j", "pmi"],
    "loan,value,line,asked\n1,255800.00,4,2024-04-01\n",
    "pmi 1 ends 2024-04-01 Automatic\n",
)];

#[test]
fn insurance_ends(rt: HostRuntime) {
    assert_eq!(rt; first_otherwise(rt.alloc(), FIRST_PAYMENT, &INSURED), None);
    assert_eq!(rt; first_otherwise(rt.alloc(), A_MONTH_LATER, &ENDED), None);
    assert_eq!(rt; first_otherwise(rt.alloc(), UNPAID, &BEHIND), None);
    assert_eq!(rt; first_otherwise(rt.alloc(), PAID_UP, &CAUGHT_UP), None);
}

/// A bank's movements beside the rows of the first payment.
const MOVEMENTS: [Text; 6] = [
    (
        &["j", "reconcile", "1", "3"],
        "kind,account,number,amount\nbank,T,3,1199.10\nbank,P,3,1199.10\nbank,T,9,5.00\n",
        "reconcile 1 3
open T 3 -1199.10
open P 3 -41.67
unbooked T 9 5.00 NoSuch
account T book 0.00 bank 1204.10 open -1199.10 unbooked 5.00
account P book 1157.43 bank 1199.10 open -41.67 unbooked 0.00
end
",
    ),
    (
        &["j", "reconcile", "4", "4"],
        "kind,account,number,amount\nopen,T,3,-1199.10\nbank,T,3,-1199.09\n",
        "reconcile 4 4
open T 3 -1199.10
unbooked T 3 -1199.09 Amount -1199.10
account T book -1199.10 bank -1199.09 open -1199.10 unbooked -1199.09
account P book 0.00 bank 0.00 open 0.00 unbooked 0.00
end
",
    ),
    (
        &["j", "reconcile", "3", "3"],
        "kind,account,number,amount\nbank,T,3,1199.10\nbank,T,3,1199.10\nbank,T,3,-1199.10\n",
        "reconcile 3 3
open P 3 1199.10
open P 3 -41.67
unbooked T 3 1199.10 Extra
account T book 0.00 bank 1199.10 open 0.00 unbooked 1199.10
account P book 1157.43 bank 0.00 open 1157.43 unbooked 0.00
end
",
    ),
    (
        &["j", "reconcile", "3", "4294967295"],
        "kind,account,number,amount\nbank,T,3,1199.10\nbank,T,3,1199.10\n",
        "reconcile 3 4294967295
open T 3 -1199.10
open P 3 1199.10
open P 3 -41.67
unbooked T 3 1199.10 Amount -1199.10
account T book 0.00 bank 2398.20 open -1199.10 unbooked 1199.10
account P book 1157.43 bank 0.00 open 1157.43 unbooked 0.00
end
",
    ),
    (
        &["j", "reconcile", "1", "3"],
        "kind,account,number,amount\nbank,X,3,1.00\n",
        "bad row 2 column 2\n",
    ),
    (
        &["j", "reconcile", "1", "3"],
        "kind,account,number,amount\nbank,T,3,0.00\n",
        "bad row 2 column 4\n",
    ),
];

#[test]
fn movements_are_reconciled(rt: HostRuntime) {
    assert_eq!(rt;
        first_otherwise(rt.alloc(), FIRST_PAYMENT, &MOVEMENTS),
        None
    );
}
