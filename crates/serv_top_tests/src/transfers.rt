//! A journal in two parts: the words `transfer` and `remain`.

use crate::texts::{Text, first_otherwise};

const DAY: &str = "k1 day 2024-06-15\n";

pub(crate) const TWO_LOANS: &str = "k1 day 2024-06-15
k2 board 2 2024-06-01 200000.00 6000 250 1199.10 360 2024-07 15 500 2 130.00 AA
k3 board 3 2024-06-01 200000.00 6000 250 1199.10 360 2024-07 15 500 2 130.00 AA
k4 line 2 1 tax 7 12 2000.00
k5 deposit 2 2024-06-10 1500.00
k6 deposit 3 2024-06-10 300.00
k7 disburse 2 2024-06-12 2000.00 1
k8 deposit 2 2024-06-14 600.00
";

pub(crate) const LOAN_2: &str = "k1 day 2024-06-15
k2 board 2 2024-06-01 200000.00 6000 250 1199.10 360 2024-07 15 500 2 130.00 AA
k4 line 2 1 tax 7 12 2000.00
k5 deposit 2 2024-06-10 1500.00
k7 disburse 2 2024-06-12 2000.00 1
k8 deposit 2 2024-06-14 600.00
";

pub(crate) const LOAN_3: &str = "k1 day 2024-06-15
k3 board 3 2024-06-01 200000.00 6000 250 1199.10 360 2024-07 15 500 2 130.00 AA
k6 deposit 3 2024-06-10 300.00
";

/// The lines that go and those that stay. A range may have no loan: business days stay.
const SPLIT: [Text; 8] = [
    (&["j", "transfer", "2", "2"], "", LOAN_2),
    (&["j", "remain", "2", "2"], "", LOAN_3),
    (&["j", "transfer", "3", "4294967295"], "", LOAN_3),
    (&["j", "remain", "3", "4294967295"], "", LOAN_2),
    (&["j", "transfer", "0", "4294967295"], "", TWO_LOANS),
    (&["j", "remain", "0", "4294967295"], "", DAY),
    (&["j", "transfer", "0", "1"], "", DAY),
    (&["j", "remain", "0", "1"], "", TWO_LOANS),
];

#[test]
fn a_journal_is_split_by_loans(rt: HostRuntime) {
    assert_eq!(rt; first_otherwise(rt.alloc(), TWO_LOANS, &SPLIT), None);
}

/// What both loans, and each alone, hold in custody.
const CUSTODY: [Text; 3] = [
    (
        &["j", "custodial"],
        "",
        "custodial T 400.00 P 0.00 suspense 0.00 escrow 400.00 escrow-advance 0.00 held 0.00 pi-advance 0.00\n",
    ),
    (
        &["j", "custodial"],
        "",
        "custodial T 100.00 P 0.00 suspense 0.00 escrow 100.00 escrow-advance 0.00 held 0.00 pi-advance 0.00\n",
    ),
    (
        &["j", "custodial"],
        "",
        "custodial T 300.00 P 0.00 suspense 0.00 escrow 300.00 escrow-advance 0.00 held 0.00 pi-advance 0.00\n",
    ),
];

#[test]
fn no_cent_is_lost_by_a_transfer(rt: HostRuntime) {
    assert_eq!(rt; first_otherwise(rt.alloc(), TWO_LOANS, &CUSTODY[..1]), None);
    assert_eq!(rt; first_otherwise(rt.alloc(), LOAN_2, &CUSTODY[1..2]), None);
    assert_eq!(rt; first_otherwise(rt.alloc(), LOAN_3, &CUSTODY[2..]), None);
}

const REVERSED: &str = "k1 day 2024-03-01
k2 board 2 2023-12-15 200000.00 6000 250 1199.10 360 2024-02 15 500 2 0.00 AA
k3 board 1 2023-12-15 200000.00 6000 250 1199.10 360 2024-02 15 500 2 0.00 AA
k4 pay 1 2024-02-01 1199.10
k5 reverse 1 4
";

const REVERSED_THERE: &str = "k1 day 2024-03-01
k3 board 1 2023-12-15 200000.00 6000 250 1199.10 360 2024-02 15 500 2 0.00 AA
k4 pay 1 2024-02-01 1199.10
k5 reverse 1 3
";

/// A reversal names its entry by the number that this has in the part.
const RENUMBERED: [Text; 2] = [
    (&["j", "transfer", "1", "1"], "", REVERSED_THERE),
    (&["j", "remain", "2", "9"], "", REVERSED_THERE),
];

#[test]
fn a_reversal_is_handed_over(rt: HostRuntime) {
    assert_eq!(rt; first_otherwise(rt.alloc(), REVERSED, &RENUMBERED), None);
}
