//! Limits: what there is no more room for is refused for that before all else.

use crate::desk::Part::{self, Each, Once};
use crate::desk::{TURNS, Turns, over_both, over_checked};
use crate::first_quarter::BOARDED;
use std::test::Fail;

/// A loan takes 4,096 deposits of a cent in 64 months up to 2029-06; then an entry of any kind is refused, whatever
/// else is wrong with it, also after one was taken back. Another loan takes one still.
const ENTRIES_FULL: [Part; 4] = [
    Once(BOARDED),
    Once(
        "
> k3 board 2 2023-12-15 200000.00 6000 250 1199.10 360 2024-02 15 500 2 0.00 SS
ok 3
> k4 day 2029-06-01
ok 4
",
    ),
    Each(Turns {
        turns: 4_096,
        number: 5,
        month: 3,
        per_month: 64,
        text: "
> k# deposit 1 @-01 0.01
ok #
",
        ..TURNS
    }),
    Once(
        "
> k4101 deposit 1 2029-06-01 0.01
no 2 Full Entries
> k4101 pay 1 2029-06-02 0.00
no 2 Full Entries
> k4101 refund 1 40.97
no 2 Full Entries
> k4101 analyse 1 retain - -
no 2 Full Entries
> k4101 reverse 1 5
ok 4101
> k4102 deposit 1 2029-06-01 0.01
no 2 Full Entries
> k4102 deposit 2 2029-06-01 0.01
ok 4102
",
    ),
];

#[test]
fn a_loan_has_a_limit_of_entries(rt: HostRuntime) -> Result<(), Fail> {
    over_checked(&rt, rt.alloc(), &ENTRIES_FULL)
}

/// After 12,000 loans none is taken on, also one that is there or whose terms are faulty.
const LOANS_FULL: [Part; 3] = [
    Once(
        "
> k1 day 2024-02-01
ok 1
",
    ),
    Each(Turns {
        turns: 12_000,
        number: 2,
        text: "
> k# board & 2023-12-15 200000.00 6000 250 1199.10 360 2024-02 15 500 2 0.00 SS
ok #
",
        ..TURNS
    }),
    Once(
        "
> k12002 board 12001 2023-12-15 200000.00 6000 250 1199.10 360 2024-02 15 500 2 0.00 SS
no 2 Full Loans
> k12002 board 12000 2023-12-15 200000.00 6000 250 1199.10 360 2024-02 15 500 2 0.00 SS
no 2 Full Loans
> k12002 board 12001 2023-12-15 0.00 25001 25002 1000.00 481 2024-03 29 1001 3 100000000.01 SS
no 2 Full Loans
> k12002 pay 12000 2024-02-01 1199.10
ok 12002
",
    ),
];

#[test]
fn there_is_a_limit_of_loans(rt: HostRuntime) -> Result<(), Fail> {
    over_both(&rt, rt.alloc(), &LOANS_FULL)
}

/// 600 months are closed on 2073-12-01, from 2023-12 on.
const ALL_CLOSED: Part = Each(Turns {
    turns: 600,
    number: 4,
    text: "
> k# close @
ok # ..
",
    ..TURNS
});

/// After 600 closed months none is closed, neither the next one, which has not ended, nor another one.
const MONTHS_FULL: [Part; 4] = [
    Once(BOARDED),
    Once(
        "
> k3 day 2073-12-01
ok 3
",
    ),
    ALL_CLOSED,
    Once(
        "
> k604 close 2073-12
no 2 Full Months
> k604 close 2023-12
no 2 Full Months
> k604 remit 2023-12
ok 604 net 0.00
",
    ),
];

#[test]
fn there_is_a_limit_of_months(rt: HostRuntime) -> Result<(), Fail> {
    over_both(&rt, rt.alloc(), &MONTHS_FULL)
}

/// 3,333 times 1.00 is paid on the principal in the first of 600 closed months, and taken back. The loan's
/// interest is a hundredth of its balance a month, so each of the two changes what is due of all 600 months:
/// the principal of the first one, and by a cent the interest of the others. With 6,666 times 600 adjustments
/// held an entry in the first month is refused, after its own rules, and one with 400 closed months from it on
/// is the last that fits; after it one of a month that is not closed still is accepted.
const ADJUSTMENTS_FULL: [Part; 4] = [
    Once(
        "
> k1 day 2024-02-01
ok 1
> k2 board 1 2023-12-15 200000.00 12000 0 3000.00 360 2024-01 15 500 2 0.00 SA
ok 2
> k3 day 2073-12-01
ok 3
",
    ),
    ALL_CLOSED,
    Each(Turns {
        turns: 3_333,
        number: 604,
        commands: 2,
        text: "
> k# curtail 1 2023-12-20 1.00
ok #
> k% reverse 1 #
ok %
",
        ..TURNS
    }),
    Once(
        "
> k7270 curtail 1 2023-12-20 1.00
no 25 AdjustmentsFull 3999600
> k7270 deposit 1 2040-07-31 0.01
no 25 AdjustmentsFull 3999600
> k7270 curtail 1 2023-12-20 200000.01
no 11 OverPrincipal 200000.00
> k7270 reverse 1 604
no 14 AlreadyReversed 605
> k7270 curtail 1 2040-08-01 1.00
ok 7270
> k7271 deposit 1 2073-11-30 0.01
no 25 AdjustmentsFull 4000000
> k7271 reverse 1 7270
no 25 AdjustmentsFull 4000000
> k7271 deposit 1 2073-12-01 0.01
ok 7271
",
    ),
];

#[test]
fn there_is_a_limit_of_adjustments(rt: HostRuntime) -> Result<(), Fail> {
    over_checked(&rt, rt.alloc(), &ADJUSTMENTS_FULL)
}

/// After 1,000,000 commands, most of which set the same escrow line, none is accepted, whatever else is wrong with it. The
/// last one sent again has its reply, another one under its key is refused for the key, and questions are answered.
const COMMANDS_FULL: [Part; 3] = [
    Once(BOARDED),
    Each(Turns {
        turns: 999_998,
        number: 3,
        text: "
> k# line 1 1 tax 3 12 1200.00
ok #
",
        ..TURNS
    }),
    Once(
        "
> k1000001 line 1 1 tax 3 12 1200.00
no 2 Full Commands
> k1000001 deposit 9 2024-02-01 0.00
no 2 Full Commands
> k1000000 line 1 1 tax 3 12 1200.00
ok 1000000
> k1000000 drop 1 1
no 1 KeyReused 1000000
> ? books 1
books 1 2024-02-01 upb 200000.00 next 2024-02 escrow 0.00 suspense 0.00 late 0.00 interest 0.00 fee 0.00 principal 0.00 charges 0.00 pay 1199.10
",
    ),
];

#[test]
fn there_is_a_limit_of_commands(rt: HostRuntime) -> Result<(), Fail> {
    over_checked(&rt, rt.alloc(), &COMMANDS_FULL)
}
