//! A month of many loans, and thousands of entries.

use crate::desk::Part::{self, Each, Once};
use crate::desk::{TURNS, Turns, over_both};
use std::test::Fail;

/// Loans of the three types in turn, from 1 on.
const BOARDS: Turns = Turns {
    turns: 40,
    number: 2,
    text: "
> k# board & 2023-12-15 200000.00 6000 250 1199.10 360 2024-02 15 500 2 0.00 $
ok #
",
    ..TURNS
};

/// 40 loans pay their first installment.
const FEBRUARY: Part = Each(Turns {
    turns: 40,
    number: 42,
    text: "
> k# pay & 2024-02-01 1199.10
ok #
",
    ..TURNS
});

/// 30 of them pay the second one.
const MARCH: Part = Each(Turns {
    turns: 30,
    number: 83,
    text: "
> k# pay & 2024-03-05 1199.10
ok #
",
    ..TURNS
});

/// Two months without an installment and two with one are closed and remitted, in 121 commands in all.
const REMITTED: &str = "
> k113 day 2024-04-01
ok 113
> k114 close 2023-12
ok 114 lines 40 interest 0.00 principal 0.00
> k115 close 2024-01
ok 115 lines 40 interest 0.00 principal 0.00
> k116 close 2024-02
ok 116 lines 40 interest 38333.20 principal 7964.00
> k117 close 2024-03
ok 117 lines 40 interest 34465.32 principal 6603.30
> k118 remit 2023-12
ok 118 net 0.00
> k119 remit 2024-01
ok 119 net 0.00
> k120 remit 2024-02
ok 120 net 46297.20
> k121 remit 2024-03
ok 121 net 41068.62
> ? custodial
custodial T 0.00 P 0.00 suspense 0.00 escrow 0.00 escrow-advance 0.00 held 0.00 pi-advance 6344.52
";

/// Each of the 30 loans owes nothing.
const PAID: Part = Each(Turns {
    turns: 30,
    text: "
> ? books &
books & 2024-04-01 upb 199600.80 next 2024-04 escrow 0.00 suspense 0.00 late 0.00 interest 1999.00 fee 83.30 principal 399.20 charges 0.00 pay 1199.10
",
    ..TURNS
});

/// Each of the ten others owes a late charge.
const LATE: Part = Each(Turns {
    turns: 10,
    loan: 31,
    text: "
> ? books &
books & 2024-04-01 upb 199800.90 next 2024-03 escrow 0.00 suspense 0.00 late 59.96 interest 1000.00 fee 41.67 principal 199.10 charges 0.00 pay 1199.10
",
    ..TURNS
});

/// A month of 40 loans; all payments are sent twice, and act once.
const MONTH_OF_FORTY: [Part; 10] = [
    Once(
        "
> k1 day 2024-02-01
ok 1
",
    ),
    Each(BOARDS),
    FEBRUARY,
    FEBRUARY,
    Once(
        "
> k82 day 2024-03-05
ok 82
",
    ),
    MARCH,
    MARCH,
    Once(REMITTED),
    PAID,
    LATE,
];

#[test]
fn forty_loans_have_a_month(rt: HostRuntime) -> Result<(), Fail> {
    over_both(&rt, rt.alloc(), &MONTH_OF_FORTY)
}

/// Twenty loans pay 1.00 each 150 times, half of them of an earlier day.
const ONE_BY_ONE: Part = Each(Turns {
    turns: 1_500,
    number: 23,
    commands: 2,
    loans: 20,
    text: "
> k# pay & 2024-02-14 1.00
ok #
> k% pay & 2024-02-05 1.00
ok %
",
    ..TURNS
});

/// Ten of them pay what is missing to their first installment.
const THE_REST: Part = Each(Turns {
    turns: 10,
    number: 3_023,
    text: "
> k# pay & 2024-02-14 1049.10
ok #
",
    ..TURNS
});

/// 1,500.00 wait, and ten installments less their fee are held.
const THOUSANDS: [Part; 6] = [
    Once(
        "
> k1 day 2024-02-01
ok 1
",
    ),
    Each(Turns {
        turns: 20,
        ..BOARDS
    }),
    Once(
        "
> k22 day 2024-02-14
ok 22
",
    ),
    ONE_BY_ONE,
    THE_REST,
    Once(
        "
> ? custodial
custodial T 1500.00 P 11574.30 suspense 1500.00 escrow 0.00 escrow-advance 0.00 held 11574.30 pi-advance 0.00
",
    ),
];

#[test]
fn three_thousand_payments_are_counted(rt: HostRuntime) -> Result<(), Fail> {
    over_both(&rt, rt.alloc(), &THOUSANDS)
}
