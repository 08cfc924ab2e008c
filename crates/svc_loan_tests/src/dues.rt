//! Dues of closed months after late payments, reversals and changes of type, worked by hand, for both ways of keeping
//! books.

ghost use Rattle.std.specs.Prelude.{◌≡◌, ◌<◌};

use crate::followed::{Followed, board};
use remit_types::MonthDue;
use serv_line::{push_balance, push_bytes};
use std::alloc::Global;
use std::marker::Brand;
use std::process::Abort;
use std::sync::ledger::{Blank, Ledger};
use svc_base::{OutOfMemory, Steps, month_of};
use svc_checkpoint::Checked;
use svc_loan::Loan;
use svc_replay::{LoanBooks, Plain};

/// Appends interest and principal that are due, with a comma behind them.
fn push_due(out: &mut Vec<u8>, due: &MonthDue) -> Result<(), OutOfMemory> {
    push_balance(out, due.interest)?;
    push_bytes(out, b" ")?;
    push_balance(out, due.principal)?;
    push_bytes(out, b", ")
}

/// Appends what is due for each closed month from 2023-12 on.
fn push_dues<B: LoanBooks>(
    out: &mut Vec<u8>,
    alloc: Global,
    loan: &Loan<B>,
) -> Result<(), OutOfMemory> {
    let mut dues = Vec::new(alloc);
    dues.reserve(loan.closed())?;
    loan.add_dues(month_of(loan.terms().boarded), &mut dues);
    for due in &dues {
        push_due(out, due)?;
    }
    Ok(())
}

/// Whether those are the dues of a loan.
fn has_dues<B: LoanBooks>(alloc: Global, loan: &Loan<B>, dues: &str) -> bool {
    let mut out = Vec::new(alloc);
    push_dues(&mut out, alloc, loan).is_ok() && out.as_slice() == dues.as_bytes()
}

/// What happens to a loan, the dues of its closed months then, what happens last, and the dues after it.
#[derive(Clone, Copy)]
struct Row {
    day: &'static str,
    board: &'static str,
    lines: &'static str,
    before: &'static str,
    last: &'static str,
    after: &'static str,
}

/// Whether all of it may happen, and the dues are those.
fn is_so<B: LoanBooks, L: Ledger>(
    alloc: Global,
    row: &Row,
    loan: &mut Followed<B>,
    steps: &mut Steps<L>,
) -> bool {
    let begun = loan.follow_all(row.lines, steps);
    let before = has_dues(alloc, loan.loan(), row.before);
    let ended = loan.follow_all(row.last, steps);
    let after = has_dues(alloc, loan.loan(), row.after);
    begun && before && ended && after
}

/// The same for a loan that is taken on.
fn is_row<B: LoanBooks, L: Ledger>(alloc: Global, row: &Row, steps: &mut Steps<L>) -> bool {
    match board::<B, L>(alloc, row.day, row.board, steps) {
        Some(mut loan) => is_so(alloc, row, &mut loan, steps),
        None => false,
    }
}

/// The place of the first row that is not so.
fn differing<B: LoanBooks, L: Ledger>(alloc: Global, blank: Blank, rows: &[Row]) -> Option<usize>
    requires name { blank.name ≡ L.name }
    requires parts { blank.parts ≡ L.parts }
    requires some { 0 < L.parts }
{
    let mut steps = Steps::<L>::new(blank);
    for (place, row) in rows.iter().enumerate() {
        if !is_row::<B, L>(alloc, row, &mut steps) {
            return Some(place);
        }
    }
    None
}

/// Each row is so for both ways of keeping books.
fn over_both(rt: &impl Abort, alloc: Global, rows: &[Row]) {
    let plain = differing::<Plain, Brand>(alloc, Blank::new(1), rows);
    assert_eq!(rt; plain, None, "the row at that place, kept plainly");
    let checked = differing::<Checked, Brand>(alloc, Blank::new(1), rows);
    assert_eq!(rt;
        checked,
        None,
        "the row at that place, kept with checkpoints"
    );
}

/// A loan of 200,000.00 at 6 percent over 30 years, by its type.
const SCHEDULED: &str =
    "2 board 1 2023-12-15 200000.00 6000 250 1199.10 360 2024-02 15 500 2 0.00 SS";

const ACTUAL: &str = "2 board 1 2023-12-15 200000.00 6000 250 1199.10 360 2024-02 15 500 2 0.00 AA";

/// The first installment is paid, and four months are closed.
const FIRST_PAID: &str = "3 pay 1 2024-02-01 1199.10
4 day 2024-04-01
5 close 2023-12
6 close 2024-01
7 close 2024-02
8 close 2024-03";

/// Both installments are paid, and four months are closed.
const BOTH_PAID: &str = "3 pay 1 2024-02-01 1199.10
4 pay 1 2024-03-01 1199.10
5 day 2024-04-01
6 close 2023-12
7 close 2024-01
8 close 2024-02
9 close 2024-03";

/// 1,000.00 are paid on the principal, and four months are closed.
const CURTAILED: &str = "3 pay 1 2024-02-01 1199.10
4 curtail 1 2024-02-10 1000.00
5 day 2024-04-01
6 close 2023-12
7 close 2024-01
8 close 2024-02
9 close 2024-03";

/// The loan is paid off, and three months are closed.
const PAID_OFF: &str = "3 pay 1 2024-02-01 1199.10
4 day 2024-02-16
5 payoff 1 2024-02-16 200300.40
6 day 2024-03-01
7 close 2023-12
8 close 2024-01
9 close 2024-02";

/// The payoff is taken back, and the month after it is closed.
const PAYOFF_BACK: &str = "13 reverse 1 5
14 day 2024-04-01
15 close 2024-03";

/// The first installment is paid, and five months are closed.
const FIVE_CLOSED: &str = "3 pay 1 2024-02-01 1199.10
4 day 2024-04-01
5 close 2023-12
6 close 2024-01
7 close 2024-02
8 close 2024-03
9 day 2024-05-01
10 close 2024-04";

/// The first installment is paid, and of five closed months the last is Scheduled/Actual.
const TO_SCHEDULED: &str = "3 pay 1 2024-02-01 1199.10
4 day 2024-04-01
5 close 2023-12
6 close 2024-01
7 close 2024-02
8 close 2024-03
9 day 2024-05-01
10 retype 1 2024-04 SA
11 close 2024-04";

/// What was due for both installments, and for the first alone.
const TWO: &str = "0.00 0.00, 0.00 0.00, 958.33 199.10, 957.37 200.10, ";

const ONE: &str = "0.00 0.00, 0.00 0.00, 958.33 199.10, 0.00 0.00, ";

/// March's installment, paid late, of a Scheduled/Scheduled loan.
const LATE_PAYMENT: Row = Row {
    day: "1 day 2024-02-01",
    board: SCHEDULED,
    lines: FIRST_PAID,
    before: TWO,
    last: "13 pay 1 2024-03-10 1199.10",
    after: TWO,
};

/// The first of two payments, reversed, of a Scheduled/Scheduled loan.
const REVERSAL: Row = Row {
    day: "1 day 2024-03-01",
    lines: BOTH_PAID,
    last: "14 reverse 1 3",
    ..LATE_PAYMENT
};

/// Payments and payoffs.
const PAYMENTS: [Row; 7] = [
    LATE_PAYMENT,
    // March's installment, paid late, of an Actual/Actual loan
    Row {
        board: ACTUAL,
        before: ONE,
        ..LATE_PAYMENT
    },
    REVERSAL,
    // The first of two payments, reversed, of an Actual/Actual loan
    Row {
        board: ACTUAL,
        after: "0.00 0.00, 0.00 0.00, 0.00 0.00, 958.33 199.10, ",
        ..REVERSAL
    },
    // A payment on the principal, reversed
    Row {
        day: "1 day 2024-02-10",
        lines: CURTAILED,
        before: "0.00 0.00, 0.00 0.00, 958.33 1199.10, 952.58 205.10, ",
        last: "10 reverse 1 4",
        ..LATE_PAYMENT
    },
    // A payoff, reversed, of a Scheduled/Scheduled loan
    Row {
        lines: PAID_OFF,
        before: "0.00 0.00, 0.00 0.00, 958.33 200000.00, ",
        last: PAYOFF_BACK,
        ..LATE_PAYMENT
    },
    // A payoff, reversed, of an Actual/Actual loan
    Row {
        board: ACTUAL,
        lines: PAID_OFF,
        before: "0.00 0.00, 0.00 0.00, 1437.02 200000.00, ",
        last: PAYOFF_BACK,
        after: ONE,
        ..LATE_PAYMENT
    },
];

/// A late payment of a month before Scheduled/Actual.
const PAID_LATE: Row = Row {
    day: "1 day 2024-02-01",
    board: ACTUAL,
    lines: TO_SCHEDULED,
    before: "0.00 0.00, 0.00 0.00, 958.33 199.10, 0.00 0.00, 1914.74 0.00, ",
    last: "17 pay 1 2024-03-10 1199.10",
    after: "0.00 0.00, 0.00 0.00, 958.33 199.10, 957.37 200.10, 956.42 0.00, ",
};

/// Changes of type.
const TYPES: [Row; 5] = [
    PAID_LATE,
    // Actual/Actual again a month later
    Row {
        last: "12 day 2024-06-01
13 retype 1 2024-05 AA
14 close 2024-05",
        after: "0.00 0.00, 0.00 0.00, 958.33 199.10, 0.00 0.00, 1914.74 0.00, -1914.74 0.00, ",
        ..PAID_LATE
    },
    // Actual/Actual again from the same month on
    Row {
        last: "12 retype 1 2024-04 AA",
        after: "0.00 0.00, 0.00 0.00, 958.33 199.10, 0.00 0.00, 0.00 0.00, ",
        ..PAID_LATE
    },
    // Scheduled/Actual from a closed month on
    Row {
        lines: FIVE_CLOSED,
        before: "0.00 0.00, 0.00 0.00, 958.33 199.10, 0.00 0.00, 0.00 0.00, ",
        last: "11 retype 1 2024-04 SA",
        after: "0.00 0.00, 0.00 0.00, 958.33 199.10, 0.00 0.00, 1914.74 0.00, ",
        ..PAID_LATE
    },
    // Actual/Actual after a payoff
    Row {
        board: SCHEDULED,
        lines: PAID_OFF,
        before: "0.00 0.00, 0.00 0.00, 958.33 200000.00, ",
        last: "10 day 2024-04-01
11 retype 1 2024-03 AA
12 close 2024-03",
        after: "0.00 0.00, 0.00 0.00, 958.33 200000.00, 478.69 0.00, ",
        ..PAID_LATE
    },
];

#[test]
fn dues_of_closed_months_follow_payments(rt: HostRuntime) {
    over_both(&rt, rt.alloc(), &PAYMENTS);
}

#[test]
fn dues_of_closed_months_follow_changes_of_type(rt: HostRuntime) {
    over_both(&rt, rt.alloc(), &TYPES);
}
