//! Queries that words ask over a journal: each of them, some that are refused, and words that ask none.

use crate::texts::{Text, ends_silent, first_otherwise};
use serv_run_tests::{Given, ending_of, journal_of};
use serv_top::Status;
use std::alloc::Global;
use svc_base::OutOfMemory;

/// A loan with one payment, and a month that is closed.
const BOOKED: &str = "k1 day 2024-02-01
k2 board 1 2023-12-15 200000.00 6000 250 1199.10 360 2024-02 15 500 2 0.00 SS
k3 pay 1 2024-02-01 1199.10
k4 close 2023-12
";

/// Each query, and its answer.
const ANSWERED: [Text; 16] = [
    (
        &["j", "ask", "books", "1"],
        "",
        "books 1 2024-02-01 upb 199800.90 next 2024-03 escrow 0.00 suspense 0.00 late 0.00 interest 1000.00 fee 41.67 principal 199.10 charges 0.00 pay 1199.10\n",
    ),
    (
        &["j", "ask", "at", "1", "2024-01-31"],
        "",
        "books 1 2024-01-31 upb 200000.00 next 2024-02 escrow 0.00 suspense 0.00 late 0.00 interest 0.00 fee 0.00 principal 0.00 charges 0.00 pay 1199.10\n",
    ),
    (
        &["j", "ask", "payoff", "1", "2024-02-01"],
        "",
        "payoff 1 2024-02-01 199800.90\n",
    ),
    (
        &["j", "ask", "escrow", "1"],
        "",
        "escrow 1 from 2024-03 base 0.00 cushion 0.00 opening 0.00 balance 0.00 surplus 0.00 short 0.00 deficient 0.00 pay 0.00
month 2024-03 paid 0.00 trial 0.00 target 0.00
month 2024-04 paid 0.00 trial 0.00 target 0.00
month 2024-05 paid 0.00 trial 0.00 target 0.00
month 2024-06 paid 0.00 trial 0.00 target 0.00
month 2024-07 paid 0.00 trial 0.00 target 0.00
month 2024-08 paid 0.00 trial 0.00 target 0.00
month 2024-09 paid 0.00 trial 0.00 target 0.00
month 2024-10 paid 0.00 trial 0.00 target 0.00
month 2024-11 paid 0.00 trial 0.00 target 0.00
month 2024-12 paid 0.00 trial 0.00 target 0.00
month 2025-01 paid 0.00 trial 0.00 target 0.00
month 2025-02 paid 0.00 trial 0.00 target 0.00
end
",
    ),
    (
        &["j", "ask", "report", "2023-12"],
        "",
        "report 2023-12 lines 1
line 1 due 0.00 0.00 adjusted 0.00 0.00 upb 200000.00 balance 200000.00
total interest 0.00 principal 0.00
end
",
    ),
    (
        &["j", "ask", "trial", "2023-12"],
        "",
        "trial 2023-12 loans 1
loan 1 upb 200000.00 balance 200000.00
total upb 200000.00 balance 200000.00
end
",
    ),
    (
        &["j", "ask", "custodial"],
        "",
        "custodial T 0.00 P 1157.43 suspense 0.00 escrow 0.00 escrow-advance 0.00 held 1157.43 pi-advance 0.00\n",
    ),
    (
        &["j", "ask", "rows", "3"],
        "",
        "rows 3 count 3
row 1 Received Borrower T 1199.10
row 1 Collected T P 1199.10
row 1 Fee P Servicer 41.67
end
",
    ),
    (
        &["j", "ask", "loan", "1"],
        "",
        "loan 1 boarded 2023-12-15 principal 200000.00 rate 6000 fee 250 pi 1199.10 term 360 first 2024-02 grace 15 late 500 cushion 2 escrow 0.00 type SS
end
",
    ),
    (
        &["j", "ask", "history", "1"],
        "",
        "history 1 2024-02-01 events 1
event 2024-02-01 3 pay 1199.10 interest 1000.00 principal 199.10 escrow 0.00 late 0.00 charges 0.00 suspense 0.00 upb 199800.90 next 2024-03
end
",
    ),
    (
        &["j", "ask", "quote", "1", "2024-06-30"],
        "",
        "quote 1 2024-06-30 205002.46 perday 33.30\n",
    ),
    (
        &["j", "ask", "arrears", "1"],
        "",
        "arrears 1 2024-02-01 installments 0 due 0.00 suspense 0.00 pay 0.00 late 0.00\n",
    ),
    (
        &["j", "ask", "aging"],
        "",
        "aging 2024-02-01 loans 0
total current 1 late1 0 late30 0 late60 0 late90 0 satisfied 0
end
",
    ),
    (
        &["j", "ask", "status"],
        "",
        "status 2024-02-01 loans 1 commands 4 closed 2023-12 remitted - close 2024-01 remit 2023-12 pending 0 adjustments 0\n",
    ),
    (
        &["j", "ask", "command", "3"],
        "",
        "command 3
line k3 pay 1 2024-02-01 1199.10
reply ok 3
end
",
    ),
    (
        &["j", "ask", "key", "k2"],
        "",
        "command 2
line k2 board 1 2023-12-15 200000.00 6000 250 1199.10 360 2024-02 15 500 2 0.00 SS
reply ok 2
end
",
    ),
];

/// A refusal is written as its line has it, and the run is done.
const REFUSED: [Text; 8] = [
    (&["j", "ask", "books", "2"], "", "no 5 NoSuchLoan\n"),
    (
        &["j", "ask", "quote", "1", "2023-12-14"],
        "",
        "no 10 BeforeBoarding 2023-12-15\n",
    ),
    (
        &["j", "ask", "payoff", "1", "2024-02-02"],
        "",
        "no 9 FutureDated 2024-02-01\n",
    ),
    (
        &["j", "ask", "report", "2024-01"],
        "",
        "no 23 NotClosed 2023-12\n",
    ),
    (
        &["j", "ask", "trial", "2024-01"],
        "",
        "no 23 NotClosed 2023-12\n",
    ),
    (&["j", "ask", "rows", "5"], "", "no 13 NoSuchEntry\n"),
    (&["j", "ask", "command", "5"], "", "no 28 NoSuchCommand\n"),
    (&["j", "ask", "key", "k9"], "", "no 28 NoSuchCommand\n"),
];

#[test]
fn each_query_is_asked_by_its_words(rt: HostRuntime) {
    assert_eq!(rt; first_otherwise(rt.alloc(), BOOKED, &ANSWERED), None);
    assert_eq!(rt; first_otherwise(rt.alloc(), BOOKED, &REFUSED), None);
}

/// Words that ask no query.
const UNKNOWN: [&[&str]; 15] = [
    &["j", "ask"],
    &["j", "ask", "books"],
    &["j", "ask", "books", "01"],
    &["j", "ask", "books", "1", "2"],
    &["j", "ask", "book", "1"],
    &["j", "ask", "Status"],
    &["j", "ask", "status", ""],
    &["j", "ask", "quote", "1"],
    &["j", "ask", "quote", "1", "2024-02-30"],
    &["j", "ask", "key", ""],
    &["j", "ask", "?", "books", "1"],
    &["j", "ask", "books 1"],
    &["j", "ask", "pay", "1", "2024-02-01", "1.00"],
    &["j", "Ask", "books", "1"],
    &["", "ask", "books", "1"],
];

/// The first of the words that do not end in Usage with nothing written.
fn first_known(alloc: Global, rows: &[&[&str]]) -> Option<usize> {
    for (number, words) in rows.iter().enumerate() {
        if !matches!(ends_silent(alloc, BOOKED, *words, Status::Usage), Ok(true)) {
            return Some(number);
        }
    }
    None
}

#[test]
fn words_that_ask_no_query_are_usage(rt: HostRuntime) {
    assert_eq!(rt; first_known(rt.alloc(), &UNKNOWN), None);
}

/// Whether a write that fails ends the run with nothing written.
fn is_cut(alloc: Global, words: &[&str]) -> Result<bool, OutOfMemory> {
    let journal = journal_of(alloc, BOOKED)?;
    let given = Given {
        words,
        journal: &journal,
        calls: &[],
        input: b"",
        reads: &[],
        writes: &[1],
    };
    let end = ending_of(alloc, &given)?;
    Ok(end.is(Status::WriteFault, b"") && end.leaves(&journal))
}

#[test]
fn a_write_that_fails_cuts_a_reply(rt: HostRuntime) {
    assert!(rt; matches!(is_cut(rt.alloc(), &["j", "ask", "status"]), Ok(true)));
    assert!(rt; matches!(is_cut(rt.alloc(), &["j", "ask", "books", "2"]), Ok(true)));
}
