//! Texts that are written over a journal: reports, balances, the custodial line, and a generated year.

use serv_run_tests::{ending_of, journal_of, over};
use serv_top::Status;
use std::alloc::Global;
use svc_base::{Month, OutOfMemory};

/// Words, what the source holds, and the text that is written.
pub(crate) type Text = (&'static [&'static str], &'static str, &'static str);

/// Whether the words write the text over the journal of a servicer who applies the lines, and leave it as it was.
fn writes(alloc: Global, lines: &str, text: &Text) -> Result<bool, OutOfMemory> {
    let (words, input, output) = text;
    let journal = journal_of(alloc, lines)?;
    let end = ending_of(alloc, &over(*words, &journal, input.as_bytes()))?;
    Ok(end.is(Status::Done, output.as_bytes()) && end.leaves(&journal))
}

/// The first of the texts that is not written so.
pub(crate) fn first_otherwise(alloc: Global, lines: &str, texts: &[Text]) -> Option<usize> {
    for (number, text) in texts.iter().enumerate() {
        if !matches!(writes(alloc, lines, text), Ok(true)) {
            return Some(number);
        }
    }
    None
}

/// A loan with one payment, and four months that are closed and remitted.
const FIRST_LOAN: &str = "k1 day 2024-02-01
k2 board 1 2023-12-15 200000.00 6000 250 1199.10 360 2024-02 15 500 2 0.00 SS
k3 pay 1 2024-02-01 1199.10
k4 day 2024-04-01
k5 close 2023-12
k6 close 2024-01
k7 close 2024-02
k8 close 2024-03
k9 remit 2023-12
k10 remit 2024-01
k11 remit 2024-02
k12 remit 2024-03
";

/// A payment that comes after the report of its month.
const LATE_PAYMENT: &str = "k1 day 2024-02-01
k2 board 1 2023-12-15 200000.00 6000 250 1199.10 360 2024-02 15 500 2 0.00 AA
k3 pay 1 2024-02-01 1199.10
k4 day 2024-04-01
k5 close 2023-12
k6 close 2024-01
k7 close 2024-02
k8 close 2024-03
k9 remit 2023-12
k10 remit 2024-01
k11 remit 2024-02
k12 remit 2024-03
k13 pay 1 2024-03-10 1199.10
k14 day 2024-05-01
k15 close 2024-04
";

const CUSTODY: [Text; 1] = [(
    &["j", "custodial"],
    "",
    "custodial T 0.00 P 0.00 suspense 0.00 escrow 0.00 escrow-advance 0.00 held 0.00 pi-advance 1157.47\n",
)];

const REPORTS: [Text; 2] = [
    (
        &["j", "report", "2024-04"],
        "",
        "report 2024-04 lines 1
line 1 due 0.00 0.00 adjusted 957.37 200.10 upb 199600.80 balance 199600.80
adjust 13 1 2024-03 957.37 200.10
total interest 957.37 principal 200.10
end
",
    ),
    (
        &["j", "trial", "2024-04"],
        "",
        "trial 2024-04 loans 1
loan 1 upb 199600.80 balance 199600.80
total upb 199600.80 balance 199600.80
end
",
    ),
];

#[test]
fn reports_and_the_custodial_line_are_written(rt: HostRuntime) {
    assert_eq!(rt; first_otherwise(rt.alloc(), FIRST_LOAN, &CUSTODY), None);
    assert_eq!(rt; first_otherwise(rt.alloc(), LATE_PAYMENT, &REPORTS), None);
}

/// Whether the words end with this status over the journal of the lines, and write nothing.
pub(crate) fn ends_silent(
    alloc: Global,
    lines: &str,
    words: &[&str],
    status: Status,
) -> Result<bool, OutOfMemory> {
    let journal = journal_of(alloc, lines)?;
    let end = ending_of(alloc, &over(words, &journal, b""))?;
    Ok(end.is(status, b""))
}

#[test]
fn no_report_before_a_month_is_closed(rt: HostRuntime) {
    let alloc = rt.alloc();
    let none = Status::NoReport(None);
    let last = Status::NoReport(Some(Month::new(2024, 3)));
    assert!(rt;
        matches!(
            ends_silent(alloc, "", &["j", "report", "2024-03"], none),
            Ok(true)
        )
    );
    assert!(rt;
        matches!(
            ends_silent(alloc, "", &["j", "trial", "2024-03"], none),
            Ok(true)
        )
    );
    assert!(rt;
        matches!(
            ends_silent(alloc, FIRST_LOAN, &["j", "report", "2024-04"], last),
            Ok(true)
        )
    );
}

/// Years of one and of forty loans.
const YEARS: [Text; 2] = [
    (
        &["j", "drill", "1", "0"],
        "",
        "drill loans 1 number 0 commands 52 repeats 52
custodial T 0.00 P 1157.77 suspense 0.00 escrow 0.00 escrow-advance 0.00 held 1157.77 pi-advance 0.00
remitted 9260.64 late 659.56
",
    ),
    (
        &["j", "drill", "40", "7"],
        "",
        "drill loans 40 number 7 commands 554 repeats 554
custodial T 0.00 P 23772.51 suspense 0.00 escrow 0.00 escrow-advance 0.00 held 23772.51 pi-advance 29899.27
remitted 469177.04 late 15649.56
",
    ),
];

#[test]
fn a_generated_year_is_summed_up(rt: HostRuntime) {
    assert_eq!(rt; first_otherwise(rt.alloc(), "", &YEARS), None);
}
