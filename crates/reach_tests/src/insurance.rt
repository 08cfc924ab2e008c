//! Histories as lines, files of insured loans, and what is written of them.

ghost use Rattle.std.specs.Prelude.{◌≡◌, ◌<◌};

use crate::histories::core_of;
use pmi_track::{
    Cause, ImportFault, InsuredLoan, InsuredRow, PmiOutcome, insured, outcome, pmi_drops, pmi_text,
    scheduled,
};
use serv_line::read_line;
use std::alloc::Global;
use std::marker::Brand;
use std::sync::ledger::{Blank, Ledger};
use std::test::Fail;
use svc_base::{Day, Steps, read_day};
use svc_checkpoint::Checked;
use svc_core::{Core, CoreFault};
use svc_types::{Command, Refusal, Request, Terms};

/// A history, a file of insured loans, and what is written of it.
#[derive(Clone, Copy)]
struct Row {
    history: &'static str,
    file: &'static str,
    insurances: &'static str,
    drops: &'static str,
}

fn has_insurances<L: Ledger>(
    alloc: Global,
    core: &Core<Checked>,
    row: &Row,
    steps: &mut Steps<L>,
) -> Result<bool, Fail> {
    let file = row.file.as_bytes();
    if file.len() > 1 << 26 {
        return Ok(false);
    }
    let text = pmi_text(alloc, core, file, steps)?;
    Ok(text.as_slice() == row.insurances.as_bytes())
}

fn has_drops<L: Ledger>(
    alloc: Global,
    core: &Core<Checked>,
    row: &Row,
    steps: &mut Steps<L>,
) -> Result<bool, Fail> {
    let file = row.file.as_bytes();
    if file.len() > 1 << 26 {
        return Ok(false);
    }
    let text = pmi_drops(alloc, core, file, steps)?;
    Ok(text.as_slice() == row.drops.as_bytes())
}

/// Whether both texts of a row are written.
fn has_texts<L: Ledger>(
    alloc: Global,
    core: &Core<Checked>,
    row: &Row,
    steps: &mut Steps<L>,
) -> Result<bool, Fail> {
    let has_insurances = has_insurances(alloc, core, row, steps)?;
    Ok(has_drops(alloc, core, row, steps)? && has_insurances)
}

fn is_written_over<L: Ledger>(alloc: Global, blank: Blank, row: &Row) -> Result<bool, Fail>
    requires name { blank.name ≡ L.name }
    requires parts { blank.parts ≡ L.parts }
    requires some { 0 < L.parts }
{
    let mut steps = Steps::<L>::new(blank);
    let core = core_of(alloc, row.history.as_bytes(), &mut steps)?;
    has_texts(alloc, &core, row, &mut steps)
}

/// The same, with steps that are counted from 0.
fn is_written(alloc: Global, row: &Row) -> Result<bool, Fail> {
    is_written_over::<Brand>(alloc, Blank::new(1), row)
}

/// One loan whose first installment was paid when it was due, a month later.
const MARCH: &str = "k1 day 2024-02-01\n\
    k2 board 1 2023-12-15 200000.00 6000 250 1199.10 360 2024-02 15 500 2 0.00 SS\n\
    k3 pay 1 2024-02-01 1199.10\n\
    k4 day 2024-03-01\n";

/// The insurance ends where the scheduled balance, 199800.90 and then 199600.80, reaches 78 percent. Further rows stand in
/// `tests/real/worked.py`.
#[test]
fn insurance_ends_by_itself(rt: HostRuntime) -> Result<(), Fail> {
    let row = Row {
        history: MARCH,
        file: "loan,value,line,asked\n1,256000.00,4,\n",
        insurances: "pmi 1 ends 2024-03-01 Automatic\n",
        drops: "pmi-1-4 drop 1 4\n",
    };
    assert!(rt; is_written(rt.alloc(), &row)?);
    Ok(())
}

/// The terms that a line boards.
fn terms_of(line: &str) -> Option<Terms> {
    match read_line(line.as_bytes()) {
        Ok(Request::Do(_, Command::Board(_, terms))) => Some(terms),
        _ => None,
    }
}

/// The scheduled balance after so many months of the loan that a line boards.
fn balance_after(line: &str, months: u32) -> Option<i64> {
    let terms = terms_of(line)?;
    if terms.check().is_err() || months > terms.term {
        return None;
    }
    Some(scheduled(&terms, months))
}

const LONG: &str = "k2 board 1 2023-12-15 200000.00 6000 250 1199.10 360 2024-02 15 500 2 0.00 SS";

const SHORT: &str = "k2 board 7 2023-12-15 1000.00 6000 250 336.67 3 2024-02 15 500 2 0.00 AA";

const BALANCES: [(&str, u32, i64); 9] = [
    (LONG, 0, 20_000_000),
    (LONG, 1, 19_980_090),
    (LONG, 2, 19_960_080),
    (LONG, 3, 19_939_970),
    (LONG, 360, 0),
    (SHORT, 0, 100_000),
    (SHORT, 1, 66_833),
    (SHORT, 2, 33_500),
    (SHORT, 3, 0),
];

#[test]
fn balances_follow_the_schedule(rt: HostRuntime) {
    for (line, months, balance) in BALANCES.iter() {
        assert!(rt;
            balance_after(line, *months) == Some(*balance),
            "{months} months of {line}"
        );
    }
}

/// A loan with every field, one without a request, and a bad row.
fn are_three(rows: &[InsuredRow], asked: Day) -> bool {
    let first = InsuredLoan {
        loan: 4_294_967_295,
        value: 9_999_999_999_999,
        line: 0,
        asked: Some(asked),
    };
    let second = InsuredLoan {
        loan: 1,
        value: 1,
        line: 4,
        asked: None,
    };
    let wanted = [
        InsuredRow::Row(first),
        InsuredRow::Row(second),
        InsuredRow::Bad(4, 2),
    ];
    rows == wanted.as_slice()
}

/// What a file's rows say.
#[test]
fn rows_are_read(rt: HostRuntime) -> Result<(), Fail> {
    let day = read_day(b"2024-02-29")?;
    let file =
        "loan,value,line,asked\n4294967295,99999999999.99,0,2024-02-29\n1,0.01,4,\n1,0.00,4,\n";
    let rows = insured(rt.alloc(), file.as_bytes())?;
    assert!(rt; are_three(&rows, day));
    Ok(())
}

#[test]
fn a_file_without_the_header_has_no_rows(rt: HostRuntime) -> Result<(), Fail> {
    let rows = insured(rt.alloc(), "loan,value,asked,line\n".as_bytes());
    assert_eq!(rt; rows.err(), Some(ImportFault::Header));
    Ok(())
}

/// What has become of the insurance of a loan.
fn outcome_for<L: Ledger>(
    core: &Core<Checked>,
    loan: u32,
    steps: &mut Steps<L>,
) -> Result<PmiOutcome, CoreFault> {
    let asked = InsuredLoan {
        loan,
        value: 25_600_000,
        line: 4,
        asked: None,
    };
    outcome(core, &asked, steps)
}

/// The same after `MARCH`.
fn outcome_over<L: Ledger>(
    alloc: Global,
    blank: Blank,
    loan: u32,
) -> Result<Result<PmiOutcome, CoreFault>, Fail>
    requires name { blank.name ≡ L.name }
    requires parts { blank.parts ≡ L.parts }
    requires some { 0 < L.parts }
{
    let mut steps = Steps::<L>::new(blank);
    let core = core_of(alloc, MARCH.as_bytes(), &mut steps)?;
    Ok(outcome_for(&core, loan, &mut steps))
}

fn outcome_of(alloc: Global, loan: u32) -> Result<Result<PmiOutcome, CoreFault>, Fail> {
    outcome_over::<Brand>(alloc, Blank::new(1), loan)
}

#[test]
fn one_loan_is_asked_for(rt: HostRuntime) -> Result<(), Fail> {
    let end = read_day(b"2024-03-01")?;
    let ends = Ok(PmiOutcome::Ends(end, Cause::Automatic));
    assert_eq!(rt; outcome_of(rt.alloc(), 1)?, ends);
    let missing = Err(CoreFault::Refused(Refusal::NoSuchLoan));
    assert_eq!(rt; outcome_of(rt.alloc(), 2)?, missing);
    Ok(())
}
