//! Statements, and how they are confirmed.

ghost use Rattle.std.specs.Prelude.{◌≡◌, ◌<◌};

use crate::histories::core_of;
use crate::transfers::OF_LOAN_2;
use servicing_transfer::{ConfirmFault, confirm, statement};
use std::alloc::Global;
use std::marker::Brand;
use std::sync::ledger::{Blank, Ledger};
use std::test::Fail;
use svc_base::Steps;
use svc_checkpoint::Checked;
use svc_core::Core;

/// A history and its statement.
#[derive(Clone, Copy)]
struct Stated {
    history: &'static str,
    text: &'static str,
}

fn has_statement<L: Ledger>(
    alloc: Global,
    core: &Core<Checked>,
    text: &str,
    steps: &mut Steps<L>,
) -> Result<bool, Fail> {
    let written = statement(alloc, core, steps)?;
    Ok(written.as_slice() == text.as_bytes())
}

fn is_stated_over<L: Ledger>(alloc: Global, blank: Blank, row: &Stated) -> Result<bool, Fail>
    requires name { blank.name ≡ L.name }
    requires parts { blank.parts ≡ L.parts }
    requires some { 0 < L.parts }
{
    let mut steps = Steps::<L>::new(blank);
    let core = core_of(alloc, row.history.as_bytes(), &mut steps)?;
    has_statement(alloc, &core, row.text, &mut steps)
}

/// The same, with steps that are counted from 0.
fn is_stated(alloc: Global, row: &Stated) -> Result<bool, Fail> {
    is_stated_over::<Brand>(alloc, Blank::new(1), row)
}

const STATED_2: &str = "statement 2024-06-15 loans 1\n\
    loan 2 upb 200000.00 next 2024-07 escrow 100.00 suspense 0.00 late 0.00 escrow-advance 0.00 held 0.00 pi-advance 0.00\n\
    total T 100.00 P 0.00\n\
    end\n";

/// Further rows stand in `tests/real/worked.py`, of what is confirmed too.
#[test]
fn statements_say_what_is_held(rt: HostRuntime) -> Result<(), Fail> {
    let row = Stated {
        history: OF_LOAN_2,
        text: STATED_2,
    };
    assert!(rt; is_stated(rt.alloc(), &row)?);
    Ok(())
}

/// What a text is confirmed as: how it differs, or its first line that does not fit.
#[derive(Clone, Copy)]
enum Said {
    Differences(&'static str),
    BadLine(u64),
}

/// Whether a text was confirmed so.
fn is_said(confirmed: &Result<Vec<u8>, ConfirmFault>, said: Said) -> bool {
    match (confirmed, said) {
        (Ok(written), Said::Differences(text)) => written.as_slice() == text.as_bytes(),
        (Err(fault), Said::BadLine(line)) => *fault == ConfirmFault::BadLine(line),
        _ => false,
    }
}

/// A history, a text that is confirmed over it, and what it is confirmed as.
#[derive(Clone, Copy)]
struct Question {
    history: &'static str,
    text: &'static str,
    said: Said,
}

fn is_answered<L: Ledger>(
    alloc: Global,
    core: &Core<Checked>,
    row: &Question,
    steps: &mut Steps<L>,
) -> bool {
    let confirmed = confirm(alloc, core, row.text.as_bytes(), steps);
    is_said(&confirmed, row.said)
}

fn is_confirmed_over<L: Ledger>(alloc: Global, blank: Blank, row: &Question) -> Result<bool, Fail>
    requires name { blank.name ≡ L.name }
    requires parts { blank.parts ≡ L.parts }
    requires some { 0 < L.parts }
{
    let mut steps = Steps::<L>::new(blank);
    let core = core_of(alloc, row.history.as_bytes(), &mut steps)?;
    Ok(is_answered(alloc, &core, row, &mut steps))
}

/// The same, with steps that are counted from 0.
fn is_confirmed(alloc: Global, row: &Question) -> Result<bool, Fail> {
    is_confirmed_over::<Brand>(alloc, Blank::new(1), row)
}

/// What a text is confirmed as over loan 2: its own statement, one of no loans whose last line has no line feed, and its first
/// line alone.
const AT_THE_RECEIVER: [Question; 3] = [
    Question {
        history: OF_LOAN_2,
        text: STATED_2,
        said: Said::Differences("day same\nsame 2\nend\n"),
    },
    Question {
        history: OF_LOAN_2,
        text: "statement 2024-06-15 loans 0\ntotal T 0.00 P 0.00\nend",
        said: Said::Differences("day same\nextra 2\nend\n"),
    },
    Question {
        history: OF_LOAN_2,
        text: "statement 2024-06-15 loans 1\n",
        said: Said::BadLine(2),
    },
];

/// The servicer that receives a loan confirms what the old one stated of it.
#[test]
fn statements_are_confirmed(rt: HostRuntime) -> Result<(), Fail> {
    for row in AT_THE_RECEIVER.iter() {
        assert!(rt; is_confirmed(rt.alloc(), row)?, "at {}", row.text);
    }
    Ok(())
}
