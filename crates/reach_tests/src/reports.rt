//! The texts of the report of 2024-04, after four months that were closed.

ghost use Rattle.std.specs.Prelude.{◌≡◌, ◌<◌};
ghost use Rattle.svc_world.specs.Laws.{IsUnsignedReport};
ghost use Rattle.serv_report.specs.AnswerTexts.{IsSpellable};

use crate::histories::core_of;
use period_adjust::Report;
use serv_report::{activity, push_activity, push_answer, push_trial, trial, write_answer};
use std::alloc::Global;
use std::marker::Brand;
use std::sync::ledger::{Blank, Ledger};
use std::test::Fail;
use svc_base::{Month, OutOfMemory, Steps};
use svc_checkpoint::Checked;
use svc_core::Core;
use svc_types::Query;
use svc_world::Answer;

/// Whether the bytes are this text and the same again.
fn is_twice(bytes: &[u8], text: &str) -> bool {
    match bytes.strip_prefix(text.as_bytes()) {
        Some(rest) => rest == text.as_bytes(),
        None => false,
    }
}

/// Whether an answer has this text, and is appended to it as the same again.
fn is_answer(alloc: Global, answer: &Answer, text: &str) -> Result<bool, OutOfMemory>
    requires { IsSpellable answer.now }
{
    let mut out = write_answer(alloc, answer)?;
    push_answer(&mut out, answer)?;
    Ok(is_twice(&out, text))
}

/// Whether a report has this text, by each call that writes it.
fn has_activity(alloc: Global, report: &Report, text: &str) -> Result<bool, OutOfMemory>
    requires { IsUnsignedReport report.now }
{
    let mut out = activity(alloc, report)?;
    push_activity(&mut out, report)?;
    Ok(is_twice(&out, text) && is_answer(alloc, &Answer::Report(report.copy()?), text)?)
}

/// Whether the balances of a report have this text, by each call that writes it.
fn has_trial(alloc: Global, report: &Report, text: &str) -> Result<bool, OutOfMemory>
    requires { IsUnsignedReport report.now }
{
    let mut out = trial(alloc, report)?;
    push_trial(&mut out, report)?;
    Ok(is_twice(&out, text) && is_answer(alloc, &Answer::Trial(report.copy()?), text)?)
}

/// A history, and both texts of its report of 2024-04.
#[derive(Clone, Copy)]
struct Row {
    history: &'static str,
    report: &'static str,
    trial: &'static str,
}

fn has_texts(alloc: Global, report: &Report, row: &Row) -> Result<bool, OutOfMemory>
    requires { IsUnsignedReport report.now }
{
    let has_lines = has_activity(alloc, report, row.report)?;
    Ok(has_trial(alloc, report, row.trial)? && has_lines)
}

fn is_report(alloc: Global, answer: &Answer, row: &Row) -> Result<bool, OutOfMemory>
    requires { IsSpellable answer.now }
{
    match answer {
        Answer::Report(report) => has_texts(alloc, report, row),
        _ => Ok(false),
    }
}

/// Whether the report of 2024-04 has both texts.
#[tactic(auto, using(serv_report::proofs::SpellLemmas::spelled))]
fn has_april<L: Ledger>(
    alloc: Global,
    core: &Core<Checked>,
    row: &Row,
    steps: &mut Steps<L>,
) -> Result<bool, Fail> {
    core.history_holds();
    let answer = core.ask(&Query::Report(Month::new(2024, 4)), steps)?;
    Ok(is_report(alloc, &answer, row)?)
}

fn is_reported_over<L: Ledger>(alloc: Global, blank: Blank, row: &Row) -> Result<bool, Fail>
    requires name { blank.name ≡ L.name }
    requires parts { blank.parts ≡ L.parts }
    requires some { 0 < L.parts }
{
    let mut steps = Steps::<L>::new(blank);
    let core = core_of(alloc, row.history.as_bytes(), &mut steps)?;
    has_april(alloc, &core, row, &mut steps)
}

/// The same, with steps that are counted from 0.
fn is_reported(alloc: Global, row: &Row) -> Result<bool, Fail> {
    is_reported_over::<Brand>(alloc, Blank::new(1), row)
}

/// A payment for March that comes after its report was sent.
const PAID_LATE: Row = Row {
    history: "k1 day 2024-02-01\n\
    k2 board 1 2023-12-15 200000.00 6000 250 1199.10 360 2024-02 15 500 2 0.00 AA\n\
    k3 pay 1 2024-02-01 1199.10\n\
    k4 day 2024-04-01\n\
    k5 close 2023-12\n\
    k6 close 2024-01\n\
    k7 close 2024-02\n\
    k8 close 2024-03\n\
    k9 remit 2023-12\n\
    k10 remit 2024-01\n\
    k11 remit 2024-02\n\
    k12 remit 2024-03\n\
    k13 pay 1 2024-03-10 1199.10\n\
    k14 day 2024-05-01\n\
    k15 close 2024-04\n",
    report: "report 2024-04 lines 1\n\
    line 1 due 0.00 0.00 adjusted 957.37 200.10 upb 199600.80 balance 199600.80\n\
    adjust 13 1 2024-03 957.37 200.10\n\
    total interest 957.37 principal 200.10\n\
    end\n",
    trial: "trial 2024-04 loans 1\n\
    loan 1 upb 199600.80 balance 199600.80\n\
    total upb 199600.80 balance 199600.80\n\
    end\n",
};

/// The payment for February is taken back once both months were reported, so that the one for March pays it.
const REVERSED: Row = Row {
    history: "k1 day 2024-03-01\n\
    k2 board 1 2023-12-15 200000.00 6000 250 1199.10 360 2024-02 15 500 2 0.00 AA\n\
    k3 pay 1 2024-02-01 1199.10\n\
    k4 pay 1 2024-03-01 1199.10\n\
    k5 day 2024-04-01\n\
    k6 close 2023-12\n\
    k7 close 2024-01\n\
    k8 close 2024-02\n\
    k9 close 2024-03\n\
    k10 remit 2023-12\n\
    k11 remit 2024-01\n\
    k12 remit 2024-02\n\
    k13 remit 2024-03\n\
    k14 reverse 1 3\n\
    k15 day 2024-05-01\n\
    k16 close 2024-04\n",
    report: "report 2024-04 lines 1\n\
    line 1 due 0.00 0.00 adjusted -957.37 -200.10 upb 199800.90 balance 199800.90\n\
    adjust 14 1 2024-02 -958.33 -199.10\n\
    adjust 14 1 2024-03 0.96 -1.00\n\
    total interest -957.37 principal -200.10\n\
    end\n",
    trial: "trial 2024-04 loans 1\n\
    loan 1 upb 199800.90 balance 199800.90\n\
    total upb 199800.90 balance 199800.90\n\
    end\n",
};

#[test]
fn what_changes_a_sent_report_comes_as_an_adjustment(rt: HostRuntime) -> Result<(), Fail> {
    assert!(rt; is_reported(rt.alloc(), &PAID_LATE)?);
    assert!(rt; is_reported(rt.alloc(), &REVERSED)?);
    Ok(())
}
