//! The summary of a year.

ghost use Rattle.std.specs.Prelude.{◌≡◌, ℕ, ◌+◌, ◌*◌, ◌^◌, ◌≤◌, ◌++◌, ◌≤ℤ◌, pos, neg_ℤ, Some, IfOk, OnOk, unsigned_abs, length};
ghost use Rattle.serv_drill.specs.Summary as summary;
ghost use Rattle.serv_drill.specs.Tallies.{tally};
ghost use Rattle.svc_world.specs.World.{world};
ghost use Rattle.svc_world.specs.Custody.{custody_of};
ghost use Rattle.serv_report.specs.Texts.{text_of_custody};

use crate::desk::Desk;
use serv_line::{push_bytes, push_number_field};
use serv_report::push_answer;
use std::alloc::Global;
use std::sync::ledger::Ledger;
use svc_base::{Cents, OutOfMemory, Steps, push_signed};
use svc_checkpoint::Checked;
use svc_core::{Core, CoreFault};
use svc_types::Query;
use svc_world::Answer;

/// The late charges that a loan owes, as an answer on its books says, in cents; 0 where it says nothing of them.
fn late_in(answer: &Answer) -> Cents
    ensures { result ≡ summary.late_in (Some answer.now) }
{
    match answer {
        Answer::Books { books, .. } => books.late_owed,
        _ => 0,
    }
}

/// The late charges that a loan owes, in cents; 0 where it is not there.
fn late_of<L: Ledger>(
    core: &Core<Checked>,
    loan: u32,
    steps: &mut Steps<L>,
) -> Result<Cents, OutOfMemory>
    ensures late { IfOk result (λ z. z ≡ summary.late_of core.now.history loan) }
    ensures steps { steps.new ≤ steps.old }
{
    match core.ask(&Query::Books(loan), steps) {
        Ok(answer) => Ok(late_in(&answer)),
        Err(CoreFault::Refused(_)) => Ok(0),
        Err(CoreFault::OutOfMemory) => Err(OutOfMemory),
    }
}

/// The late charges that the loans from 1 on owe, in cents.
fn late_owed<L: Ledger>(
    core: &Core<Checked>,
    loans: u32,
    steps: &mut Steps<L>,
) -> Result<i128, OutOfMemory>
    ensures late { IfOk result (λ z. z ≡ summary.late_owed core.now.history loans) }
    ensures high { IfOk result (λ z. z ≤ℤ pos (2 ^ 63 * loans)) }
    ensures low { IfOk result (λ z. neg_ℤ (pos (2 ^ 63 * loans)) ≤ℤ z) }
    ensures steps { steps.new ≤ steps.old }
{
    let mut late = 0;
    for i in 0..loans {
        let owed = late_of(core, i + 1, steps)?;
        late += i128::from(owed);
    }
    Ok(late)
}

/// Appends the line of the custodial accounts. No rule refuses the question.
fn push_custody<L: Ledger>(
    out: &mut Vec<u8>,
    core: &Core<Checked>,
    steps: &mut Steps<L>,
) -> Result<(), OutOfMemory>
    ensures pushed { OnOk result (out.new.items
        ≡ out.old.items ++ text_of_custody (custody_of (world core.now.history))) }
    ensures steps { steps.new ≤ steps.old }
{
    core.history_holds();
    match core.ask(&Query::Custodial, steps) {
        Ok(answer) => push_answer(out, &answer),
        Err(_) => Err(OutOfMemory),
    }
}

/// Appends the two numbers and the counts.
#[tactic(auto, unfolding(crate::specs::Summary::counts_line))]
fn push_counts(out: &mut Vec<u8>, loans: u32, number: u32, desk: &Desk) -> Result<(), OutOfMemory>
    ensures pushed { OnOk result (out.new.items ≡ out.old.items ++ summary.counts_line loans number (tally desk.now)) }
{
    push_bytes(out, b"drill")?;
    push_number_field(out, b"loans", loans)?;
    push_number_field(out, b"number", number)?;
    push_number_field(out, b"commands", desk.core.count())?;
    push_number_field(out, b"repeats", desk.repeats)?;
    push_bytes(out, b"\n")
}

/// Appends what the investor was sent, and the late charges that are owed.
#[tactic(auto, using(std::proofs::lemmas::Int::ints), unfolding(crate::specs::Summary::sums_line, svc_base::specs::Text::text_of_signed))]
fn push_sums(out: &mut Vec<u8>, remitted: i128, late: i128) -> Result<(), OutOfMemory>
    requires low { neg_ℤ (pos (2 ^ 126)) ≤ℤ late }
    ensures pushed { OnOk result (out.new.items ≡ out.old.items ++ summary.sums_line remitted late) }
{
    push_bytes(out, b"remitted ")?;
    push_signed(out, remitted)?;
    push_bytes(out, b" late ")?;
    push_signed(out, late.abs())?;
    push_bytes(out, b"\n")
}

/// The summary of what was done.
#[tactic(auto, unfolding(crate::specs::Summary::summary_of))]
pub(crate) fn summarize<L: Ledger>(
    alloc: Global,
    desk: &Desk,
    loans: u32,
    number: u32,
    steps: &mut Steps<L>,
) -> Result<Vec<u8>, OutOfMemory>
    ensures text { IfOk result (λ text. text.items ≡ summary.summary_of loans number (tally desk.now)) }
    ensures steps { steps.new ≤ steps.old }
{
    let late = late_owed(&desk.core, loans, steps)?;
    let mut out = Vec::new(alloc);
    push_counts(&mut out, loans, number, desk)?;
    push_custody(&mut out, &desk.core, steps)?;
    push_sums(&mut out, desk.remitted, late)?;
    Ok(out)
}
