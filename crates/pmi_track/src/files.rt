//! What is written of a file of insured loans.

ghost use Rattle.std.specs.Prelude.{◌≡◌, ◌+◌, ◌≤◌, ◌++◌, ◌^◌, IfOk, OnOk, length, nat_eq};
ghost use Rattle.std.specs.HashMap.{get};
ghost use Rattle.std.specs.List.{All, flat_map, sum_by};
ghost use Rattle.svc_world.specs.World.{world};
ghost use Rattle.pmi_track.specs.Boardings.{IsTable};
ghost use Rattle.pmi_track.specs.Insured.{outcome_cost, insurance_refusal, outcome_in};
ghost use Rattle.pmi_track.specs.Rows.{IsRead};
ghost use Rattle.pmi_track.specs.Texts as texts;

use crate::boarded::boardings;
use crate::deciding::outcome_with;
use crate::insured_loan::{InsuredLoan, InsuredRow};
use crate::output::{Output, push_bad, push_loan, push_refused};
use crate::reading::insured;
use serv_import::ImportFault;
use std::alloc::Global;
use std::collections::HashMap;
use std::sync::ledger::Ledger;
use svc_base::{OutOfMemory, Steps};
use svc_core::{Core, CoreFault};
use svc_replay::LoanBooks;
use svc_types::Terms;

/// A line for each row of a file of insured loans: what has become of the loan's insurance, why that is refused,
/// or where the row is bad; without the header one line says so. The file has at most 2^26 bytes. Errs only
/// where memory is short.
pub fn pmi_text<B: LoanBooks, L: Ledger>(
    alloc: Global,
    core: &Core<B>,
    bytes: &[u8],
    steps: &mut Steps<L>,
) -> Result<Vec<u8>, OutOfMemory>
    requires size { length bytes.now ≤ 2 ^ 26 }
    ensures text { IfOk result (λ text. text.items ≡ texts.insurance_text core.now.history bytes.now) }
    ensures steps { steps.new ≤ steps.old + texts.insurance_cost B.cost core.now.history bytes.now }
{
    file_text(alloc, core, bytes, Output::Lines, steps)
}

/// For each row of a file of insured loans whose insurance has ended, the line of the command that drops the
/// escrow line by which its premium is paid; nothing for other rows, and nothing without the header. The file
/// has at most 2^26 bytes. Errs only where memory is short.
pub fn pmi_drops<B: LoanBooks, L: Ledger>(
    alloc: Global,
    core: &Core<B>,
    bytes: &[u8],
    steps: &mut Steps<L>,
) -> Result<Vec<u8>, OutOfMemory>
    requires size { length bytes.now ≤ 2 ^ 26 }
    ensures text { IfOk result (λ text. text.items ≡ texts.drop_text core.now.history bytes.now) }
    ensures steps { steps.new ≤ steps.old + texts.insurance_cost B.cost core.now.history bytes.now }
{
    file_text(alloc, core, bytes, Output::Drops, steps)
}

/// What is written of a file of insured loans.
fn file_text<B: LoanBooks, L: Ledger>(
    alloc: Global,
    core: &Core<B>,
    bytes: &[u8],
    output: Output,
    steps: &mut Steps<L>,
) -> Result<Vec<u8>, OutOfMemory>
    requires size { length bytes.now ≤ 2 ^ 26 }
    ensures text { IfOk result (λ text. text.items ≡ texts.file_text output core.now.history bytes.now) }
    ensures steps { steps.new ≤ steps.old + texts.insurance_cost B.cost core.now.history bytes.now }
{
    let mut out = Vec::new(alloc);
    match insured(alloc, bytes) {
        Ok(rows) => push_rows(alloc, &mut out, core, &rows, output, steps)?,
        Err(ImportFault::Header) => push_bad(&mut out, output, 1, 1)?,
        Err(ImportFault::OutOfMemory) => return Err(OutOfMemory),
    }
    Ok(out)
}

/// Appends what is written of each row.
fn push_rows<B: LoanBooks, L: Ledger>(
    alloc: Global,
    out: &mut Vec<u8>,
    core: &Core<B>,
    rows: &[InsuredRow],
    output: Output,
    steps: &mut Steps<L>,
) -> Result<(), OutOfMemory>
    requires rows { All IsRead rows.now }
    ensures pushed { OnOk result (out.new.items
        ≡ out.old.items ++ flat_map (texts.row_text output (world core.now.history)) rows.now) }
    ensures steps { steps.new ≤ steps.old
        + sum_by (texts.row_cost B.cost (world core.now.history)) rows.now }
{
    let table = boardings(alloc, core)?;
    for row in rows {
        push_row(out, core, &table, row, output, steps)?;
    }
    Ok(())
}

/// Appends what is written of a row.
fn push_row<B: LoanBooks, L: Ledger>(
    out: &mut Vec<u8>,
    core: &Core<B>,
    table: &HashMap<u32, Terms>,
    row: &InsuredRow,
    output: Output,
    steps: &mut Steps<L>,
) -> Result<(), OutOfMemory>
    requires table { IsTable (get nat_eq table.now) core.now.history }
    requires row { IsRead row.now }
    ensures pushed { OnOk result (out.new.items
        ≡ out.old.items ++ texts.row_text output (world core.now.history) row.now) }
    ensures steps { steps.new ≤ steps.old + texts.row_cost B.cost (world core.now.history) row.now }
{
    match row {
        InsuredRow::Row(insured) => push_insured(out, core, table, insured, output, steps),
        InsuredRow::Bad(row, column) => push_bad(out, output, *row, *column),
    }
}

/// Appends what is written of an insured loan.
fn push_insured<B: LoanBooks, L: Ledger>(
    out: &mut Vec<u8>,
    core: &Core<B>,
    table: &HashMap<u32, Terms>,
    insured: &InsuredLoan,
    output: Output,
    steps: &mut Steps<L>,
) -> Result<(), OutOfMemory>
    requires table { IsTable (get nat_eq table.now) core.now.history }
    ensures pushed { OnOk result (out.new.items ≡ out.old.items
        ++ texts.loan_text output insured.now (insurance_refusal (world core.now.history) insured.now)
        (outcome_in (world core.now.history) insured.now)) }
    ensures steps { steps.new ≤ steps.old + outcome_cost B.cost (world core.now.history) insured.now }
{
    match outcome_with(core, insured, &terms_in(table, insured.loan), steps) {
        Ok(outcome) => push_loan(out, output, insured, &outcome),
        Err(CoreFault::Refused(why)) => push_refused(out, output, &why),
        Err(CoreFault::OutOfMemory) => Err(OutOfMemory),
    }
}

/// The terms of a loan.
fn terms_in(table: &HashMap<u32, Terms>, loan: u32) -> Option<Terms>
    ensures { result ≡ get nat_eq table.now loan }
{
    table.get(&loan).copied()
}
