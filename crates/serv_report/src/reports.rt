//! The texts of a month's report.

ghost use Rattle.std.specs.Prelude.{◌≡◌, ◌++◌, IfOk, OnErr, OnOk};
ghost use Rattle.std.specs.List.{All, flat_map};
ghost use Rattle.svc_world.specs.Laws.{IsUnsignedLine, IsUnsignedReport};
ghost use Rattle.serv_line.specs.Pushed.{Keeps};
ghost use Rattle.serv_report.specs.ReportTexts.{balances, pair, pair_field, text_of_adjustment, text_of_all, text_of_heading, text_of_line, text_of_loan, text_of_report, text_of_sent, text_of_trial};

use crate::totals::{Column, push_amount_total, push_signed_total};
use crate::words::{
    push_count_field, push_end, push_number_word, push_numbered, push_signed_word,
    push_unsigned_field, push_word,
};
use period_adjust::{Adjustment, Report, ReportLine};
use serv_line::{push_bytes, undone};
use std::alloc::Global;
use svc_base::{Cents, Month, OutOfMemory, write_month};

/// The report of a month: what each loan sends, its adjustments, and the totals. Errs only where
/// memory is short.
pub fn activity(alloc: Global, report: &Report) -> Result<Vec<u8>, OutOfMemory>
    requires { IsUnsignedReport report.now }
    ensures { IfOk result (λ text. text.items ≡ text_of_report report.now) }
{
    let mut out = Vec::new(alloc);
    append_report(&mut out, report)?;
    Ok(out)
}

/// Appends the report of a month. Where memory is short `out` is as it was.
pub fn push_activity(out: &mut Vec<u8>, report: &Report) -> Result<(), OutOfMemory>
    requires { IsUnsignedReport report.now }
    ensures pushed { OnOk result (out.new.items ≡ out.old.items ++ text_of_report report.now) }
    ensures kept { OnErr result (out.new.items ≡ out.old.items) }
{
    let start = out.len();
    let pushed = append_report(out, report);
    undone(out, start, pushed)
}

/// The balances of a month's report, of each loan and of all. Errs only where memory is short.
pub fn trial(alloc: Global, report: &Report) -> Result<Vec<u8>, OutOfMemory>
    requires { IsUnsignedReport report.now }
    ensures { IfOk result (λ text. text.items ≡ text_of_trial report.now) }
{
    let mut out = Vec::new(alloc);
    append_trial(&mut out, report)?;
    Ok(out)
}

/// Appends the balances of a month's report. Where memory is short `out` is as it was.
pub fn push_trial(out: &mut Vec<u8>, report: &Report) -> Result<(), OutOfMemory>
    requires { IsUnsignedReport report.now }
    ensures pushed { OnOk result (out.new.items ≡ out.old.items ++ text_of_trial report.now) }
    ensures kept { OnErr result (out.new.items ≡ out.old.items) }
{
    let start = out.len();
    let pushed = append_trial(out, report);
    undone(out, start, pushed)
}

/// Appends the report of a month.
#[tactic(auto, using(serv_line::proofs::KeepLemmas::keeps), unfolding(crate::specs::ReportTexts::text_of_report))]
pub(crate) fn append_report(out: &mut Vec<u8>, report: &Report) -> Result<(), OutOfMemory>
    requires { IsUnsignedReport report.now }
    ensures pushed { OnOk result (out.new.items ≡ out.old.items ++ text_of_report report.now) }
    ensures kept { OnErr result (Keeps out.old.items out.new.items) }
{
    push_heading(
        out,
        b"report ",
        report.month(),
        b"lines",
        report.lines().len(),
    )?;
    push_lines(out, report.lines())?;
    push_adjustments(out, report.adjustments())?;
    push_sent(out, report.lines())?;
    push_end(out)
}

/// Appends the balances of a month's report.
#[tactic(auto, using(serv_line::proofs::KeepLemmas::keeps), unfolding(crate::specs::ReportTexts::text_of_trial))]
pub(crate) fn append_trial(out: &mut Vec<u8>, report: &Report) -> Result<(), OutOfMemory>
    requires { IsUnsignedReport report.now }
    ensures pushed { OnOk result (out.new.items ≡ out.old.items ++ text_of_trial report.now) }
    ensures kept { OnErr result (Keeps out.old.items out.new.items) }
{
    push_heading(
        out,
        b"trial ",
        report.month(),
        b"loans",
        report.lines().len(),
    )?;
    push_loans(out, report.lines())?;
    push_all(out, report.lines())?;
    push_end(out)
}

/// Appends the first line of a month's text.
#[tactic(auto, using(serv_line::proofs::KeepLemmas::keeps), unfolding(crate::specs::ReportTexts::text_of_heading))]
fn push_heading(
    out: &mut Vec<u8>,
    name: &[u8],
    month: Month,
    counted: &[u8],
    count: usize,
) -> Result<(), OutOfMemory>
    ensures pushed { OnOk result (out.new.items ≡ out.old.items
        ++ text_of_heading name.now month counted.now count) }
    ensures kept { OnErr result (Keeps out.old.items out.new.items) }
{
    push_bytes(out, name)?;
    push_bytes(out, &write_month(month))?;
    push_count_field(out, counted, count)?;
    push_bytes(out, b"\n")
}

/// Appends a report's lines.
#[tactic(auto, using(serv_line::proofs::KeepLemmas::keeps))]
fn push_lines(out: &mut Vec<u8>, lines: &[ReportLine]) -> Result<(), OutOfMemory>
    requires { All IsUnsignedLine lines.now }
    ensures pushed { OnOk result (out.new.items ≡ out.old.items ++ flat_map text_of_line lines.now) }
    ensures kept { OnErr result (Keeps out.old.items out.new.items) }
{
    for line in lines {
        push_line(out, line)?;
    }
    Ok(())
}

/// Appends a loan's line.
#[tactic(auto, using(serv_line::proofs::KeepLemmas::keeps), unfolding(crate::specs::ReportTexts::text_of_line))]
fn push_line(out: &mut Vec<u8>, line: &ReportLine) -> Result<(), OutOfMemory>
    requires { IsUnsignedLine line.now }
    ensures pushed { OnOk result (out.new.items ≡ out.old.items ++ text_of_line line.now) }
    ensures kept { OnErr result (Keeps out.old.items out.new.items) }
{
    push_numbered(out, b"line ", line.loan)?;
    push_pair_field(out, b"due", line.interest, line.principal)?;
    push_pair_field(out, b"adjusted", line.adj_interest, line.adj_principal)?;
    push_balances(out, line)?;
    push_bytes(out, b"\n")
}

/// Appends a name, interest and principal.
#[tactic(auto, using(serv_line::proofs::KeepLemmas::keeps))]
fn push_pair_field(
    out: &mut Vec<u8>,
    name: &[u8],
    interest: Cents,
    principal: Cents,
) -> Result<(), OutOfMemory>
    ensures pushed { OnOk result (out.new.items ≡ out.old.items ++ pair_field name.now interest principal) }
    ensures kept { OnErr result (Keeps out.old.items out.new.items) }
{
    push_word(out, name)?;
    push_pair(out, interest, principal)
}

/// Appends interest and principal.
#[tactic(auto, using(serv_line::proofs::KeepLemmas::keeps))]
fn push_pair(out: &mut Vec<u8>, interest: Cents, principal: Cents) -> Result<(), OutOfMemory>
    ensures pushed { OnOk result (out.new.items ≡ out.old.items ++ pair interest principal) }
    ensures kept { OnErr result (Keeps out.old.items out.new.items) }
{
    push_signed_word(out, interest)?;
    push_signed_word(out, principal)
}

/// Appends a loan's balance and the investor's.
#[tactic(auto, using(serv_line::proofs::KeepLemmas::keeps))]
fn push_balances(out: &mut Vec<u8>, line: &ReportLine) -> Result<(), OutOfMemory>
    requires { IsUnsignedLine line.now }
    ensures pushed { OnOk result (out.new.items ≡ out.old.items ++ balances line.now.upb line.now.balance) }
    ensures kept { OnErr result (Keeps out.old.items out.new.items) }
{
    push_unsigned_field(out, b"upb", line.upb)?;
    push_unsigned_field(out, b"balance", line.balance)
}

/// Appends the adjustments that a report sends.
#[tactic(auto, using(serv_line::proofs::KeepLemmas::keeps))]
fn push_adjustments(out: &mut Vec<u8>, adjustments: &[Adjustment]) -> Result<(), OutOfMemory>
    ensures pushed { OnOk result (out.new.items ≡ out.old.items
        ++ flat_map text_of_adjustment adjustments.now) }
    ensures kept { OnErr result (Keeps out.old.items out.new.items) }
{
    for adjustment in adjustments {
        push_adjustment(out, adjustment)?;
    }
    Ok(())
}

/// Appends an adjustment.
#[tactic(auto, using(serv_line::proofs::KeepLemmas::keeps), unfolding(crate::specs::ReportTexts::text_of_adjustment))]
fn push_adjustment(out: &mut Vec<u8>, adjustment: &Adjustment) -> Result<(), OutOfMemory>
    ensures pushed { OnOk result (out.new.items ≡ out.old.items ++ text_of_adjustment adjustment.now) }
    ensures kept { OnErr result (Keeps out.old.items out.new.items) }
{
    push_numbered(out, b"adjust ", adjustment.number)?;
    push_number_word(out, adjustment.loan)?;
    push_word(out, &write_month(adjustment.month))?;
    push_pair(out, adjustment.interest, adjustment.principal)?;
    push_bytes(out, b"\n")
}

/// Appends what all lines send.
#[tactic(auto, using(serv_line::proofs::KeepLemmas::keeps), unfolding(crate::specs::ReportTexts::text_of_sent))]
fn push_sent(out: &mut Vec<u8>, lines: &[ReportLine]) -> Result<(), OutOfMemory>
    ensures pushed { OnOk result (out.new.items ≡ out.old.items ++ text_of_sent lines.now) }
    ensures kept { OnErr result (Keeps out.old.items out.new.items) }
{
    push_bytes(out, b"total")?;
    push_signed_total(out, b"interest", lines, Column::Interest)?;
    push_signed_total(out, b"principal", lines, Column::Principal)?;
    push_bytes(out, b"\n")
}

/// Appends the balances of each loan.
#[tactic(auto, using(serv_line::proofs::KeepLemmas::keeps))]
fn push_loans(out: &mut Vec<u8>, lines: &[ReportLine]) -> Result<(), OutOfMemory>
    requires { All IsUnsignedLine lines.now }
    ensures pushed { OnOk result (out.new.items ≡ out.old.items ++ flat_map text_of_loan lines.now) }
    ensures kept { OnErr result (Keeps out.old.items out.new.items) }
{
    for line in lines {
        push_loan(out, line)?;
    }
    Ok(())
}

/// Appends a loan's balances.
#[tactic(auto, using(serv_line::proofs::KeepLemmas::keeps), unfolding(crate::specs::ReportTexts::text_of_loan))]
fn push_loan(out: &mut Vec<u8>, line: &ReportLine) -> Result<(), OutOfMemory>
    requires { IsUnsignedLine line.now }
    ensures pushed { OnOk result (out.new.items ≡ out.old.items ++ text_of_loan line.now) }
    ensures kept { OnErr result (Keeps out.old.items out.new.items) }
{
    push_numbered(out, b"loan ", line.loan)?;
    push_balances(out, line)?;
    push_bytes(out, b"\n")
}

/// Appends the balances of all loans.
#[tactic(auto, using(serv_line::proofs::KeepLemmas::keeps), unfolding(crate::specs::ReportTexts::text_of_all))]
fn push_all(out: &mut Vec<u8>, lines: &[ReportLine]) -> Result<(), OutOfMemory>
    requires { All IsUnsignedLine lines.now }
    ensures pushed { OnOk result (out.new.items ≡ out.old.items ++ text_of_all lines.now) }
    ensures kept { OnErr result (Keeps out.old.items out.new.items) }
{
    push_bytes(out, b"total")?;
    push_amount_total(out, b"upb", lines, Column::Upb)?;
    push_amount_total(out, b"balance", lines, Column::Balance)?;
    push_bytes(out, b"\n")
}
