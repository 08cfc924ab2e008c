//! The text of an escrow analysis.

ghost use Rattle.std.specs.Prelude.{◌≡◌, ◌+◌, ◌<◌, ◌++◌, FitsSigned, IfOk, OnErr, OnOk, codes};
ghost use Rattle.std.specs.Int.{w64};
ghost use Rattle.std.specs.List.{flat_map};
ghost use Rattle.escrow_analysis.specs.AggregateAnalysis.{months};
ghost use Rattle.svc_world.specs.Unsigned.{AreUnsignedFigures};
ghost use Rattle.serv_line.specs.Pushed.{Keeps};
ghost use Rattle.serv_line.specs.Replies.{signed_field};
ghost use Rattle.serv_report.specs.EscrowText.{HasYear, paid_in, text_of_balances_in, text_of_escrow, text_of_figures_of, target_at, text_of_month_of, text_of_year, trial_at};

use crate::words::{push_end, push_numbered, push_unsigned_field};
use escrow_analysis::Analysis;
use serv_line::{push_bytes, push_found, push_parts, push_signed_field, undone};
use std::alloc::Global;
use svc_base::{Cents, Month, OutOfMemory, add_months, push_signed, write_month};
use svc_types::Figures;

/// What an escrow analysis of a loan would find, and its twelve months. The months reach to December
/// 2140 at most. Errs only where memory is short.
pub fn escrow(
    alloc: Global,
    loan: u32,
    figures: &Figures,
    analysis: &Analysis,
) -> Result<Vec<u8>, OutOfMemory>
    requires year { HasYear figures.now.from }
    requires amounts { AreUnsignedFigures figures.now }
    ensures { IfOk result (λ text. text.items ≡ text_of_escrow loan figures.now analysis.now) }
{
    let mut out = Vec::new(alloc);
    append_escrow(&mut out, loan, figures, analysis)?;
    Ok(out)
}

/// Appends what an escrow analysis of a loan would find. Where memory is short `out` is as it was.
pub fn push_escrow(
    out: &mut Vec<u8>,
    loan: u32,
    figures: &Figures,
    analysis: &Analysis,
) -> Result<(), OutOfMemory>
    requires year { HasYear figures.now.from }
    requires amounts { AreUnsignedFigures figures.now }
    ensures pushed { OnOk result (out.new.items ≡ out.old.items
        ++ text_of_escrow loan figures.now analysis.now) }
    ensures kept { OnErr result (out.new.items ≡ out.old.items) }
{
    let start = out.len();
    let pushed = append_escrow(out, loan, figures, analysis);
    undone(out, start, pushed)
}

/// Appends what an escrow analysis of a loan would find, and its months.
#[tactic(auto, using(serv_line::proofs::KeepLemmas::keeps), unfolding(crate::specs::EscrowText::text_of_escrow))]
pub(crate) fn append_escrow(
    out: &mut Vec<u8>,
    loan: u32,
    figures: &Figures,
    analysis: &Analysis,
) -> Result<(), OutOfMemory>
    requires year { HasYear figures.now.from }
    requires amounts { AreUnsignedFigures figures.now }
    ensures pushed { OnOk result (out.new.items ≡ out.old.items
        ++ text_of_escrow loan figures.now analysis.now) }
    ensures kept { OnErr result (Keeps out.old.items out.new.items) }
{
    push_figures(out, loan, figures)?;
    push_months(out, figures.from, analysis)?;
    push_end(out)
}

/// Appends what an escrow analysis of a loan would find.
#[tactic(auto, using(serv_line::proofs::KeepLemmas::keeps), unfolding(crate::specs::EscrowText::text_of_figures_of))]
fn push_figures(out: &mut Vec<u8>, loan: u32, figures: &Figures) -> Result<(), OutOfMemory>
    requires { AreUnsignedFigures figures.now }
    ensures pushed { OnOk result (out.new.items ≡ out.old.items ++ text_of_figures_of loan figures.now) }
    ensures kept { OnErr result (Keeps out.old.items out.new.items) }
{
    push_year(out, loan, figures.from)?;
    push_found(out, figures)?;
    push_parts(out, figures)?;
    push_unsigned_field(out, b"pay", figures.base)?;
    push_bytes(out, b"\n")
}

/// Appends what a line begins with that speaks of a loan's year.
#[tactic(auto, using(serv_line::proofs::KeepLemmas::keeps))]
fn push_year(out: &mut Vec<u8>, loan: u32, from: Month) -> Result<(), OutOfMemory>
    ensures pushed { OnOk result (out.new.items ≡ out.old.items ++ text_of_year loan from) }
    ensures kept { OnErr result (Keeps out.old.items out.new.items) }
{
    push_numbered(out, b"escrow ", loan)?;
    push_bytes(out, b" from ")?;
    push_bytes(out, &write_month(from))
}

/// Appends the months of a year.
#[tactic(auto, using(serv_line::proofs::KeepLemmas::keeps))]
fn push_months(out: &mut Vec<u8>, from: Month, analysis: &Analysis) -> Result<(), OutOfMemory>
    requires year { HasYear from }
    ensures pushed { OnOk result (out.new.items ≡ out.old.items
        ++ flat_map (text_of_month_of from analysis.now) months) }
    ensures kept { OnErr result (Keeps out.old.items out.new.items) }
{
    for place in 0..12 {
        push_month(out, from, analysis, place)?;
    }
    Ok(())
}

/// Appends the month at that place of a year, from 0.
#[tactic(auto, using(serv_line::proofs::KeepLemmas::keeps), unfolding(crate::specs::EscrowText::text_of_month_of))]
fn push_month(
    out: &mut Vec<u8>,
    from: Month,
    analysis: &Analysis,
    place: u32,
) -> Result<(), OutOfMemory>
    requires year { HasYear from }
    requires place { place < 12 }
    ensures pushed { OnOk result (out.new.items ≡ out.old.items
        ++ text_of_month_of from analysis.now (place + 1)) }
    ensures kept { OnErr result (Keeps out.old.items out.new.items) }
{
    push_bytes(out, b"month ")?;
    push_bytes(out, &write_month(add_months(from, place)))?;
    push_balances(out, analysis, place as usize)?;
    push_bytes(out, b"\n")
}

/// Appends what the month at that place pays out, and its balances.
#[tactic(auto, using(serv_line::proofs::KeepLemmas::keeps), unfolding(crate::specs::EscrowText::text_of_balances_in))]
fn push_balances(out: &mut Vec<u8>, analysis: &Analysis, place: usize) -> Result<(), OutOfMemory>
    requires { place < 12 }
    ensures pushed { OnOk result (out.new.items ≡ out.old.items
        ++ text_of_balances_in analysis.now (place + 1)) }
    ensures kept { OnErr result (Keeps out.old.items out.new.items) }
{
    push_paid(out, analysis, place)?;
    push_signed_field(out, b"trial", trial_in(analysis, place))?;
    push_signed_field(out, b"target", target_in(analysis, place))
}

/// The trial balance of the month at that place.
#[tactic(auto, using(crate::proofs::PaidLemmas::next_trial))]
fn trial_in(analysis: &Analysis, place: usize) -> Cents
    requires { place < 12 }
    ensures { result ≡ trial_at analysis.now (place + 1) }
{
    analysis.trial[place]
}

/// The target balance of the month at that place.
#[tactic(auto, using(crate::proofs::PaidLemmas::next_target))]
fn target_in(analysis: &Analysis, place: usize) -> Cents
    requires { place < 12 }
    ensures { result ≡ target_at analysis.now (place + 1) }
{
    analysis.target[place]
}

/// Appends what the month at that place pays out.
#[tactic(auto, using(serv_line::proofs::KeepLemmas::keeps), unfolding(serv_line::specs::Replies::signed_field))]
fn push_paid(out: &mut Vec<u8>, analysis: &Analysis, place: usize) -> Result<(), OutOfMemory>
    requires { place < 12 }
    ensures pushed { OnOk result (out.new.items ≡ out.old.items
        ++ signed_field (codes "paid") (paid_in analysis.now (place + 1))) }
    ensures kept { OnErr result (Keeps out.old.items out.new.items) }
{
    push_bytes(out, b" paid ")?;
    push_signed(out, paid(analysis, place))
}

/// What the month at that place pays out: the base, and what the trial balance fell by.
#[tactic(auto, using(std::proofs::lemmas::Int::ints))]
fn paid(analysis: &Analysis, place: usize) -> i128
    requires { place < 12 }
    ensures { result ≡ paid_in analysis.now (place + 1) }
{
    i128::from(analysis.base) + before(analysis, place) - i128::from(analysis.trial[place])
}

/// The trial balance before the month at that place; 0 before the first.
fn before(analysis: &Analysis, place: usize) -> i128
    requires { place < 12 }
    ensures value { result ≡ trial_at analysis.now place }
    ensures fits { FitsSigned w64 result }
{
    if place == 0 {
        return 0;
    }
    i128::from(analysis.trial[place - 1])
}
