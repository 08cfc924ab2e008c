//! The totals of a report's lines, in 128 bits.

ghost use Rattle.std.specs.Prelude.{◌≡◌, ◌++◌, ◌^◌, ◌-◌, ◌≤ℤ◌, neg_ℤ, pos, OnErr, OnOk};
ghost use Rattle.svc_base.specs.Sums.{total_by};
ghost use Rattle.serv_line.specs.Pushed.{Keeps};
ghost use Rattle.serv_line.specs.Replies.{amount_field, signed_field};
ghost use Rattle.serv_report.specs.Columns.{amount_in};

use crate::words::push_word;
use period_adjust::ReportLine;
use serv_line::push_bytes;
use svc_base::{OutOfMemory, push_signed};

/// What is added up of a report's lines.
#[derive(Clone, Copy)]
pub(crate) enum Column {
    /// What is sent: what is due, with the adjustments.
    Interest,
    Principal,
    /// The loan's balance, and the investor's.
    Upb,
    Balance,
}

/// Appends a name and a total that may be below zero.
#[tactic(auto, using(serv_line::proofs::KeepLemmas::keeps), unfolding(serv_line::specs::Replies::signed_field))]
pub(crate) fn push_signed_total(
    out: &mut Vec<u8>,
    name: &[u8],
    lines: &[ReportLine],
    column: Column,
) -> Result<(), OutOfMemory>
    ensures pushed { OnOk result (out.new.items ≡ out.old.items
        ++ signed_field name.now (total_by (amount_in column) lines.now)) }
    ensures kept { OnErr result (Keeps out.old.items out.new.items) }
{
    push_word(out, name)?;
    push_bytes(out, b" ")?;
    push_signed(out, total(lines, column))
}

/// Appends a name and a total that is not below zero.
#[tactic(auto, using(std::proofs::lemmas::Int::ints, serv_line::proofs::KeepLemmas::keeps), unfolding(serv_line::specs::Replies::amount_field, svc_base::specs::Text::text_of_signed))]
pub(crate) fn push_amount_total(
    out: &mut Vec<u8>,
    name: &[u8],
    lines: &[ReportLine],
    column: Column,
) -> Result<(), OutOfMemory>
    requires { pos 0 ≤ℤ total_by (amount_in column) lines.now }
    ensures pushed { OnOk result (out.new.items ≡ out.old.items
        ++ amount_field name.now (total_by (amount_in column) lines.now)) }
    ensures kept { OnErr result (Keeps out.old.items out.new.items) }
{
    push_word(out, name)?;
    push_bytes(out, b" ")?;
    push_signed(out, total(lines, column).abs())
}

/// The total of all lines.
#[tactic(auto, using(std::proofs::lemmas::Int::ints))]
fn total(lines: &[ReportLine], column: Column) -> i128
    ensures value { result ≡ total_by (amount_in column) lines.now }
    ensures low { neg_ℤ (pos (2 ^ 127 - 1)) ≤ℤ result }
{
    let mut total = 0;
    for line in lines {
        total += amount(line, column);
    }
    total
}

/// What a line adds to a total.
#[tactic(auto, using(std::proofs::lemmas::Int::ints))]
fn amount(line: &ReportLine, column: Column) -> i128
    ensures value { result ≡ amount_in column line.now }
    ensures low { neg_ℤ (pos (2 ^ 64)) ≤ℤ result }
    ensures high { result ≤ℤ pos (2 ^ 64) }
{
    match column {
        Column::Interest => i128::from(line.interest) + i128::from(line.adj_interest),
        Column::Principal => i128::from(line.principal) + i128::from(line.adj_principal),
        Column::Upb => i128::from(line.upb),
        Column::Balance => i128::from(line.balance),
    }
}
