//! Confirming a statement: how it differs from the books.

ghost use Rattle.std.specs.Prelude.{◌≡◌, ◌≤◌, ◌++◌, ◌∷◌, ℕ, List, IfOk, IfErr, OnOk};
ghost use Rattle.std.specs.List.{AllPairs};
ghost use Rattle.svc_base.specs.Text.{text_of_number};
ghost use Rattle.serv_line.specs.Replies.{ended};
ghost use Rattle.svc_world.specs.World.{world};
ghost use Rattle.servicing_transfer.specs.declared.statement_line.StatementLine as lines;
ghost use Rattle.servicing_transfer.specs.Stated.{IsConfirmFault, IsStatement, rises};
ghost use Rattle.servicing_transfer.specs.Confirmations as rule;
ghost use Rattle.servicing_transfer.specs.Confirmations.{IsConfirmation, text_of_differences};
ghost use Rattle.servicing_transfer.specs.Differences as walk;
ghost use Rattle.servicing_transfer.specs.Differences.{first_for, left_after, lines_about};

use crate::confirm_fault::ConfirmFault;
use crate::reading::{Statement, read_statement};
use crate::statement_line::StatementLine;
use crate::stating::core_lines;
use serv_line::{push_bytes, push_number};
use std::alloc::Global;
use std::sync::ledger::Ledger;
use svc_base::{Day, OutOfMemory, Steps};
use svc_core::Core;
use svc_replay::LoanBooks;

/// The least loan of two lists that rise.
fn least_loan(text: &[StatementLine], books: &[StatementLine]) -> Option<u32>
    ensures { result ≡ walk.least_loan text.now books.now }
{
    match (text.first(), books.first()) {
        (None, None) => None,
        (Some(line), None) | (None, Some(line)) => Some(line.loan),
        (Some(line), Some(other)) => Some(line.loan.min(other.loan)),
    }
}

/// The first line where it is that of a loan, and what is left after it.
fn split_loan(lines: &[StatementLine], loan: u32) -> (Option<StatementLine>, &[StatementLine])
    ensures first { result.0 ≡ first_for loan lines.now }
    ensures left { result.1.now ≡ left_after loan lines.now }
{
    match lines.split_first() {
        Some((line, rest)) if line.loan == loan => (Some(*line), rest),
        _ => (None, lines),
    }
}

/// How a loan of a statement stands to the books.
fn word_for(stated: Option<StatementLine>, held: Option<StatementLine>) -> &'static [u8]
    ensures { result.now ≡ rule.word_for stated held }
{
    match (stated, held) {
        (Some(line), Some(other)) => word_of_same(line == other),
        (Some(_), None) => b"missing",
        (None, Some(_)) => b"extra",
        (None, None) => b"",
    }
}

/// Whether both say the same.
fn word_of_same(same: bool) -> &'static [u8]
    ensures { result.now ≡ rule.word_of_same same }
{
    if same { b"same" } else { b"differs" }
}

/// Appends the line for a loan.
fn push_line_about(out: &mut Vec<u8>, word: &[u8], loan: u32) -> Result<(), OutOfMemory>
    ensures { OnOk result (out.new.items ≡ out.old.items ++ ended (word.now ++ (32 ∷ text_of_number loan))) }
{
    push_bytes(out, word)?;
    push_bytes(out, b" ")?;
    push_number(out, loan)?;
    push_bytes(out, b"\n")
}

/// Appends a line for each loan of two lists that rise.
fn push_loans(
    out: &mut Vec<u8>,
    text: &[StatementLine],
    books: &[StatementLine],
) -> Result<(), OutOfMemory>
    requires text { AllPairs rises text.now }
    requires books { AllPairs rises books.now }
    ensures { OnOk result (out.new.items ≡ out.old.items ++ lines_about text.now books.now) }
{
    let (mut text, mut books) = (text, books);
    while let Some(loan) = least_loan(text, books) {
        let (stated, more_text) = split_loan(text, loan);
        let (held, more_books) = split_loan(books, loan);
        push_line_about(out, word_for(stated, held), loan)?;
        text = more_text;
        books = more_books;
    }
    Ok(())
}

/// How a statement differs from what the books say of each loan on a day.
fn differences(
    alloc: Global,
    statement: &Statement,
    today: Day,
    books: &[StatementLine],
) -> Result<Vec<u8>, OutOfMemory>
    requires text { AllPairs rises statement.now.lines.items }
    requires books { AllPairs rises books.now }
    ensures { IfOk result (λ v. v.items
        ≡ text_of_differences statement.now.day statement.now.lines.items today books.now) }
{
    let mut out = Vec::new(alloc);
    push_bytes(&mut out, b"day ")?;
    push_bytes(&mut out, word_of_same(statement.day == today))?;
    push_bytes(&mut out, b"\n")?;
    push_loans(&mut out, &statement.lines, books)?;
    push_bytes(&mut out, b"end\n")?;
    Ok(out)
}

/// How a statement differs from the books: whether its day is the business day, and for each loan of the text or
/// of the books, by rising number, whether both say the same of it, or it is missing in the books, or it is extra
/// there. Errs with the text's first line that does not fit, where it is no statement, and where memory is short.
pub fn confirm<B: LoanBooks, L: Ledger>(
    alloc: Global,
    core: &Core<B>,
    text: &[u8],
    steps: &mut Steps<L>,
) -> Result<Vec<u8>, ConfirmFault>
    ensures text { IfOk result (λ v. IsConfirmation (world core.now.history) text.now v.items) }
    ensures fault { IfErr result (IsConfirmFault text.now) }
    ensures accepted { (day : ℕ) (stated : List lines.StatementLine) → IsStatement text.now day stated →
        IfErr result (λ why. why ≡ ConfirmFault.OutOfMemory) }
    ensures steps { steps.new ≤ steps.old }
{
    core.history_holds();
    let statement = read_statement(alloc, text)?;
    let books = core_lines(alloc, core, steps)?;
    let written = differences(alloc, &statement, core.today(), &books)?;
    Ok(written)
}
