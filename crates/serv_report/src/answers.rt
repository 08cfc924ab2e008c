//! The text of an answer to a query.

ghost use Rattle.std.specs.Prelude.{◌≡◌, ◌++◌, IfOk, OnErr, OnOk};
ghost use Rattle.serv_line.specs.Pushed.{Keeps};
ghost use Rattle.serv_report.specs.AnswerTexts.{IsSpellable, text_of_answer};

use crate::accounts::{append_custody, append_rows};
use crate::analyses::append_escrow;
use crate::books::{append_books, append_payoff};
use crate::history::append_history;
use crate::loans::{append_arrears, append_loan, append_quote};
use crate::reports::{append_report, append_trial};
use crate::standing::{append_aging, append_posting, append_status};
use serv_line::undone;
use std::alloc::Global;
use svc_base::OutOfMemory;
use svc_world::Answer;

/// The text of an answer to a query. Errs only where memory is short.
pub fn write_answer(alloc: Global, answer: &Answer) -> Result<Vec<u8>, OutOfMemory>
    requires spellable { IsSpellable answer.now }
    ensures { IfOk result (λ text. text.items ≡ text_of_answer answer.now) }
{
    let mut out = Vec::new(alloc);
    append_answer(&mut out, answer)?;
    Ok(out)
}

/// Appends the text of an answer. Where memory is short `out` is as it was.
pub fn push_answer(out: &mut Vec<u8>, answer: &Answer) -> Result<(), OutOfMemory>
    requires spellable { IsSpellable answer.now }
    ensures pushed { OnOk result (out.new.items ≡ out.old.items ++ text_of_answer answer.now) }
    ensures kept { OnErr result (out.new.items ≡ out.old.items) }
{
    let start = out.len();
    let pushed = append_answer(out, answer);
    undone(out, start, pushed)
}

/// Appends the text of an answer.
fn append_answer(out: &mut Vec<u8>, answer: &Answer) -> Result<(), OutOfMemory>
    requires spellable { IsSpellable answer.now }
    ensures pushed { OnOk result (out.new.items ≡ out.old.items ++ text_of_answer answer.now) }
    ensures kept { OnErr result (Keeps out.old.items out.new.items) }
{
    match answer {
        Answer::Books {
            loan,
            books,
            next,
            pay,
        } => append_books(out, *loan, books, *next, *pay),
        Answer::Payoff { loan, day, cents } => append_payoff(out, *loan, *day, *cents),
        Answer::Escrow {
            loan,
            figures,
            analysis,
        } => append_escrow(out, *loan, figures, analysis),
        Answer::Report(report) => append_report(out, report),
        Answer::Trial(report) => append_trial(out, report),
        Answer::Custodial(custody) => append_custody(out, custody),
        Answer::Rows { number, rows } => append_rows(out, *number, rows.slice()),
        Answer::Loan {
            loan,
            terms,
            lines,
            types,
        } => append_loan(out, *loan, terms, lines.slice(), types.slice()),
        Answer::History {
            loan,
            day,
            lines,
            reversed,
        } => append_history(out, *loan, *day, lines.slice(), reversed.slice()),
        Answer::Quote {
            loan,
            day,
            cents,
            perday,
        } => append_quote(out, *loan, *day, *cents, *perday),
        Answer::Arrears { loan, day, arrears } => append_arrears(out, *loan, *day, arrears),
        Answer::Aging { day, late, counts } => append_aging(out, *day, late.slice(), counts),
        Answer::Status(status) => append_status(out, status),
        Answer::Command {
            key,
            command,
            reply,
        } => append_posting(out, key, command, reply),
    }
}
