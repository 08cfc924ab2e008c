//! The statement of all loans.

ghost use Rattle.std.specs.Prelude.{◌≡◌, ◌++◌, ◌≤◌, ℕ, is_some, map, nat_eq, true, IfOk, OnOk};
ghost use Rattle.std.specs.HashMap.{get};
ghost use Rattle.std.specs.List.{flat_map};
ghost use Rattle.svc_world.specs.World.{world};
ghost use Rattle.svc_world.specs.Held.{find_loan};
ghost use Rattle.svc_world.specs.Custody.{custody_of, rows_in};
ghost use Rattle.serv_line.specs.Replies.{ended};
ghost use Rattle.servicing_transfer.specs.Numbers.{loans_of};
ghost use Rattle.servicing_transfer.specs.RowSums.{kept_sums, or_none};
ghost use Rattle.servicing_transfer.specs.StatementTexts.{heading_line, loan_line, stated_loans, text_of_statement, total_line};
ghost use Rattle.servicing_transfer.specs.StatementAnswers.{IsBooks, IsCustodial, IsCustodyOf, IsLineOf, line_found};

use crate::loan_numbers::loan_numbers;
use crate::row_sums::{RowSums, row_sums, sums_of};
use crate::statement_line::{StatedCents, StatementLine, push_cents_field, push_loan_line};
use serv_line::{push_bytes, push_number_field};
use std::alloc::Global;
use std::collections::HashMap;
use std::sync::ledger::Ledger;
use svc_base::{Day, OutOfMemory, Steps, write_day};
use svc_core::{Core, CoreFault};
use svc_replay::LoanBooks;
use svc_types::Query;
use svc_world::{Answer, Custody};

/// What the statement says of a loan, from the answer on its books and the sums of its rows.
fn line_from(answer: &Answer, sums: RowSums) -> StatementLine
    requires { IsBooks answer.now }
    ensures { IsLineOf answer.now sums result }
{
    match answer {
        Answer::Books {
            loan,
            books,
            next,
            ..
        } => StatementLine {
            loan: *loan,
            upb: StatedCents::from(books.upb),
            next: *next,
            escrow: StatedCents::from(books.escrow),
            suspense: StatedCents::from(books.suspense),
            late: StatedCents::from(books.late_owed),
            escrow_advance: StatedCents::from(sums.escrow_advance),
            held: StatedCents::from(sums.held),
            pi_advance: StatedCents::from(sums.pi_advance),
        },
        _ => unreachable!(),
    }
}

/// What the statement says of a loan that is there.
fn line_of<B: LoanBooks, L: Ledger>(
    core: &Core<B>,
    loan: u32,
    sums: RowSums,
    steps: &mut Steps<L>,
) -> Result<StatementLine, OutOfMemory>
    requires { is_some (find_loan loan (world core.now.history).loans) ≡ true }
    ensures line { IfOk result (line_found (find_loan loan (world core.now.history).loans) sums) }
    ensures steps { steps.new ≤ steps.old }
{
    match core.ask(&Query::Books(loan), steps) {
        Ok(answer) => Ok(line_from(&answer, sums)),
        Err(CoreFault::Refused(_)) => unreachable!(),
        Err(CoreFault::OutOfMemory) => Err(OutOfMemory),
    }
}

/// A line for each loan, from the sums of all rows.
fn lines_of<B: LoanBooks, L: Ledger>(
    alloc: Global,
    core: &Core<B>,
    loans: &[u32],
    sums: &HashMap<u32, RowSums>,
    steps: &mut Steps<L>,
) -> Result<Vec<StatementLine>, OutOfMemory>
    requires loans { loans.now ≡ loans_of core.now.history }
    requires sums { (id : ℕ) → or_none (get nat_eq sums.now id) ≡ kept_sums id (rows_in core.now.history) }
    ensures lines { IfOk result (λ v. v.items ≡ stated_loans (world core.now.history)) }
    ensures steps { steps.new ≤ steps.old }
{
    core.history_holds();
    let mut lines = Vec::new(alloc);
    for loan in loans {
        let line = line_of(core, *loan, sums_of(sums, *loan), steps)?;
        lines.push(line)?;
    }
    Ok(lines)
}

/// What the statement says of each loan, by rising number.
pub(crate) fn core_lines<B: LoanBooks, L: Ledger>(
    alloc: Global,
    core: &Core<B>,
    steps: &mut Steps<L>,
) -> Result<Vec<StatementLine>, OutOfMemory>
    ensures lines { IfOk result (λ v. v.items ≡ stated_loans (world core.now.history)) }
    ensures steps { steps.new ≤ steps.old }
{
    let loans = loan_numbers(alloc, core)?;
    let sums = row_sums(alloc, core)?;
    lines_of(alloc, core, &loans, &sums, steps)
}

/// What an answer says that both custodial accounts hold.
fn custody_from(answer: &Answer) -> Custody
    requires { IsCustodial answer.now }
    ensures { IsCustodyOf answer.now result }
{
    match answer {
        Answer::Custodial(custody) => *custody,
        _ => unreachable!(),
    }
}

/// What both custodial accounts hold.
fn custody<B: LoanBooks, L: Ledger>(
    core: &Core<B>,
    steps: &mut Steps<L>,
) -> Result<Custody, OutOfMemory>
    ensures custody { IfOk result (λ c. c ≡ custody_of (world core.now.history)) }
    ensures steps { steps.new ≤ steps.old }
{
    match core.ask(&Query::Custodial, steps) {
        Ok(answer) => Ok(custody_from(&answer)),
        Err(CoreFault::Refused(_)) => unreachable!(),
        Err(CoreFault::OutOfMemory) => Err(OutOfMemory),
    }
}

/// Appends the first line: the business day, and how many loans there are.
fn push_heading(out: &mut Vec<u8>, today: Day, loans: u32) -> Result<(), OutOfMemory>
    ensures { OnOk result (out.new.items ≡ out.old.items ++ ended (heading_line today loans)) }
{
    push_bytes(out, b"statement ")?;
    push_bytes(out, &write_day(today))?;
    push_number_field(out, b"loans", loans)?;
    push_bytes(out, b"\n")
}

/// Appends a line for each loan.
fn push_lines(out: &mut Vec<u8>, lines: &[StatementLine]) -> Result<(), OutOfMemory>
    ensures { OnOk result (out.new.items ≡ out.old.items ++ flat_map ended (map loan_line lines.now)) }
{
    for line in lines {
        push_loan_line(out, line)?;
    }
    Ok(())
}

/// Appends what both custodial accounts hold.
pub(crate) fn push_total(
    out: &mut Vec<u8>,
    t: StatedCents,
    p: StatedCents,
) -> Result<(), OutOfMemory>
    ensures { OnOk result (out.new.items ≡ out.old.items ++ total_line t p) }
{
    push_bytes(out, b"total")?;
    push_cents_field(out, b"T", t)?;
    push_cents_field(out, b"P", p)
}

/// The statement of all loans: a line for each, with what is held for it and what was advanced, and what both
/// custodial accounts hold. Errs only where memory is short.
pub fn statement<B: LoanBooks, L: Ledger>(
    alloc: Global,
    core: &Core<B>,
    steps: &mut Steps<L>,
) -> Result<Vec<u8>, OutOfMemory>
    ensures text { IfOk result (λ v. v.items ≡ text_of_statement (world core.now.history)) }
    ensures steps { steps.new ≤ steps.old }
{
    core.history_holds();
    let lines = core_lines(alloc, core, steps)?;
    let custody = custody(core, steps)?;
    let mut out = Vec::new(alloc);
    push_heading(&mut out, core.today(), lines.len() as u32)?;
    push_lines(&mut out, &lines)?;
    push_total(
        &mut out,
        StatedCents::from(custody.t),
        StatedCents::from(custody.p),
    )?;
    push_bytes(&mut out, b"\nend\n")?;
    Ok(out)
}
