//! The lines of a month's report, from the loans.

ghost use Rattle.std.specs.Prelude.{◌≡◌, ◌+◌, ◌<◌, ◌≤◌, ◌||◌, [], ◌∷◌, ◌++◌, not, length};
ghost use Rattle.std.specs.Prelude.{vec_len, vec_capacity};
ghost use Rattle.std.specs.List.{All};
ghost use Rattle.svc_base.specs.Calendar.{months_begin};
ghost use Rattle.svc_world.specs.Held.{boarded_month};
ghost use Rattle.svc_world.specs.Reports as rule;
ghost use Rattle.svc_loan.specs.Loans.{held_in};
ghost use Rattle.svc_core.specs.Reported.{IsClosedFor};

use period_adjust::{ReportLine, Seals};
use remit_types::{Carry, MonthDue};
use svc_base::{Month, month_of};
use svc_loan::{Loan, Loans};
use svc_replay::LoanBooks;

/// Fills a list anew with the lines of a month: one for each loan that is reported, by rising number, still
/// without the sums of its pending adjustments.
pub(crate) fn fill_lines<B: LoanBooks>(
    lines: &mut Vec<ReportLine>,
    loans: &Loans<B>,
    seals: &Seals,
    month: Month,
)
    requires month { months_begin < month }
    requires closed { All (IsClosedFor month) loans.now.loans }
    requires room { length loans.now.loans ≤ vec_capacity lines.old }
    ensures { lines.new.items ≡ rule.lines_of seals.now.reporting.pending month (held_in loans.now.loans) }
{
    lines.clear();
    for i in 0..loans.len() {
        add_line(lines, loans.at(i), seals, month);
    }
}

/// Adds the line of a loan, where it is reported.
fn add_line<B: LoanBooks>(lines: &mut Vec<ReportLine>, loan: &Loan<B>, seals: &Seals, month: Month)
    requires month { months_begin < month }
    requires closed { IsClosedFor month loan.now }
    requires room { vec_len lines.old < vec_capacity lines.old }
    ensures lines { lines.new.items ≡ lines.old.items
        ++ rule.lines_of seals.now.reporting.pending month (loan.now.held ∷ []) }
    ensures capacity { vec_capacity lines.new ≡ vec_capacity lines.old }
{
    if is_reported(loan, seals, month) {
        lines.push_reserved(line_of(loan, month));
    }
}

/// Whether a loan has a line for a month.
fn is_reported<B: LoanBooks>(loan: &Loan<B>, seals: &Seals, month: Month) -> bool
    requires month { months_begin < month }
    requires closed { IsClosedFor month loan.now }
    ensures { result ≡ rule.is_reported seals.now.reporting.pending month loan.now.held }
{
    if month.number() < month_of(loan.terms().boarded).number() {
        return false;
    }
    let before = loan.carry_at(month.previous());
    let due = loan.due_at(month);
    has_line(&before, &due, seals.is_pending(loan.id()))
}

/// Whether the month before left a balance, something is due, or an adjustment is pending.
#[tactic(auto, using(std::proofs::lemmas::Int::ints))]
fn has_line(before: &Carry, due: &MonthDue, adjusted: bool) -> bool
    ensures { result ≡ (not (rule.is_zero before.now.upb) || not (rule.is_zero before.now.balance)
        || not (rule.is_zero due.now.interest) || not (rule.is_zero due.now.principal) || adjusted) }
{
    before.upb != 0 || before.balance != 0 || due.interest != 0 || due.principal != 0 || adjusted
}

/// The line of a loan for a month that is closed.
fn line_of<B: LoanBooks>(loan: &Loan<B>, month: Month) -> ReportLine
    requires since { boarded_month loan.now.held ≤ month }
    requires closed { month < boarded_month loan.now.held + loan.now.closed }
    ensures { result ≡ rule.line_of month loan.now.held }
{
    let due = loan.due_at(month);
    let carry = loan.carry_at(month);
    ReportLine {
        loan: loan.id(),
        interest: due.interest,
        principal: due.principal,
        adj_interest: 0,
        adj_principal: 0,
        upb: carry.upb,
        balance: carry.balance,
    }
}
