//! Why an escrow line is not set, and why it is not taken out.

ghost use Rattle.std.specs.Prelude.{◌≡◌, [], ◌∷◌};
ghost use Rattle.svc_world.specs.Refusals as rule;

use crate::limits::MOST_LINES;
use escrow_lines::Line;
use svc_loan::Loan;
use svc_replay::LoanBooks;
use svc_types::{Limit, Refusal};

/// Why an escrow line is not set: `Full` (of 16 lines, where its number is new), `BadLine`.
pub(crate) fn refuse_line<B: LoanBooks>(loan: &Loan<B>, line: &Line) -> Option<Refusal>
    ensures { result ≡ rule.first_of (rule.line_cases line.now loan.now.held) }
{
    if !has_line(loan, line.id) && loan.lines().len() >= MOST_LINES {
        return Some(Refusal::Full(Limit::Lines));
    }
    match line.fault() {
        Some(why) => Some(Refusal::BadLine(why)),
        None => None,
    }
}

/// Why an escrow line is not taken out: `NoSuchLine`.
pub(crate) fn refuse_drop<B: LoanBooks>(loan: &Loan<B>, line: u32) -> Option<Refusal>
    ensures { result ≡ rule.first_of (rule.no_such_line line loan.now.held ∷ []) }
{
    if !has_line(loan, line) {
        return Some(Refusal::NoSuchLine);
    }
    None
}

/// Whether a loan has a line with that id.
pub(crate) fn has_line<B: LoanBooks>(loan: &Loan<B>, line: u32) -> bool
    ensures { result ≡ rule.has_line line loan.now.held }
{
    loan.lines().find(line).is_some()
}
