//! Why money is not paid out: a bill from escrow, a refund to the borrower.

ghost use Rattle.std.specs.Prelude.{◌≡◌, [], ◌∷◌};
ghost use Rattle.svc_world.specs.Refusals as rule;
ghost use Rattle.svc_rules.specs.State.{world_of};

use crate::entries::{refuse_adjustments, refuse_dated, refuse_present};
use crate::lines::has_line;
use crate::state::State;
use svc_apply::available;
use svc_base::{Cents, Day, month_of};
use svc_loan::Loan;
use svc_replay::LoanBooks;
use svc_types::Refusal;

/// Why a bill is refused, beside the rules of each entry of a day: `NoSuchLine`, the loan has no such escrow line.
pub(crate) fn refuse_disburse<B: LoanBooks>(
    state: &State<B>,
    loan: &Loan<B>,
    day: Day,
    cents: Cents,
    line: u32,
) -> Option<Refusal>
    ensures { result ≡ rule.first_of (rule.dated_cases
        (world_of state.now.today state.now.loans state.now.seals) day cents (rule.no_such_line line) loan.now.held) }
{
    match refuse_dated(state, loan, day, cents) {
        Some(why) => Some(why),
        None if !has_line(loan, line) => Some(Refusal::NoSuchLine),
        None => refuse_adjustments(state, month_of(day)),
    }
}

/// Why a refund is refused, beside the rules of each entry of the business day: `OverRefund`, it is more than what is
/// available.
pub(crate) fn refuse_refund<B: LoanBooks>(
    state: &State<B>,
    loan: &Loan<B>,
    cents: Cents,
) -> Option<Refusal>
    ensures { result ≡ rule.first_of (rule.present_cases
        (world_of state.now.today state.now.loans state.now.seals) cents (rule.over_refund cents) loan.now.held) }
{
    if let Some(why) = refuse_present(loan, cents) {
        return Some(why);
    }
    if let Some(why) = refuse_over_refund(loan, cents) {
        return Some(why);
    }
    refuse_adjustments(state, month_of(state.today))
}

/// Why an amount is more than what may be refunded.
fn refuse_over_refund<B: LoanBooks>(loan: &Loan<B>, cents: Cents) -> Option<Refusal>
    ensures { result ≡ rule.first_of (rule.over_refund cents loan.now.held ∷ []) }
{
    let most = available(loan.now());
    if most < cents {
        return Some(Refusal::OverRefund(most));
    }
    None
}
