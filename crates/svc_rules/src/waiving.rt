//! Why late charges are not waived.

ghost use Rattle.std.specs.Prelude.{◌≡◌, [], ◌∷◌};
ghost use Rattle.svc_world.specs.Refusals as rule;
ghost use Rattle.svc_rules.specs.State.{world_of};

use crate::entries::{refuse_adjustments, refuse_present};
use crate::state::State;
use svc_base::{Cents, month_of};
use svc_loan::Loan;
use svc_replay::LoanBooks;
use svc_types::Refusal;

/// Why a waiver is refused, beside the rules of each entry of the business day: `OverWaiver`, it is more than the late
/// charges that are owed.
pub(crate) fn refuse_waive<B: LoanBooks>(
    state: &State<B>,
    loan: &Loan<B>,
    cents: Cents,
) -> Option<Refusal>
    ensures { result ≡ rule.first_of (rule.present_cases
        (world_of state.now.today state.now.loans state.now.seals) cents (rule.over_waiver cents) loan.now.held) }
{
    if let Some(why) = refuse_present(loan, cents) {
        return Some(why);
    }
    if let Some(why) = refuse_over_waiver(loan, cents) {
        return Some(why);
    }
    refuse_adjustments(state, month_of(state.today))
}

/// Why an amount is more than the late charges that are owed.
fn refuse_over_waiver<B: LoanBooks>(loan: &Loan<B>, cents: Cents) -> Option<Refusal>
    ensures { result ≡ rule.first_of (rule.over_waiver cents loan.now.held ∷ []) }
{
    let owed = loan.now().late_owed;
    if owed < cents {
        return Some(Refusal::OverWaiver(owed));
    }
    None
}
