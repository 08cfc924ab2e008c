//! Why an entry is not reversed.

ghost use Rattle.std.specs.Prelude.{◌≡◌};
ghost use Rattle.svc_world.specs.Refusals as rule;
ghost use Rattle.svc_rules.specs.State.{world_of};

use crate::entries::refuse_adjustments;
use crate::state::State;
use svc_base::month_of;
use svc_loan::Loan;
use svc_replay::LoanBooks;
use svc_types::{Act, Refusal};

/// Why an entry is not reversed: `NoSuchEntry`, `AlreadyReversed`, `NotReversible` (it is an escrow analysis),
/// `AdjustmentsFull`.
pub(crate) fn refuse_reverse<B: LoanBooks>(
    state: &State<B>,
    loan: &Loan<B>,
    number: u32,
) -> Option<Refusal>
    ensures { result ≡ rule.first_of (rule.reversal_cases
        (world_of state.now.today state.now.loans state.now.seals) number loan.now.held) }
{
    let Some(entry) = loan.entry(number) else {
        return Some(Refusal::NoSuchEntry);
    };
    if let Some(reverser) = loan.reversed_by(number) {
        return Some(Refusal::AlreadyReversed(reverser));
    }
    if let Act::Analyse(_) = entry.act {
        return Some(Refusal::NotReversible);
    }
    refuse_adjustments(state, month_of(entry.day))
}
