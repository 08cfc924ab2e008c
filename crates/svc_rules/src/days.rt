//! Why the business day is not set.

ghost use Rattle.std.specs.Prelude.{◌≡◌, nat_le, [], ◌∷◌};
ghost use Rattle.svc_types.specs.declared.replies.Refusal.TheVariants.{DayNotLater};
ghost use Rattle.svc_world.specs.Refusals as rule;

use crate::state::State;
use svc_base::Day;
use svc_replay::LoanBooks;
use svc_types::Refusal;

/// Why the business day is not set: `DayNotLater`, it is not after the present one.
pub(crate) fn refuse_day<B: LoanBooks>(state: &State<B>, day: Day) -> Option<Refusal>
    ensures { result ≡ rule.first_of (rule.case (nat_le day state.now.today) (DayNotLater state.now.today) ∷ []) }
{
    if day <= state.today {
        return Some(Refusal::DayNotLater(state.today));
    }
    None
}
