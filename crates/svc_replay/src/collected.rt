//! The facts of a month.

ghost use Rattle.std.specs.Prelude.{◌≡◌};
ghost use Rattle.svc_spec.specs.Months as months;
ghost use Rattle.svc_replay.specs.Collected as rule;

use svc_base::Month;
use svc_types::{Collected, MonthFacts};

/// What a month did, by what stood before it and at its end.
pub fn facts_between(month: Month, before: &Collected, after: &Collected) -> MonthFacts
    requires before { rule.AreWithin before.now }
    requires after { rule.AreWithin after.now }
    ensures { result ≡ months.facts_between month before.now after.now }
{
    MonthFacts {
        month,
        upb: after.upb,
        curtailed: after.curtailed - before.curtailed,
        interest: after.interest - before.interest,
        fee: after.fee - before.fee,
        satisfied: after.upb <= 0,
    }
}
