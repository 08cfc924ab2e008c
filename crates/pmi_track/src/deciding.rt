//! What has become of the insurance of a loan.

ghost use Rattle.std.specs.Prelude.{◌≡◌, ◌+◌, ◌≤◌, ℕ, None, Some, IfErr, IfOk, OnOk};
ghost use Rattle.svc_spec.specs.Accounts.{Account};
ghost use Rattle.svc_spec.specs.Months.{cost_of_month};
ghost use Rattle.svc_world.specs.World.{world};
ghost use Rattle.svc_core.specs.Core.{IsQueryFault};
ghost use Rattle.pmi_track.specs.Boardings.{boarded_terms};
ghost use Rattle.pmi_track.specs.Insurance as insurance;
ghost use Rattle.pmi_track.specs.Insured as insured_loan;

use crate::boarded::terms_of;
use crate::ending::automatic_end;
use crate::insured_loan::InsuredLoan;
use crate::pmi_outcome::{Cause, Denial, PmiOutcome};
use crate::request::denial_of;
use std::sync::ledger::Ledger;
use svc_base::{Day, Steps};
use svc_core::{Core, CoreFault};
use svc_replay::LoanBooks;
use svc_types::{Refusal, Terms};

/// What has become of the mortgage insurance of a loan by the business day (12 U.S.C. 4902, in this product's
/// profile). It is refused where the loan is not there, and where the day of the request is after the business
/// day or before the boarded day; beside that it fails for want of memory alone.
pub fn outcome<B: LoanBooks, L: Ledger>(
    core: &Core<B>,
    insured: &InsuredLoan,
    steps: &mut Steps<L>,
) -> Result<PmiOutcome, CoreFault>
    ensures outcome { IfOk result
        (λ o. insured_loan.outcome_in (world core.now.history) insured.now ≡ Some o) }
    ensures told { OnOk result (insured_loan.insurance_refusal (world core.now.history) insured.now ≡ None) }
    ensures refused { IfErr result
        (IsQueryFault (insured_loan.insurance_refusal (world core.now.history) insured.now)) }
    ensures steps { steps.new ≤ steps.old
        + insured_loan.outcome_cost B.cost (world core.now.history) insured.now }
{
    let terms = terms_of(core, insured.loan);
    outcome_with(core, insured, &terms, steps)
}

/// The same, where the terms with which the loan was boarded are known.
pub(crate) fn outcome_with<B: LoanBooks, L: Ledger>(
    core: &Core<B>,
    insured: &InsuredLoan,
    terms: &Option<Terms>,
    steps: &mut Steps<L>,
) -> Result<PmiOutcome, CoreFault>
    requires terms { terms.now ≡ boarded_terms insured.now.loan core.now.history }
    ensures outcome { IfOk result
        (λ o. insured_loan.outcome_in (world core.now.history) insured.now ≡ Some o) }
    ensures told { OnOk result (insured_loan.insurance_refusal (world core.now.history) insured.now ≡ None) }
    ensures refused { IfErr result
        (IsQueryFault (insured_loan.insurance_refusal (world core.now.history) insured.now)) }
    ensures steps { steps.new ≤ steps.old
        + insured_loan.outcome_cost B.cost (world core.now.history) insured.now }
{
    core.history_holds();
    match terms {
        Some(terms) => {
            let denial = denial_of(core, insured, terms, steps)?;
            let automatic = automatic_end(core, insured, terms, steps)?;
            Ok(outcome_by(insured.asked, denial, automatic))
        }
        None => Err(CoreFault::Refused(Refusal::NoSuchLoan)),
    }
}

/// What has become of an insurance, from why a request was denied and when it ends by itself.
fn outcome_by(
    asked: Option<Day>,
    denial: Option<Denial>,
    automatic: Option<(Day, Cause)>,
) -> PmiOutcome
    ensures { result ≡ insurance.outcome_by asked denial automatic }
{
    match denial {
        Some(denial) => by_itself(Some(denial), automatic),
        None => match asked {
            Some(day) => at_request(day, automatic),
            None => by_itself(None, automatic),
        },
    }
}

/// The end of an insurance on the day of a request that is granted, where it has not ended by itself by then.
fn at_request(day: Day, automatic: Option<(Day, Cause)>) -> PmiOutcome
    ensures { result ≡ insurance.outcome_by (Some day) None automatic }
{
    match automatic {
        Some((end, cause)) => {
            if end <= day {
                PmiOutcome::Ends(end, cause)
            } else {
                PmiOutcome::Ends(day, Cause::Asked)
            }
        }
        None => PmiOutcome::Ends(day, Cause::Asked),
    }
}

/// The end of an insurance by itself; else it runs, with what was denied.
fn by_itself(denial: Option<Denial>, automatic: Option<(Day, Cause)>) -> PmiOutcome
    ensures { result ≡ insurance.by_itself denial automatic }
{
    match automatic {
        Some((end, cause)) => PmiOutcome::Ends(end, cause),
        None => PmiOutcome::Runs(denial),
    }
}
