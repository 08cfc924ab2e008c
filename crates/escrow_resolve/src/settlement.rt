//! The faults of a plan, and what a lawful one settles.

ghost use Rattle.std.specs.Prelude.{◌≡◌, ◌^◌, ◌<◌, pos, ◌≤ℤ◌, Some, None, IfOk, IfErr, OnOk};
ghost use Rattle.escrow_resolve.specs.Limits.{IsWithinParts};
ghost use Rattle.escrow_resolve.specs.Parts.{AreParts};
ghost use Rattle.escrow_resolve.specs.Lawful as lawful;
ghost use Rattle.escrow_resolve.specs.Settlement as settlement;

use crate::analysis::Parts;
use svc_base::{Cents, Month};
use svc_types::{EscrowPlan, PartPlan, Plan, PlanFault, PlanPart, Settled, SurplusPlan};

/// Settles an analysis by the plan, or answers the plan's first fault. The parts are judged in the
/// order surplus, shortage, deficiency. A part without a choice takes refund for a surplus, and is
/// left for the two others.
pub fn settle(
    split: &Parts,
    base: Cents,
    current: bool,
    start: Month,
    plan: &Plan,
) -> Result<Settled, PlanFault>
    requires parts { AreParts split.now }
    requires base_low { pos 0 ≤ℤ base }
    requires base_high { base ≤ℤ pos (10 ^ 18) }
    ensures fault { IfErr result (λ fault. lawful.plan_fault split.now base current plan.now ≡ Some fault) }
    ensures lawful { OnOk result (lawful.plan_fault split.now base current plan.now ≡ None) }
    ensures settled { IfOk result (λ it. it ≡ settlement.settled_plan split.now base start plan.now) }
    ensures limits { IfOk result (IsWithinParts split.now) }
{
    let surplus = surplus_fault(split.surplus, current, plan.surplus);
    let short = part_fault(PlanPart::Short, 12, base, split.short, plan.short);
    let deficient = part_fault(
        PlanPart::Deficient,
        2,
        base,
        split.deficient,
        plan.deficient,
    );
    match surplus.or(short).or(deficient) {
        Some(fault) => Err(fault),
        None => Ok(settled_plan(split, base, start, plan)),
    }
}

/// The first fault of what is chosen for a surplus.
fn surplus_fault(surplus: Cents, current: bool, choice: SurplusPlan) -> Option<PlanFault>
    ensures { result ≡ lawful.first_fault (lawful.surplus_rows current surplus choice) }
{
    if choice != SurplusPlan::Unsaid && surplus <= 0 {
        return Some(PlanFault::NothingToPlan(PlanPart::Surplus));
    }
    let keeps_back = match choice {
        SurplusPlan::Unsaid | SurplusPlan::Refund => false,
        SurplusPlan::Credit => surplus >= 5_000,
        SurplusPlan::Retain => true,
    };
    if current && keeps_back {
        return Some(PlanFault::MustRefund);
    }
    None
}

/// The first fault of what is chosen for a shortage or a deficiency, which is spread over at least
/// so many months.
fn part_fault(
    name: PlanPart,
    least: u32,
    base: Cents,
    amount: Cents,
    choice: PartPlan,
) -> Option<PlanFault>
    ensures { result ≡ lawful.first_fault (lawful.part_rows name least base amount choice) }
{
    if choice != PartPlan::Unsaid && amount <= 0 {
        return Some(PlanFault::NothingToPlan(name));
    }
    match choice {
        PartPlan::Spread(months) if months < least => Some(PlanFault::TooFewMonths(months)),
        PartPlan::Spread(months) if months > 60 => Some(PlanFault::TooManyMonths(months)),
        PartPlan::Within30 if amount >= base => Some(PlanFault::MustSpread(name)),
        _ => None,
    }
}

/// What a lawful plan settles.
fn settled_plan(split: &Parts, base: Cents, start: Month, plan: &Plan) -> Settled
    requires parts { AreParts split.now }
    requires short { lawful.IsSpread plan.now.short }
    requires deficient { lawful.IsSpread plan.now.deficient }
    ensures { result ≡ settlement.settled_plan split.now base start plan.now }
{
    Settled {
        plan: EscrowPlan {
            start,
            base,
            credit: credited(plan.surplus, split.surplus),
            short: monthly(plan.short, split.short),
            short_months: months(plan.short),
            deficient: monthly(plan.deficient, split.deficient),
            deficient_months: months(plan.deficient),
        },
        refund: refunded(plan.surplus, split.surplus),
        within30: within30(plan.short, split.short) + within30(plan.deficient, split.deficient),
    }
}

/// The surplus that is paid out at once.
fn refunded(choice: SurplusPlan, surplus: Cents) -> Cents
    ensures { result ≡ settlement.refunded choice surplus }
{
    match choice {
        SurplusPlan::Unsaid | SurplusPlan::Refund => surplus,
        SurplusPlan::Credit | SurplusPlan::Retain => 0,
    }
}

/// What a credited surplus takes off each of twelve payments.
fn credited(choice: SurplusPlan, surplus: Cents) -> Cents
    requires { pos 0 ≤ℤ surplus }
    ensures { result ≡ settlement.credited choice surplus }
{
    match choice {
        SurplusPlan::Credit => surplus / 12,
        SurplusPlan::Unsaid | SurplusPlan::Refund | SurplusPlan::Retain => 0,
    }
}

/// What a spread part asks each month.
fn monthly(choice: PartPlan, amount: Cents) -> Cents
    requires low { pos 0 ≤ℤ amount }
    requires high { amount ≤ℤ pos (10 ^ 18) }
    requires spread { lawful.IsSpread choice }
    ensures { result ≡ settlement.monthly choice amount }
{
    match choice {
        PartPlan::Spread(months) => amount / i64::from(months),
        PartPlan::Unsaid | PartPlan::Leave | PartPlan::Within30 => 0,
    }
}

/// For how many months it is asked.
fn months(choice: PartPlan) -> u32
    ensures { result ≡ settlement.months choice }
{
    match choice {
        PartPlan::Spread(months) => months,
        PartPlan::Unsaid | PartPlan::Leave | PartPlan::Within30 => 0,
    }
}

/// What of a part is asked within 30 days.
fn within30(choice: PartPlan, amount: Cents) -> Cents
    requires low { pos 0 ≤ℤ amount }
    requires high { amount ≤ℤ pos (10 ^ 18) }
    ensures value { result ≡ settlement.within30 choice amount }
    ensures low { pos 0 ≤ℤ result }
    ensures high { result ≤ℤ pos (10 ^ 18) }
{
    match choice {
        PartPlan::Within30 => amount,
        PartPlan::Unsaid | PartPlan::Leave | PartPlan::Spread(_) => 0,
    }
}
