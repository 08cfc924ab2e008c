//! Plans that were worked out by hand.

ghost use Rattle.std.specs.Prelude.{IsTrue, ◌↔◌, ◌≤ℤ◌, ◌^◌, pos};
ghost use Rattle.escrow_resolve.specs.Parts.{AreParts};

use escrow_resolve::{
    EscrowPlan, PartPlan, Parts, Plan, PlanFault, PlanPart, Settled, SurplusPlan, settle, split,
};
use svc_base::{Cents, Month};

const BASE: Cents = 13_000;

const MOST: Cents = 1_000_000_000_000_000_000;

/// Whether the parts are within their limits.
fn are_parts(parts: &Parts) -> bool
    ensures { IsTrue result ↔ AreParts parts.now }
{
    are_amounts(parts.surplus, parts.short) && are_amounts(parts.short, parts.deficient)
}

fn are_amounts(a: Cents, b: Cents) -> bool
    ensures { IsTrue result ↔ ((pos 0 ≤ℤ a) × (a ≤ℤ pos (10 ^ 18)) × (pos 0 ≤ℤ b) × (b ≤ℤ pos (10 ^ 18))) }
{
    0 <= a && a <= MOST && 0 <= b && b <= MOST
}

/// What choices settle from 2024-07 on; none where a part is beyond its limits.
fn settled(
    parts: (Cents, Cents, Cents),
    current: bool,
    choices: (SurplusPlan, PartPlan, PartPlan),
) -> Option<Result<Settled, PlanFault>> {
    let (surplus, short, deficient) = parts;
    let parts = Parts {
        surplus,
        short,
        deficient,
    };
    if !are_parts(&parts) {
        return None;
    }
    let (surplus, short, deficient) = choices;
    let plan = Plan {
        surplus,
        short,
        deficient,
    };
    Some(settle(&parts, BASE, current, Month::new(2024, 7), &plan))
}

#[test]
fn parts_of_a_balance(rt: HostRuntime) {
    // a balance and its target; then surplus, shortage and deficiency
    for (balance, target, surplus, short, deficient) in [
        (108_999_i32, 104_000_u32, 4_999, 0, 0),
        (100_000, 104_000, 0, 4_000, 0),
        (-2_000, 104_000, 0, 104_000, 2_000),
        (0, 0, 0, 0, 0),
    ] {
        let wanted = Parts {
            surplus,
            short,
            deficient,
        };
        assert_eq!(rt; split(Cents::from(balance), Cents::from(target)), wanted);
    }
}

#[test]
fn faults_of_plans(rt: HostRuntime) {
    use svc_types::PartPlan::{Leave, Spread, Within30};
    use svc_types::PartPlan::Unsaid as No;
    use svc_types::SurplusPlan::{Credit, Retain, Unsaid};
    // surplus, shortage and deficiency, whether current, choices, and what is wrong with them
    let rows = [
        ((5_000, 0, 0), true, (Credit, No, No), PlanFault::MustRefund),
        ((1, 0, 0), true, (Retain, No, No), PlanFault::MustRefund),
        (
            (0, 0, 0),
            true,
            (SurplusPlan::Refund, No, No),
            PlanFault::NothingToPlan(PlanPart::Surplus),
        ),
        (
            (0, 0, 0),
            true,
            (Unsaid, Leave, No),
            PlanFault::NothingToPlan(PlanPart::Short),
        ),
        (
            (0, 0, 0),
            true,
            (Unsaid, No, Leave),
            PlanFault::NothingToPlan(PlanPart::Deficient),
        ),
        (
            (0, 13_000, 0),
            true,
            (Unsaid, Within30, No),
            PlanFault::MustSpread(PlanPart::Short),
        ),
        (
            (0, 13_000, 0),
            true,
            (Unsaid, Spread(11), No),
            PlanFault::TooFewMonths(11),
        ),
        (
            (0, 13_000, 0),
            true,
            (Unsaid, Spread(61), No),
            PlanFault::TooManyMonths(61),
        ),
        (
            (0, 0, 500),
            true,
            (Unsaid, No, Spread(1)),
            PlanFault::TooFewMonths(1),
        ),
        (
            (0, 0, 13_000),
            false,
            (Unsaid, No, Within30),
            PlanFault::MustSpread(PlanPart::Deficient),
        ),
        // the surplus is judged before the deficiency
        (
            (5_000, 0, 500),
            true,
            (Credit, No, Spread(1)),
            PlanFault::MustRefund,
        ),
    ];
    for (parts, current, choices, wanted) in rows {
        assert_eq!(rt; settled(parts, current, choices), Some(Err(wanted)));
    }
}

#[test]
fn settlements_of_lawful_plans(rt: HostRuntime) {
    use svc_types::PartPlan::{Leave, Spread, Within30};
    use svc_types::PartPlan::Unsaid as No;
    use svc_types::SurplusPlan::{Credit, Retain, Unsaid};
    // parts, whether current, choices; then refund, sum within 30 days, credit, shortage a month
    // and its months, deficiency a month and its months
    let rows = [
        (
            (4_999, 0, 0),
            true,
            (Credit, No, No),
            0,
            0,
            (416, 0, 0, 0, 0),
        ),
        (
            (5_000, 0, 0),
            true,
            (Unsaid, No, No),
            5_000,
            0,
            (0, 0, 0, 0, 0),
        ),
        (
            (5_000, 0, 0),
            false,
            (Retain, No, No),
            0,
            0,
            (0, 0, 0, 0, 0),
        ),
        (
            (0, 12_999, 0),
            true,
            (Unsaid, Within30, No),
            0,
            12_999,
            (0, 0, 0, 0, 0),
        ),
        (
            (0, 13_000, 0),
            true,
            (Unsaid, Spread(12), No),
            0,
            0,
            (0, 1_083, 12, 0, 0),
        ),
        (
            (0, 13_000, 700),
            true,
            (Unsaid, Leave, Within30),
            0,
            700,
            (0, 0, 0, 0, 0),
        ),
        (
            (0, 0, 501),
            true,
            (Unsaid, No, Spread(2)),
            0,
            0,
            (0, 0, 0, 250, 2),
        ),
    ];
    for (parts, current, choices, refund, within30, months) in rows {
        let (credit, short, short_months, deficient, deficient_months) = months;
        let plan = EscrowPlan {
            start: Month::new(2024, 7),
            base: BASE,
            credit,
            short,
            short_months,
            deficient,
            deficient_months,
        };
        let wanted = Settled {
            plan,
            refund,
            within30,
        };
        assert_eq!(rt; settled(parts, current, choices), Some(Ok(wanted)));
    }
}
