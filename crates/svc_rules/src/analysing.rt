//! The escrow analysis of a loan on the business day, and why it is refused.

ghost use Rattle.std.specs.Prelude.{◌≡◌, ◌+◌, ◌<◌, ◌≤ℤ◌, pos, Some, None, IfErr, IfOk, OnOk};
ghost use Rattle.svc_base.specs.Calendar.{month_of as month_number, months_end};
ghost use Rattle.escrow_analysis.specs.AggregateAnalysis.{base as monthly, cushion as kept_back};
ghost use Rattle.escrow_resolve.specs.Parts.{AreParts};
ghost use Rattle.svc_world.specs.Analysing as world;
ghost use Rattle.svc_world.specs.Refusals as rule;
ghost use Rattle.svc_rules.specs.State.{world_of};

use crate::entries::refuse_adjustments;
use crate::limits::MOST_ENTRIES;
use crate::state::State;
use escrow_analysis::{Analysis, analyse};
use escrow_resolve::{Parts, settle, split};
use svc_apply::is_current;
use svc_base::{Cents, Day, Month, month_of};
use svc_loan::Loan;
use svc_replay::LoanBooks;
use svc_types::{Limit, Plan, PlanFault, Refusal, Settled};

/// Why an analysis is refused: `Full` (of 4,096 entries), `BadPlan` (the first fault of its plan, 12 CFR 1024.17(f)),
/// `AdjustmentsFull`.
pub(crate) fn refuse_analyse<B: LoanBooks>(
    state: &State<B>,
    loan: &Loan<B>,
    plan: &Plan,
) -> Option<Refusal>
    requires today { loan.now.held.account.today ≡ state.now.today }
    requires calendar { month_number state.now.today + 1 < months_end }
    ensures { result ≡ rule.first_of (rule.analyse_cases
        (world_of state.now.today state.now.loans state.now.seals) plan.now loan.now.held) }
{
    if loan.moved().entries >= MOST_ENTRIES {
        return Some(Refusal::Full(Limit::Entries));
    }
    if let Err(fault) = settle_now(loan, state.today, plan) {
        return Some(Refusal::BadPlan(fault));
    }
    refuse_adjustments(state, month_of(state.today))
}

/// Settles the analysis of a loan on the business day by a plan, or answers the plan's first fault.
pub fn settle_now<B: LoanBooks>(
    loan: &Loan<B>,
    today: Day,
    plan: &Plan,
) -> Result<Settled, PlanFault>
    requires today { loan.now.held.account.today ≡ today }
    requires calendar { month_number today + 1 < months_end }
    ensures fault { IfErr result (λ f. world.loan_plan_fault loan.now.held plan.now ≡ Some f) }
    ensures lawful { OnOk result (world.loan_plan_fault loan.now.held plan.now ≡ None) }
    ensures settled { IfOk result (λ it. it ≡ world.settlement_of loan.now.held plan.now) }
{
    let begins = month_of(today).plus(1);
    let analysis = analysis_from(loan, begins);
    let parts = parts_of(loan, analysis.opening);
    settle(
        &parts,
        analysis.base,
        is_current_now(loan, today),
        begins,
        plan,
    )
}

/// The analysis of a loan's year that begins with the month after the business day's.
pub fn analysis_from<B: LoanBooks>(loan: &Loan<B>, begins: Month) -> Analysis
    requires { begins ≡ world.year_begins loan.now.held }
    ensures whole { result ≡ world.analysis_of loan.now.held }
    ensures base { result.base ≡ monthly (world.year_of_loan loan.now.held) }
    ensures cushion { result.cushion
        ≡ kept_back (world.year_of_loan loan.now.held) (world.cushion_months loan.now.held) }
    ensures opening { result.opening ≡ world.opening_of loan.now.held }
    ensures cushion_low { pos 0 ≤ℤ result.cushion }
    ensures cushion_high { result.cushion ≤ℤ result.opening }
    ensures base_low { pos 0 ≤ℤ result.base }
    ensures base_high { result.base ≤ℤ pos 160_000_000_000 }
    ensures opening_low { pos 0 ≤ℤ result.opening }
    ensures opening_high { result.opening ≤ℤ pos 2_240_000_000_000 }
{
    loan.is_sound();
    analyse(&loan.lines().year(begins), loan.terms().cushion)
}

/// The parts of a loan's escrow balance against the opening that its year needs.
pub(crate) fn parts_of<B: LoanBooks>(loan: &Loan<B>, opening: Cents) -> Parts
    requires opening { opening ≡ world.opening_of loan.now.held }
    requires low { pos 0 ≤ℤ opening }
    requires high { opening ≤ℤ pos 2_240_000_000_000 }
    ensures value { result ≡ world.parts_of loan.now.held }
    ensures limits { AreParts result }
{
    split(loan.now().escrow, opening)
}

/// Whether the borrower is current on the business day.
fn is_current_now<B: LoanBooks>(loan: &Loan<B>, today: Day) -> bool
    requires { loan.now.held.account.today ≡ today }
    ensures { result ≡ world.is_current_now loan.now.held }
{
    loan.is_sound();
    is_current(loan.now(), loan.terms(), today)
}
