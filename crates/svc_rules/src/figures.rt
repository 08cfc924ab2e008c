//! The numbers of an escrow analysis of a loan on the business day.

ghost use Rattle.std.specs.Prelude.{◌≡◌, ℕ, ◌+◌, ◌<◌};
ghost use Rattle.svc_base.specs.Calendar.{month_of as month_number, months_end};
ghost use Rattle.svc_types.specs.declared.account.Act.TheVariants as act;
ghost use Rattle.svc_spec.specs.Books.{IsAct, IsEntryAmount, IsPlan};
ghost use Rattle.svc_spec.specs.Installments.{asked, escrow_of_plan};
ghost use Rattle.svc_world.specs.Analysing as world;

use crate::analysing::{analysis_from, parts_of};
use svc_base::{Cents, Day, month_of};
use svc_loan::Loan;
use svc_replay::LoanBooks;
use svc_types::{EscrowPlan, Figures, Settled};

/// The numbers of a settled analysis, in cents: the payment is that of the new plan's first month.
pub fn figures_of<B: LoanBooks>(loan: &Loan<B>, today: Day, settled: &Settled) -> Figures
    requires today { loan.now.held.account.today ≡ today }
    requires calendar { month_number today + 1 < months_end }
    requires act { IsAct (act.Analyse settled.now) }
    requires start { settled.now.plan.start ≡ world.year_begins loan.now.held }
    ensures { result ≡ world.figures_with loan.now.held settled.now.refund settled.now.within30
        (escrow_of_plan settled.now.plan (world.year_begins loan.now.held)) }
{
    let pay = first_payment(&settled.plan);
    figures_with(loan, today, settled.refund, settled.within30, pay)
}

/// The numbers of an analysis, in cents, with what is paid out, what is asked within 30 days, and the monthly
/// escrow payment.
pub fn figures_with<B: LoanBooks>(
    loan: &Loan<B>,
    today: Day,
    refund: Cents,
    within30: Cents,
    pay: Cents,
) -> Figures
    requires today { loan.now.held.account.today ≡ today }
    requires calendar { month_number today + 1 < months_end }
    ensures { result ≡ world.figures_with loan.now.held refund within30 pay }
{
    let from = month_of(today).plus(1);
    let analysis = analysis_from(loan, from);
    let parts = parts_of(loan, analysis.opening);
    Figures {
        from,
        base: analysis.base,
        cushion: analysis.cushion,
        opening: analysis.opening,
        balance: loan.now().escrow,
        surplus: parts.surplus,
        short: parts.short,
        deficient: parts.deficient,
        refund,
        within30,
        pay,
    }
}

/// What a plan asks for escrow in its first month, in cents.
#[tactic(auto, using(svc_base::proofs::CentsRules::cents), unfolding(svc_spec::specs::Installments::escrow_of_plan))]
fn first_payment(plan: &EscrowPlan) -> Cents
    requires { IsPlan plan.now }
    ensures { result ≡ escrow_of_plan plan.now plan.now.start }
{
    let short = asked_first(plan.short_months, plan.short);
    let deficient = asked_first(plan.deficient_months, plan.deficient);
    let credit = asked_first(12, plan.credit);
    (plan.base + short + deficient - credit).max(0)
}

/// An amount that is asked for so many months, in the first of them.
fn asked_first(months: u32, amount: Cents) -> Cents
    requires amount { IsEntryAmount amount }
    ensures value { (start : ℕ) → result ≡ asked start months start amount }
    ensures bound { IsEntryAmount result }
{
    if months > 0 { amount } else { 0 }
}
