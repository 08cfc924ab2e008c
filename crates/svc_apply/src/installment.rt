//! The open installment of a loan.

ghost use Rattle.std.specs.Prelude.{◌≡◌, ◌+◌, ◌≤◌, pos, ◌<ℤ◌};
ghost use Rattle.svc_base.specs.Calendar.{IsReadDay};
ghost use Rattle.svc_base.specs.Money.{IsAmount};
ghost use Rattle.svc_types.specs.LevelPayment as payment;
ghost use Rattle.svc_types.specs.Terms.{IsSound};
ghost use Rattle.svc_spec.specs.Books.{AreBooks, HaveSigns, IsPlan, IsEntryAmount};
ghost use Rattle.svc_spec.specs.Installments as rule;
ghost use Rattle.svc_apply.specs.Conditions.{HasParts};

use svc_base::{Cents, Month, add_months, first_day, month_interest};
use svc_types::{Books, EscrowPlan, Installment, Terms};

/// The open installment and its parts; none where the loan is satisfied (1/01 uniform security
/// instruments, covenant 2).
pub fn open_installment(books: &Books, terms: &Terms) -> Option<Installment>
    requires terms { IsSound terms.now }
    requires boarded { IsReadDay terms.now.boarded }
    requires books { AreBooks terms.now books.now }
    ensures { result ≡ rule.open_installment terms.now books.now }
{
    if books.upb <= 0 {
        return None;
    }
    Some(installment(books, terms))
}

/// The parts that the open installment has on the balance.
pub(crate) fn installment(books: &Books, terms: &Terms) -> Installment
    requires terms { IsSound terms.now }
    requires boarded { IsReadDay terms.now.boarded }
    requires signs { HaveSigns terms.now books.now }
    requires owed { pos 0 <ℤ books.now.upb }
    ensures value { result ≡ rule.installment terms.now books.now }
    ensures parts { HasParts result books.now.upb }
{
    let month = due_month(terms, books.next);
    Installment {
        k: books.next,
        due: first_day(month),
        interest: month_interest(books.upb, terms.rate),
        fee: month_interest(books.upb, terms.fee),
        principal: principal_part(terms, books.upb, books.next),
        escrow: escrow_part(&books.plan, &books.earlier, month),
    }
}

/// The month in which installment k is due.
pub(crate) fn due_month(terms: &Terms, k: u32) -> Month
    requires terms { IsSound terms.now }
    requires boarded { IsReadDay terms.now.boarded }
    requires first { 1 ≤ k }
    requires last { k ≤ terms.now.term }
    ensures { result ≡ rule.due_month terms.now k }
{
    add_months(terms.first, k - 1)
}

/// The principal of installment k on a balance, in cents: what the level payment leaves, and at the
/// term all of the balance.
#[tactic(auto, using(svc_base::proofs::CentsRules::cents), unfolding(svc_spec::specs::Installments::principal_part))]
fn principal_part(terms: &Terms, upb: Cents, k: u32) -> Cents
    requires terms { IsSound terms.now }
    requires amount { IsAmount upb }
    ensures { result ≡ rule.principal_part terms.now upb k }
{
    if k == terms.term {
        return upb;
    }
    level_principal(terms, upb)
}

/// The principal that the level payment leaves.
#[tactic(auto, using(svc_base::proofs::CentsRules::cents, svc_base::proofs::MoneyLemmas::month_interest_low), unfolding(svc_types::specs::LevelPayment::level_principal))]
fn level_principal(terms: &Terms, upb: Cents) -> Cents
    requires terms { IsSound terms.now }
    requires amount { IsAmount upb }
    ensures { result ≡ payment.level_principal terms.now upb }
{
    let interest = month_interest(upb, terms.rate);
    upb.min(terms.pi - interest)
}

/// What an installment due in a month asks for escrow, in cents, by the plan then in force.
#[tactic(auto, unfolding(svc_spec::specs::Installments::escrow_part))]
fn escrow_part(plan: &EscrowPlan, earlier: &EscrowPlan, month: Month) -> Cents
    requires plan { IsPlan plan.now }
    requires earlier { IsPlan earlier.now }
    ensures { result ≡ rule.escrow_part plan.now earlier.now month }
{
    if plan.start <= month {
        return escrow_of_plan(plan, month);
    }
    escrow_of_plan(earlier, month)
}

#[tactic(auto, using(svc_base::proofs::CentsRules::cents), unfolding(svc_spec::specs::Installments::escrow_of_plan))]
fn escrow_of_plan(plan: &EscrowPlan, month: Month) -> Cents
    requires plan { IsPlan plan.now }
    ensures { result ≡ rule.escrow_of_plan plan.now month }
{
    let short = asked(plan.start, plan.short_months, month, plan.short);
    let deficient = asked(plan.start, plan.deficient_months, month, plan.deficient);
    let credit = asked(plan.start, 12, month, plan.credit);
    (plan.base + short + deficient - credit).max(0)
}

/// An amount in the months in which it is asked.
fn asked(start: Month, months: u32, month: Month, amount: Cents) -> Cents
    requires months { months ≤ 60 }
    requires amount { IsEntryAmount amount }
    ensures value { result ≡ rule.asked start months month amount }
    ensures bound { IsEntryAmount result }
{
    let (start, month) = (start.number(), month.number());
    if start <= month && month < start + months {
        amount
    } else {
        0
    }
}
