//! The due of a month, and what the next month's needs of it.

ghost use Rattle.std.specs.Prelude.{◌≡◌, ◌⊎◌, pos, neg_ℤ, ◌≤ℤ◌};
ghost use Rattle.svc_base.specs.Money as interest;
ghost use Rattle.svc_types.specs.Terms.{IsSound};
ghost use Rattle.svc_types.specs.LevelPayment as payment;
ghost use Rattle.remit_types.specs.Dues as dues;
ghost use Rattle.remit_types.specs.Schedule as schedule;
ghost use Rattle.remit_types.specs.Limits.{IsWithin, HasSums, AreWithin};

use svc_base::{Cents, Month, month_interest};
use svc_types::{MonthFacts, RemitType, Terms};

/// What is due to the investor for one month, in cents, and the investor's balance at its end.
#[derive(Clone, Copy, Debug, PartialEq, Eq)]
pub struct MonthDue {
    pub month: Month,
    pub interest: Cents,
    pub principal: Cents,
    pub balance: Cents,
}

/// A loan's remittance at a month's end, in cents: the loan's balance and the investor's, and from
/// boarding on the interest less fee that was collected, scheduled and passed to the investor.
#[derive(Clone, Copy, Debug, PartialEq, Eq)]
pub struct Carry {
    pub upb: Cents,
    pub balance: Cents,
    pub actual: Cents,
    pub scheduled: Cents,
    pub passed: Cents,
}

/// The remittance before the boarded month: both balances are the principal, and no interest was
/// collected, scheduled or passed.
pub fn first(terms: &Terms) -> Carry
    ensures carry { result ≡ dues.carried_first terms.now }
    ensures limits { IsSound terms.now → IsWithin terms.now result }
    ensures sums { HasSums result }
{
    Carry {
        upb: terms.principal,
        balance: terms.principal,
        actual: 0,
        scheduled: 0,
        passed: 0,
    }
}

/// What is due for a month, by the type that it is remitted as, and what is carried from the month
/// before it to the next. A change of type brings the interest passed to the new type's sum, so
/// its first month's interest may be that of many months, or below 0.
pub fn due(carry: &mut Carry, terms: &Terms, kind: RemitType, facts: &MonthFacts) -> MonthDue
    requires terms { IsSound terms.now }
    requires carry { IsWithin terms.now carry.old }
    requires sums { HasSums carry.old }
    requires facts { AreWithin terms.now facts.now }
    ensures carry { carry.new ≡ dues.carried_after terms.now carry.old (dues.loan_month kind facts.now) }
    ensures due { result ≡ dues.due_between facts.now.month carry.old carry.new }
    ensures limits { IsWithin terms.now carry.new }
{
    let before = *carry;
    *carry = carried(&before, terms, kind, facts);
    MonthDue {
        month: facts.month,
        interest: carry.passed - before.passed,
        principal: before.balance - carry.balance,
        balance: carry.balance,
    }
}

/// The remittance at a month's end, from that of the month before.
fn carried(before: &Carry, terms: &Terms, kind: RemitType, facts: &MonthFacts) -> Carry
    requires terms { IsSound terms.now }
    requires carry { IsWithin terms.now before.now }
    requires sums { HasSums before.now }
    requires facts { AreWithin terms.now facts.now }
    ensures carry { result ≡ dues.carried_after terms.now before.now (dues.loan_month kind facts.now) }
    ensures limits { IsWithin terms.now result }
    ensures passed_low { neg_ℤ (pos 2_000_000_000_000_000_000) ≤ℤ result.passed }
    ensures passed_high { result.passed ≤ℤ pos 2_000_000_000_000_000_000 }
{
    let balance = balance_after(terms, kind, before.balance, facts);
    let actual = before.actual + (facts.interest - facts.fee);
    let scheduled = before.scheduled + scheduled_interest(terms, facts.month, before.balance);
    Carry {
        upb: facts.upb,
        balance,
        actual,
        scheduled,
        passed: passed_by(kind, actual, scheduled),
    }
}

/// The interest passed: what was collected, or what was scheduled.
fn passed_by(kind: RemitType, actual: Cents, scheduled: Cents) -> Cents
    ensures value { result ≡ dues.passed_by kind actual scheduled }
    ensures one_of_both { (result ≡ actual) ⊎ (result ≡ scheduled) }
{
    match kind {
        RemitType::AA => actual,
        RemitType::SA | RemitType::SS => scheduled,
    }
}

/// The investor's balance at the end of a month.
fn balance_after(terms: &Terms, kind: RemitType, before: Cents, facts: &MonthFacts) -> Cents
    requires terms { IsSound terms.now }
    requires low { pos 0 ≤ℤ before }
    requires high { before ≤ℤ terms.now.principal }
    requires facts { AreWithin terms.now facts.now }
    ensures value { result ≡ dues.balance_after terms.now before (dues.loan_month kind facts.now) }
    ensures low { pos 0 ≤ℤ result }
    ensures high { result ≤ℤ terms.now.principal }
{
    match kind {
        RemitType::AA | RemitType::SA => facts.upb,
        RemitType::SS if facts.satisfied => 0,
        RemitType::SS => scheduled_balance(terms, before, facts),
    }
}

/// What scheduled principal and curtailments leave of a balance.
#[tactic(auto, using(std::proofs::lemmas::Int::ints, std::proofs::lemmas::Int::clamps), unfolding(crate::specs::Dues::scheduled_balance))]
fn scheduled_balance(terms: &Terms, before: Cents, facts: &MonthFacts) -> Cents
    requires terms { IsSound terms.now }
    requires low { pos 0 ≤ℤ before }
    requires high { before ≤ℤ terms.now.principal }
    requires facts { AreWithin terms.now facts.now }
    ensures value { result ≡ dues.scheduled_balance terms.now before facts.now }
    ensures low { pos 0 ≤ℤ result }
    ensures high { result ≤ℤ terms.now.principal }
{
    let scheduled = scheduled_principal(terms, facts.month, before);
    (before - scheduled - facts.curtailed).max(0)
}

/// The principal that the schedule asks of a balance in a month.
#[tactic(auto, unfolding(crate::specs::Schedule::scheduled_principal))]
fn scheduled_principal(terms: &Terms, month: Month, before: Cents) -> Cents
    requires terms { IsSound terms.now }
    requires low { pos 0 ≤ℤ before }
    requires high { before ≤ℤ terms.now.principal }
    ensures value { result ≡ schedule.scheduled_principal terms.now month before }
    ensures low { pos 0 ≤ℤ result }
    ensures high { result ≤ℤ before }
{
    if month < terms.first {
        0
    } else if terms.first.number() + terms.term <= month.number() + 1 {
        before
    } else {
        level_principal(terms, before)
    }
}

/// The part of the level payment that is principal, at most the balance.
#[tactic(auto, using(std::proofs::lemmas::Int::ints, std::proofs::lemmas::Int::clamps), unfolding(svc_types::specs::LevelPayment::level_principal))]
fn level_principal(terms: &Terms, before: Cents) -> Cents
    requires terms { IsSound terms.now }
    requires low { pos 0 ≤ℤ before }
    requires high { before ≤ℤ terms.now.principal }
    ensures value { result ≡ payment.level_principal terms.now before }
    ensures low { pos 0 ≤ℤ result }
    ensures high { result ≤ℤ before }
{
    before.min(terms.pi - note_interest(terms, before))
}

/// One month's interest on a balance, which the level payment exceeds.
#[tactic(auto, using(std::proofs::lemmas::Int::ints))]
fn note_interest(terms: &Terms, balance: Cents) -> Cents
    requires terms { IsSound terms.now }
    requires low { pos 0 ≤ℤ balance }
    requires high { balance ≤ℤ terms.now.principal }
    ensures value { result ≡ interest.month_interest balance terms.now.rate }
    ensures low { pos 0 ≤ℤ result }
    ensures high { result ≤ℤ terms.now.pi }
    ensures most { result ≤ℤ pos 208_333_333 }
{
    month_interest(balance, terms.rate)
}

/// The servicing fee in it.
#[tactic(auto, using(std::proofs::lemmas::Int::ints))]
fn fee_interest(terms: &Terms, balance: Cents) -> Cents
    requires terms { IsSound terms.now }
    requires low { pos 0 ≤ℤ balance }
    requires high { balance ≤ℤ terms.now.principal }
    ensures value { result ≡ interest.month_interest balance terms.now.fee }
    ensures low { pos 0 ≤ℤ result }
{
    month_interest(balance, terms.fee)
}

/// One month's interest on the investor's balance less the servicing fee, from the first due
/// month on.
#[tactic(auto, using(std::proofs::lemmas::Int::ints), unfolding(crate::specs::Schedule::scheduled_interest))]
fn scheduled_interest(terms: &Terms, month: Month, before: Cents) -> Cents
    requires terms { IsSound terms.now }
    requires low { pos 0 ≤ℤ before }
    requires high { before ≤ℤ terms.now.principal }
    ensures value { result ≡ schedule.scheduled_interest terms.now month before }
    ensures low { pos 0 ≤ℤ result }
    ensures high { result ≤ℤ pos 208_333_333 }
{
    if terms.first <= month {
        note_interest(terms, before) - fee_interest(terms, before)
    } else {
        0
    }
}
