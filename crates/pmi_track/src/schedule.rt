//! The scheduled balance of a loan.

ghost use Rattle.std.specs.Prelude.{◌≡◌, ◌-◌, ◌≤◌, pos, ◌-ℤ◌, ◌≤ℤ◌};
ghost use Rattle.svc_base.specs.Money.{IsAmount};
ghost use Rattle.svc_types.specs.LevelPayment as payment;
ghost use Rattle.svc_types.specs.Terms.{IsSound};
ghost use Rattle.svc_spec.specs.Installments as rule;
ghost use Rattle.pmi_track.specs.Schedule as schedule;

use svc_base::{Cents, Day, Month, month_interest, month_of};
use svc_types::Terms;

/// The balance after k installments, each paid when it is due, in cents; at the term it is 0.
pub fn scheduled(terms: &Terms, k: u32) -> Cents
    requires terms { IsSound terms.now }
    requires term { k ≤ terms.now.term }
    ensures { result ≡ schedule.scheduled terms.now k }
{
    let mut balance = terms.principal;
    for paid in 0..k {
        balance = balance_after(terms, balance, paid + 1);
    }
    balance
}

/// What installment k leaves of a balance, in cents.
fn balance_after(terms: &Terms, balance: Cents, k: u32) -> Cents
    requires terms { IsSound terms.now }
    requires low { pos 0 ≤ℤ balance }
    requires high { balance ≤ℤ terms.now.principal }
    ensures { result ≡ balance -ℤ rule.principal_part terms.now balance k }
{
    balance - principal_part(terms, balance, k)
}

/// The principal of installment k on a balance, in cents: what the level payment leaves, and at the
/// term all of the balance.
#[tactic(auto, using(svc_base::proofs::CentsRules::cents), unfolding(svc_spec::specs::Installments::principal_part))]
fn principal_part(terms: &Terms, balance: Cents, k: u32) -> Cents
    requires terms { IsSound terms.now }
    requires amount { IsAmount balance }
    ensures { result ≡ rule.principal_part terms.now balance k }
{
    if k == terms.term {
        return balance;
    }
    level_principal(terms, balance)
}

/// The principal that the level payment leaves, in cents.
fn level_principal(terms: &Terms, balance: Cents) -> Cents
    requires terms { IsSound terms.now }
    requires amount { IsAmount balance }
    ensures { result ≡ payment.level_principal terms.now balance }
{
    let interest = month_interest(balance, terms.rate);
    balance.min(terms.pi - interest)
}

/// How many installments are due on or before a day.
pub(crate) fn due_by(terms: &Terms, day: Day) -> u32
    requires terms { IsSound terms.now }
    ensures count { result ≡ schedule.due_by terms.now day }
    ensures most { result ≤ terms.now.term }
{
    let months = month_of(day).number() + 1;
    months.saturating_sub(terms.first.number()).min(terms.term)
}

/// How far a loan's schedule has come: the installments that are due, and the balance after them.
#[derive(Clone, Copy, Debug)]
pub(crate) struct Progress {
    pub(crate) due: u32,
    pub(crate) balance: Cents,
}

/// The schedule of a loan after one more month.
pub(crate) fn advanced(terms: &Terms, progress: Progress, month: Month) -> Progress
    requires terms { IsSound terms.now }
    requires since { 1 ≤ month }
    requires before { schedule.IsProgress terms.now (month - 1) progress }
    ensures { schedule.IsProgress terms.now month result }
{
    if month.number() < terms.first.number() || progress.due == terms.term {
        return progress;
    }
    let due = progress.due + 1;
    Progress {
        due,
        balance: balance_after(terms, progress.balance, due),
    }
}
