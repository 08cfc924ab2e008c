//! The plans of books, each beside the number of the analysis that settled it.

ghost use Rattle.std.specs.Prelude.{◌≡◌, MatchOption, Some};
ghost use Rattle.std.specs.Bool.{Decides};
ghost use Rattle.svc_spec.specs.Accounts.{live_of};
ghost use Rattle.svc_spec.specs.Books.{boarding_plan as boarding_plan_of};
ghost use Rattle.svc_checkpoint.specs.Plans as rule;

use svc_base::month_of;
use svc_replay::{Live, LoanAccount};
use svc_types::{Act, Books, EscrowPlan, Terms};

/// A plan, and the number of an analysis that settled it; the plan at boarding has none.
#[derive(Clone, Copy)]
pub(crate) struct NamedPlan {
    pub(crate) number: Option<u32>,
    pub(crate) plan: EscrowPlan,
}

/// The newest plan of a loan's books, and the one before it.
#[derive(Clone, Copy)]
pub(crate) struct Plans {
    pub(crate) newest: NamedPlan,
    pub(crate) earlier: NamedPlan,
}

impl Plans {
    /// The plans with these numbers.
    pub(crate) fn with(kept: &LoanAccount, newest: Option<u32>, earlier: Option<u32>) -> Plans
        requires newest { rule.IsNumber kept.now.account.entries newest }
        requires earlier { rule.IsNumber kept.now.account.entries earlier }
        ensures { rule.AreNamed kept.now.account result }
    {
        Plans {
            newest: NamedPlan {
                number: newest,
                plan: plan_with(kept, newest),
            },
            earlier: NamedPlan {
                number: earlier,
                plan: plan_with(kept, earlier),
            },
        }
    }

    /// Moves on to the plans of other books of the account, which are mostly the same.
    pub(crate) fn move_to(&mut self, kept: &LoanAccount, books: &Books)
        requires old { rule.AreNamed kept.now.account self.old }
        requires newest { rule.IsPlanOf kept.now.account.terms (live_of kept.now.account) books.now.plan }
        requires earlier { rule.IsPlanOf kept.now.account.terms (live_of kept.now.account) books.now.earlier }
        ensures new { rule.AreNamed kept.now.account self.new }
        ensures newest { self.new.newest.plan ≡ books.now.plan }
        ensures earlier { self.new.earlier.plan ≡ books.now.earlier }
    {
        // the newest plan becomes the earlier one when another is settled
        move_plan(&mut self.earlier, kept, &books.earlier, &self.newest);
        move_plan(&mut self.newest, kept, &books.plan, &self.earlier);
    }
}

/// Moves on to a plan of the account where it is another one, by the number of a plan that it may be.
fn move_plan(named: &mut NamedPlan, kept: &LoanAccount, plan: &EscrowPlan, likely: &NamedPlan)
    requires old { rule.Names kept.now.account named.old.number named.old.plan }
    requires likely { rule.Names kept.now.account likely.now.number likely.now.plan }
    requires plan { rule.IsPlanOf kept.now.account.terms (live_of kept.now.account) plan.now }
    ensures new { rule.Names kept.now.account named.new.number named.new.plan }
    ensures plan { named.new.plan ≡ plan.now }
{
    if are_same(&named.plan, plan) {
        return;
    }
    *named = name_anew(kept, plan, likely);
}

/// A plan of the account with a number.
fn name_anew(kept: &LoanAccount, plan: &EscrowPlan, likely: &NamedPlan) -> NamedPlan
    requires likely { rule.Names kept.now.account likely.now.number likely.now.plan }
    requires plan { rule.IsPlanOf kept.now.account.terms (live_of kept.now.account) plan.now }
    ensures new { rule.Names kept.now.account result.number result.plan }
    ensures plan { result.plan ≡ plan.now }
{
    if are_same(&likely.plan, plan) {
        return *likely;
    }
    kept.is_account();
    NamedPlan {
        number: number_of(&kept.live(), plan),
        plan: *plan,
    }
}

/// The number of the last of some entries that settled a plan, where one did.
fn number_of(live: &Live, plan: &EscrowPlan) -> Option<u32>
    ensures { MatchOption result (rule.IsSettledIn live.now plan.now → ⊥)
        (λ number. rule.IsSettledBy live.now number plan.now) }
{
    let mut place = live.len();
    while place > 0 {
        place -= 1;
        let entry = live.at(place);
        if settles(&entry.act, plan) {
            return Some(entry.number);
        }
    }
    None
}

/// Whether an act settled a plan.
fn settles(act: &Act, plan: &EscrowPlan) -> bool
    ensures { Decides result (rule.plan_of act.now ≡ Some plan.now) }
{
    match act {
        Act::Analyse(settled) => are_same(&settled.plan, plan),
        _ => false,
    }
}

/// Whether two plans are the same.
fn are_same(one: &EscrowPlan, other: &EscrowPlan) -> bool
    ensures { Decides result (one.now ≡ other.now) }
{
    one == other
}

/// The plan that the entry with a number settled; without a number that of boarding.
pub(crate) fn plan_with(kept: &LoanAccount, number: Option<u32>) -> EscrowPlan
    ensures { result ≡ rule.plan_with kept.now.account number }
{
    match settled_with(kept, number) {
        Some(plan) => plan,
        None => boarding_plan(kept.terms()),
    }
}

/// The plan that the entry with a number settled.
fn settled_with(kept: &LoanAccount, number: Option<u32>) -> Option<EscrowPlan>
    ensures { result ≡ rule.settled_with kept.now.account.entries number }
{
    match &kept.entry(number?) {
        Some(entry) => plan_of(&entry.act),
        None => None,
    }
}

/// The plan that an act settled.
fn plan_of(act: &Act) -> Option<EscrowPlan>
    ensures { result ≡ rule.plan_of act.now }
{
    match act {
        Act::Analyse(settled) => Some(settled.plan),
        _ => None,
    }
}

/// The plan at boarding: the monthly escrow payment of the terms and nothing else.
fn boarding_plan(terms: &Terms) -> EscrowPlan
    ensures { result ≡ boarding_plan_of terms.now }
{
    EscrowPlan {
        start: month_of(terms.boarded),
        short_months: 0,
        deficient_months: 0,
        base: terms.escrow,
        credit: 0,
        short: 0,
        deficient: 0,
    }
}
