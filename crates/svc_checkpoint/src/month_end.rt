//! What is kept of the books at a month's end.

ghost use Rattle.std.specs.Prelude.{◌≡◌, pos, ◌-ℤ◌, ◌≤ℤ◌};
ghost use Rattle.svc_types.specs.Terms.{IsSound};
ghost use Rattle.svc_checkpoint.specs.Ends as rule;

use svc_base::{Cents, Day};
use svc_types::{Books, Collected, EscrowPlan, Terms};

/// The books at a month's end, in half of their size: without what the loan's account says. The day is that of the end's
/// place, the principal collected is what the balance fell by, and a plan stands in the account's entries.
#[derive(Clone, Copy)]
pub(crate) struct MonthEnd {
    upb: Cents,
    escrow: Cents,
    suspense: Cents,
    late_owed: Cents,
    interest: Cents,
    fee: Cents,
    curtailed: Cents,
    late_paid: Cents,
    next: u32,
    /// The day on which the balance came to 0; where it is above 0, any day.
    satisfied: Day,
    /// The numbers of analyses that settled the newest plan and the one before it; of the plan at boarding there is none.
    pub(crate) plan: Option<u32>,
    pub(crate) earlier: Option<u32>,
}

impl MonthEnd {
    /// What is kept of books whose plans have these numbers.
    pub(crate) fn of(books: &Books, plan: Option<u32>, earlier: Option<u32>) -> MonthEnd
        ensures { result ≡ rule.kept_of books.now plan earlier }
    {
        MonthEnd {
            upb: books.upb,
            escrow: books.escrow,
            suspense: books.suspense,
            late_owed: books.late_owed,
            interest: books.interest,
            fee: books.fee,
            curtailed: books.curtailed,
            late_paid: books.late_paid,
            next: books.next,
            satisfied: books.satisfied.unwrap_or(books.day),
            plan,
            earlier,
        }
    }

    /// The books of which that is kept, of a day and with these plans.
    pub(crate) fn books(
        &self,
        terms: &Terms,
        day: Day,
        plan: EscrowPlan,
        earlier: EscrowPlan,
    ) -> Books
        requires terms { IsSound terms.now }
        requires low { pos 0 ≤ℤ self.now.upb }
        requires high { self.now.upb ≤ℤ terms.now.principal }
        ensures { result ≡ rule.books_from terms.now day plan earlier self.now }
    {
        Books {
            day,
            next: self.next,
            upb: self.upb,
            escrow: self.escrow,
            suspense: self.suspense,
            late_owed: self.late_owed,
            interest: self.interest,
            fee: self.fee,
            principal: self.principal(terms),
            curtailed: self.curtailed,
            late_paid: self.late_paid,
            plan,
            earlier,
            satisfied: self.satisfied_on(),
        }
    }

    /// The principal collected: what the balance fell by.
    #[tactic(auto, using(svc_base::proofs::CentsRules::cents))]
    fn principal(&self, terms: &Terms) -> Cents
        requires terms { IsSound terms.now }
        requires low { pos 0 ≤ℤ self.now.upb }
        requires high { self.now.upb ≤ℤ terms.now.principal }
        ensures { result ≡ terms.now.principal -ℤ self.now.upb }
    {
        terms.principal - self.upb
    }

    /// The day on which the balance came to 0, where it did.
    fn satisfied_on(&self) -> Option<Day>
        ensures { result ≡ rule.satisfied_by self.now }
    {
        if self.upb > 0 {
            return None;
        }
        Some(self.satisfied)
    }

    /// The balance, and what was collected.
    pub(crate) fn collected(&self) -> Collected
        ensures { result ≡ rule.collected_by self.now }
    {
        Collected {
            upb: self.upb,
            curtailed: self.curtailed,
            interest: self.interest,
            fee: self.fee,
        }
    }
}
