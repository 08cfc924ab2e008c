//! The books of a loan, folded anew from boarding for each answer.

ghost use Rattle.std.specs.Prelude.{◌≡◌, ◌+◌, ◌-◌, ◌≤◌};
ghost use Rattle.svc_base.specs.Calendar.{month_of as month_number};
ghost use Rattle.svc_spec.specs.Accounts.{IsAccount};
ghost use Rattle.svc_spec.specs.Books.{AreBooks};
ghost use Rattle.svc_spec.specs.Months as months;

use crate::account::LoanAccount;
use crate::collected::facts_between;
use crate::fault::BookFault;
use crate::loan_books::LoanBooks;
use std::alloc::Global;
use std::marker::Model;
use std::sync::ledger::Ledger;
use svc_apply::start;
use svc_base::{Day, Month, OutOfMemory, Steps, last_day, month_of};
use svc_types::{Books, Collected, Entry, MonthFacts, Terms};

/// Books that are kept plainly: all entries and reversals, the live entries in order, and the books
/// of the business day. Every change folds all of them anew.
#[derive(Drop)]
pub struct Plain {
    kept: LoanAccount,
    now: Books,
}

impl Model for Plain {
    ghost use Rattle.svc_replay.specs.Kept.{Kept, AreNow};

    ghost Value = { Kept };

    ghost view = { λ p. p.kept };

    ghost invariant = { λ p. AreNow p.kept.account p.now };
}

impl LoanBooks for Plain {
    ghost use Rattle.svc_base.specs.Calendar.{month_of};
    ghost use Rattle.std.specs.Prelude.{◌*◌};
    ghost use Rattle.svc_spec.specs.Months.{cost_of_month};

    ghost account = { λ p. p.account };

    ghost room = { λ p. p.room };

    ghost cost = { λ a m. cost_of_month a (month_of a.terms.boarded) };

    ghost month_cost = { λ a m. 2 * cost_of_month a (month_of a.terms.boarded) };

    fn begin<L: Ledger>(
        alloc: Global,
        terms: Terms,
        today: Day,
        steps: &mut Steps<L>,
    ) -> Result<Plain, OutOfMemory> {
        let kept = LoanAccount::new(alloc, terms, today);
        let now = kept.refolded(today, steps);
        Ok(Plain { kept, now })
    }

    fn reserve(&mut self, today: Day) -> Result<(), OutOfMemory> {
        // no month takes room: each is before the end of the calendar
        let month = today.in_month().number();
        prove!(month < 25_692);
        self.kept.reserve()
    }

    fn post<L: Ledger>(&mut self, entry: Entry, steps: &mut Steps<L>) -> Result<(), BookFault> {
        self.kept.post(&entry)?;
        self.now = self.kept.refolded(self.kept.today(), steps);
        Ok(())
    }

    fn reverse<L: Ledger>(
        &mut self,
        number: u32,
        by: u32,
        steps: &mut Steps<L>,
    ) -> Result<(), BookFault> {
        self.kept.reverse(number, by)?;
        self.now = self.kept.refolded(self.kept.today(), steps);
        Ok(())
    }

    fn advance<L: Ledger>(&mut self, today: Day, steps: &mut Steps<L>) -> Result<(), OutOfMemory> {
        self.kept.advance(today);
        self.now = self.kept.refolded(self.kept.today(), steps);
        Ok(())
    }

    fn kept(&self) -> &LoanAccount {
        &self.kept
    }

    fn terms(&self) -> &Terms {
        self.kept.terms()
    }

    fn is_account(&self) {
        self.kept.is_account();
    }

    fn now(&self) -> &Books {
        &self.now
    }

    fn entry(&self, number: u32) -> Option<Entry> {
        self.kept.entry(number)
    }

    fn reversed_by(&self, number: u32) -> Option<u32> {
        self.kept.reversed_by(number)
    }

    fn books_at<L: Ledger>(&self, day: Day, steps: &mut Steps<L>) -> Books {
        self.kept.refolded(day, steps)
    }

    fn books_ahead<L: Ledger>(&self, day: Day, steps: &mut Steps<L>) -> Books {
        self.kept.refolded_ahead(day, steps)
    }

    fn month<L: Ledger>(&self, month: Month, steps: &mut Steps<L>) -> MonthFacts {
        let before = books_before(&self.kept, month, steps);
        let after = self.kept.refolded(end_day(&self.kept, month), steps);
        let first = Collected::of(&before);
        let last = Collected::of(&after);
        facts_between(month, &first, &last)
    }
}

/// The last day of a month, or the business day where that is earlier.
fn end_day(kept: &LoanAccount, month: Month) -> Day
    requires { month_number kept.now.account.terms.boarded ≤ month }
    ensures day { result ≡ months.end_day kept.now.account month }
    ensures after { kept.now.account.terms.boarded ≤ result }
    ensures until { result ≤ kept.now.account.today }
    ensures account { IsAccount kept.now.account }
{
    kept.is_account();
    let last = last_day(month);
    let today = kept.today();
    if today < last { today } else { last }
}

/// The books at the end of the month before, or at boarding.
fn books_before<L: Ledger>(kept: &LoanAccount, month: Month, steps: &mut Steps<L>) -> Books
    requires after { month_number kept.now.account.terms.boarded ≤ month }
    requires until { month ≤ month_number kept.now.account.today }
    ensures books { result ≡ months.books_at_end kept.now.account (month - 1) }
    ensures sound { AreBooks kept.now.account.terms result }
    ensures steps { steps.new ≤ steps.old
        + months.cost_of_month kept.now.account (month_number kept.now.account.terms.boarded) }
{
    kept.is_account();
    if month <= month_of(kept.terms().boarded) {
        return start(kept.terms());
    }
    kept.refolded(last_day(month.previous()), steps)
}
