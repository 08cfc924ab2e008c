//! Whether an insurance ends by itself, and when.

ghost use Rattle.std.specs.Prelude.{◌≡◌, ◌+◌, ◌-◌, ◌≤◌, Some, IfOk, OnErr, true};
ghost use Rattle.std.specs.List.{sum_by};
ghost use Rattle.svc_base.specs.Calendar.{IsReadDay, first_day as first_of, month_of as month_number};
ghost use Rattle.svc_types.specs.Terms.{IsSound};
ghost use Rattle.svc_spec.specs.Accounts.{books_of};
ghost use Rattle.svc_spec.specs.Books.{AreBooks};
ghost use Rattle.svc_world.specs.World.{world};
ghost use Rattle.pmi_track.specs.Insurance as insurance;
ghost use Rattle.pmi_track.specs.Loans.{OfLoan, terms_in, IsLater};
ghost use Rattle.pmi_track.specs.Schedule.{IsProgress, scheduled_on};

use crate::books::books_at_first;
use crate::insured_loan::InsuredLoan;
use crate::pmi_outcome::Cause;
use crate::schedule::{Progress, advanced};
use std::sync::ledger::Ledger;
use svc_apply::is_current;
use svc_base::{Cents, Day, Month, OutOfMemory, Steps, first_day, month_of};
use svc_core::Core;
use svc_replay::LoanBooks;
use svc_types::{Books, Terms};

/// Whether a balance is at most that percentage of the original value.
pub(crate) fn is_within(percent: u32, value: Cents, balance: Cents) -> bool
    ensures { result ≡ insurance.is_within percent value balance }
{
    100 * i128::from(balance) <= i128::from(percent) * i128::from(value)
}

/// Whether the insurance ends on a day, by the books of the day and the scheduled balance.
fn ends_with(books: &Books, terms: &Terms, day: Day, value: Cents, balance: Cents) -> bool
    requires terms { IsSound terms.now }
    requires boarded { IsReadDay terms.now.boarded }
    requires books { AreBooks terms.now books.now }
    ensures { result ≡ insurance.ends_with books.now terms.now day value balance }
{
    is_current(books, terms, day) && (books.satisfied.is_some() || is_within(78, value, balance))
}

/// Why an insurance ends on a day with these books.
fn cause_of(books: &Books) -> Cause
    ensures { result ≡ insurance.cause_of books.now }
{
    if books.satisfied.is_some() {
        Cause::PaidOff
    } else {
        Cause::Automatic
    }
}

/// The first day of a month and the cause, where the insurance ends on it.
fn end_in<B: LoanBooks, L: Ledger>(
    core: &Core<B>,
    insured: &InsuredLoan,
    terms: &Terms,
    month: Month,
    balance: Cents,
    steps: &mut Steps<L>,
) -> Result<Option<(Day, Cause)>, OutOfMemory>
    requires terms { terms_in (world core.now.history) insured.now.loan ≡ Some terms.now }
    requires later { IsLater core.now.history terms.now month }
    requires balance { balance ≡ scheduled_on terms.now (first_of month) }
    ensures end { IfOk result (λ end. OfLoan core.now.history insured.now.loan
        (λ a. end ≡ insurance.end_on a insured.now.value month)) }
    ensures steps { OfLoan core.now.history insured.now.loan (λ a. steps.new ≤ steps.old + B.cost a month) }
{
    core.history_holds();
    let books = books_at_first(core, insured.loan, terms, month, steps)?;
    let day = first_day(month);
    if ends_with(&books, terms, day, insured.value, balance) {
        return Ok(Some((day, cause_of(&books))));
    }
    Ok(None)
}

/// The first day on which the insurance ends by itself, and the cause: one walk over the months with one
/// running balance.
pub(crate) fn automatic_end<B: LoanBooks, L: Ledger>(
    core: &Core<B>,
    insured: &InsuredLoan,
    terms: &Terms,
    steps: &mut Steps<L>,
) -> Result<Option<(Day, Cause)>, OutOfMemory>
    requires terms { terms_in (world core.now.history) insured.now.loan ≡ Some terms.now }
    ensures end { IfOk result (λ end. OfLoan core.now.history insured.now.loan
        (λ a. end ≡ insurance.automatic_end a insured.now.value)) }
    ensures steps { OfLoan core.now.history insured.now.loan
        (λ a. steps.new ≤ steps.old + sum_by (B.cost a) (insurance.months_since a)) }
{
    core.history_holds();
    let boarded = month_of(terms.boarded);
    let months = month_of(core.today()).number() - boarded.number();
    let mut progress = begun(terms);
    for passed in 0..months {
        let month = boarded.plus(passed + 1);
        progress = advanced(terms, progress, month);
        if let Some(end) = end_in(core, insured, terms, month, progress.balance, steps)? {
            return Ok(Some(end));
        }
    }
    Ok(None)
}

/// The schedule of a loan in its boarded month: nothing is due.
fn begun(terms: &Terms) -> Progress
    requires { IsSound terms.now }
    ensures { IsProgress terms.now (month_number terms.now.boarded) result }
{
    Progress {
        due: 0,
        balance: terms.principal,
    }
}
