//! The books of a loan on a day.

ghost use Rattle.std.specs.Prelude.{◌≡◌, ◌+◌, ◌≤◌, None, Some, IfErr, IfOk, OnOk};
ghost use Rattle.svc_base.specs.Calendar.{IsReadDay, first_day as first_of, month_of as month_number};
ghost use Rattle.svc_spec.specs.Accounts.{books_of};
ghost use Rattle.svc_world.specs.World.{world};
ghost use Rattle.svc_core.specs.Core.{IsQueryFault};
ghost use Rattle.svc_core.specs.Costs.{asking_month};
ghost use Rattle.pmi_track.specs.Loans.{OfLoan, books_in as books_told, day_refusal, terms_in, IsLater};

use std::sync::ledger::Ledger;
use svc_base::{Day, Month, OutOfMemory, Steps, first_day};
use svc_core::{Core, CoreFault};
use svc_replay::LoanBooks;
use svc_types::{Books, Query, Refusal, Terms};
use svc_world::Answer;

/// The books of a loan on a day. It is refused where the loan is not there or has no books on that
/// day; beside that it fails for want of memory alone.
pub(crate) fn books_on<B: LoanBooks, L: Ledger>(
    core: &Core<B>,
    loan: u32,
    day: Day,
    steps: &mut Steps<L>,
) -> Result<Books, CoreFault>
    requires day { IsReadDay day }
    ensures books { IfOk result (λ b. OfLoan core.now.history loan (λ a. b ≡ books_of a day)) }
    ensures told { OnOk result (day_refusal core.now.history loan day ≡ None) }
    ensures refused { IfErr result (IsQueryFault (day_refusal core.now.history loan day)) }
    ensures steps { steps.new ≤ steps.old
        + asking_month B.cost (world core.now.history) loan (month_number day) }
{
    let answer = core.ask(&Query::At(loan, day), steps)?;
    match books_in(&answer) {
        Some(books) => Ok(books),
        None => unreachable!(),
    }
}

/// The books of a loan that is there, on any day. It is refused after the business day and before the boarded day, so on
/// each day that no request can name; beside that it fails for want of memory alone.
pub(crate) fn books_on_any<B: LoanBooks, L: Ledger>(
    core: &Core<B>,
    loan: u32,
    terms: &Terms,
    day: Day,
    steps: &mut Steps<L>,
) -> Result<Books, CoreFault>
    requires terms { terms_in (world core.now.history) loan ≡ Some terms.now }
    ensures books { IfOk result (λ b. OfLoan core.now.history loan (λ a. b ≡ books_of a day)) }
    ensures told { OnOk result (day_refusal core.now.history loan day ≡ None) }
    ensures refused { IfErr result (IsQueryFault (day_refusal core.now.history loan day)) }
    ensures steps { steps.new ≤ steps.old
        + asking_month B.cost (world core.now.history) loan (month_number day) }
{
    core.history_holds();
    let today = core.today();
    if day > today {
        return Err(CoreFault::Refused(Refusal::FutureDated(today)));
    }
    if day < terms.boarded {
        return Err(CoreFault::Refused(Refusal::BeforeBoarding(terms.boarded)));
    }
    // the calendar has the day
    let place = day.day();
    prove!(place >= 1);
    books_on(core, loan, day, steps)
}

/// The books that an answer tells.
fn books_in(answer: &Answer) -> Option<Books>
    ensures { result ≡ books_told answer.now }
{
    match answer {
        Answer::Books { books, .. } => Some(*books),
        _ => None,
    }
}

/// The books on the first day of a month after the boarded one, up to the business day's.
pub(crate) fn books_at_first<B: LoanBooks, L: Ledger>(
    core: &Core<B>,
    loan: u32,
    terms: &Terms,
    month: Month,
    steps: &mut Steps<L>,
) -> Result<Books, OutOfMemory>
    requires terms { terms_in (world core.now.history) loan ≡ Some terms.now }
    requires later { IsLater core.now.history terms.now month }
    ensures books { IfOk result (λ b. OfLoan core.now.history loan (λ a. b ≡ books_of a (first_of month))) }
    ensures steps { OfLoan core.now.history loan (λ a. steps.new ≤ steps.old + B.cost a month) }
{
    core.history_holds();
    match books_on(core, loan, first_day(month), steps) {
        Ok(books) => Ok(books),
        Err(CoreFault::OutOfMemory) => Err(OutOfMemory),
        Err(CoreFault::Refused(_)) => unreachable!(),
    }
}
