//! What the desk is told of one loan.

ghost use Rattle.std.specs.Prelude.{◌≡◌, ◌+◌, ◌≤◌, IfOk};
ghost use Rattle.svc_base.specs.Calendar.{month_of as month_number};
ghost use Rattle.svc_spec.specs.Arrears.{arrears_of, installments_due};
ghost use Rattle.svc_spec.specs.Books.{AreBooks};
ghost use Rattle.svc_spec.specs.History.{history_of};
ghost use Rattle.svc_spec.specs.Months.{cost_of_month};
ghost use Rattle.svc_world.specs.declared.answer.Answer.TheVariants as answer;
ghost use Rattle.svc_world.specs.Held.{books_now};
ghost use Rattle.svc_world.specs.Desk.{books_on, quoted, per_day};
ghost use Rattle.svc_desk.specs.Costs.{quote_cost};

use std::alloc::Global;
use std::sync::ledger::Ledger;
use svc_apply::{arrears, payoff_due};
use svc_base::{Day, OutOfMemory, Steps, day_interest};
use svc_loan::Loan;
use svc_replay::{LoanBooks, history};
use svc_types::Books;
use svc_world::{Answer, ListOf};

/// A loan's terms, its escrow lines as they stand, and its changes of type as they were accepted. Errs only where memory
/// is short.
pub fn terms_answer<B: LoanBooks>(alloc: Global, loan: &Loan<B>) -> Result<Answer, OutOfMemory>
    ensures { IfOk result (λ a. a ≡ answer.Loan loan.now.held.id loan.now.held.account.terms
        loan.now.held.lines loan.now.held.types) }
{
    let lines = loan.lines().slice().to_vec(alloc)?;
    let types = loan.types().to_vec(alloc)?;
    Ok(Answer::Loan {
        loan: loan.id(),
        terms: *loan.terms(),
        lines: ListOf::from_vec(lines),
        types: ListOf::from_vec(types),
    })
}

/// What each event up to the business day did to a loan, and the reversed entries. Errs only where memory is short.
pub fn history_answer<B: LoanBooks, L: Ledger>(
    alloc: Global,
    loan: &Loan<B>,
    today: Day,
    steps: &mut Steps<L>,
) -> Result<Answer, OutOfMemory>
    ensures answer { IfOk result (λ a. a ≡ answer.History loan.now.held.id today
        (history_of loan.now.held.account) loan.now.held.account.reversals) }
    ensures steps { steps.new ≤ steps.old + cost_of_month loan.now.held.account
        (month_number loan.now.held.account.terms.boarded) }
{
    let account = loan.account();
    let lines = history(alloc, account, steps)?;
    let reversed = account.reversals().to_vec(alloc)?;
    Ok(Answer::History {
        loan: loan.id(),
        day: today,
        lines: ListOf::from_vec(lines),
        reversed: ListOf::from_vec(reversed),
    })
}

/// What pays a loan off on a day, after the business day as if nothing else were booked, and the interest of a day.
#[tactic(auto, using(svc_base::proofs::CentsRules::cents))]
pub fn quote_answer<B: LoanBooks, L: Ledger>(
    loan: &Loan<B>,
    today: Day,
    day: Day,
    steps: &mut Steps<L>,
) -> Answer
    requires today { loan.now.held.account.today ≡ today }
    requires since { loan.now.held.account.terms.boarded ≤ day }
    ensures answer { result ≡ answer.Quote loan.now.held.id day (quoted loan.now.held day)
        (per_day loan.now.held day) }
    ensures steps { steps.new ≤ steps.old + quote_cost B.cost day loan.now.held }
{
    let books = books_on_day(loan, today, day, steps);
    loan.is_sound();
    let terms = loan.terms();
    Answer::Quote {
        loan: loan.id(),
        day,
        cents: payoff_due(&books, terms, day),
        perday: day_interest(books.upb, terms.rate, 1),
    }
}

/// A loan's books on a day: after the business day those of the account advanced to it.
fn books_on_day<B: LoanBooks, L: Ledger>(
    loan: &Loan<B>,
    today: Day,
    day: Day,
    steps: &mut Steps<L>,
) -> Books
    requires today { loan.now.held.account.today ≡ today }
    requires since { loan.now.held.account.terms.boarded ≤ day }
    ensures books { result ≡ books_on loan.now.held day }
    ensures sound { AreBooks loan.now.held.account.terms result }
    ensures steps { steps.new ≤ steps.old + quote_cost B.cost day loan.now.held }
{
    if day <= today {
        loan.books_at(day, steps)
    } else {
        loan.books_ahead(day, steps)
    }
}

/// What brings a loan current on the business day.
pub fn arrears_answer<B: LoanBooks, L: Ledger>(
    loan: &Loan<B>,
    today: Day,
    steps: &mut Steps<L>,
) -> Answer
    ensures answer { result ≡ answer.Arrears loan.now.held.id today
        (arrears_of loan.now.held.account.terms today (books_now loan.now.held)) }
    ensures steps { steps.new ≤ steps.old
        + installments_due loan.now.held.account.terms today (books_now loan.now.held) }
{
    loan.is_sound();
    Answer::Arrears {
        loan: loan.id(),
        day: today,
        arrears: arrears(loan.now(), loan.terms(), today, steps),
    }
}
