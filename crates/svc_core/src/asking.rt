//! What a query is answered.

ghost use Rattle.std.specs.Prelude.{◌≡◌, ◌+◌, ◌≤◌, ◌<◌, ◌||◌, ◌==◌, nat_lt, pos, Some, None, IfOk, IfErr, OnOk, OnErr, IfSome, is_some, true, [], ◌∷◌, length};
ghost use Rattle.std.specs.Option.{option_map, option_map_or};
ghost use Rattle.svc_base.specs.Calendar.{month_of as month_number, months_end};
ghost use Rattle.svc_types.specs.declared.replies.Refusal.{Refusal as AnyRefusal};
ghost use Rattle.svc_types.specs.declared.replies.Refusal.TheVariants as why;
ghost use Rattle.svc_types.specs.Requests.{IsQuery};
ghost use Rattle.svc_spec.specs.Accounts.{books_of};
ghost use Rattle.svc_spec.specs.Books.{AreBooks};
ghost use Rattle.custodial_book.specs.Rows.{rows_of_command};
ghost use Rattle.period_adjust.specs.Conditions.{first_month, last_month};
ghost use Rattle.period_adjust.specs.Kept.{AreConsecutive};
ghost use Rattle.svc_loan.specs.Loans.{held_in};
ghost use Rattle.svc_world.specs.Analysing as analysing;
ghost use Rattle.svc_world.specs.Answers as answers;
ghost use Rattle.svc_world.specs.Held.{find_loan, books_now};
ghost use Rattle.svc_world.specs.Judging.{report_for};
ghost use Rattle.svc_world.specs.Refusals as rule;
ghost use Rattle.svc_world.specs.declared.answer.Answer.TheVariants as answer;
ghost use Rattle.svc_core.specs.Asking.{AreOnDay, IsPayable, WantsMemory};
ghost use Rattle.svc_core.specs.Posted.{postings_in};
ghost use Rattle.svc_core.specs.Costs.{asking_month, asking_cost};
ghost use Rattle.svc_core.specs.Rows.{IsCash};
ghost use Rattle.svc_core.specs.State.{world_of, IsState};

use crate::desk::{
    ask_aging, ask_arrears, ask_command, ask_history, ask_key, ask_quote, ask_terms, is_unknown,
    status,
};
use crate::fault::CoreFault;
use crate::posted::Posted;
use custodial_book::Row;
use period_adjust::Report;
use std::alloc::Global;
use std::sync::ledger::Ledger;
use svc_apply::{open_installment, payoff_due};
use svc_base::{Cents, Day, Month, OutOfMemory, Steps, month_of};
use svc_custody::Cash;
use svc_loan::Loan;
use svc_replay::LoanBooks;
use svc_rules::{State, analysis_from, figures_with, refuse_day_of, refuse_report};
use svc_types::{Books, Installment, Query, Refusal};
use svc_world::{Answer, RowList};

/// What a query is answered. It is refused where a rule holds; beside that it fails for want of memory alone, and only
/// where the answer is a list.
#[tactic(auto, unfolding(svc_world::specs::Answers::refusal_from, svc_world::specs::Answers::answer_from))]
pub(crate) fn answer<B: LoanBooks, L: Ledger>(
    alloc: Global,
    posted: &Posted,
    state: &State<B>,
    cash: &Cash,
    query: &Query,
    steps: &mut Steps<L>,
) -> Result<Answer, CoreFault>
    requires state { IsState (length posted.now.history) state.now.today state.now.loans state.now.seals }
    requires cash { IsCash (length posted.now.history) (world_of state.now.today state.now.loans state.now.seals)
        cash.now.book.rows cash.now.custody cash.now.positions.items }
    requires query { IsQuery query.now }
    ensures refused { IfErr result (λ f. (cause : AnyRefusal) → f ≡ CoreFault.Refused cause →
        answers.refusal_from (world_of state.now.today state.now.loans state.now.seals)
        (postings_in posted.now.history posted.now.replies) query.now ≡ Some cause) }
    ensures memory { IfErr result (λ f. f ≡ CoreFault.OutOfMemory → WantsMemory query.now) }
    ensures asked { OnOk result (answers.refusal_from (world_of state.now.today state.now.loans state.now.seals)
        (postings_in posted.now.history posted.now.replies) query.now ≡ None) }
    ensures answer { IfOk result (λ a. answers.answer_from
        (world_of state.now.today state.now.loans state.now.seals) cash.now.book.rows
        (postings_in posted.now.history posted.now.replies) query.now ≡ Some a) }
    ensures steps { steps.new ≤ steps.old
        + asking_cost B.cost (world_of state.now.today state.now.loans state.now.seals) query.now }
{
    match query {
        Query::Books(id) => Ok(ask_books(state, *id)?),
        Query::At(id, day) => Ok(ask_at(state, *id, *day, steps)?),
        Query::Payoff(id, day) => Ok(ask_payoff(state, *id, *day, steps)?),
        Query::Escrow(id) => Ok(ask_escrow(state, *id)?),
        Query::Report(month) => Ok(Answer::Report(ask_report(state, *month)?)),
        Query::Trial(month) => Ok(Answer::Trial(ask_report(state, *month)?)),
        Query::Custodial => Ok(Answer::Custodial(cash.custody)),
        Query::Rows(number) => ask_rows(alloc, posted, cash, *number),
        Query::Loan(id) => ask_terms(alloc, state, *id),
        Query::History(id) => ask_history(alloc, state, *id, steps),
        Query::Quote(id, day) => Ok(ask_quote(state, *id, *day, steps)?),
        Query::Arrears(id) => Ok(ask_arrears(state, *id, steps)?),
        Query::Aging => ask_aging(alloc, state, steps),
        Query::Status => Ok(Answer::Status(status(posted, state))),
        Query::Command(number) => Ok(ask_command(posted, *number)?),
        Query::Key(key) => Ok(ask_key(posted, key)?),
    }
}

/// A loan's books at the business day.
fn ask_books<B: LoanBooks>(state: &State<B>, id: u32) -> Result<Answer, Refusal>
    requires { AreOnDay state.now.today state.now.loans.loans }
    ensures refused { IfErr result (λ cause. rule.first_of (rule.on_loan
        (world_of state.now.today state.now.loans state.now.seals) id (λ l. [])) ≡ Some cause) }
    ensures asked { OnOk result (rule.first_of (rule.on_loan
        (world_of state.now.today state.now.loans state.now.seals) id (λ l. [])) ≡ None) }
    ensures answer { IfOk result (λ a. answers.of_loan
        (world_of state.now.today state.now.loans state.now.seals) id
        (λ l. answers.books_answer l (books_now l)) ≡ Some a) }
{
    let loan = loan_named(state, id)?;
    Ok(books_answer(loan, loan.now()))
}

/// A loan's books at a day.
fn ask_at<B: LoanBooks, L: Ledger>(
    state: &State<B>,
    id: u32,
    day: Day,
    steps: &mut Steps<L>,
) -> Result<Answer, Refusal>
    requires { AreOnDay state.now.today state.now.loans.loans }
    ensures refused { IfErr result (λ cause. rule.first_of (rule.on_loan
        (world_of state.now.today state.now.loans state.now.seals) id (rule.day_cases
        (world_of state.now.today state.now.loans state.now.seals) day)) ≡ Some cause) }
    ensures asked { OnOk result (rule.first_of (rule.on_loan
        (world_of state.now.today state.now.loans state.now.seals) id (rule.day_cases
        (world_of state.now.today state.now.loans state.now.seals) day)) ≡ None) }
    ensures answer { IfOk result (λ a. answers.of_loan
        (world_of state.now.today state.now.loans state.now.seals) id
        (λ l. answers.books_answer l (books_of l.account day)) ≡ Some a) }
    ensures steps { steps.new ≤ steps.old + asking_month B.cost
        (world_of state.now.today state.now.loans state.now.seals) id (month_number day) }
{
    let loan = loan_named(state, id)?;
    at_answer(state, loan, day, steps)
}

/// The books of a loan that is there, at a day.
fn at_answer<B: LoanBooks, L: Ledger>(
    state: &State<B>,
    loan: &Loan<B>,
    day: Day,
    steps: &mut Steps<L>,
) -> Result<Answer, Refusal>
    requires { loan.now.held.account.today ≡ state.now.today }
    ensures refused { IfErr result (λ cause. rule.first_of (rule.day_cases
        (world_of state.now.today state.now.loans state.now.seals) day loan.now.held) ≡ Some cause) }
    ensures asked { OnOk result (rule.first_of (rule.day_cases
        (world_of state.now.today state.now.loans state.now.seals) day loan.now.held) ≡ None) }
    ensures answer { IfOk result (λ a.
        a ≡ answers.books_answer loan.now.held (books_of loan.now.held.account day)) }
    ensures steps { steps.new ≤ steps.old + B.cost loan.now.held.account (month_number day) }
{
    if let Some(cause) = refuse_day_of(state, loan, day) {
        return Err(cause);
    }
    Ok(books_answer(loan, &loan.books_at(day, steps)))
}

/// What pays a loan off on a day.
fn ask_payoff<B: LoanBooks, L: Ledger>(
    state: &State<B>,
    id: u32,
    day: Day,
    steps: &mut Steps<L>,
) -> Result<Answer, Refusal>
    requires { AreOnDay state.now.today state.now.loans.loans }
    ensures refused { IfErr result (λ cause. rule.first_of (rule.on_loan
        (world_of state.now.today state.now.loans state.now.seals) id (rule.day_cases
        (world_of state.now.today state.now.loans state.now.seals) day)) ≡ Some cause) }
    ensures asked { OnOk result (rule.first_of (rule.on_loan
        (world_of state.now.today state.now.loans state.now.seals) id (rule.day_cases
        (world_of state.now.today state.now.loans state.now.seals) day)) ≡ None) }
    ensures answer { IfOk result (λ a. answers.of_loan
        (world_of state.now.today state.now.loans state.now.seals) id
        (λ l. answer.Payoff id day (rule.payoff_due_on l day)) ≡ Some a) }
    ensures steps { steps.new ≤ steps.old + asking_month B.cost
        (world_of state.now.today state.now.loans state.now.seals) id (month_number day) }
{
    let loan = loan_named(state, id)?;
    let cents = payoff_at(state, loan, day, steps)?;
    Ok(Answer::Payoff {
        loan: id,
        day,
        cents,
    })
}

/// What pays a loan off that is there, on a day, in cents.
fn payoff_at<B: LoanBooks, L: Ledger>(
    state: &State<B>,
    loan: &Loan<B>,
    day: Day,
    steps: &mut Steps<L>,
) -> Result<Cents, Refusal>
    requires { loan.now.held.account.today ≡ state.now.today }
    ensures refused { IfErr result (λ cause. rule.first_of (rule.day_cases
        (world_of state.now.today state.now.loans state.now.seals) day loan.now.held) ≡ Some cause) }
    ensures asked { OnOk result (rule.first_of (rule.day_cases
        (world_of state.now.today state.now.loans state.now.seals) day loan.now.held) ≡ None) }
    ensures cents { IfOk result (λ cents. cents ≡ rule.payoff_due_on loan.now.held day) }
    ensures steps { steps.new ≤ steps.old + B.cost loan.now.held.account (month_number day) }
{
    if let Some(cause) = refuse_day_of(state, loan, day) {
        return Err(cause);
    }
    loan.is_sound();
    Ok(payoff_due(&loan.books_at(day, steps), loan.terms(), day))
}

/// What an escrow analysis on the business day would find.
fn ask_escrow<B: LoanBooks>(state: &State<B>, id: u32) -> Result<Answer, Refusal>
    requires on_day { AreOnDay state.now.today state.now.loans.loans }
    requires calendar { month_number state.now.today + 1 < months_end }
    ensures refused { IfErr result (λ cause. rule.first_of (rule.on_loan
        (world_of state.now.today state.now.loans state.now.seals) id (λ l. [])) ≡ Some cause) }
    ensures asked { OnOk result (rule.first_of (rule.on_loan
        (world_of state.now.today state.now.loans state.now.seals) id (λ l. [])) ≡ None) }
    ensures answer { IfOk result (λ a. answers.of_loan
        (world_of state.now.today state.now.loans state.now.seals) id
        (λ l. answer.Escrow id (analysing.asked_figures l) (analysing.analysis_of l)) ≡ Some a) }
{
    let loan = loan_named(state, id)?;
    let begins = month_of(state.today).plus(1);
    let analysis = analysis_from(loan, begins);
    let figures = figures_with(loan, state.today, 0, 0, analysis.base);
    Ok(Answer::Escrow {
        loan: id,
        figures,
        analysis,
    })
}

/// The report of a closed month; beside a refusal it fails for want of memory alone.
fn ask_report<B: LoanBooks>(state: &State<B>, month: Month) -> Result<Report, CoreFault>
    ensures refused { IfErr result (λ f. (cause : AnyRefusal) → f ≡ CoreFault.Refused cause → rule.first_of
        (rule.report_cases (world_of state.now.today state.now.loans state.now.seals) month) ≡ Some cause) }
    ensures asked { OnOk result (rule.first_of
        (rule.report_cases (world_of state.now.today state.now.loans state.now.seals) month) ≡ None) }
    ensures report { IfOk result (λ r. report_for month state.now.seals.reporting.reports ≡ Some r) }
{
    if let Some(cause) = refuse_report(state, month) {
        return Err(CoreFault::Refused(cause));
    }
    let report = report_there(state.seals.reports(), month);
    Ok(report.copy()?)
}

/// The custodial rows of a command; beside a refusal it fails for want of memory alone.
fn ask_rows(alloc: Global, posted: &Posted, cash: &Cash, number: u32) -> Result<Answer, CoreFault>
    ensures refused { IfErr result (λ f. (cause : AnyRefusal) → f ≡ CoreFault.Refused cause → rule.first_of
        (rule.case ((number == 0) || nat_lt (length (postings_in posted.now.history posted.now.replies)) number)
        why.NoSuchEntry ∷ []) ≡ Some cause) }
    ensures asked { OnOk result (rule.first_of
        (rule.case ((number == 0) || nat_lt (length (postings_in posted.now.history posted.now.replies)) number)
        why.NoSuchEntry ∷ []) ≡ None) }
    ensures answer { IfOk result (λ a. a ≡ answer.Rows number (rows_of_command number cash.now.book.rows)) }
{
    if is_unknown(posted, number) {
        return Err(CoreFault::Refused(Refusal::NoSuchEntry));
    }
    let rows = copied(alloc, cash.book.rows(number))?;
    Ok(Answer::Rows { number, rows })
}

/// The loan with that number.
pub(crate) fn loan_named<B: LoanBooks>(state: &State<B>, id: u32) -> Result<&Loan<B>, Refusal>
    requires { AreOnDay state.now.today state.now.loans.loans }
    ensures found { IfOk result (λ r. find_loan id (held_in state.now.loans.loans) ≡ Some r.now.held) }
    ensures today { IfOk result (λ r. r.now.held.account.today ≡ state.now.today) }
    ensures missing { OnErr result (find_loan id (held_in state.now.loans.loans) ≡ None) }
    ensures cause { IfErr result (λ cause. cause ≡ why.NoSuchLoan) }
{
    match state.loans.get(id) {
        Some(loan) => Ok(loan),
        None => Err(Refusal::NoSuchLoan),
    }
}

/// The report of a month that is closed.
fn report_there(reports: &[Report], month: Month) -> &Report
    requires consecutive { AreConsecutive reports.now }
    requires closed { is_some (last_month reports.now) ≡ true }
    requires last { IfSome (last_month reports.now) (λ last. month ≤ last) }
    requires first { IfSome (first_month reports.now) (λ first. first ≤ month) }
    ensures { report_for month reports.now ≡ Some result.now }
{
    let first = reports[0].month();
    &reports[(month.number() - first.number()) as usize]
}

/// A list of some rows.
fn copied(alloc: Global, rows: &[Row]) -> Result<RowList, OutOfMemory>
    ensures { IfOk result (λ l. l ≡ rows.now) }
{
    Ok(RowList::from_vec(rows.to_vec(alloc)?))
}

/// A loan's books, the month of its open installment, where one is open, and the whole of that.
#[tactic(auto, using(crate::proofs::AskLemmas::open_is_payable))]
fn books_answer<B: LoanBooks>(loan: &Loan<B>, books: &Books) -> Answer
    requires { AreBooks loan.now.held.account.terms books.now }
    ensures { result ≡ answers.books_answer loan.now.held books.now }
{
    loan.is_sound();
    let asked = open_installment(books, loan.terms());
    Answer::Books {
        loan: loan.id(),
        books: *books,
        next: due_month(&asked),
        pay: whole_of(&asked),
    }
}

/// The month in which an installment is due.
fn due_month(asked: &Option<Installment>) -> Option<Month>
    ensures { result ≡ option_map (λ i. month_number i.due) asked.now }
{
    match asked {
        None => None,
        Some(asked) => Some(month_of(asked.due)),
    }
}

/// The whole of an installment, in cents; 0 where none is open.
#[tactic(auto, using(svc_base::proofs::CentsRules::cents))]
fn whole_of(asked: &Option<Installment>) -> Cents
    requires parts { IfSome asked.now IsPayable }
    ensures { result ≡ option_map_or answers.whole_of asked.now (pos 0) }
{
    match asked {
        None => 0,
        Some(asked) => asked.interest + asked.principal + asked.escrow,
    }
}
