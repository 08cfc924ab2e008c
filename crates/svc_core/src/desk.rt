//! What the desk is told.

ghost use Rattle.std.specs.Prelude.{◌≡◌, ◌+◌, ◌≤◌, ◌<◌, ◌||◌, ◌==◌, not, nat_lt, None, Some, IfOk, IfErr, OnOk, IfSome, is_some, false, [], ◌∷◌, length};
ghost use Rattle.std.specs.Option.{option_map, option_map_or};
ghost use Rattle.svc_base.specs.Calendar.{months_end};
ghost use Rattle.svc_types.specs.declared.replies.Refusal.{Refusal as AnyRefusal};
ghost use Rattle.svc_types.specs.declared.replies.Refusal.TheVariants as why;
ghost use Rattle.svc_spec.specs.Arrears.{arrears_of};
ghost use Rattle.svc_spec.specs.History.{history_of};
ghost use Rattle.svc_spec.specs.Months.{cost_of_month};
ghost use Rattle.period_adjust.specs.Conditions.{last_month};
ghost use Rattle.svc_loan.specs.Loans.{held_in};
ghost use Rattle.svc_world.specs.Answers as answers;
ghost use Rattle.svc_world.specs.Desk as desk;
ghost use Rattle.svc_world.specs.Held.{find_loan, books_now, boarded_month};
ghost use Rattle.svc_world.specs.Refusals as rule;
ghost use Rattle.svc_world.specs.declared.answer.Answer.TheVariants as answer;
ghost use Rattle.svc_desk.specs.Costs.{quote_cost, arrears_cost, aging_cost};
ghost use Rattle.svc_core.specs.Asking.{AreOnDay};
ghost use Rattle.svc_core.specs.Posted.{postings_in};
ghost use Rattle.svc_core.specs.State.{world_of, IsState};

use crate::asking::loan_named;
use crate::fault::CoreFault;
use crate::posted::Posted;
use period_adjust::Seals;
use std::alloc::Global;
use std::sync::ledger::Ledger;
use svc_base::{Day, Month, Steps};
use svc_desk::{aging_answer, arrears_answer, history_answer, quote_answer, terms_answer};
use svc_loan::Loan;
use svc_replay::LoanBooks;
use svc_rules::{State, next_to_close, next_to_remit};
use svc_types::{Key, Refusal};
use svc_world::{Answer, BooksStatus};

/// A loan's terms, escrow lines and changes of type; beside a refusal it fails for want of memory alone.
pub(crate) fn ask_terms<B: LoanBooks>(
    alloc: Global,
    state: &State<B>,
    id: u32,
) -> Result<Answer, CoreFault>
    requires { AreOnDay state.now.today state.now.loans.loans }
    ensures refused { IfErr result (λ f. (cause : AnyRefusal) → f ≡ CoreFault.Refused cause →
        rule.first_of (rule.on_loan (world_of state.now.today state.now.loans state.now.seals) id (λ l. []))
        ≡ Some cause) }
    ensures asked { OnOk result (rule.first_of (rule.on_loan
        (world_of state.now.today state.now.loans state.now.seals) id (λ l. [])) ≡ None) }
    ensures answer { IfOk result (λ a. answers.of_loan
        (world_of state.now.today state.now.loans state.now.seals) id
        (λ l. answer.Loan id l.account.terms l.lines l.types) ≡ Some a) }
{
    let loan = loan_named(state, id)?;
    Ok(terms_answer(alloc, loan)?)
}

/// A loan's history; beside a refusal it fails for want of memory alone.
pub(crate) fn ask_history<B: LoanBooks, L: Ledger>(
    alloc: Global,
    state: &State<B>,
    id: u32,
    steps: &mut Steps<L>,
) -> Result<Answer, CoreFault>
    requires { AreOnDay state.now.today state.now.loans.loans }
    ensures refused { IfErr result (λ f. (cause : AnyRefusal) → f ≡ CoreFault.Refused cause →
        rule.first_of (rule.on_loan (world_of state.now.today state.now.loans state.now.seals) id (λ l. []))
        ≡ Some cause) }
    ensures asked { OnOk result (rule.first_of (rule.on_loan
        (world_of state.now.today state.now.loans state.now.seals) id (λ l. [])) ≡ None) }
    ensures answer { IfOk result (λ a. answers.of_loan
        (world_of state.now.today state.now.loans state.now.seals) id
        (λ l. answer.History id state.now.today (history_of l.account) l.account.reversals) ≡ Some a) }
    ensures steps { steps.new ≤ steps.old + option_map_or (λ l. cost_of_month l.account (boarded_month l))
        (find_loan id (held_in state.now.loans.loans)) 0 }
{
    let loan = loan_named(state, id)?;
    Ok(history_answer(alloc, loan, state.today, steps)?)
}

/// What pays a loan off on a day, also one after the business day.
pub(crate) fn ask_quote<B: LoanBooks, L: Ledger>(
    state: &State<B>,
    id: u32,
    day: Day,
    steps: &mut Steps<L>,
) -> Result<Answer, Refusal>
    requires { AreOnDay state.now.today state.now.loans.loans }
    ensures refused { IfErr result (λ cause. rule.first_of (rule.on_loan
        (world_of state.now.today state.now.loans state.now.seals) id (λ l. rule.before_boarding l day ∷ [])) ≡ Some cause) }
    ensures asked { OnOk result (rule.first_of (rule.on_loan
        (world_of state.now.today state.now.loans state.now.seals) id (λ l. rule.before_boarding l day ∷ [])) ≡ None) }
    ensures answer { IfOk result (λ a. answers.of_loan
        (world_of state.now.today state.now.loans state.now.seals) id
        (λ l. answer.Quote id day (desk.quoted l day) (desk.per_day l day)) ≡ Some a) }
    ensures steps { steps.new ≤ steps.old + option_map_or (quote_cost B.cost day)
        (find_loan id (held_in state.now.loans.loans)) 0 }
{
    let loan = loan_named(state, id)?;
    let boarded = loan.terms().boarded;
    if day < boarded {
        return Err(Refusal::BeforeBoarding(boarded));
    }
    Ok(quote_answer(loan, state.today, day, steps))
}

/// What brings a loan current on the business day.
pub(crate) fn ask_arrears<B: LoanBooks, L: Ledger>(
    state: &State<B>,
    id: u32,
    steps: &mut Steps<L>,
) -> Result<Answer, Refusal>
    requires { AreOnDay state.now.today state.now.loans.loans }
    ensures refused { IfErr result (λ cause. rule.first_of (rule.on_loan
        (world_of state.now.today state.now.loans state.now.seals) id (λ l. [])) ≡ Some cause) }
    ensures asked { OnOk result (rule.first_of (rule.on_loan
        (world_of state.now.today state.now.loans state.now.seals) id (λ l. [])) ≡ None) }
    ensures answer { IfOk result (λ a. answers.of_loan
        (world_of state.now.today state.now.loans state.now.seals) id
        (λ l. answer.Arrears id state.now.today (arrears_of l.account.terms state.now.today (books_now l))) ≡ Some a) }
    ensures steps { steps.new ≤ steps.old + option_map_or (arrears_cost state.now.today)
        (find_loan id (held_in state.now.loans.loans)) 0 }
{
    let loan = loan_named(state, id)?;
    Ok(arrears_answer(loan, state.today, steps))
}

/// Who is late on the business day; it fails for want of memory alone.
pub(crate) fn ask_aging<B: LoanBooks, L: Ledger>(
    alloc: Global,
    state: &State<B>,
    steps: &mut Steps<L>,
) -> Result<Answer, CoreFault>
    requires today { AreOnDay state.now.today state.now.loans.loans }
    requires few { length state.now.loans.loans ≤ 12_000 }
    ensures fault { IfErr result (λ f. f ≡ CoreFault.OutOfMemory) }
    ensures answer { IfOk result (λ a. a ≡ answer.Aging state.now.today
        (desk.late_loans state.now.today (held_in state.now.loans.loans))
        (desk.counts_of state.now.today (held_in state.now.loans.loans))) }
    ensures steps { steps.new ≤ steps.old + aging_cost state.now.today (held_in state.now.loans.loans) }
{
    Ok(aging_answer(alloc, &state.loans, state.today, steps)?)
}

/// Where the books stand.
pub(crate) fn status<B: LoanBooks>(posted: &Posted, state: &State<B>) -> BooksStatus
    requires { IsState (length posted.now.history) state.now.today state.now.loans state.now.seals }
    ensures { result ≡ desk.status_of (length (postings_in posted.now.history posted.now.replies))
        (world_of state.now.today state.now.loans state.now.seals) }
{
    posted.is_replied();
    BooksStatus {
        today: state.today,
        loans: state.loans.len() as u32,
        commands: posted.count() as u32,
        closed: state.seals.closed(),
        remitted: state.seals.remitted(),
        close: next_to_close(state),
        remit: remit_next(&state.seals),
        pending: state.seals.pending().len() as u32,
        adjustments: state.seals.held(),
    }
}

/// The month that `remit` expects; none where no month is closed.
fn remit_next(seals: &Seals) -> Option<Month>
    requires { IfSome (last_month seals.now.reporting.reports) (λ last. last + 1 < months_end) }
    ensures { result ≡ desk.next_remit_of seals.now.remitted seals.now.reporting.reports }
{
    match seals.closed() {
        Some(_) => Some(next_to_remit(seals)),
        None => None,
    }
}

/// The command with a number, and its reply.
pub(crate) fn ask_command(posted: &Posted, number: u32) -> Result<Answer, Refusal>
    ensures refused { IfErr result (λ cause. rule.first_of (rule.case ((number == 0) || nat_lt (length
        (postings_in posted.now.history posted.now.replies)) number) why.NoSuchCommand ∷ []) ≡ Some cause) }
    ensures asked { OnOk result (rule.first_of (rule.case ((number == 0) || nat_lt (length
        (postings_in posted.now.history posted.now.replies)) number) why.NoSuchCommand ∷ []) ≡ None) }
    ensures answer { IfOk result (λ a. option_map answers.posting_answer
        (desk.nth_posting number (postings_in posted.now.history posted.now.replies)) ≡ Some a) }
{
    if is_unknown(posted, number) {
        return Err(Refusal::NoSuchCommand);
    }
    Ok(posting_answer(posted, number))
}

/// Whether no accepted command has the number.
pub(crate) fn is_unknown(posted: &Posted, number: u32) -> bool
    ensures value { result ≡ ((number == 0)
        || nat_lt (length (postings_in posted.now.history posted.now.replies)) number) }
    ensures some { result ≡ false → 1 ≤ number }
    ensures few { result ≡ false → number ≤ length posted.now.history }
{
    posted.is_replied();
    number == 0 || posted.count() < number as usize
}

/// The command with a key, and its reply.
pub(crate) fn ask_key(posted: &Posted, key: &Key) -> Result<Answer, Refusal>
    ensures refused { IfErr result (λ cause. rule.first_of (rule.case (not (is_some (desk.posting_under key.now
        (postings_in posted.now.history posted.now.replies)))) why.NoSuchCommand ∷ []) ≡ Some cause) }
    ensures asked { OnOk result (rule.first_of (rule.case (not (is_some (desk.posting_under key.now
        (postings_in posted.now.history posted.now.replies)))) why.NoSuchCommand ∷ []) ≡ None) }
    ensures answer { IfOk result (λ a. option_map answers.posting_answer
        (desk.posting_under key.now (postings_in posted.now.history posted.now.replies)) ≡ Some a) }
{
    posted.is_replied();
    match posted.number_of(key) {
        Some(number) => Ok(posting_answer(posted, number)),
        None => Err(Refusal::NoSuchCommand),
    }
}

/// The command with a number, from 1, and its reply.
fn posting_answer(posted: &Posted, number: u32) -> Answer
    requires some { 1 ≤ number }
    requires few { number ≤ length posted.now.history }
    ensures { option_map answers.posting_answer
        (desk.nth_posting number (postings_in posted.now.history posted.now.replies)) ≡ Some result }
{
    let reply = posted.reply(number);
    match posted.command(number) {
        Some(posted) => Answer::Command {
            key: posted.0,
            command: posted.1,
            reply,
        },
        None => unreachable!(),
    }
}
