//! What a command on one loan makes of the world.

ghost use Rattle.std.specs.Prelude.{◌≡◌, ◌+◌, ◌*◌, ◌≤◌, ◌<◌, None, Some, length, vec_capacity};
ghost use Rattle.std.specs.List.{All};
ghost use Rattle.svc_base.specs.Calendar.{month_of as month_number, months_end};
ghost use Rattle.svc_types.specs.Requests.{IsCommand};
ghost use Rattle.svc_types.specs.declared.requests.Command.TheVariants as request;
ghost use Rattle.svc_types.specs.declared.account.Act.TheVariants as act;
ghost use Rattle.svc_spec.specs.Books.{IsAct};
ghost use Rattle.svc_world.specs.Analysing as world;
ghost use Rattle.svc_world.specs.Judging.{extra_of};
ghost use Rattle.svc_world.specs.Refusals.{refusal_of};
ghost use Rattle.svc_world.specs.World.{after};
ghost use Rattle.svc_loan.specs.Kept.{IsReady};
ghost use Rattle.svc_loan.specs.Loans.{IsThere, OfLoan};
ghost use Rattle.svc_custody.specs.Cash.{IsKeptIn};
ghost use Rattle.svc_core.specs.Changing as rule;
ghost use Rattle.svc_core.specs.Costs.{accepting_cost};
ghost use Rattle.svc_world.specs.Scope.{scope_of};
ghost use Rattle.svc_core.specs.State.{IsState, world_of};

use crate::entering::{enter, reverse};
use escrow_lines::Line;
use remit_types::MonthDue;
use std::sync::ledger::Ledger;
use svc_base::{Day, Month, Steps};
use svc_loan::{Loans, Place};
use svc_replay::LoanBooks;
use svc_rules::{State, figures_of, settle_now};
use svc_types::{Act, Command, Entry, Extra, Figures, Plan, RemitType, Settled};
use svc_world::Scope;

/// Makes the change of a command on one loan, as the one after `count` others, and answers what its reply
/// says beside its number.
pub(crate) fn change_one<B: LoanBooks, L: Ledger>(
    count: u32,
    place: Place,
    command: &Command,
    state: &mut State<B>,
    dues: &mut Vec<MonthDue>,
    steps: &mut Steps<L>,
) -> Extra
    requires place { IsThere place state.old.loans.loans }
    requires state { IsState count state.old.today state.old.loans state.old.seals }
    requires command { IsCommand command.now }
    requires scope { scope_of command.now ≡ Scope.One place.id }
    requires fresh { refusal_of count (world_of state.old.today state.old.loans state.old.seals) command.now
        ≡ None }
    requires loan { OfLoan place.id state.old.loans.loans (IsReady state.old.today) }
    requires dues { 2 * length state.old.seals.reporting.reports ≤ vec_capacity dues.old }
    requires adjustments { length state.old.seals.reporting.reports ≤ state.old.seals.adjustment_room }
    ensures world { world_of state.new.today state.new.loans state.new.seals
        ≡ after (count + 1) (world_of state.old.today state.old.loans state.old.seals) command.now }
    ensures place { IsThere place state.new.loans.loans }
    ensures kept { All (IsKeptIn (world_of state.new.today state.new.loans state.new.seals))
        state.new.loans.loans }
    ensures extra { result ≡ extra_of (world_of state.old.today state.old.loans state.old.seals)
        (after (count + 1) (world_of state.old.today state.old.loans state.old.seals) command.now)
        command.now }
    ensures steps { steps.new ≤ steps.old + accepting_cost B.cost B.month_cost
        (world_of state.old.today state.old.loans state.old.seals)
        (world_of state.new.today state.new.loans state.new.seals) command.now }
{
    match entry_made(count + 1, state.today, command) {
        Some(entry) => {
            enter(count, place, &entry, state, dues, steps);
            Extra::Plain
        }
        None => change_other(count, place, command, state, dues, steps),
    }
}

/// The entry that a command makes by what it says alone, under its number. That of an analysis asks for
/// the loan.
fn entry_made(number: u32, today: Day, command: &Command) -> Option<Entry>
    ensures { result ≡ rule.entry_made number today command.now }
{
    let (day, act) = match *command {
        Command::Pay(_, day, cents, over) => (day, Act::Pay(cents, over)),
        Command::Curtail(_, day, cents) => (day, Act::Curtail(cents)),
        Command::Payoff(_, day, cents) => (day, Act::Payoff(cents)),
        Command::Deposit(_, day, cents) => (day, Act::Deposit(cents)),
        Command::Disburse {
            day,
            amount,
            line,
            ..
        } => (day, Act::Disburse(amount, line)),
        Command::Refund(_, cents) => (today, Act::Refund(cents)),
        Command::Waive(_, cents) => (today, Act::Waive(cents)),
        Command::Reverse { .. } | Command::Analyse(..) | Command::Retype { .. } => return None,
        Command::Line { .. } | Command::Drop { .. } => return None,
        Command::Day(_) | Command::Board(..) | Command::Close(_) | Command::Remit(_) => return None,
    };
    Some(Entry { number, day, act })
}

/// Makes the change of a command on one loan that makes no entry by what it says alone.
fn change_other<B: LoanBooks, L: Ledger>(
    count: u32,
    place: Place,
    command: &Command,
    state: &mut State<B>,
    dues: &mut Vec<MonthDue>,
    steps: &mut Steps<L>,
) -> Extra
    requires place { IsThere place state.old.loans.loans }
    requires state { IsState count state.old.today state.old.loans state.old.seals }
    requires command { IsCommand command.now }
    requires scope { scope_of command.now ≡ Scope.One place.id }
    requires fresh { refusal_of count (world_of state.old.today state.old.loans state.old.seals) command.now
        ≡ None }
    requires loan { OfLoan place.id state.old.loans.loans (IsReady state.old.today) }
    requires dues { 2 * length state.old.seals.reporting.reports ≤ vec_capacity dues.old }
    requires adjustments { length state.old.seals.reporting.reports ≤ state.old.seals.adjustment_room }
    requires other { rule.entry_made (count + 1) state.old.today command.now ≡ None }
    ensures world { world_of state.new.today state.new.loans state.new.seals
        ≡ after (count + 1) (world_of state.old.today state.old.loans state.old.seals) command.now }
    ensures place { IsThere place state.new.loans.loans }
    ensures kept { All (IsKeptIn (world_of state.new.today state.new.loans state.new.seals))
        state.new.loans.loans }
    ensures extra { result ≡ extra_of (world_of state.old.today state.old.loans state.old.seals)
        (after (count + 1) (world_of state.old.today state.old.loans state.old.seals) command.now)
        command.now }
    ensures steps { steps.new ≤ steps.old + accepting_cost B.cost B.month_cost
        (world_of state.old.today state.old.loans state.old.seals)
        (world_of state.new.today state.new.loans state.new.seals) command.now }
{
    match *command {
        Command::Reverse { number, .. } => {
            reverse(count, place, number, state, dues, steps);
            Extra::Plain
        }
        Command::Line {
            line,
            kind,
            month,
            every,
            amount,
            ..
        } => {
            let line = Line {
                id: line,
                kind,
                month,
                every,
                cents: amount,
            };
            set_line(count, place, line, state);
            Extra::Plain
        }
        Command::Drop { line, .. } => {
            drop_line(count, place, line, state);
            Extra::Plain
        }
        Command::Retype { period, kind, .. } => {
            retype(count, place, period, kind, state, steps);
            Extra::Plain
        }
        Command::Analyse(_, plan) => analyse(count, place, &plan, state, dues, steps),
        _ => unreachable!(),
    }
}

/// Sets an escrow line of a loan, as the command after `count` others.
fn set_line<B: LoanBooks>(count: u32, place: Place, line: Line, state: &mut State<B>)
    requires place { IsThere place state.old.loans.loans }
    requires state { IsState count state.old.today state.old.loans state.old.seals }
    requires fresh { refusal_of count (world_of state.old.today state.old.loans state.old.seals)
        (request.Line place.id line.id line.kind line.month line.every line.cents) ≡ None }
    ensures world { world_of state.new.today state.new.loans state.new.seals
        ≡ after (count + 1) (world_of state.old.today state.old.loans state.old.seals)
        (request.Line place.id line.id line.kind line.month line.every line.cents) }
    ensures place { IsThere place state.new.loans.loans }
    ensures kept { All (IsKeptIn (world_of state.new.today state.new.loans state.new.seals))
        state.new.loans.loans }
{
    state.loans.set_line(place, line);
}

/// Takes out an escrow line of a loan, as the command after `count` others.
fn drop_line<B: LoanBooks>(count: u32, place: Place, line: u32, state: &mut State<B>)
    requires place { IsThere place state.old.loans.loans }
    requires state { IsState count state.old.today state.old.loans state.old.seals }
    requires fresh { refusal_of count (world_of state.old.today state.old.loans state.old.seals)
        (request.Drop place.id line) ≡ None }
    ensures world { world_of state.new.today state.new.loans state.new.seals
        ≡ after (count + 1) (world_of state.old.today state.old.loans state.old.seals)
        (request.Drop place.id line) }
    ensures place { IsThere place state.new.loans.loans }
    ensures kept { All (IsKeptIn (world_of state.new.today state.new.loans state.new.seals))
        state.new.loans.loans }
{
    state.loans.drop_line(place, line);
}

/// Changes the remittance type of a loan from a month on, as the command after `count` others.
fn retype<B: LoanBooks, L: Ledger>(
    count: u32,
    place: Place,
    from: Month,
    kind: RemitType,
    state: &mut State<B>,
    steps: &mut Steps<L>,
)
    requires place { IsThere place state.old.loans.loans }
    requires state { IsState count state.old.today state.old.loans state.old.seals }
    requires fresh { refusal_of count (world_of state.old.today state.old.loans state.old.seals)
        (request.Retype place.id from kind) ≡ None }
    requires loan { OfLoan place.id state.old.loans.loans (IsReady state.old.today) }
    ensures world { world_of state.new.today state.new.loans state.new.seals
        ≡ after (count + 1) (world_of state.old.today state.old.loans state.old.seals)
        (request.Retype place.id from kind) }
    ensures place { IsThere place state.new.loans.loans }
    ensures kept { All (IsKeptIn (world_of state.new.today state.new.loans state.new.seals))
        state.new.loans.loans }
    ensures steps { steps.new ≤ steps.old }
{
    state.loans.retype(place, from, kind, steps);
}

/// Settles the escrow analysis of a loan by a plan, as the command after `count` others, and answers its
/// numbers.
fn analyse<B: LoanBooks, L: Ledger>(
    count: u32,
    place: Place,
    plan: &Plan,
    state: &mut State<B>,
    dues: &mut Vec<MonthDue>,
    steps: &mut Steps<L>,
) -> Extra
    requires place { IsThere place state.old.loans.loans }
    requires state { IsState count state.old.today state.old.loans state.old.seals }
    requires fresh { refusal_of count (world_of state.old.today state.old.loans state.old.seals)
        (request.Analyse place.id plan.now) ≡ None }
    requires loan { OfLoan place.id state.old.loans.loans (IsReady state.old.today) }
    requires dues { 2 * length state.old.seals.reporting.reports ≤ vec_capacity dues.old }
    requires adjustments { length state.old.seals.reporting.reports ≤ state.old.seals.adjustment_room }
    ensures world { world_of state.new.today state.new.loans state.new.seals
        ≡ after (count + 1) (world_of state.old.today state.old.loans state.old.seals)
        (request.Analyse place.id plan.now) }
    ensures place { IsThere place state.new.loans.loans }
    ensures kept { All (IsKeptIn (world_of state.new.today state.new.loans state.new.seals))
        state.new.loans.loans }
    ensures extra { result ≡ extra_of (world_of state.old.today state.old.loans state.old.seals)
        (world_of state.new.today state.new.loans state.new.seals) (request.Analyse place.id plan.now) }
    ensures steps { steps.new ≤ steps.old + accepting_cost B.cost B.month_cost
        (world_of state.old.today state.old.loans state.old.seals)
        (world_of state.new.today state.new.loans state.new.seals) (request.Analyse place.id plan.now) }
{
    let (settled, figures) = settled_now(&state.loans, place, state.today, plan);
    let entry = Entry {
        number: count + 1,
        day: state.today,
        act: Act::Analyse(settled),
    };
    enter(count, place, &entry, state, dues, steps);
    Extra::Analysed(figures)
}

/// What an analysis of a loan on the business day settles by a plan without a fault, and its numbers.
fn settled_now<B: LoanBooks>(
    loans: &Loans<B>,
    place: Place,
    today: Day,
    plan: &Plan,
) -> (Settled, Figures)
    requires place { IsThere place loans.now.loans }
    requires today { OfLoan place.id loans.now.loans (λ k. k.held.account.today ≡ today) }
    requires calendar { month_number today + 1 < months_end }
    requires lawful { OfLoan place.id loans.now.loans (λ k. world.loan_plan_fault k.held plan.now ≡ None) }
    requires act { OfLoan place.id loans.now.loans
        (λ k. IsAct (act.Analyse (world.settlement_of k.held plan.now))) }
    ensures settled { OfLoan place.id loans.now.loans (λ k. result.0 ≡ world.settlement_of k.held plan.now) }
    ensures figures { OfLoan place.id loans.now.loans (λ k. result.1 ≡ world.settled_figures k.held plan.now) }
{
    let loan = loans.loan(place);
    match settle_now(loan, today, plan) {
        Ok(settled) => (settled, figures_of(loan, today, &settled)),
        Err(_) => unreachable!(),
    }
}
