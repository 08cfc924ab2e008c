//! Why a command is refused: which family's rules it has. Else what it changes.

ghost use Rattle.std.specs.Prelude.{◌≡◌, ◌+◌, ◌≤◌, ◌<◌, None, Some, IfErr, IfOk, OnOk};
ghost use Rattle.svc_base.specs.Calendar.{month_of as month_number, months_end};
ghost use Rattle.svc_world.specs.Refusals as rule;
ghost use Rattle.svc_world.specs.Scope as scope;
ghost use Rattle.svc_world.specs.Worlds.{IsWorld};
ghost use Rattle.svc_rules.specs.State.{world_of};
ghost use Rattle.svc_world.specs.Refusals.{rules_of};
ghost use Rattle.svc_rules.specs.Costs.{refusing_cost, rules_cost};
ghost use Rattle.svc_rules.specs.Targets.{IsTarget};

use crate::analysing::refuse_analyse;
use crate::boarding::refuse_board;
use crate::days::refuse_day;
use crate::limits::MOST_COMMANDS;
use crate::lines::{refuse_drop, refuse_line};
use crate::money_in::{refuse_curtail, refuse_paid_in, refuse_payoff};
use crate::money_out::{refuse_disburse, refuse_refund};
use crate::months::{refuse_close, refuse_remit};
use crate::retyping::refuse_retype;
use crate::reversing::refuse_reverse;
use crate::state::State;
use crate::target::Target;
use crate::waiving::refuse_waive;
use escrow_lines::Line;
use std::sync::ledger::Ledger;
use svc_base::Steps;
use svc_loan::Loan;
use svc_replay::LoanBooks;
use svc_types::{Command, Limit, Refusal};
use svc_world::{Scope, scope_of};

/// Why a command is refused after so many accepted ones: `Full` (of 1,000,000 commands), else the first rule that holds
/// of its family. Where none does, what it changes.
pub fn refuse<B: LoanBooks, L: Ledger>(
    count: u32,
    state: &State<B>,
    command: &Command,
    steps: &mut Steps<L>,
) -> Result<Target, Refusal>
    requires world { IsWorld count (world_of state.now.today state.now.loans state.now.seals) }
    ensures cause { IfErr result (λ why. rule.refusal_of count
        (world_of state.now.today state.now.loans state.now.seals) command.now ≡ Some why) }
    ensures fresh { OnOk result (rule.refusal_of count
        (world_of state.now.today state.now.loans state.now.seals) command.now ≡ None) }
    ensures target { IfOk result (IsTarget (scope.scope_of command.now) state.now.loans.loans) }
    ensures steps { steps.new ≤ steps.old + refusing_cost B.cost
        (world_of state.now.today state.now.loans state.now.seals) command.now }
{
    if count >= MOST_COMMANDS {
        return Err(Refusal::Full(Limit::Commands));
    }
    match scope_of(command) {
        Scope::One(id) => refuse_one(count, id, state, command, steps),
        Scope::New(id, terms) => { unless(refuse_board(state, id, &terms), Target::New(id, terms)) }
        Scope::Every => unless(refuse_every(count, state, command), Target::Every),
    }
}

/// A target, unless there is a cause to refuse.
#[inline(always)]
fn unless(why: Option<Refusal>, target: Target) -> Result<Target, Refusal>
    ensures cause { IfErr result (λ r. why ≡ Some r) }
    ensures none { OnOk result (why ≡ None) }
    ensures target { IfOk result (λ t. t ≡ target) }
{
    match why {
        Some(why) => Err(why),
        None => Ok(target),
    }
}

/// Why a command on all loans is refused.
fn refuse_every<B: LoanBooks>(count: u32, state: &State<B>, command: &Command) -> Option<Refusal>
    requires world { IsWorld count (world_of state.now.today state.now.loans state.now.seals) }
    requires scope { scope.scope_of command.now ≡ Scope.Every }
    ensures { result ≡ rule.first_of (rule.cases_by_command
        (world_of state.now.today state.now.loans state.now.seals) command.now) }
{
    match *command {
        Command::Day(day) => refuse_day(state, day),
        Command::Close(month) => refuse_close(state, month),
        Command::Remit(month) => refuse_remit(state, month),
        _ => unreachable!(),
    }
}

/// Why a command on one loan is refused: `NoSuchLoan`, or the first of the rules on it. Where none holds, where the loan
/// stands.
fn refuse_one<B: LoanBooks, L: Ledger>(
    count: u32,
    id: u32,
    state: &State<B>,
    command: &Command,
    steps: &mut Steps<L>,
) -> Result<Target, Refusal>
    requires world { IsWorld count (world_of state.now.today state.now.loans state.now.seals) }
    requires scope { scope.scope_of command.now ≡ Scope.One id }
    ensures cause { IfErr result (λ why. rule.first_of (rule.on_loan
        (world_of state.now.today state.now.loans state.now.seals) id
        (rules_of (world_of state.now.today state.now.loans state.now.seals) command.now)) ≡ Some why) }
    ensures fresh { OnOk result (rule.first_of (rule.on_loan
        (world_of state.now.today state.now.loans state.now.seals) id
        (rules_of (world_of state.now.today state.now.loans state.now.seals) command.now)) ≡ None) }
    ensures target { IfOk result (IsTarget (Scope.One id) state.now.loans.loans) }
    ensures steps { steps.new ≤ steps.old + refusing_cost B.cost
        (world_of state.now.today state.now.loans state.now.seals) command.now }
{
    match state.loans.find(id) {
        Some(place) => {
            let why = refuse_on(state, state.loans.loan(place), command, steps);
            unless(why, Target::One(place))
        }
        None => Err(Refusal::NoSuchLoan),
    }
}

/// Why a command on a loan that is there is refused.
fn refuse_on<B: LoanBooks, L: Ledger>(
    state: &State<B>,
    loan: &Loan<B>,
    command: &Command,
    steps: &mut Steps<L>,
) -> Option<Refusal>
    requires today { loan.now.held.account.today ≡ state.now.today }
    requires calendar { month_number state.now.today + 1 < months_end }
    ensures cause { result ≡ rule.first_of
        (rules_of (world_of state.now.today state.now.loans state.now.seals) command.now loan.now.held) }
    ensures steps { steps.new ≤ steps.old + rules_cost B.cost command.now loan.now.held }
{
    match *command {
        Command::Pay(_, day, cents, _) => refuse_paid_in(state, loan, day, cents),
        Command::Curtail(_, day, cents) => refuse_curtail(state, loan, day, cents, steps),
        Command::Payoff(_, day, cents) => refuse_payoff(state, loan, day, cents, steps),
        Command::Deposit(_, day, cents) => refuse_paid_in(state, loan, day, cents),
        Command::Disburse {
            day,
            amount,
            line,
            ..
        } => refuse_disburse(state, loan, day, amount, line),
        Command::Refund(_, cents) => refuse_refund(state, loan, cents),
        Command::Waive(_, cents) => refuse_waive(state, loan, cents),
        Command::Reverse { number, .. } => refuse_reverse(state, loan, number),
        Command::Line {
            line,
            kind,
            month,
            every,
            amount,
            ..
        } => refuse_line(
            loan,
            &Line {
                id: line,
                kind,
                month,
                every,
                cents: amount,
            },
        ),
        Command::Drop { line, .. } => refuse_drop(loan, line),
        Command::Analyse(_, plan) => refuse_analyse(state, loan, &plan),
        Command::Retype { period, .. } => refuse_retype(state, loan, period),
        Command::Day(_) | Command::Board(..) | Command::Close(_) | Command::Remit(_) => None,
    }
}
