//! Commands as they are kept: the terms of loans, which are wider than all else, stand in a list of their own.

ghost use Rattle.std.specs.Prelude.{◌≡◌, ◌++◌, ◌<◌, ◌≤◌, ◌+◌, length, vec_len, vec_capacity};
ghost use Rattle.svc_core.specs.Briefs as rule;

use svc_base::{Cents, Day, Month};
use svc_types::{Command, Designation, LineKind, Plan, RemitType, Terms};

/// A command as it is kept. Of a loan that is taken on it has the place of the terms among those of all loans.
#[derive(Clone, Copy)]
pub(crate) enum Brief {
    Day(Day),
    Board(u32, u32),
    Pay(u32, Day, Cents, Designation),
    Curtail(u32, Day, Cents),
    Payoff(u32, Day, Cents),
    Deposit(u32, Day, Cents),
    Disburse(u32, Day, Cents, u32),
    Refund(u32, Cents),
    Waive(u32, Cents),
    Reverse(u32, u32),
    Line(u32, u32, LineKind, u32, u32, Cents),
    Drop(u32, u32),
    Analyse(u32, Plan),
    Close(Month),
    Remit(Month),
    Retype(u32, Month, RemitType),
}

/// A command as it is kept; its terms, where it has any, stand at a place.
pub(crate) fn brief_of(command: &Command, place: u32) -> Brief
    ensures { result ≡ rule.brief_of place command.now }
{
    match *command {
        Command::Day(day) => Brief::Day(day),
        Command::Board(id, _) => Brief::Board(id, place),
        Command::Pay(id, day, cents, over) => Brief::Pay(id, day, cents, over),
        Command::Curtail(id, day, cents) => Brief::Curtail(id, day, cents),
        Command::Payoff(id, day, cents) => Brief::Payoff(id, day, cents),
        Command::Deposit(id, day, cents) => Brief::Deposit(id, day, cents),
        Command::Disburse {
            loan,
            day,
            amount,
            line,
        } => Brief::Disburse(loan, day, amount, line),
        Command::Refund(id, cents) => Brief::Refund(id, cents),
        Command::Waive(id, cents) => Brief::Waive(id, cents),
        Command::Reverse { loan, number } => Brief::Reverse(loan, number),
        Command::Line {
            loan,
            line,
            kind,
            month,
            every,
            amount,
        } => Brief::Line(loan, line, kind, month, every, amount),
        Command::Drop { loan, line } => Brief::Drop(loan, line),
        Command::Analyse(id, plan) => Brief::Analyse(id, plan),
        Command::Close(month) => Brief::Close(month),
        Command::Remit(month) => Brief::Remit(month),
        Command::Retype { loan, period, kind } => Brief::Retype(loan, period, kind),
    }
}

/// The command that one stands for, by the terms of all loans that were taken on.
pub(crate) fn command_of(brief: &Brief, terms: &[Terms]) -> Command
    requires { rule.StandsWithin (length terms.now) brief.now }
    ensures { result ≡ rule.command_of terms.now brief.now }
{
    match *brief {
        Brief::Day(day) => Command::Day(day),
        Brief::Board(id, place) => Command::Board(id, terms[place as usize]),
        Brief::Pay(id, day, cents, over) => Command::Pay(id, day, cents, over),
        Brief::Curtail(id, day, cents) => Command::Curtail(id, day, cents),
        Brief::Payoff(id, day, cents) => Command::Payoff(id, day, cents),
        Brief::Deposit(id, day, cents) => Command::Deposit(id, day, cents),
        Brief::Disburse(loan, day, amount, line) => Command::Disburse {
            loan,
            day,
            amount,
            line,
        },
        Brief::Refund(id, cents) => Command::Refund(id, cents),
        Brief::Waive(id, cents) => Command::Waive(id, cents),
        Brief::Reverse(loan, number) => Command::Reverse { loan, number },
        Brief::Line(loan, line, kind, month, every, amount) => Command::Line {
            loan,
            line,
            kind,
            month,
            every,
            amount,
        },
        Brief::Drop(loan, line) => Command::Drop { loan, line },
        Brief::Analyse(id, plan) => Command::Analyse(id, plan),
        Brief::Close(month) => Command::Close(month),
        Brief::Remit(month) => Command::Remit(month),
        Brief::Retype(loan, period, kind) => Command::Retype { loan, period, kind },
    }
}

/// Adds the terms of a command that takes a loan on, for which there is room.
pub(crate) fn keep_terms(terms: &mut Vec<Terms>, command: &Command)
    requires { vec_len terms.old < vec_capacity terms.old }
    ensures items { terms.new.items ≡ terms.old.items ++ rule.terms_in command.now }
    ensures capacity { vec_capacity terms.new ≡ vec_capacity terms.old }
    ensures len { vec_len terms.new ≤ vec_len terms.old + 1 }
{
    if let Command::Board(_, new) = command {
        terms.push_reserved(*new);
    }
}
