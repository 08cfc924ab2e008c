//! What a command changes.

ghost use Rattle.std.specs.Prelude.{◌≡◌};
ghost use Rattle.svc_world.specs.Scope as rule;

use svc_types::{Command, Terms};

/// What a command changes: one loan, a loan that it takes on, or all of them.
#[derive(Clone, Copy)]
pub enum Scope {
    One(u32),
    New(u32, Terms),
    Every,
}

/// What a command changes.
pub fn scope_of(command: &Command) -> Scope
    ensures { result ≡ rule.scope_of command.now }
{
    match *command {
        Command::Day(_) => Scope::Every,
        Command::Board(id, terms) => Scope::New(id, terms),
        Command::Pay(id, _, _, _) => Scope::One(id),
        Command::Curtail(id, _, _) => Scope::One(id),
        Command::Payoff(id, _, _) => Scope::One(id),
        Command::Deposit(id, _, _) => Scope::One(id),
        Command::Disburse { loan, .. } => Scope::One(loan),
        Command::Refund(id, _) => Scope::One(id),
        Command::Waive(id, _) => Scope::One(id),
        Command::Reverse { loan, .. } => Scope::One(loan),
        Command::Line { loan, .. } => Scope::One(loan),
        Command::Drop { loan, .. } => Scope::One(loan),
        Command::Analyse(id, _) => Scope::One(id),
        Command::Close(_) => Scope::Every,
        Command::Remit(_) => Scope::Every,
        Command::Retype { loan, .. } => Scope::One(loan),
    }
}
