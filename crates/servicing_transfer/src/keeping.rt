//! Which commands the part of a history keeps.

ghost use Rattle.std.specs.Prelude.{◌≡◌};
ghost use Rattle.svc_world.specs.Judging.{nth_accepted};
ghost use Rattle.servicing_transfer.specs.Parts as parts;
ghost use Rattle.servicing_transfer.specs.Passes.{keeps, least_with};
ghost use Rattle.servicing_transfer.specs.Sets.{set_of, months_of};

use crate::loan_set::{LoanSet, Scope};
use svc_base::{Month, month_of};
use svc_core::Core;
use svc_replay::LoanBooks;
use svc_types::Command;
use svc_world::{Scope as Changed, scope_of};

/// The earlier of two months, of which the second need not be there.
fn earlier(month: Month, other: Option<Month>) -> Option<Month>
    ensures { result ≡ parts.earlier month other }
{
    match other {
        None => Some(month),
        Some(other) if other < month => Some(other),
        Some(_) => Some(month),
    }
}

/// The least boarded month of a set's loans, after one more command.
fn with_board(set: &LoanSet, least: Option<Month>, command: &Command) -> Option<Month>
    ensures { result ≡ parts.with_board (set_of set.now) least command.now }
{
    match command {
        Command::Board(loan, terms) if set.has(*loan) => earlier(month_of(terms.boarded), least),
        _ => least,
    }
}

/// The least boarded month, after the command with a number.
fn least_after<B: LoanBooks>(
    core: &Core<B>,
    set: &LoanSet,
    least: Option<Month>,
    number: u32,
) -> Option<Month>
    ensures { result ≡ least_with (set_of set.now) least (nth_accepted core.now.history number) }
{
    match core.posted(number) {
        Some((_, command)) => with_board(set, least, &command),
        None => least,
    }
}

/// The least month in which a loan of the set was boarded.
pub(crate) fn least_month<B: LoanBooks>(core: &Core<B>, set: &LoanSet) -> Option<Month>
    ensures { result ≡ parts.least_month (set_of set.now) core.now.history }
{
    let mut least = None;
    for done in 0..core.count() {
        least = least_after(core, set, least, done + 1);
    }
    least
}

/// Whether a month is at or after the least one.
fn is_since(least: Option<Month>, month: Month) -> bool
    ensures { result ≡ parts.is_since least month }
{
    match least {
        None => false,
        Some(least) => least <= month,
    }
}

/// Whether the part keeps a command.
pub(crate) fn is_for(scope: &Scope, command: &Command) -> bool
    ensures { result ≡ parts.is_for (set_of scope.now.loans) (months_of scope.now) command.now }
{
    match scope_of(command) {
        Changed::One(loan) | Changed::New(loan, _) => scope.loans.has(loan),
        Changed::Every => is_of_months(scope, command),
    }
}

/// Whether a command on all loans is of no month, or of one of the part's.
fn is_of_months(scope: &Scope, command: &Command) -> bool
    ensures { result ≡ parts.is_of_months (months_of scope.now) command.now }
{
    match *command {
        Command::Close(month) | Command::Remit(month) => is_since(scope.least, month),
        _ => true,
    }
}

/// Whether the part keeps the command with a number.
pub(crate) fn is_kept<B: LoanBooks>(core: &Core<B>, scope: &Scope, number: u32) -> bool
    ensures { result ≡ keeps (set_of scope.now.loans) (months_of scope.now)
        (nth_accepted core.now.history number) }
{
    match core.posted(number) {
        Some((_, command)) => is_for(scope, &command),
        None => false,
    }
}
