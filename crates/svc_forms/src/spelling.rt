//! The values that a request has in the fields of its form: `building` the other way.

ghost use Rattle.std.specs.Prelude.{◌≡◌, ◌∷◌, []};
ghost use Rattle.svc_forms.specs.Forms as forms;
ghost use Rattle.svc_forms.specs.declared.value.Value.TheVariants as value;

use crate::value::Value;
use crate::values::{Kept, Values};
use svc_base::{Cents, Day, Month};
use svc_types::{Command, Designation, LineKind, Plan, Query, RemitType, Terms};

/// The values of a command's fields, in their order.
#[inline(always)]
pub fn values_of(command: &Command) -> Values
    ensures { result ≡ forms.values_of command.now }
{
    match command {
        Command::Day(day) => Values(Kept::One([Value::Day(*day)])),
        Command::Board(loan, terms) => board_values(*loan, terms),
        Command::Pay(loan, day, amount, over) => payment_values(*loan, *day, *amount, *over),
        Command::Curtail(loan, day, amount)
        | Command::Payoff(loan, day, amount)
        | Command::Deposit(loan, day, amount) => entry_values(*loan, *day, *amount),
        Command::Disburse {
            loan,
            day,
            amount,
            line,
        } => bill_values(*loan, *day, *amount, *line),
        Command::Refund(loan, amount) | Command::Waive(loan, amount) => {
            Values(Kept::Two([Value::Number(*loan), Value::Amount(*amount)]))
        }
        Command::Reverse { loan, number } => numbers(*loan, *number),
        Command::Line {
            loan,
            line,
            kind,
            month,
            every,
            amount,
        } => line_values(*loan, *line, *kind, *month, *every, *amount),
        Command::Drop { loan, line } => numbers(*loan, *line),
        Command::Analyse(loan, plan) => analysis_values(*loan, plan),
        Command::Close(period) | Command::Remit(period) => {
            Values(Kept::One([Value::Month(*period)]))
        }
        Command::Retype { loan, period, kind } => type_values(*loan, *period, *kind),
    }
}

/// The values of a loan that is taken on.
#[inline(always)]
fn board_values(loan: u32, terms: &Terms) -> Values
    ensures { result ≡ value.Number loan ∷ forms.values_of_terms terms.now }
{
    Values(Kept::Thirteen([
        Value::Number(loan),
        Value::Day(terms.boarded),
        Value::Amount(terms.principal),
        Value::Number(terms.rate),
        Value::Number(terms.fee),
        Value::Amount(terms.pi),
        Value::Number(terms.term),
        Value::Month(terms.first),
        Value::Number(terms.grace),
        Value::Number(terms.late),
        Value::Number(terms.cushion),
        Value::Amount(terms.escrow),
        Value::Type(terms.kind),
    ]))
}

/// The values of a payment; a regular one says nothing of what is over.
#[inline(always)]
fn payment_values(loan: u32, day: Day, amount: Cents, over: Designation) -> Values
    ensures { result ≡ value.Number loan ∷ value.Day day ∷ value.Amount amount ∷ forms.values_of_designation over }
{
    let (number, day, amount) = (Value::Number(loan), Value::Day(day), Value::Amount(amount));
    match over {
        Designation::Regular => Values(Kept::Three([number, day, amount])),
        _ => Values(Kept::Four([number, day, amount, Value::Designation(over)])),
    }
}

/// The values of another entry of an amount.
#[inline(always)]
fn entry_values(loan: u32, day: Day, amount: Cents) -> Values
    ensures { result ≡ value.Number loan ∷ value.Day day ∷ value.Amount amount ∷ [] }
{
    Values(Kept::Three([Value::Number(loan), Value::Day(day), Value::Amount(amount)]))
}

/// The values of a bill that is paid.
#[inline(always)]
fn bill_values(loan: u32, day: Day, amount: Cents, line: u32) -> Values
    ensures { result ≡ value.Number loan ∷ value.Day day ∷ value.Amount amount ∷ value.Number line ∷ [] }
{
    Values(Kept::Four([
        Value::Number(loan),
        Value::Day(day),
        Value::Amount(amount),
        Value::Number(line),
    ]))
}

/// The values of an escrow line that is set.
#[inline(always)]
fn line_values(
    loan: u32,
    line: u32,
    kind: LineKind,
    month: u32,
    every: u32,
    amount: Cents,
) -> Values
    ensures { result ≡ value.Number loan ∷ value.Number line ∷ value.Kind kind ∷ value.Number month
        ∷ value.Number every ∷ value.Amount amount ∷ [] }
{
    Values(Kept::Six([
        Value::Number(loan),
        Value::Number(line),
        Value::Kind(kind),
        Value::Number(month),
        Value::Number(every),
        Value::Amount(amount),
    ]))
}

/// The values of an analysis that is asked for.
#[inline(always)]
fn analysis_values(loan: u32, plan: &Plan) -> Values
    ensures { result ≡ value.Number loan ∷ value.Surplus plan.now.surplus ∷ value.Part plan.now.short
        ∷ value.Part plan.now.deficient ∷ [] }
{
    Values(Kept::Four([
        Value::Number(loan),
        Value::Surplus(plan.surplus),
        Value::Part(plan.short),
        Value::Part(plan.deficient),
    ]))
}

/// The values of a remittance type that is set.
#[inline(always)]
fn type_values(loan: u32, period: Month, kind: RemitType) -> Values
    ensures { result ≡ value.Number loan ∷ value.Month period ∷ value.Type kind ∷ [] }
{
    Values(Kept::Three([Value::Number(loan), Value::Month(period), Value::Type(kind)]))
}

/// A loan's number, and another.
#[inline(always)]
fn numbers(loan: u32, other: u32) -> Values
    ensures { result ≡ value.Number loan ∷ value.Number other ∷ [] }
{
    Values(Kept::Two([Value::Number(loan), Value::Number(other)]))
}

/// The values of a query's fields, in their order.
#[inline(always)]
pub fn values_of_query(query: &Query) -> Values
    ensures { result ≡ forms.values_of_query query.now }
{
    match query {
        Query::Books(loan)
        | Query::Escrow(loan)
        | Query::Loan(loan)
        | Query::History(loan)
        | Query::Arrears(loan) => Values(Kept::One([Value::Number(*loan)])),
        Query::At(loan, day) | Query::Payoff(loan, day) | Query::Quote(loan, day) => {
            Values(Kept::Two([Value::Number(*loan), Value::Day(*day)]))
        }
        Query::Report(period) | Query::Trial(period) => Values(Kept::One([Value::Month(*period)])),
        Query::Custodial | Query::Aging | Query::Status => Values(Kept::Zero),
        Query::Rows(number) | Query::Command(number) => {
            Values(Kept::One([Value::Number(*number)]))
        }
        Query::Key(key) => Values(Kept::One([Value::Key(*key)])),
    }
}
