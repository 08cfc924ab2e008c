//! What a servicer can be asked: commands, which change the books, and queries, which do not.

ghost use Rattle.std.specs.Prelude.{◌≡◌, ◌↔◌, IsTrue};
ghost use Rattle.svc_types.specs.Same as rule;

use crate::account::Designation;
use crate::escrow::{LineKind, Plan};
use crate::key::Key;
use crate::terms::{RemitType, Terms};
use svc_base::{Cents, Day, Month};

/// A command that changes the books. Amounts are cents, loans and lines are named by their numbers.
#[derive(Clone, Copy, Debug, PartialEq, Eq)]
pub enum Command {
    /// Sets the business day.
    Day(Day),
    /// Takes a loan on: its number and its terms.
    Board(u32, Terms),
    /// A payment of a day, and where what is over goes.
    Pay(u32, Day, Cents, Designation),
    /// A payment on the principal alone.
    Curtail(u32, Day, Cents),
    /// A payment that is to satisfy the loan.
    Payoff(u32, Day, Cents),
    /// A payment into escrow.
    Deposit(u32, Day, Cents),
    /// A bill of a line that is paid from escrow.
    Disburse {
        loan: u32,
        day: Day,
        amount: Cents,
        line: u32,
    },
    /// A payment out to the borrower, on the business day.
    Refund(u32, Cents),
    /// Late charges that are given up on the business day.
    Waive(u32, Cents),
    /// Takes back the entry with that command number.
    Reverse {
        loan: u32,
        number: u32,
    },
    /// Sets an escrow line, or replaces the one with its number.
    Line {
        loan: u32,
        line: u32,
        kind: LineKind,
        month: u32,
        every: u32,
        amount: Cents,
    },
    /// Takes an escrow line away.
    Drop {
        loan: u32,
        line: u32,
    },
    /// An escrow analysis on the business day, and what is done with its parts
    /// (12 CFR 1024.17(c)(3)).
    Analyse(u32, Plan),
    /// Closes a month: its report is made and never changes.
    Close(Month),
    /// Sends the investor what a closed month's report says.
    Remit(Month),
    /// Sets a loan's remittance type from a month on.
    Retype {
        loan: u32,
        period: Month,
        kind: RemitType,
    },
}

/// A question, which changes nothing.
#[derive(Clone, Copy, Debug, PartialEq, Eq)]
pub enum Query {
    /// A loan's books at the business day.
    Books(u32),
    /// A loan's books at a day.
    At(u32, Day),
    /// What pays a loan off on a day.
    Payoff(u32, Day),
    /// What an escrow analysis on the business day would find.
    Escrow(u32),
    /// The report of a closed month.
    Report(Month),
    /// The balances of that report.
    Trial(Month),
    /// The custodial accounts, and what they hold.
    Custodial,
    /// The custodial rows of a command.
    Rows(u32),
    /// A loan's terms, escrow lines and changes of remittance type.
    Loan(u32),
    /// What each event did to a loan's books.
    History(u32),
    /// What pays a loan off on a day, also one after the business day, as if nothing else were booked.
    Quote(u32, Day),
    /// What brings a loan current.
    Arrears(u32),
    /// All loans by how late they are.
    Aging,
    /// Where the days, the months and the counts stand.
    Status,
    /// An accepted command and its reply, by its number.
    Command(u32),
    /// An accepted command and its reply, by its key.
    Key(Key),
}

/// A command with its key, or a question.
#[derive(Clone, Copy, Debug, PartialEq, Eq)]
pub enum Request {
    Do(Key, Command),
    Ask(Query),
}

/// A loan's remittance type from a month on.
#[derive(Clone, Copy, Debug, PartialEq, Eq)]
pub struct TypeChange {
    pub from: Month,
    pub kind: RemitType,
}

/// Whether two commands are the same in each field.
pub fn is_same(a: &Command, b: &Command) -> bool
    ensures value { result ≡ rule.is_same a.now b.now }
    ensures same { IsTrue result ↔ (a.now ≡ b.now) }
{
    a == b
}
