//! The entries of a loan's account, and the events of its books.

use crate::escrow::Settled;
use svc_base::{Cents, Day};

/// Where what a payment leaves goes once nothing is due on or before its day.
#[derive(Clone, Copy, Debug, PartialEq, Eq)]
pub enum Designation {
    /// It waits in suspense, and pays the installment due next as soon as it covers it.
    Regular,
    /// To principal, ahead of its time.
    Principal,
    /// To escrow.
    Escrow,
}

/// What an entry does.
#[derive(Clone, Copy, Debug, PartialEq, Eq)]
pub enum Act {
    /// A payment, and where what it leaves goes.
    Pay(Cents, Designation),
    /// A payment on the principal alone.
    Curtail(Cents),
    /// A payment that is to satisfy the loan.
    Payoff(Cents),
    /// A payment into escrow.
    Deposit(Cents),
    /// A bill paid from escrow, and the number of its line.
    Disburse(Cents, u32),
    /// A payment out to the borrower.
    Refund(Cents),
    /// Late charges that are given up.
    Waive(Cents),
    /// An escrow analysis.
    Analyse(Settled),
}

/// An accepted entry: the number of its command, its effective day and its act.
#[derive(Clone, Copy, Debug, PartialEq, Eq)]
pub struct Entry {
    pub number: u32,
    pub day: Day,
    pub act: Act,
}

/// What happens to a loan's books on a day.
#[derive(Clone, Copy, Debug, PartialEq, Eq)]
pub enum What {
    /// A month begins.
    MonthMark,
    /// The grace of that installment is over.
    LateMark(u32),
    /// An entry takes effect.
    Act(Act),
}

/// An event of a loan's books.
#[derive(Clone, Copy, Debug, PartialEq, Eq)]
pub struct Event {
    pub day: Day,
    pub what: What,
}
