//! What the desk is told of all loans and of where the books stand.

use svc_base::{Day, Month};
use svc_types::Arrears;

/// A loan whose open installment is late.
#[derive(Clone, Copy, Debug, PartialEq, Eq)]
pub struct LateLoan {
    pub loan: u32,
    /// The month of the open installment.
    pub next: Month,
    /// The days since it was due.
    pub days: u32,
    pub arrears: Arrears,
}

/// How many loans are current, late by so many days from each bound to the next one, and satisfied.
#[derive(Clone, Copy, Debug, PartialEq, Eq)]
pub struct AgingCounts {
    pub current: u32,
    pub late1: u32,
    pub late30: u32,
    pub late60: u32,
    pub late90: u32,
    pub satisfied: u32,
}

/// Where the books stand.
#[derive(Clone, Copy, Debug, PartialEq, Eq)]
pub struct BooksStatus {
    /// The business day.
    pub today: Day,
    /// How many loans were taken on, and how many commands were accepted.
    pub loans: u32,
    pub commands: u32,
    /// The months closed last and remitted last.
    pub closed: Option<Month>,
    pub remitted: Option<Month>,
    /// The months that `close` and `remit` expect; none is to be remitted before the first is closed.
    pub close: Month,
    pub remit: Option<Month>,
    /// How many adjustments wait for a report, and how many were ever recorded.
    pub pending: u32,
    pub adjustments: u32,
}
