//! What the people at a servicer's desk are told of a loan. All amounts are cents.

use crate::account::What;
use svc_base::{Cents, Day, Month};

/// A line of a loan's history: an event with what it changed, and where it left the loan.
#[derive(Clone, Copy, Debug, PartialEq, Eq)]
pub struct HistoryLine {
    pub day: Day,
    /// The number of the entry; a mark has none.
    pub number: Option<u32>,
    pub what: What,
    /// By how much interest, principal and late charges collected, escrow, late charges owed and suspense rose;
    /// below 0 where they fell.
    pub interest: Cents,
    pub principal: Cents,
    pub escrow: Cents,
    pub late: Cents,
    pub charges: Cents,
    pub suspense: Cents,
    /// The balance behind it.
    pub upb: Cents,
    /// The month of the open installment behind it, where one is open.
    pub next: Option<Month>,
}

/// What brings a loan current on a day.
#[derive(Clone, Copy, Debug, PartialEq, Eq)]
pub struct Arrears {
    /// How many open installments are due on or before the day.
    pub installments: u32,
    /// What they ask together.
    pub due: Cents,
    /// Money that is not yet applied.
    pub suspense: Cents,
    /// The least payment after which none of them is open.
    pub pay: Cents,
    /// Late charges that are owed, which are not in `pay`.
    pub late: Cents,
}
