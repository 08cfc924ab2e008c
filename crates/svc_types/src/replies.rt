//! What is answered: the reply to an accepted command, and why another one is refused.

use crate::escrow::Figures;
use crate::faults::{LineWhy, PlanFault, TermFault};
use svc_base::{Cents, Day, Month};

/// The reply to an accepted command: its number, from 1, and what it found.
#[derive(Clone, Copy, Debug, PartialEq, Eq)]
pub struct Reply {
    pub number: u32,
    pub extra: Extra,
}

/// What a reply says beside the number. Amounts are cents.
#[derive(Clone, Copy, Debug, PartialEq, Eq)]
pub enum Extra {
    Plain,
    /// The numbers of an escrow analysis.
    Analysed(Figures),
    /// The number of lines of a month's report, and its sums, adjustments included.
    Closed {
        lines: u32,
        interest: Cents,
        principal: Cents,
    },
    /// What the investor was sent; below 0 where the investor pays.
    Remitted {
        net: Cents,
    },
}

/// What there is no more room for: 1,000,000 commands, 12,000 loans, 4,096 entries of a loan,
/// 16 escrow lines of a loan, 600 closed months, 64 changes of a loan's remittance type.
#[derive(Clone, Copy, Debug, PartialEq, Eq)]
pub enum Limit {
    Commands,
    Loans,
    Entries,
    Lines,
    Months,
    Types,
}

/// Why a request is refused, in the order of the codes from 1; 26 is the journal's, and 28 comes of queries alone.
/// The value is what the reply names beside the cause.
#[derive(Clone, Copy, Debug, PartialEq, Eq)]
pub enum Refusal {
    /// The key is that of the accepted command with this number, which differs.
    KeyReused(u32),
    /// A limit is reached.
    Full(Limit),
    /// The day is not after this business day.
    DayNotLater(Day),
    /// The loan is there already.
    LoanExists,
    /// The loan is not there.
    NoSuchLoan,
    /// The terms miss this range.
    BadTerms(TermFault),
    /// The boarded month is at most this last closed month.
    BoardedLate(Month),
    /// The amount is not from 1 to 10,000,000,000 cents.
    BadAmount,
    /// The day is after this business day.
    FutureDated(Day),
    /// The day is before this boarded day.
    BeforeBoarding(Day),
    /// The curtailment exceeds this balance.
    OverPrincipal(Cents),
    /// The payoff is below this payoff due.
    PayoffShort(Cents),
    /// The number is no entry of the loan, or no accepted command.
    NoSuchEntry,
    /// This command reversed the entry.
    AlreadyReversed(u32),
    /// The entry is an analysis.
    NotReversible,
    /// The loan has no line with that number.
    NoSuchLine,
    /// The line is wrong in this.
    BadLine(LineWhy),
    /// The plan is not lawful (12 CFR 1024.17(f) for a borrower who is current).
    BadPlan(PlanFault),
    /// The refund exceeds what is available.
    OverRefund(Cents),
    /// The waiver exceeds the late charges owed.
    OverWaiver(Cents),
    /// Another month is to be closed next: this one.
    WrongPeriod(Month),
    /// The business day is not after this last day of the month.
    NotEnded(Day),
    /// The month is not closed; this is the last closed month, where there is one.
    NotClosed(Option<Month>),
    /// Another month is to be remitted next: this one.
    WrongRemit(Month),
    /// So many adjustments are held, and those to come would exceed 4,000,000.
    AdjustmentsFull(u32),
    /// The month is at or before this last closed month.
    ClosedMonth(Month),
    /// No accepted command has that number or that key.
    NoSuchCommand,
}
