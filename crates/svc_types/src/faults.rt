//! Why terms, lines and plans are refused.

use crate::escrow::PlanPart;
use thiserror::Error;

/// The term of a loan that is out of its range.
#[derive(Clone, Copy, Debug, PartialEq, Eq, Error)]
pub enum TermFault {
    #[error("the principal is not from 1 to 10,000,000,000 cents")]
    Principal,
    #[error("the rate is not from 1 to 25,000 thousandths of a percent")]
    RateRange,
    #[error("the fee rate is above the note rate")]
    FeeRange,
    #[error("the payment does not exceed the first interest, or is above 10,000,000,000 cents")]
    Payment,
    #[error("the term is not from 1 to 480 installments")]
    Term,
    #[error("the first due date is not one or two months after the boarded month")]
    FirstDue,
    #[error("the days of grace are above 28")]
    Grace,
    #[error("the late charge is above 1,000 basis points")]
    Late,
    #[error("the cushion is above 2 months")]
    Cushion,
    #[error("the escrow payment is not from 0 to 10,000,000,000 cents")]
    EscrowPay,
}

/// What is wrong with an escrow line.
#[derive(Clone, Copy, Debug, PartialEq, Eq, Error)]
pub enum LineWhy {
    #[error("the amount is not from 1 to 10,000,000,000 cents")]
    Amount,
    #[error("the month is not from 1 to 12")]
    MonthRange,
    #[error("the period is not 1, 2, 3, 4, 6 or 12 months")]
    Every,
}

/// Why a plan for an analysis is refused (12 CFR 1024.17(f) for a borrower who is current).
#[derive(Clone, Copy, Debug, PartialEq, Eq, Error)]
pub enum PlanFault {
    #[error("the surplus must be refunded")]
    MustRefund,
    #[error("the part must be spread")]
    MustSpread(PlanPart),
    #[error("{0} months are too few")]
    TooFewMonths(u32),
    #[error("{0} months are too many")]
    TooManyMonths(u32),
    #[error("there is nothing to plan for")]
    NothingToPlan(PlanPart),
}
