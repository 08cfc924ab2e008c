//! What has become of a loan's mortgage insurance.

use svc_base::{Cents, Day};

/// What has become of a loan's mortgage insurance by the business day.
#[derive(Clone, Copy, Debug, PartialEq, Eq)]
pub enum PmiOutcome {
    /// It runs; with why the borrower's request was denied, where there was one.
    Runs(Option<Denial>),
    /// It ended on that day.
    Ends(Day, Cause),
}

/// Why an insurance ended.
#[derive(Clone, Copy, Debug, PartialEq, Eq)]
pub enum Cause {
    /// The loan is satisfied.
    PaidOff,
    /// The scheduled balance has reached 78 percent of the value.
    Automatic,
    /// The borrower asked.
    Asked,
}

/// Why a request was denied.
#[derive(Clone, Copy, Debug, PartialEq, Eq)]
pub enum Denial {
    /// The borrower is not current; the installment due on this day is open.
    NotCurrent(Day),
    /// This balance, in cents, is above 80 percent of the value.
    Above(Cents),
}
