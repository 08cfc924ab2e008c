//! A loan's line of a report.

use svc_base::Cents;

/// A loan's line of a report, in cents.
#[derive(Clone, Copy, Debug, PartialEq, Eq)]
pub struct ReportLine {
    pub loan: u32,
    /// What is due for the report's month.
    pub interest: Cents,
    pub principal: Cents,
    /// The sums of the loan's adjustments that the report sends.
    pub adj_interest: Cents,
    pub adj_principal: Cents,
    /// The loan's balance and the investor's at the month's end.
    pub upb: Cents,
    pub balance: Cents,
}
