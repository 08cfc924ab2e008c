//! Sealed monthly reports to the investor, and the adjustments of months that were reported.
#![tactic(auto)]

mod adjustment;
mod changes;
mod faults;
mod law;
mod loan_sums;
mod pending;
mod report;
mod report_line;
mod report_lines;
mod seals;

pub use adjustment::Adjustment;
pub use faults::{RemitFault, SealFault};
pub use law::{call_adds_up, closed_months_follow, reports_add_up};
pub use remit_types::MonthDue;
pub use report::Report;
pub use report_line::ReportLine;
pub use seals::Seals;
