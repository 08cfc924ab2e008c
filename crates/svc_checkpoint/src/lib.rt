//! The books of one loan, kept at each month's end, so that a late entry costs what comes after it.
#![tactic(auto)]

mod checked;
mod ends;
mod month_end;
mod plans;
mod rows;

pub use checked::Checked;
pub use rows::worked_bound;
