//! What a servicer owes an investor for a month of a loan, by the three remittance types of the
//! Fannie Mae Servicing Guide.
#![tactic(auto)]

mod dues;
mod laws;
mod worked;

pub use dues::{Carry, MonthDue, due, first};
pub use laws::{limits_month_by_month, month_by_month, same_type_throughout};
pub use svc_types::{MonthFacts, RemitType, Terms};
pub use worked::{worked_actual_dues, worked_changes_of_type, worked_scheduled_dues};
