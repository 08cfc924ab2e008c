//! Servicing transfer: a history of one servicer becomes two, for the loans that are handed over and for
//! those that stay.
#![tactic(auto)]

mod amounts;
mod confirm_fault;
mod confirming;
mod keeping;
mod laws;
mod loan_fields;
mod loan_line;
mod loan_numbers;
mod loan_set;
mod places;
mod reading;
mod row_sums;
mod splitting;
mod statement_line;
mod stating;

pub use confirm_fault::ConfirmFault;
pub use confirming::confirm;
pub use laws::{a_text_is_one_statement, histories_split, parts_are_kept};
pub use splitting::{Halves, split};
pub use statement_line::{StatedCents, StatementLine};
pub use stating::statement;
