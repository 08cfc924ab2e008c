//! The texts of the answers to queries.
#![tactic(auto)]

mod accounts;
mod analyses;
mod answers;
mod books;
mod history;
mod laws;
mod loans;
mod reports;
mod standing;
mod totals;
mod words;

pub use accounts::{custodial, push_custodial};
pub use analyses::{escrow, push_escrow};
pub use answers::{push_answer, write_answer};
pub use laws::answers_are_spellable;
pub use reports::{activity, push_activity, push_trial, trial};
