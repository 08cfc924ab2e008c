//! What the desk is told of loans: terms, history, a quote, arrears, and who is late.
#![tactic(auto)]

mod aging;
mod lateness;
pub mod laws;
mod telling;

pub use aging::aging_answer;
pub use telling::{arrears_answer, history_answer, quote_answer, terms_answer};
