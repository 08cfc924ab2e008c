//! Aggregate escrow analysis: what a year of bills asks of an escrow account.
#![tactic(auto)]

mod analysis;

pub use analysis::{Analysis, analyse, worked_years};
