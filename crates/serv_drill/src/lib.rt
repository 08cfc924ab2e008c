//! A generated year of servicing, in memory: each of its commands is submitted twice.
#![tactic(auto)]

mod desk;
mod draws;
mod drilling;
mod keys;
mod laws;
mod months;
mod payments;
mod performing;
mod submitting;
mod summary;
mod worked;

pub use drilling::drill;
pub use laws::{payments_have_their_number, repeats_are_commands};
pub use worked::{worked_late_payment, worked_year};
