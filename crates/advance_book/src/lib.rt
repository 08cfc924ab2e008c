//! What custody holds for a loan, and what the servicer has advanced for it.
#![tactic(auto)]

mod loan;

pub use loan::{EscrowPosition, PiPosition, escrow_position, position};
