//! The books of one loan: where they begin, and what one event does to them.
#![tactic(auto)]

mod acts;
mod fold;
mod installment;
mod past_due;
mod payoff;
mod rows;
mod settle;

pub use fold::{fold_step, start};
pub use installment::open_installment;
pub use past_due::arrears;
pub use payoff::{available, is_current, payoff_due};
pub use rows::{
    due_by_the_month, worked_charges, worked_designations, worked_escrow, worked_last_payments,
    worked_payments, worked_payoffs,
};
pub use svc_types::Installment;
