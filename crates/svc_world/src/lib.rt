//! The definitions that the servicer's core is compared with: what is held, what a command makes of it,
//! why a request is refused, what is answered, and the laws of the books.
#![tactic(auto)]

mod answer;
mod custody;
mod desk;
pub mod laws;
mod list_of;
mod row_list;
mod scope;
mod worked;

pub use answer::Answer;
pub use custody::Custody;
pub use desk::{AgingCounts, BooksStatus, LateLoan};
pub use list_of::ListOf;
pub use row_list::RowList;
pub use scope::{Scope, scope_of};
pub use worked::{
    worked_analysis, worked_closings, worked_curtailment, worked_designations,
    worked_escrow_advance, worked_first_payment, worked_late_charge, worked_late_payment,
    worked_payoff, worked_payoff_reversed, worked_refusals, worked_reversal, worked_types,
};
