//! The rules: why a command is refused, one file a family of commands, and what an escrow analysis settles by a plan.
#![tactic(auto)]

mod analysing;
mod boarding;
mod days;
mod entries;
mod figures;
mod limits;
mod lines;
mod money_in;
mod money_out;
mod months;
mod queries;
mod refusing;
mod retyping;
mod reversing;
mod state;
mod target;
mod waiving;

pub use analysing::{analysis_from, settle_now};
pub use figures::{figures_of, figures_with};
pub use months::{next_to_close, next_to_remit};
pub use queries::{refuse_day_of, refuse_report};
pub use refusing::refuse;
pub use state::State;
pub use target::Target;
