//! The annual bills that are paid from a loan's escrow account.
#![tactic(auto)]

mod line;
mod lines;

pub use line::{EscrowLineFault, Line};
pub use lines::Lines;
pub use svc_types::{LineKind, LineWhy};
