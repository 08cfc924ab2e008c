//! What a disk in memory keeps of its calls, and what a crash leaves of them.
#![tactic(auto)]

mod kept;
mod tearing;
mod torn;

pub use kept::{Kept, Step};
pub use torn::Torn;
