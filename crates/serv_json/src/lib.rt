//! JSON bodies: the commands that bodies ask for, and the bodies of replies.
#![tactic(auto)]

mod members;
mod reading;
mod writing;

pub use reading::{JsonFault, read_json};
pub use writing::write_json;
