//! What is known of the bytes of each text of a reply: that they are ASCII.
#![tactic(auto)]

mod laws;
mod reach;

pub use laws::texts_are_ascii;
pub use reach::{reach_answer, reach_refusal};
