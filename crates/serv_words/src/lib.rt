//! The words of the command line: what they ask for.
#![tactic(auto)]

mod extracts;
mod laws;
mod query_words;
mod texts;
mod words;

pub use extracts::Extract;
pub use laws::months_are_read;
pub use query_words::read_asking;
pub use texts::Text;
pub use words::{Task, port_in, read_words};
