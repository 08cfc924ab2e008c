//! What opens a journal, and what writes one text over it.
#![tactic(auto)]

mod drilling;
mod extracts;
mod journals;
mod reading;
mod status;
mod texts;
mod writing;

pub use drilling::write_year;
pub use journals::{make_journal, open_journal};
pub use reading::{INPUT_LIMIT, read_all};
pub use status::Status;
pub use texts::write_over_journal;
pub use writing::write_text;
