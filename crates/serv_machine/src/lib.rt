//! What stands behind requests: books in memory, or over a journal.
#![tactic(auto)]

mod answering;
mod faults;
mod frugal;
mod in_memory;
mod machine;
mod nowhere;
mod over_journal;
mod replies;
mod spoken;
mod verdict;

pub use answering::{answer_request, decide, decide_query};
pub use faults::{ActFault, Halt, Stop};
pub use frugal::Frugal;
pub use machine::Machine;
pub use nowhere::Nowhere;
pub use replies::Replies;
pub use spoken::Spoken;
pub use verdict::{Verdict, push_verdict};
