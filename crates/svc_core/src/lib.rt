//! The core of the servicer: it judges and accepts commands, and answers queries, over books however they
//! are kept.
#![tactic(auto)]

mod accepting;
mod asking;
mod brief;
mod changing;
mod desk;
mod entering;
mod everyone;
mod fault;
mod laws;
mod parts;
mod posted;
mod preparing;
mod ready;
mod replies;
mod reporting;
mod scratch;
mod sent;
mod servicing;
mod taking_on;
mod verdict;

pub use fault::CoreFault;
pub use laws::replies_are_known;
pub use posted::Posted;
pub use servicing::Core;
pub use verdict::Verdict;
