//! A journal: a list of lines that a crash leaves as it is, but for at most one line more.
#![tactic(auto)]

mod calls;
mod faults;
mod finds;
mod format;
mod frames;
mod journal;
mod new_journal;
mod opening;
mod records;
mod scans;
mod steps;
mod upgrading;
mod window;
mod writes;

pub use faults::JournalFault;
pub use format::Version;
pub use frames::Frames;
pub use journal::Journal;
pub use new_journal::init;
