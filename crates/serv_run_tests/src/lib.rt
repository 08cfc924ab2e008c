//! Runs of the program's top call in memory, and lines with their replies: what the tests of the top share.
#![tactic(auto)]

mod exchanges;
mod running;
mod tables;

pub use exchanges::{lines_of, replies_to};
pub use running::{
    Ending, Given, LINE, NEW_JOURNAL, ONE_LINE, disk_of, ending_at, ending_of, ending_on,
    journal_of, over, run_in_memory, sink_of, source_of,
};
pub use tables::{
    CLOSED_LATER, CREDITED, ENDS, ESCROWED, NO_REQUESTS, NO_SHORTAGE, ONE_BILL, SHORTAGE,
    SMALL_SHORTAGE, TOO_EARLY,
};
