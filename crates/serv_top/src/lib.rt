//! The program's top call: request lines from a source, replies to a sink, and the status of the run.
#![tactic(auto)]

mod importing;
mod laws;
mod over_doors;
mod over_journal;
mod said;
mod serving;
mod stream;
mod top;

pub use laws::{
    files_say_one_thing, histories_are_taken_on, lines_have_one_answer, old_journals_have_room,
    replies_are_whole,
};
pub use serv_links::serve_one;
pub use serv_texts::{INPUT_LIMIT, Status};
pub use serv_words::{months_are_read, port_in};
pub use top::run;
