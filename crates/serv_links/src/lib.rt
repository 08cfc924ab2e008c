//! Connections, served one request after another.
#![tactic(auto)]

mod answering;
mod closing;
mod doors;
mod laws;
mod link_end;
mod meaning;
mod one_link;
mod responses;
mod serving;
mod summary;
mod verdict;

pub use doors::{DoorsEnd, MOST_LINKS, Service, serve_doors};
pub use laws::any_pieces;
pub use link_end::LinkEnd;
pub use meaning::Meaning;
pub use one_link::serve_one;
pub use serving::LINK_LIMIT;
pub use summary::{Summary, write_summary};
