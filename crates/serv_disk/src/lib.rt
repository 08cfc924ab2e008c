//! What lies outside of the program: where input comes from, where output goes, connections, and the
//! disk; each as a trait, in memory, and over the machine.
#![tactic(auto)]

mod disk;
mod doors;
mod ended;
mod failed;
mod file_disk;
mod known;
mod link;
mod links;
mod mem_disk;
mod mem_doors;
mod mem_link;
mod sink;
mod source;
mod tcp;

pub use disk::Disk;
pub use doors::Doors;
pub use failed::Failed;
pub use file_disk::{FileDisk, Hold};
pub use link::Link;
pub use mem_disk::MemDisk;
pub use mem_doors::{CalmDoors, MemDoors};
pub use mem_link::{CalmLink, MemLink};
pub use serv_images::Torn;
pub use sink::{CalmSink, MemSink, Sink, WriteSink, write_beside, write_whole};
pub use source::{CalmSource, MemSource, ReadSource, Source, read_some};
pub use tcp::{TcpDoors, TcpLink};
