//! The engine: the books of a servicer over a journal. A command is in the journal before it is answered.
#![tactic(auto)]

mod adding;
mod engine;
mod fault;
mod old_version;
mod opening;
mod replaying;
mod taken;
mod until;

pub use engine::Engine;
pub use fault::EngineFault;
pub use taken::Taken;
