//! What became of a command that an engine has begun.

ghost use Rattle.std.specs.Prelude.{◌≡◌};
ghost use Rattle.serv_engine.specs.Engines.{reply_of};

use svc_types::Reply;

/// What became of a command.
#[derive(Clone, Copy, Debug, PartialEq, Eq)]
pub enum Taken {
    /// Its reply waits for nothing: it was kept for its key.
    Settled(Reply),
    /// It is begun: the disk has it after the next `begin` or `commit`.
    Begun(Reply),
}

impl Taken {
    /// The reply to the command.
    pub fn reply(self) -> Reply
        ensures { result ≡ reply_of self }
    {
        match self {
            Taken::Settled(reply) | Taken::Begun(reply) => reply,
        }
    }
}
