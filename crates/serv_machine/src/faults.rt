//! Why a machine gives up.

use svc_base::OutOfMemory;
use svc_types::Refusal;
use thiserror::Error;

/// Why a command is not accepted.
#[derive(Clone, Copy, Debug, PartialEq, Eq, Error)]
pub enum ActFault {
    /// A rule refuses it.
    #[error("refused")]
    Refused(Refusal),
    /// The journal would pass its limit; its length as it is.
    #[error("full at {0} bytes")]
    Full(u64),
    /// A call of the disk failed.
    #[error("the disk failed")]
    DiskFault,
    #[error("out of memory")]
    OutOfMemory,
}

/// Why a request has no reply.
#[derive(Clone, Copy, Debug, PartialEq, Eq, Error)]
pub enum Halt {
    /// A call of the disk failed.
    #[error("the disk failed")]
    DiskFault,
    #[error("out of memory")]
    OutOfMemory,
}

/// Why no further request is answered.
#[derive(Clone, Copy, Debug, PartialEq, Eq, Error)]
pub enum Stop {
    /// A write failed.
    #[error("a write failed")]
    WriteFault,
    /// A call of the disk failed.
    #[error("the disk failed")]
    DiskFault,
    #[error("out of memory")]
    OutOfMemory,
}

impl From<OutOfMemory> for Halt {
    ghost use Rattle.std.specs.Prelude.{◌≡◌};
    ghost use Rattle.serv_machine.specs.declared.faults.Halt.TheVariants as halt;

    ghost from_gives = { λ _ e. e ≡ halt.OutOfMemory };

    fn from(_: OutOfMemory) -> Halt {
        Halt::OutOfMemory
    }
}
