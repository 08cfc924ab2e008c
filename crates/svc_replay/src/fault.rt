//! Why a posting or a reversal is refused.

ghost use Rattle.std.specs.Prelude.{◌≡◌};

use std::alloc::{AllocError, AllocFailed};
use svc_base::OutOfMemory;
use thiserror::Error;

/// What keeps an entry or a reversal out of an account.
#[derive(Clone, Copy, Debug, PartialEq, Eq, Error)]
pub enum BookFault {
    #[error("the loan has 4,096 entries")]
    Full,
    #[error("no entry of the loan has that number")]
    NoSuchEntry,
    #[error("command {0} reversed the entry")]
    AlreadyReversed(u32),
    #[error("out of memory")]
    OutOfMemory,
}

impl From<AllocError> for BookFault {
    ghost use Rattle.svc_replay.specs.declared.fault.BookFault.TheVariants.{OutOfMemory};

    ghost from_gives = { λ _ e. e ≡ OutOfMemory };

    fn from(_: AllocError) -> BookFault {
        BookFault::OutOfMemory
    }
}

impl<T: Drop> From<AllocFailed<T>> for BookFault {
    ghost use Rattle.svc_replay.specs.declared.fault.BookFault.TheVariants.{OutOfMemory};

    ghost from_gives = { λ _ e. e ≡ OutOfMemory };

    fn from(_: AllocFailed<T>) -> BookFault {
        BookFault::OutOfMemory
    }
}

impl From<OutOfMemory> for BookFault {
    ghost use Rattle.svc_replay.specs.declared.fault.BookFault.TheVariants.{OutOfMemory};

    ghost from_gives = { λ _ e. e ≡ OutOfMemory };

    fn from(_: OutOfMemory) -> BookFault {
        BookFault::OutOfMemory
    }
}
