//! Why a call of a journal gives up.

use serv_disk::Failed;
use std::alloc::{AllocError, AllocFailed};
use thiserror::Error;

/// Why a call of a journal gives up.
#[derive(Clone, Copy, Debug, PartialEq, Eq, Error)]
pub enum JournalFault {
    /// The file does not begin with a header.
    #[error("no journal")]
    NotJournal,
    /// The file is longer than a journal with no record.
    #[error("a journal is already there")]
    AlreadyThere,
    /// The first place at which there is no commit byte, or of whose record the bytes are no record.
    #[error("damaged at {0}")]
    Damaged(u64),
    /// A call of the disk failed.
    #[error("the disk failed")]
    DiskFault,
    /// The length would pass the limit; the length as it is.
    #[error("full at {0} bytes")]
    Full(u64),
    #[error("out of memory")]
    OutOfMemory,
}

impl From<Failed> for JournalFault {
    ghost use Rattle.std.specs.Prelude.{◌≡◌};
    ghost use Rattle.serv_journal.specs.declared.faults.JournalFault.TheVariants as fault;

    ghost from_gives = { λ _ given. given ≡ fault.DiskFault };

    fn from(_: Failed) -> JournalFault {
        JournalFault::DiskFault
    }
}

impl From<AllocError> for JournalFault {
    ghost use Rattle.std.specs.Prelude.{◌≡◌};
    ghost use Rattle.serv_journal.specs.declared.faults.JournalFault.TheVariants as fault;

    ghost from_gives = { λ _ given. given ≡ fault.OutOfMemory };

    fn from(_: AllocError) -> JournalFault {
        JournalFault::OutOfMemory
    }
}

impl<T: Drop> From<AllocFailed<T>> for JournalFault {
    ghost use Rattle.std.specs.Prelude.{◌≡◌};
    ghost use Rattle.serv_journal.specs.declared.faults.JournalFault.TheVariants as fault;

    ghost from_gives = { λ _ given. given ≡ fault.OutOfMemory };

    fn from(_: AllocFailed<T>) -> JournalFault {
        JournalFault::OutOfMemory
    }
}
