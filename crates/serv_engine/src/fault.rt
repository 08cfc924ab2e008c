//! Why a call of the engine gives up.

ghost use Rattle.std.specs.Prelude.{◌≡◌};
ghost use Rattle.serv_engine.specs.declared.fault.EngineFault.TheVariants as faults;
ghost use Rattle.serv_engine.specs.Opening.{fault_of_journal, fault_of_record};
ghost use Rattle.serv_engine.specs.Submitting.{fault_of_core};

use serv_journal::JournalFault;
use svc_base::OutOfMemory;
use svc_core::CoreFault;
use svc_types::Refusal;
use thiserror::Error;

/// Why a call of the engine gives up.
#[derive(Clone, Copy, Debug, PartialEq, Eq, Error)]
pub enum EngineFault {
    /// The file does not begin with a header.
    #[error("no journal")]
    NotJournal,
    /// The first place at which the file is no journal of commands that were accepted one after another.
    #[error("damaged at {0}")]
    Damaged(u64),
    /// A call of the disk failed.
    #[error("the disk failed")]
    DiskFault,
    /// A rule refuses the command or the query.
    #[error("refused")]
    Refused(Refusal),
    /// The journal would pass its limit; its length as it is.
    #[error("full at {0} bytes")]
    JournalFull(u64),
    #[error("out of memory")]
    OutOfMemory,
}

impl From<OutOfMemory> for EngineFault {
    ghost from_gives = { λ _ e. e ≡ faults.OutOfMemory };

    fn from(_: OutOfMemory) -> EngineFault {
        EngineFault::OutOfMemory
    }
}

/// The same fault of a journal that is opened. There is no limit on opening, and no journal is made.
pub(crate) fn of_journal(fault: JournalFault) -> EngineFault
    ensures { result ≡ fault_of_journal fault }
{
    match fault {
        JournalFault::NotJournal => EngineFault::NotJournal,
        JournalFault::AlreadyThere => EngineFault::DiskFault,
        JournalFault::Damaged(place) => EngineFault::Damaged(place),
        JournalFault::DiskFault => EngineFault::DiskFault,
        JournalFault::Full(bytes) => EngineFault::JournalFull(bytes),
        JournalFault::OutOfMemory => EngineFault::OutOfMemory,
    }
}

/// The same fault of the core.
pub(crate) fn of_core(fault: CoreFault) -> EngineFault
    ensures { result ≡ fault_of_core fault }
{
    match fault {
        CoreFault::Refused(why) => EngineFault::Refused(why),
        CoreFault::OutOfMemory => EngineFault::OutOfMemory,
    }
}

/// A fault of the core over the command of a record at this place: what is refused is damage.
pub(crate) fn of_record(place: u64, fault: CoreFault) -> EngineFault
    ensures { result ≡ fault_of_record place fault }
{
    match fault {
        CoreFault::Refused(_) => EngineFault::Damaged(place),
        CoreFault::OutOfMemory => EngineFault::OutOfMemory,
    }
}
