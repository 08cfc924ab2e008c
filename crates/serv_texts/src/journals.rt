//! A journal that is made, and one that is opened.

ghost use Rattle.std.specs.Prelude.{◌≡◌, ◌⊎◌, ℕ, ◌-◌, ◌<◌, ◌≤◌, List, length, false, Some, Err, IfErr, IfOk, OnOk};
ghost use Rattle.serv_disk.specs.Disks.{Each, LeavesOnly};
ghost use Rattle.serv_disk.specs.Faults.{HasRisen};
ghost use Rattle.serv_journal.specs.declared.format.Version.TheVariants as version;
ghost use Rattle.serv_engine.specs.Histories.{lengths_of};
ghost use Rattle.serv_engine.specs.Engines.{IsDurable};
ghost use Rattle.serv_texts.specs.Status.{status_of_fault};
ghost use Rattle.serv_texts.specs.Journal.{HasFileFaults, IsInit, IsOpened, IsUnopened, journal_limit};

use crate::status::Status;
use serv_disk::Disk;
use serv_engine::{Engine, EngineFault};
use serv_journal::{JournalFault, init};
use std::alloc::Global;
use std::sync::ledger::Ledger;
use svc_base::Steps;
use svc_checkpoint::Checked;

/// The limit on a journal that is opened: 268,435,456 bytes.
const JOURNAL_LIMIT: u64 = 1 << 28;

/// Makes an empty journal. It takes no memory.
pub fn make_journal<D: Disk>(disk: &mut D) -> Status
    ensures made { IsInit result (D.view disk.old) (D.view disk.new) (D.faults disk.old) (D.faults disk.new) }
    // At each moment a file of at most 9 bytes has at most 9 bytes.
    ensures moments { Each (D.view disk.old).images (λ c. length c ≤ 9)
        → LeavesOnly D.view disk.old disk.new (λ c. length c ≤ 9) }
    ensures longer { (s : List ℕ) → (D.view disk.old).seen ≡ Some s → 9 < length s
        → (result ≡ Status.AlreadyThere) ⊎ (result ≡ Status.DiskFault) }
    ensures faults { D.faults disk.old ≤ D.faults disk.new }
{
    match init(disk) {
        Ok(()) => Status::Done,
        Err(JournalFault::AlreadyThere) => Status::AlreadyThere,
        Err(_) => Status::DiskFault,
    }
}

/// The status of a run that opened no journal.
fn unopened(fault: EngineFault) -> Status
    ensures { result ≡ status_of_fault fault }
{
    match fault {
        EngineFault::NotJournal => Status::NotJournal,
        EngineFault::Damaged(place) => Status::Damaged(place),
        EngineFault::DiskFault => Status::DiskFault,
        EngineFault::JournalFull(bytes) => Status::JournalFull(bytes),
        EngineFault::OutOfMemory | EngineFault::Refused(_) => Status::OutOfMemory,
    }
}

/// Opens the journal of the disk. Errs with the status of a run that opened none.
pub fn open_journal<D: Disk, L: Ledger>(
    alloc: Global,
    disk: &mut D,
    steps: &mut Steps<L>,
) -> Result<Engine<Checked>, Status>
    ensures opened { IfOk result (λ e. IsOpened D.view disk.old disk.new
        steps.old steps.new (e.journal.size - lengths_of e.history) e.history) }
    ensures limit { IfOk result (λ e. e.journal.limit ≡ journal_limit) }
    ensures ready { IfOk result (λ e. (e.journal.spent ≡ false) × (e.journal.version ≡ version.Two)
        × IsDurable (D.view disk.new).images e) }
    ensures unopened { IfErr result (λ status. IsUnopened D.view D.faults
        disk.old disk.new status steps.old steps.new) }
    // The faults of the file come exactly by their causes; where it is opened it has none.
    ensures file { IfErr result (HasFileFaults (D.view disk.old).seen) }
    ensures faultless { OnOk result ((status : Status) → HasFileFaults (D.view disk.old).seen status) }
    ensures disk { result ≡ Err Status.DiskFault → HasRisen (D.faults disk.old) (D.faults disk.new) }
    ensures disk_later { D.faults disk.old ≤ D.faults disk.new }
{
    match Engine::<Checked>::open(alloc, disk, JOURNAL_LIMIT, steps) {
        Ok(engine) => Ok(engine),
        Err(fault) => Err(unopened(fault)),
    }
}
