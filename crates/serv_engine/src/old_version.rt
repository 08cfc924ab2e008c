//! A journal of version 1 written anew.

ghost use Rattle.std.specs.Prelude.{◌≡◌, ◌⊎◌, ◌+◌, ◌≤◌, length, false, IfErr, OnOk};
ghost use Rattle.serv_disk.specs.Disks.{LeavesOnly};
ghost use Rattle.serv_journal.specs.Format.{Form, records};
ghost use Rattle.serv_journal.specs.States.{StandsFor};
ghost use Rattle.serv_journal.specs.Disks.{IsWhole, IsDurableFor};
ghost use Rattle.serv_journal.specs.Reading.{lines_in};
ghost use Rattle.serv_engine.specs.Opening.{base_length, length_upgraded, IsUpgradeFault};

use crate::fault::{EngineFault, of_journal};
use serv_disk::Disk;
use serv_journal::{Frames, Journal, Version};

/// Writes a journal of version 1 anew in version 2, and leaves one of version 2 as it is.
pub(crate) fn upgrade_old<D: Disk>(
    journal: &mut Journal,
    disk: &mut D,
    frames: &Frames,
) -> Result<(), EngineFault>
    requires unspent { journal.old.spent ≡ false }
    requires durable { IsDurableFor (D.view disk.old).images journal.old (lines_in frames.now) }
    ensures durable { OnOk result (IsDurableFor (D.view disk.new).images journal.new (lines_in frames.now)) }
    ensures version { OnOk result (journal.new.version ≡ Version.Two) }
    ensures size { (form : Form) → StandsFor form (lines_in frames.now) journal.old
        → OnOk result (journal.new.size
        ≡ base_length form (lines_in frames.now) + length (records Version.Two 1 (lines_in frames.now))) }
    ensures unspent { OnOk result (journal.new.spent ≡ false) }
    // A crash at any moment leaves the same lines.
    ensures moments { LeavesOnly D.view disk.old disk.new (IsWhole (lines_in frames.now)) }
    ensures room { OnOk result (journal.old.version ≡ Version.One
        → length_upgraded journal.old.size (lines_in frames.now) ≤ journal.old.limit) }
    ensures fault { IfErr result (IsUpgradeFault journal.old (lines_in frames.now)
        (D.faults disk.old) (D.faults disk.new)) }
    ensures kept { IfErr result (λ f. (f ≡ EngineFault.DiskFault) ⊎ (disk.new ≡ disk.old)) }
    ensures limit { journal.new.limit ≡ journal.old.limit }
    ensures faults { D.faults disk.old ≤ D.faults disk.new }
{
    if journal.version() == 2 {
        return Ok(());
    }
    match journal.upgrade(disk, frames) {
        Ok(()) => Ok(()),
        Err(fault) => Err(of_journal(fault)),
    }
}
