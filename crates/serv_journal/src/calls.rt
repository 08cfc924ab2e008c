//! Calls of a disk that leave it as it was.

ghost use Rattle.std.specs.Prelude.{◌≡◌, ℕ, List, length, Some, IfOk, OnOk};
ghost use Rattle.serv_disk.specs.Faults.{HasCause};
ghost use Rattle.serv_disk.specs.Disks.{Only};
ghost use Rattle.serv_journal.specs.Stays.{Stays};

use serv_disk::{Disk, Failed};

/// The length of the file.
pub(crate) fn length_of<D: Disk>(disk: &mut D) -> Result<u64, Failed>
    ensures number { IfOk result (λ n. (s : List ℕ) → (D.view disk.old).seen ≡ Some s → n ≡ length s) }
    ensures stays { Stays D.view disk.old disk.new }
    ensures cause { HasCause (D.faults disk.old) (D.faults disk.new) result }
{
    disk.len()
}

/// Makes what reads give the only thing that a crash leaves.
pub(crate) fn sync_all<D: Disk>(disk: &mut D) -> Result<(), Failed>
    ensures only { OnOk result (Only (D.view disk.new).seen (D.view disk.new).images) }
    ensures stays { Stays D.view disk.old disk.new }
    ensures cause { HasCause (D.faults disk.old) (D.faults disk.new) result }
{
    disk.sync()
}
