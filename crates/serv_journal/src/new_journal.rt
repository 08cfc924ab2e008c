//! A new journal.

ghost use Rattle.std.specs.Prelude.{◌≡◌, ◌⊎◌, ℕ, ◌≤◌, ◌<◌, List, [], ◌∷◌, ◌++◌, length, Some, IfErr, OnOk, IsErrOf};
ghost use Rattle.serv_disk.specs.Faults.{HasRisen};
ghost use Rattle.serv_disk.specs.Disks.{Each, LeavesOnly};
ghost use Rattle.serv_journal.specs.Format.{header, new_form};
ghost use Rattle.serv_journal.specs.Disks.{IsWholeIn};
ghost use Rattle.serv_journal.specs.Outcomes.{IsOnlyFault};

use crate::calls::length_of;
use crate::faults::JournalFault;
use crate::format::Version;
use crate::writes::put;
use serv_disk::Disk;

/// The bytes of a journal with no record: the header of version 2 and a closed commit byte.
const NEW_JOURNAL: [u8; 9] = [77, 83, 82, 86, 74, 48, 48, 50, 0];

/// Makes a journal with no record of a file of at most 9 bytes. It takes no memory.
pub fn init<D: Disk>(disk: &mut D) -> Result<(), JournalFault>
    // After Ok each image of the disk is a journal with no record, and so is what reads give.
    ensures durable { OnOk result (Each (D.view disk.new).images (IsWholeIn new_form [])) }
    ensures written { OnOk result ((s : List ℕ) → (D.view disk.old).seen ≡ Some s
        → (D.view disk.new).seen ≡ Some (header Version.Two ++ 0 ∷ [])) }
    // At each moment a file of at most 9 bytes has at most 9 bytes.
    ensures moments { Each (D.view disk.old).images (λ c. length c ≤ 9)
        → LeavesOnly D.view disk.old disk.new (λ c. length c ≤ 9) }
    // `AlreadyThere` comes exactly where the file is longer, and then nothing is written.
    ensures already { IsErrOf result JournalFault.AlreadyThere
        → (s : List ℕ) → (D.view disk.old).seen ≡ Some s → 9 < length s }
    ensures longer { (s : List ℕ) → (D.view disk.old).seen ≡ Some s → 9 < length s
        → IsOnlyFault JournalFault.AlreadyThere (D.faults disk.old) (D.faults disk.new) result }
    ensures kept { IsErrOf result JournalFault.AlreadyThere
        → (D.view disk.new).seen ≡ (D.view disk.old).seen }
    ensures kept_images { IsErrOf result JournalFault.AlreadyThere
        → Each (D.view disk.new).images (D.view disk.old).images }
    // Any other fault is the disk's, whose count has risen.
    ensures fault { IfErr result (λ fault. (fault ≡ JournalFault.AlreadyThere)
        ⊎ ((fault ≡ JournalFault.DiskFault) × HasRisen (D.faults disk.old) (D.faults disk.new))) }
    ensures faults { D.faults disk.old ≤ D.faults disk.new }
{
    if length_of(disk)? > 9 {
        return Err(JournalFault::AlreadyThere);
    }
    put(disk, 0, &NEW_JOURNAL)?;
    Ok(())
}
