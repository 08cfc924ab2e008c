//! Opening a journal.

ghost use Rattle.std.specs.Prelude.{◌≡◌, ◌⊎◌, ℕ, ◌+◌, ◌<◌, ◌≤◌, ◌^◌, List, length, Some, false, IfOk, IfErr, OnOk, IsErrOf};
ghost use Rattle.serv_disk.specs.Disks.{Each, Only, LeavesOnly};
ghost use Rattle.serv_disk.specs.Faults.{HasCause};
ghost use Rattle.serv_journal.specs.Format.{IsLine, AreLines};
ghost use Rattle.serv_journal.specs.Disks.{IsGood, IsDurableFor};
ghost use Rattle.serv_journal.specs.Reading.{lines_in, IsOpened, IsDamaged, IsNoJournal};
ghost use Rattle.serv_journal.specs.Outcomes.{IsOnlyFault, IsOpenFault, Reaches};
ghost use Rattle.serv_journal.specs.Stays.{Stays};
ghost use Rattle.serv_journal.specs.Finds.{IsFound, HasForm, IsFindFault};

use crate::calls::{length_of, sync_all};
use crate::faults::JournalFault;
use crate::finds::{Found, find};
use crate::frames::Frames;
use crate::journal::Journal;
use crate::window::Window;
use crate::writes::close_byte;
use serv_disk::{Disk, Failed};
use std::alloc::Global;

/// The most bytes that are written again at once: a record of 512 bytes with its head and both commit bytes.
const MOST_AGAIN: u64 = 520;

/// The bytes of an upgrade's mark: a commit byte and a header.
const MARK: u64 = 9;

/// Writes so many bytes before a place again, 520 at most.
#[tactic(auto, using(crate::proofs::StaysLemmas::stays_once))]
fn renew_to<D: Disk>(disk: &mut D, to: u64, count: u64) -> Result<(), Failed>
    requires { Reaches (D.view disk.old).seen to }
    ensures stays { Stays D.view disk.old disk.new }
    ensures cause { HasCause (D.faults disk.old) (D.faults disk.new) result }
{
    let from = to - count.min(MOST_AGAIN).min(to);
    disk.renew(from, to)
}

/// Writes the last record with the commit bytes around it again, and the nine bytes before the first one, where an
/// upgrade leaves its mark. A sync that failed in an earlier run may have left them in the system's memory alone, and the
/// next one is to answer for them.
fn renew<D: Disk>(disk: &mut D, found: &Found) -> Result<(), Failed>
    requires reaches { Reaches (D.view disk.old).seen (found.now.place + 1) }
    requires small { found.now.place + 1 < 2 ^ 64 }
    ensures stays { Stays D.view disk.old disk.new }
    ensures cause { HasCause (D.faults disk.old) (D.faults disk.new) result }
{
    let end = found.place + 1;
    let first = place_or(&found.frames, 0, found.place);
    renew_to(disk, first.min(end), MARK)?;
    let last = found.frames.len().saturating_sub(1);
    renew_to(
        disk,
        end,
        end.saturating_sub(place_or(&found.frames, last, found.place)),
    )
}

/// The place of a record, or another one where there is no such record.
fn place_or(frames: &Frames, i: usize, other: u64) -> u64 {
    if i < frames.len() {
        frames.place(i)
    } else {
        other
    }
}

/// Reads the records of the part that is in force, and syncs what it has read.
fn read_all<D: Disk>(alloc: Global, disk: &mut D) -> Result<Found, JournalFault>
    ensures found { IfOk result (λ r. (s : List ℕ) → (D.view disk.old).seen ≡ Some s
        → IsFound r.version r.frames r.place r.commit s) }
    ensures form { IfOk result (λ r. HasForm r.version r.frames r.place) }
    ensures reach { IfOk result (λ r. Reaches (D.view disk.old).seen (r.place + 1)) }
    ensures small { IfOk result (λ r. r.place + 1 < 2 ^ 64) }
    ensures only { OnOk result (Only (D.view disk.new).seen (D.view disk.new).images) }
    ensures stays { Stays D.view disk.old disk.new }
    ensures faults { D.faults disk.old ≤ D.faults disk.new }
    ensures fault { IfErr result
        (IsFindFault (D.view disk.old).seen (D.faults disk.old) (D.faults disk.new)) }
{
    let size = length_of(disk)?;
    let mut window = Window::new(size);
    let found = find(alloc, &mut window, disk)?;
    renew(disk, &found)?;
    sync_all(disk)?;
    Ok(found)
}

impl Journal {
    /// Opens the journal of a disk: each line that it has, with its place. A commit byte after them that
    /// is not 0 is set to 0. A journal that is longer than the limit opens too.
    pub fn open<D: Disk>(
        alloc: Global,
        disk: &mut D,
        limit: u64,
    ) -> Result<(Journal, Frames), JournalFault>
        requires { limit ≤ 2 ^ 32 }
        // What it gives is what the file has.
        ensures opened { IfOk result (λ r. (s : List ℕ) → (D.view disk.old).seen ≡ Some s
            → IsOpened (D.view disk.new).seen r.0 r.1 s) }
        // Each image of the disk has these lines, whether the disk tells what it holds or not.
        ensures durable { IfOk result (λ r. IsDurableFor (D.view disk.new).images r.0 (lines_in r.1)) }
        ensures only { OnOk result (Only (D.view disk.new).seen (D.view disk.new).images) }
        ensures fresh { IfOk result (λ r. (r.0.limit ≡ limit) × (r.0.spent ≡ false)) }
        // A crash at any moment leaves a disk that was good for some lines and one line more as good.
        ensures moments { (s : List ℕ) → (D.view disk.old).seen ≡ Some s → (lines : List (List ℕ))
            (line : List ℕ)
            → AreLines lines → IsLine line
            → Each (D.view disk.old).images (IsGood lines line)
            → LeavesOnly D.view disk.old disk.new (IsGood lines line) }
        // `NotJournal` comes exactly where the file begins with no header.
        ensures not_journal { IsErrOf result JournalFault.NotJournal → (s : List ℕ)
            → (D.view disk.old).seen ≡ Some s → IsNoJournal s }
        ensures exactly_not_journal { (s : List ℕ) → (D.view disk.old).seen ≡ Some s → IsNoJournal s
            → IsOnlyFault JournalFault.NotJournal (D.faults disk.old) (D.faults disk.new) result }
        // `Damaged` comes exactly where the file is damaged, with the place.
        ensures damaged { IfErr result (λ fault. (place : ℕ) → fault ≡ JournalFault.Damaged place
            → (s : List ℕ) → (D.view disk.old).seen ≡ Some s → IsDamaged place s) }
        ensures exactly_damaged { (s : List ℕ) (place : ℕ)
            → (D.view disk.old).seen ≡ Some s → IsDamaged place s
            → IsOnlyFault (JournalFault.Damaged place) (D.faults disk.old) (D.faults disk.new) result }
        // Another fault than the disk's leaves what reads give.
        ensures kept { IfErr result (λ fault. (fault ≡ JournalFault.DiskFault)
            ⊎ ((D.view disk.new).seen ≡ (D.view disk.old).seen)) }
        ensures fault { IfErr result (IsOpenFault (D.faults disk.old) (D.faults disk.new)) }
        ensures faults { D.faults disk.old ≤ D.faults disk.new }
    {
        let found = read_all(alloc, disk)?;
        close_byte(disk, found.place, found.commit)?;
        Ok((
            Journal {
                size: found.place + 1,
                limit,
                count: found.frames.len() as u64,
                version: found.version,
                begun: None,
                laid: None,
                spent: false,
                reach: found.place + 1,
            },
            found.frames,
        ))
    }
}
