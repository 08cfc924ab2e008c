//! The part of a file that is in force.

ghost use Rattle.std.specs.Prelude.{◌≡◌, ℕ, ◌+◌, ◌≤◌, List, length, take, Some, IfOk, IfErr};
ghost use Rattle.serv_journal.specs.Format.{IsFront};
ghost use Rattle.serv_journal.specs.Windows.{ShowsTold, IsReading};
ghost use Rattle.serv_journal.specs.Finds.{IsFound, HasForm, IsFindFault};

use crate::faults::JournalFault;
use crate::format::Version;
use crate::frames::Frames;
use crate::scans::scan_from;
use crate::steps::{End, HEADER_TWO};
use crate::window::Window;
use serv_disk::Disk;
use std::alloc::Global;

/// The text with which a file of version 1 begins.
const HEADER_ONE: [u8; 8] = [77, 83, 82, 86, 74, 48, 48, 49];

/// The records of the part that is in force, and the commit byte after them with its place.
#[derive(Drop)]
pub(crate) struct Found {
    pub(crate) version: Version,
    pub(crate) frames: Frames,
    pub(crate) place: u64,
    pub(crate) commit: u8,
}

/// Reads records of version 2 after a front of this length.
#[tactic(auto, using(crate::proofs::ReadingLemmas::reading_on, crate::proofs::ReadingLemmas::passing_from))]
fn find_two<D: Disk>(
    alloc: Global,
    window: &mut Window,
    disk: &mut D,
    from: u64,
) -> Result<Found, JournalFault>
    requires within { from ≤ window.old.size }
    requires shows { ShowsTold (D.view disk.old).seen window.old }
    requires front { (s : List ℕ) → (D.view disk.old).seen ≡ Some s → IsFront Version.Two (take from s) }
    requires form { (front : List ℕ) × IsFront Version.Two front × (length front ≡ from) }
    ensures found { IfOk result (λ r. (s : List ℕ) → (D.view disk.old).seen ≡ Some s
        → IsFound r.version r.frames r.place r.commit s) }
    ensures form { IfOk result (λ r. HasForm r.version r.frames r.place) }
    ensures fits { IfOk result (λ r. r.place + 1 ≤ window.old.size) }
    ensures reading { IsReading D.view D.faults disk.old disk.new window.old window.new }
    ensures fault { IfErr result
        (IsFindFault (D.view disk.old).seen (D.faults disk.old) (D.faults disk.new)) }
{
    let scan = scan_from(alloc, window, disk, Version::Two, from)?;
    match scan.end {
        End::Closed(commit) => Ok(Found {
            version: Version::Two,
            frames: scan.frames,
            place: scan.place,
            commit,
        }),
        End::Marked => unreachable!(),
        End::Bad => Err(JournalFault::Damaged(scan.place)),
    }
}

/// Reads records of version 1, and those of version 2 after them where there are.
#[tactic(auto, using(crate::proofs::ReadingLemmas::reading_on, crate::proofs::ReadingLemmas::passing_from))]
fn find_one<D: Disk>(
    alloc: Global,
    window: &mut Window,
    disk: &mut D,
) -> Result<Found, JournalFault>
    requires within { 8 ≤ window.old.size }
    requires shows { ShowsTold (D.view disk.old).seen window.old }
    requires front { (s : List ℕ) → (D.view disk.old).seen ≡ Some s → IsFront Version.One (take 8 s) }
    ensures found { IfOk result (λ r. (s : List ℕ) → (D.view disk.old).seen ≡ Some s
        → IsFound r.version r.frames r.place r.commit s) }
    ensures form { IfOk result (λ r. HasForm r.version r.frames r.place) }
    ensures fits { IfOk result (λ r. r.place + 1 ≤ window.old.size) }
    ensures reading { IsReading D.view D.faults disk.old disk.new window.old window.new }
    ensures fault { IfErr result
        (IsFindFault (D.view disk.old).seen (D.faults disk.old) (D.faults disk.new)) }
{
    let _size = window.size();
    let scan = scan_from(alloc, window, disk, Version::One, 8)?;
    match scan.end {
        End::Closed(commit) => Ok(Found {
            version: Version::One,
            frames: scan.frames,
            place: scan.place,
            commit,
        }),
        End::Marked => find_two(alloc, window, disk, scan.place + 9),
        End::Bad => Err(JournalFault::Damaged(scan.place)),
    }
}

/// Reads the records of the part that is in force.
#[tactic(auto, using(crate::proofs::ReadingLemmas::reading_on, crate::proofs::ReadingLemmas::passing_from))]
pub(crate) fn find<D: Disk>(
    alloc: Global,
    window: &mut Window,
    disk: &mut D,
) -> Result<Found, JournalFault>
    requires shows { ShowsTold (D.view disk.old).seen window.old }
    ensures found { IfOk result (λ r. (s : List ℕ) → (D.view disk.old).seen ≡ Some s
        → IsFound r.version r.frames r.place r.commit s) }
    ensures form { IfOk result (λ r. HasForm r.version r.frames r.place) }
    ensures fits { IfOk result (λ r. r.place + 1 ≤ window.old.size) }
    ensures reading { IsReading D.view D.faults disk.old disk.new window.old window.new }
    ensures fault { IfErr result
        (IsFindFault (D.view disk.old).seen (D.faults disk.old) (D.faults disk.new)) }
{
    let is_two = window.has_text(disk, 0, &HEADER_TWO)?;
    if is_two {
        return find_two(alloc, window, disk, 8);
    }
    let is_one = window.has_text(disk, 0, &HEADER_ONE)?;
    if is_one {
        return find_one(alloc, window, disk);
    }
    Err(JournalFault::NotJournal)
}
