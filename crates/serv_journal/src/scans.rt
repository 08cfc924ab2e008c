//! Records read one after the other.

ghost use Rattle.std.specs.Prelude.{◌≡◌, ℕ, ◌+◌, ◌≤◌, List, length, drop, Some, IfOk, IfErr};
ghost use Rattle.serv_journal.specs.Format.{head_size};
ghost use Rattle.serv_journal.specs.Outcomes.{IsPassing};
ghost use Rattle.serv_journal.specs.Windows.{ShowsTold, IsReading};
ghost use Rattle.serv_journal.specs.Steps.{IsEnd, EndFits};
ghost use Rattle.serv_journal.specs.Scans.{IsPlaced, IsScanned};

use crate::faults::JournalFault;
use crate::format::Version;
use crate::frames::Frames;
use crate::steps::{End, Step, step_at};
use crate::window::Window;
use serv_disk::Disk;
use std::alloc::Global;

/// The records from a place on, the place where they end, and how.
#[derive(Drop)]
pub(crate) struct Scan {
    pub(crate) frames: Frames,
    pub(crate) place: u64,
    pub(crate) end: End,
}

/// How many bytes of a record stand between its commit byte and its line.
fn head_of(version: Version) -> u64
    ensures { result ≡ head_size version }
{
    match version {
        Version::One => 2,
        Version::Two => 6,
    }
}

/// Reads records from this place to their end.
#[tactic(auto, using(crate::proofs::ReadingLemmas::reading_on, crate::proofs::ReadingLemmas::passing_from))]
pub(crate) fn scan_from<D: Disk>(
    alloc: Global,
    window: &mut Window,
    disk: &mut D,
    version: Version,
    from: u64,
) -> Result<Scan, JournalFault>
    requires within { from ≤ window.old.size }
    requires shows { ShowsTold (D.view disk.old).seen window.old }
    ensures placed { IfOk result (λ r. IsPlaced version from r.frames r.place) }
    ensures fits { IfOk result (λ r. EndFits version r.place window.old.size r.end) }
    ensures scanned { IfOk result (λ r. (s : List ℕ) → (D.view disk.old).seen ≡ Some s
        → IsScanned version from r.frames r.place s) }
    ensures end { IfOk result (λ r. (s : List ℕ) → (D.view disk.old).seen ≡ Some s
        → IsEnd version (length r.frames + 1) (drop r.place s) r.end) }
    ensures reading { IsReading D.view D.faults disk.old disk.new window.old window.new }
    ensures fault { IfErr result (IsPassing (D.faults disk.old) (D.faults disk.new)) }
{
    let _size = window.size();
    let mut frames = Frames::new(alloc);
    let mut place = from;
    loop {
        let number = frames.len() as u64 + 1;
        match step_at(window, disk, version, number, place)? {
            Step::Record(size) => {
                let start = place + 1 + head_of(version);
                frames.push(place, window.part(start, size))?;
                place = start + size as u64;
            }
            Step::Ends(end) => return Ok(Scan { frames, place, end }),
        }
    }
}
