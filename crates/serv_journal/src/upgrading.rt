//! From version 1 to version 2.

ghost use Rattle.std.specs.Prelude.{◌≡◌, ◌⊎◌, ◌↔◌, ℕ, ◌+◌, ◌≤◌, ◌<◌, ◌^◌, List, [], ◌∷◌, ◌++◌, length, slice_index_or, Some, None, true, false, IfErr, OnOk, IsErrOf, MatchOption};
ghost use Rattle.serv_disk.specs.Faults.{HasCause, HasRisen};
ghost use Rattle.serv_disk.specs.Disks.{Each, Holds, Told, LeavesOnly};
ghost use Rattle.serv_journal.specs.Bytes.{Starts, IsOpening};
ghost use Rattle.serv_journal.specs.Format.{Form, IsLine, AreLines, body, header, records, commit_at, laid, rewritten, upgraded_form};
ghost use Rattle.serv_journal.specs.States.{StandsFor};
ghost use Rattle.serv_journal.specs.Disks.{IsWholeIn, IsWhole};
ghost use Rattle.serv_journal.specs.Reading.{lines_in};
ghost use Rattle.serv_journal.specs.Outcomes.{Reaches};

use crate::calls::sync_all;
use crate::faults::JournalFault;
use crate::format::Version;
use crate::frames::Frames;
use crate::journal::Journal;
use crate::records::{ROOM, lay_out};
use crate::writes::{lay, set_byte};
use serv_disk::{Disk, Failed};

/// The length after an upgrade of a journal of this length, where it is within the limit.
fn upgraded_size(frames: &Frames, size: u64, limit: u64) -> Option<u64>
    requires lines { AreLines (lines_in frames.now) }
    requires limit { limit ≤ 2 ^ 32 }
    ensures { MatchOption result (limit < size + 9 + length (records Version.Two 1 (lines_in frames.now)))
        (λ n. (n ≡ size + 9 + length (records Version.Two 1 (lines_in frames.now))) × (n ≤ limit)) }
{
    if limit < 9 || limit - 9 < size {
        return None;
    }
    let count = frames.len();
    let mut total = size + 9;
    for i in 0..count {
        let next = total + record_size(frames, i);
        if limit < next {
            return None;
        }
        total = next;
    }
    Some(total)
}

/// The bytes of a record of version 2.
fn record_size(frames: &Frames, i: usize) -> u64
    requires lines { AreLines (lines_in frames.now) }
    requires index { i < length frames.now }
    ensures size { result ≡ 7 + length (slice_index_or (lines_in frames.now) i []) }
    ensures small { result ≤ 519 }
{
    7 + line_of(frames, i).len() as u64
}

/// A line.
fn line_of(frames: &Frames, i: usize) -> &[u8]
    requires lines { AreLines (lines_in frames.now) }
    requires index { i < length frames.now }
    ensures line { result.now ≡ slice_index_or (lines_in frames.now) i [] }
    ensures is_line { IsLine result.now }
{
    frames.line(i)
}

/// The header of version 2, and the commit byte after it.
#[tactic(auto, unfolding(crate::specs::Format::header))]
fn first_piece(next: u8) -> [u8; 9]
    ensures { result ≡ header Version.Two ++ next ∷ [] }
{
    [77, 83, 82, 86, 74, 48, 48, 50, next]
}

/// Whether a record comes after so many, as its commit byte.
fn commit_after(i: usize, count: usize) -> u8
    ensures { result ≡ commit_at i count }
{
    if i < count { 1 } else { 0 }
}

/// Puts a record of version 2 after its commit byte, and the next commit byte.
fn lay_in<D: Disk>(
    disk: &mut D,
    at: u64,
    number: u32,
    line: &[u8],
    next: u8,
    room: &mut [u8],
) -> Result<(), Failed>
    requires line { IsLine line.now }
    requires room { length room.old ≡ 7 + length line.now }
    requires reaches { Reaches (D.view disk.old).seen at }
    ensures told { OnOk result (Told (D.view disk.old).seen (D.view disk.new).seen
        (Holds at (body Version.Two number line.now ++ next ∷ []))) }
    ensures crash { (front : List ℕ) → length front ≤ at → Each (D.view disk.old).images (Starts front)
        → Each (D.view disk.new).images (Starts front) }
    ensures moments { (front : List ℕ) → length front ≤ at → Each (D.view disk.old).images (Starts front)
        → LeavesOnly D.view disk.old disk.new (Starts front) }
    ensures cause { HasCause (D.faults disk.old) (D.faults disk.new) result }
{
    lay_out(number, line, next, room);
    lay(disk, at, room)
}

/// The same, laid out in a room of its own.
fn lay_record<D: Disk>(
    disk: &mut D,
    at: u64,
    number: u32,
    line: &[u8],
    next: u8,
) -> Result<(), Failed>
    requires line { IsLine line.now }
    requires reaches { Reaches (D.view disk.old).seen at }
    ensures told { OnOk result (Told (D.view disk.old).seen (D.view disk.new).seen
        (Holds at (body Version.Two number line.now ++ next ∷ []))) }
    ensures crash { (front : List ℕ) → length front ≤ at → Each (D.view disk.old).images (Starts front)
        → Each (D.view disk.new).images (Starts front) }
    ensures moments { (front : List ℕ) → length front ≤ at → Each (D.view disk.old).images (Starts front)
        → LeavesOnly D.view disk.old disk.new (Starts front) }
    ensures cause { HasCause (D.faults disk.old) (D.faults disk.new) result }
{
    let mut room = [0; ROOM];
    lay_in(disk, at, number, line, next, &mut room[..line.len() + 7])
}

/// Puts all records as records of version 2 after a part of version 1 of this length.
fn lay_all<D: Disk>(disk: &mut D, size: u64, frames: &Frames) -> Result<(), Failed>
    requires lines { AreLines (lines_in frames.now) }
    requires small { size + 9 + length (records Version.Two 1 (lines_in frames.now)) ≤ 2 ^ 32 }
    requires reaches { Reaches (D.view disk.old).seen size }
    ensures told { (front : List ℕ) → length front ≡ size
        → ((s : List ℕ) → (D.view disk.old).seen ≡ Some s → Starts front s)
        → OnOk result ((s : List ℕ) → (D.view disk.new).seen ≡ Some s
        → Starts (front ++ rewritten (lines_in frames.now)) s) }
    ensures reach { OnOk result (Reaches (D.view disk.new).seen size) }
    ensures crash { (front : List ℕ) → length front ≡ size → Each (D.view disk.old).images (Starts front)
        → Each (D.view disk.new).images (Starts front) }
    ensures moments { (front : List ℕ) → length front ≡ size → Each (D.view disk.old).images (Starts front)
        → LeavesOnly D.view disk.old disk.new (Starts front) }
    ensures cause { HasCause (D.faults disk.old) (D.faults disk.new) result }
{
    let count = frames.len();
    lay(disk, size, &first_piece(commit_after(0, count)))?;
    let mut at = size + 9;
    for i in 0..count {
        let line = line_of(frames, i);
        lay_record(disk, at, (i + 1) as u32, line, commit_after(i + 1, count))?;
        at += 7 + line.len() as u64;
    }
    Ok(())
}

/// Puts all records after a part of version 1 of this length, and ends that part by a mark.
fn write_upgrade<D: Disk>(disk: &mut D, size: u64, frames: &Frames) -> Result<(), Failed>
    requires some { 1 ≤ size }
    requires lines { AreLines (lines_in frames.now) }
    requires small { size + 9 + length (records Version.Two 1 (lines_in frames.now)) ≤ 2 ^ 32 }
    requires reaches { Reaches (D.view disk.old).seen size }
    ensures durable { (front : List ℕ) → length front + 1 ≡ size
        → Each (D.view disk.old).images (Starts (front ++ 0 ∷ []))
        → OnOk result (Each (D.view disk.new).images
        (Starts (front ++ 2 ∷ rewritten (lines_in frames.now)))) }
    ensures moments { (front : List ℕ) → length front + 1 ≡ size
        → Each (D.view disk.old).images (Starts (front ++ 0 ∷ []))
        → LeavesOnly D.view disk.old disk.new (IsOpening front (rewritten (lines_in frames.now))) }
    ensures cause { HasCause (D.faults disk.old) (D.faults disk.new) result }
{
    lay_all(disk, size, frames)?;
    sync_all(disk)?;
    set_byte(disk, size - 1, 2)
}

impl Journal {
    /// Writes a journal of version 1, as `open` left it, as a journal of version 2 with the same lines,
    /// after its part of version 1. It takes no memory.
    pub fn upgrade<D: Disk>(&mut self, disk: &mut D, frames: &Frames) -> Result<(), JournalFault>
        requires version { self.old.version ≡ Version.One }
        requires unspent { self.old.spent ≡ false }
        requires lines { AreLines (lines_in frames.now) }
        requires reaches { Reaches (D.view disk.old).seen self.old.size }
        // A crash at any moment leaves the same lines, in one version or the other.
        ensures moments { (form : Form) → StandsFor form (lines_in frames.now) self.old
            → Each (D.view disk.old).images (IsWholeIn form (lines_in frames.now))
            → LeavesOnly D.view disk.old disk.new (IsWhole (lines_in frames.now)) }
        ensures upgraded { (form : Form) → StandsFor form (lines_in frames.now) self.old
            → OnOk result (StandsFor (upgraded_form form (lines_in frames.now))
            (lines_in frames.now) self.new) }
        ensures durable { (form : Form) → StandsFor form (lines_in frames.now) self.old
            → Each (D.view disk.old).images (IsWholeIn form (lines_in frames.now))
            → OnOk result (Each (D.view disk.new).images
            (IsWholeIn (upgraded_form form (lines_in frames.now)) (lines_in frames.now))) }
        ensures none_begun { OnOk result ((self.new.begun ≡ None) × (self.new.laid ≡ None)) }
        // `Full` comes exactly where the length would pass the limit, and then nothing is written.
        ensures full { IsErrOf result (JournalFault.Full self.old.size)
            ↔ (self.old.limit < self.old.size + 9 + length (records Version.Two 1 (lines_in frames.now))) }
        ensures kept { self.old.limit < self.old.size + 9 + length
            (records Version.Two 1 (lines_in frames.now))
            → (self.new ≡ self.old) × (disk.new ≡ disk.old) }
        ensures fault { IfErr result (λ fault. (fault ≡ JournalFault.Full self.old.size)
            ⊎ ((fault ≡ JournalFault.DiskFault) × HasRisen (D.faults disk.old) (D.faults disk.new))) }
        // The journal is spent exactly after `DiskFault`.
        ensures spent { IsErrOf result JournalFault.DiskFault ↔ (self.new.spent ≡ true) }
        ensures faults { D.faults disk.old ≤ D.faults disk.new }
        ensures limit { self.new.limit ≡ self.old.limit }
    {
        let Some(size) = upgraded_size(frames, self.size, self.limit) else {
            return Err(JournalFault::Full(self.size));
        };
        match write_upgrade(disk, self.size, frames) {
            Ok(()) => {
                self.size = size;
                self.count = frames.len() as u64;
                self.version = Version::Two;
                self.begun = None;
                self.laid = None;
                Ok(())
            }
            Err(_) => {
                self.spent = true;
                Err(JournalFault::DiskFault)
            }
        }
    }
}
