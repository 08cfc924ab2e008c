//! Reading a file through a window.

ghost use Rattle.std.specs.Prelude.{◌≡◌, ℕ, ◌+◌, ◌-◌, ◌≤◌, ◌<◌, ◌↔◌, List, [], length, min, take, drop, slice_index, Some, IfOk, IfErr, OnOk, IsTrue};
ghost use Rattle.serv_disk.specs.Faults.{HasCause};
ghost use Rattle.serv_journal.specs.Bytes.{Starts};
ghost use Rattle.serv_journal.specs.Outcomes.{IsPassing};
ghost use Rattle.serv_journal.specs.Windows.{Shows, ShowsTold, IsReading, Has};

use crate::faults::JournalFault;
use serv_disk::{Disk, Failed};
use std::marker::Model;

/// The most bytes that are read at once.
const SPAN: usize = 4096;

/// A part of a file, of at most 4,096 bytes.
#[derive(Drop)]
pub(crate) struct Window {
    size: u64,
    at: u64,
    filled: usize,
    room: [u8; SPAN],
}

impl Model for Window {
    ghost use Rattle.std.specs.Prelude.{ℕ, ◌+◌, ◌≤◌, take};
    ghost use Rattle.serv_journal.specs.Windows.{WindowState};

    ghost Value = { WindowState };

    ghost view = { λ w. record { size = w.size; at = w.at; bytes = take w.filled w.room } };

    ghost invariant = { λ w. (w.filled ≤ 4096) × (w.at + w.filled ≤ w.size) };
}

impl Window {
    /// A window on a file of this length. Nothing is read yet.
    pub(crate) fn new(size: u64) -> Window
        ensures size { result.size ≡ size }
        ensures shows { (s : List ℕ) → size ≡ length s → Shows result s }
    {
        Window {
            size,
            at: 0,
            filled: 0,
            room: [0; SPAN],
        }
    }

    /// The length of the file.
    pub(crate) fn size(&self) -> u64
        ensures { result ≡ self.now.size }
    {
        self.size
    }

    /// Reads from this place on: 4,096 bytes, or as many as there are.
    fn load<D: Disk>(&mut self, disk: &mut D, place: u64) -> Result<(), Failed>
        requires within { place < self.old.size }
        requires shows { ShowsTold (D.view disk.old).seen self.old }
        ensures at { OnOk result (self.new.at ≡ place) }
        ensures count { OnOk result (length self.new.bytes ≡ min (self.old.size - place) 4096) }
        ensures reading { IsReading D.view D.faults disk.old disk.new self.old self.new }
        ensures cause { HasCause (D.faults disk.old) (D.faults disk.new) result }
    {
        let count = (self.size - place).min(SPAN as u64) as usize;
        self.filled = 0;
        disk.read(place, &mut self.room[..count])?;
        self.at = place;
        self.filled = count;
        Ok(())
    }

    /// Whether the window has so many bytes from this place on.
    fn has(&self, place: u64, count: usize) -> bool
        ensures { IsTrue result → (self.now.at ≤ place)
            × (place + count ≤ self.now.at + length self.now.bytes) }
    {
        let filled = self.filled as u64;
        self.at <= place && place - self.at <= filled && count as u64 <= filled - (place - self.at)
    }

    /// Moves the window, unless it has so many bytes from this place on.
    #[inline(always)]
    pub(crate) fn bring<D: Disk>(
        &mut self,
        disk: &mut D,
        place: u64,
        count: usize,
    ) -> Result<(), JournalFault>
        requires within { place + count ≤ self.old.size }
        requires some { 1 ≤ count }
        requires few { count ≤ 4096 }
        requires shows { ShowsTold (D.view disk.old).seen self.old }
        ensures from { OnOk result (self.new.at ≤ place) }
        ensures to { OnOk result (place + count ≤ self.new.at + length self.new.bytes) }
        ensures reading { IsReading D.view D.faults disk.old disk.new self.old self.new }
        ensures fault { IfErr result (IsPassing (D.faults disk.old) (D.faults disk.new)) }
    {
        if self.has(place, count) {
            return Ok(());
        }
        self.load(disk, place)?;
        Ok(())
    }

    /// Bytes that the window has, from this place on.
    pub(crate) fn part(&self, place: u64, count: usize) -> &[u8]
        requires from { self.now.at ≤ place }
        requires to { place + count ≤ self.now.at + length self.now.bytes }
        ensures bytes { result.now ≡ take count (drop (place - self.now.at) self.now.bytes) }
        ensures count { length result.now ≡ count }
    {
        let start = (place - self.at) as usize;
        &self.room[start..start + count]
    }

    /// The byte at a place that the window has.
    fn byte_here(&self, place: u64) -> u8
        requires from { self.now.at ≤ place }
        requires to { place < self.now.at + length self.now.bytes }
        ensures { result ≡ slice_index self.now.bytes (place - self.now.at) }
    {
        self.room[(place - self.at) as usize]
    }

    /// The byte at a place of the file.
    pub(crate) fn byte_at<D: Disk>(&mut self, disk: &mut D, place: u64) -> Result<u8, JournalFault>
        requires within { place < self.old.size }
        requires shows { ShowsTold (D.view disk.old).seen self.old }
        ensures byte { IfOk result
            (λ b. (s : List ℕ) → (D.view disk.old).seen ≡ Some s → b ≡ slice_index s place) }
        ensures reading { IsReading D.view D.faults disk.old disk.new self.old self.new }
        ensures fault { IfErr result (IsPassing (D.faults disk.old) (D.faults disk.new)) }
    {
        self.bring(disk, place, 1)?;
        Ok(self.byte_here(place))
    }

    /// Whether this text stands at a place.
    #[tactic(auto, using(crate::proofs::ReadingLemmas::reading_on, crate::proofs::ReadingLemmas::passing_from))]
    pub(crate) fn has_text<D: Disk>(
        &mut self,
        disk: &mut D,
        place: u64,
        text: &[u8; 8],
    ) -> Result<bool, JournalFault>
        requires within { place ≤ self.old.size }
        requires shows { ShowsTold (D.view disk.old).seen self.old }
        ensures found { IfOk result (λ b. IsTrue b → place + 8 ≤ self.old.size) }
        ensures text { IfOk result (λ b. (s : List ℕ) → (D.view disk.old).seen ≡ Some s
            → (IsTrue b ↔ Starts text.now (drop place s))) }
        ensures reading { IsReading D.view D.faults disk.old disk.new self.old self.new }
        ensures fault { IfErr result (IsPassing (D.faults disk.old) (D.faults disk.new)) }
    {
        if self.size() - place < 8 {
            return Ok(false);
        }
        self.bring(disk, place, 8)?;
        Ok(self.part(place, 8) == text.as_slice())
    }
}
