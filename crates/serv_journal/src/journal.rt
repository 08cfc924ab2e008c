//! An open journal.

ghost use Rattle.std.specs.Prelude.{◌≡◌, ◌⊎◌, ◌↔◌, ℕ, ◌+◌, ◌-◌, ◌≤◌, ◌<◌, List, [], ◌∷◌, ◌++◌, length, Some, None, true, false, IfErr, OnOk, OnErr, IsOk, IsErr, IsErrOf, IfSome, MatchOption};
ghost use Rattle.serv_disk.specs.Faults.{HasRisen, HasCause};
ghost use Rattle.serv_disk.specs.Disks.{LeavesOnly};
ghost use Rattle.serv_journal.specs.Format.{Form, IsLine, version_number};
ghost use Rattle.serv_journal.specs.Disks.{IsGoodIn, IsAround, IsKept};
ghost use Rattle.serv_journal.specs.Outcomes.{Reaches};

use crate::faults::JournalFault;
use crate::format::Version;
use crate::records::begin_within;
use crate::writes::set_byte;
use serv_disk::{Disk, Failed};
use std::marker::Model;

/// A journal on a disk that is handed to each call. Its length is the place after the closed commit
/// byte that comes after its last record. That record may be begun: it stands behind a commit byte
/// that is closed, and is no part of what a crash leaves until the next call opens it.
#[derive(Drop)]
pub struct Journal {
    pub(crate) size: u64,
    pub(crate) limit: u64,
    pub(crate) count: u64,
    pub(crate) version: Version,
    pub(crate) begun: Option<u64>,
    /// A line whose record stands behind the closed commit byte on the disk already, and is no part of the journal.
    pub(crate) laid: Option<Vec<u8>>,
    pub(crate) spent: bool,
    /// How far the file is known to reach.
    pub(crate) reach: u64,
}

impl Model for Journal {
    ghost use Rattle.std.specs.Prelude.{ℕ, ◌+◌, ◌*◌, ◌^◌, ◌<◌, ◌≤◌, IfSome, option_map};
    ghost use Rattle.serv_journal.specs.States.{JournalState};
    ghost use Rattle.serv_journal.specs.Format.{head_size};

    ghost Value = { JournalState };

    ghost view = { λ j. record {
      size = j.size;
      limit = j.limit;
      count = j.count;
      version = j.version;
      begun = j.begun;
      laid = option_map (λ v. v.items) j.laid;
      spent = j.spent;
    } };

    ghost invariant = { λ j. (j.limit ≤ 2 ^ 32) × (8 + (head_size j.version + 2) * j.count < j.size)
        × IfSome j.begun (λ gate. gate < j.size) };
}

impl Journal {
    /// The length, in bytes.
    pub fn length(&self) -> u64
        ensures { result ≡ self.now.size }
    {
        self.size
    }

    /// Whether a call of the disk failed in a call of this journal. Then it is used no more.
    pub fn is_spent(&self) -> bool
        ensures { result ≡ self.now.spent }
    {
        self.spent
    }

    /// 1 or 2.
    pub fn version(&self) -> u32
        ensures { result ≡ version_number self.now.version }
    {
        match self.version {
            Version::One => 1,
            Version::Two => 2,
        }
    }

    /// How many bytes the record of a line adds, where they are within the limit.
    fn room_for(&self, line: &[u8]) -> Option<u64>
        requires { IsLine line.now }
        ensures { MatchOption result (self.now.limit < self.now.size + 7 + length line.now)
            (λ added. (added ≡ 7 + length line.now) × (self.now.size + 7 + length line.now ≤ self.now.limit)) }
    {
        let added = 7 + line.len() as u64;
        if self.limit < added || self.limit - added < self.size {
            return None;
        }
        Some(added)
    }

    /// Whether this line's record stands behind the journal already.
    fn has_laid(&self, line: &[u8]) -> bool
        ensures { result ≡ true → self.now.laid ≡ Some line.now }
    {
        match &self.laid {
            Some(laid) => laid.as_slice() == line,
            None => false,
        }
    }

    /// Takes the record that stands behind the journal, of so many bytes, into it as the one that is begun.
    fn count_in(&mut self, added: u64)
        requires some { 8 ≤ added }
        requires within { self.old.size + added ≤ self.old.limit }
        ensures { self.new ≡ record {
          size = self.old.size + added;
          limit = self.old.limit;
          count = self.old.count + 1;
          version = self.old.version;
          begun = Some (self.old.size - 1);
          laid = None;
          spent = self.old.spent;
        } }
    {
        self.begun = Some(self.size - 1);
        self.size += added;
        self.count += 1;
        self.laid = None;
    }

    /// Adds a line to a journal of version 2. It takes no memory. After Ok each crash leaves the line.
    pub fn append<D: Disk>(&mut self, disk: &mut D, line: &[u8]) -> Result<(), JournalFault>
        requires line { IsLine line.now }
        requires version { self.old.version ≡ Version.Two }
        requires unspent { self.old.spent ≡ false }
        requires reaches { Reaches (D.view disk.old).seen self.old.size }
        // A crash at any moment leaves the lines, with this one or without, or torn with it.
        ensures moments { (form : Form) (lines : List (List ℕ))
            → IsKept form (D.view disk.old).images self.old lines []
            → LeavesOnly D.view disk.old disk.new (IsGoodIn form lines line.now) }
        ensures added { (form : Form) (lines : List (List ℕ))
            → IsKept form (D.view disk.old).images self.old lines []
            → OnOk result (IsKept form (D.view disk.new).images self.new (lines ++ line.now ∷ []) []) }
        // `Full` comes exactly where the length would pass the limit, and then nothing is written.
        ensures full { IsErrOf result (JournalFault.Full self.old.size) ↔
            (self.old.limit < self.old.size + 7 + length line.now) }
        ensures kept { self.old.limit < self.old.size + 7 + length line.now
            → (self.new ≡ self.old) × (disk.new ≡ disk.old) }
        ensures fault { IfErr result (λ fault. (fault ≡ JournalFault.Full self.old.size)
            ⊎ ((fault ≡ JournalFault.DiskFault) × HasRisen (D.faults disk.old) (D.faults disk.new))) }
        // The journal is spent exactly after `DiskFault`.
        ensures spent { IsErrOf result JournalFault.DiskFault ↔ (self.new.spent ≡ true) }
        ensures faults { D.faults disk.old ≤ D.faults disk.new }
        ensures size { OnErr result (self.new.size ≡ self.old.size) }
        ensures limit { self.new.limit ≡ self.old.limit }
        ensures same_version { self.new.version ≡ self.old.version }
    {
        if self.room_for(line).is_none() {
            return Err(JournalFault::Full(self.size));
        }
        let (size, count, begun) = (self.size, self.count, self.begun);
        self.laid = None;
        self.begin(disk, line)?;
        if self.commit(disk, None).is_err() {
            self.size = size;
            self.count = count;
            self.begun = begun;
            return Err(JournalFault::DiskFault);
        }
        Ok(())
    }

    /// Adds a line to a journal of version 2 whose commit byte stays closed until the next call of `begin` or `commit`;
    /// that of the line that is begun already is set with the same sync. It takes no memory.
    pub fn begin<D: Disk>(&mut self, disk: &mut D, line: &[u8]) -> Result<(), JournalFault>
        requires line { IsLine line.now }
        requires version { self.old.version ≡ Version.Two }
        requires unspent { self.old.spent ≡ false }
        requires reaches { Reaches (D.view disk.old).seen self.old.size }
        // After Ok each crash leaves the lines and the one that was begun before.
        ensures begun { (form : Form) (lines begun : List (List ℕ))
            → IsKept form (D.view disk.old).images self.old lines begun
            → OnOk result (IsKept form (D.view disk.new).images self.new (lines ++ begun) (line.now ∷ [])) }
        // A crash at any moment leaves the lines, with the one that was begun before or without, or torn with it.
        ensures moments { (form : Form) (lines begun : List (List ℕ))
            → IsKept form (D.view disk.old).images self.old lines begun
            → LeavesOnly D.view disk.old disk.new (IsAround form lines begun) }
        // `Full` comes exactly where the length would pass the limit, and then nothing is written.
        ensures full { IsErrOf result (JournalFault.Full self.old.size) ↔
            (self.old.limit < self.old.size + 7 + length line.now) }
        ensures kept { self.old.limit < self.old.size + 7 + length line.now
            → (self.new ≡ self.old) × (disk.new ≡ disk.old) }
        ensures fault { IfErr result (λ fault. (fault ≡ JournalFault.Full self.old.size)
            ⊎ ((fault ≡ JournalFault.DiskFault) × HasRisen (D.faults disk.old) (D.faults disk.new))) }
        // The journal is spent exactly after `DiskFault`.
        ensures spent { IsErrOf result JournalFault.DiskFault ↔ (self.new.spent ≡ true) }
        ensures faults { D.faults disk.old ≤ D.faults disk.new }
        ensures size { OnErr result (self.new.size ≡ self.old.size) }
        ensures count { OnErr result (self.new.count ≡ self.old.count) }
        ensures same_begun { OnErr result (self.new.begun ≡ self.old.begun) }
        ensures limit { self.new.limit ≡ self.old.limit }
        ensures same_version { self.new.version ≡ self.old.version }
        ensures reach { self.old.laid ≡ None → OnOk result (Reaches (D.view disk.new).seen self.new.size) }
        ensures none_laid { OnOk result (self.new.laid ≡ None) }
    {
        let Some(added) = self.room_for(line) else {
            return Err(JournalFault::Full(self.size));
        };
        if self.has_laid(line) {
            self.count_in(added);
            return Ok(());
        }
        match begin_within(
            disk,
            self.reach,
            self.begun,
            self.size,
            (self.count + 1) as u32,
            line,
        ) {
            Ok(reach) => {
                self.reach = reach;
                self.count_in(added);
                Ok(())
            }
            Err(_) => {
                self.spent = true;
                Err(JournalFault::DiskFault)
            }
        }
    }

    /// Sets the commit byte of the line that is begun, if one is. After Ok each crash leaves that line too. Where the line that
    /// is to be begun next is given and there is room for it, its record goes to the disk with the same sync. It is no part of
    /// the journal yet: `begin` of that line takes it in with no call of the disk, and any other call forgets it.
    pub fn commit<D: Disk>(&mut self, disk: &mut D, next: Option<Vec<u8>>) -> Result<(), Failed>
        requires next { IfSome next (λ line. IsLine line.items × (self.old.version ≡ Version.Two)) }
        requires unspent { self.old.spent ≡ false }
        requires reaches { Reaches (D.view disk.old).seen self.old.size }
        ensures committed { (form : Form) (lines begun : List (List ℕ))
            → IsKept form (D.view disk.old).images self.old lines begun
            → OnOk result (IsKept form (D.view disk.new).images self.new (lines ++ begun) []) }
        // A crash at any moment leaves the lines, with the one that is begun or without, or torn with it.
        ensures moments { (form : Form) (lines begun : List (List ℕ))
            → IsKept form (D.view disk.old).images self.old lines begun
            → LeavesOnly D.view disk.old disk.new (IsAround form lines begun) }
        // Where none is begun nothing is called.
        ensures idle { self.old.begun ≡ None → IsOk result × (self.new ≡ self.old) × (disk.new ≡ disk.old) }
        ensures cause { HasCause (D.faults disk.old) (D.faults disk.new) result }
        // The journal is spent exactly after a failure.
        ensures spent { IsErr result ↔ (self.new.spent ≡ true) }
        ensures size { self.new.size ≡ self.old.size }
        ensures count { self.new.count ≡ self.old.count }
        ensures none { OnOk result (self.new.begun ≡ None) }
        ensures same_begun { OnErr result (self.new.begun ≡ self.old.begun) }
        ensures limit { self.new.limit ≡ self.old.limit }
        ensures same_version { self.new.version ≡ self.old.version }
    {
        let Some(gate) = self.begun else {
            return Ok(());
        };
        if let Some(line) = next {
            if self.room_for(&line).is_some() {
                return self.lay(disk, line);
            }
        }
        match set_byte(disk, gate, 1) {
            Ok(()) => {
                self.begun = None;
                self.laid = None;
                Ok(())
            }
            Err(failed) => {
                self.spent = true;
                Err(failed)
            }
        }
    }

    /// Begins a line, and takes it out of the journal again: its record stays where it is.
    fn lay<D: Disk>(&mut self, disk: &mut D, line: Vec<u8>) -> Result<(), Failed>
        requires line { IsLine line.items }
        requires version { self.old.version ≡ Version.Two }
        requires room { self.old.size + 7 + length line.items ≤ self.old.limit }
        requires unspent { self.old.spent ≡ false }
        requires reaches { Reaches (D.view disk.old).seen self.old.size }
        ensures committed { (form : Form) (lines begun : List (List ℕ))
            → IsKept form (D.view disk.old).images self.old lines begun
            → OnOk result (IsKept form (D.view disk.new).images self.new (lines ++ begun) []) }
        ensures moments { (form : Form) (lines begun : List (List ℕ))
            → IsKept form (D.view disk.old).images self.old lines begun
            → LeavesOnly D.view disk.old disk.new (IsAround form lines begun) }
        ensures cause { HasCause (D.faults disk.old) (D.faults disk.new) result }
        ensures spent { IsErr result ↔ (self.new.spent ≡ true) }
        ensures size { self.new.size ≡ self.old.size }
        ensures count { self.new.count ≡ self.old.count }
        ensures none { OnOk result (self.new.begun ≡ None) }
        ensures same_begun { OnErr result (self.new.begun ≡ self.old.begun) }
        ensures limit { self.new.limit ≡ self.old.limit }
        ensures same_version { self.new.version ≡ self.old.version }
    {
        let (size, count) = (self.size, self.count);
        match self.begin(disk, &line) {
            Ok(()) => {
                self.size = size;
                self.count = count;
                self.begun = None;
                self.laid = Some(line);
                Ok(())
            }
            Err(_) => Err(Failed),
        }
    }

    /// Whether a line is begun.
    pub fn is_begun(&self) -> bool
        ensures { (result ≡ false) ↔ (self.now.begun ≡ None) }
    {
        self.begun.is_some()
    }
}
