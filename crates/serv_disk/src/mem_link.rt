//! Connections in memory.

ghost use Rattle.std.specs.Prelude.{◌≡◌, ℕ, ◌+◌, ◌-◌, ◌<◌, ◌≤◌, ◌↔◌, ◌++◌, List, [], None, Some, Ok, IsOk, IsErr, is_ok, if◌then◌else◌, IfOk, OnErr, OnOk, length, take, drop, min, Contains, Option, vec_len, vec_capacity};
ghost use Rattle.std.specs.Io.KnownBytes.{Appends, Consumes, IsAtEnd};
ghost use Rattle.serv_disk.specs.Faults.{HasCause};
ghost use Rattle.serv_disk.specs.Sides.{Reading, Writing};

use crate::disk::Disk;
use crate::failed::Failed;
use crate::link::Link;
use crate::sink::{MemSink, Sink};
use crate::source::{CalmSource, MemSource, Source};
use std::alloc::Global;
use std::marker::Model;
use svc_base::OutOfMemory;

/// A link in memory: bytes to be read, the bytes that were written, and for each side a list of its
/// calls, counted from 1, that fail. A write fails too where memory refuses the growth.
#[derive(Drop)]
pub struct MemLink {
    reading: MemSource,
    writing: MemSink,
}

impl Model for MemLink {
    ghost use Rattle.serv_disk.specs.Objects.{LinkState};

    ghost Value = { LinkState };

    ghost view = { λ x. record { reading = x.reading; writing = x.writing } };
}

impl MemLink {
    /// A link with these bytes to be read, to which nothing was written yet.
    pub fn new(alloc: Global, rest: Vec<u8>, read_fails: Vec<u32>, write_fails: Vec<u32>) -> MemLink
        ensures reading { result.reading ≡ record { rest = rest.items; fails = read_fails.items; calls = 0; faults = 0 } }
        ensures content { result.writing.content ≡ [] }
        ensures write_fails { result.writing.fails ≡ write_fails.items }
        ensures writes { (result.writing.calls ≡ 0) × (result.writing.faults ≡ 0) }
    {
        MemLink {
            reading: MemSource::new(rest, read_fails),
            writing: MemSink::new(Vec::new(alloc), write_fails),
        }
    }

    /// Makes room for that many writes with that many bytes in all. A write takes no memory of its own.
    pub fn reserve(&mut self, calls: u32, bytes: u32) -> Result<(), OutOfMemory>
        ensures room { OnOk result (bytes ≤ self.new.writing.room) }
        ensures no_less { self.old.writing.room ≤ self.new.writing.room }
        ensures kept { self.new ≡ record self.old { writing = record self.old.writing { room = self.new.writing.room } } }
    {
        self.writing.reserve(calls, bytes)
    }

    /// The bytes that were written.
    pub fn content(&self) -> &[u8]
        ensures { result.now ≡ self.now.writing.content }
    {
        self.writing.content()
    }
}

impl Source for MemLink {
    ghost use Rattle.serv_disk.specs.Objects.{raised, writing_side};

    ghost left = { λ x. Some x.reading.rest };

    ghost faults = { λ x. x.reading.faults };

    ghost beside = { λ x. writing_side x };

    fn read(&mut self, buf: &mut [u8]) -> Result<usize, Failed>
        ensures bound { IfOk result (λ n. n ≤ length buf.old) }
        ensures taken { IfOk result (λ n. Consumes (Some self.old.reading.rest) (Some self.new.reading.rest) (take n buf.new)) }
        ensures end { IfOk result (λ n. n ≡ 0 → 0 < length buf.old → IsAtEnd (Some self.new.reading.rest)) }
        ensures kept { OnErr result (Some self.new.reading.rest ≡ Some self.old.reading.rest) }
        ensures beside { writing_side self.new ≡ writing_side self.old }
        ensures cause { HasCause self.old.reading.faults self.new.reading.faults result }

        // A read fails exactly where its number is in the list, and reads as much as it can.
        ensures number { self.new.reading.calls ≡ raised self.old.reading.calls }
        ensures fails { IsErr result ↔ Contains self.old.reading.fails self.new.reading.calls }
        ensures list { self.new.reading.fails ≡ self.old.reading.fails }
        ensures count { IfOk result (λ n. n ≡ min (length buf.old) (length self.old.reading.rest)) }
        ensures faults { self.new.reading.faults ≡ (if is_ok result then self.old.reading.faults else raised self.old.reading.faults) }
        ensures writing { self.new.writing ≡ self.old.writing }
    {
        self.reading.read(buf)
    }
}

impl Sink for MemLink {
    ghost use Rattle.serv_disk.specs.Objects.{raised, reading_side};

    ghost held = { λ x. Some x.writing.content };

    ghost faults = { λ x. x.writing.faults };

    ghost beside = { λ x. reading_side x };

    ghost log = { λ _. None };

    ghost mark = { λ _. 0 };

    fn show<D: Disk>(&mut self, _: &D)
        ensures same { self.new ≡ self.old }
    {}

    fn write(&mut self, piece: &[u8]) -> Result<usize, Failed>
        ensures bound { IfOk result (λ n. n ≤ length piece.now) }
        ensures some { IfOk result (λ n. 0 < length piece.now → 0 < n) }
        ensures appended { IfOk result (λ n. Appends (Some self.old.writing.content) (Some self.new.writing.content) (take n piece.now)) }
        ensures kept { OnErr result (Some self.new.writing.content ≡ Some self.old.writing.content) }
        ensures beside { reading_side self.new ≡ reading_side self.old }
        ensures cause { HasCause self.old.writing.faults self.new.writing.faults result }

        // It takes each piece whole. With room for the piece a write fails exactly where its number is
        // in the list.
        ensures number { self.new.writing.calls ≡ raised self.old.writing.calls }
        ensures listed { Contains self.old.writing.fails self.new.writing.calls → IsErr result }
        ensures with_room { length piece.now ≤ self.old.writing.room → IsErr result → Contains self.old.writing.fails self.new.writing.calls }
        ensures room_left { self.old.writing.room ≤ self.new.writing.room + length piece.now }
        ensures list { self.new.writing.fails ≡ self.old.writing.fails }
        ensures whole { IfOk result (λ n. n ≡ length piece.now) }
        ensures faults { self.new.writing.faults ≡ (if is_ok result then self.old.writing.faults else raised self.old.writing.faults) }
        ensures reading { self.new.reading ≡ self.old.reading }
    {
        self.writing.write(piece)
    }
}

impl Link for MemLink {
    ghost use Rattle.std.specs.Prelude.{refl};

    ghost writing = { λ x. refl };

    ghost reading = { λ x. refl };
}

/// A link in memory that never fails, takes each piece whole and keeps nothing of what is written.
#[derive(Drop)]
pub struct CalmLink {
    bytes: CalmSource,
}

impl Model for CalmLink {
    ghost use Rattle.std.specs.Prelude.{ℕ, List};

    ghost Value = { List ℕ };

    ghost view = { λ x. x.bytes };
}

impl CalmLink {
    /// A link with these bytes to be read.
    pub fn new(rest: Vec<u8>) -> CalmLink
        ensures { result ≡ rest.items }
    {
        CalmLink {
            bytes: CalmSource::new(rest),
        }
    }
}

impl Source for CalmLink {
    ghost left = { λ x. Some x };

    ghost faults = { λ _. 0 };

    ghost beside = { λ _. record { held = None; faults = 0; log = None; mark = 0 } };

    fn read(&mut self, buf: &mut [u8]) -> Result<usize, Failed> {
        self.bytes.read(buf)
    }
}

impl Sink for CalmLink {
    ghost held = { λ _. None };

    ghost faults = { λ _. 0 };

    ghost beside = { λ x. record { left = Some x; faults = 0 } };

    ghost log = { λ _. None };

    ghost mark = { λ _. 0 };

    fn show<D: Disk>(&mut self, _: &D) {}

    fn write(&mut self, piece: &[u8]) -> Result<usize, Failed> {
        Ok(piece.len())
    }
}

impl Link for CalmLink {
    ghost use Rattle.std.specs.Prelude.{refl};

    ghost writing = { λ x. refl };

    ghost reading = { λ x. refl };
}
