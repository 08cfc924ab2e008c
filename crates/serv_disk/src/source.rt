//! Where input comes from.

ghost use Rattle.std.specs.Prelude.{◌≡◌, ℕ, ◌<◌, ◌≤◌, ◌↔◌, ◌++◌, List, [], None, Some, Ok, IsOk, IsErr, is_ok, if◌then◌else◌, IfOk, OnErr, OnOk, length, take, drop, min, Contains, Option};
ghost use Rattle.std.specs.Io.KnownBytes.{Consumes, IsAtEnd};
ghost use Rattle.serv_disk.specs.Faults.{HasCause};
ghost use Rattle.serv_disk.specs.Sides.{Writing, no_writing};

use crate::failed::{Failed, is_among};
use std::alloc::Global;
use std::io::{self, Read};
use std::marker::Model;

/// Bytes that are read in order.
pub trait Source {
    /// The bytes that are left, where the object tells them.
    ghost left: { Self → Option (List ℕ) };

    /// How many of its calls have failed.
    ghost faults: { Self → ℕ };

    /// The other side of a link, which a read leaves as it was.
    ghost beside: { Self → Writing };

    /// Reads up to as many bytes as there is room for, to the front of `buf`. 0 says that nothing is
    /// left, where there is room.
    fn read(&mut self, buf: &mut [u8]) -> Result<usize, Failed>
        ensures bound { IfOk result (λ n. n ≤ length buf.old) }
        ensures taken { IfOk result (λ n. Consumes (left self.old) (left self.new) (take n buf.new)) }
        ensures end { IfOk result (λ n. n ≡ 0 → 0 < length buf.old → IsAtEnd (left self.new)) }
        ensures kept { OnErr result (left self.new ≡ left self.old) }
        ensures beside { beside self.new ≡ beside self.old }
        ensures cause { HasCause (faults self.old) (faults self.new) result };
}

/// Bytes in memory that never fail to be read.
#[derive(Drop)]
pub struct CalmSource {
    bytes: Vec<u8>,
    at: usize,
}

impl Model for CalmSource {
    ghost Value = { List ℕ };

    ghost view = { λ s. drop s.at s.bytes.items };

    ghost invariant = { λ s. s.at ≤ length s.bytes.items };
}

impl CalmSource {
    /// A source of these bytes.
    pub fn new(rest: Vec<u8>) -> CalmSource
        ensures rest { result ≡ rest.items }
    {
        CalmSource { bytes: rest, at: 0 }
    }

    /// Moves as many bytes as there are and as there is room for.
    fn give(&mut self, buf: &mut [u8]) -> usize
        ensures count { result ≡ min (length buf.old) (length self.old) }
        ensures given { self.old ≡ take result buf.new ++ self.new }
    {
        let n = buf.len().min(self.bytes.len() - self.at);
        buf[..n].copy_from_slice(&self.bytes[self.at..self.at + n]);
        self.at += n;
        n
    }
}

impl Source for CalmSource {
    ghost left = { λ s. Some s };

    ghost faults = { λ _. 0 };

    ghost beside = { λ _. no_writing };

    fn read(&mut self, buf: &mut [u8]) -> Result<usize, Failed> {
        Ok(self.give(buf))
    }
}

/// Bytes in memory, and a list of the calls, counted from 1, that fail.
#[derive(Drop)]
pub struct MemSource {
    bytes: CalmSource,
    fails: Vec<u32>,
    calls: u64,
    faults: u64,
}

impl Model for MemSource {
    ghost use Rattle.serv_disk.specs.Objects.{SourceState};

    ghost Value = { SourceState };

    ghost view = { λ s. record { rest = s.bytes; fails = s.fails.items; calls = s.calls; faults = s.faults } };
}

impl MemSource {
    /// A source of these bytes whose calls with these numbers fail.
    pub fn new(rest: Vec<u8>, fails: Vec<u32>) -> MemSource
        ensures rest { result.rest ≡ rest.items }
        ensures fails { result.fails ≡ fails.items }
        ensures calls { result.calls ≡ 0 }
        ensures faults { result.faults ≡ 0 }
    {
        MemSource {
            bytes: CalmSource::new(rest),
            fails,
            calls: 0,
            faults: 0,
        }
    }
}

impl Source for MemSource {
    ghost use Rattle.serv_disk.specs.Objects.{raised};
    ghost use Rattle.serv_disk.specs.Sides.{no_writing};

    ghost left = { λ s. Some s.rest };

    ghost faults = { λ s. s.faults };

    ghost beside = { λ _. no_writing };

    fn read(&mut self, buf: &mut [u8]) -> Result<usize, Failed>
        ensures bound { IfOk result (λ n. n ≤ length buf.old) }
        ensures taken { IfOk result (λ n. Consumes (Some self.old.rest) (Some self.new.rest) (take n buf.new)) }
        ensures end { IfOk result (λ n. n ≡ 0 → 0 < length buf.old → IsAtEnd (Some self.new.rest)) }
        ensures kept { OnErr result (self.new.rest ≡ self.old.rest) }
        ensures beside { no_writing ≡ no_writing }
        ensures cause { HasCause self.old.faults self.new.faults result }

        // A call fails exactly where its number is in the list, and reads as much as it can.
        ensures number { self.new.calls ≡ raised self.old.calls }
        ensures fails { IsErr result ↔ Contains self.old.fails self.new.calls }
        ensures list { self.new.fails ≡ self.old.fails }
        ensures count { IfOk result (λ n. n ≡ min (length buf.old) (length self.old.rest)) }
        ensures faults { self.new.faults ≡ (if is_ok result then self.old.faults else raised self.old.faults) }
    {
        self.calls = self.calls.saturating_add(1);
        if is_among(&self.fails, self.calls) {
            self.faults = self.faults.saturating_add(1);
            return Err(Failed);
        }
        Ok(self.bytes.give(buf))
    }
}

/// A reader of the standard library. It tells nothing of what is left.
#[derive(Drop)]
pub struct ReadSource<R: Read + Drop> {
    reader: R,
    faults: u64,
    cause: Option<io::Error>,
}

impl<R: Read + Drop> ReadSource<R> {
    /// A source that reads from this reader.
    pub fn new(reader: R) -> ReadSource<R>
        ensures faults { ⟦<ReadSource<R> as Source>⟧.faults result ≡ 0 }
    {
        ReadSource {
            reader,
            faults: 0,
            cause: None,
        }
    }

    /// What the system named as the cause of the last call that failed.
    pub fn cause(&self) -> Option<io::Error> {
        self.cause
    }
}

impl<R: Read + Drop> Source for ReadSource<R> {
    ghost left = { λ _. None };

    ghost faults = { λ s. s.faults };

    ghost beside = { λ _. no_writing };

    fn read(&mut self, buf: &mut [u8]) -> Result<usize, Failed> {
        match self.reader.read(buf) {
            Ok(n) => Ok(n),
            Err(error) => {
                self.faults = self.faults.saturating_add(1);
                self.cause = Some(error);
                Err(Failed)
            }
        }
    }
}

/// Reads up to `most` bytes to the front of `room`; 0 says that nothing is left.
pub fn read_some<S: Source>(src: &mut S, room: &mut [u8], most: usize) -> Result<usize, Failed>
    requires some { 0 < most }
    requires within { most ≤ length room.old }
    ensures bound { IfOk result (λ n. n ≤ most) }
    ensures count { IfOk result (λ n. length (take n room.new) ≡ n) }
    ensures taken { IfOk result (λ n. Consumes (S.left src.old) (S.left src.new) (take n room.new)) }
    ensures end { IfOk result (λ n. n ≡ 0 → IsAtEnd (S.left src.new)) }
    ensures cause { HasCause (S.faults src.old) (S.faults src.new) result }
    ensures kept { OnErr result (S.left src.new ≡ S.left src.old) }
    ensures beside { S.beside src.new ≡ S.beside src.old }
{
    src.read(&mut room[..most])
}
