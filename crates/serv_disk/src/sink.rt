//! Where output goes.

ghost use Rattle.std.specs.Prelude.{◌≡◌, ℕ, ◌+◌, ◌-◌, ◌<◌, ◌≤◌, ◌↔◌, ◌++◌, List, [], ◌∷◌, None, Some, IsOk, IsErr, is_ok, if◌then◌else◌, IfOk, OnErr, OnOk, length, take, Contains, Option, vec_len, vec_capacity};
ghost use Rattle.std.specs.Io.KnownBytes.{Appends};
ghost use Rattle.serv_disk.specs.Faults.{HasCause, AppendsPart};
ghost use Rattle.serv_disk.specs.Sides.{Reading, no_reading};
ghost use Rattle.serv_disk.specs.Stamps.{Adds, Notes, Stamp, stamp};

use crate::disk::Disk;
use crate::failed::{Failed, is_among};
use std::io::{self, ErrorKind, Write};
use std::marker::Model;
use svc_base::OutOfMemory;

/// What bytes are written to, in order.
pub trait Sink {
    /// The bytes that it holds, where the object tells them.
    ghost held: { Self → Option (List ℕ) };

    /// How many of its calls have failed.
    ghost faults: { Self → ℕ };

    /// The other side of a link, which a write leaves as it was.
    ghost beside: { Self → Reading };

    /// Its writes beside a disk, in order, where the object notes them.
    ghost log: { Self → Option (List Stamp) };

    /// The moment of the disk from which its next write counts.
    ghost mark: { Self → ℕ };

    /// Sees the disk as it is now: what is written from here on counts from this moment. Writes nothing.
    fn show<D: Disk>(&mut self, disk: &D)
        ensures marked { (stamps : List Stamp) → log self.old ≡ Some stamps
            → mark self.new ≡ (D.view disk.now).moment }
        ensures log { log self.new ≡ log self.old }
        ensures held { held self.new ≡ held self.old }
        ensures beside { beside self.new ≡ beside self.old }
        ensures faults { faults self.new ≡ faults self.old };

    /// Takes a front part of the piece, of at least one byte where there is one, and says how long
    /// the part is.
    fn write(&mut self, piece: &[u8]) -> Result<usize, Failed>
        ensures bound { IfOk result (λ n. n ≤ length piece.now) }
        ensures some { IfOk result (λ n. 0 < length piece.now → 0 < n) }
        ensures appended { IfOk result (λ n. Appends (held self.old) (held self.new) (take n piece.now)) }
        ensures kept { OnErr result (held self.new ≡ held self.old) }
        ensures beside { beside self.new ≡ beside self.old }
        ensures noted { IfOk result (λ n. (s : List ℕ) → held self.old ≡ Some s
            → Adds (log self.old) (log self.new) (stamp (mark self.old) (length s + n) ∷ [])) }
        ensures unnoted { OnErr result (log self.new ≡ log self.old) }
        ensures marked { mark self.new ≡ mark self.old }
        ensures cause { HasCause (faults self.old) (faults self.new) result };
}

/// Bytes in memory, and a list of the calls, counted from 1, that fail. A call fails too where
/// memory refuses the growth.
#[derive(Drop)]
pub struct MemSink {
    content: Vec<u8>,
    fails: Vec<u32>,
    calls: u64,
    faults: u64,
}

impl Model for MemSink {
    ghost use Rattle.std.specs.Prelude.{◌-◌, vec_len, vec_capacity};
    ghost use Rattle.serv_disk.specs.Objects.{SinkState};

    ghost Value = { SinkState };

    ghost view = { λ s. record {
      content = s.content.items;
      room = vec_capacity s.content - vec_len s.content;
      fails = s.fails.items;
      calls = s.calls;
      faults = s.faults;
    } };
}

impl MemSink {
    /// A sink that holds these bytes and whose calls with these numbers fail.
    pub fn new(content: Vec<u8>, fails: Vec<u32>) -> MemSink
        ensures content { result.content ≡ content.items }
        ensures fails { result.fails ≡ fails.items }
        ensures calls { result.calls ≡ 0 }
        ensures faults { result.faults ≡ 0 }
    {
        MemSink {
            content,
            fails,
            calls: 0,
            faults: 0,
        }
    }

    /// Makes room for that many calls with that many bytes in all. A call takes no memory of its own.
    pub fn reserve(&mut self, _calls: u32, bytes: u32) -> Result<(), OutOfMemory>
        ensures room { OnOk result (bytes ≤ self.new.room) }
        ensures no_less { self.old.room ≤ self.new.room }
        ensures kept { self.new ≡ record self.old { room = self.new.room } }
    {
        self.content.reserve(bytes as usize)?;
        Ok(())
    }

    /// The bytes that it holds.
    pub fn content(&self) -> &[u8]
        ensures content { result.now ≡ self.now.content }
    {
        &self.content
    }
}

impl Sink for MemSink {
    ghost use Rattle.serv_disk.specs.Objects.{raised};
    ghost use Rattle.serv_disk.specs.Sides.{no_reading};

    ghost held = { λ s. Some s.content };

    ghost faults = { λ s. s.faults };

    ghost beside = { λ _. no_reading };

    ghost log = { λ _. None };

    ghost mark = { λ _. 0 };

    fn show<D: Disk>(&mut self, _: &D)
        ensures same { self.new ≡ self.old }
    {}

    fn write(&mut self, piece: &[u8]) -> Result<usize, Failed>
        ensures bound { IfOk result (λ n. n ≤ length piece.now) }
        ensures some { IfOk result (λ n. 0 < length piece.now → 0 < n) }
        ensures appended { IfOk result (λ n. Appends (Some self.old.content) (Some self.new.content) (take n piece.now)) }
        ensures kept { OnErr result (Some self.new.content ≡ Some self.old.content) }
        ensures beside { no_reading ≡ no_reading }
        ensures cause { HasCause self.old.faults self.new.faults result }

        // It takes each piece whole. With room for the piece a call fails exactly where its number is
        // in the list.
        ensures number { self.new.calls ≡ raised self.old.calls }
        ensures listed { Contains self.old.fails self.new.calls → IsErr result }
        ensures with_room { length piece.now ≤ self.old.room → IsErr result → Contains self.old.fails self.new.calls }
        ensures room_left { self.old.room ≤ self.new.room + length piece.now }
        ensures list { self.new.fails ≡ self.old.fails }
        ensures whole { IfOk result (λ n. n ≡ length piece.now) }
        ensures faults { self.new.faults ≡ (if is_ok result then self.old.faults else raised self.old.faults) }
    {
        self.calls = self.calls.saturating_add(1);
        if is_among(&self.fails, self.calls) {
            self.faults = self.faults.saturating_add(1);
            return Err(Failed);
        }
        if self.content.extend_from_slice(piece).is_err() {
            self.faults = self.faults.saturating_add(1);
            return Err(Failed);
        }
        Ok(piece.len())
    }
}

/// A sink that takes each piece whole, never fails and keeps nothing.
#[derive(Drop)]
pub struct CalmSink;

impl CalmSink {
    /// The sink.
    pub fn new() -> CalmSink {
        CalmSink
    }
}

impl Default for CalmSink {
    fn default() -> CalmSink {
        CalmSink::new()
    }
}

impl Sink for CalmSink {
    ghost held = { λ _. None };

    ghost faults = { λ _. 0 };

    ghost beside = { λ _. no_reading };

    ghost log = { λ _. None };

    ghost mark = { λ _. 0 };

    fn show<D: Disk>(&mut self, _: &D) {}

    fn write(&mut self, piece: &[u8]) -> Result<usize, Failed> {
        Ok(piece.len())
    }
}

/// A writer of the standard library. It tells nothing of what it holds.
#[derive(Drop)]
pub struct WriteSink<W: Write + Drop> {
    writer: W,
    faults: u64,
    cause: Option<io::Error>,
}

impl<W: Write + Drop> WriteSink<W> {
    /// A sink that writes to this writer.
    pub fn new(writer: W) -> WriteSink<W>
        ensures faults { ⟦<WriteSink<W> as Sink>⟧.faults result ≡ 0 }
    {
        WriteSink {
            writer,
            faults: 0,
            cause: None,
        }
    }

    /// What the system named as the cause of the last call that failed.
    pub fn cause(&self) -> Option<io::Error> {
        self.cause
    }
}

impl<W: Write + Drop> Sink for WriteSink<W> {
    ghost held = { λ _. None };

    ghost faults = { λ s. s.faults };

    ghost beside = { λ _. no_reading };

    ghost log = { λ _. None };

    ghost mark = { λ _. 0 };

    fn show<D: Disk>(&mut self, _: &D) {}

    fn write(&mut self, piece: &[u8]) -> Result<usize, Failed> {
        let cause = match self.writer.write(piece) {
            Ok(n) if n > 0 || piece.is_empty() => return Ok(n),
            Ok(_) => io::Error::from(ErrorKind::WriteZero),
            Err(error) => error,
        };
        self.faults = self.faults.saturating_add(1);
        self.cause = Some(cause);
        Err(Failed)
    }
}

/// Writes a text to its end. Where a write fails, a part of the text that does not reach its end is
/// written.
#[tactic(auto, using(crate::proofs::Pieces::nothing_written, crate::proofs::Pieces::written_more, crate::proofs::Pieces::written_all, crate::proofs::Pieces::written_part))]
pub fn write_whole<K: Sink>(snk: &mut K, text: &[u8]) -> Result<(), Failed>
    ensures whole { OnOk result (Appends (K.held snk.old) (K.held snk.new) text.now) }
    ensures part { OnErr result (AppendsPart (K.held snk.old) (K.held snk.new) text.now) }
    ensures cause { HasCause (K.faults snk.old) (K.faults snk.new) result }
    ensures beside { K.beside snk.new ≡ K.beside snk.old }
    ensures noted { (s : List ℕ) → K.held snk.old ≡ Some s
        → Notes (K.mark snk.old) (length s + length text.now) (K.log snk.old) (K.log snk.new) }
{
    let mut at = 0;
    while at < text.len() {
        at += snk.write(&text[at..])?;
    }
    Ok(())
}

/// Shows a sink the disk as it is, and writes a text to its end. Where a write fails, a part of the text that does not
/// reach its end is written.
pub fn write_beside<D: Disk, K: Sink>(snk: &mut K, disk: &D, text: &[u8]) -> Result<(), Failed>
    ensures whole { OnOk result (Appends (K.held snk.old) (K.held snk.new) text.now) }
    ensures part { OnErr result (AppendsPart (K.held snk.old) (K.held snk.new) text.now) }
    ensures cause { HasCause (K.faults snk.old) (K.faults snk.new) result }
    ensures beside { K.beside snk.new ≡ K.beside snk.old }
    ensures noted { (s : List ℕ) → K.held snk.old ≡ Some s
        → Notes (D.view disk.now).moment (length s + length text.now) (K.log snk.old) (K.log snk.new) }
{
    snk.show(disk);
    write_whole(snk, text)
}
