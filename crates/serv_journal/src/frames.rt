//! The records that opening a journal finds.

ghost use Rattle.std.specs.Prelude.{◌≡◌, ◌<◌, [], ◌∷◌, ◌++◌, length, slice_index, slice_index_or, OnOk, OnErr, ◌==◌};
ghost use Rattle.serv_journal.specs.Reading.{lines_in, places_in};

use std::alloc::{AllocError, Global};
use std::marker::Model;

/// The place of a record's commit byte, and where its line stands among the bytes of all lines.
#[derive(Clone, Copy)]
struct Frame {
    place: u64,
    start: usize,
    end: usize,
}

/// Lines with the places of their records in the file, in their order. The bytes of all lines lie one after
/// another.
#[derive(Drop)]
pub struct Frames {
    list: Vec<Frame>,
    bytes: Vec<u8>,
}

impl Model for Frames {
    ghost use Rattle.std.specs.Prelude.{ℕ, List};
    ghost use Rattle.serv_journal.specs.Frames.{frames_of, AreWithin};

    ghost Value = { List (ℕ × List ℕ) };

    ghost view = { λ f. frames_of f.bytes.items f.list.items };

    ghost invariant = { λ f. AreWithin f.bytes.items f.list.items };
}

impl Frames {
    /// None.
    pub(crate) fn new(alloc: Global) -> Frames
        ensures { result ≡ [] }
    {
        Frames {
            list: Vec::new(alloc),
            bytes: Vec::new(alloc),
        }
    }

    /// Adds a record.
    #[tactic(auto, using(crate::proofs::FrameLemmas::frames_more, crate::proofs::FrameLemmas::frames_push, crate::proofs::FrameLemmas::within_more, crate::proofs::FrameLemmas::within_push))]
    pub(crate) fn push(&mut self, place: u64, line: &[u8]) -> Result<(), AllocError>
        ensures added { OnOk result (self.new ≡ self.old ++ (place, line.now) ∷ []) }
        ensures kept { OnErr result (self.new ≡ self.old) }
    {
        let start = self.bytes.len();
        self.bytes.extend_from_slice(line)?;
        let end = self.bytes.len();
        self.list.push(Frame { place, start, end })?;
        Ok(())
    }

    /// How many there are.
    pub fn len(&self) -> usize
        ensures { result ≡ length self.now }
    {
        self.list.len()
    }

    /// Whether there is none.
    pub fn is_empty(&self) -> bool
        ensures { result ≡ (length self.now == 0) }
    {
        self.list.is_empty()
    }

    /// The place of a record's commit byte.
    pub fn place(&self, i: usize) -> u64
        requires { i < length self.now }
        ensures { result ≡ slice_index (places_in self.now) i }
    {
        self.list[i].place
    }

    /// A record's line.
    pub fn line(&self, i: usize) -> &[u8]
        requires { i < length self.now }
        ensures { result.now ≡ slice_index_or (lines_in self.now) i [] }
    {
        let frame = self.list[i];
        &self.bytes[frame.start..frame.end]
    }
}
