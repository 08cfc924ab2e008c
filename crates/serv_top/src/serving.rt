//! Lines that come byte by byte, and the replies to them.

ghost use Rattle.std.specs.Prelude.{◌≡◌, ℕ, ◌+◌, ◌<◌, ◌≤◌, ◌==◌, ◌++◌, List, [], ◌∷◌, Option, Some, Err, false, true, OnErr, OnOk, IfErr, IfOk, length, take, vec_len};
ghost use Rattle.std.specs.List.{position};
ghost use Rattle.serv_disk.specs.Faults.{HasRisen};
ghost use Rattle.std.specs.Io.KnownBytes.{Appends};
ghost use Rattle.serv_machine.specs.OnDisk.{OnDisk, Upholds};
ghost use Rattle.serv_machine.specs.History.{Stand, running, stand};
ghost use Rattle.serv_top.specs.Outcome.{Served};
ghost use Rattle.serv_machine.specs.Answering.{AreReplies, IsStopped, Writes, Answers};
ghost use Rattle.serv_machine.specs.Sayings.{AreFirst, SaidFirst, Say};
ghost use Rattle.serv_top.specs.Lines.{IsPlain, Says, ended_lines, lines_of};

use crate::said::said_in;
use memchr::memchr;
use serv_disk::{Disk, Sink};
use serv_machine::{Machine, Replies, Stop};
use std::alloc::Global;
use std::sync::ledger::Ledger;
use svc_base::{OutOfMemory, Steps};

/// How much of a line is kept: a line of 513 bytes is too long, whatever follows.
const KEPT: usize = 513;

/// Where the first line feed stands.
fn line_feed_in(bytes: &[u8]) -> Option<usize>
    ensures { result ≡ position (λ b. b == 10) bytes.now }
{
    memchr(b'\n', bytes)
}

/// The front of the line that has come so far, and the replies that are not written yet.
#[derive(Drop)]
pub(crate) struct Serving {
    line: Vec<u8>,
    replies: Replies,
    ghost short: { vec_len line ≤ 513 },
}

impl Serving {
    /// Nothing has come yet.
    pub(crate) fn new(alloc: Global, waiting: usize) -> Serving
        ensures line { result.line.items ≡ [] }
        ensures replies { result.replies.text.items ≡ [] }
        ensures waiting { result.replies.waiting ≡ waiting }
    {
        Serving {
            line: Vec::new(alloc),
            replies: Replies::new(alloc, waiting),
        }
    }

    /// Takes bytes in their order, and writes the replies to the lines that they end. Where it stops, the
    /// rest of the bytes is left out. Each write of this call is upheld, as of those below.
    pub(crate) fn feed_all<D: Disk, M: Machine<D>, K: Sink, L: Ledger>(
        &mut self,
        bytes: &[u8],
        machine: &mut M,
        disk: &mut D,
        snk: &mut K,
        steps: &mut Steps<L>,
    ) -> Result<(), Stop>
        requires ready { M.ready machine.old disk.old }
        requires empty { self.old.replies.text.items ≡ [] }
        ensures fed { (before : List ℕ) (s : Stand) (held : Option (List ℕ))
            → Served self.old.replies.waiting before s
            (running (M.history machine.old) (M.kept machine.old) steps.old) held (K.held snk.old)
            self.old.line.items self.old.replies.text.items
            → OnOk result (Served self.old.replies.waiting (before ++ bytes.now) s
            (running (M.history machine.new) (M.kept machine.new) steps.new) held (K.held snk.new)
            self.new.line.items self.new.replies.text.items) }
        ensures stopped { (before : List ℕ) (s : Stand) (held : Option (List ℕ))
            → Served self.old.replies.waiting before s
            (running (M.history machine.old) (M.kept machine.old) steps.old) held (K.held snk.old)
            self.old.line.items self.old.replies.text.items
            → IfErr result (λ why. Writes D.view disk.old disk.new
            (IsStopped why (AreFirst (SaidFirst Says (ended_lines (before ++ bytes.now)))) self.old.replies.waiting s
            (stand (M.kept machine.new) steps.new)) (M.kept machine.old) (M.kept machine.new) held (K.held snk.new)) }
        ensures upheld { (before : List ℕ) (s : Stand) (held : Option (List ℕ))
            → Served self.old.replies.waiting before s
            (running (M.history machine.old) (M.kept machine.old) steps.old) held (K.held snk.old)
            self.old.line.items self.old.replies.text.items
            → Upholds (AreReplies (SaidFirst Says (ended_lines (before ++ bytes.now))) s.history)
            (D.view disk.new) (M.kept machine.new) held (K.log snk.old) (K.log snk.new) }
        ensures empty { OnOk result (self.new.replies.text.items ≡ []) }
        ensures waiting { self.new.replies.waiting ≡ self.old.replies.waiting }
        ensures disk { OnOk result (OnDisk D.view disk.old disk.new
            (M.kept machine.old) (M.kept machine.new) []) }
        ensures ready { OnOk result (M.ready machine.new disk.new) }
        ensures later { K.faults snk.old ≤ K.faults snk.new }
        ensures cause { result ≡ Err Stop.WriteFault → HasRisen (K.faults snk.old) (K.faults snk.new) }
        ensures disk_later { D.faults disk.old ≤ D.faults disk.new }
        ensures disk_cause { result ≡ Err Stop.DiskFault → HasRisen (D.faults disk.old) (D.faults disk.new) }
    {
        let mut at = 0;
        while at < bytes.len() {
            match self.feed_some(&bytes[at..], machine, disk, snk, steps) {
                Ok(taken) => at += taken,
                Err(stop) => return Err(stop),
            }
        }
        self.replies.let_go(None, 0, machine, disk, snk)
    }

    /// Takes the bytes up to the first line feed, which ends a line, or all of them where there is none; so
    /// many are taken.
    fn feed_some<D: Disk, M: Machine<D>, K: Sink, L: Ledger>(
        &mut self,
        bytes: &[u8],
        machine: &mut M,
        disk: &mut D,
        snk: &mut K,
        steps: &mut Steps<L>,
    ) -> Result<usize, Stop>
        requires running { M.running machine.old disk.old }
        ensures fed { (before : List ℕ) (s : Stand) (held : Option (List ℕ))
            → Served self.old.replies.waiting before s
            (running (M.history machine.old) (M.kept machine.old) steps.old) held (K.held snk.old)
            self.old.line.items self.old.replies.text.items
            → IfOk result (λ n. Served self.old.replies.waiting (before ++ take n bytes.now) s
            (running (M.history machine.new) (M.kept machine.new) steps.new) held (K.held snk.new)
            self.new.line.items self.new.replies.text.items) }
        ensures stopped { (before : List ℕ) (s : Stand) (held : Option (List ℕ))
            → Served self.old.replies.waiting before s
            (running (M.history machine.old) (M.kept machine.old) steps.old) held (K.held snk.old)
            self.old.line.items self.old.replies.text.items
            → IfErr result (λ why. Writes D.view disk.old disk.new
            (IsStopped why (AreFirst (SaidFirst Says (ended_lines (before ++ bytes.now)))) self.old.replies.waiting s
            (stand (M.kept machine.new) steps.new)) (M.kept machine.old) (M.kept machine.new) held (K.held snk.new)) }
        ensures upheld { (before : List ℕ) (s : Stand) (held : Option (List ℕ))
            → Served self.old.replies.waiting before s
            (running (M.history machine.old) (M.kept machine.old) steps.old) held (K.held snk.old)
            self.old.line.items self.old.replies.text.items
            → Upholds (AreReplies (SaidFirst Says (ended_lines (before ++ bytes.now))) s.history)
            (D.view disk.new) (M.kept machine.new) held (K.log snk.old) (K.log snk.new) }
        ensures waiting { self.new.replies.waiting ≡ self.old.replies.waiting }
        ensures disk { OnOk result (OnDisk D.view disk.old disk.new
            (M.kept machine.old) (M.kept machine.new) []) }
        ensures running { OnOk result (M.running machine.new disk.new) }
        ensures later { K.faults snk.old ≤ K.faults snk.new }
        ensures cause { result ≡ Err Stop.WriteFault → HasRisen (K.faults snk.old) (K.faults snk.new) }
        ensures disk_later { D.faults disk.old ≤ D.faults disk.new }
        ensures disk_cause { result ≡ Err Stop.DiskFault → HasRisen (D.faults disk.old) (D.faults disk.new) }
        ensures some { IfOk result (λ n. n ≤ length bytes.now) }
        ensures more { 0 < length bytes.now → IfOk result (λ n. 0 < n) }
    {
        match line_feed_in(bytes) {
            Some(at) => match self.feed_line(&bytes[..at], machine, disk, snk, steps) {
                Ok(()) => Ok(at + 1),
                Err(stop) => Err(stop),
            },
            None => match self.feed_piece(bytes, machine, disk, snk) {
                Ok(()) => Ok(bytes.len()),
                Err(stop) => Err(stop),
            },
        }
    }

    /// Takes the rest of a line and its line feed.
    fn feed_line<D: Disk, M: Machine<D>, K: Sink, L: Ledger>(
        &mut self,
        piece: &[u8],
        machine: &mut M,
        disk: &mut D,
        snk: &mut K,
        steps: &mut Steps<L>,
    ) -> Result<(), Stop>
        requires plain { IsPlain piece.now }
        requires running { M.running machine.old disk.old }
        ensures fed { (before : List ℕ) (s : Stand) (held : Option (List ℕ))
            → Served self.old.replies.waiting before s
            (running (M.history machine.old) (M.kept machine.old) steps.old) held (K.held snk.old)
            self.old.line.items self.old.replies.text.items
            → OnOk result (Served self.old.replies.waiting (before ++ (piece.now ++ 10 ∷ [])) s
            (running (M.history machine.new) (M.kept machine.new) steps.new) held (K.held snk.new)
            self.new.line.items self.new.replies.text.items) }
        ensures stopped { (before : List ℕ) (s : Stand) (held : Option (List ℕ))
            → Served self.old.replies.waiting before s
            (running (M.history machine.old) (M.kept machine.old) steps.old) held (K.held snk.old)
            self.old.line.items self.old.replies.text.items
            → IfErr result (λ why. Writes D.view disk.old disk.new
            (IsStopped why (AreFirst (SaidFirst Says (ended_lines (before ++ (piece.now ++ 10 ∷ []))))) self.old.replies.waiting s
            (stand (M.kept machine.new) steps.new)) (M.kept machine.old) (M.kept machine.new) held (K.held snk.new)) }
        ensures upheld { (before : List ℕ) (s : Stand) (held : Option (List ℕ))
            → Served self.old.replies.waiting before s
            (running (M.history machine.old) (M.kept machine.old) steps.old) held (K.held snk.old)
            self.old.line.items self.old.replies.text.items
            → Upholds (AreReplies (SaidFirst Says (ended_lines (before ++ (piece.now ++ 10 ∷ [])))) s.history)
            (D.view disk.new) (M.kept machine.new) held (K.log snk.old) (K.log snk.new) }
        ensures waiting { self.new.replies.waiting ≡ self.old.replies.waiting }
        ensures disk { OnOk result (OnDisk D.view disk.old disk.new
            (M.kept machine.old) (M.kept machine.new) []) }
        ensures running { OnOk result (M.running machine.new disk.new) }
        ensures later { K.faults snk.old ≤ K.faults snk.new }
        ensures cause { result ≡ Err Stop.WriteFault → HasRisen (K.faults snk.old) (K.faults snk.new) }
        ensures disk_later { D.faults disk.old ≤ D.faults disk.new }
        ensures disk_cause { result ≡ Err Stop.DiskFault → HasRisen (D.faults disk.old) (D.faults disk.new) }
    {
        match self.feed_piece(piece, machine, disk, snk) {
            Ok(()) => self.end_line(machine, disk, snk, steps),
            Err(stop) => Err(stop),
        }
    }

    /// Takes bytes without a line feed. Where memory is short, what is begun is committed and all replies are written.
    fn feed_piece<D: Disk, M: Machine<D>, K: Sink>(
        &mut self,
        piece: &[u8],
        machine: &mut M,
        disk: &mut D,
        snk: &mut K,
    ) -> Result<(), Stop>
        requires plain { IsPlain piece.now }
        requires running { M.running machine.old disk.old }
        ensures fed { (before : List ℕ) (s : Stand) (steps : ℕ) (held : Option (List ℕ))
            → Served self.old.replies.waiting before s
            (running (M.history machine.old) (M.kept machine.old) steps) held (K.held snk.old)
            self.old.line.items self.old.replies.text.items
            → OnOk result (Served self.old.replies.waiting (before ++ piece.now) s
            (running (M.history machine.new) (M.kept machine.new) steps) held (K.held snk.new)
            self.new.line.items self.new.replies.text.items) }
        ensures stopped { (before : List ℕ) (s : Stand) (steps : ℕ) (held : Option (List ℕ))
            → Served self.old.replies.waiting before s
            (running (M.history machine.old) (M.kept machine.old) steps) held (K.held snk.old)
            self.old.line.items self.old.replies.text.items
            → IfErr result (λ why. Writes D.view disk.old disk.new
            (IsStopped why (AreFirst (SaidFirst Says (ended_lines (before ++ piece.now)))) self.old.replies.waiting s
            (stand (M.kept machine.new) steps)) (M.kept machine.old) (M.kept machine.new) held (K.held snk.new)) }
        ensures upheld { (before : List ℕ) (s : Stand) (steps : ℕ) (held : Option (List ℕ))
            → Served self.old.replies.waiting before s
            (running (M.history machine.old) (M.kept machine.old) steps) held (K.held snk.old)
            self.old.line.items self.old.replies.text.items
            → Upholds (AreReplies (SaidFirst Says (ended_lines (before ++ piece.now))) s.history)
            (D.view disk.new) (M.kept machine.new) held (K.log snk.old) (K.log snk.new) }
        ensures same { OnOk result ((machine.new ≡ machine.old) × (disk.new ≡ disk.old) × (snk.new ≡ snk.old)) }
        ensures waiting { self.new.replies.waiting ≡ self.old.replies.waiting }
        ensures disk { OnOk result (OnDisk D.view disk.old disk.new
            (M.kept machine.old) (M.kept machine.new) []) }
        ensures running { OnOk result (M.running machine.new disk.new) }
        ensures later { K.faults snk.old ≤ K.faults snk.new }
        ensures cause { result ≡ Err Stop.WriteFault → HasRisen (K.faults snk.old) (K.faults snk.new) }
        ensures disk_later { D.faults disk.old ≤ D.faults disk.new }
        ensures disk_cause { result ≡ Err Stop.DiskFault → HasRisen (D.faults disk.old) (D.faults disk.new) }
    {
        match self.keep_all(piece) {
            Ok(()) => Ok(()),
            Err(_) => match self.replies.let_go(None, 0, machine, disk, snk) {
                Ok(()) => Err(Stop::OutOfMemory),
                Err(stop) => Err(stop),
            },
        }
    }

    /// Answers a line that has come, once the replies before it are written, unless they may wait.
    fn end_line<D: Disk, M: Machine<D>, K: Sink, L: Ledger>(
        &mut self,
        machine: &mut M,
        disk: &mut D,
        snk: &mut K,
        steps: &mut Steps<L>,
    ) -> Result<(), Stop>
        requires running { M.running machine.old disk.old }
        ensures fed { (before : List ℕ) (s : Stand) (held : Option (List ℕ))
            → Served self.old.replies.waiting before s
            (running (M.history machine.old) (M.kept machine.old) steps.old) held (K.held snk.old)
            self.old.line.items self.old.replies.text.items
            → OnOk result (Served self.old.replies.waiting (before ++ 10 ∷ []) s
            (running (M.history machine.new) (M.kept machine.new) steps.new) held (K.held snk.new)
            self.new.line.items self.new.replies.text.items) }
        ensures stopped { (before : List ℕ) (s : Stand) (held : Option (List ℕ))
            → Served self.old.replies.waiting before s
            (running (M.history machine.old) (M.kept machine.old) steps.old) held (K.held snk.old)
            self.old.line.items self.old.replies.text.items
            → IfErr result (λ why. Writes D.view disk.old disk.new
            (IsStopped why (AreFirst (SaidFirst Says (ended_lines (before ++ 10 ∷ [])))) self.old.replies.waiting s
            (stand (M.kept machine.new) steps.new)) (M.kept machine.old) (M.kept machine.new) held (K.held snk.new)) }
        ensures upheld { (before : List ℕ) (s : Stand) (held : Option (List ℕ))
            → Served self.old.replies.waiting before s
            (running (M.history machine.old) (M.kept machine.old) steps.old) held (K.held snk.old)
            self.old.line.items self.old.replies.text.items
            → Upholds (AreReplies (SaidFirst Says (ended_lines (before ++ 10 ∷ []))) s.history)
            (D.view disk.new) (M.kept machine.new) held (K.log snk.old) (K.log snk.new) }
        ensures waiting { self.new.replies.waiting ≡ self.old.replies.waiting }
        ensures disk { OnOk result (OnDisk D.view disk.old disk.new
            (M.kept machine.old) (M.kept machine.new) []) }
        ensures running { OnOk result (M.running machine.new disk.new) }
        ensures later { K.faults snk.old ≤ K.faults snk.new }
        ensures cause { result ≡ Err Stop.WriteFault → HasRisen (K.faults snk.old) (K.faults snk.new) }
        ensures disk_later { D.faults disk.old ≤ D.faults disk.new }
        ensures disk_cause { result ≡ Err Stop.DiskFault → HasRisen (D.faults disk.old) (D.faults disk.new) }
    {
        let said = said_in(&self.line);
        match self.replies.act(&said, machine, disk, snk, steps) {
            Ok(()) => {
                self.line.clear();
                Ok(())
            }
            Err(stop) => Err(stop),
        }
    }

    /// Answers the last piece, where it is not empty, as if a line feed had ended it, and writes its reply.
    /// All other replies are written.
    pub(crate) fn finish<D: Disk, M: Machine<D>, K: Sink, L: Ledger>(
        &mut self,
        machine: &mut M,
        disk: &mut D,
        snk: &mut K,
        steps: &mut Steps<L>,
    ) -> Result<(), Stop>
        requires ready { M.ready machine.old disk.old }
        requires empty { self.old.replies.text.items ≡ [] }
        ensures served { (bytes : List ℕ) (s : Stand) (held : Option (List ℕ))
            → Served self.old.replies.waiting bytes s
            (running (M.history machine.old) (M.kept machine.old) steps.old) held (K.held snk.old)
            self.old.line.items self.old.replies.text.items
            → OnOk result ((written : List ℕ) × Appends held (K.held snk.new) written
            × Answers (Say Says (lines_of bytes)) s (stand (M.kept machine.new) steps.new) written) }
        ensures stopped { (bytes : List ℕ) (s : Stand) (held : Option (List ℕ))
            → Served self.old.replies.waiting bytes s
            (running (M.history machine.old) (M.kept machine.old) steps.old) held (K.held snk.old)
            self.old.line.items self.old.replies.text.items
            → IfErr result (λ why. Writes D.view disk.old disk.new
            (IsStopped why (AreFirst (SaidFirst Says (lines_of bytes))) self.old.replies.waiting s
            (stand (M.kept machine.new) steps.new)) (M.kept machine.old) (M.kept machine.new) held (K.held snk.new)) }
        ensures upheld { (bytes : List ℕ) (s : Stand) (held : Option (List ℕ))
            → Served self.old.replies.waiting bytes s
            (running (M.history machine.old) (M.kept machine.old) steps.old) held (K.held snk.old)
            self.old.line.items self.old.replies.text.items
            → Upholds (AreReplies (SaidFirst Says (lines_of bytes)) s.history) (D.view disk.new)
            (M.kept machine.new) held (K.log snk.old) (K.log snk.new) }
        ensures disk { OnOk result (OnDisk D.view disk.old disk.new
            (M.kept machine.old) (M.kept machine.new) []) }
        ensures later { K.faults snk.old ≤ K.faults snk.new }
        ensures cause { result ≡ Err Stop.WriteFault → HasRisen (K.faults snk.old) (K.faults snk.new) }
        ensures disk_later { D.faults disk.old ≤ D.faults disk.new }
        ensures disk_cause { result ≡ Err Stop.DiskFault → HasRisen (D.faults disk.old) (D.faults disk.new) }
    {
        if self.line.is_empty() {
            return Ok(());
        }
        match self.end_line(machine, disk, snk, steps) {
            Ok(()) => self.replies.let_go(None, 0, machine, disk, snk),
            Err(stop) => Err(stop),
        }
    }

    /// Adds bytes to the line, as far as the line is kept.
    fn keep_all(&mut self, piece: &[u8]) -> Result<(), OutOfMemory>
        ensures line { OnOk result (self.new.line.items ≡ take 513 (self.old.line.items ++ piece.now)) }
        ensures replies { self.new.replies ≡ self.old.replies }
    {
        let room = KEPT - self.line.len();
        self.line
            .extend_from_slice(&piece[..piece.len().min(room)])?;
        Ok(())
    }
}
