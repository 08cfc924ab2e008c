//! One step of a connection: as many bytes of a piece as one request needs.

ghost use Rattle.std.specs.Prelude.{◌≡◌, ℕ, ◌+◌, ◌≤◌, ◌<◌, ◌++◌, List, length, take, drop, min, ◌-◌, IfOk, OnErr, true, None};
ghost use Rattle.serv_http.specs.Conns as conns;
ghost use Rattle.serv_http.specs.Counts.{IsCounted};
ghost use Rattle.serv_http.specs.Streams.{IsAwaited};
ghost use Rattle.serv_http.specs.Plans.{PlanFits, IsPlan};
ghost use Rattle.httparse.specs.Grammar.{RequestHead};

use crate::ask::{Ask, Due, Plan};
use crate::conn::Conn;
use crate::feeding::{after, asked, body_of, is_last};
use crate::found::Found;
use crate::head_step::HeadStep;
use crate::judging::judge;
use crate::lines::LineCount;
use crate::stage::Stage;
use crate::window::{HEAD_LIMIT, count_on};
use std::alloc::Global;
use svc_base::OutOfMemory;

impl Conn {
    /// Ends a request, or the connection with it.
    fn finish(&mut self, last: bool)
        ensures stage { self.new.stage ≡ conns.stage_after last }
        ensures filled { self.new.filled ≡ 0 }
    {
        self.filled = 0;
        self.lines = LineCount::Blank;
        self.stage = after(last);
    }

    /// Passes over a body, of which so many bytes are left.
    fn pass(&mut self, left: usize, due: &Due, piece: &[u8]) -> (usize, Option<Ask>)
        ensures within { result.0 ≤ length piece.now }
        ensures step { (s : List ℕ) → conns.IsPassing left due.now s
            → conns.IsStep s piece.now self.new result.0 result.1 }
    {
        if piece.len() < left {
            self.stage = Stage::Passing(left - piece.len(), *due);
            return (piece.len(), None);
        }
        self.finish(is_last(due));
        (left, Some(asked(due)))
    }

    /// Keeps a body, of which so many bytes are there.
    fn keep(
        &mut self,
        alloc: Global,
        have: usize,
        need: usize,
        last: bool,
        piece: &[u8],
    ) -> Result<(usize, Option<Ask>), OutOfMemory>
        requires there { have ≤ need }
        requires room { need ≤ 2048 }
        ensures within { IfOk result (λ r. r.0 ≤ length piece.now) }
        ensures ok { IfOk result (λ r. (s : List ℕ) → conns.IsKeeping self.old.body have need last s
            → conns.IsStep s piece.now self.new r.0 r.1) }
        ensures err { OnErr result ((s : List ℕ) → conns.IsKeeping self.old.body have need last s
            → ¬ (IsAwaited (s ++ piece.now))) }
    {
        let wanted = need - have;
        if piece.len() < wanted {
            self.body.put(have, piece);
            self.stage = Stage::Keeping(have + piece.len(), need, last);
            return Ok((piece.len(), None));
        }
        self.body.put(have, &piece[..wanted]);
        match body_of(alloc, self.body.front(need)) {
            Ok(body) => {
                self.finish(last);
                Ok((wanted, Some(Ask::Post(body, last))))
            }
            Err(error) => Err(error),
        }
    }

    /// Goes on with a body.
    fn read_body(
        &mut self,
        alloc: Global,
        piece: &[u8],
    ) -> Result<(usize, Option<Ask>), OutOfMemory>
        ensures within { IfOk result (λ r. r.0 ≤ length piece.now) }
        ensures ok { IfOk result (λ r. (s : List ℕ) → conns.BegunFor self.old s
            → conns.IsStep s piece.now self.new r.0 r.1) }
        ensures err { OnErr result ((s : List ℕ) → conns.BegunFor self.old s
            → ¬ (IsAwaited (s ++ piece.now))) }
    {
        match self.stage {
            Stage::Passing(left, due) => Ok(self.pass(left, &due, piece)),
            Stage::Keeping(have, need, last) => self.keep(alloc, have, need, last, piece),
            _ => Ok((piece.len(), None)),
        }
    }

    /// Adds to a head what fits of a piece: how many bytes.
    fn fill(&mut self, piece: &[u8]) -> usize
        ensures count { result ≡ min (length piece.now) (8192 - self.old.filled) }
        ensures head { (s : List ℕ) → s ≡ take self.old.filled self.old.head
            → take (self.old.filled + result) self.new.head ≡ s ++ take result piece.now }
        ensures filled { self.new.filled ≡ self.old.filled }
        ensures lines { self.new.lines ≡ self.old.lines }
        ensures stage { self.new.stage ≡ self.old.stage }
    {
        let count = piece.len().min(HEAD_LIMIT - self.filled);
        self.head.put(self.filled, &piece[..count]);
        count
    }

    /// Goes on after a whole head, by what it asks for.
    fn begin(&mut self, used: usize, plan: Plan) -> HeadStep
        requires { PlanFits plan }
        ensures { (s piece : List ℕ) (h : RequestHead) → conns.IsWhole (s ++ take used piece) h
            → IsPlan h plan → used ≤ length piece → conns.IsHeadStep s piece self.new result }
    {
        self.filled = 0;
        self.lines = LineCount::Blank;
        match plan {
            Plan::Now(due) => {
                self.finish(is_last(&due));
                HeadStep::Asked(used, asked(&due))
            }
            Plan::Pass(count, due) => {
                self.stage = Stage::Passing(count, due);
                HeadStep::Begun(used)
            }
            Plan::Keep(count, last) => {
                self.stage = Stage::Keeping(0, count, last);
                HeadStep::Begun(used)
            }
        }
    }

    /// Ends the connection with a fault of a head.
    fn fault(&mut self, used: usize, status: u16) -> HeadStep
        ensures value { result ≡ HeadStep.Asked used (Ask.Fault status true None) }
        ensures over { self.new.stage ≡ Stage.Over }
        ensures filled { self.new.filled ≡ 0 }
    {
        self.finish(true);
        HeadStep::Asked(used, Ask::Fault(status, true, None))
    }

    /// Counts bytes of a head that are there, and its lines, as long as it may have more.
    fn wait(&mut self, count: usize, lines: LineCount) -> HeadStep
        requires within { self.old.filled + count ≤ 8192 }
        requires counted { IsCounted (take (self.old.filled + count) self.old.head) lines }
        ensures value { result ≡ HeadStep.Waits }
        ensures filled { self.old.filled + count < 8192 → self.new.filled ≡ self.old.filled + count }
        ensures head { self.new.head ≡ self.old.head }
        ensures stage { self.new.stage ≡ self.old.stage }
    {
        if self.filled + count < HEAD_LIMIT {
            self.filled += count;
            self.lines = lines;
        }
        HeadStep::Waits
    }

    /// Goes on with a head.
    fn read_head(&mut self, piece: &[u8]) -> HeadStep
        ensures { (s : List ℕ) → conns.IsHeading self.old s → self.old.stage ≡ Stage.Heading
            → conns.IsHeadStep s piece.now self.new result }
    {
        let count = self.fill(piece);
        let front = self.head.front(self.filled + count);
        let lines = count_on(self.lines, front, self.filled);
        match judge(&self.router, front, lines) {
            Found::Refused => self.fault(count, 400),
            Found::TooLong => self.fault(count, 431),
            Found::Waits => self.wait(count, lines),
            Found::Whole(len, plan) => self.begin(len.saturating_sub(self.filled), plan),
        }
    }

    /// Goes on with a body after so many bytes of a piece, which completed its head.
    fn read_rest(
        &mut self,
        alloc: Global,
        used: usize,
        piece: &[u8],
    ) -> Result<(usize, Option<Ask>), OutOfMemory>
        ensures within { IfOk result (λ r. r.0 ≤ length piece.now) }
        ensures ok { IfOk result (λ r. (s : List ℕ) → used ≤ length piece.now
            → conns.BegunFor self.old (s ++ take used piece.now) → conns.IsStep s piece.now self.new r.0 r.1) }
        ensures err { OnErr result ((s : List ℕ) → used ≤ length piece.now
            → conns.BegunFor self.old (s ++ take used piece.now) → ¬ (IsAwaited (s ++ piece.now))) }
    {
        if used > piece.len() {
            return Ok((0, None));
        }
        match self.read_body(alloc, &piece[used..]) {
            Ok((more, ask)) => Ok((used + more, ask)),
            Err(error) => Err(error),
        }
    }

    /// Takes as many bytes of a piece as one request needs.
    pub(crate) fn step(
        &mut self,
        alloc: Global,
        piece: &[u8],
    ) -> Result<(usize, Option<Ask>), OutOfMemory>
        ensures within { IfOk result (λ r. r.0 ≤ length piece.now) }
        ensures ok { IfOk result (λ r. (s : List ℕ) → conns.StandsFor self.old s
            → conns.IsStep s piece.now self.new r.0 r.1) }
        ensures err { OnErr result ((s : List ℕ) → conns.StandsFor self.old s
            → ¬ (IsAwaited (s ++ piece.now))) }
    {
        match self.stage {
            Stage::Heading => match self.read_head(piece) {
                HeadStep::Asked(used, ask) => Ok((used.min(piece.len()), Some(ask))),
                HeadStep::Waits => Ok((piece.len(), None)),
                HeadStep::Begun(used) => self.read_rest(alloc, used, piece),
            },
            _ => self.read_body(alloc, piece),
        }
    }
}
