//! The escrow lines of a loan.

ghost use Rattle.std.specs.Prelude.{◌≡◌, ◌+◌, ◌*◌, ◌<◌, ◌≤◌, ℤ, pos, ◌≤ℤ◌, [], find, position, length, true, false, IsTrue, ◌↔◌, All, MatchResult, OnOk, OnErr};
ghost use Rattle.std.specs.List.{list_any};
ghost use Rattle.svc_base.specs.EscrowMonths.{IsMonthPaid};
ghost use Rattle.escrow_lines.specs.Bills.{IsBill};
ghost use Rattle.escrow_lines.specs.BillLists.{AreLines, has_id, with_line, without_line, set_fault, month_total, year_of};
ghost use Rattle.escrow_lines.specs.BillLists as rule;

use crate::line::{EscrowLineFault, Line};
use arrayvec::ArrayVec;
use std::marker::Model;
use svc_base::{Cents, Month};

/// The escrow lines of a loan, in 16 places of their own. Its value in contracts is their list.
#[derive(Drop)]
pub struct Lines {
    kept: ArrayVec<Line, 16>,
}

impl Model for Lines {
    ghost use Rattle.std.specs.Prelude.{List};
    ghost use Rattle.escrow_lines.specs.declared.line.Line.{Line};
    ghost use Rattle.escrow_lines.specs.BillLists.{AreLines};

    ghost Value = { List Line };

    ghost view = { λ l. l.kept.items };

    ghost invariant = { λ l. AreLines l.kept.items };
}

impl Lines {
    /// No lines.
    pub fn new() -> Lines
        ensures { result ≡ [] }
    {
        Lines {
            kept: ArrayVec::new(),
        }
    }

    /// How many lines there are: 16 at most, with distinct ids, and nothing is wrong with any.
    pub fn len(&self) -> usize
        ensures value { result ≡ length self.now }
        ensures lines { AreLines self.now }
    {
        self.kept.len()
    }

    /// The lines, as they stand.
    pub fn slice(&self) -> &[Line]
        ensures { result.now ≡ self.now }
    {
        &self.kept
    }

    /// Whether there are none.
    pub fn is_empty(&self) -> bool
        ensures { IsTrue result ↔ (self.now ≡ []) }
    {
        self.kept.is_empty()
    }

    /// Puts a line in the place of the one with its id, or after the others. There is room for
    /// 16 lines.
    pub fn set(&mut self, line: Line) -> Result<(), EscrowLineFault>
        ensures fault { MatchResult result (λ _. set_fault line self.old ≡ None)
            (λ fault. set_fault line self.old ≡ Some fault) }
        ensures ok { OnOk result (self.new ≡ with_line line self.old) }
        ensures err { OnErr result (self.new ≡ self.old) }
    {
        if let Some(why) = line.fault() {
            return Err(EscrowLineFault::BadLine(why));
        }
        match place_of(&self.kept, line.id) {
            Some(place) => self.kept[place] = line,
            None if self.kept.is_full() => return Err(EscrowLineFault::Full),
            None => self.kept.push(line),
        }
        Ok(())
    }

    /// Takes out the line with that id.
    pub fn drop_line(&mut self, id: u32) -> Result<(), EscrowLineFault>
        ensures fault { MatchResult result (λ _. list_any (has_id id) self.old ≡ true)
            (λ fault. (fault ≡ EscrowLineFault.NoSuchLine) × (list_any (has_id id) self.old ≡ false)) }
        ensures ok { OnOk result (self.new ≡ without_line id self.old) }
        ensures err { OnErr result (self.new ≡ self.old) }
    {
        match place_of(&self.kept, id) {
            Some(place) => {
                self.kept.remove(place);
                Ok(())
            }
            None => Err(EscrowLineFault::NoSuchLine),
        }
    }

    /// What the lines pay out in each of the 12 months that begin with that one, in cents.
    pub fn year(&self, from: Month) -> [Cents; 12]
        ensures value { result ≡ year_of self.now from }
        ensures months { All IsMonthPaid result }
    {
        let mut year = [0; 12];
        for k in 0..12 {
            year[k] = month_total(&self.kept, (from.number() + k as u32) % 12 + 1);
        }
        year
    }

    /// The line with that id, if there is one.
    pub fn find(&self, id: u32) -> Option<Line>
        ensures { result ≡ find (has_id id) self.now }
    {
        self.kept.iter().copied().find(|line| line.id == id)
    }
}

/// Where the line with that id stands, if there is one.
fn place_of(lines: &[Line], id: u32) -> Option<usize>
    ensures { result ≡ position (has_id id) lines.now }
{
    lines.iter().position(|line| line.id == id)
}

/// What the lines pay out in that month of the year, from 1.
#[tactic(auto, using(crate::proofs::LineLemmas::period_low))]
fn month_total(lines: &[Line], number: u32) -> Cents
    requires few { length lines.now ≤ 16 }
    requires bills { All IsBill lines.now }
    ensures value { result ≡ rule.month_total lines.now number }
    ensures low { pos 0 ≤ℤ result }
    ensures high { result ≤ℤ pos 160_000_000_000 }
{
    let mut total = 0;
    for line in lines {
        total += line.cents_in(number);
    }
    total
}
