//! One escrow line.

ghost use Rattle.std.specs.Prelude.{◌≡◌, pos, MatchOption, OnOk, IfErr, MatchResult, option_to_list, Some, None};
ghost use Rattle.escrow_lines.specs.declared.line.EscrowLineFault.TheVariants.{BadLine};

use svc_base::Cents;
use svc_types::{LineKind, LineWhy};
use thiserror::Error;

/// A bill that is paid from escrow: so many cents in its month of the year, 1 to 12, and in each
/// month that lies a multiple of `every` months from it.
#[derive(Clone, Copy, Debug, PartialEq, Eq)]
pub struct Line {
    pub id: u32,
    pub kind: LineKind,
    pub month: u32,
    pub every: u32,
    pub cents: Cents,
}

/// Why a line was not set or dropped.
#[derive(Clone, Copy, Debug, PartialEq, Eq, Error)]
pub enum EscrowLineFault {
    #[error("no line has that id")]
    NoSuchLine,
    #[error("bad line: {0}")]
    BadLine(LineWhy),
    #[error("there are 16 lines already")]
    Full,
}

/// A line that pays nothing.
impl Default for Line {
    fn default() -> Line
        ensures { result ≡ record { id = 0; kind = LineKind.Other; month = 1; every = 12; cents = pos 0 } }
    {
        Line {
            id: 0,
            kind: LineKind::Other,
            month: 1,
            every: 12,
            cents: 0,
        }
    }
}

impl Line {
    ghost use Rattle.escrow_lines.specs.Bills.{line_fault, cents_in, IsBill};
    ghost use Rattle.std.specs.Prelude.{◌≤◌, ◌≤ℤ◌};

    /// What is wrong with the line first, if anything is.
    pub fn fault(&self) -> Option<LineWhy>
        ensures value { result ≡ line_fault self.now }
        ensures bill { result ≡ None → IsBill self.now }
    {
        if self.cents < 1 || self.cents > 10_000_000_000 {
            return Some(LineWhy::Amount);
        }
        if self.month < 1 || self.month > 12 {
            return Some(LineWhy::MonthRange);
        }
        match self.every {
            1 | 2 | 3 | 4 | 6 | 12 => None,
            _ => Some(LineWhy::Every),
        }
    }

    /// What the line pays out in that month of the year, from 1.
    #[tactic(auto, unfolding(crate::specs::Bills::cents_in))]
    pub fn cents_in(&self, number: u32) -> Cents
        requires { 1 ≤ self.now.every }
        ensures value { result ≡ cents_in number self.now }
        ensures low { pos 0 ≤ℤ self.now.cents → pos 0 ≤ℤ result }
        ensures high { pos 0 ≤ℤ self.now.cents → result ≤ℤ self.now.cents }
    {
        if self.month.abs_diff(number) % self.every == 0 {
            self.cents
        } else {
            0
        }
    }
}
