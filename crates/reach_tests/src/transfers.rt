//! Transfers, as lines in and lines out.

ghost use Rattle.std.specs.Prelude.{◌≡◌, ◌<◌};

use crate::histories::core_of;
use serv_line::{push_bytes, push_line};
use servicing_transfer::{Halves, split};
use std::alloc::Global;
use std::marker::Brand;
use std::sync::ledger::{Blank, Ledger};
use std::test::Fail;
use svc_base::{OutOfMemory, Steps};
use svc_checkpoint::Checked;
use svc_core::Core;
use svc_types::{Command, Key, Request};

/// The lines of commands.
fn lines_of(alloc: Global, commands: &[(Key, Command)]) -> Result<Vec<u8>, OutOfMemory> {
    let mut out = Vec::new(alloc);
    for (key, command) in commands {
        push_line(&mut out, &Request::Do(*key, *command))?;
        push_bytes(&mut out, b"\n")?;
    }
    Ok(out)
}

fn are_lines(alloc: Global, commands: &[(Key, Command)], text: &str) -> Result<bool, OutOfMemory> {
    Ok(lines_of(alloc, commands)?.as_slice() == text.as_bytes())
}

/// A history, a range of loans, and what a transfer of it writes.
#[derive(Clone, Copy)]
struct Row {
    history: &'static str,
    from: u32,
    to: u32,
    inside: &'static str,
    outside: &'static str,
}

/// Whether a row is what a transfer of its range writes.
fn has_parts(alloc: Global, core: &Core<Checked>, row: &Row) -> Result<bool, Fail> {
    if row.from > row.to {
        return Ok(false);
    }
    let halves = split(alloc, core, row.from, row.to)?;
    Ok(are_halves(alloc, &halves, row)?)
}

fn are_halves(alloc: Global, halves: &Halves, row: &Row) -> Result<bool, OutOfMemory> {
    let is_inside = are_lines(alloc, &halves.inside, row.inside)?;
    Ok(are_lines(alloc, &halves.outside, row.outside)? && is_inside)
}

fn is_split_over<L: Ledger>(alloc: Global, blank: Blank, row: &Row) -> Result<bool, Fail>
    requires name { blank.name ≡ L.name }
    requires parts { blank.parts ≡ L.parts }
    requires some { 0 < L.parts }
{
    let mut steps = Steps::<L>::new(blank);
    let core = core_of(alloc, row.history.as_bytes(), &mut steps)?;
    has_parts(alloc, &core, row)
}

/// The same, with steps that are counted from 0.
fn is_split(alloc: Global, row: &Row) -> Result<bool, Fail> {
    is_split_over::<Brand>(alloc, Blank::new(1), row)
}

pub const TWO_LOANS: &str = "k1 day 2024-06-15\n\
    k2 board 2 2024-06-01 200000.00 6000 250 1199.10 360 2024-07 15 500 2 130.00 AA\n\
    k3 board 3 2024-06-01 200000.00 6000 250 1199.10 360 2024-07 15 500 2 130.00 AA\n\
    k4 line 2 1 tax 7 12 2000.00\n\
    k5 deposit 2 2024-06-10 1500.00\n\
    k6 deposit 3 2024-06-10 300.00\n\
    k7 disburse 2 2024-06-12 2000.00 1\n\
    k8 deposit 2 2024-06-14 600.00\n";

pub const OF_LOAN_2: &str = "k1 day 2024-06-15\n\
    k2 board 2 2024-06-01 200000.00 6000 250 1199.10 360 2024-07 15 500 2 130.00 AA\n\
    k4 line 2 1 tax 7 12 2000.00\n\
    k5 deposit 2 2024-06-10 1500.00\n\
    k7 disburse 2 2024-06-12 2000.00 1\n\
    k8 deposit 2 2024-06-14 600.00\n";

const OF_LOAN_3: &str = "k1 day 2024-06-15\n\
    k3 board 3 2024-06-01 200000.00 6000 250 1199.10 360 2024-07 15 500 2 130.00 AA\n\
    k6 deposit 3 2024-06-10 300.00\n";

/// One loan goes, and the others stay. Further rows stand in `tests/real/worked.py`.
#[test]
fn loans_go_with_their_commands(rt: HostRuntime) -> Result<(), Fail> {
    let row = Row {
        history: TWO_LOANS,
        from: 2,
        to: 2,
        inside: OF_LOAN_2,
        outside: OF_LOAN_3,
    };
    assert!(rt; is_split(rt.alloc(), &row)?);
    Ok(())
}
