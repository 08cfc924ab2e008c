//! The generated year.

ghost use Rattle.std.specs.Prelude.{◌≡◌, ◌+◌, ◌≤◌, IfOk};
ghost use Rattle.serv_drill.specs.Machine.{cost_of_works, first_tally};
ghost use Rattle.serv_drill.specs.Works.{year_works};
ghost use Rattle.serv_drill.specs.Summary.{summary};

use crate::desk::Desk;
use crate::summary::summarize;
use std::alloc::Global;
use std::sync::ledger::Ledger;
use svc_base::{OutOfMemory, Steps};

/// The generated year of some loans, at most 500: the number begins the draws, which say who pays when. Each
/// command is submitted twice in a row to books in memory. The result is the summary: how many commands were
/// accepted and how many kept replies given, the custodial accounts, and, in units and hundredths, what the
/// investor was sent and the late charges that are owed. Errs only where memory is short.
pub fn drill<L: Ledger>(
    alloc: Global,
    loans: u32,
    number: u32,
    steps: &mut Steps<L>,
) -> Result<Vec<u8>, OutOfMemory>
    requires few { loans ≤ 500 }
    ensures text { IfOk result (λ text. text.items ≡ summary loans number) }

    // The steps are at most the bounds of the submitted commands, added up. The queries take none.
    ensures steps { steps.new ≤ steps.old + cost_of_works first_tally (year_works loans number) }
{
    let mut desk = Desk::new(alloc)?;
    desk.begin(alloc, loans, steps)?;
    desk.months(alloc, loans, number, steps)?;
    summarize(alloc, &desk, loans, number, steps)
}
