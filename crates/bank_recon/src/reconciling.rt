//! The reconciliation of a span of commands with a bank's list.

ghost use Rattle.std.specs.Prelude.{◌≡◌, ◌≤◌, IfOk};
ghost use Rattle.bank_recon.specs.Reconciling.{IsRecon};

use crate::recon::{Recon, recon_of};
use crate::span::items_of_span;
use crate::statement::Statement;
use std::alloc::Global;
use std::sync::ledger::Ledger;
use svc_base::{OutOfMemory, Steps};
use svc_core::Core;
use svc_replay::LoanBooks;

/// Compares the items that were carried, and those of the commands from one number to another, with the
/// lines of the bank: the j-th item of an account, number and amount is matched with the j-th such line.
/// Each item is matched or outstanding, each line is matched or not booked, and the books differ from the
/// bank by just these. It takes no step. Errs only where memory is short.
pub fn reconcile<B: LoanBooks, L: Ledger>(
    alloc: Global,
    core: &Core<B>,
    first: u32,
    last: u32,
    input: &Statement,
    steps: &mut Steps<L>,
) -> Result<Recon, OutOfMemory>
    requires first { 1 ≤ first }
    requires last { first ≤ last }
    ensures recon { IfOk result (IsRecon input.now.carried.items input.now.bank.items
        first last core.now.history) }
    ensures steps { steps.new ≡ steps.old }
{
    let _ = steps;
    let items = items_of_span(alloc, core, &input.carried, first, last)?;
    recon_of(alloc, &items, &input.bank)
}
