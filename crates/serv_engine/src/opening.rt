//! An engine made of what a journal has found.

ghost use Rattle.std.specs.Prelude.{◌≡◌, ◌⊎◌, ◌+◌, ◌≤◌, ℕ, [], length, false, IfOk, IfErr, OnOk, OnErr};
ghost use Rattle.svc_spec.specs.Accounts.{Account};
ghost use Rattle.svc_spec.specs.Months.{cost_of_month};
ghost use Rattle.svc_world.specs.Judging.{IsHistory};
ghost use Rattle.serv_disk.specs.Disks.{LeavesOnly};
ghost use Rattle.serv_journal.specs.Format.{Form, records};
ghost use Rattle.serv_journal.specs.States.{StandsFor};
ghost use Rattle.serv_journal.specs.Disks.{IsWhole, IsDurableFor};
ghost use Rattle.serv_journal.specs.Reading.{lines_in};
ghost use Rattle.serv_engine.specs.Histories.{lines_of_history};
ghost use Rattle.serv_engine.specs.Opening.{base_length, length_upgraded, IsTakingFault, AreLinesWithin, history_bound};

use crate::fault::EngineFault;
use crate::old_version::upgrade_old;
use crate::replaying::replay;
use serv_disk::Disk;
use serv_journal::{Frames, Journal, Version};
use std::alloc::Global;
use std::sync::ledger::Ledger;
use svc_base::Steps;
use svc_core::Core;
use svc_replay::LoanBooks;

/// Accepts the commands of all records, and then writes a journal of version 1 anew.
pub(crate) fn take_over<B: LoanBooks, D: Disk, L: Ledger>(
    alloc: Global,
    journal: &mut Journal,
    disk: &mut D,
    frames: &Frames,
    steps: &mut Steps<L>,
) -> Result<Core<B>, EngineFault>
    requires unspent { journal.old.spent ≡ false }
    requires durable { IsDurableFor (D.view disk.old).images journal.old (lines_in frames.now) }
    ensures lines { IfOk result (λ core. lines_of_history core.history ≡ lines_in frames.now) }
    ensures history { IfOk result (λ core. IsHistory core.history) }
    ensures durable { IfOk result (λ core.
        IsDurableFor (D.view disk.new).images journal.new (lines_of_history core.history)) }
    ensures version { IfOk result (λ core. journal.new.version ≡ Version.Two) }
    ensures size { (form : Form) → StandsFor form (lines_in frames.now) journal.old
        → OnOk result (journal.new.size
        ≡ base_length form (lines_in frames.now) + length (records Version.Two 1 (lines_in frames.now))) }
    ensures unspent { IfOk result (λ core. journal.new.spent ≡ false) }
    // A crash at any moment leaves the same lines.
    ensures moments { LeavesOnly D.view disk.old disk.new (IsWhole (lines_in frames.now)) }
    ensures room { IfOk result (λ core. journal.old.version ≡ Version.One
        → length_upgraded journal.old.size (lines_in frames.now) ≤ journal.old.limit) }
    ensures fault { IfErr result (IsTakingFault journal.old frames.now
        (D.faults disk.old) (D.faults disk.new)) }
    ensures kept { IfErr result (λ f. (f ≡ EngineFault.DiskFault) ⊎ (disk.new ≡ disk.old)) }
    ensures limit { journal.new.limit ≡ journal.old.limit }
    ensures faults { D.faults disk.old ≤ D.faults disk.new }
    ensures bound { ((a : Account) (m : ℕ) → B.cost a m ≤ cost_of_month a m)
        → ((a : Account) (m : ℕ) → B.month_cost a m ≡ 0)
        → IfOk result (λ core. steps.new ≤ steps.old + history_bound [] core.history) }
    ensures bound_err { ((a : Account) (m : ℕ) → B.cost a m ≤ cost_of_month a m)
        → ((a : Account) (m : ℕ) → B.month_cost a m ≡ 0)
        → OnErr result (AreLinesWithin (lines_in frames.now) steps.old steps.new) }
{
    match replay(alloc, frames, steps) {
        Ok(core) => match upgrade_old(journal, disk, frames) {
            Ok(()) => Ok(core),
            Err(fault) => Err(fault),
        },
        Err(fault) => Err(fault),
    }
}
