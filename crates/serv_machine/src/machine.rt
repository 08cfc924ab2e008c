//! The books of a servicer, wherever they are kept.

ghost use Rattle.std.specs.Prelude.{◌≡◌, ◌≢◌, ◌+◌, ◌≤◌, ◌++◌, ◌∷◌, [], None, Some, Err, IfErr, IfOk, IfSome, OnErr, OnOk};
ghost use Rattle.svc_types.specs.Requests.{IsCommand, IsQuery};
ghost use Rattle.svc_world.specs.World.{accepted, world};
ghost use Rattle.svc_world.specs.Answers.{answer_to, query_refusal};
ghost use Rattle.svc_world.specs.Custody.{rows_in};
ghost use Rattle.svc_core.specs.Asking.{WantsMemory};
ghost use Rattle.svc_core.specs.Bound.{query_bound, step_bound};
ghost use Rattle.svc_core.specs.Core.{IsQueryFault};
ghost use Rattle.serv_disk.specs.Disks.{Each};
ghost use Rattle.serv_disk.specs.Faults.{HasCause};
ghost use Rattle.serv_report.specs.AnswerTexts.{IsSpellable};
ghost use Rattle.serv_machine.specs.History.{History, Fresh, decided, after_decision, IsKeptBut};
ghost use Rattle.serv_machine.specs.Verdicts.{IsReplyBy, IsFaultBy};
ghost use Rattle.serv_machine.specs.OnDisk.{HasHistory, IsTorn, OnDisk};

use crate::faults::ActFault;
use serv_disk::{Disk, Failed};
use std::sync::ledger::Ledger;
use svc_base::Steps;
use svc_core::CoreFault;
use svc_types::{Command, Key, Query, Reply};
use svc_world::Answer;

/// The books of a servicer: they act on commands, once for each key, and answer queries. The disk that they
/// are kept on is handed to each call that may use it.
pub trait Machine<D: Disk> {
    /// The accepted commands, and where they are kept.
    ghost history: { Self → History };

    /// The disk has the history, and no call of it has failed.
    ghost ready: { Self → D → Type 0 };

    /// The commands that the disk has: all of the history, or all but the last one, which is begun.
    ghost kept: { Self → History };

    /// The disk has the kept commands, and no call of it has failed.
    ghost running: { Self → D → Type 0 };

    /// A call of the disk has failed, and no further command is taken.
    ghost failed: { Self → Type 0 };

    /// Acts on a command, and replies to it: with the reply that was kept for its key, or, where it is fresh and there is
    /// room for it, as the next command of the history. Then it is begun: the disk has it after the next call of `commit`.
    fn begin<L: Ledger>(
        &mut self,
        disk: &mut D,
        key: &Key,
        command: &Command,
        steps: &mut Steps<L>,
    ) -> Result<Reply, ActFault>
        requires command { IsCommand command.now }
        requires ready { ready self.old disk.old }
        ensures reply { IfOk result (IsReplyBy (history self.old) command.now
            (decided (history self.old) key.now command.now)) }
        ensures fault { IfErr result (IsFaultBy (decided (history self.old) key.now command.now)
            (D.faults disk.old) (D.faults disk.new)) }
        ensures after { OnOk result (history self.new ≡ after_decision (history self.old)
            (accepted key.now command.now) (decided (history self.old) key.now command.now)) }
        ensures kept { OnOk result (IsKeptBut (decided (history self.old) key.now command.now ≡ Fresh)
            (history self.old) (history self.new) (kept self.new)) }
        ensures same { OnErr result ((history self.new ≡ history self.old) × (kept self.new ≡ history self.old)) }
        // What a crash leaves, now and at each moment: the kept commands; after a fault of the disk perhaps this one too.
        ensures disk { result ≢ Err ActFault.DiskFault → OnDisk D.view disk.old disk.new
            (history self.old) (kept self.new) [] }
        ensures torn { result ≡ Err ActFault.DiskFault → OnDisk D.view disk.old disk.new
            (history self.old) (history self.old) (accepted key.now command.now ∷ []) }
        ensures running { result ≢ Err ActFault.DiskFault → running self.new disk.new }
        ensures failed { result ≡ Err ActFault.DiskFault → failed self.new }
        ensures faults { D.faults disk.old ≤ D.faults disk.new }
        ensures steps { steps.new ≤ steps.old
            + step_bound (history self.old).commands key.now command.now };

    /// Leaves no command begun: the disk has all of them then. The command that comes next may be given: what `begin` would
    /// write of it may then go to the disk with the same call, so that it needs none of its own.
    fn commit(&mut self, disk: &mut D, next: Option<(&Key, &Command)>) -> Result<(), Failed>
        requires next { IfSome next (λ c. IsCommand c.1.now) }
        requires running { running self.old disk.old }
        ensures history { history self.new ≡ history self.old }
        ensures same { OnErr result (kept self.new ≡ kept self.old) }
        ensures disk { OnOk result (OnDisk D.view disk.old disk.new (kept self.old) (history self.old) []) }
        ensures torn { OnErr result (IsTorn D.view disk.old disk.new (kept self.old) (history self.old)) }
        ensures ready { OnOk result (ready self.new disk.new) }
        ensures failed { OnErr result (failed self.new) }
        ensures cause { HasCause (D.faults disk.old) (D.faults disk.new) result };

    /// Answers a query.
    fn answer<L: Ledger>(&self, query: &Query, steps: &mut Steps<L>) -> Result<Answer, CoreFault>
        requires { IsQuery query.now }
        ensures asked { OnOk result (query_refusal (history self.now).commands query.now ≡ None) }
        ensures answer { IfOk result (λ a. answer_to (history self.now).commands query.now ≡ Some a) }
        ensures spelled { IfOk result IsSpellable }
        ensures refused { IfErr result (IsQueryFault (query_refusal (history self.now).commands query.now)) }
        ensures memory { IfErr result (λ f. f ≡ CoreFault.OutOfMemory → WantsMemory query.now) }
        ensures steps { steps.new ≤ steps.old + query_bound (world (history self.now).commands) query.now };

    /// Each image of a disk has the history.
    ghost keeps: { (m : Self) (d : D) → ready m d → Each (D.view d).images (HasHistory (history m)) };

    /// While it runs, each image has what it keeps; one that is ready runs, and keeps its history.
    ghost keeps_running: { (m : Self) (d : D) → running m d → Each (D.view d).images (HasHistory (kept m)) };

    ghost settled: { (m : Self) (d : D) → ready m d → running m d × (kept m ≡ history m) };
}
