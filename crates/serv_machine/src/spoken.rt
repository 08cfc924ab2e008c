//! Something that is said to a machine.

ghost use Rattle.std.specs.Prelude.{◌≡◌, ◌≢◌, ◌+◌, ◌≤◌, ◌++◌, [], Err, IfSome, OnErr, OnOk};
ghost use Rattle.svc_types.specs.Requests.{IsCommand};
ghost use Rattle.serv_disk.specs.Faults.{HasRisen};
ghost use Rattle.serv_machine.specs.History.{IsKeptBut, IsNear};
ghost use Rattle.serv_machine.specs.OnDisk.{OnDisk};
ghost use Rattle.serv_machine.specs.Sayings.{Saying, IsFresh, bound_of, commands_of, history_after, reply_to};

use crate::faults::Halt;
use crate::machine::Machine;
use serv_disk::Disk;
use std::sync::ledger::Ledger;
use svc_base::Steps;
use svc_types::{Command, Key};

/// Something that is said to a machine, and is replied to: a line, a row of a file, a request of a connection.
pub trait Spoken {
    /// What it asks, and the text of its reply.
    ghost saying: { Self → Saying };

    /// It is of a form that can be asked.
    ghost formed: { Self → Type 0 };

    /// The command that it brings, with its key.
    fn command(&self) -> Option<(&Key, &Command)>
        requires { formed self.now }
        ensures { IfSome result (λ c. IsCommand c.1.now) };

    /// Acts on it, and appends its reply; a fresh command is begun. Where it halts nothing is appended; for want of memory
    /// a command may be begun, or accepted, all the same.
    fn answer<D: Disk, M: Machine<D>, L: Ledger>(
        &self,
        machine: &mut M,
        disk: &mut D,
        out: &mut Vec<u8>,
        steps: &mut Steps<L>,
    ) -> Result<(), Halt>
        requires formed { formed self.now }
        requires ready { M.ready machine.old disk.old }
        ensures reply { OnOk result
            (out.new.items ≡ out.old.items ++ reply_to (M.history machine.old) (saying self.now)) }
        ensures same { OnErr result (out.new.items ≡ out.old.items) }
        ensures history { OnOk result
            (M.history machine.new ≡ history_after (M.history machine.old) (saying self.now)) }
        ensures near { IsNear (M.history machine.old) (history_after (M.history machine.old) (saying self.now))
            (M.history machine.new) }
        ensures kept { result ≢ Err Halt.DiskFault → IsKeptBut (IsFresh (M.history machine.old) (saying self.now))
            (M.history machine.old) (M.history machine.new) (M.kept machine.new) }
        ensures stopped { result ≡ Err Halt.DiskFault → (M.kept machine.new ≡ M.history machine.old)
            × HasRisen (D.faults disk.old) (D.faults disk.new) }
        ensures appending { result ≡ Err Halt.DiskFault → IsFresh (M.history machine.old) (saying self.now) }
        ensures disk { result ≢ Err Halt.DiskFault → OnDisk D.view disk.old disk.new
            (M.history machine.old) (M.kept machine.new) [] }
        ensures torn { result ≡ Err Halt.DiskFault → OnDisk D.view disk.old disk.new
            (M.history machine.old) (M.history machine.old) (commands_of (saying self.now)) }
        ensures running { result ≢ Err Halt.DiskFault → M.running machine.new disk.new }
        ensures failed { result ≡ Err Halt.DiskFault → M.failed machine.new }
        ensures faults { D.faults disk.old ≤ D.faults disk.new }
        ensures steps { steps.new ≤ steps.old + bound_of (M.history machine.old) (saying self.now) };
}
