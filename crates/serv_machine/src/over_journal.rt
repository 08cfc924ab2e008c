//! Books over a journal.

ghost use Rattle.std.specs.Prelude.{◌≡◌};
ghost use Rattle.serv_machine.specs.History.{fault_of};

use crate::faults::ActFault;
use crate::frugal::Frugal;
use crate::machine::Machine;
use serv_disk::{Disk, Failed};
use serv_engine::{Engine, EngineFault};
use std::sync::ledger::Ledger;
use svc_base::Steps;
use svc_core::CoreFault;
use svc_types::{Command, Key, Query, Reply};
use svc_world::Answer;

/// Why an engine does not accept a command. It is open, so its journal is one and is not damaged.
fn act_fault(fault: EngineFault) -> ActFault
    ensures { result ≡ fault_of fault }
{
    match fault {
        EngineFault::Refused(why) => ActFault::Refused(why),
        EngineFault::JournalFull(bytes) => ActFault::Full(bytes),
        EngineFault::DiskFault => ActFault::DiskFault,
        EngineFault::OutOfMemory | EngineFault::NotJournal | EngineFault::Damaged(_) => {
            ActFault::OutOfMemory
        }
    }
}

impl<D: Disk, B: Frugal> Machine<D> for Engine<B> {
    ghost use Rattle.std.specs.Prelude.{◌≡◌, false, true};
    ghost use Rattle.serv_journal.specs.declared.format.Version.TheVariants.{Two};
    ghost use Rattle.serv_engine.specs.Engines.{IsDurable, IsRunning};
    ghost use Rattle.serv_machine.specs.History.{history_of, kept_history};
    ghost use Rattle.serv_engine.proofs.RunningLemmas.{durable_running};
    ghost use Rattle.serv_machine.specs.EngineLaws.{durable_kept, durable_whole, running_whole};

    ghost history = { history_of };

    ghost ready = { λ e d. (e.journal.spent ≡ false) × (e.journal.version ≡ Two) × IsDurable (D.view d).images e };

    ghost kept = { kept_history };

    ghost running = { λ e d. (e.journal.spent ≡ false) × (e.journal.version ≡ Two) × IsRunning (D.view d).images e };

    ghost failed = { λ e. e.journal.spent ≡ true };

    fn begin<L: Ledger>(
        &mut self,
        disk: &mut D,
        key: &Key,
        command: &Command,
        steps: &mut Steps<L>,
    ) -> Result<Reply, ActFault> {
        let _ = key.bytes();
        self.core().history_holds();
        match Engine::<B>::begin(self, disk, key, command, steps) {
            Ok(taken) => Ok(taken.reply()),
            Err(fault) => Err(act_fault(fault)),
        }
    }

    fn commit(&mut self, disk: &mut D, next: Option<(&Key, &Command)>) -> Result<(), Failed> {
        self.core().history_holds();
        match Engine::<B>::commit(self, disk, next) {
            Ok(()) => Ok(()),
            Err(fault) => Err(fault),
        }
    }

    fn answer<L: Ledger>(&self, query: &Query, steps: &mut Steps<L>) -> Result<Answer, CoreFault> {
        let core = self.core();
        core.history_holds();
        core.ask(query, steps)
    }

    ghost keeps = { λ e d is. durable_whole (D.view d).images e is.1 is.2 };

    ghost keeps_running = { λ e d is. running_whole (D.view d).images e is.1 is.2 };

    ghost settled = { λ e d is. ((is.0, is.1, durable_running (D.view d).images e is.2), durable_kept (D.view d).images e is.2) };
}
