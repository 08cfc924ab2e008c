//! Books in memory.

use crate::faults::ActFault;
use crate::machine::Machine;
use crate::nowhere::Nowhere;
use serv_disk::Failed;
use std::sync::ledger::Ledger;
use svc_base::Steps;
use svc_checkpoint::Checked;
use svc_core::{Core, CoreFault};
use svc_types::{Command, Key, Query, Reply};
use svc_world::Answer;

impl Machine<Nowhere> for Core<Checked> {
    ghost use Rattle.std.specs.Prelude.{refl};
    ghost use Rattle.serv_machine.specs.History.{Memory};

    ghost history = { λ c. record { commands = c.history; store = Memory } };

    ghost ready = { λ _ _. Unit {0} };

    ghost kept = { λ c. record { commands = c.history; store = Memory } };

    ghost running = { λ _ _. Unit {0} };

    ghost failed = { λ _. ⊥ };

    fn begin<L: Ledger>(
        &mut self,
        _: &mut Nowhere,
        key: &Key,
        command: &Command,
        steps: &mut Steps<L>,
    ) -> Result<Reply, ActFault> {
        let _ = key.bytes();
        match self.submit(key, command, steps) {
            Ok(reply) => Ok(reply),
            Err(CoreFault::Refused(why)) => Err(ActFault::Refused(why)),
            Err(CoreFault::OutOfMemory) => Err(ActFault::OutOfMemory),
        }
    }

    fn commit(&mut self, _: &mut Nowhere, _: Option<(&Key, &Command)>) -> Result<(), Failed> {
        Ok(())
    }

    fn answer<L: Ledger>(&self, query: &Query, steps: &mut Steps<L>) -> Result<Answer, CoreFault> {
        self.history_holds();
        self.ask(query, steps)
    }

    ghost keeps = { λ m d is c image. absurd image };

    ghost keeps_running = { λ m d is c image. absurd image };

    ghost settled = { λ m d is. (tt, refl) };
}
