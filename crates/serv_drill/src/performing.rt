//! Commands that are submitted twice in a row, with keys that count them.

ghost use Rattle.std.specs.Prelude.{◌≡◌, ◌+◌, ◌≤◌, ◌∷◌, [], IfOk, OnOk};
ghost use Rattle.svc_base.specs.Calendar.{IsReadDay};
ghost use Rattle.svc_types.specs.Requests.{IsCommand};
ghost use Rattle.serv_drill.specs.Machine.{after_works, cost_of_works, first_tally};
ghost use Rattle.serv_drill.specs.Works.{Do, TakeBack, payment};
ghost use Rattle.serv_drill.specs.Tallies.{tally};

use crate::desk::{Desk, MOST_COMMANDS};
use crate::keys::numbered_key;
use crate::payments::last_payment;
use crate::submitting::submit;
use std::alloc::Global;
use std::sync::ledger::Ledger;
use svc_base::{Day, OutOfMemory, Steps};
use svc_core::Core;
use svc_types::{Command, Designation};

/// The installment of each loan, in cents.
pub(crate) const INSTALLMENT: i64 = 119_910;

impl Desk {
    /// Books without a command.
    pub(crate) fn new(alloc: Global) -> Result<Desk, OutOfMemory>
        ensures tally { IfOk result (λ d. tally d ≡ first_tally) }
    {
        Ok(Desk {
            core: Core::new(alloc)?,
            made: 0,
            repeats: 0,
            remitted: 0,
        })
    }

    /// Makes a command and submits it twice.
    pub(crate) fn perform<L: Ledger>(
        &mut self,
        alloc: Global,
        command: &Command,
        steps: &mut Steps<L>,
    ) -> Result<(), OutOfMemory>
        requires command { IsCommand command.now }
        requires room { self.old.made + 1 ≤ MOST_COMMANDS }
        ensures after { OnOk result (tally self.new ≡ after_works (tally self.old) (Do command.now ∷ [])) }
        ensures made { self.new.made ≤ self.old.made + 1 }
        ensures steps { steps.new ≤ steps.old + cost_of_works (tally self.old) (Do command.now ∷ []) }
    {
        self.made += 1;
        let key = numbered_key(alloc, self.made)?;
        let first = submit(&mut self.core, &key, command, steps)?;
        let second = submit(&mut self.core, &key, command, steps)?;
        self.repeats += u32::from(first.kept) + u32::from(second.kept);
        self.remitted += i128::from(first.net);
        Ok(())
    }

    /// One installment of a loan, paid on a day.
    pub(crate) fn pay<L: Ledger>(
        &mut self,
        alloc: Global,
        loan: u32,
        day: Day,
        steps: &mut Steps<L>,
    ) -> Result<(), OutOfMemory>
        requires day { IsReadDay day }
        requires room { self.old.made + 1 ≤ MOST_COMMANDS }
        ensures after { OnOk result
            (tally self.new ≡ after_works (tally self.old) (Do (payment loan day) ∷ [])) }
        ensures made { self.new.made ≤ self.old.made + 1 }
        ensures steps { steps.new ≤ steps.old + cost_of_works (tally self.old) (Do (payment loan day) ∷ []) }
    {
        let command = Command::Pay(loan, day, INSTALLMENT, Designation::Regular);
        self.perform(alloc, &command, steps)
    }

    /// Takes back the last payment of a loan.
    pub(crate) fn take_back<L: Ledger>(
        &mut self,
        alloc: Global,
        loan: u32,
        steps: &mut Steps<L>,
    ) -> Result<(), OutOfMemory>
        requires room { self.old.made + 1 ≤ MOST_COMMANDS }
        ensures after { OnOk result (tally self.new ≡ after_works (tally self.old) (TakeBack loan ∷ [])) }
        ensures made { self.new.made ≤ self.old.made + 1 }
        ensures steps { steps.new ≤ steps.old + cost_of_works (tally self.old) (TakeBack loan ∷ []) }
    {
        let number = last_payment(&self.core, loan);
        let command = Command::Reverse { loan, number };
        self.perform(alloc, &command, steps)
    }
}
