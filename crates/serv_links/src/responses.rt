//! Responses to requests, in their order: the last one waits until the disk has the command behind it.

ghost use Rattle.std.specs.Prelude.{◌≡◌, ◌≢◌, ℕ, ◌+◌, ◌≤◌, ◌<◌, ◌^◌, ◌++◌, ◌∷◌, List, [], Option, Err, IfErr, IfSome, OnOk};
ghost use Rattle.svc_types.specs.Requests.{IsCommand};
ghost use Rattle.serv_disk.specs.Faults.{HasRisen};
ghost use Rattle.serv_http.specs.declared.ask.Ask as asks;
ghost use Rattle.serv_machine.specs.Answering.{AreReplies, IsStopped, Writes};
ghost use Rattle.serv_machine.specs.History.{Stand, running, stand};
ghost use Rattle.serv_machine.specs.OnDisk.{OnDisk, Upholds};
ghost use Rattle.serv_machine.specs.Sayings.{SaidFirst};
ghost use Rattle.serv_links.specs.Meanings.{IsAsk, Says};
ghost use Rattle.serv_links.specs.Outcomes.{AreGathered, ComeFirst};

use crate::meaning::{next_in, read_ask};
use serv_disk::{Disk, Sink};
use serv_http::Ask;
use serv_machine::{Machine, Replies, Stop};
use std::alloc::Global;
use std::sync::ledger::Ledger;
use svc_base::Steps;
use svc_types::{Command, Key};

/// The responses to the requests of a piece: how many requests were acted on, and the response to the last one,
/// where it waits. Where a call stops: how many responses are written whole.
#[derive(Drop)]
pub(crate) struct Responses {
    pub(crate) answered: u32,
    pub(crate) replies: Replies,
}

impl Responses {
    /// None yet.
    pub(crate) fn new(alloc: Global) -> Responses
        ensures answered { result.answered ≡ 0 }
        ensures waiting { result.replies.waiting ≡ 0 }
        ensures text { result.replies.text.items ≡ [] }
    {
        Responses {
            answered: 0,
            replies: Replies::new(alloc, 0),
        }
    }

    /// Writes the response that waits, and acts on a request. The record of its command goes to the disk with the end
    /// of the one before it.
    pub(crate) fn answer<D: Disk, M: Machine<D>, K: Sink, L: Ledger>(
        &mut self,
        alloc: Global,
        machine: &mut M,
        disk: &mut D,
        link: &mut K,
        ask: &Ask,
        steps: &mut Steps<L>,
    ) -> Result<(), Stop>
        requires ask { IsAsk ask.now }
        requires running { M.running machine.old disk.old }
        requires waiting { self.old.replies.waiting ≡ 0 }
        requires few { self.old.answered + 1 < 2 ^ 32 }
        ensures gathered { (done : List asks.Ask) (s : Stand) (held : Option (List ℕ))
            → AreGathered self.old.answered done s
            (running (M.history machine.old) (M.kept machine.old) steps.old) held (K.held link.old) self.old.replies.text.items
            → OnOk result (AreGathered self.new.answered (done ++ ask.now ∷ []) s
            (running (M.history machine.new) (M.kept machine.new) steps.new) held (K.held link.new) self.new.replies.text.items) }
        ensures stopped { (done : List asks.Ask) (s : Stand) (held : Option (List ℕ))
            → AreGathered self.old.answered done s
            (running (M.history machine.old) (M.kept machine.old) steps.old) held (K.held link.old) self.old.replies.text.items
            → IfErr result (λ why. Writes D.view disk.old disk.new
            (IsStopped why (ComeFirst self.new.answered (done ++ ask.now ∷ [])) 0 s
            (stand (M.kept machine.new) steps.new))
            (M.kept machine.old) (M.kept machine.new) held (K.held link.new)) }
        ensures upheld { (done : List asks.Ask) (s : Stand) (held : Option (List ℕ))
            → AreGathered self.old.answered done s
            (running (M.history machine.old) (M.kept machine.old) steps.old) held (K.held link.old) self.old.replies.text.items
            → Upholds (AreReplies (SaidFirst Says (done ++ ask.now ∷ [])) s.history) (D.view disk.new)
            (M.kept machine.new) held (K.log link.old) (K.log link.new) }
        ensures count { OnOk result (self.new.answered ≡ self.old.answered + 1) }
        ensures few { self.new.answered ≤ self.old.answered + 1 }
        ensures waiting { self.new.replies.waiting ≡ 0 }
        ensures disk { OnOk result (OnDisk D.view disk.old disk.new
            (M.kept machine.old) (M.kept machine.new) []) }
        ensures running { OnOk result (M.running machine.new disk.new) }
        ensures ready { IfErr result (λ why. why ≢ Stop.DiskFault → M.ready machine.new disk.new) }
        ensures broken { IfErr result (λ why. why ≡ Stop.WriteFault
            → HasRisen (K.faults link.old) (K.faults link.new)) }
        ensures failed { IfErr result (λ why. why ≡ Stop.DiskFault → M.failed machine.new) }
        ensures cause { IfErr result (λ why. why ≡ Stop.DiskFault
            → HasRisen (D.faults disk.old) (D.faults disk.new)) }
        ensures later { K.faults link.old ≤ K.faults link.new }
        ensures faults { D.faults disk.old ≤ D.faults disk.new }
        ensures beside { K.beside link.new ≡ K.beside link.old }
    {
        let read = read_ask(alloc, ask);
        match self.settle(next_in(&read), machine, disk, link) {
            Ok(()) => match &read {
                Ok(meaning) => match self.replies.answer(meaning, machine, disk, link, steps) {
                    Ok(()) => {
                        self.answered += 1;
                        Ok(())
                    }
                    Err(why) => Err(why),
                },
                Err(_) => Err(Stop::OutOfMemory),
            },
            Err(why) => Err(why),
        }
    }

    /// Leaves no command begun, and writes what waits. The command that comes next may be given, as to `commit`.
    pub(crate) fn settle<D: Disk, M: Machine<D>, K: Sink>(
        &mut self,
        next: Option<(&Key, &Command)>,
        machine: &mut M,
        disk: &mut D,
        link: &mut K,
    ) -> Result<(), Stop>
        requires next { IfSome next (λ c. IsCommand c.1.now) }
        requires running { M.running machine.old disk.old }
        requires waiting { self.old.replies.waiting ≡ 0 }
        ensures gathered { (done : List asks.Ask) (s : Stand) (steps : ℕ) (held : Option (List ℕ))
            → AreGathered self.old.answered done s
            (running (M.history machine.old) (M.kept machine.old) steps) held (K.held link.old) self.old.replies.text.items
            → OnOk result (AreGathered self.new.answered done s
            (running (M.history machine.new) (M.kept machine.new) steps) held (K.held link.new) self.new.replies.text.items) }
        ensures stopped { (done : List asks.Ask) (s : Stand) (steps : ℕ) (held : Option (List ℕ))
            → AreGathered self.old.answered done s
            (running (M.history machine.old) (M.kept machine.old) steps) held (K.held link.old) self.old.replies.text.items
            → IfErr result (λ why. Writes D.view disk.old disk.new
            (IsStopped why (ComeFirst self.new.answered done) 0 s (stand (M.kept machine.new) steps))
            (M.kept machine.old) (M.kept machine.new) held (K.held link.new)) }
        ensures upheld { (done : List asks.Ask) (s : Stand) (steps : ℕ) (held : Option (List ℕ))
            → AreGathered self.old.answered done s
            (running (M.history machine.old) (M.kept machine.old) steps) held (K.held link.old) self.old.replies.text.items
            → Upholds (AreReplies (SaidFirst Says done) s.history) (D.view disk.new)
            (M.kept machine.new) held (K.log link.old) (K.log link.new) }
        ensures empty { OnOk result (self.new.replies.text.items ≡ []) }
        ensures count { OnOk result (self.new.answered ≡ self.old.answered) }
        ensures few { self.new.answered ≤ self.old.answered }
        ensures waiting { self.new.replies.waiting ≡ 0 }
        ensures disk { OnOk result (OnDisk D.view disk.old disk.new
            (M.kept machine.old) (M.kept machine.new) []) }
        ensures ready { OnOk result (M.ready machine.new disk.new) }
        ensures ready_too { IfErr result (λ why. why ≢ Stop.DiskFault → M.ready machine.new disk.new) }
        ensures broken { IfErr result (λ why. why ≡ Stop.WriteFault
            → HasRisen (K.faults link.old) (K.faults link.new)) }
        ensures failed { IfErr result (λ why. why ≡ Stop.DiskFault → M.failed machine.new) }
        ensures cause { IfErr result (λ why. why ≡ Stop.DiskFault
            → HasRisen (D.faults disk.old) (D.faults disk.new)) }
        ensures later { K.faults link.old ≤ K.faults link.new }
        ensures faults { D.faults disk.old ≤ D.faults disk.new }
        ensures beside { K.beside link.new ≡ K.beside link.old }
    {
        match self.replies.let_go(next, 0, machine, disk, link) {
            Ok(()) => Ok(()),
            Err(why) => {
                // The last response is not written whole.
                self.answered = self.answered.saturating_sub(1);
                Err(why)
            }
        }
    }
}
