//! Replies that are not written yet, and the command behind the last of them.

ghost use Rattle.std.specs.Prelude.{◌≡◌, ◌≢◌, ℕ, ◌+◌, ◌≤◌, ◌++◌, List, [], ◌∷◌, Option, Some, Err, IfErr, IfSome, OnErr, OnOk, length};
ghost use Rattle.svc_types.specs.Requests.{IsCommand};
ghost use Rattle.serv_disk.specs.Faults.{AppendsPart, HasCause, HasRisen};
ghost use Rattle.serv_disk.specs.Stamps.{Notes};
ghost use Rattle.serv_machine.specs.Answering.{AreReplies, Gathered, HasNone, IsReplied, IsStopped, IsWrittenBut, Leaves, Writes};
ghost use Rattle.serv_machine.specs.History.{Stand, running, stand};
ghost use Rattle.serv_machine.specs.OnDisk.{OnDisk, Upholds};
ghost use Rattle.serv_machine.specs.Sayings.{AreFirst, Saying};

use crate::faults::{Halt, Stop};
use crate::machine::Machine;
use crate::spoken::Spoken;
use serv_disk::{Disk, Failed, Sink, write_beside};
use std::alloc::Global;
use std::sync::ledger::Ledger;
use svc_base::Steps;
use svc_types::{Command, Key};

/// The replies that are not written yet. The command of the last one may be begun; of all others at most
/// `waiting` bytes wait.
#[derive(Drop)]
pub struct Replies {
    pub text: Vec<u8>,
    pub waiting: usize,
}

impl Replies {
    /// None yet.
    pub fn new(alloc: Global, waiting: usize) -> Replies
        ensures text { result.text.items ≡ [] }
        ensures waiting { result.waiting ≡ waiting }
    {
        Replies {
            text: Vec::new(alloc),
            waiting,
        }
    }

    /// Acts on what is said. Before that, what is begun is committed, and the replies so far are written, unless they
    /// may wait. Its own reply is written by a later call; where it has none, all others are, as far as the sink takes
    /// them.
    pub fn act<S: Spoken, D: Disk, M: Machine<D>, K: Sink, L: Ledger>(
        &mut self,
        said: &S,
        machine: &mut M,
        disk: &mut D,
        snk: &mut K,
        steps: &mut Steps<L>,
    ) -> Result<(), Stop>
        requires formed { S.formed said.now }
        requires running { M.running machine.old disk.old }
        ensures gathered { (before : List Saying) (s : Stand) (held : Option (List ℕ))
            → Gathered self.old.waiting before s
            (running (M.history machine.old) (M.kept machine.old) steps.old) held (K.held snk.old)
            self.old.text.items
            → OnOk result (Gathered self.old.waiting (before ++ S.saying said.now ∷ []) s
            (running (M.history machine.new) (M.kept machine.new) steps.new) held (K.held snk.new)
            self.new.text.items) }
        ensures stopped { (before : List Saying) (s : Stand) (held : Option (List ℕ))
            → Gathered self.old.waiting before s
            (running (M.history machine.old) (M.kept machine.old) steps.old) held (K.held snk.old)
            self.old.text.items
            → IfErr result (λ why. Writes D.view disk.old disk.new
            (IsStopped why (AreFirst (λ saids. saids ≡ before ++ S.saying said.now ∷ [])) self.old.waiting s
            (stand (M.kept machine.new) steps.new))
            (M.kept machine.old) (M.kept machine.new) held (K.held snk.new)) }
        // Each write of this call is upheld.
        ensures upheld { (before : List Saying) (s : Stand) (held : Option (List ℕ))
            → Gathered self.old.waiting before s
            (running (M.history machine.old) (M.kept machine.old) steps.old) held (K.held snk.old)
            self.old.text.items
            → Upholds (AreReplies (λ saids. saids ≡ before ++ S.saying said.now ∷ []) s.history)
            (D.view disk.new) (M.kept machine.new) held (K.log snk.old) (K.log snk.new) }
        ensures disk { OnOk result (OnDisk D.view disk.old disk.new
            (M.kept machine.old) (M.kept machine.new) []) }
        ensures running { OnOk result (M.running machine.new disk.new) }
        ensures waiting { self.new.waiting ≡ self.old.waiting }
        ensures later { K.faults snk.old ≤ K.faults snk.new }
        ensures cause { result ≡ Err Stop.WriteFault → HasRisen (K.faults snk.old) (K.faults snk.new) }
        ensures disk_later { D.faults disk.old ≤ D.faults disk.new }
        ensures disk_cause { result ≡ Err Stop.DiskFault → HasRisen (D.faults disk.old) (D.faults disk.new) }
    {
        match self.let_go(said.command(), self.waiting, machine, disk, snk) {
            Ok(()) => self.answer(said, machine, disk, snk, steps),
            Err(stop) => Err(stop),
        }
    }

    /// Commits what is begun, and writes the replies where they are more than so many bytes. The command that comes
    /// next may be given. It stops at the last of what was said.
    pub fn let_go<D: Disk, M: Machine<D>, K: Sink>(
        &mut self,
        next: Option<(&Key, &Command)>,
        most: usize,
        machine: &mut M,
        disk: &mut D,
        snk: &mut K,
    ) -> Result<(), Stop>
        requires next { IfSome next (λ c. IsCommand c.1.now) }
        requires running { M.running machine.old disk.old }
        ensures gathered { (said : List Saying) (s : Stand) (steps : ℕ) (held : Option (List ℕ))
            → Gathered self.old.waiting said s (running (M.history machine.old) (M.kept machine.old) steps)
            held (K.held snk.old) self.old.text.items
            → OnOk result (Gathered self.old.waiting said s
            (running (M.history machine.new) (M.kept machine.new) steps) held (K.held snk.new)
            self.new.text.items) }
        ensures stopped { (said : List Saying) (s : Stand) (steps : ℕ) (held : Option (List ℕ))
            → Gathered self.old.waiting said s (running (M.history machine.old) (M.kept machine.old) steps)
            held (K.held snk.old) self.old.text.items
            → IfErr result (λ why. Writes D.view disk.old disk.new
            (IsStopped why (λ done ahead. said ≡ done ++ ahead) self.old.waiting s
            (stand (M.kept machine.new) steps))
            (M.kept machine.old) (M.kept machine.new) held (K.held snk.new)) }
        ensures upheld { (said : List Saying) (s : Stand) (steps : ℕ) (held : Option (List ℕ))
            → Gathered self.old.waiting said s (running (M.history machine.old) (M.kept machine.old) steps)
            held (K.held snk.old) self.old.text.items
            → Upholds (AreReplies (λ saids. saids ≡ said) s.history) (D.view disk.new)
            (M.kept machine.new) held (K.log snk.old) (K.log snk.new) }
        ensures few { OnOk result (length self.new.text.items ≤ most) }
        ensures disk { OnOk result (OnDisk D.view disk.old disk.new
            (M.kept machine.old) (M.kept machine.new) []) }
        ensures settled { OnOk result (M.ready machine.new disk.new) }
        ensures ready { result ≢ Err Stop.DiskFault → M.ready machine.new disk.new }
        ensures failed { result ≡ Err Stop.DiskFault → M.failed machine.new }
        ensures memory { result ≢ Err Stop.OutOfMemory }
        ensures waiting { self.new.waiting ≡ self.old.waiting }
        ensures later { K.faults snk.old ≤ K.faults snk.new }
        ensures cause { result ≡ Err Stop.WriteFault → HasRisen (K.faults snk.old) (K.faults snk.new) }
        ensures disk_later { D.faults disk.old ≤ D.faults disk.new }
        ensures disk_cause { result ≡ Err Stop.DiskFault → HasRisen (D.faults disk.old) (D.faults disk.new) }
        ensures beside { K.beside snk.new ≡ K.beside snk.old }
    {
        match machine.commit(disk, next) {
            Ok(()) => match self.write_over(most, disk, snk) {
                Ok(()) => Ok(()),
                Err(_) => Err(Stop::WriteFault),
            },
            Err(_) => Err(Stop::DiskFault),
        }
    }

    /// Acts on what is said, and adds its reply; a fresh command is begun. Where it has no reply, no command is left
    /// begun, and the replies to all before it are written, as far as the sink takes them.
    pub fn answer<S: Spoken, D: Disk, M: Machine<D>, K: Sink, L: Ledger>(
        &mut self,
        said: &S,
        machine: &mut M,
        disk: &mut D,
        snk: &mut K,
        steps: &mut Steps<L>,
    ) -> Result<(), Stop>
        requires formed { S.formed said.now }
        requires ready { M.ready machine.old disk.old }
        requires few { length self.old.text.items ≤ self.old.waiting }
        ensures gathered { (before : List Saying) (s : Stand) (held : Option (List ℕ))
            → Gathered self.old.waiting before s
            (running (M.history machine.old) (M.kept machine.old) steps.old) held (K.held snk.old)
            self.old.text.items
            → OnOk result (Gathered self.old.waiting (before ++ S.saying said.now ∷ []) s
            (running (M.history machine.new) (M.kept machine.new) steps.new) held (K.held snk.new)
            self.new.text.items) }
        ensures stopped { (before : List Saying) (s : Stand) (held : Option (List ℕ))
            → Gathered self.old.waiting before s
            (running (M.history machine.old) (M.kept machine.old) steps.old) held (K.held snk.old)
            self.old.text.items
            → IfErr result (λ why. Writes D.view disk.old disk.new
            (IsStopped why (λ done ahead. (done ≡ before) × (ahead ≡ S.saying said.now ∷ [])) self.old.waiting s
            (stand (M.kept machine.new) steps.new))
            (M.kept machine.old) (M.kept machine.new) held (K.held snk.new)) }
        ensures upheld { (before : List Saying) (s : Stand) (held : Option (List ℕ))
            → Gathered self.old.waiting before s
            (running (M.history machine.old) (M.kept machine.old) steps.old) held (K.held snk.old)
            self.old.text.items
            → Upholds (AreReplies (λ saids. saids ≡ before) s.history) (D.view disk.new)
            (M.kept machine.new) held (K.log snk.old) (K.log snk.new) }
        ensures disk { OnOk result (OnDisk D.view disk.old disk.new
            (M.kept machine.old) (M.kept machine.new) []) }
        ensures running { OnOk result (M.running machine.new disk.new) }
        ensures ready { result ≡ Err Stop.OutOfMemory → M.ready machine.new disk.new }
        ensures failed { result ≡ Err Stop.DiskFault → M.failed machine.new }
        ensures taken { result ≢ Err Stop.WriteFault }
        ensures waiting { self.new.waiting ≡ self.old.waiting }
        ensures later { K.faults snk.old ≤ K.faults snk.new }
        ensures disk_later { D.faults disk.old ≤ D.faults disk.new }
        ensures disk_cause { result ≡ Err Stop.DiskFault → HasRisen (D.faults disk.old) (D.faults disk.new) }
        ensures beside { K.beside snk.new ≡ K.beside snk.old }
    {
        match self.add(said, machine, disk, steps) {
            Ok(()) => Ok(()),
            Err(stop) => {
                let _ = self.write_all(disk, snk);
                Err(stop)
            }
        }
    }

    /// Acts on what is said, and adds its reply. Where it has none nothing is added, and no command is left begun.
    fn add<S: Spoken, D: Disk, M: Machine<D>, L: Ledger>(
        &mut self,
        said: &S,
        machine: &mut M,
        disk: &mut D,
        steps: &mut Steps<L>,
    ) -> Result<(), Stop>
        requires formed { S.formed said.now }
        requires ready { M.ready machine.old disk.old }
        ensures replied { OnOk result (IsReplied (S.saying said.now)
            (running (M.history machine.old) (M.kept machine.old) steps.old)
            (running (M.history machine.new) (M.kept machine.new) steps.new)
            self.old.text.items self.new.text.items) }
        ensures none { IfErr result (λ why. Leaves D.view disk.old disk.new
            (HasNone why (S.saying said.now) (stand (M.history machine.old) steps.old)
            (stand (M.kept machine.new) steps.new)) (M.history machine.old) (M.kept machine.new)) }
        ensures same { OnErr result (self.new.text.items ≡ self.old.text.items) }
        ensures disk { OnOk result (OnDisk D.view disk.old disk.new
            (M.history machine.old) (M.kept machine.new) []) }
        ensures running { OnOk result (M.running machine.new disk.new) }
        ensures ready { result ≡ Err Stop.OutOfMemory → M.ready machine.new disk.new }
        ensures failed { result ≡ Err Stop.DiskFault → M.failed machine.new }
        ensures taken { result ≢ Err Stop.WriteFault }
        ensures waiting { self.new.waiting ≡ self.old.waiting }
        ensures faults { D.faults disk.old ≤ D.faults disk.new }
        ensures cause { result ≡ Err Stop.DiskFault → HasRisen (D.faults disk.old) (D.faults disk.new) }
    {
        match said.answer(machine, disk, &mut self.text, steps) {
            Ok(()) => Ok(()),
            Err(Halt::DiskFault) => Err(Stop::DiskFault),
            // A command may be begun.
            Err(Halt::OutOfMemory) => match machine.commit(disk, None) {
                Ok(()) => Err(Stop::OutOfMemory),
                Err(_) => Err(Stop::DiskFault),
            },
        }
    }

    /// Writes all where they are more than so many bytes.
    fn write_over<D: Disk, K: Sink>(
        &mut self,
        most: usize,
        disk: &D,
        snk: &mut K,
    ) -> Result<(), Failed>
        ensures written { OnOk result (IsWrittenBut (K.held snk.old) (K.held snk.new)
            self.old.text.items self.new.text.items) }
        ensures few { OnOk result (length self.new.text.items ≤ most) }
        ensures part { OnErr result (AppendsPart (K.held snk.old) (K.held snk.new) self.old.text.items) }
        ensures noted { (s : List ℕ) → K.held snk.old ≡ Some s → Notes (D.view disk.now).moment
            (length s + length self.old.text.items) (K.log snk.old) (K.log snk.new) }
        ensures waiting { self.new.waiting ≡ self.old.waiting }
        ensures cause { HasCause (K.faults snk.old) (K.faults snk.new) result }
        ensures beside { K.beside snk.new ≡ K.beside snk.old }
    {
        if self.text.len() <= most {
            return Ok(());
        }
        self.write_all(disk, snk)
    }

    /// Writes all. It counts from this moment of the disk on.
    fn write_all<D: Disk, K: Sink>(&mut self, disk: &D, snk: &mut K) -> Result<(), Failed>
        ensures written { OnOk result (IsWrittenBut (K.held snk.old) (K.held snk.new)
            self.old.text.items self.new.text.items) }
        ensures empty { OnOk result (self.new.text.items ≡ []) }
        ensures part { OnErr result (AppendsPart (K.held snk.old) (K.held snk.new) self.old.text.items) }
        ensures front { (left : List ℕ) × IsWrittenBut (K.held snk.old) (K.held snk.new) self.old.text.items left }
        ensures noted { (s : List ℕ) → K.held snk.old ≡ Some s → Notes (D.view disk.now).moment
            (length s + length self.old.text.items) (K.log snk.old) (K.log snk.new) }
        ensures waiting { self.new.waiting ≡ self.old.waiting }
        ensures cause { HasCause (K.faults snk.old) (K.faults snk.new) result }
        ensures beside { K.beside snk.new ≡ K.beside snk.old }
    {
        match write_beside(snk, disk, &self.text) {
            Ok(()) => {
                self.text.clear();
                Ok(())
            }
            Err(fault) => Err(fault),
        }
    }
}
