//! The engine: it submits commands and answers queries, and keeps the history on a disk.

ghost use Rattle.std.specs.Prelude.{◌≡◌, ◌⊎◌, ◌↔◌, ◌+◌, ◌^◌, ◌≤◌, ◌∷◌, ◌++◌, ℕ, List, [], length, true, false, None, Some, IfOk, IfErr, OnOk, OnErr, IsOk, IsErr, IsErrOf, IfSome};
ghost use Rattle.svc_types.specs.Requests.{IsCommand, IsQuery};
ghost use Rattle.svc_spec.specs.Accounts.{Account};
ghost use Rattle.svc_spec.specs.Months.{cost_of_month};
ghost use Rattle.svc_world.specs.World.{Accepted, accepted, world};
ghost use Rattle.svc_world.specs.Judging.{Judgement, judged, history_after, IsHistory};
ghost use Rattle.svc_world.specs.Answers.{answer_to, query_refusal};
ghost use Rattle.svc_world.specs.Custody.{rows_in};
ghost use Rattle.svc_core.specs.Bound.{step_bound, query_bound};
ghost use Rattle.svc_core.specs.Core.{IsReplyTo};
ghost use Rattle.svc_core.specs.Asking.{WantsMemory};
ghost use Rattle.serv_disk.specs.Faults.{HasCause};
ghost use Rattle.serv_disk.specs.Disks.{Each, LeavesOnly};
ghost use Rattle.serv_journal.specs.Format.{Form};
ghost use Rattle.serv_journal.specs.Reading.{IsNoJournal};
ghost use Rattle.serv_engine.specs.Histories.{lengths_of, IsGoodFor, IsAroundFor, IsGoodFound};
ghost use Rattle.serv_engine.specs.Engines.{IsDurableIn, IsDurable, IsRunningIn, IsRunning, kept_of, begun_of, reply_of, WasTaken};
ghost use Rattle.serv_engine.specs.Submitting.{HasRoom, IsSubmitFault, IsAskFault};
ghost use Rattle.serv_engine.specs.Entering.{risked, kept_after, begun_after};
ghost use Rattle.serv_engine.specs.Opening.{IsDamagedAt, IsTooLong, IsFound, IsClosed, IsOnlyFault, IsOpenFault, IsOpenCause, IsFoundWithin, history_bound};

use crate::adding::{line_of_next, put_command};
use crate::fault::{EngineFault, of_core, of_journal};
use crate::opening::take_over;
use crate::taken::Taken;
use crate::until::Until;
use serv_disk::{Disk, Failed};
use serv_journal::{Journal, Version};
use std::alloc::Global;
use std::marker::Model;
use std::sync::ledger::Ledger;
use svc_base::Steps;
use svc_core::{Core, Verdict};
use svc_replay::LoanBooks;
use svc_types::{Command, Key, Query, Reply};
use svc_world::Answer;

/// The books of a servicer over a journal. It stands for the accepted commands with their keys; the disk
/// is handed to each call that uses it.
#[derive(Drop)]
pub struct Engine<B: LoanBooks> {
    alloc: Global,
    core: Core<B>,
    journal: Journal,
}

impl<B: LoanBooks> Model for Engine<B> {
    ghost use Rattle.std.specs.Prelude.{◌≡◌};
    ghost use Rattle.serv_journal.specs.declared.format.Version.TheVariants.{Two};
    ghost use Rattle.serv_engine.specs.Engines.{EngineState};

    ghost Value = { EngineState };

    ghost view = { λ e. record { history = e.core.history; journal = e.journal } };

    ghost invariant = { λ e. e.journal.version ≡ Two };
}

impl<B: LoanBooks> Engine<B> {
    /// Opens the journal of a disk: each of its commands is accepted, one after another. A commit byte
    /// after them that is not 0 is set to 0, and then a journal of version 1 is written anew in version 2.
    pub fn open<D: Disk, L: Ledger>(
        alloc: Global,
        disk: &mut D,
        limit: u64,
        steps: &mut Steps<L>,
    ) -> Result<Engine<B>, EngineFault>
        requires { limit ≤ 2 ^ 32 }
        // The history is that of the file, with its journal's length, and each image of the disk has it.
        ensures found { IfOk result (λ e. (s : List ℕ) → (D.view disk.old).seen ≡ Some s
            → IsFound limit e.journal.size e.history s) }
        ensures history { IfOk result (λ e. IsHistory e.history) }
        ensures durable { IfOk result (λ e. IsDurable (D.view disk.new).images e) }
        ensures fresh { IfOk result (λ e. (e.journal.limit ≡ limit) × (e.journal.spent ≡ false)) }
        ensures version { IfOk result (λ e. e.journal.version ≡ Version.Two) }
        // A crash at any moment leaves a disk that was good for a history and a command as good, and the
        // engine has that history, or that and the command.
        ensures moments { (s : List ℕ) → (D.view disk.old).seen ≡ Some s → (h : List Accepted) (a : Accepted)
            → IsHistory (h ++ a ∷ []) → Each (D.view disk.old).images (IsGoodFound h a)
            → LeavesOnly D.view disk.old disk.new (IsGoodFound h a) }
        ensures either { (s : List ℕ) → (D.view disk.old).seen ≡ Some s → (h : List Accepted) (a : Accepted)
            → IsHistory (h ++ a ∷ []) → Each (D.view disk.old).images (IsGoodFound h a)
            → IfOk result (λ e. (e.history ≡ h) ⊎ (e.history ≡ h ++ a ∷ [])) }
        // Each fault comes exactly by its cause.
        ensures fault { IfErr result (λ f. (s : List ℕ) → (D.view disk.old).seen ≡ Some s
            → IsOpenFault limit s (D.faults disk.old) (D.faults disk.new) f) }
        ensures cause { IfErr result (IsOpenCause (D.faults disk.old) (D.faults disk.new)) }
        ensures exactly_not_journal { (s : List ℕ) → (D.view disk.old).seen ≡ Some s → IsNoJournal s
            → IsOnlyFault EngineFault.NotJournal (D.faults disk.old) (D.faults disk.new) result }
        ensures exactly_damaged { (s : List ℕ) (place : ℕ)
            → (D.view disk.old).seen ≡ Some s → IsDamagedAt place s
            → IsOnlyFault (EngineFault.Damaged place) (D.faults disk.old) (D.faults disk.new) result }
        ensures exactly_full { (s : List ℕ) (bytes : ℕ)
            → (D.view disk.old).seen ≡ Some s → IsTooLong limit bytes s
            → IsOnlyFault (EngineFault.JournalFull bytes) (D.faults disk.old) (D.faults disk.new) result }
        // Another fault than the disk's leaves what reads give, but for the closed commit byte.
        ensures kept { IfErr result
            (λ f. (f ≡ EngineFault.DiskFault) ⊎ (((D.view disk.new).seen ≡ (D.view disk.old).seen)
            ⊎ ((s : List ℕ) → (D.view disk.old).seen ≡ Some s → IsClosed s (D.view disk.new).seen))) }
        ensures faults { D.faults disk.old ≤ D.faults disk.new }
        ensures bound { ((a : Account) (m : ℕ) → B.cost a m ≤ cost_of_month a m)
            → ((a : Account) (m : ℕ) → B.month_cost a m ≡ 0)
            → IfOk result (λ e. steps.new ≤ steps.old + history_bound [] e.history) }
        // At a fault there was no step, or those of the commands before it and of the one that it comes with.
        ensures bound_err { ((a : Account) (m : ℕ) → B.cost a m ≤ cost_of_month a m)
            → ((a : Account) (m : ℕ) → B.month_cost a m ≡ 0)
            → OnErr result ((steps.new ≡ steps.old)
            ⊎ IsFoundWithin (D.view disk.old).seen steps.old steps.new) }
    {
        match Journal::open(alloc, disk, limit) {
            Ok((mut journal, frames)) => match take_over(
                alloc,
                &mut journal,
                disk,
                &frames,
                steps,
            ) {
                Ok(core) => Ok(Engine {
                    alloc,
                    core,
                    journal,
                }),
                Err(fault) => Err(fault),
            },
            Err(fault) => Err(of_journal(fault)),
        }
    }

    /// Answers a command: the reply that was kept for its key, the first rule that refuses it, or, where it
    /// is fresh and the journal has room for it, the reply to it as the next command of the history, once it
    /// is in the journal. All memory is taken before the first write.
    pub fn submit<D: Disk, L: Ledger>(
        &mut self,
        disk: &mut D,
        key: &Key,
        command: &Command,
        steps: &mut Steps<L>,
    ) -> Result<Reply, EngineFault>
        requires command { IsCommand command.now }
        requires unspent { self.old.journal.spent ≡ false }
        requires durable { IsDurable (D.view disk.old).images self.old }
        ensures reply { IfOk result
            (IsReplyTo self.old.history command.now (judged self.old.history key.now command.now)) }
        ensures history { OnOk result (self.new.history ≡ history_after self.old.history key.now command.now
            (judged self.old.history key.now command.now)) }
        // A kept reply changes nothing; after another one each image of the disk has the command.
        ensures repeated { OnOk result ((reply : Reply) → judged self.old.history key.now command.now
            ≡ Judgement.Kept reply → (self.new ≡ self.old) × (disk.new ≡ disk.old)) }
        ensures durable { OnOk result (IsDurable (D.view disk.new).images self.new) }
        ensures durable_in { (form : Form) → IsDurableIn form (D.view disk.old).images self.old
            → OnOk result (IsDurableIn form (D.view disk.new).images self.new) }
        // A crash at any moment leaves the history, with the command or without, or torn with it.
        ensures moments { (form : Form) → IsDurableIn form (D.view disk.old).images self.old
            → LeavesOnly D.view disk.old disk.new
            (IsGoodFor form self.old.history (accepted key.now command.now)) }
        ensures good { (form : Form) → IsDurableIn form (D.view disk.old).images self.old
            → Each (D.view disk.new).images (IsGoodFor form self.old.history (accepted key.now command.now)) }
        // `Refused` comes exactly where a rule refuses, `JournalFull` where a fresh command has no room;
        // only a fresh one can want memory.
        ensures fault { IfErr result (IsSubmitFault (judged self.old.history key.now command.now)
            self.old.journal (accepted key.now command.now) (D.faults disk.old) (D.faults disk.new)) }
        ensures room { OnOk result (judged self.old.history key.now command.now ≡ Judgement.Fresh
            → HasRoom self.old.journal (accepted key.now command.now)) }
        // Another fault than the disk's changes nothing; after the disk's the history is as it was.
        ensures kept { IfErr result (λ f. (f ≡ EngineFault.DiskFault)
            ⊎ ((self.new ≡ self.old) × (disk.new ≡ disk.old))) }
        ensures err { OnErr result (self.new.history ≡ self.old.history) }
        ensures spent { IsErrOf result EngineFault.DiskFault ↔ (self.new.journal.spent ≡ true) }
        ensures faults { D.faults disk.old ≤ D.faults disk.new }
        ensures size { OnErr result (self.new.journal.size ≡ self.old.journal.size) }
        ensures limit { self.new.journal.limit ≡ self.old.journal.limit }
        ensures version { self.new.journal.version ≡ Version.Two }
        // A command more takes its line's bytes and seven.
        ensures length { (base : ℕ) → self.old.journal.size ≡ base + lengths_of self.old.history
            → OnOk result (self.new.journal.size ≡ base + lengths_of self.new.history) }
        ensures bound { ((a : Account) (m : ℕ) → B.cost a m ≤ cost_of_month a m)
            → ((a : Account) (m : ℕ) → B.month_cost a m ≡ 0)
            → steps.new ≤ steps.old + step_bound self.old.history key.now command.now }
    {
        match self.enter(disk, key, command, Until::Kept, steps) {
            Ok(taken) => Ok(taken.reply()),
            Err(fault) => Err(fault),
        }
    }

    /// Takes a command as `submit` does, but does not wait until the disk has it: the next call of `begin` or `commit` puts
    /// it there with its own sync. So after Ok the disk has all commands before this one.
    pub fn begin<D: Disk, L: Ledger>(
        &mut self,
        disk: &mut D,
        key: &Key,
        command: &Command,
        steps: &mut Steps<L>,
    ) -> Result<Taken, EngineFault>
        requires command { IsCommand command.now }
        requires unspent { self.old.journal.spent ≡ false }
        requires running { IsRunning (D.view disk.old).images self.old }
        ensures reply { IfOk result (λ taken. IsReplyTo self.old.history command.now
            (judged self.old.history key.now command.now) (reply_of taken)) }
        ensures history { OnOk result (self.new.history ≡ history_after self.old.history key.now command.now
            (judged self.old.history key.now command.now)) }
        // A kept reply changes nothing; after another one the disk keeps all commands before this one.
        ensures taken { IfOk result (λ taken. WasTaken (judged self.old.history key.now command.now) taken
            ((self.new ≡ self.old) × (disk.new ≡ disk.old))
            ((kept_of self.new ≡ self.old.history) × (begun_of self.new ≡ accepted key.now command.now ∷ []))) }
        ensures running { OnOk result (IsRunning (D.view disk.new).images self.new) }
        ensures running_in { (form : Form) → IsRunningIn form (D.view disk.old).images self.old
            → OnOk result (IsRunningIn form (D.view disk.new).images self.new) }
        // A crash at any moment leaves what was kept, with the command that was begun before or without, or torn
        // with it.
        ensures moments { (form : Form) → IsRunningIn form (D.view disk.old).images self.old
            → LeavesOnly D.view disk.old disk.new (IsAroundFor form (kept_of self.old) (begun_of self.old)) }
        ensures good { (form : Form) → IsRunningIn form (D.view disk.old).images self.old
            → Each (D.view disk.new).images (IsAroundFor form (kept_of self.old) (begun_of self.old)) }
        // `Refused` comes exactly where a rule refuses, `JournalFull` where a fresh command has no room;
        // only a fresh one can want memory.
        ensures fault { IfErr result (IsSubmitFault (judged self.old.history key.now command.now)
            self.old.journal (accepted key.now command.now) (D.faults disk.old) (D.faults disk.new)) }
        ensures room { OnOk result (judged self.old.history key.now command.now ≡ Judgement.Fresh
            → HasRoom self.old.journal (accepted key.now command.now)) }
        // Another fault than the disk's changes nothing; after the disk's the history is as it was.
        ensures kept { IfErr result (λ f. (f ≡ EngineFault.DiskFault)
            ⊎ ((self.new ≡ self.old) × (disk.new ≡ disk.old))) }
        ensures err { OnErr result (self.new.history ≡ self.old.history) }
        ensures same_kept { OnErr result ((kept_of self.new ≡ kept_of self.old) × (begun_of self.new ≡ begun_of self.old)) }
        ensures spent { IsErrOf result EngineFault.DiskFault ↔ (self.new.journal.spent ≡ true) }
        ensures faults { D.faults disk.old ≤ D.faults disk.new }
        ensures size { OnErr result (self.new.journal.size ≡ self.old.journal.size) }
        ensures limit { self.new.journal.limit ≡ self.old.journal.limit }
        ensures version { self.new.journal.version ≡ Version.Two }
        // A command more takes its line's bytes and seven.
        ensures length { (base : ℕ) → self.old.journal.size ≡ base + lengths_of self.old.history
            → OnOk result (self.new.journal.size ≡ base + lengths_of self.new.history) }
        ensures bound { ((a : Account) (m : ℕ) → B.cost a m ≤ cost_of_month a m)
            → ((a : Account) (m : ℕ) → B.month_cost a m ≡ 0)
            → steps.new ≤ steps.old + step_bound self.old.history key.now command.now }
    {
        self.enter(disk, key, command, Until::Begun, steps)
    }

    /// Takes a command so far: what `submit` and `begin` have in common.
    fn enter<D: Disk, L: Ledger>(
        &mut self,
        disk: &mut D,
        key: &Key,
        command: &Command,
        until: Until,
        steps: &mut Steps<L>,
    ) -> Result<Taken, EngineFault>
        requires command { IsCommand command.now }
        requires unspent { self.old.journal.spent ≡ false }
        requires running { IsRunning (D.view disk.old).images self.old }
        requires alone { until ≡ Until.Kept → self.old.journal.begun ≡ None }
        ensures reply { IfOk result (λ taken. IsReplyTo self.old.history command.now
            (judged self.old.history key.now command.now) (reply_of taken)) }
        ensures history { OnOk result (self.new.history ≡ history_after self.old.history key.now command.now
            (judged self.old.history key.now command.now)) }
        // A kept reply changes nothing; after another one the disk keeps all commands before this one, or this one too.
        ensures taken { IfOk result (λ taken. WasTaken (judged self.old.history key.now command.now) taken
            ((self.new ≡ self.old) × (disk.new ≡ disk.old))
            ((kept_of self.new ≡ kept_after until self.old.history (accepted key.now command.now))
            × (begun_of self.new ≡ begun_after until (accepted key.now command.now)))) }
        ensures none { OnOk result (until ≡ Until.Kept → self.new.journal.begun ≡ None) }
        ensures running { OnOk result (IsRunning (D.view disk.new).images self.new) }
        ensures running_in { (form : Form) → IsRunningIn form (D.view disk.old).images self.old
            → OnOk result (IsRunningIn form (D.view disk.new).images self.new) }
        // A crash at any moment leaves what was kept, with the command that is at risk or without, or torn with it.
        ensures moments { (form : Form) → IsRunningIn form (D.view disk.old).images self.old
            → LeavesOnly D.view disk.old disk.new (IsAroundFor form (kept_of self.old)
            (risked until (begun_of self.old) (accepted key.now command.now))) }
        ensures good { (form : Form) → IsRunningIn form (D.view disk.old).images self.old
            → Each (D.view disk.new).images (IsAroundFor form (kept_of self.old)
            (risked until (begun_of self.old) (accepted key.now command.now))) }
        // `Refused` comes exactly where a rule refuses, `JournalFull` where a fresh command has no room;
        // only a fresh one can want memory.
        ensures fault { IfErr result (IsSubmitFault (judged self.old.history key.now command.now)
            self.old.journal (accepted key.now command.now) (D.faults disk.old) (D.faults disk.new)) }
        ensures room { OnOk result (judged self.old.history key.now command.now ≡ Judgement.Fresh
            → HasRoom self.old.journal (accepted key.now command.now)) }
        // Another fault than the disk's changes nothing; after the disk's the history is as it was.
        ensures kept { IfErr result (λ f. (f ≡ EngineFault.DiskFault)
            ⊎ ((self.new ≡ self.old) × (disk.new ≡ disk.old))) }
        ensures err { OnErr result (self.new.history ≡ self.old.history) }
        ensures same_kept { OnErr result (until ≡ Until.Begun
            → (kept_of self.new ≡ kept_of self.old) × (begun_of self.new ≡ begun_of self.old)) }
        ensures spent { IsErrOf result EngineFault.DiskFault ↔ (self.new.journal.spent ≡ true) }
        ensures faults { D.faults disk.old ≤ D.faults disk.new }
        ensures size { OnErr result (self.new.journal.size ≡ self.old.journal.size) }
        ensures limit { self.new.journal.limit ≡ self.old.journal.limit }
        ensures version { self.new.journal.version ≡ Version.Two }
        // A command more takes its line's bytes and seven.
        ensures length { (base : ℕ) → self.old.journal.size ≡ base + lengths_of self.old.history
            → OnOk result (self.new.journal.size ≡ base + lengths_of self.new.history) }
        ensures bound { ((a : Account) (m : ℕ) → B.cost a m ≤ cost_of_month a m)
            → ((a : Account) (m : ℕ) → B.month_cost a m ≡ 0)
            → steps.new ≤ steps.old + step_bound self.old.history key.now command.now }
    {
        self.core.history_holds();
        match self.core.judge(key, command, steps) {
            Ok(verdict) => match verdict {
                Verdict::Repeat(reply) => Ok(Taken::Settled(reply)),
                Verdict::Fresh => {
                    match put_command(self.alloc, &mut self.journal, disk, key, command, until) {
                        Ok(()) => Ok(Taken::Begun(self.core.accept(key, command, steps))),
                        Err(fault) => Err(fault),
                    }
                }
            },
            Err(fault) => Err(of_core(fault)),
        }
    }

    /// Puts the command that is begun on the disk, if one is. Where the command that is to be begun next is given, what `begin`
    /// writes of it goes there with the same sync, unless memory or room is short; it is no part of the journal until then.
    pub fn commit<D: Disk>(
        &mut self,
        disk: &mut D,
        next: Option<(&Key, &Command)>,
    ) -> Result<(), Failed>
        requires next { IfSome next (λ c. IsCommand c.1.now) }
        requires unspent { self.old.journal.spent ≡ false }
        requires running { IsRunning (D.view disk.old).images self.old }
        ensures history { self.new.history ≡ self.old.history }
        ensures durable { OnOk result (IsDurable (D.view disk.new).images self.new) }
        ensures durable_in { (form : Form) → IsRunningIn form (D.view disk.old).images self.old
            → OnOk result (IsDurableIn form (D.view disk.new).images self.new) }
        // A crash at any moment leaves what was kept, with the command that is begun or without, or torn with it.
        ensures moments { (form : Form) → IsRunningIn form (D.view disk.old).images self.old
            → LeavesOnly D.view disk.old disk.new (IsAroundFor form (kept_of self.old) (begun_of self.old)) }
        ensures good { (form : Form) → IsRunningIn form (D.view disk.old).images self.old
            → Each (D.view disk.new).images (IsAroundFor form (kept_of self.old) (begun_of self.old)) }
        // Where none is begun nothing is called.
        ensures idle { self.old.journal.begun ≡ None
            → IsOk result × (self.new ≡ self.old) × (disk.new ≡ disk.old) }
        ensures none { OnOk result (self.new.journal.begun ≡ None) }
        ensures same_kept { OnErr result ((kept_of self.new ≡ kept_of self.old) × (begun_of self.new ≡ begun_of self.old)) }
        ensures cause { HasCause (D.faults disk.old) (D.faults disk.new) result }
        ensures spent { IsErr result ↔ (self.new.journal.spent ≡ true) }
        ensures size { self.new.journal.size ≡ self.old.journal.size }
        ensures limit { self.new.journal.limit ≡ self.old.journal.limit }
        ensures version { self.new.journal.version ≡ Version.Two }
    {
        let line = if self.journal.is_begun() {
            line_of_next(self.alloc, next)
        } else {
            None
        };
        self.journal.commit(disk, line)
    }

    /// Answers a query over the history, or with the first rule that refuses it.
    pub fn ask<L: Ledger>(&self, query: &Query, steps: &mut Steps<L>) -> Result<Answer, EngineFault>
        requires { IsQuery query.now }
        ensures asked { OnOk result (query_refusal self.now.history query.now ≡ None) }
        ensures answer { IfOk result (λ a. answer_to self.now.history query.now ≡ Some a) }
        ensures fault { IfErr result (IsAskFault (query_refusal self.now.history query.now)) }
        ensures memory { IfErr result (λ f. f ≡ EngineFault.OutOfMemory → WantsMemory query.now) }
        ensures bound { ((a : Account) (m : ℕ) → B.cost a m ≤ cost_of_month a m)
            → steps.new ≤ steps.old + query_bound (world self.now.history) query.now }
    {
        match self.core.ask(query, steps) {
            Ok(answer) => Ok(answer),
            Err(why) => Err(of_core(why)),
        }
    }

    /// The books.
    pub fn core(&self) -> &Core<B>
        ensures { result.now.history ≡ self.now.history }
    {
        &self.core
    }

    /// What holds of the engine's journal: it is of version 2, as `open` and `submit` leave it. The call does nothing.
    pub fn version_holds(&self)
        ensures version { self.now.journal.version ≡ Version.Two }
    {
        let _ = &self.journal;
    }

    /// Whether a call of the disk failed in a submit. Then the engine is used no more.
    pub fn is_spent(&self) -> bool
        ensures { result ≡ self.now.journal.spent }
    {
        self.journal.is_spent()
    }
}
