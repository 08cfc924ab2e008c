//! The servicing core: it judges and accepts commands, and answers queries.

ghost use Rattle.std.specs.Prelude.{◌≡◌, ◌+◌, ◌≤◌, ◌∷◌, ◌++◌, ℕ, [], length, None, Some, IfOk, IfErr, OnOk, OnErr};
ghost use Rattle.std.specs.Option.{option_map};
ghost use Rattle.svc_types.specs.Requests.{IsCommand, IsQuery};
ghost use Rattle.svc_spec.specs.Accounts.{Account};
ghost use Rattle.svc_spec.specs.Months.{cost_of_month};
ghost use Rattle.custodial_book.specs.Rows.{rows_of_command};
ghost use Rattle.svc_world.specs.World.{accepted, world};
ghost use Rattle.svc_world.specs.Judging.{Judgement, judged, history_after, next_reply, nth_accepted, IsHistory};
ghost use Rattle.svc_world.specs.Answers.{answer_to, query_refusal};
ghost use Rattle.svc_world.specs.Custody.{rows_in};
ghost use Rattle.svc_world.specs.Laws.{AreLawful, IsLawfulStep};
ghost use Rattle.svc_core.specs.Asking.{WantsMemory};
ghost use Rattle.svc_core.specs.Bound.{step_bound, query_bound};
ghost use Rattle.svc_core.specs.Core as core;
ghost use Rattle.svc_core.specs.Costs.{asking_cost};

use crate::asking::answer;
use crate::fault::CoreFault;
use crate::parts::{Parts, accept_prepared, judge_new, repeat};
use crate::posted::Posted;
use crate::ready::Prepared;
use crate::scratch::Scratch;
use crate::verdict::Verdict;
use custodial_book::{Book, Row};
use period_adjust::Seals;
use std::alloc::Global;
use std::marker::Model;
use std::sync::ledger::Ledger;
use svc_base::{Day, Month, OutOfMemory, Steps};
use svc_custody::Cash;
use svc_loan::Loans;
use svc_replay::LoanBooks;
use svc_rules::State;
use svc_types::{Command, Key, Query, Reply};
use svc_world::{Answer, Custody};

/// The books of a servicer. It stands for the accepted commands with their keys, and for the command that
/// was judged fresh and may be accepted next; everything that it answers follows from these.
#[derive(Drop)]
pub struct Core<B: LoanBooks> {
    parts: Parts<B>,
    prepared: Option<Prepared<B>>,
}

impl<B: LoanBooks> Model for Core<B> {
    ghost use Rattle.std.specs.Prelude.{vec_capacity};
    ghost use Rattle.std.specs.Option.{option_map};
    ghost use Rattle.svc_world.specs.World.{accepted};
    ghost use Rattle.svc_core.specs.Core.{Standing, IsCore};

    ghost Value = { Standing };

    ghost view = { λ c. record {
      history = c.parts.posted.history;
      prepared = option_map (λ p. accepted p.key p.command) c.prepared;
    } };

    ghost invariant = { λ c. IsCore c.parts.posted c.parts.state.today c.parts.state.loans
        c.parts.state.seals c.parts.cash.book.rows c.parts.cash.custody c.parts.cash.positions.items
        c.parts.cash.book.spare (vec_capacity c.parts.scratch.dues) c.parts.cash.positions.room
        (vec_capacity c.parts.scratch.lines) c.prepared };
}

impl<B: LoanBooks> Core<B> {
    /// Books without a command, on the business day 1990-01-01.
    pub fn new(alloc: Global) -> Result<Core<B>, OutOfMemory>
        ensures history { IfOk result (λ c. c.history ≡ []) }
        ensures prepared { IfOk result (λ c. c.prepared ≡ None) }
    {
        Ok(Core {
            parts: Parts::new(alloc),
            prepared: None,
        })
    }

    /// Judges a command: it has a known key, a rule refuses it, or it is fresh. Nothing that the core stands
    /// for changes but what is prepared: after a fresh command it is that one, for which all memory is then
    /// spare; after any other answer it is none.
    #[inline(always)]
    pub fn judge<L: Ledger>(
        &mut self,
        key: &Key,
        command: &Command,
        steps: &mut Steps<L>,
    ) -> Result<Verdict, CoreFault>
        requires { IsCommand command.now }
        ensures verdict { IfOk result (core.IsVerdict (judged self.old.history key.now command.now)) }
        ensures fault { IfErr result (core.IsFault (judged self.old.history key.now command.now)) }
        ensures history { self.new.history ≡ self.old.history }
        ensures prepared { IfOk result (λ v. self.new.prepared ≡ core.prepared_by key.now command.now v) }
        ensures unprepared { OnErr result (self.new.prepared ≡ None) }
        ensures steps { steps.new ≤ steps.old
            + core.judging_cost B.cost self.old.history key.now command.now }
    {
        self.prepared = None;
        match self.parts.posted.known(key) {
            Some((before, reply)) => repeat(&before, command, reply),
            None => {
                let ready = judge_new(&mut self.parts, key, command, steps)?;
                self.prepared = Some(Prepared {
                    key: *key,
                    command: *command,
                    ready,
                });
                Ok(Verdict::Fresh)
            }
        }
    }

    /// Accepts the prepared command: it is in the history from then on. It takes no memory.
    #[inline(always)]
    pub fn accept<L: Ledger>(&mut self, key: &Key, command: &Command, steps: &mut Steps<L>) -> Reply
        requires { self.old.prepared ≡ Some (accepted key.now command.now) }
        ensures reply { result ≡ next_reply self.old.history command.now }
        ensures history { self.new.history ≡ self.old.history ++ accepted key.now command.now ∷ [] }
        ensures prepared { self.new.prepared ≡ None }
        ensures lawful { AreLawful self.new.history }
        ensures step { IsLawfulStep self.old.history command.now }
        ensures steps { steps.new ≤ steps.old
            + core.accepted_cost B.cost B.month_cost self.old.history command.now }
    {
        match self.prepared.take() {
            Some(prepared) => {
                accept_prepared(&mut self.parts, prepared.ready, key, command, steps)
            }
            None => unreachable!(),
        }
    }

    /// Answers a command: the reply that was kept for its key, the first rule that refuses it, or, where it is
    /// fresh, the reply to it as the next command of the history.
    pub fn submit<L: Ledger>(
        &mut self,
        key: &Key,
        command: &Command,
        steps: &mut Steps<L>,
    ) -> Result<Reply, CoreFault>
        requires { IsCommand command.now }
        ensures reply { IfOk result (core.IsReplyTo self.old.history command.now
            (judged self.old.history key.now command.now)) }
        ensures fault { IfErr result (core.IsFault (judged self.old.history key.now command.now)) }
        ensures history { OnOk result (self.new.history ≡ history_after self.old.history key.now command.now
            (judged self.old.history key.now command.now)) }
        ensures err { OnErr result (self.new.history ≡ self.old.history) }
        ensures prepared { self.new.prepared ≡ None }
        ensures lawful { AreLawful self.new.history }
        ensures step { judged self.old.history key.now command.now ≡ Judgement.Fresh
            → IsLawfulStep self.old.history command.now }
        ensures steps { steps.new ≤ steps.old
            + core.submitting_cost B.cost B.month_cost self.old.history key.now command.now }
        // After a refusal or want of memory nothing was accepted, and the bound is that of the judgement alone.
        ensures refused_steps { OnErr result (steps.new ≤ steps.old
            + core.judging_cost B.cost self.old.history key.now command.now) }
        ensures bound { ((a : Account) (m : ℕ) → B.cost a m ≤ cost_of_month a m)
            → ((a : Account) (m : ℕ) → B.month_cost a m ≡ 0)
            → steps.new ≤ steps.old + step_bound self.old.history key.now command.now }
    {
        self.history_holds();
        match self.judge(key, command, steps)? {
            Verdict::Repeat(reply) => Ok(reply),
            Verdict::Fresh => Ok(self.accept(key, command, steps)),
        }
    }

    /// Answers a query over the history, or with the first rule that refuses it.
    pub fn ask<L: Ledger>(&self, query: &Query, steps: &mut Steps<L>) -> Result<Answer, CoreFault>
        requires { IsQuery query.now }
        ensures asked { OnOk result (query_refusal self.now.history query.now ≡ None) }
        ensures answer { IfOk result (λ a. answer_to self.now.history query.now ≡ Some a) }
        ensures refused { IfErr result (core.IsQueryFault (query_refusal self.now.history query.now)) }
        ensures memory { IfErr result (λ f. f ≡ CoreFault.OutOfMemory → WantsMemory query.now) }
        ensures steps { steps.new ≤ steps.old + asking_cost B.cost (world self.now.history) query.now }
        ensures bound { ((a : Account) (m : ℕ) → B.cost a m ≤ cost_of_month a m)
            → steps.new ≤ steps.old + query_bound (world self.now.history) query.now }
    {
        answer(
            self.parts.alloc,
            &self.parts.posted,
            &self.parts.state,
            &self.parts.cash,
            query,
            steps,
        )
    }

    /// How many commands were accepted.
    pub fn count(&self) -> u32
        ensures value { result ≡ length self.now.history }
        ensures few { result ≤ 1_000_000 }
    {
        self.parts.posted.count() as u32
    }

    /// The business day.
    pub fn today(&self) -> Day
        ensures { result ≡ (world self.now.history).today }
    {
        self.parts.state.today
    }

    /// The accepted command with a number, from 1, and its key.
    pub fn posted(&self, number: u32) -> Option<(Key, Command)>
        ensures { option_map (λ p. accepted p.0 p.1) result ≡ nth_accepted self.now.history number }
    {
        self.parts.posted.command(number)
    }

    /// The custodial rows of the accepted command with a number: what it moved into the custodial accounts T and P and
    /// out of them, loan by loan. A number that no command has, has none.
    pub fn rows(&self, number: u32) -> &[Row]
        ensures { result.now ≡ rows_of_command number (rows_in self.now.history) }
    {
        self.parts.cash.book.rows(number)
    }

    /// What holds of the core's history: each of its commands is well formed and was fresh after those
    /// before it, so the laws of the books hold of it. The call does nothing.
    pub fn history_holds(&self)
        ensures history { IsHistory self.now.history }
        ensures lawful { AreLawful self.now.history }
    {
        let _ = &self.parts;
    }
}
