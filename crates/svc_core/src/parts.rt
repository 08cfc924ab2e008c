//! What the core keeps, and how a command is judged and accepted over it.

ghost use Rattle.std.specs.Prelude.{◌≡◌, ◌+◌, ◌≤◌, ◌<◌, ◌∷◌, ◌++◌, [], None, Some, vec_capacity, OnOk, IfErr, IfOk};
ghost use Rattle.svc_types.specs.Requests.{IsCommand};
ghost use Rattle.std.specs.List.{All};
ghost use Rattle.svc_world.specs.World.{accepted, after, world, today_after};
ghost use Rattle.svc_world.specs.Refusals.{refusal_of};
ghost use Rattle.svc_world.specs.Judging.{Judgement, judged, by_key, known, next_reply, extra_of};
ghost use Rattle.svc_world.specs.Custody.{rows_made, custody_of};
ghost use Rattle.svc_custody.specs.Cash.{IsKeptIn};
ghost use Rattle.svc_core.specs.State.{world_of, IsState};
ghost use Rattle.svc_core.specs.Rows.{IsCash};
ghost use Rattle.svc_core.specs.Core as core;
ghost use Rattle.svc_world.specs.Scope.{scope_of};
ghost use Rattle.svc_core.specs.Ready.{IsReadyFor};
ghost use Rattle.svc_core.specs.Costs.{accepting_cost};
ghost use Rattle.svc_custody.specs.Positions.{positions_of};
ghost use Rattle.svc_core.specs.Posted.{known_as};

use crate::accepting::{accept_all, accept_new, accept_one};
use crate::fault::CoreFault;
use crate::posted::Posted;
use crate::preparing::prepare;
use crate::ready::Ready;
use crate::scratch::Scratch;
use crate::verdict::Verdict;
use custodial_book::Book;
use period_adjust::Seals;
use std::alloc::Global;
use std::sync::ledger::Ledger;
use svc_base::{Month, Steps, first_day};
use svc_custody::{Cash, Positions};
use svc_loan::Loans;
use svc_replay::LoanBooks;
use svc_rules::{State, refuse};
use svc_types::{Command, Extra, Key, Refusal, Reply, is_same};
use svc_world::Custody;

/// The accepted commands under their keys, the world that they made, the custodial rows, and lists that
/// accepting a command fills.
#[derive(Drop)]
pub(crate) struct Parts<B: LoanBooks> {
    pub(crate) alloc: Global,
    pub(crate) posted: Posted,
    pub(crate) state: State<B>,
    pub(crate) cash: Cash,
    pub(crate) scratch: Scratch,
}

impl<B: LoanBooks> Parts<B> {
    /// Those of no command, on the business day 1990-01-01.
    pub(crate) fn new(alloc: Global) -> Parts<B>
        ensures parts { core.AreParts result.posted result.state.today result.state.loans result.state.seals
            result.cash.book.rows result.cash.custody result.cash.positions.items }
        ensures history { result.posted.history ≡ [] }
    {
        Parts {
            alloc,
            posted: Posted::new(alloc),
            state: State {
                today: first_day(Month::new(1990, 1)),
                loans: Loans::new(alloc),
                seals: Seals::new(alloc),
            },
            cash: Cash {
                book: Book::new(alloc),
                custody: Custody {
                    t: 0,
                    p: 0,
                    suspense: 0,
                    escrow: 0,
                    escrow_advance: 0,
                    held: 0,
                    pi_advance: 0,
                },
                positions: Positions::new(alloc),
            },
            scratch: Scratch::new(alloc),
        }
    }
}

/// What is said of a command whose key is known: the reply that was given to it, or that another command
/// has the key.
pub(crate) fn repeat(
    before: &Command,
    command: &Command,
    reply: Reply,
) -> Result<Verdict, CoreFault>
    ensures verdict { IfOk result (core.IsVerdict (by_key [] command.now (Some (known_as before.now reply)))) }
    ensures fault { IfErr result (core.IsFault (by_key [] command.now (Some (known_as before.now reply)))) }
    ensures repeated { IfOk result (λ v. v ≡ Verdict.Repeat reply) }
{
    if is_same(before, command) {
        return Ok(Verdict::Repeat(reply));
    }
    Err(CoreFault::Refused(Refusal::KeyReused(reply.number)))
}

/// Judges a command whose key is new: the first rule that holds refuses it, or all room for it is made, and what it
/// changes is ready.
pub(crate) fn judge_new<B: LoanBooks, L: Ledger>(
    parts: &mut Parts<B>,
    key: &Key,
    command: &Command,
    steps: &mut Steps<L>,
) -> Result<Ready<B>, CoreFault>
    requires parts { core.AreParts parts.old.posted parts.old.state.today parts.old.state.loans
        parts.old.state.seals parts.old.cash.book.rows parts.old.cash.custody
        parts.old.cash.positions.items }
    requires unknown { known parts.old.posted.history key.now ≡ None }
    requires command { IsCommand command.now }
    ensures parts { core.AreParts parts.new.posted parts.new.state.today parts.new.state.loans
        parts.new.state.seals parts.new.cash.book.rows parts.new.cash.custody
        parts.new.cash.positions.items }
    ensures history { parts.new.posted.history ≡ parts.old.posted.history }
    ensures fault { IfErr result (core.IsFault (judged parts.old.posted.history key.now command.now)) }
    ensures fresh { OnOk result (judged parts.old.posted.history key.now command.now ≡ Judgement.Fresh) }
    ensures prepared { IfOk result (core.IsPrepared parts.new.posted parts.new.state.today
        parts.new.state.loans parts.new.state.seals parts.new.cash.book.spare
        (vec_capacity parts.new.scratch.dues) parts.new.cash.positions.room
        (vec_capacity parts.new.scratch.lines) (accepted key.now command.now)) }
    ensures steps { steps.new ≤ steps.old + core.unknown_cost B.cost (world parts.old.posted.history)
        command.now (judged parts.old.posted.history key.now command.now) }
{
    let _ = key.bytes();
    let count = parts.posted.count() as u32;
    let target = refuse(count, &parts.state, command, steps)?;
    parts.posted.reserve()?;
    let ready = prepare(
        parts.alloc,
        count,
        command,
        target,
        &mut parts.state,
        &mut parts.cash,
        &mut parts.scratch,
        steps,
    )?;
    Ok(ready)
}

/// Makes of the parts what a prepared command makes of them, but for its key; takes no memory.
pub(crate) fn accept_prepared<B: LoanBooks, L: Ledger>(
    parts: &mut Parts<B>,
    ready: Ready<B>,
    key: &Key,
    command: &Command,
    steps: &mut Steps<L>,
) -> Reply
    requires parts { core.AreParts parts.old.posted parts.old.state.today parts.old.state.loans
        parts.old.state.seals parts.old.cash.book.rows parts.old.cash.custody
        parts.old.cash.positions.items }
    requires prepared { core.IsPrepared parts.old.posted parts.old.state.today
        parts.old.state.loans parts.old.state.seals parts.old.cash.book.spare
        (vec_capacity parts.old.scratch.dues) parts.old.cash.positions.room
        (vec_capacity parts.old.scratch.lines) (accepted key.now command.now) ready }
    ensures parts { core.AreParts parts.new.posted parts.new.state.today parts.new.state.loans
        parts.new.state.seals parts.new.cash.book.rows parts.new.cash.custody
        parts.new.cash.positions.items }
    ensures history { parts.new.posted.history
        ≡ parts.old.posted.history ++ accepted key.now command.now ∷ [] }
    ensures reply { result ≡ next_reply parts.old.posted.history command.now }
    ensures steps { steps.new ≤ steps.old
        + core.accepted_cost B.cost B.month_cost parts.old.posted.history command.now }
{
    let count = parts.posted.count() as u32;
    let extra = accept_scoped(
        count,
        command,
        ready,
        &mut parts.state,
        &mut parts.cash,
        &mut parts.scratch,
        steps,
    );
    parts.posted.push(key, command, extra);
    parts.posted.reply(count + 1)
}

/// Makes of the world and the rows what a command makes of them, for which there is room.
fn accept_scoped<B: LoanBooks, L: Ledger>(
    count: u32,
    command: &Command,
    ready: Ready<B>,
    state: &mut State<B>,
    cash: &mut Cash,
    scratch: &mut Scratch,
    steps: &mut Steps<L>,
) -> Extra
    requires state { IsState count state.old.today state.old.loans state.old.seals }
    requires cash { IsCash count (world_of state.old.today state.old.loans state.old.seals)
        cash.old.book.rows cash.old.custody cash.old.positions.items }
    requires command { IsCommand command.now }
    requires fresh { refusal_of count (world_of state.old.today state.old.loans state.old.seals) command.now ≡ None }
    requires ready { IsReadyFor (scope_of command.now) state.old.today (today_after state.old.today command.now)
        state.old.loans state.old.seals cash.old.book.spare (vec_capacity scratch.old.dues)
        cash.old.positions.room (vec_capacity scratch.old.lines) ready }
    ensures world { world_of state.new.today state.new.loans state.new.seals
        ≡ after (count + 1) (world_of state.old.today state.old.loans state.old.seals) command.now }
    ensures kept { All (IsKeptIn (world_of state.new.today state.new.loans state.new.seals)) state.new.loans.loans }
    ensures rows { cash.new.book.rows ≡ cash.old.book.rows
        ++ rows_made (count + 1) (world_of state.old.today state.old.loans state.old.seals)
        (world_of state.new.today state.new.loans state.new.seals) }
    ensures custody { cash.new.custody ≡ custody_of (world_of state.new.today state.new.loans state.new.seals) }
    ensures positions { cash.new.positions.items
        ≡ positions_of (world_of state.new.today state.new.loans state.new.seals) }
    ensures extra { result ≡ extra_of (world_of state.old.today state.old.loans state.old.seals)
        (after (count + 1) (world_of state.old.today state.old.loans state.old.seals) command.now) command.now }
    ensures steps { steps.new ≤ steps.old + accepting_cost B.cost B.month_cost
        (world_of state.old.today state.old.loans state.old.seals)
        (world_of state.new.today state.new.loans state.new.seals) command.now }
{
    match ready {
        Ready::One(place) => accept_one(count, place, command, state, cash, scratch, steps),
        Ready::New(id, terms, loan) => {
            accept_new(count, id, &terms, loan, state, cash);
            Extra::Plain
        }
        Ready::Every => accept_all(count, command, state, cash, scratch, steps),
    }
}
