//! The commands of a journal, accepted one after another.

ghost use Rattle.std.specs.Prelude.{◌≡◌, ◌≢◌, ◌⊎◌, ◌+◌, ◌≤◌, ◌∷◌, ◌++◌, ℕ, [], IfOk, IfErr, OnOk, OnErr};
ghost use Rattle.svc_types.specs.Requests.{IsCommand};
ghost use Rattle.svc_spec.specs.Accounts.{Account};
ghost use Rattle.svc_spec.specs.Months.{cost_of_month};
ghost use Rattle.svc_world.specs.World.{accepted};
ghost use Rattle.svc_world.specs.Judging.{Judgement, judged, IsHistory};
ghost use Rattle.svc_core.specs.Bound.{step_bound};
ghost use Rattle.serv_journal.specs.Reading.{lines_in};
ghost use Rattle.serv_engine.specs.Histories.{lines_of_history};
ghost use Rattle.serv_engine.specs.Opening.{IsNext, IsUnfit, IsReplayFault, IsLineWithin, AreLinesWithin, history_bound};

use crate::fault::{EngineFault, of_record};
use serv_journal::Frames;
use serv_line::read_line;
use std::alloc::Global;
use std::sync::ledger::Ledger;
use svc_base::Steps;
use svc_core::{Core, Verdict};
use svc_replay::LoanBooks;
use svc_types::{Command, Key, Request};

/// Accepts a command of a record at this place; one that is not fresh is damage.
fn accept_again<B: LoanBooks, L: Ledger>(
    core: &mut Core<B>,
    key: &Key,
    command: &Command,
    place: u64,
    steps: &mut Steps<L>,
) -> Result<(), EngineFault>
    requires { IsCommand command.now }
    ensures more { OnOk result (core.new.history ≡ core.old.history ++ accepted key.now command.now ∷ []) }
    ensures fault { IfErr result (λ f. (f ≡ EngineFault.OutOfMemory) ⊎ ((f ≡ EngineFault.Damaged place)
        × (judged core.old.history key.now command.now ≢ Judgement.Fresh))) }
    ensures bound { ((a : Account) (m : ℕ) → B.cost a m ≤ cost_of_month a m)
        → ((a : Account) (m : ℕ) → B.month_cost a m ≡ 0)
        → steps.new ≤ steps.old + step_bound core.old.history key.now command.now }
{
    core.history_holds();
    match core.judge(key, command, steps) {
        Ok(verdict) => match verdict {
            Verdict::Fresh => {
                core.accept(key, command, steps);
                Ok(())
            }
            Verdict::Repeat(_) => Err(EngineFault::Damaged(place)),
        },
        Err(fault) => Err(of_record(place, fault)),
    }
}

/// Accepts the command of a record with this line at this place; a line that is no further command's is
/// damage.
fn replay_line<B: LoanBooks, L: Ledger>(
    core: &mut Core<B>,
    line: &[u8],
    place: u64,
    steps: &mut Steps<L>,
) -> Result<(), EngineFault>
    ensures next { OnOk result (IsNext line.now core.old.history core.new.history) }
    ensures fault { IfErr result (λ f. (f ≡ EngineFault.OutOfMemory)
        ⊎ ((f ≡ EngineFault.Damaged place) × IsUnfit core.old.history line.now)) }
    ensures bound { ((a : Account) (m : ℕ) → B.cost a m ≤ cost_of_month a m)
        → ((a : Account) (m : ℕ) → B.month_cost a m ≡ 0)
        → OnOk result (steps.new + history_bound [] core.old.history
        ≤ steps.old + history_bound [] core.new.history) }
    ensures bound_err { ((a : Account) (m : ℕ) → B.cost a m ≤ cost_of_month a m)
        → ((a : Account) (m : ℕ) → B.month_cost a m ≡ 0)
        → OnErr result (IsLineWithin core.old.history line.now steps.old steps.new) }
{
    match read_line(line) {
        Ok(request) => match &request {
            Request::Do(key, command) => accept_again(core, key, command, place, steps),
            Request::Ask(_) => Err(EngineFault::Damaged(place)),
        },
        Err(_) => Err(EngineFault::Damaged(place)),
    }
}

/// Accepts the commands of all records. `Damaged` comes exactly where one is no further command, with its
/// place.
pub(crate) fn replay<B: LoanBooks, L: Ledger>(
    alloc: Global,
    frames: &Frames,
    steps: &mut Steps<L>,
) -> Result<Core<B>, EngineFault>
    ensures lines { IfOk result (λ core. lines_of_history core.history ≡ lines_in frames.now) }
    ensures history { IfOk result (λ core. IsHistory core.history) }
    ensures fault { IfErr result (IsReplayFault frames.now) }
    ensures bound { ((a : Account) (m : ℕ) → B.cost a m ≤ cost_of_month a m)
        → ((a : Account) (m : ℕ) → B.month_cost a m ≡ 0)
        → IfOk result (λ core. steps.new ≤ steps.old + history_bound [] core.history) }
    ensures bound_err { ((a : Account) (m : ℕ) → B.cost a m ≤ cost_of_month a m)
        → ((a : Account) (m : ℕ) → B.month_cost a m ≡ 0)
        → OnErr result (AreLinesWithin (lines_in frames.now) steps.old steps.new) }
{
    let mut core = Core::<B>::new(alloc)?;
    let count = frames.len();
    for i in 0..count {
        core.history_holds();
        let place = frames.place(i);
        match replay_line(&mut core, frames.line(i), place, steps) {
            Ok(()) => {}
            Err(fault) => return Err(fault),
        }
    }
    core.history_holds();
    Ok(core)
}
