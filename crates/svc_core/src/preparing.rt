//! The room that a command needs, made before it is accepted.

ghost use Rattle.std.specs.Prelude.{◌≡◌, ◌+◌, ◌≤◌, length, vec_capacity, None, OnOk, IfOk};
ghost use Rattle.std.specs.List.{All};
ghost use Rattle.svc_base.specs.Calendar.{month_of as month_number};
ghost use Rattle.svc_types.specs.Requests.{IsCommand};
ghost use Rattle.svc_spec.specs.Accounts.{MayBegin, begun};
ghost use Rattle.svc_loan.specs.Loans.{IsThere};
ghost use Rattle.svc_rules.specs.Targets.{IsTarget};
ghost use Rattle.svc_world.specs.Refusals.{refusal_of};
ghost use Rattle.svc_world.specs.World as world;
ghost use Rattle.svc_custody.specs.Cash.{IsKeptIn};
ghost use Rattle.svc_core.specs.Costs.{preparing_cost};
ghost use Rattle.svc_core.specs.Preparing.{HaveStayed};
ghost use Rattle.svc_core.specs.declared.ready.Ready.TheVariants as ready;
ghost use Rattle.svc_core.specs.Ready.{HasRoomForOne, HasRoomForNew, HasRoomForAll, IsBoarding, IsReadyFor};
ghost use Rattle.svc_world.specs.Scope as rule;
ghost use Rattle.svc_core.specs.State.{world_of, IsState};

use crate::ready::Ready;
use crate::scratch::Scratch;
use std::alloc::Global;
use std::sync::ledger::Ledger;
use svc_base::{Day, OutOfMemory, Steps};
use svc_custody::Cash;
use svc_loan::{Loan, Place};
use svc_replay::LoanBooks;
use svc_rules::{State, Target};
use svc_types::{Command, Terms};

/// Makes the room that a command needs which is not refused, by what it changes, and the loan that it takes on, so that
/// accepting it takes no memory; fails for want of memory alone. Nothing but room changes, whatever the result.
pub(crate) fn prepare<B: LoanBooks, L: Ledger>(
    alloc: Global,
    count: u32,
    command: &Command,
    target: Target,
    state: &mut State<B>,
    cash: &mut Cash,
    scratch: &mut Scratch,
    steps: &mut Steps<L>,
) -> Result<Ready<B>, OutOfMemory>
    requires state { IsState count state.old.today state.old.loans state.old.seals }
    requires command { IsCommand command.now }
    requires fresh { refusal_of count (world_of state.old.today state.old.loans state.old.seals) command.now
        ≡ None }
    requires target { IsTarget (rule.scope_of command.now) state.old.loans.loans target }
    ensures today { state.new.today ≡ state.old.today }
    ensures world { world_of state.new.today state.new.loans state.new.seals
        ≡ world_of state.old.today state.old.loans state.old.seals }
    ensures kept { All (IsKeptIn (world_of state.new.today state.new.loans state.new.seals))
        state.new.loans.loans }
    ensures rows { cash.new.book.rows ≡ cash.old.book.rows }
    ensures custody { cash.new.custody ≡ cash.old.custody }
    ensures positions { cash.new.positions.items ≡ cash.old.positions.items }
    ensures ready { IfOk result (IsReadyFor (rule.scope_of command.now) state.old.today
        (world.today_after state.old.today command.now) state.new.loans state.new.seals
        cash.new.book.spare (vec_capacity scratch.new.dues) cash.new.positions.room
        (vec_capacity scratch.new.lines)) }
    ensures steps { steps.new ≤ steps.old
        + preparing_cost B.cost (world_of state.old.today state.old.loans state.old.seals) command.now }
{
    match target {
        Target::One(place) => {
            let ready = Ready::One(place);
            room_for_one(place, state, cash, scratch)?;
            Ok(ready)
        }
        Target::New(id, terms) => {
            room_for_new(state, cash)?;
            let loan = new_loan(alloc, id, &terms, state.today, steps)?;
            Ok(taken_on(id, &terms, loan))
        }
        Target::Every => {
            let later = today_after(state.today, command);
            room_for_all(later, state, cash, scratch)?;
            Ok(Ready::Every)
        }
    }
}

/// Room for a command on the loan that stands at a place.
fn room_for_one<B: LoanBooks>(
    place: Place,
    state: &mut State<B>,
    cash: &mut Cash,
    scratch: &mut Scratch,
) -> Result<(), OutOfMemory>
    requires place { IsThere place state.old.loans.loans }
    requires few { length state.old.seals.reporting.reports ≤ 600 }
    ensures today { state.new.today ≡ state.old.today }
    ensures stay { HaveStayed state.old.loans state.new.loans state.old.seals state.new.seals }
    ensures rows { cash.new.book.rows ≡ cash.old.book.rows }
    ensures custody { cash.new.custody ≡ cash.old.custody }
    ensures positions { cash.new.positions.items ≡ cash.old.positions.items }
    ensures place { IsThere place state.new.loans.loans }
    ensures ready { OnOk result (HasRoomForOne place.id state.old.today state.new.loans state.new.seals
        cash.new.book.spare (vec_capacity scratch.new.dues)) }
{
    let today = state.today;
    let closed = state.seals.reports().len();
    state.loans.reserve_for(place, today)?;
    state.seals.reserve(0, closed as u32)?;
    cash.book.reserve(11)?;
    // what is due before the command and after it
    clear_for(&mut scratch.dues, 2 * closed)
}

/// A place, rows and a position for a loan that is taken on.
fn room_for_new<B: LoanBooks>(state: &mut State<B>, cash: &mut Cash) -> Result<(), OutOfMemory>
    ensures today { state.new.today ≡ state.old.today }
    ensures stay { HaveStayed state.old.loans state.new.loans state.old.seals state.new.seals }
    ensures rows { cash.new.book.rows ≡ cash.old.book.rows }
    ensures custody { cash.new.custody ≡ cash.old.custody }
    ensures positions { cash.new.positions.items ≡ cash.old.positions.items }
    ensures ready { OnOk result (HasRoomForNew state.new.loans cash.new.book.spare
        cash.new.positions.room) }
{
    state.loans.reserve()?;
    cash.book.reserve(11)?;
    cash.positions.reserve()
}

/// A loan that is taken on, on a business day.
fn new_loan<B: LoanBooks, L: Ledger>(
    alloc: Global,
    id: u32,
    terms: &Terms,
    today: Day,
    steps: &mut Steps<L>,
) -> Result<Box<Loan<B>>, OutOfMemory>
    requires { MayBegin terms.now today }
    ensures loan { IfOk result (λ b. IsBoarding id terms.now today b.value) }
    ensures steps { steps.new ≤ steps.old + B.cost (begun terms.now today) (month_number terms.now.boarded) }
{
    let loan = Loan::begin(alloc, id, *terms, today, steps)?;
    Ok(Box::new(alloc, loan)?)
}

/// A loan that was made is ready to be taken on.
fn taken_on<B: LoanBooks>(id: u32, terms: &Terms, loan: Box<Loan<B>>) -> Ready<B>
    ensures { result ≡ ready.New id terms.now loan }
{
    Ready::New(id, *terms, loan)
}

/// Room for a command on all loans, after which the business day is that one.
fn room_for_all<B: LoanBooks>(
    later: Day,
    state: &mut State<B>,
    cash: &mut Cash,
    scratch: &mut Scratch,
) -> Result<(), OutOfMemory>
    requires few { length state.old.loans.loans ≤ 12_000 }
    ensures today { state.new.today ≡ state.old.today }
    ensures stay { HaveStayed state.old.loans state.new.loans state.old.seals state.new.seals }
    ensures rows { cash.new.book.rows ≡ cash.old.book.rows }
    ensures custody { cash.new.custody ≡ cash.old.custody }
    ensures positions { cash.new.positions.items ≡ cash.old.positions.items }
    ensures ready { OnOk result (HasRoomForAll later state.new.loans state.new.seals
        cash.new.book.spare (vec_capacity scratch.new.lines)) }
{
    let count = state.loans.len();
    state.loans.reserve_all(later)?;
    state.seals.reserve(count as u32, 0)?;
    cash.book.reserve(11 * count as u32)?;
    clear_for(&mut scratch.lines, count)
}

/// Empties a list, and makes room in it for so many.
fn clear_for<T: Drop>(items: &mut Vec<T>, count: usize) -> Result<(), OutOfMemory>
    ensures { OnOk result (count ≤ vec_capacity items.new) }
{
    items.clear();
    items.reserve(count)?;
    Ok(())
}

/// The business day after a command.
fn today_after(today: Day, command: &Command) -> Day
    ensures { result ≡ world.today_after today command.now }
{
    match *command {
        Command::Day(day) => day,
        _ => today,
    }
}
