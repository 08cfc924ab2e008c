//! The cash side of accepting a command: its rows, and the custodial line after it.

ghost use Rattle.std.specs.Prelude.{◌≡◌, ◌+◌, ◌≤◌, None, ◌++◌, vec_capacity, IsTrue};
ghost use Rattle.std.specs.List.{All};
ghost use Rattle.svc_types.specs.declared.requests.Command.TheVariants.{Board};
ghost use Rattle.svc_types.specs.Requests.{IsCommand};
ghost use Rattle.svc_world.specs.Custody.{custody_of, rows_made};
ghost use Rattle.svc_world.specs.Judging.{extra_of};
ghost use Rattle.svc_world.specs.Refusals.{refusal_of};
ghost use Rattle.svc_world.specs.World.{after, today_after};
ghost use Rattle.svc_loan.specs.Loans.{IsThere};
ghost use Rattle.svc_custody.specs.Cash.{IsKeptIn};
ghost use Rattle.svc_core.specs.Costs.{accepting_cost};
ghost use Rattle.svc_custody.specs.Positions.{positions_of};
ghost use Rattle.svc_core.specs.Ready.{HasRoomForOne, HasRoomForNew, HasRoomForAll, IsBoarding};
ghost use Rattle.svc_core.specs.Rows.{IsCash};
ghost use Rattle.svc_world.specs.Scope.{scope_of, IsWithinMonth};
ghost use Rattle.svc_core.specs.State.{world_of, IsState};
ghost use Rattle.svc_world.specs.declared.scope.Scope.TheVariants as scope;

use crate::changing::change_one;
use crate::everyone::change_all;
use crate::scratch::Scratch;
use crate::taking_on::change_new;
use std::sync::ledger::Ledger;
use svc_base::{Day, Steps, month_of};
use svc_custody::{Cash, add_all_rows, add_rows, no_position, position_of};
use svc_loan::{Loan, Place};
use svc_replay::LoanBooks;
use svc_rules::State;
use svc_types::{Command, Extra, Terms};

/// Accepts a command on one loan, for which there is room: changes the loan, adds the command's rows, moves the
/// custodial line, and keeps what custody holds for the loan then. Before it `count` commands were accepted.
pub(crate) fn accept_one<B: LoanBooks, L: Ledger>(
    count: u32,
    place: Place,
    command: &Command,
    state: &mut State<B>,
    cash: &mut Cash,
    scratch: &mut Scratch,
    steps: &mut Steps<L>,
) -> Extra
    requires state { IsState count state.old.today state.old.loans state.old.seals }
    requires command { IsCommand command.now }
    requires scope { scope_of command.now ≡ scope.One place.id }
    requires place { IsThere place state.old.loans.loans }
    requires fresh { refusal_of count (world_of state.old.today state.old.loans state.old.seals)
        command.now ≡ None }
    requires room { HasRoomForOne place.id state.old.today state.old.loans state.old.seals cash.old.book.spare
        (vec_capacity scratch.old.dues) }
    requires cash { IsCash count (world_of state.old.today state.old.loans state.old.seals)
        cash.old.book.rows cash.old.custody cash.old.positions.items }
    ensures world { world_of state.new.today state.new.loans state.new.seals
        ≡ after (count + 1) (world_of state.old.today state.old.loans state.old.seals) command.now }
    ensures kept { All (IsKeptIn (world_of state.new.today state.new.loans state.new.seals))
        state.new.loans.loans }
    ensures extra { result ≡ extra_of (world_of state.old.today state.old.loans state.old.seals)
        (after (count + 1) (world_of state.old.today state.old.loans state.old.seals) command.now)
        command.now }
    ensures steps { steps.new ≤ steps.old + accepting_cost B.cost B.month_cost
        (world_of state.old.today state.old.loans state.old.seals)
        (world_of state.new.today state.new.loans state.new.seals) command.now }
    ensures rows { cash.new.book.rows ≡ cash.old.book.rows
        ++ rows_made (count + 1) (world_of state.old.today state.old.loans state.old.seals)
        (world_of state.new.today state.new.loans state.new.seals) }
    ensures custody { cash.new.custody
        ≡ custody_of (world_of state.new.today state.new.loans state.new.seals) }
    ensures positions { cash.new.positions.items
        ≡ positions_of (world_of state.new.today state.new.loans state.new.seals) }
{
    // positions stand in the order of loans
    let index = place.index();
    let before = *cash.positions.at(index);
    let extra = change_one(count, place, command, state, &mut scratch.dues, steps);
    let later = position_of(state, place);
    add_rows(cash, count + 1, place.id(), &before, &later);
    cash.positions.set(index, &later);
    extra
}

/// Accepts the command that takes a loan on, for which there is room: puts it among the others, adds the
/// command's rows, and moves the custodial line.
pub(crate) fn accept_new<B: LoanBooks>(
    count: u32,
    id: u32,
    terms: &Terms,
    loan: Box<Loan<B>>,
    state: &mut State<B>,
    cash: &mut Cash,
)
    requires state { IsState count state.old.today state.old.loans state.old.seals }
    requires command { IsCommand (Board id terms.now) }
    requires fresh { refusal_of count (world_of state.old.today state.old.loans state.old.seals)
        (Board id terms.now) ≡ None }
    requires boarding { IsBoarding id terms.now state.old.today loan.value }
    requires room { HasRoomForNew state.old.loans cash.old.book.spare cash.old.positions.room }
    requires cash { IsCash count (world_of state.old.today state.old.loans state.old.seals)
        cash.old.book.rows cash.old.custody cash.old.positions.items }
    ensures world { world_of state.new.today state.new.loans state.new.seals
        ≡ after (count + 1) (world_of state.old.today state.old.loans state.old.seals) (Board id terms.now) }
    ensures kept { All (IsKeptIn (world_of state.new.today state.new.loans state.new.seals))
        state.new.loans.loans }
    ensures rows { cash.new.book.rows ≡ cash.old.book.rows
        ++ rows_made (count + 1) (world_of state.old.today state.old.loans state.old.seals)
        (world_of state.new.today state.new.loans state.new.seals) }
    ensures custody { cash.new.custody
        ≡ custody_of (world_of state.new.today state.new.loans state.new.seals) }
    ensures positions { cash.new.positions.items
        ≡ positions_of (world_of state.new.today state.new.loans state.new.seals) }
{
    let place = change_new(count, id, terms, loan, state);
    let later = position_of(state, place);
    add_rows(cash, count + 1, id, &no_position(), &later);
    cash.positions.insert(place.index(), &later);
}

/// Accepts a command on all loans, for which there is room: changes them, adds the command's rows, and moves
/// the custodial line.
pub(crate) fn accept_all<B: LoanBooks, L: Ledger>(
    count: u32,
    command: &Command,
    state: &mut State<B>,
    cash: &mut Cash,
    scratch: &mut Scratch,
    steps: &mut Steps<L>,
) -> Extra
    requires state { IsState count state.old.today state.old.loans state.old.seals }
    requires command { IsCommand command.now }
    requires scope { scope_of command.now ≡ scope.Every }
    requires fresh { refusal_of count (world_of state.old.today state.old.loans state.old.seals)
        command.now ≡ None }
    requires room { HasRoomForAll (today_after state.old.today command.now) state.old.loans state.old.seals
        cash.old.book.spare (vec_capacity scratch.old.lines) }
    requires cash { IsCash count (world_of state.old.today state.old.loans state.old.seals)
        cash.old.book.rows cash.old.custody cash.old.positions.items }
    ensures world { world_of state.new.today state.new.loans state.new.seals
        ≡ after (count + 1) (world_of state.old.today state.old.loans state.old.seals) command.now }
    ensures kept { All (IsKeptIn (world_of state.new.today state.new.loans state.new.seals))
        state.new.loans.loans }
    ensures extra { result ≡ extra_of (world_of state.old.today state.old.loans state.old.seals)
        (after (count + 1) (world_of state.old.today state.old.loans state.old.seals) command.now)
        command.now }
    ensures steps { steps.new ≤ steps.old + accepting_cost B.cost B.month_cost
        (world_of state.old.today state.old.loans state.old.seals)
        (world_of state.new.today state.new.loans state.new.seals) command.now }
    ensures rows { cash.new.book.rows ≡ cash.old.book.rows
        ++ rows_made (count + 1) (world_of state.old.today state.old.loans state.old.seals)
        (world_of state.new.today state.new.loans state.new.seals) }
    ensures custody { cash.new.custody
        ≡ custody_of (world_of state.new.today state.new.loans state.new.seals) }
    ensures positions { cash.new.positions.items
        ≡ positions_of (world_of state.new.today state.new.loans state.new.seals) }
{
    let today = state.today;
    let extra = change_all(count, command, state, &mut scratch.lines, steps);
    // within a month no money moves by itself
    if is_within_month(command, today) {
        return extra;
    }
    add_all_rows(cash, count + 1, state);
    extra
}

/// Whether a command moves the business day on within its month.
fn is_within_month(command: &Command, today: Day) -> bool
    ensures { IsTrue result → IsWithinMonth command.now today }
{
    match *command {
        Command::Day(day) => month_of(day).number() == month_of(today).number(),
        _ => false,
    }
}
