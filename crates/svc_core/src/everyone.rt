//! Commands on all loans: a business day, a month that is closed, and one that is remitted.

ghost use Rattle.std.specs.Prelude.{◌≡◌, ◌+◌, ◌<◌, ◌≤◌, Some, None, length, vec_capacity};
ghost use Rattle.std.specs.List.{All};
ghost use Rattle.svc_base.specs.Calendar.{last_day};
ghost use Rattle.svc_base.specs.Text.{IsReadMonth};
ghost use Rattle.svc_types.specs.declared.requests.Command.TheVariants as command;
ghost use Rattle.svc_types.specs.Requests.{IsCommand};
ghost use Rattle.period_adjust.specs.Conditions.{MayClose};
ghost use Rattle.period_adjust.specs.Kept.{remit_fault};
ghost use Rattle.period_adjust.specs.Totals as totals;
ghost use Rattle.svc_world.specs.World.{after, today_after};
ghost use Rattle.svc_world.specs.Refusals.{refusal_of};
ghost use Rattle.svc_world.specs.Judging.{extra_of};
ghost use Rattle.svc_loan.specs.Kept.{HasMonth};
ghost use Rattle.svc_loan.specs.Loans.{held_in};
ghost use Rattle.svc_custody.specs.Cash.{IsKeptIn};
ghost use Rattle.svc_core.specs.Costs as cost;
ghost use Rattle.svc_world.specs.Scope.{scope_of};
ghost use Rattle.svc_core.specs.State.{world_of, IsState};

use crate::reporting::fill_lines;
use crate::sent::{closed_extra, remit_lines, remitted_extra, report_of};
use period_adjust::{ReportLine, Seals};
use std::sync::ledger::Ledger;
use svc_base::{Day, Month, Steps};
use svc_replay::LoanBooks;
use svc_rules::State;
use svc_types::{Command, Extra};
use svc_world::Scope;

/// What a command on all loans, which nothing refuses, changes of the world, and what the reply to it says.
/// There is room for it, so it takes no memory and cannot fail.
pub(crate) fn change_all<B: LoanBooks, L: Ledger>(
    count: u32,
    command: &Command,
    state: &mut State<B>,
    lines: &mut Vec<ReportLine>,
    steps: &mut Steps<L>,
) -> Extra
    requires state { IsState count state.old.today state.old.loans state.old.seals }
    requires command { IsCommand command.now }
    requires scope { scope_of command.now ≡ Scope.Every }
    requires fresh { refusal_of count (world_of state.old.today state.old.loans state.old.seals)
        command.now ≡ None }
    requires loans { All (HasMonth (today_after state.old.today command.now)) state.old.loans.loans }
    requires lines { length state.old.loans.loans ≤ vec_capacity lines.old }
    requires report_lines { length state.old.loans.loans ≤ state.old.seals.line_room }
    requires report { 1 ≤ state.old.seals.report_room }
    ensures world { world_of state.new.today state.new.loans state.new.seals
        ≡ after (count + 1) (world_of state.old.today state.old.loans state.old.seals) command.now }
    ensures kept { All (IsKeptIn (world_of state.new.today state.new.loans state.new.seals))
        state.new.loans.loans }
    ensures extra { result ≡ extra_of (world_of state.old.today state.old.loans state.old.seals)
        (after (count + 1) (world_of state.old.today state.old.loans state.old.seals) command.now)
        command.now }
    ensures steps { steps.new ≤ steps.old + cost.accepting_cost B.cost B.month_cost
        (world_of state.old.today state.old.loans state.old.seals)
        (world_of state.new.today state.new.loans state.new.seals) command.now }
{
    match *command {
        Command::Day(day) => {
            change_day(count, day, state, steps);
            Extra::Plain
        }
        Command::Close(month) => change_close(count, month, state, lines, steps),
        Command::Remit(month) => change_remit(count, month, state),
        _ => unreachable!(),
    }
}

/// Moves the business day of all loans on. It takes no memory and cannot fail.
fn change_day<B: LoanBooks, L: Ledger>(
    count: u32,
    day: Day,
    state: &mut State<B>,
    steps: &mut Steps<L>,
)
    requires state { IsState count state.old.today state.old.loans state.old.seals }
    requires fresh { refusal_of count (world_of state.old.today state.old.loans state.old.seals)
        (command.Day day) ≡ None }
    requires loans { All (HasMonth day) state.old.loans.loans }
    ensures world { world_of state.new.today state.new.loans state.new.seals
        ≡ after (count + 1) (world_of state.old.today state.old.loans state.old.seals) (command.Day day) }
    ensures kept { All (IsKeptIn (world_of state.new.today state.new.loans state.new.seals))
        state.new.loans.loans }
    ensures steps { steps.new ≤ steps.old
        + cost.advancing_cost B.cost state.old.today (held_in state.new.loans.loans) }
{
    state.loans.advance(day, steps);
    state.today = day;
}

/// Closes a month, of which nothing is wrong: its report is sealed with a line of each loan that is
/// reported, and the month of each loan that was boarded by it is closed. There is room for it, so it takes
/// no memory and cannot fail.
fn change_close<B: LoanBooks, L: Ledger>(
    count: u32,
    month: Month,
    state: &mut State<B>,
    lines: &mut Vec<ReportLine>,
    steps: &mut Steps<L>,
) -> Extra
    requires state { IsState count state.old.today state.old.loans state.old.seals }
    requires month { IsReadMonth month }
    requires fresh { refusal_of count (world_of state.old.today state.old.loans state.old.seals)
        (command.Close month) ≡ None }
    requires loans { All (HasMonth state.old.today) state.old.loans.loans }
    requires lines { length state.old.loans.loans ≤ vec_capacity lines.old }
    requires report_lines { length state.old.loans.loans ≤ state.old.seals.line_room }
    requires report { 1 ≤ state.old.seals.report_room }
    ensures world { world_of state.new.today state.new.loans state.new.seals
        ≡ after (count + 1) (world_of state.old.today state.old.loans state.old.seals) (command.Close month) }
    ensures kept { All (IsKeptIn (world_of state.new.today state.new.loans state.new.seals))
        state.new.loans.loans }
    ensures extra { result ≡ extra_of (world_of state.old.today state.old.loans state.old.seals)
        (after (count + 1) (world_of state.old.today state.old.loans state.old.seals) (command.Close month))
        (command.Close month) }
    ensures steps { steps.new ≤ steps.old
        + cost.closing_cost B.month_cost month (held_in state.old.loans.loans) }
{
    state.loans.close(month, steps);
    fill_lines(lines, &state.loans, &state.seals, month);
    seal(&mut state.seals, month, state.today, lines);
    closed_extra(report_of(&state.seals, month))
}

/// Seals the report of a month that may be closed and has ended, for which there is room.
fn seal(seals: &mut Seals, month: Month, today: Day, lines: &[ReportLine])
    requires may { MayClose seals.old.reporting month lines.now }
    requires ended { last_day month < today }
    requires report { 1 ≤ seals.old.report_room }
    requires room { length lines.now ≤ seals.old.line_room }
    ensures done { seals.new.reporting ≡ totals.after seals.old.reporting (totals.Close month lines.now) }
    ensures remitted { seals.new.remitted ≡ seals.old.remitted }
{
    match seals.close(month, today, month, lines) {
        Ok(()) => {}
        Err(_) => unreachable!(),
    }
}

/// Remits a month, of which nothing is wrong, and adds what its report sends to what was remitted for each
/// loan. It takes no memory and cannot fail.
fn change_remit<B: LoanBooks>(count: u32, month: Month, state: &mut State<B>) -> Extra
    requires state { IsState count state.old.today state.old.loans state.old.seals }
    requires fresh { refusal_of count (world_of state.old.today state.old.loans state.old.seals)
        (command.Remit month) ≡ None }
    ensures world { world_of state.new.today state.new.loans state.new.seals
        ≡ after (count + 1) (world_of state.old.today state.old.loans state.old.seals) (command.Remit month) }
    ensures kept { All (IsKeptIn (world_of state.new.today state.new.loans state.new.seals))
        state.new.loans.loans }
    ensures extra { result ≡ extra_of (world_of state.old.today state.old.loans state.old.seals)
        (after (count + 1) (world_of state.old.today state.old.loans state.old.seals) (command.Remit month))
        (command.Remit month) }
{
    remit_month(&mut state.seals, month);
    let report = report_of(&state.seals, month);
    remit_lines(&mut state.loans, report.lines());
    remitted_extra(report)
}

/// Remits a month of which nothing is wrong.
fn remit_month(seals: &mut Seals, month: Month)
    requires { remit_fault seals.old.reporting.reports seals.old.remitted month ≡ None }
    ensures { seals.new ≡ record seals.old { remitted = Some month } }
{
    match seals.remit(month) {
        Ok(()) => {}
        Err(_) => unreachable!(),
    }
}
