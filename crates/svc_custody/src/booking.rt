//! The cash side of a command: its rows, the custodial line after it, and what custody holds for each loan.

ghost use Rattle.std.specs.Prelude.{◌≡◌, ◌+◌, ◌*◌, ◌≤◌, ◌<◌, ◌++◌, length, set, slice_index_or};
ghost use Rattle.std.specs.Bool.{Decides};
ghost use Rattle.std.specs.List.{All};
ghost use Rattle.custodial_book.specs.Rows.{rows_of};
ghost use Rattle.svc_world.specs.Custody.{custody_of};
ghost use Rattle.svc_loan.specs.Loans.{held_in};
ghost use Rattle.svc_rules.specs.State.{world_of};
ghost use Rattle.svc_custody.specs.Appending.{MayAppend, MayAppendAll, rows_along};
ghost use Rattle.svc_custody.specs.Positions as rule;
ghost use Rattle.svc_custody.specs.Positions.{CanRead, IsLine, IsPosition, line_in, positions_of, totals_in};
ghost use Rattle.svc_custody.specs.declared.position.Position.{Position as AnyPosition};

use crate::custody_line::line_after;
use crate::position::{Position, position_at};
use crate::positions::Positions;
use custodial_book::{Book, Totals};
use svc_replay::LoanBooks;
use svc_rules::State;
use svc_world::Custody;

/// The custodial rows of all commands, and what runs along: the custodial line, and what custody holds for
/// each loan.
#[derive(Drop)]
pub struct Cash {
    pub book: Book,
    pub custody: Custody,
    pub positions: Positions,
}

/// Adds the rows of a command for a loan, and moves the custodial line by what its position changed by. The
/// positions that are kept stay: the caller puts the later one in.
pub fn add_rows(cash: &mut Cash, number: u32, loan: u32, before: &Position, later: &Position)
    requires may { MayAppend number loan cash.old.book.rows before.now.totals later.now.totals }
    requires room { 11 ≤ cash.old.book.spare }
    requires line { IsLine cash.old.custody }
    requires before { IsPosition before.now }
    requires later { IsPosition later.now }
    ensures rows { cash.new.book.rows
        ≡ cash.old.book.rows ++ rows_of number loan before.now.totals later.now.totals }
    ensures custody { cash.new.custody ≡ rule.line_after cash.old.custody before.now later.now }
    ensures positions { cash.new.positions ≡ cash.old.positions }
    ensures spare { cash.old.book.spare ≤ cash.new.book.spare + 11 }
{
    append_reserved(&mut cash.book, number, loan, &before.totals, &later.totals);
    cash.custody = line_after(&cash.custody, before, later);
}

/// Adds the rows of a command for a loan, for which there is room.
fn append_reserved(book: &mut Book, number: u32, loan: u32, before: &Totals, later: &Totals)
    requires may { MayAppend number loan book.old.rows before.now later.now }
    requires room { 11 ≤ book.old.spare }
    ensures rows { book.new.rows ≡ book.old.rows ++ rows_of number loan before.now later.now }
    ensures room { book.old.spare ≤ book.new.spare + 11 }
{
    match book.append(number, loan, before, later) {
        Ok(()) => {}
        Err(_) => unreachable!(),
    }
}

/// Adds the rows of a command for all loans, by what custody held for each before it, moves the custodial line
/// by what changed, and keeps what custody holds for each loan then.
pub fn add_all_rows<B: LoanBooks>(cash: &mut Cash, number: u32, state: &State<B>)
    requires read { CanRead (world_of state.now.today state.now.loans state.now.seals) state.now.loans.loans }
    requires may { MayAppendAll number (world_of state.now.today state.now.loans state.now.seals)
        (totals_in cash.old.positions.items) cash.old.book.rows }
    requires room { 11 * length state.now.loans.loans ≤ cash.old.book.spare }
    requires line { cash.old.custody ≡ line_in cash.old.positions.items }
    requires before { All IsPosition cash.old.positions.items }
    ensures rows { cash.new.book.rows ≡ cash.old.book.rows ++ rows_along number
        (world_of state.now.today state.now.loans state.now.seals) (totals_in cash.old.positions.items)
        (held_in state.now.loans.loans) }
    ensures custody { cash.new.custody
        ≡ custody_of (world_of state.now.today state.now.loans state.now.seals) }
    ensures positions { cash.new.positions.items
        ≡ positions_of (world_of state.now.today state.now.loans state.now.seals) }
{
    for i in 0..state.loans.len() {
        let id = state.loans.at(i).id();
        let later = position_at(state, i);
        move_to(cash, number, id, i, &later);
    }
}

/// Adds the rows of a command for the loan at a place, moves the custodial line, and keeps what custody holds
/// for the loan then: for most loans of a command on all that is what it held before.
#[inline(always)]
fn move_to(cash: &mut Cash, number: u32, loan: u32, place: usize, later: &Position)
    requires place { place < length cash.old.positions.items }
    requires may { (d : AnyPosition) → MayAppend number loan cash.old.book.rows
        (slice_index_or cash.old.positions.items place d).totals later.now.totals }
    requires room { 11 ≤ cash.old.book.spare }
    requires line { IsLine cash.old.custody }
    requires before { All IsPosition cash.old.positions.items }
    requires later { IsPosition later.now }
    ensures rows { (d : AnyPosition) → cash.new.book.rows ≡ cash.old.book.rows
        ++ rows_of number loan (slice_index_or cash.old.positions.items place d).totals later.now.totals }
    ensures custody { (d : AnyPosition) → cash.new.custody
        ≡ rule.line_after cash.old.custody (slice_index_or cash.old.positions.items place d) later.now }
    ensures positions { cash.new.positions.items ≡ set cash.old.positions.items place later.now }
    ensures spare { cash.old.book.spare ≤ cash.new.book.spare + 11 }
{
    let before = cash.positions.at(place);
    if is_same(before, later) {
        return;
    }
    let before = *before;
    add_rows(cash, number, loan, &before, later);
    cash.positions.set(place, later);
}

/// Whether custody holds the same.
#[inline(always)]
fn is_same(before: &Position, later: &Position) -> bool
    ensures { Decides result (before.now ≡ later.now) }
{
    before == later
}
