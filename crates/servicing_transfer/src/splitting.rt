//! A history in two parts.

ghost use Rattle.std.specs.Prelude.{◌≡◌, ◌≤◌, ◌++◌, length, IfOk, OnOk};
ghost use Rattle.svc_world.specs.Judging.{nth_accepted};
ghost use Rattle.svc_core.specs.Posted.{history_of};
ghost use Rattle.servicing_transfer.specs.Parts as parts;
ghost use Rattle.servicing_transfer.specs.Passes.{part_with, place_among};
ghost use Rattle.servicing_transfer.specs.Sets.{set_of, months_of};
ghost use Rattle.servicing_transfer.specs.Splits.{Splits};

use crate::keeping::{is_for, least_month};
use crate::loan_set::{LoanSet, Scope};
use crate::places::{places, renumbered};
use std::alloc::Global;
use svc_base::OutOfMemory;
use svc_core::Core;
use svc_replay::LoanBooks;
use svc_types::{Command, Key};

/// The commands of the loans that are handed over, and of those that stay, each with its key.
#[derive(Debug, Drop)]
pub struct Halves {
    pub inside: Vec<(Key, Command)>,
    pub outside: Vec<(Key, Command)>,
}

/// Appends the command with a number, where the part keeps it.
fn push_kept<B: LoanBooks>(
    part: &mut Vec<(Key, Command)>,
    core: &Core<B>,
    scope: &Scope,
    places: &[u32],
    number: u32,
) -> Result<(), OutOfMemory>
    requires { 1 ≤ length places.now }
    ensures { OnOk result (history_of part.new.items ≡ history_of part.old.items
        ++ part_with (set_of scope.now.loans) (months_of scope.now) (place_among places.now)
        (nth_accepted core.now.history number)) }
{
    if let Some((key, command)) = core.posted(number) {
        if is_for(scope, &command) {
            part.push((key, renumbered(places, &command)))?;
        }
    }
    Ok(())
}

/// The part of the history that a set of loans keeps.
fn part<B: LoanBooks>(
    alloc: Global,
    core: &Core<B>,
    loans: LoanSet,
) -> Result<Vec<(Key, Command)>, OutOfMemory>
    ensures { IfOk result (λ v. history_of v.items ≡ parts.part_of (set_of loans) core.now.history) }
{
    let least = least_month(core, &loans);
    let scope = Scope { loans, least };
    let places = places(alloc, core, &scope)?;
    let mut part = Vec::new(alloc);
    for done in 0..core.count() {
        push_kept(&mut part, core, &scope, &places, done + 1)?;
    }
    Ok(part)
}

/// The history in two parts: that of the loans from one number to another, and that of all others. Each is a
/// history with its loans' books, dues and lines of reports as they are, and both custodial accounts hold for
/// the two together what they hold. Errs only where memory is short.
pub fn split<B: LoanBooks>(
    alloc: Global,
    core: &Core<B>,
    from: u32,
    to: u32,
) -> Result<Halves, OutOfMemory>
    requires { from ≤ to }
    ensures { IfOk result (λ v. Splits from to core.now.history
        (history_of v.inside.items) (history_of v.outside.items)) }
{
    core.history_holds();
    let inside = LoanSet {
        inside: true,
        from,
        to,
    };
    let outside = LoanSet {
        inside: false,
        from,
        to,
    };
    Ok(Halves {
        inside: part(alloc, core, inside)?,
        outside: part(alloc, core, outside)?,
    })
}
