//! The numbers that commands have in the part of a history.

ghost use Rattle.std.specs.Prelude.{◌≡◌, ◌≤◌, length, IfOk};
ghost use Rattle.servicing_transfer.specs.Parts as parts;
ghost use Rattle.servicing_transfer.specs.Passes.{place_among, places_to};
ghost use Rattle.servicing_transfer.specs.Sets.{set_of};

use crate::keeping::is_kept;
use crate::loan_set::Scope;
use std::alloc::Global;
use svc_base::OutOfMemory;
use svc_core::Core;
use svc_replay::LoanBooks;
use svc_types::Command;

/// How many of the first so many commands the part keeps, for 0 to all of them.
pub(crate) fn places<B: LoanBooks>(
    alloc: Global,
    core: &Core<B>,
    scope: &Scope,
) -> Result<Vec<u32>, OutOfMemory>
    requires least { scope.now.least ≡ parts.least_month (set_of scope.now.loans) core.now.history }
    ensures { IfOk result (λ v. v.items
        ≡ places_to (set_of scope.now.loans) core.now.history (length core.now.history)) }
{
    let mut places = Vec::new(alloc);
    let mut place = 0;
    places.push(place)?;
    for done in 0..core.count() {
        if is_kept(core, scope, done + 1) {
            place += 1;
        }
        places.push(place)?;
    }
    Ok(places)
}

/// A command as the part has it: a reversal names its entry by the number that this has in the part. A
/// number after the last command has the place of the last.
pub(crate) fn renumbered(places: &[u32], command: &Command) -> Command
    requires { 1 ≤ length places.now }
    ensures { result ≡ parts.renumbered (place_among places.now) command.now }
{
    match *command {
        Command::Reverse { loan, number } => {
            let last = places.len() - 1;
            Command::Reverse {
                loan,
                number: places[(number as usize).min(last)],
            }
        }
        command => command,
    }
}
