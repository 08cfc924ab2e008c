//! One submission of a command to books in memory.

ghost use Rattle.std.specs.Prelude.{◌≡◌, ◌+◌, ◌≤◌, IfOk, OnOk};
ghost use Rattle.svc_types.specs.Requests.{IsCommand};
ghost use Rattle.svc_world.specs.Judging.{judged};
ghost use Rattle.svc_core.specs.Bound.{step_bound};
ghost use Rattle.serv_drill.specs.Machine.{is_kept, net_by, net_in, submitted};

use std::sync::ledger::Ledger;
use svc_base::{Cents, OutOfMemory, Steps};
use svc_checkpoint::Checked;
use svc_core::{Core, CoreFault};
use svc_types::{Command, Extra, Key, Reply};

/// What a command was answered.
#[derive(Clone, Copy, Debug)]
pub(crate) struct Answered {
    /// Whether the reply was one that had been kept.
    pub(crate) kept: bool,
    /// What the investor is sent, as the reply says, in cents; 0 where it says nothing of it.
    pub(crate) net: Cents,
}

/// What the investor is sent, as a reply says, in cents; 0 where it says nothing of it.
fn net_of(reply: &Reply) -> Cents
    ensures { result ≡ net_in reply.now }
{
    match reply.extra {
        Extra::Remitted { net } => net,
        _ => 0,
    }
}

/// Submits a command. A refused one is answered too. Errs only where memory is short.
pub(crate) fn submit<L: Ledger>(
    core: &mut Core<Checked>,
    key: &Key,
    command: &Command,
    steps: &mut Steps<L>,
) -> Result<Answered, OutOfMemory>
    requires { IsCommand command.now }
    ensures kept { IfOk result (λ a. a.kept ≡ is_kept (judged core.old.history key.now command.now)) }
    ensures net { IfOk result (λ a. a.net
        ≡ net_by core.old.history command.now (judged core.old.history key.now command.now)) }
    ensures history { OnOk result (core.new.history ≡ submitted core.old.history key.now command.now) }
    ensures steps { steps.new ≤ steps.old + step_bound core.old.history key.now command.now }
{
    let before = core.count();
    match core.submit(key, command, steps) {
        Ok(reply) => Ok(Answered {
            kept: core.count() == before,
            net: net_of(&reply),
        }),
        Err(CoreFault::Refused(_)) => Ok(Answered {
            kept: false,
            net: 0,
        }),
        Err(CoreFault::OutOfMemory) => Err(OutOfMemory),
    }
}
