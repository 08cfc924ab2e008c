//! Cores that were told the commands of lines.

ghost use Rattle.svc_types.specs.Requests.{IsRequest};

use serv_line::read_line;
use std::alloc::Global;
use std::sync::ledger::Ledger;
use std::test::Fail;
use svc_base::Steps;
use svc_checkpoint::Checked;
use svc_core::Core;
use svc_types::Request;

/// Whether a command is accepted.
fn is_accepted<L: Ledger>(core: &mut Core<Checked>, request: &Request, steps: &mut Steps<L>) -> bool
    requires { IsRequest request.now }
{
    match request {
        Request::Do(key, command) => core.submit(key, command, steps).is_ok(),
        Request::Ask(_) => false,
    }
}

/// Whether the command of a line is accepted; a line with nothing on it says nothing.
fn takes_line<L: Ledger>(core: &mut Core<Checked>, line: &[u8], steps: &mut Steps<L>) -> bool {
    match read_line(line) {
        Ok(request) => is_accepted(core, &request, steps),
        Err(_) => line.is_empty(),
    }
}

/// A core that has accepted the commands of these lines.
pub fn core_of<L: Ledger>(
    alloc: Global,
    history: &[u8],
    steps: &mut Steps<L>,
) -> Result<Core<Checked>, Fail> {
    let mut core = Core::<Checked>::new(alloc)?;
    for line in history.split(|b| *b == b'\n') {
        if !takes_line(&mut core, line, steps) {
            return Err(Fail::from("a line was not accepted"));
        }
    }
    Ok(core)
}
