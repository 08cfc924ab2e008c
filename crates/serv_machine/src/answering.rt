//! What is decided about a request, and the text of the reply to it.

ghost use Rattle.std.specs.Prelude.{◌≡◌, ◌≢◌, ◌+◌, ◌≤◌, ◌++◌, [], Err, IfOk, OnErr, OnOk, Some};
ghost use Rattle.svc_types.specs.Requests.{IsCommand, IsQuery, IsRequest};
ghost use Rattle.svc_types.specs.declared.requests.Request.TheVariants as request;
ghost use Rattle.serv_disk.specs.Faults.{HasRisen};
ghost use Rattle.serv_machine.specs.Verdicts.{bound_of_request, commands_in, history_after_request, reply_to_request, IsAppending, IsFit, verdict_to};
ghost use Rattle.serv_machine.specs.History.{IsKeptBut, IsNear};
ghost use Rattle.serv_machine.specs.OnDisk.{OnDisk};

use crate::faults::{ActFault, Halt};
use crate::machine::Machine;
use crate::verdict::{Verdict, push_verdict};
use serv_disk::Disk;
use serv_line::{push_full, push_refusal, push_reply};
use std::sync::ledger::Ledger;
use svc_base::{OutOfMemory, Steps};
use svc_core::CoreFault;
use svc_types::{Command, Key, Query, Request};

/// Acts on a request, and appends the text of its reply; a fresh command is begun. Where it halts nothing is
/// appended; for want of memory a command may then be begun, or accepted, all the same.
pub fn answer_request<D: Disk, M: Machine<D>, L: Ledger>(
    machine: &mut M,
    disk: &mut D,
    request: &Request,
    out: &mut Vec<u8>,
    steps: &mut Steps<L>,
) -> Result<(), Halt>
    requires request { IsRequest request.now }
    requires ready { M.ready machine.old disk.old }
    ensures reply { OnOk result
        (out.new.items ≡ out.old.items ++ reply_to_request (M.history machine.old) request.now) }
    ensures same { OnErr result (out.new.items ≡ out.old.items) }
    ensures history { OnOk result (M.history machine.new
        ≡ history_after_request (M.history machine.old) request.now) }
    ensures near { IsNear (M.history machine.old) (history_after_request (M.history machine.old) request.now)
        (M.history machine.new) }
    ensures kept { result ≢ Err Halt.DiskFault → IsKeptBut (IsAppending (M.history machine.old) request.now)
        (M.history machine.old) (M.history machine.new) (M.kept machine.new) }
    ensures stopped { result ≡ Err Halt.DiskFault → (M.kept machine.new ≡ M.history machine.old)
        × HasRisen (D.faults disk.old) (D.faults disk.new) }
    ensures appending { result ≡ Err Halt.DiskFault → IsAppending (M.history machine.old) request.now }
    ensures disk { result ≢ Err Halt.DiskFault → OnDisk D.view disk.old disk.new
        (M.history machine.old) (M.kept machine.new) [] }
    ensures torn { result ≡ Err Halt.DiskFault → OnDisk D.view disk.old disk.new
        (M.history machine.old) (M.history machine.old) (commands_in request.now) }
    ensures running { result ≢ Err Halt.DiskFault → M.running machine.new disk.new }
    ensures failed { result ≡ Err Halt.DiskFault → M.failed machine.new }
    ensures faults { D.faults disk.old ≤ D.faults disk.new }
    ensures steps { steps.new ≤ steps.old + bound_of_request (M.history machine.old) request.now }
{
    match request {
        Request::Do(key, command) => answer_command(machine, disk, key, command, out, steps),
        Request::Ask(query) => {
            answer_query(machine, query, out, steps)?;
            Ok(())
        }
    }
}

/// Acts on a command, and appends its reply. It makes no verdict: one is as wide as an answer, and to copy it takes a line
/// 350 instructions.
#[tactic(auto, unfolding(crate::specs::Verdicts::reply_to_request, crate::specs::Verdicts::verdict_to, crate::specs::Verdicts::history_after_request, crate::specs::Verdicts::bound_of_request))]
fn answer_command<D: Disk, M: Machine<D>, L: Ledger>(
    machine: &mut M,
    disk: &mut D,
    key: &Key,
    command: &Command,
    out: &mut Vec<u8>,
    steps: &mut Steps<L>,
) -> Result<(), Halt>
    requires command { IsCommand command.now }
    requires ready { M.ready machine.old disk.old }
    ensures reply { OnOk result (out.new.items
        ≡ out.old.items ++ reply_to_request (M.history machine.old) (request.Do key.now command.now)) }
    ensures same { OnErr result (out.new.items ≡ out.old.items) }
    ensures history { OnOk result (M.history machine.new
        ≡ history_after_request (M.history machine.old) (request.Do key.now command.now)) }
    ensures near { IsNear (M.history machine.old)
        (history_after_request (M.history machine.old) (request.Do key.now command.now)) (M.history machine.new) }
    ensures kept { result ≢ Err Halt.DiskFault
        → IsKeptBut (IsAppending (M.history machine.old) (request.Do key.now command.now))
        (M.history machine.old) (M.history machine.new) (M.kept machine.new) }
    ensures stopped { result ≡ Err Halt.DiskFault → (M.kept machine.new ≡ M.history machine.old)
        × HasRisen (D.faults disk.old) (D.faults disk.new) }
    ensures appending { result ≡ Err Halt.DiskFault → IsAppending (M.history machine.old) (request.Do key.now command.now) }
    ensures disk { result ≢ Err Halt.DiskFault → OnDisk D.view disk.old disk.new
        (M.history machine.old) (M.kept machine.new) [] }
    ensures torn { result ≡ Err Halt.DiskFault → OnDisk D.view disk.old disk.new
        (M.history machine.old) (M.history machine.old) (commands_in (request.Do key.now command.now)) }
    ensures running { result ≢ Err Halt.DiskFault → M.running machine.new disk.new }
    ensures failed { result ≡ Err Halt.DiskFault → M.failed machine.new }
    ensures faults { D.faults disk.old ≤ D.faults disk.new }
    ensures steps { steps.new ≤ steps.old + bound_of_request (M.history machine.old) (request.Do key.now command.now) }
{
    match machine.begin(disk, key, command, steps) {
        Ok(reply) => {
            push_reply(out, &reply)?;
            Ok(())
        }
        Err(ActFault::Refused(why)) => {
            push_refusal(out, &why)?;
            Ok(())
        }
        Err(ActFault::Full(bytes)) => {
            push_full(out, bytes)?;
            Ok(())
        }
        Err(ActFault::DiskFault) => Err(Halt::DiskFault),
        Err(ActFault::OutOfMemory) => Err(Halt::OutOfMemory),
    }
}

/// Answers a query, and appends the answer.
#[tactic(auto, unfolding(crate::specs::Verdicts::reply_to_request))]
fn answer_query<D: Disk, M: Machine<D>, L: Ledger>(
    machine: &M,
    query: &Query,
    out: &mut Vec<u8>,
    steps: &mut Steps<L>,
) -> Result<(), OutOfMemory>
    requires { IsQuery query.now }
    ensures reply { OnOk result
        (out.new.items ≡ out.old.items ++ reply_to_request (M.history machine.now) (request.Ask query.now)) }
    ensures kept { OnErr result (out.new.items ≡ out.old.items) }
    ensures history { M.history machine.now ≡ history_after_request (M.history machine.now) (request.Ask query.now) }
    ensures steps { steps.new ≤ steps.old
        + bound_of_request (M.history machine.now) (request.Ask query.now) }
{
    let verdict = decide_query(machine, query, steps)?;
    push_verdict(out, &verdict)
}

/// Decides about a request; a fresh command is begun. Where it halts, no command is begun or accepted.
pub fn decide<D: Disk, M: Machine<D>, L: Ledger>(
    machine: &mut M,
    disk: &mut D,
    request: &Request,
    steps: &mut Steps<L>,
) -> Result<Verdict, Halt>
    requires request { IsRequest request.now }
    requires ready { M.ready machine.old disk.old }
    ensures verdict { IfOk result (λ v. verdict_to (M.history machine.old) request.now ≡ Some v) }
    ensures fit { IfOk result IsFit }
    ensures history { OnOk result (M.history machine.new
        ≡ history_after_request (M.history machine.old) request.now) }
    ensures kept { OnOk result (IsKeptBut (IsAppending (M.history machine.old) request.now)
        (M.history machine.old) (M.history machine.new) (M.kept machine.new)) }
    ensures same { OnErr result ((M.history machine.new ≡ M.history machine.old)
        × (M.kept machine.new ≡ M.history machine.old)) }
    ensures stopped { result ≡ Err Halt.DiskFault → HasRisen (D.faults disk.old) (D.faults disk.new) }
    ensures appending { result ≡ Err Halt.DiskFault → IsAppending (M.history machine.old) request.now }
    ensures disk { result ≢ Err Halt.DiskFault → OnDisk D.view disk.old disk.new
        (M.history machine.old) (M.kept machine.new) [] }
    ensures torn { result ≡ Err Halt.DiskFault → OnDisk D.view disk.old disk.new
        (M.history machine.old) (M.history machine.old) (commands_in request.now) }
    ensures running { result ≢ Err Halt.DiskFault → M.running machine.new disk.new }
    ensures failed { result ≡ Err Halt.DiskFault → M.failed machine.new }
    ensures faults { D.faults disk.old ≤ D.faults disk.new }
    ensures steps { steps.new ≤ steps.old + bound_of_request (M.history machine.old) request.now }
{
    match request {
        Request::Do(key, command) => decide_command(machine, disk, key, command, steps),
        Request::Ask(query) => match decide_query(machine, query, steps) {
            Ok(verdict) => Ok(verdict),
            Err(_) => Err(Halt::OutOfMemory),
        },
    }
}

/// Decides about a command, and begins it where it is fresh.
#[tactic(auto, unfolding(crate::specs::Verdicts::verdict_to, crate::specs::Verdicts::history_after_request, crate::specs::Verdicts::bound_of_request))]
fn decide_command<D: Disk, M: Machine<D>, L: Ledger>(
    machine: &mut M,
    disk: &mut D,
    key: &Key,
    command: &Command,
    steps: &mut Steps<L>,
) -> Result<Verdict, Halt>
    requires command { IsCommand command.now }
    requires ready { M.ready machine.old disk.old }
    ensures verdict { IfOk result (λ v.
        verdict_to (M.history machine.old) (request.Do key.now command.now) ≡ Some v) }
    ensures fit { IfOk result IsFit }
    ensures history { OnOk result (M.history machine.new
        ≡ history_after_request (M.history machine.old) (request.Do key.now command.now)) }
    ensures kept { OnOk result (IsKeptBut
        (IsAppending (M.history machine.old) (request.Do key.now command.now))
        (M.history machine.old) (M.history machine.new) (M.kept machine.new)) }
    ensures same { OnErr result ((M.history machine.new ≡ M.history machine.old)
        × (M.kept machine.new ≡ M.history machine.old)) }
    ensures stopped { result ≡ Err Halt.DiskFault → HasRisen (D.faults disk.old) (D.faults disk.new) }
    ensures appending { result ≡ Err Halt.DiskFault
        → IsAppending (M.history machine.old) (request.Do key.now command.now) }
    ensures disk { result ≢ Err Halt.DiskFault → OnDisk D.view disk.old disk.new
        (M.history machine.old) (M.kept machine.new) [] }
    ensures torn { result ≡ Err Halt.DiskFault → OnDisk D.view disk.old disk.new
        (M.history machine.old) (M.history machine.old) (commands_in (request.Do key.now command.now)) }
    ensures running { result ≢ Err Halt.DiskFault → M.running machine.new disk.new }
    ensures failed { result ≡ Err Halt.DiskFault → M.failed machine.new }
    ensures faults { D.faults disk.old ≤ D.faults disk.new }
    ensures steps { steps.new ≤ steps.old
        + bound_of_request (M.history machine.old) (request.Do key.now command.now) }
{
    match machine.begin(disk, key, command, steps) {
        Ok(reply) => Ok(Verdict::Reply(reply)),
        Err(ActFault::Refused(why)) => Ok(Verdict::Refused(why)),
        Err(ActFault::Full(bytes)) => Ok(Verdict::Full(bytes)),
        Err(ActFault::DiskFault) => Err(Halt::DiskFault),
        Err(ActFault::OutOfMemory) => Err(Halt::OutOfMemory),
    }
}

/// Decides about a query.
#[tactic(auto, unfolding(crate::specs::Verdicts::verdict_to, crate::specs::Verdicts::history_after_request, crate::specs::Verdicts::bound_of_request))]
pub fn decide_query<D: Disk, M: Machine<D>, L: Ledger>(
    machine: &M,
    query: &Query,
    steps: &mut Steps<L>,
) -> Result<Verdict, OutOfMemory>
    requires { IsQuery query.now }
    ensures verdict { IfOk result (λ v.
        verdict_to (M.history machine.now) (request.Ask query.now) ≡ Some v) }
    ensures fit { IfOk result IsFit }
    ensures history { M.history machine.now
        ≡ history_after_request (M.history machine.now) (request.Ask query.now) }
    ensures steps { steps.new ≤ steps.old + bound_of_request (M.history machine.now) (request.Ask query.now) }
{
    match machine.answer(query, steps) {
        Ok(answer) => Ok(Verdict::Answer(answer)),
        Err(CoreFault::Refused(why)) => Ok(Verdict::Refused(why)),
        Err(CoreFault::OutOfMemory) => Err(OutOfMemory),
    }
}
