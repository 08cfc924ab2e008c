//! What a request of a connection means to the books.

ghost use Rattle.std.specs.Prelude.{◌≡◌, ◌++◌, IfOk, IfSome, OnErr, OnOk};
ghost use Rattle.svc_types.specs.Requests.{IsCommand};
ghost use Rattle.serv_links.specs.Meanings.{IsAsk, IsFormed, Means};

use crate::verdict::respond_verdict;
use serv_disk::Disk;
use serv_http::{Allow, Ask, respond};
use serv_json::{JsonFault, read_json};
use serv_machine::{Halt, Machine, Spoken, decide};
use std::alloc::Global;
use std::sync::ledger::Ledger;
use svc_base::{OutOfMemory, Steps};
use svc_types::{Command, Key, Query, Request};

/// What a request of a connection means; and whether the connection ends after its response.
#[derive(Drop)]
pub enum Meaning {
    /// A request of the books.
    Asks(Request, bool),
    /// A fault of HTTP: its status, with the route's method where it is 405.
    Faulty(u16, bool, Option<Allow>),
}

impl Spoken for Meaning {
    ghost use Rattle.serv_links.specs.Meanings.{IsFormed, saying_of};

    ghost saying = { saying_of };

    ghost formed = { IsFormed };

    fn command(&self) -> Option<(&Key, &Command)> {
        match self {
            Meaning::Asks(Request::Do(key, command), _) => Some((key, command)),
            _ => None,
        }
    }

    #[tactic(auto, unfolding(crate::specs::Meanings::response_to))]
    fn answer<D: Disk, M: Machine<D>, L: Ledger>(
        &self,
        machine: &mut M,
        disk: &mut D,
        out: &mut Vec<u8>,
        steps: &mut Steps<L>,
    ) -> Result<(), Halt> {
        match self {
            Meaning::Asks(request, ends) => {
                let verdict = decide(machine, disk, request, steps)?;
                let response = respond_verdict(*out.allocator(), &verdict, *ends)?;
                Ok(push_response(out, &response)?)
            }
            Meaning::Faulty(status, ends, allow) => {
                let response = respond(*out.allocator(), *status, b"", *ends, *allow)?;
                Ok(push_response(out, &response)?)
            }
        }
    }
}

/// Appends a response.
fn push_response(out: &mut Vec<u8>, response: &[u8]) -> Result<(), OutOfMemory>
    ensures added { OnOk result (out.new.items ≡ out.old.items ++ response.now) }
    ensures same { OnErr result (out.new.items ≡ out.old.items) }
{
    Ok(out.extend_from_slice(response)?)
}

/// Reads what a request means. Errs only where memory is short.
pub(crate) fn read_ask(alloc: Global, ask: &Ask) -> Result<Meaning, OutOfMemory>
    requires { IsAsk ask.now }
    ensures means { IfOk result (λ meaning. Means ask.now meaning) }
    ensures formed { IfOk result IsFormed }
{
    match ask {
        Ask::Post(body, last) => match read_json(alloc, body.bytes()) {
            Ok(request) => Ok(Meaning::Asks(request, *last)),
            Err(JsonFault::NotRequest) => Ok(Meaning::Faulty(400, *last, None)),
            Err(JsonFault::OutOfMemory) => Err(OutOfMemory),
        },
        Ask::Get(query, last) => Ok(Meaning::Asks(Request::Ask(*query), *last)),
        Ask::Fault(status, last, allow) => Ok(Meaning::Faulty(*status, *last, *allow)),
    }
}

/// The command that a request brings, with its key.
pub(crate) fn next_in(read: &Result<Meaning, OutOfMemory>) -> Option<(&Key, &Command)>
    requires { IfOk read.now IsFormed }
    ensures { IfSome result (λ c. IsCommand c.1.now) }
{
    match read {
        Ok(meaning) => meaning.command(),
        Err(_) => None,
    }
}
