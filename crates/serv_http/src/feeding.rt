//! Feeding a connection: one piece of its bytes after another.

ghost use Rattle.std.specs.Prelude.{◌≡◌, ◌≢◌, ℕ, ◌+◌, ◌≤◌, ◌<◌, ◌++◌, List, length, take, drop, Some, None, true, false, IfOk, OnErr, [], IsOkAnd};
ghost use Rattle.serv_http.specs.Routes.{table};
ghost use Rattle.serv_http.specs.Conns as conns;
ghost use Rattle.serv_http.specs.Streams as streams;
ghost use Rattle.serv_http.specs.Stages.{stage_fits};

use crate::ask::{Ask, Body, Due};
use crate::conn::Conn;
use crate::ending::has_ended;
use crate::lines::LineCount;
use crate::plan::BODY_LIMIT;
use crate::room::Room;
use crate::router::routes;
use crate::stage::Stage;
use crate::window::HEAD_LIMIT;
use std::alloc::Global;
use svc_base::OutOfMemory;

/// What is due, as it is asked.
pub(crate) fn asked(due: &Due) -> Ask
    ensures { result ≡ streams.ask_of due.now }
{
    match *due {
        Due::Get(query, last) => Ask::Get(query, last),
        Due::Fault(status, last, allow) => Ask::Fault(status, last, allow),
    }
}

/// Whether the connection ends after what is due.
pub(crate) fn is_last(due: &Due) -> bool
    ensures { result ≡ streams.ends (streams.ask_of due.now) }
{
    match *due {
        Due::Get(_, last) => last,
        Due::Fault(_, last, _) => last,
    }
}

/// The stage after a request.
pub(crate) fn after(last: bool) -> Stage
    ensures value { result ≡ conns.stage_after last }
    ensures fits { stage_fits result ≡ true }
{
    if last { Stage::Over } else { Stage::Heading }
}

/// The bytes of a body, in memory of its own.
pub(crate) fn body_of(alloc: Global, bytes: &[u8]) -> Result<Body, OutOfMemory>
    ensures { IfOk result (λ body. body ≡ bytes.now) }
{
    Ok(Body::from_vec(Vec::from_slice(alloc, bytes)?))
}

impl Conn {
    /// A connection of which no byte is read yet. It fails for want of memory alone.
    pub fn new(alloc: Global) -> Result<Conn, OutOfMemory>
        ensures { IfOk result (λ conn. conns.StandsFor conn []) }
    {
        Ok(Conn {
            router: routes(alloc)?,
            head: Room::new(alloc, HEAD_LIMIT)?,
            filled: 0,
            lines: LineCount::Blank,
            body: Room::new(alloc, BODY_LIMIT)?,
            stage: Stage::Heading,
        })
    }

    /// Whether the connection has ended. One that stands for bytes has not.
    pub fn is_over(&self) -> bool
        ensures value { result ≡ conns.is_over self.now }
        ensures stands { (s : List ℕ) → conns.StandsFor self.now s → result ≡ false }
    {
        has_ended(&self.stage)
    }
}
