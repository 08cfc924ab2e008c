//! Whether the bytes so far begin with a head, and what it asks for.

ghost use Rattle.std.specs.Prelude.{◌≡◌, ◌≤◌, length};
ghost use Rattle.serv_http.specs.Counts.{IsCounted};
ghost use Rattle.serv_http.specs.Heads.{head_limit};
ghost use Rattle.serv_http.specs.Routes.{table};
ghost use Rattle.serv_http.specs.Judging.{IsFound, OpenAnswer};

use crate::found::Found;
use crate::lines::LineCount;
use crate::plan::plan_at;
use crate::route::Route;
use crate::target::ends_in_target;
use crate::window::{LINE_LIMIT, window};
use httparse::Status;
use httparse::spans::{EMPTY_HEADER_SPAN, parse_request};
use matchit::Router;

/// The answer on bytes that may still become a head: no more of them are looked at, or more are.
fn unfinished(closed: bool) -> Found
    ensures { OpenAnswer closed result }
{
    if closed { Found::TooLong } else { Found::Waits }
}

/// What the bytes so far are, as a head.
pub(crate) fn judge(router: &Router<Route>, buf: &[u8], lines: LineCount) -> Found
    requires length { length buf.now ≤ head_limit }
    requires counted { IsCounted buf.now lines }
    requires table { router.now ≡ table }
    ensures { IsFound buf.now result }
{
    let (count, closed) = window(buf, lines);
    let few = &buf[..count];
    let mut headers = [EMPTY_HEADER_SPAN; LINE_LIMIT];
    match parse_request(few, &mut headers) {
        Ok(Status::Complete(spans)) => Found::Whole(
            spans.len,
            plan_at(router, few, &headers, &spans),
        ),
        Ok(Status::Partial) => unfinished(closed),
        Err(_) => if ends_in_target(few) {
            unfinished(closed)
        } else {
            Found::Refused
        },
    }
}
