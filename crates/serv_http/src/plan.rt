//! What a head asks for.

ghost use Rattle.std.specs.Prelude.{◌≡◌, ℕ, ◌≤◌, length, map, take, List, IsUtf8, All, true, if◌then◌else◌, Some, None};
ghost use Rattle.httparse.specs.Grammar.{RequestHead};
ghost use Rattle.httparse.specs.Spans.{IsRequestWithin, IsRequestAt, IsHeaderWithin, header_bytes};
ghost use Rattle.serv_http.specs.Routes.{table, route_of};
ghost use Rattle.serv_http.specs.Plans as plans;

use crate::ask::{Allow, Due, Plan};
use crate::fields::{has_line, is_text, length_of, says};
use crate::queries::query_of;
use crate::route::{ContentLength, Route};
use crate::router::find;
use httparse::spans::{HeaderSpan, RequestSpans};
use matchit::Router;

/// The most bytes of a body.
pub const BODY_LIMIT: usize = 2048;

/// The method of a route.
fn method_of(route: Route) -> Allow
    ensures { result ≡ plans.method_of route }
{
    match route {
        Route::Commands => Allow::Post,
        _ => Allow::Get,
    }
}

/// Whether a route has another method than this one.
fn has_other_method(route: Route, method: &[u8]) -> bool
    ensures { result ≡ plans.has_other_method route method.now }
{
    match method_of(route) {
        Allow::Get => !is_text(method, b"GET"),
        Allow::Post => !is_text(method, b"POST"),
    }
}

/// Whether a route takes a command.
fn is_command(route: Route) -> bool
    ensures { result ≡ plans.is_command route }
{
    match route {
        Route::Commands => true,
        _ => false,
    }
}

/// How many bytes the body has.
fn body_length(length: ContentLength) -> usize
    ensures { result ≡ plans.body_length length }
{
    match length {
        ContentLength::Given(n) => n,
        _ => 0,
    }
}

/// The question of a path, or 400 where it spells none.
fn question(route: Route, path: &[u8], size: usize, last: bool) -> Plan
    requires { size ≤ plans.body_limit }
    ensures fits { plans.PlanFits result }
    ensures value { plans.IsQuestion route path.now size last result }
{
    match query_of(route, path) {
        Some(query) => Plan::Pass(size, Due::Get(query, last)),
        None => Plan::Pass(size, Due::Fault(400, last, None)),
    }
}

/// The plan of a command, whose body has a length.
fn command(length: ContentLength, last: bool) -> Plan
    requires { plans.body_length length ≤ plans.body_limit }
    ensures fits { plans.PlanFits result }
    ensures value { result ≡ (if plans.is_missing length then Plan.Now (Due.Fault 411 true None)
        else Plan.Keep (plans.body_length length) last) }
{
    match length {
        ContentLength::Missing => Plan::Now(Due::Fault(411, true, None)),
        _ => Plan::Keep(body_length(length), last),
    }
}

/// The plan of a route.
fn routed(route: Route, length: ContentLength, method: &[u8], path: &[u8], last: bool) -> Plan
    requires { plans.body_length length ≤ plans.body_limit }
    ensures fits { plans.PlanFits result }
    ensures value { plans.IsRouted (Some route) length method.now path.now last result }
{
    if has_other_method(route, method) {
        return Plan::Pass(
            body_length(length),
            Due::Fault(405, last, Some(method_of(route))),
        );
    }
    if is_command(route) {
        command(length, last)
    } else {
        question(route, path, body_length(length), last)
    }
}

/// The plan of a head whose lengths are within the limits.
fn sized(
    router: &Router<Route>,
    length: ContentLength,
    method: &[u8],
    target: &[u8],
    last: bool,
) -> Plan
    requires table { router.now ≡ table }
    requires text { IsUtf8 target.now }
    requires small { plans.body_length length ≤ plans.body_limit }
    ensures fits { plans.PlanFits result }
    ensures value { plans.IsRouted (route_of target.now) length method.now target.now last result }
{
    match find(router, target) {
        Some(route) => routed(route, length, method, target, last),
        None => Plan::Pass(body_length(length), Due::Fault(404, last, None)),
    }
}

/// The status of the first fault of the lengths that a head says.
fn length_fault(encoded: bool, length: ContentLength) -> Option<u16>
    ensures { result ≡ plans.length_fault encoded length }
{
    if encoded {
        return Some(411);
    }
    match length {
        ContentLength::Bad => Some(400),
        ContentLength::Given(n) => if n > BODY_LIMIT { Some(413) } else { None },
        ContentLength::Missing => None,
    }
}

/// The plan of a head that the parser found.
pub(crate) fn plan_at(
    router: &Router<Route>,
    buf: &[u8],
    headers: &[HeaderSpan],
    spans: &RequestSpans,
) -> Plan
    requires table { router.now ≡ table }
    requires within { IsRequestWithin buf.now headers.now spans.now }
    requires text { IsUtf8 (plans.target_at buf.now spans.now) }
    ensures fits { plans.PlanFits result }
    ensures value { plans.IsPlanOf (map (header_bytes buf.now) (take spans.now.headers headers.now))
        spans.now.version (plans.method_at buf.now spans.now) (plans.target_at buf.now spans.now) result }
{
    let lines = &headers[..spans.headers];
    let length = length_of(buf, lines, b"content-length");
    if let Some(status) = length_fault(has_line(buf, lines, b"transfer-encoding"), length) {
        return Plan::Now(Due::Fault(status, true, None));
    }
    let last = spans.version == 0 || says(buf, lines, b"connection", b"close");
    sized(
        router,
        length,
        spans.method.of(buf),
        spans.path.of(buf),
        last,
    )
}
