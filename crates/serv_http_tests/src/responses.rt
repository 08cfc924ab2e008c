//! Responses.

use serv_http::{Allow, respond};
use std::alloc::Global;
use std::test::Fail;
use svc_base::OutOfMemory;

const BODY: &[u8] = b"{\"code\":0,\"number\":1,\"text\":\"ok 1\"}";

const ANSWERED: &str =
    "HTTP/1.1 200 OK\r\nContent-Length: 35\r\nContent-Type: application/json\r\n\r\n\
{\"code\":0,\"number\":1,\"text\":\"ok 1\"}";

fn answered(alloc: Global) -> Result<Vec<u8>, OutOfMemory> {
    respond(alloc, 200, BODY, false, None)
}

const NOT_ALLOWED: &str =
    "HTTP/1.1 405 Method Not Allowed\r\nAllow: POST\r\nContent-Length: 0\r\n\r\n";

fn not_allowed(alloc: Global) -> Result<Vec<u8>, OutOfMemory> {
    respond(alloc, 405, b"", false, Some(Allow::Post))
}

const FAILED: &str =
    "HTTP/1.1 503 Service Unavailable\r\nConnection: close\r\nContent-Length: 0\r\n\r\n";

fn failed(alloc: Global) -> Result<Vec<u8>, OutOfMemory> {
    respond(alloc, 503, b"", true, None)
}

#[test]
fn responses_have_their_bytes(rt: HostRuntime) -> Result<(), Fail> {
    assert_eq!(rt; answered(rt.alloc())?.as_slice(), ANSWERED.as_bytes());
    assert_eq!(rt; not_allowed(rt.alloc())?.as_slice(), NOT_ALLOWED.as_bytes());
    assert_eq!(rt; failed(rt.alloc())?.as_slice(), FAILED.as_bytes());
    Ok(())
}
