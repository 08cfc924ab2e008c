//! Hostile and truncated requests: each whole, in pieces of one byte, and cut at each place.

use crate::requests::asks_in_any_way;
use std::alloc::Global;
use std::test::Fail;
use svc_base::OutOfMemory;

/// What comes after each request; it asks `get Custodial false` where the connection goes on.
const NEXT: &[u8] = b"GET /v1/custodial HTTP/1.1\r\n\r\n";

/// Whether a request, with another after it, asks this.
fn asks_before_another(alloc: Global, bytes: &str, want: &str) -> Result<bool, OutOfMemory> {
    let mut both = bytes.as_bytes().to_vec(alloc)?;
    both.extend_from_slice(NEXT)?;
    asks_in_any_way(alloc, &both, want)
}

const TARGETS_AND_HEADS: [(&str, &str); 10] = [
    (
        "GET /v1/custodial?x=1 HTTP/1.1\r\n\r\n",
        "404 false None\nget Custodial false\n",
    ),
    (
        "DELETE /v1/custodial HTTP/1.1\r\n\r\n",
        "405 false Some(Get)\nget Custodial false\n",
    ),
    (
        "GET /v1/loans/01/books HTTP/1.1\r\n\r\n",
        "400 false None\nget Custodial false\n",
    ),
    (
        "GET /v1/loans/1/books HTTP/1.1\r\n\r\n",
        "get Books(1) false\nget Custodial false\n",
    ),
    (
        "GET /v1/loans/1#/books HTTP/1.1\r\n\r\n",
        "400 false None\nget Custodial false\n",
    ),
    (
        "GET /v1/loans/1/2/books HTTP/1.1\r\n\r\n",
        "404 false None\nget Custodial false\n",
    ),
    (
        "GET * HTTP/1.1\r\n\r\n",
        "404 false None\nget Custodial false\n",
    ),
    (
        "POST /v1/commands HTTP/1.1\r\nContent-Length: 000000002\r\n\r\n{}",
        "post 2 false\nget Custodial false\n",
    ),
    (
        "GET /v1/custodial HTTP/1.1\r\nConnection: keep-alive, closed, c lose\r\n\r\n",
        "get Custodial false\nget Custodial false\n",
    ),
    (
        "\r\n\nGET /v1/rows/7 HTTP/1.1\r\n\r\n",
        "get Rows(7) false\nget Custodial false\n",
    ),
];

#[test]
fn connections_go_on_after_a_wrong_target(rt: HostRuntime) -> Result<(), Fail> {
    for (bytes, want) in TARGETS_AND_HEADS.iter() {
        assert!(rt; asks_before_another(rt.alloc(), bytes, want)?, "{bytes}");
    }
    Ok(())
}

const BODIES: [(&str, &str); 6] = [
    (
        "POST /v1/commands HTTP/1.1\r\nContent-Length: 2\r\n\r\n{}",
        "post 2 false\nget Custodial false\n",
    ),
    (
        "POST /v1/commands HTTP/1.1\r\nContent-Length: 3\r\n\r\n[1]",
        "post 3 false\nget Custodial false\n",
    ),
    (
        "POST /v1/commands HTTP/1.1\r\nContent-Length: 7\r\n\r\n{\"key\":",
        "post 7 false\nget Custodial false\n",
    ),
    (
        "POST /v1/commands HTTP/1.1\r\nContent-Length: 43\r\n\r\n{\"key\":\"k 1\",\"do\":\"day\",\"day\":\"2024-02-01\"}",
        "post 43 false\nget Custodial false\n",
    ),
    (
        "POST /v1/commands HTTP/1.1\r\nContent-Length: 38\r\n\r\n{\"key\":\"k1\",\"do\":\"day\",\"day\":20240201}",
        "post 38 false\nget Custodial false\n",
    ),
    (
        "POST /v1/commands HTTP/1.1\r\nContent-Length: 48\r\n\r\n{\"key\":\"k1\",\"do\":\"day\",\"day\":\"2024-02-01\",\"x\":1}",
        "post 48 false\nget Custodial false\n",
    ),
];

#[test]
fn any_body_is_handed_on(rt: HostRuntime) -> Result<(), Fail> {
    for (bytes, want) in BODIES.iter() {
        assert!(rt; asks_before_another(rt.alloc(), bytes, want)?, "{bytes}");
    }
    Ok(())
}

const LENGTHS: [(&str, &str); 12] = [
    ("POST /v1/commands HTTP/1.1\r\n\r\n", "411 true None\n"),
    (
        "POST /v1/commands HTTP/1.1\r\nTransfer-Encoding: chunked\r\n\r\n0\r\n\r\n",
        "411 true None\n",
    ),
    (
        "GET /v1/custodial HTTP/1.1\r\ntransfer-encoding: chunked\r\n\r\n",
        "411 true None\n",
    ),
    (
        "POST /v1/commands HTTP/1.1\r\nContent-Length: 2049\r\n\r\n",
        "413 true None\n",
    ),
    (
        "GET /v1/nowhere HTTP/1.1\r\nContent-Length: 2049\r\n\r\n",
        "413 true None\n",
    ),
    (
        "POST /v1/commands HTTP/1.1\r\nContent-Length: 2\r\nContent-Length: 2\r\n\r\n{}",
        "400 true None\n",
    ),
    (
        "POST /v1/commands HTTP/1.1\r\nContent-Length: -1\r\n\r\n",
        "400 true None\n",
    ),
    (
        "POST /v1/commands HTTP/1.1\r\nContent-Length: 0000000002\r\n\r\n{}",
        "400 true None\n",
    ),
    (
        "POST /v1/commands HTTP/1.1\r\nContent-Length:\r\n\r\n",
        "400 true None\n",
    ),
    (
        "POST /v1/commands HTTP/1.1\r\nContent-Length: 2, 2\r\n\r\n{}",
        "400 true None\n",
    ),
    (
        "POST /v1/commands HTTP/1.1\r\nContent-Length: +2\r\n\r\n{}",
        "400 true None\n",
    ),
    (
        "POST /v1/commands HTTP/1.1\r\nContent-Length : 2\r\n\r\n{}",
        "400 true None\n",
    ),
];

#[test]
fn a_wrong_length_ends_the_connection(rt: HostRuntime) -> Result<(), Fail> {
    for (bytes, want) in LENGTHS.iter() {
        assert!(rt; asks_before_another(rt.alloc(), bytes, want)?, "{bytes}");
    }
    Ok(())
}

const LAST_ONES: [(&str, &str); 9] = [
    (
        "GET /v1/custodial HTTP/1.1\r\nConnection: close, x\r\n\r\n",
        "get Custodial true\n",
    ),
    (
        "GET /v1/custodial HTTP/1.1\r\nConnection: keep-alive ,\tClose ,\r\n\r\n",
        "get Custodial true\n",
    ),
    (
        "GET /v1/custodial HTTP/1.1\r\nConnection: keep-alive\r\nConnection: close\r\n\r\n",
        "get Custodial true\n",
    ),
    (
        "GET /v1/nowhere HTTP/1.1\r\nConnection: \tCLOSE \r\n\r\n",
        "404 true None\n",
    ),
    (
        "PUT /v1/commands HTTP/1.0\r\nConnection: keep-alive\r\nContent-Length: 3\r\n\r\nabc",
        "405 true Some(Post)\n",
    ),
    (
        "POST /v1/commands HTTP/1.1\r\nConnection: close\r\nContent-Length: 0\r\n\r\n",
        "post 0 true\n",
    ),
    ("\0", "400 true None\n"),
    ("\r\r\n", "400 true None\n"),
    ("GET /v1/custodial HTTP/2.0\r\n", "400 true None\n"),
];

#[test]
fn a_connection_ends_as_it_is_asked(rt: HostRuntime) -> Result<(), Fail> {
    for (bytes, want) in LAST_ONES.iter() {
        assert!(rt; asks_before_another(rt.alloc(), bytes, want)?, "{bytes}");
    }
    Ok(())
}
