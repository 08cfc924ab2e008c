//! Hostile and truncated requests over books in memory, whole and in pieces of one byte.

use crate::exchange::{DAY, DAY_SAID};
use crate::serving::{is_said, link_of, serve};
use serv_links::LinkEnd;
use std::alloc::{AllocError, Global};
use svc_base::OutOfMemory;

/// A request that comes after each other one, and what is said to it where the connection goes on.
const NEXT: &str = "GET /v1/custodial HTTP/1.1\r\n\r\n";

const NEXT_SAID: &str =
    "HTTP/1.1 200 OK\r\nContent-Length: 115\r\nContent-Type: application/json\r\n\r\n\
    {\"code\":0,\"text\":\"custodial T 0.00 P 0.00 suspense 0.00 \
    escrow 0.00 escrow-advance 0.00 held 0.00 pi-advance 0.00\"}";

/// What is said to a request that is none.
const BAD: &str = "HTTP/1.1 400 Bad Request\r\nContent-Length: 0\r\n\r\n";

/// Requests and what is said to them; the connection goes on.
const ANSWERED: [(&str, &str); 11] = [
    (
        "GET /v1/custodial?x=1 HTTP/1.1\r\n\r\n",
        "HTTP/1.1 404 Not Found\r\nContent-Length: 0\r\n\r\n",
    ),
    (
        "DELETE /v1/custodial HTTP/1.1\r\n\r\n",
        "HTTP/1.1 405 Method Not Allowed\r\nAllow: GET\r\nContent-Length: 0\r\n\r\n",
    ),
    ("GET /v1/loans/01/books HTTP/1.1\r\n\r\n", BAD),
    (
        "GET /v1/loans/1/books HTTP/1.1\r\n\r\n",
        "HTTP/1.1 409 Conflict\r\nContent-Length: 35\r\nContent-Type: application/json\r\n\r\n\
            {\"code\":5,\"text\":\"no 5 NoSuchLoan\"}",
    ),
    (
        "POST /v1/commands HTTP/1.1\r\nContent-Length: 2\r\n\r\n{}",
        BAD,
    ),
    (
        "POST /v1/commands HTTP/1.1\r\nContent-Length: 3\r\n\r\n[1]",
        BAD,
    ),
    (
        "POST /v1/commands HTTP/1.1\r\nContent-Length: 7\r\n\r\n{\"key\":",
        BAD,
    ),
    (
        "POST /v1/commands HTTP/1.1\r\nContent-Length: 43\r\n\r\n\
            {\"key\":\"k 1\",\"do\":\"day\",\"day\":\"2024-02-01\"}",
        BAD,
    ),
    (
        "POST /v1/commands HTTP/1.1\r\nContent-Length: 38\r\n\r\n\
            {\"key\":\"k1\",\"do\":\"day\",\"day\":20240201}",
        BAD,
    ),
    (
        "POST /v1/commands HTTP/1.1\r\nContent-Length: 48\r\n\r\n\
            {\"key\":\"k1\",\"do\":\"day\",\"day\":\"2024-02-01\",\"x\":1}",
        BAD,
    ),
    (
        "POST /v1/commands HTTP/1.1\r\nContent-Length: 44\r\n\r\n\
            {\"key\":\"k1\",\"do\":\"close\",\"period\":\"2024-02\"}",
        "HTTP/1.1 409 Conflict\r\nContent-Length: 46\r\nContent-Type: application/json\r\n\r\n\
            {\"code\":21,\"text\":\"no 21 WrongPeriod 1990-01\"}",
    ),
];

/// Requests and what is said to them; the connection ends.
const ENDED: [(&str, &str); 5] = [
    (
        "POST /v1/commands HTTP/1.1\r\n\r\n",
        "HTTP/1.1 411 Length Required\r\nConnection: close\r\nContent-Length: 0\r\n\r\n",
    ),
    (
        "POST /v1/commands HTTP/1.1\r\nTransfer-Encoding: chunked\r\n\r\n",
        "HTTP/1.1 411 Length Required\r\nConnection: close\r\nContent-Length: 0\r\n\r\n",
    ),
    (
        "POST /v1/commands HTTP/1.1\r\nContent-Length: 2049\r\n\r\n",
        "HTTP/1.1 413 Payload Too Large\r\nConnection: close\r\nContent-Length: 0\r\n\r\n",
    ),
    (
        "POST /v1/commands HTTP/1.1\r\nContent-Length: 2\r\nContent-Length: 2\r\n\r\n{}",
        "HTTP/1.1 400 Bad Request\r\nConnection: close\r\nContent-Length: 0\r\n\r\n",
    ),
    (
        "\x00",
        "HTTP/1.1 400 Bad Request\r\nConnection: close\r\nContent-Length: 0\r\n\r\n",
    ),
];

/// What is said to a head that is too long.
const TOO_LONG: &str =
    "HTTP/1.1 431 Request Header Fields Too Large\r\nConnection: close\r\nContent-Length: 0\r\n\r\n\
            ";

/// Two texts in a row.
fn joined(alloc: Global, first: &[u8], second: &str) -> Result<Vec<u8>, AllocError> {
    let mut bytes = first.to_vec(alloc)?;
    bytes.extend_from_slice(second.as_bytes())?;
    Ok(bytes)
}

/// Whether this is said to a request, and the next one is answered behind it.
fn goes_on(alloc: Global, request: &[u8], said: &str) -> Result<bool, OutOfMemory> {
    let bytes = joined(alloc, request, NEXT)?;
    let expected = joined(alloc, said.as_bytes(), NEXT_SAID)?;
    is_said(alloc, &bytes, LinkEnd::Ended(2), &expected)
}

/// Whether this is said to a request, and nothing behind it.
fn ends(alloc: Global, request: &[u8], said: &str) -> Result<bool, OutOfMemory> {
    let bytes = joined(alloc, request, NEXT)?;
    is_said(alloc, &bytes, LinkEnd::Ended(1), said.as_bytes())
}

#[test]
fn each_request_has_its_response(rt: HostRuntime) {
    for (request, said) in ANSWERED.iter() {
        assert!(rt;
            matches!(goes_on(rt.alloc(), request.as_bytes(), said), Ok(true)),
            "{request}"
        );
    }
    for (request, said) in ENDED.iter() {
        assert!(rt;
            matches!(ends(rt.alloc(), request.as_bytes(), said), Ok(true)),
            "{request}"
        );
    }
}

/// A text of so many bytes that begins and ends so, with one byte repeated between.
fn filled(
    alloc: Global,
    start: &str,
    fill: u8,
    end: &str,
    size: usize,
) -> Result<Vec<u8>, AllocError> {
    let mut bytes = Vec::from_slice(alloc, start.as_bytes())?;
    for _ in start.len().saturating_add(end.len())..size {
        bytes.push(fill)?;
    }
    bytes.extend_from_slice(end.as_bytes())?;
    Ok(bytes)
}

/// A head of so many header lines.
fn head_of(alloc: Global, lines: u32) -> Result<Vec<u8>, AllocError> {
    let mut bytes = Vec::from_slice(alloc, "GET /v1/custodial HTTP/1.1\r\n".as_bytes())?;
    for _ in 0..lines {
        bytes.extend_from_slice(b"a: b\r\n")?;
    }
    bytes.extend_from_slice(b"\r\n")?;
    Ok(bytes)
}

/// The start of a head with one header line.
const LONG_HEAD: &str = "GET /v1/custodial HTTP/1.1\r\na: ";

/// Whether a head of so many bytes that ends so has this response, and the connection ends.
fn long_head_ends(alloc: Global, size: usize, end: &str) -> Result<bool, OutOfMemory> {
    let head = filled(alloc, LONG_HEAD, b'x', end, size)?;
    ends(alloc, &head, TOO_LONG)
}

/// Whether a head of so many bytes is a request.
fn long_head_goes_on(alloc: Global, size: usize) -> Result<bool, OutOfMemory> {
    let head = filled(alloc, LONG_HEAD, b'x', "\r\n\r\n", size)?;
    goes_on(alloc, &head, NEXT_SAID)
}

/// Whether a head of 64 header lines is a request, and one of 65 is none.
fn has_at_most_64_lines(alloc: Global) -> Result<bool, OutOfMemory> {
    let most = head_of(alloc, 64)?;
    let more = head_of(alloc, 65)?;
    Ok(goes_on(alloc, &most, NEXT_SAID)? && ends(alloc, &more, TOO_LONG)?)
}

#[test]
fn a_head_has_at_most_8192_bytes_and_64_lines(rt: HostRuntime) {
    let alloc = rt.alloc();
    assert!(rt; matches!(long_head_goes_on(alloc, 8192), Ok(true)));
    assert!(rt; matches!(long_head_ends(alloc, 8193, "\r\n\r\n"), Ok(true)));
    assert!(rt; matches!(long_head_ends(alloc, 8192, ""), Ok(true)));
    assert!(rt; matches!(has_at_most_64_lines(alloc), Ok(true)));
}

/// The start of a request of a day whose head has 52 bytes and whose body has 2,048.
const LONG_DAY: &str = "POST /v1/commands HTTP/1.1\r\nContent-Length: 2048\r\n\r\n\
    {\"key\":\"k1\",\"do\":\"day\",\"day\":\"2024-02-01\"}";

/// Whether a request with a body of 2,048 bytes is answered.
fn long_body_goes_on(alloc: Global) -> Result<bool, OutOfMemory> {
    let request = filled(alloc, LONG_DAY, b' ', "", 2100)?;
    goes_on(alloc, &request, DAY_SAID)
}

#[test]
fn a_body_has_at_most_2048_bytes(rt: HostRuntime) {
    assert!(rt; matches!(long_body_goes_on(rt.alloc()), Ok(true)));
}

/// Whether what is said to a part of the exchange of a day is a part of what is said to all of it.
fn is_part(alloc: Global, size: usize) -> Result<bool, OutOfMemory> {
    let (front, _) = DAY.as_bytes().split_at(size.min(DAY.len()));
    let mut link = link_of(alloc, front, &[], &[])?;
    let end = serve(alloc, &mut link)?;
    Ok(matches!(end, LinkEnd::Ended(_)) && DAY_SAID.as_bytes().starts_with(link.content()))
}

#[test]
fn an_exchange_may_be_cut_anywhere(rt: HostRuntime) {
    for size in 0..DAY.len() {
        assert!(rt;
            matches!(is_part(rt.alloc(), size), Ok(true)),
            "{size} bytes"
        );
    }
}
