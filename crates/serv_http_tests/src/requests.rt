//! Requests whole, in pieces of one byte, and cut at each place.

use serv_http::{Allow, Ask, Conn};
use std::alloc::Global;
use std::test::Fail;
use svc_base::{OutOfMemory, write_day};
use svc_types::Query;

/// The exchange of a day.
pub const DAY: &str = "POST /v1/commands HTTP/1.1\r\nHost: a\r\nContent-Length: 42\r\n\r\n\
{\"key\":\"k1\",\"do\":\"day\",\"day\":\"2024-02-01\"}";

fn post_line(alloc: Global, size: usize, last: bool) -> Result<String, OutOfMemory> {
    Ok(format!(in alloc; "post {} {}\n", size, last)?)
}

fn get_line(alloc: Global, query: &Query, last: bool) -> Result<String, OutOfMemory> {
    match query {
        Query::Key(key) => key_line(alloc, key.bytes(), last),
        Query::Quote(loan, day) => quote_line(alloc, *loan, &write_day(*day), last),
        _ => Ok(format!(in alloc; "get {:?} {}\n", query, last)?),
    }
}

fn key_line(alloc: Global, key: &[u8], last: bool) -> Result<String, OutOfMemory> {
    match str::from_utf8(key) {
        Ok(text) => Ok(format!(in alloc; "get key {} {}\n", text, last)?),
        Err(_) => Err(OutOfMemory),
    }
}

fn quote_line(alloc: Global, loan: u32, day: &[u8], last: bool) -> Result<String, OutOfMemory> {
    match str::from_utf8(day) {
        Ok(text) => Ok(format!(in alloc; "get quote {} {} {}\n", loan, text, last)?),
        Err(_) => Err(OutOfMemory),
    }
}

fn fault_line(
    alloc: Global,
    status: u16,
    last: bool,
    allow: Option<Allow>,
) -> Result<String, OutOfMemory> {
    Ok(format!(in alloc; "{} {} {:?}\n", status, last, allow)?)
}

/// What was asked, as a line.
fn line_of(alloc: Global, ask: &Ask) -> Result<String, OutOfMemory> {
    match ask {
        Ask::Post(body, last) => post_line(alloc, body.bytes().len(), *last),
        Ask::Get(query, last) => get_line(alloc, query, *last),
        Ask::Fault(status, last, allow) => fault_line(alloc, *status, *last, *allow),
    }
}

fn push_asks(out: &mut String, alloc: Global, asks: &[Ask]) -> Result<(), OutOfMemory> {
    for ask in asks {
        out.push_str(line_of(alloc, ask)?.as_str())?;
    }
    Ok(())
}

/// What a stream asks in pieces of so many bytes, after a first one.
fn asked(alloc: Global, bytes: &[u8], first: usize, size: usize) -> Result<String, OutOfMemory> {
    let mut conn = Conn::new(alloc)?;
    let mut out = String::new(alloc);
    let mut rest = bytes;
    let mut next = first;
    for _ in 0..bytes.len().saturating_add(1) {
        if rest.is_empty() || conn.is_over() {
            break;
        }
        let (piece, after) = rest.split_at(next.max(1).min(rest.len()));
        push_asks(&mut out, alloc, &conn.feed(alloc, piece)?)?;
        rest = after;
        next = size;
    }
    Ok(out)
}

/// Whether it asks this.
pub fn asks(
    alloc: Global,
    bytes: &[u8],
    pieces: (usize, usize),
    want: &str,
) -> Result<bool, OutOfMemory> {
    Ok(asked(alloc, bytes, pieces.0, pieces.1)?.as_str() == want)
}

/// Whether a stream asks this, whole and in pieces of one byte.
pub fn asks_in_both_ways(alloc: Global, bytes: &[u8], want: &str) -> Result<bool, OutOfMemory> {
    let is_whole = asks(alloc, bytes, (bytes.len(), bytes.len()), want)?;
    Ok(asks(alloc, bytes, (1, 1), want)? && is_whole)
}

/// Whether a stream asks this, whole, in pieces of one byte, and cut at each place.
pub fn asks_in_any_way(alloc: Global, bytes: &[u8], want: &str) -> Result<bool, OutOfMemory> {
    for cut in 1..bytes.len() {
        if !asks(alloc, bytes, (cut, bytes.len()), want)? {
            return Ok(false);
        }
    }
    asks_in_both_ways(alloc, bytes, want)
}

const REQUESTS: [(&str, &str); 16] = [
    (DAY, "post 42 false\n"),
    ("GET /v1/nowhere HTTP/1.1\r\n\r\n", "404 false None\n"),
    (
        "GET /v1/commands HTTP/1.1\r\n\r\n",
        "405 false Some(Post)\n",
    ),
    (
        "PUT /v1/custodial HTTP/1.1\r\n\r\n",
        "405 false Some(Get)\n",
    ),
    ("POST /v1/commands HTTP/1.1\r\n\r\n", "411 true None\n"),
    (
        "GET /v1/custodial HTTP/1.1\r\n\r\nGET /v1/rows/7 HTTP/1.1\n\n",
        "get Custodial false\nget Rows(7) false\n",
    ),
    (
        "GET /v1/rows/7 HTTP/1.1\r\ncontent-LENGTH: 5\r\n\r\nGET /GET /v1/rows/8 HTTP/1.1\r\n\r\n",
        "get Rows(7) false\nget Rows(8) false\n",
    ),
    ("GET /v1/rows/7?a HTTP/1.1\r\n\r\n", "404 false None\n"),
    ("GET /v1/rows/%37 HTTP/1.1\r\n\r\n", "400 false None\n"),
    ("GET /v1/loans//books HTTP/1.1\r\n\r\n", "404 false None\n"),
    (
        "GET /v1/custodial HTTP/1.0\r\n\r\nGET / HTTP/1.1\r\n\r\n",
        "get Custodial true\n",
    ),
    (
        "GET /v1/custodial HTTP/1.1\r\nConnection: Close\r\n\r\n",
        "get Custodial true\n",
    ),
    (
        "POST /v1/commands HTTP/1.1\r\nTransfer-Encoding: chunked\r\nContent-Length: 2\r\n\r\n{}",
        "411 true None\n",
    ),
    (
        "POST /v1/commands HTTP/1.1\r\nContent-Length: 2\r\nContent-Length: 2\r\n\r\n{}",
        "400 true None\n",
    ),
    (
        "POST /v1/commands HTTP/1.1\r\nContent-Length: 2049\r\n\r\n",
        "413 true None\n",
    ),
    ("BAD\x01 / HTTP/1.1\r\n\r\n", "400 true None\n"),
];

#[test]
fn requests_are_asked(rt: HostRuntime) -> Result<(), Fail> {
    for (bytes, want) in REQUESTS.iter() {
        assert!(rt;
            asks_in_any_way(rt.alloc(), bytes.as_bytes(), want)?,
            "{bytes}"
        );
    }
    Ok(())
}

const QUERIES: [(&str, &str); 8] = [
    (
        "GET /v1/loans/12/books HTTP/1.1\r\n\r\n",
        "get Books(12) false\n",
    ),
    (
        "GET /v1/loans/12/escrow HTTP/1.1\r\n\r\n",
        "get Escrow(12) false\n",
    ),
    (
        "GET /v1/loans/012/books HTTP/1.1\r\n\r\n",
        "400 false None\n",
    ),
    (
        "GET /v1/loans/4294967296/books HTTP/1.1\r\n\r\n",
        "400 false None\n",
    ),
    (
        "GET /v1/loans/12/books/2024-02-30 HTTP/1.1\r\n\r\n",
        "400 false None\n",
    ),
    (
        "GET /v1/loans/12/books/2024-02-01/ HTTP/1.1\r\n\r\n",
        "404 false None\n",
    ),
    (
        "GET /v1/months/2024-13/report HTTP/1.1\r\n\r\n",
        "400 false None\n",
    ),
    (
        "GET /v1/months//report HTTP/1.1\r\n\r\n",
        "404 false None\n",
    ),
];

const DESK: [(&str, &str); 15] = [
    ("GET /v1/status HTTP/1.1\r\n\r\n", "get Status false\n"),
    ("GET /v1/aging HTTP/1.1\r\n\r\n", "get Aging false\n"),
    ("GET /v1/loans/12 HTTP/1.1\r\n\r\n", "get Loan(12) false\n"),
    (
        "GET /v1/loans/12/history HTTP/1.1\r\n\r\n",
        "get History(12) false\n",
    ),
    (
        "GET /v1/loans/12/arrears HTTP/1.1\r\n\r\n",
        "get Arrears(12) false\n",
    ),
    (
        "GET /v1/commands/8 HTTP/1.1\r\n\r\n",
        "get Command(8) false\n",
    ),
    (
        "POST /v1/commands/8 HTTP/1.1\r\n\r\n",
        "405 false Some(Get)\n",
    ),
    (
        "GET /v1/keys/A.z_0:9- HTTP/1.1\r\n\r\n",
        "get key A.z_0:9- false\n",
    ),
    ("GET /v1/keys/k%38 HTTP/1.1\r\n\r\n", "400 false None\n"),
    ("GET /v1/keys/ HTTP/1.1\r\n\r\n", "404 false None\n"),
    ("GET /v1/keys/k/8 HTTP/1.1\r\n\r\n", "404 false None\n"),
    ("GET /v1/loans/012 HTTP/1.1\r\n\r\n", "400 false None\n"),
    ("GET /v1/loans/ HTTP/1.1\r\n\r\n", "404 false None\n"),
    (
        "GET /v1/loans/12/quote/2024-06-30 HTTP/1.1\r\n\r\n",
        "get quote 12 2024-06-30 false\n",
    ),
    (
        "GET /v1/loans/12/quote/2024-02-30 HTTP/1.1\r\n\r\n",
        "400 false None\n",
    ),
];

#[test]
fn queries_of_the_desk_are_asked(rt: HostRuntime) -> Result<(), Fail> {
    for (bytes, want) in DESK.iter() {
        assert!(rt;
            asks(rt.alloc(), bytes.as_bytes(), (1, 1), want)?,
            "{bytes}"
        );
    }
    Ok(())
}

#[test]
fn queries_are_asked(rt: HostRuntime) -> Result<(), Fail> {
    for (bytes, want) in QUERIES.iter() {
        assert!(rt;
            asks(rt.alloc(), bytes.as_bytes(), (1, 1), want)?,
            "{bytes}"
        );
    }
    Ok(())
}

/// Each part of the exchange of a day that is not all of it asks nothing.
#[test]
fn a_request_that_is_cut_off_asks_nothing(rt: HostRuntime) -> Result<(), Fail> {
    for size in 0..DAY.len() {
        let (front, _) = DAY.as_bytes().split_at(size);
        assert!(rt; asks_in_both_ways(rt.alloc(), front, "")?, "cut at {size}");
    }
    Ok(())
}
