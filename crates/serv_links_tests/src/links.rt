//! What is said on a link, and what faults leave of it.

use crate::counted::{DAYS, SAID_TO_DAYS};
use crate::engines::{EMPTY, failing_at};
use crate::exchange::{DAY, DAY_SAID, EXCHANGE, SAID};
use crate::other_links::Waiting;
use crate::serving::{is_said, link_of, serve, serve_on};
use serv_disk::MemLink;
use serv_links::LinkEnd;
use std::alloc::Global;
use svc_base::OutOfMemory;

#[test]
fn requests_are_answered_in_order(rt: HostRuntime) {
    let said = is_said(
        rt.alloc(),
        EXCHANGE.as_bytes(),
        LinkEnd::Ended(5),
        SAID.as_bytes(),
    );
    assert!(rt; matches!(said, Ok(true)));
}

/// The bytes of a link, which of its reads and writes fail, its end, and what is said on it.
type Row = (
    &'static str,
    &'static [u32],
    &'static [u32],
    LinkEnd,
    &'static str,
);

const FAULTS: [Row; 3] = [
    // The second read fails, after a request and in a head; the first write fails.
    (DAY, &[2], &[], LinkEnd::Broken(1), DAY_SAID),
    ("POST /v1/comm", &[2], &[], LinkEnd::Broken(0), ""),
    (DAY, &[], &[1], LinkEnd::Broken(0), ""),
];

/// Whether a link with faults ends as its row says.
fn breaks(alloc: Global, row: &Row) -> Result<bool, OutOfMemory> {
    let (bytes, reads, writes, end, said) = row;
    let mut link = link_of(alloc, bytes.as_bytes(), *reads, *writes)?;
    let ended = serve(alloc, &mut link)?;
    Ok(ended == *end && link.content() == said.as_bytes())
}

#[test]
fn a_fault_of_the_link_breaks_it(rt: HostRuntime) {
    for (number, row) in FAULTS.iter().enumerate() {
        assert!(rt; matches!(breaks(rt.alloc(), row), Ok(true)), "row {number}");
    }
}

/// What is said where the disk fails.
const FAILED: &str =
    "HTTP/1.1 500 Internal Server Error\r\nConnection: close\r\nContent-Length: 0\r\n\r\n";

/// Serves a link over an empty journal on a disk of which this call fails, or none where it is 0.
fn serve_failing(alloc: Global, call: u32, link: &mut MemLink) -> Result<LinkEnd, OutOfMemory> {
    let mut disk = failing_at(alloc, EMPTY, call)?;
    serve_on(alloc, &mut disk, link)
}

/// Whether what is said on a link is this text and then that one.
fn is_told(link: &MemLink, said: &[u8], last: &str) -> bool {
    link.content().strip_prefix(said) == Some(last.as_bytes())
}

/// Whether three days that are asked for in one piece over a disk of which this call fails end so: first ones of them are
/// answered, and where not all are, a 500 follows.
fn stops_at(alloc: Global, call: u32, answered: u32) -> Result<bool, OutOfMemory> {
    let (end, last) = if answered < 3 {
        (LinkEnd::Disk(answered), FAILED)
    } else {
        (LinkEnd::Ended(3), "")
    };
    let said = &SAID_TO_DAYS.as_bytes()[..DAY_SAID.len() * answered.min(3) as usize];
    let mut link = link_of(alloc, DAYS.as_bytes(), &[], &[])?;
    let ended = serve_failing(alloc, call, &mut link)?;
    Ok(ended == end && is_told(&link, said, last))
}

/// How many of the three days are answered where this call fails. Two calls lay the file ahead; where the second fails,
/// fewer zeros are laid. The first record takes a write and a sync, each further one two writes, the other of the commit
/// byte before it, and a sync; the last commit byte a write and a sync.
const STOPS: [(u32, u32); 13] = [
    (4, 0),
    (5, 3),
    (6, 0),
    (7, 0),
    (8, 0),
    (9, 0),
    (10, 0),
    (11, 1),
    (12, 1),
    (13, 1),
    (14, 2),
    (15, 2),
    (16, 3),
];

#[test]
fn no_response_comes_before_its_command_is_on_the_disk(rt: HostRuntime) {
    for (call, answered) in STOPS.iter() {
        let stops = stops_at(rt.alloc(), *call, *answered);
        assert!(rt; matches!(stops, Ok(true)), "call {call}");
    }
}

#[test]
fn a_response_is_written_before_the_next_read(rt: HostRuntime) {
    let mut link = Waiting::new();
    assert!(rt; matches!(serve(rt.alloc(), &mut link), Ok(LinkEnd::Ended(2))));
}
