//! Links that are served over an empty journal, one after another.

ghost use Rattle.std.specs.Prelude.{◌≡◌, IfOk};

use serv_disk::{CalmDoors, CalmLink, MemDoors, MemLink};
use serv_links_tests::{DAY, DAY_SAID};
use serv_run_tests::{Given, NEW_JOURNAL, ONE_LINE, ending_at, over};
use serv_top::{Status, port_in};
use std::alloc::Global;
use svc_base::OutOfMemory;

/// What is said where the disk fails.
const FAILED: &str =
    "HTTP/1.1 500 Internal Server Error\r\nConnection: close\r\nContent-Length: 0\r\n\r\n";

/// The record of the day was written, and its commit byte was not.
const CLOSED: &[u8] = b"MSRVJ002\x00\x00\x00\x00\x01\x00\x11k1 day 2024-02-01\x00";

/// A link: its bytes, which of its reads and writes fails, or 0, and what is said on it.
type Peer = (&'static str, u32, u32, &'static str);

/// A link that asks for the day.
const ASKING: Peer = (DAY, 0, 0, DAY_SAID);

/// A link that asks for the day, and can be told nothing.
const UNHEARD: Peer = (DAY, 0, 1, "");

/// A link that has sent half a head where its second read fails.
const BROKEN: Peer = ("POST /v1/comm", 2, 0, "");

/// A link that asks for the day where the disk fails.
const FAILING: Peer = (DAY, 0, 0, FAILED);

/// How many links a run serves, and which of the calls of the disk, the sink and the doors fails, or 0.
type Case = (&'static str, u32, u32, u32);

const TEN: Case = ("10", 0, 0, 0);

/// What a run comes to: the number of its status, its output, and what reads of the disk give.
type End = (u8, &'static str, &'static [u8]);

/// The end of a run of one link.
const SERVED: End = (0, "served 1 requests 1 broken 0 cut 0 memory 0\n", ONE_LINE);

/// The link of a peer, with room for some writes.
fn link_of(alloc: Global, (bytes, read, write, _): &Peer) -> Result<MemLink, OutOfMemory> {
    let bytes = bytes.as_bytes().to_vec(alloc)?;
    let reads = [*read].to_vec(alloc)?;
    let mut link = MemLink::new(alloc, bytes, reads, [*write].to_vec(alloc)?);
    link.reserve(8, 4096)?;
    Ok(link)
}

/// The doors at which these links come, and which of their calls fails, or 0.
fn doors_of(alloc: Global, peers: &[Peer], door: u32) -> Result<MemDoors, OutOfMemory>
    ensures { IfOk result (λ doors. doors.links.out ≡ 0) }
{
    let mut links = Vec::new(alloc);
    for peer in peers {
        links.push(link_of(alloc, peer)?)?;
    }
    MemDoors::new(alloc, links, [door].to_vec(alloc)?)
}

/// Whether on each link that was handed back was said what its peer is to be told.
fn are_told(links: &[MemLink], peers: &[Peer]) -> bool {
    links
        .iter()
        .zip(peers)
        .all(|(link, peer)| link.content() == peer.3.as_bytes())
}

/// Whether a run over links, all of which come, ends so.
fn ends(alloc: Global, case: Case, peers: &[Peer], end: End) -> Result<bool, OutOfMemory> {
    let (links, call, write, door) = case;
    let (number, output, journal) = end;
    let given = Given {
        words: &["j", "serve", "8080", links],
        journal: NEW_JOURNAL,
        calls: &[call],
        input: b"",
        reads: &[],
        writes: &[write],
    };
    let mut doors = doors_of(alloc, peers, door)?;
    let ended = ending_at(alloc, &given, &mut doors)?;
    let is_told = are_told(doors.links_back(), peers) && ended.leaves(journal);
    Ok(is_told && ended.status.number() == number && ended.output.as_slice() == output.as_bytes())
}

#[test]
fn links_are_served_and_counted(rt: HostRuntime) {
    let alloc = rt.alloc();
    assert!(rt; matches!(ends(alloc, TEN, &[ASKING], SERVED), Ok(true)));
    // As many as were asked for.
    let one = ("1", 0, 0, 0);
    assert!(rt; matches!(ends(alloc, one, &[ASKING, ASKING], SERVED), Ok(true)));
}

#[test]
fn links_that_break_are_counted(rt: HostRuntime) {
    // The first one's command was accepted, and the second one gets the kept reply.
    let both = (0, "served 2 requests 1 broken 1 cut 0 memory 0\n", ONE_LINE);
    assert!(rt; matches!(ends(rt.alloc(), TEN, &[UNHEARD, ASKING], both), Ok(true)));
    let none = (
        0,
        "served 1 requests 0 broken 1 cut 0 memory 0\n",
        NEW_JOURNAL,
    );
    assert!(rt; matches!(ends(rt.alloc(), TEN, &[BROKEN], none), Ok(true)));
}

#[test]
fn doors_a_sink_and_a_disk_that_fail_end_the_run(rt: HostRuntime) {
    let alloc = rt.alloc();
    let doors = ("10", 0, 0, 2);
    assert!(rt; matches!(ends(alloc, doors, &[ASKING], (9, "", ONE_LINE)), Ok(true)));
    let sink = ("10", 0, 1, 0);
    assert!(rt; matches!(ends(alloc, sink, &[ASKING], (4, "", ONE_LINE)), Ok(true)));
    // The write of the record fails.
    let disk = ("10", 6, 0, 0);
    assert!(rt;
        matches!(
            ends(alloc, disk, &[FAILING, ASKING], (5, "", CLOSED)),
            Ok(true)
        )
    );
}

/// The doors of one link that asks for the day and never fails.
fn calm_doors(alloc: Global) -> Result<CalmDoors, OutOfMemory>
    ensures { IfOk result (λ doors. doors.out ≡ 0) }
{
    let mut links = Vec::new(alloc);
    links.push(CalmLink::new(DAY.as_bytes().to_vec(alloc)?))?;
    CalmDoors::new(alloc, links)
}

/// How the words end, where one link comes.
fn status_of(alloc: Global, port: &str, links: &str) -> Result<Status, OutOfMemory> {
    let words = ["j", "serve", port, links];
    let mut doors = calm_doors(alloc)?;
    let end = ending_at(alloc, &over(&words, NEW_JOURNAL, b""), &mut doors)?;
    Ok(end.status)
}

#[test]
fn ports_and_links_have_their_ranges(rt: HostRuntime) {
    for (port, links, status) in [
        ("1", "1", Status::Done),
        ("65535", "1000000", Status::Done),
        ("0", "1", Status::Usage),
        ("65536", "1", Status::Usage),
        ("08080", "1", Status::Usage),
        ("8080", "0", Status::Usage),
        ("8080", "1000001", Status::Usage),
        ("8080", "01", Status::Usage),
        ("", "1", Status::Usage),
    ] {
        let ended = status_of(rt.alloc(), port, links);
        assert!(rt; ended == Ok(status), "{port} {links}");
    }
}

#[test]
fn a_port_is_that_of_the_words(rt: HostRuntime) {
    assert_eq!(rt; port_in(&["j", "serve", "8080", "1"]), 8080);
    assert_eq!(rt; port_in(&["j", "serve", "8080", "0"]), 0);
    assert_eq!(rt; port_in(&["j", "drill", "40", "7"]), 0);
}
