//! From which moment of the disk on a reply counts.

use crate::noting::{Noted, Noting, NotingDoors, NotingLink};
use serv_disk::{CalmDoors, Disk};
use serv_links_tests::{DAY, DAY_SAID};
use serv_run_tests::{NEW_JOURNAL, disk_of, over, run_in_memory, sink_of, source_of};
use serv_top::Status;
use std::alloc::Global;
use svc_base::OutOfMemory;

/// A command, the same again, and an empty line.
const LINES: &[u8] = b"k1 day 2024-02-01\nk1 day 2024-02-01\n\n";

/// What is said to them.
const SAID: &[u8] = b"ok 1\nok 1\nbad 0\n";

/// Whether these are three writes that count from this moment, one of each reply.
fn are_noted(writes: &[Noted], at: u64) -> bool {
    writes
        == [
            Noted { at, upto: 5 },
            Noted { at, upto: 10 },
            Noted { at, upto: 16 },
        ]
        .as_slice()
}

/// Whether each of the three replies counts from the moment at which the command's last sync had been made: no further call
/// of the disk came.
fn is_noted_behind(alloc: Global) -> Result<bool, OutOfMemory> {
    let given = over(&["j", "apply"], NEW_JOURNAL, LINES);
    let mut src = source_of(alloc, &given)?;
    let mut snk = Noting::new(alloc);
    let mut disk = disk_of(alloc, &given)?;
    let mut doors = CalmDoors::new(alloc, Vec::new(alloc))?;
    let begun = disk.clock();
    let status = run_in_memory(alloc, &given, &mut src, &mut snk, &mut disk, &mut doors);
    let at = disk.clock();
    let replied = status == Status::Done && snk.content() == SAID;
    Ok(replied && begun < at && are_noted(snk.writes(), at))
}

#[test]
fn a_reply_counts_once_its_command_is_on_the_disk(rt: HostRuntime) {
    assert!(rt; matches!(is_noted_behind(rt.alloc()), Ok(true)));
}

/// Whether the response to a command counts from the moment at which the command's last sync had been made.
fn is_answered_behind(alloc: Global) -> Result<bool, OutOfMemory> {
    let given = over(&["j", "serve", "8080", "1"], NEW_JOURNAL, b"");
    let mut src = source_of(alloc, &given)?;
    let mut snk = sink_of(alloc, &given)?;
    let mut disk = disk_of(alloc, &given)?;
    let mut doors = NotingDoors::new(NotingLink::new(alloc, DAY.as_bytes().to_vec(alloc)?));
    let begun = disk.clock();
    let status = run_in_memory(alloc, &given, &mut src, &mut snk, &mut disk, &mut doors);
    let at = disk.clock();
    let upto = DAY_SAID.len() as u64;
    let noted = match doors.backed() {
        Some(link) => {
            link.content() == DAY_SAID.as_bytes()
                && link.writes() == [Noted { at, upto }].as_slice()
        }
        None => false,
    };
    Ok(status == Status::Done && begun < at && noted)
}

#[test]
fn a_response_counts_once_its_command_is_on_the_disk(rt: HostRuntime) {
    assert!(rt; matches!(is_answered_behind(rt.alloc()), Ok(true)));
}
