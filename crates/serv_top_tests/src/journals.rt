//! Journals that are made, opened and refused.

use serv_run_tests::{NEW_JOURNAL, ONE_LINE, ending_of, over};
use serv_top::Status;
use std::alloc::Global;
use svc_base::OutOfMemory;

/// Whether `init` over this content ends so and leaves this.
fn is_made(
    alloc: Global,
    content: &[u8],
    status: Status,
    left: &[u8],
) -> Result<bool, OutOfMemory> {
    let end = ending_of(alloc, &over(&["j", "init"], content, b""))?;
    Ok(end.is(status, b"") && end.leaves(left))
}

#[test]
fn a_journal_is_made_of_nine_bytes_at_most(rt: HostRuntime) {
    for bytes in 0..33 {
        let content = &ONE_LINE[..bytes];
        let made = if bytes > 9 {
            is_made(rt.alloc(), content, Status::AlreadyThere, content)
        } else {
            is_made(rt.alloc(), content, Status::Done, NEW_JOURNAL)
        };
        assert!(rt; matches!(made, Ok(true)), "{bytes} bytes");
    }
}

/// Whether a journal is refused with this status, and left as it was.
fn is_refused(alloc: Global, journal: &[u8], status: Status) -> Result<bool, OutOfMemory> {
    let end = ending_of(alloc, &over(&["j", "apply"], journal, b""))?;
    Ok(end.is(status, b"") && end.leaves(journal))
}

#[test]
fn each_cut_of_a_journal_has_its_status(rt: HostRuntime) {
    for bytes in 0..33 {
        let status = match bytes {
            0..=7 => Status::NotJournal,
            32 => Status::Damaged(32),
            _ => Status::Damaged(8),
        };
        let refused = is_refused(rt.alloc(), &ONE_LINE[..bytes], status);
        assert!(rt; matches!(refused, Ok(true)), "{bytes} bytes");
    }
}

/// The journal of one line whose gate is closed, by 0 and by another byte.
const CLOSED: &[u8] = b"MSRVJ002\x00\x00\x00\x00\x01\x00\x11k1 day 2024-02-01\x00";

const CLOSED_BY_7: &[u8] = b"MSRVJ002\x07\x00\x00\x00\x01\x00\x11k1 day 2024-02-01\x00";

/// Whether a journal opens without a command, and is left with a gate of 0.
fn opens_empty(alloc: Global, journal: &[u8]) -> Result<bool, OutOfMemory> {
    let end = ending_of(alloc, &over(&["j", "apply"], journal, b"? rows 1\n"))?;
    Ok(end.is(Status::Done, b"no 13 NoSuchEntry\n") && end.leaves(CLOSED))
}

#[test]
fn a_closed_gate_is_made_0(rt: HostRuntime) {
    assert!(rt; matches!(opens_empty(rt.alloc(), CLOSED), Ok(true)));
    assert!(rt; matches!(opens_empty(rt.alloc(), CLOSED_BY_7), Ok(true)));
}
