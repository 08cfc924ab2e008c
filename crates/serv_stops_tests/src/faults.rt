//! Reads, writes and calls of the disk that fail.

use serv_run_tests::{Given, LINE, NEW_JOURNAL, ONE_LINE, ending_of, over};
use serv_top::Status;
use std::alloc::Global;
use svc_base::OutOfMemory;

/// The word, the input, the read and the write that fail, or 0; the number of the status and the output.
type Row = (&'static str, &'static str, u32, u32, u8, &'static str);

const DAY: &str = "k1 day 2024-02-01\n";

/// The same without the line feed.
const OPEN_DAY: &str = "k1 day 2024-02-01";

/// Lines in memory.
const IN_MEMORY: [Row; 6] = [
    ("session", DAY, 0, 0, 0, "ok 1\n"),
    ("session", "", 0, 0, 0, ""),
    ("session", OPEN_DAY, 0, 0, 0, "ok 1\n"),
    ("session", DAY, 2, 0, 3, "ok 1\n"),
    ("session", DAY, 1, 0, 3, ""),
    ("session", DAY, 0, 1, 4, ""),
];

/// The same over a journal.
const OVER_A_JOURNAL: [Row; 6] = [
    ("apply", DAY, 0, 0, 0, "ok 1\n"),
    ("apply", "", 0, 0, 0, ""),
    ("apply", OPEN_DAY, 0, 0, 0, "ok 1\n"),
    ("apply", DAY, 2, 0, 3, "ok 1\n"),
    ("apply", DAY, 1, 0, 3, ""),
    ("apply", DAY, 0, 1, 4, ""),
];

/// A text about the input, all of which is read first.
const ABOUT_THE_INPUT: [Row; 3] = [
    ("confirm", DAY, 0, 0, 0, "bad 1\n"),
    ("confirm", DAY, 2, 0, 3, ""),
    ("confirm", DAY, 0, 1, 4, ""),
];

/// Whether the run of a row ends as the row says.
fn ends(alloc: Global, row: &Row) -> Result<bool, OutOfMemory> {
    let (word, input, read, write, number, output) = row;
    let given = Given {
        words: &["j", *word],
        journal: NEW_JOURNAL,
        calls: &[],
        input: input.as_bytes(),
        reads: &[*read],
        writes: &[*write],
    };
    let end = ending_of(alloc, &given)?;
    Ok(end.status.number() == *number && end.output.as_slice() == output.as_bytes())
}

/// The first row whose run ends otherwise.
fn first_otherwise(alloc: Global, rows: &[Row]) -> Option<usize> {
    for (number, row) in rows.iter().enumerate() {
        if !matches!(ends(alloc, row), Ok(true)) {
            return Some(number);
        }
    }
    None
}

#[test]
fn each_status_has_its_output_in_memory(rt: HostRuntime) {
    assert_eq!(rt; first_otherwise(rt.alloc(), &IN_MEMORY), None);
}

#[test]
fn each_status_has_its_output_over_a_journal(rt: HostRuntime) {
    assert_eq!(rt; first_otherwise(rt.alloc(), &OVER_A_JOURNAL), None);
}

#[test]
fn each_status_of_a_text_about_the_input_has_its_output(rt: HostRuntime) {
    assert_eq!(rt; first_otherwise(rt.alloc(), &ABOUT_THE_INPUT), None);
}

/// Whether a command is in the journal though the sink failed at its reply.
fn is_kept_unheard(alloc: Global) -> Result<bool, OutOfMemory> {
    let given = Given {
        words: &["j", "apply"],
        journal: NEW_JOURNAL,
        calls: &[],
        input: LINE,
        reads: &[],
        writes: &[1],
    };
    let end = ending_of(alloc, &given)?;
    Ok(end.is(Status::WriteFault, b"") && end.leaves(ONE_LINE))
}

/// Whether a command that comes again has its reply again, and the journal is left so.
fn is_answered_again(alloc: Global, journal: &[u8], left: &[u8]) -> Result<bool, OutOfMemory> {
    let end = ending_of(alloc, &over(&["j", "apply"], journal, LINE))?;
    Ok(end.is(Status::Done, b"ok 1\n") && end.leaves(left))
}

/// The journal of one line in version 1, 29 bytes.
const OLD_LINE: &[u8] = b"MSRVJ001\x01\x00\x11k1 day 2024-02-01\x00";

/// What it is once it was opened: the byte at its end is 2, and the journal of version 2 follows.
const UPGRADED: &[u8] = b"MSRVJ001\x01\x00\x11k1 day 2024-02-01\x02\
    MSRVJ002\x01\x00\x00\x00\x01\x00\x11k1 day 2024-02-01\x00";

#[test]
fn a_line_is_in_the_journal_and_acts_once(rt: HostRuntime) {
    let alloc = rt.alloc();
    assert!(rt; matches!(is_kept_unheard(alloc), Ok(true)));
    assert!(rt; matches!(is_answered_again(alloc, ONE_LINE, ONE_LINE), Ok(true)));
    assert!(rt; matches!(is_answered_again(alloc, OLD_LINE, UPGRADED), Ok(true)));
}

/// Whether a run of which this call of the disk fails ends with DiskFault and no reply. Where the run makes no
/// such call, it is answered.
fn ends_at_the_disk(alloc: Global, call: u32) -> Result<bool, OutOfMemory> {
    let given = Given {
        words: &["j", "apply"],
        journal: NEW_JOURNAL,
        calls: &[call],
        input: LINE,
        reads: &[],
        writes: &[],
    };
    let end = ending_of(alloc, &given)?;
    if end.status == Status::Done {
        return Ok(call > 1 && end.is(Status::Done, b"ok 1\n"));
    }
    Ok(end.is(Status::DiskFault, b""))
}

#[test]
fn a_disk_that_fails_ends_the_run(rt: HostRuntime) {
    for call in 1..12 {
        assert!(rt;
            matches!(ends_at_the_disk(rt.alloc(), call), Ok(true)),
            "call {call}"
        );
    }
}
