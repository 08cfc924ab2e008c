//! Lines that are begun, and committed by a later call.

ghost use Rattle.std.specs.Prelude.{◌≡◌, ◌≤◌, ◌^◌, IfSome};
ghost use Rattle.serv_journal.specs.Format.{IsLine};

use crate::worked::{LIMIT, NO_LINE, ONE_LINE, are_lines, disk_of, is_laid};
use serv_disk::{Disk, MemDisk, Torn};
use serv_journal::{Journal, Version, init};
use std::alloc::Global;
use std::test::Fail;

const LINES: [&[u8]; 3] = [b"k1 day 2024-02-01", b"two", b"three"];

/// `ONE_LINE` with `two` begun behind it.
const ONE_BEGUN: &[u8] =
    b"MSRVJ002\x01\x00\x00\x00\x01\x00\x11k1 day 2024-02-01\x00\x00\x00\x00\x02\x00\x03two\x00";

/// The same with `two` committed and `three` begun.
const TWO_BEGUN: &[u8] = b"MSRVJ002\x01\x00\x00\x00\x01\x00\x11k1 day 2024-02-01\
\x01\x00\x00\x00\x02\x00\x03two\x00\x00\x00\x00\x03\x00\x05three\x00";

/// Whether a line is begun, where it may be.
#[tactic(auto, using(serv_journal::proofs::FormatLemmas::number_two))]
fn begin(journal: &mut Journal, disk: &mut MemDisk, line: &[u8]) -> bool {
    if line.is_empty() || line.len() > 512 {
        return false;
    }
    if journal.version() != 2 {
        return false;
    }
    if journal.is_spent() {
        return false;
    }
    if journal.length() > disk.content().len() as u64 {
        return false;
    }
    journal.begin(disk, line).is_ok()
}

/// A line that may be laid, where it may be.
#[tactic(auto, using(serv_journal::proofs::FormatLemmas::number_two))]
fn laid(alloc: Global, journal: &Journal, line: &[u8]) -> Option<Vec<u8>>
    ensures { IfSome result (λ line. IsLine line.items × (journal.now.version ≡ Version.Two)) }
{
    if line.is_empty() || line.len() > 512 {
        return None;
    }
    if journal.version() != 2 {
        return None;
    }
    line.to_vec(alloc).ok()
}

/// Whether the line that is begun is committed, where it may be, and the next one laid with it, if there is one.
fn commit(alloc: Global, journal: &mut Journal, disk: &mut MemDisk, next: &[u8]) -> bool {
    if journal.is_spent() {
        return false;
    }
    if journal.length() > disk.content().len() as u64 {
        return false;
    }
    let next = laid(alloc, journal, next);
    journal.commit(disk, next).is_ok()
}

/// How many of the calls that begin two lines and commit the last are done before the disk stops after so many of its
/// own, and the disk then. The first is committed by the call that begins the second, or by one that lays it.
fn stopped(alloc: Global, lays: bool, calls: u32) -> Result<(u32, MemDisk), Fail> {
    let mut disk = disk_of(alloc, ONE_LINE)?;
    let (mut journal, _) = Journal::open(alloc, &mut disk, LIMIT)?;
    disk.stop_after(calls);
    let first = begin(&mut journal, &mut disk, LINES[1]);
    if lays {
        let _ = commit(alloc, &mut journal, &mut disk, LINES[2]);
    }
    let second = begin(&mut journal, &mut disk, LINES[2]);
    let third = commit(alloc, &mut journal, &mut disk, b"");
    Ok((
        u32::from(first) + u32::from(second) + u32::from(third),
        disk,
    ))
}

/// How many lines a crash leaves, where they are some first ones.
fn left(alloc: Global, disk: MemDisk, torn: Torn) -> Result<usize, Fail> {
    let mut left = disk.crash(torn, true)?;
    let (_, frames) = Journal::open(alloc, &mut left, LIMIT)?;
    let count = frames.len().min(LINES.len());
    if are_lines(&frames, &LINES[..count]) {
        Ok(count)
    } else {
        Ok(0)
    }
}

/// How many calls are done after so many of the disk's, and the least and the most lines that a crash leaves then.
const STOPS: [(u32, usize, usize); 10] = [
    (0, 1, 1),
    (0, 1, 1),
    (0, 1, 1),
    (0, 1, 1),
    (1, 1, 1),
    (1, 1, 2),
    (1, 1, 2),
    (2, 2, 3),
    (2, 2, 3),
    (3, 3, 3),
];

#[test]
fn begun_lines_that_stop_at_any_call_keep_what_was_committed(rt: HostRuntime) -> Result<(), Fail> {
    for lays in [false, true] {
        for torn in [Torn::Old, Torn::New, Torn::Zero, Torn::Ones] {
            for (calls, (done, least, most)) in STOPS.iter().enumerate() {
                let (given, disk) = stopped(rt.alloc(), lays, calls as u32)?;
                let count = left(rt.alloc(), disk, torn)?;
                assert!(rt; given == *done, "{torn:?} after {calls}");
                assert!(rt;
                    *least <= count && count <= *most,
                    "{torn:?} after {calls}: {count}"
                );
            }
        }
    }
    Ok(())
}

/// Whether the file is this one after so many lines were begun, and how many lines a crash leaves then.
fn begun(alloc: Global, count: usize, file: &[u8]) -> Result<(bool, usize), Fail> {
    let mut disk = disk_of(alloc, ONE_LINE)?;
    let (mut journal, _) = Journal::open(alloc, &mut disk, LIMIT)?;
    for line in LINES[1..].iter().take(count) {
        let _ = begin(&mut journal, &mut disk, line);
    }
    let is_file = is_laid(disk.content(), file);
    Ok((is_file, left(alloc, disk, Torn::Ones)?))
}

#[test]
fn a_line_that_is_begun_is_no_part_of_the_journal(rt: HostRuntime) -> Result<(), Fail> {
    for (count, file) in [(0, ONE_LINE), (1, ONE_BEGUN), (2, TWO_BEGUN)] {
        let given = begun(rt.alloc(), count, file)?;
        assert!(rt; given == (true, count.max(1)), "{count} begun");
    }
    Ok(())
}

/// How long the file is after so many lines were begun in it, and how many calls of the disk that took.
fn grown(alloc: Global, disk: &mut MemDisk, lines: &[&[u8]]) -> Result<(usize, u64), Fail> {
    let (mut journal, _) = Journal::open(alloc, disk, LIMIT)?;
    let before = disk.clock();
    for line in lines {
        let _ = begin(&mut journal, disk, line);
    }
    Ok((disk.content().len(), disk.clock().saturating_sub(before)))
}

/// The file and the lines that a crash leaves where `two` is committed with the next line laid, and then another line is
/// begun, within so many bytes.
fn laid_over(alloc: Global, limit: u64, other: &[u8], file: &[u8]) -> Result<(bool, usize), Fail>
    requires { limit ≤ 2 ^ 32 }
{
    let mut disk = disk_of(alloc, ONE_LINE)?;
    let (mut journal, _) = Journal::open(alloc, &mut disk, limit)?;
    let _ = begin(&mut journal, &mut disk, LINES[1]);
    let _ = commit(alloc, &mut journal, &mut disk, LINES[2]);
    let _ = begin(&mut journal, &mut disk, other);
    let is_file = is_laid(disk.content(), file);
    Ok((is_file, left(alloc, disk, Torn::Ones)?))
}

/// `ONE_LINE` with `two`, and with `other` begun behind it.
const OTHER_BEGUN: &[u8] = b"MSRVJ002\x01\x00\x00\x00\x01\x00\x11k1 day 2024-02-01\
\x01\x00\x00\x00\x02\x00\x03two\x00\x00\x00\x00\x03\x00\x05other\x00";

/// `ONE_LINE` with `two`.
const TWO_LINES: &[u8] =
    b"MSRVJ002\x01\x00\x00\x00\x01\x00\x11k1 day 2024-02-01\x01\x00\x00\x00\x02\x00\x03two\x00";

#[test]
fn a_line_that_is_laid_is_no_part_of_the_journal(rt: HostRuntime) -> Result<(), Fail> {
    let alloc = rt.alloc();
    assert_eq!(rt; laid_over(alloc, LIMIT, b"", TWO_BEGUN)?, (true, 2));
    assert_eq!(rt; laid_over(alloc, LIMIT, LINES[2], TWO_BEGUN)?, (true, 2));
    assert_eq!(rt; laid_over(alloc, LIMIT, b"other", OTHER_BEGUN)?, (true, 2));
    // There is room for `two`, and none for the next one.
    assert_eq!(rt; laid_over(alloc, 43, LINES[2], TWO_LINES)?, (true, 2));
    Ok(())
}

#[test]
fn zeros_are_laid_ahead_once(rt: HostRuntime) -> Result<(), Fail> {
    let alloc = rt.alloc();
    let mut disk = disk_of(alloc, b"")?;
    init(&mut disk)?;
    assert_eq!(rt; disk.content(), NO_LINE);
    // The zeros, three records with their syncs, and the commit bytes of the first two.
    assert_eq!(rt; grown(alloc, &mut disk, &LINES)?, (9 + 65536, 9));
    // The third was not committed. The file reaches far enough: a record and a sync.
    assert_eq!(rt; grown(alloc, &mut disk, &LINES[2..])?, (9 + 65536, 2));
    let (_, frames) = Journal::open(alloc, &mut disk, LIMIT)?;
    assert!(rt; are_lines(&frames, &LINES[..2]));
    Ok(())
}
