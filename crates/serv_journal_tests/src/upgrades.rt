//! Journals of version 1 that are upgraded.

ghost use Rattle.std.specs.Prelude.{◌≤◌, ◌^◌};
ghost use Rattle.serv_journal.specs.Format.{AreLines};
ghost use Rattle.serv_journal.specs.Reading.{lines_in};

use crate::worked::{LIMIT, OLD_LINE, are_lines, disk_of, is_read_as};
use serv_disk::{MemDisk, Torn};
use serv_journal::{Frames, Journal, JournalFault};
use std::alloc::Global;
use std::test::Fail;

/// `OLD_LINE` upgraded, 62 bytes.
pub const UPGRADED: &[u8] = b"MSRVJ001\x01\x00\x11k1 day 2024-02-01\x02\
MSRVJ002\x01\x00\x00\x00\x01\x00\x11k1 day 2024-02-01\x00";

/// An upgrade whose conditions are tested first, but for that the lines are lines.
#[tactic(auto, using(serv_journal::proofs::FormatLemmas::number_one))]
fn upgrade_now(
    journal: &mut Journal,
    disk: &mut MemDisk,
    frames: &Frames,
) -> Result<(), JournalFault>
    requires { AreLines (lines_in frames.now) }
{
    if journal.version() == 2 {
        return Err(JournalFault::NotJournal);
    }
    if journal.is_spent() {
        return Err(JournalFault::NotJournal);
    }
    if journal.length() > disk.content().len() as u64 {
        return Err(JournalFault::NotJournal);
    }
    journal.upgrade(disk, frames)
}

/// Whether the upgrade of `OLD_LINE` with a limit answers this, and leaves a journal of this version and
/// length and this file.
fn is_upgraded(
    alloc: Global,
    limit: u64,
    answer: Result<(), JournalFault>,
    version: u32,
    left: &[u8],
) -> Result<bool, Fail>
    requires { limit ≤ 2 ^ 32 }
{
    let mut disk = disk_of(alloc, OLD_LINE)?;
    let (mut journal, frames) = Journal::open(alloc, &mut disk, limit)?;
    let given = upgrade_now(&mut journal, &mut disk, &frames);
    let is_as_long = journal.length() == left.len() as u64;
    Ok(given == answer && journal.version() == version && is_as_long && disk.content() == left)
}

#[test]
fn a_journal_of_version_1_is_upgraded_within_the_limit(rt: HostRuntime) -> Result<(), Fail> {
    let alloc = rt.alloc();
    assert_eq!(rt; UPGRADED.len(), 62);
    assert!(rt; is_upgraded(alloc, 61, Err(JournalFault::Full(29)), 1, OLD_LINE)?);
    assert!(rt; is_upgraded(alloc, 62, Ok(()), 2, UPGRADED)?);
    assert!(rt; is_read_as(alloc, UPGRADED, &[b"k1 day 2024-02-01"], 37)?);
    Ok(())
}

const LINES: [&[u8]; 3] = [b"one", b"two", b"three"];

/// The journal of `LINES` in version 1.
const OLD_LINES: &[u8] = b"MSRVJ001\x01\x00\x03one\x01\x00\x03two\x01\x00\x05three\x00";

/// Whether an upgrade is done before the disk stops after so many calls, and what is left of the disk.
fn stopped(alloc: Global, calls: u32) -> Result<(bool, MemDisk), Fail> {
    let mut disk = disk_of(alloc, OLD_LINES)?;
    let (mut journal, frames) = Journal::open(alloc, &mut disk, LIMIT)?;
    disk.stop_after(calls);
    let done = upgrade_now(&mut journal, &mut disk, &frames).is_ok();
    Ok((done, disk))
}

/// Whether a crash leaves the lines, and in version 2 where the upgrade was done.
fn is_kept(alloc: Global, torn: Torn, calls: u32) -> Result<bool, Fail> {
    let (done, disk) = stopped(alloc, calls)?;
    let mut left = disk.crash(torn, true)?;
    let (journal, frames) = Journal::open(alloc, &mut left, LIMIT)?;
    let is_in_version = !done || journal.version() == 2;
    Ok(done == (calls > 6) && is_in_version && are_lines(&frames, &LINES))
}

#[test]
fn an_upgrade_that_stops_at_any_call_keeps_the_lines(rt: HostRuntime) -> Result<(), Fail> {
    for torn in [Torn::Old, Torn::New, Torn::Zero, Torn::Ones] {
        for calls in 0..9 {
            assert!(rt; is_kept(rt.alloc(), torn, calls)?, "{torn:?} after {calls}");
        }
    }
    Ok(())
}
