//! Files that are cut or changed, and files over which a new journal is made.

use crate::worked::{LIMIT, NO_LINE, ONE_LINE, disk_of};
use serv_journal::{Journal, JournalFault, init};
use std::alloc::{AllocError, Global};
use std::test::Fail;
use svc_base::OutOfMemory;

/// What opening a disk with this content answers: the number of lines, or the fault.
fn answer_of(alloc: Global, content: &[u8]) -> Result<Result<usize, JournalFault>, OutOfMemory> {
    let mut disk = disk_of(alloc, content)?;
    match Journal::open(alloc, &mut disk, LIMIT) {
        Ok((_, frames)) => Ok(Ok(frames.len())),
        Err(fault) => Ok(Err(fault)),
    }
}

/// The journal of one line with another byte at this place.
fn changed(alloc: Global, at: usize, value: u8) -> Result<Vec<u8>, AllocError> {
    let mut bytes = ONE_LINE.to_vec(alloc)?;
    if let Some(byte) = bytes.get_mut(at) {
        *byte = value;
    }
    Ok(bytes)
}

#[test]
fn each_cut_of_a_journal_of_one_line_is_found(rt: HostRuntime) -> Result<(), Fail> {
    let alloc = rt.alloc();
    assert_eq!(rt; ONE_LINE.len(), 33);
    assert_eq!(rt; answer_of(alloc, ONE_LINE)?, Ok(1));
    for cut in 0..33 {
        let expected = match cut {
            0..=7 => JournalFault::NotJournal,
            8..=31 => JournalFault::Damaged(8),
            _ => JournalFault::Damaged(32),
        };
        assert_eq!(rt;
            answer_of(alloc, &ONE_LINE[..cut])?,
            Err(expected),
            "cut to {cut}"
        );
    }
    Ok(())
}

#[test]
fn a_wrong_number_is_damage_and_a_closed_commit_byte_ends_the_records(
    rt: HostRuntime,
) -> Result<(), Fail> {
    let alloc = rt.alloc();
    for (at, value, expected) in [
        (12, 2, Err(JournalFault::Damaged(8))),
        (9, 1, Err(JournalFault::Damaged(8))),
        (14, 0, Err(JournalFault::Damaged(8))),
        (13, 3, Err(JournalFault::Damaged(8))),
        (0, 0, Err(JournalFault::NotJournal)),
        (7, 51, Err(JournalFault::NotJournal)),
        (8, 0, Ok(0)),
        (8, 7, Ok(0)),
    ] {
        let content = changed(alloc, at, value)?;
        assert_eq!(rt; answer_of(alloc, &content)?, expected, "{value} at {at}");
    }
    Ok(())
}

/// The length of the journal of one line whose commit byte is this one, and the file that opening it leaves.
fn opened_with(alloc: Global, commit: u8) -> Result<(u64, Vec<u8>), Fail> {
    let mut disk = disk_of(alloc, &changed(alloc, 8, commit)?)?;
    let (journal, _) = Journal::open(alloc, &mut disk, LIMIT)?;
    Ok((journal.length(), disk.content().to_vec(alloc)?))
}

#[test]
fn opening_sets_a_closed_commit_byte_to_0(rt: HostRuntime) -> Result<(), Fail> {
    let alloc = rt.alloc();
    let (length, left) = opened_with(alloc, 7)?;
    assert_eq!(rt; length, 9);
    assert_eq!(rt; left, changed(alloc, 8, 0)?);
    Ok(())
}

/// What `init` answers over this content, and what it leaves.
fn made_over(
    alloc: Global,
    content: &[u8],
) -> Result<(Result<(), JournalFault>, Vec<u8>), OutOfMemory> {
    let mut disk = disk_of(alloc, content)?;
    let answer = init(&mut disk);
    Ok((answer, disk.content().to_vec(alloc)?))
}

#[test]
fn init_makes_a_journal_of_at_most_nine_bytes(rt: HostRuntime) -> Result<(), Fail> {
    let alloc = rt.alloc();
    for size in 0..10 {
        let (answer, left) = made_over(alloc, &ONE_LINE[..size])?;
        assert!(rt;
            answer == Ok(()) && left.as_slice() == NO_LINE,
            "over {size} bytes"
        );
    }
    let (answer, left) = made_over(alloc, ONE_LINE)?;
    assert!(rt; answer == Err(JournalFault::AlreadyThere) && left.as_slice() == ONE_LINE);
    Ok(())
}
