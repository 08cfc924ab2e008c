//! Lines that are added, and long files.

use crate::upgrades::UPGRADED;
use crate::worked::{LIMIT, NO_LINE, ONE_LINE, are_lines, disk_of, is_laid, is_read_as};
use serv_disk::{MemDisk, Torn};
use serv_journal::{Journal, JournalFault};
use std::alloc::{AllocError, Global};
use std::test::Fail;

const FIRST: &[u8] = b"k1 day 2024-02-01";

const SECOND: &[u8] = b"k2 day 2024-02-02";

/// The journal of both lines, 57 bytes.
const TWO_LINES: &[u8] = b"MSRVJ002\x01\x00\x00\x00\x01\x00\x11k1 day 2024-02-01\
\x01\x00\x00\x00\x02\x00\x11k2 day 2024-02-02\x00";

/// An append whose conditions are tested first.
#[tactic(auto, using(serv_journal::proofs::FormatLemmas::number_two))]
fn add(journal: &mut Journal, disk: &mut MemDisk, line: &[u8]) -> Result<(), JournalFault> {
    if line.is_empty() || line.len() > 512 {
        return Err(JournalFault::NotJournal);
    }
    if journal.version() != 2 {
        return Err(JournalFault::NotJournal);
    }
    if journal.is_spent() {
        return Err(JournalFault::NotJournal);
    }
    if journal.length() > disk.content().len() as u64 {
        return Err(JournalFault::NotJournal);
    }
    journal.append(disk, line)
}

fn add_all(journal: &mut Journal, disk: &mut MemDisk, lines: &[&[u8]]) -> Result<(), JournalFault> {
    for line in lines {
        add(journal, disk, line)?;
    }
    Ok(())
}

/// Lines that are added one after another to a journal with a limit: what the last answers, and the length
/// and the file afterwards.
#[derive(Clone, Copy)]
struct Growth {
    file: &'static [u8],
    limit: u32,
    lines: &'static [&'static [u8]],
    answer: Result<(), JournalFault>,
    length: u64,
    left: &'static [u8],
}

/// Whether the lines are added as it says.
fn is_so(alloc: Global, growth: &Growth) -> Result<bool, Fail> {
    let mut disk = disk_of(alloc, growth.file)?;
    let (mut journal, _) = Journal::open(alloc, &mut disk, u64::from(growth.limit))?;
    let answer = add_all(&mut journal, &mut disk, growth.lines);
    let fits = answer == growth.answer && journal.length() == growth.length;
    Ok(fits && is_laid(disk.content(), growth.left))
}

const GROWTHS: [Growth; 5] = [
    Growth {
        file: NO_LINE,
        limit: 57,
        lines: &[FIRST],
        answer: Ok(()),
        length: 33,
        left: ONE_LINE,
    },
    Growth {
        file: ONE_LINE,
        limit: 56,
        lines: &[SECOND],
        answer: Err(JournalFault::Full(33)),
        length: 33,
        left: ONE_LINE,
    },
    Growth {
        file: NO_LINE,
        limit: 57,
        lines: &[FIRST, SECOND],
        answer: Ok(()),
        length: 57,
        left: TWO_LINES,
    },
    Growth {
        file: NO_LINE,
        limit: 57,
        lines: &[FIRST, SECOND, b"x"],
        answer: Err(JournalFault::Full(57)),
        length: 57,
        left: TWO_LINES,
    },
    Growth {
        file: UPGRADED,
        limit: 62,
        lines: &[SECOND],
        answer: Err(JournalFault::Full(62)),
        length: 62,
        left: UPGRADED,
    },
];

#[test]
fn a_line_is_added_up_to_the_limit(rt: HostRuntime) -> Result<(), Fail> {
    for (i, growth) in GROWTHS.iter().enumerate() {
        assert!(rt; is_so(rt.alloc(), growth)?, "growth {i}");
    }
    assert!(rt; is_read_as(rt.alloc(), TWO_LINES, &[FIRST, SECOND], 32)?);
    Ok(())
}

/// Whether an append is done before the disk stops after so many calls, and what is left of the disk.
fn stopped(alloc: Global, calls: u32) -> Result<(bool, MemDisk), Fail> {
    let mut disk = disk_of(alloc, ONE_LINE)?;
    let (mut journal, _) = Journal::open(alloc, &mut disk, LIMIT)?;
    disk.stop_after(calls);
    let done = add(&mut journal, &mut disk, b"two").is_ok();
    Ok((done && !journal.is_spent(), disk))
}

/// Whether a crash leaves the lines, with the one that was being added or without.
fn is_kept(alloc: Global, torn: Torn, calls: u32) -> Result<bool, Fail> {
    let (done, disk) = stopped(alloc, calls)?;
    let mut left = disk.crash(torn, false)?;
    let (_, frames) = Journal::open(alloc, &mut left, LIMIT)?;
    let added = are_lines(&frames, &[FIRST, b"two"]);
    Ok(done == (calls > 5) && (added || !done && are_lines(&frames, &[FIRST])))
}

#[test]
fn an_append_that_stops_at_any_call_keeps_the_lines(rt: HostRuntime) -> Result<(), Fail> {
    for torn in [Torn::Old, Torn::New, Torn::Zero, Torn::Ones] {
        for calls in 0..8 {
            assert!(rt; is_kept(rt.alloc(), torn, calls)?, "{torn:?} after {calls}");
        }
    }
    Ok(())
}

/// These lines, that many times.
fn repeated<'a>(
    alloc: Global,
    lines: &[&'a [u8]],
    times: usize,
) -> Result<Vec<&'a [u8]>, AllocError> {
    let mut all = Vec::new(alloc);
    for _ in 0..times {
        all.extend_from_slice(lines)?;
    }
    Ok(all)
}

/// The file of these lines in a version.
fn file_of(alloc: Global, version: u32, lines: &[&[u8]]) -> Result<Vec<u8>, AllocError> {
    let mut bytes = header(version).to_vec(alloc)?;
    let mut number = 0u32;
    for line in lines {
        number = number.wrapping_add(1);
        push_record(&mut bytes, version, number, line)?;
    }
    bytes.push(0)?;
    Ok(bytes)
}

fn header(version: u32) -> &'static [u8] {
    if version == 2 {
        b"MSRVJ002"
    } else {
        b"MSRVJ001"
    }
}

fn push_record(
    bytes: &mut Vec<u8>,
    version: u32,
    number: u32,
    line: &[u8],
) -> Result<(), AllocError> {
    bytes.push(1)?;
    if version == 2 {
        bytes.extend_from_slice(&number.to_be_bytes())?;
    }
    bytes.extend_from_slice(&u16::try_from(line.len()).unwrap_or(0).to_be_bytes())?;
    bytes.extend_from_slice(line)
}

/// Whether a file of these lines is read back as they are, in pieces of at most 4,096 bytes.
fn reads_back(alloc: Global, version: u32, lines: &[&[u8]]) -> Result<bool, Fail> {
    let mut disk = disk_of(alloc, &file_of(alloc, version, lines)?)?;
    let (_, frames) = Journal::open(alloc, &mut disk, LIMIT)?;
    Ok(are_lines(&frames, lines) && disk.longest_read() <= 4096)
}

#[test]
fn many_lines_are_read_in_pieces(rt: HostRuntime) -> Result<(), Fail> {
    let many = repeated(rt.alloc(), &[b"x"], 3000)?;
    assert!(rt; reads_back(rt.alloc(), 2, &many)?);
    Ok(())
}

#[test]
fn long_lines_are_read_in_pieces(rt: HostRuntime) -> Result<(), Fail> {
    let mixed = repeated(rt.alloc(), &[&[7; 512], b"y"], 20)?;
    for version in [1, 2] {
        assert!(rt;
            reads_back(rt.alloc(), version, &mixed)?,
            "version {version}"
        );
    }
    Ok(())
}
