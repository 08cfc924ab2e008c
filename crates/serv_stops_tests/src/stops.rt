//! A disk that stops after each of its calls, and one of whose calls fails, each in turn.

use serv_disk::{MemDisk, Torn};
use serv_run_tests::{CLOSED_LATER, Ending, NEW_JOURNAL, ending_on, lines_of, over, replies_to};
use serv_top::Status;
use std::alloc::{AllocError, Global};
use svc_base::OutOfMemory;
use svc_core_tests::{BOARDED, FIRST_PAID, SCHEDULED_MONTHS};

/// Fifteen commands, the replies to them, the journal that they leave, and one without a command whose file reaches as far.
#[derive(Drop)]
struct Course {
    lines: Vec<u8>,
    replies: Vec<u8>,
    journal: Vec<u8>,
    empty: Vec<u8>,
}

fn course_of(alloc: Global) -> Result<Course, OutOfMemory> {
    let texts = [BOARDED, FIRST_PAID, SCHEDULED_MONTHS, CLOSED_LATER];
    let lines = lines_of(alloc, &texts)?;
    let empty = reaching(alloc)?;
    let mut disk = disk_of(alloc, &empty, &[])?;
    let mut journal = applied(alloc, &lines, &mut disk)?.journal;
    journal.truncate(length_of(&lines));
    let replies = replies_to(alloc, &texts)?;
    Ok(Course {
        lines,
        replies,
        journal,
        empty,
    })
}

/// A journal without a command, with room in its file for all that the tests write. A disk that keeps 65,536 bytes more at each
/// stop would take long.
fn reaching(alloc: Global) -> Result<Vec<u8>, AllocError> {
    let mut bytes = NEW_JOURNAL.to_vec(alloc)?;
    bytes.extend_from_slice(&[0; 2000])?;
    Ok(bytes)
}

/// The length of the journal of fifteen commands: 9 bytes, and 7 for each beside its line. Each line has a line feed here.
fn length_of(lines: &[u8]) -> usize {
    lines.len().saturating_add(9 + 15 * 6)
}

/// A disk with this content, whose calls with these numbers fail.
fn disk_of(alloc: Global, content: &[u8], fails: &[u32]) -> Result<MemDisk, OutOfMemory> {
    MemDisk::new(content.to_vec(alloc)?, fails.to_vec(alloc)?)
}

/// Applies the lines.
fn applied(alloc: Global, lines: &[u8], disk: &mut MemDisk) -> Result<Ending, OutOfMemory> {
    ending_on(alloc, &over(&["j", "apply"], b"", lines), disk)
}

/// Whether all lines applied to what is left on a disk give all replies.
fn ends_well(alloc: Global, course: &Course, disk: &mut MemDisk) -> Result<bool, OutOfMemory> {
    let end = applied(alloc, &course.lines, disk)?;
    Ok(end.is(Status::Done, &course.replies))
}

/// When a disk stops, and what a crash leaves of it.
#[derive(Clone, Copy)]
struct Stop {
    calls: u32,
    torn: Torn,
    longer: bool,
}

/// A disk that stops and how many commands it holds, lines that are applied to it, and the replies to them.
#[derive(Clone, Copy)]
struct Stopped<'a> {
    content: &'a [u8],
    held: usize,
    lines: &'a [u8],
    replies: &'a [u8],
}

/// What was seen of a disk that stopped.
#[derive(Clone, Copy, PartialEq, Eq)]
enum Seen {
    /// It stopped before the end of the run, and nothing was lost.
    Refused,
    /// It stopped after the run.
    Whole,
    Wrong,
}

/// Applies lines to a disk that stops and crashes then.
fn crashed(alloc: Global, stopped: &Stopped, stop: Stop) -> Result<(Ending, MemDisk), OutOfMemory> {
    let mut disk = disk_of(alloc, stopped.content, &[])?;
    disk.stop_after(stop.calls);
    let end = applied(alloc, stopped.lines, &mut disk)?;
    let left = disk.crash(stop.torn, stop.longer)?;
    Ok((end, left))
}

/// How many lines were answered.
fn answers_in(end: &Ending) -> usize {
    end.output.iter().filter(|byte| **byte == b'\n').count()
}

/// Whether what is left on a disk opens to that many commands: a next one, which a copy takes, is numbered
/// after them.
fn opens_to(alloc: Global, left: &MemDisk, commands: usize) -> Result<bool, OutOfMemory> {
    let mut copy = disk_of(alloc, left.content(), &[])?;
    let end = applied(alloc, b"next day 2024-06-01\n", &mut copy)?;
    let reply = format!(in alloc; "ok {}\n", commands.saturating_add(1))?;
    Ok(end.is(Status::Done, reply.as_bytes()))
}

/// Whether what is left on a disk opens to all commands that were answered, and to at most one more.
fn keeps(alloc: Global, left: &MemDisk, answered: usize) -> Result<bool, OutOfMemory> {
    Ok(opens_to(alloc, left, answered)? || opens_to(alloc, left, answered.saturating_add(1))?)
}

/// Applies lines to a disk that stops, and all lines of the course to what a crash leaves.
fn seen_after(
    alloc: Global,
    course: &Course,
    stopped: &Stopped,
    stop: Stop,
) -> Result<Seen, OutOfMemory> {
    let (end, mut left) = crashed(alloc, stopped, stop)?;
    let answered = stopped.held.saturating_add(answers_in(&end));
    let is_well = keeps(alloc, &left, answered)?
        && ends_well(alloc, course, &mut left)?
        && left.content().starts_with(&course.journal)
        && stopped.replies.starts_with(&end.output);
    Ok(match end.status {
        Status::Done if is_well => Seen::Whole,
        Status::DiskFault if is_well => Seen::Refused,
        _ => Seen::Wrong,
    })
}

/// How many calls the disk has in a run that it does not stop; none where something is wrong at a stop.
fn calls_of_run(
    alloc: Global,
    course: &Course,
    stopped: &Stopped,
    torn: Torn,
    longer: bool,
) -> Option<u32> {
    for calls in 0..100 {
        let stop = Stop {
            calls,
            torn,
            longer,
        };
        match seen_after(alloc, course, stopped, stop) {
            Ok(Seen::Refused) => {}
            Ok(Seen::Whole) => return Some(calls),
            _ => return None,
        }
    }
    None
}

/// What a crash leaves, and whether the greater length stays.
const EACH_TORN: [(Torn, bool); 8] = [
    (Torn::Old, false),
    (Torn::Old, true),
    (Torn::New, false),
    (Torn::New, true),
    (Torn::Zero, false),
    (Torn::Zero, true),
    (Torn::Ones, false),
    (Torn::Ones, true),
];

/// How many calls the course has, where nothing is lost by a stop after any of them.
fn calls_of_course(alloc: Global, torn: Torn, longer: bool) -> Result<u32, OutOfMemory> {
    let course = course_of(alloc)?;
    let stopped = Stopped {
        content: &course.empty,
        held: 0,
        lines: &course.lines,
        replies: &course.replies,
    };
    Ok(calls_of_run(alloc, &course, &stopped, torn, longer).unwrap_or(0))
}

#[test]
fn a_stop_after_any_call_keeps_what_was_answered(rt: HostRuntime) {
    for (torn, longer) in EACH_TORN {
        let calls = calls_of_course(rt.alloc(), torn, longer);
        assert!(rt; matches!(calls, Ok(48..=99)), "{torn:?} {longer}");
    }
}

/// What is seen where a disk stops after so many calls, on which the file is lengthened by zeros.
fn seen_while_lengthened(alloc: Global, stop: Stop) -> Result<Seen, OutOfMemory> {
    let course = course_of(alloc)?;
    let stopped = Stopped {
        content: NEW_JOURNAL,
        held: 0,
        lines: &course.lines,
        replies: &course.replies,
    };
    seen_after(alloc, &course, &stopped, stop)
}

#[test]
fn a_stop_while_the_file_is_lengthened_keeps_what_was_answered(rt: HostRuntime) {
    for (torn, longer) in [(Torn::New, false), (Torn::Ones, false), (Torn::Ones, true)] {
        for calls in 3..10 {
            let stop = Stop {
                calls,
                torn,
                longer,
            };
            let seen = seen_while_lengthened(rt.alloc(), stop);
            assert!(rt;
                matches!(seen, Ok(Seen::Refused)),
                "after {calls}: {torn:?} {longer}"
            );
        }
    }
}

/// The first call that applying no line does not make.
fn first_call_of_a_line(alloc: Global) -> Result<u32, OutOfMemory> {
    let empty = reaching(alloc)?;
    for call in 1..20 {
        let mut disk = disk_of(alloc, &empty, &[call])?;
        let end = applied(alloc, b"", &mut disk)?;
        if end.status == Status::Done {
            return Ok(call);
        }
    }
    Ok(0)
}

/// Whether a run has so many lines answered, and ends at the disk where these are not all.
fn is_cut_after(end: &Ending, course: &Course, answered: usize) -> bool {
    let status = if answered < 15 {
        Status::DiskFault
    } else {
        Status::Done
    };
    end.status == status && answers_in(end) == answered && course.replies.starts_with(&end.output)
}

/// Whether a run of which this call fails ends after so many lines, and nothing is lost.
fn goes_on_after(alloc: Global, call: u32, answered: usize) -> Result<bool, OutOfMemory> {
    let course = course_of(alloc)?;
    let mut disk = disk_of(alloc, &course.empty, &[call])?;
    let end = applied(alloc, &course.lines, &mut disk)?;
    let mut left = disk.crash(Torn::New, false)?;
    Ok(
        is_cut_after(&end, &course, answered)
            && keeps(alloc, &left, answered)?
            && ends_well(alloc, &course, &mut left)?,
    )
}

/// How many lines are answered where this call fails, counted from the first that a line makes. The first record takes the
/// length, a write and a sync, each further one two writes, the other of the commit byte before it, and a sync; the last
/// commit byte takes a write and a sync. A reply is written once its commit byte is synced.
fn answered_before(call: u32) -> usize {
    if call < 47 {
        call.saturating_sub(3) as usize / 3
    } else {
        15
    }
}

#[test]
fn any_call_that_fails_ends_the_run_with_the_replies_before_it(rt: HostRuntime) {
    let first = first_call_of_a_line(rt.alloc()).unwrap_or(0);
    assert!(rt; first > 1);
    for call in 1..first.saturating_add(48) {
        let answered = answered_before(call.saturating_sub(first));
        let goes_on = goes_on_after(rt.alloc(), call, answered);
        assert!(rt; matches!(goes_on, Ok(true)), "call {call}");
    }
}

/// Whether a run ended, for want of memory too, with first replies alone.
fn is_front(ended: &Result<Ending, OutOfMemory>, replies: &[u8]) -> bool {
    match ended {
        Ok(end) => {
            let is_ending = matches!(
                end.status,
                Status::Done | Status::OutOfMemory | Status::WriteFault | Status::DiskFault
            );
            is_ending && replies.starts_with(&end.output)
        }
        Err(_) => true,
    }
}

/// Whether all lines that are applied again, after a run that may have lacked memory, give all replies.
fn is_made_good(alloc: Global) -> Result<bool, OutOfMemory> {
    let course = course_of(alloc)?;
    let mut disk = disk_of(alloc, NEW_JOURNAL, &[])?;
    let ended = applied(alloc, &course.lines, &mut disk);
    Ok(is_front(&ended, &course.replies) && ends_well(alloc, &course, &mut disk)?)
}

/// A request for memory may be refused (`rt try --test --fail-alloc N`), here or in the run.
#[test]
fn a_run_that_lacked_memory_is_made_good(rt: HostRuntime) {
    assert!(rt; !matches!(is_made_good(rt.alloc()), Ok(false)));
}

/// Adds a line's record in version 1.
fn push_record(bytes: &mut Vec<u8>, line: &[u8]) -> Result<(), AllocError> {
    bytes.push(1)?;
    bytes.extend_from_slice(&u16::try_from(line.len()).unwrap_or(0).to_be_bytes())?;
    bytes.extend_from_slice(line)
}

/// The course as a journal of version 1.
fn old_journal(alloc: Global, course: &Course) -> Result<Vec<u8>, AllocError> {
    let mut bytes = b"MSRVJ001".to_vec(alloc)?;
    for line in course.lines.split(|byte| *byte == b'\n') {
        if !line.is_empty() {
            push_record(&mut bytes, line)?;
        }
    }
    bytes.push(0)?;
    Ok(bytes)
}

/// The journal of the course whose last byte is no gate.
fn unclosed_journal(alloc: Global, course: &Course) -> Result<Vec<u8>, AllocError> {
    let mut bytes = course.journal.to_vec(alloc)?;
    if let Some(byte) = bytes.last_mut() {
        *byte = 7;
    }
    Ok(bytes)
}

/// How many calls opening this content has, where nothing is lost by a stop after any of them.
fn calls_of_opening(
    alloc: Global,
    course: Course,
    content: &[u8],
    torn: Torn,
    longer: bool,
) -> u32 {
    let stopped = Stopped {
        content,
        held: 15,
        lines: b"",
        replies: b"",
    };
    calls_of_run(alloc, &course, &stopped, torn, longer).unwrap_or(0)
}

/// The same of the course as a journal of version 1, which is written anew.
fn calls_of_upgrade(alloc: Global, torn: Torn, longer: bool) -> Result<u32, OutOfMemory> {
    let mut course = course_of(alloc)?;
    let content = old_journal(alloc, &course)?;
    course.journal.clear();
    Ok(calls_of_opening(alloc, course, &content, torn, longer))
}

/// The same of its journal whose last byte is no gate, and is made 0.
fn calls_of_closing(alloc: Global, torn: Torn, longer: bool) -> Result<u32, OutOfMemory> {
    let course = course_of(alloc)?;
    let content = unclosed_journal(alloc, &course)?;
    Ok(calls_of_opening(alloc, course, &content, torn, longer))
}

#[test]
fn a_journal_of_version_1_is_kept_while_it_is_written_anew(rt: HostRuntime) {
    for (torn, longer) in EACH_TORN {
        let calls = calls_of_upgrade(rt.alloc(), torn, longer);
        assert!(rt; matches!(calls, Ok(4..=59)), "{torn:?} {longer}");
    }
}

#[test]
fn a_journal_is_kept_while_its_closed_commit_byte_is_made_0(rt: HostRuntime) {
    for (torn, longer) in EACH_TORN {
        let calls = calls_of_closing(rt.alloc(), torn, longer);
        assert!(rt; matches!(calls, Ok(4..=59)), "{torn:?} {longer}");
    }
}

/// Makes a journal, on a disk that stops after so many calls, and again on what a crash leaves.
fn is_made_again(alloc: Global, calls: u32, torn: Torn, longer: bool) -> Result<bool, OutOfMemory> {
    let init = over(&["j", "init"], b"", b"");
    let mut disk = disk_of(alloc, b"", &[])?;
    disk.stop_after(calls);
    let first = ending_on(alloc, &init, &mut disk)?;
    let mut left = disk.crash(torn, longer)?;
    let again = ending_on(alloc, &init, &mut left)?;
    Ok(first.is(Status::DiskFault, b"") && again.is(Status::Done, b"") && again.leaves(NEW_JOURNAL))
}

#[test]
fn a_stop_while_a_journal_is_made_is_made_good(rt: HostRuntime) {
    for (torn, longer) in EACH_TORN {
        for calls in 0..3 {
            let made = is_made_again(rt.alloc(), calls, torn, longer);
            assert!(rt;
                matches!(made, Ok(true)),
                "after {calls}: {torn:?} {longer}"
            );
        }
    }
}
