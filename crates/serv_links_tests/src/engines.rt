//! An engine over a disk in memory.

ghost use Rattle.std.specs.Prelude.{◌≡◌, ◌<◌, false, IfOk};
ghost use Rattle.serv_engine.specs.Engines.{IsDurable};

use serv_disk::{Disk, MemDisk};
use serv_engine::{Engine, EngineFault};
use serv_journal::init;
use serv_line::read_line;
use serv_machine::Frugal;
use std::alloc::{AllocError, Global};
use std::marker::Brand;
use std::sync::ledger::{Blank, Ledger};
use svc_base::{OutOfMemory, Steps};
use svc_checkpoint::Checked;
use svc_types::{Reply, Request};

/// The journal of no command.
pub(crate) const EMPTY: &[u8] = b"MSRVJ002\x00";

/// The journal of the line `k1 day 2024-02-01`, 33 bytes.
pub(crate) const ONE_LINE: &[u8] = b"MSRVJ002\x01\x00\x00\x00\x01\x00\x11k1 day 2024-02-01\x00";

/// The same with another number.
const WRONG_NUMBER: &[u8] = b"MSRVJ002\x01\x00\x00\x00\x02\x00\x11k1 day 2024-02-01\x00";

/// The same in version 1, 29 bytes.
const OLD_LINE: &[u8] = b"MSRVJ001\x01\x00\x11k1 day 2024-02-01\x00";

/// What it is once it was opened, 62 bytes.
const UPGRADED: &[u8] = b"MSRVJ001\x01\x00\x11k1 day 2024-02-01\x02\
    MSRVJ002\x01\x00\x00\x00\x01\x00\x11k1 day 2024-02-01\x00";

/// The file of two lines.
fn file_of(alloc: Global, first: &str, second: &str) -> Result<Vec<u8>, AllocError> {
    let mut bytes = b"MSRVJ002".to_vec(alloc)?;
    push_record(&mut bytes, 1, first)?;
    push_record(&mut bytes, 2, second)?;
    bytes.push(0)?;
    Ok(bytes)
}

fn push_record(bytes: &mut Vec<u8>, number: u8, line: &str) -> Result<(), AllocError> {
    let length = u8::try_from(line.len()).unwrap_or(0);
    bytes.extend_from_slice(&[1, 0, 0, 0, number, 0, length])?;
    bytes.extend_from_slice(line.as_bytes())
}

/// The disk with room for some calls.
fn with_room(disk: MemDisk) -> Result<MemDisk, OutOfMemory> {
    let mut disk = disk;
    disk.reserve(64, 70_000)?;
    Ok(disk)
}

/// A disk with this content, of which this call fails, or none where it is 0.
pub(crate) fn failing_at(alloc: Global, content: &[u8], call: u32) -> Result<MemDisk, OutOfMemory> {
    let content = content.to_vec(alloc)?;
    with_room(MemDisk::new(content, [call].to_vec(alloc)?)?)
}

/// A disk with this content.
pub(crate) fn disk_of(alloc: Global, content: &[u8]) -> Result<MemDisk, OutOfMemory> {
    failing_at(alloc, content, 0)
}

/// Whether a disk holds this file, with nothing or zeros behind it.
pub(crate) fn is_laid(content: &[u8], file: &[u8]) -> bool {
    match content.strip_prefix(file) {
        Some(rest) => rest.iter().all(|byte| *byte == 0),
        None => false,
    }
}

/// The engine of a disk's journal with this limit.
pub(crate) fn engine_of<B: Frugal, D: Disk, L: Ledger>(
    alloc: Global,
    disk: &mut D,
    limit: u32,
    steps: &mut Steps<L>,
) -> Result<Engine<B>, EngineFault>
    ensures unspent { IfOk result (λ e. e.journal.spent ≡ false) }
    ensures durable { IfOk result (λ e. IsDurable (D.view disk.new).images e) }
{
    Engine::<B>::open(alloc, disk, u64::from(limit), steps)
}

/// The number of its commands, where it can take further ones.
fn count_of<B: Frugal>(engine: &Engine<B>) -> Result<u32, EngineFault> {
    if engine.is_spent() {
        return Err(EngineFault::DiskFault);
    }
    Ok(engine.core().count())
}

fn opened_counted<B: Frugal, L: Ledger>(
    alloc: Global,
    blank: Blank,
    disk: &mut MemDisk,
) -> Result<u32, EngineFault>
    requires name { blank.name ≡ L.name }
    requires parts { blank.parts ≡ L.parts }
    requires some { 0 < L.parts }
{
    let mut steps = Steps::<L>::new(blank);
    match engine_of::<B, MemDisk, L>(alloc, disk, 1_000_000, &mut steps) {
        Ok(engine) => count_of(&engine),
        Err(fault) => Err(fault),
    }
}

/// What opening a disk with this content answers: the number of commands, or the fault.
pub(crate) fn opened(alloc: Global, content: &[u8]) -> Result<u32, EngineFault> {
    let mut disk = disk_of(alloc, content)?;
    opened_counted::<Checked, Brand>(alloc, Blank::new(1), &mut disk)
}

/// Whether opening a disk with this content answers so.
fn opens(alloc: Global, content: &[u8], answer: &str) -> Result<bool, AllocError> {
    let opened = opened(alloc, content);
    let text = format!(in alloc; "{opened:?}")?;
    Ok(text.as_str() == answer)
}

/// What it answers where a journal of one command is cut.
fn answer_at(cut: usize) -> &'static str {
    match cut {
        0..=7 => "Err(NotJournal)",
        8..=31 => "Err(Damaged(8))",
        _ => "Err(Damaged(32))",
    }
}

#[test]
fn each_cut_of_a_journal_of_one_command_is_found(rt: HostRuntime) {
    let alloc = rt.alloc();
    assert!(rt; matches!(opens(alloc, ONE_LINE, "Ok(1)"), Ok(true)));
    assert!(rt; matches!(opens(alloc, WRONG_NUMBER, "Err(Damaged(8))"), Ok(true)));
    for cut in 0..33 {
        let opens = opens(alloc, &ONE_LINE[..cut], answer_at(cut));
        assert!(rt; matches!(opens, Ok(true)), "{cut} bytes");
    }
}

/// Two records, and the answer to opening the journal of both.
const RECORDS: [(&str, &str, &str); 8] = [
    (DAY, "k2 day 2024-02-02", "Ok(2)"),
    (DAY, "k2 day 2024-02-30", "Err(Damaged(32))"),
    (DAY, "? custodial", "Err(Damaged(32))"),
    (DAY, "k1 day 2024-02-01", "Err(Damaged(32))"),
    (DAY, "k1 day 2024-02-02", "Err(Damaged(32))"),
    (DAY, "k2 day 2024-02-01", "Err(Damaged(32))"),
    (DAY, "k2 pay 1 2024-02-01 5.00", "Err(Damaged(32))"),
    ("? custodial", DAY, "Err(Damaged(8))"),
];

pub(crate) const DAY: &str = "k1 day 2024-02-01";

/// Whether opening the journal of two lines answers so.
fn opens_two(alloc: Global, first: &str, second: &str, answer: &str) -> Result<bool, AllocError> {
    let content = file_of(alloc, first, second)?;
    opens(alloc, &content, answer)
}

/// A query and a day, and no commit byte behind them.
const UNENDED: &[u8] =
    b"MSRVJ002\x01\x00\x00\x00\x01\x00\x0b? custodial\x01\x00\x00\x00\x02\x00\x11k1 day 2024-02-01";

#[test]
fn a_record_that_is_no_further_command_is_damage(rt: HostRuntime) {
    for (first, second, answer) in RECORDS.iter() {
        let opens = opens_two(rt.alloc(), first, second, answer);
        assert!(rt; matches!(opens, Ok(true)), "{first}, {second}");
    }
    // Damage of the journal, at any place, comes before that of the engine.
    assert!(rt; matches!(opens(rt.alloc(), UNENDED, "Err(Damaged(50))"), Ok(true)));
}

/// Submits the command of a line.
fn act<B: Frugal, D: Disk, L: Ledger>(
    engine: &mut Engine<B>,
    disk: &mut D,
    line: &str,
    steps: &mut Steps<L>,
) -> Result<Reply, EngineFault>
    requires unspent { engine.old.journal.spent ≡ false }
    requires durable { IsDurable (D.view disk.old).images engine.old }
{
    match read_line(line.as_bytes()) {
        Ok(request) => match &request {
            Request::Do(key, command) => engine.submit(disk, key, command, steps),
            Request::Ask(_) => Err(EngineFault::NotJournal),
        },
        Err(_) => Err(EngineFault::NotJournal),
    }
}

/// The limit of a journal, and a line whose command is submitted.
#[derive(Clone, Copy)]
struct Sent<'a> {
    limit: u32,
    line: &'a str,
}

fn acted_counted<B: Frugal, L: Ledger>(
    alloc: Global,
    blank: Blank,
    sent: &Sent,
    disk: &mut MemDisk,
) -> Result<Reply, EngineFault>
    requires name { blank.name ≡ L.name }
    requires parts { blank.parts ≡ L.parts }
    requires some { 0 < L.parts }
{
    let mut steps = Steps::<L>::new(blank);
    match engine_of::<B, MemDisk, L>(alloc, disk, sent.limit, &mut steps) {
        Ok(mut engine) => act(&mut engine, disk, sent.line, &mut steps),
        Err(fault) => Err(fault),
    }
}

/// Opens the journal of a disk, and submits the command.
fn acted(alloc: Global, sent: &Sent, disk: &mut MemDisk) -> Result<Reply, EngineFault> {
    acted_counted::<Checked, Brand>(alloc, Blank::new(1), sent, disk)
}

/// Whether the command that is sent to a disk has this answer.
fn answers(
    alloc: Global,
    sent: &Sent,
    disk: &mut MemDisk,
    answer: &str,
) -> Result<bool, AllocError> {
    let acted = acted(alloc, sent, disk);
    let text = format!(in alloc; "{acted:?}")?;
    Ok(text.as_str() == answer)
}

/// The content of a disk, the journal's limit, the line whose command is sent, the answer to it, and the content
/// then.
type Row = (
    &'static [u8],
    u32,
    &'static str,
    &'static str,
    &'static [u8],
);

/// Whether the command of a row has its answer, and leaves the journal so.
fn is_answered(alloc: Global, row: &Row) -> Result<bool, OutOfMemory> {
    let (content, limit, line, answer, left) = row;
    let mut disk = disk_of(alloc, *content)?;
    let sent = Sent {
        limit: *limit,
        line: *line,
    };
    Ok(answers(alloc, &sent, &mut disk, *answer)? && is_laid(disk.content(), *left))
}

/// Replies that say no more than their numbers.
const OK_1: &str = "Ok(Reply { number: 1, extra: Plain })";

const OK_2: &str = "Ok(Reply { number: 2, extra: Plain })";

/// The journal of two days.
pub(crate) const TWO_LINES: &[u8] = b"MSRVJ002\x01\x00\x00\x00\x01\x00\x11k1 day 2024-02-01\
    \x01\x00\x00\x00\x02\x00\x11k2 day 2024-02-02\x00";

pub(crate) const NEXT: &str = "k2 day 2024-02-02";

const PAYMENT: &str = "k2 pay 1 2024-02-01 5.00";

const NO_LOAN: &str = "Err(Refused(NoSuchLoan))";

const ROWS: [Row; 10] = [
    // A command is in the journal once; a repeat and a refused one are not.
    (EMPTY, 99, DAY, OK_1, ONE_LINE),
    (ONE_LINE, 99, DAY, OK_1, ONE_LINE),
    (
        ONE_LINE,
        99,
        "k1 day 2024-02-02",
        "Err(Refused(KeyReused(1)))",
        ONE_LINE,
    ),
    (ONE_LINE, 99, PAYMENT, NO_LOAN, ONE_LINE),
    // One more has 24 bytes: without room for them there are replies and refusals still.
    (ONE_LINE, 57, NEXT, OK_2, TWO_LINES),
    (ONE_LINE, 56, NEXT, "Err(JournalFull(33))", ONE_LINE),
    (ONE_LINE, 33, DAY, OK_1, ONE_LINE),
    (ONE_LINE, 33, PAYMENT, NO_LOAN, ONE_LINE),
    // A journal of version 1 is written anew where there is room for it, and may be full then.
    (OLD_LINE, 61, DAY, "Err(JournalFull(29))", OLD_LINE),
    (OLD_LINE, 62, NEXT, "Err(JournalFull(62))", UPGRADED),
];

#[test]
fn a_command_is_in_the_journal_once_and_within_its_limit(rt: HostRuntime) {
    for (number, row) in ROWS.iter().enumerate() {
        assert!(rt;
            matches!(is_answered(rt.alloc(), row), Ok(true)),
            "row {number}"
        );
    }
    assert!(rt; matches!(opens(rt.alloc(), UPGRADED, "Ok(1)"), Ok(true)));
}

/// Whether a journal that was made takes a command.
fn is_made(alloc: Global) -> Result<bool, OutOfMemory> {
    let mut disk = disk_of(alloc, b"")?;
    let made = init(&mut disk).is_ok();
    let sent = Sent {
        limit: 99,
        line: DAY,
    };
    Ok(made && answers(alloc, &sent, &mut disk, OK_1)? && is_laid(disk.content(), ONE_LINE))
}

#[test]
fn a_journal_that_was_made_takes_a_command(rt: HostRuntime) {
    assert!(rt; matches!(is_made(rt.alloc()), Ok(true)));
}
