//! Commands that are begun over a disk in memory.

ghost use Rattle.std.specs.Prelude.{◌≡◌, ◌<◌, OnOk};
ghost use Rattle.serv_engine.specs.Engines.{IsRunning};

use crate::engines::{DAY, NEXT, ONE_LINE, TWO_LINES, disk_of, engine_of, is_laid, opened};
use serv_disk::{Disk, MemDisk};
use serv_engine::{Engine, EngineFault, Taken};
use serv_line::read_line;
use serv_machine::Frugal;
use std::alloc::{AllocError, Global};
use std::marker::Brand;
use std::sync::ledger::{Blank, Ledger};
use svc_base::{OutOfMemory, Steps};
use svc_checkpoint::Checked;
use svc_types::Request;

/// Begins the command of a line.
fn take<B: Frugal, D: Disk, L: Ledger>(
    engine: &mut Engine<B>,
    disk: &mut D,
    line: &str,
    steps: &mut Steps<L>,
) -> Result<Taken, EngineFault>
    requires running { IsRunning (D.view disk.old).images engine.old }
    ensures running { OnOk result (IsRunning (D.view disk.new).images engine.new) }
{
    if engine.is_spent() {
        return Err(EngineFault::DiskFault);
    }
    match read_line(line.as_bytes()) {
        Ok(request) => match &request {
            Request::Do(key, command) => engine.begin(disk, key, command, steps),
            Request::Ask(_) => Err(EngineFault::NotJournal),
        },
        Err(_) => Err(EngineFault::NotJournal),
    }
}

/// Commits the command that is begun, and gives the engine that of a line, which may come next.
#[tactic(auto, using(serv_engine::proofs::RunningLemmas::durable_running))]
fn commit<B: Frugal, D: Disk>(
    engine: &mut Engine<B>,
    disk: &mut D,
    line: &str,
) -> Result<(), EngineFault>
    requires running { IsRunning (D.view disk.old).images engine.old }
    ensures running { OnOk result (IsRunning (D.view disk.new).images engine.new) }
{
    if engine.is_spent() {
        return Err(EngineFault::DiskFault);
    }
    let committed = match read_line(line.as_bytes()) {
        Ok(request) => match &request {
            Request::Do(key, command) => engine.commit(disk, Some((key, command))),
            Request::Ask(_) => engine.commit(disk, None),
        },
        Err(_) => engine.commit(disk, None),
    };
    match committed {
        Ok(()) => Ok(()),
        Err(_) => Err(EngineFault::DiskFault),
    }
}

/// Two lines whose commands are begun one after the other; the line whose record goes to the disk with the commit byte of
/// the first one, where it is committed before the second is begun; and whether the second is committed then.
#[derive(Clone, Copy)]
struct Sent<'a> {
    first: &'a str,
    laid: Option<&'a str>,
    second: &'a str,
    committed: bool,
}

/// What became of both.
fn take_both<B: Frugal, D: Disk, L: Ledger>(
    engine: &mut Engine<B>,
    disk: &mut D,
    sent: &Sent,
    steps: &mut Steps<L>,
) -> Result<(Taken, Taken), EngineFault>
    requires running { IsRunning (D.view disk.old).images engine.old }
{
    let first = take(engine, disk, sent.first, steps)?;
    if let Some(line) = sent.laid {
        commit(engine, disk, line)?;
    }
    let second = take(engine, disk, sent.second, steps)?;
    if sent.committed {
        commit(engine, disk, "")?;
    }
    Ok((first, second))
}

#[tactic(auto, using(serv_engine::proofs::RunningLemmas::durable_running))]
fn taken_counted<B: Frugal, L: Ledger>(
    alloc: Global,
    blank: Blank,
    sent: &Sent,
    disk: &mut MemDisk,
) -> Result<(Taken, Taken), EngineFault>
    requires name { blank.name ≡ L.name }
    requires parts { blank.parts ≡ L.parts }
    requires some { 0 < L.parts }
{
    let mut steps = Steps::<L>::new(blank);
    match engine_of::<B, MemDisk, L>(alloc, disk, 1000, &mut steps) {
        Ok(mut engine) => take_both(&mut engine, disk, sent, &mut steps),
        Err(fault) => Err(fault),
    }
}

/// What becomes of the commands of both lines over a disk, as a text.
fn taken(alloc: Global, sent: &Sent, disk: &mut MemDisk) -> Result<String, AllocError> {
    let taken = taken_counted::<Checked, Brand>(alloc, Blank::new(1), sent, disk);
    format!(in alloc; "{taken:?}")
}

/// Whether they end so on a journal of one day, leave this file, and how many commands that has.
fn are_taken(
    alloc: Global,
    sent: &Sent,
    answer: &str,
    left: &[u8],
    count: u32,
) -> Result<bool, OutOfMemory> {
    let mut disk = disk_of(alloc, ONE_LINE)?;
    let text = taken(alloc, sent, &mut disk)?;
    let is_left = is_laid(disk.content(), left) && opened(alloc, disk.content()) == Ok(count);
    Ok(text.as_str() == answer && is_left)
}

const THIRD: &str = "k3 day 2024-02-03";

/// `ONE_LINE` with the day after it begun.
const ONE_BEGUN: &[u8] = b"MSRVJ002\x01\x00\x00\x00\x01\x00\x11k1 day 2024-02-01\
    \x00\x00\x00\x00\x02\x00\x11k2 day 2024-02-02\x00";

/// The same with that day committed and a third one begun.
const TWO_BEGUN: &[u8] = b"MSRVJ002\x01\x00\x00\x00\x01\x00\x11k1 day 2024-02-01\
    \x01\x00\x00\x00\x02\x00\x11k2 day 2024-02-02\x00\x00\x00\x00\x03\x00\x11k3 day 2024-02-03\x00";

/// Two lines, the one that is laid between them, whether the last is committed, what became of them, and the file then with
/// its number of commands.
type Row = (
    &'static str,
    Option<&'static str>,
    &'static str,
    bool,
    &'static str,
    &'static [u8],
    u32,
);

const ROWS: [Row; 6] = [
    (
        NEXT,
        None,
        THIRD,
        false,
        "Ok((Begun(Reply { number: 2, extra: Plain }), Begun(Reply { number: 3, extra: Plain })))",
        TWO_BEGUN,
        2,
    ),
    (
        NEXT,
        Some(THIRD),
        THIRD,
        false,
        "Ok((Begun(Reply { number: 2, extra: Plain }), Begun(Reply { number: 3, extra: Plain })))",
        TWO_BEGUN,
        2,
    ),
    (
        NEXT,
        Some(THIRD),
        NEXT,
        true,
        "Ok((Begun(Reply { number: 2, extra: Plain }), Settled(Reply { number: 2, extra: Plain })))",
        TWO_BEGUN,
        2,
    ),
    (
        NEXT,
        None,
        NEXT,
        false,
        "Ok((Begun(Reply { number: 2, extra: Plain }), Settled(Reply { number: 2, extra: Plain })))",
        ONE_BEGUN,
        1,
    ),
    (
        DAY,
        None,
        NEXT,
        true,
        "Ok((Settled(Reply { number: 1, extra: Plain }), Begun(Reply { number: 2, extra: Plain })))",
        TWO_LINES,
        2,
    ),
    (
        NEXT,
        None,
        "k3 pay 1 2024-02-01 5.00",
        false,
        "Err(Refused(NoSuchLoan))",
        ONE_BEGUN,
        1,
    ),
];

#[test]
fn a_command_that_is_begun_is_on_the_disk_after_the_next(rt: HostRuntime) {
    for (number, row) in ROWS.iter().enumerate() {
        let (first, laid, second, committed, answer, left, count) = row;
        let sent = Sent {
            first: *first,
            laid: *laid,
            second: *second,
            committed: *committed,
        };
        let are_taken = are_taken(rt.alloc(), &sent, *answer, *left, *count);
        assert!(rt; matches!(are_taken, Ok(true)), "row {number}");
    }
}
