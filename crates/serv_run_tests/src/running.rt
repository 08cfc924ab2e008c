//! Runs over memory.

ghost use Rattle.std.specs.Prelude.{◌≡◌, ◌<◌};

use serv_disk::{CalmDoors, Disk, Doors, MemDisk, MemSink, MemSource, Sink, Source};
use serv_top::{Status, run};
use std::alloc::{AllocError, Global};
use std::marker::Brand;
use std::sync::ledger::{Blank, Ledger};
use svc_base::{OutOfMemory, Steps};

/// A journal without a command.
pub const NEW_JOURNAL: &[u8] = b"MSRVJ002\x00";

/// The journal of the line `k1 day 2024-02-01`, 33 bytes.
pub const ONE_LINE: &[u8] = b"MSRVJ002\x01\x00\x00\x00\x01\x00\x11k1 day 2024-02-01\x00";

/// That line.
pub const LINE: &[u8] = b"k1 day 2024-02-01\n";

/// What a run is given: words, what the disk and the source hold, and which of their calls fail.
#[derive(Clone, Copy)]
pub struct Given<'a> {
    pub words: &'a [&'a str],
    pub journal: &'a [u8],
    pub calls: &'a [u32],
    pub input: &'a [u8],
    pub reads: &'a [u32],
    pub writes: &'a [u32],
}

/// A run over a journal with an input, of which no call fails.
pub fn over<'a>(words: &'a [&'a str], journal: &'a [u8], input: &'a [u8]) -> Given<'a> {
    Given {
        words,
        journal,
        calls: &[],
        input,
        reads: &[],
        writes: &[],
    }
}

/// What a run came to.
#[derive(Drop)]
pub struct Ending {
    pub status: Status,
    pub output: Vec<u8>,
    /// What reads of the disk give.
    pub journal: Vec<u8>,
}

impl Ending {
    /// Whether the run ended with this status and output.
    pub fn is(&self, status: Status, output: &[u8]) -> bool {
        self.status == status && self.output.as_slice() == output
    }

    /// Whether it left this journal, with nothing or zeros behind it.
    pub fn leaves(&self, journal: &[u8]) -> bool {
        match self.journal.strip_prefix(journal) {
            Some(rest) => rest.iter().all(|byte| *byte == 0),
            None => false,
        }
    }
}

/// Runs the words with a counter of steps.
fn run_counted<L: Ledger, S: Source, K: Sink, D: Disk, G: Doors>(
    alloc: Global,
    blank: Blank,
    given: &Given,
    src: &mut S,
    snk: &mut K,
    disk: &mut D,
    doors: &mut G,
) -> Status
    requires name { blank.name ≡ L.name }
    requires parts { blank.parts ≡ L.parts }
    requires some { 0 < L.parts }
    requires out { G.out doors.old ≡ 0 }
{
    let mut steps = Steps::<L>::new(blank);
    run(alloc, given.words, src, snk, disk, doors, &mut steps)
}

/// Runs the words over these objects.
pub fn run_in_memory<K: Sink, G: Doors>(
    alloc: Global,
    given: &Given,
    src: &mut MemSource,
    snk: &mut K,
    disk: &mut MemDisk,
    doors: &mut G,
) -> Status
    requires out { G.out doors.old ≡ 0 }
{
    run_counted::<Brand, MemSource, K, MemDisk, G>(
        alloc,
        Blank::new(1),
        given,
        src,
        snk,
        disk,
        doors,
    )
}

pub fn source_of(alloc: Global, given: &Given) -> Result<MemSource, AllocError> {
    let input = given.input.to_vec(alloc)?;
    Ok(MemSource::new(input, given.reads.to_vec(alloc)?))
}

/// A sink with room for some writes.
pub fn sink_of(alloc: Global, given: &Given) -> Result<MemSink, OutOfMemory> {
    let mut snk = MemSink::new(Vec::new(alloc), given.writes.to_vec(alloc)?);
    snk.reserve(8, 4096)?;
    Ok(snk)
}

/// A disk with room for some calls.
pub fn disk_of(alloc: Global, given: &Given) -> Result<MemDisk, OutOfMemory> {
    let journal = given.journal.to_vec(alloc)?;
    let mut disk = MemDisk::new(journal, given.calls.to_vec(alloc)?)?;
    disk.reserve(64, 70_000)?;
    Ok(disk)
}

/// What a run came to that ended so.
fn ending_with(
    alloc: Global,
    status: Status,
    snk: &MemSink,
    disk: &MemDisk,
) -> Result<Ending, OutOfMemory> {
    let output = Vec::from_slice(alloc, snk.content())?;
    let journal = Vec::from_slice(alloc, disk.content())?;
    Ok(Ending {
        status,
        output,
        journal,
    })
}

/// Runs the words over a disk, where links come at these doors.
fn ending_by<G: Doors>(
    alloc: Global,
    given: &Given,
    disk: &mut MemDisk,
    doors: &mut G,
) -> Result<Ending, OutOfMemory>
    requires out { G.out doors.old ≡ 0 }
{
    let mut src = source_of(alloc, given)?;
    let mut snk = sink_of(alloc, given)?;
    let status = run_in_memory(alloc, given, &mut src, &mut snk, disk, doors);
    ending_with(alloc, status, &snk, disk)
}

/// Runs the words over a disk that holds the journal, where links come at these doors.
pub fn ending_at<G: Doors>(
    alloc: Global,
    given: &Given,
    doors: &mut G,
) -> Result<Ending, OutOfMemory>
    requires out { G.out doors.old ≡ 0 }
{
    let mut disk = disk_of(alloc, given)?;
    ending_by(alloc, given, &mut disk, doors)
}

/// Runs the words over a disk, where no link comes.
pub fn ending_on(alloc: Global, given: &Given, disk: &mut MemDisk) -> Result<Ending, OutOfMemory> {
    let mut doors = CalmDoors::new(alloc, Vec::new(alloc))?;
    ending_by(alloc, given, disk, &mut doors)
}

/// Runs the words over a disk that holds the journal.
pub fn ending_of(alloc: Global, given: &Given) -> Result<Ending, OutOfMemory> {
    let mut disk = disk_of(alloc, given)?;
    ending_on(alloc, given, &mut disk)
}

/// The journal of a servicer who applies the lines.
pub fn journal_of(alloc: Global, lines: &str) -> Result<Vec<u8>, OutOfMemory> {
    let given = over(&["j", "apply"], NEW_JOURNAL, lines.as_bytes());
    let end = ending_of(alloc, &given)?;
    Ok(end.journal)
}
