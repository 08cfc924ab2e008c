//! The program: request lines on standard input, replies on standard output, over the objects of the
//! machine that it runs on.
#![tactic(auto)]

ghost use Rattle.std.specs.Prelude.{◌≡◌, ◌<◌};

mod usage;

use serv_disk::{Disk, Doors, FileDisk, Hold, ReadSource, Sink, Source, TcpDoors, WriteSink};
use serv_top::{Status, port_in};
use std::alloc::{AllocError, Global};
use std::env;
use std::fs::{File, Files, Metadata};
use std::io::{self, Eprint, ErrorKind};
use std::marker::Brand;
use std::net::Net;
use std::os::fd::AsRawFd;
use std::os::unix::fs::MetadataExt;
use std::process::ExitCode;
use std::rt::Env;
use std::sync::ledger::{Blank, Ledger};
use std::time::Clock;
use svc_base::Steps;
use usage::{VERSION, WORDS};

/// The words of the command line, without the program's name. A word that is not UTF-8 is no word
/// that the program knows.
fn words_of(rt: &(impl Env + AllocGlobal)) -> Result<Vec<String>, Status> {
    match env::args(rt) {
        Ok(args) => match args.skip(1).collect(rt.alloc()) {
            Ok(words) => Ok(words),
            Err(_) => Err(Status::OutOfMemory),
        },
        Err(error) if error.kind() == ErrorKind::InvalidData => Err(Status::Usage),
        Err(_) => Err(Status::OutOfMemory),
    }
}

/// The words as texts.
fn texts_of(alloc: Global, words: &[String]) -> Result<Vec<&str>, AllocError> {
    let mut texts = Vec::new(alloc);
    for word in words {
        texts.push(word.as_str())?;
    }
    Ok(texts)
}

/// The exit status of a run that another process kept from the journal.
const IN_USE: u8 = 14;

/// Says on standard error how a run ended, where it did not end well, with what failed and what the system named as the
/// cause; and gives the exit status.
fn told(rt: &impl Eprint, status: Status, what: &str, cause: Option<io::Error>) -> u8 {
    if status == Status::Done {
        return 0;
    }
    let _ = match cause {
        Some(error) if status == Status::DiskFault && error.kind() == ErrorKind::WouldBlock => {
            let _ = eprintln!(rt; "status {IN_USE} InUse {what}");
            return IN_USE;
        }
        Some(error) => eprintln!(rt; "status {status} {what}: {error}"),
        None => eprintln!(rt; "status {status}"),
    };
    if status == Status::Usage {
        let _ = eprintln!(rt; "{VERSION}\n{WORDS}");
    }
    status.number()
}

/// A descriptor with which a program is started.
#[derive(Clone, Copy)]
enum Descriptor {
    Input,
    Output,
    Error,
}

/// The descriptors, and where the system shows what each of them is.
const DESCRIPTORS: [(Descriptor, &str); 3] = [
    (Descriptor::Error, "/proc/self/fd/2"),
    (Descriptor::Output, "/proc/self/fd/1"),
    (Descriptor::Input, "/proc/self/fd/0"),
];

/// Whether a path leads to this file.
fn leads_to<F: Files>(files: &F, path: &str, about: &Metadata) -> bool {
    match files.metadata(path) {
        Ok(other) => other.dev() == about.dev() && other.ino() == about.ino(),
        Err(_) => false,
    }
}

/// The descriptor that is the file at a path, where one is: the journal would be read as lines, or be written over.
fn descriptor_at<F: Files>(files: &F, path: &str) -> Option<Descriptor> {
    let about = match files.metadata(path) {
        Ok(about) if about.is_file() => about,
        _ => return None,
    };
    for (descriptor, shown) in DESCRIPTORS.iter() {
        if leads_to(files, shown, &about) {
            return Some(*descriptor);
        }
    }
    None
}

/// Says that a descriptor is the journal's own file, unless that would be written into it; and gives the exit status.
fn told_own(rt: &impl Eprint, descriptor: Descriptor) -> u8 {
    let own = Some(io::Error::other("it is the journal"));
    match descriptor {
        Descriptor::Input => told(rt, Status::ReadFault, "standard input", own),
        Descriptor::Output => told(rt, Status::WriteFault, "standard output", own),
        Descriptor::Error => Status::WriteFault.number(),
    }
}

/// Runs what the words ask for over these objects. What is said of a run is kept out of `start`, which proves nothing by
/// it.
fn run_over<S: Source, K: Sink, D: Disk, G: Doors, L: Ledger>(
    alloc: Global,
    words: &[&str],
    src: &mut S,
    snk: &mut K,
    disk: &mut D,
    doors: &mut G,
    steps: &mut Steps<L>,
) -> Status
    requires out { G.out doors.old ≡ 0 }
{
    serv_top::run(alloc, words, src, snk, disk, doors, steps)
}

/// Makes the objects and runs what the words ask for, says how that ended, and gives the exit status. The first word is
/// the path of the journal's file, and links come to the port of the words `serve`.
fn start<
    R: Env + Input + Print + Eprint + AllocGlobal,
    F: Files + Drop,
    N: Net + Eprint + Clock + Drop,
    L: Ledger,
>(rt: &R, files: F, net: N, blank: Blank) -> u8
where
    F::File: Hold,
    requires name { blank.name ≡ L.name }
    requires parts { blank.parts ≡ L.parts }
    requires some { 0 < L.parts }
{
    let words = match words_of(rt) {
        Ok(words) => words,
        Err(status) => return told(rt, status, "", None),
    };
    let Ok(texts) = texts_of(rt.alloc(), &words) else {
        return told(rt, Status::OutOfMemory, "", None);
    };
    let path = match words.first() {
        Some(word) => word.as_str(),
        None => "",
    };
    if let Some(descriptor) = descriptor_at(&files, path) {
        return told_own(rt, descriptor);
    }
    let Ok(mut disk) = FileDisk::new(rt.alloc(), files, path) else {
        return told(rt, Status::OutOfMemory, "", None);
    };
    let mut src = ReadSource::new(rt.reader());
    let mut snk = WriteSink::new(io::writer(rt));
    let mut doors = TcpDoors::new(net, port_in(&texts));
    let mut steps = Steps::<L>::new(blank);
    let status = run_over(
        rt.alloc(),
        &texts,
        &mut src,
        &mut snk,
        &mut disk,
        &mut doors,
        &mut steps,
    );
    doors.close();
    match status {
        Status::ReadFault => told(rt, status, "standard input", src.cause()),
        Status::WriteFault => told(rt, status, "standard output", snk.cause()),
        Status::NetFault => told(rt, status, "127.0.0.1", doors.cause()),
        Status::DiskFault => told(rt, status, path, disk.cause()),
        _ => told(rt, status, "", None),
    }
}

/// A folder under one of the descriptors 0, 1 and 2, where one of them is free: the least free one is taken. Reading from
/// it fails, and so does writing to it.
fn stand_in(rt: &HostRuntime) -> io::Result<Option<File>> {
    let folder = File::open(rt, "/")?;
    if folder.as_raw_fd() <= 2 {
        return Ok(Some(folder));
    }
    Ok(None)
}

/// Runs with the descriptors of standard input, output and error taken, so that no file which the run opens is one of
/// them: a program that is started without them would write its replies into the journal.
fn run(rt: &HostRuntime) -> io::Result<u8> {
    let _first = stand_in(rt)?;
    let _second = stand_in(rt)?;
    let _third = stand_in(rt)?;
    let files = rt.clone()?;
    let net = rt.clone()?;
    Ok(start::<HostRuntime, HostRuntime, HostRuntime, Brand>(rt, files, net, Blank::new(1)))
}

fn main(rt: HostRuntime) -> ExitCode {
    ExitCode::from(match run(&rt) {
        Ok(status) => status,
        Err(error) if error.kind() == ErrorKind::OutOfMemory => {
            told(&rt, Status::OutOfMemory, "", None)
        }
        Err(error) => told(&rt, Status::DiskFault, "/", Some(error)),
    })
}
