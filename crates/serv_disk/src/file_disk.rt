//! A file of the machine as a disk.

ghost use Rattle.std.specs.Prelude.{◌≡◌, ℕ, ◌+◌, ◌≤◌, None, IfOk};

use crate::disk::Disk;
use crate::ended::noted;
use crate::failed::Failed;
use crate::known::{Known, check_last, check_path, read_from};
use std::alloc::Global;
use std::fs::{File, Files, OpenFile, OpenOptions, Permissions};
use std::io::{self, ErrorKind, Read, Seek, SeekFrom, Write};
use std::os::unix::fs::{OpenOptionsExt, PermissionsExt};
use svc_base::OutOfMemory;

/// A file that one process at a time can hold for itself.
pub trait Hold {
    /// Takes an exclusive lock on the file, without waiting: its error is `WouldBlock` where another process holds one.
    /// The lock goes with the file, and so with the process.
    fn hold(&self) -> io::Result<()>;
}

impl Hold for File {
    fn hold(&self) -> io::Result<()> {
        self.try_lock()?;
        Ok(())
    }
}

/// A file at a path. It is opened and locked at the first call, and made empty where none is, to be read and written by its
/// owner alone; its folder is synced then. It tells nothing of what the file holds. A write fails where the bytes of the
/// one before it are gone, and so does a sync, or where another file is at the path or the length is not what was written.
/// Trusted, and not proved: that reads give what was written, that no program writes the file unseen which does not ask
/// for its lock, that a write which fails leaves every byte outside of its range, that bytes written again as they are
/// stay what they are, and that `sync_data`, the system's own sync of data and of the size that reading them takes,
/// returns Ok only once both are kept which were written since the sync before it.
#[derive(Drop)]
pub struct FileDisk<R: Files + Drop> {
    runtime: R,
    path: String,
    file: Option<R::File>,
    known: Known,
    faults: u64,
    cause: Option<io::Error>,
}

impl<R: Files + Drop> FileDisk<R>
where
    R::File: Hold,
{
    /// The file at this path, which is not opened yet.
    pub fn new(alloc: Global, runtime: R, path: &str) -> Result<FileDisk<R>, OutOfMemory>
        ensures { IfOk result (λ disk. ⟦<FileDisk<R> as Disk>⟧.faults disk ≡ 0) }
    {
        let path = path.to_string(alloc)?;
        Ok(FileDisk {
            runtime,
            path,
            file: None,
            known: Known::new(),
            faults: 0,
            cause: None,
        })
    }

    /// What the system named as the cause of the last call that failed.
    pub fn cause(&self) -> Option<io::Error> {
        self.cause
    }
}

/// The file, opened and held where it is not.
fn opened<'a, R: Files>(
    runtime: &R,
    path: &str,
    file: &'a mut Option<R::File>,
) -> io::Result<&'a mut R::File>
where
    R::File: Hold,
{
    if file.is_none() {
        let found = found_or_made(runtime, path)?;
        found.hold()?;
        File::open(runtime, folder_of(path))?.sync_all()?;
        check_path(runtime, path, &found, &Known::new())?;
        *file = Some(found);
    }
    file.as_mut().ok_or(io::Error::from(ErrorKind::NotFound))
}

/// Who may use a journal: its owner.
const OWNER: u32 = 0o600;

/// The file at a path. Where there is none it is made.
fn found_or_made<R: Files>(runtime: &R, path: &str) -> io::Result<R::File> {
    match OpenOptions::new()
        .read(true)
        .write(true)
        .open(runtime, path)
    {
        Err(error) if error.kind() == ErrorKind::NotFound => {
            let made = OpenOptions::new()
                .read(true)
                .write(true)
                .create(true)
                .mode(OWNER)
                .open(runtime, path)?;
            made.set_permissions(Permissions::from_mode(OWNER))?;
            Ok(made)
        }
        found => found,
    }
}

/// The folder in which the file at a path lies.
fn folder_of(path: &str) -> &str {
    match path.rsplit_once('/') {
        Some(("", _)) => "/",
        Some((folder, _)) => folder,
        None => ".",
    }
}

/// Writes all bytes, from this place on.
fn write_from<F: Write + Seek>(file: &mut F, at: u64, bytes: &[u8]) -> io::Result<()> {
    file.seek(SeekFrom::Start(at))?;
    file.write_all(bytes)?;
    file.flush()
}

/// The most bytes that are written again at once.
const MOST_AGAIN: usize = 520;

/// Reads the bytes from one place to another, and writes them again.
fn write_again<F: Read + Write + Seek>(file: &mut F, from: u64, to: u64) -> io::Result<()>
    requires order { from ≤ to }
    requires few { to ≤ from + 520 }
{
    let mut room = [0; MOST_AGAIN];
    let piece = &mut room[..(to - from) as usize];
    read_from(file, from, piece)?;
    write_from(file, from, piece)
}

/// Writes where the bytes of the write before it are still there, and takes note of it.
fn write_known<F: Read + Write + Seek>(
    file: &mut F,
    known: &mut Known,
    at: u64,
    bytes: &[u8],
) -> io::Result<()> {
    check_last(file, known)?;
    match write_from(file, at, bytes) {
        Ok(()) => {
            known.note(at, bytes);
            Ok(())
        }
        Err(error) => {
            known.forget();
            Err(error)
        }
    }
}

/// Cuts the file, and forgets what was written to it.
fn cut_known<F: OpenFile>(file: &mut F, known: &mut Known, len: u64) -> io::Result<()> {
    known.forget();
    file.set_len(len)
}

/// Syncs. What was written is then in the file that is at the path.
fn sync_known<R: Files>(
    runtime: &R,
    path: &str,
    file: &mut R::File,
    known: &Known,
) -> io::Result<()> {
    file.sync_data()?;
    check_path(runtime, path, file, known)?;
    check_last(file, known)
}

/// The length, of which note is taken.
fn length_known<F: OpenFile>(file: &F, known: &mut Known) -> io::Result<u64> {
    let size = file.metadata()?.len();
    known.size = Some(size);
    Ok(size)
}

impl<R: Files + Drop> Disk for FileDisk<R>
where
    R::File: Hold,
{
    ghost use Rattle.serv_disk.specs.DiskLaws.{untold};
    ghost use Rattle.serv_disk.specs.Disks.{nothing_seen};

    ghost view = { λ _. nothing_seen };

    ghost faults = { λ d. d.faults };

    fn clock(&self) -> u64 {
        0
    }

    fn len(&mut self) -> Result<u64, Failed> {
        let done = match opened(&self.runtime, self.path.as_str(), &mut self.file) {
            Ok(file) => length_known(file, &mut self.known),
            Err(error) => Err(error),
        };
        noted(done, &mut self.faults, &mut self.cause)
    }

    fn read(&mut self, at: u64, buf: &mut [u8]) -> Result<(), Failed> {
        let done = match opened(&self.runtime, self.path.as_str(), &mut self.file) {
            Ok(file) => read_from(file, at, buf),
            Err(error) => Err(error),
        };
        noted(done, &mut self.faults, &mut self.cause)
    }

    fn write_at(&mut self, at: u64, bytes: &[u8]) -> Result<(), Failed> {
        let done = match opened(&self.runtime, self.path.as_str(), &mut self.file) {
            Ok(file) => write_known(file, &mut self.known, at, bytes),
            Err(error) => Err(error),
        };
        noted(done, &mut self.faults, &mut self.cause)
    }

    fn cut(&mut self, len: u64) -> Result<(), Failed> {
        let done = match opened(&self.runtime, self.path.as_str(), &mut self.file) {
            Ok(file) => cut_known(file, &mut self.known, len),
            Err(error) => Err(error),
        };
        noted(done, &mut self.faults, &mut self.cause)
    }

    fn renew(&mut self, from: u64, to: u64) -> Result<(), Failed> {
        let done = match opened(&self.runtime, self.path.as_str(), &mut self.file) {
            Ok(file) => write_again(file, from, to),
            Err(error) => Err(error),
        };
        noted(done, &mut self.faults, &mut self.cause)
    }

    fn sync(&mut self) -> Result<(), Failed> {
        let done = match opened(&self.runtime, self.path.as_str(), &mut self.file) {
            Ok(file) => sync_known(&self.runtime, self.path.as_str(), file, &self.known),
            Err(error) => Err(error),
        };
        noted(done, &mut self.faults, &mut self.cause)
    }

    ghost counts_now = { λ d t c le image. image };

    ghost only_now = { λ d c since. since };

    ghost reads_image = { λ d s told. untold s told };

    ghost tells = { λ d c image. absurd image };
}
