//! What is known of an open file: whether it is still the one at its path, as it was written.

use std::fs::{Files, Metadata, OpenFile};
use std::io::{self, Read, Seek, SeekFrom};
use std::os::unix::fs::MetadataExt;

/// How many bytes of the last write are kept in mind.
const FRONT: usize = 16;

/// The length of a file, where it is known, and the first bytes of the last write, with their place.
#[derive(Drop)]
pub(crate) struct Known {
    pub(crate) size: Option<u64>,
    at: u64,
    count: usize,
    front: [u8; FRONT],
}

impl Known {
    /// Nothing is known yet.
    pub(crate) fn new() -> Known {
        Known {
            size: None,
            at: 0,
            count: 0,
            front: [0; FRONT],
        }
    }

    /// Takes note of a write.
    pub(crate) fn note(&mut self, at: u64, bytes: &[u8]) {
        let count = bytes.len().min(FRONT);
        self.front[..count].copy_from_slice(&bytes[..count]);
        self.at = at;
        self.count = count;
        if let Some(size) = self.size {
            self.size = Some(size.max(at.saturating_add(bytes.len() as u64)));
        }
    }

    /// Forgets what was written, where a call failed or cut it.
    pub(crate) fn forget(&mut self) {
        self.size = None;
        self.count = 0;
    }
}

/// Reads as many bytes as there is room for, from this place on.
pub(crate) fn read_from<F: Read + Seek>(file: &mut F, at: u64, buf: &mut [u8]) -> io::Result<()> {
    file.seek(SeekFrom::Start(at))?;
    file.read_exact(buf)
}

/// An error where the bytes that were written last are not there: another program has written the file.
pub(crate) fn check_last<F: Read + Seek>(file: &mut F, known: &Known) -> io::Result<()> {
    let count = known.count.min(FRONT);
    let mut room = [0; FRONT];
    read_from(file, known.at, &mut room[..count])?;
    if room[..count] == known.front[..count] {
        Ok(())
    } else {
        Err(io::Error::other("another program has written the file"))
    }
}

/// Whether these are of one file.
fn is_same(a: &Metadata, b: &Metadata) -> bool {
    a.dev() == b.dev() && a.ino() == b.ino()
}

/// An error where the file at the path is not the open one, or has another length than is known.
pub(crate) fn check_path<R: Files>(
    runtime: &R,
    path: &str,
    file: &R::File,
    known: &Known,
) -> io::Result<()> {
    let open = file.metadata()?;
    if !is_same(&runtime.metadata(path)?, &open) {
        return Err(io::Error::other("another file is at the path"));
    }
    match known.size {
        Some(size) if size != open.len() => Err(io::Error::other(
            "another program has changed the length",
        )),
        _ => Ok(()),
    }
}
