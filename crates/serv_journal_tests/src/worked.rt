//! Worked files, and a disk that has one.

use serv_disk::MemDisk;
use serv_journal::{Frames, Journal};
use std::alloc::Global;
use std::test::Fail;
use svc_base::OutOfMemory;

pub const LIMIT: u64 = 1000000;

/// A journal with no record.
pub const NO_LINE: &[u8] = b"MSRVJ002\x00";

/// The journal of the line `k1 day 2024-02-01`, 33 bytes.
pub const ONE_LINE: &[u8] = b"MSRVJ002\x01\x00\x00\x00\x01\x00\x11k1 day 2024-02-01\x00";

/// The same in version 1, 29 bytes.
pub const OLD_LINE: &[u8] = b"MSRVJ001\x01\x00\x11k1 day 2024-02-01\x00";

pub fn disk_of(alloc: Global, content: &[u8]) -> Result<MemDisk, OutOfMemory> {
    MemDisk::new(content.to_vec(alloc)?, Vec::new(alloc))
}

/// Whether a disk holds this file, with nothing or zeros behind it.
pub fn is_laid(content: &[u8], file: &[u8]) -> bool {
    match content.strip_prefix(file) {
        Some(rest) => rest.iter().all(|byte| *byte == 0),
        None => false,
    }
}

/// Whether the frames have these lines.
pub fn are_lines(frames: &Frames, lines: &[&[u8]]) -> bool {
    if frames.len() != lines.len() {
        return false;
    }
    for i in 0..lines.len() {
        if frames.line(i) != lines[i] {
            return false;
        }
    }
    true
}

/// Whether opening this content gives these lines, the last one from this place on.
pub fn is_read_as(alloc: Global, content: &[u8], lines: &[&[u8]], last: u64) -> Result<bool, Fail> {
    let mut disk = disk_of(alloc, content)?;
    let (_, frames) = Journal::open(alloc, &mut disk, LIMIT)?;
    let has_lines = are_lines(&frames, lines);
    Ok(has_lines && place_of_last(&frames) == Some(last))
}

fn place_of_last(frames: &Frames) -> Option<u64> {
    if frames.is_empty() {
        return None;
    }
    Some(frames.place(frames.len() - 1))
}
