//! A disk in memory: its calls, its failures, and what a crash leaves of it.

use serv_disk::{Disk, Failed, MemDisk, Torn};
use std::alloc::Global;
use std::test::Fail;
use svc_base::OutOfMemory;

fn disk_of(alloc: Global, content: &[u8], fails: &[u32]) -> Result<MemDisk, OutOfMemory> {
    MemDisk::new(content.to_vec(alloc)?, fails.to_vec(alloc)?)
}

/// A write that is refused where it would begin past the end.
fn put(disk: &mut MemDisk, at: u64, bytes: &[u8]) -> Result<(), Failed> {
    if at > disk.content().len() as u64 {
        return Err(Failed);
    }
    disk.write_at(at, bytes)
}

/// A cut that is refused where it would lengthen.
fn cut(disk: &mut MemDisk, len: u64) -> Result<(), Failed> {
    if len > disk.content().len() as u64 {
        return Err(Failed);
    }
    disk.cut(len)
}

/// Two bytes, where they are there.
fn two_at(disk: &mut MemDisk, at: u64) -> Result<[u8; 2], Failed> {
    let len = disk.content().len() as u64;
    if len < 2 || at > len - 2 {
        return Err(Failed);
    }
    let mut two = [0; 2];
    disk.read(at, &mut two)?;
    Ok(two)
}

/// A call that changes the content or syncs.
#[derive(Clone, Copy)]
enum Call<'a> {
    Put(u64, &'a [u8]),
    Cut(u64),
    Sync,
}

fn made(disk: &mut MemDisk, call: Call) -> Result<(), Failed> {
    match call {
        Call::Put(at, bytes) => put(disk, at, bytes),
        Call::Cut(len) => cut(disk, len),
        Call::Sync => disk.sync(),
    }
}

/// The last answer of these calls on `abcd`, after one for its length, and the disk then. The third and the
/// eighth call fail.
fn after(alloc: Global, calls: &[Call]) -> Result<(Result<(), Failed>, MemDisk), Fail> {
    let mut disk = disk_of(alloc, b"abcd", &[3, 8])?;
    disk.reserve(6, 16)?;
    let _ = disk.len();
    let mut answer = Ok(());
    for call in calls {
        answer = made(&mut disk, *call);
    }
    Ok((answer, disk))
}

/// Whether these calls end with this answer and this content.
fn ends_with(
    alloc: Global,
    calls: &[Call],
    answer: Result<(), Failed>,
    content: &[u8],
) -> Result<bool, Fail> {
    let (given, disk) = after(alloc, calls)?;
    Ok(given == answer && disk.content() == content)
}

const CALLS: [Call; 5] = [
    Call::Put(2, b"XYZ"),
    Call::Cut(3),
    Call::Sync,
    Call::Put(3, b"de"),
    Call::Put(0, b""),
];

#[test]
fn calls_change_the_content_and_fail_by_the_list(rt: HostRuntime) -> Result<(), Fail> {
    let alloc = rt.alloc();
    assert!(rt; ends_with(alloc, &CALLS[..0], Ok(()), b"abcd")?);
    assert!(rt; ends_with(alloc, &CALLS[..1], Ok(()), b"abXYZ")?);
    assert!(rt; ends_with(alloc, &CALLS[..2], Err(Failed), b"abX")?);
    assert!(rt; ends_with(alloc, &CALLS[..3], Ok(()), b"abX")?);
    assert!(rt; ends_with(alloc, &CALLS[..4], Ok(()), b"abXde")?);
    assert!(rt; ends_with(alloc, &CALLS, Ok(()), b"abXde")?);
    Ok(())
}

/// What a read and a sync after these calls answer, and the length of the longest read.
fn read_and_synced(
    alloc: Global,
) -> Result<(Result<[u8; 2], Failed>, Result<(), Failed>, u64), Fail> {
    let (_, mut disk) = after(alloc, &CALLS)?;
    let read = two_at(&mut disk, 3);
    let synced = disk.sync();
    Ok((read, synced, disk.longest_read()))
}

#[test]
fn a_read_gives_the_bytes_at_its_place(rt: HostRuntime) -> Result<(), Fail> {
    let (read, synced, longest) = read_and_synced(rt.alloc())?;
    assert_eq!(rt; read, Ok(*b"de"));
    assert_eq!(rt; synced, Err(Failed));
    assert_eq!(rt; longest, 2);
    Ok(())
}

/// The length of a disk that stops after so many calls more, and which of three syncs pass then.
fn len_and_syncs(
    alloc: Global,
    passing: u32,
) -> Result<(Result<u64, Failed>, [Result<(), Failed>; 3]), OutOfMemory> {
    let mut disk = disk_of(alloc, b"ab", &[])?;
    let len = disk.len();
    disk.stop_after(passing);
    let first = disk.sync();
    let second = disk.sync();
    let third = disk.sync();
    Ok((len, [first, second, third]))
}

#[test]
fn no_call_passes_after_a_stop(rt: HostRuntime) -> Result<(), Fail> {
    for (passing, syncs) in [
        (0, [Err(Failed), Err(Failed), Err(Failed)]),
        (1, [Ok(()), Err(Failed), Err(Failed)]),
        (2, [Ok(()), Ok(()), Err(Failed)]),
    ] {
        assert!(rt;
            len_and_syncs(rt.alloc(), passing)? == (Ok(2), syncs),
            "stop after {passing}"
        );
    }
    Ok(())
}

/// What a crash leaves after these calls on `abcd`, stopped at once.
fn crashed(alloc: Global, calls: &[Call], torn: Torn, longer: bool) -> Result<Vec<u8>, Fail> {
    let mut disk = disk_of(alloc, b"abcd", &[])?;
    for call in calls {
        made(&mut disk, *call)?;
    }
    disk.stop_after(0);
    let mut left = disk.crash(torn, longer)?;
    left.sync()?;
    Ok(left.content().to_vec(alloc)?)
}

/// Whether it leaves this content at the lesser of both lengths, and that at the greater.
fn leaves(
    alloc: Global,
    calls: &[Call],
    torn: Torn,
    shorter: &[u8],
    longer: &[u8],
) -> Result<bool, Fail> {
    let less = crashed(alloc, calls, torn, false)?;
    let more = crashed(alloc, calls, torn, true)?;
    Ok(less.as_slice() == shorter && more.as_slice() == longer)
}

const WRITE: [Call; 1] = [Call::Put(2, b"XYZ")];

const CUT: [Call; 1] = [Call::Cut(2)];

const WRITE_AND_CUT: [Call; 2] = [Call::Put(2, b"XYZ"), Call::Cut(3)];

const SYNCED: [Call; 3] = [Call::Put(2, b"XYZ"), Call::Cut(3), Call::Sync];

const AGAIN: [Call; 3] = [Call::Sync, Call::Put(1, b"BC"), Call::Put(2, b"Q")];

/// Calls on `abcd`, how their unsynced writes are torn, and the content at the lesser of both lengths and at
/// the greater.
const CRASHES: [(&[Call], Torn, &str, &str); 9] = [
    (&WRITE, Torn::Old, "abcd", "abcd\0"),
    (&WRITE, Torn::New, "abXY", "abXYZ"),
    (&WRITE, Torn::Zero, "ab\0\0", "ab\0\0\0"),
    (&CUT, Torn::New, "ab", "abcd"),
    (&WRITE_AND_CUT, Torn::Old, "abc", "abcd"),
    (&WRITE_AND_CUT, Torn::New, "abX", "abXY"),
    (&SYNCED, Torn::Ones, "abX", "abX"),
    (&AGAIN, Torn::New, "aBQd", "aBQd"),
    (&AGAIN, Torn::Zero, "a\0\0d", "a\0\0d"),
];

#[test]
fn a_crash_leaves_what_is_chosen(rt: HostRuntime) -> Result<(), Fail> {
    for (i, (calls, torn, shorter, longer)) in CRASHES.iter().enumerate() {
        let is_left = leaves(
            rt.alloc(),
            calls,
            *torn,
            shorter.as_bytes(),
            longer.as_bytes(),
        )?;
        assert!(rt; is_left, "crash {i}");
    }
    let ones = leaves(
        rt.alloc(),
        &WRITE,
        Torn::Ones,
        b"ab\xff\xff",
        b"ab\xff\xff\xff",
    )?;
    assert!(rt; ones);
    Ok(())
}
