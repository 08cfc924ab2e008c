//! Sources, sinks and links in memory.

use serv_disk::{
    CalmLink, CalmSink, CalmSource, Failed, MemLink, MemSink, MemSource, Sink, Source, read_some,
    write_whole,
};
use std::alloc::{AllocError, Global};
use std::test::Fail;
use svc_base::OutOfMemory;

/// The last answer of so many reads of two bytes at most from `abcde`, whose second and fourth read fail,
/// and what has been read into the room then.
fn nth_read(alloc: Global, n: u32) -> Result<(Result<usize, Failed>, [u8; 2]), AllocError> {
    let mut src = MemSource::new(b"abcde".to_vec(alloc)?, [2, 4].to_vec(alloc)?);
    let mut room = [0; 2];
    let mut answer = Ok(0);
    for _ in 0..n {
        answer = src.read(&mut room);
    }
    Ok((answer, room))
}

#[test]
fn sources_give_their_bytes_in_order_and_fail_by_the_list(rt: HostRuntime) -> Result<(), Fail> {
    for (n, answer, found) in [
        (1, Ok(2), *b"ab"),
        (2, Err(Failed), *b"ab"),
        (3, Ok(2), *b"cd"),
        (4, Err(Failed), *b"cd"),
        (5, Ok(1), *b"ed"),
        (6, Ok(0), *b"ed"),
    ] {
        assert!(rt; nth_read(rt.alloc(), n)? == (answer, found), "read {n}");
    }
    Ok(())
}

/// The answers of three reads from a calm source of `abc`.
fn calm_reads(alloc: Global) -> Result<[Result<usize, Failed>; 3], AllocError> {
    let mut room = [0; 2];
    let mut calm = CalmSource::new(b"abc".to_vec(alloc)?);
    let first = calm.read(&mut room);
    let second = read_some(&mut calm, &mut room, 2);
    Ok([first, second, calm.read(&mut room)])
}

/// The answers of two writes to a sink that has `a` and fails at the second, and of a whole text, with its
/// content then.
fn writes(
    alloc: Global,
) -> Result<([Result<usize, Failed>; 2], Result<(), Failed>, Vec<u8>), OutOfMemory> {
    let mut snk = MemSink::new(b"a".to_vec(alloc)?, [2].to_vec(alloc)?);
    snk.reserve(3, 4)?;
    let first = snk.write(b"bc");
    let second = snk.write(b"x");
    let whole = write_whole(&mut snk, b"de");
    Ok(([first, second], whole, snk.content().to_vec(alloc)?))
}

#[test]
fn calm_sources_and_sinks_take_and_give_all(rt: HostRuntime) -> Result<(), Fail> {
    assert_eq!(rt; calm_reads(rt.alloc())?, [Ok(2), Ok(1), Ok(0)]);
    assert_eq!(rt; CalmSink::new().write(b"abc"), Ok(3));
    assert_eq!(rt; write_whole(&mut CalmSink::default(), b"abc"), Ok(()));
    Ok(())
}

#[test]
fn sinks_take_each_piece_whole_and_fail_by_the_list(rt: HostRuntime) -> Result<(), Fail> {
    let (answers, whole, content) = writes(rt.alloc())?;
    assert!(rt; answers == [Ok(2), Err(Failed)] && whole == Ok(()));
    assert_eq!(rt; content.as_slice(), b"abcde".as_slice());
    Ok(())
}

fn link_of_six(alloc: Global) -> Result<MemLink, OutOfMemory> {
    let reads = [2].to_vec(alloc)?;
    let writes = [1].to_vec(alloc)?;
    let mut link = MemLink::new(alloc, b"abcdef".to_vec(alloc)?, reads, writes);
    link.reserve(2, 2)?;
    Ok(link)
}

/// The answers of two writes and three reads by turns over a link of six bytes, whose first write and second
/// read fail, and what it was sent.
fn turns(alloc: Global) -> Result<([Result<usize, Failed>; 5], Vec<u8>), OutOfMemory> {
    let mut room = [0; 4];
    let mut link = link_of_six(alloc)?;
    let answers = [
        link.write(b"x"),
        link.read(&mut room),
        link.write(b"yz"),
        link.read(&mut room),
        link.read(&mut room),
    ];
    Ok((answers, link.content().to_vec(alloc)?))
}

/// The answers of a write and two reads over a calm link of `abc`.
fn calm_turns(alloc: Global) -> Result<[Result<usize, Failed>; 3], AllocError> {
    let mut room = [0; 4];
    let mut calm = CalmLink::new(b"abc".to_vec(alloc)?);
    Ok([
        calm.write(b"xyz"),
        calm.read(&mut room),
        calm.read(&mut room),
    ])
}

#[test]
fn a_link_counts_its_reads_and_its_writes_apart(rt: HostRuntime) -> Result<(), Fail> {
    let (answers, content) = turns(rt.alloc())?;
    assert_eq!(rt; answers, [Err(Failed), Ok(4), Ok(2), Err(Failed), Ok(2)]);
    assert_eq!(rt; content.as_slice(), b"yz".as_slice());
    assert_eq!(rt; calm_turns(rt.alloc())?, [Ok(3), Ok(3), Ok(0)]);
    Ok(())
}
