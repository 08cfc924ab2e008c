//! Adapters over readers, writers, files and TCP.

ghost use Rattle.std.specs.Prelude.{◌≡◌};

use crate::listening::serve;
use serv_disk::{Disk, Doors, Failed, FileDisk, ReadSource, Sink, Source, TcpDoors, WriteSink};
use std::alloc::{AllocGlobal, Global};
use std::io::{self, ErrorKind, Read, Write};
use std::net::{Ipv4Addr, Net, OpenStream, Shutdown, SocketAddr, TcpListener, TcpStream};
use std::path::PathBuf;
use std::test::Fail;
use std::{env, fs, process};

/// A reader and writer that always fails, and a writer that takes nothing.
#[derive(Drop)]
struct Broken;

impl Read for Broken {
    fn read(&mut self, _buf: &mut [u8]) -> io::Result<usize> {
        Err(io::Error::from(ErrorKind::Other))
    }
}

impl Write for Broken {
    fn write(&mut self, _buf: &[u8]) -> io::Result<usize> {
        Ok(0)
    }

    fn flush(&mut self) -> io::Result<()> {
        Ok(())
    }
}

/// Whether a source over bytes hands them on and then ends.
fn is_handed_on() -> bool {
    let mut room = [0; 4];
    let mut src = ReadSource::new(b"abc".as_slice());
    let first = src.read(&mut room);
    let second = src.read(&mut room);
    first == Ok(3) && second == Ok(0) && room == *b"abc\0"
}

#[test]
fn adapters_hand_on_what_is_read_and_written(rt: HostRuntime) {
    assert!(rt; is_handed_on());
    assert!(rt; WriteSink::new(Vec::new(rt.alloc())).write(b"abc") == Ok(3));
    assert!(rt; ReadSource::new(Broken).read(&mut [0; 4]) == Err(Failed));
    assert!(rt; WriteSink::new(Broken).write(b"abc") == Err(Failed));
}

/// A path of this process in the folder for files that do not last.
fn path_of(rt: &HostRuntime) -> Result<PathBuf, Fail> {
    let alloc = rt.alloc();
    let name = format!(in alloc; "jaqhendulu-disk-{}", process::id(rt.process()))?;
    Ok(env::temp_dir(rt)?.join(alloc, name.as_str())?)
}

fn file_at(rt: &HostRuntime, path: &str) -> Result<FileDisk<HostRuntime>, Fail> {
    Ok(FileDisk::new(rt.alloc(), rt.clone()?, path)?)
}

/// Whether a new file is empty, and takes two writes, a cut and a sync.
fn is_written(disk: &mut FileDisk<HostRuntime>) -> bool {
    let len = disk.len();
    let first = disk.write_at(0, b"abcdef");
    let second = disk.write_at(2, b"XY");
    let cut = disk.cut(5);
    let synced = disk.sync();
    len == Ok(0) && [first, second, cut, synced] == [Ok(()); 4]
}

/// The length of the file, and four bytes from this place on.
fn read_at(
    disk: &mut FileDisk<HostRuntime>,
    at: u64,
) -> (Result<u64, Failed>, Result<[u8; 4], Failed>) {
    let mut room = [0; 4];
    let len = disk.len();
    let read = disk.read(at, &mut room);
    (len, read.map(|()| room))
}

/// Whether what was written is there when the file is opened anew.
fn keeps(rt: &HostRuntime, path: &str) -> Result<bool, Fail> {
    let mut disk = file_at(rt, path)?;
    let written = is_written(&mut disk);
    let within = read_at(&mut disk, 1);
    let past = read_at(&mut disk, 2);
    Ok(written && within == (Ok(5), Ok(*b"bXYe")) && past == (Ok(5), Err(Failed)))
}

fn has_kept(rt: &HostRuntime, path: &str) -> Result<bool, Fail> {
    let mut disk = file_at(rt, path)?;
    Ok(read_at(&mut disk, 0) == (Ok(5), Ok(*b"abXY")))
}

/// Whether a disk in a folder that is not there fails.
fn fails_nowhere(rt: &HostRuntime, folder: &PathBuf) -> Result<bool, Fail> {
    let path = folder.join(rt.alloc(), "nowhere")?;
    let mut disk = file_at(rt, path.as_str())?;
    Ok(disk.len() == Err(Failed))
}

#[test]
fn a_file_keeps_what_was_written(rt: HostRuntime) -> Result<(), Fail> {
    let path = path_of(&rt)?;
    assert!(rt; keeps(&rt, path.as_str())?);
    assert!(rt; has_kept(&rt, path.as_str())?);
    fs::remove_file(&rt, path.as_str())?;
    assert!(rt; fails_nowhere(&rt, &path)?);
    Ok(())
}

/// A port of 127.0.0.1 at which nothing listens.
fn free_port(rt: &impl Net) -> Option<u16> {
    for port in 47_100..47_900_u16 {
        let addr = SocketAddr::from((Ipv4Addr::LOCALHOST, port));
        if TcpListener::bind(rt, addr).is_ok() {
            return Some(port);
        }
    }
    None
}

/// A client that sends `ask` and nothing more.
fn client_of<N: Net>(rt: &N, port: u16) -> Result<N::Stream, Fail> {
    let mut client = TcpStream::connect(rt, SocketAddr::from((Ipv4Addr::LOCALHOST, port)))?;
    client.write_all(b"ask")?;
    client.shutdown(Shutdown::Write)?;
    Ok(client)
}

/// What is read to the end.
fn heard<R: Read>(alloc: Global, client: &mut R) -> Result<Vec<u8>, Fail> {
    let mut reply = Vec::new(alloc);
    client.read_to_end(&mut reply)?;
    Ok(reply)
}

/// Serves a client. What `serve` gives, and what the client hears.
fn exchange<D: Doors>(
    rt: &HostRuntime,
    port: u16,
    doors: &mut D,
    room: &mut [u8],
) -> Result<(Option<[usize; 2]>, Vec<u8>), Fail>
    requires { D.out doors.old ≡ 0 }
{
    let mut client = client_of(rt, port)?;
    let served = serve(doors, room)?;
    Ok((served, heard(rt.alloc(), &mut client)?))
}

#[test]
fn a_client_is_served_over_tcp(rt: HostRuntime) -> Result<(), Fail> {
    let port = free_port(&rt).ok_or("no port is free")?;
    let mut doors = TcpDoors::new(rt.clone()?, port);
    doors.listen()?;
    let mut room = [0; 4];
    let (served, reply) = exchange(&rt, port, &mut doors, &mut room)?;
    assert!(rt; served == Some([3, 0]) && room == *b"ask\0");
    assert_eq!(rt; reply.as_slice(), b"ok".as_slice());
    Ok(())
}
