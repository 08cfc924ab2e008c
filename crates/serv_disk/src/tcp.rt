//! Connections over TCP.

ghost use Rattle.std.specs.Prelude.{◌≡◌, ℕ, ◌<◌, ◌≤◌, List, Option, None, Some, IfOk, OnErr, length, take};
ghost use Rattle.serv_disk.specs.Faults.{HasCause};

use crate::disk::Disk;
use crate::doors::Doors;
use crate::ended::noted;
use crate::failed::Failed;
use crate::link::Link;
use crate::sink::Sink;
use crate::source::Source;
use std::io::{self, Eprint, ErrorKind, Read, Write};
use std::net::{Ipv4Addr, Net, OpenListener, OpenStream, Shutdown, SocketAddr, TcpListener};
use std::thread::sleep;
use std::time::{Clock, Duration};

/// A connection of the machine. It tells nothing of what comes or was written, takes a piece whole or fails, and is closed
/// when it is let go.
#[derive(Drop)]
pub struct TcpLink<R: Net> {
    stream: R::Stream,
    read_faults: u64,
    write_faults: u64,
}

impl<R: Net> TcpLink<R> {
    /// A link over this stream.
    pub fn new(stream: R::Stream) -> TcpLink<R>
        ensures reads { ⟦<TcpLink<R> as Source>⟧.faults result ≡ 0 }
        ensures writes { ⟦<TcpLink<R> as Sink>⟧.faults result ≡ 0 }
    {
        TcpLink {
            stream,
            read_faults: 0,
            write_faults: 0,
        }
    }
}

impl<R: Net> Source for TcpLink<R> {
    ghost left = { λ _. None };

    ghost faults = { λ x. x.read_faults };

    ghost beside = { λ x. record { held = None; faults = x.write_faults; log = None; mark = 0 } };

    fn read(&mut self, buf: &mut [u8]) -> Result<usize, Failed> {
        match self.stream.read(buf) {
            Ok(n) => Ok(n),
            Err(_) => {
                self.read_faults = self.read_faults.saturating_add(1);
                Err(Failed)
            }
        }
    }
}

impl<R: Net> Sink for TcpLink<R> {
    ghost held = { λ _. None };

    ghost faults = { λ x. x.write_faults };

    ghost beside = { λ x. record { left = None; faults = x.read_faults } };

    ghost log = { λ _. None };

    ghost mark = { λ _. 0 };

    fn show<D: Disk>(&mut self, _: &D) {}

    fn write(&mut self, piece: &[u8]) -> Result<usize, Failed> {
        match self.stream.write(piece) {
            // The system takes a part of a piece only where the rest found no room in time.
            Ok(n) if n == piece.len() => Ok(n),
            _ => {
                self.write_faults = self.write_faults.saturating_add(1);
                Err(Failed)
            }
        }
    }
}

impl<R: Net> Link for TcpLink<R> {
    ghost use Rattle.std.specs.Prelude.{refl};

    ghost writing = { λ x. refl };

    ghost reading = { λ x. refl };
}

/// Connections that come to a port of 127.0.0.1. They tell nothing of which come. A read or a write of one that takes 30
/// seconds fails. A failure to take one that passes by itself is waited out. `back` closes the connection.
#[derive(Drop)]
pub struct TcpDoors<R: Net + Eprint + Clock + Drop> {
    runtime: R,
    port: u16,
    listener: Option<R::Listener>,
    out: u64,
    faults: u64,
    cause: Option<io::Error>,
}

/// The listener, made where there is none. That it listens, and where, is said on standard error.
fn listening<'a, R: Net + Eprint>(
    runtime: &R,
    port: u16,
    listener: &'a mut Option<R::Listener>,
) -> io::Result<&'a mut R::Listener> {
    if listener.is_none() {
        let addr = SocketAddr::from((Ipv4Addr::LOCALHOST, port));
        *listener = Some(TcpListener::bind(runtime, addr)?);
        let _ = eprintln!(runtime; "listening on 127.0.0.1:{port}");
    }
    listener
        .as_mut()
        .ok_or(io::Error::from(ErrorKind::NotConnected))
}

/// How many seconds one read or write of a connection may take.
const PATIENCE: u64 = 30;

/// The numbers of failures to take a connection that pass by themselves, on Linux: EINTR, ENOMEM, ENFILE, EMFILE, and what
/// became of the connection itself, as ECONNABORTED.
const PASSING: [i32; 14] = [4, 12, 23, 24, 64, 71, 92, 95, 100, 101, 103, 105, 112, 113];

/// How many milliseconds are waited after such a failure.
const PAUSE: u64 = 10;

/// Whether a failure to take a connection passes by itself.
fn is_passing(error: &io::Error) -> bool {
    match error.raw_os_error() {
        Some(number) => PASSING.contains(&number),
        None => false,
    }
}

/// Takes the next connection.
fn accepted<R: Clock, L: OpenListener>(clock: &R, listener: &L) -> io::Result<L::Stream> {
    for _ in 0..u32::MAX {
        match listener.accept() {
            Ok((stream, _)) => return Ok(stream),
            Err(error) if is_passing(&error) => sleep(clock, Duration::from_millis(PAUSE)),
            Err(error) => return Err(error),
        }
    }
    Err(io::Error::from(ErrorKind::ConnectionAborted))
}

/// Limits how long reads and writes take, and lets responses out at once, not when the one before is acknowledged. Where
/// the system refuses that, they go out later.
fn set_up<S: OpenStream>(stream: &S) -> io::Result<()> {
    let _ = stream.set_nodelay(true);
    let patience = Duration::from_secs(PATIENCE);
    stream.set_read_timeout(Some(patience))?;
    stream.set_write_timeout(Some(patience))
}

/// What is said to a connection that is not served.
const REFUSED: &[u8] =
    b"HTTP/1.1 503 Service Unavailable\r\nConnection: close\r\nContent-Length: 0\r\n\r\n";

/// How many milliseconds one read or write of a connection that is not served may take.
const HASTE: u64 = 100;

/// How many of its reads are made at most.
const FEW_READS: u32 = 16;

/// Says that a connection is not served. What it sends is read, as far as it comes at once: were bytes unread, the system
/// would reset the connection, and what was said could be lost.
fn refuse<S: Read + Write + OpenStream>(stream: &mut S) -> io::Result<()> {
    let haste = Duration::from_millis(HASTE);
    stream.set_read_timeout(Some(haste))?;
    stream.set_write_timeout(Some(haste))?;
    stream.write_all(REFUSED)?;
    stream.shutdown(Shutdown::Write)?;
    let mut room = [0; 4096];
    for _ in 0..FEW_READS {
        if stream.read(&mut room)? == 0 {
            return Ok(());
        }
    }
    Ok(())
}

/// How many connections may wait to be taken at most.
const MOST_WAITING: u32 = 4096;

/// Refuses the connections that wait.
fn refuse_waiting<L: OpenListener>(listener: &L) -> io::Result<()>
where
    L::Stream: Read + Write + OpenStream,
{
    listener.set_nonblocking(true)?;
    for _ in 0..MOST_WAITING {
        match listener.accept() {
            Ok((mut stream, _)) => {
                let _ = refuse(&mut stream);
            }
            Err(error) if is_passing(&error) => {}
            Err(_) => return Ok(()),
        }
    }
    Ok(())
}

impl<R: Net + Eprint + Clock + Drop> TcpDoors<R> {
    /// Doors at this port, at which nothing listens yet.
    pub fn new(runtime: R, port: u16) -> TcpDoors<R>
        ensures out { ⟦<TcpDoors<R> as Doors>⟧.out result ≡ 0 }
        ensures faults { ⟦<TcpDoors<R> as Doors>⟧.faults result ≡ 0 }
    {
        TcpDoors {
            runtime,
            port,
            listener: None,
            out: 0,
            faults: 0,
            cause: None,
        }
    }

    /// What the system named as the cause of the last call that failed.
    pub fn cause(&self) -> Option<io::Error> {
        self.cause
    }

    /// Listens from here on. Without this call the first `next` does.
    pub fn listen(&mut self) -> Result<(), Failed>
        ensures out { ⟦<TcpDoors<R> as Doors>⟧.out self.new ≡ ⟦<TcpDoors<R> as Doors>⟧.out self.old }
        ensures cause { HasCause (⟦<TcpDoors<R> as Doors>⟧.faults self.old) (⟦<TcpDoors<R> as Doors>⟧.faults self.new) result }
    {
        let done = match listening(&self.runtime, self.port, &mut self.listener) {
            Ok(_) => Ok(()),
            Err(error) => Err(error),
        };
        noted(done, &mut self.faults, &mut self.cause)
    }

    /// Listens no more. Each connection that waits is told so: it is answered by a 503, with no look at what it asks.
    pub fn close(&mut self) {
        if let Some(listener) = &self.listener {
            let _ = refuse_waiting(listener);
        }
        self.listener = None;
    }
}

impl<R: Net + Eprint + Clock + Drop> Doors for TcpDoors<R> {
    type Conn = TcpLink<R>;

    ghost coming = { λ _. None };

    ghost backed = { λ _. None };

    ghost out = { λ d. d.out };

    ghost faults = { λ d. d.faults };

    fn next(&mut self) -> Result<Option<TcpLink<R>>, Failed> {
        let done = match listening(&self.runtime, self.port, &mut self.listener) {
            Ok(listener) => accepted(&self.runtime, listener),
            Err(error) => Err(error),
        };
        let stream = noted(done, &mut self.faults, &mut self.cause)?;
        noted(set_up(&stream), &mut self.faults, &mut self.cause)?;
        self.out = 1;
        Ok(Some(TcpLink::new(stream)))
    }

    fn back(&mut self, _conn: TcpLink<R>) {
        self.out = 0;
    }
}
