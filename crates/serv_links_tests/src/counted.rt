//! How often a link's commands are synced.

ghost use Rattle.std.specs.Prelude.{◌≡◌, ◌<◌};

use crate::engines::{EMPTY, disk_of, engine_of};
use crate::serving::{link_of, serve_by};
use serv_disk::{Disk, Failed, MemDisk, MemLink};
use serv_links::LinkEnd;
use serv_machine::Frugal;
use std::alloc::Global;
use std::marker::Brand;
use std::sync::ledger::{Blank, Ledger};
use svc_base::{OutOfMemory, Steps};
use svc_checkpoint::Checked;

/// A disk in memory that counts its syncs.
#[derive(Drop)]
struct Counted {
    disk: MemDisk,
    syncs: u32,
}

impl Disk for Counted {
    ghost use Rattle.std.specs.Prelude.{refl};
    ghost use Rattle.serv_disk.specs.MemDisks.{view_of};
    ghost use Rattle.serv_disk.specs.DiskLaws.{since_now, now_only, some_image};

    ghost view = { λ d. view_of d.disk };

    ghost faults = { λ d. d.disk.faults };

    fn clock(&self) -> u64 {
        self.disk.clock()
    }

    fn len(&mut self) -> Result<u64, Failed> {
        self.disk.len()
    }

    fn read(&mut self, at: u64, buf: &mut [u8]) -> Result<(), Failed> {
        self.disk.read(at, buf)
    }

    fn write_at(&mut self, at: u64, bytes: &[u8]) -> Result<(), Failed> {
        self.disk.write_at(at, bytes)
    }

    fn cut(&mut self, len: u64) -> Result<(), Failed> {
        self.disk.cut(len)
    }

    fn sync(&mut self) -> Result<(), Failed> {
        self.syncs = self.syncs.saturating_add(1);
        self.disk.sync()
    }

    ghost counts_now = { λ d t c le image. since_now d.disk.first d.disk.made t c image };

    ghost only_now = { λ d c since. now_only d.disk.first d.disk.made c since };

    ghost reads_image = { λ d s told. some_image d.disk.first d.disk.made s told };

    ghost tells = { λ d c image. refl };
}

/// How a link ended over an engine, and how often the disk was synced.
fn synced_by<B: Frugal, L: Ledger>(
    alloc: Global,
    blank: Blank,
    disk: &mut Counted,
    link: &mut MemLink,
) -> Result<(LinkEnd, u32), OutOfMemory>
    requires name { blank.name ≡ L.name }
    requires parts { blank.parts ≡ L.parts }
    requires some { 0 < L.parts }
{
    let mut steps = Steps::<L>::new(blank);
    match engine_of::<B, Counted, L>(alloc, disk, 1_000_000, &mut steps) {
        Ok(mut engine) => {
            let before = disk.syncs;
            let end = serve_by(alloc, &mut engine, disk, link, &mut steps);
            Ok((end, disk.syncs.saturating_sub(before)))
        }
        Err(_) => Err(OutOfMemory),
    }
}

/// The same over an empty journal.
fn synced(alloc: Global, link: &mut MemLink) -> Result<(LinkEnd, u32), OutOfMemory> {
    let mut disk = Counted {
        disk: disk_of(alloc, EMPTY)?,
        syncs: 0,
    };
    synced_by::<Checked, Brand>(alloc, Blank::new(1), &mut disk, link)
}

/// Three days are asked for, one behind the other.
pub(crate) const DAYS: &str = "POST /v1/commands HTTP/1.1\r\nContent-Length: 42\r\n\r\n\
    {\"key\":\"k1\",\"do\":\"day\",\"day\":\"2024-02-01\"}\
    POST /v1/commands HTTP/1.1\r\nContent-Length: 42\r\n\r\n\
    {\"key\":\"k2\",\"do\":\"day\",\"day\":\"2024-02-02\"}\
    POST /v1/commands HTTP/1.1\r\nContent-Length: 42\r\n\r\n\
    {\"key\":\"k3\",\"do\":\"day\",\"day\":\"2024-02-03\"}";

/// What is said to them.
pub(crate) const SAID_TO_DAYS: &str =
    "HTTP/1.1 200 OK\r\nContent-Length: 35\r\nContent-Type: application/json\r\n\r\n\
    {\"code\":0,\"number\":1,\"text\":\"ok 1\"}\
    HTTP/1.1 200 OK\r\nContent-Length: 35\r\nContent-Type: application/json\r\n\r\n\
    {\"code\":0,\"number\":2,\"text\":\"ok 2\"}\
    HTTP/1.1 200 OK\r\nContent-Length: 35\r\nContent-Type: application/json\r\n\r\n\
    {\"code\":0,\"number\":3,\"text\":\"ok 3\"}";

/// Whether three commands that come in one piece are answered with four syncs: one a command, and one at the end.
fn takes_four(alloc: Global) -> Result<bool, OutOfMemory> {
    let mut link = link_of(alloc, DAYS.as_bytes(), &[], &[])?;
    let (end, syncs) = synced(alloc, &mut link)?;
    Ok(end == LinkEnd::Ended(3) && syncs == 4 && link.content() == SAID_TO_DAYS.as_bytes())
}

#[test]
fn commands_behind_one_another_take_one_sync_each(rt: HostRuntime) {
    assert!(rt; matches!(takes_four(rt.alloc()), Ok(true)));
}
