//! Links that are served over a journal in memory.

ghost use Rattle.std.specs.Prelude.{◌≡◌, ◌<◌, false};
ghost use Rattle.serv_engine.specs.Engines.{IsDurable};

use crate::engines::{EMPTY, disk_of, engine_of};
use crate::other_links::Pieces;
use serv_disk::{Disk, Link, MemLink};
use serv_engine::Engine;
use serv_links::{LinkEnd, serve_one};
use serv_machine::Frugal;
use std::alloc::Global;
use std::marker::Brand;
use std::sync::ledger::{Blank, Ledger};
use svc_base::{OutOfMemory, Steps};
use svc_checkpoint::Checked;

/// Serves a link over an engine.
pub(crate) fn serve_by<B: Frugal, D: Disk, C: Link, L: Ledger>(
    alloc: Global,
    engine: &mut Engine<B>,
    disk: &mut D,
    link: &mut C,
    steps: &mut Steps<L>,
) -> LinkEnd
    requires unspent { engine.old.journal.spent ≡ false }
    requires durable { IsDurable (D.view disk.old).images engine.old }
{
    serve_one(alloc, engine, disk, link, steps)
}

fn serve_counted<B: Frugal, L: Ledger, D: Disk, C: Link>(
    alloc: Global,
    blank: Blank,
    disk: &mut D,
    link: &mut C,
) -> Result<LinkEnd, OutOfMemory>
    requires name { blank.name ≡ L.name }
    requires parts { blank.parts ≡ L.parts }
    requires some { 0 < L.parts }
{
    let mut steps = Steps::<L>::new(blank);
    match engine_of::<B, D, L>(alloc, disk, 1_000_000, &mut steps) {
        Ok(mut engine) => Ok(serve_by(alloc, &mut engine, disk, link, &mut steps)),
        Err(_) => Err(OutOfMemory),
    }
}

/// Serves a link over the journal of a disk.
pub(crate) fn serve_on<D: Disk, C: Link>(
    alloc: Global,
    disk: &mut D,
    link: &mut C,
) -> Result<LinkEnd, OutOfMemory> {
    serve_counted::<Checked, Brand, D, C>(alloc, Blank::new(1), disk, link)
}

/// Serves a link over an empty journal.
pub(crate) fn serve<C: Link>(alloc: Global, link: &mut C) -> Result<LinkEnd, OutOfMemory> {
    let mut disk = disk_of(alloc, EMPTY)?;
    serve_on(alloc, &mut disk, link)
}

/// A link that gives these bytes, and whose reads and writes with these numbers fail.
pub(crate) fn link_of(
    alloc: Global,
    bytes: &[u8],
    reads: &[u32],
    writes: &[u32],
) -> Result<MemLink, OutOfMemory> {
    let bytes = bytes.to_vec(alloc)?;
    let reads = reads.to_vec(alloc)?;
    let mut link = MemLink::new(alloc, bytes, reads, writes.to_vec(alloc)?);
    link.reserve(64, 4096)?;
    Ok(link)
}

/// Whether these bytes end a link so, and this is said to them.
fn is_said_whole(
    alloc: Global,
    bytes: &[u8],
    end: LinkEnd,
    said: &[u8],
) -> Result<bool, OutOfMemory> {
    let mut link = link_of(alloc, bytes, &[], &[])?;
    let ended = serve(alloc, &mut link)?;
    Ok(ended == end && link.content() == said)
}

/// The same where they come one at a time.
fn is_said_in_pieces(
    alloc: Global,
    bytes: &[u8],
    end: LinkEnd,
    said: &[u8],
) -> Result<bool, OutOfMemory> {
    let mut link = Pieces::new(link_of(alloc, bytes, &[], &[])?);
    let ended = serve(alloc, &mut link)?;
    Ok(ended == end && link.content() == said)
}

/// Whether they end it so both ways.
pub(crate) fn is_said(
    alloc: Global,
    bytes: &[u8],
    end: LinkEnd,
    said: &[u8],
) -> Result<bool, OutOfMemory> {
    Ok(is_said_whole(alloc, bytes, end, said)? && is_said_in_pieces(alloc, bytes, end, said)?)
}
