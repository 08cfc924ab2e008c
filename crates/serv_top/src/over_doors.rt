//! Links that are served over a journal.

ghost use Rattle.std.specs.Prelude.{◌≡◌, ◌≤◌, ◌⊎◌, false};
ghost use Rattle.serv_disk.specs.Faults.{HasRisen};
ghost use Rattle.serv_engine.specs.Engines.{IsDurable};
ghost use Rattle.serv_links.specs.Doors.{ServedLink, text_of_summary};
ghost use Rattle.serv_machine.specs.History.{history_of, kept_history, stand};
ghost use Rattle.serv_texts.specs.Journal.{HasFileFaults, IsUnopened};
ghost use Rattle.serv_machine.specs.Answering.{Leaves};
ghost use Rattle.serv_top.specs.Served.{IsServedOver, ServesLinks};
ghost use Rattle.serv_texts.specs.Texts.{Writes};

use serv_disk::{Disk, Doors, Sink};
use serv_engine::Engine;
use serv_links::{DoorsEnd, MOST_LINKS, Summary, serve_doors, write_summary};
use serv_machine::Frugal;
use serv_texts::{Status, open_journal, write_text};
use std::alloc::Global;
use std::sync::ledger::Ledger;
use svc_base::Steps;

/// Opens the journal of the disk, serves up to so many links over it, one after another, as long as they come, and
/// writes their summary in one go.
pub(crate) fn serve_over<K: Sink, D: Disk, G: Doors, L: Ledger>(
    alloc: Global,
    most: u32,
    snk: &mut K,
    disk: &mut D,
    doors: &mut G,
    steps: &mut Steps<L>,
) -> Status
    requires most { most ≤ MOST_LINKS }
    requires out { G.out doors.old ≡ 0 }
    ensures served { (IsUnopened D.view D.faults disk.old disk.new result steps.old steps.new
        × (snk.new ≡ snk.old) × (doors.new ≡ doors.old))
        ⊎ IsServedOver D.view disk.old disk.new
        (ServedLink G.Conn.left G.Conn.held G.Conn.log G.Conn.Source.faults G.Conn.Sink.faults
        (D.view disk.new))
        result most steps.old steps.new
        (G.coming doors.old) (G.coming doors.new) (G.backed doors.old) (G.backed doors.new)
        (K.held snk.old) (K.held snk.new) }
    ensures file { HasFileFaults (D.view disk.old).seen result }
    ensures write { result ≡ Status.WriteFault → HasRisen (K.faults snk.old) (K.faults snk.new) }
    ensures disk { result ≡ Status.DiskFault → HasRisen (D.faults disk.old) (D.faults disk.new) }
    ensures net { result ≡ Status.NetFault → HasRisen (G.faults doors.old) (G.faults doors.new) }
    ensures write_later { K.faults snk.old ≤ K.faults snk.new }
    ensures disk_later { D.faults disk.old ≤ D.faults disk.new }
    ensures net_later { G.faults doors.old ≤ G.faults doors.new }
    ensures out { G.out doors.new ≡ 0 }
{
    match open_journal(alloc, disk, steps) {
        Ok(mut engine) => serve_by(alloc, &mut engine, most, snk, disk, doors, steps),
        Err(status) => status,
    }
}

/// Serves links over the engine, and writes their summary.
fn serve_by<B: Frugal, D: Disk, K: Sink, G: Doors, L: Ledger>(
    alloc: Global,
    engine: &mut Engine<B>,
    most: u32,
    snk: &mut K,
    disk: &mut D,
    doors: &mut G,
    steps: &mut Steps<L>,
) -> Status
    requires most { most ≤ MOST_LINKS }
    requires out { G.out doors.old ≡ 0 }
    requires unspent { engine.old.journal.spent ≡ false }
    requires durable { IsDurable (D.view disk.old).images engine.old }
    ensures ends { Leaves D.view disk.old disk.new (λ pending. ServesLinks
        (ServedLink G.Conn.left G.Conn.held G.Conn.log G.Conn.Source.faults G.Conn.Sink.faults
        (D.view disk.new)) result most
        (G.coming doors.old) (G.coming doors.new) (G.backed doors.old) (G.backed doors.new)
        (K.held snk.old) (K.held snk.new)
        (stand (history_of engine.old) steps.old) (stand (kept_history engine.new) steps.new) pending)
        (history_of engine.old) (kept_history engine.new) }
    ensures write { result ≡ Status.WriteFault → HasRisen (K.faults snk.old) (K.faults snk.new) }
    ensures disk { result ≡ Status.DiskFault → HasRisen (D.faults disk.old) (D.faults disk.new) }
    ensures net { result ≡ Status.NetFault → HasRisen (G.faults doors.old) (G.faults doors.new) }
    ensures write_later { K.faults snk.old ≤ K.faults snk.new }
    ensures disk_later { D.faults disk.old ≤ D.faults disk.new }
    ensures net_later { G.faults doors.old ≤ G.faults doors.new }
    ensures out { G.out doors.new ≡ 0 }
{
    let service = serve_doors(alloc, engine, disk, doors, most, steps);
    match service.end {
        DoorsEnd::Done => write_counts(alloc, &service.summary, snk),
        DoorsEnd::DiskFault => Status::DiskFault,
        DoorsEnd::NetFault => Status::NetFault,
    }
}

/// Writes the summary.
fn write_counts<K: Sink>(alloc: Global, summary: &Summary, snk: &mut K) -> Status
    ensures writes { Writes result (λ text. text ≡ text_of_summary summary.now) (K.held snk.old) (K.held snk.new) }
    ensures write { result ≡ Status.WriteFault → HasRisen (K.faults snk.old) (K.faults snk.new) }
    ensures write_later { K.faults snk.old ≤ K.faults snk.new }
{
    match write_summary(alloc, summary) {
        Ok(text) => write_text(snk, &text),
        Err(_) => Status::OutOfMemory,
    }
}
