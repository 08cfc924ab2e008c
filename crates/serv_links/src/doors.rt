//! Links, served one after another.

ghost use Rattle.std.specs.Prelude.{◌≡◌, ◌≢◌, ◌≤◌, false};
ghost use Rattle.serv_disk.specs.Faults.{HasRisen};
ghost use Rattle.serv_engine.specs.Engines.{IsDurable};
ghost use Rattle.serv_machine.specs.History.{history_of, kept_history, stand};
ghost use Rattle.serv_links.specs.Doors.{ServedLink, ServesDoors};

use crate::link_end::LinkEnd;
use crate::one_link::serve_one;
use crate::summary::Summary;
use serv_disk::{Disk, Doors};
use serv_engine::Engine;
use serv_machine::Frugal;
use std::alloc::Global;
use std::sync::ledger::Ledger;
use svc_base::Steps;

/// The most links that are served: 1,000,000.
pub const MOST_LINKS: u32 = 1_000_000;

/// Why no further link is served.
#[derive(Clone, Copy, Debug, PartialEq, Eq)]
pub enum DoorsEnd {
    /// As many as were asked for are served, or no more come.
    Done,
    /// The disk failed.
    DiskFault,
    /// The doors failed.
    NetFault,
}

/// How links were served: their counts, and why no further one is served.
#[derive(Clone, Copy, Debug, PartialEq, Eq)]
pub struct Service {
    pub summary: Summary,
    pub end: DoorsEnd,
}

/// Serves links over an engine one after another, up to so many, as long as they come. Each is handed back as it was
/// left.
pub fn serve_doors<B: Frugal, D: Disk, G: Doors, L: Ledger>(
    alloc: Global,
    engine: &mut Engine<B>,
    disk: &mut D,
    doors: &mut G,
    most: u32,
    steps: &mut Steps<L>,
) -> Service
    requires most { most ≤ MOST_LINKS }
    requires out { G.out doors.old ≡ 0 }
    requires unspent { engine.old.journal.spent ≡ false }
    requires durable { IsDurable (D.view disk.old).images engine.old }
    ensures served { ServesDoors D.view disk.old disk.new
        (ServedLink G.Conn.left G.Conn.held G.Conn.log G.Conn.Source.faults G.Conn.Sink.faults
        (D.view disk.new)) result.end result.summary
        most (G.coming doors.old) (G.coming doors.new) (G.backed doors.old) (G.backed doors.new)
        (stand (history_of engine.old) steps.old) (stand (kept_history engine.new) steps.new) }
    ensures out { G.out doors.new ≡ 0 }
    ensures unspent { result.end ≢ DoorsEnd.DiskFault → engine.new.journal.spent ≡ false }
    ensures durable { result.end ≢ DoorsEnd.DiskFault → IsDurable (D.view disk.new).images engine.new }
    ensures net { result.end ≡ DoorsEnd.NetFault → HasRisen (G.faults doors.old) (G.faults doors.new) }
    ensures stopped { result.end ≡ DoorsEnd.DiskFault → HasRisen (D.faults disk.old) (D.faults disk.new) }
    ensures net_later { G.faults doors.old ≤ G.faults doors.new }
    ensures faults { D.faults disk.old ≤ D.faults disk.new }
{
    engine.version_holds();
    let mut summary = Summary::new();
    for _ in 0..most {
        match doors.next() {
            Ok(Some(mut link)) => {
                let end = serve_one(alloc, engine, disk, &mut link, steps);
                doors.back(link);
                summary.count(end);
                match end {
                    LinkEnd::Disk(_) => return Service {
                        summary,
                        end: DoorsEnd::DiskFault,
                    },
                    _ => {}
                }
            }
            Ok(None) => return Service {
                summary,
                end: DoorsEnd::Done,
            },
            Err(_) => return Service {
                summary,
                end: DoorsEnd::NetFault,
            },
        }
    }
    Service {
        summary,
        end: DoorsEnd::Done,
    }
}
