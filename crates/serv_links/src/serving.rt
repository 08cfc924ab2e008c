//! A link, served to its end.

ghost use Rattle.std.specs.Prelude.{◌≡◌, ◌≢◌, ◌≤◌};
ghost use Rattle.serv_disk.specs.Faults.{HasRisen};
ghost use Rattle.serv_machine.specs.OnDisk.{Upholds};
ghost use Rattle.serv_machine.specs.History.{stand};
ghost use Rattle.serv_machine.specs.Answering.{Writes};
ghost use Rattle.serv_links.specs.Links.{IsDiskEnd, Serves, link_limit, number_in};

use crate::answering::serve_piece;
use crate::closing::write_last;
use crate::link_end::LinkEnd;
use serv_disk::{Disk, Link, read_some};
use serv_http::Conn;
use serv_machine::{Machine, Stop};
use std::alloc::Global;
use std::sync::ledger::Ledger;
use svc_base::Steps;

/// From a link that has given this many bytes no more are taken: 16,777,216.
pub const LINK_LIMIT: u32 = 1 << 24;

/// How many bytes are asked for at a time.
const ROOM: usize = 1 << 14;

/// Serves a link to its end: each request is acted on in its order, its response is written once the disk has its
/// command, all of them before the next read, and what is said is that of the bytes, whatever the pieces in which
/// they come. The machine is ready again unless the disk failed.
pub(crate) fn serve_link<D: Disk, M: Machine<D>, C: Link, L: Ledger>(
    alloc: Global,
    machine: &mut M,
    disk: &mut D,
    link: &mut C,
    steps: &mut Steps<L>,
) -> LinkEnd
    requires { M.ready machine.old disk.old }
    ensures served { Writes D.view disk.old disk.new
        (Serves result (HasRisen (C.Source.faults link.old) (C.Source.faults link.new))
        (HasRisen (C.Sink.faults link.old) (C.Sink.faults link.new))
        (λ covers. Upholds covers (D.view disk.new)
        (M.kept machine.new) (C.held link.old) (C.log link.old) (C.log link.new))
        (C.left link.old) (C.left link.new)
        (stand (M.kept machine.old) steps.old) (stand (M.kept machine.new) steps.new))
        (M.kept machine.old) (M.kept machine.new) (C.held link.old) (C.held link.new) }
    ensures few { number_in result ≤ link_limit }
    ensures ready { ¬ (IsDiskEnd result) → M.ready machine.new disk.new }
    ensures failed { IsDiskEnd result → M.failed machine.new }
    ensures stopped { IsDiskEnd result → HasRisen (D.faults disk.old) (D.faults disk.new) }
    ensures faults { D.faults disk.old ≤ D.faults disk.new }
    ensures read_later { C.Source.faults link.old ≤ C.Source.faults link.new }
    ensures write_later { C.Sink.faults link.old ≤ C.Sink.faults link.new }
{
    let Ok(mut conn) = Conn::new(alloc) else {
        write_last(link, disk, Stop::OutOfMemory);
        return LinkEnd::NoMemory(0);
    };
    let mut room = [0; ROOM];
    let mut taken = 0;
    let mut answered = 0;
    'pieces: loop {
        let most = ((LINK_LIMIT - taken) as usize).min(ROOM);
        let count = match read_some(link, &mut room, most) {
            Ok(0) => return LinkEnd::Ended(answered),
            Ok(count) => count,
            Err(_) => return LinkEnd::Broken(answered),
        };
        let round = serve_piece(alloc, machine, disk, link, &mut conn, &room[..count], steps);
        answered += round.answered;
        taken += count as u32;
        match round.outcome {
            Ok(()) => {}
            Err(Stop::WriteFault) => return LinkEnd::Broken(answered),
            Err(Stop::DiskFault) => return LinkEnd::Disk(answered),
            Err(Stop::OutOfMemory) => return LinkEnd::NoMemory(answered),
        }
        if taken == LINK_LIMIT {
            return LinkEnd::Cut(answered);
        }
        if conn.is_over() {
            return LinkEnd::Ended(answered);
        }
    }
}
