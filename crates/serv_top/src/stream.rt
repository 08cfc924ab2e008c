//! A stream of lines, answered to its end.

ghost use Rattle.std.specs.Prelude.{◌≡◌, ◌≤◌};
ghost use Rattle.serv_disk.specs.Faults.{HasRisen};
ghost use Rattle.serv_machine.specs.OnDisk.{IsAcknowledged};
ghost use Rattle.serv_machine.specs.History.{stand};
ghost use Rattle.serv_machine.specs.Answering.{Leaves, AreReplies};
ghost use Rattle.serv_machine.specs.Sayings.{SaidFirst};
ghost use Rattle.serv_top.specs.Lines.{Says, lines_of};
ghost use Rattle.serv_top.specs.Outcome.{Ended};

use crate::serving::Serving;
use serv_disk::{Disk, Sink, Source, read_some};
use serv_machine::Machine;
use serv_texts::{INPUT_LIMIT, Status};
use std::alloc::Global;
use std::sync::ledger::Ledger;
use svc_base::Steps;

/// How many bytes are asked for at a time.
const ROOM: usize = 1 << 16;

/// Answers lines to the end of the source, by the machine. After a line at most `waiting` bytes of replies
/// are not written yet, and that of a command that is begun; and none before the source is read again.
pub(crate) fn serve<D: Disk, M: Machine<D>, S: Source, K: Sink, L: Ledger>(
    alloc: Global,
    waiting: usize,
    machine: &mut M,
    disk: &mut D,
    src: &mut S,
    snk: &mut K,
    steps: &mut Steps<L>,
) -> Status
    requires { M.ready machine.old disk.old }
    ensures ends { Leaves D.view disk.old disk.new (λ pending. Ended waiting result
        (stand (M.history machine.old) steps.old) (stand (M.kept machine.new) steps.new) pending
        (S.left src.old) (S.left src.new) (K.held snk.old) (K.held snk.new))
        (M.history machine.old) (M.kept machine.new) }
    ensures acknowledged { IsAcknowledged (λ taken. AreReplies (SaidFirst Says (lines_of taken)) (M.history machine.old))
        (D.view disk.new) (M.kept machine.new)
        (S.left src.old) (S.left src.new) (K.held snk.old) (K.log snk.old) (K.log snk.new) }
    ensures read { result ≡ Status.ReadFault → HasRisen (S.faults src.old) (S.faults src.new) }
    ensures write { result ≡ Status.WriteFault → HasRisen (K.faults snk.old) (K.faults snk.new) }
    ensures disk { result ≡ Status.DiskFault → HasRisen (D.faults disk.old) (D.faults disk.new) }
    ensures read_later { S.faults src.old ≤ S.faults src.new }
    ensures write_later { K.faults snk.old ≤ K.faults snk.new }
    ensures disk_later { D.faults disk.old ≤ D.faults disk.new }
{
    let mut serving = Serving::new(alloc, waiting);
    let mut room = [0; ROOM];
    let mut taken = 0;
    while taken < INPUT_LIMIT {
        let most = (INPUT_LIMIT - taken).min(ROOM as u64) as usize;
        match read_some(src, &mut room, most) {
            Ok(0) => match serving.finish(machine, disk, snk, steps) {
                Ok(()) => return Status::Done,
                Err(stop) => return Status::from(stop),
            },
            Ok(n) => match serving.feed_all(&room[..n], machine, disk, snk, steps) {
                Ok(()) => taken += n as u64,
                Err(stop) => return Status::from(stop),
            },
            Err(_) => return Status::ReadFault,
        }
    }
    Status::TooMuch(taken)
}
