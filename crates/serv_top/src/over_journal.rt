//! Lines that are answered over a journal.

ghost use Rattle.std.specs.Prelude.{◌≡◌, ◌⊎◌, ◌≤◌};
ghost use Rattle.serv_disk.specs.Faults.{HasRisen};
ghost use Rattle.serv_texts.specs.Journal.{HasFileFaults, IsUnopened};
ghost use Rattle.serv_top.specs.Journal.{IsApplied};

use crate::stream::serve;
use serv_disk::{Disk, Sink, Source};
use serv_texts::{Status, open_journal};
use std::alloc::Global;
use std::mem::forget;
use std::sync::ledger::Ledger;
use svc_base::Steps;

/// Opens the journal of the disk, and answers lines to the end of the source over it. Each reply is written
/// before the next line is acted on.
pub(crate) fn apply<S: Source, K: Sink, D: Disk, L: Ledger>(
    alloc: Global,
    src: &mut S,
    snk: &mut K,
    disk: &mut D,
    steps: &mut Steps<L>,
) -> Status
    ensures applied { (IsUnopened D.view D.faults disk.old disk.new result steps.old steps.new
        × (src.new ≡ src.old) × (snk.new ≡ snk.old))
        ⊎ IsApplied D.view disk.old disk.new result steps.old steps.new
        (S.left src.old) (S.left src.new) (K.held snk.old) (K.held snk.new) (K.log snk.old) (K.log snk.new) }
    // The faults of the file come exactly by their causes.
    ensures file { HasFileFaults (D.view disk.old).seen result }
    ensures read { result ≡ Status.ReadFault → HasRisen (S.faults src.old) (S.faults src.new) }
    ensures write { result ≡ Status.WriteFault → HasRisen (K.faults snk.old) (K.faults snk.new) }
    ensures disk { result ≡ Status.DiskFault → HasRisen (D.faults disk.old) (D.faults disk.new) }
    ensures read_later { S.faults src.old ≤ S.faults src.new }
    ensures write_later { K.faults snk.old ≤ K.faults snk.new }
    ensures disk_later { D.faults disk.old ≤ D.faults disk.new }
{
    match open_journal(alloc, disk, steps) {
        Ok(mut engine) => {
            let status = serve(alloc, 0, &mut engine, disk, src, snk, steps);
            // as `session` does
            forget(engine);
            status
        }
        Err(status) => status,
    }
}
