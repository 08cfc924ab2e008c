//! The rows of a file, answered over a journal.

ghost use Rattle.std.specs.Prelude.{◌≡◌, [], ◌≤◌, ◌^◌, ◌⊎◌, map, length};
ghost use Rattle.serv_disk.specs.Faults.{HasRisen};
ghost use Rattle.serv_machine.specs.OnDisk.{Upholds, IsAcknowledged};
ghost use Rattle.serv_texts.specs.Journal.{HasFileFaults, IsUnopened};
ghost use Rattle.serv_machine.specs.History.{stand, Stays};
ghost use Rattle.serv_machine.specs.Answering.{AreReplies, Leaves, Writes};
ghost use Rattle.serv_top.specs.Imported.{AreRows, FileSays, Imports, IsFileOutput, IsImported, IsRowsOutput, said_of};

use crate::said::said_of;
use serv_disk::{Disk, Sink, Source};
use serv_import::{ImportFault, RowRequest, batch};
use serv_machine::{Machine, Replies};
use serv_texts::{Status, open_journal, read_all};
use std::alloc::Global;
use std::sync::ledger::Ledger;
use svc_base::Steps;

/// Opens the journal of the disk, reads the whole source, and answers its rows. Each reply is written once
/// the disk has its command, before the next row is acted on.
pub(crate) fn import<S: Source, K: Sink, D: Disk, L: Ledger>(
    alloc: Global,
    src: &mut S,
    snk: &mut K,
    disk: &mut D,
    steps: &mut Steps<L>,
) -> Status
    ensures imported { (IsUnopened D.view D.faults disk.old disk.new result steps.old steps.new
        × (src.new ≡ src.old) × (snk.new ≡ snk.old))
        ⊎ IsImported D.view disk.old disk.new result steps.old steps.new
        (S.left src.old) (S.left src.new) (K.held snk.old) (K.held snk.new) (K.log snk.old) (K.log snk.new) }
    ensures file { HasFileFaults (D.view disk.old).seen result }
    ensures read { result ≡ Status.ReadFault → HasRisen (S.faults src.old) (S.faults src.new) }
    ensures write { result ≡ Status.WriteFault → HasRisen (K.faults snk.old) (K.faults snk.new) }
    ensures disk { result ≡ Status.DiskFault → HasRisen (D.faults disk.old) (D.faults disk.new) }
    ensures read_later { S.faults src.old ≤ S.faults src.new }
    ensures write_later { K.faults snk.old ≤ K.faults snk.new }
    ensures disk_later { D.faults disk.old ≤ D.faults disk.new }
{
    match open_journal(alloc, disk, steps) {
        Ok(mut engine) => import_by(alloc, &mut engine, disk, src, snk, steps),
        Err(status) => status,
    }
}

/// Reads the whole source, and answers its rows by the machine.
fn import_by<D: Disk, M: Machine<D>, S: Source, K: Sink, L: Ledger>(
    alloc: Global,
    machine: &mut M,
    disk: &mut D,
    src: &mut S,
    snk: &mut K,
    steps: &mut Steps<L>,
) -> Status
    requires { M.ready machine.old disk.old }
    ensures ends { Leaves D.view disk.old disk.new (λ pending. Imports result
        (stand (M.history machine.old) steps.old) (stand (M.kept machine.new) steps.new) pending
        (S.left src.old) (S.left src.new) (K.held snk.old) (K.held snk.new))
        (M.history machine.old) (M.kept machine.new) }
    ensures acknowledged { IsAcknowledged (λ taken. AreReplies (FileSays taken) (M.history machine.old))
        (D.view disk.new) (M.kept machine.new)
        (S.left src.old) (S.left src.new) (K.held snk.old) (K.log snk.old) (K.log snk.new) }
    ensures read { result ≡ Status.ReadFault → HasRisen (S.faults src.old) (S.faults src.new) }
    ensures write { result ≡ Status.WriteFault → HasRisen (K.faults snk.old) (K.faults snk.new) }
    ensures disk { result ≡ Status.DiskFault → HasRisen (D.faults disk.old) (D.faults disk.new) }
    ensures read_later { S.faults src.old ≤ S.faults src.new }
    ensures write_later { K.faults snk.old ≤ K.faults snk.new }
    ensures disk_later { D.faults disk.old ≤ D.faults disk.new }
{
    match read_all(alloc, src) {
        Ok(bytes) => answer_file(alloc, &bytes, machine, disk, snk, steps),
        Err(status) => status,
    }
}

/// Answers the rows of a file. Without the header its first row is bad, and no other is looked at.
fn answer_file<D: Disk, M: Machine<D>, K: Sink, L: Ledger>(
    alloc: Global,
    bytes: &[u8],
    machine: &mut M,
    disk: &mut D,
    snk: &mut K,
    steps: &mut Steps<L>,
) -> Status
    requires size { length bytes.now ≤ 2 ^ 26 }
    requires ready { M.ready machine.old disk.old }
    // Its rows are answered, or there is no memory for what they say.
    ensures ends { Writes D.view disk.old disk.new (λ pending written.
        ((result ≡ Status.OutOfMemory) × (pending ≡ []) × (written ≡ [])
        × Stays (stand (M.history machine.old) steps.old) (stand (M.kept machine.new) steps.new))
        ⊎ IsFileOutput result bytes.now (stand (M.history machine.old) steps.old)
        (stand (M.kept machine.new) steps.new) pending written)
        (M.history machine.old) (M.kept machine.new) (K.held snk.old) (K.held snk.new) }
    ensures upheld { Upholds (AreReplies (FileSays bytes.now) (M.history machine.old)) (D.view disk.new)
        (M.kept machine.new) (K.held snk.old) (K.log snk.old) (K.log snk.new) }
    ensures write { result ≡ Status.WriteFault → HasRisen (K.faults snk.old) (K.faults snk.new) }
    ensures disk { result ≡ Status.DiskFault → HasRisen (D.faults disk.old) (D.faults disk.new) }
    ensures write_later { K.faults snk.old ≤ K.faults snk.new }
    ensures disk_later { D.faults disk.old ≤ D.faults disk.new }
{
    match batch(alloc, bytes) {
        Ok(rows) => answer_rows(alloc, &rows, machine, disk, snk, steps),
        Err(ImportFault::Header) => {
            answer_rows(alloc, &[RowRequest::Bad(1, 1)], machine, disk, snk, steps)
        }
        Err(ImportFault::OutOfMemory) => Status::OutOfMemory,
    }
}

/// Answers rows, one after another.
fn answer_rows<D: Disk, M: Machine<D>, K: Sink, L: Ledger>(
    alloc: Global,
    rows: &[RowRequest],
    machine: &mut M,
    disk: &mut D,
    snk: &mut K,
    steps: &mut Steps<L>,
) -> Status
    requires rows { AreRows rows.now }
    requires ready { M.ready machine.old disk.old }
    ensures ends { Writes D.view disk.old disk.new (IsRowsOutput result (map said_of rows.now)
        (stand (M.history machine.old) steps.old) (stand (M.kept machine.new) steps.new))
        (M.history machine.old) (M.kept machine.new) (K.held snk.old) (K.held snk.new) }
    ensures upheld { Upholds (AreReplies (λ saids. saids ≡ map said_of rows.now) (M.history machine.old))
        (D.view disk.new) (M.kept machine.new) (K.held snk.old) (K.log snk.old) (K.log snk.new) }
    ensures write { result ≡ Status.WriteFault → HasRisen (K.faults snk.old) (K.faults snk.new) }
    ensures disk { result ≡ Status.DiskFault → HasRisen (D.faults disk.old) (D.faults disk.new) }
    ensures write_later { K.faults snk.old ≤ K.faults snk.new }
    ensures disk_later { D.faults disk.old ≤ D.faults disk.new }
{
    let mut replies = Replies::new(alloc, 0);
    for row in rows {
        match replies.act(&said_of(row), machine, disk, snk, steps) {
            Ok(()) => {}
            Err(stop) => return Status::from(stop),
        }
    }
    match replies.let_go(None, 0, machine, disk, snk) {
        Ok(()) => Status::Done,
        Err(stop) => Status::from(stop),
    }
}
