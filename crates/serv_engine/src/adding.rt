//! A command's line, and a command that is put into a journal.

ghost use Rattle.std.specs.Prelude.{◌≡◌, ◌⊎◌, ◌↔◌, ◌+◌, ◌≤◌, ◌<◌, ℕ, List, ◌++◌, length, None, true, false, IfOk, IfErr, OnOk, OnErr, IsErrOf, IfSome};
ghost use Rattle.svc_types.specs.Requests.{IsCommand};
ghost use Rattle.svc_world.specs.World.{Accepted, accepted};
ghost use Rattle.serv_disk.specs.Disks.{LeavesOnly};
ghost use Rattle.serv_disk.specs.Faults.{HasRisen};
ghost use Rattle.serv_journal.specs.Format.{Form, IsLine};
ghost use Rattle.serv_journal.specs.Disks.{IsAround, IsKept};
ghost use Rattle.serv_journal.specs.Outcomes.{Reaches};
ghost use Rattle.serv_engine.specs.Histories.{line_of_command, lines_of_history, IsAroundFor};
ghost use Rattle.serv_engine.specs.Entering.{risked, kept_after, begun_after};
ghost use Rattle.serv_engine.specs.Submitting.{HasRoom, IsAppendFault};

use crate::fault::{EngineFault, of_journal};
use crate::until::Until;
use serv_disk::Disk;
use serv_journal::{Journal, JournalFault, Version};
use serv_line::write_line;
use std::alloc::Global;
use svc_base::OutOfMemory;
use svc_types::{Command, Key, Request};

/// The line of a command. Errs only where memory is short.
fn line_for(alloc: Global, key: &Key, command: &Command) -> Result<Vec<u8>, OutOfMemory>
    requires { IsCommand command.now }
    ensures text { IfOk result (λ line. line.items ≡ line_of_command (accepted key.now command.now)) }
    ensures is_line { IfOk result (λ line. IsLine line.items) }
{
    let _ = key.bytes();
    let line = write_line(alloc, &Request::Do(*key, *command))?;
    Ok(line)
}

/// The line of the command that comes next, if one does and memory is there for it.
pub(crate) fn line_of_next(alloc: Global, next: Option<(&Key, &Command)>) -> Option<Vec<u8>>
    requires { IfSome next (λ c. IsCommand c.1.now) }
    ensures { IfSome result (λ line. IsLine line.items) }
{
    match next {
        Some((key, command)) => line_for(alloc, key, command).ok(),
        None => None,
    }
}

/// Puts a line into a journal of version 2, so far. It takes no memory.
fn put_line<D: Disk>(
    journal: &mut Journal,
    disk: &mut D,
    line: &[u8],
    until: Until,
) -> Result<(), JournalFault>
    requires line { IsLine line.now }
    requires version { journal.old.version ≡ Version.Two }
    requires unspent { journal.old.spent ≡ false }
    requires reaches { Reaches (D.view disk.old).seen journal.old.size }
    requires alone { until ≡ Until.Kept → journal.old.begun ≡ None }
    ensures moments { (form : Form) (lines begun : List (List ℕ))
        → IsKept form (D.view disk.old).images journal.old lines begun
        → LeavesOnly D.view disk.old disk.new (IsAround form lines (risked until begun line.now)) }
    ensures put { (form : Form) (lines begun : List (List ℕ))
        → IsKept form (D.view disk.old).images journal.old lines begun
        → OnOk result (IsKept form (D.view disk.new).images journal.new
        (kept_after until (lines ++ begun) line.now)
        (begun_after until line.now)) }
    ensures full { IsErrOf result (JournalFault.Full journal.old.size) ↔
        (journal.old.limit < journal.old.size + 7 + length line.now) }
    ensures kept { journal.old.limit < journal.old.size + 7 + length line.now
        → (journal.new ≡ journal.old) × (disk.new ≡ disk.old) }
    ensures fault { IfErr result (λ fault. (fault ≡ JournalFault.Full journal.old.size)
        ⊎ ((fault ≡ JournalFault.DiskFault) × HasRisen (D.faults disk.old) (D.faults disk.new))) }
    ensures spent { IsErrOf result JournalFault.DiskFault ↔ (journal.new.spent ≡ true) }
    ensures faults { D.faults disk.old ≤ D.faults disk.new }
    ensures size { OnErr result (journal.new.size ≡ journal.old.size) }
    ensures same_begun { OnErr result (until ≡ Until.Begun → journal.new.begun ≡ journal.old.begun) }
    ensures limit { journal.new.limit ≡ journal.old.limit }
    ensures same_version { journal.new.version ≡ journal.old.version }
{
    match until {
        Until::Begun => journal.begin(disk, line),
        Until::Kept => journal.append(disk, line),
    }
}

/// Puts a command into a journal of version 2, so far. All memory is taken before the first write.
pub(crate) fn put_command<D: Disk>(
    alloc: Global,
    journal: &mut Journal,
    disk: &mut D,
    key: &Key,
    command: &Command,
    until: Until,
) -> Result<(), EngineFault>
    requires command { IsCommand command.now }
    requires version { journal.old.version ≡ Version.Two }
    requires unspent { journal.old.spent ≡ false }
    requires reaches { Reaches (D.view disk.old).seen journal.old.size }
    requires alone { until ≡ Until.Kept → journal.old.begun ≡ None }
    // A crash at any moment leaves the history, with the command that is at risk or without, or torn with it.
    ensures moments { (form : Form) (h begun : List Accepted)
        → IsKept form (D.view disk.old).images journal.old (lines_of_history h) (lines_of_history begun)
        → LeavesOnly D.view disk.old disk.new
        (IsAroundFor form h (risked until begun (accepted key.now command.now))) }
    ensures put { (form : Form) (h begun : List Accepted)
        → IsKept form (D.view disk.old).images journal.old (lines_of_history h) (lines_of_history begun)
        → OnOk result (IsKept form (D.view disk.new).images journal.new
        (lines_of_history (kept_after until (h ++ begun) (accepted key.now command.now)))
        (lines_of_history (begun_after until (accepted key.now command.now)))) }
    ensures room { OnOk result (HasRoom journal.old (accepted key.now command.now)) }
    ensures fault { IfErr result (IsAppendFault journal.old (accepted key.now command.now)
        (D.faults disk.old) (D.faults disk.new)) }
    // Another fault than the disk's leaves both as they were.
    ensures kept { IfErr result (λ f. (f ≡ EngineFault.DiskFault)
        ⊎ ((journal.new ≡ journal.old) × (disk.new ≡ disk.old))) }
    ensures spent { IsErrOf result EngineFault.DiskFault ↔ (journal.new.spent ≡ true) }
    ensures faults { D.faults disk.old ≤ D.faults disk.new }
    ensures size { OnErr result (journal.new.size ≡ journal.old.size) }
    ensures same_begun { OnErr result (until ≡ Until.Begun → journal.new.begun ≡ journal.old.begun) }
    ensures limit { journal.new.limit ≡ journal.old.limit }
    ensures same_version { journal.new.version ≡ journal.old.version }
{
    let line = line_for(alloc, key, command)?;
    match put_line(journal, disk, &line, until) {
        Ok(()) => Ok(()),
        Err(fault) => Err(of_journal(fault)),
    }
}
