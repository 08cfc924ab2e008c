//! Writes of which a crash leaves all, nothing, or what is of no account.

ghost use Rattle.std.specs.Prelude.{◌≡◌, ◌≢◌, ◌⊎◌, ℕ, ◌+◌, ◌-◌, ◌^◌, ◌≤◌, ◌<◌, List, [], ◌∷◌, ◌++◌, length, Some, None, IfSome, OnOk};
ghost use Rattle.serv_disk.specs.Faults.{HasCause};
ghost use Rattle.serv_images.specs.CutShort.{TornAt};
ghost use Rattle.serv_disk.specs.Disks.{Holds, Told, Each, After, Only, LeavesOnly};
ghost use Rattle.serv_journal.specs.Bytes.{Starts, Between};
ghost use Rattle.serv_journal.specs.Puts.{IsPut, IsPutting};
ghost use Rattle.serv_journal.specs.Outcomes.{Reaches};

use crate::calls::length_of;
use serv_disk::{Disk, Failed};

/// Writes, and syncs.
pub(crate) fn put<D: Disk>(disk: &mut D, at: u64, bytes: &[u8]) -> Result<(), Failed>
    requires { Reaches (D.view disk.old).seen at }
    ensures told { OnOk result (Told (D.view disk.old).seen (D.view disk.new).seen (Holds at bytes.now)) }
    ensures durable { OnOk result (Each (D.view disk.new).images
        (After (Holds at bytes.now) (D.view disk.old).images)) }
    ensures only { OnOk result (Only (D.view disk.new).seen (D.view disk.new).images) }
    ensures moments { LeavesOnly D.view disk.old disk.new
        (After (TornAt at (length bytes.now)) (D.view disk.old).images) }
    ensures cause { HasCause (D.faults disk.old) (D.faults disk.new) result }
{
    disk.write_at(at, bytes)?;
    disk.sync()
}

/// Puts bytes after all that is of account.
fn stage<D: Disk>(disk: &mut D, at: u64, bytes: &[u8]) -> Result<(), Failed>
    requires { Reaches (D.view disk.old).seen at }
    ensures told { OnOk result (Told (D.view disk.old).seen (D.view disk.new).seen (Holds at bytes.now)) }
    ensures durable { (front : List ℕ) → length front ≡ at → Each (D.view disk.old).images (Starts front)
        → OnOk result (Each (D.view disk.new).images (Starts (front ++ bytes.now))) }
    ensures moments { (front : List ℕ) → length front ≡ at → Each (D.view disk.old).images (Starts front)
        → LeavesOnly D.view disk.old disk.new (Starts front) }
    ensures reach { OnOk result (Reaches (D.view disk.new).seen (at + length bytes.now)) }
    ensures cause { HasCause (D.faults disk.old) (D.faults disk.new) result }
{
    put(disk, at, bytes)
}

/// Sets one byte.
pub(crate) fn set_byte<D: Disk>(disk: &mut D, at: u64, value: u8) -> Result<(), Failed>
    requires { Reaches (D.view disk.old).seen at }
    ensures told { OnOk result (Told (D.view disk.old).seen (D.view disk.new).seen (Holds at (value ∷ []))) }
    ensures durable { (front rest : List ℕ) → length front ≡ at
        → Each (D.view disk.old).images (Between front rest)
        → OnOk result (Each (D.view disk.new).images (Starts (front ++ value ∷ rest))) }
    ensures moments { (front rest : List ℕ) → length front ≡ at
        → Each (D.view disk.old).images (Between front rest)
        → LeavesOnly D.view disk.old disk.new (Between front rest) }
    ensures only { OnOk result (Only (D.view disk.new).seen (D.view disk.new).images) }
    ensures cause { HasCause (D.faults disk.old) (D.faults disk.new) result }
{
    put(disk, at, &[value])
}

/// Puts bytes after all that is of account, and opens a commit byte before them with the same sync.
fn put_and_open<D: Disk>(disk: &mut D, gate: u64, at: u64, bytes: &[u8]) -> Result<(), Failed>
    requires gate { gate < at }
    requires reaches { Reaches (D.view disk.old).seen at }
    ensures put { OnOk result
        (IsPut (Some gate) at bytes.now (D.view disk.old).images (D.view disk.new).images) }
    ensures moments { IsPutting D.view (Some gate) at disk.old disk.new }
    ensures reach { OnOk result (Reaches (D.view disk.new).seen (at + length bytes.now)) }
    ensures cause { HasCause (D.faults disk.old) (D.faults disk.new) result }
{
    lay(disk, at, bytes)?;
    set_byte(disk, gate, 1)
}

/// Puts bytes after all that is of account, and opens the commit byte that waits before them, if one does. There is
/// one sync.
pub(crate) fn put_behind<D: Disk>(
    disk: &mut D,
    gate: Option<u64>,
    at: u64,
    bytes: &[u8],
) -> Result<(), Failed>
    requires gate { IfSome gate (λ place. place < at) }
    requires reaches { Reaches (D.view disk.old).seen at }
    ensures put { OnOk result (IsPut gate at bytes.now (D.view disk.old).images (D.view disk.new).images) }
    ensures moments { IsPutting D.view gate at disk.old disk.new }
    ensures reach { OnOk result (Reaches (D.view disk.new).seen (at + length bytes.now)) }
    ensures cause { HasCause (D.faults disk.old) (D.faults disk.new) result }
{
    match gate {
        Some(place) => put_and_open(disk, place, at, bytes),
        None => stage(disk, at, bytes),
    }
}

/// Sets a commit byte to 0, unless it is.
pub(crate) fn close_byte<D: Disk>(disk: &mut D, at: u64, commit: u8) -> Result<(), Failed>
    requires { Reaches (D.view disk.old).seen at }
    ensures told { (front rest : List ℕ) → length front ≡ at → (D.view disk.old).seen ≡ Some
        (front ++ commit ∷ rest)
        → OnOk result ((D.view disk.new).seen ≡ Some (front ++ 0 ∷ rest)) }
    ensures untold { (D.view disk.old).seen ≡ None → OnOk result ((D.view disk.new).seen ≡ None) }
    ensures only { Only (D.view disk.old).seen (D.view disk.old).images
        → OnOk result (Only (D.view disk.new).seen (D.view disk.new).images) }
    ensures moments { LeavesOnly D.view disk.old disk.new
        (λ c. (D.view disk.old).images c ⊎ ((commit ≢ 0) × After (TornAt at 1) (D.view disk.old).images c)) }
    ensures cause { HasCause (D.faults disk.old) (D.faults disk.new) result }
{
    if commit == 0 {
        return Ok(());
    }
    put(disk, at, &[0])
}

/// Puts bytes after all that is of account. Until the next sync a crash may leave any part of them.
pub(crate) fn lay<D: Disk>(disk: &mut D, at: u64, bytes: &[u8]) -> Result<(), Failed>
    requires { Reaches (D.view disk.old).seen at }
    ensures told { OnOk result (Told (D.view disk.old).seen (D.view disk.new).seen (Holds at bytes.now)) }
    ensures crash { (front : List ℕ) → length front ≤ at → Each (D.view disk.old).images (Starts front)
        → Each (D.view disk.new).images (Starts front) }
    ensures moments { (front : List ℕ) → length front ≤ at → Each (D.view disk.old).images (Starts front)
        → LeavesOnly D.view disk.old disk.new (Starts front) }
    ensures reach { Reaches (D.view disk.new).seen at }
    ensures cause { HasCause (D.faults disk.old) (D.faults disk.new) result }
{
    disk.write_at(at, bytes)
}

/// How many zeros are laid at once behind a file that does not reach far enough.
const AHEAD: usize = 1 << 16;

/// Fewer than twice as many are not laid: a record has at most 520 bytes.
const FEWEST: usize = 1 << 10;

/// Puts zeros after all that is of account: half as many as often as the disk does not take them, and none in the end.
/// Gives how far the file then reaches.
#[inline(never)]
fn lay_zeros<D: Disk>(disk: &mut D, at: u64) -> u64
    requires small { at < 2 ^ 63 }
    requires reaches { Reaches (D.view disk.old).seen at }
    ensures reach { Reaches (D.view disk.new).seen at }
    ensures crash { (front : List ℕ) → length front ≤ at → Each (D.view disk.old).images (Starts front)
        → Each (D.view disk.new).images (Starts front) }
    ensures moments { (front : List ℕ) → length front ≤ at → Each (D.view disk.old).images (Starts front)
        → LeavesOnly D.view disk.old disk.new (Starts front) }
    ensures faults { D.faults disk.old ≤ D.faults disk.new }
{
    let zeros = [0; AHEAD];
    let mut count = AHEAD;
    while FEWEST <= count {
        match lay(disk, at, &zeros[..count]) {
            Ok(()) => return at + count as u64,
            Err(_) => count /= 2,
        }
    }
    at
}

/// Lets a file reach past what is of account in it, up to a place or further, by zeros behind its end, as far as the disk
/// takes them. Gives how far it reaches.
pub(crate) fn reach_to<D: Disk>(disk: &mut D, reach: u64, size: u64, to: u64) -> Result<u64, Failed>
    requires small { to < 2 ^ 63 }
    requires reaches { Reaches (D.view disk.old).seen size }
    ensures reach { OnOk result (Reaches (D.view disk.new).seen size) }
    ensures crash { (front : List ℕ) → length front ≤ size → Each (D.view disk.old).images (Starts front)
        → Each (D.view disk.new).images (Starts front) }
    ensures moments { (front : List ℕ) → length front ≤ size → Each (D.view disk.old).images (Starts front)
        → LeavesOnly D.view disk.old disk.new (Starts front) }
    ensures cause { HasCause (D.faults disk.old) (D.faults disk.new) result }
{
    if to <= reach {
        return Ok(reach);
    }
    let end = length_of(disk)?.max(size);
    if to <= end {
        return Ok(end);
    }
    Ok(lay_zeros(disk, end))
}
