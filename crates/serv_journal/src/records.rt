//! Records of version 2 as bytes.

ghost use Rattle.std.specs.Prelude.{◌≡◌, ℕ, ◌+◌, ◌^◌, ◌≤◌, ◌<◌, List, [], ◌∷◌, ◌++◌, length, IfSome, OnOk};
ghost use Rattle.serv_disk.specs.Faults.{HasCause};
ghost use Rattle.serv_journal.specs.Format.{IsLine, body, two_bytes, four_bytes};
ghost use Rattle.serv_journal.specs.Puts.{IsPut, IsPutting};
ghost use Rattle.serv_journal.specs.Outcomes.{Reaches};

use crate::format::Version;
use crate::writes::{put_behind, reach_to};
use serv_disk::{Disk, Failed};

/// The most bytes that stand between a record's commit byte and the end of the next one.
pub(crate) const ROOM: usize = 519;

/// A record's number and its line's length, the high byte first.
#[tactic(auto, unfolding(crate::specs::Format::two_bytes, crate::specs::Format::four_bytes))]
fn head_of(number: u32, size: u16) -> [u8; 6]
    ensures { result ≡ four_bytes number ++ two_bytes size }
{
    [
        (number / 256 / 256 / 256) as u8,
        (number / 256 / 256 % 256) as u8,
        (number / 256 % 256) as u8,
        (number % 256) as u8,
        (size / 256) as u8,
        (size % 256) as u8,
    ]
}

/// Lays out what stands after a record's commit byte, and the next commit byte.
pub(crate) fn lay_out(number: u32, line: &[u8], next: u8, room: &mut [u8])
    requires line { IsLine line.now }
    requires room { length room.old ≡ 7 + length line.now }
    ensures { room.new ≡ body Version.Two number line.now ++ next ∷ [] }
{
    let size = line.len();
    room[..6].copy_from_slice(&head_of(number, size as u16));
    room[6..6 + size].copy_from_slice(line);
    room[6 + size] = next;
}

/// Begins a record that is laid out in this room.
fn begin_in<D: Disk>(
    disk: &mut D,
    gate: Option<u64>,
    size: u64,
    number: u32,
    line: &[u8],
    room: &mut [u8],
) -> Result<(), Failed>
    requires line { IsLine line.now }
    requires room { length room.old ≡ 7 + length line.now }
    requires gate { IfSome gate (λ place. place < size) }
    requires reaches { Reaches (D.view disk.old).seen size }
    ensures put { OnOk result (IsPut gate size (body Version.Two number line.now ++ 0 ∷ [])
        (D.view disk.old).images (D.view disk.new).images) }
    ensures moments { IsPutting D.view gate size disk.old disk.new }
    ensures reach { OnOk result (Reaches (D.view disk.new).seen (size + 7 + length line.now)) }
    ensures cause { HasCause (D.faults disk.old) (D.faults disk.new) result }
{
    lay_out(number, line, 0, room);
    put_behind(disk, gate, size, room)
}

/// Puts a record behind the closed commit byte with which a file of this length ends, and opens the commit byte of the
/// record before it, where that is begun. There is one sync.
pub(crate) fn begin_record<D: Disk>(
    disk: &mut D,
    gate: Option<u64>,
    size: u64,
    number: u32,
    line: &[u8],
) -> Result<(), Failed>
    requires line { IsLine line.now }
    requires gate { IfSome gate (λ place. place < size) }
    requires reaches { Reaches (D.view disk.old).seen size }
    ensures put { OnOk result (IsPut gate size (body Version.Two number line.now ++ 0 ∷ [])
        (D.view disk.old).images (D.view disk.new).images) }
    ensures moments { IsPutting D.view gate size disk.old disk.new }
    ensures reach { OnOk result (Reaches (D.view disk.new).seen (size + 7 + length line.now)) }
    ensures cause { HasCause (D.faults disk.old) (D.faults disk.new) result }
{
    let mut room = [0; ROOM];
    begin_in(disk, gate, size, number, line, &mut room[..line.len() + 7])
}

/// The same, with zeros behind all that is of account first where the file is not known to reach past the record. It
/// gives how far the file reaches.
pub(crate) fn begin_within<D: Disk>(
    disk: &mut D,
    reach: u64,
    gate: Option<u64>,
    size: u64,
    number: u32,
    line: &[u8],
) -> Result<u64, Failed>
    requires line { IsLine line.now }
    requires gate { IfSome gate (λ place. place < size) }
    requires small { size ≤ 2 ^ 32 }
    requires reaches { Reaches (D.view disk.old).seen size }
    ensures put { OnOk result (IsPut gate size (body Version.Two number line.now ++ 0 ∷ [])
        (D.view disk.old).images (D.view disk.new).images) }
    ensures moments { IsPutting D.view gate size disk.old disk.new }
    ensures reach { OnOk result (Reaches (D.view disk.new).seen (size + 7 + length line.now)) }
    ensures cause { HasCause (D.faults disk.old) (D.faults disk.new) result }
{
    let reach = reach_to(disk, reach, size, size + 7 + line.len() as u64)?;
    begin_record(disk, gate, size, number, line)?;
    Ok(reach)
}
