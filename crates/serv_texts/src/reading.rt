//! The whole source.

ghost use Rattle.std.specs.Prelude.{◌≡◌, ℕ, ◌<◌, ◌≤◌, List, length, Err, IfErr, IfOk};
ghost use Rattle.std.specs.Io.KnownBytes.{Consumes, IsAtEnd};
ghost use Rattle.serv_disk.specs.Faults.{HasRisen};
ghost use Rattle.serv_texts.specs.Input.{IsUnread, input_limit};

use crate::status::Status;
use serv_disk::{Source, read_some};
use std::alloc::Global;

/// A run that has taken this many bytes takes no more: 67,108,864.
pub const INPUT_LIMIT: u64 = 1 << 26;

/// How many bytes are asked for at a time.
const ROOM: usize = 1 << 16;

/// The whole source. Errs where it has too many bytes, a read fails or memory is short.
pub fn read_all<S: Source>(alloc: Global, src: &mut S) -> Result<Vec<u8>, Status>
    ensures whole { IfOk result (λ v. Consumes (S.left src.old) (S.left src.new) v.items
        × IsAtEnd (S.left src.new) × (length v.items < input_limit)) }
    ensures unread { IfErr result (λ status. (taken : List ℕ)
        × Consumes (S.left src.old) (S.left src.new) taken × IsUnread status taken) }
    ensures cause { result ≡ Err Status.ReadFault → HasRisen (S.faults src.old) (S.faults src.new) }
    ensures later { S.faults src.old ≤ S.faults src.new }
{
    let mut bytes = Vec::new(alloc);
    let mut room = [0; ROOM];
    let limit = INPUT_LIMIT as usize;
    while bytes.len() < limit {
        let most = (limit - bytes.len()).min(ROOM);
        match read_some(src, &mut room, most) {
            Ok(0) => return Ok(bytes),
            Ok(n) => {
                if bytes.extend_from_slice(&room[..n]).is_err() {
                    return Err(Status::OutOfMemory);
                }
            }
            Err(_) => return Err(Status::ReadFault),
        }
    }
    Err(Status::TooMuch(bytes.len() as u64))
}
