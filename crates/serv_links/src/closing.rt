//! What is written where no further request is acted on.

ghost use Rattle.std.specs.Prelude.{◌≡◌, ℕ, ◌+◌, ◌≤◌, List, length, Some};
ghost use Rattle.serv_disk.specs.Faults.{HasRisen};
ghost use Rattle.serv_disk.specs.Stamps.{Notes};
ghost use Rattle.serv_links.specs.Meanings.{last_text};
ghost use Rattle.serv_links.specs.Outcomes.{AppendsFront};

use serv_disk::{Disk, Sink, write_beside};
use serv_machine::Stop;

/// The response where the disk failed. It takes no memory.
const FAILED: &[u8] =
    b"HTTP/1.1 500 Internal Server Error\r\nConnection: close\r\nContent-Length: 0\r\n\r\n";

/// The response where no memory is there.
const NO_MEMORY: &[u8] =
    b"HTTP/1.1 503 Service Unavailable\r\nConnection: close\r\nContent-Length: 0\r\n\r\n";

/// Writes what is written last, as far as the link takes it: nothing where a write failed.
pub(crate) fn write_last<D: Disk, K: Sink>(link: &mut K, disk: &D, why: Stop)
    ensures front { AppendsFront (HasRisen (K.faults link.old) (K.faults link.new))
        (K.held link.old) (K.held link.new) (last_text why) }
    ensures noted { (s : List ℕ) → K.held link.old ≡ Some s → Notes (D.view disk.now).moment
        (length s + length (last_text why)) (K.log link.old) (K.log link.new) }
    ensures later { K.faults link.old ≤ K.faults link.new }
    ensures beside { K.beside link.new ≡ K.beside link.old }
{
    let _ = match why {
        Stop::WriteFault => Ok(()),
        Stop::DiskFault => write_beside(link, disk, FAILED),
        Stop::OutOfMemory => write_beside(link, disk, NO_MEMORY),
    };
}
