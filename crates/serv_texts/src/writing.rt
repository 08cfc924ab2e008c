//! A text that is written in one go.

ghost use Rattle.std.specs.Prelude.{◌≡◌, ◌≤◌};
ghost use Rattle.serv_disk.specs.Faults.{HasRisen};
ghost use Rattle.serv_texts.specs.Texts.{Writes};

use crate::status::Status;
use serv_disk::{Sink, write_whole};

/// Writes a text to its end.
pub fn write_text<K: Sink>(snk: &mut K, text: &[u8]) -> Status
    ensures writes { Writes result (λ whole. whole ≡ text.now) (K.held snk.old) (K.held snk.new) }
    ensures write { result ≡ Status.WriteFault → HasRisen (K.faults snk.old) (K.faults snk.new) }
    ensures write_later { K.faults snk.old ≤ K.faults snk.new }
{
    match write_whole(snk, text) {
        Ok(()) => Status::Done,
        Err(_) => Status::WriteFault,
    }
}
