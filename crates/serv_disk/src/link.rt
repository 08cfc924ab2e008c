//! Connections.

ghost use Rattle.std.specs.Prelude.{◌≡◌};
ghost use Rattle.serv_disk.specs.Sides.{Reading, Writing};

use crate::sink::Sink;
use crate::source::Source;

/// A connection: a side that is read and a side that is written, each with its own count of faults. A
/// read leaves the writing side as it was, and a write the reading side.
pub trait Link: Source + Sink {
    /// What a read leaves as it was is the writing side.
    ghost writing: { (x : Self) → Self.Source.beside x ≡ record { held = Self.Sink.held x; faults = Self.Sink.faults x; log = Self.Sink.log x; mark = Self.Sink.mark x } };

    /// What a write leaves as it was is the reading side.
    ghost reading: { (x : Self) → Self.Sink.beside x ≡ record { left = Self.Source.left x; faults = Self.Source.faults x } };
}
