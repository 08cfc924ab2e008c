//! The one answer for a call of the outside that failed.

ghost use Rattle.std.specs.Prelude.{◌↔◌, IsTrue, Contains};

use thiserror::Error;

/// A call of a source, a sink, a link, doors or a disk failed; the object's count of faults has risen.
#[derive(Clone, Copy, Debug, PartialEq, Eq, Error)]
#[error("a call of the outside failed")]
pub struct Failed;

/// Whether a call's number is one of these.
pub(crate) fn is_among(numbers: &[u32], number: u64) -> bool
    ensures { IsTrue result ↔ Contains numbers.now number }
{
    numbers.iter().any(|n| u64::from(*n) == number)
}
