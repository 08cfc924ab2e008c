//! What the bytes so far are, as a head.

use crate::ask::Plan;

/// What the bytes so far are, as a head.
#[derive(Clone, Copy)]
pub(crate) enum Found {
    /// They begin with a head of so many bytes, which asks for this.
    Whole(usize, Plan),
    /// No bytes can make them begin with one: status 400.
    Refused,
    /// The head is too long, or has too many lines: status 431.
    TooLong,
    /// More bytes may make them begin with one.
    Waits,
}
