//! What the bytes of a piece made of a head.

use crate::ask::Ask;

/// What the bytes of a piece made of a head.
#[derive(Drop)]
pub(crate) enum HeadStep {
    /// So many bytes of it completed a request, or a fault.
    Asked(usize, Ask),
    /// So many bytes of it completed a head, whose body comes next.
    Begun(usize),
    /// The head is not whole.
    Waits,
}
