//! Where a connection stands in a request.

use crate::ask::Due;

/// Where a connection stands in a request.
#[derive(Clone, Copy)]
pub enum Stage {
    /// In a head, or before one.
    Heading,
    /// In a body that is passed over: how many bytes are left, and what is due after them.
    Passing(usize, Due),
    /// In the body of a command: how many bytes are there, how many it has, and whether the
    /// connection ends after it.
    Keeping(usize, usize, bool),
    /// The connection has ended.
    Over,
}
