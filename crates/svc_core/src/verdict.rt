//! What a command is judged to be.

use svc_types::Reply;

/// A verdict on a command that is not refused.
#[derive(Clone, Copy, Debug, PartialEq, Eq)]
pub enum Verdict {
    /// The command was accepted before, under the same key: this reply was given.
    Repeat(Reply),
    /// The command is new, and may be accepted.
    Fresh,
}
