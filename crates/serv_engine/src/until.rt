//! How far a call takes a command.

/// How far a call takes a command in the journal.
#[derive(Clone, Copy)]
pub(crate) enum Until {
    /// It is begun: the next call that begins or commits puts it on the disk.
    Begun,
    /// The disk has it.
    Kept,
}
