//! The two versions of a journal's file.

/// How the records of a journal are written.
#[derive(Clone, Copy, Debug, PartialEq, Eq)]
pub enum Version {
    /// A record is a commit byte, the line's length and the line.
    One,
    /// A record is a commit byte, its number, the line's length and the line.
    Two,
}
