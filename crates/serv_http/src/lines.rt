//! How many lines of a head are there.

/// How many lines of a head are there, and how many may follow before one is too many.
#[derive(Clone, Copy)]
pub(crate) enum LineCount {
    /// Its request line has not begun.
    Blank,
    /// It has begun: so many line feeds are left before a line is too many.
    Left(usize),
    /// A line that begins here is too many.
    Full(usize),
}
