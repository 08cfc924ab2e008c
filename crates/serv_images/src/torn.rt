//! What a crash leaves of a write.

/// What a crash leaves in the ranges that were written and not synced: the old bytes, the new ones, 0
/// or 255. A byte past the old end is 0 at `Old`.
#[derive(Clone, Copy, Debug, PartialEq, Eq)]
pub enum Torn {
    Old,
    New,
    Zero,
    Ones,
}
