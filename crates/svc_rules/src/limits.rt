//! The limits of what is kept: beyond them a command is refused.

/// The most accepted commands.
pub(crate) const MOST_COMMANDS: u32 = 1_000_000;

/// The most loans.
pub(crate) const MOST_LOANS: usize = 12_000;

/// The most months that are closed.
pub(crate) const MOST_MONTHS: usize = 600;

/// The most adjustments of all reports together.
pub(crate) const MOST_ADJUSTMENTS: u64 = 4_000_000;

/// The most entries of a loan, reversed ones counted.
pub(crate) const MOST_ENTRIES: u32 = 4_096;

/// The most escrow lines of a loan.
pub(crate) const MOST_LINES: usize = 16;

/// The most changes of a loan's remittance type.
pub(crate) const MOST_TYPES: usize = 64;
