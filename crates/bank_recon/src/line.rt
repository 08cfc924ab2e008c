//! The lines of a bank's list.

use crate::item::BankItem;

/// What a line is.
#[derive(Clone, Copy, Debug, PartialEq, Eq)]
pub(crate) enum LineKind {
    /// An item that an earlier reconciliation left open.
    Open,
    /// A movement that the bank shows.
    Bank,
}

/// A line of a bank's list.
#[derive(Clone, Copy, Debug, PartialEq, Eq)]
pub(crate) struct Line {
    pub kind: LineKind,
    pub item: BankItem,
}
