//! A reconciliation: which items the bank shows, and which lines are booked.

ghost use Rattle.std.specs.Prelude.{◌≡◌, IfOk};
ghost use Rattle.bank_recon.specs.Matching.{matched_of, open_of, reasons_of};

use crate::item::BankItem;
use crate::matching::part_items;
use crate::reasons::reasons;
use std::alloc::Global;
use svc_base::{Cents, OutOfMemory};

/// Why a line of the bank is not booked.
#[derive(Clone, Copy, Debug, PartialEq, Eq)]
pub enum Reason {
    /// No item has its account and number.
    NoSuch,
    /// Items have them, and each of these is matched.
    Extra,
    /// The first such item that is not matched has this amount.
    Amount(Cents),
}

/// What is found, each list in the order of its source.
#[derive(Debug, Drop)]
pub struct Recon {
    /// The items that the bank does not show, to be carried to the next reconciliation.
    pub outstanding: Vec<BankItem>,
    /// The lines of the bank that are not booked.
    pub unbooked: Vec<(BankItem, Reason)>,
    /// The items that the bank shows.
    pub matched: Vec<BankItem>,
}

/// What is found of some items and the lines of the bank.
pub(crate) fn recon_of(
    alloc: Global,
    items: &[BankItem],
    bank: &[BankItem],
) -> Result<Recon, OutOfMemory>
    ensures outstanding { IfOk result (λ r. r.outstanding.items ≡ open_of items.now bank.now) }
    ensures unbooked { IfOk result (λ r. r.unbooked.items ≡ reasons_of items.now bank.now) }
    ensures matched { IfOk result (λ r. r.matched.items ≡ matched_of items.now bank.now) }
{
    let of_items = part_items(alloc, items, bank)?;
    let of_lines = part_items(alloc, bank, items)?;
    let unbooked = reasons(alloc, items, &of_items.left, &of_lines.left)?;
    Ok(Recon {
        outstanding: of_items.left,
        unbooked,
        matched: of_items.matched,
    })
}
