//! Which items have a partner among others.

ghost use Rattle.std.specs.Prelude.{◌≡◌, [], IfOk};
ghost use Rattle.bank_recon.specs.Matching.{matched_from, left_from};

use crate::counts::counts_of;
use crate::item::BankItem;
use std::alloc::Global;
use svc_base::OutOfMemory;

/// Some items in two lists, each in their order.
#[derive(Drop)]
pub(crate) struct Parted {
    /// Those with a partner.
    pub matched: Vec<BankItem>,
    /// Those without.
    pub left: Vec<BankItem>,
}

/// Parts some items by others: the j-th of the same items has a partner where the others have j of them. It
/// takes a look-up in a map for each item and each of the others.
pub(crate) fn part_items(
    alloc: Global,
    items: &[BankItem],
    others: &[BankItem],
) -> Result<Parted, OutOfMemory>
    ensures matched { IfOk result (λ p. p.matched.items ≡ matched_from others.now [] items.now) }
    ensures left { IfOk result (λ p. p.left.items ≡ left_from others.now [] items.now) }
{
    let mut counts = counts_of(alloc, others)?;
    let mut parted = Parted {
        matched: Vec::new(alloc),
        left: Vec::new(alloc),
    };
    for item in items {
        if counts.take(item) {
            parted.matched.push(*item)?;
        } else {
            parted.left.push(*item)?;
        }
    }
    Ok(parted)
}
