//! How many there are of each item.

ghost use Rattle.std.specs.Prelude.{◌≡◌, ◌+◌, ◌-◌, ◌<◌, ◌^◌, nat_lt, if◌then◌else◌, IfOk, OnOk};
ghost use Rattle.bank_recon.specs.declared.item.BankItem.{BankItem as Item};
ghost use Rattle.bank_recon.specs.Counting.{count_in};
ghost use Rattle.bank_recon.specs.Items.{is_same, count_of};

use crate::item::BankItem;
use crate::key::{ItemKey, key_of};
use std::alloc::Global;
use std::collections::BTreeMap;
use svc_base::OutOfMemory;

/// How many there are of each item.
#[derive(Drop)]
pub(crate) struct Counts {
    counts: BTreeMap<ItemKey, u64>,
}

impl Counts {
    /// There is none of any item.
    pub(crate) fn new(alloc: Global) -> Counts
        ensures { (x : Item) → count_in result x ≡ 0 }
    {
        Counts {
            counts: BTreeMap::new(alloc),
        }
    }

    /// There is one more of an item.
    pub(crate) fn add(&mut self, item: &BankItem) -> Result<(), OutOfMemory>
        requires { count_in self.old item.now + 1 < 2 ^ 64 }
        ensures { OnOk result ((x : Item) → count_in self.new x
            ≡ (if is_same x item.now then count_in self.old x + 1 else count_in self.old x)) }
    {
        let key = key_of(item);
        let count = self.counts.get(&key).copied().unwrap_or(0);
        self.counts.insert(key, count + 1)?;
        Ok(())
    }

    /// Whether there is one of an item; there is one less then.
    pub(crate) fn take(&mut self, item: &BankItem) -> bool
        ensures taken { result ≡ nat_lt 0 (count_in self.old item.now) }
        ensures left { (x : Item) → count_in self.new x
            ≡ (if is_same x item.now then count_in self.old x - 1 else count_in self.old x) }
    {
        match self.counts.get_mut(&key_of(item)) {
            Some(count) => {
                let some = *count > 0;
                *count = count.saturating_sub(1);
                some
            }
            None => false,
        }
    }
}

/// How many there are of each of some items.
pub(crate) fn counts_of(alloc: Global, items: &[BankItem]) -> Result<Counts, OutOfMemory>
    ensures { IfOk result (λ c. (x : Item) → count_in c x ≡ count_of x items.now) }
{
    let mut counts = Counts::new(alloc);
    for item in items {
        counts.add(item)?;
    }
    Ok(counts)
}
