//! The items of a span of commands.

ghost use Rattle.std.specs.Prelude.{◌≡◌, ◌≤◌, IfOk};
ghost use Rattle.bank_recon.specs.Items.{items_in};

use crate::item::BankItem;
use crate::moves::push_rows;
use std::alloc::Global;
use svc_base::OutOfMemory;
use svc_core::Core;
use svc_replay::LoanBooks;

/// What the bank is to show: the items that were carried, then those of the commands from one number to
/// another. Errs only where memory is short.
pub(crate) fn items_of_span<B: LoanBooks>(
    alloc: Global,
    core: &Core<B>,
    carried: &[BankItem],
    first: u32,
    last: u32,
) -> Result<Vec<BankItem>, OutOfMemory>
    requires first { 1 ≤ first }
    requires last { first ≤ last }
    ensures { IfOk result (λ v. v.items ≡ items_in carried.now first last core.now.history) }
{
    core.history_holds();
    let mut items = Vec::from_slice(alloc, carried)?;
    let count = (last.min(core.count()) + 1).saturating_sub(first);
    for done in 0..count {
        push_rows(&mut items, core.rows(first + done))?;
    }
    Ok(items)
}
