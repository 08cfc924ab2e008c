//! The items of rows.

ghost use Rattle.std.specs.Prelude.{◌≡◌, ◌++◌, OnOk};
ghost use Rattle.std.specs.List.{All, flat_map};
ghost use Rattle.bank_recon.specs.Items.{item_at, items_of};
ghost use Rattle.bank_recon.specs.Moving.{IsMovable};

use crate::item::BankItem;
use custodial_book::{Party, Row};
use svc_base::{Cents, OutOfMemory};

/// Appends the item of a movement, where it is of a custodial account.
fn push_at(
    items: &mut Vec<BankItem>,
    party: Party,
    number: u32,
    cents: Cents,
) -> Result<(), OutOfMemory>
    ensures { OnOk result (items.new.items ≡ items.old.items ++ item_at party number cents) }
{
    if let Party::Custodial(account) = party {
        items.push(BankItem {
            account,
            number,
            cents,
        })?;
    }
    Ok(())
}

/// Appends the items of a row.
fn push_row(items: &mut Vec<BankItem>, row: &Row) -> Result<(), OutOfMemory>
    requires { IsMovable row.now }
    ensures { OnOk result (items.new.items ≡ items.old.items ++ items_of row.now) }
{
    push_at(items, row.part.paid_from(), row.number, -row.cents)?;
    push_at(items, row.part.paid_to(), row.number, row.cents)
}

/// Appends the items of some rows.
pub(crate) fn push_rows(items: &mut Vec<BankItem>, rows: &[Row]) -> Result<(), OutOfMemory>
    requires { All IsMovable rows.now }
    ensures { OnOk result (items.new.items ≡ items.old.items ++ flat_map items_of rows.now) }
{
    for row in rows {
        push_row(items, row)?;
    }
    Ok(())
}
