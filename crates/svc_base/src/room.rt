//! Room in lists that grow.

ghost use Rattle.std.specs.Prelude.{◌≡◌, ◌+◌, ◌≤◌, ◌/◌, max, vec_len, vec_capacity, OnOk, OnErr, IsOk};

use crate::out_of_memory::OutOfMemory;

/// Makes room for so many more items, in steps of an eighth of those that are there and of no fewer than `least`: so a
/// list that grows one by one leaves little memory spare.
pub fn make_room<T>(items: &mut Vec<T>, more: usize, least: usize) -> Result<(), OutOfMemory>
    ensures items { items.new.items ≡ items.old.items }
    ensures len { vec_len items.new ≡ vec_len items.old }
    ensures ok { OnOk result (vec_len items.old + more ≤ vec_capacity items.new) }
    ensures never_less { vec_capacity items.old ≤ vec_capacity items.new }
    ensures succeeds { vec_len items.old + more ≤ vec_capacity items.old → IsOk result }
    ensures err { OnErr result (vec_capacity items.new ≡ vec_capacity items.old) }
    ensures growth { vec_capacity items.new
        ≤ max (vec_capacity items.old) (vec_len items.old + max more (max least (vec_len items.old / 8))) }
{
    let len = items.len();
    if items.capacity() - len < more {
        items.reserve_exact(more.max(least).max(len / 8))?;
    }
    Ok(())
}
