//! The keys of the commands.

ghost use Rattle.std.specs.Prelude.{◌≡◌, IfOk};
ghost use Rattle.serv_drill.specs.Machine.{key_of};

use serv_line::{push_bytes, push_number};
use std::alloc::Global;
use svc_base::OutOfMemory;
use svc_types::{Key, read_key};

/// The key of a command: `d` and its number, as `d7`.
pub(crate) fn numbered_key(alloc: Global, number: u32) -> Result<Key, OutOfMemory>
    ensures { IfOk result (λ key. key ≡ key_of number) }
{
    let mut text = Vec::new(alloc);
    push_bytes(&mut text, b"d")?;
    push_number(&mut text, number)?;
    match read_key(&text) {
        Some(key) => Ok(key),
        None => unreachable!(),
    }
}
