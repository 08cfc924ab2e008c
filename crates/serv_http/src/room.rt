//! A fixed number of bytes, taken once.

ghost use Rattle.std.specs.Prelude.{◌≡◌, ◌+◌, ◌≤◌, ◌++◌, length, take, drop, IfOk};

use std::alloc::Global;
use std::marker::Model;
use svc_base::OutOfMemory;

/// A fixed number of bytes. Its value in contracts is their list.
#[derive(Drop)]
pub(crate) struct Room {
    bytes: Vec<u8>,
}

impl Model for Room {
    ghost use Rattle.std.specs.Prelude.{ℕ, List};

    ghost Value = { List ℕ };

    ghost view = { λ r. r.bytes.items };
}

impl Room {
    /// A room of so many bytes.
    pub(crate) fn new(alloc: Global, size: usize) -> Result<Room, OutOfMemory>
        ensures { IfOk result (λ room. length room ≡ size) }
    {
        Ok(Room {
            bytes: vec![in alloc; 0u8; size]?,
        })
    }

    /// Its first bytes.
    pub(crate) fn front(&self, count: usize) -> &[u8]
        requires { count ≤ length self.now }
        ensures { result.now ≡ take count self.now }
    {
        &self.bytes[..count]
    }

    /// Writes bytes from a place on.
    pub(crate) fn put(&mut self, at: usize, bytes: &[u8])
        requires { at + length bytes.now ≤ length self.old }
        ensures after { self.new ≡ take at self.old ++ bytes.now ++ drop (at + length bytes.now) self.old }
        ensures length { length self.new ≡ length self.old }
    {
        self.bytes[at..at + bytes.len()].copy_from_slice(bytes);
    }
}
