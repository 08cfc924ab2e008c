//! The keys of commands.

ghost use Rattle.std.specs.Prelude.{◌≡◌, ◌↔◌, IsTrue, SomeIff};
ghost use Rattle.std.specs.Cmp.Rules.{comparing, hashing};
ghost use Rattle.std.specs.Cmp.Lexicographic.{pointwise};
ghost use Rattle.std.specs.Prelude.{nat_eq, ◌∷◌, []};
ghost use Rattle.std.proofs.Common.{rules};
ghost use Rattle.std.specs.List.{list_all};
ghost use Rattle.svc_types.specs.Keys as keys;

use std::hash::{Hash, Hasher};
use std::marker::Model;

/// The key of a command, 1 to 32 bytes of `A-Z a-z 0-9 . _ : -`: its value in contracts is its
/// bytes.
#[derive(Clone, Copy, Debug)]
pub struct Key {
    bytes: [u8; 32],
    len: u8,
}

impl Model for Key {
    ghost use Rattle.std.specs.Prelude.{ℕ, ◌-◌, ◌++◌, List, take, replicate, length};
    ghost use Rattle.svc_types.specs.Keys.{IsKeyOf};

    ghost Value = { List ℕ };

    ghost view = { λ k. take k.len k.bytes };

    ghost invariant = { λ k. IsKeyOf k.bytes k.len };

    ghost inverse = { λ t. record { bytes = t ++ replicate (32 - length t) 0; len = length t } };

    ghost use Rattle.svc_types.specs.KeyLemmas.{fields_back};

    ghost inverse_ok = { fields_back };
}

impl PartialEq for Key {
    ghost eq = { pointwise nat_eq };

    ghost laws = { Prim.search (comparing, rules) };

    fn eq(&self, other: &Key) -> bool {
        self.bytes() == other.bytes()
    }
}

impl Eq for Key {
    ghost laws = { Prim.search (comparing, rules) };
}

impl Hash for Key {
    ghost hash_input = { λ k. k ∷ [] };

    ghost respects_eq = { Prim.search (hashing, rules) };

    fn hash<H: Hasher>(&self, state: &mut H) {
        state.write(self.bytes());
    }
}

impl Key {
    /// Its bytes.
    pub fn bytes(&self) -> &[u8]
        ensures value { result.now ≡ self.now }
        ensures key { keys.IsKey result.now }
    {
        &self.bytes[..usize::from(self.len)]
    }
}

/// Whether a byte may stand in a key.
fn is_key_byte(b: u8) -> bool
    ensures { result ≡ keys.is_key_byte b }
{
    matches!(b, b'A'..=b'Z' | b'a'..=b'z' | b'0'..=b'9' | b'.' | b'_' | b':' | b'-')
}

/// Whether each byte of a text may stand in a key.
fn has_key_bytes(text: &[u8]) -> bool
    ensures { result ≡ list_all keys.is_key_byte text.now }
{
    text.iter().all(|b| is_key_byte(*b))
}

/// Whether a text is a key.
fn is_key(text: &[u8]) -> bool
    ensures { IsTrue result ↔ keys.IsKey text.now }
{
    !text.is_empty() && text.len() <= 32 && has_key_bytes(text)
}

/// The key that a text is, where it is one.
pub fn read_key(text: &[u8]) -> Option<Key>
    ensures { SomeIff result (keys.IsKey text.now) text.now }
{
    if !is_key(text) {
        return None;
    }
    let mut bytes = [0; 32];
    bytes[..text.len()].copy_from_slice(text);
    Some(Key {
        bytes,
        len: text.len() as u8,
    })
}
