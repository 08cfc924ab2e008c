//! The changes of remittance type of a loan.

ghost use Rattle.std.specs.Prelude.{◌≡◌, ◌≤◌, ◌∷◌, ◌++◌, ◌==◌, [], length, IsOk, OnOk};
ghost use Rattle.svc_world.specs.LoanDues as rule;

use std::alloc::Global;
use std::marker::Model;
use svc_base::{Month, OutOfMemory, make_room};
use svc_types::{RemitType, Terms, TypeChange};

/// The changes of remittance type of a loan, in the order in which they were accepted
/// (Fannie Mae Servicing Guide, remittance types).
#[derive(Drop)]
pub struct Types {
    changes: Vec<TypeChange>,
}

impl Model for Types {
    ghost use Rattle.std.specs.Prelude.{◌-◌, vec_len, vec_capacity};
    ghost use Rattle.svc_loan.specs.Kept.{KeptTypes};

    ghost Value = { KeptTypes };

    ghost view = { λ t. record {
      changes = t.changes.items;
      room = vec_capacity t.changes - vec_len t.changes;
    } };
}

impl Types {
    /// No change.
    pub fn new(alloc: Global) -> Types
        ensures { result.changes ≡ [] }
    {
        Types {
            changes: Vec::new(alloc),
        }
    }

    /// Makes room for one more change; fails for want of memory alone.
    pub fn reserve(&mut self) -> Result<(), OutOfMemory>
        ensures changes { self.new.changes ≡ self.old.changes }
        ensures room { OnOk result (1 ≤ self.new.room) }
        ensures kept_room { self.old.room ≤ self.new.room }
        ensures succeeds { 1 ≤ self.old.room → IsOk result }
    {
        make_room(&mut self.changes, 1, 0)?;
        Ok(())
    }

    /// Adds a change, for which there is room.
    pub fn add(&mut self, change: TypeChange)
        requires room { 1 ≤ self.old.room }
        ensures changes { self.new.changes ≡ self.old.changes ++ change ∷ [] }
    {
        self.changes.push_reserved(change);
    }

    /// The changes, as they were accepted.
    pub fn slice(&self) -> &[TypeChange]
        ensures { result.now ≡ self.now.changes }
    {
        &self.changes
    }

    /// How many changes there are.
    pub fn len(&self) -> usize
        ensures { result ≡ length self.now.changes }
    {
        self.changes.len()
    }

    /// Whether there is none.
    pub fn is_empty(&self) -> bool
        ensures { result ≡ (length self.now.changes == 0) }
    {
        self.changes.is_empty()
    }

    /// The type of a month: that of the change that counts in it, else the one at boarding.
    pub fn kind_in(&self, terms: &Terms, month: Month) -> RemitType
        ensures { result ≡ rule.kind_in terms.now self.now.changes month }
    {
        let mut from = 0;
        let mut kind = terms.kind;
        for change in &self.changes {
            let begins = change.from.number();
            if begins <= month.number() && from <= begins {
                from = begins;
                kind = change.kind;
            }
        }
        kind
    }
}
