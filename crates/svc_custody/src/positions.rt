//! What custody holds for each loan, in the order of numbers.

ghost use Rattle.std.specs.Prelude.{◌≡◌, ◌≤◌, ◌<◌, [], insert, length, set, slice_index_or, IsOk, OnOk};
ghost use Rattle.svc_custody.specs.declared.position.Position as kept;

use crate::position::Position;
use std::alloc::Global;
use std::marker::Model;
use svc_base::{OutOfMemory, make_room};

/// What custody holds for each loan, kept so that a command is added by what it changes. Each stays where it
/// was put first, behind those of loans that were taken on before; by the order of numbers its place there is
/// kept, so that two bytes a loan move where loans come in another order.
#[derive(Drop)]
pub struct Positions {
    items: Vec<Position>,
    places: Vec<u16>,
}

impl Model for Positions {
    ghost use Rattle.std.specs.Prelude.{◌-◌, min, vec_len, vec_capacity};
    ghost use Rattle.svc_custody.specs.Positions.{KeptPositions, ArePlaces, listed};

    ghost Value = { KeptPositions };

    ghost view = { λ p. record {
      items = listed p.items.items p.places.items;
      room = min (vec_capacity p.items - vec_len p.items) (vec_capacity p.places - vec_len p.places);
    } };

    ghost invariant = { λ p. ArePlaces p.items.items p.places.items };
}

impl Positions {
    /// Those of no loan.
    pub fn new(alloc: Global) -> Positions
        ensures { result.items ≡ [] }
    {
        Positions {
            items: Vec::new(alloc),
            places: Vec::new(alloc),
        }
    }

    /// Makes room for one more; fails for want of memory alone.
    pub fn reserve(&mut self) -> Result<(), OutOfMemory>
        ensures items { self.new.items ≡ self.old.items }
        ensures room { OnOk result (1 ≤ self.new.room) }
        ensures succeeds { 1 ≤ self.old.room → IsOk result }
    {
        make_room(&mut self.items, 1, 0)?;
        make_room(&mut self.places, 1, 0)
    }

    /// The one at a place.
    pub fn at(&self, place: usize) -> &Position
        requires { place < length self.now.items }
        ensures { (d : kept.Position) → result.now ≡ slice_index_or self.now.items place d }
    {
        &self.items[usize::from(self.places[place])]
    }

    /// Puts another in at a place.
    pub fn set(&mut self, place: usize, position: &Position)
        requires { place < length self.old.items }
        ensures { self.new.items ≡ set self.old.items place position.now }
    {
        let behind = usize::from(self.places[place]);
        self.items[behind] = *position;
    }

    /// Puts one in before the others from a place on, for which there is room.
    pub fn insert(&mut self, place: usize, position: &Position)
        requires place { place ≤ length self.old.items }
        requires few { length self.old.items ≤ 12_000 }
        requires room { 1 ≤ self.old.room }
        ensures { self.new.items ≡ insert self.old.items place position.now }
    {
        let behind = self.items.len() as u16;
        self.items.push_reserved(*position);
        match self.places.insert(place, behind) {
            Ok(()) => {}
            Err(_) => unreachable!(),
        }
    }
}
