//! The entries of a loan by number, in 24 bytes each.

ghost use Rattle.std.specs.Prelude.{◌≡◌, ◌+◌, ◌≤◌, ◌<◌, ◌∷◌, ◌++◌, [], nat_lt, get_or, length, IsOk, OnOk};
ghost use Rattle.std.specs.List.{AllPairs};
ghost use Rattle.svc_types.specs.declared.account.Entry.{Entry};
ghost use Rattle.svc_replay.specs.Kept.{IsPlaceOf};

use crate::brief::{Brief, act_of, brief_act, keep_settled};
use std::alloc::Global;
use std::marker::Model;
use svc_base::{Day, OutOfMemory, make_room};
use svc_types::{Entry, Settled};

/// By how many entries at least their lists grow: the payments of a year, and two more.
pub(crate) const STEP: usize = 14;

/// Entries by number. What analyses settled stands apart, so that an entry takes no more than a payment.
#[derive(Drop)]
pub(crate) struct Records {
    briefs: Vec<Brief>,
    settled: Vec<Settled>,
}

impl Model for Records {
    ghost use Rattle.std.specs.Prelude.{◌-◌, min, vec_len, vec_capacity};
    ghost use Rattle.svc_replay.specs.Briefs.{Recorded, AreSettled, expanded};

    ghost Value = { Recorded };

    ghost view = { λ r. record {
      all = expanded r.settled.items r.briefs.items;
      room = min (vec_capacity r.briefs - vec_len r.briefs) (vec_capacity r.settled - vec_len r.settled);
    } };

    ghost invariant = { λ r. AreSettled r.settled.items r.briefs.items };
}

impl Records {
    /// No entry.
    pub(crate) fn new(alloc: Global) -> Records
        ensures { result.all ≡ [] }
    {
        Records {
            briefs: Vec::new(alloc),
            settled: Vec::new(alloc),
        }
    }

    /// Makes room for one more, whatever it does.
    #[inline(always)]
    pub(crate) fn reserve(&mut self) -> Result<(), OutOfMemory>
        ensures all { self.new.all ≡ self.old.all }
        ensures ready { OnOk result (1 ≤ self.new.room) }
        ensures room { self.old.room ≤ self.new.room }
        ensures succeeds { 1 ≤ self.old.room → IsOk result }
    {
        make_room(&mut self.briefs, 1, STEP)?;
        make_room(&mut self.settled, 1, 0)?;
        Ok(())
    }

    /// Adds an entry, for which there is room.
    pub(crate) fn push_reserved(&mut self, entry: &Entry)
        requires { 1 ≤ self.old.room }
        ensures all { self.new.all ≡ self.old.all ++ entry.now ∷ [] }
        ensures room { self.old.room ≤ self.new.room + 1 }
    {
        let place = self.settled.len();
        keep_settled(&mut self.settled, &entry.act);
        self.briefs.push_reserved(Brief {
            number: entry.number,
            day: entry.day,
            act: brief_act(&entry.act, place),
        });
    }

    /// All of them.
    #[inline(always)]
    pub(crate) fn lent(&self) -> Numbered<'_>
        ensures { result ≡ self.now.all }
    {
        Numbered {
            briefs: &self.briefs,
            settled: &self.settled,
        }
    }
}

/// Entries by number, read where they are kept.
#[derive(Drop)]
pub(crate) struct Numbered<'a> {
    briefs: &'a [Brief],
    settled: &'a [Settled],
}

impl<'a> Model for Numbered<'a> {
    ghost use Rattle.std.specs.Prelude.{List};
    ghost use Rattle.svc_types.specs.declared.account.Entry.{Entry};
    ghost use Rattle.svc_replay.specs.Briefs.{AreSettled, expanded};

    ghost Value = { List Entry };

    ghost view = { λ n. expanded n.settled.now n.briefs.now };

    ghost invariant = { λ n. AreSettled n.settled.now n.briefs.now };
}

impl<'a> Numbered<'a> {
    /// How many there are.
    pub(crate) fn len(&self) -> usize
        ensures { result ≡ length self.now }
    {
        self.briefs.len()
    }

    /// The day of the entry at a place, from 0.
    #[inline(always)]
    pub(crate) fn day_at(&self, place: usize) -> Day
        requires { place < length self.now }
        ensures { (e : Entry) → (get_or self.now place e).day ≡ result }
    {
        let briefs = self.briefs;
        briefs[place].day
    }

    /// The entry at a place, from 0.
    pub(crate) fn at(&self, place: usize) -> Entry
        requires { place < length self.now }
        ensures { get_or self.now place result ≡ result }
    {
        let briefs = self.briefs;
        let brief = briefs[place];
        Entry {
            number: brief.number,
            day: brief.day,
            act: act_of(&brief.act, self.settled),
        }
    }

    /// The place of the entry with that number, where the numbers rise.
    pub(crate) fn place_with(&self, number: u32) -> Option<usize>
        requires { AllPairs (λ e f. e.number < f.number) self.now }
        ensures { IsPlaceOf number self.now result }
    {
        let place = self.briefs.partition_point(|brief| is_below(brief, number));
        if place < self.briefs.len() && self.briefs[place].number == number {
            return Some(place);
        }
        None
    }
}

/// Whether an entry has a lower number.
fn is_below(brief: &Brief, number: u32) -> bool
    ensures { result ≡ nat_lt brief.now.number number }
{
    brief.number < number
}
