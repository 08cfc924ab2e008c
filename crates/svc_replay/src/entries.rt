//! The entries of a loan, and the live ones among them.

ghost use Rattle.std.specs.Prelude.{◌≡◌, ℕ, ◌+◌, ◌-◌, ◌≤◌, ◌<◌, ◌∷◌, ◌++◌, [], nat_le, true, false, get_or, length, take, drop, IsOk, OnOk, OnErr};
ghost use Rattle.std.specs.Prelude.{◌==◌, not};
ghost use Rattle.std.specs.List.{All, AllPairs, Contains, filter, insert, remove};
ghost use Rattle.svc_types.specs.Live.{is_before, placed};
ghost use Rattle.svc_types.specs.declared.account.Entry.{Entry};
ghost use Rattle.svc_replay.specs.Chosen.{AreWithin, chosen, passes};
ghost use Rattle.svc_replay.specs.Kept.{differ};

use crate::records::{Numbered, Records};
use std::alloc::Global;
use std::marker::Model;
use svc_base::{Day, OutOfMemory, make_room};
use svc_types::{Entry, before};

/// By how many places at least their list grows: the smallest piece of memory has room for so many.
const PLACES: usize = 12;

/// The entries of a loan by number, and the places of the live ones among them, in the order in which these take
/// effect.
#[derive(Drop)]
pub(crate) struct Entries {
    all: Records,
    live: Vec<u16>,
}

impl Model for Entries {
    ghost use Rattle.std.specs.Prelude.{◌-◌, min, vec_len, vec_capacity};
    ghost use Rattle.svc_replay.specs.Chosen.{Ordered, AreWithin, chosen};

    ghost Value = { Ordered };

    ghost view = { λ e. record {
      all = e.all.all;
      live = chosen e.all.all e.live.items;
      room = min e.all.room (vec_capacity e.live - vec_len e.live);
    } };

    ghost invariant = { λ e. AreWithin e.all.all e.live.items };
}

impl Entries {
    /// No entry.
    pub(crate) fn new(alloc: Global) -> Entries
        ensures all { result.all ≡ [] }
        ensures live { result.live ≡ [] }
    {
        Entries {
            all: Records::new(alloc),
            live: Vec::new(alloc),
        }
    }

    /// Makes room for one more.
    pub(crate) fn reserve(&mut self) -> Result<(), OutOfMemory>
        ensures all { self.new.all ≡ self.old.all }
        ensures live { self.new.live ≡ self.old.live }
        ensures ready { OnOk result (1 ≤ self.new.room) }
        ensures room { self.old.room ≤ self.new.room }
        ensures succeeds { 1 ≤ self.old.room → IsOk result }
    {
        self.all.reserve()?;
        make_room(&mut self.live, 1, PLACES)?;
        Ok(())
    }

    /// Adds an entry: last by number, and at a place among the live ones. Memory is wanted only where no room is left.
    pub(crate) fn insert(&mut self, place: usize, entry: &Entry) -> Result<(), OutOfMemory>
        requires place { place ≤ length self.old.live }
        requires few { length self.old.all < 4096 }
        ensures all { OnOk result (self.new.all ≡ self.old.all ++ entry.now ∷ []) }
        ensures live { OnOk result (self.new.live ≡ insert self.old.live place entry.now) }
        ensures kept_all { OnErr result (self.new.all ≡ self.old.all) }
        ensures kept_live { OnErr result (self.new.live ≡ self.old.live) }
        ensures short { OnErr result (self.old.room ≡ 0) }
        ensures room { self.old.room ≤ self.new.room + 1 }
        ensures kept_room { OnErr result (self.old.room ≤ self.new.room) }
    {
        self.all.reserve()?;
        let last = self.all.lent().len() as u16;
        self.live.insert(place, last)?;
        self.all.push_reserved(entry);
        Ok(())
    }

    /// Takes the entry at a place out of the live ones.
    pub(crate) fn remove(&mut self, place: usize)
        requires { place < length self.old.live }
        ensures all { self.new.all ≡ self.old.all }
        ensures live { self.new.live ≡ remove self.old.live place }
        ensures room { self.old.room ≤ self.new.room }
    {
        self.live.remove(place);
    }

    /// All entries, by number.
    pub(crate) fn all(&self) -> Numbered<'_>
        ensures { result ≡ self.now.all }
    {
        self.all.lent()
    }

    /// The live ones in order.
    pub(crate) fn live(&self) -> Live<'_>
        ensures { result ≡ self.now.live }
    {
        Live::new(self.all.lent(), &self.live)
    }
}

/// The live entries of a loan in the order in which they take effect, read where they stand by number.
#[derive(Drop)]
pub struct Live<'a> {
    entries: Numbered<'a>,
    places: &'a [u16],
}

impl<'a> Model for Live<'a> {
    ghost use Rattle.std.specs.Prelude.{List};
    ghost use Rattle.svc_types.specs.declared.account.Entry.{Entry};
    ghost use Rattle.svc_replay.specs.Chosen.{AreWithin, chosen};

    ghost Value = { List Entry };

    ghost view = { λ l. chosen l.entries l.places.now };

    ghost invariant = { λ l. AreWithin l.entries l.places.now };
}

impl<'a> Live<'a> {
    /// The entries at some places, in the order of these.
    pub(crate) fn new(entries: Numbered<'a>, places: &'a [u16]) -> Live<'a>
        requires { AreWithin entries places.now }
        ensures { result ≡ chosen entries.entry places.now }
    {
        Live { entries, places }
    }

    /// How many there are.
    pub fn len(&self) -> usize
        ensures { result ≡ length self.now }
    {
        self.places.len()
    }

    /// The day of the one at a place, from 0.
    #[inline(always)]
    pub(crate) fn day_at(&self, place: usize) -> Day
        requires { place < length self.now }
        ensures { (e : Entry) → (get_or self.now place e).day ≡ result }
    {
        self.entries.day_at(standing(self.places, place))
    }

    /// The one at a place, from 0.
    pub fn at(&self, place: usize) -> Entry
        requires { place < length self.now }
        ensures { get_or self.now place result ≡ result }
    {
        self.entries.at(standing(self.places, place))
    }

    /// How many are up to a day. It looks at the last two first, since folding mostly begins near the end.
    pub(crate) fn up_to(&self, day: Day) -> usize
        requires { AllPairs (λ a b. a.day ≤ b.day) self.now }
        ensures taken { All (λ e. e.day ≤ day) (take result self.now) }
        ensures later { All (λ e. day < e.day) (drop result self.now) }
    {
        let len = self.len();
        if self.are_by(len, day) {
            return len;
        }
        if self.are_by(len - 1, day) {
            return len - 1;
        }
        self.searched_to(day)
    }

    /// Whether the first so many are up to a day: the last of these is.
    fn are_by(&self, count: usize, day: Day) -> bool
        requires order { AllPairs (λ a b. a.day ≤ b.day) self.now }
        requires count { count ≤ length self.now }
        ensures taken { result ≡ true → All (λ e. e.day ≤ day) (take count self.now) }
        ensures later { result ≡ false → All (λ e. day < e.day) (drop (count - 1) self.now) }
        ensures some { result ≡ false → 1 ≤ count }
    {
        count == 0 || self.at(count - 1).day <= day
    }

    /// How many are up to a day, by binary search.
    fn searched_to(&self, day: Day) -> usize
        requires { AllPairs (λ a b. a.day ≤ b.day) self.now }
        ensures taken { All (λ e. e.day ≤ day) (take result self.now) }
        ensures later { All (λ e. day < e.day) (drop result self.now) }
    {
        let entries = &self.entries;
        self.places
            .partition_point(|place| is_by(entries, *place, day))
    }

    /// The place that an entry takes among them: after all that it does not take effect before. It looks at the
    /// last one first, since most entries come in order.
    pub(crate) fn place_of(&self, entry: &Entry) -> usize
        requires { AllPairs (λ a b. is_before b a ≡ false) self.now }
        ensures bound { result ≤ length self.now }
        ensures placed { insert self.now result entry.now ≡ placed entry.now self.now }
    {
        if self.comes_last(entry) {
            return self.len();
        }
        self.searched_place(entry)
    }

    /// Whether an entry takes effect before none of them: not before the last.
    fn comes_last(&self, entry: &Entry) -> bool
        requires { AllPairs (λ a b. is_before b a ≡ false) self.now }
        ensures { result ≡ true → insert self.now (length self.now) entry.now ≡ placed entry.now self.now }
    {
        let len = self.len();
        len == 0 || !before(entry, &self.at(len - 1))
    }

    /// The place that an entry takes among them, by binary search.
    fn searched_place(&self, entry: &Entry) -> usize
        requires { AllPairs (λ a b. is_before b a ≡ false) self.now }
        ensures bound { result ≤ length self.now }
        ensures placed { insert self.now result entry.now ≡ placed entry.now self.now }
    {
        let entries = &self.entries;
        self.places
            .partition_point(|place| is_not_after(entries, *place, entry))
    }

    /// The place of an entry that is one of them: what they are without it are those with other numbers.
    pub(crate) fn place_among(&self, entry: &Entry) -> usize
        requires order { AllPairs (λ a b. is_before b a ≡ false) self.now }
        requires apart { AllPairs differ self.now }
        requires there { Contains self.now entry.now }
        ensures bound { result < length self.now }
        ensures others { remove self.now result
            ≡ filter (λ other. not (entry.now.number == other.number)) self.now }
    {
        let entries = &self.entries;
        self.places
            .partition_point(|place| takes_effect_before(entries, *place, entry))
    }
}

/// Where the entry at a place among some stands by number.
#[inline(always)]
fn standing(places: &[u16], place: usize) -> usize
    requires { place < length places.now }
    ensures { (d : ℕ) → get_or places.now place d ≡ result }
{
    usize::from(places[place])
}

/// Whether the entry at a place is up to a day.
fn is_by(entries: &Numbered, place: u16, day: Day) -> bool
    ensures { result ≡ passes (λ e. nat_le e.day day) entries.now place }
{
    let place = usize::from(place);
    place < entries.len() && entries.day_at(place) <= day
}

/// Whether another entry does not take effect before the one at a place.
fn is_not_after(entries: &Numbered, place: u16, other: &Entry) -> bool
    ensures { result ≡ passes (λ e. not (is_before other.now e)) entries.now place }
{
    let place = usize::from(place);
    place < entries.len() && !before(other, &entries.at(place))
}

/// Whether the entry at a place takes effect before another one.
fn takes_effect_before(entries: &Numbered, place: u16, other: &Entry) -> bool
    ensures { result ≡ passes (λ e. is_before e other.now) entries.now place }
{
    let place = usize::from(place);
    place < entries.len() && before(&entries.at(place), other)
}
