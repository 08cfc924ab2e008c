//! Doors in memory.

ghost use Rattle.std.specs.Prelude.{◌≡◌, ℕ, ◌+◌, ◌-◌, ◌<◌, ◌≤◌, ◌↔◌, ◌++◌, List, [], ◌∷◌, None, Some, IsErr, is_ok, if◌then◌else◌, IfOk, OnErr, OnOk, MatchResult, MatchOption, Contains, Option};
ghost use Rattle.serv_disk.specs.Faults.{HasCause};
ghost use Rattle.serv_disk.specs.Listening.{IsNext, IsBack};
ghost use Rattle.serv_disk.specs.Objects.{raised};

use crate::doors::Doors;
use crate::failed::{Failed, is_among};
use crate::links::Links;
use crate::mem_link::{CalmLink, MemLink};
use std::alloc::Global;
use std::marker::Model;
use svc_base::OutOfMemory;

/// Links in memory that come one after the other, and a list of the calls of `next`, counted from 1,
/// that fail. There is room for the links that are handed back from the start.
#[derive(Drop)]
pub struct MemDoors {
    links: Links<MemLink>,
    fails: Vec<u32>,
    calls: u64,
    faults: u64,
}

impl Model for MemDoors {
    ghost use Rattle.serv_disk.specs.Objects.{DoorsState};

    ghost Value = { DoorsState };

    ghost view = { λ d. record { links = d.links; fails = d.fails.items; calls = d.calls; faults = d.faults } };
}

impl MemDoors {
    /// Doors at which these links come, and whose calls with these numbers fail.
    pub fn new(alloc: Global, links: Vec<MemLink>, fails: Vec<u32>) -> Result<MemDoors, OutOfMemory>
        ensures coming { IfOk result (λ doors. doors.links.coming ≡ links.items) }
        ensures backed { IfOk result (λ doors. doors.links.backed ≡ []) }
        ensures out { IfOk result (λ doors. doors.links.out ≡ 0) }
        ensures fails { IfOk result (λ doors. doors.fails ≡ fails.items) }
        ensures counts { IfOk result (λ doors. (doors.calls ≡ 0) × (doors.faults ≡ 0)) }
    {
        let links = Links::new(alloc, links)?;
        Ok(MemDoors {
            links,
            fails,
            calls: 0,
            faults: 0,
        })
    }

    /// The links that were handed back, in order, each as it was left.
    pub fn links_back(&self) -> &[MemLink]
        ensures { result.now ≡ self.now.links.backed }
    {
        self.links.backed()
    }
}

impl Doors for MemDoors {
    ghost use Rattle.serv_disk.specs.Objects.{raised};

    type Conn = MemLink;

    ghost coming = { λ d. Some d.links.coming };

    ghost backed = { λ d. Some d.links.backed };

    ghost out = { λ d. d.links.out };

    ghost faults = { λ d. d.faults };

    fn next(&mut self) -> Result<Option<MemLink>, Failed>
        requires { self.old.links.out ≡ 0 }
        ensures given { IfOk result (λ link. IsNext (Some self.old.links.coming) (Some self.new.links.coming) link) }
        ensures kept { OnErr result (Some self.new.links.coming ≡ Some self.old.links.coming) }
        ensures backed { Some self.new.links.backed ≡ Some self.old.links.backed }
        ensures out { MatchResult result (λ link. MatchOption link (self.new.links.out ≡ 0) (λ _. self.new.links.out ≡ 1)) (λ _. self.new.links.out ≡ 0) }
        ensures cause { HasCause self.old.faults self.new.faults result }

        // A call fails exactly where its number is in the list.
        ensures number { self.new.calls ≡ raised self.old.calls }
        ensures fails { IsErr result ↔ Contains self.old.fails self.new.calls }
        ensures list { self.new.fails ≡ self.old.fails }
        ensures faults { self.new.faults ≡ (if is_ok result then self.old.faults else raised self.old.faults) }
    {
        self.calls = self.calls.saturating_add(1);
        if is_among(&self.fails, self.calls) {
            self.faults = self.faults.saturating_add(1);
            return Err(Failed);
        }
        Ok(self.links.give())
    }

    fn back(&mut self, conn: MemLink) {
        self.links.take_back(conn);
    }
}

/// Links in memory that come one after the other and never fail.
#[derive(Drop)]
pub struct CalmDoors {
    links: Links<CalmLink>,
}

impl Model for CalmDoors {
    ghost use Rattle.std.specs.Prelude.{ℕ, List};
    ghost use Rattle.serv_disk.specs.Objects.{LinksState};

    ghost Value = { LinksState (List ℕ) };

    ghost view = { λ d. d.links };
}

impl CalmDoors {
    /// Doors at which these links come.
    pub fn new(alloc: Global, links: Vec<CalmLink>) -> Result<CalmDoors, OutOfMemory>
        ensures coming { IfOk result (λ doors. doors.coming ≡ links.items) }
        ensures backed { IfOk result (λ doors. doors.backed ≡ []) }
        ensures out { IfOk result (λ doors. doors.out ≡ 0) }
    {
        let links = Links::new(alloc, links)?;
        Ok(CalmDoors { links })
    }
}

impl Doors for CalmDoors {
    type Conn = CalmLink;

    ghost coming = { λ d. Some d.coming };

    ghost backed = { λ d. Some d.backed };

    ghost out = { λ d. d.out };

    ghost faults = { λ _. 0 };

    fn next(&mut self) -> Result<Option<CalmLink>, Failed> {
        Ok(self.links.give())
    }

    fn back(&mut self, conn: CalmLink) {
        self.links.take_back(conn);
    }
}
