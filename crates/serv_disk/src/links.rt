//! Links in memory, on their way out and back.

ghost use Rattle.std.specs.Prelude.{◌≡◌, ℕ, ◌+◌, ◌<◌, ◌≤◌, ◌++◌, List, [], ◌∷◌, MatchOption, IfOk, vec_len, vec_capacity};

use std::alloc::Global;
use std::marker::Model;
use svc_base::OutOfMemory;

/// Links that are to come, the last one first, and links that were handed back, for which there is room
/// from the start.
#[derive(Drop)]
pub(crate) struct Links<L: Drop> {
    coming: Vec<L>,
    backed: Vec<L>,
    out: u64,
}

impl<L: Drop> Model for Links<L> {
    ghost use Rattle.std.specs.Prelude.{◌+◌, ◌≤◌, reverse, vec_len, vec_capacity};
    ghost use Rattle.serv_disk.specs.Objects.{LinksState};

    ghost Value = { LinksState L };

    ghost view = { λ s. record { coming = reverse s.coming.items; backed = s.backed.items; out = s.out } };

    ghost invariant = { λ s. vec_len s.backed + vec_len s.coming + s.out ≤ vec_capacity s.backed };
}

impl<L: Drop> Links<L> {
    /// These links are to come.
    pub(crate) fn new(alloc: Global, mut links: Vec<L>) -> Result<Links<L>, OutOfMemory>
        ensures coming { IfOk result (λ s. s.coming ≡ links.items) }
        ensures backed { IfOk result (λ s. s.backed ≡ []) }
        ensures out { IfOk result (λ s. s.out ≡ 0) }
    {
        let backed = Vec::with_capacity(alloc, links.len())?;
        links.reverse();
        Ok(Links {
            coming: links,
            backed,
            out: 0,
        })
    }

    /// The first link that is to come.
    pub(crate) fn give(&mut self) -> Option<L>
        requires { self.old.out ≡ 0 }
        ensures given { MatchOption result ((self.old.coming ≡ []) × (self.new.coming ≡ [])) (λ link. self.old.coming ≡ link ∷ self.new.coming) }
        ensures backed { self.new.backed ≡ self.old.backed }
        ensures out { MatchOption result (self.new.out ≡ 0) (λ _. self.new.out ≡ 1) }
    {
        let link = self.coming.pop()?;
        self.out = 1;
        Some(link)
    }

    /// Takes the link back that is out.
    pub(crate) fn take_back(&mut self, link: L)
        requires { self.old.out ≡ 1 }
        ensures coming { self.new.coming ≡ self.old.coming }
        ensures backed { self.new.backed ≡ self.old.backed ++ link ∷ [] }
        ensures out { self.new.out ≡ 0 }
    {
        push_back(&mut self.backed, link);
        self.out = 0;
    }

    /// The links that were handed back.
    pub(crate) fn backed(&self) -> &[L]
        ensures { result.now ≡ self.now.backed }
    {
        &self.backed
    }
}

/// Adds a link, where there is room.
fn push_back<L: Drop>(links: &mut Vec<L>, link: L)
    requires { vec_len links.old < vec_capacity links.old }
    ensures items { links.new.items ≡ links.old.items ++ link ∷ [] }
    ensures len { vec_len links.new ≡ vec_len links.old + 1 }
    ensures room { vec_capacity links.old ≤ vec_capacity links.new }
{
    links.push(link).unwrap();
}
