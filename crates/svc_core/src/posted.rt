//! The commands that were accepted, and where each key stands.

ghost use Rattle.std.specs.Prelude.{◌≡◌, ◌+◌, ◌-◌, ◌≤◌, ◌<◌, ◌∷◌, ◌++◌, [], length, None, IsOk, OnOk, slice_get, Some};
ghost use Rattle.std.specs.Option.{option_map};
ghost use Rattle.svc_world.specs.World.{accepted};
ghost use Rattle.svc_world.specs.Judging.{nth_accepted};
ghost use Rattle.svc_core.specs.Posted.{number_of, known_as, known_among, most_commands, reply};

use crate::brief::{Brief, brief_of, command_of, keep_terms};
use crate::replies::Replies;
use indexmap::IndexMap;
use std::alloc::Global;
use std::marker::Model;
use svc_base::{OutOfMemory, make_room};
use svc_types::{Command, Extra, Key, Reply, Terms};

/// The accepted commands by number, from 1, each with its key and the reply that was given. A key is
/// found by one look-up. The terms of loans stand apart, so that a command takes 32 bytes.
#[derive(Drop)]
pub struct Posted {
    commands: IndexMap<Key, Brief>,
    terms: Vec<Terms>,
    replies: Replies,
}

impl Model for Posted {
    ghost use Rattle.std.specs.Prelude.{◌-◌, min, vec_len, vec_capacity};
    ghost use Rattle.indexmap.specs.IndexMap.{spare};
    ghost use Rattle.svc_core.specs.Posted.{PostedCommands, AreReplied, history_of, pairs_of};

    ghost Value = { PostedCommands };

    ghost view = { λ p. record {
      history = history_of (pairs_of p.terms.items p.commands.entries);
      replies = p.replies.list;
      room = min (min (spare p.commands) p.replies.room) (vec_capacity p.terms - vec_len p.terms);
    } };

    ghost invariant = { λ p. AreReplied p.terms.items p.commands.entries p.replies.list };
}

impl Posted {
    /// No command.
    pub fn new(alloc: Global) -> Posted
        ensures history { result.history ≡ [] }
        ensures replies { result.replies ≡ [] }
    {
        Posted {
            commands: IndexMap::new(alloc),
            terms: Vec::new(alloc),
            replies: Replies::new(alloc),
        }
    }

    /// How many commands were accepted.
    pub fn count(&self) -> usize
        ensures { result ≡ length self.now.history }
    {
        self.commands.len()
    }

    /// Each command has its reply. The call does nothing.
    pub fn is_replied(&self)
        ensures { length self.now.replies ≡ length self.now.history }
    {
        let _ = &self.replies;
    }

    /// The number of the command under a key.
    pub fn number_of(&self, key: &Key) -> Option<u32>
        ensures { result ≡ number_of self.now.history key.now }
    {
        match self.commands.get_index_of(key) {
            Some(place) => Some(place as u32 + 1),
            None => None,
        }
    }

    /// The command under a key, and the reply that was given.
    #[inline(always)]
    pub fn known(&self, key: &Key) -> Option<(Command, Reply)>
        ensures { option_map (λ p. known_as p.0 p.1) result
            ≡ known_among self.now.history self.now.replies key.now }
    {
        let _ = &self.replies;
        match self.number_of(key) {
            Some(number) => {
                let place = number as usize - 1;
                let command = command_of(&self.commands[place], &self.terms);
                Some((command, self.replies.get(number)))
            }
            None => None,
        }
    }

    /// Makes room for one more command; fails for want of memory alone.
    #[inline(always)]
    pub fn reserve(&mut self) -> Result<(), OutOfMemory>
        ensures history { self.new.history ≡ self.old.history }
        ensures replies { self.new.replies ≡ self.old.replies }
        ensures room { OnOk result (1 ≤ self.new.room) }
        ensures succeeds { 1 ≤ self.old.room → IsOk result }
    {
        self.commands.reserve(1)?;
        make_room(&mut self.terms, 1, 0)?;
        self.replies.reserve()?;
        Ok(())
    }

    /// Adds a command under a key that no other has, and what its reply says beside its number, for which
    /// there is room.
    #[inline(always)]
    pub fn push(&mut self, key: &Key, command: &Command, extra: Extra)
        requires key { number_of self.old.history key.now ≡ None }
        requires few { length self.old.history < most_commands }
        requires room { 1 ≤ self.old.room }
        ensures history { self.new.history ≡ self.old.history ++ accepted key.now command.now ∷ [] }
        ensures replies { self.new.replies
            ≡ self.old.replies ++ reply (length self.old.history + 1) extra ∷ [] }
    {
        let place = self.terms.len() as u32;
        keep_terms(&mut self.terms, command);
        match self.commands.insert(*key, brief_of(command, place)) {
            Ok(_) => {}
            Err(_) => unreachable!(),
        }
        self.replies.push(extra);
    }

    /// The command with a number, from 1, and its key.
    pub fn command(&self, number: u32) -> Option<(Key, Command)>
        ensures { option_map (λ p. accepted p.0 p.1) result ≡ nth_accepted self.now.history number }
    {
        if number < 1 {
            return None;
        }
        match self.commands.get_index(number as usize - 1) {
            Some((key, brief)) => Some((*key, command_of(brief, &self.terms))),
            None => None,
        }
    }

    /// The reply to the command with a number, from 1.
    pub fn reply(&self, number: u32) -> Reply
        requires some { 1 ≤ number }
        requires few { number ≤ length self.now.history }
        ensures { Some result ≡ slice_get self.now.replies (number - 1) }
    {
        self.replies.get(number)
    }
}
