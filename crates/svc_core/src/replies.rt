//! The replies to the accepted commands.

ghost use Rattle.std.specs.Prelude.{◌≡◌, ◌+◌, ◌≤◌, ◌<◌, ◌∷◌, ◌++◌, ◌-◌, [], nat_lt, length, IsOk, OnOk, Some, slice_get};
ghost use Rattle.svc_core.specs.Posted.{most_commands, reply};

use std::alloc::Global;
use std::marker::Model;
use svc_base::{OutOfMemory, make_room};
use svc_types::{Extra, Reply};

/// The replies by number, from 1. Most say nothing beside their number, and none of these is kept.
#[derive(Drop)]
pub(crate) struct Replies {
    count: u32,
    kept: Vec<Reply>,
}

impl Model for Replies {
    ghost use Rattle.std.specs.Prelude.{◌-◌, vec_len, vec_capacity};
    ghost use Rattle.svc_core.specs.Replies.{GivenReplies, AreAmong, replies_of};

    ghost Value = { GivenReplies };

    ghost view = { λ r. record {
      list = replies_of r.count r.kept.items;
      room = vec_capacity r.kept - vec_len r.kept;
    } };

    ghost invariant = { λ r. AreAmong r.count r.kept.items };
}

impl Replies {
    /// No reply.
    pub(crate) fn new(alloc: Global) -> Replies
        ensures { result.list ≡ [] }
    {
        Replies {
            count: 0,
            kept: Vec::new(alloc),
        }
    }

    /// Makes room for one more.
    pub(crate) fn reserve(&mut self) -> Result<(), OutOfMemory>
        ensures list { self.new.list ≡ self.old.list }
        ensures room { OnOk result (1 ≤ self.new.room) }
        ensures succeeds { 1 ≤ self.old.room → IsOk result }
    {
        make_room(&mut self.kept, 1, 0)?;
        Ok(())
    }

    /// Adds the reply with the next number, for which there is room.
    pub(crate) fn push(&mut self, extra: Extra)
        requires few { length self.old.list < most_commands }
        requires room { 1 ≤ self.old.room }
        ensures { self.new.list ≡ self.old.list ++ reply (length self.old.list + 1) extra ∷ [] }
    {
        let number = self.count + 1;
        self.count = number;
        match extra {
            Extra::Plain => {}
            _ => self.kept.push_reserved(Reply { number, extra }),
        }
    }

    /// The reply with a number, from 1.
    pub(crate) fn get(&self, number: u32) -> Reply
        requires some { 1 ≤ number }
        requires few { number ≤ length self.now.list }
        ensures { Some result ≡ slice_get self.now.list (number - 1) }
    {
        let place = self.kept.partition_point(|reply| is_below(reply, number));
        if place < self.kept.len() && self.kept[place].number == number {
            return self.kept[place];
        }
        Reply {
            number,
            extra: Extra::Plain,
        }
    }
}

/// Whether a reply has a lower number.
fn is_below(reply: &Reply, number: u32) -> bool
    ensures { result ≡ nat_lt reply.now.number number }
{
    reply.number < number
}
