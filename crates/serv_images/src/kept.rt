//! What a disk in memory keeps of its calls.

ghost use Rattle.std.specs.Prelude.{◌≡◌, ℕ, ◌+◌, ◌-◌, ◌≤◌, ◌<◌, List, [], ◌∷◌, ◌++◌, IsOk, OnOk, OnErr, IfOk, length, vec_len, vec_capacity};
ghost use Rattle.serv_images.specs.DiskCalls.{DiskCall, Wrote, Shortened, Synced, IsImage, now_of, synced_of, written};
ghost use Rattle.serv_images.specs.Crashes.{crashed};

use crate::tearing::{size_of_crash, tear_all};
use crate::torn::Torn;
use std::marker::Model;
use svc_base::OutOfMemory;

/// A call that was made. The bytes of all writes stand one after the other in a pool.
#[derive(Clone, Copy)]
pub enum Step {
    Write(u64, u64),
    Cut(u64),
    Sync,
}

/// A content, what it was at first and at the last sync, and the calls that made it.
#[derive(Drop)]
pub struct Kept {
    first: Vec<u8>,
    synced: Vec<u8>,
    content: Vec<u8>,
    steps: Vec<Step>,
    pool: Vec<u8>,
}

impl Model for Kept {
    ghost use Rattle.std.specs.Prelude.{◌-◌, ◌≤◌, min, [], vec_len, vec_capacity};
    ghost use Rattle.serv_images.specs.Kept.{KeptState, IsKept, calls_of};

    ghost Value = { KeptState };

    ghost view = { λ k. record {
      first = k.first.items;
      made = calls_of k.steps.items k.pool.items [];
      room_calls = vec_capacity k.steps - vec_len k.steps;
      room = min (min (vec_capacity k.pool - vec_len k.pool) (vec_capacity k.content - vec_len k.content)) (vec_capacity k.synced - vec_len k.content);
    } };

    ghost invariant = { λ k. IsKept k.first.items k.synced.items k.content.items k.pool.items k.steps.items × (vec_len k.content ≤ vec_capacity k.synced) };
}

/// Adds a call, where there is room.
fn note(steps: &mut Vec<Step>, step: Step)
    requires { vec_len steps.old < vec_capacity steps.old }
    ensures items { steps.new.items ≡ steps.old.items ++ step ∷ [] }
    ensures len { vec_len steps.new ≡ vec_len steps.old + 1 }
    ensures room { vec_capacity steps.old ≤ vec_capacity steps.new }
{
    steps.push(step).unwrap();
}

/// Adds bytes, where there is room.
fn append(file: &mut Vec<u8>, bytes: &[u8])
    requires { vec_len file.old + length bytes.now ≤ vec_capacity file.old }
    ensures items { file.new.items ≡ file.old.items ++ bytes.now }
    ensures len { vec_len file.new ≡ vec_len file.old + length bytes.now }
    ensures room { vec_capacity file.old ≤ vec_capacity file.new }
{
    file.extend_from_slice(bytes).unwrap();
}

/// Writes over what is there, and past the end, where there is room.
fn lay(file: &mut Vec<u8>, at: usize, bytes: &[u8])
    requires within { at ≤ vec_len file.old }
    requires room { vec_len file.old + length bytes.now ≤ vec_capacity file.old }
    ensures written { file.new.items ≡ written at bytes.now file.old.items }
    ensures longer { vec_len file.new ≤ vec_len file.old + length bytes.now }
    ensures no_shorter { vec_len file.old ≤ vec_len file.new }
    ensures room { vec_capacity file.old ≤ vec_capacity file.new }
{
    let over = bytes.len().min(file.len() - at);
    file[at..at + over].copy_from_slice(&bytes[..over]);
    append(file, &bytes[over..]);
}

impl Kept {
    /// This content, and no call was made.
    pub fn new(content: Vec<u8>) -> Result<Kept, OutOfMemory>
        ensures first { IfOk result (λ k. k.first ≡ content.items) }
        ensures made { IfOk result (λ k. k.made ≡ []) }
    {
        let first = content.clone()?;
        let synced = content.clone()?;
        let alloc = *content.allocator();
        Ok(Kept {
            first,
            synced,
            content,
            steps: Vec::new(alloc),
            pool: Vec::new(alloc),
        })
    }

    /// Makes room for that many calls with that many bytes in all.
    pub fn reserve(&mut self, calls: usize, bytes: usize) -> Result<(), OutOfMemory>
        ensures first { self.new.first ≡ self.old.first }
        ensures made { self.new.made ≡ self.old.made }
        ensures no_less_calls { self.old.room_calls ≤ self.new.room_calls }
        ensures no_less { self.old.room ≤ self.new.room }
        ensures room_calls { OnOk result (calls ≤ self.new.room_calls) }
        ensures room { OnOk result (bytes ≤ self.new.room) }
        ensures succeeds { calls ≤ self.old.room_calls → bytes ≤ self.old.room → IsOk result }
    {
        self.steps.reserve(calls)?;
        self.pool.reserve(bytes)?;
        self.content.reserve(bytes)?;
        let longest = self.content.len() + bytes;
        self.synced
            .reserve(longest.saturating_sub(self.synced.len()))?;
        Ok(())
    }

    /// Writes, where there is room.
    pub fn write(&mut self, at: usize, bytes: &[u8])
        requires within { at ≤ length (now_of self.old.first self.old.made) }
        requires calls { 1 ≤ self.old.room_calls }
        requires room { length bytes.now ≤ self.old.room }
        ensures first { self.new.first ≡ self.old.first }
        ensures made { self.new.made ≡ Wrote at bytes.now ∷ self.old.made }
        ensures room_calls { self.old.room_calls ≤ self.new.room_calls + 1 }
        ensures room { self.old.room ≤ self.new.room + length bytes.now }
    {
        note(&mut self.steps, Step::Write(at as u64, bytes.len() as u64));
        append(&mut self.pool, bytes);
        lay(&mut self.content, at, bytes);
    }

    /// Cuts the content to a length, where there is room.
    pub fn cut(&mut self, len: usize)
        requires { 1 ≤ self.old.room_calls }
        ensures first { self.new.first ≡ self.old.first }
        ensures made { self.new.made ≡ Shortened len ∷ self.old.made }
        ensures room_calls { self.old.room_calls ≤ self.new.room_calls + 1 }
        ensures room { self.old.room ≤ self.new.room }
    {
        note(&mut self.steps, Step::Cut(len as u64));
        self.content.truncate(len);
    }

    /// A crash leaves the content from here on, where there is room.
    pub fn sync(&mut self)
        requires { 1 ≤ self.old.room_calls }
        ensures first { self.new.first ≡ self.old.first }
        ensures made { self.new.made ≡ Synced ∷ self.old.made }
        ensures room_calls { self.old.room_calls ≤ self.new.room_calls + 1 }
        ensures room { self.old.room ≤ self.new.room }
    {
        note(&mut self.steps, Step::Sync);
        self.synced.clear();
        append(&mut self.synced, &self.content);
    }

    /// The content after a crash.
    pub fn crash(&self, torn: Torn, longer: bool) -> Result<Vec<u8>, OutOfMemory>
        ensures content { IfOk result (λ file. file.items ≡ crashed torn longer self.now.first self.now.made) }
        ensures image { OnOk result (IsImage self.now.first self.now.made (crashed torn longer self.now.first self.now.made)) }
    {
        let size = size_of_crash(longer, self.synced.len(), self.content.len());
        let mut file = self.synced.clone()?;
        file.resize(size, 0)?;
        tear_all(torn, &self.synced, &self.steps, &self.pool, &mut file);
        Ok(file)
    }

    /// How many calls were made.
    pub fn count(&self) -> usize
        ensures { result ≡ length self.now.made }
    {
        self.steps.len()
    }

    /// The content.
    pub fn content(&self) -> &[u8]
        ensures { result.now ≡ now_of self.now.first self.now.made }
    {
        &self.content
    }
}
