//! A disk in memory.

ghost use Rattle.std.specs.Prelude.{◌≡◌, ℕ, ◌+◌, ◌-◌, ◌^◌, ◌≤◌, ◌<◌, ◌⊎◌, ◌↔◌, List, Option, None, Some, [], ◌∷◌, IsTrue, IsOk, IsErr, is_ok, OnOk, OnErr, IfOk, MatchOption, length, take, drop, max, min, if◌then◌else◌, Contains};
ghost use Rattle.serv_images.specs.DiskCalls.{DiskCall, Wrote, Shortened, Synced};
ghost use Rattle.serv_images.specs.CutShort.{TornAt, Cut};
ghost use Rattle.serv_images.specs.Crashes.{crashed};
ghost use Rattle.serv_disk.specs.Disks.{Elapses, Holds, Told, Each, After, Only};
ghost use Rattle.serv_disk.specs.Faults.{HasCause, HasRisen};
ghost use Rattle.serv_disk.specs.Objects.{raised};
ghost use Rattle.serv_disk.specs.MemDisks.{DiskState, IsLetFail, content_of, images_of, told, view_of};

use crate::disk::Disk;
use crate::failed::{Failed, is_among};
use serv_images::{Kept, Torn};
use std::marker::Model;
use svc_base::OutOfMemory;

/// A disk in memory that keeps what a crash may leave, and a list of the calls, counted from 1, that
/// fail. A call that the list or a stop lets fail has done its work all the same. A call fails too where
/// memory refuses the growth; that one has done nothing.
#[derive(Drop)]
pub struct MemDisk {
    kept: Kept,
    fails: Vec<u32>,
    stop: Option<u64>,
    calls: u64,
    faults: u64,
    longest: u64,
}

impl Model for MemDisk {
    ghost use Rattle.serv_disk.specs.MemDisks.{DiskState};

    ghost Value = { DiskState };

    ghost view = { λ d. record {
      first = d.kept.first;
      made = d.kept.made;
      room_calls = d.kept.room_calls;
      room = d.kept.room;
      fails = d.fails.items;
      stop = d.stop;
      calls = d.calls;
      faults = d.faults;
      longest = d.longest;
    } };
}

impl MemDisk {
    /// A disk with this content as its one image, whose calls with these numbers fail.
    pub fn new(content: Vec<u8>, fails: Vec<u32>) -> Result<MemDisk, OutOfMemory>
        ensures content { IfOk result (λ disk. disk.first ≡ content.items) }
        ensures made { IfOk result (λ disk. disk.made ≡ []) }
        ensures fails { IfOk result (λ disk. disk.fails ≡ fails.items) }
        ensures stop { IfOk result (λ disk. disk.stop ≡ None) }
        ensures counts { IfOk result (λ disk. (disk.calls ≡ 0) × (disk.faults ≡ 0) × (disk.longest ≡ 0)) }
    {
        let kept = Kept::new(content)?;
        Ok(MemDisk {
            kept,
            fails,
            stop: None,
            calls: 0,
            faults: 0,
            longest: 0,
        })
    }

    /// Makes room for that many calls with that many bytes in all.
    pub fn reserve(&mut self, calls: u32, bytes: u32) -> Result<(), OutOfMemory>
        ensures room { OnOk result ((calls ≤ self.new.room_calls) × (bytes ≤ self.new.room)) }
        ensures no_less { (self.old.room_calls ≤ self.new.room_calls) × (self.old.room ≤ self.new.room) }
        ensures kept { self.new ≡ record self.old { room_calls = self.new.room_calls; room = self.new.room } }
    {
        self.kept.reserve(calls as usize, bytes as usize)
    }

    /// Lets every call after that many more fail.
    pub fn stop_after(&mut self, calls: u32)
        ensures { self.new ≡ record self.old { stop = Some (min (self.old.calls + calls) (2 ^ 64 - 1)) } }
    {
        self.stop = Some(self.calls.saturating_add(u64::from(calls)));
    }

    /// The disk after a crash, with no call that is to fail. `longer` chooses the greater of the
    /// lengths at the last sync and now, else the lesser. Where memory is short the old disk is given up.
    pub fn crash(self, torn: Torn, longer: bool) -> Result<MemDisk, OutOfMemory>
        ensures content { IfOk result (λ disk. disk.first ≡ crashed torn longer self.first self.made) }
        ensures image { IfOk result (λ disk. images_of self disk.first) }
        ensures made { IfOk result (λ disk. disk.made ≡ []) }
        ensures fails { IfOk result (λ disk. (disk.fails ≡ []) × (disk.stop ≡ None)) }
        ensures counts { IfOk result (λ disk. (disk.calls ≡ 0) × (disk.faults ≡ 0) × (disk.longest ≡ 0)) }
    {
        let content = self.kept.crash(torn, longer)?;
        let mut fails = self.fails;
        fails.clear();
        MemDisk::new(content, fails)
    }

    /// The content.
    pub fn content(&self) -> &[u8]
        ensures { result.now ≡ content_of self.now }
    {
        self.kept.content()
    }

    /// The length of the longest read, in bytes.
    pub fn longest_read(&self) -> u64
        ensures { result ≡ self.now.longest }
    {
        self.longest
    }
}

/// Whether a call comes after the stop.
fn is_past(stop: Option<u64>, call: u64) -> bool
    ensures { IsTrue result ↔ MatchOption stop ⊥ (λ last. last < call) }
{
    match stop {
        Some(last) => last < call,
        None => false,
    }
}

impl MemDisk {
    /// Counts a call, and says whether it is to fail.
    fn count(&mut self) -> bool
        ensures calls { self.new ≡ record self.old { calls = raised self.old.calls } }
        ensures fails { IsTrue result ↔ IsLetFail self.new }
    {
        self.calls = self.calls.saturating_add(1);
        is_among(&self.fails, self.calls) || is_past(self.stop, self.calls)
    }

    /// Raises the count of faults.
    fn fail(&mut self) -> Failed
        ensures faults { self.new ≡ record self.old { faults = raised self.old.faults } }
        ensures risen { HasRisen self.old.faults self.new.faults }
        ensures later { self.old.faults ≤ self.new.faults }
    {
        self.faults = self.faults.saturating_add(1);
        Failed
    }

    /// Ends a call that is to fail or not.
    fn end(&mut self, fails: bool) -> Result<(), Failed>
        ensures fails { IsErr result ↔ IsTrue fails }
        ensures cause { HasCause self.old.faults self.new.faults result }
        ensures faults { self.new ≡ record self.old { faults = (if is_ok result then self.old.faults else raised self.old.faults) } }
    {
        if fails {
            return Err(self.fail());
        }
        Ok(())
    }
}

impl Disk for MemDisk {
    ghost use Rattle.std.specs.Prelude.{ℕ, length, Some, List, refl};
    ghost use Rattle.serv_images.specs.DiskCalls.{IsImage, IsSince, now_of};
    ghost use Rattle.serv_disk.specs.MemDisks.{IsLetFail, content_of, images_of, told, view_of};
    ghost use Rattle.serv_disk.specs.Objects.{raised};
    ghost use Rattle.serv_disk.specs.DiskLaws.{since_now, now_only, now_image, some_image};

    ghost view = { λ d. view_of d };

    ghost faults = { λ d. d.faults };

    fn clock(&self) -> u64
        ensures { result ≡ length self.now.made }
    {
        self.kept.count() as u64
    }

    fn len(&mut self) -> Result<u64, Failed>
        ensures number { IfOk result (λ n. (s : List ℕ) → told self.old ≡ Some s → n ≡ length s) }
        ensures kept { told self.new ≡ told self.old }
        ensures crash { Each (images_of self.new) (images_of self.old) }
        ensures time { Elapses (view_of self.old) (view_of self.new) }
        ensures cause { HasCause self.old.faults self.new.faults result }

        // It fails exactly where its number is in the list or past the stop.
        ensures fails { IsErr result ↔ IsLetFail self.new }
        ensures calls { self.new.calls ≡ raised self.old.calls }
        ensures others { self.new ≡ record self.old { calls = self.new.calls; faults = self.new.faults } }
        ensures faults { self.new.faults ≡ (if is_ok result then self.old.faults else raised self.old.faults) }
        ensures exact { IfOk result (λ n. n ≡ length (content_of self.old)) }
    {
        let fails = self.count();
        self.end(fails)?;
        Ok(self.content().len() as u64)
    }

    fn read(&mut self, at: u64, buf: &mut [u8]) -> Result<(), Failed>
        requires { at + length buf.old ≤ length (content_of self.old) }
        ensures bytes { OnOk result ((s : List ℕ) → told self.old ≡ Some s → buf.new ≡ take (length buf.old) (drop at s)) }
        ensures kept { told self.new ≡ told self.old }
        ensures crash { Each (images_of self.new) (images_of self.old) }
        ensures time { Elapses (view_of self.old) (view_of self.new) }
        ensures cause { HasCause self.old.faults self.new.faults result }

        // It fails exactly where its number is in the list or past the stop.
        ensures fails { IsErr result ↔ IsLetFail self.new }
        ensures calls { self.new.calls ≡ raised self.old.calls }
        ensures longest { self.new.longest ≡ max self.old.longest (length buf.old) }
        ensures others { self.new ≡ record self.old {
          calls = self.new.calls;
          faults = self.new.faults;
          longest = self.new.longest;
        } }
        ensures faults { self.new.faults ≡ (if is_ok result then self.old.faults else raised self.old.faults) }
        ensures exact { OnOk result (buf.new ≡ take (length buf.old) (drop at (content_of self.old))) }
        ensures untouched { OnErr result (buf.new ≡ buf.old) }
    {
        self.longest = self.longest.max(buf.len() as u64);
        let fails = self.count();
        self.end(fails)?;
        let at = at as usize;
        buf.copy_from_slice(&self.content()[at..at + buf.len()]);
        Ok(())
    }

    fn write_at(&mut self, at: u64, bytes: &[u8]) -> Result<(), Failed>
        requires { at ≤ length (content_of self.old) }
        ensures written { OnOk result (Told (told self.old) (told self.new) (Holds at bytes.now)) }
        ensures failed { OnErr result (Told (told self.old) (told self.new) (TornAt at (length bytes.now))) }
        ensures crash { Each (images_of self.new) (After (TornAt at (length bytes.now)) (images_of self.old)) }
        ensures time { Elapses (view_of self.old) (view_of self.new) }
        ensures cause { HasCause self.old.faults self.new.faults result }

        // With room it fails exactly where its number is in the list or past the stop, and is made.
        ensures listed { IsLetFail self.new → IsErr result }
        ensures with_room { 1 ≤ self.old.room_calls → length bytes.now ≤ self.old.room
            → (IsErr result → IsLetFail self.new) × (self.new.made ≡ Wrote at bytes.now ∷ self.old.made) }
        ensures made { OnOk result (self.new.made ≡ Wrote at bytes.now ∷ self.old.made) }
        ensures refused { OnErr result ((self.new.made ≡ Wrote at bytes.now ∷ self.old.made) ⊎ (self.new.made ≡ self.old.made)) }
        ensures room_left { (self.old.room_calls ≤ self.new.room_calls + 1) × (self.old.room ≤ self.new.room + length bytes.now) }
        ensures calls { self.new.calls ≡ raised self.old.calls }
        ensures others { self.new ≡ record self.old {
          made = self.new.made;
          room_calls = self.new.room_calls;
          room = self.new.room;
          calls = self.new.calls;
          faults = self.new.faults;
        } }
        ensures faults { self.new.faults ≡ (if is_ok result then self.old.faults else raised self.old.faults) }
    {
        let fails = self.count();
        if self.kept.reserve(1, bytes.len()).is_err() {
            return Err(self.fail());
        }
        self.kept.write(at as usize, bytes);
        self.end(fails)
    }

    fn cut(&mut self, len: u64) -> Result<(), Failed>
        requires { len ≤ length (content_of self.old) }
        ensures cut { OnOk result (Told (told self.old) (told self.new) (λ old new. new ≡ take len old)) }
        ensures failed { OnErr result (Told (told self.old) (told self.new) (Cut len)) }
        ensures crash { Each (images_of self.new) (After (Cut len) (images_of self.old)) }
        ensures time { Elapses (view_of self.old) (view_of self.new) }
        ensures cause { HasCause self.old.faults self.new.faults result }

        // With room it fails exactly where its number is in the list or past the stop, and is made.
        ensures listed { IsLetFail self.new → IsErr result }
        ensures with_room { 1 ≤ self.old.room_calls
            → (IsErr result → IsLetFail self.new) × (self.new.made ≡ Shortened len ∷ self.old.made) }
        ensures made { OnOk result (self.new.made ≡ Shortened len ∷ self.old.made) }
        ensures refused { OnErr result ((self.new.made ≡ Shortened len ∷ self.old.made) ⊎ (self.new.made ≡ self.old.made)) }
        ensures room_left { (self.old.room_calls ≤ self.new.room_calls + 1) × (self.old.room ≤ self.new.room) }
        ensures calls { self.new.calls ≡ raised self.old.calls }
        ensures others { self.new ≡ record self.old {
          made = self.new.made;
          room_calls = self.new.room_calls;
          room = self.new.room;
          calls = self.new.calls;
          faults = self.new.faults;
        } }
        ensures faults { self.new.faults ≡ (if is_ok result then self.old.faults else raised self.old.faults) }
    {
        let fails = self.count();
        if self.kept.reserve(1, 0).is_err() {
            return Err(self.fail());
        }
        self.kept.cut(len as usize);
        self.end(fails)
    }

    fn sync(&mut self) -> Result<(), Failed>
        ensures durable { OnOk result (Only (told self.new) (images_of self.new)) }
        ensures kept { told self.new ≡ told self.old }
        ensures crash { Each (images_of self.new) (images_of self.old) }
        ensures time { Elapses (view_of self.old) (view_of self.new) }
        ensures cause { HasCause self.old.faults self.new.faults result }

        // With room it fails exactly where its number is in the list or past the stop.
        ensures listed { IsLetFail self.new → IsErr result }
        ensures with_room { 1 ≤ self.old.room_calls → IsErr result → IsLetFail self.new }
        ensures made { self.new.made ≡ (if is_ok result then Synced ∷ self.old.made else self.old.made) }
        ensures room_left { (self.old.room_calls ≤ self.new.room_calls + 1) × (self.old.room ≤ self.new.room) }
        ensures calls { self.new.calls ≡ raised self.old.calls }
        ensures others { self.new ≡ record self.old {
          made = self.new.made;
          room_calls = self.new.room_calls;
          room = self.new.room;
          calls = self.new.calls;
          faults = self.new.faults;
        } }
        ensures faults { self.new.faults ≡ (if is_ok result then self.old.faults else raised self.old.faults) }
    {
        let fails = self.count();
        self.end(fails)?;
        if self.kept.reserve(1, 0).is_err() {
            return Err(self.fail());
        }
        self.kept.sync();
        Ok(())
    }

    ghost counts_now = { λ d t c le image. since_now d.first d.made t c image };

    ghost only_now = { λ d c since. now_only d.first d.made c since };

    ghost reads_image = { λ d s told. some_image d.first d.made s told };

    ghost tells = { λ d c image. refl };
}
