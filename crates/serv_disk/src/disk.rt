//! A disk: what reads give, and what a crash may leave.

ghost use Rattle.std.specs.Prelude.{◌≡◌, ℕ, ◌+◌, ◌≤◌, List, Option, None, Some, IsSome, IfOk, OnOk, OnErr, length, take, drop};
ghost use Rattle.serv_disk.specs.Faults.{HasCause};
ghost use Rattle.serv_images.specs.CutShort.{TornAt, Cut};
ghost use Rattle.serv_disk.specs.Disks.{View, Holds, Told, Each, After, Only, Elapses};

use crate::failed::Failed;

/// A file as a journal sees it. After a crash each range that was written since the last sync that
/// succeeded may hold any bytes, the part past the old end too; the length is the old or the new one;
/// other bytes stay. After a sync that succeeds a crash leaves what reads give.
pub trait Disk {
    /// What reads give, where the object tells it, and what a crash may leave. The number of the moment does not fall.
    ghost view: { Self → View };

    /// How many of its calls have failed.
    ghost faults: { Self → ℕ };

    /// The moment.
    fn clock(&self) -> u64
        ensures { result ≡ (view self.now).moment };

    /// The length.
    fn len(&mut self) -> Result<u64, Failed>
        ensures number { IfOk result (λ n. (s : List ℕ) → (view self.old).seen ≡ Some s → n ≡ length s) }
        ensures kept { (view self.new).seen ≡ (view self.old).seen }
        ensures crash { Each (view self.new).images (view self.old).images }
        ensures time { Elapses (view self.old) (view self.new) }
        ensures cause { HasCause (faults self.old) (faults self.new) result };

    /// Fills the buffer with the bytes from this place on. A read stays within the length.
    fn read(&mut self, at: u64, buf: &mut [u8]) -> Result<(), Failed>
        requires { (s : List ℕ) → (view self.old).seen ≡ Some s → at + length buf.old ≤ length s }
        ensures bytes { OnOk result
            ((s : List ℕ) → (view self.old).seen ≡ Some s → buf.new ≡ take (length buf.old) (drop at s)) }
        ensures kept { (view self.new).seen ≡ (view self.old).seen }
        ensures crash { Each (view self.new).images (view self.old).images }
        ensures time { Elapses (view self.old) (view self.new) }
        ensures cause { HasCause (faults self.old) (faults self.new) result };

    /// Writes over what is there, and past the end. A write begins at or before the end. Until a sync a
    /// crash may leave any bytes in its range; so may a write that fails, in what reads give.
    fn write_at(&mut self, at: u64, bytes: &[u8]) -> Result<(), Failed>
        requires { (s : List ℕ) → (view self.old).seen ≡ Some s → at ≤ length s }
        ensures written { OnOk result (Told (view self.old).seen (view self.new).seen (Holds at bytes.now)) }
        ensures failed { OnErr result
            (Told (view self.old).seen (view self.new).seen (TornAt at (length bytes.now))) }
        ensures crash { Each (view self.new).images
            (After (TornAt at (length bytes.now)) (view self.old).images) }
        ensures time { Elapses (view self.old) (view self.new) }
        ensures cause { HasCause (faults self.old) (faults self.new) result };

    /// Cuts the file to a length. A cut does not lengthen. One that fails may have been made.
    fn cut(&mut self, len: u64) -> Result<(), Failed>
        requires { (s : List ℕ) → (view self.old).seen ≡ Some s → len ≤ length s }
        ensures cut { OnOk result
            (Told (view self.old).seen (view self.new).seen (λ old new. new ≡ take len old)) }
        ensures failed { OnErr result (Told (view self.old).seen (view self.new).seen (Cut len)) }
        ensures crash { Each (view self.new).images (After (Cut len) (view self.old).images) }
        ensures time { Elapses (view self.old) (view self.new) }
        ensures cause { HasCause (faults self.old) (faults self.new) result };

    /// Writes the bytes from one place to another, at most 520, again as they are. What reads give is the same, and so is
    /// what a crash may leave. A sync of the machine that failed may have marked bytes as kept which are not: after this
    /// call the next sync answers for them again.
    fn renew(&mut self, from: u64, to: u64) -> Result<(), Failed>
        requires order { from ≤ to }
        requires few { to ≤ from + 520 }
        requires within { (s : List ℕ) → (view self.old).seen ≡ Some s → to ≤ length s }
        ensures kept { (view self.new).seen ≡ (view self.old).seen }
        ensures crash { Each (view self.new).images (view self.old).images }
        ensures time { Elapses (view self.old) (view self.new) }
        ensures cause { HasCause (faults self.old) (faults self.new) result }
    {
        let _ = (from, to);
        Ok(())
    }

    /// After it a crash leaves what reads give.
    fn sync(&mut self) -> Result<(), Failed>
        ensures durable { OnOk result (Only (view self.new).seen (view self.new).images) }
        ensures kept { (view self.new).seen ≡ (view self.old).seen }
        ensures crash { Each (view self.new).images (view self.old).images }
        ensures time { Elapses (view self.old) (view self.new) }
        ensures cause { HasCause (faults self.old) (faults self.new) result };

    /// This moment is one of those since an earlier one.
    ghost counts_now: { (d : Self) (t : ℕ) (c : List ℕ) → t ≤ (view d).moment → (view d).images c → (view d).since t c };

    /// Since this moment there is no other.
    ghost only_now: { (d : Self) (c : List ℕ) → (view d).since (view d).moment c → (view d).images c };

    /// A disk as it reads is one of its images.
    ghost reads_image: { (d : Self) (s : List ℕ) → (view d).seen ≡ Some s → (view d).images s };

    /// A disk that tells nothing of what reads give tells no image.
    ghost tells: { (d : Self) (c : List ℕ) → (view d).images c → IsSome (view d).seen };
}
