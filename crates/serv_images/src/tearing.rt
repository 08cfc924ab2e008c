//! What a crash leaves of writes that were not synced.

ghost use Rattle.std.specs.Prelude.{◌≡◌, ℕ, List, [], ◌∷◌, length, max, min, if◌then◌else◌, replicate};
ghost use Rattle.serv_images.specs.DiskCalls.{DiskCall};
ghost use Rattle.serv_images.specs.Kept.{bytes_of, bytes_in, call_of, calls_of};
ghost use Rattle.serv_images.specs.Crashes.{laid, sized, torn_write, torn_file};

use crate::kept::Step;
use crate::torn::Torn;

/// The longer or the shorter of two lengths.
pub(crate) fn size_of_crash(longer: bool, old: usize, new: usize) -> usize
    ensures { result ≡ (if longer then max old new else min old new) }
{
    if longer { old.max(new) } else { old.min(new) }
}

/// The content of the last sync again, cut or filled with zeros to the file's length.
fn reset(file: &mut [u8], synced: &[u8])
    ensures { file.new ≡ sized (length file.old) synced.now }
{
    let n = synced.len().min(file.len());
    file[..n].copy_from_slice(&synced[..n]);
    set_all(&mut file[n..], 0);
}

/// Writes these bytes, as far as the file reaches.
fn lay_within(file: &mut [u8], at: usize, bytes: &[u8])
    ensures { file.new ≡ laid at bytes.now file.old }
{
    if at >= file.len() {
        return;
    }
    let n = bytes.len().min(file.len() - at);
    file[at..at + n].copy_from_slice(&bytes[..n]);
}

/// Sets each byte.
fn set_all(part: &mut [u8], value: u8)
    ensures { part.new ≡ replicate (length part.old) value }
{
    part.fill(value);
}

/// Writes that many of one byte, as far as the file reaches.
fn fill_within(file: &mut [u8], at: usize, count: usize, value: u8)
    ensures { file.new ≡ laid at (replicate count value) file.old }
{
    if at >= file.len() {
        return;
    }
    let n = count.min(file.len() - at);
    set_all(&mut file[at..at + n], value);
}

/// What is left of a write.
fn tear(torn: Torn, at: usize, bytes: &[u8], file: &mut [u8])
    ensures { file.new ≡ torn_write torn at bytes.now file.old }
{
    match torn {
        Torn::Old => {}
        Torn::New => lay_within(file, at, bytes),
        Torn::Zero => fill_within(file, at, bytes.len(), 0),
        Torn::Ones => fill_within(file, at, bytes.len(), 255),
    }
}

impl Step {
    /// How many bytes it wrote.
    fn bytes(self) -> usize
        ensures { result ≡ bytes_of self }
    {
        match self {
            Step::Write(_, len) => len as usize,
            Step::Cut(_) | Step::Sync => 0,
        }
    }

    /// One call more, with the bytes that it wrote.
    fn tear(self, torn: Torn, synced: &[u8], bytes: &[u8], file: &mut [u8])
        ensures { (older : List DiskCall) → file.old ≡ torn_file torn synced.now (length file.old) older
            → file.new ≡ torn_file torn synced.now (length file.old) (call_of self bytes.now ∷ older) }
    {
        match self {
            Step::Write(at, _) => tear(torn, at as usize, bytes, file),
            Step::Cut(_) => {}
            Step::Sync => reset(file, synced),
        }
    }
}

/// What is left of all writes since the last sync.
pub(crate) fn tear_all(torn: Torn, synced: &[u8], steps: &[Step], pool: &[u8], file: &mut [u8])
    requires pooled { bytes_in steps.now ≡ length pool.now }
    requires begun { file.old ≡ sized (length file.old) synced.now }
    ensures { file.new ≡ torn_file torn synced.now (length file.old) (calls_of steps.now pool.now []) }
{
    let mut rest = pool;
    for step in steps {
        let n = step.bytes();
        step.tear(torn, synced, &rest[..n], file);
        rest = &rest[n..];
    }
}
