//! What stands at a place where a record may begin.

ghost use Rattle.std.specs.Prelude.{◌≡◌, ◌≢◌, ℕ, ◌+◌, ◌-◌, ◌≤◌, ◌<◌, List, [], ◌∷◌, ◌++◌, length, drop, Some, false, IfOk, IfErr, IfSome, IsTrue, MatchOption};
ghost use Rattle.serv_journal.specs.Bytes.{Starts, piece};
ghost use Rattle.serv_journal.specs.Format.{two_bytes, four_bytes, body, head_size, header};
ghost use Rattle.serv_journal.specs.Reading.{IsBadLine, IsBadRecord, IsMark};
ghost use Rattle.serv_journal.specs.Steps.{HasLine, IsLength, IsStep, StepFits};
ghost use Rattle.serv_journal.specs.Outcomes.{IsPassing};
ghost use Rattle.serv_journal.specs.Windows.{ShowsTold, IsReading, Has};

use crate::faults::JournalFault;
use crate::format::Version;
use crate::window::Window;
use serv_disk::Disk;

/// The text with which a file of version 2 begins, and which ends a part of version 1.
pub(crate) const HEADER_TWO: [u8; 8] = [77, 83, 82, 86, 74, 48, 48, 50];

/// Where records end.
#[derive(Drop)]
pub(crate) enum End {
    /// At a commit byte that is not open.
    Closed(u8),
    /// At a commit byte with the header of version 2 after it.
    Marked,
    /// Where no commit byte stands, or an open one with no record after it.
    Bad,
}

/// A record, whose line is in the window and has so many bytes, or the end of the records.
#[derive(Drop)]
pub(crate) enum Step {
    Record(usize),
    Ends(End),
}

/// Two bytes as a number.
#[tactic(auto, using(crate::proofs::ReadingLemmas::reading_on, crate::proofs::ReadingLemmas::passing_from, crate::proofs::ReadingLemmas::two_found))]
fn two_at<D: Disk>(window: &mut Window, disk: &mut D, place: u64) -> Result<u16, JournalFault>
    requires within { place + 2 ≤ window.old.size }
    requires shows { ShowsTold (D.view disk.old).seen window.old }
    ensures number { IfOk result (λ n. (s : List ℕ) → (D.view disk.old).seen ≡ Some s
        → Starts (two_bytes n) (drop place s)) }
    ensures reading { IsReading D.view D.faults disk.old disk.new window.old window.new }
    ensures fault { IfErr result (IsPassing (D.faults disk.old) (D.faults disk.new)) }
{
    window.bring(disk, place, 2)?;
    let bytes = window.part(place, 2);
    Ok(two_of(bytes[0], bytes[1]))
}

#[tactic(auto, using(crate::proofs::ReadingLemmas::two_is))]
fn two_of(high: u8, low: u8) -> u16
    ensures { two_bytes result ≡ high ∷ low ∷ [] }
{
    u16::from(high) * 256 + u16::from(low)
}

/// Four bytes as a number.
#[tactic(auto, using(crate::proofs::ReadingLemmas::reading_on, crate::proofs::ReadingLemmas::passing_from, crate::proofs::ReadingLemmas::four_found))]
fn four_at<D: Disk>(window: &mut Window, disk: &mut D, place: u64) -> Result<u32, JournalFault>
    requires within { place + 4 ≤ window.old.size }
    requires shows { ShowsTold (D.view disk.old).seen window.old }
    ensures number { IfOk result (λ n. (s : List ℕ) → (D.view disk.old).seen ≡ Some s
        → Starts (four_bytes n) (drop place s)) }
    ensures reading { IsReading D.view D.faults disk.old disk.new window.old window.new }
    ensures fault { IfErr result (IsPassing (D.faults disk.old) (D.faults disk.new)) }
{
    window.bring(disk, place, 4)?;
    let bytes = window.part(place, 4);
    Ok(four_of(bytes[0], bytes[1], bytes[2], bytes[3]))
}

#[tactic(auto, using(crate::proofs::ReadingLemmas::four_is))]
fn four_of(a: u8, b: u8, c: u8, d: u8) -> u32
    ensures { four_bytes result ≡ a ∷ b ∷ c ∷ d ∷ [] }
{
    ((u32::from(a) * 256 + u32::from(b)) * 256 + u32::from(c)) * 256 + u32::from(d)
}

/// A length and a line, of which the window then has the bytes: how many they are.
#[tactic(auto, using(crate::proofs::ReadingLemmas::reading_on, crate::proofs::ReadingLemmas::passing_from))]
fn line_at<D: Disk>(
    window: &mut Window,
    disk: &mut D,
    place: u64,
) -> Result<Option<usize>, JournalFault>
    requires within { place ≤ window.old.size }
    requires shows { ShowsTold (D.view disk.old).seen window.old }
    ensures line { IfOk result (λ found. IfSome found (λ count. IsLength count
        × (place + 2 + count ≤ window.old.size))) }
    ensures has { IfOk result (λ found. IfSome found (Has window.new (place + 2))) }
    ensures found { IfOk result (λ found. (s : List ℕ) → (D.view disk.old).seen ≡ Some s
        → MatchOption found (IsBadLine (drop place s)) (λ count. (let line = piece 2 count (drop place s) in
        Starts (two_bytes (length line) ++ line) (drop place s)))) }
    ensures reading { IsReading D.view D.faults disk.old disk.new window.old window.new }
    ensures fault { IfErr result (IsPassing (D.faults disk.old) (D.faults disk.new)) }
{
    if window.size() - place < 2 {
        return Ok(None);
    }
    let count = two_at(window, disk, place)?;
    if count == 0 || count > 512 || window.size() - place - 2 < u64::from(count) {
        return Ok(None);
    }
    let count = usize::from(count);
    window.bring(disk, place + 2, count)?;
    Ok(Some(count))
}

/// A number, a length and a line. Another number than this one is no record.
#[tactic(auto, using(crate::proofs::ReadingLemmas::reading_on, crate::proofs::ReadingLemmas::passing_from))]
fn numbered_at<D: Disk>(
    window: &mut Window,
    disk: &mut D,
    number: u64,
    place: u64,
) -> Result<Option<usize>, JournalFault>
    requires within { place ≤ window.old.size }
    requires shows { ShowsTold (D.view disk.old).seen window.old }
    ensures line { IfOk result (λ found. IfSome found (λ count. IsLength count
        × (place + 6 + count ≤ window.old.size))) }
    ensures has { IfOk result (λ found. IfSome found (Has window.new (place + 6))) }
    ensures found { IfOk result (λ found. (s : List ℕ) → (D.view disk.old).seen ≡ Some s
        → MatchOption found (IsBadRecord Version.Two number (drop place s))
        (λ count. Starts (body Version.Two number (piece 6 count (drop place s))) (drop place s))) }
    ensures reading { IsReading D.view D.faults disk.old disk.new window.old window.new }
    ensures fault { IfErr result (IsPassing (D.faults disk.old) (D.faults disk.new)) }
{
    if window.size() - place < 6 {
        return Ok(None);
    }
    let found = four_at(window, disk, place)?;
    if u64::from(found) != number {
        return Ok(None);
    }
    line_at(window, disk, place + 4)
}

/// A record after its commit byte: how long its line is.
#[tactic(auto, using(crate::proofs::ReadingLemmas::reading_on, crate::proofs::ReadingLemmas::passing_from))]
fn record_at<D: Disk>(
    window: &mut Window,
    disk: &mut D,
    version: Version,
    number: u64,
    place: u64,
) -> Result<Option<usize>, JournalFault>
    requires within { place ≤ window.old.size }
    requires shows { ShowsTold (D.view disk.old).seen window.old }
    requires unmarked { version ≡ Version.One → (s : List ℕ) → (D.view disk.old).seen ≡ Some s
        → Starts (header Version.Two) (drop place s) → ⊥ }
    ensures line { IfOk result (λ found. IfSome found (λ count. IsLength count
        × (place + head_size version + count ≤ window.old.size))) }
    ensures has { IfOk result (λ found. IfSome found (Has window.new (place + head_size version))) }
    ensures found { IfOk result (λ found. (s : List ℕ) → (D.view disk.old).seen ≡ Some s
        → MatchOption found (IsBadRecord version number (drop place s))
        (λ count. Starts (body version number (piece (head_size version) count (drop place s)))
        (drop place s))) }
    ensures reading { IsReading D.view D.faults disk.old disk.new window.old window.new }
    ensures fault { IfErr result (IsPassing (D.faults disk.old) (D.faults disk.new)) }
{
    match version {
        Version::One => line_at(window, disk, place),
        Version::Two => numbered_at(window, disk, number, place),
    }
}

/// Whether a commit byte ends a part of version 1: the header of version 2 stands at the place after it.
#[tactic(auto, using(crate::proofs::ReadingLemmas::reading_on, crate::proofs::ReadingLemmas::reading_here, crate::proofs::ReadingLemmas::passing_from), unfolding(crate::specs::Format::header))]
fn ends_part<D: Disk>(
    window: &mut Window,
    disk: &mut D,
    version: Version,
    commit: u8,
    place: u64,
) -> Result<bool, JournalFault>
    requires within { place ≤ window.old.size }
    requires shows { ShowsTold (D.view disk.old).seen window.old }
    ensures fits { IfOk result (λ b. IsTrue b
        → (version ≡ Version.One) × (commit ≢ 0) × (place + 8 ≤ window.old.size)) }
    ensures mark { IfOk result (λ b. (s : List ℕ) → (D.view disk.old).seen ≡ Some s → IsTrue b
        → Starts (header Version.Two) (drop place s)) }
    ensures unmarked { IfOk result (λ b. (s : List ℕ) → (D.view disk.old).seen ≡ Some s → b ≡ false
        → version ≡ Version.One → IsMark commit (drop place s) → ⊥) }
    ensures reading { IsReading D.view D.faults disk.old disk.new window.old window.new }
    ensures fault { IfErr result (IsPassing (D.faults disk.old) (D.faults disk.new)) }
{
    if commit == 0 {
        return Ok(false);
    }
    match version {
        Version::One => window.has_text(disk, place, &HEADER_TWO),
        Version::Two => Ok(false),
    }
}

/// What stands at a place where a record with this number may begin.
#[tactic(auto, using(crate::proofs::ReadingLemmas::reading_on, crate::proofs::ReadingLemmas::reading_here, crate::proofs::ReadingLemmas::passing_from))]
pub(crate) fn step_at<D: Disk>(
    window: &mut Window,
    disk: &mut D,
    version: Version,
    number: u64,
    place: u64,
) -> Result<Step, JournalFault>
    requires within { place ≤ window.old.size }
    requires shows { ShowsTold (D.view disk.old).seen window.old }
    ensures fits { IfOk result (StepFits version place window.old.size) }
    ensures has { IfOk result (HasLine version place window.new) }
    ensures step { IfOk result (λ step. (s : List ℕ) → (D.view disk.old).seen ≡ Some s
        → IsStep version number (drop place s) step) }
    ensures reading { IsReading D.view D.faults disk.old disk.new window.old window.new }
    ensures fault { IfErr result (IsPassing (D.faults disk.old) (D.faults disk.new)) }
{
    if place == window.size() {
        return Ok(Step::Ends(End::Bad));
    }
    let commit = window.byte_at(disk, place)?;
    if ends_part(window, disk, version, commit, place + 1)? {
        return Ok(Step::Ends(End::Marked));
    }
    if commit != 1 {
        return Ok(Step::Ends(End::Closed(commit)));
    }
    match record_at(window, disk, version, number, place + 1)? {
        Some(size) => Ok(Step::Record(size)),
        None => Ok(Step::Ends(End::Bad)),
    }
}
