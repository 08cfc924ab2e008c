//! How much of a stream is looked at for a head: its bytes up to a 65th header line.

ghost use Rattle.std.specs.Prelude.{◌≡◌, ℕ, ◌+◌, ◌≤◌, ◌==◌, ◌||◌, List, [], ◌∷◌, ◌++◌, length, take, drop, MatchOption, None, Some, IsTrue, ◌↔◌};
ghost use Rattle.serv_http.specs.Counts.{IsCounted};
ghost use Rattle.serv_http.specs.Heads.{head_limit, line_too_many, judged, IsClosed};

use crate::lines::LineCount;

/// The most bytes of a head, the blank lines before it included.
pub const HEAD_LIMIT: usize = 8192;

/// The most header lines of a head.
pub const LINE_LIMIT: usize = 64;

/// Whether a byte is CR or LF.
fn is_newline(b: u8) -> bool
    ensures { result ≡ (b == 13 || b == 10) }
{
    b == b'\r' || b == b'\n'
}

/// The count of lines with a byte more, where so many bytes are there with it.
fn with_byte(lines: LineCount, b: u8, place: usize) -> LineCount
    ensures { (s : List ℕ) → length s + 1 ≡ place → IsCounted s lines → IsCounted (s ++ b ∷ []) result }
{
    match lines {
        LineCount::Blank => if is_newline(b) {
            lines
        } else {
            LineCount::Left(LINE_LIMIT + 1)
        },
        LineCount::Left(left) => if b != b'\n' {
            lines
        } else if left > 1 {
            LineCount::Left(left - 1)
        } else {
            LineCount::Full(place)
        },
        LineCount::Full(_) => lines,
    }
}

/// The count of lines of all bytes, from that of the first of them.
pub(crate) fn count_on(lines: LineCount, buf: &[u8], from: usize) -> LineCount
    requires within { from ≤ length buf.now }
    requires counted { IsCounted (take from buf.now) lines }
    ensures { IsCounted buf.now result }
{
    let mut lines = lines;
    for at in from..buf.len() {
        lines = with_byte(lines, buf[at], at + 1);
    }
    lines
}

/// Where the 65th header line begins, where it has begun.
fn too_many(buf: &[u8], lines: LineCount) -> Option<usize>
    requires { IsCounted buf.now lines }
    ensures { MatchOption result (line_too_many buf.now ≡ None)
        (λ at. (at ≤ length buf.now) × (line_too_many buf.now ≡ Some (drop at buf.now))) }
{
    let LineCount::Full(at) = lines else {
        return None;
    };
    if at == buf.len() {
        return None;
    }
    if is_newline(buf[at]) { None } else { Some(at) }
}

/// How many bytes are looked at, and whether no byte that follows is.
pub(crate) fn window(buf: &[u8], lines: LineCount) -> (usize, bool)
    requires length { length buf.now ≤ head_limit }
    requires counted { IsCounted buf.now lines }
    ensures within { result.0 ≤ length buf.now }
    ensures judged { take result.0 buf.now ≡ judged buf.now }
    ensures closed { IsTrue result.1 ↔ IsClosed buf.now }
{
    match too_many(buf, lines) {
        Some(at) => (at, true),
        None => (buf.len(), buf.len() == HEAD_LIMIT),
    }
}
