//! Whether the bytes of a stream end inside a request target, which then waits for its end.

ghost use Rattle.std.specs.Prelude.{◌≡◌, ℕ, ◌+◌, ◌≤◌, ◌<◌, ◌==◌, ◌++◌, ◌∷◌, List, not, length, take, drop, MatchOption, IsTrue, ◌↔◌};
ghost use Rattle.std.specs.List.{list_all};
ghost use Rattle.httparse.specs.Grammar.{LineEnd, print_blank, EndsInTarget, AllPass, is_uri_byte};
ghost use Rattle.httparse.specs.Pieces.{Begins, Newline};
ghost use Rattle.serv_http.specs.Words.{is_other, IsLineEndAt, IsOpenTarget};

use httparse::{is_token, is_uri_token};

/// How long the line end at a place is: 0 where none is there.
fn line_end_len(buf: &[u8], at: usize) -> usize
    requires { at ≤ length buf.now }
    ensures within { at + result ≤ length buf.now }
    ensures value { IsLineEndAt buf.now at result }
{
    if at < buf.len() && buf[at] == b'\n' {
        return 1;
    }
    if at < buf.len() && buf.len() - at > 1 && buf[at] == b'\r' && buf[at + 1] == b'\n' {
        return 2;
    }
    0
}

/// Where the blank lines before a request line end.
fn blank_end(buf: &[u8]) -> usize
    ensures within { result ≤ length buf.now }
    ensures blank { (ends : List LineEnd) × (buf.now ≡ print_blank ends ++ drop result buf.now) }
    ensures ended { ¬ (Begins Newline (drop result buf.now)) }
{
    let mut at = 0;
    loop {
        let len = line_end_len(buf, at);
        if len == 0 {
            return at;
        }
        at += len;
    }
}

/// The bytes before the first space, and those after it.
fn first_word(buf: &[u8]) -> Option<(&[u8], &[u8])>
    ensures { MatchOption result (AllPass (is_other 32) buf.now)
        (λ parts. AllPass (is_other 32) parts.0.now × (buf.now ≡ parts.0.now ++ 32 ∷ parts.1.now)) }
{
    for i in 0..buf.len() {
        if buf[i] == b' ' {
            return Some((&buf[..i], &buf[i + 1..]));
        }
    }
    None
}

/// Whether each byte may stand in a target.
fn is_target(bytes: &[u8]) -> bool
    ensures { result ≡ list_all is_uri_byte bytes.now }
{
    bytes.iter().all(|b| is_uri_token(*b))
}

/// Whether the bytes are a method, a space and what may be the start of a target.
fn is_open_target(rest: &[u8]) -> bool
    ensures { IsTrue result ↔ IsOpenTarget rest.now }
{
    match first_word(rest) {
        Some((method, target)) => is_token(method) && is_target(target),
        None => false,
    }
}

/// Whether the bytes end inside a target.
pub(crate) fn ends_in_target(buf: &[u8]) -> bool
    ensures { IsTrue result ↔ EndsInTarget buf.now }
{
    is_open_target(&buf[blank_end(buf)..])
}
