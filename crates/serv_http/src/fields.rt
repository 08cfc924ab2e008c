//! The header lines of a head: whether one is there, and the length that they say.

ghost use Rattle.std.specs.Prelude.{◌≡◌, ◌≤◌, ℕ, length, map, All, MatchOption, true, false, IsTrue, ◌↔◌};
ghost use Rattle.std.specs.Str.{bytes_eq};
ghost use Rattle.std.specs.Char.{is_ascii_digit};
ghost use Rattle.std.specs.Str.Parse.{digits_value};
ghost use Rattle.httparse.specs.Spans.{IsHeaderWithin, header_bytes};
ghost use Rattle.std.specs.List.{list_any, list_all};
ghost use Rattle.serv_http.specs.Fields as fields;

use crate::route::ContentLength;
use httparse::spans::HeaderSpan;

/// Whether two texts are the same.
pub(crate) fn is_text(a: &[u8], b: &[u8]) -> bool
    ensures value { result ≡ bytes_eq a.now b.now }
    ensures same { IsTrue result ↔ (a.now ≡ b.now) }
{
    a == b
}

/// Whether a line has a name, in any ASCII case.
fn is_line_named(buf: &[u8], line: &HeaderSpan, name: &[u8]) -> bool
    requires { IsHeaderWithin (length buf.now) line.now }
    ensures { result ≡ fields.is_named name.now (header_bytes buf.now line.now) }
{
    line.name.of(buf).eq_ignore_ascii_case(name)
}

/// Whether a text is a word, in any ASCII case, with blanks around it or without.
fn is_word(text: &[u8], word: &[u8]) -> bool
    ensures { result ≡ fields.is_word word.now text.now }
{
    text.trim_ascii().eq_ignore_ascii_case(word)
}

/// Whether a word stands between the commas of a value.
fn has_word(value: &[u8], word: &[u8]) -> bool
    ensures { result ≡ list_any (fields.is_word word.now) (fields.parts_of value.now) }
{
    value.split(|b| *b == b',').any(|text| is_word(text, word))
}

/// Whether a line has a name, and a word between the commas of its value, both in any ASCII case.
fn is_line_saying(buf: &[u8], line: &HeaderSpan, name: &[u8], word: &[u8]) -> bool
    requires { IsHeaderWithin (length buf.now) line.now }
    ensures { result ≡ fields.is_saying name.now word.now (header_bytes buf.now line.now) }
{
    is_line_named(buf, line, name) && has_word(line.value.of(buf), word)
}

/// Whether a line of this name is there.
pub(crate) fn has_line(buf: &[u8], lines: &[HeaderSpan], name: &[u8]) -> bool
    requires { All (IsHeaderWithin (length buf.now)) lines.now }
    ensures { result ≡ fields.has_line name.now (map (header_bytes buf.now) lines.now) }
{
    for line in lines {
        if is_line_named(buf, line, name) {
            return true;
        }
    }
    false
}

/// Whether a line of this name says this word.
pub(crate) fn says(buf: &[u8], lines: &[HeaderSpan], name: &[u8], word: &[u8]) -> bool
    requires { All (IsHeaderWithin (length buf.now)) lines.now }
    ensures { result ≡ list_any (fields.is_saying name.now word.now) (map (header_bytes buf.now) lines.now) }
{
    for line in lines {
        if is_line_saying(buf, line, name, word) {
            return true;
        }
    }
    false
}

/// The number that at most nine digits spell.
fn number_of(digits: &[u8]) -> Option<usize>
    requires { length digits.now ≤ 9 }
    ensures { MatchOption result (list_all is_ascii_digit digits.now ≡ false)
        (λ n. (list_all is_ascii_digit digits.now ≡ true) × (n ≡ digits_value 10 digits.now)) }
{
    let mut number = 0;
    for i in 0..digits.len() {
        let digit = digits[i];
        if !digit.is_ascii_digit() {
            return None;
        }
        number = number * 10 + usize::from(digit - b'0');
    }
    Some(number)
}

/// The length that a value says.
fn read_length(value: &[u8]) -> ContentLength
    ensures { result ≡ fields.length_of_value value.now }
{
    if value.is_empty() || value.len() > 9 {
        return ContentLength::Bad;
    }
    match number_of(value) {
        Some(n) => ContentLength::Given(n),
        None => ContentLength::Bad,
    }
}

/// What was said so far, with a value more.
fn with_value(said: ContentLength, value: &[u8]) -> ContentLength
    ensures { result ≡ fields.with_value said value.now }
{
    match said {
        ContentLength::Missing => read_length(value),
        _ => ContentLength::Bad,
    }
}

/// What the lines of this name say of the body's length.
pub(crate) fn length_of(buf: &[u8], lines: &[HeaderSpan], name: &[u8]) -> ContentLength
    requires { All (IsHeaderWithin (length buf.now)) lines.now }
    ensures { result ≡ fields.content_length
        (fields.values_of name.now (map (header_bytes buf.now) lines.now)) }
{
    let mut said = ContentLength::Missing;
    for line in lines {
        if is_line_named(buf, line, name) {
            said = with_value(said, line.value.of(buf));
        }
    }
    said
}
