//! Reading the line of a request.

ghost use Rattle.std.specs.Prelude.{◌≡◌, ◌∷◌, ℕ, List, map, IfOk, IfErr, IsErrAnd, Ok, codes};
ghost use Rattle.svc_types.specs.Keys.{IsKey};
ghost use Rattle.svc_types.specs.Requests.{IsCommand, IsQuery, IsRequest};
ghost use Rattle.svc_types.specs.declared.requests.Request as requests;
ghost use Rattle.svc_forms.specs.Values.{text_of_value};
ghost use Rattle.svc_forms.specs.Forms.{word_of, form_of, values_of, word_of_question, question_of, values_of_query};
ghost use Rattle.serv_line.specs.Lines.{words_of, words_left, words_of_request, line_of};
ghost use Rattle.serv_line.specs.LineFaults.{Fits, IsLeftAt, IsFault};

use crate::fields::read_fields;
use crate::quick::quick_command;
use crate::words::next_word;
use arrayvec::ArrayVec;
use svc_forms::{command_of, form_named, query_of, question_named};
use svc_types::{Command, Query, Request, read_key};
use thiserror::Error;

/// A line has at most so many bytes.
pub const LONGEST_LINE: usize = 512;

/// Where a line that is no request goes wrong: at the first byte of the first word that does not fit;
/// at the line's length where a word is missing, and at 512 where the line is longer than that.
#[derive(Clone, Copy, Debug, PartialEq, Eq, Error)]
#[error("no request: the fault is at byte {0}")]
pub struct LineFault(pub u32);

/// The request whose line this is: a key, a command's word and its fields, or `?`, a query's word and
/// its fields, with single spaces between them. Each request has one line.
#[inline(always)]
pub fn read_line(line: &[u8]) -> Result<Request, LineFault>
    ensures well { IfOk result IsRequest }
    ensures read { IfOk result (λ r. line.now ≡ line_of r) }
    ensures only { (r : requests.Request) → IsRequest r → line.now ≡ line_of r → result ≡ Ok r }
    ensures fault { IfErr result (λ fault. IsFault line.now fault.0) }
    ensures faulty { (place : ℕ) → IsFault line.now place → IsErrAnd result (λ fault. fault.0 ≡ place) }
{
    if line.len() > LONGEST_LINE {
        return Err(LineFault(LONGEST_LINE as u32));
    }
    match read_words(line) {
        Ok(request) => Ok(request),
        Err(left) => Err(LineFault((line.len() - left) as u32)),
    }
}

/// The request that a line's words ask. Errs with the number of bytes from the first word that does
/// not fit to the line's end.
fn read_words(line: &[u8]) -> Result<Request, usize>
    ensures well { IfOk result IsRequest }
    ensures read { IfOk result (λ r. words_of line.now ≡ words_of_request r) }
    ensures fault { IfErr result (IsLeftAt (Fits (words_of line.now)) (words_of line.now)) }
{
    let (first, rest) = next_word(line);
    if first == b"?".as_slice() {
        return Ok(Request::Ask(read_query(rest)?));
    }
    let Some(key) = read_key(first) else {
        return Err(line.len());
    };
    Ok(Request::Do(key, read_command(rest)?))
}

/// The command that the words after a key ask.
fn read_command(words: Option<&[u8]>) -> Result<Command, usize>
    ensures well { IfOk result IsCommand }
    ensures read { IfOk result (λ c. words_left words.entry ≡ word_of (form_of c) ∷ map text_of_value (values_of c)) }
    ensures fault { IfErr result (λ left. (key : List ℕ) → IsKey key → IsLeftAt (Fits (key ∷ words_left words.entry)) (key ∷ words_left words.entry) left) }
{
    let Some(text) = words else {
        return Err(0);
    };
    if let Some(command) = quick_command(text) {
        return Ok(command);
    }
    let (name, rest) = next_word(text);
    let Some(form) = form_named(name) else {
        return Err(text.len());
    };
    let mut values = ArrayVec::new();
    read_fields(form.fields(), rest, &mut values)?;
    Ok(command_of(form, &values))
}

/// The query that the words after `?` ask.
fn read_query(words: Option<&[u8]>) -> Result<Query, usize>
    ensures well { IfOk result IsQuery }
    ensures read { IfOk result (λ q. words_left words.entry ≡ word_of_question (question_of q) ∷ map text_of_value (values_of_query q)) }
    ensures fault { IfErr result (IsLeftAt (Fits (codes "?" ∷ words_left words.entry)) (codes "?" ∷ words_left words.entry)) }
{
    let Some(text) = words else {
        return Err(0);
    };
    let (name, rest) = next_word(text);
    let Some(question) = question_named(name) else {
        return Err(text.len());
    };
    let mut values = ArrayVec::new();
    read_fields(question.fields(), rest, &mut values)?;
    Ok(query_of(question, &values))
}
