//! Writing the line of a request.

ghost use Rattle.std.specs.Prelude.{◌≡◌, ◌++◌, ◌∷◌, IfOk, OnErr, OnOk};
ghost use Rattle.svc_types.specs.declared.requests.Request.TheVariants as requests;
ghost use Rattle.serv_line.specs.Pushed.{Keeps};
ghost use Rattle.serv_line.specs.Lines.{line_of};

use crate::pushing::{push_bytes, undone};
use crate::values::push_values;
use std::alloc::Global;
use svc_base::OutOfMemory;
use svc_forms::{Form, Question, values_of, values_of_query};
use svc_types::{Command, Key, Query, Request};

/// The line of a request, without a line feed. Errs only where memory is short.
pub fn write_line(alloc: Global, request: &Request) -> Result<Vec<u8>, OutOfMemory>
    ensures { IfOk result (λ line. line.items ≡ line_of request.now) }
{
    let mut out = Vec::new(alloc);
    append_line(&mut out, request)?;
    Ok(out)
}

/// Appends the line of a request, without a line feed. Where memory is short `out` is as it was.
pub fn push_line(out: &mut Vec<u8>, request: &Request) -> Result<(), OutOfMemory>
    ensures pushed { OnOk result (out.new.items ≡ out.old.items ++ line_of request.now) }
    ensures kept { OnErr result (out.new.items ≡ out.old.items) }
{
    let start = out.len();
    let pushed = append_line(out, request);
    undone(out, start, pushed)
}

/// Appends the line of a request, without a line feed.
fn append_line(out: &mut Vec<u8>, request: &Request) -> Result<(), OutOfMemory>
    ensures pushed { OnOk result (out.new.items ≡ out.old.items ++ line_of request.now) }
    ensures kept { OnErr result (Keeps out.old.items out.new.items) }
{
    match request {
        Request::Do(key, command) => append_command(out, key, command),
        Request::Ask(query) => append_query(out, query),
    }
}

/// Appends the line of a command.
#[tactic(auto, using(crate::proofs::KeepLemmas::keeps, crate::proofs::TextLemmas::joined_texts), unfolding(crate::specs::Lines::line_of))]
fn append_command(out: &mut Vec<u8>, key: &Key, command: &Command) -> Result<(), OutOfMemory>
    ensures pushed { OnOk result (out.new.items ≡ out.old.items ++ line_of (requests.Do key.now command.now)) }
    ensures kept { OnErr result (Keeps out.old.items out.new.items) }
{
    push_opening(out, key.bytes(), Form::of(command).word())?;
    push_values(out, values_of(command).as_slice())
}

/// Appends the line of a query.
#[tactic(auto, using(crate::proofs::KeepLemmas::keeps, crate::proofs::TextLemmas::joined_texts), unfolding(crate::specs::Lines::line_of))]
fn append_query(out: &mut Vec<u8>, query: &Query) -> Result<(), OutOfMemory>
    ensures pushed { OnOk result (out.new.items ≡ out.old.items ++ line_of (requests.Ask query.now)) }
    ensures kept { OnErr result (Keeps out.old.items out.new.items) }
{
    push_opening(out, b"?", Question::of(query).word())?;
    push_values(out, values_of_query(query).as_slice())
}

/// Appends what a line begins with, a space and its form's word.
#[tactic(auto, using(crate::proofs::KeepLemmas::keeps))]
fn push_opening(out: &mut Vec<u8>, first: &[u8], word: &[u8]) -> Result<(), OutOfMemory>
    ensures pushed { OnOk result (out.new.items ≡ out.old.items ++ (first.now ++ (32 ∷ word.now))) }
    ensures kept { OnErr result (Keeps out.old.items out.new.items) }
{
    push_bytes(out, first)?;
    push_bytes(out, b" ")?;
    push_bytes(out, word)
}
