//! The texts of replies.

ghost use Rattle.std.specs.Prelude.{◌≡◌, ◌++◌, IfOk, OnErr, OnOk};
ghost use Rattle.serv_line.specs.Pushed.{Keeps};
ghost use Rattle.serv_line.specs.Replies.{text_of_bad, text_of_extra, text_of_figures, text_of_found, text_of_full, text_of_parts, text_of_plain, text_of_reply, text_of_settled};

use crate::pushing::{
    push_amount_field, push_bytes, push_number, push_number_field, push_signed_field, push_wide,
    undone,
};
use itoa::write_digits;
use std::alloc::Global;
use svc_base::OutOfMemory;
use svc_types::{Extra, Figures, Reply};

/// The reply to an accepted command: `ok`, its number and what it found. Errs only where memory is
/// short.
pub fn write_reply(alloc: Global, reply: &Reply) -> Result<Vec<u8>, OutOfMemory>
    ensures { IfOk result (λ text. text.items ≡ text_of_reply reply.now) }
{
    let mut out = Vec::new(alloc);
    append_reply(&mut out, reply)?;
    Ok(out)
}

/// Appends the reply to an accepted command. Where memory is short `out` is as it was.
pub fn push_reply(out: &mut Vec<u8>, reply: &Reply) -> Result<(), OutOfMemory>
    ensures pushed { OnOk result (out.new.items ≡ out.old.items ++ text_of_reply reply.now) }
    ensures kept { OnErr result (out.new.items ≡ out.old.items) }
{
    if let Extra::Plain = reply.extra {
        return push_plain(out, reply.number);
    }
    let start = out.len();
    let pushed = append_reply(out, reply);
    undone(out, start, pushed)
}

/// Appends a reply that says no more than its number, in one piece.
fn push_plain(out: &mut Vec<u8>, number: u32) -> Result<(), OutOfMemory>
    ensures pushed { OnOk result (out.new.items ≡ out.old.items ++ text_of_plain number) }
    ensures kept { OnErr result (out.new.items ≡ out.old.items) }
{
    // The digits end before the line feed, and `ok` comes before them.
    let mut room = *b"0000000000000\n";
    let start = write_digits(u64::from(number), &mut room, 13);
    room[start - 3..start].copy_from_slice(b"ok ");
    push_bytes(out, &room[start - 3..])
}

/// Appends the reply to an accepted command.
#[tactic(auto, using(crate::proofs::KeepLemmas::keeps), unfolding(crate::specs::Replies::text_of_reply))]
fn append_reply(out: &mut Vec<u8>, reply: &Reply) -> Result<(), OutOfMemory>
    ensures pushed { OnOk result (out.new.items ≡ out.old.items ++ text_of_reply reply.now) }
    ensures kept { OnErr result (Keeps out.old.items out.new.items) }
{
    push_bytes(out, b"ok ")?;
    push_number(out, reply.number)?;
    push_extra(out, &reply.extra)?;
    push_bytes(out, b"\n")
}

/// The reply to a line that is no request: `bad` and the place of its fault. Errs only where memory
/// is short.
pub fn write_bad(alloc: Global, place: u32) -> Result<Vec<u8>, OutOfMemory>
    ensures { IfOk result (λ text. text.items ≡ text_of_bad place) }
{
    let mut out = Vec::new(alloc);
    append_bad(&mut out, place)?;
    Ok(out)
}

/// Appends the reply to a line that is no request. Where memory is short `out` is as it was.
pub fn push_bad(out: &mut Vec<u8>, place: u32) -> Result<(), OutOfMemory>
    ensures pushed { OnOk result (out.new.items ≡ out.old.items ++ text_of_bad place) }
    ensures kept { OnErr result (out.new.items ≡ out.old.items) }
{
    let start = out.len();
    let pushed = append_bad(out, place);
    undone(out, start, pushed)
}

/// Appends the reply to a line that is no request.
#[tactic(auto, using(crate::proofs::KeepLemmas::keeps), unfolding(crate::specs::Replies::text_of_bad))]
fn append_bad(out: &mut Vec<u8>, place: u32) -> Result<(), OutOfMemory>
    ensures pushed { OnOk result (out.new.items ≡ out.old.items ++ text_of_bad place) }
    ensures kept { OnErr result (Keeps out.old.items out.new.items) }
{
    push_bytes(out, b"bad ")?;
    push_number(out, place)?;
    push_bytes(out, b"\n")
}

/// The reply to a command for which the journal has no more room, with the journal's bytes. Errs only
/// where memory is short.
pub fn write_full(alloc: Global, bytes: u64) -> Result<Vec<u8>, OutOfMemory>
    ensures { IfOk result (λ text. text.items ≡ text_of_full bytes) }
{
    let mut out = Vec::new(alloc);
    append_full(&mut out, bytes)?;
    Ok(out)
}

/// Appends the reply to a command for which the journal has no more room. Where memory is short `out`
/// is as it was.
pub fn push_full(out: &mut Vec<u8>, bytes: u64) -> Result<(), OutOfMemory>
    ensures pushed { OnOk result (out.new.items ≡ out.old.items ++ text_of_full bytes) }
    ensures kept { OnErr result (out.new.items ≡ out.old.items) }
{
    let start = out.len();
    let pushed = append_full(out, bytes);
    undone(out, start, pushed)
}

/// Appends the reply to a command for which the journal has no more room.
#[tactic(auto, using(crate::proofs::KeepLemmas::keeps), unfolding(crate::specs::Replies::text_of_full))]
fn append_full(out: &mut Vec<u8>, bytes: u64) -> Result<(), OutOfMemory>
    ensures pushed { OnOk result (out.new.items ≡ out.old.items ++ text_of_full bytes) }
    ensures kept { OnErr result (Keeps out.old.items out.new.items) }
{
    push_bytes(out, b"no 26 JournalFull ")?;
    push_wide(out, bytes)?;
    push_bytes(out, b"\n")
}

/// What an accepted command found.
#[tactic(auto, using(crate::proofs::KeepLemmas::keeps))]
fn push_extra(out: &mut Vec<u8>, extra: &Extra) -> Result<(), OutOfMemory>
    ensures pushed { OnOk result (out.new.items ≡ out.old.items ++ text_of_extra extra.now) }
    ensures kept { OnErr result (Keeps out.old.items out.new.items) }
{
    match extra {
        Extra::Plain => Ok(()),
        Extra::Analysed(figures) => push_figures(out, figures),
        Extra::Closed {
            lines,
            interest,
            principal,
        } => {
            push_number_field(out, b"lines", *lines)?;
            push_signed_field(out, b"interest", *interest)?;
            push_signed_field(out, b"principal", *principal)
        }
        Extra::Remitted { net } => push_signed_field(out, b"net", *net),
    }
}

/// All of an analysis.
#[tactic(auto, using(crate::proofs::KeepLemmas::keeps))]
fn push_figures(out: &mut Vec<u8>, figures: &Figures) -> Result<(), OutOfMemory>
    ensures pushed { OnOk result (out.new.items ≡ out.old.items ++ text_of_figures figures.now) }
    ensures kept { OnErr result (Keeps out.old.items out.new.items) }
{
    push_found(out, figures)?;
    push_parts(out, figures)?;
    push_settled(out, figures)
}

/// Appends what an analysis found.
#[tactic(auto, using(crate::proofs::KeepLemmas::keeps), unfolding(crate::specs::Replies::text_of_found))]
pub fn push_found(out: &mut Vec<u8>, figures: &Figures) -> Result<(), OutOfMemory>
    ensures pushed { OnOk result (out.new.items ≡ out.old.items ++ text_of_found figures.now) }
    ensures kept { OnErr result (Keeps out.old.items out.new.items) }
{
    push_amount_field(out, b"base", figures.base)?;
    push_amount_field(out, b"cushion", figures.cushion)?;
    push_amount_field(out, b"opening", figures.opening)?;
    push_signed_field(out, b"balance", figures.balance)
}

/// Appends the parts that an analysis has.
#[tactic(auto, using(crate::proofs::KeepLemmas::keeps), unfolding(crate::specs::Replies::text_of_parts))]
pub fn push_parts(out: &mut Vec<u8>, figures: &Figures) -> Result<(), OutOfMemory>
    ensures pushed { OnOk result (out.new.items ≡ out.old.items ++ text_of_parts figures.now) }
    ensures kept { OnErr result (Keeps out.old.items out.new.items) }
{
    push_amount_field(out, b"surplus", figures.surplus)?;
    push_amount_field(out, b"short", figures.short)?;
    push_amount_field(out, b"deficient", figures.deficient)
}

/// What an analysis settled.
#[tactic(auto, using(crate::proofs::KeepLemmas::keeps), unfolding(crate::specs::Replies::text_of_settled))]
fn push_settled(out: &mut Vec<u8>, figures: &Figures) -> Result<(), OutOfMemory>
    ensures pushed { OnOk result (out.new.items ≡ out.old.items ++ text_of_settled figures.now) }
    ensures kept { OnErr result (Keeps out.old.items out.new.items) }
{
    push_amount_field(out, b"refund", figures.refund)?;
    push_amount_field(out, b"within30", figures.within30)?;
    push_amount_field(out, b"pay", figures.pay)
}
