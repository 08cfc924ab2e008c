//! The text of a loan's history.

ghost use Rattle.std.specs.Prelude.{◌≡◌, ◌++◌, ◌≤ℤ◌, pos, OnErr, OnOk, codes};
ghost use Rattle.serv_line.specs.Replies.{amount_field};
ghost use Rattle.serv_report.specs.Texts.{text_of_next};
ghost use Rattle.std.specs.List.{All, flat_map};
ghost use Rattle.svc_spec.specs.Books.{IsAct, IsWhat};
ghost use Rattle.svc_world.specs.Unsigned.{IsUnsignedEvent};
ghost use Rattle.serv_line.specs.Pushed.{Keeps};
ghost use Rattle.serv_report.specs.DeskTexts.{amount_of_act, amount_of_what, text_of_applied, text_of_event, text_of_history, text_of_history_head, text_of_number_or, text_of_place, text_of_reversed, text_of_waiting, text_of_what, word_of_act, word_of_pay, word_of_what};

use crate::books::{push_next, push_on_day};
use crate::words::{
    push_amount_word, push_count_field, push_end, push_number_word, push_numbered,
    push_unsigned_field, push_word,
};
use serv_line::{push_bytes, push_signed_field};
use svc_base::{Cents, Day, OutOfMemory, write_day};
use svc_types::{Act, Designation, HistoryLine, What};

/// Appends a loan's history up to a day, and the entries that were reversed.
#[tactic(auto, using(serv_line::proofs::KeepLemmas::keeps), unfolding(crate::specs::DeskTexts::text_of_history))]
pub(crate) fn append_history(
    out: &mut Vec<u8>,
    loan: u32,
    day: Day,
    lines: &[HistoryLine],
    reversed: &[(u32, u32)],
) -> Result<(), OutOfMemory>
    requires { All IsUnsignedEvent lines.now }
    ensures pushed { OnOk result (out.new.items ≡ out.old.items ++ text_of_history loan day lines.now reversed.now) }
    ensures kept { OnErr result (Keeps out.old.items out.new.items) }
{
    push_head(out, loan, day, lines.len())?;
    push_events(out, lines)?;
    push_reversals(out, reversed)?;
    push_end(out)
}

/// Appends the first line of a history.
#[tactic(auto, using(serv_line::proofs::KeepLemmas::keeps), unfolding(crate::specs::DeskTexts::text_of_history_head))]
fn push_head(out: &mut Vec<u8>, loan: u32, day: Day, events: usize) -> Result<(), OutOfMemory>
    ensures pushed { OnOk result (out.new.items ≡ out.old.items ++ text_of_history_head loan day events) }
    ensures kept { OnErr result (Keeps out.old.items out.new.items) }
{
    push_on_day(out, b"history ", loan, day)?;
    push_count_field(out, b"events", events)?;
    push_bytes(out, b"\n")
}

/// Appends events, a line each.
#[tactic(auto, using(serv_line::proofs::KeepLemmas::keeps))]
fn push_events(out: &mut Vec<u8>, lines: &[HistoryLine]) -> Result<(), OutOfMemory>
    requires { All IsUnsignedEvent lines.now }
    ensures pushed { OnOk result (out.new.items ≡ out.old.items ++ flat_map text_of_event lines.now) }
    ensures kept { OnErr result (Keeps out.old.items out.new.items) }
{
    for line in lines {
        push_event(out, line)?;
    }
    Ok(())
}

/// Appends an event: what happened, what it changed, and where it left the loan.
#[tactic(auto, using(serv_line::proofs::KeepLemmas::keeps), unfolding(crate::specs::DeskTexts::text_of_event))]
fn push_event(out: &mut Vec<u8>, line: &HistoryLine) -> Result<(), OutOfMemory>
    requires { IsUnsignedEvent line.now }
    ensures pushed { OnOk result (out.new.items ≡ out.old.items ++ text_of_event line.now) }
    ensures kept { OnErr result (Keeps out.old.items out.new.items) }
{
    push_what(out, line)?;
    push_applied(out, line)?;
    push_waiting(out, line)?;
    push_left(out, line)?;
    push_bytes(out, b"\n")
}

/// Appends where an event left the loan.
#[tactic(auto, using(serv_line::proofs::KeepLemmas::keeps))]
fn push_left(out: &mut Vec<u8>, line: &HistoryLine) -> Result<(), OutOfMemory>
    requires { IsUnsignedEvent line.now }
    ensures pushed { OnOk result (out.new.items ≡ out.old.items ++ (amount_field (codes "upb") line.now.upb ++ text_of_next line.now.next)) }
    ensures kept { OnErr result (Keeps out.old.items out.new.items) }
{
    push_unsigned_field(out, b"upb", line.upb)?;
    push_next(out, line.next)
}

/// Appends what happened, and its amount.
#[tactic(auto, using(serv_line::proofs::KeepLemmas::keeps), unfolding(crate::specs::DeskTexts::text_of_what))]
fn push_what(out: &mut Vec<u8>, line: &HistoryLine) -> Result<(), OutOfMemory>
    requires { IsUnsignedEvent line.now }
    ensures pushed { OnOk result (out.new.items ≡ out.old.items ++ text_of_what line.now) }
    ensures kept { OnErr result (Keeps out.old.items out.new.items) }
{
    push_place(out, line)?;
    push_word(out, what_text(&line.what))?;
    push_amount_word(out, what_amount(&line.what))
}

/// Appends the day of an event, and the number of its entry.
#[tactic(auto, using(serv_line::proofs::KeepLemmas::keeps), unfolding(crate::specs::DeskTexts::text_of_place))]
fn push_place(out: &mut Vec<u8>, line: &HistoryLine) -> Result<(), OutOfMemory>
    ensures pushed { OnOk result (out.new.items ≡ out.old.items ++ text_of_place line.now) }
    ensures kept { OnErr result (Keeps out.old.items out.new.items) }
{
    push_bytes(out, b"event ")?;
    push_bytes(out, &write_day(line.day))?;
    push_entry_number(out, line.number)
}

/// Appends the number of an entry, or a dash.
#[tactic(auto, using(serv_line::proofs::KeepLemmas::keeps))]
fn push_entry_number(out: &mut Vec<u8>, number: Option<u32>) -> Result<(), OutOfMemory>
    ensures pushed { OnOk result (out.new.items ≡ out.old.items ++ text_of_number_or number) }
    ensures kept { OnErr result (Keeps out.old.items out.new.items) }
{
    match number {
        None => push_bytes(out, b" -"),
        Some(number) => push_number_word(out, number),
    }
}

/// Appends by how much what was collected, and escrow, rose.
#[tactic(auto, using(serv_line::proofs::KeepLemmas::keeps))]
fn push_applied(out: &mut Vec<u8>, line: &HistoryLine) -> Result<(), OutOfMemory>
    ensures pushed { OnOk result (out.new.items ≡ out.old.items ++ text_of_applied line.now) }
    ensures kept { OnErr result (Keeps out.old.items out.new.items) }
{
    push_signed_field(out, b"interest", line.interest)?;
    push_signed_field(out, b"principal", line.principal)?;
    push_signed_field(out, b"escrow", line.escrow)
}

/// Appends by how much late charges and suspense rose.
#[tactic(auto, using(serv_line::proofs::KeepLemmas::keeps))]
fn push_waiting(out: &mut Vec<u8>, line: &HistoryLine) -> Result<(), OutOfMemory>
    ensures pushed { OnOk result (out.new.items ≡ out.old.items ++ text_of_waiting line.now) }
    ensures kept { OnErr result (Keeps out.old.items out.new.items) }
{
    push_signed_field(out, b"late", line.late)?;
    push_signed_field(out, b"charges", line.charges)?;
    push_signed_field(out, b"suspense", line.suspense)
}

/// Appends reversed entries, a line each.
#[tactic(auto, using(serv_line::proofs::KeepLemmas::keeps))]
fn push_reversals(out: &mut Vec<u8>, reversed: &[(u32, u32)]) -> Result<(), OutOfMemory>
    ensures pushed { OnOk result (out.new.items ≡ out.old.items ++ flat_map text_of_reversed reversed.now) }
    ensures kept { OnErr result (Keeps out.old.items out.new.items) }
{
    for reversal in reversed {
        push_reversal(out, reversal)?;
    }
    Ok(())
}

/// Appends a reversed entry, and the command that reversed it.
#[tactic(auto, using(serv_line::proofs::KeepLemmas::keeps), unfolding(crate::specs::DeskTexts::text_of_reversed))]
fn push_reversal(out: &mut Vec<u8>, reversal: &(u32, u32)) -> Result<(), OutOfMemory>
    ensures pushed { OnOk result (out.new.items ≡ out.old.items ++ text_of_reversed reversal.now) }
    ensures kept { OnErr result (Keeps out.old.items out.new.items) }
{
    push_numbered(out, b"reversed ", reversal.0)?;
    push_number_word(out, reversal.1)?;
    push_bytes(out, b"\n")
}

/// The word of what happened.
fn what_text(what: &What) -> &'static [u8]
    ensures { result.now ≡ word_of_what what.now }
{
    match what {
        What::MonthMark => b"month",
        What::LateMark(_) => b"late-charge",
        What::Act(act) => act_text(act),
    }
}

/// The word of what an entry does.
fn act_text(act: &Act) -> &'static [u8]
    ensures { result.now ≡ word_of_act act.now }
{
    match act {
        Act::Pay(_, Designation::Regular) => b"pay",
        Act::Pay(_, Designation::Principal) => b"pay-principal",
        Act::Pay(_, Designation::Escrow) => b"pay-escrow",
        Act::Curtail(_) => b"curtail",
        Act::Payoff(_) => b"payoff",
        Act::Deposit(_) => b"deposit",
        Act::Disburse(..) => b"disburse",
        Act::Refund(_) => b"refund",
        Act::Waive(_) => b"waive",
        Act::Analyse(_) => b"analyse",
    }
}

/// The amount of what happened, in cents; a mark has none.
fn what_amount(what: &What) -> Cents
    requires { IsWhat what.now }
    ensures value { result ≡ amount_of_what what.now }
    ensures low { pos 0 ≤ℤ result }
{
    match what {
        What::MonthMark | What::LateMark(_) => 0,
        What::Act(act) => act_amount(act),
    }
}

/// The amount of an entry, in cents; of an analysis its refund.
fn act_amount(act: &Act) -> Cents
    requires { IsAct act.now }
    ensures value { result ≡ amount_of_act act.now }
    ensures low { pos 0 ≤ℤ result }
{
    match act {
        Act::Pay(cents, _)
        | Act::Curtail(cents)
        | Act::Payoff(cents)
        | Act::Deposit(cents)
        | Act::Disburse(cents, _)
        | Act::Refund(cents)
        | Act::Waive(cents) => *cents,
        Act::Analyse(settled) => settled.refund,
    }
}
