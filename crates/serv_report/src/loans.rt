//! The texts of a loan's terms, of a quote and of arrears.

ghost use Rattle.std.specs.Prelude.{◌≡◌, ◌++◌, ◌≤ℤ◌, pos, OnErr, OnOk};
ghost use Rattle.std.specs.List.{flat_map};
ghost use Rattle.svc_world.specs.Unsigned.{AreUnsignedArrears, AreUnsignedTerms};
ghost use Rattle.serv_line.specs.Pushed.{Keeps};
ghost use Rattle.serv_report.specs.DeskTexts.{text_of_arrears, text_of_bill, text_of_boarding, text_of_change, text_of_escrow_terms, text_of_installments, text_of_loan_terms, text_of_owed, text_of_quote, text_of_terms};

use crate::books::push_on_day;
use crate::words::{push_amount_word, push_end, push_field, push_numbered, push_unsigned_field};
use escrow_lines::Line;
use serv_line::{push_bytes, push_number_field, push_values};
use svc_base::{Cents, Day, OutOfMemory};
use svc_forms::Value;
use svc_types::{Arrears, Terms, TypeChange};

/// Appends a loan's terms, its escrow lines and its changes of type.
#[tactic(auto, using(serv_line::proofs::KeepLemmas::keeps), unfolding(crate::specs::DeskTexts::text_of_loan_terms))]
pub(crate) fn append_loan(
    out: &mut Vec<u8>,
    loan: u32,
    terms: &Terms,
    lines: &[Line],
    types: &[TypeChange],
) -> Result<(), OutOfMemory>
    requires { AreUnsignedTerms terms.now lines.now }
    ensures pushed { OnOk result (out.new.items ≡ out.old.items ++ text_of_loan_terms loan terms.now lines.now types.now) }
    ensures kept { OnErr result (Keeps out.old.items out.new.items) }
{
    push_terms(out, loan, terms)?;
    push_bills(out, lines)?;
    push_changes(out, types)?;
    push_end(out)
}

/// Appends the line of a loan's terms.
#[tactic(auto, using(serv_line::proofs::KeepLemmas::keeps), unfolding(crate::specs::DeskTexts::text_of_terms))]
fn push_terms(out: &mut Vec<u8>, loan: u32, terms: &Terms) -> Result<(), OutOfMemory>
    ensures pushed { OnOk result (out.new.items ≡ out.old.items ++ text_of_terms loan terms.now) }
    ensures kept { OnErr result (Keeps out.old.items out.new.items) }
{
    push_boarding(out, loan, terms)?;
    push_installments(out, terms)?;
    push_escrow_terms(out, terms)?;
    push_bytes(out, b"\n")
}

/// Appends when a loan was taken on, what was owed, and at which rates.
#[tactic(auto, using(serv_line::proofs::KeepLemmas::keeps))]
fn push_boarding(out: &mut Vec<u8>, loan: u32, terms: &Terms) -> Result<(), OutOfMemory>
    ensures pushed { OnOk result (out.new.items ≡ out.old.items ++ text_of_boarding loan terms.now) }
    ensures kept { OnErr result (Keeps out.old.items out.new.items) }
{
    push_numbered(out, b"loan ", loan)?;
    push_field(out, b"boarded", &Value::Day(terms.boarded))?;
    push_field(out, b"principal", &Value::Amount(terms.principal))?;
    push_field(out, b"rate", &Value::Number(terms.rate))?;
    push_field(out, b"fee", &Value::Number(terms.fee))
}

/// Appends what its installments are, and when they are late.
#[tactic(auto, using(serv_line::proofs::KeepLemmas::keeps), unfolding(crate::specs::DeskTexts::text_of_installments))]
fn push_installments(out: &mut Vec<u8>, terms: &Terms) -> Result<(), OutOfMemory>
    ensures pushed { OnOk result (out.new.items ≡ out.old.items ++ text_of_installments terms.now) }
    ensures kept { OnErr result (Keeps out.old.items out.new.items) }
{
    push_field(out, b"pi", &Value::Amount(terms.pi))?;
    push_field(out, b"term", &Value::Number(terms.term))?;
    push_field(out, b"first", &Value::Month(terms.first))?;
    push_field(out, b"grace", &Value::Number(terms.grace))?;
    push_field(out, b"late", &Value::Number(terms.late))
}

/// Appends its escrow at boarding, and its remittance type.
#[tactic(auto, using(serv_line::proofs::KeepLemmas::keeps), unfolding(crate::specs::DeskTexts::text_of_escrow_terms))]
fn push_escrow_terms(out: &mut Vec<u8>, terms: &Terms) -> Result<(), OutOfMemory>
    ensures pushed { OnOk result (out.new.items ≡ out.old.items ++ text_of_escrow_terms terms.now) }
    ensures kept { OnErr result (Keeps out.old.items out.new.items) }
{
    push_field(out, b"cushion", &Value::Number(terms.cushion))?;
    push_field(out, b"escrow", &Value::Amount(terms.escrow))?;
    push_field(out, b"type", &Value::Type(terms.kind))
}

/// Appends escrow lines.
#[tactic(auto, using(serv_line::proofs::KeepLemmas::keeps))]
fn push_bills(out: &mut Vec<u8>, lines: &[Line]) -> Result<(), OutOfMemory>
    ensures pushed { OnOk result (out.new.items ≡ out.old.items ++ flat_map text_of_bill lines.now) }
    ensures kept { OnErr result (Keeps out.old.items out.new.items) }
{
    for line in lines {
        push_bill(out, line)?;
    }
    Ok(())
}

/// Appends an escrow line.
#[tactic(auto, using(serv_line::proofs::KeepLemmas::keeps), unfolding(crate::specs::DeskTexts::text_of_bill))]
fn push_bill(out: &mut Vec<u8>, line: &Line) -> Result<(), OutOfMemory>
    ensures pushed { OnOk result (out.new.items ≡ out.old.items ++ text_of_bill line.now) }
    ensures kept { OnErr result (Keeps out.old.items out.new.items) }
{
    let values = [
        Value::Number(line.id),
        Value::Kind(line.kind),
        Value::Number(line.month),
        Value::Number(line.every),
        Value::Amount(line.cents),
    ];
    push_bytes(out, b"line")?;
    push_values(out, &values)?;
    push_bytes(out, b"\n")
}

/// Appends changes of type.
#[tactic(auto, using(serv_line::proofs::KeepLemmas::keeps))]
fn push_changes(out: &mut Vec<u8>, types: &[TypeChange]) -> Result<(), OutOfMemory>
    ensures pushed { OnOk result (out.new.items ≡ out.old.items ++ flat_map text_of_change types.now) }
    ensures kept { OnErr result (Keeps out.old.items out.new.items) }
{
    for change in types {
        push_change(out, change)?;
    }
    Ok(())
}

/// Appends a change of type.
#[tactic(auto, using(serv_line::proofs::KeepLemmas::keeps), unfolding(crate::specs::DeskTexts::text_of_change))]
fn push_change(out: &mut Vec<u8>, change: &TypeChange) -> Result<(), OutOfMemory>
    ensures pushed { OnOk result (out.new.items ≡ out.old.items ++ text_of_change change.now) }
    ensures kept { OnErr result (Keeps out.old.items out.new.items) }
{
    push_bytes(out, b"type")?;
    push_values(out, &[Value::Month(change.from), Value::Type(change.kind)])?;
    push_bytes(out, b"\n")
}

/// Appends what pays a loan off on a day, and the interest of a day.
#[tactic(auto, using(serv_line::proofs::KeepLemmas::keeps))]
pub(crate) fn append_quote(
    out: &mut Vec<u8>,
    loan: u32,
    day: Day,
    cents: Cents,
    perday: Cents,
) -> Result<(), OutOfMemory>
    requires cents { pos 0 ≤ℤ cents }
    requires perday { pos 0 ≤ℤ perday }
    ensures pushed { OnOk result (out.new.items ≡ out.old.items ++ text_of_quote loan day cents perday) }
    ensures kept { OnErr result (Keeps out.old.items out.new.items) }
{
    push_on_day(out, b"quote ", loan, day)?;
    push_amount_word(out, cents)?;
    push_unsigned_field(out, b"perday", perday)?;
    push_bytes(out, b"\n")
}

/// Appends what brings a loan current.
#[tactic(auto, using(serv_line::proofs::KeepLemmas::keeps), unfolding(crate::specs::DeskTexts::text_of_arrears))]
pub(crate) fn append_arrears(
    out: &mut Vec<u8>,
    loan: u32,
    day: Day,
    arrears: &Arrears,
) -> Result<(), OutOfMemory>
    requires { AreUnsignedArrears arrears.now }
    ensures pushed { OnOk result (out.new.items ≡ out.old.items ++ text_of_arrears loan day arrears.now) }
    ensures kept { OnErr result (Keeps out.old.items out.new.items) }
{
    push_on_day(out, b"arrears ", loan, day)?;
    push_owed(out, arrears)?;
    push_bytes(out, b"\n")
}

/// Appends how many installments are due, what they ask, and what is to be paid.
#[tactic(auto, using(serv_line::proofs::KeepLemmas::keeps))]
pub(crate) fn push_owed(out: &mut Vec<u8>, arrears: &Arrears) -> Result<(), OutOfMemory>
    requires { AreUnsignedArrears arrears.now }
    ensures pushed { OnOk result (out.new.items ≡ out.old.items ++ text_of_owed arrears.now) }
    ensures kept { OnErr result (Keeps out.old.items out.new.items) }
{
    push_number_field(out, b"installments", arrears.installments)?;
    push_unsigned_field(out, b"due", arrears.due)?;
    push_unsigned_field(out, b"suspense", arrears.suspense)?;
    push_unsigned_field(out, b"pay", arrears.pay)?;
    push_unsigned_field(out, b"late", arrears.late)
}
