//! Writing the values of fields.

ghost use Rattle.std.specs.Prelude.{◌≡◌, ◌++◌, ◌∷◌, OnErr, OnOk, codes};
ghost use Rattle.svc_base.specs.Text.{text_of_number};
ghost use Rattle.svc_types.specs.Words.{text_of_designation, text_of_kind, text_of_part, text_of_surplus, text_of_type};
ghost use Rattle.svc_forms.specs.Values.{text_of_value};
ghost use Rattle.serv_line.specs.Pushed.{Keeps};
ghost use Rattle.serv_line.specs.Lines.{text_of_values};

use crate::pushing::{push_amount, push_bytes, push_number};
use svc_base::{OutOfMemory, write_day, write_month};
use svc_forms::Value;
use svc_types::{Designation, LineKind, PartPlan, RemitType, SurplusPlan};

/// Appends values, a space before each.
#[tactic(auto, using(crate::proofs::KeepLemmas::keeps))]
pub fn push_values(out: &mut Vec<u8>, values: &[Value]) -> Result<(), OutOfMemory>
    ensures pushed { OnOk result (out.new.items ≡ out.old.items ++ text_of_values values.now) }
    ensures kept { OnErr result (Keeps out.old.items out.new.items) }
{
    for value in values {
        push_spaced_value(out, value)?;
    }
    Ok(())
}

/// Appends a space and a value.
#[tactic(auto, using(crate::proofs::KeepLemmas::keeps))]
fn push_spaced_value(out: &mut Vec<u8>, value: &Value) -> Result<(), OutOfMemory>
    ensures pushed { OnOk result (out.new.items ≡ out.old.items ++ (32 ∷ text_of_value value.now)) }
    ensures kept { OnErr result (Keeps out.old.items out.new.items) }
{
    push_bytes(out, b" ")?;
    push_value(out, value)
}

/// Appends a value.
#[tactic(auto, using(crate::proofs::KeepLemmas::keeps))]
pub fn push_value(out: &mut Vec<u8>, value: &Value) -> Result<(), OutOfMemory>
    ensures pushed { OnOk result (out.new.items ≡ out.old.items ++ text_of_value value.now) }
    ensures kept { OnErr result (Keeps out.old.items out.new.items) }
{
    match value {
        Value::Number(number) => push_number(out, *number),
        Value::Amount(amount) => push_amount(out, *amount),
        Value::Day(day) => push_bytes(out, &write_day(*day)),
        Value::Month(month) => push_bytes(out, &write_month(*month)),
        Value::Type(kind) => push_bytes(out, type_text(*kind)),
        Value::Kind(kind) => push_bytes(out, kind_text(*kind)),
        Value::Surplus(plan) => push_bytes(out, surplus_text(*plan)),
        Value::Part(plan) => push_part(out, *plan),
        Value::Designation(over) => push_bytes(out, designation_text(*over)),
        Value::Key(key) => push_bytes(out, key.bytes()),
    }
}

/// A remittance type.
fn type_text(kind: RemitType) -> &'static [u8]
    ensures { result.now ≡ text_of_type kind }
{
    match kind {
        RemitType::AA => b"AA",
        RemitType::SA => b"SA",
        RemitType::SS => b"SS",
    }
}

/// The kind of a bill.
fn kind_text(kind: LineKind) -> &'static [u8]
    ensures { result.now ≡ text_of_kind kind }
{
    match kind {
        LineKind::Tax => b"tax",
        LineKind::Hazard => b"hazard",
        LineKind::Flood => b"flood",
        LineKind::Other => b"other",
    }
}

/// What is done with a surplus.
fn surplus_text(plan: SurplusPlan) -> &'static [u8]
    ensures { result.now ≡ text_of_surplus plan }
{
    match plan {
        SurplusPlan::Unsaid => b"-",
        SurplusPlan::Refund => b"refund",
        SurplusPlan::Credit => b"credit",
        SurplusPlan::Retain => b"retain",
    }
}

/// Appends what is done with a shortage or a deficiency.
#[tactic(auto, using(crate::proofs::KeepLemmas::keeps))]
fn push_part(out: &mut Vec<u8>, plan: PartPlan) -> Result<(), OutOfMemory>
    ensures pushed { OnOk result (out.new.items ≡ out.old.items ++ text_of_part plan) }
    ensures kept { OnErr result (Keeps out.old.items out.new.items) }
{
    match plan {
        PartPlan::Unsaid => push_bytes(out, b"-"),
        PartPlan::Leave => push_bytes(out, b"leave"),
        PartPlan::Within30 => push_bytes(out, b"within30"),
        PartPlan::Spread(months) => push_spread(out, months),
    }
}

/// Appends that a part is spread over so many months.
#[tactic(auto, using(crate::proofs::KeepLemmas::keeps))]
fn push_spread(out: &mut Vec<u8>, months: u32) -> Result<(), OutOfMemory>
    ensures pushed { OnOk result (out.new.items ≡ out.old.items ++ (codes "spread:" ++ text_of_number months)) }
    ensures kept { OnErr result (Keeps out.old.items out.new.items) }
{
    push_bytes(out, b"spread:")?;
    push_number(out, months)
}

/// Where what is over of a payment goes.
fn designation_text(over: Designation) -> &'static [u8]
    ensures { result.now ≡ text_of_designation over }
{
    match over {
        Designation::Regular => b"",
        Designation::Principal => b"principal",
        Designation::Escrow => b"escrow",
    }
}
