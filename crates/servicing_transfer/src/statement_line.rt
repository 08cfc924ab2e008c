//! A line of a statement.

ghost use Rattle.std.specs.Prelude.{◌≡◌, ◌++◌, ◌∷◌, map, OnOk};
ghost use Rattle.serv_line.specs.Lines.{joined};
ghost use Rattle.serv_line.specs.Replies.{ended, signed_field};
ghost use Rattle.servicing_transfer.specs.LoanFields.{text_of_value, words_of_fields};
ghost use Rattle.servicing_transfer.specs.FieldValues.{said};
ghost use Rattle.servicing_transfer.specs.StatementTexts.{loan_line};

use crate::loan_fields::{FIELD_COUNT, FIELDS, FieldKind, Value, push_value, values_of};
use serv_line::push_bytes;
use svc_base::{Month, OutOfMemory, push_signed};

/// An amount of a statement, in cents. It has up to eighteen digits before its point, which is more than
/// `Cents` holds.
pub type StatedCents = i128;

/// What a statement says of a loan: its balance and open installment, what is held for it, and what was
/// advanced.
#[derive(Clone, Copy, Debug, PartialEq, Eq)]
pub struct StatementLine {
    pub loan: u32,
    pub upb: StatedCents,
    pub next: Option<Month>,
    pub escrow: StatedCents,
    pub suspense: StatedCents,
    pub late: StatedCents,
    pub escrow_advance: StatedCents,
    pub held: StatedCents,
    pub pi_advance: StatedCents,
}

/// Appends a loan's line.
pub(crate) fn push_loan_line(out: &mut Vec<u8>, line: &StatementLine) -> Result<(), OutOfMemory>
    ensures { OnOk result (out.new.items ≡ out.old.items ++ ended (loan_line line.now)) }
{
    push_fields(out, &FIELDS, &values_of(line))?;
    push_bytes(out, b"\n")
}

/// Appends the names of fields and their values, with a space between each two words.
fn push_fields(
    out: &mut Vec<u8>,
    fields: &[(&[u8], FieldKind); FIELD_COUNT],
    values: &[Value; FIELD_COUNT],
) -> Result<(), OutOfMemory>
    ensures { OnOk result (out.new.items ≡ out.old.items ++ joined (words_of_fields (map said fields.now) values.now)) }
{
    let mut gap: &[u8] = b"";
    for (i, (name, _)) in fields.iter().enumerate() {
        push_field(out, gap, name, values[i])?;
        gap = b" ";
    }
    Ok(())
}

/// Appends a field's name and its value, with a space between them, after what stands before them.
fn push_field(
    out: &mut Vec<u8>,
    before: &[u8],
    name: &[u8],
    value: Value,
) -> Result<(), OutOfMemory>
    ensures { OnOk result (out.new.items ≡ out.old.items ++ before.now ++ name.now ++ 32 ∷ text_of_value value) }
{
    push_bytes(out, before)?;
    push_bytes(out, name)?;
    push_bytes(out, b" ")?;
    push_value(out, value)
}

/// Appends a name and an amount, a space before each.
pub(crate) fn push_cents_field(
    out: &mut Vec<u8>,
    name: &[u8],
    cents: StatedCents,
) -> Result<(), OutOfMemory>
    ensures { OnOk result (out.new.items ≡ out.old.items ++ signed_field name.now cents) }
{
    push_bytes(out, b" ")?;
    push_bytes(out, name)?;
    push_bytes(out, b" ")?;
    push_signed(out, cents)
}
