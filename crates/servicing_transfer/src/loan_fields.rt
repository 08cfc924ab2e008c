//! The fields of a loan's line: a table of their names and kinds, and their values.

ghost use Rattle.std.specs.Prelude.{◌≡◌, ◌≢◌, ◌++◌, ◌↔◌, ◌<◌, ℕ, Option, codes, slice_index_or, IfSome, IfNone, IsTrue, OnOk};
ghost use Rattle.servicing_transfer.specs.declared.loan_fields.Value as vals;
ghost use Rattle.servicing_transfer.specs.declared.loan_fields.Value.TheVariants as value;
ghost use Rattle.servicing_transfer.specs.LoanFields.{fields, next_word, text_of_value, values_of};
ghost use Rattle.servicing_transfer.specs.FieldValues.{cents_in, month_in, number_in, AreValuesOf, IsValueOf};
ghost use Rattle.servicing_transfer.specs.Stated.{IsStatedMonth};

use crate::amounts::{read_amount, read_balance, read_stated_month};
use crate::statement_line::{StatedCents, StatementLine};
use serv_line::{push_bytes, push_number};
use svc_base::{Month, OutOfMemory, push_signed, read_number, write_month};

/// What the word of a field spells.
#[derive(Clone, Copy, Debug, PartialEq, Eq)]
pub(crate) enum FieldKind {
    /// A number from 0 to 4,294,967,295.
    Number,
    /// An amount that is not below zero.
    Amount,
    /// An amount that may be below zero.
    Balance,
    /// A month, or the dash that stands for none.
    Next,
}

/// How many fields a line has.
pub(crate) const FIELD_COUNT: usize = 9;

/// The fields of a loan's line, in their order: each one's name, and what its word spells.
pub(crate) const FIELDS: [(&[u8], FieldKind); FIELD_COUNT] = [
    (b"loan", FieldKind::Number),
    (b"upb", FieldKind::Amount),
    (b"next", FieldKind::Next),
    (b"escrow", FieldKind::Balance),
    (b"suspense", FieldKind::Amount),
    (b"late", FieldKind::Amount),
    (b"escrow-advance", FieldKind::Amount),
    (b"held", FieldKind::Amount),
    (b"pi-advance", FieldKind::Amount),
];

/// The value of a field.
#[derive(Clone, Copy, Debug, PartialEq, Eq)]
pub(crate) enum Value {
    Number(u32),
    Cents(StatedCents),
    Next(Option<Month>),
}

/// The number in a place; 0 where none stands there.
fn number_at(values: &[Value; FIELD_COUNT], at: usize) -> u32
    requires { at < FIELD_COUNT }
    ensures { result ≡ number_in (slice_index_or values.now at (value.Number 0)) }
{
    match values[at] {
        Value::Number(number) => number,
        _ => 0,
    }
}

/// The cents in a place; 0 where none stand there.
fn cents_at(values: &[Value; FIELD_COUNT], at: usize) -> StatedCents
    requires { at < FIELD_COUNT }
    ensures { result ≡ cents_in (slice_index_or values.now at (value.Number 0)) }
{
    match values[at] {
        Value::Cents(cents) => cents,
        _ => 0,
    }
}

/// The month in a place, where one stands there.
fn next_at(values: &[Value; FIELD_COUNT], at: usize) -> Option<Month>
    requires { at < FIELD_COUNT }
    ensures { result ≡ month_in (slice_index_or values.now at (value.Number 0)) }
{
    match values[at] {
        Value::Next(next) => next,
        _ => None,
    }
}

/// What a line says in its fields.
pub(crate) fn values_of(line: &StatementLine) -> [Value; FIELD_COUNT]
    ensures { result ≡ values_of line.now }
{
    [
        Value::Number(line.loan),
        Value::Cents(line.upb),
        Value::Next(line.next),
        Value::Cents(line.escrow),
        Value::Cents(line.suspense),
        Value::Cents(line.late),
        Value::Cents(line.escrow_advance),
        Value::Cents(line.held),
        Value::Cents(line.pi_advance),
    ]
}

/// The line that says these values in its fields.
#[tactic(auto, using(crate::proofs::FieldLemmas::made_again, svc_base::proofs::CentsRules::cents))]
pub(crate) fn line_of(values: &[Value; FIELD_COUNT]) -> StatementLine
    requires { AreValuesOf fields values.now }
    ensures { values_of result ≡ values.now }
{
    StatementLine {
        loan: number_at(values, 0),
        upb: cents_at(values, 1),
        next: next_at(values, 2),
        escrow: cents_at(values, 3),
        suspense: cents_at(values, 4),
        late: cents_at(values, 5),
        escrow_advance: cents_at(values, 6),
        held: cents_at(values, 7),
        pi_advance: cents_at(values, 8),
    }
}

/// Whether a word is the dash that stands for no month.
fn is_dash(word: &[u8]) -> bool
    ensures { IsTrue result ↔ (word.now ≡ codes "-") }
{
    word == b"-".as_slice()
}

/// The month of the open installment, or the dash that stands for none.
fn read_next(word: &[u8]) -> Option<Option<Month>>
    ensures read { IfSome result (λ next. word.now ≡ next_word next) }
    ensures range { IfSome result (λ next. IfSome next IsStatedMonth) }
    ensures none { IfNone result ((next : Option ℕ) → IfSome next IsStatedMonth → word.now ≢ next_word next) }
{
    if is_dash(word) {
        return Some(None);
    }
    let month = read_stated_month(word)?;
    Some(Some(month))
}

/// The value of a kind that a word spells.
pub(crate) fn read_value(kind: FieldKind, word: &[u8]) -> Option<Value>
    ensures kind { IfSome result (IsValueOf kind) }
    ensures read { IfSome result (λ v. word.now ≡ text_of_value v) }
    ensures none { IfNone result ((v : vals.Value) → IsValueOf kind v → word.now ≢ text_of_value v) }
{
    match kind {
        FieldKind::Number => read_number(word).map(Value::Number),
        FieldKind::Amount => read_amount(word).map(Value::Cents),
        FieldKind::Balance => read_balance(word).map(Value::Cents),
        FieldKind::Next => read_next(word).map(Value::Next),
    }
}

/// Appends the text of a value.
pub(crate) fn push_value(out: &mut Vec<u8>, value: Value) -> Result<(), OutOfMemory>
    ensures { OnOk result (out.new.items ≡ out.old.items ++ text_of_value value) }
{
    match value {
        Value::Number(number) => push_number(out, number),
        Value::Cents(cents) => push_signed(out, cents),
        Value::Next(None) => push_bytes(out, b"-"),
        Value::Next(Some(month)) => push_bytes(out, &write_month(month)),
    }
}
