//! The values of fields, and how they are read.

ghost use Rattle.std.specs.Prelude.{◌≡◌, IfSome, IfNone};
ghost use Rattle.svc_forms.specs.declared.value.Value.TheVariants as value;
ghost use Rattle.svc_forms.specs.Values.{text_of_value, IsValueOf, Spells};

use crate::field::FieldKind;
use svc_base::{Cents, Day, Month, read_amount, read_day, read_month, read_number};
use svc_types::{
    Designation, Key, LineKind, PartPlan, RemitType, SurplusPlan, read_designation, read_key,
    read_kind, read_part, read_surplus, read_type,
};

/// The value of a field.
#[derive(Clone, Copy, Debug, PartialEq, Eq)]
pub enum Value {
    Number(u32),
    /// An amount in cents.
    Amount(Cents),
    Day(Day),
    Month(Month),
    Type(RemitType),
    Kind(LineKind),
    Surplus(SurplusPlan),
    Part(PartPlan),
    Designation(Designation),
    /// The key of a command, which is its own text.
    Key(Key),
}

impl Default for Value {
    fn default() -> Value
        ensures { result ≡ value.Number 0 }
    {
        Value::Number(0)
    }
}

/// The value of a kind that a text spells; each value has one text.
#[inline(always)]
pub fn read_value(kind: FieldKind, text: &[u8]) -> Option<Value>
    ensures kind { IfSome result (IsValueOf kind) }
    ensures read { IfSome result (λ v. text.now ≡ text_of_value v) }
    ensures none { IfNone result (Spells kind text.now → ⊥) }
{
    match kind {
        FieldKind::Number => read_number(text).map(Value::Number),
        FieldKind::Amount => read_amount(text).map(Value::Amount),
        FieldKind::Day => read_day(text).ok().map(Value::Day),
        FieldKind::Month => read_month(text).ok().map(Value::Month),
        FieldKind::Type => read_type(text).map(Value::Type),
        FieldKind::Kind => read_kind(text).map(Value::Kind),
        FieldKind::Surplus => read_surplus(text).map(Value::Surplus),
        FieldKind::Part => read_part(text).map(Value::Part),
        FieldKind::Designation => read_designation(text).map(Value::Designation),
        FieldKind::Key => read_key(text).map(Value::Key),
    }
}
