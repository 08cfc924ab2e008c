//! The members of a body.

ghost use Rattle.std.specs.Prelude.{◌≡◌, ◌≢◌, ◌<◌, ◌≤◌, ◌^◌, ◌+◌, ℕ, List, Some, length, IfSome, IfNone};
ghost use Rattle.std.specs.List.{list_all};
ghost use Rattle.serde_json.specs.Data.{number, unsigned, string};
ghost use Rattle.serde_json.specs.Find.{get};
ghost use Rattle.serde_json.specs.View.{view};
ghost use Rattle.svc_forms.specs.Fields as rule;
ghost use Rattle.svc_forms.specs.Values.{text_of_value, IsValueOf, AreValuesOf};
ghost use Rattle.svc_forms.specs.declared.value.Value as values;
ghost use Rattle.serv_json.specs.Bodies.{json_of};
ghost use Rattle.serv_json.specs.FieldsRead as found;
ghost use Rattle.serv_json.specs.FieldsRead.{IsRead, AreRead, HasFields};

use arrayvec::ArrayVec;
use serde_json::Value as Json;
use svc_forms::{Field, FieldKind, MAX_FIELDS, Value, read_value};

/// The text of a member, where it is there and a string.
pub(crate) fn text_at<'v>(body: &'v Json, name: &str) -> Option<&'v [u8]>
    ensures there { IfSome result (λ text. get name.now (view body.now) ≡ Some (string text.now)) }
    ensures none { IfNone result ((text : List ℕ) → get name.now (view body.now) ≢ Some (string text)) }
{
    let text = body.get(name)?.as_str()?;
    Some(text.as_bytes())
}

/// The number that a member is: an integer from 0 to 4,294,967,295.
fn read_integer(member: &Json) -> Option<u32>
    ensures is { IfSome result (λ n. view member.now ≡ number (unsigned n)) }
    ensures none { IfNone result ((n : ℕ) → n < 2 ^ 32 → view member.now ≢ number (unsigned n)) }
{
    let number = member.as_u64()?;
    u32::try_from(number).ok()
}

/// The value of a kind whose text a member is.
fn read_text(kind: FieldKind, member: &Json) -> Option<Value>
    ensures kind { IfSome result (IsValueOf kind) }
    ensures is { IfSome result (λ v. view member.now ≡ string (text_of_value v)) }
    ensures none { IfNone result
        ((v : values.Value) → IsValueOf kind v → view member.now ≢ string (text_of_value v)) }
{
    let text = member.as_str()?;
    read_value(kind, text.as_bytes())
}

/// The value of a kind that a member is.
fn read_member(kind: FieldKind, member: &Json) -> Option<Value>
    ensures kind { IfSome result (IsValueOf kind) }
    ensures is { IfSome result (λ v. view member.now ≡ json_of v) }
    ensures none { IfNone result ((v : values.Value) → IsValueOf kind v → view member.now ≢ json_of v) }
{
    if kind == FieldKind::Number {
        return read_integer(member).map(Value::Number);
    }
    read_text(kind, member)
}

/// The value of a field.
fn read_field(body: &Json, field: Field) -> Option<Value>
    ensures is { IfSome result (λ v. IsRead (view body.now) field v) }
    ensures none { IfNone result ((v : values.Value) → ¬ (IsRead (view body.now) field v)) }
{
    let member = body.get(field.name())?;
    read_member(field.kind(), member)
}

/// The values of some fields, each of which is there.
fn read_fields(body: &Json, fields: &[Field]) -> Option<ArrayVec<Value, MAX_FIELDS>>
    requires { length fields.now ≤ MAX_FIELDS }
    ensures read { IfSome result (λ vs. AreRead (view body.now) fields.now vs.items) }
    ensures none { IfNone result ((vs : List values.Value) → ¬ (AreRead (view body.now) fields.now vs)) }
{
    let mut values = ArrayVec::new();
    for field in fields {
        values.push(read_field(body, *field)?);
    }
    Some(values)
}

/// How many members an object has.
#[tactic(auto, using(crate::proofs::FieldLemmas::counted))]
fn member_count(body: &Json) -> Option<usize>
    ensures { result ≡ found.member_count (view body.now) }
{
    let members = body.as_object()?;
    Some(members.len())
}

/// How many members a body has beside its key and its word.
fn fields_given(body: &Json) -> Option<usize>
    ensures count { IfSome result (λ n. found.member_count (view body.now) ≡ Some (n + 2)) }
    ensures none { IfNone result ((n : ℕ) → found.member_count (view body.now) ≢ Some (n + 2)) }
{
    let count = member_count(body)?;
    count.checked_sub(2)
}

/// Whether each of some fields may be left out.
fn are_optional(fields: &[Field]) -> bool
    ensures { result ≡ list_all rule.is_optional fields.now }
{
    fields.iter().all(|field| field.is_optional())
}

/// The values of the fields of a form, where a body has no other members beside its key and its word.
/// It has as many of the form's first fields as it has such members; those after may be left out.
pub(crate) fn read_values(body: &Json, fields: &[Field]) -> Option<ArrayVec<Value, MAX_FIELDS>>
    requires { length fields.now ≤ MAX_FIELDS }
    ensures fit { IfSome result (λ vs. AreValuesOf fields.now vs.items) }
    ensures read { IfSome result (λ vs. HasFields (view body.now) fields.now vs.items) }
    ensures none { IfNone result ((vs : List values.Value)
        → AreValuesOf fields.now vs → ¬ (HasFields (view body.now) fields.now vs)) }
{
    let given = fields_given(body)?;
    let (asked, left_out) = fields.split_at_checked(given)?;
    if !are_optional(left_out) {
        return None;
    }
    read_fields(body, asked)
}
