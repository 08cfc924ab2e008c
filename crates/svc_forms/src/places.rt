//! The values of a form, by their places.

ghost use Rattle.std.specs.Prelude.{◌≡◌, Some, slice_get};
ghost use Rattle.svc_base.specs.Calendar.{IsReadDay};
ghost use Rattle.svc_base.specs.Text.{IsReadAmount, IsReadMonth};
ghost use Rattle.svc_types.specs.Keys.{IsKey};
ghost use Rattle.svc_types.specs.Requests.{IsReadNumber};
ghost use Rattle.svc_types.specs.Words.{IsReadPart};
ghost use Rattle.svc_forms.specs.Values.{StandsAt, FitsField, IsOver};
ghost use Rattle.svc_forms.specs.declared.field.Field.TheVariants as field;
ghost use Rattle.svc_forms.specs.declared.field.FieldKind.TheVariants as kind;
ghost use Rattle.svc_forms.specs.declared.value.Value.TheVariants as value;

use crate::value::Value;
use svc_base::{Cents, Day, Month};
use svc_types::{Designation, Key, LineKind, PartPlan, RemitType, SurplusPlan};

/// The number in a place.
pub(crate) fn number_at(values: &[Value], at: usize) -> u32
    requires { StandsAt kind.Number values.now at }
    ensures there { slice_get values.now at ≡ Some (value.Number result) }
    ensures range { IsReadNumber result }
{
    match values[at] {
        Value::Number(it) => it,
        _ => unreachable!(),
    }
}

/// The amount in a place.
pub(crate) fn amount_at(values: &[Value], at: usize) -> Cents
    requires { StandsAt kind.Amount values.now at }
    ensures there { slice_get values.now at ≡ Some (value.Amount result) }
    ensures range { IsReadAmount result }
{
    match values[at] {
        Value::Amount(it) => it,
        _ => unreachable!(),
    }
}

/// The day in a place.
pub(crate) fn day_at(values: &[Value], at: usize) -> Day
    requires { StandsAt kind.Day values.now at }
    ensures there { slice_get values.now at ≡ Some (value.Day result) }
    ensures range { IsReadDay result }
{
    match values[at] {
        Value::Day(it) => it,
        _ => unreachable!(),
    }
}

/// The month in a place.
pub(crate) fn month_at(values: &[Value], at: usize) -> Month
    requires { StandsAt kind.Month values.now at }
    ensures there { slice_get values.now at ≡ Some (value.Month result) }
    ensures range { IsReadMonth result }
{
    match values[at] {
        Value::Month(it) => it,
        _ => unreachable!(),
    }
}

/// The remittance type in a place.
pub(crate) fn type_at(values: &[Value], at: usize) -> RemitType
    requires { StandsAt kind.Type values.now at }
    ensures { slice_get values.now at ≡ Some (value.Type result) }
{
    match values[at] {
        Value::Type(it) => it,
        _ => unreachable!(),
    }
}

/// The kind of bill in a place.
pub(crate) fn kind_at(values: &[Value], at: usize) -> LineKind
    requires { StandsAt kind.Kind values.now at }
    ensures { slice_get values.now at ≡ Some (value.Kind result) }
{
    match values[at] {
        Value::Kind(it) => it,
        _ => unreachable!(),
    }
}

/// The choice for a surplus in a place.
pub(crate) fn surplus_at(values: &[Value], at: usize) -> SurplusPlan
    requires { StandsAt kind.Surplus values.now at }
    ensures { slice_get values.now at ≡ Some (value.Surplus result) }
{
    match values[at] {
        Value::Surplus(it) => it,
        _ => unreachable!(),
    }
}

/// The choice for a shortage or a deficiency in a place.
pub(crate) fn part_at(values: &[Value], at: usize) -> PartPlan
    requires { StandsAt kind.Part values.now at }
    ensures there { slice_get values.now at ≡ Some (value.Part result) }
    ensures range { IsReadPart result }
{
    match values[at] {
        Value::Part(it) => it,
        _ => unreachable!(),
    }
}

/// The key in a place.
pub(crate) fn key_at(values: &[Value], at: usize) -> Key
    requires { StandsAt kind.Key values.now at }
    ensures there { slice_get values.now at ≡ Some (value.Key result) }
    ensures range { IsKey result }
{
    match values[at] {
        Value::Key(it) => it,
        _ => unreachable!(),
    }
}

/// What the last value of a payment says of what is over, where it is there.
pub(crate) fn over_of(values: &[Value]) -> Designation
    requires { FitsField (Some field.Designation) (slice_get values.now 3) }
    ensures { IsOver (slice_get values.now 3) result }
{
    match values.get(3) {
        Some(Value::Designation(over)) => *over,
        _ => Designation::Regular,
    }
}
