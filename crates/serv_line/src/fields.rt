//! Reading the fields of a form, word by word.

ghost use Rattle.std.specs.Prelude.{◌≡◌, ◌≤◌, ◌∷◌, [], Some, length, map, slice_get, OnOk, IfErr, IfSome, IfNone};
ghost use Rattle.svc_forms.specs.Fields.{kind_of_field};
ghost use Rattle.svc_forms.specs.Values.{text_of_value, IsValueOf, AreValuesOf};
ghost use Rattle.serv_line.specs.Lines.{words_of, words_left};
ghost use Rattle.serv_line.specs.LineFaults.{FitsWord, IsLeftAt};

use crate::words::next_word;
use arrayvec::ArrayVec;
use svc_forms::{Field, MAX_FIELDS, Value, read_value};

/// The value of a field that the first word of a text spells, and what is left after the word.
#[inline(always)]
fn first_value(field: Field, text: &[u8]) -> Option<(Value, Option<&[u8]>)>
    ensures kind { IfSome result (λ r. IsValueOf (kind_of_field field) r.0) }
    ensures read { IfSome result (λ r. words_of text.now ≡ text_of_value r.0 ∷ words_left r.1) }
    ensures none { IfNone result (FitsWord (Some field) (slice_get (words_of text.now) 0) → ⊥) }
{
    let (word, rest) = next_word(text);
    let value = read_value(field.kind(), word)?;
    Some((value, rest))
}

/// Reads the values of some fields that the words left of a line spell, all of them. Errs with the number
/// of bytes from the first word that does not fit to the line's end; 0 where a word is missing.
#[inline(always)]
pub(crate) fn read_fields(
    fields: &[Field],
    words: Option<&[u8]>,
    values: &mut ArrayVec<Value, MAX_FIELDS>,
) -> Result<(), usize>
    requires few { length fields.now ≤ MAX_FIELDS }
    requires empty { values.old.items ≡ [] }
    ensures values { OnOk result (AreValuesOf fields.now values.new.items) }
    ensures read { OnOk result (words_left words.entry ≡ map text_of_value values.new.items) }
    ensures fault { IfErr result (IsLeftAt (λ k. FitsWord (slice_get fields.now k) (slice_get (words_left words.entry) k)) (words_left words.entry)) }
{
    let mut rest = words;
    for field in fields {
        let Some(text) = rest else {
            if !field.is_optional() {
                return Err(0);
            }
            continue;
        };
        let Some((value, after)) = first_value(*field, text) else {
            return Err(text.len());
        };
        values.push(value);
        rest = after;
    }
    match rest {
        Some(text) => Err(text.len()),
        None => Ok(()),
    }
}
