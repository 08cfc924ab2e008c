//! Reading a loan's line of a statement, and the words of a line.

ghost use Rattle.std.specs.Prelude.{◌≡◌, ◌≢◌, ◌==◌, ◌↔◌, ◌∷◌, ℕ, List, Option, IfSome, IfNone, IsTrue, map};
ghost use Rattle.std.specs.List.{position};
ghost use Rattle.serv_line.specs.Lines.{words_of, words_left};
ghost use Rattle.servicing_transfer.specs.declared.statement_line.StatementLine as lines;
ghost use Rattle.servicing_transfer.specs.FieldValues.{Spell, said};
ghost use Rattle.servicing_transfer.specs.declared.loan_fields.Value as vals;
ghost use Rattle.servicing_transfer.specs.StatementTexts.{loan_line};
ghost use Rattle.servicing_transfer.specs.Stated.{IsStatedLine};

use crate::loan_fields::{FIELD_COUNT, FIELDS, FieldKind, Value, line_of, read_value};
use crate::statement_line::StatementLine;
use serv_line::next_word;

/// The word after a name, where the words begin with the name, and what is left after it.
pub(crate) fn word_after<'a>(
    name: &[u8],
    words: Option<&'a [u8]>,
) -> Option<(&'a [u8], Option<&'a [u8]>)>
    ensures found { IfSome result (λ r. words_left words.entry ≡ name.now ∷ r.0.now ∷ words_left r.1) }
    ensures none { IfNone result ((word : List ℕ) (more : List (List ℕ)) → words_left words.entry ≢ name.now ∷ word ∷ more) }
{
    let (first, rest) = next_word(words?);
    if first != name {
        return None;
    }
    Some(next_word(rest?))
}

/// The values that the words of a line spell, each after the name of its field.
fn read_values(
    fields: &[(&[u8], FieldKind); FIELD_COUNT],
    line: &[u8],
) -> Option<[Value; FIELD_COUNT]>
    ensures read { IfSome result (λ values. Spell (map said fields.now) values (words_of line.now)) }
    ensures none { IfNone result ((values : List vals.Value) → Spell (map said fields.now) values (words_of line.now) → ⊥) }
{
    let mut values = [Value::Number(0); FIELD_COUNT];
    let mut rest = Some(line);
    for (i, (name, kind)) in fields.iter().enumerate() {
        let (word, more) = word_after(name, rest)?;
        values[i] = read_value(*kind, word)?;
        rest = more;
    }
    match rest {
        Some(_) => None,
        None => Some(values),
    }
}

/// What a loan's line says. Each has one text.
pub(crate) fn read_loan_line(line: &[u8]) -> Option<StatementLine>
    ensures read { IfSome result (λ s. line.now ≡ loan_line s) }
    ensures range { IfSome result IsStatedLine }
    ensures none { IfNone result ((s : lines.StatementLine) → IsStatedLine s → line.now ≢ loan_line s) }
{
    let values = read_values(&FIELDS, line)?;
    Some(line_of(&values))
}
