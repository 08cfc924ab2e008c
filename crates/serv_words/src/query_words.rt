//! The words of a query on the command line.

ghost use Rattle.std.specs.Prelude.{◌≡◌, ◌≤◌, List, Some, length, map, IfNone, IfSome};
ghost use Rattle.svc_types.specs.Requests.{IsQuery};
ghost use Rattle.svc_types.specs.declared.requests.Query as queries;
ghost use Rattle.svc_forms.specs.declared.value.Value as value;
ghost use Rattle.svc_forms.specs.Values.{AreValuesOf, text_of_value};
ghost use Rattle.serv_words.specs.Words.{IsAsking, words_of_query};

use arrayvec::ArrayVec;
use svc_forms::{Field, MAX_FIELDS, Value, query_of, question_named, read_value};
use svc_types::Query;

/// The query that words ask: after a journal's name and `ask` they are those that its line has after `?`.
pub fn read_asking(words: &[&str]) -> Option<Query>
    ensures asked { IfSome result (IsAsking (map (λ w. w.now) words.now)) }
    ensures only { (q : queries.Query) → IsAsking (map (λ w. w.now) words.now) q → result ≡ Some q }
{
    match words {
        [journal, word, query @ ..] => {
            if journal.is_empty() || *word != "ask" {
                return None;
            }
            read_query(query)
        }
        _ => None,
    }
}

/// The query whose words these are.
fn read_query(words: &[&str]) -> Option<Query>
    ensures well { IfSome result IsQuery }
    ensures read { IfSome result (λ q. map (λ w. w.now) words.now ≡ words_of_query q) }
    ensures only { (q : queries.Query) → IsQuery q → map (λ w. w.now) words.now ≡ words_of_query q
        → result ≡ Some q }
{
    match words {
        [name, rest @ ..] => {
            let question = question_named(name.as_bytes())?;
            let values = read_values(question.fields(), rest)?;
            Some(query_of(question, &values))
        }
        _ => None,
    }
}

/// The values of some fields, of which none may be left out: a word spells each.
fn read_values(fields: &[Field], words: &[&str]) -> Option<ArrayVec<Value, MAX_FIELDS>>
    requires few { length fields.now ≤ MAX_FIELDS }
    ensures values { IfSome result (λ values. AreValuesOf fields.now values.items) }
    ensures read { IfSome result (λ values. map (λ w. w.now) words.now ≡ map text_of_value values.items) }
    ensures none { IfNone result ((values : List value.Value) → AreValuesOf fields.now values
        → length values ≡ length fields.now → map (λ w. w.now) words.now ≡ map text_of_value values → ⊥) }
{
    if fields.len() != words.len() {
        return None;
    }
    let mut values = ArrayVec::new();
    for (at, word) in words.iter().enumerate() {
        values.push(read_value(fields[at].kind(), word.as_bytes())?);
    }
    Some(values)
}
