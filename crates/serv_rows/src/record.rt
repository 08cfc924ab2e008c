//! The fields of a row.

ghost use Rattle.std.specs.Prelude.{◌≡◌, ◌≢◌, ◌<◌, ◌∷◌, [], Some, IfSome, IfNone, length};
ghost use Rattle.csv.specs.Records.{fields_of, field_at};

use csv::ByteRecord;

/// The field of a row in a place, counted from 0.
#[tactic(auto, using(crate::proofs::FieldLemmas::is_there))]
pub fn field(row: &ByteRecord, place: usize) -> &[u8]
    requires { place < length (fields_of row.now) }
    ensures { field_at (fields_of row.now) place ≡ Some result.now }
{
    match row.get(place) {
        Some(field) => field,
        None => unreachable!(),
    }
}

/// The four fields of a row, in their order, where it has as many.
#[tactic(auto, using(crate::proofs::FieldLemmas::four))]
pub fn four_fields(row: &ByteRecord) -> Option<(&[u8], &[u8], &[u8], &[u8])>
    ensures four { IfSome result (λ f. fields_of row.now ≡ f.0.now ∷ f.1.now ∷ f.2.now ∷ f.3.now ∷ []) }
    ensures none { IfNone result (length (fields_of row.now) ≢ 4) }
{
    if row.len() != 4 {
        return None;
    }
    Some((field(row, 0), field(row, 1), field(row, 2), field(row, 3)))
}
