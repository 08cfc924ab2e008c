//! Reading the rows of a file.

ghost use Rattle.std.specs.Prelude.{◌≡◌, ℕ, ◌+◌, ◌<◌, ◌≤◌, ◌^◌, ◌∷◌, ◌++◌, [], List, IfErr, OnOk, length};
ghost use Rattle.csv.specs.Records.{fields_of};
ghost use Rattle.serv_rows.specs.Files.{records_of, IsFile};
ghost use Rattle.serv_rows.specs.Taking.{IsTaken};

use crate::row::Row;
use csv::{ByteRecord, ReaderBuilder};
use std::alloc::Global;

/// Adds what the rows of a file of at most 2^26 bytes say, in their order, to what is empty yet. The first row must
/// be the header. Errs with the first fault, or where memory is short. One row is kept at a time.
pub fn read_rows<R: Row>(alloc: Global, bytes: &[u8], said: &mut R::Said) -> Result<(), R::Fault>
    requires size { length bytes.now ≤ 2 ^ 26 }
    requires nothing { R.says [] said.old }
    ensures read { OnOk result (IsFile R.header R.says bytes.now said.new) }
    ensures fault { IfErr result (R.faulty bytes.now) }
{
    let reader = ReaderBuilder::new()
        .has_headers(false)
        .flexible(true)
        .from_reader(alloc, bytes);
    let mut number = 1;
    for record in reader.into_byte_records() {
        let Ok(record) = record else {
            return Err(R::out_of_memory());
        };
        take_row::<R>(said, number, &record)?;
        number += 1;
    }
    if number == 1 {
        return Err(R::headless());
    }
    Ok(())
}

/// Takes the row with that number: the first must be the header.
fn take_row<R: Row>(said: &mut R::Said, number: u32, row: &ByteRecord) -> Result<(), R::Fault>
    requires { 0 < number }
    ensures taken { (rows : List (List (List ℕ))) → number ≡ length rows + 1
        → IsTaken R.header R.says rows said.old
        → OnOk result (IsTaken R.header R.says (rows ++ fields_of row.now ∷ []) said.new) }
    ensures fault { IfErr result (λ fault. (bytes : List ℕ) (rows after : List (List (List ℕ)))
        → records_of bytes ≡ rows ++ fields_of row.now ∷ after
        → number ≡ length rows + 1 → IsTaken R.header R.says rows said.old → R.faulty bytes fault) }
{
    if number > 1 {
        return R::take(said, number, row);
    }
    if R::is_header(row) {
        Ok(())
    } else {
        Err(R::headless())
    }
}
