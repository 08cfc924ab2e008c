//! The rows of a file: what each one asks.

ghost use Rattle.std.specs.Prelude.{◌≡◌, ◌≢◌, ◌∷◌, ◌++◌, [], IfOk, IfErr, IfSome, IfNone, OnOk, length};
ghost use Rattle.csv.specs.Records.{fields_of};
ghost use Rattle.serv_import.specs.declared.row.RowRequest as requests;
ghost use Rattle.serv_import.specs.Rows.{Asks};
ghost use Rattle.serv_import.specs.Columns.{IsBadAt};
ghost use Rattle.serv_import.specs.Batches.{IsAnswer};
ghost use Rattle.serv_import.specs.Fields.{fields_in};

use crate::commands::read_fields;
use csv::ByteRecord;
use serv_rows::field;
use svc_base::OutOfMemory;
use svc_types::{Command, Key};

/// What a row asks.
#[derive(Clone, Copy, Debug, PartialEq, Eq)]
pub enum RowRequest {
    /// A command and its key.
    Row(Key, Command),
    /// Nothing: the row's number, counted from 1 with the header, and the first column that does not
    /// fit, counted from 1; 7 where the row has not six fields.
    Bad(u32, u32),
}

/// The six fields of a row.
#[derive(Clone, Copy)]
pub(crate) struct Fields<'a> {
    pub(crate) key: &'a [u8],
    pub(crate) word: &'a [u8],
    pub(crate) loan: &'a [u8],
    pub(crate) day: &'a [u8],
    pub(crate) amount: &'a [u8],
    pub(crate) line: &'a [u8],
}

/// The fields of a row, where there are six.
#[tactic(auto, using(crate::proofs::ColumnLemmas::six))]
pub(crate) fn six_fields(row: &ByteRecord) -> Option<Fields<'_>>
    ensures six { IfSome result (λ f. fields_of row.now ≡ fields_in f) }
    ensures none { IfNone result (length (fields_of row.now) ≢ 6) }
{
    if row.len() != 6 {
        return None;
    }
    Some(Fields {
        key: field(row, 0),
        word: field(row, 1),
        loan: field(row, 2),
        day: field(row, 3),
        amount: field(row, 4),
        line: field(row, 5),
    })
}

/// The command that a row asks, with its key. Errs with the column in which the row goes wrong.
#[tactic(auto, using(crate::proofs::ColumnLemmas::not_six))]
fn read_row(row: &ByteRecord) -> Result<(Key, Command), u32>
    ensures asked { IfOk result (λ r. Asks (fields_of row.now) r.0 r.1) }
    ensures bad { IfErr result (IsBadAt (fields_of row.now)) }
{
    let Some(fields) = six_fields(row) else {
        return Err(7);
    };
    read_fields(&fields)
}

/// Appends what the row with that number asks.
pub(crate) fn push_answer(
    answers: &mut Vec<RowRequest>,
    number: u32,
    row: &ByteRecord,
) -> Result<(), OutOfMemory>
    ensures { OnOk result ((answer : requests.RowRequest) × IsAnswer number (fields_of row.now) answer
        × (answers.new.items ≡ answers.old.items ++ (answer ∷ []))) }
{
    match read_row(row) {
        Ok((key, command)) => answers.push(RowRequest::Row(key, command))?,
        Err(column) => answers.push(RowRequest::Bad(number, column))?,
    }
    Ok(())
}
