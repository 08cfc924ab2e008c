//! The fields of a row, and the loan that they name.

ghost use Rattle.std.specs.Prelude.{◌≡◌, Ok, Err, IfErr, IfOk};
ghost use Rattle.csv.specs.Records.{fields_of};
ghost use Rattle.pmi_track.specs.Rows as rows;

use crate::insured_loan::InsuredLoan;
use csv::ByteRecord;
use serv_rows::four_fields;
use svc_base::{Cents, Day, read_amount, read_day, read_number};

/// The loan that a row names. Errs with the first column that does not fit.
pub(crate) fn read_row(row: &ByteRecord) -> Result<InsuredLoan, u32>
    ensures named { IfOk result (λ insured. rows.insured_of (fields_of row.now) ≡ Ok insured) }
    ensures bad { IfErr result (λ column. rows.insured_of (fields_of row.now) ≡ Err column) }
{
    let Some((loan, value, line, asked)) = four_fields(row) else {
        return Err(5);
    };
    let Some(loan) = number_in(loan) else {
        return Err(1);
    };
    let Some(value) = value_in(value) else {
        return Err(2);
    };
    let Some(line) = number_in(line) else {
        return Err(3);
    };
    let Some(asked) = asked_in(asked) else {
        return Err(4);
    };
    Ok(InsuredLoan {
        loan,
        value,
        line,
        asked,
    })
}

/// The number that a field spells.
fn number_in(text: &[u8]) -> Option<u32>
    ensures { result ≡ rows.number_in text.now }
{
    read_number(text)
}

/// The amount above 0 that a field spells, in cents.
fn value_in(text: &[u8]) -> Option<Cents>
    ensures { result ≡ rows.value_in text.now }
{
    match read_amount(text) {
        Some(value) if value > 0 => Some(value),
        _ => None,
    }
}

/// The day that a field spells; no day where it is empty.
fn asked_in(text: &[u8]) -> Option<Option<Day>>
    ensures { result ≡ rows.asked_in text.now }
{
    if text.is_empty() {
        return Some(None);
    }
    match day_in(text) {
        Some(day) => Some(Some(day)),
        None => None,
    }
}

/// The day that a field spells.
fn day_in(text: &[u8]) -> Option<Day>
    ensures { result ≡ rows.day_in text.now }
{
    read_day(text).ok()
}
