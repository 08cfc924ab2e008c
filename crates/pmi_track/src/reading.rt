//! Files of insured loans.

ghost use Rattle.std.specs.Prelude.{◌≡◌, ◌∷◌, ◌++◌, ◌≤◌, ◌^◌, [], None, Some, IfErr, IfOk, OnOk, length};
ghost use Rattle.std.specs.List.{All};
ghost use Rattle.csv.specs.Records.{fields_of};
ghost use Rattle.serv_import.specs.declared.fault.ImportFault.TheVariants as faults;
ghost use Rattle.pmi_track.specs.Rows as files;
ghost use Rattle.pmi_track.specs.Rows.{insured_in, row_of, rows_from, IsRead};

use crate::fields::read_row;
use crate::insured_loan::InsuredRow;
use csv::ByteRecord;
use serv_import::ImportFault;
use serv_rows::{Row, four_fields, read_rows};
use std::alloc::Global;
use svc_base::OutOfMemory;

/// What the rows of a file of at most 2^26 bytes say, in their order: its first row is the header
/// `loan,value,line,asked`, and each other row names a loan with mortgage insurance or is bad; `asked` is a
/// day or empty. Errs with `Header` exactly where the first row is another or there is none.
pub fn insured(alloc: Global, bytes: &[u8]) -> Result<Vec<InsuredRow>, ImportFault>
    requires size { length bytes.now ≤ 2 ^ 26 }
    ensures rows { IfOk result (λ v. insured_in bytes.now ≡ Some v.items) }
    ensures read { IfOk result (λ v. All IsRead v.items) }
    ensures header { IfErr result (λ fault. fault ≡ faults.Header → insured_in bytes.now ≡ None) }
{
    let mut rows = Vec::new(alloc);
    read_rows::<InsuredRow>(alloc, bytes, &mut rows)?;
    Ok(rows)
}

impl Row for InsuredRow {
    type Said = Vec<InsuredRow>;

    type Fault = ImportFault;

    ghost header = { files.header };

    ghost says = { λ records said. said.items ≡ rows_from 2 records };

    ghost faulty = { λ bytes fault. fault ≡ faults.Header → insured_in bytes ≡ None };

    fn is_header(record: &ByteRecord) -> bool {
        match four_fields(record) {
            Some((loan, value, line, asked)) => {
                loan == b"loan".as_slice()
                    && value == b"value".as_slice()
                    && line == b"line".as_slice()
                    && asked == b"asked".as_slice()
            }
            None => false,
        }
    }

    fn take(
        rows: &mut Vec<InsuredRow>,
        number: u32,
        record: &ByteRecord,
    ) -> Result<(), ImportFault> {
        Ok(push_row(rows, number, record)?)
    }

    #[tactic(auto, using(crate::proofs::FileLemmas::headless))]
    fn headless() -> ImportFault {
        ImportFault::Header
    }

    fn out_of_memory() -> ImportFault {
        ImportFault::OutOfMemory
    }
}

/// Appends what the row with that number says.
fn push_row(rows: &mut Vec<InsuredRow>, number: u32, row: &ByteRecord) -> Result<(), OutOfMemory>
    ensures { OnOk result (rows.new.items ≡ rows.old.items ++ row_of number (fields_of row.now) ∷ []) }
{
    match read_row(row) {
        Ok(insured) => rows.push(InsuredRow::Row(insured))?,
        Err(column) => rows.push(InsuredRow::Bad(number, column))?,
    }
    Ok(())
}
