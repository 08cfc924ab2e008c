//! What a file asks.

ghost use Rattle.std.specs.Prelude.{List, ◌≡◌, ◌≤◌, ◌^◌, ◌↔◌, IsTrue, IfOk, IfErr, length};
ghost use Rattle.csv.specs.Records.{fields_of};
ghost use Rattle.serv_import.specs.declared.fault.ImportFault.TheVariants as faults;
ghost use Rattle.serv_import.specs.declared.row.RowRequest as requests;
ghost use Rattle.serv_import.specs.Rows as rows;
ghost use Rattle.serv_import.specs.Fields.{fields_in};
ghost use Rattle.serv_import.specs.Batches.{AreAnswers, HasHeader, IsBatch};

use crate::fault::ImportFault;
use crate::row::{Fields, RowRequest, push_answer, six_fields};
use csv::ByteRecord;
use serv_rows::{Row, read_rows};
use std::alloc::Global;

/// What the rows of a file of at most 2^26 bytes ask, in their order: its first row is the header
/// `key,do,loan,day,amount,line`, and each other row asks a command or is bad. Errs with `Header`
/// exactly where the first row is another or there is none. One row is kept at a time.
pub fn batch(alloc: Global, bytes: &[u8]) -> Result<Vec<RowRequest>, ImportFault>
    requires size { length bytes.now ≤ 2 ^ 26 }
    ensures read { IfOk result (λ v. IsBatch bytes.now v.items) }
    ensures only { (answers : List requests.RowRequest) → IsBatch bytes.now answers
        → IfOk result (λ v. v.items ≡ answers) }
    ensures header { IfErr result (λ fault. fault ≡ faults.Header → HasHeader bytes.now → ⊥) }
{
    let mut answers = Vec::new(alloc);
    read_rows::<RowRequest>(alloc, bytes, &mut answers)?;
    Ok(answers)
}

impl Row for RowRequest {
    type Said = Vec<RowRequest>;

    type Fault = ImportFault;

    ghost header = { rows.header };

    ghost says = { λ records answers. AreAnswers 2 records answers.items };

    ghost faulty = { λ bytes fault. fault ≡ faults.Header → HasHeader bytes → ⊥ };

    fn is_header(record: &ByteRecord) -> bool {
        match six_fields(record) {
            Some(fields) => names_columns(&fields),
            None => false,
        }
    }

    fn take(
        answers: &mut Vec<RowRequest>,
        number: u32,
        record: &ByteRecord,
    ) -> Result<(), ImportFault> {
        Ok(push_answer(answers, number, record)?)
    }

    fn headless() -> ImportFault {
        ImportFault::Header
    }

    fn out_of_memory() -> ImportFault {
        ImportFault::OutOfMemory
    }
}

/// Whether fields name the columns of a file.
fn names_columns(fields: &Fields<'_>) -> bool
    ensures { IsTrue result ↔ (fields_in fields.now ≡ rows.header) }
{
    fields.key == b"key".as_slice()
        && fields.word == b"do".as_slice()
        && fields.loan == b"loan".as_slice()
        && fields.day == b"day".as_slice()
        && fields.amount == b"amount".as_slice()
        && fields.line == b"line".as_slice()
}
