//! A bank's list: what stood open, and what the bank shows.

ghost use Rattle.std.specs.Prelude.{◌≡◌, ◌≤◌, ◌^◌, ◌↔◌, IsTrue, IfOk, IfErr, OnOk, length};
ghost use Rattle.bank_recon.specs.declared.fault.ReconFault.TheVariants as faults;
ghost use Rattle.bank_recon.specs.Rows as rows;
ghost use Rattle.bank_recon.specs.Reading.{Reading, Lists, IsReading, IsAnswered, IsFault};
ghost use Rattle.bank_recon.specs.Taking.{HasLines, TakesLine};

use crate::fault::ReconFault;
use crate::item::BankItem;
use crate::line::{Line, LineKind};
use crate::row::read_row;
use csv::ByteRecord;
use serv_rows::{Row, four_fields, read_rows};
use std::alloc::Global;

/// What a bank's list says, each in its order.
#[derive(Debug, Drop)]
pub struct Statement {
    /// The items that an earlier reconciliation left open.
    pub carried: Vec<BankItem>,
    /// The movements that the bank shows.
    pub bank: Vec<BankItem>,
}

/// What a list of at most 2^26 bytes says: its first row is the header `kind,account,number,amount`, and each
/// other row is an `open` item or a `bank` line of the account `T` or `P`, with a command's number and an
/// amount. Errs with exactly the first row that does not fit, or where memory is short. One row is kept at a
/// time.
pub fn items(alloc: Global, bytes: &[u8]) -> Result<Statement, ReconFault>
    requires size { length bytes.now ≤ 2 ^ 26 }
    ensures read { IfOk result (λ s. IsReading bytes.now (Lists s.carried.items s.bank.items)) }
    ensures bad { IfErr result (IsFault bytes.now) }
    ensures only { (reading : Reading) → IsReading bytes.now reading → IsAnswered result reading }
{
    read_list(alloc, bytes)
}

/// What a list says.
fn read_list(alloc: Global, bytes: &[u8]) -> Result<Statement, ReconFault>
    requires size { length bytes.now ≤ 2 ^ 26 }
    ensures read { IfOk result (λ s. IsReading bytes.now (Lists s.carried.items s.bank.items)) }
    ensures bad { IfErr result (IsFault bytes.now) }
{
    let mut statement = Statement {
        carried: Vec::new(alloc),
        bank: Vec::new(alloc),
    };
    read_rows::<Line>(alloc, bytes, &mut statement)?;
    Ok(statement)
}

impl Row for Line {
    type Said = Statement;

    type Fault = ReconFault;

    ghost header = { rows.header };

    ghost says = { λ records s. HasLines records s.carried.items s.bank.items };

    ghost faulty = { λ bytes fault. IsFault bytes fault };

    fn is_header(record: &ByteRecord) -> bool {
        match four_fields(record) {
            Some((kind, account, number, amount)) => {
                kind == b"kind".as_slice()
                    && account == b"account".as_slice()
                    && number == b"number".as_slice()
                    && amount == b"amount".as_slice()
            }
            None => false,
        }
    }

    fn take(statement: &mut Statement, number: u32, record: &ByteRecord) -> Result<(), ReconFault> {
        match read_row(record) {
            Ok(line) => push_line(statement, &line),
            Err(column) => Err(ReconFault::Bad(number, column)),
        }
    }

    #[tactic(auto, using(crate::proofs::ReadingLemmas::no_header))]
    fn headless() -> ReconFault {
        ReconFault::Bad(1, 1)
    }

    fn out_of_memory() -> ReconFault {
        ReconFault::OutOfMemory
    }
}

/// Appends a line's item to the list of its kind.
fn push_line(statement: &mut Statement, line: &Line) -> Result<(), ReconFault>
    ensures taken { OnOk result (TakesLine line.now statement.old statement.new) }
    ensures fault { IfErr result (λ f. f ≡ faults.OutOfMemory) }
{
    match line.kind {
        LineKind::Open => statement.carried.push(line.item)?,
        LineKind::Bank => statement.bank.push(line.item)?,
    }
    Ok(())
}
