//! The rows of a bank's list: the line that each has.

ghost use Rattle.std.specs.Prelude.{◌≡◌, IfOk, IfErr, IfSome, IfNone};
ghost use Rattle.csv.specs.Records.{fields_of};
ghost use Rattle.svc_base.specs.Text.{text_of_number};
ghost use Rattle.svc_types.specs.Requests.{IsReadNumber};
ghost use Rattle.bank_recon.specs.Rows.{text_of_kind, text_of_account, IsKindWord, IsAccountWord, IsNumberWord, IsLine, IsBadAt};

use crate::amount::read_item_amount;
use crate::item::BankItem;
use crate::line::{Line, LineKind};
use csv::ByteRecord;
use custodial_book::Account;
use serv_rows::four_fields;
use svc_base::read_number;

/// The line that a row has. Errs with the column in which the row goes wrong.
#[tactic(auto, using(crate::proofs::ColumnLemmas::not_four))]
pub(crate) fn read_row(row: &ByteRecord) -> Result<Line, u32>
    ensures line { IfOk result (IsLine (fields_of row.now)) }
    ensures bad { IfErr result (IsBadAt (fields_of row.now)) }
{
    let Some((kind, account, number, amount)) = four_fields(row) else {
        return Err(5);
    };
    let Some(kind) = read_kind(kind) else {
        return Err(1);
    };
    let Some(account) = read_account(account) else {
        return Err(2);
    };
    let Some(number) = spelled_number(number) else {
        return Err(3);
    };
    let Some(cents) = read_item_amount(amount) else {
        return Err(4);
    };
    let item = BankItem {
        account,
        number,
        cents,
    };
    Ok(Line { kind, item })
}

/// The kind of line that a field names.
fn read_kind(field: &[u8]) -> Option<LineKind>
    ensures read { IfSome result (λ k. field.now ≡ text_of_kind k) }
    ensures none { IfNone result (IsKindWord field.now → ⊥) }
{
    match field {
        b"open" => Some(LineKind::Open),
        b"bank" => Some(LineKind::Bank),
        _ => None,
    }
}

/// The account that a field names.
fn read_account(field: &[u8]) -> Option<Account>
    ensures read { IfSome result (λ a. field.now ≡ text_of_account a) }
    ensures none { IfNone result (IsAccountWord field.now → ⊥) }
{
    match field {
        b"T" => Some(Account::T),
        b"P" => Some(Account::P),
        _ => None,
    }
}

/// The number that a field spells.
fn spelled_number(field: &[u8]) -> Option<u32>
    ensures read { IfSome result (λ n. field.now ≡ text_of_number n) }
    ensures range { IfSome result IsReadNumber }
    ensures none { IfNone result (IsNumberWord field.now → ⊥) }
{
    read_number(field)
}
