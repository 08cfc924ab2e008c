//! The texts of the custodial accounts, and of a command's rows.

ghost use Rattle.std.specs.Prelude.{◌≡◌, ◌++◌, IfOk, OnErr, OnOk};
ghost use Rattle.std.specs.List.{flat_map};
ghost use Rattle.svc_world.specs.Unsigned.{IsUnsignedCash};
ghost use Rattle.serv_line.specs.Pushed.{Keeps};
ghost use Rattle.serv_report.specs.Texts.{text_of_accounts, text_of_borrower_cash, text_of_count, text_of_custody, text_of_investor_cash, text_of_names, text_of_part, text_of_party, text_of_row, text_of_rows};

use crate::words::{
    push_count_field, push_end, push_numbered, push_signed_word, push_unsigned_field, push_word,
};
use custodial_book::{Account, Part, Party, Row};
use serv_line::{push_bytes, push_signed_field, undone};
use std::alloc::Global;
use svc_base::OutOfMemory;
use svc_world::Custody;

/// The line of the custodial accounts. Errs only where memory is short.
pub fn custodial(alloc: Global, custody: &Custody) -> Result<Vec<u8>, OutOfMemory>
    requires { IsUnsignedCash custody.now }
    ensures { IfOk result (λ text. text.items ≡ text_of_custody custody.now) }
{
    let mut out = Vec::new(alloc);
    append_custody(&mut out, custody)?;
    Ok(out)
}

/// Appends the line of the custodial accounts. Where memory is short `out` is as it was.
pub fn push_custodial(out: &mut Vec<u8>, custody: &Custody) -> Result<(), OutOfMemory>
    requires { IsUnsignedCash custody.now }
    ensures pushed { OnOk result (out.new.items ≡ out.old.items ++ text_of_custody custody.now) }
    ensures kept { OnErr result (out.new.items ≡ out.old.items) }
{
    let start = out.len();
    let pushed = append_custody(out, custody);
    undone(out, start, pushed)
}

/// Appends the line of the custodial accounts.
#[tactic(auto, using(serv_line::proofs::KeepLemmas::keeps), unfolding(crate::specs::Texts::text_of_custody))]
pub(crate) fn append_custody(out: &mut Vec<u8>, custody: &Custody) -> Result<(), OutOfMemory>
    requires { IsUnsignedCash custody.now }
    ensures pushed { OnOk result (out.new.items ≡ out.old.items ++ text_of_custody custody.now) }
    ensures kept { OnErr result (Keeps out.old.items out.new.items) }
{
    push_bytes(out, b"custodial")?;
    push_accounts(out, custody)?;
    push_borrower_cash(out, custody)?;
    push_investor_cash(out, custody)?;
    push_bytes(out, b"\n")
}

/// Appends what both accounts hold.
#[tactic(auto, using(serv_line::proofs::KeepLemmas::keeps), unfolding(crate::specs::Texts::text_of_accounts))]
fn push_accounts(out: &mut Vec<u8>, custody: &Custody) -> Result<(), OutOfMemory>
    ensures pushed { OnOk result (out.new.items ≡ out.old.items ++ text_of_accounts custody.now) }
    ensures kept { OnErr result (Keeps out.old.items out.new.items) }
{
    push_signed_field(out, b"T", custody.t)?;
    push_signed_field(out, b"P", custody.p)
}

/// Appends what the account T is made of.
#[tactic(auto, using(serv_line::proofs::KeepLemmas::keeps), unfolding(crate::specs::Texts::text_of_borrower_cash))]
fn push_borrower_cash(out: &mut Vec<u8>, custody: &Custody) -> Result<(), OutOfMemory>
    requires { IsUnsignedCash custody.now }
    ensures pushed { OnOk result (out.new.items ≡ out.old.items ++ text_of_borrower_cash custody.now) }
    ensures kept { OnErr result (Keeps out.old.items out.new.items) }
{
    push_unsigned_field(out, b"suspense", custody.suspense)?;
    push_signed_field(out, b"escrow", custody.escrow)?;
    push_unsigned_field(out, b"escrow-advance", custody.escrow_advance)
}

/// Appends what the account P is made of, and what was advanced to the investor.
#[tactic(auto, using(serv_line::proofs::KeepLemmas::keeps), unfolding(crate::specs::Texts::text_of_investor_cash))]
fn push_investor_cash(out: &mut Vec<u8>, custody: &Custody) -> Result<(), OutOfMemory>
    requires { IsUnsignedCash custody.now }
    ensures pushed { OnOk result (out.new.items ≡ out.old.items ++ text_of_investor_cash custody.now) }
    ensures kept { OnErr result (Keeps out.old.items out.new.items) }
{
    push_unsigned_field(out, b"held", custody.held)?;
    push_unsigned_field(out, b"pi-advance", custody.pi_advance)
}

/// Appends the rows of a command.
#[tactic(auto, using(serv_line::proofs::KeepLemmas::keeps), unfolding(crate::specs::Texts::text_of_rows))]
pub(crate) fn append_rows(out: &mut Vec<u8>, number: u32, rows: &[Row]) -> Result<(), OutOfMemory>
    ensures pushed { OnOk result (out.new.items ≡ out.old.items ++ text_of_rows number rows.now) }
    ensures kept { OnErr result (Keeps out.old.items out.new.items) }
{
    push_count(out, number, rows.len())?;
    push_each_row(out, rows)?;
    push_end(out)
}

/// Appends the number of a command, and how many rows it has.
#[tactic(auto, using(serv_line::proofs::KeepLemmas::keeps), unfolding(crate::specs::Texts::text_of_count))]
fn push_count(out: &mut Vec<u8>, number: u32, count: usize) -> Result<(), OutOfMemory>
    ensures pushed { OnOk result (out.new.items ≡ out.old.items ++ text_of_count number count) }
    ensures kept { OnErr result (Keeps out.old.items out.new.items) }
{
    push_numbered(out, b"rows ", number)?;
    push_count_field(out, b"count", count)?;
    push_bytes(out, b"\n")
}

/// Appends rows, a line each.
#[tactic(auto, using(serv_line::proofs::KeepLemmas::keeps))]
fn push_each_row(out: &mut Vec<u8>, rows: &[Row]) -> Result<(), OutOfMemory>
    ensures pushed { OnOk result (out.new.items ≡ out.old.items ++ flat_map text_of_row rows.now) }
    ensures kept { OnErr result (Keeps out.old.items out.new.items) }
{
    for row in rows {
        push_row(out, row)?;
    }
    Ok(())
}

/// Appends a row.
#[tactic(auto, using(serv_line::proofs::KeepLemmas::keeps), unfolding(crate::specs::Texts::text_of_row))]
fn push_row(out: &mut Vec<u8>, row: &Row) -> Result<(), OutOfMemory>
    ensures pushed { OnOk result (out.new.items ≡ out.old.items ++ text_of_row row.now) }
    ensures kept { OnErr result (Keeps out.old.items out.new.items) }
{
    push_numbered(out, b"row ", row.loan)?;
    push_names(out, row.part)?;
    push_signed_word(out, row.cents)?;
    push_bytes(out, b"\n")
}

/// Appends a part, who pays, and who is paid.
#[tactic(auto, using(serv_line::proofs::KeepLemmas::keeps), unfolding(crate::specs::Texts::text_of_names))]
fn push_names(out: &mut Vec<u8>, part: Part) -> Result<(), OutOfMemory>
    ensures pushed { OnOk result (out.new.items ≡ out.old.items ++ text_of_names part) }
    ensures kept { OnErr result (Keeps out.old.items out.new.items) }
{
    push_word(out, part_text(part))?;
    push_word(out, party_text(part.paid_from()))?;
    push_word(out, party_text(part.paid_to()))
}

/// The name of a part of custodial cash.
fn part_text(part: Part) -> &'static [u8]
    ensures { result.now ≡ text_of_part part }
{
    match part {
        Part::Received => b"Received",
        Part::Returned => b"Returned",
        Part::Refunded => b"Refunded",
        Part::Disbursed => b"Disbursed",
        Part::Collected => b"Collected",
        Part::Fee => b"Fee",
        Part::Late => b"Late",
        Part::PiAdvance => b"PiAdvance",
        Part::EscrowAdvance => b"EscrowAdvance",
        Part::Remitted => b"Remitted",
        Part::Residual => b"Residual",
    }
}

/// The name of one who pays or is paid.
fn party_text(party: Party) -> &'static [u8]
    ensures { result.now ≡ text_of_party party }
{
    match party {
        Party::Borrower => b"Borrower",
        Party::Payee => b"Payee",
        Party::Servicer => b"Servicer",
        Party::Investor => b"Investor",
        Party::Custodial(Account::T) => b"T",
        Party::Custodial(Account::P) => b"P",
    }
}
