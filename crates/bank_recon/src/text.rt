//! The text of a reconciliation.

ghost use Rattle.std.specs.Prelude.{◌≡◌, ◌++◌, ◌≤◌, ◌^◌, ℕ, List, IfOk, OnOk, length};
ghost use Rattle.custodial_book.specs.declared.part.Account.TheVariants.{T, P};
ghost use Rattle.bank_recon.specs.Reconciling.{sum_in, lines_of};
ghost use Rattle.serv_rows.specs.Texts as row_texts;
ghost use Rattle.bank_recon.specs.Texts as texts;

use crate::fault::ReconFault;
use crate::item::BankItem;
use crate::recon::{Recon, recon_of};
use crate::span::items_of_span;
use crate::statement::{Statement, items};
use crate::sums::{sum_of_items, sum_of_lines};
use crate::writing::{AccountSums, push_account, push_all_unbooked, push_open_items, push_span};
use custodial_book::Account;
use serv_line::push_bytes;
use serv_rows::push_bad_row;
use std::alloc::Global;
use svc_base::OutOfMemory;
use svc_core::Core;
use svc_replay::LoanBooks;

/// The sums of an account.
fn sums_of(account: Account, items: &[BankItem], bank: &[BankItem], recon: &Recon) -> AccountSums
    ensures book { result.book ≡ sum_in account items.now }
    ensures bank { result.bank ≡ sum_in account bank.now }
    ensures outstanding { result.outstanding ≡ sum_in account recon.now.outstanding.items }
    ensures unbooked { result.unbooked ≡ sum_in account (lines_of recon.now.unbooked.items) }
{
    AccountSums {
        book: sum_of_items(account, items),
        bank: sum_of_items(account, bank),
        outstanding: sum_of_items(account, &recon.outstanding),
        unbooked: sum_of_lines(account, &recon.unbooked),
    }
}

/// Appends the line of an account.
fn push_account_line(
    out: &mut Vec<u8>,
    account: Account,
    items: &[BankItem],
    bank: &[BankItem],
    recon: &Recon,
) -> Result<(), OutOfMemory>
    ensures { OnOk result (out.new.items ≡ out.old.items ++ texts.account_line account
        (sum_in account items.now) bank.now recon.now.outstanding.items
        (lines_of recon.now.unbooked.items)) }
{
    push_account(out, account, &sums_of(account, items, bank, recon))
}

/// Appends what is found of some items and the lines of the bank.
#[tactic(auto, unfolding(crate::specs::Texts::text_of_found))]
fn push_found(
    out: &mut Vec<u8>,
    items: &[BankItem],
    bank: &[BankItem],
    recon: &Recon,
) -> Result<(), OutOfMemory>
    ensures { OnOk result (out.new.items ≡ out.old.items ++ texts.text_of_found
        (sum_in T items.now) (sum_in P items.now) bank.now recon.now.outstanding.items
        recon.now.unbooked.items) }
{
    push_open_items(out, &recon.outstanding)?;
    push_all_unbooked(out, &recon.unbooked)?;
    push_account_line(out, Account::T, items, bank, recon)?;
    push_account_line(out, Account::P, items, bank, recon)?;
    push_bytes(out, b"end\n")
}

/// The reconciliation of a span with what a bank's list says.
fn text_of_lists<B: LoanBooks>(
    alloc: Global,
    core: &Core<B>,
    first: u32,
    last: u32,
    input: &Statement,
) -> Result<Vec<u8>, OutOfMemory>
    requires first { 1 ≤ first }
    requires last { first ≤ last }
    ensures { IfOk result (λ t. t.items ≡ texts.text_of_recon
        input.now.carried.items input.now.bank.items first last core.now.history) }
{
    let items = items_of_span(alloc, core, &input.carried, first, last)?;
    let recon = recon_of(alloc, &items, &input.bank)?;
    let mut out = Vec::new(alloc);
    push_span(&mut out, first, last)?;
    push_found(&mut out, &items, &input.bank, &recon)?;
    Ok(out)
}

/// The row and the column of a list that do not fit, as a text.
fn text_of_bad_row(alloc: Global, row: u32, column: u32) -> Result<Vec<u8>, OutOfMemory>
    ensures { IfOk result (λ t. t.items ≡ row_texts.text_of_bad_row row column) }
{
    let mut out = Vec::new(alloc);
    push_bad_row(&mut out, row, column)?;
    Ok(out)
}

/// The text of the reconciliation of the commands from one number to another with a bank's list of at most
/// 2^26 bytes: the span, the open items, the lines that are not booked, and the sums of both accounts; or the
/// row and the column of the list that do not fit, alone. Errs only where memory is short.
pub fn recon_text<B: LoanBooks>(
    alloc: Global,
    core: &Core<B>,
    first: u32,
    last: u32,
    bytes: &[u8],
) -> Result<Vec<u8>, OutOfMemory>
    requires size { length bytes.now ≤ 2 ^ 26 }
    requires first { 1 ≤ first }
    requires last { first ≤ last }
    ensures text { IfOk result (λ t. texts.IsReconText core.now.history first last bytes.now t.items) }
    ensures only { (text : List ℕ) → texts.IsReconText core.now.history first last bytes.now text
        → IfOk result (λ t. t.items ≡ text) }
{
    match items(alloc, bytes) {
        Ok(input) => text_of_lists(alloc, core, first, last, &input),
        Err(ReconFault::Bad(row, column)) => text_of_bad_row(alloc, row, column),
        Err(ReconFault::OutOfMemory) => Err(OutOfMemory),
    }
}
