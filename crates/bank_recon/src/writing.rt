//! The lines of a reconciliation's text.

ghost use Rattle.std.specs.Prelude.{◌≡◌, ◌++◌, OnOk};
ghost use Rattle.std.specs.List.{flat_map};
ghost use Rattle.serv_line.specs.Replies.{signed_field};
ghost use Rattle.bank_recon.specs.Rows as rows;
ghost use Rattle.bank_recon.specs.Texts as texts;

use crate::item::BankItem;
use crate::recon::Reason;
use custodial_book::Account;
use serv_line::{push_balance, push_bytes, push_number};
use svc_base::{OutOfMemory, push_signed};

/// The name of an account.
fn text_of_account(account: Account) -> &'static [u8]
    ensures { result.now ≡ rows.text_of_account account }
{
    match account {
        Account::T => b"T",
        Account::P => b"P",
    }
}

/// Appends an account, a number and an amount.
#[tactic(auto, unfolding(crate::specs::Texts::text_of_item))]
fn push_item(out: &mut Vec<u8>, item: &BankItem) -> Result<(), OutOfMemory>
    ensures { OnOk result (out.new.items ≡ out.old.items ++ texts.text_of_item item.now) }
{
    push_bytes(out, text_of_account(item.account))?;
    push_bytes(out, b" ")?;
    push_number(out, item.number)?;
    push_bytes(out, b" ")?;
    push_balance(out, item.cents)
}

/// Appends a reason.
fn push_reason(out: &mut Vec<u8>, reason: Reason) -> Result<(), OutOfMemory>
    ensures { OnOk result (out.new.items ≡ out.old.items ++ texts.text_of_reason reason) }
{
    match reason {
        Reason::NoSuch => push_bytes(out, b"NoSuch"),
        Reason::Extra => push_bytes(out, b"Extra"),
        Reason::Amount(cents) => {
            push_bytes(out, b"Amount ")?;
            push_balance(out, cents)
        }
    }
}

/// Appends the line of a span of commands.
#[tactic(auto, unfolding(crate::specs::Texts::span_line))]
pub(crate) fn push_span(out: &mut Vec<u8>, first: u32, last: u32) -> Result<(), OutOfMemory>
    ensures { OnOk result (out.new.items ≡ out.old.items ++ texts.span_line first last) }
{
    push_bytes(out, b"reconcile ")?;
    push_number(out, first)?;
    push_bytes(out, b" ")?;
    push_number(out, last)?;
    push_bytes(out, b"\n")
}

/// Appends the line of an open item.
#[tactic(auto, unfolding(crate::specs::Texts::open_line))]
fn push_open_item(out: &mut Vec<u8>, item: &BankItem) -> Result<(), OutOfMemory>
    ensures { OnOk result (out.new.items ≡ out.old.items ++ texts.open_line item.now) }
{
    push_bytes(out, b"open ")?;
    push_item(out, item)?;
    push_bytes(out, b"\n")
}

/// Appends the lines of open items.
pub(crate) fn push_open_items(out: &mut Vec<u8>, items: &[BankItem]) -> Result<(), OutOfMemory>
    ensures { OnOk result (out.new.items ≡ out.old.items ++ flat_map texts.open_line items.now) }
{
    for item in items {
        push_open_item(out, item)?;
    }
    Ok(())
}

/// Appends the line of a line of the bank that is not booked.
#[tactic(auto, unfolding(crate::specs::Texts::unbooked_line))]
fn push_unbooked(out: &mut Vec<u8>, line: &(BankItem, Reason)) -> Result<(), OutOfMemory>
    ensures { OnOk result (out.new.items ≡ out.old.items ++ texts.unbooked_line line.now) }
{
    push_bytes(out, b"unbooked ")?;
    push_item(out, &line.0)?;
    push_bytes(out, b" ")?;
    push_reason(out, line.1)?;
    push_bytes(out, b"\n")
}

/// Appends the lines of lines of the bank that are not booked.
pub(crate) fn push_all_unbooked(
    out: &mut Vec<u8>,
    lines: &[(BankItem, Reason)],
) -> Result<(), OutOfMemory>
    ensures { OnOk result (out.new.items ≡ out.old.items ++ flat_map texts.unbooked_line lines.now) }
{
    for line in lines {
        push_unbooked(out, line)?;
    }
    Ok(())
}

/// Appends a name and a sum, a space before each.
#[tactic(auto, unfolding(serv_line::specs::Replies::signed_field))]
fn push_sum(out: &mut Vec<u8>, name: &[u8], sum: i128) -> Result<(), OutOfMemory>
    ensures { OnOk result (out.new.items ≡ out.old.items ++ signed_field name.now sum) }
{
    push_bytes(out, b" ")?;
    push_bytes(out, name)?;
    push_bytes(out, b" ")?;
    push_signed(out, sum)
}

/// What the books say of an account, what the bank says, and the sums by which they differ.
#[derive(Clone, Copy)]
pub(crate) struct AccountSums {
    pub book: i128,
    pub bank: i128,
    pub outstanding: i128,
    pub unbooked: i128,
}

/// Appends the sums of an account.
#[tactic(auto, unfolding(crate::specs::Texts::text_of_sums))]
fn push_sums(out: &mut Vec<u8>, sums: &AccountSums) -> Result<(), OutOfMemory>
    ensures { OnOk result (out.new.items ≡ out.old.items ++ texts.text_of_sums
        sums.now.book sums.now.bank sums.now.outstanding sums.now.unbooked) }
{
    push_sum(out, b"book", sums.book)?;
    push_sum(out, b"bank", sums.bank)?;
    push_sum(out, b"open", sums.outstanding)?;
    push_sum(out, b"unbooked", sums.unbooked)
}

/// Appends the line of an account.
#[tactic(auto, unfolding(crate::specs::Texts::sums_line))]
pub(crate) fn push_account(
    out: &mut Vec<u8>,
    account: Account,
    sums: &AccountSums,
) -> Result<(), OutOfMemory>
    ensures { OnOk result (out.new.items ≡ out.old.items ++ texts.sums_line account
        sums.now.book sums.now.bank sums.now.outstanding sums.now.unbooked) }
{
    push_bytes(out, b"account ")?;
    push_bytes(out, text_of_account(account))?;
    push_sums(out, sums)?;
    push_bytes(out, b"\n")
}
