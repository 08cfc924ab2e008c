//! The lines of a loan's books and of its payoff.

ghost use Rattle.std.specs.Prelude.{◌≡◌, ◌++◌, ◌≤ℤ◌, pos, OnErr, OnOk, codes};
ghost use Rattle.svc_base.specs.Text.{text_of_month};
ghost use Rattle.svc_world.specs.Unsigned.{AreUnsignedBooks};
ghost use Rattle.serv_line.specs.Pushed.{Keeps};
ghost use Rattle.serv_report.specs.Texts.{on_day, text_of_balances, text_of_books, text_of_collected, text_of_next, text_of_payoff};

use crate::words::{push_amount_word, push_numbered, push_unsigned_field, push_word};
use serv_line::{push_bytes, push_signed_field};
use svc_base::{Cents, Day, Month, OutOfMemory, write_day, write_month};
use svc_types::Books;

/// Appends a loan's books, with the month of the open installment and the whole of it.
#[tactic(auto, using(serv_line::proofs::KeepLemmas::keeps), unfolding(crate::specs::Texts::text_of_books))]
pub(crate) fn append_books(
    out: &mut Vec<u8>,
    loan: u32,
    books: &Books,
    next: Option<Month>,
    pay: Cents,
) -> Result<(), OutOfMemory>
    requires books { AreUnsignedBooks books.now }
    requires pay { pos 0 ≤ℤ pay }
    ensures pushed { OnOk result (out.new.items ≡ out.old.items ++ text_of_books loan books.now next pay) }
    ensures kept { OnErr result (Keeps out.old.items out.new.items) }
{
    push_on_day(out, b"books ", loan, books.day)?;
    push_balances(out, books, next)?;
    push_collected(out, books)?;
    push_unsigned_field(out, b"pay", pay)?;
    push_bytes(out, b"\n")
}

/// Appends what a loan owes, and what is held for it.
#[tactic(auto, using(serv_line::proofs::KeepLemmas::keeps), unfolding(crate::specs::Texts::text_of_balances))]
fn push_balances(out: &mut Vec<u8>, books: &Books, next: Option<Month>) -> Result<(), OutOfMemory>
    requires { AreUnsignedBooks books.now }
    ensures pushed { OnOk result (out.new.items ≡ out.old.items ++ text_of_balances books.now next) }
    ensures kept { OnErr result (Keeps out.old.items out.new.items) }
{
    push_unsigned_field(out, b"upb", books.upb)?;
    push_next(out, next)?;
    push_signed_field(out, b"escrow", books.escrow)?;
    push_unsigned_field(out, b"suspense", books.suspense)?;
    push_unsigned_field(out, b"late", books.late_owed)
}

/// Appends the month of the open installment, or a dash.
#[tactic(auto, using(serv_line::proofs::KeepLemmas::keeps))]
pub(crate) fn push_next(out: &mut Vec<u8>, next: Option<Month>) -> Result<(), OutOfMemory>
    ensures pushed { OnOk result (out.new.items ≡ out.old.items ++ text_of_next next) }
    ensures kept { OnErr result (Keeps out.old.items out.new.items) }
{
    match next {
        None => push_bytes(out, b" next -"),
        Some(month) => push_next_month(out, month),
    }
}

/// Appends the month of the open installment.
#[tactic(auto, using(serv_line::proofs::KeepLemmas::keeps))]
fn push_next_month(out: &mut Vec<u8>, month: Month) -> Result<(), OutOfMemory>
    ensures pushed { OnOk result (out.new.items ≡ out.old.items ++ (codes " next " ++ text_of_month month)) }
    ensures kept { OnErr result (Keeps out.old.items out.new.items) }
{
    push_bytes(out, b" next ")?;
    push_bytes(out, &write_month(month))
}

/// Appends what a line begins with that speaks of a loan on a day.
#[tactic(auto, using(serv_line::proofs::KeepLemmas::keeps))]
pub(crate) fn push_on_day(
    out: &mut Vec<u8>,
    name: &[u8],
    loan: u32,
    day: Day,
) -> Result<(), OutOfMemory>
    ensures pushed { OnOk result (out.new.items ≡ out.old.items ++ on_day name.now loan day) }
    ensures kept { OnErr result (Keeps out.old.items out.new.items) }
{
    push_numbered(out, name, loan)?;
    push_word(out, &write_day(day))
}

/// Appends what was collected of a loan.
#[tactic(auto, using(serv_line::proofs::KeepLemmas::keeps), unfolding(crate::specs::Texts::text_of_collected))]
fn push_collected(out: &mut Vec<u8>, books: &Books) -> Result<(), OutOfMemory>
    requires { AreUnsignedBooks books.now }
    ensures pushed { OnOk result (out.new.items ≡ out.old.items ++ text_of_collected books.now) }
    ensures kept { OnErr result (Keeps out.old.items out.new.items) }
{
    push_unsigned_field(out, b"interest", books.interest)?;
    push_unsigned_field(out, b"fee", books.fee)?;
    push_unsigned_field(out, b"principal", books.principal)?;
    push_unsigned_field(out, b"charges", books.late_paid)
}

/// Appends what pays a loan off on a day.
#[tactic(auto, using(serv_line::proofs::KeepLemmas::keeps), unfolding(crate::specs::Texts::text_of_payoff))]
pub(crate) fn append_payoff(
    out: &mut Vec<u8>,
    loan: u32,
    day: Day,
    cents: Cents,
) -> Result<(), OutOfMemory>
    requires { pos 0 ≤ℤ cents }
    ensures pushed { OnOk result (out.new.items ≡ out.old.items ++ text_of_payoff loan day cents) }
    ensures kept { OnErr result (Keeps out.old.items out.new.items) }
{
    push_on_day(out, b"payoff ", loan, day)?;
    push_amount_word(out, cents)?;
    push_bytes(out, b"\n")
}
