//! What custody holds for a loan.

ghost use Rattle.std.specs.Prelude.{◌≡◌, pos, ◌≤ℤ◌, ◌+ℤ◌};
ghost use Rattle.advance_book.specs.Positions.{IsSum, escrow_advanced};
ghost use Rattle.svc_world.specs.Custody as custody;
ghost use Rattle.svc_world.specs.Worlds.{IsLimited};
ghost use Rattle.svc_loan.specs.Moved.{moved_of};
ghost use Rattle.svc_custody.specs.Cash as rule;
ghost use Rattle.svc_custody.specs.Positions as positions;

use crate::position::Position;
use advance_book::{PiPosition, escrow_position, position};
use custodial_book::Totals;
use svc_base::{Cents, Day, Month, month_of};
use svc_loan::{Loan, Moved};
use svc_replay::LoanBooks;
use svc_types::Books;

/// What custody holds for a loan, in cents, where that month was remitted last.
pub(crate) fn kept_position<B: LoanBooks>(loan: &Loan<B>, remitted: Option<Month>) -> Position
    requires limited { IsLimited loan.now.held.account }
    requires remitted { IsSum loan.now.remitted }
    ensures { result ≡ positions.kept_position remitted loan.now }
{
    let books = loan.now();
    let pi = pi_of(loan, remitted);
    Position {
        totals: totals(loan.moved(), books, loan.remitted(), pi),
        suspense: books.suspense,
        escrow: books.escrow,
        held: pi.held,
    }
}

/// Where a loan's principal and interest stand, where that month was remitted last.
fn pi_of<B: LoanBooks>(loan: &Loan<B>, remitted: Option<Month>) -> PiPosition
    requires limited { IsLimited loan.now.held.account }
    requires remitted { IsSum loan.now.remitted }
    ensures held { result.held ≡ rule.held_at remitted loan.now }
    ensures advanced { result.advanced ≡ rule.advanced_at remitted loan.now }
    ensures residual { result.residual ≡ rule.residual_at remitted loan.now }
{
    let settled = is_settled(loan, remitted);
    position(collected(loan.now()), loan.remitted(), settled)
}

/// The totals of a loan by its parts.
#[tactic(auto, using(svc_base::proofs::CentsRules::cents))]
fn totals(moved: Moved, books: &Books, remitted: Cents, pi: PiPosition) -> Totals
    requires escrow { IsSum books.now.escrow }
    requires suspense { IsSum books.now.suspense }
    requires suspense_low { pos 0 ≤ℤ books.now.suspense }
    requires interest { IsSum books.now.interest }
    requires principal { IsSum books.now.principal }
    ensures received { result.received ≡ moved.received }
    ensures returned { result.returned ≡ moved.returned }
    ensures refunded { result.refunded ≡ moved.refunded }
    ensures disbursed { result.disbursed ≡ moved.disbursed }
    ensures collected { result.collected ≡ books.now.interest +ℤ books.now.principal }
    ensures fee { result.fee ≡ books.now.fee }
    ensures late { result.late ≡ books.now.late_paid }
    ensures pi_advance { result.pi_advance ≡ pi.advanced }
    ensures escrow_advance { result.escrow_advance ≡ escrow_advanced books.now.escrow }
    ensures remitted { result.remitted ≡ remitted }
    ensures residual { result.residual ≡ pi.residual }
{
    let escrow = escrow_position(books.escrow, books.suspense);
    Totals {
        received: moved.received,
        returned: moved.returned,
        refunded: moved.refunded,
        disbursed: moved.disbursed,
        collected: books.interest + books.principal,
        fee: books.fee,
        late: books.late_paid,
        pi_advance: pi.advanced,
        escrow_advance: escrow.advanced,
        remitted,
        residual: pi.residual,
    }
}

/// Interest less fee, and principal, that were collected, in cents.
#[tactic(auto, using(svc_base::proofs::CentsRules::cents))]
fn collected(books: &Books) -> Cents
    requires interest_low { pos 0 ≤ℤ books.now.interest }
    requires interest_high { books.now.interest ≤ℤ pos 100_000_000_000_000_000 }
    requires fee_low { pos 0 ≤ℤ books.now.fee }
    requires fee_high { books.now.fee ≤ℤ pos 100_000_000_000_000_000 }
    requires principal_low { pos 0 ≤ℤ books.now.principal }
    requires principal_high { books.now.principal ≤ℤ pos 100_000_000_000_000_000 }
    ensures value { result ≡ custody.collected books.now }
    ensures small { IsSum result }
{
    books.interest - books.fee + books.principal
}

/// Whether a loan is satisfied, the month of that day is remitted, and all that was due for closed
/// months is.
fn is_settled<B: LoanBooks>(loan: &Loan<B>, remitted: Option<Month>) -> bool
    ensures { result ≡ rule.is_settled_at remitted loan.now }
{
    is_remitted_by(loan.now().satisfied, remitted) && loan.remitted() == loan.dues_total()
}

/// Whether the month of a day was remitted.
fn is_remitted_by(day: Option<Day>, remitted: Option<Month>) -> bool
    ensures { result ≡ custody.is_remitted_by day remitted }
{
    match (day, remitted) {
        (Some(day), Some(last)) => month_of(day).number() <= last.number(),
        _ => false,
    }
}
