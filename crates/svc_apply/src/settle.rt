//! Settling: what suspense pays by itself, after every event and within a designated payment.

ghost use Rattle.std.specs.Prelude.{◌≡◌, ◌+◌, ◌≤◌, pos, ◌≤ℤ◌, ◌+ℤ◌, is_some, IfSome};
ghost use Rattle.svc_base.specs.Calendar.{IsReadDay};
ghost use Rattle.svc_types.specs.Terms.{IsSound};
ghost use Rattle.svc_spec.specs.Books.{HaveSigns};
ghost use Rattle.svc_spec.specs.Installments as installments;
ghost use Rattle.svc_spec.specs.Settling as rule;
ghost use Rattle.svc_apply.specs.Conditions.{MaySettle, HasParts};

use crate::installment::{due_month, installment};
use std::sync::ledger::Ledger;
use svc_base::{Cents, Day, Steps, first_day};
use svc_types::{Books, Installment, Terms};

/// Pays the installments due by a month, then late charges where none is overdue on the day, and
/// marks a loan whose balance came to 0. It counts one step for each installment.
#[inline(always)]
pub(crate) fn settle<L: Ledger>(
    books: &mut Books,
    terms: &Terms,
    by: u32,
    day: Day,
    steps: &mut Steps<L>,
)
    requires terms { IsSound terms.now }
    requires boarded { IsReadDay terms.now.boarded }
    requires signs { HaveSigns terms.now books.old }
    requires sums { MaySettle books.old }
    ensures books { books.new ≡ rule.settled_by terms.now by day books.old }
    ensures steps { steps.new + books.old.next ≡ steps.old + books.new.next }
{
    pay_installments(books, terms, by, steps);
    take_late(books, terms, day);
    mark_satisfied(books, day);
}

/// Pays the open installments that are due by a month, as far as suspense covers them.
fn pay_installments<L: Ledger>(books: &mut Books, terms: &Terms, by: u32, steps: &mut Steps<L>)
    requires terms { IsSound terms.now }
    requires boarded { IsReadDay terms.now.boarded }
    requires signs { HaveSigns terms.now books.old }
    requires sums { MaySettle books.old }
    ensures books { books.new ≡ rule.moved terms.now (rule.moves terms.now by books.old) books.old }
    ensures steps { steps.new ≡ steps.old + rule.moves terms.now by books.old }
    ensures signs { HaveSigns terms.now books.new }
    ensures sums { MaySettle books.new }
{
    while let Some(open) = movable(books, terms, by) {
        pay_installment(books, &open);
        steps.tick();
    }
}

/// The open installment, where it is due by a month and suspense covers it.
fn movable(books: &Books, terms: &Terms, by: u32) -> Option<Installment>
    requires terms { IsSound terms.now }
    requires boarded { IsReadDay terms.now.boarded }
    requires signs { HaveSigns terms.now books.now }
    ensures movable { is_some result ≡ rule.is_movable terms.now by books.now }
    ensures value { IfSome result (λ found. found ≡ installments.installment terms.now books.now) }
    ensures parts { IfSome result (λ found. HasParts found books.now.upb) }
    ensures covered { IfSome result (λ found.
        (found.interest +ℤ found.principal +ℤ found.escrow) ≤ℤ books.now.suspense) }
{
    if books.upb <= 0 {
        return None;
    }
    // each installment asks for something
    if books.suspense <= 0 {
        return None;
    }
    if due_month(terms, books.next).number() > by {
        return None;
    }
    let open = installment(books, terms);
    if sum_of(&open, books.upb) > books.suspense {
        return None;
    }
    Some(open)
}

/// All that an installment on a balance asks, in cents.
pub(crate) fn sum_of(due: &Installment, upb: Cents) -> Cents
    requires { HasParts due.now upb }
    ensures { result ≡ due.now.interest +ℤ due.now.principal +ℤ due.now.escrow }
{
    prove!(due.principal <= upb);
    due.interest + due.principal + due.escrow
}

/// Moves the parts of an installment out of suspense.
fn pay_installment(books: &mut Books, due: &Installment)
    requires sums { MaySettle books.old }
    requires covered { (due.now.interest +ℤ due.now.principal +ℤ due.now.escrow) ≤ℤ books.old.suspense }
    requires parts { HasParts due.now books.old.upb }
    requires next { due.now.k ≤ 480 }
    ensures { books.new ≡ rule.paid_installment due.now books.old }
{
    books.suspense -= sum_of(due, books.upb);
    books.interest += due.interest;
    books.fee += due.fee;
    books.principal += due.principal;
    books.escrow += due.escrow;
    books.upb -= due.principal;
    books.next = due.k + 1;
}

/// Pays late charges, where no installment is overdue.
fn take_late(books: &mut Books, terms: &Terms, day: Day)
    requires terms { IsSound terms.now }
    requires boarded { IsReadDay terms.now.boarded }
    requires signs { HaveSigns terms.now books.old }
    requires sums { MaySettle books.old }
    ensures { books.new ≡ rule.late_taken terms.now day books.old }
{
    // an empty suspense pays nothing
    if books.suspense <= 0 {
        return;
    }
    if is_overdue(books, terms, day) {
        return;
    }
    pay_late(books);
}

/// Whether an open installment is due on or before a day.
pub(crate) fn is_overdue(books: &Books, terms: &Terms, day: Day) -> bool
    requires terms { IsSound terms.now }
    requires boarded { IsReadDay terms.now.boarded }
    requires signs { HaveSigns terms.now books.now }
    ensures { result ≡ rule.is_overdue terms.now day books.now }
{
    books.upb > 0 && first_day(due_month(terms, books.next)) <= day
}

fn pay_late(books: &mut Books)
    requires suspense { pos 0 ≤ℤ books.old.suspense }
    requires late_owed { pos 0 ≤ℤ books.old.late_owed }
    requires sums { MaySettle books.old }
    ensures { books.new ≡ rule.late_paid books.old }
{
    let paid = books.suspense.min(books.late_owed);
    books.suspense -= paid;
    books.late_owed -= paid;
    books.late_paid += paid;
}

/// Marks a loan whose balance came to 0 as satisfied on a day.
#[tactic(auto, using(svc_base::proofs::CentsRules::cents), unfolding(svc_spec::specs::Settling::marked))]
pub(crate) fn mark_satisfied(books: &mut Books, day: Day)
    ensures { books.new ≡ rule.marked day books.old }
{
    if books.upb <= 0 && books.satisfied.is_none() {
        books.satisfied = Some(day);
    }
}
