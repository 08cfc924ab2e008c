//! What brings a loan current: the installments that are due and not paid.

ghost use Rattle.std.specs.Prelude.{◌≡◌, ◌+◌, ◌≤◌, pos, ◌≤ℤ◌, ◌+ℤ◌};
ghost use Rattle.svc_base.specs.Calendar.{IsReadDay};
ghost use Rattle.svc_types.specs.Terms.{IsSound};
ghost use Rattle.svc_spec.specs.Books.{AreBooks, HaveSigns};
ghost use Rattle.svc_spec.specs.Arrears as rule;
ghost use Rattle.svc_apply.specs.Conditions.{HasParts, left_behind};

use crate::installment::installment;
use crate::settle::{is_overdue, sum_of};
use std::sync::ledger::Ledger;
use svc_base::{Cents, Day, Steps};
use svc_types::{Arrears, Books, Installment, Terms};

/// Some installments: how many, and what they ask together, in cents.
#[derive(Clone, Copy)]
struct Asked {
    installments: u32,
    sum: Cents,
}

/// What brings a loan current on a day: the installments from the open one on that are due by then,
/// each on the balance that those before it leave, and the least payment after which none of them is
/// open. It counts one step for each installment.
pub fn arrears<L: Ledger>(books: &Books, terms: &Terms, day: Day, steps: &mut Steps<L>) -> Arrears
    requires terms { IsSound terms.now }
    requires boarded { IsReadDay terms.now.boarded }
    requires books { AreBooks terms.now books.now }
    ensures value { result ≡ rule.arrears_of terms.now day books.now }
    ensures steps { steps.new ≡ steps.old + rule.installments_due terms.now day books.now }
{
    let asked = asked_by(books, terms, day, steps);
    Arrears {
        installments: asked.installments,
        due: asked.sum,
        suspense: books.suspense,
        pay: (asked.sum - books.suspense).max(0),
        late: books.late_owed,
    }
}

/// The installments that are due on or before a day.
fn asked_by<L: Ledger>(books: &Books, terms: &Terms, day: Day, steps: &mut Steps<L>) -> Asked
    requires terms { IsSound terms.now }
    requires boarded { IsReadDay terms.now.boarded }
    requires signs { HaveSigns terms.now books.now }
    ensures installments { result.installments ≡ rule.installments_due terms.now day books.now }
    ensures sum { result.sum ≡ rule.sum_due terms.now day books.now }
    ensures low { pos 0 ≤ℤ result.sum }
    ensures high { result.sum ≤ℤ pos 200_000_000_000_000_000 }
    ensures steps { steps.new ≡ steps.old + rule.installments_due terms.now day books.now }
{
    let mut left = *books;
    let mut asked = Asked {
        installments: 0,
        sum: 0,
    };
    while is_overdue(&left, terms, day) {
        let open = installment(&left, terms);
        add(&mut asked, &open, left.upb);
        leave_behind(&mut left, &open);
        steps.tick();
    }
    asked
}

/// Counts an installment on a balance.
fn add(asked: &mut Asked, due: &Installment, upb: Cents)
    requires parts { HasParts due.now upb }
    requires installments { asked.old.installments ≤ 500 }
    requires low { pos 0 ≤ℤ asked.old.sum }
    requires high { asked.old.sum ≤ℤ pos 200_000_000_000_000_000 }
    ensures installments { asked.new.installments ≡ asked.old.installments + 1 }
    ensures sum { asked.new.sum ≡ asked.old.sum +ℤ (due.now.interest +ℤ due.now.principal +ℤ due.now.escrow) }
{
    asked.installments += 1;
    asked.sum += sum_of(due, upb);
}

/// Goes on to the installment after the open one, on the balance that this one leaves.
fn leave_behind(books: &mut Books, due: &Installment)
    requires parts { HasParts due.now books.old.upb }
    requires next { due.now.k ≤ 480 }
    ensures { books.new ≡ left_behind due.now books.old }
{
    books.upb -= due.principal;
    books.next = due.k + 1;
}
