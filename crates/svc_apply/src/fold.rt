//! Where a loan's books begin, and how one event moves them.

ghost use Rattle.std.specs.Prelude.{◌≡◌, ◌+◌, ◌-◌, ◌≤◌, pos, ◌+ℤ◌};
ghost use Rattle.svc_base.specs.Calendar.{IsReadDay};
ghost use Rattle.svc_types.specs.Terms.{IsSound};
ghost use Rattle.svc_spec.specs.Books.{AreBooks, AreWithin, IsWhat, total};
ghost use Rattle.svc_spec.specs.Books.{boarding_plan as boarding_plan_of, start as start_of};
ghost use Rattle.svc_spec.specs.Step as rule;

use crate::acts::happen;
use crate::settle::{mark_satisfied, settle};
use std::sync::ledger::Ledger;
use svc_base::{Steps, month_of};
use svc_types::{Books, EscrowPlan, Event, Terms};

/// The books of a loan at boarding: the whole principal is owed, and nothing else has happened.
pub fn start(terms: &Terms) -> Books
    requires terms { IsSound terms.now }
    requires boarded { IsReadDay terms.now.boarded }
    ensures start { result ≡ start_of terms.now }
    ensures books { AreBooks terms.now result }
{
    Books {
        day: terms.boarded,
        upb: terms.principal,
        next: 1,
        escrow: 0,
        suspense: 0,
        late_owed: 0,
        interest: 0,
        fee: 0,
        principal: 0,
        curtailed: 0,
        late_paid: 0,
        plan: boarding_plan(terms),
        earlier: boarding_plan(terms),
        satisfied: None,
    }
}

/// The plan of a loan at boarding: its monthly escrow payment and nothing else.
fn boarding_plan(terms: &Terms) -> EscrowPlan
    ensures { result ≡ boarding_plan_of terms.now }
{
    EscrowPlan {
        start: month_of(terms.boarded),
        base: terms.escrow,
        credit: 0,
        short: 0,
        short_months: 0,
        deficient: 0,
        deficient_months: 0,
    }
}

/// Moves the books by one event: what it does, and the settling that follows it (1/01 uniform
/// security instruments, covenant 2). It counts one step, and one for each installment that it
/// satisfies.
pub fn fold_step<L: Ledger>(books: &mut Books, terms: &Terms, event: &Event, steps: &mut Steps<L>)
    requires terms { IsSound terms.now }
    requires boarded { IsReadDay terms.now.boarded }
    requires books { AreBooks terms.now books.old }
    requires later { books.old.day ≤ event.now.day }
    requires amounts { IsWhat event.now.what }
    requires limits { AreWithin (rule.step terms.now event.now books.old) }
    ensures step { books.new ≡ rule.step terms.now event.now books.old }
    ensures books { AreBooks terms.now books.new }
    ensures money { total books.new +ℤ rule.paid_out_by event.now.what
        ≡ total books.old +ℤ rule.brought_by event.now.what }
    ensures steps { steps.new + books.old.next ≡ steps.old + 1 + books.new.next }
{
    happen(books, terms, event.day, &event.what, steps);
    mark_satisfied(books, event.day);
    settle(
        books,
        terms,
        month_of(event.day).number() + 1,
        event.day,
        steps,
    );
    books.day = event.day;
    steps.tick();
}
