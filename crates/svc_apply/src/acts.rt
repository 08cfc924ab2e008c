//! What entries and late marks do to a loan's books, before settling.

ghost use Rattle.std.specs.Prelude.{◌≡◌, ◌+◌, pos, ◌<ℤ◌, ◌≤ℤ◌, ◌+ℤ◌, ◌-ℤ◌};
ghost use Rattle.svc_base.specs.Calendar.{IsReadDay};
ghost use Rattle.svc_types.specs.Terms.{IsSound};
ghost use Rattle.svc_spec.specs.Books.{AreBooks, HaveSigns, IsAct, IsEntryAmount, IsPlan, IsWhat};
ghost use Rattle.svc_spec.specs.Payoff.{payoff_sum as payoff_sum_of};
ghost use Rattle.svc_spec.specs.Step as rule;
ghost use Rattle.svc_apply.specs.Conditions.{AreNear, AreSums, MaySettle, MayApply};

use crate::payoff::{escrow_advanced, payoff_days, payoff_sum};
use crate::settle::{is_overdue, settle};
use std::sync::ledger::Ledger;
use svc_base::{Cents, Day, Steps, day_interest, month_of, share_bp};
use svc_types::{Act, Books, Designation, EscrowPlan, Settled, Terms, What};

/// What happens on a day, but for the settling that follows. It counts one step for each installment
/// that a designated payment satisfies.
pub(crate) fn happen<L: Ledger>(
    books: &mut Books,
    terms: &Terms,
    day: Day,
    what: &What,
    steps: &mut Steps<L>,
)
    requires terms { IsSound terms.now }
    requires boarded { IsReadDay terms.now.boarded }
    requires books { AreBooks terms.now books.old }
    requires what { IsWhat what.now }
    ensures books { books.new ≡ rule.happened terms.now day what.now books.old }
    ensures steps { steps.new + books.old.next ≡ steps.old + books.new.next }
{
    match what {
        What::MonthMark => {}
        What::LateMark(k) => charge_late(books, terms, *k),
        What::Act(act) => post(books, terms, day, act, steps),
    }
}

/// What an entry's act does.
fn post<L: Ledger>(books: &mut Books, terms: &Terms, day: Day, act: &Act, steps: &mut Steps<L>)
    requires terms { IsSound terms.now }
    requires boarded { IsReadDay terms.now.boarded }
    requires books { AreBooks terms.now books.old }
    requires act { IsAct act.now }
    ensures books { books.new ≡ rule.acted terms.now day act.now books.old }
    ensures steps { steps.new + books.old.next ≡ steps.old + books.new.next }
{
    match act {
        Act::Pay(cents, to) => pay(books, terms, day, *cents, *to, steps),
        Act::Curtail(cents) => curtail(books, *cents),
        Act::Payoff(cents) => {
            pay_in(books, *cents);
            try_payoff(books, terms, day);
        }
        Act::Deposit(cents) => deposit(books, *cents),
        Act::Disburse(cents, _) => disburse(books, *cents),
        Act::Refund(cents) => refund(books, *cents),
        Act::Waive(cents) => waive(books, *cents),
        Act::Analyse(settled) => analyse(books, settled),
    }
}

/// A payment: a regular one waits; after a designated one what is due on or before the day is
/// settled, and then the rest of it goes where it is designated.
fn pay<L: Ledger>(
    books: &mut Books,
    terms: &Terms,
    day: Day,
    cents: Cents,
    to: Designation,
    steps: &mut Steps<L>,
)
    requires terms { IsSound terms.now }
    requires boarded { IsReadDay terms.now.boarded }
    requires books { AreBooks terms.now books.old }
    requires amount { IsEntryAmount cents }
    ensures books { books.new ≡ rule.paid terms.now day cents to books.old }
    ensures steps { steps.new + books.old.next ≡ steps.old + books.new.next }
{
    pay_in(books, cents);
    match to {
        Designation::Regular => {}
        Designation::Principal | Designation::Escrow => {
            settle(books, terms, month_of(day).number(), day, steps);
            apply_rest(books, terms, day, cents, to);
        }
    }
}

/// Applies what is left of a payment as it is designated, where no open installment is due on or
/// before the day and the loan is not satisfied.
fn apply_rest(books: &mut Books, terms: &Terms, day: Day, cents: Cents, to: Designation)
    requires terms { IsSound terms.now }
    requires boarded { IsReadDay terms.now.boarded }
    requires signs { HaveSigns terms.now books.old }
    requires sums { MaySettle books.old }
    requires curtailed { books.old.curtailed ≤ℤ pos 1_000_000_000_000_000_000 }
    requires amount { IsEntryAmount cents }
    ensures { books.new ≡ rule.rest_applied terms.now day cents to books.old }
{
    if books.upb <= 0 {
        return;
    }
    if is_overdue(books, terms, day) {
        return;
    }
    apply(books, cents.min(books.suspense), to);
}

/// Applies so much of suspense as a payment designates it.
fn apply(books: &mut Books, cents: Cents, to: Designation)
    requires { MayApply cents books.old }
    ensures { books.new ≡ rule.applied to cents books.old }
{
    match to {
        Designation::Regular => {}
        Designation::Principal => to_principal(books, cents),
        Designation::Escrow => to_escrow(books, cents),
    }
}

/// Applies so much of suspense to principal ahead of its time, as far as the balance goes.
fn to_principal(books: &mut Books, cents: Cents)
    requires { MayApply cents books.old }
    ensures { books.new ≡ rule.to_principal cents books.old }
{
    let paid = books.upb.min(cents);
    books.suspense -= paid;
    books.upb -= paid;
    books.principal += paid;
    books.curtailed += paid;
}

/// Applies so much of suspense to escrow.
fn to_escrow(books: &mut Books, cents: Cents)
    requires { MayApply cents books.old }
    ensures { books.new ≡ rule.to_escrow cents books.old }
{
    books.suspense -= cents;
    books.escrow += cents;
}

/// A late charge for installment k, where it is still open.
fn charge_late(books: &mut Books, terms: &Terms, k: u32)
    requires terms { IsSound terms.now }
    requires sums { AreSums books.old }
    ensures { books.new ≡ rule.charged terms.now k books.old }
{
    if books.upb <= 0 {
        return;
    }
    if books.next > k {
        return;
    }
    add_late(books, share_bp(terms.pi, terms.late));
}

fn add_late(books: &mut Books, cents: Cents)
    requires low { pos 0 ≤ℤ cents }
    requires high { cents ≤ℤ pos 10_000_000_000 }
    requires sums { AreSums books.old }
    ensures { books.new ≡ record books.old { late_owed = books.old.late_owed +ℤ cents } }
{
    books.late_owed += cents;
}

/// Money that waits in suspense until it is applied.
fn pay_in(books: &mut Books, cents: Cents)
    requires sums { AreSums books.old }
    requires amount { IsEntryAmount cents }
    ensures books { books.new ≡ rule.paid_in cents books.old }
    ensures near { AreNear books.new }
{
    books.suspense += cents;
}

/// A payment on the principal alone; what exceeds the balance waits.
fn curtail(books: &mut Books, cents: Cents)
    requires sums { AreSums books.old }
    requires amount { IsEntryAmount cents }
    ensures { books.new ≡ rule.curtailed cents books.old }
{
    pay_in(books, cents);
    to_principal(books, cents);
}

/// A payoff, where suspense covers it.
fn try_payoff(books: &mut Books, terms: &Terms, day: Day)
    requires terms { IsSound terms.now }
    requires boarded { IsReadDay terms.now.boarded }
    requires signs { HaveSigns terms.now books.old }
    requires near { AreNear books.old }
    ensures { books.new ≡ rule.payoff_tried terms.now day books.old }
{
    if books.upb <= 0 {
        return;
    }
    let asked = payoff_sum(books, terms, day);
    if asked > books.suspense {
        return;
    }
    pay_off(books, terms, day, asked);
}

/// Pays a loan off from suspense: balance, interest of days, late charges, escrow advanced.
fn pay_off(books: &mut Books, terms: &Terms, day: Day, asked: Cents)
    requires terms { IsSound terms.now }
    requires boarded { IsReadDay terms.now.boarded }
    requires signs { HaveSigns terms.now books.old }
    requires near { AreNear books.old }
    requires asked { asked ≡ payoff_sum_of terms.now day books.old }
    requires asked_low { pos 0 ≤ℤ asked }
    requires covered { asked ≤ℤ books.old.suspense }
    requires owed { pos 0 <ℤ books.old.upb }
    ensures { books.new ≡ rule.paid_off terms.now day books.old }
{
    let days = payoff_days(books, terms, day);
    let interest = day_interest(books.upb, terms.rate, days);
    let fee = day_interest(books.upb, terms.fee, days);
    let advanced = escrow_advanced(books);
    books.suspense -= asked;
    books.interest += interest;
    books.fee += fee;
    books.principal += books.upb;
    books.upb = 0;
    books.late_paid += books.late_owed;
    books.late_owed = 0;
    books.escrow += advanced;
}

/// A payment into escrow; on a satisfied loan it waits.
fn deposit(books: &mut Books, cents: Cents)
    requires sums { AreSums books.old }
    requires amount { IsEntryAmount cents }
    ensures { books.new ≡ rule.deposited cents books.old }
{
    if books.upb <= 0 {
        pay_in(books, cents);
        return;
    }
    books.escrow += cents;
}

/// A bill paid from escrow, below 0 too.
fn disburse(books: &mut Books, cents: Cents)
    requires sums { AreSums books.old }
    requires amount { IsEntryAmount cents }
    ensures { books.new ≡ record books.old { escrow = books.old.escrow -ℤ cents } }
{
    books.escrow -= cents;
}

/// A payment out to the borrower: from escrow, and on a satisfied loan from suspense first.
fn refund(books: &mut Books, cents: Cents)
    requires sums { AreSums books.old }
    requires amount { IsEntryAmount cents }
    ensures { books.new ≡ rule.refunded cents books.old }
{
    let taken = from_suspense(books, cents);
    books.suspense -= taken;
    books.escrow -= cents - taken;
}

/// What a refund takes from suspense.
fn from_suspense(books: &Books, cents: Cents) -> Cents
    requires sums { AreSums books.now }
    requires amount { IsEntryAmount cents }
    ensures value { result ≡ rule.from_suspense cents books.now }
    ensures low { pos 0 ≤ℤ result }
    ensures suspense { result ≤ℤ books.now.suspense }
    ensures whole { result ≤ℤ cents }
{
    if books.upb > 0 {
        return 0;
    }
    books.suspense.min(cents)
}

/// Late charges that are given up.
fn waive(books: &mut Books, cents: Cents)
    requires sums { AreSums books.old }
    requires amount { IsEntryAmount cents }
    ensures { books.new ≡ rule.waived cents books.old }
{
    books.late_owed -= books.late_owed.min(cents);
}

/// An analysis: its refund leaves escrow, and its plan follows the newest one, or replaces it where
/// both start in the same month.
fn analyse(books: &mut Books, settled: &Settled)
    requires sums { AreSums books.old }
    requires refund { IsEntryAmount settled.now.refund }
    requires plan { IsPlan settled.now.plan }
    ensures { books.new ≡ rule.analysed settled.now books.old }
{
    let earlier = plan_before(books, &settled.plan);
    books.escrow -= settled.refund;
    books.earlier = earlier;
    books.plan = settled.plan;
}

/// The plan that a new one leaves as the earlier one.
fn plan_before(books: &Books, newest: &EscrowPlan) -> EscrowPlan
    ensures { result ≡ rule.plan_before newest.now books.now }
{
    if newest.start == books.plan.start {
        return books.earlier;
    }
    books.plan
}
