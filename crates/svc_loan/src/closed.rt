//! What is kept of a loan's closed months: what is carried from each of them to the next.

ghost use Rattle.std.specs.Prelude.{◌≡◌, ◌+◌, ◌-◌, ◌≤◌, ◌<◌, ◌++◌, map, min, take, vec_len, vec_capacity, length, pos, neg_ℤ, ◌+ℤ◌, ◌-ℤ◌, ◌≤ℤ◌};
ghost use Rattle.std.specs.List.{range_with_len};
ghost use Rattle.svc_base.specs.Calendar.{month_of as month_number};
ghost use Rattle.svc_types.specs.Terms.{IsSound};
ghost use Rattle.remit_types.specs.Dues as dues;
ghost use Rattle.remit_types.specs.Limits.{HasSums, IsWithin};
ghost use Rattle.svc_world.specs.LoanDues.{carried_to, due_in};
ghost use Rattle.svc_loan.specs.Closed as rule;

use crate::types::Types;
use remit_types::{Carry, MonthDue, due, first};
use std::sync::ledger::Ledger;
use svc_base::{Cents, Month, Steps, add_months, month_of};
use svc_replay::LoanBooks;
use svc_types::Terms;

/// How many months a month is after an earlier one.
pub(crate) fn months_between(earlier: Month, month: Month) -> usize
    ensures { result ≡ month - earlier }
{
    month.number().saturating_sub(earlier.number()) as usize
}

/// The remittance at the end of the first of the closed months, so many of them; after none that of boarding.
pub(crate) fn carry_after<B: LoanBooks>(
    carries: &[Carry],
    books: &B,
    types: &Types,
    months: usize,
) -> Carry
    requires carries { carries.now ≡ rule.carries_to (B.account books.now) types.now.changes
        (length carries.now) }
    requires closed { months ≤ length carries.now }
    ensures { result ≡ carried_to (B.account books.now) types.now.changes months }
{
    if months == 0 {
        return first(books.terms());
    }
    carries[months - 1]
}

/// What is due for a closed month, which is so many months after the boarded one.
pub(crate) fn due_after<B: LoanBooks>(
    carries: &[Carry],
    books: &B,
    types: &Types,
    month: Month,
    months: usize,
) -> MonthDue
    requires may { rule.MayClose (B.account books.now) (length carries.now) }
    requires carries { carries.now ≡ rule.carries_to (B.account books.now) types.now.changes
        (length carries.now) }
    requires closed { months < length carries.now }
    requires month { month ≡ month_number (B.account books.now).terms.boarded + months }
    ensures { result ≡ due_in (B.account books.now) types.now.changes month }
{
    let before = carry_after(carries, books, types, months);
    let later = carry_after(carries, books, types, months + 1);
    due_between(month, &before, &later)
}

/// What is due for a month, from the remittance at the end of the month before it and at its own.
#[tactic(auto, using(svc_base::proofs::CentsRules::cents))]
fn due_between(month: Month, before: &Carry, later: &Carry) -> MonthDue
    requires before { rule.IsSmall before.now }
    requires later { rule.IsSmall later.now }
    ensures { result ≡ dues.due_between month before.now later.now }
{
    MonthDue {
        month,
        interest: later.passed - before.passed,
        principal: before.balance - later.balance,
        balance: later.balance,
    }
}

/// Appends what is due for each closed month from one on, for which there is room.
pub(crate) fn add_dues<B: LoanBooks>(
    carries: &[Carry],
    books: &B,
    types: &Types,
    month: Month,
    dues: &mut Vec<MonthDue>,
)
    requires may { rule.MayClose (B.account books.now) (length carries.now) }
    requires carries { carries.now ≡ rule.carries_to (B.account books.now) types.now.changes
        (length carries.now) }
    requires from { month_number (B.account books.now).terms.boarded ≤ month }
    requires room { vec_len dues.old
        + (month_number (B.account books.now).terms.boarded + length carries.now - month) ≤ vec_capacity dues.old }
    ensures dues { dues.new.items ≡ dues.old.items ++ map (due_in (B.account books.now) types.now.changes)
        (range_with_len month
        (month_number (B.account books.now).terms.boarded + length carries.now - month)) }
    ensures capacity { vec_capacity dues.new ≡ vec_capacity dues.old }
{
    let boarded = month_of(books.terms().boarded);
    let mut months = months_between(boarded, month);
    while months < carries.len() {
        let next = add_months(boarded, months as u32);
        dues.push_reserved(due_after(carries, books, types, next, months));
        months += 1;
    }
}

/// What is due for all closed months, in cents, from the remittance at the end of the last one.
#[tactic(auto, using(svc_base::proofs::CentsRules::cents))]
pub(crate) fn total_due(carry: &Carry, terms: &Terms) -> Cents
    requires sums { HasSums carry.now }
    requires within { IsWithin terms.now carry.now }
    requires sound { IsSound terms.now }
    ensures value { result ≡ carry.now.passed -ℤ carry.now.balance +ℤ terms.now.principal }
    ensures low { neg_ℤ (pos 2_000_000_000_000_000_000) ≤ℤ result }
    ensures high { result ≤ℤ pos 2_000_000_000_000_000_000 }
{
    carry.passed - carry.balance + terms.principal
}

/// Closes the month after the last closed one: keeps what is carried from it.
pub(crate) fn close_next<B: LoanBooks, L: Ledger>(
    carries: &mut Vec<Carry>,
    books: &B,
    types: &Types,
    steps: &mut Steps<L>,
)
    requires may { rule.MayClose (B.account books.now) (vec_len carries.old + 1) }
    requires kept { carries.old.items ≡ rule.carries_to (B.account books.now) types.now.changes
        (vec_len carries.old) }
    requires room { vec_len carries.old < vec_capacity carries.old }
    ensures kept { carries.new.items ≡ rule.carries_to (B.account books.now) types.now.changes
        (vec_len carries.old + 1) }
    ensures count { vec_len carries.new ≡ vec_len carries.old + 1 }
    ensures capacity { vec_capacity carries.new ≡ vec_capacity carries.old }
    ensures steps { steps.new ≤ steps.old + B.month_cost (B.account books.now)
        (month_number (B.account books.now).terms.boarded + vec_len carries.old) }
{
    books.is_account();
    let terms = books.terms();
    let closed = carries.len();
    let month = add_months(month_of(terms.boarded), closed as u32);
    let mut carry = carry_after(carries, books, types, closed);
    let facts = books.month(month, steps);
    let _ = due(&mut carry, terms, types.kind_in(terms, month), &facts);
    carries.push_reserved(carry);
}

/// Makes the closed months anew after a change of the loan, all but the first ones, which stay.
pub(crate) fn redo<B: LoanBooks, L: Ledger>(
    carries: &mut Vec<Carry>,
    books: &B,
    types: &Types,
    stay: usize,
    steps: &mut Steps<L>,
)
    requires may { rule.MayClose (B.account books.now) (vec_len carries.old) }
    requires stays { take stay carries.old.items ≡ rule.carries_to (B.account books.now) types.now.changes
        (min stay (vec_len carries.old)) }
    ensures kept { carries.new.items ≡ rule.carries_to (B.account books.now) types.now.changes
        (vec_len carries.old) }
    ensures count { vec_len carries.new ≡ vec_len carries.old }
    ensures capacity { vec_capacity carries.new ≡ vec_capacity carries.old }
    ensures steps { steps.new ≤ steps.old + rule.months_cost B.month_cost (B.account books.now)
        (month_number (B.account books.now).terms.boarded + stay) (vec_len carries.old - stay) }
{
    let closed = carries.len();
    carries.truncate(stay);
    while carries.len() < closed {
        close_next(carries, books, types, steps);
    }
}
