//! The adjustments of a command.

ghost use Rattle.std.specs.Prelude.{◌≡◌, ◌+◌, ◌≤◌, ◌++◌, not, length};
ghost use Rattle.std.specs.List.{All};
ghost use Rattle.period_adjust.specs.Changes as changes;
ghost use Rattle.period_adjust.specs.Changes.{is_unchanged, adjustments_of};
ghost use Rattle.period_adjust.specs.Conditions.{IsSmallDue};
ghost use Rattle.period_adjust.specs.Pending.{SumsFit};

use crate::adjustment::Adjustment;
use crate::pending::Pending;
use remit_types::MonthDue;

/// Whether interest or principal differs.
#[tactic(auto, using(std::proofs::lemmas::Int::ints))]
fn differs(before: &MonthDue, after: &MonthDue) -> bool
    ensures { result ≡ not (is_unchanged before.now after.now) }
{
    before.interest != after.interest || before.principal != after.principal
}

/// How many months differ.
pub(crate) fn count_changes(before: &[MonthDue], after: &[MonthDue]) -> usize
    requires { length after.now ≡ length before.now }
    ensures { result ≡ length (adjustments_of 0 0 before.now after.now) }
{
    let mut count = 0;
    for (i, was) in before.iter().enumerate() {
        if differs(was, &after[i]) {
            count += 1;
        }
    }
    count
}

/// The adjustment of a month that differs.
#[tactic(auto, using(std::proofs::lemmas::Int::ints))]
fn adjustment(number: u32, loan: u32, was: &MonthDue, is: &MonthDue) -> Adjustment
    requires before { IsSmallDue was.now }
    requires after { IsSmallDue is.now }
    ensures { result ≡ changes.adjustment number loan was.now is.now }
{
    Adjustment {
        number,
        loan,
        month: is.month,
        interest: is.interest - was.interest,
        principal: is.principal - was.principal,
    }
}

/// Adds the adjustments of the months that differ.
pub(crate) fn push_changes(
    pending: &mut Pending,
    number: u32,
    loan: u32,
    before: &[MonthDue],
    after: &[MonthDue],
)
    requires months { length after.now ≡ length before.now }
    requires before { All IsSmallDue before.now }
    requires after { All IsSmallDue after.now }
    requires fits { SumsFit (pending.old.adjustments ++ adjustments_of number loan before.now after.now) }
    requires room { length (adjustments_of number loan before.now after.now) ≤ pending.old.room }
    ensures adjustments { pending.new.adjustments ≡
        pending.old.adjustments ++ adjustments_of number loan before.now after.now }
    ensures room { pending.old.room ≤
        pending.new.room + length (adjustments_of number loan before.now after.now) }
{
    for (i, was) in before.iter().enumerate() {
        push_change(pending, number, loan, was, &after[i]);
    }
}

/// Adds the adjustment of a month if it differs.
fn push_change(pending: &mut Pending, number: u32, loan: u32, was: &MonthDue, is: &MonthDue)
    requires before { IsSmallDue was.now }
    requires after { IsSmallDue is.now }
    requires fits { SumsFit (pending.old.adjustments ++ changes.change_of number loan was.now is.now) }
    requires room { length (changes.change_of number loan was.now is.now) ≤ pending.old.room }
    ensures adjustments { pending.new.adjustments ≡
        pending.old.adjustments ++ changes.change_of number loan was.now is.now }
    ensures room { pending.old.room ≤
        pending.new.room + length (changes.change_of number loan was.now is.now) }
{
    if differs(was, is) {
        pending.push(adjustment(number, loan, was, is));
    }
}
