//! Who is late, and how many loans are how late.

ghost use Rattle.std.specs.Prelude.{◌≡◌, ℕ, ◌+◌, ◌≤◌, ◌<◌, ◌++◌, ◌∷◌, [], length, IfOk, OnOk};
ghost use Rattle.std.specs.List.{All};
ghost use Rattle.svc_loan.specs.Kept.{KeptLoan};
ghost use Rattle.svc_loan.specs.Loans.{held_in};
ghost use Rattle.svc_world.specs.Desk as desk;
ghost use Rattle.svc_world.specs.Desk.{counts_of, late_loans};
ghost use Rattle.svc_world.specs.declared.answer.Answer.TheVariants as answer;
ghost use Rattle.svc_desk.specs.Costs.{aging_cost, arrears_cost};
ghost use Rattle.svc_desk.specs.Counts.{and, counts_of_one, AreUpTo};

use crate::lateness::late_days;
use std::alloc::Global;
use std::sync::ledger::Ledger;
use svc_apply::arrears;
use svc_base::{Day, OutOfMemory, Steps, add_months};
use svc_loan::{Loan, Loans};
use svc_replay::LoanBooks;
use svc_world::{AgingCounts, Answer, LateLoan, ListOf};

/// The late loans on the business day by rising number, and how many loans are how late: one pass over the loans. Errs
/// only where memory is short.
pub fn aging_answer<B: LoanBooks, L: Ledger>(
    alloc: Global,
    loans: &Loans<B>,
    today: Day,
    steps: &mut Steps<L>,
) -> Result<Answer, OutOfMemory>
    requires today { All (λ (k : KeptLoan). k.held.account.today ≡ today) loans.now.loans }
    requires few { length loans.now.loans ≤ 12_000 }
    ensures answer { IfOk result (λ a. a ≡ answer.Aging today (late_loans today (held_in loans.now.loans))
        (counts_of today (held_in loans.now.loans))) }
    ensures steps { steps.new ≤ steps.old + aging_cost today (held_in loans.now.loans) }
{
    let mut late = Vec::new(alloc);
    let mut counts = no_loans();
    for place in 0..loans.len() {
        add_loan(&mut late, &mut counts, loans.at(place), today, steps)?;
    }
    Ok(Answer::Aging {
        day: today,
        late: ListOf::from_vec(late),
        counts,
    })
}

/// The counts of no loan.
#[tactic(auto, unfolding(svc_world::specs::Desk::counts_of))]
fn no_loans() -> AgingCounts
    ensures { (day : ℕ) → result ≡ counts_of day [] }
{
    AgingCounts {
        current: 0,
        late1: 0,
        late30: 0,
        late60: 0,
        late90: 0,
        satisfied: 0,
    }
}

/// Counts one more loan, and lists it where it is late.
fn add_loan<B: LoanBooks, L: Ledger>(
    late: &mut Vec<LateLoan>,
    counts: &mut AgingCounts,
    loan: &Loan<B>,
    today: Day,
    steps: &mut Steps<L>,
) -> Result<(), OutOfMemory>
    requires today { loan.now.held.account.today ≡ today }
    requires few { AreUpTo 11_999 counts.old }
    ensures late { OnOk result (late.new.items ≡ late.old.items ++ late_loans today (loan.now.held ∷ [])) }
    ensures counts { OnOk result (counts.new ≡ and counts.old (counts_of today (loan.now.held ∷ []))) }
    ensures steps { steps.new ≤ steps.old + arrears_cost today loan.now.held }
{
    loan.is_sound();
    let books = loan.now();
    let days = late_days(books, loan.terms(), today);
    count(counts, books.upb <= 0, days);
    if days > 0 {
        late.push(late_loan(loan, today, days, steps))?;
    }
    Ok(())
}

/// What is said of a loan that is late by so many days.
fn late_loan<B: LoanBooks, L: Ledger>(
    loan: &Loan<B>,
    today: Day,
    days: u32,
    steps: &mut Steps<L>,
) -> LateLoan
    requires today { loan.now.held.account.today ≡ today }
    requires days { days ≡ desk.days_late today loan.now.held }
    requires late { 1 ≤ days }
    ensures late { result ≡ desk.late_loan today loan.now.held }
    ensures steps { steps.new ≤ steps.old + arrears_cost today loan.now.held }
{
    loan.is_sound();
    let books = loan.now();
    let terms = loan.terms();
    LateLoan {
        loan: loan.id(),
        next: add_months(terms.first, books.next - 1),
        days,
        arrears: arrears(books, terms, today, steps),
    }
}

/// Counts one more loan, which is satisfied, or late by so many days, or neither.
fn count(counts: &mut AgingCounts, satisfied: bool, days: u32)
    requires { AreUpTo 11_999 counts.old }
    ensures { counts.new ≡ and counts.old (counts_of_one satisfied days) }
{
    if satisfied {
        counts.satisfied += 1;
    }
    match days {
        0 if !satisfied => counts.current += 1,
        0 => {}
        1..=29 => counts.late1 += 1,
        30..=59 => counts.late30 += 1,
        60..=89 => counts.late60 += 1,
        _ => counts.late90 += 1,
    }
}
