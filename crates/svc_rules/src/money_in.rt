//! Why money that a borrower pays in is refused: a payment, a deposit to escrow, a curtailment, a payoff.

ghost use Rattle.std.specs.Prelude.{◌≡◌, ◌+◌, ◌≤◌, [], ◌∷◌};
ghost use Rattle.svc_base.specs.Calendar.{month_of as month_number};
ghost use Rattle.svc_world.specs.Refusals as rule;
ghost use Rattle.svc_rules.specs.State.{world_of};

use crate::entries::{refuse_adjustments, refuse_dated};
use crate::state::State;
use std::sync::ledger::Ledger;
use svc_apply::payoff_due;
use svc_base::{Cents, Day, Steps, month_of};
use svc_loan::Loan;
use svc_replay::LoanBooks;
use svc_types::Refusal;

/// Why a payment or a deposit is refused: by the rules of each entry of a day alone.
pub(crate) fn refuse_paid_in<B: LoanBooks>(
    state: &State<B>,
    loan: &Loan<B>,
    day: Day,
    cents: Cents,
) -> Option<Refusal>
    ensures { result ≡ rule.first_of (rule.dated_cases
        (world_of state.now.today state.now.loans state.now.seals) day cents rule.asks_no_more loan.now.held) }
{
    match refuse_dated(state, loan, day, cents) {
        Some(why) => Some(why),
        None => refuse_adjustments(state, month_of(day)),
    }
}

/// Why a curtailment is refused, beside the rules of each entry of a day: `OverPrincipal`, it is more than the balance
/// of its day.
pub(crate) fn refuse_curtail<B: LoanBooks, L: Ledger>(
    state: &State<B>,
    loan: &Loan<B>,
    day: Day,
    cents: Cents,
    steps: &mut Steps<L>,
) -> Option<Refusal>
    requires today { loan.now.held.account.today ≡ state.now.today }
    ensures cause { result ≡ rule.first_of (rule.dated_cases
        (world_of state.now.today state.now.loans state.now.seals) day cents (rule.over_principal day cents)
        loan.now.held) }
    ensures steps { steps.new ≤ steps.old + B.cost loan.now.held.account (month_number day) }
{
    if let Some(why) = refuse_dated(state, loan, day, cents) {
        return Some(why);
    }
    if let Some(why) = refuse_over_principal(loan, day, cents, steps) {
        return Some(why);
    }
    refuse_adjustments(state, month_of(day))
}

/// Why an amount is more than the balance of a day.
fn refuse_over_principal<B: LoanBooks, L: Ledger>(
    loan: &Loan<B>,
    day: Day,
    cents: Cents,
    steps: &mut Steps<L>,
) -> Option<Refusal>
    requires after { loan.now.held.account.terms.boarded ≤ day }
    requires until { day ≤ loan.now.held.account.today }
    ensures cause { result ≡ rule.first_of (rule.over_principal day cents loan.now.held ∷ []) }
    ensures steps { steps.new ≤ steps.old + B.cost loan.now.held.account (month_number day) }
{
    loan.is_sound();
    let upb = loan.books_at(day, steps).upb;
    if upb < cents {
        return Some(Refusal::OverPrincipal(upb));
    }
    None
}

/// Why a payoff is refused, beside the rules of each entry of a day: `PayoffShort`, it is less than the payoff due on
/// its day.
pub(crate) fn refuse_payoff<B: LoanBooks, L: Ledger>(
    state: &State<B>,
    loan: &Loan<B>,
    day: Day,
    cents: Cents,
    steps: &mut Steps<L>,
) -> Option<Refusal>
    requires today { loan.now.held.account.today ≡ state.now.today }
    ensures cause { result ≡ rule.first_of (rule.dated_cases
        (world_of state.now.today state.now.loans state.now.seals) day cents (rule.payoff_short day cents)
        loan.now.held) }
    ensures steps { steps.new ≤ steps.old + B.cost loan.now.held.account (month_number day) }
{
    if let Some(why) = refuse_dated(state, loan, day, cents) {
        return Some(why);
    }
    if let Some(why) = refuse_short(loan, day, cents, steps) {
        return Some(why);
    }
    refuse_adjustments(state, month_of(day))
}

/// Why an amount is less than the payoff due on a day.
fn refuse_short<B: LoanBooks, L: Ledger>(
    loan: &Loan<B>,
    day: Day,
    cents: Cents,
    steps: &mut Steps<L>,
) -> Option<Refusal>
    requires after { loan.now.held.account.terms.boarded ≤ day }
    requires until { day ≤ loan.now.held.account.today }
    ensures cause { result ≡ rule.first_of (rule.payoff_short day cents loan.now.held ∷ []) }
    ensures steps { steps.new ≤ steps.old + B.cost loan.now.held.account (month_number day) }
{
    loan.is_sound();
    let due = payoff_due(&loan.books_at(day, steps), loan.terms(), day);
    if cents < due {
        return Some(Refusal::PayoffShort(due));
    }
    None
}
