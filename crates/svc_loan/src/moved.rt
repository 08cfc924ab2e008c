//! What a loan's entries brought in and paid out.

ghost use Rattle.std.specs.Prelude.{◌≡◌, ℕ, ◌≤ℤ◌, pos};
ghost use Rattle.svc_spec.specs.Accounts.{begun};
ghost use Rattle.svc_spec.specs.Books.{IsAct};
ghost use Rattle.svc_spec.specs.Step as step;
ghost use Rattle.svc_spec.specs.Totals as totals;
ghost use Rattle.svc_types.specs.declared.terms.Terms.{Terms as LoanTerms};
ghost use Rattle.svc_loan.specs.Moved.{moved_of, with_act, with_reversed, AreMoved};

use svc_base::Cents;
use svc_types::Act;

/// What the entries of a loan brought in and paid out, in cents, and how many entries there are, reversed
/// ones counted. Payments, curtailments, payoffs and deposits are received, and returned where they are
/// reversed; refunds, those of analyses too, and disbursements count while they are not reversed.
#[derive(Clone, Copy, Debug, PartialEq, Eq)]
pub struct Moved {
    pub entries: u32,
    pub received: Cents,
    pub returned: Cents,
    pub refunded: Cents,
    pub disbursed: Cents,
}

impl Moved {
    /// At boarding nothing has been moved.
    #[tactic(auto, unfolding(svc_types::specs::Live::live_entries))]
    pub(crate) fn new() -> Moved
        ensures { (t : LoanTerms) (today : ℕ) → result ≡ moved_of (begun t today) }
    {
        Moved {
            entries: 0,
            received: 0,
            returned: 0,
            refunded: 0,
            disbursed: 0,
        }
    }

    /// With one more entry.
    #[tactic(auto, using(svc_base::proofs::CentsRules::cents))]
    pub(crate) fn with_entry(&self, act: &Act) -> Moved
        requires moved { AreMoved self.now }
        requires act { IsAct act.now }
        ensures { result ≡ with_act act.now self.now }
    {
        Moved {
            entries: self.entries + 1,
            received: self.received + brought(act),
            returned: self.returned,
            refunded: self.refunded + refunded_by(act),
            disbursed: self.disbursed + disbursed_by(act),
        }
    }

    /// With an entry reversed, of which nothing was returned yet.
    #[tactic(auto, using(svc_base::proofs::CentsRules::cents))]
    pub(crate) fn with_reversal(&self, act: &Act) -> Moved
        requires moved { AreMoved self.now }
        requires act { IsAct act.now }
        ensures { result ≡ with_reversed act.now self.now }
    {
        Moved {
            entries: self.entries,
            received: self.received,
            returned: self.returned + brought(act),
            refunded: self.refunded - refunded_by(act),
            disbursed: self.disbursed - disbursed_by(act),
        }
    }
}

/// What an act brings in, in cents.
fn brought(act: &Act) -> Cents
    requires { IsAct act.now }
    ensures value { result ≡ step.brought act.now }
    ensures low { pos 0 ≤ℤ result }
    ensures high { result ≤ℤ pos 100_000_000_000_000 }
{
    match act {
        Act::Pay(cents, _) | Act::Curtail(cents) | Act::Payoff(cents) | Act::Deposit(cents) =>
            *cents,
        Act::Disburse(..) | Act::Refund(_) | Act::Waive(_) | Act::Analyse(_) => 0,
    }
}

/// What an act pays back to the borrower, in cents.
fn refunded_by(act: &Act) -> Cents
    requires { IsAct act.now }
    ensures value { result ≡ totals.refunded_by act.now }
    ensures low { pos 0 ≤ℤ result }
    ensures high { result ≤ℤ pos 100_000_000_000_000 }
{
    match act {
        Act::Refund(cents) => *cents,
        Act::Analyse(settled) => settled.refund,
        Act::Pay(..) | Act::Curtail(_) | Act::Payoff(_) | Act::Deposit(_) => 0,
        Act::Disburse(..) | Act::Waive(_) => 0,
    }
}

/// What an act pays to others, in cents.
fn disbursed_by(act: &Act) -> Cents
    requires { IsAct act.now }
    ensures value { result ≡ totals.disbursed_by act.now }
    ensures low { pos 0 ≤ℤ result }
    ensures high { result ≤ℤ pos 100_000_000_000_000 }
{
    match act {
        Act::Disburse(cents, _) => *cents,
        Act::Pay(..) | Act::Curtail(_) | Act::Payoff(_) | Act::Deposit(_) => 0,
        Act::Refund(_) | Act::Waive(_) | Act::Analyse(_) => 0,
    }
}
