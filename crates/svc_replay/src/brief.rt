//! Entries as they are kept: what an analysis settled, which is wider than all else, stands in a list of its own.

ghost use Rattle.std.specs.Prelude.{◌≡◌, ◌++◌, ◌<◌, ◌≤◌, ◌+◌, length, vec_len, vec_capacity};
ghost use Rattle.svc_replay.specs.Briefs as rule;

use svc_base::{Cents, Day};
use svc_types::{Act, Designation, Entry, Settled};

/// An entry as it is kept.
#[derive(Clone, Copy)]
pub(crate) struct Brief {
    pub(crate) number: u32,
    pub(crate) day: Day,
    pub(crate) act: BriefAct,
}

/// What an entry does, as it is kept. Of an analysis it has the place of what was settled among that of all analyses.
/// The narrower field of two stands first, so that it takes 16 bytes.
#[derive(Clone, Copy)]
pub(crate) enum BriefAct {
    Pay(Designation, Cents),
    Curtail(Cents),
    Payoff(Cents),
    Deposit(Cents),
    Disburse(u32, Cents),
    Refund(Cents),
    Waive(Cents),
    Analyse(usize),
}

/// What an entry does as it is kept; what it settled, where it did, stands at a place.
pub(crate) fn brief_act(act: &Act, place: usize) -> BriefAct
    ensures { result ≡ rule.brief_act place act.now }
{
    match *act {
        Act::Pay(cents, over) => BriefAct::Pay(over, cents),
        Act::Curtail(cents) => BriefAct::Curtail(cents),
        Act::Payoff(cents) => BriefAct::Payoff(cents),
        Act::Deposit(cents) => BriefAct::Deposit(cents),
        Act::Disburse(cents, line) => BriefAct::Disburse(line, cents),
        Act::Refund(cents) => BriefAct::Refund(cents),
        Act::Waive(cents) => BriefAct::Waive(cents),
        Act::Analyse(_) => BriefAct::Analyse(place),
    }
}

/// What an entry does, by all that analyses settled.
pub(crate) fn act_of(act: &BriefAct, settled: &[Settled]) -> Act
    requires { rule.StandsWithin (length settled.now) act.now }
    ensures { result ≡ rule.act_of settled.now act.now }
{
    match *act {
        BriefAct::Pay(over, cents) => Act::Pay(cents, over),
        BriefAct::Curtail(cents) => Act::Curtail(cents),
        BriefAct::Payoff(cents) => Act::Payoff(cents),
        BriefAct::Deposit(cents) => Act::Deposit(cents),
        BriefAct::Disburse(line, cents) => Act::Disburse(cents, line),
        BriefAct::Refund(cents) => Act::Refund(cents),
        BriefAct::Waive(cents) => Act::Waive(cents),
        BriefAct::Analyse(place) => Act::Analyse(settled[place]),
    }
}

/// Adds what an act settles, for which there is room.
pub(crate) fn keep_settled(settled: &mut Vec<Settled>, act: &Act)
    requires { vec_len settled.old < vec_capacity settled.old }
    ensures items { settled.new.items ≡ settled.old.items ++ rule.settled_in act.now }
    ensures capacity { vec_capacity settled.new ≡ vec_capacity settled.old }
    ensures len { vec_len settled.new ≤ vec_len settled.old + 1 }
{
    if let Act::Analyse(new) = act {
        settled.push_reserved(*new);
    }
}
