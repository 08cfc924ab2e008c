//! Requests and the values of their fields, both ways.

ghost use Rattle.svc_base.specs.Calendar.{IsReadDay};
ghost use Rattle.svc_base.specs.Text.{IsReadAmount, IsReadMonth};
ghost use Rattle.svc_types.specs.Requests.{IsCommand, IsQuery};

use std::test::Fail;
use svc_base::{Cents, Day, Month, read_amount, read_day, read_month};
use svc_forms::{Form, Question, command_of, query_of, values_of, values_of_query};
use svc_types::{
    Command, Designation, LineKind, PartPlan, Plan, Query, RemitType, SurplusPlan, Terms, read_key,
};

/// Whether a command has so many values, and is made of them again.
#[tactic(auto, using(svc_forms::proofs::RequestLemmas::command_fits))]
fn goes_both_ways(command: &Command, count: usize) -> bool
    requires { IsCommand command.now }
{
    let values = values_of(command);
    let values = values.as_slice();
    values.len() == count && command_of(Form::of(command), values) == *command
}

/// Whether a query has so many values, and is made of them again.
#[tactic(auto, using(svc_forms::proofs::RequestLemmas::query_fits))]
fn is_asked_both_ways(query: &Query, count: usize) -> bool
    requires { IsQuery query.now }
{
    let values = values_of_query(query);
    let values = values.as_slice();
    values.len() == count && query_of(Question::of(query), values) == *query
}

/// A loan of that principal and payment.
fn board(day: Day, amount: Cents, first: Month) -> Command
    requires day { IsReadDay day }
    requires amount { IsReadAmount amount }
    requires first { IsReadMonth first }
    ensures { IsCommand result }
{
    let terms = Terms {
        boarded: day,
        principal: amount,
        rate: 6_000,
        fee: 250,
        pi: amount,
        term: 360,
        first,
        grace: 15,
        late: 500,
        cushion: 2,
        escrow: amount,
        kind: RemitType::SS,
    };
    Command::Board(1, terms)
}

#[test]
fn commands_of_money_go_both_ways(rt: HostRuntime) -> Result<(), Fail> {
    let day = read_day(b"2024-02-01")?;
    let amount = read_amount(b"1199.10").ok_or("no amount")?;
    let bill = Command::Disburse {
        loan: 1,
        day,
        amount,
        line: 2,
    };
    assert!(rt; goes_both_ways(&Command::Pay(1, day, amount, Designation::Regular), 3));
    assert!(rt; goes_both_ways(&Command::Pay(1, day, amount, Designation::Escrow), 4));
    assert!(rt; goes_both_ways(&Command::Curtail(1, day, amount), 3));
    assert!(rt; goes_both_ways(&Command::Payoff(1, day, amount), 3));
    assert!(rt; goes_both_ways(&Command::Deposit(1, day, amount), 3));
    assert!(rt; goes_both_ways(&bill, 4));
    assert!(rt; goes_both_ways(&Command::Refund(1, amount), 2));
    assert!(rt; goes_both_ways(&Command::Waive(1, amount), 2));
    Ok(())
}

#[test]
fn other_commands_go_both_ways(rt: HostRuntime) -> Result<(), Fail> {
    let day = read_day(b"2024-02-01")?;
    let amount = read_amount(b"1199.10").ok_or("no amount")?;
    let period = read_month(b"2024-03")?;
    let line = Command::Line {
        loan: 1,
        line: 2,
        kind: LineKind::Flood,
        month: 7,
        every: 12,
        amount,
    };
    let plan = Plan {
        surplus: SurplusPlan::Credit,
        short: PartPlan::Leave,
        deficient: PartPlan::Unsaid,
    };
    let kind = RemitType::SA;
    assert!(rt; goes_both_ways(&Command::Day(day), 1));
    assert!(rt; goes_both_ways(&board(day, amount, period), 13));
    assert!(rt; goes_both_ways(&Command::Reverse { loan: 1, number: 2 }, 2));
    assert!(rt; goes_both_ways(&line, 6));
    assert!(rt; goes_both_ways(&Command::Drop { loan: 1, line: 2 }, 2));
    assert!(rt; goes_both_ways(&Command::Analyse(1, plan), 4));
    assert!(rt; goes_both_ways(&Command::Close(period), 1));
    assert!(rt; goes_both_ways(&Command::Remit(period), 1));
    assert!(rt;
        goes_both_ways(
            &Command::Retype {
                loan: 1,
                period,
                kind
            },
            3
        )
    );
    Ok(())
}

#[test]
fn queries_go_both_ways(rt: HostRuntime) -> Result<(), Fail> {
    let day = read_day(b"2024-02-01")?;
    let period = read_month(b"2024-03")?;
    let key = read_key(b"k8").ok_or("no key")?;
    assert!(rt; is_asked_both_ways(&Query::Books(1), 1));
    assert!(rt; is_asked_both_ways(&Query::At(1, day), 2));
    assert!(rt; is_asked_both_ways(&Query::Payoff(1, day), 2));
    assert!(rt; is_asked_both_ways(&Query::Escrow(1), 1));
    assert!(rt; is_asked_both_ways(&Query::Report(period), 1));
    assert!(rt; is_asked_both_ways(&Query::Trial(period), 1));
    assert!(rt; is_asked_both_ways(&Query::Custodial, 0));
    assert!(rt; is_asked_both_ways(&Query::Rows(3), 1));
    assert!(rt; is_asked_both_ways(&Query::Loan(1), 1));
    assert!(rt; is_asked_both_ways(&Query::History(1), 1));
    assert!(rt; is_asked_both_ways(&Query::Quote(1, day), 2));
    assert!(rt; is_asked_both_ways(&Query::Arrears(1), 1));
    assert!(rt; is_asked_both_ways(&Query::Aging, 0));
    assert!(rt; is_asked_both_ways(&Query::Status, 0));
    assert!(rt; is_asked_both_ways(&Query::Command(3), 1));
    assert!(rt; is_asked_both_ways(&Query::Key(key), 1));
    Ok(())
}
