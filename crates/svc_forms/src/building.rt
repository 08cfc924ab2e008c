//! The request that a form's values make.

ghost use Rattle.std.specs.Prelude.{◌≡◌, ◌∷◌, []};
ghost use Rattle.svc_types.specs.Requests.{IsCommand, IsQuery, IsReadTerms};
ghost use Rattle.svc_forms.specs.Values.{AreValuesOf};
ghost use Rattle.svc_forms.specs.Forms.{fields_of, form_of, values_of, values_of_terms, fields_of_question, question_of, values_of_query};
ghost use Rattle.svc_forms.specs.declared.form.Form.TheVariants as forms;
ghost use Rattle.svc_forms.specs.declared.value.Value.TheVariants as value;

use crate::form::{Form, Question};
use crate::places::{
    amount_at, day_at, key_at, kind_at, month_at, number_at, over_of, part_at, surplus_at, type_at,
};
use crate::value::Value;
use svc_types::{Command, Plan, Query, Terms};

/// The command of a form whose fields have these values.
#[inline(always)]
#[tactic(auto, using(crate::proofs::ValueLemmas::stands, crate::proofs::ValueLemmas::one, crate::proofs::ValueLemmas::two, crate::proofs::ValueLemmas::three, crate::proofs::ValueLemmas::four, svc_base::proofs::CentsRules::cents))]
pub fn command_of(form: Form, values: &[Value]) -> Command
    requires { AreValuesOf (fields_of form) values.now }
    ensures form { form_of result ≡ form }
    ensures values { values_of result ≡ values.now }
    ensures well { IsCommand result }
{
    match form {
        Form::Day => Command::Day(day_at(values, 0)),
        Form::Board => board_of(values),
        Form::Pay => pay_of(values),
        Form::Curtail => Command::Curtail(
            number_at(values, 0),
            day_at(values, 1),
            amount_at(values, 2),
        ),
        Form::Payoff => Command::Payoff(
            number_at(values, 0),
            day_at(values, 1),
            amount_at(values, 2),
        ),
        Form::Deposit => Command::Deposit(
            number_at(values, 0),
            day_at(values, 1),
            amount_at(values, 2),
        ),
        Form::Disburse => disburse_of(values),
        Form::Refund => Command::Refund(number_at(values, 0), amount_at(values, 1)),
        Form::Waive => Command::Waive(number_at(values, 0), amount_at(values, 1)),
        Form::Reverse => Command::Reverse {
            loan: number_at(values, 0),
            number: number_at(values, 1),
        },
        Form::Line => line_of(values),
        Form::Drop => Command::Drop {
            loan: number_at(values, 0),
            line: number_at(values, 1),
        },
        Form::Analyse => analyse_of(values),
        Form::Close => Command::Close(month_at(values, 0)),
        Form::Remit => Command::Remit(month_at(values, 0)),
        Form::Retype => Command::Retype {
            loan: number_at(values, 0),
            period: month_at(values, 1),
            kind: type_at(values, 2),
        },
    }
}

/// The command that takes a loan on.
#[tactic(auto, using(crate::proofs::ValueLemmas::stands, crate::proofs::ValueLemmas::thirteen, svc_base::proofs::CentsRules::cents))]
fn board_of(values: &[Value]) -> Command
    requires { AreValuesOf (fields_of forms.Board) values.now }
    ensures form { form_of result ≡ forms.Board }
    ensures values { values_of result ≡ values.now }
    ensures well { IsCommand result }
{
    let terms = Terms {
        boarded: day_at(values, 1),
        principal: amount_at(values, 2),
        rate: number_at(values, 3),
        fee: number_at(values, 4),
        pi: amount_at(values, 5),
        term: number_at(values, 6),
        first: month_at(values, 7),
        grace: number_at(values, 8),
        late: number_at(values, 9),
        cushion: number_at(values, 10),
        escrow: amount_at(values, 11),
        kind: type_at(values, 12),
    };
    Command::Board(number_at(values, 0), terms)
}

/// A payment.
#[tactic(auto, using(crate::proofs::ValueLemmas::stands, crate::proofs::ValueLemmas::payment, svc_base::proofs::CentsRules::cents))]
fn pay_of(values: &[Value]) -> Command
    requires { AreValuesOf (fields_of forms.Pay) values.now }
    ensures form { form_of result ≡ forms.Pay }
    ensures values { values_of result ≡ values.now }
    ensures well { IsCommand result }
{
    let (loan, day, amount) = (
        number_at(values, 0),
        day_at(values, 1),
        amount_at(values, 2),
    );
    Command::Pay(loan, day, amount, over_of(values))
}

/// A bill that is paid.
#[tactic(auto, using(crate::proofs::ValueLemmas::stands, crate::proofs::ValueLemmas::four, svc_base::proofs::CentsRules::cents))]
fn disburse_of(values: &[Value]) -> Command
    requires { AreValuesOf (fields_of forms.Disburse) values.now }
    ensures form { form_of result ≡ forms.Disburse }
    ensures values { values_of result ≡ values.now }
    ensures well { IsCommand result }
{
    Command::Disburse {
        loan: number_at(values, 0),
        day: day_at(values, 1),
        amount: amount_at(values, 2),
        line: number_at(values, 3),
    }
}

/// An escrow line that is set.
#[tactic(auto, using(crate::proofs::ValueLemmas::stands, crate::proofs::ValueLemmas::six, svc_base::proofs::CentsRules::cents))]
fn line_of(values: &[Value]) -> Command
    requires { AreValuesOf (fields_of forms.Line) values.now }
    ensures form { form_of result ≡ forms.Line }
    ensures values { values_of result ≡ values.now }
    ensures well { IsCommand result }
{
    Command::Line {
        loan: number_at(values, 0),
        line: number_at(values, 1),
        kind: kind_at(values, 2),
        month: number_at(values, 3),
        every: number_at(values, 4),
        amount: amount_at(values, 5),
    }
}

/// An analysis that is asked for.
#[tactic(auto, using(crate::proofs::ValueLemmas::stands, crate::proofs::ValueLemmas::four))]
fn analyse_of(values: &[Value]) -> Command
    requires { AreValuesOf (fields_of forms.Analyse) values.now }
    ensures form { form_of result ≡ forms.Analyse }
    ensures values { values_of result ≡ values.now }
    ensures well { IsCommand result }
{
    let plan = Plan {
        surplus: surplus_at(values, 1),
        short: part_at(values, 2),
        deficient: part_at(values, 3),
    };
    Command::Analyse(number_at(values, 0), plan)
}

/// The query of a form whose fields have these values.
#[tactic(auto, using(crate::proofs::ValueLemmas::stands, crate::proofs::ValueLemmas::none, crate::proofs::ValueLemmas::one, crate::proofs::ValueLemmas::two))]
pub fn query_of(question: Question, values: &[Value]) -> Query
    requires { AreValuesOf (fields_of_question question) values.now }
    ensures form { question_of result ≡ question }
    ensures values { values_of_query result ≡ values.now }
    ensures well { IsQuery result }
{
    match question {
        Question::Books => Query::Books(number_at(values, 0)),
        Question::At => Query::At(number_at(values, 0), day_at(values, 1)),
        Question::Payoff => Query::Payoff(number_at(values, 0), day_at(values, 1)),
        Question::Escrow => Query::Escrow(number_at(values, 0)),
        Question::Report => Query::Report(month_at(values, 0)),
        Question::Trial => Query::Trial(month_at(values, 0)),
        Question::Custodial => Query::Custodial,
        Question::Rows => Query::Rows(number_at(values, 0)),
        Question::Loan => Query::Loan(number_at(values, 0)),
        Question::History => Query::History(number_at(values, 0)),
        Question::Quote => Query::Quote(number_at(values, 0), day_at(values, 1)),
        Question::Arrears => Query::Arrears(number_at(values, 0)),
        Question::Aging => Query::Aging,
        Question::Status => Query::Status,
        Question::Command => Query::Command(number_at(values, 0)),
        Question::Key => Query::Key(key_at(values, 0)),
    }
}
