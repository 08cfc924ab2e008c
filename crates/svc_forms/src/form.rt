//! The table of forms: each one's word and its fields.

ghost use Rattle.std.specs.Prelude.{◌≡◌, ◌≢◌, ◌≤◌, IfSome, IfNone, length};
ghost use Rattle.svc_forms.specs.Forms.{word_of, fields_of, form_of, word_of_question, fields_of_question, question_of};
ghost use Rattle.svc_forms.specs.declared.form.Form as forms;
ghost use Rattle.svc_forms.specs.declared.form.Question as questions;

use crate::field::Field;
use svc_types::{Command, Query};

/// No form has more fields.
pub const MAX_FIELDS: usize = 13;

/// The form of a command.
#[derive(Clone, Copy, Debug, PartialEq, Eq)]
pub enum Form {
    Day,
    Board,
    Pay,
    Curtail,
    Payoff,
    Deposit,
    Disburse,
    Refund,
    Waive,
    Reverse,
    Line,
    Drop,
    Analyse,
    Close,
    Remit,
    Retype,
}

/// The form of a query.
#[derive(Clone, Copy, Debug, PartialEq, Eq)]
pub enum Question {
    Books,
    At,
    Payoff,
    Escrow,
    Report,
    Trial,
    Custodial,
    Rows,
    Loan,
    History,
    Quote,
    Arrears,
    Aging,
    Status,
    Command,
    Key,
}

impl Form {
    /// The form of a command.
    pub fn of(command: &Command) -> Form
        ensures { result ≡ form_of command.now }
    {
        match command {
            Command::Day(..) => Form::Day,
            Command::Board(..) => Form::Board,
            Command::Pay(..) => Form::Pay,
            Command::Curtail(..) => Form::Curtail,
            Command::Payoff(..) => Form::Payoff,
            Command::Deposit(..) => Form::Deposit,
            Command::Disburse { .. } => Form::Disburse,
            Command::Refund(..) => Form::Refund,
            Command::Waive(..) => Form::Waive,
            Command::Reverse { .. } => Form::Reverse,
            Command::Line { .. } => Form::Line,
            Command::Drop { .. } => Form::Drop,
            Command::Analyse(..) => Form::Analyse,
            Command::Close(..) => Form::Close,
            Command::Remit(..) => Form::Remit,
            Command::Retype { .. } => Form::Retype,
        }
    }

    /// Its word.
    pub fn word(self) -> &'static [u8]
        ensures { result.now ≡ word_of self }
    {
        match self {
            Form::Day => b"day",
            Form::Board => b"board",
            Form::Pay => b"pay",
            Form::Curtail => b"curtail",
            Form::Payoff => b"payoff",
            Form::Deposit => b"deposit",
            Form::Disburse => b"disburse",
            Form::Refund => b"refund",
            Form::Waive => b"waive",
            Form::Reverse => b"reverse",
            Form::Line => b"line",
            Form::Drop => b"drop",
            Form::Analyse => b"analyse",
            Form::Close => b"close",
            Form::Remit => b"remit",
            Form::Retype => b"retype",
        }
    }

    /// Its fields, in the order in which a line has them.
    pub fn fields(self) -> &'static [Field]
        ensures value { result.now ≡ fields_of self }
        ensures few { length result.now ≤ MAX_FIELDS }
    {
        match self {
            Form::Day => &[Field::Day],
            Form::Board => &[
                Field::Loan,
                Field::Day,
                Field::Principal,
                Field::Rate,
                Field::Fee,
                Field::Pi,
                Field::Term,
                Field::First,
                Field::Grace,
                Field::Late,
                Field::Cushion,
                Field::Escrow,
                Field::Type,
            ],
            Form::Pay => &[Field::Loan, Field::Day, Field::Amount, Field::Designation],
            Form::Curtail | Form::Payoff | Form::Deposit => &[
                Field::Loan,
                Field::Day,
                Field::Amount,
            ],
            Form::Disburse => &[Field::Loan, Field::Day, Field::Amount, Field::Line],
            Form::Refund | Form::Waive => &[Field::Loan, Field::Amount],
            Form::Reverse => &[Field::Loan, Field::Number],
            Form::Line => &[
                Field::Loan,
                Field::Line,
                Field::Kind,
                Field::Month,
                Field::Every,
                Field::Amount,
            ],
            Form::Drop => &[Field::Loan, Field::Line],
            Form::Analyse => &[Field::Loan, Field::Surplus, Field::Short, Field::Deficient],
            Form::Close | Form::Remit => &[Field::Period],
            Form::Retype => &[Field::Loan, Field::Period, Field::Type],
        }
    }
}

impl Question {
    /// The form of a query.
    pub fn of(query: &Query) -> Question
        ensures { result ≡ question_of query.now }
    {
        match query {
            Query::Books(..) => Question::Books,
            Query::At(..) => Question::At,
            Query::Payoff(..) => Question::Payoff,
            Query::Escrow(..) => Question::Escrow,
            Query::Report(..) => Question::Report,
            Query::Trial(..) => Question::Trial,
            Query::Custodial => Question::Custodial,
            Query::Rows(..) => Question::Rows,
            Query::Loan(..) => Question::Loan,
            Query::History(..) => Question::History,
            Query::Quote(..) => Question::Quote,
            Query::Arrears(..) => Question::Arrears,
            Query::Aging => Question::Aging,
            Query::Status => Question::Status,
            Query::Command(..) => Question::Command,
            Query::Key(..) => Question::Key,
        }
    }

    /// Its word.
    pub fn word(self) -> &'static [u8]
        ensures { result.now ≡ word_of_question self }
    {
        match self {
            Question::Books => b"books",
            Question::At => b"at",
            Question::Payoff => b"payoff",
            Question::Escrow => b"escrow",
            Question::Report => b"report",
            Question::Trial => b"trial",
            Question::Custodial => b"custodial",
            Question::Rows => b"rows",
            Question::Loan => b"loan",
            Question::History => b"history",
            Question::Quote => b"quote",
            Question::Arrears => b"arrears",
            Question::Aging => b"aging",
            Question::Status => b"status",
            Question::Command => b"command",
            Question::Key => b"key",
        }
    }

    /// Its fields, in the order in which a line has them.
    pub fn fields(self) -> &'static [Field]
        ensures value { result.now ≡ fields_of_question self }
        ensures few { length result.now ≤ MAX_FIELDS }
    {
        match self {
            Question::Books
            | Question::Escrow
            | Question::Loan
            | Question::History
            | Question::Arrears => &[Field::Loan],
            Question::At | Question::Payoff | Question::Quote => &[Field::Loan, Field::Day],
            Question::Report | Question::Trial => &[Field::Period],
            Question::Custodial | Question::Aging | Question::Status => &[],
            Question::Rows | Question::Command => &[Field::Number],
            Question::Key => &[Field::Key],
        }
    }
}

/// The form of commands that a word names.
#[inline(always)]
pub fn form_named(word: &[u8]) -> Option<Form>
    ensures named { IfSome result (λ f. word.now ≡ word_of f) }
    ensures none { IfNone result ((f : forms.Form) → word.now ≢ word_of f) }
{
    match word {
        b"day" => Some(Form::Day),
        b"board" => Some(Form::Board),
        b"pay" => Some(Form::Pay),
        b"curtail" => Some(Form::Curtail),
        b"payoff" => Some(Form::Payoff),
        b"deposit" => Some(Form::Deposit),
        b"disburse" => Some(Form::Disburse),
        b"refund" => Some(Form::Refund),
        b"waive" => Some(Form::Waive),
        b"reverse" => Some(Form::Reverse),
        b"line" => Some(Form::Line),
        b"drop" => Some(Form::Drop),
        b"analyse" => Some(Form::Analyse),
        b"close" => Some(Form::Close),
        b"remit" => Some(Form::Remit),
        b"retype" => Some(Form::Retype),
        _ => None,
    }
}

/// The form of queries that a word names.
pub fn question_named(word: &[u8]) -> Option<Question>
    ensures named { IfSome result (λ q. word.now ≡ word_of_question q) }
    ensures none { IfNone result ((q : questions.Question) → word.now ≢ word_of_question q) }
{
    match word {
        b"books" => Some(Question::Books),
        b"at" => Some(Question::At),
        b"payoff" => Some(Question::Payoff),
        b"escrow" => Some(Question::Escrow),
        b"report" => Some(Question::Report),
        b"trial" => Some(Question::Trial),
        b"custodial" => Some(Question::Custodial),
        b"rows" => Some(Question::Rows),
        b"loan" => Some(Question::Loan),
        b"history" => Some(Question::History),
        b"quote" => Some(Question::Quote),
        b"arrears" => Some(Question::Arrears),
        b"aging" => Some(Question::Aging),
        b"status" => Some(Question::Status),
        b"command" => Some(Question::Command),
        b"key" => Some(Question::Key),
        _ => None,
    }
}
