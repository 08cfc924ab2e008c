//! The words, fields and values of each form of requests.

use svc_base::{Month, first_day};
use svc_forms::{Field, FieldKind, Form, Question, Value, form_named, question_named, read_value};
use svc_types::{Designation, LineKind, PartPlan, RemitType, SurplusPlan, read_key};

/// Whether fields have these names.
fn have_names(fields: &[Field], names: &[&str]) -> bool {
    for (field, name) in fields.iter().zip(names) {
        if field.name() != *name {
            return false;
        }
    }
    fields.len() == names.len()
}

/// Whether a form has this word and these fields, and no other form has the word.
fn is_form(form: Form, word: &[u8], names: &[&str]) -> bool {
    form.word() == word && form_named(word) == Some(form) && have_names(form.fields(), names)
}

#[test]
fn each_form_of_commands_has_its_word_and_fields(rt: HostRuntime) {
    assert!(rt; is_form(Form::Day, b"day", &["day"]));
    assert!(rt;
        is_form(
            Form::Board,
            b"board",
            &[
                "loan",
                "day",
                "principal",
                "rate",
                "fee",
                "pi",
                "term",
                "first",
                "grace",
                "late",
                "cushion",
                "escrow",
                "type",
            ],
        )
    );
    assert!(rt;
        is_form(
            Form::Pay,
            b"pay",
            &["loan", "day", "amount", "designation"],
        )
    );
    assert!(rt; is_form(Form::Curtail, b"curtail", &["loan", "day", "amount"]));
    assert!(rt; is_form(Form::Payoff, b"payoff", &["loan", "day", "amount"]));
    assert!(rt; is_form(Form::Deposit, b"deposit", &["loan", "day", "amount"]));
    assert!(rt;
        is_form(
            Form::Disburse,
            b"disburse",
            &["loan", "day", "amount", "line"],
        )
    );
    assert!(rt; is_form(Form::Refund, b"refund", &["loan", "amount"]));
    assert!(rt; is_form(Form::Waive, b"waive", &["loan", "amount"]));
    assert!(rt; is_form(Form::Reverse, b"reverse", &["loan", "number"]));
    assert!(rt;
        is_form(
            Form::Line,
            b"line",
            &["loan", "line", "kind", "month", "every", "amount"],
        )
    );
    assert!(rt; is_form(Form::Drop, b"drop", &["loan", "line"]));
    assert!(rt;
        is_form(
            Form::Analyse,
            b"analyse",
            &["loan", "surplus", "short", "deficient"],
        )
    );
    assert!(rt; is_form(Form::Close, b"close", &["period"]));
    assert!(rt; is_form(Form::Remit, b"remit", &["period"]));
    assert!(rt; is_form(Form::Retype, b"retype", &["loan", "period", "type"]));
    assert_eq!(rt; form_named(b"books"), None);
    assert_eq!(rt; form_named(b"Day"), None);
    assert_eq!(rt; form_named(b""), None);
}

/// Whether a question has this word and these fields, and no other question has the word.
fn is_question(question: Question, word: &[u8], names: &[&str]) -> bool {
    question.word() == word
        && question_named(word) == Some(question)
        && have_names(question.fields(), names)
}

#[test]
fn each_form_of_queries_has_its_word_and_fields(rt: HostRuntime) {
    assert!(rt; is_question(Question::Books, b"books", &["loan"]));
    assert!(rt; is_question(Question::At, b"at", &["loan", "day"]));
    assert!(rt; is_question(Question::Payoff, b"payoff", &["loan", "day"]));
    assert!(rt; is_question(Question::Escrow, b"escrow", &["loan"]));
    assert!(rt; is_question(Question::Report, b"report", &["period"]));
    assert!(rt; is_question(Question::Trial, b"trial", &["period"]));
    assert!(rt; is_question(Question::Custodial, b"custodial", &[]));
    assert!(rt; is_question(Question::Rows, b"rows", &["number"]));
    assert!(rt; is_question(Question::Loan, b"loan", &["loan"]));
    assert!(rt; is_question(Question::History, b"history", &["loan"]));
    assert!(rt; is_question(Question::Quote, b"quote", &["loan", "day"]));
    assert!(rt; is_question(Question::Arrears, b"arrears", &["loan"]));
    assert!(rt; is_question(Question::Aging, b"aging", &[]));
    assert!(rt; is_question(Question::Status, b"status", &[]));
    assert!(rt; is_question(Question::Command, b"command", &["number"]));
    assert!(rt; is_question(Question::Key, b"key", &["key"]));
    assert_eq!(rt; question_named(b"frob"), None);
}

#[test]
fn each_kind_of_value_is_read(rt: HostRuntime) {
    let january = Month::new(2024, 1);
    let rows: [(FieldKind, &[u8], Option<Value>); 16] = [
        (FieldKind::Number, b"0", Some(Value::Number(0))),
        (FieldKind::Number, b"01", None),
        (FieldKind::Number, b"4294967296", None),
        (FieldKind::Amount, b"1199.10", Some(Value::Amount(119_910))),
        (FieldKind::Amount, b"100000000000.00", None),
        (
            FieldKind::Day,
            b"2024-01-01",
            Some(Value::Day(first_day(january))),
        ),
        (FieldKind::Day, b"2024-02-30", None),
        (FieldKind::Month, b"2024-01", Some(Value::Month(january))),
        (FieldKind::Month, b"2100-01", None),
        (FieldKind::Type, b"SA", Some(Value::Type(RemitType::SA))),
        (
            FieldKind::Kind,
            b"flood",
            Some(Value::Kind(LineKind::Flood)),
        ),
        (
            FieldKind::Surplus,
            b"retain",
            Some(Value::Surplus(SurplusPlan::Retain)),
        ),
        (
            FieldKind::Part,
            b"spread:12",
            Some(Value::Part(PartPlan::Spread(12))),
        ),
        (
            FieldKind::Designation,
            b"escrow",
            Some(Value::Designation(Designation::Escrow)),
        ),
        (
            FieldKind::Key,
            b"k8",
            read_key(b"k8").map(|key| Value::Key(key)),
        ),
        (FieldKind::Key, b"k/8", None),
    ];
    for (kind, text, value) in rows {
        assert_eq!(rt; read_value(kind, text), value);
    }
    assert_eq!(rt; read_value(FieldKind::Designation, b"regular"), None);
}
