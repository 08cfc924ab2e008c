//! The commands that rows ask.

ghost use Rattle.std.specs.Prelude.{◌≡◌, ◌⊎◌, ℕ, List, [], Some, true, IfOk, IfErr, IfSome, IfNone};
ghost use Rattle.svc_base.specs.Calendar.{IsReadDay};
ghost use Rattle.svc_base.specs.Text.{text_of_number, text_of_amount, text_of_day, IsReadAmount};
ghost use Rattle.svc_types.specs.Requests.{IsCommand, IsReadNumber};
ghost use Rattle.svc_types.specs.Words.{text_of_designation};
ghost use Rattle.svc_forms.specs.Forms.{word_of};
ghost use Rattle.svc_forms.specs.Values.{Spells};
ghost use Rattle.svc_forms.specs.declared.field.FieldKind.TheVariants as kind;
ghost use Rattle.serv_import.specs.Rows.{row_of, row_with, Asks};
ghost use Rattle.serv_import.specs.Columns.{has_rows, FitsLine, NamesForm, IsBadAt};
ghost use Rattle.serv_import.specs.Fields.{fields_in};

use crate::row::Fields;
use svc_base::{Cents, Day, read_amount, read_day, read_number};
use svc_forms::{Form, form_named};
use svc_types::{Command, Designation, Key, read_designation, read_key};

/// The command that six fields ask, with its key. Errs with the first column that does not fit.
#[tactic(auto, using(crate::proofs::ColumnLemmas::bad_key, crate::proofs::ColumnLemmas::bad_word, crate::proofs::ColumnLemmas::bad_loan))]
pub(crate) fn read_fields(fields: &Fields<'_>) -> Result<(Key, Command), u32>
    ensures asked { IfOk result (λ r. Asks (fields_in fields.now) r.0 r.1) }
    ensures bad { IfErr result (IsBadAt (fields_in fields.now)) }
{
    let Some(key) = read_key(fields.key) else {
        return Err(1);
    };
    let Some(form) = read_form(fields.word) else {
        return Err(2);
    };
    let Some(loan) = spelled_number(fields.loan) else {
        return Err(3);
    };
    let Some(day) = spelled_day(fields.day) else {
        return Err(4);
    };
    let Some(amount) = spelled_amount(fields.amount) else {
        return Err(5);
    };
    let Some(command) = read_command(form, loan, day, amount, fields.line) else {
        return Err(6);
    };
    Ok((key, command))
}

/// The form that a word names, where rows ask its commands.
fn read_form(word: &[u8]) -> Option<Form>
    ensures named { IfSome result (λ f. word.now ≡ word_of f) }
    ensures rows { IfSome result (λ f. has_rows f ≡ true) }
    ensures none { IfNone result (NamesForm word.now → ⊥) }
{
    let form = form_named(word)?;
    if !has_rows_of(form) {
        return None;
    }
    Some(form)
}

/// Whether rows ask the commands of a form.
fn has_rows_of(form: Form) -> bool
    ensures { result ≡ has_rows form }
{
    matches!(
        form,
        Form::Pay | Form::Curtail | Form::Payoff | Form::Deposit | Form::Disburse
    )
}

/// The number that a field spells.
fn spelled_number(text: &[u8]) -> Option<u32>
    ensures read { IfSome result (λ n. text.now ≡ text_of_number n) }
    ensures range { IfSome result IsReadNumber }
    ensures fits { IfSome result (λ n. Spells kind.Number text.now) }
    ensures none { IfNone result (Spells kind.Number text.now → ⊥) }
{
    read_number(text)
}

/// The day that a field spells.
fn spelled_day(text: &[u8]) -> Option<Day>
    ensures read { IfSome result (λ d. text.now ≡ text_of_day d) }
    ensures range { IfSome result IsReadDay }
    ensures fits { IfSome result (λ d. Spells kind.Day text.now) }
    ensures none { IfNone result (Spells kind.Day text.now → ⊥) }
{
    read_day(text).ok()
}

/// The amount that a field spells.
fn spelled_amount(text: &[u8]) -> Option<Cents>
    ensures read { IfSome result (λ z. text.now ≡ text_of_amount z) }
    ensures range { IfSome result IsReadAmount }
    ensures fits { IfSome result (λ z. Spells kind.Amount text.now) }
    ensures none { IfNone result (Spells kind.Amount text.now → ⊥) }
{
    read_amount(text)
}

/// The command of a form whose last field is that line.
fn read_command(form: Form, loan: u32, day: Day, amount: Cents, line: &[u8]) -> Option<Command>
    requires rows { has_rows form ≡ true }
    requires loan { IsReadNumber loan }
    requires day { IsReadDay day }
    requires amount { IsReadAmount amount }
    ensures fields { IfSome result (λ c. (key : List ℕ)
        → row_of key c ≡ Some (row_with key form loan day amount line.now)) }
    ensures well { IfSome result IsCommand }
    ensures none { IfNone result (FitsLine form line.now → ⊥) }
{
    match form {
        Form::Pay => Some(Command::Pay(loan, day, amount, read_over(line)?)),
        Form::Disburse => Some(Command::Disburse {
            loan,
            day,
            amount,
            line: spelled_number(line)?,
        }),
        Form::Curtail if line.is_empty() => Some(Command::Curtail(loan, day, amount)),
        Form::Payoff if line.is_empty() => Some(Command::Payoff(loan, day, amount)),
        Form::Deposit if line.is_empty() => Some(Command::Deposit(loan, day, amount)),
        _ => None,
    }
}

/// The designation that the last field of a payment's row spells; it is empty for a regular payment.
fn read_over(line: &[u8]) -> Option<Designation>
    ensures read { IfSome result (λ d. line.now ≡ text_of_designation d) }
    ensures none { IfNone result ((line.now ≡ []) ⊎ Spells kind.Designation line.now → ⊥) }
{
    if line.is_empty() {
        return Some(Designation::Regular);
    }
    read_designation(line)
}
