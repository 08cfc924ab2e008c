//! The lines that most files hold, payments and deposits, read without a list of values.

ghost use Rattle.std.specs.Prelude.{◌≡◌, ◌∷◌, [], map, codes, IfSome};
ghost use Rattle.svc_base.specs.Calendar.{IsReadDay};
ghost use Rattle.svc_base.specs.Text.{text_of_number, text_of_day, text_of_amount, IsReadAmount};
ghost use Rattle.svc_types.specs.Requests.{IsCommand};
ghost use Rattle.svc_forms.specs.Values.{text_of_value};
ghost use Rattle.svc_forms.specs.Forms.{word_of, form_of, values_of};
ghost use Rattle.serv_line.specs.Lines.{words_of};

use crate::words::next_word;
use svc_base::{Cents, Day, read_amount, read_day, read_number};
use svc_types::{Command, Designation};

/// The command that words ask, where it is a deposit, or a payment that says nothing of what is over. Where it gives
/// none, the general way decides.
#[inline(always)]
pub(crate) fn quick_command(words: &[u8]) -> Option<Command>
    ensures well { IfSome result IsCommand }
    ensures read { IfSome result (λ c. words_of words.now ≡ word_of (form_of c) ∷ map text_of_value (values_of c)) }
{
    let (name, rest) = next_word(words);
    if name == b"pay".as_slice() {
        let (loan, day, amount) = entry_of(rest?)?;
        return Some(Command::Pay(loan, day, amount, Designation::Regular));
    }
    if name == b"deposit".as_slice() {
        let (loan, day, amount) = entry_of(rest?)?;
        return Some(Command::Deposit(loan, day, amount));
    }
    None
}

/// A loan, a day and an amount in cents, and no word more.
#[inline(always)]
fn entry_of(words: &[u8]) -> Option<(u32, Day, Cents)>
    ensures day { IfSome result (λ r. IsReadDay r.1) }
    ensures amount { IfSome result (λ r. IsReadAmount r.2) }
    ensures read { IfSome result (λ r. words_of words.now
        ≡ text_of_number r.0 ∷ text_of_day r.1 ∷ text_of_amount r.2 ∷ []) }
{
    let (loan, rest) = next_word(words);
    let loan = read_number(loan)?;
    let (day, rest) = next_word(rest?);
    let day = read_day(day).ok()?;
    let (amount, rest) = next_word(rest?);
    match rest {
        Some(_) => None,
        None => Some((loan, day, read_amount(amount)?)),
    }
}
