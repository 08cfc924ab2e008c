//! The questions that paths spell.

ghost use Rattle.std.specs.Prelude.{◌≡◌, ◌≢◌, ℕ, ◌^◌, ◌<◌, ◌++◌, List, IfSome, IfNone, codes};
ghost use Rattle.svc_base.specs.Calendar.{IsReadDay};
ghost use Rattle.svc_base.specs.Text.{IsReadMonth, text_of_number, text_of_day, text_of_month};
ghost use Rattle.svc_types.specs.Keys.{IsKey};
ghost use Rattle.svc_types.specs.declared.requests.Query.{Query};
ghost use Rattle.serv_http.specs.Routes.{Spells};

use crate::fields::is_text;
use crate::route::Route;
use svc_base::{Day, Month, read_day, read_month, read_number};
use svc_types::{Key, Query, read_key};

/// What stands between two texts.
fn between<'a>(path: &'a [u8], before: &[u8], after: &[u8]) -> Option<&'a [u8]>
    ensures read { IfSome result (λ mid. path.now ≡ before.now ++ (mid.now ++ after.now)) }
    ensures none { IfNone result ((mid : List ℕ) → path.now ≢ before.now ++ (mid ++ after.now)) }
{
    match path.strip_prefix(before) {
        Some(rest) => rest.strip_suffix(after),
        None => None,
    }
}

/// The number between two texts.
fn number_between(path: &[u8], before: &[u8], after: &[u8]) -> Option<u32>
    ensures read { IfSome result (λ n. path.now ≡ before.now ++ (text_of_number n ++ after.now)) }
    ensures range { IfSome result (λ n. n < 2 ^ 32) }
    ensures none { IfNone result ((n : ℕ) → n < 2 ^ 32
        → path.now ≢ before.now ++ (text_of_number n ++ after.now)) }
{
    let Some(text) = between(path, before, after) else {
        return None;
    };
    read_number(text)
}

/// The month between two texts.
fn month_between(path: &[u8], before: &[u8], after: &[u8]) -> Option<Month>
    ensures read { IfSome result (λ m. path.now ≡ before.now ++ (text_of_month m ++ after.now)) }
    ensures range { IfSome result IsReadMonth }
    ensures none { IfNone result ((m : ℕ) → IsReadMonth m
        → path.now ≢ before.now ++ (text_of_month m ++ after.now)) }
{
    let Some(text) = between(path, before, after) else {
        return None;
    };
    match read_month(text) {
        Ok(month) => Some(month),
        Err(_) => None,
    }
}

/// The key after a text.
fn key_after(path: &[u8], before: &[u8]) -> Option<Key>
    ensures read { IfSome result (λ key. path.now ≡ before.now ++ key) }
    ensures formed { IfSome result IsKey }
    ensures none { IfNone result ((key : List ℕ) → IsKey key → path.now ≢ before.now ++ key) }
{
    match path.strip_prefix(before) {
        Some(text) => read_key(text),
        None => None,
    }
}

/// The day at the end of a path, and what stands before it.
fn day_at_end(path: &[u8]) -> Option<(&[u8], Day)>
    ensures read { IfSome result (λ r. IsReadDay r.1 × (path.now ≡ r.0.now ++ text_of_day r.1)) }
    ensures none { IfNone result ((front : List ℕ) (d : ℕ) → IsReadDay d
        → path.now ≢ front ++ text_of_day d) }
{
    if path.len() < 10 {
        return None;
    }
    let (front, text) = path.split_at(path.len() - 10);
    match read_day(text) {
        Ok(day) => Some((front, day)),
        Err(_) => None,
    }
}

/// A loan, and a day of its books.
#[derive(Clone, Copy)]
struct LoanDay {
    loan: u32,
    day: Day,
}

/// The loan and the day of a path.
fn loan_and_day(path: &[u8], middle: &[u8]) -> Option<LoanDay>
    ensures range { IfSome result (λ r. (r.loan < 2 ^ 32) × IsReadDay r.day) }
    ensures read { IfSome result (λ r.
        path.now ≡ codes "/v1/loans/" ++ (text_of_number r.loan ++ (middle.now ++ text_of_day r.day))) }
    ensures none { IfNone result ((l d : ℕ) → l < 2 ^ 32 → IsReadDay d
        → path.now ≢ codes "/v1/loans/" ++ (text_of_number l ++ (middle.now ++ text_of_day d))) }
{
    match day_at_end(path) {
        Some((front, day)) => match number_between(front, b"/v1/loans/", middle) {
            Some(loan) => Some(LoanDay { loan, day }),
            None => None,
        },
        None => None,
    }
}

/// The question of a loan's books at the business day.
fn books(path: &[u8]) -> Option<Query>
    ensures read { IfSome result (Spells Route.Books path.now) }
    ensures none { IfNone result ((q : Query) → ¬ (Spells Route.Books path.now q)) }
{
    match number_between(path, b"/v1/loans/", b"/books") {
        Some(loan) => Some(Query::Books(loan)),
        None => None,
    }
}

/// The question of a loan's books at a day.
fn books_at(path: &[u8]) -> Option<Query>
    ensures read { IfSome result (Spells Route.BooksAt path.now) }
    ensures none { IfNone result ((q : Query) → ¬ (Spells Route.BooksAt path.now q)) }
{
    match loan_and_day(path, b"/books/") {
        Some(of) => Some(Query::At(of.loan, of.day)),
        None => None,
    }
}

/// The question of what pays a loan off on a day.
fn payoff(path: &[u8]) -> Option<Query>
    ensures read { IfSome result (Spells Route.Payoff path.now) }
    ensures none { IfNone result ((q : Query) → ¬ (Spells Route.Payoff path.now q)) }
{
    match loan_and_day(path, b"/payoff/") {
        Some(of) => Some(Query::Payoff(of.loan, of.day)),
        None => None,
    }
}

/// The question of what an escrow analysis would find.
fn escrow(path: &[u8]) -> Option<Query>
    ensures read { IfSome result (Spells Route.Escrow path.now) }
    ensures none { IfNone result ((q : Query) → ¬ (Spells Route.Escrow path.now q)) }
{
    match number_between(path, b"/v1/loans/", b"/escrow") {
        Some(loan) => Some(Query::Escrow(loan)),
        None => None,
    }
}

/// The question of a month's report.
fn report(path: &[u8]) -> Option<Query>
    ensures read { IfSome result (Spells Route.Report path.now) }
    ensures none { IfNone result ((q : Query) → ¬ (Spells Route.Report path.now q)) }
{
    match month_between(path, b"/v1/months/", b"/report") {
        Some(month) => Some(Query::Report(month)),
        None => None,
    }
}

/// The question of the balances of a month's report.
fn trial(path: &[u8]) -> Option<Query>
    ensures read { IfSome result (Spells Route.Trial path.now) }
    ensures none { IfNone result ((q : Query) → ¬ (Spells Route.Trial path.now q)) }
{
    match month_between(path, b"/v1/months/", b"/trial") {
        Some(month) => Some(Query::Trial(month)),
        None => None,
    }
}

/// The question of the custodial accounts.
fn custodial(path: &[u8]) -> Option<Query>
    ensures read { IfSome result (Spells Route.Custodial path.now) }
    ensures none { IfNone result ((q : Query) → ¬ (Spells Route.Custodial path.now q)) }
{
    if is_text(path, b"/v1/custodial") {
        Some(Query::Custodial)
    } else {
        None
    }
}

/// The question of the custodial rows of a command.
fn rows(path: &[u8]) -> Option<Query>
    ensures read { IfSome result (Spells Route.Rows path.now) }
    ensures none { IfNone result ((q : Query) → ¬ (Spells Route.Rows path.now q)) }
{
    match number_between(path, b"/v1/rows/", b"") {
        Some(number) => Some(Query::Rows(number)),
        None => None,
    }
}

/// The question of a loan's terms, escrow lines and changes of remittance type.
fn loan(path: &[u8]) -> Option<Query>
    ensures read { IfSome result (Spells Route.Loan path.now) }
    ensures none { IfNone result ((q : Query) → ¬ (Spells Route.Loan path.now q)) }
{
    match number_between(path, b"/v1/loans/", b"") {
        Some(loan) => Some(Query::Loan(loan)),
        None => None,
    }
}

/// The question of a loan's history.
fn history(path: &[u8]) -> Option<Query>
    ensures read { IfSome result (Spells Route.History path.now) }
    ensures none { IfNone result ((q : Query) → ¬ (Spells Route.History path.now q)) }
{
    match number_between(path, b"/v1/loans/", b"/history") {
        Some(loan) => Some(Query::History(loan)),
        None => None,
    }
}

/// The question of what pays a loan off on a day, also one to come.
fn quote(path: &[u8]) -> Option<Query>
    ensures read { IfSome result (Spells Route.Quote path.now) }
    ensures none { IfNone result ((q : Query) → ¬ (Spells Route.Quote path.now q)) }
{
    match loan_and_day(path, b"/quote/") {
        Some(of) => Some(Query::Quote(of.loan, of.day)),
        None => None,
    }
}

/// The question of what brings a loan current.
fn arrears(path: &[u8]) -> Option<Query>
    ensures read { IfSome result (Spells Route.Arrears path.now) }
    ensures none { IfNone result ((q : Query) → ¬ (Spells Route.Arrears path.now q)) }
{
    match number_between(path, b"/v1/loans/", b"/arrears") {
        Some(loan) => Some(Query::Arrears(loan)),
        None => None,
    }
}

/// The question of all loans by how late they are.
fn aging(path: &[u8]) -> Option<Query>
    ensures read { IfSome result (Spells Route.Aging path.now) }
    ensures none { IfNone result ((q : Query) → ¬ (Spells Route.Aging path.now q)) }
{
    if is_text(path, b"/v1/aging") {
        Some(Query::Aging)
    } else {
        None
    }
}

/// The question of where the days, the months and the counts stand.
fn status(path: &[u8]) -> Option<Query>
    ensures read { IfSome result (Spells Route.Status path.now) }
    ensures none { IfNone result ((q : Query) → ¬ (Spells Route.Status path.now q)) }
{
    if is_text(path, b"/v1/status") {
        Some(Query::Status)
    } else {
        None
    }
}

/// The question of an accepted command, by its number.
fn command(path: &[u8]) -> Option<Query>
    ensures read { IfSome result (Spells Route.Command path.now) }
    ensures none { IfNone result ((q : Query) → ¬ (Spells Route.Command path.now q)) }
{
    match number_between(path, b"/v1/commands/", b"") {
        Some(number) => Some(Query::Command(number)),
        None => None,
    }
}

/// The question of an accepted command, by its key.
fn key(path: &[u8]) -> Option<Query>
    ensures read { IfSome result (Spells Route.Key path.now) }
    ensures none { IfNone result ((q : Query) → ¬ (Spells Route.Key path.now q)) }
{
    match key_after(path, b"/v1/keys/") {
        Some(key) => Some(Query::Key(key)),
        None => None,
    }
}

/// The question that a path of a route spells, where it spells one.
pub(crate) fn query_of(route: Route, path: &[u8]) -> Option<Query>
    ensures read { IfSome result (Spells route path.now) }
    ensures none { IfNone result ((q : Query) → ¬ (Spells route path.now q)) }
{
    match route {
        Route::Commands => None,
        Route::Books => books(path),
        Route::BooksAt => books_at(path),
        Route::Payoff => payoff(path),
        Route::Escrow => escrow(path),
        Route::Report => report(path),
        Route::Trial => trial(path),
        Route::Custodial => custodial(path),
        Route::Rows => rows(path),
        Route::Loan => loan(path),
        Route::History => history(path),
        Route::Quote => quote(path),
        Route::Arrears => arrears(path),
        Route::Aging => aging(path),
        Route::Status => status(path),
        Route::Command => command(path),
        Route::Key => key(path),
    }
}
