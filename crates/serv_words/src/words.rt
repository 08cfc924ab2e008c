//! The words of the command line.

ghost use Rattle.std.specs.Prelude.{◌≡◌, ◌≤◌, IfSome, map};
ghost use Rattle.svc_base.specs.Text.{IsReadMonth};
ghost use Rattle.svc_types.specs.declared.requests.Query as queries;
ghost use Rattle.serv_words.specs.Words.{IsAsking, IsTask, month_in, number_in, port_of_task, range_in, served_at, task_about, task_in, task_of_word, task_over, task_with, text_of_word, year_of};
ghost use Rattle.serv_words.specs.Words as words;

use crate::extracts::Extract;
use crate::texts::Text;
use svc_base::{Month, read_month, read_number};
use svc_types::Query;

/// What the program does.
#[derive(Clone, Copy, Debug, PartialEq, Eq)]
pub enum Task {
    /// Makes an empty journal.
    Init,
    /// Answers request lines over the journal.
    Apply,
    /// Answers request lines over books in memory.
    Session,
    /// Answers the rows of a file over the journal.
    Import,
    /// Writes a text over the journal.
    Write(Text),
    /// Makes the generated year of so many loans in memory, whose draws begin with the number, and writes its summary.
    Drill(u32, u32),
    /// Serves up to so many connections to a port, one after another, over the journal, and writes a summary.
    Serve(u16, u32),
}

/// The most loans of a generated year.
const MOST_LOANS: u32 = 500;

/// The last number that draws begin with.
const LAST_NUMBER: u32 = 999_999;

/// The last port.
const LAST_PORT: u32 = 65_535;

/// The most connections that are served.
const MOST_LINKS: u32 = 1_000_000;

/// The text that a word asks for.
fn text_of(word: &str) -> Option<Task>
    ensures task { result ≡ text_of_word word.now }
    ensures well { IfSome result IsTask }
{
    if word == "statement" {
        return Some(Task::Write(Text::Make(Extract::Statement)));
    }
    if word == "confirm" {
        return Some(Task::Write(Text::Make(Extract::Confirm)));
    }
    if word == "pmi" {
        return Some(Task::Write(Text::Make(Extract::Pmi)));
    }
    if word == "pmi-drops" {
        return Some(Task::Write(Text::Make(Extract::PmiDrops)));
    }
    None
}

/// What a word asks for.
fn task_of(word: &str) -> Option<Task>
    ensures task { result ≡ task_of_word word.now }
    ensures well { IfSome result IsTask }
{
    if word == "init" {
        return Some(Task::Init);
    }
    if word == "apply" {
        return Some(Task::Apply);
    }
    if word == "session" {
        return Some(Task::Session);
    }
    if word == "import" {
        return Some(Task::Import);
    }
    if word == "custodial" {
        return Some(Task::Write(Text::Show(Query::Custodial)));
    }
    text_of(word)
}

/// The month that a text spells.
#[tactic(auto, using(crate::proofs::WordLemmas::month_read, crate::proofs::WordLemmas::month_none))]
fn month_of(text: &str) -> Option<Month>
    ensures month { result ≡ month_in text.now }
    ensures range { IfSome result IsReadMonth }
{
    match read_month(text.as_bytes()) {
        Ok(month) => Some(month),
        Err(_) => None,
    }
}

/// What a word asks for about a month.
fn task_of_month(word: &str, text: &str) -> Option<Task>
    ensures task { result ≡ task_about word.now (month_in text.now) }
    ensures well { IfSome result IsTask }
{
    let month = month_of(text)?;
    if word == "report" {
        return Some(Task::Write(Text::Show(Query::Report(month))));
    }
    if word == "trial" {
        return Some(Task::Write(Text::Show(Query::Trial(month))));
    }
    None
}

/// The number up to this one that a text spells.
#[tactic(auto, using(crate::proofs::WordLemmas::number_read, crate::proofs::WordLemmas::number_none, crate::proofs::WordLemmas::number_beyond))]
fn number_of(text: &str, most: u32) -> Option<u32>
    ensures number { result ≡ number_in most text.now }
    ensures few { IfSome result (λ number. number ≤ most) }
{
    let number = read_number(text.as_bytes())?;
    if number <= most { Some(number) } else { None }
}

/// The generated year of so many loans, whose draws begin with the number.
fn year(loans: &str, number: &str) -> Option<Task>
    ensures task { result ≡ year_of (number_in 999999 loans.now) (number_in 999999 number.now) }
    ensures well { IfSome result IsTask }
{
    let loans = number_of(loans, LAST_NUMBER)?;
    let number = number_of(number, LAST_NUMBER)?;
    if (1..=MOST_LOANS).contains(&loans) {
        Some(Task::Drill(loans, number))
    } else {
        None
    }
}

/// So many connections to the port.
fn service(port: &str, links: &str) -> Option<Task>
    ensures task { result ≡ served_at (number_in 65535 port.now) (number_in 1000000 links.now) }
    ensures well { IfSome result IsTask }
{
    let port = number_of(port, LAST_PORT)?;
    let links = number_of(links, MOST_LINKS)?;
    if port >= 1 && links >= 1 {
        Some(Task::Serve(port as u16, links))
    } else {
        None
    }
}

/// The range from one number to another that is not below it.
fn range(from: &str, to: &str) -> Option<(u32, u32)>
    ensures range { result ≡ range_in from.now to.now }
    ensures up { IfSome result (λ r. r.0 ≤ r.1) }
{
    let from = number_of(from, u32::MAX)?;
    let to = number_of(to, u32::MAX)?;
    if from <= to { Some((from, to)) } else { None }
}

/// The span of commands from one number, which is not 0, to another.
fn span(first: u32, last: u32) -> Option<Task>
    requires up { first ≤ last }
    ensures task { result ≡ words.span first last }
    ensures well { IfSome result IsTask }
{
    if first >= 1 {
        Some(Task::Write(Text::Make(Extract::Reconcile(first, last))))
    } else {
        None
    }
}

/// What a word asks for about a range of loans, or of commands.
fn task_of_range(word: &str, from: &str, to: &str) -> Option<Task>
    ensures task { result ≡ task_over word.now (range_in from.now to.now) }
    ensures well { IfSome result IsTask }
{
    let (from, to) = range(from, to)?;
    if word == "transfer" {
        return Some(Task::Write(Text::Make(Extract::Transfer(from, to))));
    }
    if word == "remain" {
        return Some(Task::Write(Text::Make(Extract::Remain(from, to))));
    }
    if word == "reconcile" {
        return span(from, to);
    }
    None
}

/// What a word asks for about two numbers.
fn task_of_numbers(word: &str, first: &str, second: &str) -> Option<Task>
    ensures task { result ≡ task_with word.now first.now second.now }
    ensures well { IfSome result IsTask }
{
    if word == "drill" {
        return year(first, second);
    }
    if word == "serve" {
        return service(first, second);
    }
    task_of_range(word, first, second)
}

/// What the words ask for, which begin with a journal's name.
pub fn read_words(words: &[&str]) -> Option<Task>
    ensures task { result ≡ task_in (map (λ w. w.now) words.now) }
    ensures well { IfSome result IsTask }
    ensures other { IfSome result (λ task. (q : queries.Query) → IsAsking (map (λ w. w.now) words.now) q → ⊥) }
{
    match words {
        [journal, word] => {
            if journal.is_empty() {
                return None;
            }
            task_of(word)
        }
        [journal, word, month] => {
            if journal.is_empty() {
                return None;
            }
            task_of_month(word, month)
        }
        [journal, word, first, second] => {
            if journal.is_empty() {
                return None;
            }
            task_of_numbers(word, first, second)
        }
        _ => None,
    }
}

/// The port that the words `<journal> serve <port> <connections>` name. Of other words it is 0.
pub fn port_in(words: &[&str]) -> u16
    ensures { result ≡ port_of_task (task_in (map (λ w. w.now) words.now)) }
{
    match read_words(words) {
        Some(Task::Serve(port, _)) => port,
        _ => 0,
    }
}
