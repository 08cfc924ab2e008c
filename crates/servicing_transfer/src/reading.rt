//! Reading a statement, line by line.

ghost use Rattle.std.specs.Prelude.{◌≡◌, ◌≢◌, ◌==◌, ◌↔◌, ◌⊎◌, ◌+◌, ◌+ℤ◌, ◌∷◌, ◌++◌, ◌<◌, ◌^◌, ℕ, List, [], Some, map, length, slice_get, IfSome, IfNone, IfOk, IfErr, IsTrue, OnOk};
ghost use Rattle.std.specs.List.{All, position};
ghost use Rattle.svc_base.specs.Calendar.{IsReadDay};
ghost use Rattle.serv_line.specs.Lines.{words_of};
ghost use Rattle.servicing_transfer.specs.declared.statement_line.StatementLine as lines;
ghost use Rattle.servicing_transfer.specs.StatementTexts.{heading_line, last_line, loan_line, p_of, t_of, total_line};
ghost use Rattle.servicing_transfer.specs.Stated.{AreStated, BeginsWith, IsConfirmFault, IsStatedBalance, IsStatedLine, IsStatedNumber, IsStatement, text_lines};
ghost use Rattle.servicing_transfer.specs.StatementReading.{words_with, AreLoans, IsEnd, IsEndFault, IsFaultAfter, IsTotalAt, IsTotalBefore, rises_from};

use crate::confirm_fault::ConfirmFault;
use crate::loan_line::{read_loan_line, word_after};
use crate::statement_line::{StatedCents, StatementLine};
use crate::stating::push_total;
use std::alloc::Global;
use svc_base::{Day, OutOfMemory, read_day, read_number};

/// A statement: its day, and what it says of each loan, by rising number.
#[derive(Drop)]
pub(crate) struct Statement {
    pub day: Day,
    pub lines: Vec<StatementLine>,
}

/// Where the first line feed of a text stands, if it has one.
fn first_feed(text: &[u8]) -> Option<usize>
    ensures { result ≡ position (λ b. b == 10) text.now }
{
    text.iter().position(|byte| *byte == b'\n')
}

/// The first line of a text, and what is left after its line feed; none where nothing is left.
#[tactic(auto, using(crate::proofs::TextLines::one_line))]
fn next_line(text: &[u8]) -> Option<(&[u8], &[u8])>
    ensures line { IfSome result (λ r. text_lines text.now ≡ r.0.now ∷ text_lines r.1.now) }
    ensures none { IfNone result (text_lines text.now ≡ []) }
{
    if text.is_empty() {
        return None;
    }
    match first_feed(text) {
        Some(at) => {
            let (line, rest) = text.split_at(at);
            Some((line, &rest[1..]))
        }
        None => Some((text, b"")),
    }
}

/// The words that name the day and the number of loans, where a line is that of a heading.
fn heading_words(line: &[u8]) -> Option<(&[u8], &[u8])>
    ensures found { IfSome result (λ r. words_of line.now ≡ words_with r.0.now r.1.now) }
    ensures none { IfNone result ((day count : List ℕ) → words_of line.now ≢ words_with day count) }
{
    let (day, rest) = word_after(b"statement", Some(line))?;
    let (count, rest) = word_after(b"loans", rest)?;
    match rest {
        Some(_) => None,
        None => Some((day, count)),
    }
}

/// The day and the number of loans that a first line says.
fn read_heading(line: &[u8]) -> Option<(Day, u32)>
    ensures read { IfSome result (λ r. line.now ≡ heading_line r.0 r.1) }
    ensures day { IfSome result (λ r. IsReadDay r.0) }
    ensures none { IfNone result ((day n : ℕ) → IsReadDay day → IsStatedNumber n → line.now ≢ heading_line day n) }
{
    let (day, count) = heading_words(line)?;
    let Ok(day) = read_day(day) else {
        return None;
    };
    let count = read_number(count)?;
    Some((day, count))
}

/// Whether a loan's number is above that of the loan before.
fn is_above(before: Option<u32>, stated: &StatementLine) -> bool
    ensures { IsTrue result ↔ rises_from before stated.now }
{
    match before {
        Some(last) => last < stated.loan,
        None => true,
    }
}

/// What the next line says, where it is that of a loan with a number above that of the loan before.
fn next_loan(before: Option<u32>, text: &[u8]) -> Option<(StatementLine, &[u8])>
    ensures line { IfSome result (λ r. text_lines text.now ≡ loan_line r.0 ∷ text_lines r.1.now) }
    ensures loan { IfSome result (λ r. IsStatedLine r.0) }
    ensures rises { IfSome result (λ r. rises_from before r.0) }
    ensures none { IfNone result ((s : lines.StatementLine) → IsStatedLine s → rises_from before s
        → slice_get (text_lines text.now) 0 ≢ Some (loan_line s)) }
{
    let (line, rest) = next_line(text)?;
    let stated = read_loan_line(line)?;
    if !is_above(before, &stated) {
        return None;
    }
    Some((stated, rest))
}

/// What the lines of so many loans say, and what is left after them.
fn read_loans(
    alloc: Global,
    count: u32,
    text: &[u8],
) -> Result<(Vec<StatementLine>, &[u8]), ConfirmFault>
    ensures lines { IfOk result (λ r. text_lines text.now ≡ map loan_line r.0.items ++ text_lines r.1.now) }
    ensures count { IfOk result (λ r. length r.0.items ≡ count) }
    ensures loans { IfOk result (λ r. AreLoans r.0.items) }
    ensures fault { IfErr result (IsFaultAfter count (text_lines text.now)) }
{
    let mut lines = Vec::new(alloc);
    let mut before = None;
    let mut rest = text;
    for place in 0..count {
        let Some((line, more)) = next_loan(before, rest) else {
            return Err(ConfirmFault::BadLine(u64::from(place) + 2));
        };
        before = Some(line.loan);
        lines.push(line)?;
        rest = more;
    }
    Ok((lines, rest))
}

/// What a loan brings into the account T.
#[tactic(auto, using(svc_base::proofs::CentsRules::cents))]
fn cash_in(line: &StatementLine) -> StatedCents
    requires { IsStatedLine line.now }
    ensures cash { result ≡ line.now.escrow +ℤ line.now.suspense +ℤ line.now.escrow_advance }
{
    line.escrow + line.suspense + line.escrow_advance
}

/// What both custodial accounts hold for some loans.
#[tactic(auto, using(svc_base::proofs::CentsRules::cents))]
fn totals(lines: &[StatementLine]) -> (StatedCents, StatedCents)
    requires each { All IsStatedLine lines.now }
    requires few { length lines.now < 2 ^ 32 }
    ensures t { result.0 ≡ t_of lines.now }
    ensures p { result.1 ≡ p_of lines.now }
{
    let (mut t, mut p) = (0, 0);
    for line in lines {
        t += cash_in(line);
        p += line.held;
    }
    (t, p)
}

/// Whether an amount has at most eighteen digits before its point.
#[tactic(auto, using(svc_base::proofs::CentsRules::cents))]
fn is_stated(cents: StatedCents) -> bool
    ensures stated { IsTrue result → IsStatedBalance cents }
    ensures other { IsTrue result ⊎ (IsStatedBalance cents → ⊥) }
{
    cents > -100_000_000_000_000_000_000 && cents < 100_000_000_000_000_000_000
}

/// The line of what these loans add up to, where it can be stated.
fn total_of(alloc: Global, lines: &[StatementLine]) -> Result<Option<Vec<u8>>, OutOfMemory>
    requires each { All IsStatedLine lines.now }
    requires few { length lines.now < 2 ^ 32 }
    ensures line { IfOk result (λ o. IfSome o (λ v. v.items ≡ total_line (t_of lines.now) (p_of lines.now))) }
    ensures t { IfOk result (λ o. IfSome o (λ v. IsStatedBalance (t_of lines.now))) }
    ensures p { IfOk result (λ o. IfSome o (λ v. IsStatedBalance (p_of lines.now))) }
    ensures none { IfOk result (λ o. IfNone o
        (IsStatedBalance (t_of lines.now) → IsStatedBalance (p_of lines.now) → ⊥)) }
{
    let (t, p) = totals(lines);
    if !is_stated(t) {
        return Ok(None);
    }
    if !is_stated(p) {
        return Ok(None);
    }
    let mut line = Vec::new(alloc);
    push_total(&mut line, t, p)?;
    Ok(Some(line))
}

/// Whether two lines are the same.
fn is_same(line: &[u8], other: &[u8]) -> bool
    ensures { IsTrue result ↔ (line.now ≡ other.now) }
{
    line == other
}

/// What is left after a line, where it comes next.
fn after_line<'a>(text: &'a [u8], wanted: &[u8]) -> Option<&'a [u8]>
    ensures line { IfSome result (λ r. text_lines text.now ≡ wanted.now ∷ text_lines r.now) }
    ensures none { IfNone result (slice_get (text_lines text.now) 0 ≢ Some wanted.now) }
{
    let (line, rest) = next_line(text)?;
    if !is_same(line, wanted) {
        return None;
    }
    Some(rest)
}

/// What is left after the line of what these loans add up to, where it comes next.
fn after_total<'a>(
    alloc: Global,
    lines: &[StatementLine],
    text: &'a [u8],
) -> Result<Option<&'a [u8]>, OutOfMemory>
    requires each { All IsStatedLine lines.now }
    requires few { length lines.now < 2 ^ 32 }
    ensures total { IfOk result (λ o. IfSome o (λ r.
        IsTotalBefore lines.now (text_lines text.now) (text_lines r.now))) }
    ensures none { IfOk result (λ o. IfNone o (IsTotalAt lines.now (text_lines text.now) 0 → ⊥)) }
{
    match total_of(alloc, lines)? {
        Some(total) => Ok(after_line(text, &total)),
        None => Ok(None),
    }
}

/// Whether a text has no more lines.
fn is_done(text: &[u8]) -> bool
    ensures { IsTrue result ↔ (text_lines text.now ≡ []) }
{
    match next_line(text) {
        Some(_) => false,
        None => true,
    }
}

/// What is left after the total of loans and the last line: nothing. Errs with the first line that does not fit,
/// where the total is expected in a place.
fn read_end(
    alloc: Global,
    lines: &[StatementLine],
    place: u64,
    text: &[u8],
) -> Result<(), ConfirmFault>
    requires each { All IsStatedLine lines.now }
    requires few { length lines.now < 2 ^ 32 }
    requires place { place ≡ length lines.now + 2 }
    ensures end { OnOk result (IsEnd lines.now (text_lines text.now)) }
    ensures fault { IfErr result (IsEndFault lines.now (text_lines text.now)) }
{
    let Some(behind) = after_total(alloc, lines, text)? else {
        return Err(ConfirmFault::BadLine(place));
    };
    let Some(rest) = after_line(behind, b"end") else {
        return Err(ConfirmFault::BadLine(place + 1));
    };
    if !is_done(rest) {
        return Err(ConfirmFault::BadLine(place + 2));
    }
    Ok(())
}

/// What the lines behind the first say, where there are so many loans.
fn read_rest(alloc: Global, count: u32, text: &[u8]) -> Result<Vec<StatementLine>, ConfirmFault>
    ensures lines { IfOk result (λ v. text_lines text.now
        ≡ map loan_line v.items ++ total_line (t_of v.items) (p_of v.items) ∷ last_line ∷ []) }
    ensures count { IfOk result (λ v. length v.items ≡ count) }
    ensures loans { IfOk result (λ v. AreStated v.items) }
    ensures fault { IfErr result (IsFaultAfter count (text_lines text.now)) }
{
    let (lines, rest) = read_loans(alloc, count, text)?;
    read_end(alloc, &lines, u64::from(count) + 2, rest)?;
    Ok(lines)
}

/// What the first line of a text says, and what is left after it.
#[derive(Clone, Copy)]
struct Heading<'a> {
    day: Day,
    count: u32,
    rest: &'a [u8],
}

/// The heading of a text, where its first line is one.
fn read_first(text: &[u8]) -> Option<Heading<'_>>
    ensures line { IfSome result (λ r. text_lines text.now ≡ heading_line r.day r.count ∷ text_lines r.rest.now) }
    ensures day { IfSome result (λ r. IsReadDay r.day) }
    ensures number { IfSome result (λ r. IsStatedNumber r.count) }
    ensures none { IfNone result ((day n : ℕ) → BeginsWith (text_lines text.now) day n → ⊥) }
{
    let (line, rest) = next_line(text)?;
    let (day, count) = read_heading(line)?;
    Some(Heading { day, count, rest })
}

/// What a text says that is a statement.
pub(crate) fn read_statement(alloc: Global, text: &[u8]) -> Result<Statement, ConfirmFault>
    ensures read { IfOk result (λ s. IsStatement text.now s.day s.lines.items) }
    ensures fault { IfErr result (IsConfirmFault text.now) }
{
    let Some(heading) = read_first(text) else {
        return Err(ConfirmFault::BadLine(1));
    };
    let lines = read_rest(alloc, heading.count, heading.rest)?;
    Ok(Statement {
        day: heading.day,
        lines,
    })
}
