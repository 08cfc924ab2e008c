//! Bills of a loan that were worked out by hand.

ghost use Rattle.std.specs.Prelude.{◌≡◌};

use escrow_lines::{EscrowLineFault, Line, LineKind, LineWhy, Lines};
use std::test::Fail;
use svc_base::{Cents, Month};

fn tax(id: u32, month: u32, every: u32, cents: Cents) -> Line
    ensures { result.id ≡ id }
{
    Line {
        id,
        kind: LineKind::Tax,
        month,
        every,
        cents,
    }
}

/// Bills in July, September and December.
fn three_bills() -> Result<Lines, EscrowLineFault> {
    let mut lines = Lines::new();
    lines.set(tax(1, 7, 12, 50000))?;
    lines.set(tax(2, 9, 12, 36000))?;
    lines.set(tax(3, 12, 12, 70000))?;
    Ok(lines)
}

/// The months from July 2024 on, and how many lines there are.
fn year_of_three() -> Result<([Cents; 12], usize, bool), EscrowLineFault> {
    let lines = three_bills()?;
    Ok((
        lines.year(Month::new(2024, 7)),
        lines.len(),
        lines.is_empty(),
    ))
}

/// The same months once the second line is replaced by a small one each quarter, and that line.
fn year_of_a_replaced_line() -> Result<([Cents; 12], Option<Line>), EscrowLineFault> {
    let mut lines = three_bills()?;
    lines.set(tax(2, 8, 3, 100))?;
    Ok((lines.year(Month::new(2024, 7)), lines.find(2)))
}

/// The first line after it was taken out, and what taking it out again answers.
fn dropped_twice() -> Result<(Option<Line>, Result<(), EscrowLineFault>), EscrowLineFault> {
    let mut lines = three_bills()?;
    lines.drop_line(1)?;
    let found = lines.find(1);
    Ok((found, lines.drop_line(1)))
}

#[test]
fn a_year_of_three_bills(rt: HostRuntime) -> Result<(), Fail> {
    let year = [50000, 0, 36000, 0, 0, 70000, 0, 0, 0, 0, 0, 0];
    assert_eq!(rt; year_of_three()?, (year, 3, false));
    let year = [50000, 100, 0, 0, 100, 70000, 0, 100, 0, 0, 100, 0];
    let replaced = (year, Some(tax(2, 8, 3, 100)));
    assert_eq!(rt; year_of_a_replaced_line()?, replaced);
    let unknown = (None, Err(EscrowLineFault::NoSuchLine));
    assert_eq!(rt; dropped_twice()?, unknown);
    Ok(())
}

#[test]
fn what_is_wrong_with_a_line(rt: HostRuntime) {
    for (month, every, cents, why) in [
        (13, 12, 1, LineWhy::MonthRange),
        (0, 12, 1, LineWhy::MonthRange),
        (1, 5, 1, LineWhy::Every),
        (1, 12, 0, LineWhy::Amount),
        (13, 5, 10_000_000_001, LineWhy::Amount),
        (13, 5, 1, LineWhy::MonthRange),
    ] {
        let outcome = Lines::new().set(tax(1, month, every, cents));
        assert_eq!(rt; outcome, Err(EscrowLineFault::BadLine(why)));
    }
}

/// As many lines as a loan may have, each of a cent a month.
fn sixteen() -> Result<Lines, EscrowLineFault> {
    let mut lines = Lines::new();
    for id in 1..17 {
        lines.set(tax(id, 1, 1, 1))?;
    }
    Ok(lines)
}

/// What one more line answers.
fn one_more() -> Result<(), EscrowLineFault> {
    let mut lines = sixteen()?;
    lines.set(tax(17, 1, 1, 1))
}

/// The year once the last line is replaced, and how many lines there are.
fn last_replaced() -> Result<([Cents; 12], usize), EscrowLineFault> {
    let mut lines = sixteen()?;
    lines.set(tax(16, 2, 1, 5))?;
    Ok((lines.year(Month::new(2024, 1)), lines.len()))
}

#[test]
fn sixteen_lines(rt: HostRuntime) -> Result<(), Fail> {
    assert_eq!(rt; one_more(), Err(EscrowLineFault::Full));
    assert_eq!(rt; last_replaced()?, ([20; 12], 16));
    Ok(())
}
