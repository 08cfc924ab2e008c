//! Many loans whose dues of a closed month are changed in scattered order.

ghost use Rattle.std.specs.Prelude.{◌≡◌, ◌+◌, ◌<◌, ◌≤◌, IfOk, OnOk};
ghost use Rattle.period_adjust.specs.Conditions.{IsSmallDue};
ghost use Rattle.period_adjust_tests.specs.WorkedMany.{AreEmptyLines, AreZeros, AreGiven};
ghost use Rattle.period_adjust_tests.specs.WorkedMany as worked;

use crate::reports::{due, month};
use period_adjust::{MonthDue, ReportLine, SealFault, Seals};
use std::alloc::{AllocError, Global};
use std::test::Fail;
use svc_base::{Cents, OutOfMemory, first_day};

/// The loans are those from 0 to here.
const LOANS: u32 = 3_000;

/// A line of nothing.
fn empty_line(loan: u32) -> ReportLine
    ensures { result ≡ worked.empty_line loan }
{
    ReportLine {
        loan,
        interest: 0,
        principal: 0,
        adj_interest: 0,
        adj_principal: 0,
        upb: 0,
        balance: 0,
    }
}

/// A line of nothing for each loan.
fn empty_lines(alloc: Global) -> Result<Vec<ReportLine>, AllocError>
    ensures { IfOk result (λ lines. AreEmptyLines lines.items) }
{
    let mut lines = Vec::new(alloc);
    for loan in 0..LOANS {
        lines.push(empty_line(loan))?;
    }
    Ok(lines)
}

/// No cents for each loan.
fn zeros(alloc: Global) -> Result<Vec<u32>, AllocError>
    ensures { IfOk result (λ cents. AreZeros cents.items) }
{
    let mut cents = Vec::new(alloc);
    for _loan in 0..LOANS {
        cents.push(0)?;
    }
    Ok(cents)
}

/// The reports once 2023-12 was closed with nothing due.
fn start(alloc: Global, lines: &[ReportLine], cents: &[u32]) -> Result<Seals, SealFault>
    requires lines { AreEmptyLines lines.now }
    requires cents { AreZeros cents.now }
    ensures { IfOk result (λ s. AreGiven s.reporting cents.now 1) }
{
    let mut seals = Seals::new(alloc);
    seals.close(month(0), first_day(month(1)), month(0), lines)?;
    Ok(seals)
}

/// Interest and principal of so many cents for 2023-12.
#[tactic(auto, using(std::proofs::lemmas::Int::ints))]
fn worked_due(cents: u32) -> MonthDue
    requires { cents ≤ 9_000 }
    ensures value { result ≡ worked.worked_due cents }
    ensures small { IsSmallDue result }
{
    due(0, Cents::from(cents), Cents::from(cents), 0)
}

/// A command that changes what is due of a loan to as many cents as its number.
fn give(seals: &mut Seals, cents: &mut [u32], number: u32, loan: u32) -> Result<(), OutOfMemory>
    requires given { AreGiven seals.old.reporting cents.old number }
    requires number { number ≤ 9_000 }
    requires loan { loan < 3_000 }
    ensures { OnOk result (AreGiven seals.new.reporting cents.new (number + 1)) }
{
    let place = loan as usize;
    let before = worked_due(cents[place]);
    let after = worked_due(number);
    seals.record_change(number, loan, &[before], &[after])?;
    cents[place] = number;
    Ok(())
}

/// 9,000 commands, three for each loan, one after the other a distant one.
fn give_all(seals: &mut Seals, cents: &mut [u32]) -> Result<(), OutOfMemory>
    requires { AreGiven seals.old.reporting cents.old 1 }
    ensures { OnOk result (AreGiven seals.new.reporting cents.new 9_001) }
{
    for number in 1..9_001 {
        give(seals, cents, number, number * 7_919 % LOANS)?;
    }
    Ok(())
}

/// Closes 2024-01 with nothing due.
fn close_next(seals: &mut Seals, lines: &[ReportLine], cents: &[u32]) -> Result<(), SealFault>
    requires lines { AreEmptyLines lines.now }
    requires given { AreGiven seals.old.reporting cents.now 9_001 }
{
    seals.close(month(1), first_day(month(2)), month(1), lines)
}

/// The reports of 2023-12 and 2024-01, with the commands between them. None where not all of their
/// adjustments were pending.
fn two_reports(
    alloc: Global,
    lines: &[ReportLine],
    cents: &mut [u32],
) -> Result<Option<Seals>, SealFault>
    requires lines { AreEmptyLines lines.now }
    requires cents { AreZeros cents.old }
{
    let mut seals = start(alloc, lines, cents)?;
    give_all(&mut seals, cents)?;
    let all_pending = seals.pending().len() == 9_000 && seals.held() == 9_000;
    close_next(&mut seals, lines, cents)?;
    Ok(if all_pending { Some(seals) } else { None })
}

/// Whether each loan's line has the sums of what was given for it last, and they are all cents from
/// 6,001 to 9,000: the last three thousand commands are the last of the loans.
fn has_sums(lines: &[ReportLine], cents: &[u32]) -> bool {
    let mut sum: Cents = 0;
    for (line, given) in lines.iter().zip(cents) {
        let wanted = Cents::from(*given);
        if line.adj_interest != wanted || line.adj_principal != wanted {
            return false;
        }
        sum = sum.wrapping_add(wanted);
    }
    lines.len() == 3_000 && sum == 22_501_500
}

/// Whether the second report sends all adjustments and none is pending.
fn all_sent(seals: &Seals, cents: &[u32]) -> bool {
    match seals.reports() {
        [_, report] => {
            seals.pending().is_empty()
                && report.adjustments().len() == 9_000
                && has_sums(report.lines(), cents)
        }
        _ => false,
    }
}

#[test]
fn three_adjustments_of_each_of_3000_loans(rt: HostRuntime) -> Result<(), Fail> {
    let lines = empty_lines(rt.alloc())?;
    let mut cents = zeros(rt.alloc())?;
    match two_reports(rt.alloc(), lines.as_slice(), cents.as_mut_slice())? {
        Some(seals) => assert!(rt; all_sent(&seals, cents.as_slice())),
        None => assert!(rt; false, "not all adjustments were pending"),
    }
    Ok(())
}
