//! Months that are closed, changed and remitted.

ghost use Rattle.std.specs.Prelude.{◌≡◌, ◌+◌, ◌≤◌, [], ◌∷◌, pos, IfOk, OnOk};
ghost use Rattle.std.specs.List.{All};
ghost use Rattle.period_adjust.specs.Conditions.{IsAmount, IsSmallDue, IsExpected};
ghost use Rattle.period_adjust.specs.Worked.{AreTwoMonths};
ghost use Rattle.period_adjust.specs.Totals as totals;
ghost use Rattle.period_adjust.specs.Totals.{Close};
ghost use Rattle.period_adjust.specs.Worked as worked;

use period_adjust::{Adjustment, MonthDue, RemitFault, Report, ReportLine, SealFault, Seals};
use std::alloc::Global;
use std::process::Abort;
use std::test::*;
use svc_base::{Cents, Day, Month, OutOfMemory, first_day, last_day};

/// The month that many months after 2023-12.
pub(crate) fn month(later: u32) -> Month
    requires { later ≤ 12 }
    ensures { result ≡ 24_287 + later }
{
    Month::new(2023, 12).plus(later)
}

/// What is due for the month that many months after 2023-12, and the balance at its end.
pub(crate) fn due(later: u32, interest: Cents, principal: Cents, balance: Cents) -> MonthDue
    requires later { later ≤ 12 }
    requires interest { IsAmount interest }
    requires principal { IsAmount principal }
    requires balance { IsAmount balance }
    ensures value { result ≡ record {
      month = 24_287 + later;
      interest = interest;
      principal = principal;
      balance = balance;
    } }
    ensures small { IsSmallDue result }
{
    MonthDue {
        month: month(later),
        interest,
        principal,
        balance,
    }
}

/// The line of a loan whose balance is the investor's too.
fn worked_line(due: &MonthDue) -> ReportLine
    ensures { result ≡ worked.worked_line due.now }
{
    ReportLine {
        loan: 1,
        interest: due.interest,
        principal: due.principal,
        adj_interest: 0,
        adj_principal: 0,
        upb: due.balance,
        balance: due.balance,
    }
}

/// Closes the month of that due on the first day after it.
fn close(seals: &mut Seals, due: &MonthDue) -> Result<(), SealFault>
    requires expected { IsExpected seals.old.reporting.reports due.now.month }
    requires small { IsSmallDue due.now }
    requires own { All (λ a. a.loan ≡ 1) seals.old.reporting.pending }
    ensures { OnOk result (seals.new.reporting ≡
        totals.after seals.old.reporting (Close due.now.month (worked.worked_line due.now ∷ []))) }
{
    seals.close(
        due.month,
        first_day(due.month.plus(1)),
        due.month,
        &[worked_line(due)],
    )
}

/// The reports of 2023-12 to 2024-03.
fn worked_reports(alloc: Global, february: &MonthDue, march: &MonthDue) -> Result<Seals, SealFault>
    requires february { february.now.month ≡ 24_289 }
    requires march { march.now.month ≡ 24_290 }
    requires february_small { IsSmallDue february.now }
    requires march_small { IsSmallDue march.now }
    ensures { IfOk result (λ s. s.reporting ≡ worked.worked_reports february.now march.now) }
{
    let mut seals = Seals::new(alloc);
    close(&mut seals, &due(0, 0, 0, 20_000_000))?;
    close(&mut seals, &due(1, 0, 0, 20_000_000))?;
    close(&mut seals, february)?;
    close(&mut seals, march)?;
    Ok(seals)
}

/// The reports of two months as they were due, and then a command that changes what is due for them.
fn changed_reports(
    alloc: Global,
    number: u32,
    was: &[MonthDue; 2],
    is: &[MonthDue; 2],
) -> Result<Seals, SealFault>
    requires { AreTwoMonths was.now is.now }
    ensures expected { IfOk result (λ s. IsExpected s.reporting.reports 24_291) }
    ensures own { IfOk result (λ s. All (λ a. a.loan ≡ 1) s.reporting.pending) }
{
    let mut seals = worked_reports(alloc, &was[0], &was[1])?;
    seals.reserve(1, 2)?;
    seals.record_change(number, 1, was, is)?;
    Ok(seals)
}

/// Whether the report of 2024-03 is still that of the month as it was due, the next one is that of
/// 2024-04 with these sums and adjustments, and none is pending.
fn is_sent(
    seals: &Seals,
    march: &MonthDue,
    april: &MonthDue,
    wanted: &[Adjustment],
    sums: (Cents, Cents),
) -> Result<bool, OutOfMemory> {
    let [_, _, _, kept, last] = seals.reports() else {
        return Ok(false);
    };
    let report = last.copy()?;
    Ok(
        has(kept, march, (0, 0), &[])
            && has(&report, april, sums, wanted)
            && seals.pending().is_empty()
            && seals.held() as usize == wanted.len(),
    )
}

/// Whether a report is that of a due with these sums and adjustments.
fn has(report: &Report, due: &MonthDue, sums: (Cents, Cents), adjustments: &[Adjustment]) -> bool {
    let wanted = ReportLine {
        adj_interest: sums.0,
        adj_principal: sums.1,
        ..worked_line(due)
    };
    match report.lines() {
        [line] => *line == wanted && report.adjustments() == adjustments,
        _ => false,
    }
}

/// Reports two months as they were due, changes what is due for them, and closes 2024-04 with
/// nothing due.
fn check_change(
    rt: &impl Abort,
    alloc: Global,
    number: u32,
    was: &[MonthDue; 2],
    is: &[MonthDue; 2],
    wanted: &[Adjustment],
    sums: (Cents, Cents),
) -> Result<(), Fail>
    requires { AreTwoMonths was.now is.now }
{
    let mut seals = changed_reports(alloc, number, was, is)?;
    assert_eq!(rt; seals.pending(), wanted);
    let april = due(4, 0, 0, is[1].balance);
    close(&mut seals, &april)?;
    assert!(rt; is_sent(&seals, &was[1], &april, wanted, sums)?);
    Ok(())
}

/// An adjustment of the loan.
fn adjustment(number: u32, later: u32, interest: Cents, principal: Cents) -> Adjustment
    requires { later ≤ 12 }
{
    Adjustment {
        number,
        loan: 1,
        month: month(later),
        interest,
        principal,
    }
}

#[test]
fn late_payment_of_an_actual_loan(rt: HostRuntime) -> Result<(), Fail> {
    let was = [due(2, 95_833, 19_910, 19_980_090), due(3, 0, 0, 19_980_090)];
    let is = [was[0], due(3, 95_737, 20_010, 19_960_080)];
    let wanted = [adjustment(13, 3, 95_737, 20_010)];
    check_change(&rt, rt.alloc(), 13, &was, &is, &wanted, (95_737, 20_010))
}

#[test]
fn reversal_with_a_fee(rt: HostRuntime) -> Result<(), Fail> {
    let was = [
        due(2, 95_833, 19_910, 19_980_090),
        due(3, 95_737, 20_010, 19_960_080),
    ];
    let is = [due(2, 0, 0, 20_000_000), due(3, 95_833, 19_910, 19_980_090)];
    let wanted = [
        adjustment(14, 2, -95_833, -19_910),
        adjustment(14, 3, 96, -100),
    ];
    check_change(&rt, rt.alloc(), 14, &was, &is, &wanted, (-95_737, -20_010))
}

#[test]
fn reversal_without_fee_whose_change_cancels_in_sum(rt: HostRuntime) -> Result<(), Fail> {
    let was = [
        due(2, 100_000, 19_910, 19_980_090),
        due(3, 99_900, 20_010, 19_960_080),
    ];
    let is = [
        due(2, 0, 0, 20_000_000),
        due(3, 100_000, 19_910, 19_980_090),
    ];
    let wanted = [
        adjustment(14, 2, -100_000, -19_910),
        adjustment(14, 3, 100, -100),
    ];
    check_change(&rt, rt.alloc(), 14, &was, &is, &wanted, (-99_900, -20_010))
}

/// Closes a month before any other, where 2023-12 is expected.
fn first_close(alloc: Global, closed: u32, today: Day) -> Result<(), SealFault>
    requires { closed ≤ 12 }
{
    let mut seals = Seals::new(alloc);
    let dues = [worked_line(&due(0, 0, 0, 20_000_000))];
    seals.close(month(closed), today, month(0), &dues)
}

#[test]
fn months_are_closed_in_order_once_they_ended(rt: HostRuntime) {
    let first = last_day(month(0));
    assert_eq!(rt;
        first_close(rt.alloc(), 1, last_day(month(4))),
        Err(SealFault::WrongPeriod(month(0)))
    );
    assert_eq!(rt;
        first_close(rt.alloc(), 0, first),
        Err(SealFault::NotEnded(first))
    );
    assert_eq!(rt; first_close(rt.alloc(), 0, first_day(month(1))), Ok(()));
}

/// Whether the last of some months that are remitted one after the other, once 2023-12 to 2024-03 are
/// closed, is answered so, and leaves that month as the last remitted.
fn is_answered(
    alloc: Global,
    months: &[Month],
    wanted: Result<(), RemitFault>,
    remitted: Option<Month>,
) -> Result<bool, SealFault> {
    let february = due(2, 95_833, 19_910, 19_980_090);
    let march = due(3, 95_737, 20_010, 19_960_080);
    let mut seals = worked_reports(alloc, &february, &march)?;
    let mut answer = Ok(());
    for month in months {
        answer = seals.remit(*month);
    }
    Ok(seals.closed() == Some(month(3)) && answer == wanted && seals.remitted() == remitted)
}

#[test]
fn months_are_remitted_in_order_once_closed(rt: HostRuntime) -> Result<(), Fail> {
    let none = Seals::new(rt.alloc()).remit(month(0));
    assert_eq!(rt; none, Err(RemitFault::NotClosed(None)));

    let alloc = rt.alloc();
    let last = Some(month(3));
    let beyond = Err(RemitFault::NotClosed(last));
    assert!(rt; is_answered(alloc, &[month(4)], beyond, None)?);
    let not_first = Err(RemitFault::WrongRemit(month(0)));
    assert!(rt; is_answered(alloc, &[month(1)], not_first, None)?);
    let all = [month(0), month(1), month(2), month(3)];
    assert!(rt; is_answered(alloc, &all, Ok(()), last)?);
    let twice = [month(0), month(1), month(2), month(3), month(3)];
    let again = Err(RemitFault::WrongRemit(month(4)));
    assert!(rt; is_answered(alloc, &twice, again, last)?);
    Ok(())
}
