//! What the types of days, months and keys say of a refusal and of an answer: the books reach each day
//! and month. Nothing is done with what is read.

ghost use Rattle.std.specs.List.{All};
ghost use Rattle.svc_base.specs.Calendar.{IsMonth};
ghost use Rattle.svc_types.specs.Keys.{IsKey};
ghost use Rattle.svc_types.specs.declared.requests.TypeChange as changes;
ghost use Rattle.period_adjust.specs.declared.adjustment.Adjustment as adjusted;
ghost use Rattle.svc_world.specs.declared.desk.LateLoan as late_loans;
ghost use Rattle.serv_ascii.specs.Reach.{AreReachedTerms, IsReachedAnswer, IsReachedDay, IsReachedEvent, IsReachedMonth, IsReachedRefusal, IsReachedReport, IsReachedStatus};

use period_adjust::{Adjustment, Report};
use svc_base::{Day, Month};
use svc_types::{HistoryLine, Key, Refusal, Terms, TypeChange};
use svc_world::{Answer, BooksStatus, LateLoan};

/// The books reach a month.
fn reach_month(month: Month)
    ensures { IsMonth month }
{
    let _number = month.number();
}

/// The books reach the month of a day.
fn reach_day(day: Day)
    ensures { IsReachedDay day }
{
    reach_month(day.in_month());
}

/// Where there is a month, the books reach it.
fn reach_option(month: Option<Month>)
    ensures { IsReachedMonth month }
{
    if let Some(month) = month {
        reach_month(month);
    }
}

/// The books reach the day or the month that a refusal names.
pub fn reach_refusal(refusal: &Refusal)
    ensures { IsReachedRefusal refusal.now }
{
    match refusal {
        Refusal::DayNotLater(day)
        | Refusal::FutureDated(day)
        | Refusal::BeforeBoarding(day)
        | Refusal::NotEnded(day) => reach_day(*day),
        Refusal::BoardedLate(month)
        | Refusal::WrongPeriod(month)
        | Refusal::WrongRemit(month)
        | Refusal::ClosedMonth(month) => reach_month(*month),
        Refusal::NotClosed(month) => reach_option(*month),
        Refusal::KeyReused(_)
        | Refusal::Full(_)
        | Refusal::LoanExists
        | Refusal::NoSuchLoan
        | Refusal::BadTerms(_)
        | Refusal::BadAmount
        | Refusal::OverPrincipal(_)
        | Refusal::PayoffShort(_)
        | Refusal::NoSuchEntry
        | Refusal::AlreadyReversed(_)
        | Refusal::NotReversible
        | Refusal::NoSuchLine
        | Refusal::BadLine(_)
        | Refusal::BadPlan(_)
        | Refusal::OverRefund(_)
        | Refusal::OverWaiver(_)
        | Refusal::AdjustmentsFull(_)
        | Refusal::NoSuchCommand => {}
    }
}

/// The books reach each day and month of an answer, and the key of a command is one.
pub fn reach_answer(answer: &Answer)
    ensures { IsReachedAnswer answer.now }
{
    match answer {
        Answer::Books { books, next, .. } => {
            reach_day(books.day);
            reach_option(*next);
        }
        Answer::Payoff { day, .. } | Answer::Quote { day, .. } | Answer::Arrears { day, .. } => {
            reach_day(*day);
        }
        Answer::Report(report) | Answer::Trial(report) => reach_report(report),
        Answer::Loan { terms, types, .. } => reach_terms(terms, types.slice()),
        Answer::History { day, lines, .. } => {
            reach_day(*day);
            reach_events(lines.slice());
        }
        Answer::Aging { day, late, .. } => {
            reach_day(*day);
            reach_late_loans(late.slice());
        }
        Answer::Status(status) => reach_status(status),
        Answer::Command { key, .. } => reach_key(key),
        Answer::Escrow { .. } | Answer::Custodial(_) | Answer::Rows { .. } => {}
    }
}

/// The key of a command is one.
fn reach_key(key: &Key)
    ensures { IsKey key.now }
{
    let _bytes = key.bytes();
}

/// The books reach the month of a report, and the months that it adjusts.
fn reach_report(report: &Report)
    ensures { IsReachedReport report.now }
{
    reach_month(report.month());
    reach_adjusted(report.adjustments());
}

/// The books reach the months that are adjusted.
fn reach_adjusted(adjustments: &[Adjustment])
    ensures { All (λ (a : adjusted.Adjustment). IsMonth a.month) adjustments.now }
{
    for adjustment in adjustments {
        reach_month(adjustment.month);
    }
}

/// The books reach the days and months of a loan's terms.
fn reach_terms(terms: &Terms, types: &[TypeChange])
    ensures { AreReachedTerms terms.now types.now }
{
    reach_day(terms.boarded);
    reach_month(terms.first);
    reach_changes(types);
}

/// The books reach the months from which types changed.
fn reach_changes(types: &[TypeChange])
    ensures { All (λ (c : changes.TypeChange). IsMonth c.from) types.now }
{
    for change in types {
        reach_month(change.from);
    }
}

/// The books reach the days and months of events.
fn reach_events(lines: &[HistoryLine])
    ensures { All IsReachedEvent lines.now }
{
    for line in lines {
        reach_event(line);
    }
}

/// The books reach the day of an event, and the month that is open after it.
fn reach_event(line: &HistoryLine)
    ensures { IsReachedEvent line.now }
{
    reach_day(line.day);
    reach_option(line.next);
}

/// The books reach the months that are open of late loans.
fn reach_late_loans(late: &[LateLoan])
    ensures { All (λ (l : late_loans.LateLoan). IsMonth l.next) late.now }
{
    for loan in late {
        reach_month(loan.next);
    }
}

/// The books reach the business day, and the months that were closed and remitted last and are next.
fn reach_status(status: &BooksStatus)
    ensures { IsReachedStatus status.now }
{
    reach_day(status.today);
    reach_option(status.closed);
    reach_option(status.remitted);
    reach_month(status.close);
    reach_option(status.remit);
}
