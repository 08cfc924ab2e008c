//! What a report sends to the investor: its sums, and what it adds to what was remitted for each loan.

ghost use Rattle.std.specs.Prelude.{◌≡◌, map, true, is_some, Some, pos, neg_ℤ, ◌≤ℤ◌};
ghost use Rattle.std.specs.List.{All};
ghost use Rattle.svc_base.specs.Sums.{total_by};
ghost use Rattle.svc_types.specs.declared.replies.Extra.TheVariants as extra;
ghost use Rattle.period_adjust.specs.Conditions.{IsClosed};
ghost use Rattle.svc_world.specs.Custody as rule;
ghost use Rattle.svc_world.specs.Judging.{report_for, closed_extra, net_of};
ghost use Rattle.svc_loan.specs.Loans.{held_in, closed_in, remitted_in, find_kept};
ghost use Rattle.svc_core.specs.Reported.{IsSmallPart, IsSmallSent, IsSmallRemitted, AreSent};
ghost use Rattle.svc_core.specs.Reported.{interest_of, principal_of, remitted_with};

use period_adjust::{Report, ReportLine, Seals};
use svc_base::{Cents, Month};
use svc_loan::Loans;
use svc_replay::LoanBooks;
use svc_types::Extra;

/// Sums over the lines of a report, adjustments included, in cents.
#[derive(Clone, Copy)]
struct LineSums {
    interest: Cents,
    principal: Cents,
}

/// The report of a month that is closed.
pub(crate) fn report_of(seals: &Seals, month: Month) -> &Report
    requires { IsClosed seals.now.reporting.reports month }
    ensures { report_for month seals.now.reporting.reports ≡ Some result.now }
{
    let reports = seals.reports();
    let first = reports[0].month();
    &reports[(month.number() - first.number()) as usize]
}

/// What the reply to a closing says of the month's report.
pub(crate) fn closed_extra(report: &Report) -> Extra
    requires { AreSent report.now.lines }
    ensures { result ≡ closed_extra report.now }
{
    let lines = report.lines();
    let sums = sums_of(lines);
    Extra::Closed {
        lines: lines.len() as u32,
        interest: sums.interest,
        principal: sums.principal,
    }
}

/// What the reply to a remitting says of the month's report.
#[tactic(auto, using(svc_base::proofs::CentsRules::cents))]
pub(crate) fn remitted_extra(report: &Report) -> Extra
    requires { AreSent report.now.lines }
    ensures { result ≡ extra.Remitted (net_of report.now) }
{
    let sums = sums_of(report.lines());
    Extra::Remitted {
        net: sums.interest + sums.principal,
    }
}

/// The sums over lines of a report.
#[tactic(auto, using(svc_base::proofs::CentsRules::cents))]
fn sums_of(lines: &[ReportLine]) -> LineSums
    requires { AreSent lines.now }
    ensures interest { result.interest ≡ total_by interest_of lines.now }
    ensures principal { result.principal ≡ total_by principal_of lines.now }
    ensures interest_low { neg_ℤ (pos 1_000_000_000_000_000_000) ≤ℤ result.interest }
    ensures interest_high { result.interest ≤ℤ pos 1_000_000_000_000_000_000 }
    ensures principal_low { neg_ℤ (pos 1_000_000_000_000_000_000) ≤ℤ result.principal }
    ensures principal_high { result.principal ≤ℤ pos 1_000_000_000_000_000_000 }
{
    let mut interest = 0;
    let mut principal = 0;
    for line in lines {
        interest += interest_of(line);
        principal += principal_of(line);
    }
    LineSums {
        interest,
        principal,
    }
}

/// Adds what each line of a report sends to what was remitted for its loan.
pub(crate) fn remit_lines<B: LoanBooks>(loans: &mut Loans<B>, lines: &[ReportLine])
    requires lines { AreSent lines.now }
    requires there { All (λ l. is_some (find_kept l.loan loans.old.loans) ≡ true) lines.now }
    requires small { All IsSmallRemitted loans.old.loans }
    ensures held { held_in loans.new.loans ≡ held_in loans.old.loans }
    ensures closed { closed_in loans.new.loans ≡ closed_in loans.old.loans }
    ensures remitted { remitted_in loans.new.loans ≡ map (remitted_with lines.now) loans.old.loans }
{
    for line in lines {
        loans.remit(line.loan, sent_of_line(line));
    }
}

/// What a line sends for its loan, in cents.
#[tactic(auto, using(svc_base::proofs::CentsRules::cents))]
fn sent_of_line(line: &ReportLine) -> Cents
    requires { IsSmallSent line.now }
    ensures { result ≡ rule.sent_of_line line.now }
{
    interest_of(line) + principal_of(line)
}

/// The interest of a line, adjustments included, in cents.
#[tactic(auto, using(svc_base::proofs::CentsRules::cents))]
fn interest_of(line: &ReportLine) -> Cents
    requires { IsSmallSent line.now }
    ensures value { result ≡ interest_of line.now }
    ensures small { IsSmallPart result }
{
    line.interest + line.adj_interest
}

/// The principal of a line, adjustments included, in cents.
#[tactic(auto, using(svc_base::proofs::CentsRules::cents))]
fn principal_of(line: &ReportLine) -> Cents
    requires { IsSmallSent line.now }
    ensures value { result ≡ principal_of line.now }
    ensures small { IsSmallPart result }
{
    line.principal + line.adj_principal
}
