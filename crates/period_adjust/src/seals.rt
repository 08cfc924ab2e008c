//! All reports that were sealed, and the adjustments that none has sent.

ghost use Rattle.std.specs.Prelude.{◌≡◌, ◌≢◌, ◌+◌, ◌<◌, ◌≤◌, [], Some, None, Ok, Err, length};
ghost use Rattle.std.specs.Prelude.{OnOk, OnErr, IfErr, IfSome, IsOk};
ghost use Rattle.std.specs.List.{list_any};
ghost use Rattle.svc_base.specs.Calendar as calendar;
ghost use Rattle.period_adjust.specs.Sealed.{reporting};
ghost use Rattle.period_adjust.specs.Pending.{is_of};
ghost use Rattle.period_adjust.specs.Changes.{adjustments_of};
ghost use Rattle.period_adjust.specs.Totals as totals;
ghost use Rattle.period_adjust.specs.Totals.{Change, Close};
ghost use Rattle.period_adjust.specs.Conditions.{last_month, count_held, IsClosed};
ghost use Rattle.period_adjust.specs.Conditions.{IsExpected, AreDues, MayChange};
ghost use Rattle.period_adjust.specs.Kept.{AreSealed, remit_fault};
ghost use Rattle.period_adjust.specs.declared.faults.SealFault.TheVariants as seal;

use crate::adjustment::Adjustment;
use crate::changes::{count_changes, push_changes};
use crate::faults::{RemitFault, SealFault};
use crate::pending::Pending;
use crate::report::Report;
use crate::report_line::ReportLine;
use crate::report_lines::report_lines;
use remit_types::MonthDue;
use std::alloc::Global;
use std::marker::Model;
use std::mem;
use svc_base::{Day, Month, OutOfMemory, last_day, make_room};

/// All reports, in the order in which their months were closed, and the adjustments that come with
/// the next one.
#[derive(Drop)]
pub struct Seals {
    alloc: Global,
    reports: Vec<Report>,
    pending: Pending,
    /// Room for the lines of the next report.
    lines: Vec<ReportLine>,
    held: u32,
    first: Option<Month>,
    closed: Option<Month>,
    remitted: Option<Month>,
}

impl Model for Seals {
    ghost use Rattle.std.specs.Prelude.{◌-◌, vec_len, vec_capacity};
    ghost use Rattle.period_adjust.specs.Sealed.{State, reporting};

    ghost Value = { State };

    ghost view = { λ s. record {
      reporting = reporting s.reports.items s.pending.adjustments;
      remitted = s.remitted;
      report_room = vec_capacity s.reports - vec_len s.reports;
      line_room = vec_capacity s.lines - vec_len s.lines;
      adjustment_room = s.pending.room;
    } };

    ghost use Rattle.period_adjust.specs.Kept.{AreKept};

    ghost invariant = { λ s. AreKept (reporting s.reports.items s.pending.adjustments)
        s.lines.items s.held s.first s.closed s.remitted };
}

impl Seals {
    /// No report yet.
    pub fn new(alloc: Global) -> Seals
        ensures reporting { result.reporting ≡ reporting [] [] }
        ensures sealed { AreSealed result.reporting }
        ensures remitted { result.remitted ≡ None }
    {
        Seals {
            alloc,
            reports: Vec::new(alloc),
            pending: Pending::new(alloc),
            lines: Vec::new(alloc),
            held: 0,
            first: None,
            closed: None,
            remitted: None,
        }
    }

    /// The month that was closed last.
    pub fn closed(&self) -> Option<Month>
        ensures { result ≡ last_month self.now.reporting.reports }
    {
        self.closed
    }

    /// The month that was remitted last. Only closed months are remitted.
    pub fn remitted(&self) -> Option<Month>
        ensures value { result ≡ self.now.remitted }
        ensures closed { IfSome result (IsClosed self.now.reporting.reports) }
    {
        self.remitted
    }

    /// The reports, in the order in which their months were closed.
    pub fn reports(&self) -> &[Report]
        ensures value { result.now ≡ self.now.reporting.reports }
        ensures sealed { AreSealed self.now.reporting }
    {
        self.reports.as_slice()
    }

    /// The adjustments that no report has sent.
    pub fn pending(&self) -> &[Adjustment]
        ensures { result.now ≡ self.now.reporting.pending }
    {
        self.pending.slice()
    }

    /// Whether an adjustment of a loan is pending: one binary search.
    pub fn is_pending(&self, loan: u32) -> bool
        ensures { result ≡ list_any (is_of loan) self.now.reporting.pending }
    {
        self.pending.has(loan)
    }

    /// How many adjustments there are, sent or pending.
    pub fn held(&self) -> u32
        ensures { result ≡ count_held self.now.reporting }
    {
        self.held
    }

    /// Makes room for a report of so many lines, and for so many adjustments; fails for want of
    /// memory alone.
    pub fn reserve(&mut self, lines: u32, adjustments: u32) -> Result<(), OutOfMemory>
        ensures reporting { self.new.reporting ≡ self.old.reporting }
        ensures remitted { self.new.remitted ≡ self.old.remitted }
        ensures report_room { OnOk result (1 ≤ self.new.report_room) }
        ensures line_room { OnOk result (lines ≤ self.new.line_room) }
        ensures adjustment_room { OnOk result (adjustments ≤ self.new.adjustment_room) }
        ensures reports_never_less { self.old.report_room ≤ self.new.report_room }
        ensures lines_never_less { self.old.line_room ≤ self.new.line_room }
        ensures adjustments_never_less { self.old.adjustment_room ≤ self.new.adjustment_room }
        ensures succeeds { 1 ≤ self.old.report_room → lines ≤ self.old.line_room →
            adjustments ≤ self.old.adjustment_room → IsOk result }
    {
        make_room(&mut self.reports, 1, 0)?;
        make_room(&mut self.lines, lines as usize, 0)?;
        self.pending.reserve(adjustments as usize)?;
        Ok(())
    }

    /// Remits a month: the next of the closed ones.
    pub fn remit(&mut self, month: Month) -> Result<(), RemitFault>
        ensures fault { IfErr result (λ f.
            remit_fault self.old.reporting.reports self.old.remitted month ≡ Some f) }
        ensures ok { OnOk result (remit_fault self.old.reporting.reports self.old.remitted month ≡ None) }
        ensures done { OnOk result (self.new ≡ record self.old { remitted = Some month }) }
        ensures err { OnErr result (self.new ≡ self.old) }
    {
        let (Some(last), Some(first)) = (self.closed, self.first) else {
            return Err(RemitFault::NotClosed(None));
        };
        if last < month {
            return Err(RemitFault::NotClosed(Some(last)));
        }
        let expected = match self.remitted {
            Some(before) => before.plus(1),
            None => first,
        };
        if month != expected {
            return Err(RemitFault::WrongRemit(expected));
        }
        self.remitted = Some(month);
        Ok(())
    }

    /// Closes the expected month once its last day is past: its report has the dues handed in, and
    /// sends the pending adjustments. It may use up all spare room.
    pub fn close(
        &mut self,
        month: Month,
        today: Day,
        expected: Month,
        dues: &[ReportLine],
    ) -> Result<(), SealFault>
        requires expected { IsExpected self.old.reporting.reports expected }
        requires dues { AreDues self.old.reporting.pending dues.now }
        ensures wrong_period { month ≢ expected → result ≡ Err (seal.WrongPeriod expected) }
        ensures not_ended { month ≡ expected → today ≤ calendar.last_day month →
            result ≡ Err (seal.NotEnded (calendar.last_day month)) }
        ensures memory { month ≡ expected → calendar.last_day month < today →
            IfErr result (λ f. f ≡ seal.OutOfMemory) }
        ensures room { month ≡ expected → calendar.last_day month < today →
            1 ≤ self.old.report_room → length dues.now ≤ self.old.line_room → IsOk result }
        ensures month { OnOk result (month ≡ expected) }
        ensures ended { OnOk result (calendar.last_day month < today) }
        ensures done { OnOk result (self.new.reporting ≡
            totals.after self.old.reporting (Close month dues.now)) }
        ensures remitted { self.new.remitted ≡ self.old.remitted }
        ensures err { OnErr result (self.new.reporting ≡ self.old.reporting) }
        ensures err_reports { OnErr result (self.old.report_room ≤ self.new.report_room) }
        ensures err_lines { OnErr result (self.old.line_room ≤ self.new.line_room) }
        ensures err_adjustments { OnErr result (self.old.adjustment_room ≤ self.new.adjustment_room) }
    {
        if month.number() != expected.number() {
            return Err(SealFault::WrongPeriod(expected));
        }
        let last = last_day(month);
        if today <= last {
            return Err(SealFault::NotEnded(last));
        }
        self.make_room(dues.len())?;
        self.seal(month, dues);
        Ok(())
    }

    /// Makes room for a report of so many lines.
    fn make_room(&mut self, lines: usize) -> Result<(), OutOfMemory>
        ensures reporting { self.new.reporting ≡ self.old.reporting }
        ensures remitted { self.new.remitted ≡ self.old.remitted }
        ensures report_room { OnOk result (1 ≤ self.new.report_room) }
        ensures line_room { OnOk result (lines ≤ self.new.line_room) }
        ensures room { 1 ≤ self.old.report_room → lines ≤ self.old.line_room → IsOk result }
        ensures reports_never_less { self.old.report_room ≤ self.new.report_room }
        ensures lines_never_less { self.old.line_room ≤ self.new.line_room }
        ensures adjustments_never_less { self.old.adjustment_room ≤ self.new.adjustment_room }
    {
        self.reports.reserve(1)?;
        self.lines.reserve(lines)?;
        Ok(())
    }

    /// Adds the report of a month.
    fn seal(&mut self, month: Month, dues: &[ReportLine])
        requires month { calendar.IsMonth month }
        requires expected { IsExpected self.old.reporting.reports month }
        requires dues { AreDues self.old.reporting.pending dues.now }
        requires report_room { 1 ≤ self.old.report_room }
        requires line_room { length dues.now ≤ self.old.line_room }
        ensures done { self.new.reporting ≡ totals.after self.old.reporting (Close month dues.now) }
        ensures remitted { self.new.remitted ≡ self.old.remitted }
    {
        let room = mem::replace(&mut self.lines, Vec::new(self.alloc));
        let lines = report_lines(room, dues, &self.pending);
        let adjustments = self.pending.take(self.alloc);
        self.reports
            .push_reserved(Report::new(month, lines, adjustments));
        self.first = Some(self.first.unwrap_or(month));
        self.closed = Some(month);
    }

    /// Records what a command changed in the dues of a loan's closed months: an adjustment for each
    /// month whose interest or principal differs. Fails for want of memory alone.
    #[tactic(auto, using(crate::proofs::ChangesLemmas::counts))]
    pub fn record_change(
        &mut self,
        number: u32,
        loan: u32,
        before: &[MonthDue],
        after: &[MonthDue],
    ) -> Result<(), OutOfMemory>
        requires { MayChange self.old.reporting number loan before.now after.now }
        ensures done { OnOk result (self.new.reporting ≡
            totals.after self.old.reporting (Change number loan before.now after.now)) }
        ensures remitted { self.new.remitted ≡ self.old.remitted }
        ensures err { OnErr result (self.new.reporting ≡ self.old.reporting) }
        ensures room { length (adjustments_of number loan before.now after.now) ≤ self.old.adjustment_room →
            IsOk result }
        ensures adjustment_room { self.old.adjustment_room ≤
            self.new.adjustment_room + length (adjustments_of number loan before.now after.now) }
        ensures err_room { OnErr result (self.old.adjustment_room ≤ self.new.adjustment_room) }
        ensures line_room { self.new.line_room ≡ self.old.line_room }
        ensures report_room { self.new.report_room ≡ self.old.report_room }
    {
        let count = count_changes(before, after);
        self.pending.reserve(count)?;
        push_changes(&mut self.pending, number, loan, before, after);
        self.held += count as u32;
        Ok(())
    }
}
