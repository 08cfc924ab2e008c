//! A report that is sealed.

ghost use Rattle.std.specs.Prelude.{◌≡◌, IfOk};

use crate::adjustment::Adjustment;
use crate::report_line::ReportLine;
use std::marker::Model;
use svc_base::{Month, OutOfMemory};

/// What is reported to the investor for a month: its lines, and the adjustments of closed months
/// that it sends.
#[derive(Drop)]
pub struct Report {
    month: Month,
    lines: Vec<ReportLine>,
    adjustments: Vec<Adjustment>,
}

impl Model for Report {
    ghost use Rattle.period_adjust.specs.Sealed.{Sealed};

    ghost Value = { Sealed };

    ghost view = { λ r. record { month = r.month; lines = r.lines.items; adjustments = r.adjustments.items } };
}

impl Report {
    /// A report of these.
    pub(crate) fn new(month: Month, lines: Vec<ReportLine>, adjustments: Vec<Adjustment>) -> Report
        ensures month { result.month ≡ month }
        ensures lines { result.lines ≡ lines.items }
        ensures adjustments { result.adjustments ≡ adjustments.items }
    {
        Report {
            month,
            lines,
            adjustments,
        }
    }

    /// Its month.
    pub fn month(&self) -> Month
        ensures { result ≡ self.now.month }
    {
        self.month
    }

    /// Its lines, rising by loan.
    pub fn lines(&self) -> &[ReportLine]
        ensures { result.now ≡ self.now.lines }
    {
        self.lines.as_slice()
    }

    /// The adjustments that it sends.
    pub fn adjustments(&self) -> &[Adjustment]
        ensures { result.now ≡ self.now.adjustments }
    {
        self.adjustments.as_slice()
    }

    /// An equal report; fails for want of memory alone.
    pub fn copy(&self) -> Result<Report, OutOfMemory>
        ensures { IfOk result (λ copy. copy ≡ self.now) }
    {
        let lines = self.lines.clone()?;
        let adjustments = self.adjustments.clone()?;
        Ok(Report {
            month: self.month,
            lines,
            adjustments,
        })
    }
}
