//! What the core fills anew as it accepts a command.

use period_adjust::ReportLine;
use remit_types::MonthDue;
use std::alloc::Global;

/// Lists that accepting a command fills anew, in room that was made beforehand: the dues that a loan had for closed
/// months, and the lines of a report.
#[derive(Drop)]
pub(crate) struct Scratch {
    pub(crate) dues: Vec<MonthDue>,
    pub(crate) lines: Vec<ReportLine>,
}

impl Scratch {
    /// Empty lists.
    pub(crate) fn new(alloc: Global) -> Scratch {
        Scratch {
            dues: Vec::new(alloc),
            lines: Vec::new(alloc),
        }
    }
}
