//! The lines of a report, with the sums of each loan's adjustments.

ghost use Rattle.std.specs.Prelude.{◌≡◌, ◌+◌, ◌≤◌, [], map, length, vec_len, vec_capacity};
ghost use Rattle.period_adjust.specs.Sums.{line_with};

use crate::pending::Pending;
use crate::report_line::ReportLine;

/// The lines of a report: the dues, each with the sums of its loan's pending adjustments. They are
/// put into the empty list that is handed in.
pub(crate) fn report_lines(
    mut lines: Vec<ReportLine>,
    dues: &[ReportLine],
    pending: &Pending,
) -> Vec<ReportLine>
    requires empty { lines.items ≡ [] }
    requires room { vec_len lines + length dues.now ≤ vec_capacity lines }
    ensures { result.items ≡ map (line_with pending.now.adjustments) dues.now }
{
    for due in dues {
        lines.push_reserved(line(due, pending));
    }
    lines
}

/// The due with the sums of its loan's pending adjustments.
fn line(due: &ReportLine, pending: &Pending) -> ReportLine
    ensures { result ≡ line_with pending.now.adjustments due.now }
{
    let sums = pending.sums_of(due.loan);
    ReportLine {
        adj_interest: sums.interest,
        adj_principal: sums.principal,
        ..*due
    }
}
