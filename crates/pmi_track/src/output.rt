//! The two texts that are written of a file of insured loans.

ghost use Rattle.std.specs.Prelude.{◌≡◌, ◌++◌, OnOk};
ghost use Rattle.pmi_track.specs.Texts as texts;

use crate::insured_loan::InsuredLoan;
use crate::pmi_outcome::PmiOutcome;
use crate::texts::{push_drop, push_outcome};
use serv_line::push_refusal;
use serv_rows::push_bad_row;
use svc_base::OutOfMemory;
use svc_types::Refusal;

/// Which text is written of a file of insured loans.
#[derive(Clone, Copy, Debug, PartialEq, Eq)]
pub(crate) enum Output {
    /// A line for each row.
    Lines,
    /// The commands that drop the escrow lines of ended insurances.
    Drops,
}

/// Appends what has become of a loan's insurance, or the drop of its line, where it has ended.
pub(crate) fn push_loan(
    out: &mut Vec<u8>,
    output: Output,
    insured: &InsuredLoan,
    outcome: &PmiOutcome,
) -> Result<(), OutOfMemory>
    ensures { OnOk result (out.new.items ≡ out.old.items ++ texts.outcome_text output insured.now outcome.now) }
{
    match (output, outcome) {
        (Output::Lines, _) => push_outcome(out, insured.loan, outcome),
        (Output::Drops, PmiOutcome::Ends(_, _)) => push_drop(out, insured.loan, insured.line),
        (Output::Drops, PmiOutcome::Runs(_)) => Ok(()),
    }
}

/// Appends why a loan is refused; no drop.
pub(crate) fn push_refused(
    out: &mut Vec<u8>,
    output: Output,
    why: &Refusal,
) -> Result<(), OutOfMemory>
    ensures { OnOk result (out.new.items ≡ out.old.items ++ texts.refusal_text output why.now) }
{
    match output {
        Output::Lines => push_refusal(out, why),
        Output::Drops => Ok(()),
    }
}

/// Appends where a row is bad; no drop.
pub(crate) fn push_bad(
    out: &mut Vec<u8>,
    output: Output,
    row: u32,
    column: u32,
) -> Result<(), OutOfMemory>
    ensures { OnOk result (out.new.items ≡ out.old.items ++ texts.bad_text output row column) }
{
    match output {
        Output::Lines => push_bad_row(out, row, column),
        Output::Drops => Ok(()),
    }
}
