//! The line of a row that does not fit.

ghost use Rattle.std.specs.Prelude.{◌≡◌, ◌++◌, OnErr, OnOk};
ghost use Rattle.serv_line.specs.Pushed.{Keeps};
ghost use Rattle.serv_rows.specs.Texts.{text_of_bad_row};

use serv_line::{push_bytes, push_number, undone};
use svc_base::OutOfMemory;

/// Appends the line of a row that does not fit: its number, and its first column that does not. Where memory is short
/// `out` is as it was.
pub fn push_bad_row(out: &mut Vec<u8>, row: u32, column: u32) -> Result<(), OutOfMemory>
    ensures pushed { OnOk result (out.new.items ≡ out.old.items ++ text_of_bad_row row column) }
    ensures kept { OnErr result (out.new.items ≡ out.old.items) }
{
    let start = out.len();
    let pushed = append_bad_row(out, row, column);
    undone(out, start, pushed)
}

/// Appends the line of a row that does not fit.
#[tactic(auto, using(serv_line::proofs::KeepLemmas::keeps), unfolding(crate::specs::Texts::text_of_bad_row))]
fn append_bad_row(out: &mut Vec<u8>, row: u32, column: u32) -> Result<(), OutOfMemory>
    ensures pushed { OnOk result (out.new.items ≡ out.old.items ++ text_of_bad_row row column) }
    ensures kept { OnErr result (Keeps out.old.items out.new.items) }
{
    push_bytes(out, b"bad row ")?;
    push_number(out, row)?;
    push_bytes(out, b" column ")?;
    push_number(out, column)?;
    push_bytes(out, b"\n")
}
