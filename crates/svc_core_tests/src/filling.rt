//! Marks in the lines of a script that is played many times.

ghost use Rattle.std.specs.Prelude.{◌≤◌};

use serv_line::{push_bytes, push_number};
use std::alloc::Global;
use svc_base::{Month, OutOfMemory, write_month};

/// What the marks of a script stand for.
#[derive(Clone, Copy)]
pub(crate) struct Marks {
    /// `#`: the number of a command. `%` is the number after it.
    pub(crate) number: u32,
    /// `&`: a loan. `$` is its type: AA, SA or SS in turn.
    pub(crate) loan: u32,
    /// `@`: the month that is so many after 2023-12.
    pub(crate) month: u32,
}

/// The text of the month that is so many after 2023-12.
fn month_after(count: u32) -> [u8; 7]
    requires { count ≤ 1_000 }
{
    write_month(Month::new(2023, 12).plus(count))
}

/// The remittance type of a loan.
fn type_of(loan: u32) -> &'static [u8] {
    match loan % 3 {
        1 => b"AA",
        2 => b"SA",
        _ => b"SS",
    }
}

/// Appends what a byte of a script stands for.
fn push_filled(out: &mut Vec<u8>, byte: u8, marks: &Marks) -> Result<(), OutOfMemory> {
    match byte {
        b'#' => push_number(out, marks.number),
        b'%' => push_number(out, marks.number.saturating_add(1)),
        b'&' => push_number(out, marks.loan),
        b'$' => push_bytes(out, type_of(marks.loan)),
        b'@' => push_bytes(out, &month_after(marks.month.min(1_000))),
        _ => push_bytes(out, &[byte]),
    }
}

/// A text of a script with its marks filled in.
pub(crate) fn filled(alloc: Global, text: &str, marks: &Marks) -> Result<Vec<u8>, OutOfMemory> {
    let mut out = Vec::new(alloc);
    for byte in text.as_bytes() {
        push_filled(&mut out, *byte, marks)?;
    }
    Ok(out)
}
