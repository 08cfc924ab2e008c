//! Writing days, months and amounts as they are spelled.

ghost use Rattle.std.specs.Prelude.{◌≡◌, ◌+◌, ◌%◌, ◌<◌, ◌++◌, OnOk, OnErr, IfOk};
ghost use Rattle.svc_base.specs.Text as text;
ghost use Rattle.std.specs.String.{string_bytes};

use crate::day::Day;
use crate::month::Month;
use crate::out_of_memory::OutOfMemory;
use std::alloc::{AllocError, Global};

/// The last digit of a number, as a byte.
fn digit(n: u32) -> u8
    ensures { result ≡ 48 + n % 10 }
{
    b'0' + (n % 10) as u8
}

/// A month as `2024-02`.
#[tactic(auto, unfolding(crate::specs::Text::text_of_month))]
pub fn write_month(month: Month) -> [u8; 7]
    ensures { result ≡ text.text_of_month month }
{
    let (year, number) = (month.year(), month.month());
    [
        digit(year / 1000),
        digit(year / 100),
        digit(year / 10),
        digit(year),
        b'-',
        digit(number / 10),
        digit(number),
    ]
}

/// A day as `2024-02-01`.
#[tactic(auto, unfolding(crate::specs::Text::text_of_day, crate::specs::Text::text_of_month))]
pub fn write_day(day: Day) -> [u8; 10]
    ensures { result ≡ text.text_of_day day }
{
    let [a, b, c, d, dash, e, f] = write_month(day.in_month());
    let place = day.day();
    [
        a,
        b,
        c,
        d,
        dash,
        e,
        f,
        b'-',
        digit(place / 10),
        digit(place),
    ]
}

/// Cents as whole units, a point and two digits.
#[tactic(auto, using(std::proofs::lemmas::Fmt::decimal_digit), unfolding(crate::specs::Text::text_of_cents))]
fn cents_text(alloc: Global, cents: u128) -> Result<String, AllocError>
    ensures { IfOk result (λ s. string_bytes s ≡ text.text_of_cents cents) }
{
    let (tens, ones) = (cents / 10 % 10, cents % 10);
    format!(in alloc; "{}.{tens}{ones}", cents / 100)
}

/// Appends an amount: units, a point and two digits, with a minus before it where it is below
/// zero, as `-1.05`. Errs only where memory is short, and then leaves `out` as it was.
#[tactic(auto, unfolding(crate::specs::Text::text_of_signed))]
pub fn push_signed(out: &mut Vec<u8>, cents: i128) -> Result<(), OutOfMemory>
    ensures pushed { OnOk result (out.new.items ≡ out.old.items ++ text.text_of_signed cents) }
    ensures kept { OnErr result (out.new.items ≡ out.old.items) }
{
    let text = cents_text(*out.allocator(), cents.unsigned_abs())?;
    if cents < 0 {
        out.reserve(text.len() + 1)?;
        out.push_reserved(b'-');
    }
    out.extend_from_slice(text.as_bytes())?;
    Ok(())
}
