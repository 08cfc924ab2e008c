//! Reading amounts and months of a statement: a text is read exactly where it is the spelling of a value in
//! range.

ghost use Rattle.std.specs.Prelude.{◌≡◌, ◌≢◌, ℕ, ℤ, IfSome, IfNone};
ghost use Rattle.svc_base.specs.Text.{text_of_signed, text_of_month};
ghost use Rattle.servicing_transfer.specs.Stated.{IsStatedAmount, IsStatedBalance, IsStatedMonth};

use crate::statement_line::StatedCents;
use serv_rows::read_signed;
use svc_base::{Month, read_civil_month};

/// The amount that a text spells, with a minus before it where it is below zero: 1 to 18 digits, a point and two
/// digits, as `-1199.10`.
pub(crate) fn read_balance(text: &[u8]) -> Option<StatedCents>
    ensures read { IfSome result (λ z. text.now ≡ text_of_signed z) }
    ensures range { IfSome result IsStatedBalance }
    ensures none { IfNone result ((z : ℤ) → IsStatedBalance z → text.now ≢ text_of_signed z) }
{
    read_signed(text, 1_000_000_000_000_000_000)
}

/// The amount that a text spells, which is not below zero.
pub(crate) fn read_amount(text: &[u8]) -> Option<StatedCents>
    ensures read { IfSome result (λ z. text.now ≡ text_of_signed z) }
    ensures range { IfSome result IsStatedAmount }
    ensures none { IfNone result ((z : ℤ) → IsStatedAmount z → text.now ≢ text_of_signed z) }
{
    let cents = read_balance(text)?;
    if cents < 0 {
        return None;
    }
    Some(cents)
}

/// The month that a text spells as `2024-02`, of a year from 1990 to 2140.
pub(crate) fn read_stated_month(text: &[u8]) -> Option<Month>
    ensures read { IfSome result (λ m. text.now ≡ text_of_month m) }
    ensures range { IfSome result IsStatedMonth }
    ensures none { IfNone result ((m : ℕ) → IsStatedMonth m → text.now ≢ text_of_month m) }
{
    let month = read_civil_month(text)?;
    if month < 12 * 1990 || month >= 12 * 2141 {
        return None;
    }
    Some(Month::new(month / 12, month % 12 + 1))
}
