//! Amounts that may be below zero.

ghost use Rattle.std.specs.Prelude.{◌≡◌, ◌≢◌, ℕ, ℤ, ◌*◌, ◌<◌, ◌∷◌, List, IfSome, IfNone};
ghost use Rattle.svc_base.specs.Text.{text_of_cents, text_of_signed};
ghost use Rattle.serv_rows.specs.Amounts.{IsBelow};

use svc_base::read_cents;

/// The cents above 0 that a text spells, of fewer units than a limit.
fn read_some(text: &[u8], limit: u64) -> Option<u128>
    ensures read { IfSome result (λ n. text.now ≡ text_of_cents n) }
    ensures range { IfSome result (λ n. (0 < n) × (n < 100 * limit)) }
    ensures none { IfNone result ((n : ℕ) → 0 < n → n < 100 * limit → text.now ≢ text_of_cents n) }
{
    let cents = read_cents(text, limit)?;
    if cents == 0 {
        return None;
    }
    Some(cents)
}

/// What stands after a minus, where a text begins with one.
fn after_minus(text: &[u8]) -> Option<&[u8]>
    ensures minus { IfSome result (λ rest. text.now ≡ 45 ∷ rest.now) }
    ensures none { IfNone result ((rest : List ℕ) → text.now ≢ 45 ∷ rest) }
{
    match text {
        [b'-', rest @ ..] => Some(rest),
        _ => None,
    }
}

/// The cents that a text spells with two decimals, with a minus before them where they are below zero: `-1199.10`.
/// On either side of zero they are of fewer units than a limit.
pub fn read_signed(text: &[u8], limit: u64) -> Option<i128>
    ensures read { IfSome result (λ z. text.now ≡ text_of_signed z) }
    ensures range { IfSome result (IsBelow (100 * limit)) }
    ensures none { IfNone result ((z : ℤ) → IsBelow (100 * limit) z → text.now ≢ text_of_signed z) }
{
    match after_minus(text) {
        Some(below) => Some(-(read_some(below, limit)? as i128)),
        None => Some(read_cents(text, limit)? as i128),
    }
}
