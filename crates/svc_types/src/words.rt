//! Reading the words that requests choose from: a text is read exactly where it is the spelling of
//! a value.

ghost use Rattle.std.specs.Prelude.{◌≡◌, ◌≢◌, ◌<◌, ◌^◌, ◌++◌, ℕ, IfSome, IfNone, codes};
ghost use Rattle.svc_base.specs.Text.{text_of_number};
ghost use Rattle.svc_types.specs.Words.{text_of_type, text_of_kind, text_of_surplus, text_of_part};
ghost use Rattle.svc_types.specs.Words.{text_of_designation, IsReadPart, IsNamed};
ghost use Rattle.svc_types.specs.declared.account.Designation as over;
ghost use Rattle.svc_types.specs.declared.terms.RemitType as types;
ghost use Rattle.svc_types.specs.declared.escrow.LineKind as kinds;
ghost use Rattle.svc_types.specs.declared.escrow.SurplusPlan as surpluses;
ghost use Rattle.svc_types.specs.declared.escrow.PartPlan as parts;

use crate::account::Designation;
use crate::escrow::{LineKind, PartPlan, SurplusPlan};
use crate::terms::RemitType;
use svc_base::read_number;

/// The remittance type that a text spells: `AA`, `SA` or `SS`.
pub fn read_type(text: &[u8]) -> Option<RemitType>
    ensures read { IfSome result (λ k. text.now ≡ text_of_type k) }
    ensures none { IfNone result ((k : types.RemitType) → text.now ≢ text_of_type k) }
{
    match text {
        b"AA" => Some(RemitType::AA),
        b"SA" => Some(RemitType::SA),
        b"SS" => Some(RemitType::SS),
        _ => None,
    }
}

/// The kind of bill that a text spells: `tax`, `hazard`, `flood` or `other`.
pub fn read_kind(text: &[u8]) -> Option<LineKind>
    ensures read { IfSome result (λ k. text.now ≡ text_of_kind k) }
    ensures none { IfNone result ((k : kinds.LineKind) → text.now ≢ text_of_kind k) }
{
    match text {
        b"tax" => Some(LineKind::Tax),
        b"hazard" => Some(LineKind::Hazard),
        b"flood" => Some(LineKind::Flood),
        b"other" => Some(LineKind::Other),
        _ => None,
    }
}

/// The designation that a text spells: `principal` or `escrow`. A regular payment names none.
pub fn read_designation(text: &[u8]) -> Option<Designation>
    ensures read { IfSome result (λ d. IsNamed d × (text.now ≡ text_of_designation d)) }
    ensures none { IfNone result ((d : over.Designation) → IsNamed d → text.now ≢ text_of_designation d) }
{
    match text {
        b"principal" => Some(Designation::Principal),
        b"escrow" => Some(Designation::Escrow),
        _ => None,
    }
}

/// The choice for a surplus that a text spells: `-`, `refund`, `credit` or `retain`.
pub fn read_surplus(text: &[u8]) -> Option<SurplusPlan>
    ensures read { IfSome result (λ p. text.now ≡ text_of_surplus p) }
    ensures none { IfNone result ((p : surpluses.SurplusPlan) → text.now ≢ text_of_surplus p) }
{
    match text {
        b"-" => Some(SurplusPlan::Unsaid),
        b"refund" => Some(SurplusPlan::Refund),
        b"credit" => Some(SurplusPlan::Credit),
        b"retain" => Some(SurplusPlan::Retain),
        _ => None,
    }
}

/// The choice for a shortage or a deficiency that a text spells: `-`, `leave`, `within30`, or
/// `spread:` and a number of months.
pub fn read_part(text: &[u8]) -> Option<PartPlan>
    ensures read { IfSome result (λ p. text.now ≡ text_of_part p) }
    ensures none { IfNone result ((p : parts.PartPlan) → IsReadPart p → text.now ≢ text_of_part p) }
{
    if text == b"-".as_slice() {
        return Some(PartPlan::Unsaid);
    }
    if text == b"leave".as_slice() {
        return Some(PartPlan::Leave);
    }
    if text == b"within30".as_slice() {
        return Some(PartPlan::Within30);
    }
    read_spread(text)
}

/// The spread that a text spells.
fn read_spread(text: &[u8]) -> Option<PartPlan>
    ensures read { IfSome result (λ p. text.now ≡ text_of_part p) }
    ensures none { IfNone result ((n : ℕ) → n < 2 ^ 32 → text.now ≢ codes "spread:" ++ text_of_number n) }
{
    let months = text.strip_prefix(b"spread:")?;
    let months = read_number(months)?;
    Some(PartPlan::Spread(months))
}
