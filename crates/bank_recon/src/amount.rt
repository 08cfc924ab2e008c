//! The amounts of a list's rows.

ghost use Rattle.std.specs.Prelude.{◌≡◌, IfSome, IfNone};
ghost use Rattle.svc_base.specs.Text.{text_of_signed};
ghost use Rattle.bank_recon.specs.Rows.{IsItemAmount, IsAmountWord};

use serv_rows::read_signed;
use svc_base::Cents;

/// The amount that a text spells, in cents: it is not zero, may have `-` before it, and has at most 16 digits
/// before its point.
#[tactic(auto, using(svc_base::proofs::CentsRules::cents))]
pub(crate) fn read_item_amount(text: &[u8]) -> Option<Cents>
    ensures read { IfSome result (λ z. text.now ≡ text_of_signed z) }
    ensures range { IfSome result IsItemAmount }
    ensures none { IfNone result (IsAmountWord text.now → ⊥) }
{
    let cents = read_signed(text, 10_000_000_000_000_000)?;
    if cents == 0 {
        return None;
    }
    Some(cents as Cents)
}
