//! Keys of maps of items: an account is known by whether it is T.

ghost use Rattle.std.specs.Prelude.{◌≡◌};
ghost use Rattle.bank_recon.specs.Keys as keys;

use crate::item::BankItem;
use custodial_book::Account;
use svc_base::Cents;

/// An item's account and number.
#[derive(Clone, Copy, Debug, PartialEq, Eq, PartialOrd, Ord)]
pub(crate) struct PlaceKey {
    pub in_t: bool,
    pub number: u32,
}

/// An item's account, number and amount.
#[derive(Clone, Copy, Debug, PartialEq, Eq, PartialOrd, Ord)]
pub(crate) struct ItemKey {
    pub in_t: bool,
    pub number: u32,
    pub cents: Cents,
}

/// The key of an item's account and number.
pub(crate) fn place_of(item: &BankItem) -> PlaceKey
    ensures { result ≡ keys.place_of item.now }
{
    PlaceKey {
        in_t: item.account == Account::T,
        number: item.number,
    }
}

/// The key of an item.
pub(crate) fn key_of(item: &BankItem) -> ItemKey
    ensures { result ≡ keys.key_of item.now }
{
    ItemKey {
        in_t: item.account == Account::T,
        number: item.number,
        cents: item.cents,
    }
}
