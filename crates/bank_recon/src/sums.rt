//! Sums of items, in 128 bits.

ghost use Rattle.std.specs.Prelude.{◌≡◌, ◌^◌, ◌≤ℤ◌, neg_ℤ, pos};
ghost use Rattle.bank_recon.specs.Reconciling.{cents_in, sum_in, lines_of};

use crate::item::BankItem;
use crate::recon::Reason;
use custodial_book::Account;

/// What an item moves of an account.
#[tactic(auto, using(std::proofs::lemmas::Int::ints))]
fn cents_in(account: Account, item: &BankItem) -> i128
    ensures value { result ≡ cents_in account item.now }
    ensures low { neg_ℤ (pos (2 ^ 63)) ≤ℤ result }
    ensures high { result ≤ℤ pos (2 ^ 63) }
{
    if item.account == account {
        i128::from(item.cents)
    } else {
        0
    }
}

/// What some items move of an account.
#[tactic(auto, using(std::proofs::lemmas::Int::ints))]
pub(crate) fn sum_of_items(account: Account, items: &[BankItem]) -> i128
    ensures { result ≡ sum_in account items.now }
{
    let mut sum = 0;
    for item in items {
        sum += cents_in(account, item);
    }
    sum
}

/// What lines that are not booked move of an account.
#[tactic(auto, using(std::proofs::lemmas::Int::ints))]
pub(crate) fn sum_of_lines(account: Account, lines: &[(BankItem, Reason)]) -> i128
    ensures { result ≡ sum_in account (lines_of lines.now) }
{
    let mut sum = 0;
    for (line, _) in lines {
        sum += cents_in(account, line);
    }
    sum
}
