//! Movements of the custodial accounts.

use custodial_book::Account;
use svc_base::Cents;

/// A movement of a custodial account: the number of the command that made it, and its cents, which are below
/// zero where they leave the account.
#[derive(Clone, Copy, Debug, PartialEq, Eq)]
pub struct BankItem {
    pub account: Account,
    pub number: u32,
    pub cents: Cents,
}
