//! The entries, reversals and business day of a loan.

use crate::loans::{day, loan, payment};
use std::alloc::Global;
use std::test::Fail;
use svc_replay::{BookFault, LoanAccount};

/// Three payments, of which one is reversed.
fn account(alloc: Global) -> Result<LoanAccount, BookFault> {
    let mut account = LoanAccount::new(alloc, loan(), day(2024, 3, 1));
    account.reserve()?;
    account.post(&payment(3, day(2024, 3, 1)))?;
    account.post(&payment(4, day(2024, 2, 1)))?;
    account.post(&payment(5, day(2024, 2, 1)))?;
    account.reverse(4, 6)?;
    account.advance(day(2024, 4, 1));
    Ok(account)
}

/// Whether the entry that was reversed is there, with what reversed it.
fn keeps_what_was_reversed(account: &LoanAccount) -> bool {
    let entry = account.entry(4) == Some(payment(4, day(2024, 2, 1)));
    entry && account.reversed_by(4) == Some(6) && account.reversed_by(5).is_none()
}

#[test]
fn an_account_keeps_what_was_reversed(rt: HostRuntime) -> Result<(), Fail> {
    let account = account(rt.alloc())?;
    assert_eq!(rt; account.live().len(), 2);
    assert!(rt; keeps_what_was_reversed(&account));
    assert!(rt; account.reversals() == [(4, 6)].as_slice());
    assert!(rt; account.today() == day(2024, 4, 1) && *account.terms() == loan());
    Ok(())
}
