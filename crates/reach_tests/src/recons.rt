//! Reconciliations, as lists of a bank in and texts out.

ghost use Rattle.std.specs.Prelude.{◌≡◌, ◌<◌};

use crate::histories::core_of;
use bank_recon::{BankItem, Recon, items, recon_text, reconcile};
use custodial_book::Account;
use std::alloc::Global;
use std::marker::Brand;
use std::sync::ledger::{Blank, Ledger};
use std::test::Fail;
use svc_base::{Cents, Steps};
use svc_checkpoint::Checked;
use svc_core::Core;

/// A history, a span of its commands, a bank's list, and what is written.
#[derive(Clone, Copy)]
struct Row {
    history: &'static str,
    first: u32,
    last: u32,
    list: &'static str,
    text: &'static str,
}

/// Whether a row's text is written over its history.
fn has_text(alloc: Global, core: &Core<Checked>, row: &Row) -> Result<bool, Fail> {
    let list = row.list.as_bytes();
    if row.first == 0 || row.first > row.last || list.len() > 67_108_864 {
        return Ok(false);
    }
    let text = recon_text(alloc, core, row.first, row.last, list)?;
    Ok(text.as_slice() == row.text.as_bytes())
}

fn is_written_over<L: Ledger>(alloc: Global, blank: Blank, row: &Row) -> Result<bool, Fail>
    requires name { blank.name ≡ L.name }
    requires parts { blank.parts ≡ L.parts }
    requires some { 0 < L.parts }
{
    let mut steps = Steps::<L>::new(blank);
    let core = core_of(alloc, row.history.as_bytes(), &mut steps)?;
    has_text(alloc, &core, row)
}

/// The same, with steps that are counted from 0.
fn is_written(alloc: Global, row: &Row) -> Result<bool, Fail> {
    is_written_over::<Brand>(alloc, Blank::new(1), row)
}

/// A first payment of 1,199.10: received and collected, with a fee of 41.67.
const FIRST_PAYMENT: &str = "k1 day 2024-02-01\n\
    k2 board 1 2023-12-15 200000.00 6000 250 1199.10 360 2024-02 15 500 2 0.00 AA\n\
    k3 pay 1 2024-02-01 1199.10\n";

/// What the bank shows is matched, what it does not show stays open, and what is not booked is told. Further rows stand in
/// `tests/real/worked.py`.
#[test]
fn movements_are_matched(rt: HostRuntime) -> Result<(), Fail> {
    let row = Row {
        history: FIRST_PAYMENT,
        first: 1,
        last: 3,
        list: "kind,account,number,amount\nbank,T,3,1199.10\nbank,P,3,1199.10\nbank,T,9,5.00\n",
        text: "reconcile 1 3\nopen T 3 -1199.10\nopen P 3 -41.67\nunbooked T 9 5.00 NoSuch\n\
            account T book 0.00 bank 1204.10 open -1199.10 unbooked 5.00\n\
            account P book 1157.43 bank 1199.10 open -41.67 unbooked 0.00\nend\n",
    };
    assert!(rt; is_written(rt.alloc(), &row)?);
    Ok(())
}

const fn item(account: Account, number: u32, cents: Cents) -> BankItem {
    BankItem {
        account,
        number,
        cents,
    }
}

/// A list says what it has, in its order.
#[test]
fn lists_are_read(rt: HostRuntime) -> Result<(), Fail> {
    let list = "kind,account,number,amount\nbank,T,3,-9999999999999999.99\nopen,P,0,0.01\n\
        bank,P,4294967295,10.00\n";
    let said = items(rt.alloc(), list.as_bytes())?;
    let bank = [
        item(Account::T, 3, -999_999_999_999_999_999),
        item(Account::P, 4_294_967_295, 1_000),
    ];
    let carried = [item(Account::P, 0, 1)];
    assert!(rt;
        said.carried.as_slice() == carried.as_slice() && said.bank.as_slice() == bank.as_slice()
    );
    Ok(())
}

/// A line of the bank that is booked, and one that is not.
const TWO_LINES: &str = "kind,account,number,amount\nbank,T,3,1199.10\nbank,T,9,5.00\n";

/// Three of four items stay open, and of two lines one is not booked.
fn is_reconciled(recon: &Recon) -> bool {
    let matched = [item(Account::T, 3, 119_910)];
    recon.matched.as_slice() == matched.as_slice()
        && recon.outstanding.len() == 3
        && recon.unbooked.len() == 1
}

fn has_found<L: Ledger>(
    alloc: Global,
    core: &Core<Checked>,
    steps: &mut Steps<L>,
) -> Result<bool, Fail> {
    let said = items(alloc, TWO_LINES.as_bytes())?;
    let recon = reconcile(alloc, core, 1, 3, &said, steps)?;
    Ok(is_reconciled(&recon))
}

fn reconciles_over<L: Ledger>(alloc: Global, blank: Blank) -> Result<bool, Fail>
    requires name { blank.name ≡ L.name }
    requires parts { blank.parts ≡ L.parts }
    requires some { 0 < L.parts }
{
    let mut steps = Steps::<L>::new(blank);
    let core = core_of(alloc, FIRST_PAYMENT.as_bytes(), &mut steps)?;
    has_found(alloc, &core, &mut steps)
}

fn reconciles(alloc: Global) -> Result<bool, Fail> {
    reconciles_over::<Brand>(alloc, Blank::new(1))
}

/// What is found is told as lists, too.
#[test]
fn lists_are_told(rt: HostRuntime) -> Result<(), Fail> {
    assert!(rt; reconciles(rt.alloc())?);
    Ok(())
}
