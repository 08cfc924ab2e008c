//! The book of custodial rows.

ghost use Rattle.std.specs.Prelude.{◌≡◌, ◌+◌, ◌/◌, ◌<◌, ◌≤◌, max, ◌+ℤ◌, ◌-ℤ◌, ◌≤ℤ◌, pos, neg_ℤ, map, [], ◌∷◌, ◌++◌, length, vec_len, vec_capacity, OnOk, OnErr, IsOk, IfSome};
ghost use Rattle.std.specs.Bool.{Decides};
ghost use Rattle.std.specs.List.Sorted.{IsNonDecreasingBy};
ghost use Rattle.custodial_book.specs.declared.part.Account.{Account as AnyAccount};
ghost use Rattle.custodial_book.specs.declared.row.Totals.{Totals as AnyTotals};
ghost use Rattle.custodial_book.specs.Parts.{parts, nth_part};
ghost use Rattle.custodial_book.specs.Rows.{balance_of, balance_with, cash_of, row_of, rows_of, rows_of_command, AreTotals, IsBalance, IsCash, IsCashChange, IsChange, IsTotal, ComesNext, cents_by_part};
ghost use Rattle.custodial_book.specs.Rows as rule;
ghost use Rattle.custodial_book.specs.Kept.{IsBook};
ghost use Rattle.custodial_book.specs.WorkedTotals.{no_totals, paid, remitted_once, remitted_ahead, paid_off, payoff_remitted, payoff_reversed, deposited, disbursed_beyond, advance_recovered, another_deposited};

use crate::part::{Account, Part};
use crate::row::{Row, Totals};
use std::alloc::Global;
use std::marker::Model;
use svc_base::{Cents, OutOfMemory, make_room};

/// The rows of all commands in their order, and the balances that they leave. Its value in
/// contracts is the list of the rows, and for how many more there is room.
#[derive(Drop)]
pub struct Book {
    entries: Vec<Row>,
    t: Cents,
    p: Cents,
}

impl Model for Book {
    ghost use Rattle.std.specs.Prelude.{◌-◌, vec_len, vec_capacity};
    ghost use Rattle.custodial_book.specs.Kept.{Kept, IsBook};

    ghost Value = { Kept };

    ghost view = { λ b. record {
      rows = b.entries.items;
      spare = vec_capacity b.entries - vec_len b.entries;
    } };

    ghost invariant = { λ b. IsBook b.entries.items b.t b.p };
}

impl Book {
    /// A book without rows.
    pub fn new(alloc: Global) -> Book
        ensures { result.rows ≡ [] }
    {
        Book {
            entries: Vec::new(alloc),
            t: 0,
            p: 0,
        }
    }

    /// Makes room for so many rows; fails for want of memory alone. A book grows by an eighth at
    /// most beyond what is asked, so that a large one never doubles.
    pub fn reserve(&mut self, rows: u32) -> Result<(), OutOfMemory>
        ensures kept { self.new.rows ≡ self.old.rows }
        ensures ok { OnOk result (rows ≤ self.new.spare) }
        ensures never_less { self.old.spare ≤ self.new.spare }
        ensures succeeds { rows ≤ self.old.spare → IsOk result }
        ensures growth { self.new.spare ≤ max self.old.spare (max rows (length self.old.rows / 8)) }
    {
        make_room(&mut self.entries, rows as usize, 0)
    }

    /// Adds the rows of a command for a loan: what each of its totals changed by, in the order of
    /// the parts. Each balance moves by what the account's cash of the loan changed by. Fails for
    /// want of memory alone.
    pub fn append(
        &mut self,
        number: u32,
        loan: u32,
        before: &Totals,
        after: &Totals,
    ) -> Result<(), OutOfMemory>
        requires next { ComesNext number loan self.old.rows }
        requires before { AreTotals before.now }
        requires after { AreTotals after.now }
        requires t { IsBalance (balance_with Account.T self.old.rows before.now after.now) }
        requires p { IsBalance (balance_with Account.P self.old.rows before.now after.now) }
        ensures ok { OnOk result (self.new.rows ≡ self.old.rows ++ rows_of number loan before.now after.now) }
        ensures balances { OnOk result ((account : AnyAccount) →
            balance_of account self.new.rows ≡ balance_with account self.old.rows before.now after.now) }
        ensures err { OnErr result (self.new.rows ≡ self.old.rows) }
        ensures succeeds { 11 ≤ self.old.spare → IsOk result }
        ensures spare { self.old.spare + length self.old.rows ≤ self.new.spare + length self.new.rows }
        ensures growth { self.new.spare ≤ max self.old.spare (max 11 (length self.old.rows / 8)) }
    {
        make_room(&mut self.entries, Part::ALL.len(), 0)?;
        self.t += cash_change(Account::T, before, after);
        self.p += cash_change(Account::P, before, after);
        add_changes(&mut self.entries, number, loan, before, after);
        Ok(())
    }

    /// The rows of the command with that number.
    pub fn rows(&self, number: u32) -> &[Row]
        ensures { result.now ≡ rows_of_command number self.now.rows }
    {
        let first = self.entries.partition_point(|row| row.number < number);
        let onward = &self.entries[first..];
        &onward[..onward.partition_point(|row| row.number <= number)]
    }

    /// What the account holds, in cents.
    pub fn balance(&self, account: Account) -> Cents
        ensures value { result ≡ balance_of account self.now.rows }
        ensures bound { IsBalance result }
    {
        match account {
            Account::T => self.t,
            Account::P => self.p,
        }
    }
}

/// Rows and balances worked out by hand, by the definitions alone. It does nothing.
#[tactic(auto, unfolding(crate::specs::Rows::row_of, crate::specs::Rows::balance_of))]
pub fn worked_rows()
    ensures first_payment { map cents_by_part (rows_of 3 1 no_totals paid)
        ≡ (Part.Received, pos 119910) ∷ (Part.Collected, pos 119910) ∷ (Part.Fee, pos 4167) ∷ [] }
    ensures remitted_ahead { map cents_by_part (rows_of 12 1 remitted_once remitted_ahead)
        ≡ (Part.PiAdvance, pos 115747) ∷ (Part.Remitted, pos 115747) ∷ [] }
    ensures held_between { balance_of Account.P (rows_of 3 1 no_totals paid) ≡ pos 115743 }
    ensures cash_between { cash_of Account.P paid ≡ pos 115743 }
    ensures held_at_last { balance_of Account.P (rows_of 3 1 no_totals paid ++ rows_of 11 1 paid remitted_once
        ++ rows_of 12 1 remitted_once remitted_ahead) ≡ pos 0 }

    ensures payoff_remitted { map cents_by_part (rows_of 12 1 paid_off payoff_remitted)
        ≡ (Part.Remitted, pos 20095833) ∷ (Part.Residual, pos 47869) ∷ [] }
    ensures payoff_reversed { map cents_by_part (rows_of 13 1 payoff_remitted payoff_reversed)
        ≡ (Part.Returned, pos 20030040) ∷ (Part.Collected, neg_ℤ (pos 20030040)) ∷
        (Part.Fee, neg_ℤ (pos 2081)) ∷ (Part.PiAdvance, pos 19980090) ∷
        (Part.Residual, neg_ℤ (pos 47869)) ∷ [] }

    ensures disbursed_beyond { map cents_by_part (rows_of 7 2 deposited disbursed_beyond)
        ≡ (Part.Disbursed, pos 200000) ∷ (Part.EscrowAdvance, pos 50000) ∷ [] }
    ensures advance_recovered { map cents_by_part (rows_of 8 2 disbursed_beyond advance_recovered)
        ≡ (Part.Received, pos 60000) ∷ (Part.EscrowAdvance, neg_ℤ (pos 50000)) ∷ [] }
    ensures covered { balance_of Account.T (rows_of 5 2 no_totals deposited
        ++ rows_of 6 3 no_totals another_deposited ++ rows_of 7 2 deposited disbursed_beyond) ≡ pos 30000 }
    ensures cash_covered { cash_of Account.T disbursed_beyond ≡ pos 0 }
{}

/// Adds a row for each total that changed.
fn add_changes(entries: &mut Vec<Row>, number: u32, loan: u32, before: &Totals, after: &Totals)
    requires room { vec_len entries.old + 11 ≤ vec_capacity entries.old }
    requires rising { IsNonDecreasingBy (λ row. row.number) entries.old.items }
    requires next { ComesNext number loan entries.old.items }
    requires before { AreTotals before.now }
    requires after { AreTotals after.now }
    ensures items { entries.new.items ≡ entries.old.items ++ rows_of number loan before.now after.now }
    ensures capacity { vec_capacity entries.new ≡ vec_capacity entries.old }
    ensures rising { IsNonDecreasingBy (λ row. row.number) entries.new.items }
{
    if are_same(before, after) {
        return;
    }
    let changes = changes(before, after);
    for k in 0..11 {
        if let Some(row) = change(number, loan, k, changes[k]) {
            entries.push_reserved(row);
        }
    }
}

/// Whether no total changed.
fn are_same(before: &Totals, after: &Totals) -> bool
    ensures { Decides result (before.now ≡ after.now) }
{
    before == after
}

/// What each total changed by, in the order of the parts.
fn changes(before: &Totals, after: &Totals) -> [Cents; 11]
    requires before { AreTotals before.now }
    requires after { AreTotals after.now }
    ensures value { result ≡ map (rule.change_of before.now after.now) parts }
{
    [
        change_of(Part::Received, before, after),
        change_of(Part::Returned, before, after),
        change_of(Part::Refunded, before, after),
        change_of(Part::Disbursed, before, after),
        change_of(Part::Collected, before, after),
        change_of(Part::Fee, before, after),
        change_of(Part::Late, before, after),
        change_of(Part::PiAdvance, before, after),
        change_of(Part::EscrowAdvance, before, after),
        change_of(Part::Remitted, before, after),
        change_of(Part::Residual, before, after),
    ]
}

/// What a total changed by.
#[tactic(auto, using(std::proofs::lemmas::Int::ints))]
fn change_of(part: Part, before: &Totals, after: &Totals) -> Cents
    requires before { AreTotals before.now }
    requires after { AreTotals after.now }
    ensures value { result ≡ rule.change_of before.now after.now part }
    ensures bound { IsChange result }
{
    after.of(part) - before.of(part)
}

/// The row of the part at a place, whose total changed by so much; none where it did not change.
#[tactic(auto, unfolding(crate::specs::Rows::row_of))]
fn change(number: u32, loan: u32, place: usize, cents: Cents) -> Option<Row>
    requires place { place < 11 }
    requires cents { IsChange cents }
    ensures row { (before after : AnyTotals) → cents ≡ rule.change_of before after (nth_part place) →
        result ≡ row_of number loan before after (nth_part place) }
    ensures number { IfSome result (λ row. row.number ≡ number) }
    ensures cents { IfSome result (λ row. IsChange row.cents) }
{
    if cents == 0 {
        None
    } else {
        Some(Row {
            number,
            loan,
            part: Part::ALL[place],
            cents,
        })
    }
}

/// What an account's cash of a loan changed by, in cents.
#[tactic(auto, using(std::proofs::lemmas::Int::ints))]
fn cash_change(account: Account, before: &Totals, after: &Totals) -> Cents
    requires before { AreTotals before.now }
    requires after { AreTotals after.now }
    ensures value { result ≡ cash_of account after.now -ℤ cash_of account before.now }
    ensures bound { IsCashChange result }
{
    cash(account, after) - cash(account, before)
}

/// What an account holds of a loan's totals, in cents.
fn cash(account: Account, totals: &Totals) -> Cents
    requires { AreTotals totals.now }
    ensures value { result ≡ cash_of account totals.now }
    ensures bound { IsCash result }
{
    match account {
        Account::T => cash_of_t(totals),
        Account::P => cash_of_p(totals),
    }
}

/// What the account of taxes, insurance and unapplied funds holds of a loan's totals, in cents.
fn cash_of_t(totals: &Totals) -> Cents
    requires received { IsTotal totals.now.received }
    requires escrow_advance { IsTotal totals.now.escrow_advance }
    requires returned { IsTotal totals.now.returned }
    requires refunded { IsTotal totals.now.refunded }
    requires disbursed { IsTotal totals.now.disbursed }
    requires collected { IsTotal totals.now.collected }
    requires late { IsTotal totals.now.late }
    ensures value { result ≡ cash_of Account.T totals.now }
    ensures bound { IsCash result }
{
    let came = sum_of_two(totals.received, totals.escrow_advance);
    let paid = paid_from_t(totals);
    came - paid
}

/// What that account paid of a loan's totals, in cents.
fn paid_from_t(totals: &Totals) -> Cents
    requires returned { IsTotal totals.now.returned }
    requires refunded { IsTotal totals.now.refunded }
    requires disbursed { IsTotal totals.now.disbursed }
    requires collected { IsTotal totals.now.collected }
    requires late { IsTotal totals.now.late }
    ensures value { result ≡ totals.now.returned +ℤ totals.now.refunded +ℤ totals.now.disbursed
        +ℤ totals.now.collected +ℤ totals.now.late }
    ensures low { neg_ℤ (pos 500_000_000_000_000_000) ≤ℤ result }
    ensures high { result ≤ℤ pos 500_000_000_000_000_000 }
{
    let out = sum_of_three(totals.returned, totals.refunded, totals.disbursed);
    let moved = sum_of_two(totals.collected, totals.late);
    out + moved
}

/// What the account of principal and interest holds of a loan's totals, in cents.
fn cash_of_p(totals: &Totals) -> Cents
    requires collected { IsTotal totals.now.collected }
    requires pi_advance { IsTotal totals.now.pi_advance }
    requires fee { IsTotal totals.now.fee }
    requires remitted { IsTotal totals.now.remitted }
    requires residual { IsTotal totals.now.residual }
    ensures value { result ≡ cash_of Account.P totals.now }
    ensures bound { IsCash result }
{
    let came = sum_of_two(totals.collected, totals.pi_advance);
    let paid = sum_of_three(totals.fee, totals.remitted, totals.residual);
    came - paid
}

/// The sum of two totals, in cents.
#[tactic(auto, using(svc_base::proofs::CentsRules::cents))]
fn sum_of_two(a: Cents, b: Cents) -> Cents
    requires a { IsTotal a }
    requires b { IsTotal b }
    ensures value { result ≡ a +ℤ b }
    ensures low { neg_ℤ (pos 200_000_000_000_000_000) ≤ℤ result }
    ensures high { result ≤ℤ pos 200_000_000_000_000_000 }
{
    a + b
}

/// The sum of three totals, in cents.
#[tactic(auto, using(svc_base::proofs::CentsRules::cents))]
fn sum_of_three(a: Cents, b: Cents, c: Cents) -> Cents
    requires a { IsTotal a }
    requires b { IsTotal b }
    requires c { IsTotal c }
    ensures value { result ≡ a +ℤ b +ℤ c }
    ensures low { neg_ℤ (pos 300_000_000_000_000_000) ≤ℤ result }
    ensures high { result ≤ℤ pos 300_000_000_000_000_000 }
{
    a + b + c
}
