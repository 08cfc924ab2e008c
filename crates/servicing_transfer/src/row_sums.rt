//! What custodial rows add up to for each loan.

ghost use Rattle.std.specs.Prelude.{◌≡◌, ◌+ℤ◌, ℕ, nat_eq, IfOk, OnOk};
ghost use Rattle.std.specs.HashMap.{get};
ghost use Rattle.svc_world.specs.Custody.{rows_in};
ghost use Rattle.servicing_transfer.specs.RowSums as rule;

use custodial_book::{Part, Row};
use std::alloc::Global;
use std::collections::HashMap;
use svc_base::{Cents, OutOfMemory};
use svc_core::Core;
use svc_replay::LoanBooks;

/// What the rows of a loan add up to: escrow advanced, principal and interest held, and advanced. The sums
/// are kept in 64 bits: on the way they may leave them, and come back.
#[derive(Clone, Copy, Debug)]
pub(crate) struct RowSums {
    pub escrow_advance: Cents,
    pub held: Cents,
    pub pi_advance: Cents,
}

/// The escrow advanced by a loan's rows, with one more of them.
fn escrow_with(sum: Cents, part: Part, cents: Cents) -> Cents
    ensures { result ≡ rule.kept (sum +ℤ rule.escrow_by part cents) }
{
    match part {
        Part::EscrowAdvance => sum.wrapping_add(cents),
        _ => sum,
    }
}

/// What a loan's rows brought into the account P, with one more of them.
fn held_with(sum: Cents, part: Part, cents: Cents) -> Cents
    ensures { result ≡ rule.kept (sum +ℤ rule.held_by part cents) }
{
    match part {
        Part::Collected | Part::PiAdvance => sum.wrapping_add(cents),
        Part::Fee | Part::Remitted | Part::Residual => sum.wrapping_sub(cents),
        _ => sum,
    }
}

/// The principal and interest advanced by a loan's rows, with one more of them.
fn advanced_with(sum: Cents, part: Part, cents: Cents) -> Cents
    ensures { result ≡ rule.kept (sum +ℤ rule.advanced_by part cents) }
{
    match part {
        Part::PiAdvance => sum.wrapping_add(cents),
        _ => sum,
    }
}

/// The sums of a loan with one more of its rows.
#[tactic(auto, using(svc_base::proofs::CentsRules::cents))]
fn with_row(sums: &RowSums, part: Part, cents: Cents) -> RowSums
    ensures { result ≡ rule.sums_with sums.now (rule.escrow_by part cents) (rule.held_by part cents)
        (rule.advanced_by part cents) }
{
    RowSums {
        escrow_advance: escrow_with(sums.escrow_advance, part, cents),
        held: held_with(sums.held, part, cents),
        pi_advance: advanced_with(sums.pi_advance, part, cents),
    }
}

/// The sums that are kept for a loan; none are nothing.
pub(crate) fn sums_of(sums: &HashMap<u32, RowSums>, loan: u32) -> RowSums
    ensures { result ≡ rule.or_none (get nat_eq sums.now loan) }
{
    match sums.get(&loan) {
        Some(kept) => *kept,
        None => RowSums {
            escrow_advance: 0,
            held: 0,
            pi_advance: 0,
        },
    }
}

/// Adds a row to the sums of its loan.
fn add_row(sums: &mut HashMap<u32, RowSums>, row: &Row) -> Result<(), OutOfMemory>
    ensures { OnOk result ((id : ℕ) → rule.or_none (get nat_eq sums.new id)
        ≡ rule.with_own id row.now (rule.or_none (get nat_eq sums.old id))) }
{
    let with = with_row(&sums_of(sums, row.loan), row.part, row.cents);
    sums.insert(row.loan, with)?;
    Ok(())
}

/// Adds rows to the sums of their loans.
fn add_rows(sums: &mut HashMap<u32, RowSums>, rows: &[Row]) -> Result<(), OutOfMemory>
    ensures { OnOk result ((id : ℕ) → rule.or_none (get nat_eq sums.new id)
        ≡ rule.with_rows id rows.now (rule.or_none (get nat_eq sums.old id))) }
{
    for row in rows {
        add_row(sums, row)?;
    }
    Ok(())
}

/// The sums of all rows, for each loan that has some.
pub(crate) fn row_sums<B: LoanBooks>(
    alloc: Global,
    core: &Core<B>,
) -> Result<HashMap<u32, RowSums>, OutOfMemory>
    ensures { IfOk result (λ m. (id : ℕ) → rule.or_none (get nat_eq m id)
        ≡ rule.kept_sums id (rows_in core.now.history)) }
{
    let mut sums = HashMap::new(alloc);
    for done in 0..core.count() {
        add_rows(&mut sums, core.rows(done + 1))?;
    }
    Ok(sums)
}
