//! The books of one loan.

ghost use Rattle.std.specs.Prelude.{◌≡◌};
ghost use Rattle.svc_types.specs.Collected as rule;

use crate::escrow::EscrowPlan;
use svc_base::{Cents, Day, Month};

/// Where a loan stands at a day. All amounts are cents.
#[derive(Clone, Copy, Debug, PartialEq, Eq)]
pub struct Books {
    /// The day that they stand for.
    pub day: Day,
    /// The number of the open installment.
    pub next: u32,
    /// The unpaid principal balance.
    pub upb: Cents,
    /// The escrow balance; below 0 where the servicer advances.
    pub escrow: Cents,
    /// Money that is not yet applied.
    pub suspense: Cents,
    /// Late charges that are owed.
    pub late_owed: Cents,
    /// Interest collected since boarding, the fee included.
    pub interest: Cents,
    /// The servicing fee in that interest.
    pub fee: Cents,
    /// Principal collected since boarding.
    pub principal: Cents,
    /// The part of it that was paid ahead as a curtailment.
    pub curtailed: Cents,
    /// Late charges collected since boarding.
    pub late_paid: Cents,
    /// The newest escrow plan, and the one before it.
    pub plan: EscrowPlan,
    pub earlier: EscrowPlan,
    /// The day on which the balance came to 0.
    pub satisfied: Option<Day>,
}

/// An installment that is open: its number, its due day and its parts, in cents.
#[derive(Clone, Copy, Debug, PartialEq, Eq)]
pub struct Installment {
    pub k: u32,
    pub due: Day,
    pub interest: Cents,
    /// The servicing fee in the interest.
    pub fee: Cents,
    pub principal: Cents,
    pub escrow: Cents,
}

/// The balance of a loan, and what it has collected since boarding, in cents.
#[derive(Clone, Copy)]
pub struct Collected {
    pub upb: Cents,
    pub curtailed: Cents,
    pub interest: Cents,
    pub fee: Cents,
}

impl Collected {
    /// What books say of it.
    pub fn of(books: &Books) -> Collected
        ensures { result ≡ rule.collected_of books.now }
    {
        Collected {
            upb: books.upb,
            curtailed: books.curtailed,
            interest: books.interest,
            fee: books.fee,
        }
    }
}

/// What one month did to a loan, in cents.
#[derive(Clone, Copy, Debug, PartialEq, Eq)]
pub struct MonthFacts {
    pub month: Month,
    /// The balance at the month's end.
    pub upb: Cents,
    /// Principal curtailed, interest and fee collected in the month.
    pub curtailed: Cents,
    pub interest: Cents,
    pub fee: Cents,
    /// The loan is satisfied at the month's end.
    pub satisfied: bool,
}
