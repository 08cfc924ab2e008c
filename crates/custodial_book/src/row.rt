//! Rows of the custodial accounts, and a loan's totals.

ghost use Rattle.std.specs.Prelude.{◌≡◌};
ghost use Rattle.custodial_book.specs.Rows.{total_of};

use crate::part::Part;
use svc_base::Cents;

/// A movement of custodial cash: the command that made it, its loan, its part and its cents. A
/// negative amount goes the other way.
#[derive(Clone, Copy, Debug, PartialEq, Eq)]
pub struct Row {
    pub number: u32,
    pub loan: u32,
    pub part: Part,
    pub cents: Cents,
}

/// What a loan moved of each part so far, in cents.
#[derive(Clone, Copy, Debug, PartialEq, Eq, Default)]
pub struct Totals {
    pub received: Cents,
    pub returned: Cents,
    pub refunded: Cents,
    pub disbursed: Cents,
    pub collected: Cents,
    pub fee: Cents,
    pub late: Cents,
    pub pi_advance: Cents,
    pub escrow_advance: Cents,
    pub remitted: Cents,
    pub residual: Cents,
}

impl Totals {
    /// The total of that part.
    pub fn of(&self, part: Part) -> Cents
        ensures { result ≡ total_of self.now part }
    {
        match part {
            Part::Received => self.received,
            Part::Returned => self.returned,
            Part::Refunded => self.refunded,
            Part::Disbursed => self.disbursed,
            Part::Collected => self.collected,
            Part::Fee => self.fee,
            Part::Late => self.late,
            Part::PiAdvance => self.pi_advance,
            Part::EscrowAdvance => self.escrow_advance,
            Part::Remitted => self.remitted,
            Part::Residual => self.residual,
        }
    }
}
