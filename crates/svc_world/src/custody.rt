//! What the custodial accounts hold for all loans.

use svc_base::Cents;

/// The balances of the custodial accounts T (taxes, insurance, money not yet applied) and P (principal
/// and interest), and what they are made of, in cents: sums over all loans.
#[derive(Clone, Copy, Debug, PartialEq, Eq)]
pub struct Custody {
    pub t: Cents,
    pub p: Cents,
    /// Money that is not yet applied.
    pub suspense: Cents,
    /// Escrow balances; those below 0 count as such.
    pub escrow: Cents,
    /// What the servicer advanced for escrow balances below 0.
    pub escrow_advance: Cents,
    /// Principal and interest that were collected and not yet remitted.
    pub held: Cents,
    /// What the servicer advanced to the investor.
    pub pi_advance: Cents,
}
