//! What the rules look at.

use period_adjust::Seals;
use svc_base::Day;
use svc_loan::Loans;
use svc_replay::LoanBooks;

/// The world as it is kept: the business day, all loans, and the reports.
#[derive(Drop)]
pub struct State<B: LoanBooks> {
    pub today: Day,
    pub loans: Loans<B>,
    pub seals: Seals,
}
