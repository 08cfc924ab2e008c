//! A loan with its books, escrow lines, remittance types and the dues of its closed months, and all loans
//! in the order of their numbers.
#![tactic(auto)]

mod closed;
mod loan;
mod loans;
mod moved;
mod place;
mod reserved;
mod types;

pub use loan::Loan;
pub use loans::Loans;
pub use moved::Moved;
pub use place::Place;
pub use types::Types;
