//! The rows of the two custodial accounts, and their balances.
#![tactic(auto)]

mod book;
mod part;
mod row;

pub use book::{Book, worked_rows};
pub use part::{Account, Part, Party};
pub use row::{Row, Totals};
