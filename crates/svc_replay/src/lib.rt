//! The books of one loan, folded anew from boarding: no checkpoint and no running total.
#![tactic(auto)]

mod account;
mod arrears;
mod brief;
mod collected;
mod cursor;
mod entries;
mod fault;
mod folding;
mod history_lines;
mod laws;
mod loan_books;
mod plain;
mod records;
mod rows;

pub use account::LoanAccount;
pub use arrears::arrears_are_least;
pub use collected::facts_between;
pub use cursor::{Cursor, Lates};
pub use entries::Live;
pub use fault::BookFault;
pub use folding::{fold_along, fold_last, fold_on, refold};
pub use history_lines::history;
pub use laws::{agree, events_stand_in_order, histories_add_up};
pub use loan_books::LoanBooks;
pub use plain::Plain;
pub use rows::{worked_accounts, worked_costs, worked_totals};
