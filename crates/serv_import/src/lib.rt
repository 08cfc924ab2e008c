//! CSV files of payments, curtailments, payoffs, deposits and disbursements. Each row names its
//! command's key, so that a file may come twice: a key that was accepted acts once.
#![tactic(auto)]

mod commands;
mod fault;
mod file;
mod row;

pub use fault::ImportFault;
pub use file::batch;
pub use row::RowRequest;
