//! Bank reconciliation: a bank's list of movements on the custodial accounts, compared with the rows of a
//! span of commands.
#![tactic(auto)]

mod amount;
mod counts;
mod fault;
mod item;
mod key;
mod line;
mod matching;
mod moves;
mod reasons;
mod recon;
mod reconciling;
mod row;
mod span;
mod statement;
mod sums;
mod text;
mod writing;

pub use fault::ReconFault;
pub use item::BankItem;
pub use recon::{Reason, Recon};
pub use reconciling::reconcile;
pub use statement::{Statement, items};
pub use text::recon_text;
