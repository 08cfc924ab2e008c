//! When mortgage insurance ends: at the borrower's request, or by itself (Homeowners Protection Act of 1998,
//! in this product's profile); for a file of insured loans, what has become of each.
#![tactic(auto)]

mod boarded;
mod books;
mod deciding;
mod ending;
mod fields;
mod files;
mod insured_loan;
mod laws;
mod output;
mod pmi_outcome;
mod reading;
mod request;
mod schedule;
mod texts;

pub use deciding::outcome;
pub use files::{pmi_drops, pmi_text};
pub use insured_loan::{InsuredLoan, InsuredRow};
pub use laws::{insurance_ends_first, schedules_fall};
pub use pmi_outcome::{Cause, Denial, PmiOutcome};
pub use reading::insured;
pub use schedule::scheduled;
pub use serv_import::ImportFault;
