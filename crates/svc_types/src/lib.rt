//! What a loan, its entries and its books are made of, and what a servicer is asked and answers.
#![tactic(auto)]

mod account;
mod books;
mod desk;
mod escrow;
mod faults;
mod key;
mod order;
mod replies;
mod requests;
mod terms;
mod words;

pub use account::{Act, Designation, Entry, Event, What};
pub use books::{Books, Collected, Installment, MonthFacts};
pub use desk::{Arrears, HistoryLine};
pub use escrow::{EscrowPlan, Figures, LineKind, PartPlan, Plan, PlanPart, Settled, SurplusPlan};
pub use faults::{LineWhy, PlanFault, TermFault};
pub use key::{Key, read_key};
pub use order::{before, live, place_of};
pub use replies::{Extra, Limit, Refusal, Reply};
pub use requests::{Command, Query, Request, TypeChange, is_same};
pub use terms::{RemitType, Terms};
pub use words::{read_designation, read_kind, read_part, read_surplus, read_type};
