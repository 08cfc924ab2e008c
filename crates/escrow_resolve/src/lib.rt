//! How an escrow analysis is settled: which plans are lawful, and what they settle
//! (12 CFR 1024.17(f) for a borrower who is current).
#![tactic(auto)]

mod analysis;
mod settlement;

pub use analysis::{Parts, split};
pub use settlement::settle;
pub use svc_types::{EscrowPlan, PartPlan, Plan, PlanFault, PlanPart, Settled, SurplusPlan};
