//! Tests of what stands on a whole history: reports, reconciliation, transfer and mortgage insurance.
#![tactic(auto)]

#[cfg(test)]
mod histories;
#[cfg(test)]
mod insurance;
#[cfg(test)]
mod recons;
#[cfg(test)]
mod reports;
#[cfg(test)]
mod statements;
#[cfg(test)]
mod transfers;
