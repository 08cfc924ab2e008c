//! Tests of a loan's annual bills, of what a year of them asks of its escrow account, and of how that
//! is settled. They stand in a crate of their own, since a crate that holds tests is proved twice.
#![tactic(auto)]

#[cfg(test)]
mod analyses;
#[cfg(test)]
mod lines;
#[cfg(test)]
mod plans;
