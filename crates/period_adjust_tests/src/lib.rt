//! Tests of what a month's dues are, of sealed reports and their adjustments, of what is held and
//! advanced for a loan, and of custodial rows. They stand in a crate of their own, since a crate
//! that holds tests is proved twice.
#![tactic(auto)]

#[cfg(test)]
mod cash;
#[cfg(test)]
mod dues;
#[cfg(test)]
mod many;
#[cfg(test)]
mod positions;
#[cfg(test)]
mod reports;
