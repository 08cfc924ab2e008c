//! Tests of the core: commands and what they must answer, as scripts that are played to it over both ways of
//! keeping books.
#![tactic(auto)]

#[cfg(test)]
mod desk;
#[cfg(test)]
mod desk_asked;
#[cfg(test)]
mod escrow_and_types;
#[cfg(test)]
mod filling;
mod first_quarter;
#[cfg(test)]
mod judging;
#[cfg(test)]
mod keys;
#[cfg(test)]
mod limits;
#[cfg(test)]
mod many;
#[cfg(test)]
mod openings;
#[cfg(test)]
mod refused;
#[cfg(test)]
mod rows;

pub use first_quarter::{BOARDED, FIRST_PAID, SCHEDULED_MONTHS};
