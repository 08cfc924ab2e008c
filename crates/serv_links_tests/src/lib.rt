//! Tests of links, of the engine and of generated years, over disks and links in memory.
#![tactic(auto)]

#[cfg(test)]
mod begun;
#[cfg(test)]
mod counted;
#[cfg(test)]
mod engines;
mod exchange;
#[cfg(test)]
mod hostile;
#[cfg(test)]
mod links;
#[cfg(test)]
mod other_links;
#[cfg(test)]
mod serving;
#[cfg(test)]
mod years;

pub use exchange::{DAY, DAY_SAID};
