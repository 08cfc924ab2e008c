//! Tests of the disk, the sources, sinks and links, and of the journal.
#![tactic(auto)]

#[cfg(test)]
mod begun;
#[cfg(test)]
mod bytes;
#[cfg(test)]
mod cuts;
#[cfg(test)]
mod disks;
#[cfg(test)]
mod growth;
#[cfg(test)]
mod listening;
#[cfg(test)]
mod machine;
#[cfg(test)]
mod upgrades;
#[cfg(test)]
mod worked;
