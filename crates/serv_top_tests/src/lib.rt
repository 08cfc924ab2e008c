//! Tests of the program's top call, over sources, sinks, disks and links in memory.
#![tactic(auto)]

#[cfg(test)]
mod asked;
#[cfg(test)]
mod exchanges;
#[cfg(test)]
mod files;
#[cfg(test)]
mod journals;
#[cfg(test)]
mod links;
#[cfg(test)]
mod noted;
#[cfg(test)]
mod noting;
#[cfg(test)]
mod reviews;
#[cfg(test)]
mod statuses;
#[cfg(test)]
mod texts;
#[cfg(test)]
mod transfers;
