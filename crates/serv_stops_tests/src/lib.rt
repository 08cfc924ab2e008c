//! Tests of runs whose disk stops or fails, at each of its calls in turn, and of what other objects fail at.
#![tactic(auto)]

#[cfg(test)]
mod faults;
#[cfg(test)]
mod stops;
