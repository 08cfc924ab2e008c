//! Tests of what moves the books of a loan and of both ways of keeping them. They stand in a crate of
//! their own, since a crate that holds tests is proved twice.
#![tactic(auto)]

#[cfg(test)]
mod account;
#[cfg(test)]
mod arrears;
#[cfg(test)]
mod histories;
#[cfg(test)]
mod history_lines;
#[cfg(test)]
mod loans;
#[cfg(test)]
mod marks;
#[cfg(test)]
mod steps;
