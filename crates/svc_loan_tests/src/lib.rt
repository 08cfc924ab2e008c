//! Tests of one loan and of all loans: what is due for closed months after late payments, reversals and changes of
//! type, by rows that were worked by hand, and what a loan answers with ample memory.
#![tactic(auto)]

#[cfg(test)]
mod all_loans;
#[cfg(test)]
mod calls;
#[cfg(test)]
mod dues;
#[cfg(test)]
mod followed;
#[cfg(test)]
mod types;
