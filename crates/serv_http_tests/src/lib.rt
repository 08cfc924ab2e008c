//! Tests of requests over HTTP and of the responses to them.
#![tactic(auto)]

#[cfg(test)]
mod hostile;
#[cfg(test)]
mod limits;
#[cfg(test)]
mod requests;
#[cfg(test)]
mod responses;
