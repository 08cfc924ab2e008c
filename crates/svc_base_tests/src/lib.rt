//! Tests of texts, money and the calendar, of what a loan and its requests are made of, and of the
//! forms of requests. They stand in a crate of their own, since a crate that holds tests is proved twice.
#![tactic(auto)]

#[cfg(test)]
mod calendar;
#[cfg(test)]
mod choices;
#[cfg(test)]
mod forms;
#[cfg(test)]
mod keys;
#[cfg(test)]
mod order;
#[cfg(test)]
mod requests;
#[cfg(test)]
mod spelling;
#[cfg(test)]
mod terms;
#[cfg(test)]
mod texts;
