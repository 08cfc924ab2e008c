//! What is ready to be accepted.

use svc_loan::{Loan, Place};
use svc_replay::LoanBooks;
use svc_types::{Command, Key, Terms};

/// What a command changes, for which there is room: the loan at a place, a loan that it takes on and that was made, or
/// all of them.
#[derive(Drop)]
pub(crate) enum Ready<B: LoanBooks> {
    One(Place),
    New(u32, Terms, Box<Loan<B>>),
    Every,
}

/// A command under its key that may be accepted next, and what it changes.
#[derive(Drop)]
pub(crate) struct Prepared<B: LoanBooks> {
    pub(crate) key: Key,
    pub(crate) command: Command,
    pub(crate) ready: Ready<B>,
}
