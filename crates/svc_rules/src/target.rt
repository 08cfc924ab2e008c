//! What a command that is not refused changes.

use svc_loan::Place;
use svc_types::Terms;

/// What a command that is not refused changes: the loan at a place, a loan that it takes on, or all of them.
#[derive(Clone, Copy)]
pub enum Target {
    One(Place),
    New(u32, Terms),
    Every,
}
