//! An adjustment of a closed month.

use svc_base::{Cents, Month};

/// What a command changed in the dues of a closed month of a loan, in cents.
#[derive(Clone, Copy, Debug, PartialEq, Eq)]
pub struct Adjustment {
    /// The number of the command.
    pub number: u32,
    pub loan: u32,
    pub month: Month,
    pub interest: Cents,
    pub principal: Cents,
}
