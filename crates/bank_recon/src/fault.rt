//! Why a bank's list gives no items.

ghost use Rattle.std.specs.Prelude.{◌≡◌};
ghost use Rattle.bank_recon.specs.declared.fault.ReconFault.TheVariants as faults;

use std::alloc::{AllocError, AllocFailed};
use svc_base::OutOfMemory;
use thiserror::Error;

/// Why a bank's list gives no items.
#[derive(Clone, Copy, Debug, PartialEq, Eq, Error)]
pub enum ReconFault {
    /// The first row that does not fit, counted from 1 with the header, and its first column that does not,
    /// counted from 1; 5 where the row has not four fields. Row 1, column 1 where the header is not there.
    #[error("row {0} does not fit at column {1}")]
    Bad(u32, u32),
    #[error("out of memory")]
    OutOfMemory,
}

impl<T: Drop> From<AllocFailed<T>> for ReconFault {
    ghost from_gives = { λ _ e. e ≡ faults.OutOfMemory };

    fn from(_: AllocFailed<T>) -> ReconFault {
        ReconFault::OutOfMemory
    }
}
