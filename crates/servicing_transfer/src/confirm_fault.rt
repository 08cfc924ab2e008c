//! Why a text is not confirmed.

ghost use Rattle.std.specs.Prelude.{◌≡◌};
ghost use Rattle.servicing_transfer.specs.declared.confirm_fault.ConfirmFault.TheVariants as faults;

use std::alloc::AllocFailed;
use svc_base::OutOfMemory;
use thiserror::Error;

/// Why a text is not confirmed.
#[derive(Clone, Copy, Debug, PartialEq, Eq, Error)]
pub enum ConfirmFault {
    /// The text is no statement: its first line, counted from 1, that does not fit; the line behind its last
    /// where it stops early.
    #[error("no statement: line {0} does not fit")]
    BadLine(u64),
    #[error("out of memory")]
    OutOfMemory,
}

impl From<OutOfMemory> for ConfirmFault {
    ghost from_gives = { λ _ e. e ≡ faults.OutOfMemory };

    fn from(_: OutOfMemory) -> ConfirmFault {
        ConfirmFault::OutOfMemory
    }
}

impl<T: Drop> From<AllocFailed<T>> for ConfirmFault {
    ghost from_gives = { λ _ e. e ≡ faults.OutOfMemory };

    fn from(_: AllocFailed<T>) -> ConfirmFault {
        ConfirmFault::OutOfMemory
    }
}
