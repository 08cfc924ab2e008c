//! Why a file gives no rows.

ghost use Rattle.std.specs.Prelude.{◌≡◌};
ghost use Rattle.serv_import.specs.declared.fault.ImportFault.TheVariants as faults;

use std::alloc::{AllocError, AllocFailed};
use svc_base::OutOfMemory;
use thiserror::Error;

/// Why a file gives no rows.
#[derive(Clone, Copy, Debug, PartialEq, Eq, Error)]
pub enum ImportFault {
    /// The first row is not the header, or there is no row.
    #[error("the first row is not the header")]
    Header,
    #[error("out of memory")]
    OutOfMemory,
}

impl From<OutOfMemory> for ImportFault {
    ghost from_gives = { λ _ e. e ≡ faults.OutOfMemory };

    fn from(_: OutOfMemory) -> ImportFault {
        ImportFault::OutOfMemory
    }
}

impl<T: Drop> From<AllocFailed<T>> for ImportFault {
    ghost from_gives = { λ _ e. e ≡ faults.OutOfMemory };

    fn from(_: AllocFailed<T>) -> ImportFault {
        ImportFault::OutOfMemory
    }
}
