//! Why a request has no answer.

ghost use Rattle.std.specs.Prelude.{◌≡◌};
ghost use Rattle.svc_core.specs.declared.fault.CoreFault.TheVariants as faults;

use svc_base::OutOfMemory;
use svc_types::Refusal;
use thiserror::Error;

/// Why a request has no answer.
#[derive(Clone, Copy, Debug, PartialEq, Eq, Error)]
pub enum CoreFault {
    /// A rule refuses it.
    #[error("refused")]
    Refused(Refusal),
    #[error("out of memory")]
    OutOfMemory,
}

impl From<OutOfMemory> for CoreFault {
    ghost from_gives = { λ _ e. e ≡ faults.OutOfMemory };

    fn from(_: OutOfMemory) -> CoreFault {
        CoreFault::OutOfMemory
    }
}

impl From<Refusal> for CoreFault {
    ghost from_gives = { λ why e. e ≡ faults.Refused why };

    fn from(why: Refusal) -> CoreFault {
        CoreFault::Refused(why)
    }
}
