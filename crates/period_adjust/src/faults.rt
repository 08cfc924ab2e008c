//! Why months are not closed or remitted.

use svc_base::{Day, Month, OutOfMemory};
use thiserror::Error;

/// Why a month is not closed.
#[derive(Clone, Copy, Debug, PartialEq, Eq, Error)]
pub enum SealFault {
    /// Another month is to be closed next.
    #[error("another month is to be closed")]
    WrongPeriod(Month),
    /// The month's last day is not past.
    #[error("the month has not ended")]
    NotEnded(Day),
    #[error("out of memory")]
    OutOfMemory,
}

/// Why a month is not remitted.
#[derive(Clone, Copy, Debug, PartialEq, Eq, Error)]
pub enum RemitFault {
    /// It is not closed; the last month that is.
    #[error("the month is not closed")]
    NotClosed(Option<Month>),
    /// Another month is to be remitted next.
    #[error("another month is to be remitted")]
    WrongRemit(Month),
}

impl From<OutOfMemory> for SealFault {
    ghost use Rattle.std.specs.Prelude.{◌≡◌};
    ghost use Rattle.period_adjust.specs.declared.faults.SealFault.TheVariants as seal;

    ghost from_gives = { λ _ fault. fault ≡ seal.OutOfMemory };

    fn from(_: OutOfMemory) -> SealFault {
        SealFault::OutOfMemory
    }
}
