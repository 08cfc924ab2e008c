//! Why a text is no day or month.

use thiserror::Error;

/// Why a text is no day, or no month, that a request may name.
#[derive(Clone, Copy, Debug, PartialEq, Eq, Error)]
pub enum DayFault {
    #[error("the text is no civil date")]
    NotADate,
    #[error("the year is not from 1990 to 2099")]
    YearOutside,
}
