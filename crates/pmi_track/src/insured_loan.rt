//! Loans with mortgage insurance, and the rows of a file that name them.

use svc_base::{Cents, Day};

/// A loan with mortgage insurance.
#[derive(Clone, Copy, Debug, PartialEq, Eq)]
pub struct InsuredLoan {
    pub loan: u32,
    /// The original value of the property, in cents, above 0.
    pub value: Cents,
    /// The escrow line by which the premium is paid.
    pub line: u32,
    /// The day on which the borrower asked for the insurance to end.
    pub asked: Option<Day>,
}

/// What a row of a file says.
#[derive(Clone, Copy, Debug, PartialEq, Eq)]
pub enum InsuredRow {
    /// A loan with mortgage insurance.
    Row(InsuredLoan),
    /// Nothing: the row's number, counted from 1 with the header, and the first column that does not
    /// fit, counted from 1; 5 where the row has not four fields.
    Bad(u32, u32),
}
