//! The loans that are handed over, and those that stay.

ghost use Rattle.std.specs.Prelude.{◌≡◌};
ghost use Rattle.servicing_transfer.specs.Parts.{loans_of};

use svc_base::Month;

/// The loans from one number to another, or all others.
#[derive(Clone, Copy, Debug)]
pub(crate) struct LoanSet {
    pub inside: bool,
    pub from: u32,
    pub to: u32,
}

impl LoanSet {
    /// Whether a loan is one of them.
    pub(crate) fn has(&self, loan: u32) -> bool
        ensures { result ≡ loans_of self.now.inside self.now.from self.now.to loan }
    {
        (self.from <= loan && loan <= self.to) == self.inside
    }
}

/// What a part keeps: the commands on some loans, and the closings and remittances from the least month on in
/// which one of them was boarded.
#[derive(Clone, Copy, Debug)]
pub(crate) struct Scope {
    pub loans: LoanSet,
    pub least: Option<Month>,
}
