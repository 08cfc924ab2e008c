//! The terms of a loan.

ghost use Rattle.std.specs.Prelude.{◌≡◌, ◌∷◌, [], IfErr, OnOk};
ghost use Rattle.svc_types.specs.Terms.{term_fault, first_missed, IsSound};
ghost use Rattle.svc_types.specs.declared.faults.TermFault.TheVariants.{Principal, RateRange, FeeRange, Payment};
ghost use Rattle.svc_types.specs.declared.faults.TermFault.TheVariants.{Term, FirstDue, Grace};
ghost use Rattle.svc_types.specs.declared.faults.TermFault.TheVariants.{Late, Cushion, EscrowPay};

use crate::faults::TermFault;
use svc_base::{Cents, Day, Month, Rate, month_interest};

/// How a loan's principal and interest are remitted to its investor: actual or scheduled interest,
/// and actual or scheduled principal (Fannie Mae Servicing Guide, remittance types).
#[derive(Clone, Copy, Debug, PartialEq, Eq)]
pub enum RemitType {
    /// Actual/Actual: interest and principal as collected.
    AA,
    /// Scheduled/Actual: interest as scheduled, principal as collected.
    SA,
    /// Scheduled/Scheduled: both as scheduled.
    SS,
}

/// The terms of a fixed-rate loan, and where it stood when it was taken on.
#[derive(Clone, Copy, Debug, PartialEq, Eq)]
pub struct Terms {
    /// The day on which the loan is taken on.
    pub boarded: Day,
    /// The balance on that day, in cents.
    pub principal: Cents,
    /// The note rate, in thousandths of a percent.
    pub rate: Rate,
    /// The servicing fee rate, a part of the note rate.
    pub fee: Rate,
    /// The level payment of interest and principal, in cents.
    pub pi: Cents,
    /// The number of installments.
    pub term: u32,
    /// The month in which the first installment is due.
    pub first: Month,
    /// The days of grace after a due day.
    pub grace: u32,
    /// The late charge, in basis points of the level payment.
    pub late: u32,
    /// The months of escrow that a cushion may have.
    pub cushion: u32,
    /// The monthly escrow payment at boarding, in cents.
    pub escrow: Cents,
    /// How the loan is remitted.
    pub kind: RemitType,
}

impl Terms {
    /// Tests each range in order, and names the first that the terms miss.
    pub fn check(&self) -> Result<(), TermFault>
        ensures fault { IfErr result (λ fault. term_fault self.now ≡ Some fault) }
        ensures ok { OnOk result (term_fault self.now ≡ None) }
        ensures sound { OnOk result (IsSound self.now) }
    {
        self.check_interest()?;
        self.check_others()
    }

    /// The schedule, and what is asked beside it.
    fn check_others(&self) -> Result<(), TermFault>
        ensures fault { IfErr result (λ fault.
            first_missed self.now (Term ∷ FirstDue ∷ Grace ∷ Late ∷ Cushion ∷ EscrowPay ∷ []) ≡ Some fault) }
        ensures ok { OnOk result
            (first_missed self.now (Term ∷ FirstDue ∷ Grace ∷ Late ∷ Cushion ∷ EscrowPay ∷ []) ≡ None) }
    {
        self.check_schedule()?;
        self.check_charges()
    }

    /// Principal, rates and payment.
    fn check_interest(&self) -> Result<(), TermFault>
        ensures fault { IfErr result (λ fault.
            first_missed self.now (Principal ∷ RateRange ∷ FeeRange ∷ Payment ∷ []) ≡ Some fault) }
        ensures ok { OnOk result
            (first_missed self.now (Principal ∷ RateRange ∷ FeeRange ∷ Payment ∷ []) ≡ None) }
    {
        if self.principal < 1 || self.principal > 10_000_000_000 {
            return Err(TermFault::Principal);
        }
        if self.rate < 1 || self.rate > 25_000 {
            return Err(TermFault::RateRange);
        }
        if self.fee > self.rate {
            return Err(TermFault::FeeRange);
        }
        if self.pi <= month_interest(self.principal, self.rate) || self.pi > 10_000_000_000 {
            return Err(TermFault::Payment);
        }
        Ok(())
    }

    /// Installments, their first due date and the days of grace.
    fn check_schedule(&self) -> Result<(), TermFault>
        ensures fault { IfErr result (λ fault.
            first_missed self.now (Term ∷ FirstDue ∷ Grace ∷ []) ≡ Some fault) }
        ensures ok { OnOk result (first_missed self.now (Term ∷ FirstDue ∷ Grace ∷ []) ≡ None) }
    {
        if self.term < 1 || self.term > 480 {
            return Err(TermFault::Term);
        }
        let boarded = self.boarded.in_month().number();
        if self.first.number() != boarded + 1 && self.first.number() != boarded + 2 {
            return Err(TermFault::FirstDue);
        }
        if self.grace > 28 {
            return Err(TermFault::Grace);
        }
        Ok(())
    }

    /// Late charge, cushion and escrow payment.
    fn check_charges(&self) -> Result<(), TermFault>
        ensures fault { IfErr result (λ fault.
            first_missed self.now (Late ∷ Cushion ∷ EscrowPay ∷ []) ≡ Some fault) }
        ensures ok { OnOk result (first_missed self.now (Late ∷ Cushion ∷ EscrowPay ∷ []) ≡ None) }
    {
        if self.late > 1_000 {
            return Err(TermFault::Late);
        }
        if self.cushion > 2 {
            return Err(TermFault::Cushion);
        }
        if self.escrow < 0 || self.escrow > 10_000_000_000 {
            return Err(TermFault::EscrowPay);
        }
        Ok(())
    }
}
