//! The adjustments that no report has sent.

ghost use Rattle.std.specs.Prelude.{◌≡◌, ◌+◌, ◌≤◌, [], ◌∷◌, ◌++◌, OnOk, IsOk};
ghost use Rattle.std.specs.List.{list_any};
ghost use Rattle.svc_base.specs.Sums.{total_by};
ghost use Rattle.period_adjust.specs.Sums.{Interest, Principal, share};
ghost use Rattle.period_adjust.specs.Pending.{SumsFit, is_of};

use crate::adjustment::Adjustment;
use crate::loan_sums::{LoanSums, add, has_sums, sums_of};
use std::alloc::Global;
use std::marker::Model;
use std::mem;
use svc_base::{OutOfMemory, make_room};

/// The adjustments that no report has sent, with the running sums of each loan. Its value in
/// contracts is the list of the adjustments, and for how many more there is room.
#[derive(Drop)]
pub(crate) struct Pending {
    adjustments: Vec<Adjustment>,
    /// Rising by loan.
    sums: Vec<LoanSums>,
}

impl Model for Pending {
    ghost use Rattle.std.specs.Prelude.{◌-◌, min, vec_len, vec_capacity};
    ghost use Rattle.period_adjust.specs.Pending.{PendingList, AreRunning};

    ghost Value = { PendingList };

    ghost view = { λ p. record {
      adjustments = p.adjustments.items;
      room = min (vec_capacity p.adjustments - vec_len p.adjustments) (vec_capacity p.sums - vec_len p.sums);
    } };

    ghost invariant = { λ p. AreRunning p.adjustments.items p.sums.items };
}

impl Pending {
    /// No adjustments.
    pub(crate) fn new(alloc: Global) -> Pending
        ensures { result.adjustments ≡ [] }
    {
        Pending {
            adjustments: Vec::new(alloc),
            sums: Vec::new(alloc),
        }
    }

    /// The adjustments.
    pub(crate) fn slice(&self) -> &[Adjustment]
        ensures { result.now ≡ self.now.adjustments }
    {
        self.adjustments.as_slice()
    }

    /// The sums of a loan's adjustments.
    pub(crate) fn sums_of(&self, loan: u32) -> LoanSums
        ensures interest { result.interest ≡ total_by (share Interest loan) self.now.adjustments }
        ensures principal { result.principal ≡ total_by (share Principal loan) self.now.adjustments }
    {
        sums_of(self.sums.as_slice(), loan)
    }

    /// Whether an adjustment of a loan is among them.
    pub(crate) fn has(&self, loan: u32) -> bool
        ensures { result ≡ list_any (is_of loan) self.now.adjustments }
    {
        has_sums(self.sums.as_slice(), loan)
    }

    /// Makes room for so many more; fails for want of memory alone.
    pub(crate) fn reserve(&mut self, count: usize) -> Result<(), OutOfMemory>
        ensures adjustments { self.new.adjustments ≡ self.old.adjustments }
        ensures room { OnOk result (count ≤ self.new.room) }
        ensures never_less { self.old.room ≤ self.new.room }
        ensures succeeds { count ≤ self.old.room → IsOk result }
    {
        make_room(&mut self.adjustments, count, 0)?;
        make_room(&mut self.sums, count, 0)?;
        Ok(())
    }

    /// Adds an adjustment after the others.
    pub(crate) fn push(&mut self, adjustment: Adjustment)
        requires room { 1 ≤ self.old.room }
        requires fits { SumsFit (self.old.adjustments ++ adjustment ∷ []) }
        ensures adjustments { self.new.adjustments ≡ self.old.adjustments ++ adjustment ∷ [] }
        ensures room { self.old.room ≤ self.new.room + 1 }
    {
        add(&mut self.sums, &adjustment);
        self.adjustments.push_reserved(adjustment);
    }

    /// Takes all out, so that none is pending.
    pub(crate) fn take(&mut self, alloc: Global) -> Vec<Adjustment>
        ensures taken { result.items ≡ self.old.adjustments }
        ensures none { self.new.adjustments ≡ [] }
    {
        self.sums.clear();
        mem::replace(&mut self.adjustments, Vec::new(alloc))
    }
}
