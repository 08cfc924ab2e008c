//! Running sums of each loan's adjustments.

ghost use Rattle.std.specs.Prelude.{◌≡◌, ◌+◌, ◌-◌, ◌<◌, ◌≤◌, ◌==◌, ◌||◌, ℕ, ◌+ℤ◌, pos, FitsSigned};
ghost use Rattle.std.specs.Prelude.{MatchResult, vec_len, vec_capacity};
ghost use Rattle.std.specs.Int.{w64};
ghost use Rattle.std.specs.List.{list_any};
ghost use Rattle.svc_base.specs.Sums.{total_by};
ghost use Rattle.period_adjust.specs.Sums.{DuePart, Interest, Principal, part_of_adjustment, share};
ghost use Rattle.period_adjust.specs.Pending.{IsRisingByLoan, is_kept_of, running};
ghost use Rattle.period_adjust.specs.Places.{IsPlaceOf, IsPlaceFor, IsSumWith};

use crate::adjustment::Adjustment;
use svc_base::Cents;

/// The sums of a loan's adjustments, in cents.
#[derive(Clone, Copy)]
pub(crate) struct LoanSums {
    pub loan: u32,
    pub interest: Cents,
    pub principal: Cents,
}

/// A loan's sums; 0 where none are kept of it.
pub(crate) fn sums_of(sums: &[LoanSums], loan: u32) -> LoanSums
    requires { IsRisingByLoan sums.now }
    ensures interest { result.interest ≡ total_by (running Interest loan) sums.now }
    ensures principal { result.principal ≡ total_by (running Principal loan) sums.now }
{
    match find(sums, loan) {
        Ok(place) => sums[place],
        Err(_) => nothing(loan),
    }
}

/// Whether sums are kept of a loan.
pub(crate) fn has_sums(sums: &[LoanSums], loan: u32) -> bool
    requires { IsRisingByLoan sums.now }
    ensures { result ≡ list_any (is_kept_of loan) sums.now }
{
    find(sums, loan).is_ok()
}

/// Adds an adjustment to its loan's sums.
pub(crate) fn add(sums: &mut Vec<LoanSums>, adjustment: &Adjustment)
    requires rising { IsRisingByLoan sums.old.items }
    requires room { vec_len sums.old < vec_capacity sums.old }
    requires fits { (part : DuePart) → FitsSigned w64
        (total_by (running part adjustment.now.loan) sums.old.items
        +ℤ part_of_adjustment part adjustment.now) }
    ensures rising { IsRisingByLoan sums.new.items }
    ensures total { (part : DuePart) (loan : ℕ) → total_by (running part loan) sums.new.items ≡
        total_by (running part loan) sums.old.items +ℤ share part loan adjustment.now }
    ensures there { (loan : ℕ) → list_any (is_kept_of loan) sums.new.items ≡
        (list_any (is_kept_of loan) sums.old.items || (adjustment.now.loan == loan)) }
    ensures room { vec_capacity sums.old - vec_len sums.old ≤ vec_capacity sums.new - vec_len sums.new + 1 }
{
    let place = place_of(sums, adjustment.loan);
    add_at(sums.as_mut_slice(), place, adjustment);
}

/// Where the loan's sums stand. They are put in, as 0, where none are kept of it.
fn place_of(sums: &mut Vec<LoanSums>, loan: u32) -> usize
    requires rising { IsRisingByLoan sums.old.items }
    requires room { vec_len sums.old < vec_capacity sums.old }
    ensures place { IsPlaceOf sums.new.items loan result }
    ensures rising { IsRisingByLoan sums.new.items }
    ensures total { (part : DuePart) (other : ℕ) →
        total_by (running part other) sums.new.items ≡ total_by (running part other) sums.old.items }
    ensures there { (other : ℕ) → list_any (is_kept_of other) sums.new.items ≡
        (list_any (is_kept_of other) sums.old.items || (loan == other)) }
    ensures room { vec_capacity sums.old - vec_len sums.old ≤ vec_capacity sums.new - vec_len sums.new + 1 }
{
    match find(sums, loan) {
        Ok(place) => place,
        Err(place) => {
            insert_nothing(sums, place, loan);
            place
        }
    }
}

/// Puts in sums of 0 for a loan of which none are kept.
fn insert_nothing(sums: &mut Vec<LoanSums>, place: usize, loan: u32)
    requires rising { IsRisingByLoan sums.old.items }
    requires place { IsPlaceFor sums.old.items loan place }
    requires room { vec_len sums.old < vec_capacity sums.old }
    ensures place { IsPlaceOf sums.new.items loan place }
    ensures rising { IsRisingByLoan sums.new.items }
    ensures total { (part : DuePart) (other : ℕ) →
        total_by (running part other) sums.new.items ≡ total_by (running part other) sums.old.items }
    ensures there { (other : ℕ) → list_any (is_kept_of other) sums.new.items ≡
        (list_any (is_kept_of other) sums.old.items || (loan == other)) }
    ensures room { vec_capacity sums.old - vec_len sums.old ≤ vec_capacity sums.new - vec_len sums.new + 1 }
{
    sums.insert(place, nothing(loan)).unwrap();
}

/// Adds an adjustment to its loan's sums, which stand at that place.
fn add_at(sums: &mut [LoanSums], place: usize, adjustment: &Adjustment)
    requires rising { IsRisingByLoan sums.old }
    requires place { IsPlaceOf sums.old adjustment.now.loan place }
    requires fits { (part : DuePart) → FitsSigned w64
        (total_by (running part adjustment.now.loan) sums.old
        +ℤ part_of_adjustment part adjustment.now) }
    ensures rising { IsRisingByLoan sums.new }
    ensures total { (part : DuePart) (loan : ℕ) → total_by (running part loan) sums.new ≡
        total_by (running part loan) sums.old +ℤ share part loan adjustment.now }
    ensures there { (loan : ℕ) → list_any (is_kept_of loan) sums.new ≡ list_any (is_kept_of loan) sums.old }
{
    sums[place] = with_adjustment(sums[place], adjustment);
}

/// The sums with an adjustment more.
#[tactic(auto, using(std::proofs::lemmas::Int::ints))]
fn with_adjustment(sums: LoanSums, adjustment: &Adjustment) -> LoanSums
    requires interest { FitsSigned w64 (sums.interest +ℤ adjustment.now.interest) }
    requires principal { FitsSigned w64 (sums.principal +ℤ adjustment.now.principal) }
    ensures { IsSumWith sums adjustment.now result }
{
    LoanSums {
        loan: sums.loan,
        interest: sums.interest + adjustment.interest,
        principal: sums.principal + adjustment.principal,
    }
}

/// Sums of no adjustments.
fn nothing(loan: u32) -> LoanSums
    ensures { result ≡ record { loan = loan; interest = pos 0; principal = pos 0 } }
{
    LoanSums {
        loan,
        interest: 0,
        principal: 0,
    }
}

/// Where the loan's sums stand, or would stand.
fn find(sums: &[LoanSums], loan: u32) -> Result<usize, usize>
    requires { IsRisingByLoan sums.now }
    ensures { MatchResult result (IsPlaceOf sums.now loan) (IsPlaceFor sums.now loan) }
{
    let place = sums.partition_point(|kept| kept.loan < loan);
    if place == sums.len() {
        return Err(place);
    }
    if sums[place].loan != loan {
        return Err(place);
    }
    Ok(place)
}
