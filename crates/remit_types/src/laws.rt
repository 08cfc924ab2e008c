//! What holds of the dues of all months of a loan.

ghost use Rattle.std.specs.Prelude.{◌≡◌, List, ◌∷◌, pos, ◌*◌, ◌≤ℤ◌, length};
ghost use Rattle.svc_types.specs.declared.terms.Terms.{Terms as LoanTerms};
ghost use Rattle.svc_types.specs.declared.terms.RemitType.{RemitType as Kind};
ghost use Rattle.svc_types.specs.Terms.{IsSound};
ghost use Rattle.remit_types.specs.Dues.{LoanMonth, carried, due_between};
ghost use Rattle.remit_types.specs.Limits.{IsWithin, AllWithin};
ghost use Rattle.remit_types.specs.Months.{loan_balance, investor_balance, actual_interest, interest_schedule};
ghost use Rattle.remit_types.specs.Months.{interest_passed, due, interest_by, AreOfType};

/// Calls of `due` for one month after another from the boarded month on, each with what the one
/// before it carried, give the dues that are defined over all the months. It does nothing.
pub fn month_by_month()
    ensures loan_balance { (t : LoanTerms) (months : List LoanMonth) →
        (carried t months).upb ≡ loan_balance t months }
    ensures balance { (t : LoanTerms) (months : List LoanMonth) →
        (carried t months).balance ≡ investor_balance t months }
    ensures actual { (t : LoanTerms) (months : List LoanMonth) →
        (carried t months).actual ≡ actual_interest months }
    ensures scheduled { (t : LoanTerms) (months : List LoanMonth) →
        (carried t months).scheduled ≡ interest_schedule t months }
    ensures passed { (t : LoanTerms) (months : List LoanMonth) →
        (carried t months).passed ≡ interest_passed t months }
    ensures due { (t : LoanTerms) (m : LoanMonth) (earlier : List LoanMonth) →
        due_between m.facts.month (carried t earlier) (carried t (m ∷ earlier)) ≡ due t m earlier }
{}

/// Where the type of a loan never changes, the interest due for a month is that of the month alone:
/// for Actual/Actual what was collected less the fee in it, for the other two one month's interest
/// on the investor's balance less the fee, from the first due month on. It does nothing.
pub fn same_type_throughout()
    ensures { (t : LoanTerms) (kind : Kind) (m : LoanMonth) (earlier : List LoanMonth) →
        AreOfType kind (m ∷ earlier) →
        (due t m earlier).interest ≡ interest_by kind t (investor_balance t earlier) m.facts }
{}

/// Whatever the months did, both balances lie from 0 to the principal, and a month adds at most
/// 2,083,333.33 to the interest that was scheduled. It does nothing.
pub fn limits_month_by_month()
    ensures balances { (t : LoanTerms) (months : List LoanMonth) → IsSound t → AllWithin t months →
        IsWithin t (carried t months) }
    ensures scheduled_low { (t : LoanTerms) (months : List LoanMonth) → IsSound t →
        pos 0 ≤ℤ (carried t months).scheduled }
    ensures scheduled_high { (t : LoanTerms) (months : List LoanMonth) → IsSound t → AllWithin t months →
        (carried t months).scheduled ≤ℤ pos (208_333_333 * length months) }
{}
