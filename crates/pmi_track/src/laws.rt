//! What the definitions of an insurance's end say, as theorems: the functions have no code.

ghost use Rattle.std.specs.Prelude.{◌≡◌, ℕ, ℤ, None, Some};
ghost use Rattle.svc_types.specs.Terms.{IsSound};
ghost use Rattle.svc_types.specs.declared.terms.Terms.{Terms};
ghost use Rattle.svc_spec.specs.Accounts.{Account};
ghost use Rattle.pmi_track.specs.Insurance.{automatic_month};
ghost use Rattle.pmi_track.specs.Ends.{IsAutomatic, NeverEnds, FollowsSchedule};

/// The month in which an insurance ends by itself is the first one whose first day is after the boarded day, at
/// most the business day, and such that on it the borrower is current and the loan is satisfied or the
/// scheduled balance is at most 78 percent of the value; where none is found, there is no such first day.
pub fn insurance_ends_first()
    ensures first { (a : Account) (value : ℤ) (month : ℕ) → automatic_month a value ≡ Some month
        → IsAutomatic a value month }
    ensures never { (a : Account) (value : ℤ) → automatic_month a value ≡ None → NeverEnds a value }
{}

/// A schedule begins with the principal, each installment takes from it what the level payment leaves after a
/// month's interest, at most all of it, and at the term nothing is left.
pub fn schedules_fall()
    ensures { (t : Terms) → IsSound t → FollowsSchedule t }
{}
