//! What brings a loan current, seen from its account.

ghost use Rattle.std.specs.Prelude.{ℕ, ℤ, ◌≤ℤ◌, ◌↔◌};
ghost use Rattle.svc_spec.specs.Accounts.{Account, IsAccount, MayPost, posted};
ghost use Rattle.svc_replay.specs.ArrearsLaw.{payment_today, NoneIsOverdue, to_pay};

/// What is to be paid is the least: a regular payment on the business day leaves no installment open
/// that is due by then exactly where it is at least what `arrears` asks. The function has no code.
pub fn arrears_are_least()
    ensures { (a : Account) (n : ℕ) (x : ℤ) → IsAccount a → MayPost a (payment_today a n x)
        → NoneIsOverdue (posted (payment_today a n x) a) ↔ (to_pay a ≤ℤ x) }
{}
