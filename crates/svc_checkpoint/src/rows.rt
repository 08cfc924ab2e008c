//! A worked bound as a theorem. The function has no code.

ghost use Rattle.std.specs.Prelude.{◌≡◌};
ghost use Rattle.svc_types.specs.WorkedLoan.{month_at};
ghost use Rattle.svc_spec.specs.Months.{cost_of_month};
ghost use Rattle.svc_checkpoint.specs.WorkedLoans.{old_account};

/// The bound on the steps of an entry in March 2024 is that of a new loan, however old the loan is.
pub fn worked_bound()
    ensures { cost_of_month old_account (month_at 2024 3) ≡ 12 }
{}
