//! Worked rows as theorems: what accounts received and paid out, and the books of the same accounts,
//! computed apart by the definitions. The functions have no code; all amounts are cents.

ghost use Rattle.std.specs.Prelude.{◌≡◌, [], ◌∷◌, pos};
ghost use Rattle.svc_types.specs.WorkedLoan.{day_at, month_at};
ghost use Rattle.svc_spec.specs.Accounts.{books_of};
ghost use Rattle.svc_spec.specs.Books.{total};
ghost use Rattle.svc_spec.specs.Months.{cost_of_month};
ghost use Rattle.svc_spec.specs.Totals.{received, returned, refunded, disbursed};
ghost use Rattle.svc_replay.specs.WorkedAccounts.{paid_twice, paid_off, escrowed};

/// What was received, returned, refunded and disbursed.
#[tactic(auto, unfolding(svc_types::specs::Live::live_entries))]
pub fn worked_totals()
    ensures late_received { received (paid_twice (day_at 2024 3 10) []) ≡ pos 239_820 }
    ensures late_returned { returned (paid_twice (day_at 2024 3 10) []) ≡ pos 0 }
    ensures reversed_received { received (paid_twice (day_at 2024 3 1) ((3, 14) ∷ [])) ≡ pos 239_820 }
    ensures reversed_returned { returned (paid_twice (day_at 2024 3 1) ((3, 14) ∷ [])) ≡ pos 119_910 }
    ensures payoff_received { received paid_off ≡ pos 20_149_950 }
    ensures escrow_received { received escrowed ≡ pos 109_000 }
    ensures escrow_refunded { refunded escrowed ≡ pos 6_000 }
    ensures escrow_disbursed { disbursed escrowed ≡ pos 50_000 }
{}

/// What the books of these accounts hold and have collected, and what they say of the loan.
pub fn worked_accounts()
    ensures late { total (books_of (paid_twice (day_at 2024 3 10) []) (day_at 2024 4 1)) ≡ pos 239_820 }
    ensures late_upb { (books_of (paid_twice (day_at 2024 3 10) []) (day_at 2024 4 1)).upb
        ≡ pos 19_960_080 }
    ensures reversed { total (books_of (paid_twice (day_at 2024 3 1) ((3, 14) ∷ [])) (day_at 2024 4 1))
        ≡ pos 119_910 }
    ensures reversed_late { (books_of (paid_twice (day_at 2024 3 1) ((3, 14) ∷ [])) (day_at 2024 4 1)).late_owed
        ≡ pos 11_992 }
    ensures payoff { total (books_of paid_off (day_at 2024 4 1)) ≡ pos 20_149_950 }
    ensures escrow { total (books_of escrowed (day_at 2024 4 1)) ≡ pos 53_000 }
{}

/// The bound on steps from a month on: of the late payment's month, of the boarded month over the
/// same account, and of the month of a payment that was reversed.
pub fn worked_costs()
    ensures late { cost_of_month (paid_twice (day_at 2024 3 10) []) (month_at 2024 3) ≡ 12 }
    ensures boarded { cost_of_month (paid_twice (day_at 2024 3 10) []) (month_at 2023 12) ≡ 20 }
    ensures reversed { cost_of_month (paid_twice (day_at 2024 3 1) ((3, 14) ∷ [])) (month_at 2024 2)
        ≡ 15 }
{}
