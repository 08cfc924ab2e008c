//! Worked rows as theorems: the definitions of installments, settling, payoff and step, computed.
//! The functions have no code; their clauses are the rows, all amounts in cents.

ghost use Rattle.std.specs.Prelude.{◌≡◌, ℕ, nat_le, [], ◌∷◌, ◌++◌, Some, None, pos, negsuc};
ghost use Rattle.svc_base.specs.Calendar.{month_of};
ghost use Rattle.svc_types.specs.declared.terms.Terms.{Terms};
ghost use Rattle.svc_types.specs.declared.account.Act.TheVariants as act;
ghost use Rattle.svc_spec.specs.Books.{start};
ghost use Rattle.svc_spec.specs.Events.{folded, late_day};
ghost use Rattle.svc_spec.specs.Installments.{due_month, due_day, escrow_of_plan};
ghost use Rattle.svc_spec.specs.Payoff.{payoff_due};
ghost use Rattle.svc_apply.specs.Rows.{after, after_first, escrow_after, row_of};
ghost use Rattle.svc_types.specs.WorkedLoan.{month_at, day_at};
ghost use Rattle.svc_apply.specs.Rows.{on, late_on, regular, with_principal, with_escrow};
ghost use Rattle.svc_apply.specs.Rows.{worked_loan, short_loan, at_boarding, one_paid, two_paid};
ghost use Rattle.svc_apply.specs.Rows.{paid_first, charged_second, paid_out, paid_off_early};
ghost use Rattle.svc_apply.specs.Rows.{deposit_then_bill, plan_from, analysis_from};

/// A payment waits until the whole installment is there; a payment ahead of the late mark owes nothing.
pub fn worked_payments()
    ensures first { row_of (after paid_first) ≡ one_paid }
    ensures cent_short { row_of (after_first (regular (pos 119_909)))
        ≡ record at_boarding { suspense = pos 119_909 } }
    ensures cent_later { row_of (after (on (day_at 2024 2 1) (regular (pos 119_909))
        ∷ on (day_at 2024 2 1) (regular (pos 1)) ∷ [])) ≡ one_paid }
    ensures late_payment { row_of (after (paid_first
        ++ on (day_at 2024 3 10) (regular (pos 119_910)) ∷ [])) ≡ two_paid }
    ensures curtailment { row_of (after (paid_first
        ++ on (day_at 2024 2 10) (act.Curtail (pos 100_000)) ∷ []))
        ≡ record one_paid { upb = pos 19_880_090; principal = pos 119_910; curtailed = pos 100_000 } }
    ensures one_installment { row_of (folded short_loan (start short_loan)
        (on (day_at 2024 2 1) (regular (pos 20_100_000)) ∷ []))
        ≡ record one_paid { upb = pos 0; principal = pos 20_000_000 } }
    ensures two_at_once { row_of (after_first (regular (pos 239_820))) ≡ two_paid }
{}

/// A late charge is owed from the end of the grace on, and paid once no installment is overdue.
pub fn worked_charges()
    ensures owed { row_of (after charged_second) ≡ record one_paid { late = pos 5_996 } }
    ensures paid { row_of (after (charged_second ++ on (day_at 2024 3 20) (regular (pos 125_906)) ∷ []))
        ≡ record two_paid { charges = pos 5_996 } }
    ensures unpaid_while_overdue { row_of (after (late_on (day_at 2024 2 17) 1
        ∷ on (day_at 2024 3 1) (regular (pos 119_910)) ∷ late_on (day_at 2024 3 17) 2 ∷ []))
        ≡ record one_paid { late = pos 11_992 } }
    ensures waived { row_of (after (charged_second ++ on (day_at 2024 3 20) (act.Waive (pos 5_996)) ∷ []))
        ≡ one_paid }
    ensures grace_day { late_day worked_loan 2 ≡ day_at 2024 3 17 }
{}

/// What a payment leaves goes where it is designated once nothing is due on or before its day, and
/// no more than the payment; without a designation it waits, and pays the next installment.
pub fn worked_designations()
    ensures principal { row_of (after_first (with_principal (pos 169_910)))
        ≡ record one_paid { upb = pos 19_930_090; principal = pos 69_910; curtailed = pos 50_000 } }
    ensures escrow { row_of (after_first (with_escrow (pos 169_910)))
        ≡ record one_paid { escrow = pos 50_000 } }
    ensures neither { row_of (after_first (regular (pos 169_910)))
        ≡ record one_paid { suspense = pos 50_000 } }
    ensures two_installments { row_of (after_first (with_principal (pos 239_820)))
        ≡ record one_paid { upb = pos 19_860_180; principal = pos 139_820; curtailed = pos 119_910 } }
    ensures while_due { row_of (after_first (with_principal (pos 50_000)))
        ≡ record at_boarding { suspense = pos 50_000 } }
    ensures while_a_later_one_is_due { row_of (after (on (day_at 2024 3 10)
        (with_principal (pos 169_910)) ∷ [])) ≡ record one_paid { suspense = pos 50_000 } }
    ensures late_charges_first { row_of (after (charged_second
        ++ on (day_at 2024 3 20) (with_principal (pos 175_906)) ∷ []))
        ≡ record two_paid {
          upb = pos 19_910_080;
          principal = pos 89_920;
          curtailed = pos 50_000;
          charges = pos 5_996;
        } }
    ensures no_more_than_paid { row_of (after (on (day_at 2024 2 1) (regular (pos 300_000))
        ∷ on (day_at 2024 2 10) (with_escrow (pos 10_000)) ∷ []))
        ≡ record two_paid { escrow = pos 10_000; suspense = pos 60_180 } }
{}

/// Extra principal may satisfy the loan; what exceeds the balance waits, as all does on a satisfied loan.
pub fn worked_last_payments()
    ensures satisfies { row_of (after (paid_out (pos 0)))
        ≡ record one_paid { upb = pos 0; principal = pos 20_000_000; curtailed = pos 19_980_090 } }
    ensures satisfied { (after (paid_out (pos 0))).satisfied ≡ Some (day_at 2024 2 1) }
    ensures leaves_a_cent { (after (paid_out (pos 1))).suspense ≡ pos 1 }
    ensures waits { row_of (after (paid_out (pos 0) ++ on (day_at 2024 2 20) (with_escrow (pos 500)) ∷ []))
        ≡ record one_paid {
          upb = pos 0;
          suspense = pos 500;
          principal = pos 20_000_000;
          curtailed = pos 19_980_090;
        } }
{}

/// A payoff asks balance, interest by days, late charges and escrow advanced, and waits where it is short.
pub fn worked_payoffs()
    ensures asked { payoff_due worked_loan (day_at 2024 2 16) (after paid_first) ≡ pos 20_030_040 }
    ensures paid { row_of (after paid_off_early)
        ≡ record one_paid {
          upb = pos 0;
          interest = pos 149_950;
          fee = pos 6_248;
          principal = pos 20_000_000;
        } }
    ensures satisfied { (after paid_off_early).satisfied ≡ Some (day_at 2024 2 16) }
    ensures cent_short { (after (paid_first
        ++ on (day_at 2024 2 16) (act.Payoff (pos 20_030_039)) ∷ [])).satisfied ≡ None }
    ensures deposit_waits { (after (paid_off_early
        ++ on (day_at 2024 2 20) (act.Deposit (pos 500)) ∷ [])).suspense ≡ pos 500 }
    ensures refund_from_suspense { (after (paid_off_early ++ on (day_at 2024 2 20) (act.Deposit (pos 500))
        ∷ on (day_at 2024 2 21) (act.Refund (pos 300)) ∷ [])).suspense ≡ pos 200 }
    ensures advance_repaid { (escrow_after (deposit_then_bill
        ++ on (day_at 2024 6 20) (act.Payoff (pos 30_000_000)) ∷ [])).escrow ≡ pos 0 }
{}

/// Bills may bring escrow below 0; a new plan follows the newest one, or replaces it.
pub fn worked_escrow()
    ensures bill { (escrow_after deposit_then_bill).escrow ≡ negsuc 49_999 }
    ensures deposit { (escrow_after (deposit_then_bill
        ++ on (day_at 2024 6 14) (act.Deposit (pos 60_000)) ∷ [])).escrow ≡ pos 10_000 }
    ensures installment { (escrow_after (on (day_at 2024 7 1) (regular (pos 132_910)) ∷ [])).escrow
        ≡ pos 13_000 }
    ensures follows { (escrow_after (on (day_at 2024 6 20)
        (act.Analyse (analysis_from (month_at 2024 7) (pos 14_000))) ∷ [])).earlier
        ≡ plan_from (month_at 2024 6) (pos 13_000) (pos 0) }
    ensures replaces { (escrow_after (on (day_at 2024 6 20)
        (act.Analyse (analysis_from (month_at 2024 7) (pos 14_000)))
        ∷ on (day_at 2024 6 21) (act.Analyse (analysis_from (month_at 2024 7) (pos 15_000))) ∷ [])).earlier
        ≡ plan_from (month_at 2024 6) (pos 13_000) (pos 0) }
    ensures credit { escrow_of_plan (plan_from (month_at 2024 7) (pos 100) (pos 300)) (month_at 2024 7)
        ≡ pos 0 }
    ensures credit_ends { escrow_of_plan (plan_from (month_at 2024 7) (pos 100) (pos 300)) (month_at 2025 7)
        ≡ pos 100 }
{}

/// Installments are due on first days of months, so what is due on or before a day is due by its month.
pub fn due_by_the_month()
    ensures { (t : Terms) (k d : ℕ) → nat_le (due_day t k) d ≡ nat_le (due_month t k) (month_of d) }
{}
