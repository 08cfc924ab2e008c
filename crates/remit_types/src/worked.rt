//! The definitions on a loan that was worked out by hand.

ghost use Rattle.std.specs.Prelude.{◌≡◌, List, [], ◌∷◌, ◌-ℤ◌, pos, neg_ℤ};
ghost use Rattle.svc_types.specs.declared.terms.RemitType.TheVariants as by;
ghost use Rattle.remit_types.specs.Months.{due};
ghost use Rattle.svc_types.specs.WorkedLoan.{loan_with};
ghost use Rattle.remit_types.specs.Worked.{january, february, march, april, may, worked_loan, unpaid, month_due};
ghost use Rattle.remit_types.specs.Worked.{boarding, first_paid, first_curtailed, first_satisfied, second_paid};
ghost use Rattle.remit_types.specs.Worked.{still_satisfied, to_curtailed, to_february, to_second_paid, to_march};

/// What is due of a loan of 200,000.00, whatever is paid, by its schedule: nothing before the
/// first due month, then interest on the investor's balance.
#[tactic(auto, unfolding(svc_base::specs::Money::month_interest, svc_types::specs::LevelPayment::level_principal, crate::specs::Schedule::scheduled_principal, crate::specs::Schedule::scheduled_interest, crate::specs::Dues::scheduled_balance))]
pub fn worked_scheduled_dues()
    ensures before_first_due { due (worked_loan by.SS) (unpaid by.SS january (pos 20_000_000)) []
        ≡ month_due january (pos 0) (pos 0) (pos 20_000_000) }
    ensures first_month { due (worked_loan by.SS) (first_paid by.SS (pos 4_167)) (boarding by.SS)
        ≡ month_due february (pos 95_833) (pos 19_910) (pos 19_980_090) }
    ensures unpaid_month { due (worked_loan by.SS) (unpaid by.SS march (pos 19_980_090)) (to_february by.SS)
        ≡ month_due march (pos 95_737) (pos 20_010) (pos 19_960_080) }
    ensures curtailed { due (worked_loan by.SS) (first_curtailed by.SS) (boarding by.SS)
        ≡ month_due february (pos 95_833) (pos 119_910) (pos 19_880_090) }
    ensures after_curtailment { due (worked_loan by.SS) (unpaid by.SS march (pos 19_880_090))
        (to_curtailed by.SS)
        ≡ month_due march (pos 95_258) (pos 20_510) (pos 19_859_580) }
    ensures paid_off { due (worked_loan by.SS) (first_satisfied by.SS) (boarding by.SS)
        ≡ month_due february (pos 95_833) (pos 20_000_000) (pos 0) }
    ensures last_installment { due (loan_with by.SS 250 1) (unpaid by.SS february (pos 20_000_000))
        (boarding by.SS) ≡ month_due february (pos 95_833) (pos 20_000_000) (pos 0) }
{}

/// The same loan's dues as collected: principal for both other types, and interest for one.
#[tactic(auto, unfolding(svc_base::specs::Money::month_interest, crate::specs::Schedule::scheduled_interest))]
pub fn worked_actual_dues()
    ensures unpaid_month { due (worked_loan by.AA) (unpaid by.AA march (pos 19_980_090)) (to_february by.AA)
        ≡ month_due march (pos 0) (pos 0) (pos 19_980_090) }
    ensures paid_month { due (worked_loan by.AA) (second_paid by.AA) (to_february by.AA)
        ≡ month_due march (pos 95_737) (pos 20_010) (pos 19_960_080) }
    ensures without_fee { due (loan_with by.AA 0 360) (first_paid by.AA (pos 0)) (boarding by.AA)
        ≡ month_due february (pos 100_000) (pos 19_910) (pos 19_980_090) }
    ensures scheduled_interest { due (worked_loan by.SA) (unpaid by.SA march (pos 19_980_090))
        (to_february by.SA)
        ≡ month_due march (pos 95_737) (pos 0) (pos 19_980_090) }
{}

/// The same loan's dues where its type changes: two months' interest in the first month of
/// Scheduled/Actual, less of it once the month before was paid late, all that was not collected
/// taken back on the way to Actual/Actual, and what a satisfied loan was paid beyond its schedule.
#[tactic(auto, unfolding(svc_base::specs::Money::month_interest, svc_types::specs::LevelPayment::level_principal, crate::specs::Schedule::scheduled_principal, crate::specs::Schedule::scheduled_interest, crate::specs::Dues::scheduled_balance))]
pub fn worked_changes_of_type()
    ensures to_scheduled { due (worked_loan by.AA) (unpaid by.SA april (pos 19_980_090)) (to_march by.AA)
        ≡ month_due april (pos 191_474) (pos 0) (pos 19_980_090) }
    ensures paid_late { due (worked_loan by.AA) (unpaid by.SA april (pos 19_960_080)) (to_second_paid by.AA)
        ≡ month_due april (pos 95_642) (pos 0) (pos 19_960_080) }
    ensures paid_late_changes { (due (worked_loan by.AA) (unpaid by.SA april (pos 19_960_080))
        (to_second_paid by.AA)).interest
        -ℤ (due (worked_loan by.AA) (unpaid by.SA april (pos 19_980_090)) (to_march by.AA)).interest
        ≡ neg_ℤ (pos 95_832) }
    ensures to_actual { due (worked_loan by.AA) (unpaid by.AA may (pos 19_980_090))
        (unpaid by.SA april (pos 19_980_090) ∷ to_march by.AA)
        ≡ month_due may (neg_ℤ (pos 191_474)) (pos 0) (pos 19_980_090) }
    ensures satisfied { due (worked_loan by.SS) (still_satisfied by.AA)
        (first_satisfied by.SS ∷ boarding by.SS)
        ≡ month_due march (pos 47_869) (pos 0) (pos 0) }
{}
