//! Worked histories as theorems: replies, refusals, rows, adjustments and the custodial line, computed
//! from the definitions. The functions have no code; amounts are cents.

#![tactic(auto, unfolding(svc_base::specs::Calendar::month_length, svc_base::specs::Calendar::day_after, svc_base::specs::Money::month_interest, svc_base::specs::Money::day_interest, svc_base::specs::Money::share_bp, svc_spec::specs::Installments::principal_part, svc_spec::specs::Installments::escrow_part, svc_spec::specs::Installments::escrow_of_plan, svc_spec::specs::Settling::need, svc_spec::specs::Settling::they_exist, svc_spec::specs::Settling::moves, svc_spec::specs::Settling::moved, svc_spec::specs::Settling::moved_one, svc_spec::specs::Settling::late_taken, svc_spec::specs::Settling::marked, svc_spec::specs::Settling::settled_by, svc_spec::specs::Payoff::payoff_principal, svc_spec::specs::Payoff::payoff_sum, svc_spec::specs::Payoff::available, svc_spec::specs::Payoff::is_current, svc_spec::specs::Step::step, svc_spec::specs::Step::charged, svc_spec::specs::Step::to_principal, svc_spec::specs::Step::to_escrow, svc_spec::specs::Step::rest_applied, svc_spec::specs::Step::paid_off, svc_spec::specs::Step::payoff_tried, svc_spec::specs::Step::deposited, svc_spec::specs::Step::from_suspense, svc_spec::specs::Step::refunded, svc_spec::specs::Step::analysed, svc_spec::specs::Books::start, svc_spec::specs::Events::events_to, svc_spec::specs::Events::books_at, svc_spec::specs::Months::books_at_end, svc_types::specs::Live::live_entries, svc_types::specs::Same::is_same, escrow_lines::specs::Bills::cents_in, escrow_resolve::specs::Parts::surplus, escrow_resolve::specs::Parts::shortage, escrow_resolve::specs::Parts::deficiency, escrow_resolve::specs::Lawful::plan_fault, remit_types::specs::Schedule::scheduled_interest, remit_types::specs::Schedule::scheduled_principal, svc_types::specs::LevelPayment::level_principal, remit_types::specs::Dues::carried_after, remit_types::specs::Dues::scheduled_balance, custodial_book::specs::Rows::row_of, crate::specs::LoanDues::carried_to, crate::specs::Reports::lines_of, crate::specs::Reports::changes_of, crate::specs::World::loans_after, crate::specs::World::seals_after, crate::specs::World::after, crate::specs::World::world_from, crate::specs::Custody::remitted_for, crate::specs::Custody::dues_sum, crate::specs::Custody::is_settled, crate::specs::Custody::totals_of, crate::specs::Custody::rows_between, crate::specs::Custody::rows_from, crate::specs::Custody::custody_of, crate::specs::Refusals::refusal_of, crate::specs::Answers::refusal_from, crate::specs::Judging::reply_of, crate::specs::Judging::known_from, crate::specs::Judging::judged, crate::specs::Answers::answer_from))]

ghost use Rattle.std.specs.Prelude.{◌≡◌, ◌++◌, [], ◌∷◌, Some, None, pos, neg_ℤ};
ghost use Rattle.custodial_book.specs.declared.part.Part.TheVariants as part;
ghost use Rattle.svc_types.specs.declared.account.Designation.TheVariants as to;
ghost use Rattle.svc_types.specs.declared.terms.RemitType.TheVariants as remit;
ghost use Rattle.svc_types.specs.declared.escrow.SurplusPlan.TheVariants as surplus;
ghost use Rattle.svc_types.specs.declared.faults.PlanFault.TheVariants as plan;
ghost use Rattle.svc_types.specs.declared.requests.Command.TheVariants as command;
ghost use Rattle.svc_types.specs.declared.replies.Extra.TheVariants as extra;
ghost use Rattle.svc_types.specs.declared.replies.Refusal.TheVariants as refusal;
ghost use Rattle.svc_world.specs.Judging as judging;
ghost use Rattle.svc_types.specs.WorkedLoan.{month_at, day_at};
ghost use Rattle.svc_world.specs.WorkedLoans.{pays, pays_to, history_of, refused_after, said_after, rows_after, pending_after, custody_after, left_after, taken_after, escrow_after, taken_on, first_paid, closed_to_march, remitted_to_march, paid_in_time, then_reversed, then_payoff_day, paid_off, paid_off_closed, paid_off_remitted, payoff_reversed, surplus_to, three_bills, bill_due, bill_paid, bill_covered, retyped_to, april_remitted};

/// One payment on its day, a cent too little, the cent after it; the same line again, and another under
/// its key.
pub fn worked_first_payment()
    ensures accepted { refused_after (taken_on remit.SS) (pays (day_at 2024 2 1) (pos 119_910)) ≡ None }
    ensures rows { rows_after (first_paid remit.SS)
        ≡ (part.Received, pos 119_910) ∷ (part.Collected, pos 119_910) ∷ (part.Fee, pos 4_167) ∷ [] }
    ensures left { left_after (first_paid remit.SS) 1 ≡ Some (pos 19_980_090, 2, pos 0, pos 0) }
    ensures taken { taken_after (first_paid remit.SS) 1 ≡ Some (pos 100_000, pos 4_167, pos 19_910) }
    ensures cent_short { left_after (taken_on remit.SS ++ pays (day_at 2024 2 1) (pos 119_909) ∷ []) 1
        ≡ Some (pos 20_000_000, 1, pos 119_909, pos 0) }
    ensures cent_later { left_after (taken_on remit.SS ++ pays (day_at 2024 2 1) (pos 119_909) ∷ pays (day_at 2024 2 1) (pos 1) ∷ []) 1
        ≡ Some (pos 19_980_090, 2, pos 0, pos 0) }
    ensures repeated { judging.judged (history_of (first_paid remit.SS)) (3 ∷ []) (pays (day_at 2024 2 1) (pos 119_910))
        ≡ judging.Kept (record { number = 3; extra = extra.Plain }) }
    ensures reused { judging.judged (history_of (first_paid remit.SS)) (3 ∷ []) (pays (day_at 2024 2 1) (pos 119_911))
        ≡ judging.Refused (refusal.KeyReused 3) }
{}

/// What a payment leaves after the installment of its day goes where it is designated to.
pub fn worked_designations()
    ensures principal { left_after (taken_on remit.SS ++ pays_to (day_at 2024 2 1) (pos 169_910) to.Principal ∷ []) 1
        ≡ Some (pos 19_930_090, 2, pos 0, pos 0) }
    ensures principal_taken { taken_after (taken_on remit.SS ++ pays_to (day_at 2024 2 1) (pos 169_910) to.Principal ∷ []) 1
        ≡ Some (pos 100_000, pos 4_167, pos 69_910) }
    ensures principal_rows { rows_after (taken_on remit.SS ++ pays_to (day_at 2024 2 1) (pos 169_910) to.Principal ∷ [])
        ≡ (part.Received, pos 169_910) ∷ (part.Collected, pos 169_910) ∷ (part.Fee, pos 4_167) ∷ [] }
    ensures escrow { escrow_after (taken_on remit.SS ++ pays_to (day_at 2024 2 1) (pos 169_910) to.Escrow ∷ []) 1 ≡ Some (pos 50_000) }
    ensures escrow_left { left_after (taken_on remit.SS ++ pays_to (day_at 2024 2 1) (pos 169_910) to.Escrow ∷ []) 1
        ≡ Some (pos 19_980_090, 2, pos 0, pos 0) }
    ensures regular { left_after (taken_on remit.SS ++ pays (day_at 2024 2 1) (pos 169_910) ∷ []) 1
        ≡ Some (pos 19_980_090, 2, pos 50_000, pos 0) }
    ensures two_installments { left_after (taken_on remit.SS ++ pays_to (day_at 2024 2 1) (pos 239_820) to.Principal ∷ []) 1
        ≡ Some (pos 19_860_180, 2, pos 0, pos 0) }
    ensures two_regular { left_after (taken_on remit.SS ++ pays (day_at 2024 2 1) (pos 239_820) ∷ []) 1
        ≡ Some (pos 19_960_080, 3, pos 0, pos 0) }
    ensures too_little { left_after (taken_on remit.SS ++ pays_to (day_at 2024 2 1) (pos 50_000) to.Principal ∷ []) 1
        ≡ Some (pos 20_000_000, 1, pos 50_000, pos 0) }
{}

/// A late charge is owed from the end of the grace on.
pub fn worked_late_charge()
    ensures grace { left_after (first_paid remit.SS ++ command.Day (day_at 2024 3 16) ∷ []) 1 ≡ Some (pos 19_980_090, 2, pos 0, pos 0) }
    ensures late { left_after (first_paid remit.SS ++ command.Day (day_at 2024 3 17) ∷ []) 1 ≡ Some (pos 19_980_090, 2, pos 0, pos 5_996) }
    ensures paid { rows_after (first_paid remit.SS ++ command.Day (day_at 2024 3 20) ∷ pays (day_at 2024 3 20) (pos 125_906) ∷ [])
        ≡ (part.Received, pos 125_906) ∷ (part.Collected, pos 119_910) ∷ (part.Fee, pos 4_163) ∷ (part.Late, pos 5_996) ∷ [] }
    ensures over_waiver { refused_after (first_paid remit.SS ++ command.Day (day_at 2024 3 20) ∷ []) (command.Waive 1 (pos 5_997))
        ≡ Some (refusal.OverWaiver (pos 5_996)) }
    ensures over_refund { refused_after (first_paid remit.SS ++ command.Day (day_at 2024 3 20) ∷ []) (command.Refund 1 (pos 1))
        ≡ Some (refusal.OverRefund (pos 0)) }
{}

/// Four months are closed and remitted by schedule, ahead of an installment that is not paid; it is paid
/// late.
pub fn worked_closings()
    ensures december { said_after (first_paid remit.SS ++ command.Day (day_at 2024 4 1) ∷ []) (command.Close (month_at 2023 12))
        ≡ extra.Closed 1 (pos 0) (pos 0) }
    ensures february { said_after (first_paid remit.SS ++ command.Day (day_at 2024 4 1) ∷ command.Close (month_at 2023 12) ∷ command.Close (month_at 2024 1) ∷ []) (command.Close (month_at 2024 2))
        ≡ extra.Closed 1 (pos 95_833) (pos 19_910) }
    ensures march { said_after (first_paid remit.SS ++ command.Day (day_at 2024 4 1) ∷ command.Close (month_at 2023 12) ∷ command.Close (month_at 2024 1) ∷ command.Close (month_at 2024 2) ∷ []) (command.Close (month_at 2024 3))
        ≡ extra.Closed 1 (pos 95_737) (pos 20_010) }
    ensures nothing_sent { said_after (closed_to_march remit.SS) (command.Remit (month_at 2023 12)) ≡ extra.Remitted (pos 0) }
    ensures march_remitted { rows_after (remitted_to_march remit.SS) ≡ (part.PiAdvance, pos 115_747) ∷ (part.Remitted, pos 115_747) ∷ [] }
    ensures custody { custody_after (remitted_to_march remit.SS)
        ≡ record { t = pos 0; p = pos 0; suspense = pos 0; escrow = pos 0; escrow_advance = pos 0; held = pos 0; pi_advance = pos 115_747 } }
    ensures late_rows { rows_after (remitted_to_march remit.SS ++ pays (day_at 2024 3 10) (pos 119_910) ∷ [])
        ≡ (part.Received, pos 119_910) ∷ (part.Collected, pos 119_910) ∷ (part.Fee, pos 4_163) ∷ (part.PiAdvance, neg_ℤ (pos 115_747)) ∷ [] }
    ensures late_adjusts_nothing { pending_after (remitted_to_march remit.SS ++ pays (day_at 2024 3 10) (pos 119_910) ∷ []) ≡ [] }
    ensures late_charge_undone { left_after (remitted_to_march remit.SS ++ pays (day_at 2024 3 10) (pos 119_910) ∷ []) 1
        ≡ Some (pos 19_960_080, 3, pos 0, pos 0) }
{}

/// The same months remitted as collected: a payment that is entered late is an adjustment of its month.
pub fn worked_late_payment()
    ensures march { said_after (first_paid remit.AA ++ command.Day (day_at 2024 4 1) ∷ command.Close (month_at 2023 12) ∷ command.Close (month_at 2024 1) ∷ command.Close (month_at 2024 2) ∷ []) (command.Close (month_at 2024 3))
        ≡ extra.Closed 1 (pos 0) (pos 0) }
    ensures rows { rows_after (remitted_to_march remit.AA ++ pays (day_at 2024 3 10) (pos 119_910) ∷ [])
        ≡ (part.Received, pos 119_910) ∷ (part.Collected, pos 119_910) ∷ (part.Fee, pos 4_163) ∷ [] }
    ensures adjustment { pending_after (remitted_to_march remit.AA ++ pays (day_at 2024 3 10) (pos 119_910) ∷ [])
        ≡ (month_at 2024 3, pos 95_737, pos 20_010) ∷ [] }
    ensures april { said_after (remitted_to_march remit.AA ++ pays (day_at 2024 3 10) (pos 119_910) ∷ command.Day (day_at 2024 5 1) ∷ []) (command.Close (month_at 2024 4))
        ≡ extra.Closed 1 (pos 95_737) (pos 20_010) }
{}

/// A reversed payment: its months are adjusted, and what was remitted is an advance.
pub fn worked_reversal()
    ensures adjustments { pending_after (then_reversed remit.AA)
        ≡ (month_at 2024 2, neg_ℤ (pos 95_833), neg_ℤ (pos 19_910)) ∷ (month_at 2024 3, pos 96, neg_ℤ (pos 100)) ∷ [] }
    ensures rows { rows_after (then_reversed remit.AA)
        ≡ (part.Returned, pos 119_910) ∷ (part.Collected, neg_ℤ (pos 119_910)) ∷ (part.Fee, neg_ℤ (pos 4_163)) ∷ (part.PiAdvance, pos 115_747) ∷ [] }
    ensures late_owed { left_after (then_reversed remit.AA) 1 ≡ Some (pos 19_980_090, 2, pos 0, pos 11_992) }
    ensures april { said_after (then_reversed remit.AA ++ command.Day (day_at 2024 5 1) ∷ []) (command.Close (month_at 2024 4))
        ≡ extra.Closed 1 (neg_ℤ (pos 95_737)) (neg_ℤ (pos 20_010)) }
    ensures april_remitted { rows_after (then_reversed remit.AA ++ command.Day (day_at 2024 5 1) ∷ command.Close (month_at 2024 4) ∷ command.Remit (month_at 2024 4) ∷ [])
        ≡ (part.PiAdvance, neg_ℤ (pos 115_747)) ∷ (part.Remitted, neg_ℤ (pos 115_747)) ∷ [] }
    ensures again { refused_after (then_reversed remit.AA) (command.Reverse 1 3) ≡ Some (refusal.AlreadyReversed 14) }
{}

/// A payoff, a cent too little, and what its month sends.
pub fn worked_payoff()
    ensures cent_short { refused_after (then_payoff_day remit.SS) (command.Payoff 1 (day_at 2024 2 16) (pos 20_030_039))
        ≡ Some (refusal.PayoffShort (pos 20_030_040)) }
    ensures enough { refused_after (then_payoff_day remit.SS) (command.Payoff 1 (day_at 2024 2 16) (pos 20_030_040)) ≡ None }
    ensures left { left_after (paid_off remit.SS) 1 ≡ Some (pos 0, 2, pos 0, pos 0) }
    ensures taken { taken_after (paid_off remit.SS) 1 ≡ Some (pos 149_950, pos 6_248, pos 20_000_000) }
    ensures february { said_after (paid_off remit.SS ++ command.Day (day_at 2024 3 1) ∷ command.Close (month_at 2023 12) ∷ command.Close (month_at 2024 1) ∷ []) (command.Close (month_at 2024 2))
        ≡ extra.Closed 1 (pos 95_833) (pos 20_000_000) }
    ensures remitted { rows_after (paid_off_remitted remit.SS) ≡ (part.Remitted, pos 20_095_833) ∷ (part.Residual, pos 47_869) ∷ [] }
{}

/// A payoff that is taken back after its month was remitted.
pub fn worked_payoff_reversed()
    ensures rows { rows_after (payoff_reversed remit.SS)
        ≡ (part.Returned, pos 20_030_040) ∷ (part.Collected, neg_ℤ (pos 20_030_040)) ∷ (part.Fee, neg_ℤ (pos 2_081)) ∷ (part.PiAdvance, pos 19_980_090) ∷ (part.Residual, neg_ℤ (pos 47_869)) ∷ [] }
    ensures adjustment { pending_after (payoff_reversed remit.SS) ≡ (month_at 2024 2, pos 0, neg_ℤ (pos 19_980_090)) ∷ [] }
    ensures march { said_after (payoff_reversed remit.SS ++ command.Day (day_at 2024 4 1) ∷ []) (command.Close (month_at 2024 3))
        ≡ extra.Closed 1 (pos 95_737) (neg_ℤ (pos 19_960_080)) }
    ensures march_remitted { rows_after (payoff_reversed remit.SS ++ command.Day (day_at 2024 4 1) ∷ command.Close (month_at 2024 3) ∷ command.Remit (month_at 2024 3) ∷ [])
        ≡ (part.PiAdvance, neg_ℤ (pos 19_864_343)) ∷ (part.Remitted, neg_ℤ (pos 19_864_343)) ∷ [] }
{}

/// A surplus of 50.00 is refunded, and may not be credited while the borrower is current.
pub fn worked_analysis()
    ensures must_refund { refused_after three_bills (command.Analyse 2 (surplus_to surplus.Credit)) ≡ Some (refusal.BadPlan plan.MustRefund) }
    ensures figures { said_after three_bills (command.Analyse 2 (surplus_to surplus.Refund))
        ≡ extra.Analysed (record { from = month_at 2024 7; base = pos 13_000; cushion = pos 26_000; opening = pos 104_000; balance = pos 109_000; surplus = pos 5_000; short = pos 0; deficient = pos 0; refund = pos 5_000; within30 = pos 0; pay = pos 13_000 }) }
    ensures rows { rows_after (three_bills ++ command.Analyse 2 (surplus_to surplus.Refund) ∷ []) ≡ (part.Refunded, pos 5_000) ∷ [] }
{}

/// A bill that escrow does not cover is advanced by the servicer, and by no other borrower.
pub fn worked_escrow_advance()
    ensures rows { rows_after bill_paid ≡ (part.Disbursed, pos 200_000) ∷ (part.EscrowAdvance, pos 50_000) ∷ [] }
    ensures custody { custody_after bill_paid
        ≡ record { t = pos 30_000; p = pos 0; suspense = pos 0; escrow = neg_ℤ (pos 20_000); escrow_advance = pos 50_000; held = pos 0; pi_advance = pos 0 } }
    ensures covered { rows_after bill_covered ≡ (part.Received, pos 60_000) ∷ (part.EscrowAdvance, neg_ℤ (pos 50_000)) ∷ [] }
    ensures no_line { refused_after bill_covered (command.Disburse 2 (day_at 2024 6 12) (pos 100) 9) ≡ Some refusal.NoSuchLine }
{}

/// A curtailment, and one of more than the balance.
pub fn worked_curtailment()
    ensures rows { rows_after (first_paid remit.SS ++ command.Day (day_at 2024 2 10) ∷ command.Curtail 1 (day_at 2024 2 10) (pos 100_000) ∷ [])
        ≡ (part.Received, pos 100_000) ∷ (part.Collected, pos 100_000) ∷ [] }
    ensures over_principal { refused_after (first_paid remit.SS ++ command.Day (day_at 2024 2 10) ∷ command.Curtail 1 (day_at 2024 2 10) (pos 100_000) ∷ []) (command.Curtail 1 (day_at 2024 2 10) (pos 19_880_091))
        ≡ Some (refusal.OverPrincipal (pos 19_880_090)) }
{}

/// What is refused of months, days, loans and amounts.
pub fn worked_refusals()
    ensures wrong_period { refused_after (first_paid remit.SS ++ command.Day (day_at 2024 4 1) ∷ []) (command.Close (month_at 2024 1)) ≡ Some (refusal.WrongPeriod (month_at 2023 12)) }
    ensures not_closed { refused_after (first_paid remit.SS ++ command.Day (day_at 2024 4 1) ∷ []) (command.Remit (month_at 2023 12)) ≡ Some (refusal.NotClosed None) }
    ensures not_ended { refused_after (command.Day (day_at 2023 12 31) ∷ []) (command.Close (month_at 2023 12)) ≡ Some (refusal.NotEnded (day_at 2023 12 31)) }
    ensures future_dated { refused_after (first_paid remit.SS ++ command.Day (day_at 2024 4 1) ∷ []) (pays (day_at 2024 4 2) (pos 100)) ≡ Some (refusal.FutureDated (day_at 2024 4 1)) }
    ensures no_such_loan { refused_after [] (pays (day_at 2024 4 1) (pos 100)) ≡ Some refusal.NoSuchLoan }
    ensures wrong_remit { refused_after (remitted_to_march remit.SS) (command.Remit (month_at 2024 3)) ≡ Some (refusal.WrongRemit (month_at 2024 4)) }
    ensures no_amount { refused_after (remitted_to_march remit.SS) (pays (day_at 2024 4 1) (pos 0)) ≡ Some refusal.BadAmount }
    ensures too_much { refused_after (remitted_to_march remit.SS) (pays (day_at 2024 4 1) (pos 10_000_000_001)) ≡ Some refusal.BadAmount }
    ensures before_boarding { refused_after (remitted_to_march remit.SS) (pays (day_at 2023 12 14) (pos 100)) ≡ Some (refusal.BeforeBoarding (day_at 2023 12 15)) }
{}

/// A change of remittance type brings the interest passed to the new basis in its first month, and back.
pub fn worked_types()
    ensures april { said_after (retyped_to remit.SA) (command.Close (month_at 2024 4)) ≡ extra.Closed 1 (pos 191_474) (pos 0) }
    ensures april_remitted { rows_after april_remitted ≡ (part.PiAdvance, pos 191_474) ∷ (part.Remitted, pos 191_474) ∷ [] }
    ensures closed { refused_after april_remitted (command.Retype 1 (month_at 2024 4) remit.AA) ≡ Some (refusal.ClosedMonth (month_at 2024 4)) }
    ensures late_payment { pending_after (april_remitted ++ pays (day_at 2024 3 10) (pos 119_910) ∷ [])
        ≡ (month_at 2024 3, pos 95_737, pos 20_010) ∷ (month_at 2024 4, neg_ℤ (pos 95_832), pos 0) ∷ [] }
    ensures back { said_after (april_remitted ++ command.Day (day_at 2024 6 1) ∷ command.Retype 1 (month_at 2024 5) remit.AA ∷ []) (command.Close (month_at 2024 5))
        ≡ extra.Closed 1 (neg_ℤ (pos 191_474)) (pos 0) }
    ensures before_boarding { refused_after (taken_on remit.SS) (command.Retype 1 (month_at 2023 11) remit.AA) ≡ Some (refusal.BeforeBoarding (day_at 2023 12 15)) }
    ensures satisfied { said_after (paid_off_remitted remit.SS ++ command.Day (day_at 2024 4 1) ∷ command.Retype 1 (month_at 2024 3) remit.AA ∷ []) (command.Close (month_at 2024 3))
        ≡ extra.Closed 1 (pos 47_869) (pos 0) }
    ensures residual { rows_after (paid_off_remitted remit.SS ++ command.Day (day_at 2024 4 1) ∷ command.Retype 1 (month_at 2024 3) remit.AA ∷ command.Close (month_at 2024 3) ∷ [])
        ≡ (part.Residual, neg_ℤ (pos 47_869)) ∷ [] }
{}
