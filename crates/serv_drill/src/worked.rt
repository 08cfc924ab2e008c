//! Worked draws and months as theorems, computed from the definitions. The functions have no code.

#![tactic(auto, unfolding(crate::specs::Draws::next_state, crate::specs::Draws::drawn, crate::specs::Draws::state_after, crate::specs::Works::each, crate::specs::Works::terms_of, crate::specs::Works::work_of, crate::specs::Works::late_work_of, crate::specs::Works::works, crate::specs::Works::late_before, crate::specs::Works::turn, crate::specs::Works::month_from, crate::specs::Works::boardings, crate::specs::Works::first_works, crate::specs::Works::year_works))]

ghost use Rattle.std.specs.Prelude.{◌≡◌, [], ◌∷◌, length, map};
ghost use Rattle.svc_types.specs.WorkedLoan as worked;
ghost use Rattle.svc_types.specs.declared.requests.Command.TheVariants as command;
ghost use Rattle.serv_drill.specs.Draws.{draw};
ghost use Rattle.serv_drill.specs.Works.{Do, TakeBack, payment, month_works, year_works};

/// The draws that 0 begins, and what they give one loan: nothing is late in the first month, and the payment
/// of November is taken back in December. With the 41 commands that one loan always has there are ten
/// payments and a reversal.
pub fn worked_year()
    ensures draws { map (draw 0) (0 ∷ 1 ∷ 2 ∷ 3 ∷ 4 ∷ 5 ∷ 6 ∷ 7 ∷ 8 ∷ 9 ∷ 10 ∷ 11 ∷ [])
        ≡ 7 ∷ 4 ∷ 7 ∷ 6 ∷ 5 ∷ 1 ∷ 4 ∷ 5 ∷ 4 ∷ 9 ∷ 3 ∷ 2 ∷ [] }
    ensures february { month_works 1 0 0 ≡ Do (command.Day (worked.day_at 2024 2 1))
        ∷ Do (command.Close (worked.month_at 2024 1)) ∷ Do (command.Remit (worked.month_at 2024 1)) ∷ [] }
    ensures december { month_works 1 0 10 ≡ Do (command.Day (worked.day_at 2024 12 1))
        ∷ Do (command.Close (worked.month_at 2024 11)) ∷ Do (command.Remit (worked.month_at 2024 11))
        ∷ TakeBack 1 ∷ Do (payment 1 (worked.day_at 2024 12 1)) ∷ [] }
    ensures commands { length (year_works 1 0) ≡ 52 }
{}

/// The draws that 7 begins are 8 and 1: February's installment is paid on its 10th day, in March.
pub fn worked_late_payment()
    ensures draws { map (draw 7) (0 ∷ 1 ∷ []) ≡ 8 ∷ 1 ∷ [] }
    ensures march { month_works 1 7 1 ≡ Do (command.Day (worked.day_at 2024 3 1))
        ∷ Do (command.Close (worked.month_at 2024 2)) ∷ Do (command.Remit (worked.month_at 2024 2))
        ∷ Do (payment 1 (worked.day_at 2024 2 10)) ∷ Do (payment 1 (worked.day_at 2024 3 1)) ∷ [] }
{}
