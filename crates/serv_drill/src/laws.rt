//! What holds of the counts, and of the payments that are taken back, as theorems: the functions have no code.

ghost use Rattle.std.specs.Prelude.{◌≡◌, ℕ, ◌^◌, ◌<◌, ◌≤◌, ◌++◌, ◌∷◌, [], List, false, length};
ghost use Rattle.svc_world.specs.World.{Accepted, accepted};
ghost use Rattle.svc_world.specs.Judging.{next_reply};
ghost use Rattle.serv_drill.specs.Works.{Work, payment, year_works};
ghost use Rattle.serv_drill.specs.Payments.{is_payment_of, last_payment};
ghost use Rattle.serv_drill.specs.Machine.{after_works, first_tally};

/// Whatever works are done, each under a key of its own, kept replies are given as many times as commands are
/// accepted: one for each of them, where it is submitted again. So it is in each generated year of at most 500
/// loans.
pub fn repeats_are_commands()
    ensures works { (ws : List Work) → length ws < 2 ^ 64
        → (after_works first_tally ws).repeats ≡ length (after_works first_tally ws).history }
    ensures year { (loans number : ℕ) → loans ≤ 500
        → (after_works first_tally (year_works loans number)).repeats
        ≡ length (after_works first_tally (year_works loans number)).history }
{}

/// The last payment of a loan is the one that was accepted last, by the number in the reply to it; no other
/// command changes which one it is.
pub fn payments_have_their_number()
    ensures paid { (h : List Accepted) (key : List ℕ) (loan day : ℕ)
        → last_payment loan (h ++ accepted key (payment loan day) ∷ [])
        ≡ (next_reply h (payment loan day)).number }
    ensures others { (h : List Accepted) (a : Accepted) (loan : ℕ) → is_payment_of loan a.command ≡ false
        → last_payment loan (h ++ a ∷ []) ≡ last_payment loan h }
{}
