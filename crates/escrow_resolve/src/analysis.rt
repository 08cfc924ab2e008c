//! What an escrow balance has too much, and what it lacks.

ghost use Rattle.std.specs.Prelude.{◌≡◌, ◌^◌, pos, ◌≤ℤ◌, ◌+ℤ◌};
ghost use Rattle.escrow_resolve.specs.Parts as parts;

use svc_base::Cents;

/// The parts of an escrow analysis, in cents: what exceeds the target balance, what lacks to it,
/// and the amount of a negative balance (12 CFR 1024.17(b)).
#[derive(Clone, Copy, Debug, PartialEq, Eq)]
pub struct Parts {
    pub surplus: Cents,
    pub short: Cents,
    pub deficient: Cents,
}

/// The parts of a balance against its target.
#[tactic(auto, using(std::proofs::lemmas::Int::ints, std::proofs::lemmas::Int::clamps))]
pub fn split(balance: Cents, target: Cents) -> Parts
    requires target_low { pos 0 ≤ℤ target }
    requires target_high { target ≤ℤ pos (10 ^ 18) }
    requires balance_low { pos 0 ≤ℤ (balance +ℤ pos (10 ^ 18)) }
    requires balance_high { balance ≤ℤ pos (10 ^ 18) }
    ensures value { result ≡ parts.escrow_parts balance target }
    ensures limits { parts.AreParts result }
{
    Parts {
        surplus: surplus(balance, target),
        short: shortage(balance, target),
        deficient: deficiency(balance),
    }
}

/// What exceeds the target.
#[tactic(auto, using(std::proofs::lemmas::Int::ints, std::proofs::lemmas::Int::clamps), unfolding(crate::specs::Parts::surplus))]
fn surplus(balance: Cents, target: Cents) -> Cents
    requires target_low { pos 0 ≤ℤ target }
    requires target_high { target ≤ℤ pos (10 ^ 18) }
    requires balance_low { pos 0 ≤ℤ (balance +ℤ pos (10 ^ 18)) }
    requires balance_high { balance ≤ℤ pos (10 ^ 18) }
    ensures value { result ≡ parts.surplus balance target }
    ensures low { pos 0 ≤ℤ result }
    ensures high { result ≤ℤ pos (10 ^ 18) }
{
    (balance - target).max(0)
}

/// What a balance lacks to the target, a negative one as much as one of 0.
#[tactic(auto, using(std::proofs::lemmas::Int::ints, std::proofs::lemmas::Int::clamps), unfolding(crate::specs::Parts::shortage))]
fn shortage(balance: Cents, target: Cents) -> Cents
    requires target_low { pos 0 ≤ℤ target }
    requires target_high { target ≤ℤ pos (10 ^ 18) }
    requires balance_low { pos 0 ≤ℤ (balance +ℤ pos (10 ^ 18)) }
    requires balance_high { balance ≤ℤ pos (10 ^ 18) }
    ensures value { result ≡ parts.shortage balance target }
    ensures low { pos 0 ≤ℤ result }
    ensures high { result ≤ℤ pos (10 ^ 18) }
{
    (target - balance.max(0)).max(0)
}

/// The amount of a negative balance.
#[tactic(auto, using(std::proofs::lemmas::Int::ints, std::proofs::lemmas::Int::clamps), unfolding(crate::specs::Parts::deficiency))]
fn deficiency(balance: Cents) -> Cents
    requires balance_low { pos 0 ≤ℤ (balance +ℤ pos (10 ^ 18)) }
    requires balance_high { balance ≤ℤ pos (10 ^ 18) }
    ensures value { result ≡ parts.deficiency balance }
    ensures low { pos 0 ≤ℤ result }
    ensures high { result ≤ℤ pos (10 ^ 18) }
{
    (0 - balance).max(0)
}
