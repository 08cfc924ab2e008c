//! What the accepted commands under their keys mean.

ghost use Rattle.std.specs.Prelude.{◌≡◌, ℕ, List, ◌∷◌, ◌++◌, [], length};
ghost use Rattle.svc_world.specs.World.{Accepted, world};
ghost use Rattle.svc_world.specs.Judging.{known, next_reply};
ghost use Rattle.svc_core.specs.Posted.{known_among, replies_to};

/// Where each kept reply is the one that its history gives, what a key finds is what the history knows
/// of it; and one command more has the next reply. It does nothing.
pub fn replies_are_known()
    ensures known { (h : List Accepted) (key : List ℕ) → known h key ≡ known_among h (replies_to h) key }
    ensures next { (h : List Accepted) (a : Accepted)
        → replies_to (h ++ a ∷ []) ≡ replies_to h ++ next_reply h a.command ∷ [] }
{}
