//! Laws of links, for those that read what `serve_one` says.

ghost use Rattle.std.specs.Prelude.{◌≡◌, ℕ, ◌++◌, List, Option};
ghost use Rattle.serv_http.specs.declared.ask.Ask.{Ask};
ghost use Rattle.serv_http.specs.Streams.{AsksTo};
ghost use Rattle.svc_world.specs.World.{Accepted};
ghost use Rattle.serv_disk.specs.Faults.{HasRisen, IsProperPrefix};
ghost use Rattle.serv_links.specs.declared.meaning.Meaning.{Meaning};
ghost use Rattle.serv_links.specs.Meanings.{Means};
ghost use Rattle.serv_machine.specs.History.{Stand};
ghost use Rattle.serv_links.specs.Outcomes.{AreInFront, IsCutOff};
ghost use Rattle.serv_links.specs.Links.{IsAll};

use serv_machine::Stop;

/// Bytes are answered in one way, whatever the pieces in which they came: as many responses, with the same
/// bytes, the same history after them, and the same rest. And where only the first of them were answered,
/// those are the first of all; where a write failed, what is written is a proper prefix of all responses.
pub fn any_pieces()
    ensures same { (n m : ℕ) (taken added more : List ℕ) (s t u : Stand) (l k : Option (List ℕ))
        → IsAll n taken added s t l → IsAll m taken more s u k
        → (n ≡ m) × (added ≡ more) × (t.history ≡ u.history) × (l ≡ k) }
    ensures first { (taken : List ℕ) (done asks : List Ask) (l : Option (List ℕ))
        → AreInFront taken done → AsksTo taken asks l → (more : List Ask) × (asks ≡ done ++ more) }
    ensures cut { (n m : ℕ) (taken added whole : List ℕ) (s t u : Stand) (pending : List Accepted)
        (l : Option (List ℕ)) (before after : ℕ)
        → IsCutOff (AreInFront taken) (HasRisen before after) Stop.WriteFault n s t pending added
        → IsAll m taken whole s u l → IsProperPrefix added whole }
    ensures means { (a : Ask) (m k : Meaning) → Means a m → Means a k → m ≡ k }
{}
