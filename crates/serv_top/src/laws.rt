//! What lines and files say, and what is said to them.

ghost use Rattle.std.specs.Prelude.{◌≡◌, ℕ, ◌^◌, ◌≤◌, List, [], length};
ghost use Rattle.svc_world.specs.World.{Accepted};
ghost use Rattle.svc_world.specs.Judging.{IsHistory};
ghost use Rattle.serv_engine.specs.Histories.{lines_of_history};
ghost use Rattle.serv_engine.specs.Opening.{IsTooLong};
ghost use Rattle.serv_texts.specs.Journal.{journal_limit};
ghost use Rattle.serv_top.specs.Lines.{ended_lines, lines_of, Says};
ghost use Rattle.serv_texts.specs.Extracts.{lines_of_commands};
ghost use Rattle.serv_top.specs.Outcome.{AreTakenOn, HasRoomFor, IsCutAt, IsCutOff};
ghost use Rattle.serv_top.specs.Imported.{FileSays};
ghost use Rattle.serv_machine.specs.History.{Stand};
ghost use Rattle.serv_machine.specs.Sayings.{AreFirst, Say, SaidFirst, Saying, replies_to};
ghost use Rattle.serv_machine.specs.declared.faults.Stop.{Stop};
ghost use Rattle.serv_machine.specs.Answering.{AnsweredBut, Answers, IsCutIn};

/// A line says one thing. So lines have one text of replies over a history, and one history after them;
/// and a front part of their replies is some whole ones and a part of the next one. It does nothing.
pub fn lines_have_one_answer()
    ensures says { (line : List ℕ) (s t : Saying) → Says line s → Says line t → s ≡ t }
    ensures answers { (lines : List (List ℕ)) (s a b : Stand) (x y : List ℕ)
        → Answers (Say Says lines) s a x → Answers (Say Says lines) s b y → (x ≡ y) × (a.history ≡ b.history) }
    ensures cut { (waiting : ℕ) (lines : List (List ℕ)) (s t : Stand) (written : List ℕ)
        → IsCutIn (AreFirst (SaidFirst Says lines)) waiting s t written
        → IsCutAt (AreFirst (SaidFirst Says lines)) s.history written }
{}

/// Over a journal no reply waits but the last one. So where a write, the disk or memory fails, all replies to what the
/// disk has, but for the last one of them, are whole; those of a file's rows too. It does nothing.
pub fn replies_are_whole()
    ensures cut { (lines : List (List ℕ)) (s t : Stand) (written : List ℕ)
        → IsCutIn (AreFirst (SaidFirst Says lines)) 0 s t written
        → IsCutOff (AreFirst (SaidFirst Says lines)) s t written }
    ensures cut_rows { (saids : List Saying) (s t : Stand) (written : List ℕ)
        → IsCutIn (AreFirst (λ said. said ≡ saids)) 0 s t written
        → IsCutOff (AreFirst (λ said. said ≡ saids)) s t written }
    ensures stopped { (why : Stop) (lines : List (List ℕ)) (s t : Stand) (pending : List Accepted) (written : List ℕ)
        (but : AnsweredBut why (AreFirst (SaidFirst Says lines)) 0 s t pending written)
        → written ≡ replies_to s.history but.done }
{}

/// A file says one thing. It does nothing.
pub fn files_say_one_thing()
    ensures { (bytes : List ℕ) (s t : List Saying) → FileSays bytes s → FileSays bytes t → s ≡ t }
{}

/// The lines of a history's commands are read back as they stand: a stream of them has these lines and no other; and
/// where they are acted on from no commands on, with room for all, each is accepted in its turn. So what `transfer` and
/// `remain` write, `apply` takes on. It does nothing.
pub fn histories_are_taken_on()
    ensures ended { (h : List Accepted) → IsHistory h → ended_lines (lines_of_commands h) ≡ lines_of_history h }
    ensures lines { (h : List Accepted) → IsHistory h → lines_of (lines_of_commands h) ≡ lines_of_history h }
    ensures taken_on { (h : List Accepted) (s t : Stand) (written : List ℕ) → IsHistory h → s.history.commands ≡ []
        → HasRoomFor s.history.store h → Answers (Say Says (lines_of_history h)) s t written → AreTakenOn h t written }
{}

/// A journal of version 1 of at most 67,108,864 bytes always has room for its commands in version 2: it never ends a
/// run with `JournalFull`. It does nothing.
pub fn old_journals_have_room()
    ensures room { (s : List ℕ) (bytes : ℕ) → length s ≤ 2 ^ 26 → ¬ (IsTooLong journal_limit bytes s) }
{}
