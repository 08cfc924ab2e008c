//! What holds of each answer and of each reply after every history, as a theorem: the function has no code.

ghost use Rattle.std.specs.Prelude.{◌≡◌, ℕ, List, Some};
ghost use Rattle.svc_types.specs.declared.requests.Command.{Command};
ghost use Rattle.svc_types.specs.declared.requests.Query.{Query};
ghost use Rattle.svc_world.specs.declared.answer.Answer.{Answer};
ghost use Rattle.svc_world.specs.Answers.{answer_to};
ghost use Rattle.svc_world.specs.Judging.{Fresh, IsHistory, judged, next_reply};
ghost use Rattle.svc_world.specs.World.{Accepted};
ghost use Rattle.serv_report.specs.AnswerTexts.{IsSpellable};
ghost use Rattle.serv_report.specs.PostingSigns.{IsUnsignedReply};

/// After every history each answer to a query has a text: nothing that the text says without a sign is below 0, of a command
/// with its reply too, and the months of an escrow analysis have names. Nor is anything below 0 that the reply to the next
/// command says without a sign.
pub fn answers_are_spellable()
    ensures answers { (h : List Accepted) (q : Query) (a : Answer) → IsHistory h → answer_to h q ≡ Some a → IsSpellable a }
    ensures replies { (h : List Accepted) (key : List ℕ) (c : Command) → IsHistory h → judged h key c ≡ Fresh
        → IsUnsignedReply (next_reply h c) }
{}
