//! What holds of the bytes of each text of a reply, as a theorem: the function has no code.

ghost use Rattle.std.specs.Prelude.{ℕ};
ghost use Rattle.std.specs.Str.{IsAscii};
ghost use Rattle.svc_types.specs.declared.replies.Refusal.{Refusal};
ghost use Rattle.svc_types.specs.declared.replies.Reply.{Reply};
ghost use Rattle.svc_world.specs.declared.answer.Answer.{Answer};
ghost use Rattle.serv_line.specs.Refusals.{text_of_refusal};
ghost use Rattle.serv_line.specs.Replies.{text_of_full, text_of_reply};
ghost use Rattle.serv_report.specs.AnswerTexts.{IsSpellable, text_of_answer};
ghost use Rattle.serv_ascii.specs.Reach.{IsReachedAnswer, IsReachedRefusal};

/// Each byte of a reply, of a refusal and of an answer is below 128, where the books reach the days and
/// months that it names. They reach each that a value of `Refusal` or `Answer` has
/// (`reach_refusal`, `reach_answer`).
pub fn texts_are_ascii()
    ensures replies { (r : Reply) → IsAscii (text_of_reply r) }
    ensures refusals { (r : Refusal) → IsReachedRefusal r → IsAscii (text_of_refusal r) }
    ensures full { (bytes : ℕ) → IsAscii (text_of_full bytes) }
    ensures answers { (a : Answer) → IsSpellable a → IsReachedAnswer a → IsAscii (text_of_answer a) }
{}
