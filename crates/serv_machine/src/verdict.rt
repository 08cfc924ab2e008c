//! What a request is answered with, and its text.

ghost use Rattle.std.specs.Prelude.{◌≡◌, ◌++◌, OnErr, OnOk};
ghost use Rattle.serv_machine.specs.Verdicts.{IsFit, text_of_verdict};

use serv_line::{push_full, push_refusal, push_reply};
use serv_report::push_answer;
use svc_base::OutOfMemory;
use svc_types::{Refusal, Reply};
use svc_world::Answer;

/// What a request is answered with.
#[derive(Drop)]
pub enum Verdict {
    /// The reply to an accepted command.
    Reply(Reply),
    /// The rule that refuses it.
    Refused(Refusal),
    /// The journal of so many bytes has no room for it.
    Full(u64),
    /// The answer to a query.
    Answer(Answer),
}

/// Appends the text of a verdict. Where it errs nothing is appended.
pub fn push_verdict(out: &mut Vec<u8>, verdict: &Verdict) -> Result<(), OutOfMemory>
    requires { IsFit verdict.now }
    ensures pushed { OnOk result (out.new.items ≡ out.old.items ++ text_of_verdict verdict.now) }
    ensures kept { OnErr result (out.new.items ≡ out.old.items) }
{
    match verdict {
        Verdict::Reply(reply) => push_reply(out, reply),
        Verdict::Refused(why) => push_refusal(out, why),
        Verdict::Full(bytes) => push_full(out, *bytes),
        Verdict::Answer(answer) => push_answer(out, answer),
    }
}
