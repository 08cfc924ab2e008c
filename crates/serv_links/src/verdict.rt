//! The response that says a verdict.

ghost use Rattle.std.specs.Prelude.{◌≡◌, false, true, ◌==◌, IfOk, None};
ghost use Rattle.std.specs.Str.{IsAscii};
ghost use Rattle.serv_report.specs.AnswerTexts.{IsSpellable};
ghost use Rattle.serv_json.specs.Replies.{reply_text};
ghost use Rattle.serv_http.specs.Responses as responses;
ghost use Rattle.serv_machine.specs.declared.verdict.Verdict.TheVariants as verdict;
ghost use Rattle.serv_machine.specs.Verdicts.{IsFit};
ghost use Rattle.serv_links.specs.Meanings.{response_of, without_last};

use serv_ascii::{reach_answer, reach_refusal};
use serv_http::respond;
use serv_json::write_json;
use serv_line::{refusal_code, write_full, write_refusal, write_reply};
use serv_machine::Verdict;
use serv_report::write_answer;
use std::alloc::Global;
use svc_base::OutOfMemory;
use svc_types::{Refusal, Reply};
use svc_world::Answer;

/// The response that says a verdict, after which the connection ends or goes on. Errs only where memory is short.
pub(crate) fn respond_verdict(
    alloc: Global,
    verdict: &Verdict,
    ends: bool,
) -> Result<Vec<u8>, OutOfMemory>
    requires { IsFit verdict.now }
    ensures { IfOk result (λ bytes. bytes.items ≡ response_of verdict.now ends) }
{
    match verdict {
        Verdict::Reply(reply) => respond_reply(alloc, reply, ends),
        Verdict::Refused(why) => respond_refusal(alloc, why, ends),
        Verdict::Full(bytes) => respond_full(alloc, *bytes, ends),
        Verdict::Answer(answer) => respond_answer(alloc, answer, ends),
    }
}

/// The response with the reply to an accepted command.
#[tactic(auto, using(serv_ascii::proofs::AsciiLemmas::reply_is_ascii), unfolding(crate::specs::Meanings::response_of))]
fn respond_reply(alloc: Global, reply: &Reply, ends: bool) -> Result<Vec<u8>, OutOfMemory>
    ensures { IfOk result (λ bytes. bytes.items ≡ response_of (verdict.Reply reply.now) ends) }
{
    let text = write_reply(alloc, reply)?;
    respond_json(alloc, 200, 0, Some(reply.number), &text, ends)
}

/// The response with the rule that refuses a request.
#[tactic(auto, using(serv_ascii::proofs::AsciiLemmas::refusal_is_ascii), unfolding(crate::specs::Meanings::response_of))]
fn respond_refusal(alloc: Global, why: &Refusal, ends: bool) -> Result<Vec<u8>, OutOfMemory>
    ensures { IfOk result (λ bytes. bytes.items ≡ response_of (verdict.Refused why.now) ends) }
{
    reach_refusal(why);
    let text = write_refusal(alloc, why)?;
    respond_json(alloc, 409, refusal_code(why), None, &text, ends)
}

/// The response that the journal of so many bytes has no room.
#[tactic(auto, using(serv_ascii::proofs::AsciiLemmas::full_is_ascii), unfolding(crate::specs::Meanings::response_of))]
fn respond_full(alloc: Global, bytes: u64, ends: bool) -> Result<Vec<u8>, OutOfMemory>
    ensures { IfOk result (λ out. out.items ≡ response_of (verdict.Full bytes) ends) }
{
    let text = write_full(alloc, bytes)?;
    respond_json(alloc, 409, 26, None, &text, ends)
}

/// The response with the answer to a query.
#[tactic(auto, using(serv_ascii::proofs::AnswerLemmas::answer_is_ascii), unfolding(crate::specs::Meanings::response_of))]
fn respond_answer(alloc: Global, answer: &Answer, ends: bool) -> Result<Vec<u8>, OutOfMemory>
    requires { IsSpellable answer.now }
    ensures { IfOk result (λ bytes. bytes.items ≡ response_of (verdict.Answer answer.now) ends) }
{
    reach_answer(answer);
    let text = write_answer(alloc, answer)?;
    respond_json(alloc, 200, 0, None, &text, ends)
}

/// A response with a reply in JSON: its code, the number of the accepted command, and the text, of which the line
/// feed is left out.
#[tactic(auto, using(crate::proofs::VerdictLemmas::ascii_fronts))]
fn respond_json(
    alloc: Global,
    status: u16,
    code: u32,
    number: Option<u32>,
    text: &[u8],
    ends: bool,
) -> Result<Vec<u8>, OutOfMemory>
    requires ascii { IsAscii text.now }
    requires sent { responses.IsSent status }
    requires body { responses.has_body status ≡ true }
    requires no_allow { false ≡ (status == 405) }
    ensures { IfOk result (λ bytes. bytes.items
        ≡ responses.response status (reply_text code number (without_last text.now)) ends None) }
{
    let front = &text[..text.len().saturating_sub(1)];
    let body = write_json(alloc, code, number, front)?;
    respond(alloc, status, &body, ends, None)
}
