//! Writing the body of a reply.

ghost use Rattle.std.specs.Prelude.{◌≡◌, IfOk};
ghost use Rattle.std.specs.Str.{IsAscii};
ghost use Rattle.serde_json.specs.View.{view};
ghost use Rattle.serv_json.specs.Replies.{reply_text, reply_value};

use serde_json::{Value, json};
use std::alloc::{AllocError, Global};
use svc_base::OutOfMemory;

/// The body of a reply, with its code (0 where it refuses nothing), the accepted command's number
/// where there is one, and its text. Errs only where memory is short.
#[tactic(auto, using(crate::proofs::ReplyLemmas::reply_whole, crate::proofs::ReplyLemmas::reply_bytes))]
pub fn write_json(
    alloc: Global,
    code: u32,
    number: Option<u32>,
    text: &[u8],
) -> Result<Vec<u8>, OutOfMemory>
    requires { IsAscii text.now }
    ensures { IfOk result (λ body. body.items ≡ reply_text code number text.now) }
{
    let body = reply(alloc, code, number, ascii(text))?;
    Ok(body.to_vec(alloc)?)
}

/// ASCII bytes as a text.
#[tactic(auto, using(crate::proofs::ReplyLemmas::ascii_texts))]
fn ascii(text: &[u8]) -> &str
    requires { IsAscii text.now }
    ensures { result.now ≡ text.now }
{
    match std::str::from_utf8(text) {
        Ok(text) => text,
        Err(_) => unreachable!(),
    }
}

/// A reply as a JSON value.
fn reply(alloc: Global, code: u32, number: Option<u32>, text: &str) -> Result<Value, AllocError>
    ensures { IfOk result (λ v. view v ≡ reply_value code number text.now) }
{
    match number {
        Some(number) => json!(in alloc; {"code": code, "number": number, "text": text}),
        None => json!(in alloc; {"code": code, "text": text}),
    }
}
