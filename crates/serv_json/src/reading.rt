//! Reading the command that a body asks for.

ghost use Rattle.std.specs.Prelude.{◌≡◌, IfOk, IfErr, IfSome, IfNone, Ok, Err};
ghost use Rattle.serde_json.specs.View.{view};
ghost use Rattle.svc_types.specs.Requests.{IsRequest};
ghost use Rattle.svc_types.specs.declared.requests.Request as requests;
ghost use Rattle.serv_json.specs.Bodies.{IsBodyOf};
ghost use Rattle.serv_json.specs.FieldsRead.{HasBody};

use crate::members::{read_values, text_at};
use serde_json::Value;
use std::alloc::Global;
use svc_forms::{command_of, form_named};
use svc_types::{Request, read_key};
use thiserror::Error;

/// Why a body is not read.
#[derive(Clone, Copy, Debug, PartialEq, Eq, Error)]
pub enum JsonFault {
    /// The body is no command's.
    #[error("the body is no command")]
    NotRequest,
    /// Memory that the call asked for was not to be had.
    #[error("out of memory")]
    OutOfMemory,
}

/// The command that a body asks for: a JSON object that has exactly the members `key`, `do` and one for
/// each field of the command, in any order. Numbers are integers, all else are strings. Of members with
/// one name the last stands. A body asks for one command at most, and for no query. `NotRequest` comes
/// exactly where it asks for none.
pub fn read_json(alloc: Global, body: &[u8]) -> Result<Request, JsonFault>
    ensures well { IfOk result IsRequest }
    ensures read { IfOk result (λ r. IsBodyOf r body.now) }
    ensures only { IfOk result (λ r. (s : requests.Request) → IsRequest s → IsBodyOf s body.now → s ≡ r) }
    ensures refused { result ≡ Err JsonFault.NotRequest
        → (r : requests.Request) → IsRequest r → ¬ (IsBodyOf r body.now) }
{
    match Value::from_slice(alloc, body) {
        Ok(value) => match request_of(&value) {
            Some(request) => Ok(request),
            None => Err(JsonFault::NotRequest),
        },
        Err(fault) => if fault.is_memory() {
            Err(JsonFault::OutOfMemory)
        } else {
            Err(JsonFault::NotRequest)
        },
    }
}

/// The command that a JSON value asks for.
fn request_of(body: &Value) -> Option<Request>
    ensures well { IfSome result IsRequest }
    ensures read { IfSome result (HasBody (view body.now)) }
    ensures none { IfNone result ((r : requests.Request) → IsRequest r → ¬ (HasBody (view body.now) r)) }
{
    let key = read_key(text_at(body, "key")?)?;
    let form = form_named(text_at(body, "do")?)?;
    let values = read_values(body, form.fields())?;
    Some(Request::Do(key, command_of(form, &values)))
}
