//! The bytes of a response.

ghost use Rattle.std.specs.Prelude.{◌≡◌, IfOk, OnOk, ◌++◌, ◌<◌, is_some, false, ◌==◌, []};
ghost use Rattle.http.specs.StatusCode.{IsStatusCode};
ghost use Rattle.serv_http.specs.Responses as responses;

use crate::ask::Allow;
use http::StatusCode;
use std::alloc::Global;
use svc_base::OutOfMemory;

/// Appends bytes.
fn push(out: &mut Vec<u8>, bytes: &[u8]) -> Result<(), OutOfMemory>
    ensures { OnOk result (out.new.items ≡ out.old.items ++ bytes.now) }
{
    Ok(out.extend_from_slice(bytes)?)
}

/// The phrase of a status.
fn phrase_of(status: u16) -> &'static str
    requires { IsStatusCode status }
    ensures { result.now ≡ responses.phrase_of status }
{
    let Ok(code) = StatusCode::from_u16(status) else {
        return "";
    };
    match code.canonical_reason() {
        Some(phrase) => phrase,
        None => "",
    }
}

/// Appends the status line.
fn push_status(out: &mut Vec<u8>, status: u16) -> Result<(), OutOfMemory>
    requires { IsStatusCode status }
    ensures { OnOk result (out.new.items ≡ out.old.items ++ responses.status_line status) }
{
    let digits = [
        b'0' + (status / 100) as u8,
        b'0' + (status / 10 % 10) as u8,
        b'0' + (status % 10) as u8,
    ];
    push(out, b"HTTP/1.1 ")?;
    push(out, &digits)?;
    push(out, b" ")?;
    push(out, phrase_of(status).as_bytes())?;
    push(out, b"\r\n")?;
    Ok(())
}

/// Appends the line that names the method of a route.
fn push_allow(out: &mut Vec<u8>, allow: Option<Allow>) -> Result<(), OutOfMemory>
    ensures { OnOk result (out.new.items ≡ out.old.items ++ responses.allow_line allow) }
{
    match allow {
        Some(Allow::Get) => push(out, b"Allow: GET\r\n"),
        Some(Allow::Post) => push(out, b"Allow: POST\r\n"),
        None => push(out, b""),
    }
}

/// Appends the line that says that the connection ends.
fn push_close(out: &mut Vec<u8>, ends: bool) -> Result<(), OutOfMemory>
    ensures { OnOk result (out.new.items ≡ out.old.items ++ responses.close_line ends) }
{
    if ends {
        push(out, b"Connection: close\r\n")
    } else {
        push(out, b"")
    }
}

/// Appends the line of the body's type, where there is a body.
fn push_type(out: &mut Vec<u8>, body: &[u8]) -> Result<(), OutOfMemory>
    ensures { OnOk result (out.new.items ≡ out.old.items ++ responses.type_line body.now) }
{
    if body.is_empty() {
        push(out, b"")
    } else {
        push(out, b"Content-Type: application/json\r\n")
    }
}

/// Appends the lines of the body's length and type, the empty line, and the body.
fn push_body(alloc: Global, out: &mut Vec<u8>, body: &[u8]) -> Result<(), OutOfMemory>
    ensures { OnOk result (out.new.items ≡ out.old.items ++ responses.body_lines body.now) }
{
    let size = format!(in alloc; "{}", body.len())?;
    push(out, b"Content-Length: ")?;
    push(out, size.as_bytes())?;
    push(out, b"\r\n")?;
    push_type(out, body)?;
    push(out, b"\r\n")?;
    push(out, body)?;
    Ok(())
}

/// A response: the status line, `Allow` with 405, `Connection: close` where the connection ends,
/// the length and the type of the body, and the body. It fails for want of memory alone.
pub fn respond(
    alloc: Global,
    status: u16,
    body: &[u8],
    ends: bool,
    allow: Option<Allow>,
) -> Result<Vec<u8>, OutOfMemory>
    requires status { responses.IsSent status }
    requires body { responses.has_body status ≡ false → body.now ≡ [] }
    requires allow { is_some allow ≡ (status == 405) }
    ensures { IfOk result (λ bytes. bytes.items ≡ responses.response status body.now ends allow) }
{
    let mut out = Vec::new(alloc);
    push_status(&mut out, status)?;
    push_allow(&mut out, allow)?;
    push_close(&mut out, ends)?;
    push_body(alloc, &mut out, body)?;
    Ok(out)
}
