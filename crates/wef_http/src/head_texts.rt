//! Heads of messages, as texts.

ghost use Rattle.std.specs.Prelude.{◌≡◌, true, IfOk, string_bytes};
ghost use Rattle.wef_http.specs.Written.{allowed, answer_fields, charset_name, fields, has_body, is_status, reason, refusal_fields, request_head, response_head};

use std::alloc::{AllocError, Global};
use wef_base::{Charset, Text};

/// The head of a request whose body has so many bytes.
pub fn request_head(
    alloc: Global,
    host: &Text,
    path: &Text,
    size: usize,
) -> Result<String, AllocError>
    ensures { IfOk result (λ head. string_bytes head ≡ request_head host.now path.now size) }
{
    format!(in alloc;
        "POST {path} HTTP/1.1\r\nHost: {host}\r\nContent-Type: application/soap+xml;charset=UTF-8\r\nContent-Length: {size}\r\nConnection: close\r\n\r\n"
    )
}

/// The head of a response whose body has so many bytes.
pub fn response_head(
    alloc: Global,
    status: u16,
    charset: Charset,
    size: usize,
) -> Result<String, AllocError>
    requires { is_status status ≡ true }
    ensures { IfOk result (λ head. string_bytes head ≡ response_head status charset size) }
{
    let reason = reason(status);
    let fields = fields(alloc, status, charset, size)?;
    format!(in alloc; "HTTP/1.1 {status} {reason}\r\n{fields}\r\n")
}

fn fields(alloc: Global, status: u16, charset: Charset, size: usize) -> Result<String, AllocError>
    ensures { IfOk result (λ text. string_bytes text ≡ fields status charset size) }
{
    if has_body(status) {
        answer_fields(alloc, charset, size)
    } else if status == 204 {
        Ok(String::new(alloc))
    } else {
        refusal_fields(alloc, status)
    }
}

fn answer_fields(alloc: Global, charset: Charset, size: usize) -> Result<String, AllocError>
    ensures { IfOk result (λ text. string_bytes text ≡ answer_fields charset size) }
{
    let charset = charset_name(charset);
    format!(in alloc;
        "Content-Type: application/soap+xml;charset={charset}\r\nContent-Length: {size}\r\n"
    )
}

fn refusal_fields(alloc: Global, status: u16) -> Result<String, AllocError>
    ensures { IfOk result (λ text. string_bytes text ≡ refusal_fields status) }
{
    let allowed = allowed(status);
    format!(in alloc; "{allowed}Content-Length: 0\r\nConnection: close\r\n")
}

/// Whether a response is an answer, which has a body.
pub fn has_body(status: u16) -> bool
    ensures { result ≡ has_body status }
{
    status == 200 || status == 500
}

/// What a status says in words.
#[tactic(auto, unfolding(crate::specs::Written::reason))]
fn reason(status: u16) -> &'static str
    requires { is_status status ≡ true }
    ensures { result.now ≡ reason status }
{
    match status {
        200 => "OK",
        204 => "No Content",
        400 => "Bad Request",
        404 => "Not Found",
        405 => "Method Not Allowed",
        411 => "Length Required",
        413 => "Content Too Large",
        415 => "Unsupported Media Type",
        _ => "Internal Server Error",
    }
}

/// The field that says which methods are allowed, where another one was refused.
fn allowed(status: u16) -> &'static str
    ensures { result.now ≡ allowed status }
{
    if status == 405 { "Allow: POST\r\n" } else { "" }
}

fn charset_name(charset: Charset) -> &'static str
    ensures { result.now ≡ charset_name charset }
{
    match charset {
        Charset::Utf8 => "UTF-8",
        Charset::Utf16 => "UTF-16",
    }
}
