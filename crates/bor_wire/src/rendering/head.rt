//! The statuses and the heads of replies.

ghost use Rattle.std.specs.Prelude.{◌≡◌, ◌≤◌, ◌+◌, ◌++◌, length, vec_len, vec_capacity};
ghost use Rattle.bor_wire.specs.Rendering.Limits.{head_room};
ghost use Rattle.bor_wire.specs.Rendering.Heads.{phrase, status_line, field_line, own_line, head_bytes};
ghost use Rattle.bor_wire.specs.Rendering.Replies.{reply_bytes};
ghost use Rattle.bor_wire.specs.Rendering.Statuses.{wire_refusal_status, desk_refusal_status, desk_status};

use crate::rendering::room::put;
use bor_desk::DeskReply;
use bor_http::incoming::{Path, Refusal};
use bor_http::routes::allow_of;
use http::StatusCode;
use itoa::Buffer;

/// No head is longer.
pub(crate) const HEAD_ROOM: usize = 192;

/// The status of the reply to bytes that spell no request.
pub fn refusal_status(refusal: Refusal) -> StatusCode
    ensures { result ≡ wire_refusal_status refusal }
{
    match refusal {
        Refusal::HeadTooLarge => StatusCode::REQUEST_HEADER_FIELDS_TOO_LARGE,
        Refusal::CutShort | Refusal::BadHead | Refusal::BadLength | Refusal::BadQuery(_) => {
            StatusCode::BAD_REQUEST
        }
        Refusal::BodyTooLarge => StatusCode::PAYLOAD_TOO_LARGE,
        Refusal::NoPath => StatusCode::NOT_FOUND,
        Refusal::WrongMethod(_) => StatusCode::METHOD_NOT_ALLOWED,
        Refusal::NoToken => StatusCode::UNAUTHORIZED,
    }
}

fn desk_refusal_status(refusal: bor_desk::Refusal) -> StatusCode
    ensures { result ≡ desk_refusal_status refusal }
{
    match refusal {
        bor_desk::Refusal::NoAgent => StatusCode::UNAUTHORIZED,
        bor_desk::Refusal::NotRegistrar | bor_desk::Refusal::NotAgent => StatusCode::FORBIDDEN,
        bor_desk::Refusal::NoSuchFiling
        | bor_desk::Refusal::NoEntity
        | bor_desk::Refusal::NoSuchAgent => StatusCode::NOT_FOUND,
        bor_desk::Refusal::KeyReused
        | bor_desk::Refusal::FilingsFull
        | bor_desk::Refusal::Published
        | bor_desk::Refusal::HasSuccessor
        | bor_desk::Refusal::DayBack
        | bor_desk::Refusal::NameTaken
        | bor_desk::Refusal::TokenTaken => StatusCode::CONFLICT,
        bor_desk::Refusal::DuePast
        | bor_desk::Refusal::Read(_)
        | bor_desk::Refusal::StatementTwice(_)
        | bor_desk::Refusal::Record { .. } => StatusCode::UNPROCESSABLE_ENTITY,
    }
}

/// The status of what the desk replies.
pub fn desk_status(reply: &DeskReply) -> StatusCode
    ensures { result ≡ desk_status reply.now }
{
    match reply {
        DeskReply::Lodged(lodged) if lodged.fresh => StatusCode::CREATED,
        DeskReply::Enrolled(_) => StatusCode::CREATED,
        DeskReply::Refused(refusal) => desk_refusal_status(*refusal),
        DeskReply::Failed(_) => StatusCode::SERVICE_UNAVAILABLE,
        _ => StatusCode::OK,
    }
}

#[tactic(auto, unfolding(crate::specs::Rendering::Heads::phrase))]
fn phrase_of(status: StatusCode) -> &'static str
    ensures { result.now ≡ phrase status }
{
    status.canonical_reason().unwrap_or("")
}

#[tactic(auto, unfolding(crate::specs::Rendering::Heads::status_line), using(crate::proofs::OnRendering::Phrases::phrase_short))]
fn put_status_line(out: &mut Vec<u8>, status: StatusCode)
    requires { vec_len out.old + 46 ≤ vec_capacity out.old }
    ensures items { out.new.items ≡ out.old.items ++ status_line status }
    ensures len { vec_len out.new ≤ vec_len out.old + 46 }
    ensures capacity { vec_capacity out.old ≤ vec_capacity out.new }
{
    put(out, b"HTTP/1.1 ");
    put(out, status.as_str().as_bytes());
    put(out, b" ");
    put(out, phrase_of(status).as_bytes());
    put(out, b"\r\n");
}

#[tactic(auto, unfolding(crate::specs::Rendering::Heads::field_line))]
fn put_field_line(out: &mut Vec<u8>, name: &str, value: &str)
    requires { vec_len out.old + (length name.now + length value.now + 4) ≤ vec_capacity out.old }
    ensures items { out.new.items ≡ out.old.items ++ field_line name.now value.now }
    ensures len { vec_len out.new ≤ vec_len out.old + (length name.now + length value.now + 4) }
    ensures capacity { vec_capacity out.old ≤ vec_capacity out.new }
{
    put(out, name.as_bytes());
    put(out, b": ");
    put(out, value.as_bytes());
    put(out, b"\r\n");
}

#[tactic(auto, unfolding(crate::specs::Rendering::Heads::own_line), using(crate::proofs::OnRendering::ShortTexts::allow_short))]
fn put_own_line(out: &mut Vec<u8>, status: StatusCode, wrong_method: Option<Path>)
    requires { vec_len out.old + 26 ≤ vec_capacity out.old }
    ensures items { out.new.items ≡ out.old.items ++ own_line status wrong_method }
    ensures len { vec_len out.new ≤ vec_len out.old + 26 }
    ensures capacity { vec_capacity out.old ≤ vec_capacity out.new }
{
    if let Some(path) = wrong_method {
        put_field_line(out, "Allow", allow_of(path));
    } else if status.as_u16() == 401 {
        put_field_line(out, "WWW-Authenticate", "Bearer");
    }
}

// Writes all that stands before a body of so many bytes.
#[tactic(auto, unfolding(crate::specs::Rendering::Heads::head_bytes))]
fn put_head(out: &mut Vec<u8>, status: StatusCode, wrong_method: Option<Path>, len: usize)
    requires { vec_len out.old + head_room ≤ vec_capacity out.old }
    ensures { out.new.items ≡ out.old.items ++ head_bytes status wrong_method len }
{
    let mut digits = Buffer::new();
    put_status_line(out, status);
    put_field_line(out, "Content-Type", "application/json");
    put_field_line(out, "Content-Length", digits.format(len));
    put_own_line(out, status, wrong_method);
    put_field_line(out, "Connection", "close");
    put(out, b"\r\n");
}

/// Writes the head of a reply before its body, which is already there: the body's length is then
/// known, and no second buffer is needed.
pub(crate) fn put_head_before(out: &mut Vec<u8>, status: StatusCode, wrong_method: Option<Path>)
    requires { vec_len out.old + head_room ≤ vec_capacity out.old }
    ensures { out.new.items ≡ reply_bytes status wrong_method out.old.items }
{
    let len = out.len();
    put_head(out, status, wrong_method, len);
    out.rotate_left(len);
}
