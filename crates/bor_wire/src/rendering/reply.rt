//! Whole replies.

ghost use Rattle.std.specs.Prelude.{◌≡◌, ◌≤◌, [], false, None, IfOk, vec_capacity};
ghost use Rattle.bor_desk.specs.Laws.{is_long};
ghost use Rattle.bor_wire.specs.Rendering.Limits.{reserved};
ghost use Rattle.bor_wire.specs.Rendering.Replies.{refused, answered, wrong_method, reply_bytes, bytes_of};

use crate::rendering::body::{body_of, into_body};
use crate::rendering::head::{HEAD_ROOM, desk_status, put_head_before, refusal_status};
use crate::rendering::short::{put_body, put_wire_refusal};
use bor_desk::DeskReply;
use bor_http::incoming::{Path, Refusal};
use http::StatusCode;
use std::alloc::{AllocError, Global};

/// The bytes to reserve for the reply to a change before the desk is asked: no such reply, and no
/// refusal, is longer.
pub const RESERVED: usize = 512;

/// The reply where the store failed or memory was wanting.
pub const UNAVAILABLE: &[u8] =
    b"HTTP/1.1 503 Service Unavailable\r\nContent-Type: application/json\r\nContent-Length: 24\r\nConnection: close\r\n\r\n{\"refusal\":\"StoreFault\"}";

/// Whether a reply is to a request that only reads, a refusal apart: then it may be of any length.
pub fn is_long(reply: &DeskReply) -> bool
    ensures { result ≡ is_long reply.now }
{
    matches!(
        reply,
        DeskReply::Filings(_)
            | DeskReply::File(_)
            | DeskReply::Published(_)
            | DeskReply::Snapshot { .. }
            | DeskReply::Chains { .. }
            | DeskReply::Evidence { .. }
            | DeskReply::Entities { .. }
            | DeskReply::Register { .. }
    )
}

// A body with its head before it, in the body's own buffer.
fn with_head(mut body: Vec<u8>, status: StatusCode) -> Result<Vec<u8>, AllocError>
    ensures { IfOk result (λ out. out.items ≡ reply_bytes status None body.items) }
{
    body.reserve_exact(HEAD_ROOM)?;
    put_head_before(&mut body, status, None);
    Ok(body)
}

/// The bytes of what the desk replies, of whatever length.
///
/// # Errors
///
/// Memory was wanting.
pub fn render(alloc: Global, reply: &DeskReply) -> Result<Vec<u8>, AllocError>
    ensures { IfOk result (λ out. out.items ≡ bytes_of (answered reply.now)) }
{
    with_head(body_of(alloc, reply)?, desk_status(reply))
}

/// The same of a reply that isn't needed any more: the bytes of a file become those of the reply.
pub(crate) fn render_owned(alloc: Global, reply: DeskReply) -> Result<Vec<u8>, AllocError>
    ensures { IfOk result (λ out. out.items ≡ bytes_of (answered reply)) }
{
    let status = desk_status(&reply);
    with_head(into_body(alloc, reply)?, status)
}

/// Writes the bytes of what the desk replies to a change, or refuses, into room that was reserved.
/// It takes no memory, so it can't fail.
pub fn render_short(out: &mut Vec<u8>, reply: &DeskReply)
    requires room { reserved ≤ vec_capacity out.old }
    requires empty { out.old.items ≡ [] }
    requires short { is_long reply.now ≡ false }
    ensures { out.new.items ≡ bytes_of (answered reply.now) }
{
    put_body(out, reply);
    put_head_before(out, desk_status(reply), None);
}

fn wrong_method(refusal: Refusal) -> Option<Path>
    ensures { result ≡ wrong_method refusal }
{
    match refusal {
        Refusal::WrongMethod(path) => Some(path),
        _ => None,
    }
}

/// Writes the bytes of the reply to bytes that spell no request into room that was reserved. It
/// takes no memory, so it can't fail.
pub fn render_refusal(out: &mut Vec<u8>, refusal: Refusal)
    requires room { reserved ≤ vec_capacity out.old }
    requires empty { out.old.items ≡ [] }
    ensures { out.new.items ≡ bytes_of (refused refusal) }
{
    put_wire_refusal(out, refusal);
    put_head_before(out, refusal_status(refusal), wrong_method(refusal));
}
