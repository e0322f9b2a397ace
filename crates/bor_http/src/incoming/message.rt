//! The message that bytes are: its head, taken apart, and its body; and bytes split at one of them.

ghost use Rattle.std.specs.Prelude.{◌≡◌, ◌≤◌, IfOk};
ghost use Rattle.std.specs.Option.{option_map};
ghost use Rattle.bor_http.specs.Incoming.Head.{line_feeds, line_limit};
ghost use Rattle.bor_http.specs.Incoming.Message.{only_value};
ghost use Rattle.bor_http.specs.Incoming.Progress.{IsHeadOf};
ghost use Rattle.bor_http.specs.Incoming.Reading.{IsReadAs};
ghost use Rattle.bor_http.specs.Incoming.Steps.{AreWithin, HeadAnswers, parts_at};
ghost use Rattle.bor_http.specs.Incoming.Splitting.{before_byte, behind_byte};

use crate::incoming::fault::{Refusal, WireFault};
use crate::incoming::head::{count_named, find_value};
use crate::incoming::progress::Progress;
use httparse::Status;
use httparse::spans::{EMPTY_HEADER_SPAN, HeaderSpan, Span, parse_request};
use std::alloc::Global;
use std::marker::Model;

/// The most bytes of a head.
pub(crate) const HEAD_LIMIT: usize = 16_384;

// The most fields of a head.
const FIELD_LIMIT: usize = 64;

/// Where the parts of a head are.
#[derive(Drop)]
pub(crate) struct HeadSpans {
    pub(crate) method: Span,
    pub(crate) target: Span,
    pub(crate) fields: Vec<HeaderSpan>,
}

/// A head that has come, taken apart, and how long the request is that it begins.
#[derive(Drop)]
pub struct MessageHead {
    pub(crate) spans: HeadSpans,
    // How many bytes it has.
    pub(crate) len: usize,
    // How many the request has: those of the head, and as many behind it as the head says.
    pub(crate) needed: usize,
}

impl MessageHead {
    /// The request in the bytes that begin with this head, or that it is cut short.
    #[tactic(auto, using(crate::proofs::OnIncoming::ProgressLemmas::head_cut, crate::proofs::OnIncoming::ProgressLemmas::head_whole))]
    pub(crate) fn message<'a>(self, bytes: &'a [u8]) -> Result<RawRequest<'a>, WireFault>
        requires { IsHeadOf bytes.now self }
        ensures { IsReadAs bytes.now result }
    {
        if bytes.len() < self.needed {
            return Err(WireFault::Refused(Refusal::CutShort));
        }
        Ok(RawRequest {
            head: &bytes[..self.len],
            body: &bytes[self.len..self.needed],
            spans: self.spans,
        })
    }
}

/// Takes apart bytes that are to be one head and nothing else.
#[tactic(auto, using(crate::proofs::OnIncoming::PartsLemmas::not_whole))]
pub(crate) fn parse_head(alloc: Global, head: &[u8]) -> Result<HeadSpans, WireFault>
    requires { line_feeds head.now ≤ line_limit }
    ensures within { IfOk result (λ s. AreWithin head.now s.method s.target s.fields.items) }
    ensures parts { HeadAnswers
        (λ s. parts_at head.now s.method s.target s.fields.items) head.now result }
{
    let mut fields = [EMPTY_HEADER_SPAN; FIELD_LIMIT];
    match parse_request(head, &mut fields) {
        Ok(Status::Complete(found)) => {
            if found.len != head.len() {
                return Err(WireFault::Refused(Refusal::BadHead));
            }
            Ok(HeadSpans {
                method: found.method,
                target: found.path,
                fields: Vec::from_slice(alloc, &fields[..found.headers])?,
            })
        }
        Ok(Status::Partial) => Err(WireFault::Refused(Refusal::BadHead)),
        Err(_) => Err(WireFault::Refused(Refusal::BadHead)),
    }
}

/// A request in bytes that hold it whole: a head (RFC 9112) and as many bytes behind it as the head
/// says. Only [`Progress::message`] makes one, for [`message_in`] too.
#[derive(Drop)]
pub struct RawRequest<'a> {
    head: &'a [u8],
    spans: HeadSpans,
    body: &'a [u8],
}

impl<'a> Model for RawRequest<'a> {
    ghost use Rattle.bor_http.specs.Incoming.Message.{Message};
    ghost use Rattle.bor_http.specs.Incoming.Steps.{AreWithin, parts_at};

    ghost Value = { Message };

    ghost view = { λ r. record {
      parts = parts_at r.head.now r.spans.method r.spans.target r.spans.fields.items;
      body = r.body.now;
    } };

    ghost invariant = { λ r. AreWithin r.head.now r.spans.method r.spans.target
        r.spans.fields.items };
}

impl<'a> RawRequest<'a> {
    /// The method, as it stands.
    pub fn method(&self) -> &[u8]
        ensures { result.now ≡ self.now.parts.method }
    {
        self.spans.method.of(self.head)
    }

    /// The target, as it stands: a path and a query.
    pub fn target(&self) -> &[u8]
        ensures { result.now ≡ self.now.parts.target }
    {
        self.spans.target.of(self.head)
    }

    /// The body, of at most 1,048,576 bytes.
    pub fn body(&self) -> &[u8]
        ensures { result.now ≡ self.now.body }
    {
        self.body
    }

    /// The value of the one field that has the name, in whichever letter case, if there is exactly
    /// one; without the blanks at its ends.
    pub fn only(&self, name: &[u8]) -> Option<&[u8]>
        ensures { option_map (λ value. value.now) result
            ≡ only_value name.now self.now.parts.fields }
    {
        if count_named(self.head, &self.spans.fields, name) == 1 {
            find_value(self.head, &self.spans.fields, name)
        } else {
            None
        }
    }
}

/// The request that these bytes begin with. What stands behind its body has no part in it.
///
/// # Errors
///
/// `Refused`: the bytes are no request; what comes first of [`Refusal`], up to the second
/// `CutShort`. `Memory`: memory is wanting. No reader is asked, so `Read` is never answered.
pub fn message_in<'a>(alloc: Global, input: &'a [u8]) -> Result<RawRequest<'a>, WireFault>
    ensures reading { IsReadAs input.now result }
{
    Progress::none().message(alloc, input)
}

/// The bytes before the first one that is this, and those behind it; all and none where there is
/// none.
pub fn split_at_first(bytes: &[u8], byte: u8) -> (&[u8], &[u8])
    ensures before { result.0.now ≡ before_byte byte bytes.now }
    ensures behind { result.1.now ≡ behind_byte byte bytes.now }
{
    match bytes.iter().position(|b| *b == byte) {
        Some(i) => (&bytes[..i], &bytes[i + 1..]),
        None => (bytes, &[]),
    }
}
