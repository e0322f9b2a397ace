//! How much of a request has come, so that its head is searched and taken apart once.

ghost use Rattle.std.specs.Prelude.{◌≡◌, ◌≤◌, ◌-◌, ◌↔◌, ℕ, List, Some, IfOk, IsTrue, length};
ghost use Rattle.bor_http.specs.declared.incoming.progress.Progress.TheVariants.{Searched};
ghost use Rattle.bor_http.specs.Incoming.Head.{head_len, head_limit};
ghost use Rattle.bor_http.specs.Incoming.Progress.{IsProgress, HasSearched, IsWhole, needs};
ghost use Rattle.bor_http.specs.Incoming.Reading.{IsReadAs};

use crate::incoming::fault::{Refusal, WireFault};
use crate::incoming::head::{body_length, has_few_lines, head_end_from};
use crate::incoming::message::{HEAD_LIMIT, MessageHead, RawRequest, parse_head};
use std::alloc::{AllocError, Global};

/// How much of a request has come.
#[derive(Drop)]
pub enum Progress {
    /// No head ends within so many bytes at its front, below 16,384.
    Searched(usize),
    /// It is refused so for what has come, whatever follows.
    Refused(Refusal),
    /// Its head has come, and was taken apart.
    Headed(MessageHead),
}

impl Progress {
    /// That nothing is known, as before the first byte.
    #[tactic(auto, unfolding(crate::specs::Incoming::Head::head_len))]
    pub fn none() -> Progress
        ensures known { (bytes : List ℕ) → IsProgress bytes result }
        ensures needs { needs result ≡ head_limit }
    {
        Progress::Searched(0)
    }

    /// The progress on these bytes, from the progress that was known before.
    ///
    /// # Errors
    ///
    /// There is no memory for taking the head apart. What was known is lost; [`Progress::none`] may
    /// be taken in its place.
    #[tactic(auto, using(crate::proofs::OnIncoming::ProgressLemmas::whole_once))]
    pub fn after(self, alloc: Global, bytes: &[u8]) -> Result<Progress, AllocError>
        requires { IsProgress bytes.now self }
        ensures known { IfOk result (IsProgress bytes.now) }
        ensures searched { IfOk result (HasSearched (length bytes.now)) }
        ensures whole { IfOk result (λ progress.
            (needs progress ≤ length bytes.now) ↔ IsWhole bytes.now) }
    {
        match self {
            Progress::Searched(count) => {
                search(alloc, &bytes[..HEAD_LIMIT.min(bytes.len())], count)
            }
            Progress::Refused(why) => Ok(Progress::Refused(why)),
            Progress::Headed(head) => Ok(Progress::Headed(head)),
        }
    }

    /// Whether so many bytes are known to be whole.
    pub fn is_whole(&self, count: usize) -> bool
        ensures { IsTrue result ↔ (needs self.now ≤ count) }
    {
        self.wanted(count) == 0
    }

    /// How many more bytes may be read where so many have come.
    pub fn wanted(&self, count: usize) -> usize
        ensures { result ≡ needs self.now - count }
    {
        match self {
            Progress::Searched(_) => HEAD_LIMIT.saturating_sub(count),
            Progress::Refused(_) => 0,
            Progress::Headed(head) => head.needed.saturating_sub(count),
        }
    }

    /// The request that these bytes begin with, where so much of it was known before: as
    /// [`message_in`](crate::incoming::message_in) gives it.
    ///
    /// # Errors
    ///
    /// Those of `message_in`.
    #[tactic(auto, using(crate::proofs::OnIncoming::ProgressLemmas::refused_so, crate::proofs::OnIncoming::ProgressLemmas::searched_cut))]
    pub fn message<'a>(self, alloc: Global, bytes: &'a [u8]) -> Result<RawRequest<'a>, WireFault>
        requires { IsProgress bytes.now self }
        ensures { IsReadAs bytes.now result }
    {
        match self.after(alloc, bytes)? {
            Progress::Searched(_) => Err(WireFault::Refused(Refusal::CutShort)),
            Progress::Refused(why) => Err(WireFault::Refused(why)),
            Progress::Headed(head) => head.message(bytes),
        }
    }
}

// Looks for the end of the head in the bytes that may be one, behind as many as were searched.
#[tactic(auto, using(crate::proofs::OnIncoming::ProgressLemmas::scanned_from, crate::proofs::OnIncoming::ProgressLemmas::too_large))]
fn search(alloc: Global, front: &[u8], searched: usize) -> Result<Progress, AllocError>
    requires known { IsProgress front.now (Searched searched) }
    requires within { length front.now ≤ head_limit }
    ensures known { IfOk result (IsProgress front.now) }
    ensures searched { IfOk result (HasSearched (length front.now)) }
{
    match head_end_from(front, searched.saturating_sub(2)) {
        Some(len) => taken_apart(alloc, front, len),
        None if front.len() < HEAD_LIMIT => Ok(Progress::Searched(front.len())),
        None => Ok(Progress::Refused(Refusal::HeadTooLarge)),
    }
}

// The progress on bytes of which the first `len` are a head.
#[tactic(auto, using(crate::proofs::OnIncoming::ProgressLemmas::head_comes, crate::proofs::OnIncoming::ProgressLemmas::many_lines_come))]
fn taken_apart(alloc: Global, front: &[u8], len: usize) -> Result<Progress, AllocError>
    requires head { head_len front.now ≡ Some len }
    requires within { length front.now ≤ head_limit }
    ensures known { IfOk result (IsProgress front.now) }
    ensures searched { IfOk result (HasSearched (length front.now)) }
{
    let head = &front[..len];
    if !has_few_lines(head) {
        return Ok(Progress::Refused(Refusal::HeadTooLarge));
    }
    let spans = match parse_head(alloc, head) {
        Ok(spans) => spans,
        Err(WireFault::Refused(why)) => return Ok(Progress::Refused(why)),
        Err(_) => return Err(AllocError),
    };
    match body_length(head, &spans.fields) {
        Ok(body) => {
            let needed = len + body;
            Ok(Progress::Headed(MessageHead { spans, len, needed }))
        }
        Err(why) => Ok(Progress::Refused(why)),
    }
}
