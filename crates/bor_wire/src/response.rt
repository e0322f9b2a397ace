//! The reply to an input, and for whom it is.

ghost use Rattle.std.specs.Prelude.{◌≡◌, ◌≢◌, ◌≤◌, ℕ, List, [], true, false, Ok, IfSome, vec_capacity};
ghost use Rattle.bor_records.specs.Promises.{Leaves, Promised};
ghost use Rattle.bor_register.specs.Register.{caller_of};
ghost use Rattle.bor_desk.specs.Laws.{is_long};
ghost use Rattle.bor_desk.specs.Outcomes.{IsOrderedFor, agent_of};
ghost use Rattle.bor_wire.specs.Spelling.Spell.{SpellsAs, asked_view};
ghost use Rattle.bor_wire.specs.Rendering.Limits.{reserved};
ghost use Rattle.bor_wire.specs.Rendering.Statuses.{desk_status};
ghost use Rattle.bor_wire.specs.Inputs.{after};
ghost use Rattle.bor_wire.specs.Sent.{TellsStatus};
ghost use Rattle.bor_wire.specs.Answering.{GoesOutAs, GoesOutFor, Responds};
ghost use Rattle.bor_wire.specs.Exchanges.{IsRefusal, IsRendered, IsToldFor, NamesWhoAsks, TellsAnswer, left_by_desk};

use crate::rendering::{
    RESERVED, desk_status, is_long, refusal_status, render_owned, render_refusal, render_short,
};
use crate::reply::Reply;
use crate::spelling::{Asking, Paths, spelled};
use bor_desk::operations::Keep;
use bor_desk::{Answered, DeskReply, answer_naming};
use bor_http::incoming::{Refusal, WireFault, message_in};
use bor_terms::AgentName;
use std::alloc::Global;

/// The reply to an input, and for whom it is.
#[derive(Drop)]
pub struct Response {
    /// The agent whose token the request has; `None` where the registrar or nobody has it, where
    /// the input spells no request, or where the status is 503 and it isn't known.
    pub agent: Option<AgentName>,
    /// The reply.
    pub reply: Reply,
}

// The reply to bytes that spell no request.
fn refused(alloc: Global, refusal: Refusal) -> Reply
    ensures refusal { IsRefusal result refusal }
    ensures status { TellsStatus result }
{
    let Ok(mut out) = Vec::with_capacity(alloc, RESERVED) else {
        return Reply::unavailable();
    };
    render_refusal(&mut out, refusal);
    Reply::full(refusal_status(refusal).as_u16(), out)
}

// The desk's reply, and its agent; no reply where the keep failed.
fn asked<K: Keep>(
    alloc: Global,
    keep: &mut K,
    asking: &Asking,
) -> (Option<AgentName>, Option<DeskReply>)
    ensures leaves { Leaves K.meaning keep.old keep.new
        (λ r left. K.meaning.left_shows left (after r (Ok (asked_view asking.now)))) }
    ensures reply { Promised K.meaning keep.old keep.new (λ r.
        IsOrderedFor asking.now.request r → TellsAnswer result.1 r (asked_view asking.now)) }
    ensures left { Promised K.meaning keep.old keep.new (λ r.
        K.meaning.shows keep.new (left_by_desk result.1 r (asked_view asking.now))) }
    ensures up { IfSome result.1 (λ _. K.meaning.is_sound keep.new → K.meaning.is_clean keep.new) }
    ensures agent { Promised K.meaning keep.old keep.new (λ r.
        IsToldFor result.1 result.0 (agent_of (caller_of asking.now.token r))) }
    ensures status { IfSome result.1 (λ reply. desk_status reply ≢ 503) }
{
    let Answered { agent, reply } = answer_naming(alloc, keep, &asking.token, &asking.request);
    match reply {
        DeskReply::Failed(_) => (agent, None),
        reply => (agent, Some(reply)),
    }
}

// A long reply of the desk in bytes.
fn long_rendered(alloc: Global, reply: DeskReply) -> Reply
    requires long { is_long reply ≡ true }
    requires status { desk_status reply ≢ 503 }
    ensures { IsRendered result reply }
{
    let status = desk_status(&reply).as_u16();
    match render_owned(alloc, reply) {
        Ok(bytes) => Reply::full(status, bytes),
        Err(_) => Reply::unavailable(),
    }
}

// A short reply of the desk in bytes, into room that was reserved.
fn short_rendered(mut out: Vec<u8>, reply: &DeskReply) -> Reply
    requires room { reserved ≤ vec_capacity out }
    requires empty { out.items ≡ [] }
    requires short { is_long reply.now ≡ false }
    requires status { desk_status reply.now ≢ 503 }
    ensures { IsRendered result reply.now }
{
    render_short(&mut out, reply);
    Reply::full(desk_status(reply).as_u16(), out)
}

// The desk's reply in bytes, into room that was reserved for a short one.
fn rendered(alloc: Global, out: Vec<u8>, reply: DeskReply) -> Reply
    requires room { reserved ≤ vec_capacity out }
    requires empty { out.items ≡ [] }
    requires status { desk_status reply ≢ 503 }
    ensures { IsRendered result reply }
{
    if is_long(&reply) {
        long_rendered(alloc, reply)
    } else {
        short_rendered(out, &reply)
    }
}

// The reply to a request. The room for a short one is reserved before the desk is asked, so that
// no change is made whose reply finds no memory.
#[tactic(auto, using(crate::proofs::Responses::nothing_goes_out))]
fn answered<K: Keep>(alloc: Global, keep: &mut K, asking: &Asking) -> Response
    ensures { GoesOutFor K.meaning keep.old keep.new result.agent result.reply
        (Ok (asked_view asking.now)) }
{
    let Ok(mut out) = Vec::with_capacity(alloc, RESERVED) else {
        return Response {
            agent: None,
            reply: Reply::unavailable(),
        };
    };
    let (agent, reply) = asked(alloc, keep, asking);
    match reply {
        Some(reply) => Response {
            agent,
            reply: rendered(alloc, out, reply),
        },
        None => Response {
            agent,
            reply: Reply::unavailable(),
        },
    }
}

/// Answers what an input spells, with a reply that stays in memory, and names the agent that is
/// answered. The input's bytes may be let go before. A keep whose store has shut, or shuts
/// meanwhile, answers a request with 503, if the store has returned what was written; where there
/// is neither a request nor a refusal, the reply is 503 and nothing is asked of the keep.
#[tactic(auto, using(crate::proofs::Exchanged::unasked, crate::proofs::Responses::refusal_goes_out))]
pub fn respond_to<K: Keep>(
    alloc: Global,
    keep: &mut K,
    asking: Result<Asking, WireFault>,
) -> Response
    ensures goes { GoesOutAs K.meaning keep.old keep.new result.agent result.reply asking }
    ensures answers { (input : List ℕ) → SpellsAs input asking
        → Responds K.meaning keep.old keep.new input result.reply }
    ensures agent { (input : List ℕ) → SpellsAs input asking
        → Promised K.meaning keep.old keep.new (λ r. NamesWhoAsks r input result) }
{
    match asking {
        Ok(asking) => answered(alloc, keep, &asking),
        Err(WireFault::Refused(refusal)) => Response {
            agent: None,
            reply: refused(alloc, refusal),
        },
        Err(_) => Response {
            agent: None,
            reply: Reply::unavailable(),
        },
    }
}

/// Answers the request in these bytes, as [`respond_to`] does.
pub fn respond<K: Keep>(alloc: Global, paths: &Paths, keep: &mut K, input: &[u8]) -> Response
    ensures answers { Responds K.meaning keep.old keep.new input.now result.reply }
    ensures agent { Promised K.meaning keep.old keep.new (λ r. NamesWhoAsks r input.now result) }
{
    let asking = spelled(alloc, paths, message_in(alloc, input));
    respond_to(alloc, keep, asking)
}
