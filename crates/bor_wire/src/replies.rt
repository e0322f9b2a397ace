//! The replies to a list of inputs.

ghost use Rattle.std.specs.Prelude.{◌≡◌, List, IfOk, OnErr, length, map};
ghost use Rattle.bor_records.specs.Promises.{Promised};
ghost use Rattle.bor_desk.specs.Operations.Legality.{IsLegal};
ghost use Rattle.bor_wire.specs.Spelling.Spell.{Spelled};
ghost use Rattle.bor_wire.specs.Runs.{AreSpelled, served};
ghost use Rattle.bor_wire.specs.Replays.{IsReplayed};
ghost use Rattle.bor_wire.specs.Turns.{InTurn};

use crate::reply::Reply;
use crate::response::{Response, respond};
use crate::spelling::Paths;
use bor_desk::operations::Keep;
use std::alloc::{AllocError, Global};

/// Answers inputs in turn, each from the register that the one before it left, as [`respond`] does.
///
/// Without the inputs whose reply has status 503, the replies are those of the run over what the
/// inputs spell, and so is the register left; what each agent receives follows from its own
/// exchanges alone; a report on chains with status 200 names exactly the persons joined to the
/// entity in what the caller sees; and a reply with a status of 400 or more leaves the register as
/// it was.
///
/// This is said of a keep that ends clean. Of any other, as where its store shut at some input, it
/// holds up to the last request that was answered: the replies are those of exchanges in turn, and
/// up to each request that was answered these are a run of their own, if the store had returned
/// what was written by then ([`answers_are_runs`](crate::laws::answers_are_runs)). From the input
/// on at which the store shut, each is answered 503, or with the refusal that its bytes spell, if
/// the store has returned what was written.
///
/// # Errors
///
/// There is no memory for the list of replies or for the paths; then the keep was asked nothing.
pub fn replay<K: Keep>(
    alloc: Global,
    keep: &mut K,
    inputs: &[Vec<u8>],
) -> Result<Vec<Reply>, AllocError>
    ensures began { K.meaning.is_clean keep.new → K.meaning.is_clean keep.old }
    ensures count { IfOk result (λ replies. length replies.items ≡ length inputs.now) }
    ensures spelled { IfOk result (λ replies. (spelled : List Spelled)
        × AreSpelled (served (map (λ v. v.items) inputs.now) replies.items) spelled) }
    ensures run { Promised K.meaning keep.old keep.new (λ r. IsLegal r → IfOk result (λ replies.
        IsReplayed (K.meaning.shows keep.new) r (map (λ v. v.items) inputs.now) replies.items)) }
    ensures in_turn { IfOk result (λ replies.
        InTurn K.meaning keep.old keep.new (map (λ v. v.items) inputs.now) replies.items) }
    ensures err { OnErr result (keep.new ≡ keep.old) }
{
    let paths = Paths::new(alloc)?;
    let mut replies = Vec::with_capacity(alloc, inputs.len())?;
    for input in inputs {
        let Response { reply, .. } = respond(alloc, &paths, keep, input);
        replies.push_reserved(reply);
    }
    Ok(replies)
}
