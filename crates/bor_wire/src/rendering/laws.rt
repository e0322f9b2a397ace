//! Laws of replies. Each function does nothing: its contract is the law.

ghost use Rattle.bor_wire.specs.Rendering.Laws.{IsUnavailable, LengthIsTold};

use crate::rendering::reply::UNAVAILABLE;

/// `UNAVAILABLE` is the reply to each fault of a store, and to want of memory: of status 503.
pub fn unavailable_is_a_reply()
    ensures { IsUnavailable UNAVAILABLE.now }
{}

/// Of each reply the body stands behind the first empty line, and `Content-Length` tells in decimal
/// how many bytes that are.
#[tactic(auto, using(crate::proofs::OnRendering::LengthTold::length_is_told))]
pub fn length_is_told()
    ensures { LengthIsTold }
{}
