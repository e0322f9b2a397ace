//! Writing all of a reply.

ghost use Rattle.std.specs.Prelude.{◌≡◌, ◌≤◌, ℕ, length, take, if◌then◌else◌};
ghost use Rattle.std.specs.Bool.{OnTrue};
ghost use Rattle.std.specs.Io.KnownBytes.{Appends};
ghost use Rattle.bor_http.specs.Incoming.Counted.{after_fault};

use crate::incoming::counted::Counted;
use std::io::Write;

/// Writes all bytes, and tells whether it did: it stops at the first write that fails or takes
/// nothing, and then a front of the bytes is written.
#[tactic(auto, using(crate::proofs::OnIncoming::SendLemmas::appends_more, crate::proofs::OnIncoming::SendLemmas::to_end_length, crate::proofs::OnIncoming::SendLemmas::counts_nothing))]
pub fn send<W: Write>(writer: &mut Counted<W>, bytes: &[u8]) -> bool
    ensures whole { OnTrue result
        (Appends (W.contents writer.old.inner) (W.contents writer.new.inner) bytes.now) }
    ensures part { (n : ℕ) × Appends (W.contents writer.old.inner) (W.contents writer.new.inner)
        (take n bytes.now) }
    ensures faults { writer.new.faults
        ≡ (if result then writer.old.faults else after_fault writer.old.faults) }
{
    let mut at = 0;
    'send: while at < bytes.len() {
        match writer.write(&bytes[at..]) {
            Ok(0) => return false,
            Ok(n) => at += n,
            Err(_) => return false,
        }
    }
    true
}
