//! One exchange over a reader and a writer, and how it ends.

ghost use Rattle.std.specs.Prelude.{◌≡◌, IfNone, false};
ghost use Rattle.bor_http.specs.declared.incoming.fault.WireFault.TheVariants.{Read as ReadFault};
ghost use Rattle.bor_http.specs.Incoming.Message.{request_limit};
ghost use Rattle.bor_http.specs.Incoming.Reading.{IsReadInPart, TakesAtMost};
ghost use Rattle.bor_wire.specs.Answering.{AnswersOne, RespondsIfRead};
ghost use Rattle.bor_wire.specs.declared.outcome.Outcome.TheVariants.{ReadFailed};
ghost use Rattle.bor_wire.specs.Exchanges.{IsWritten, faults_unread, read_faults, write_faults};

use crate::reply::Reply;
use crate::response::respond;
use crate::spelling::Paths;
use bor_desk::operations::Keep;
use bor_http::incoming::{Counted, WireFault, read_request, send};
use std::alloc::Global;
use std::io::{Read, Write};

/// How an exchange ended. The number is the status of the reply: where it is 503, nothing changed,
/// unless the store shut in its commit.
#[derive(Clone, Copy, PartialEq, Eq)]
pub enum Outcome {
    /// The whole reply was written.
    Replied(u16),
    /// The reader failed. Nothing changed, and nothing was written.
    ReadFailed,
    /// The writer failed, or took nothing. The request was answered and its change, if any, stays;
    /// a front of the reply was written.
    WriteFailed(u16),
}

// Writes a reply.
fn write_reply<W: Write>(writer: &mut Counted<W>, reply: &Reply) -> Outcome
    ensures written { IsWritten result reply.now (W.contents writer.old.inner)
        (W.contents writer.new.inner) }
    ensures faults { writer.new.faults ≡ write_faults result writer.old.faults }
{
    let status = reply.status();
    if send(writer, reply.bytes()) {
        Outcome::Replied(status)
    } else {
        Outcome::WriteFailed(status)
    }
}

// The reply to the request that a reader gives; none where the reader failed.
fn read_reply<K: Keep, R: Read>(
    alloc: Global,
    paths: &Paths,
    keep: &mut K,
    reader: &mut Counted<R>,
) -> Option<Reply>
    ensures answers { RespondsIfRead K.meaning keep.old keep.new (R.remaining reader.old.inner)
        result }
    ensures taken { TakesAtMost request_limit (R.remaining reader.old.inner)
        (R.remaining reader.new.inner) }
    ensures partial { IfNone result
        (IsReadInPart (R.remaining reader.old.inner) (R.remaining reader.new.inner) ReadFault) }
    ensures faults { reader.new.faults ≡ faults_unread result reader.old.faults }
    ensures asks { reader.old.is_over ≡ false → reader.new.late ≡ reader.old.late }
{
    match read_request(alloc, reader) {
        Ok(input) => Some(respond(alloc, paths, keep, &input).reply),
        Err(WireFault::Read) => None,
        Err(_) => Some(Reply::unavailable()),
    }
}

/// Reads one request, has the desk answer it as [`respond`](crate::respond) does, and writes the
/// reply.
///
/// With a status other than 503 the bytes that are written, of which a failing writer takes a
/// front, are the reply to the one input, which each agent receives as it would alone, and the
/// register left is the one after it. With 503 they are [`UNAVAILABLE`](crate::UNAVAILABLE), and
/// nothing changed, unless the store shut in its commit: then the next one to open it may find the
/// change. So it is one of exchanges one after the other, of which the laws speak
/// ([`an_exchange_is_a_turn`](crate::laws::an_exchange_is_a_turn)).
///
/// Of any keep it is said that 503 has `UNAVAILABLE` written, which refusal answers an input that
/// spells no request, and, if its store has returned what was written, that a request has another
/// status than 503 only where the keep ends clean, and that a stop leaves what one before might
/// have left, or the register after the request. Of a keep that ends clean it is said
/// - of any register: that a status of 400 or more, or a failed read, changes nothing;
/// - of registers whose agents stand in order of their names, as every legal one's do: which reply
///   is written and which register is left;
/// - of legal registers: that each agent receives what it would alone.
///
/// Statements on bytes are of readers and writers that tell theirs, as those over memory do: of
/// another reader it isn't said which request was answered, and of another writer not what was
/// written. What is left, and the faults, are said of any. At most 1,064,960 bytes are read, and
/// nothing more is asked of a reader once a read has given no byte. A failed read, an interruption
/// too, ends the exchange as [`Outcome::ReadFailed`], and what was read is no whole request; a write
/// that fails or takes nothing ends it as [`Outcome::WriteFailed`]. Each comes exactly where that
/// end's count of faults moved.
#[tactic(auto, using(crate::proofs::Exchanged::by_outcome))]
pub fn exchange<K: Keep, R: Read, W: Write>(
    alloc: Global,
    keep: &mut K,
    reader: &mut Counted<R>,
    writer: &mut Counted<W>,
) -> Outcome
    ensures answers { AnswersOne K.meaning keep.old keep.new result (R.remaining reader.old.inner)
        (W.contents writer.old.inner) (W.contents writer.new.inner) }
    ensures taken { TakesAtMost request_limit (R.remaining reader.old.inner)
        (R.remaining reader.new.inner) }
    ensures partial { result ≡ ReadFailed
        → IsReadInPart (R.remaining reader.old.inner) (R.remaining reader.new.inner) ReadFault }
    ensures read_faults { reader.new.faults ≡ read_faults result reader.old.faults }
    ensures write_faults { writer.new.faults ≡ write_faults result writer.old.faults }
    ensures asks { reader.old.is_over ≡ false → reader.new.late ≡ reader.old.late }
{
    let Ok(paths) = Paths::new(alloc) else {
        return write_reply(writer, &Reply::unavailable());
    };
    match read_reply(alloc, &paths, keep, reader) {
        Some(reply) => write_reply(writer, &reply),
        None => Outcome::ReadFailed,
    }
}
