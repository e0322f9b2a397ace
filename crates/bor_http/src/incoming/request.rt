//! Reading the bytes of one request.

ghost use Rattle.std.specs.Prelude.{◌≡◌, ◌≤◌, ◌<◌, ◌==◌, ◌⊎◌, false, true, length, IfErr, IfOk, IfSome};
ghost use Rattle.std.specs.Io.KnownBytes.{Consumes, IsAtEnd};
ghost use Rattle.bor_http.specs.Incoming.Message.{request_limit};
ghost use Rattle.bor_http.specs.Incoming.Progress.{IsWhole};
ghost use Rattle.bor_http.specs.Incoming.Reading.{FaultsTell, IsReadInPart, SaysAll, TakesAtMost, TakesPiece};

use crate::incoming::counted::Counted;
use crate::incoming::fault::WireFault;
use crate::incoming::head::BODY_LIMIT;
use crate::incoming::message::HEAD_LIMIT;
use crate::incoming::progress::Progress;
use std::alloc::Global;
use std::io::Read;

/// The most bytes of a request: those of a head and of a body.
pub const REQUEST_LIMIT: usize = HEAD_LIMIT + BODY_LIMIT;

// The most bytes that are read at once.
const PART: usize = 16_384;

// Reads once into the part, and adds what came to the bytes that were received.
fn read_into<R: Read>(
    reader: &mut Counted<R>,
    received: &mut Vec<u8>,
    part: &mut [u8],
) -> Result<usize, WireFault>
    requires { 0 < length part.old }
    ensures piece { TakesPiece (R.remaining reader.old.inner) (R.remaining reader.new.inner)
        received.old.items received.new.items (length part.old) result }
    ensures faults { FaultsTell result reader.old.faults reader.new.faults }
    ensures over { IfOk result (λ n. reader.new.is_over ≡ (n == 0)) }
    ensures late { reader.old.is_over ≡ false → reader.new.late ≡ reader.old.late }
{
    let count = match reader.read(part) {
        Ok(count) => count,
        Err(_) => return Err(WireFault::Read),
    };
    received.extend_from_slice(&part[..count])?;
    Ok(count)
}

// Reads once, at most as many bytes as are wanted.
fn read_more<R: Read>(
    reader: &mut Counted<R>,
    received: &mut Vec<u8>,
    wanted: usize,
) -> Result<usize, WireFault>
    requires { 0 < wanted }
    ensures piece { TakesPiece (R.remaining reader.old.inner) (R.remaining reader.new.inner)
        received.old.items received.new.items wanted result }
    ensures faults { FaultsTell result reader.old.faults reader.new.faults }
    ensures over { IfOk result (λ n. reader.new.is_over ≡ (n == 0)) }
    ensures late { reader.old.is_over ≡ false → reader.new.late ≡ reader.old.late }
{
    let mut part = [0; PART];
    let room = wanted.min(PART);
    read_into(reader, received, &mut part[..room])
}

/// Reads the bytes of one request: until they are whole, as a request or for what they are refused,
/// or the reader is at its end.
///
/// In whatever pieces they come, what [`message_in`](crate::incoming::message_in) says of them holds
/// of all that the reader would have given, and what stands behind the body has no part in it. At
/// most [`REQUEST_LIMIT`] bytes are taken of the reader. Nothing more is asked of it once a read
/// has given no byte.
///
/// # Errors
///
/// `Read`: the reader failed, exactly where its count of faults moved, and what it gave is no whole
/// request. `Memory`: memory is wanting.
pub fn read_request<R: Read>(alloc: Global, reader: &mut Counted<R>) -> Result<Vec<u8>, WireFault>
    ensures request { IfSome (R.remaining reader.old.inner) (λ input.
        IfOk result (λ bytes. SaysAll bytes.items input)) }
    ensures whole { IfOk result (λ bytes. IsWhole bytes.items
        ⊎ ((reader.new.is_over ≡ true) × IsAtEnd (R.remaining reader.new.inner))) }
    ensures bytes { IfOk result (λ bytes. (length bytes.items ≤ request_limit)
        × Consumes (R.remaining reader.old.inner) (R.remaining reader.new.inner) bytes.items) }
    ensures taken { TakesAtMost request_limit (R.remaining reader.old.inner)
        (R.remaining reader.new.inner) }
    ensures faults { FaultsTell result reader.old.faults reader.new.faults }
    ensures fault { IfErr result
        (IsReadInPart (R.remaining reader.old.inner) (R.remaining reader.new.inner)) }
    ensures asks { reader.old.is_over ≡ false → reader.new.late ≡ reader.old.late }
{
    let mut received = Vec::new(alloc);
    let mut progress = Progress::none();
    'read: while !progress.is_whole(received.len()) {
        let wanted = progress.wanted(received.len());
        if read_more(reader, &mut received, wanted)? == 0 {
            return Ok(received);
        }
        progress = progress.after(alloc, &received)?;
    }
    Ok(received)
}
