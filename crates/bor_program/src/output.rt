//! Writing as far as a stream takes it.

ghost use Rattle.std.specs.Prelude.{◌≡◌, ◌≤◌, ⊤, IfErr, IfSome, IsNone, IsTrue, OnOk, length, take};
ghost use Rattle.std.specs.Io.KnownBytes.{Appends, Keeps};
ghost use Rattle.bor_program.specs.Streams.{AppendsPart};

use crate::failure::Failure;
use std::io::{self, ErrorKind, Write};

/// The output that the program writes its text on. It may keep some of the text for itself until
/// that is handed on.
pub trait Output: Write {
    /// All that was written was handed on.
    ghost is_flushed: { Self → Type 0 };

    /// Hands on all that was written.
    ///
    /// # Errors
    ///
    /// Some of it can't be handed on.
    fn hand_on(&mut self) -> io::Result<()>
        ensures kept { Keeps (Self.contents self.old) (Self.contents self.new) }
        ensures flushed { OnOk result (is_flushed self.new) };
}

/// Any writer. At a type with a name `is_flushed` says nothing; in clauses over each `O: Output` it
/// says that [`Output::hand_on`] did well, and that nothing was written since.
impl<W: Write> Output for W {
    ghost is_flushed = { λ _. ⊤ };

    fn hand_on(&mut self) -> io::Result<()> {
        self.flush()
    }
}

/// Writes the whole text on standard output, and hands it on; or a front of it.
///
/// # Errors
///
/// `Unwritable`: it can't be written, or not to its end, or not handed on.
pub fn write_text<'a, O: Output>(output: &mut O, text: &[u8]) -> Result<(), Failure<'a>>
    ensures flushed { OnOk result (O.is_flushed output.new) }
    ensures ok { OnOk result (Appends (O.contents output.old) (O.contents output.new) text.now) }
    ensures part { AppendsPart (O.contents output.old) (O.contents output.new) text.now }
    ensures err { IfErr result (λ failure. failure ≡ Failure.Unwritable) }
{
    if !write_part(output, text) {
        return Err(Failure::Unwritable);
    }
    match output.hand_on() {
        Ok(()) => Ok(()),
        Err(_) => Err(Failure::Unwritable),
    }
}

/// Writes the bytes as far as they can be written, and tells whether all were.
pub fn write_part<W: Write>(writer: &mut W, bytes: &[u8]) -> bool
    ensures part { AppendsPart (W.contents writer.old) (W.contents writer.new) bytes.now }
    ensures whole { IsTrue result
        → Appends (W.contents writer.old) (W.contents writer.new) bytes.now }
{
    let mut rest = bytes;
    'turns: for _ in 0..u64::MAX {
        if rest.is_empty() {
            return true;
        }
        match write_some(writer, rest) {
            Some(count) => rest = &rest[count..],
            None => return false,
        }
    }
    false
}

// Writes once, and tells how many bytes were taken, or nothing where no more will be.
fn write_some<W: Write>(writer: &mut W, bytes: &[u8]) -> Option<usize>
    ensures bound { IfSome result (λ count. count ≤ length bytes.now) }
    ensures taken { IfSome result (λ count.
        Appends (W.contents writer.old) (W.contents writer.new) (take count bytes.now)) }
    ensures none { IsNone result → Keeps (W.contents writer.old) (W.contents writer.new) }
{
    match writer.write(bytes) {
        Ok(0) => None,
        Ok(count) => Some(count),
        Err(error) if error.kind() == ErrorKind::Interrupted => Some(0),
        Err(_) => None,
    }
}
