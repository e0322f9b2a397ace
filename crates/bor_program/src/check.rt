//! `bor check`.

ghost use Rattle.std.specs.Prelude.{◌≡◌, ◌≤◌, ◌+◌, ◌-◌, ℕ, List, None, IfErr, IfOk, IfSome, IsSome, OnOk};
ghost use Rattle.std.specs.Io.KnownBytes.{Keeps};
ghost use Rattle.bor_desk.specs.Limits.{file_limit};
ghost use Rattle.bor_words.specs.Asked.{name_of};
ghost use Rattle.bor_program.specs.Failures.{IsMetOn, IsMetPrinting, IsReadingOf};
ghost use Rattle.bor_program.specs.Inputs.{IsReadOf};
ghost use Rattle.bor_program.specs.Performing.{Checks};
ghost use Rattle.bor_program.specs.Program.{EndsReport, EndsReportOf, IfFile, exit_code, report_status};
ghost use Rattle.bor_program.specs.Streams.{TakesAtMostPart, TakesPart, part_limit, part_read, streams_of};

use crate::failure::Failure;
use crate::host::{NamedFiles, Registers, Stage};
use crate::output::{Output, write_text};
use crate::status::Status;
use bor_desk::{FILE_LIMIT, Text, check_text};
use bor_words::Source;
use std::alloc::Global;
use std::io::{self, ErrorKind, Read, Write};

// As many bytes are read at once.
const PART: usize = 8192;

/// Prints what becomes of a file in an empty register, and tells on standard error why it could not
/// be done.
pub fn check<R: NamedFiles + AllocGlobal, H: Registers, I: Read, O: Output, E: Write>(
    rt: &R,
    host: &H,
    source: Source<'_>,
    input: &mut I,
    output: &mut O,
    errors: &mut E,
) -> Status
    ensures done { Checks (IsReadOf (R.opens rt.now) R.File.remaining) source.entry
        (I.remaining input.old) (I.remaining input.new)
        (streams_of (O.contents output.old) (O.contents output.new)
        (E.contents errors.old) (E.contents errors.new) (exit_code result)) }
    ensures flushed { exit_code result ≤ 1 → O.is_flushed output.new }
{
    match check_source(rt, host, source, input, output) {
        Ok(status) => status,
        Err(failure) => failure.tell(errors),
    }
}

// Checks standard input, of which the host tells whoever may have to type it, or the file that is
// named.
fn check_source<'a, R: NamedFiles + AllocGlobal, H: Registers, I: Read, O: Output>(
    rt: &R,
    host: &H,
    source: Source<'a>,
    input: &mut I,
    output: &mut O,
) -> Result<Status, Failure<'a>>
    ensures report { (bytes : List ℕ)
        × EndsReport bytes (O.contents output.old) (O.contents output.new) result }
    ensures known { name_of source.entry ≡ None → IfSome (I.remaining input.old) (λ bytes.
        EndsReport (part_read bytes) (O.contents output.old) (O.contents output.new) result) }
    ensures of_file { IfFile (λ name.
        EndsReportOf (IsReadOf (R.opens rt.now) R.File.remaining part_limit name)
        (O.contents output.old) (O.contents output.new) result) source.entry }
    ensures taken { name_of source.entry ≡ None
        → OnOk result (TakesPart (I.remaining input.old) (I.remaining input.new)) }
    ensures at_most { TakesAtMostPart (I.remaining input.old) (I.remaining input.new) }
    ensures unread { IsSome (name_of source.entry)
        → Keeps (I.remaining input.old) (I.remaining input.new) }
    ensures flushed { OnOk result (O.is_flushed output.new) }
    ensures err { IfErr result
        (IsMetOn source.entry (O.contents output.old) (O.contents output.new)) }
{
    match source {
        Source::StandardInput => {
            host.reach(Stage::Input);
            check_input(rt.alloc(), source, input, output)
        }
        Source::File(name) => check_file(rt, name, output),
    }
}

// Opens the file of this name and checks it.
fn check_file<'a, R: NamedFiles + AllocGlobal, O: Output>(
    rt: &R,
    name: &'a str,
    output: &mut O,
) -> Result<Status, Failure<'a>>
    ensures report { (bytes : List ℕ)
        × EndsReport bytes (O.contents output.old) (O.contents output.new) result }
    ensures of_file { EndsReportOf
        (IsReadOf (R.opens rt.now) R.File.remaining part_limit name.entry)
        (O.contents output.old) (O.contents output.new) result }
    ensures flushed { OnOk result (O.is_flushed output.new) }
    ensures err { IfErr result (IsMetOn (Source.File name.entry)
        (O.contents output.old) (O.contents output.new)) }
{
    let source = Source::File(name);
    match rt.open_named(name) {
        Ok(mut file) => check_input(rt.alloc(), source, &mut file, output),
        Err(error) => Err(Failure::of_reading(source, &error)),
    }
}

// Reads a file from `input`, and prints what becomes of it. `Unreadable` of `source`: it can't be
// read. `Memory`: memory is wanting; nothing is printed then. `Unwritable`: the text can't be
// written, or not to its end, or not handed on.
fn check_input<'a, I: Read, O: Output>(
    alloc: Global,
    source: Source<'a>,
    input: &mut I,
    output: &mut O,
) -> Result<Status, Failure<'a>>
    ensures report { (bytes : List ℕ)
        × EndsReport bytes (O.contents output.old) (O.contents output.new) result }
    ensures known { IfSome (I.remaining input.old) (λ bytes.
        EndsReport (part_read bytes) (O.contents output.old) (O.contents output.new) result) }
    ensures taken { OnOk result (TakesPart (I.remaining input.old) (I.remaining input.new)) }
    ensures at_most { TakesAtMostPart (I.remaining input.old) (I.remaining input.new) }
    ensures flushed { OnOk result (O.is_flushed output.new) }
    ensures err { IfErr result
        (IsMetOn source.entry (O.contents output.old) (O.contents output.new)) }
{
    let bytes = read_source(alloc, source, input)?;
    report(alloc, bytes.as_slice(), output)
}

// The bytes of a file, up to one more than the greatest that is taken. No more are read.
fn read_source<'a, I: Read>(
    alloc: Global,
    source: Source<'a>,
    input: &mut I,
) -> Result<Vec<u8>, Failure<'a>>
    ensures read { IfSome (I.remaining input.old) (λ bytes. IfOk result
        (λ read. read.items ≡ part_read bytes)) }
    ensures taken { OnOk result (TakesPart (I.remaining input.old) (I.remaining input.new)) }
    ensures at_most { TakesAtMostPart (I.remaining input.old) (I.remaining input.new) }
    ensures err { IfErr result (IsReadingOf source.entry) }
{
    match read_part(alloc, input) {
        Ok(bytes) => Ok(bytes),
        Err(error) => Err(Failure::of_reading(source, &error)),
    }
}

// The bytes that `read_source` gives.
fn read_part<I: Read>(alloc: Global, input: &mut I) -> io::Result<Vec<u8>>
    ensures read { IfSome (I.remaining input.old) (λ bytes. IfOk result
        (λ read. read.items ≡ part_read bytes)) }
    ensures taken { OnOk result (TakesPart (I.remaining input.old) (I.remaining input.new)) }
    ensures at_most { TakesAtMostPart (I.remaining input.old) (I.remaining input.new) }
{
    let mut bytes = Vec::new(alloc);
    let mut part = [0; PART];
    'turns: for _ in 0..u64::MAX {
        let room = room_after(bytes.len());
        if room == 0 {
            return Ok(bytes);
        }
        let wanted = PART.min(room);
        match input.read(&mut part[..wanted]) {
            Ok(0) => return Ok(bytes),
            Ok(count) => bytes.extend_from_slice(&part[..count])?,
            Err(error) if error.kind() == ErrorKind::Interrupted => {}
            Err(error) => return Err(error),
        }
    }
    Err(io::Error::from(ErrorKind::Interrupted))
}

// How many bytes of a file may be read after so many.
fn room_after(count: usize) -> usize
    ensures { result ≡ file_limit + 1 - count }
{
    (FILE_LIMIT + 1).saturating_sub(count)
}

// Prints the report on a file of these bytes.
fn report<'a, O: Output>(alloc: Global, bytes: &[u8], output: &mut O) -> Result<Status, Failure<'a>>
    ensures report { EndsReport bytes.now (O.contents output.old) (O.contents output.new) result }
    ensures flushed { OnOk result (O.is_flushed output.new) }
    ensures err { IfErr result (IsMetPrinting (O.contents output.old) (O.contents output.new)) }
{
    let text = check_text(alloc, bytes)?;
    write_text(output, text.bytes.as_slice())?;
    Ok(text_status(&text))
}

/// How a command ends that printed this text.
pub fn text_status(text: &Text) -> Status
    ensures { exit_code result ≡ report_status text.now.refused }
{
    if text.refused {
        Status::Refused
    } else {
        Status::Done
    }
}
