//! The program as a function of its words and its streams.

ghost use Rattle.std.specs.Prelude.{◌≡◌, ◌≢◌, ◌≤◌, ◌⊎◌, ℕ, List, IfSome, IsSome, map};
ghost use Rattle.std.specs.Io.KnownBytes.{Appends, Keeps};
ghost use Rattle.bor_words.specs.Asked.{IsAsked, IsCommand, IsWrong, MayAskForHelp};
ghost use Rattle.bor_words.specs.Help.{help_for};
ghost use Rattle.bor_words.specs.Unread.{kind_of_answer};
ghost use Rattle.bor_words.specs.Words.{entered_by};
ghost use Rattle.bor_words.specs.declared.command.Command.{Command as Asked};
ghost use Rattle.bor_program.specs.Connections.Streams.{EndedOn, wire_of};
ghost use Rattle.bor_program.specs.Failures.{IsMetBy, IsMetPrinting, IsFailureWritten, IsWantOfMemory};
ghost use Rattle.bor_program.specs.Hosting.{IsHosted, hosting_of};
ghost use Rattle.bor_program.specs.Inputs.{IsReadOf};
ghost use Rattle.bor_program.specs.Performing.{Performs, PrintsRefusal};
ghost use Rattle.bor_program.specs.Program.{IsReportedOrCutOff, exit_code};
ghost use Rattle.bor_program.specs.Streams.{AppendsPart, TakesAtMostPart, TakesPart, part_read, streams_of};
ghost use Rattle.bor_program.specs.Words.{AsksForCheck, ChecksInput, file_of};

use crate::check::check;
use crate::exchange::exchange;
use crate::failure::Failure;
use crate::host::{NamedFiles, Ports};
use crate::init::init;
use crate::migrate::migrate;
use crate::output::{Output, write_text};
use crate::report::report;
use crate::serve::serve;
use crate::status::Status;
use bor_words::{Command, Unread, help_for};
use clap::error::ErrorKind;
use std::convert::AsStr;
use std::io::{Read, Write};
use std::net::{OpenListener, OpenStream};
use std::time::Clock;

/// Does what the words after the program's name ask for, and gives the exit status.
///
/// 0: done, or help was asked for; 1: refused, or a reply to an exchange is a refusal; 2: the words
/// ask for nothing that there is, or a value doesn't fit; 3: a file, memory, the store or the
/// network failed, or the file is none for this: it has no register, one already, or other tables.
/// Standard output has the text of a command, or the help; with status 3 a front of it. Standard
/// error has what is wrong with the words (no clause says so), or a line on what failed, of an
/// exchange one for each file that can't be read; that line is missing where it was standard output
/// that failed, or a reply or a connection. What the host tells there by itself isn't meant.
///
/// Of a stream whose bytes aren't known (`None`) no clause says which bytes it took or gave.
pub fn run<R: NamedFiles + Clock + AllocGlobal, H: Ports, S: AsStr, I: Read, O: Output, E: Write>(
    rt: &R,
    host: &mut H,
    words: &[S],
    input: &mut I,
    output: &mut O,
    errors: &mut E,
) -> u8
where
    <H::Listener as OpenListener>::Stream: Read + Write + OpenStream,
    ensures at_most { result ≤ 3 }

    // Words that ask for a command have it done or fail, as `Performs` says of each, or memory is
    // wanting: status 3, nothing is opened or printed but a front of the line that says so.
    ensures performed { IsCommand (map S.text words.now) → ((result ≡ 3) × (host.new ≡ host.old)
        × Keeps (O.contents output.old) (O.contents output.new)
        × IsFailureWritten IsWantOfMemory (E.contents errors.old) (E.contents errors.new))
        ⊎ ((asked : Asked) × IsAsked (entered_by (map S.text words.now)) asked
        × Performs
        (record {
          reads = IsReadOf (R.opens rt.now) R.File.remaining;
          hosts = IsHosted H.Register.meaning
              (hosting_of H.listens H.waits H.Waiter.does H.Register.serves
              (EndedOn (wire_of H.Listener.Stream.remaining H.Listener.Stream.contents)));
          meaning = H.Register.meaning;
          tells = H.Register.tells;
        })
        (record { does = H.does; begun = host.old; ended = host.new }) asked
        (I.remaining input.old) (I.remaining input.new)
        (streams_of (O.contents output.old) (O.contents output.new)
        (E.contents errors.old) (E.contents errors.new) result)) }

    // Words that ask for a check have the report on some bytes written, or a front where it fails.
    ensures check { AsksForCheck (map S.text words.now) → (bytes : List ℕ)
        × IsReportedOrCutOff bytes (O.contents output.old) (O.contents output.new) result }

    // Where standard input is checked and known, the report is on the part that is read of it,
    ensures check_input { ChecksInput (map S.text words.now)
        → IfSome (I.remaining input.old) (λ bytes.
        IsReportedOrCutOff (part_read bytes) (O.contents output.old)
        (O.contents output.new) result) }

    // and of known bytes that part is taken, unless the run fails.
    ensures check_taken { ChecksInput (map S.text words.now) → result ≤ 1
        → TakesPart (I.remaining input.old) (I.remaining input.new) }

    // Where a file is named, standard input is left alone.
    ensures check_file { IsSome (file_of (map S.text words.now))
        → Keeps (I.remaining input.old) (I.remaining input.new) }

    // Whatever the end, no more is taken than that part, and nothing where no check is asked for.
    ensures taken { TakesAtMostPart (I.remaining input.old) (I.remaining input.new) }
    ensures untaken { ¬ AsksForCheck (map S.text words.now)
        → Keeps (I.remaining input.old) (I.remaining input.new) }

    // Where no command is asked for, the registers in files are left alone,
    ensures unopened { ¬ IsCommand (map S.text words.now) → host.new ≡ host.old }

    // and nothing is written on standard output but the help on these words, all of it or a front
    // of it.
    ensures help { ¬ IsCommand (map S.text words.now)
        → AppendsPart (O.contents output.old) (O.contents output.new)
        (help_for (map S.text words.now)) }

    // Whatever the words, status 1 comes of a command alone, whose output may be a refusal,
    ensures refused { result ≡ 1 → IsCommand (map S.text words.now)
        × PrintsRefusal (O.contents output.old) (O.contents output.new) }

    // status 0 of a command, or of help that was written whole,
    ensures done { result ≡ 0
        → IsCommand (map S.text words.now) ⊎ (MayAskForHelp (map S.text words.now)
        × Appends (O.contents output.old) (O.contents output.new)
        (help_for (map S.text words.now))) }

    // and status 2 of words that may have a fault: nothing was read, and no output written.
    ensures usage { result ≡ 2 → IsWrong (map S.text words.now)
        × Keeps (I.remaining input.old) (I.remaining input.new)
        × Keeps (O.contents output.old) (O.contents output.new) }

    // Words that can ask for neither a command nor help end so, or fail.
    ensures wrong { ¬ IsCommand (map S.text words.now) → ¬ MayAskForHelp (map S.text words.now)
        → (result ≡ 2) ⊎ (result ≡ 3) }

    // With status 0 or 1 all that was written on standard output was handed on,
    ensures flushed { result ≤ 1 → O.is_flushed output.new }

    // and nothing is added to known bytes on standard error,
    ensures silent { result ≤ 1 → Keeps (E.contents errors.old) (E.contents errors.new) }

    // and with status 3, of a check or where no command is asked for, a front of the line of one of
    // the failures that may be met there (`IsMetBy`): all of it, some or nothing.
    ensures told { AsksForCheck (map S.text words.now) ⊎ (¬ IsCommand (map S.text words.now))
        → result ≡ 3
        → IsFailureWritten
        (IsMetBy (map S.text words.now) (O.contents output.old) (O.contents output.new))
        (E.contents errors.old) (E.contents errors.new) }
{
    match Command::read(rt.alloc(), words) {
        Ok(command) => perform(rt, host, command, input, output, errors).code(),
        Err(unread) => answer(unread, help_for(words), output, errors).code(),
    }
}

// Does what is asked, and tells on standard error why it could not be done.
#[tactic(auto, using(crate::proofs::Ends::output_kept))]
fn perform<R: NamedFiles + Clock + AllocGlobal, H: Ports, I: Read, O: Output, E: Write>(
    rt: &R,
    host: &mut H,
    command: Command<'_>,
    input: &mut I,
    output: &mut O,
    errors: &mut E,
) -> Status
where
    <H::Listener as OpenListener>::Stream: Read + Write + OpenStream,
    ensures done { Performs
        (record {
          reads = IsReadOf (R.opens rt.now) R.File.remaining;
          hosts = IsHosted H.Register.meaning
              (hosting_of H.listens H.waits H.Waiter.does H.Register.serves
              (EndedOn (wire_of H.Listener.Stream.remaining H.Listener.Stream.contents)));
          meaning = H.Register.meaning;
          tells = H.Register.tells;
        })
        (record { does = H.does; begun = host.old; ended = host.new }) command.entry
        (I.remaining input.old) (I.remaining input.new)
        (streams_of (O.contents output.old) (O.contents output.new)
        (E.contents errors.old) (E.contents errors.new) (exit_code result)) }
    ensures flushed { exit_code result ≤ 1 → O.is_flushed output.new }
{
    match command {
        Command::Check(source) => check(rt, host, source, input, output, errors),
        Command::Init(asked) => init(rt, host, asked, output, errors),
        Command::Exchange(asked) => exchange(rt, host, asked, output, errors),
        Command::Serve(asked) => serve(rt, host, asked, output, errors),
        Command::Report(asked) => report(rt.alloc(), host, &asked, output, errors),
        Command::Migrate(asked) => migrate(host, asked, output, errors),
    }
}

// Answers words that ask for no command: this help on standard output, or what is wrong with them
// on standard error.
#[tactic(auto, using(crate::proofs::Ends::output_kept, crate::proofs::Ends::part_none))]
fn answer<O: Output, E: Write>(
    unread: Unread<'_>,
    help: &str,
    output: &mut O,
    errors: &mut E,
) -> Status
    ensures memory { kind_of_answer unread.entry ≡ ErrorKind.OutOfMemory → (result ≡ Status.Failed)
        × IsFailureWritten IsWantOfMemory (E.contents errors.old) (E.contents errors.new) }
    ensures never { result ≢ Status.Refused }
    ensures done { result ≡ Status.Done → (kind_of_answer unread.entry ≡ ErrorKind.DisplayHelp)
        × Appends (O.contents output.old) (O.contents output.new) help.now }
    ensures flushed { exit_code result ≤ 1 → O.is_flushed output.new }
    ensures help { AppendsPart (O.contents output.old) (O.contents output.new) help.now }
    ensures kept { kind_of_answer unread.entry ≢ ErrorKind.DisplayHelp
        → Keeps (O.contents output.old) (O.contents output.new) }
    ensures silent { result ≡ Status.Done → Keeps (E.contents errors.old) (E.contents errors.new) }
    ensures wrong { result ≡ Status.Usage → (kind_of_answer unread.entry ≢ ErrorKind.DisplayHelp)
        × (kind_of_answer unread.entry ≢ ErrorKind.OutOfMemory) }
    ensures told { result ≡ Status.Failed
        → IsFailureWritten (IsMetPrinting (O.contents output.old) (O.contents output.new))
        (E.contents errors.old) (E.contents errors.new) }
{
    match unread.kind() {
        ErrorKind::OutOfMemory => Failure::Memory.tell(errors),
        ErrorKind::DisplayHelp => match write_text(output, help.as_bytes()) {
            Ok(()) => Status::Done,
            Err(failure) => failure.tell(errors),
        },
        _ => {
            let _ = write!(errors, "{unread}");
            Status::Usage
        }
    }
}
