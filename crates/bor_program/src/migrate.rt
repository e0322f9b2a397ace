//! `bor migrate`.

ghost use Rattle.std.specs.Prelude.{◌≡◌, ◌≤◌};
ghost use Rattle.std.specs.Io.KnownBytes.{Keeps};
ghost use Rattle.bor_program.specs.Failures.{failure_line};
ghost use Rattle.bor_program.specs.Performing.{PerformsMigration, migrated};
ghost use Rattle.bor_program.specs.Program.{IsWrittenOrCutOff, exit_code};
ghost use Rattle.bor_program.specs.Streams.{AppendsPart, streams_of};

use crate::failure::Failure;
use crate::host::{Registers, Stage};
use crate::output::{Output, write_text};
use crate::status::Status;
use bor_words::Migrate;
use std::io::Write;

/// Moves the register in a file to the tables of this program, and prints their version.
pub fn migrate<H: Registers, O: Output, E: Write>(
    host: &mut H,
    asked: Migrate<'_>,
    output: &mut O,
    errors: &mut E,
) -> Status
    ensures done { PerformsMigration (record { does = H.does; begun = host.old; ended = host.new })
        asked.entry (streams_of (O.contents output.old) (O.contents output.new)
        (E.contents errors.old) (E.contents errors.new) (exit_code result)) }
    ensures flushed { exit_code result ≤ 1 → O.is_flushed output.new }
{
    host.reach(Stage::Opening(asked.db));
    match host.migrate(asked.db) {
        Ok(()) => print_version(output, errors),
        Err(failure) => failure.tell(errors),
    }
}

// Prints the version of the program's tables, and tells where that can't be done.
fn print_version<O: Output, E: Write>(output: &mut O, errors: &mut E) -> Status
    ensures text { IsWrittenOrCutOff migrated (O.contents output.old) (O.contents output.new)
        (exit_code result) }
    ensures flushed { exit_code result ≤ 1 → O.is_flushed output.new }
    ensures silent { exit_code result ≤ 1 → Keeps (E.contents errors.old) (E.contents errors.new) }
    ensures told { exit_code result ≡ 3
        → AppendsPart (E.contents errors.old) (E.contents errors.new)
        (failure_line Failure.Unwritable) }
{
    match write_text(output, "version 2\n".as_bytes()) {
        Ok(()) => Status::Done,
        Err(unwritable) => unwritable.tell(errors),
    }
}
