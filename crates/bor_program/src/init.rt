//! `bor init`.

ghost use Rattle.std.specs.Prelude.{◌≡◌, ◌≤◌};
ghost use Rattle.std.specs.Io.KnownBytes.{Keeps};
ghost use Rattle.bor_program.specs.Inputs.{IsReadOf};
ghost use Rattle.bor_program.specs.Performing.{EndsSettingUp, Inits, InitsOnceTold, IsDoneOrFailed};
ghost use Rattle.bor_program.specs.Program.{exit_code};
ghost use Rattle.bor_program.specs.Streams.{streams_of};

use crate::failure::Failure;
use crate::host::{NamedFiles, Opened, Origin, Registers, Stage};
use crate::output::Output;
use crate::registrar::token_told;
use crate::status::Status;
use bor_terms::{Day, Token};
use bor_words::Init;
use std::alloc::Global;
use std::io::Write;

/// Does what `bor init` is asked to do, once the registrar's token is known; where it isn't, a line
/// says so.
pub fn init<R: NamedFiles + AllocGlobal, H: Registers, O: Output, E: Write>(
    rt: &R,
    host: &mut H,
    asked: Init<'_>,
    output: &mut O,
    errors: &mut E,
) -> Status
    ensures done { InitsOnceTold (IsReadOf (R.opens rt.now) R.File.remaining) H.Register.meaning
        (record { does = H.does; begun = host.old; ended = host.new }) asked.entry
        (streams_of (O.contents output.old) (O.contents output.new)
        (E.contents errors.old) (E.contents errors.new) (exit_code result)) }
    ensures flushed { exit_code result ≤ 1 → O.is_flushed output.new }
{
    let Init { db, registrar, day } = asked;
    match token_told(rt, registrar) {
        Ok(registrar) => init_told(host, db, &registrar, day, output, errors),
        Err(failure) => failure.tell(errors),
    }
}

// Sets up a register of this day and registrar in the file of this name, where it has none, and
// closes it. What is still to be printed is handed on last, so that it doesn't keep a register from
// being set up.
fn init_told<H: Registers, O: Output, E: Write>(
    host: &mut H,
    path: &str,
    registrar: &Token,
    day: Day,
    output: &mut O,
    errors: &mut E,
) -> Status
    ensures done { Inits H.Register.meaning
        (record { does = H.does; begun = host.old; ended = host.new }) path.entry registrar.now day
        (streams_of (O.contents output.old) (O.contents output.new)
        (E.contents errors.old) (E.contents errors.new) (exit_code result)) }
    ensures flushed { exit_code result ≤ 1 → O.is_flushed output.new }
{
    host.reach(Stage::Opening(path));
    match host.open_or_set_up(path, registrar, day) {
        Ok(Opened { register, origin }) => {
            host.close(path, register);
            end_of(path, origin, output, errors)
        }
        Err(failure) => failure.tell(errors),
    }
}

// How it ends where a register came to be open like this: what is still to be printed is handed on
// where it was set up, and a line says where one was there.
fn end_of<O: Output, E: Write>(path: &str, origin: Origin, output: &mut O, errors: &mut E) -> Status
    ensures ended { EndsSettingUp path.entry origin (E.contents errors.old) (E.contents errors.new)
        (exit_code result) }
    ensures kept { Keeps (O.contents output.old) (O.contents output.new) }
    ensures flushed { exit_code result ≤ 1 → O.is_flushed output.new }
{
    match origin {
        Origin::Found => Failure::Registered(path).tell(errors),
        Origin::New => hand_on(output),
    }
}

// Hands on what is still to be printed.
fn hand_on<O: Output>(output: &mut O) -> Status
    ensures ended { IsDoneOrFailed (exit_code result) }
    ensures kept { Keeps (O.contents output.old) (O.contents output.new) }
    ensures flushed { exit_code result ≤ 1 → O.is_flushed output.new }
{
    match output.hand_on() {
        Ok(()) => Status::Done,
        Err(_) => Status::Failed,
    }
}
