//! `bor exchange`.

ghost use Rattle.std.specs.Prelude.{◌≡◌, ◌≤◌, IfErr, OnOk, map};
ghost use Rattle.std.specs.Io.KnownBytes.{Appends, Keeps};
ghost use Rattle.bor_http.specs.Incoming.Message.{request_limit};
ghost use Rattle.bor_program.specs.Failures.{IsMetPrinting, TellsFiles};
ghost use Rattle.bor_program.specs.Inputs.{IsReadOf};
ghost use Rattle.bor_program.specs.Performing.{Exchanges, ExchangesOnceTold};
ghost use Rattle.bor_program.specs.Program.{exit_code};
ghost use Rattle.bor_program.specs.Replying.{AreAnswers, EndsFiles, EndsSending, replies_status, reply_status, sent};
ghost use Rattle.bor_program.specs.Streams.{AppendsPart, streams_of};

use crate::failure::Failure;
use crate::host::{NamedFiles, OpenRegister, Opened, Registers, Stage};
use crate::inputs::read_inputs;
use crate::output::{Output, write_part};
use crate::registrar::{Exchanging, token_told};
use crate::status::Status;
use bor_desk::operations::ListKeep;
use bor_wire::Reply;
use bor_words::Exchange;
use std::alloc::Global;
use std::io::Write;

/// Does what `bor exchange` is asked to do, once the registrar's token is known; where it isn't, a
/// line says so.
pub fn exchange<R: NamedFiles + AllocGlobal, H: Registers, O: Output, E: Write>(
    rt: &R,
    host: &mut H,
    asked: Exchange<'_>,
    output: &mut O,
    errors: &mut E,
) -> Status
    ensures done { ExchangesOnceTold (IsReadOf (R.opens rt.now) R.File.remaining)
        H.Register.meaning (record { does = H.does; begun = host.old; ended = host.new })
        asked.entry (streams_of (O.contents output.old) (O.contents output.new)
        (E.contents errors.old) (E.contents errors.new) (exit_code result)) }
    ensures flushed { exit_code result ≤ 1 → O.is_flushed output.new }
{
    let Exchange {
        db,
        registrar,
        day,
        files,
    } = asked;
    match token_told(rt, registrar) {
        Ok(registrar) => {
            let asked = Exchanging {
                db,
                registrar,
                day,
                files,
            };
            exchange_told(rt, host, asked, output, errors)
        }
        Err(failure) => failure.tell(errors),
    }
}

// Answers the requests in files in turn, in the register in a file, which is closed then, or in a
// new one in memory, and prints the replies in order. A file that can't be read is reported, and
// the next one is taken.
fn exchange_told<R: NamedFiles + AllocGlobal, H: Registers, O: Output, E: Write>(
    rt: &R,
    host: &mut H,
    asked: Exchanging<'_>,
    output: &mut O,
    errors: &mut E,
) -> Status
    ensures done { Exchanges (IsReadOf (R.opens rt.now) R.File.remaining request_limit)
        H.Register.meaning (record { does = H.does; begun = host.old; ended = host.new })
        asked.entry (streams_of (O.contents output.old) (O.contents output.new)
        (E.contents errors.old) (E.contents errors.new) (exit_code result)) }
    ensures flushed { exit_code result ≤ 1 → O.is_flushed output.new }
{
    let Exchanging {
        db,
        registrar,
        day,
        files,
    } = asked;
    match db {
        Some(path) => {
            host.reach(Stage::Opening(path));
            match host.open_or_set_up(path, &registrar, day) {
                Ok(
                    Opened {
                        mut register,
                        origin: _,
                    },
                ) => {
                    let status = exchange_files(
                        rt,
                        host,
                        &mut register,
                        files.as_slice(),
                        output,
                        errors,
                    );
                    host.close(path, register);
                    status
                }
                Err(failure) => failure.tell(errors),
            }
        }
        None => {
            let mut register = ListKeep::new(rt.alloc(), registrar, day);
            exchange_files(rt, host, &mut register, files.as_slice(), output, errors)
        }
    }
}

// Answers the requests in these files in the register.
fn exchange_files<R: NamedFiles + AllocGlobal, H: Registers, K: OpenRegister, O: Output, E: Write>(
    rt: &R,
    host: &H,
    register: &mut K,
    files: &[&str],
    output: &mut O,
    errors: &mut E,
) -> Status
    ensures ends { EndsFiles
        (AreAnswers K.meaning register.old
        register.new) (IsReadOf (R.opens rt.now) R.File.remaining request_limit) files.now
        (O.contents output.old) (O.contents output.new) (exit_code result) }
    ensures flushed { exit_code result ≤ 1 → O.is_flushed output.new }
    ensures silent { exit_code result ≤ 1 → Keeps (E.contents errors.old) (E.contents errors.new) }
    ensures told { TellsFiles files.now (O.contents output.old) (O.contents output.new)
        (E.contents errors.old) (E.contents errors.new) }
{
    match read_inputs(rt, host, files, errors) {
        Ok(inputs) => {
            host.reach(Stage::Answering(inputs.requests.len()));
            match exchange_on(rt.alloc(), register, inputs.requests.as_slice(), output) {
                Ok(status) => status.worse(inputs.status),
                Err(failure) => failure.tell(errors),
            }
        }
        Err(failure) => failure.tell(errors),
    }
}

/// Answers inputs in turn, and prints exactly the replies to them, in order, which are handed on.
///
/// # Errors
///
/// `Memory`: nothing was answered. `Unwritable`: the inputs are answered, and the replies can't be
/// written, or not to their end, or not handed on.
pub fn exchange_on<'a, K: OpenRegister, O: Output>(
    alloc: Global,
    register: &mut K,
    inputs: &[Vec<u8>],
    output: &mut O,
) -> Result<Status, Failure<'a>>
    ensures sent { EndsSending
        (AreAnswers K.meaning register.old
        register.new) (map (λ v. v.items) inputs.now)
        (O.contents output.old) (O.contents output.new) result }
    ensures flushed { OnOk result (O.is_flushed output.new) }
    ensures err { IfErr result (IsMetPrinting (O.contents output.old) (O.contents output.new)) }
{
    let replies = register.replay(alloc, inputs)?;
    send(output, replies.as_slice())?;
    Ok(status_of(replies.as_slice()))
}

// Writes the replies in order, as far as they can be written, and hands them on.
fn send<'a, O: Output>(output: &mut O, replies: &[Reply]) -> Result<(), Failure<'a>>
    ensures ok { OnOk result
        (Appends (O.contents output.old) (O.contents output.new) (sent replies.now)) }
    ensures part { AppendsPart (O.contents output.old) (O.contents output.new) (sent replies.now) }
    ensures flushed { OnOk result (O.is_flushed output.new) }
    ensures err { IfErr result (λ failure. failure ≡ Failure.Unwritable) }
{
    for reply in replies {
        if !write_part(output, reply.bytes()) {
            return Err(Failure::Unwritable);
        }
    }
    match output.hand_on() {
        Ok(()) => Ok(()),
        Err(_) => Err(Failure::Unwritable),
    }
}

// The greatest end that a reply asks for.
fn status_of(replies: &[Reply]) -> Status
    ensures { exit_code result ≡ replies_status replies.now }
{
    let mut status = Status::Done;
    for reply in replies {
        status = status.worse(reply_status(reply));
    }
    status
}

fn reply_status(reply: &Reply) -> Status
    ensures { exit_code result ≡ reply_status reply.now }
{
    let status = reply.status();
    if status == 503 {
        Status::Failed
    } else if status >= 400 {
        Status::Refused
    } else {
        Status::Done
    }
}
