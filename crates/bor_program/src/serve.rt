//! `bor serve`.

ghost use Rattle.std.specs.Prelude.{◌≡◌, ◌≤◌, ◌⊎◌, IfErr, IfOk, OnErr, OnOk};
ghost use Rattle.std.specs.Io.KnownBytes.{Appends};
ghost use Rattle.bor_program.specs.Connections.Serving.{IsServed};
ghost use Rattle.bor_program.specs.Connections.Streams.{EndedOn, wire_of};
ghost use Rattle.bor_program.specs.Failures.{IsMetListening};
ghost use Rattle.bor_program.specs.Hosting.{IsHosted, hosting_of};
ghost use Rattle.bor_program.specs.Performing.{Serves, listening};
ghost use Rattle.bor_program.specs.Program.{exit_code};
ghost use Rattle.bor_program.specs.Streams.{AppendsPart, streams_of};

use crate::connections::Limits;
use crate::failure::Failure;
use crate::host::{OpenRegister, Ports, Stage};
use crate::output::{Output, write_text};
use crate::status::Status;
use bor_words::Serve;
use std::alloc::Global;
use std::io::{Read, Write};
use std::net::{OpenListener, OpenStream};
use std::time::Clock;

/// Answers requests over HTTP in the register in a file, of many clients at once, on a port of
/// 127.0.0.1. Once it listens, it prints that; at the end the register is closed. What the log has
/// is the host's to write.
pub fn serve<R: Clock + AllocGlobal, H: Ports, O: Output, E: Write>(
    rt: &R,
    host: &mut H,
    asked: Serve<'_>,
    output: &mut O,
    errors: &mut E,
) -> Status
where
    <H::Listener as OpenListener>::Stream: Read + Write + OpenStream,
    ensures done { Serves
        (IsHosted H.Register.meaning (hosting_of H.listens H.waits H.Waiter.does H.Register.serves
        (EndedOn (wire_of H.Listener.Stream.remaining H.Listener.Stream.contents))))
        H.Register.meaning (record { does = H.does; begun = host.old; ended = host.new })
        asked.entry (streams_of (O.contents output.old) (O.contents output.new)
        (E.contents errors.old) (E.contents errors.new) (exit_code result)) }
    ensures flushed { exit_code result ≤ 1 → O.is_flushed output.new }
{
    host.reach(Stage::Opening(asked.db));
    match host.open_to_serve(asked.db, asked.memory, asked.log) {
        Ok(mut register) => {
            let served = listen(rt, host, &mut register, asked, output);
            host.close(asked.db, register);
            match served {
                Ok(status) => status,
                Err(failure) => failure.tell(errors),
            }
        }
        Err(failure) => failure.tell(errors),
    }
}

// Listens on the port, prints that, and serves.
fn listen<'a, R: Clock + AllocGlobal, H: Ports, O: Output>(
    rt: &R,
    host: &H,
    register: &mut H::Register,
    asked: Serve<'_>,
    output: &mut O,
) -> Result<Status, Failure<'a>>
where
    <H::Listener as OpenListener>::Stream: Read + Write + OpenStream,
    ensures hosted { IfOk result (λ status. IsHosted H.Register.meaning
        (hosting_of H.listens H.waits H.Waiter.does H.Register.serves
        (EndedOn (wire_of H.Listener.Stream.remaining H.Listener.Stream.contents)))
        asked.entry register.old register.new (exit_code status)) }
    ensures ok { IfOk result (λ status.
        IsServed H.Register.meaning register.old register.new asked.entry.connections
        (exit_code status)
        × Appends (O.contents output.old) (O.contents output.new) (listening asked.entry.port)) }
    ensures part { AppendsPart (O.contents output.old) (O.contents output.new)
        (listening asked.entry.port) }
    ensures flushed { OnOk result (O.is_flushed output.new) }
    ensures err { IfErr result (IsMetListening (O.contents output.old) (O.contents output.new)) }
    ensures unserved { OnErr result (register.new ≡ register.old) }
{
    let Some(listener) = host.listen(asked.port) else {
        return Err(Failure::Unlistening);
    };
    announce(rt.alloc(), asked.port, output)?;
    let mut waiter = host.waiter(asked.log);
    let limits = Limits::of_a_server();
    let served = register.serve(rt, &listener, &mut waiter, asked.connections, limits);
    Ok(server_status(served))
}

// Prints that the port is listened on.
fn announce<'a, O: Output>(alloc: Global, port: u16, output: &mut O) -> Result<(), Failure<'a>>
    ensures ok { OnOk result
        (Appends (O.contents output.old) (O.contents output.new) (listening port)) }
    ensures part { AppendsPart (O.contents output.old) (O.contents output.new) (listening port) }
    ensures flushed { OnOk result (O.is_flushed output.new) }
    ensures err { IfErr result (IsMetListening (O.contents output.old) (O.contents output.new)) }
{
    let line = format!(in alloc; "listening 127.0.0.1:{port}\n")?;
    write_text(output, line.as_bytes())
}

// How a server ended that gave this status: 0, or 3 where a connection failed.
fn server_status(served: u8) -> Status
    ensures { (served ≡ 0) ⊎ (served ≡ 3) → exit_code result ≡ served }
{
    if served == 0 {
        Status::Done
    } else {
        Status::Failed
    }
}
