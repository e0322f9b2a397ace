//! The files of `bor exchange`, each with one request.

ghost use Rattle.std.specs.Prelude.{◌≡◌, ◌+◌, ◌⊎◌, ◌++◌, ◌∷◌, [], IfErr, IfOk, IfSome, OnOk, length, map, take};
ghost use Rattle.std.specs.Io.KnownBytes.{Keeps};
ghost use Rattle.bor_program.specs.Failures.{TellsUnread};
ghost use Rattle.bor_program.specs.Inputs.{AreReadOf, IsReadOf};
ghost use Rattle.bor_http.specs.Incoming.Message.{request_limit};

use crate::failure::Failure;
use crate::host::{NamedFiles, Registers, Stage};
use crate::status::Status;
use bor_http::incoming::REQUEST_LIMIT;
use bor_words::Source;
use std::alloc::{AllocError, Global};
use std::io::{self, ErrorKind, Read, Write};

/// The inputs that were read of the files.
#[derive(Drop)]
pub struct Inputs {
    /// The requests, in the order of the files; without those of files that can't be read.
    pub requests: Vec<Vec<u8>>,
    /// `Failed` where a file can't be read, and else `Done`.
    pub status: Status,
}

/// Reads the files, tells the host how many were read, and tells of each that can't be read.
///
/// # Errors
///
/// `Memory`.
pub fn read_inputs<R: NamedFiles + AllocGlobal, H: Registers, E: Write>(
    rt: &R,
    host: &H,
    files: &[&str],
    errors: &mut E,
) -> Result<Inputs, Failure<'static>>
    ensures read { IfOk result (λ inputs.
        AreReadOf (IsReadOf (R.opens rt.now) R.File.remaining request_limit) files.now
        (map (λ v. v.items) inputs.requests.items)) }
    ensures status { IfOk result (λ inputs.
        (inputs.status ≡ Status.Done) ⊎ (inputs.status ≡ Status.Failed)) }
    ensures count { IfOk result (λ inputs.
        inputs.status ≡ Status.Done → length inputs.requests.items ≡ length files.now) }
    ensures silent { IfOk result (λ inputs.
        inputs.status ≡ Status.Done → Keeps (E.contents errors.old) (E.contents errors.new)) }
    ensures told { TellsUnread files.now (E.contents errors.old) (E.contents errors.new) }
    ensures err { IfErr result (λ failure. failure ≡ Failure.Memory) }
{
    let mut requests = Vec::new(rt.alloc());
    let mut status = Status::Done;
    for name in files {
        host.reach(Stage::Reading {
            read: requests.len(),
            files: files.len(),
        });
        match read_input(rt, name) {
            Ok(bytes) => add(&mut requests, bytes)?,
            Err(error) if error.kind() == ErrorKind::OutOfMemory => return Err(Failure::Memory),
            Err(_) => status = Failure::Unreadable(Source::File(name)).tell(errors),
        }
    }
    Ok(Inputs { requests, status })
}

fn add(requests: &mut Vec<Vec<u8>>, bytes: Vec<u8>) -> Result<(), AllocError>
    ensures added { OnOk result (requests.new.items ≡ requests.old.items ++ bytes ∷ []) }
    ensures count { OnOk result (length requests.new.items ≡ length requests.old.items + 1) }
{
    requests.push(bytes)?;
    Ok(())
}

// The request in the file of this name.
fn read_input<R: NamedFiles + AllocGlobal>(rt: &R, name: &str) -> io::Result<Vec<u8>>
    ensures { IfOk result (λ read.
        IsReadOf (R.opens rt.now) R.File.remaining request_limit name.entry read.items) }
{
    let file = rt.open_named(name)?;
    read_request(rt.alloc(), file)
}

/// The bytes of a request, as far as one may go.
///
/// # Errors
///
/// The input's own: it can't be read, or not to its end. `OutOfMemory`: memory is wanting.
pub fn read_request<I: Read + Drop>(alloc: Global, input: I) -> io::Result<Vec<u8>>
    ensures { IfSome (I.remaining input) (λ bytes.
        IfOk result (λ read. read.items ≡ take request_limit bytes)) }
{
    let mut bytes = Vec::new(alloc);
    input.take(REQUEST_LIMIT as u64).read_to_end(&mut bytes)?;
    Ok(bytes)
}
