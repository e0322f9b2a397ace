//! `bor`, a register of beneficial ownership on the command line.
#![tactic(auto)]

mod host;
mod served;
mod setup;
mod start;
mod waiting;

use bor_program::{Failure, Output, Status, joined, write_text};
use host::Host;
use start::Anything;
use std::env::{self, Env};
use std::io::{self, ErrorKind, Stderr, Stdin, Stdout, Write};
use std::process::ExitCode;

// The version of the program, and of the tables that it opens.
const VERSION: &str = "bor 0.1.0 (tables of version 2)\n";

// Runs on the words after the program's name and on the three standard streams, and exits with the
// status that the run gave. Where the words can't be read, it tells why on standard error.
fn main(rt: HostRuntime) -> ExitCode {
    let mut errors = rt.stderr();
    let code = match words(&rt) {
        Ok(words) if asks_for_version(words.as_slice()) => {
            tell_version(&mut rt.stdout(), &mut errors).code()
        }
        Ok(words) => run(
            &rt,
            words.as_slice(),
            &mut rt.stdin(),
            &mut rt.stdout(),
            &mut errors,
        ),
        Err(error) => tell_unread(&error, &mut errors).code(),
    };
    ExitCode::from(code)
}

// Does what the words ask for, over registers in files and ports of this machine, as
// `bor_program::run` does, and gives the exit status.
fn run(
    rt: &HostRuntime,
    words: &[String],
    input: &mut Stdin,
    output: &mut Stdout,
    errors: &mut Stderr,
) -> u8 {
    let mut host = Host::new(rt, Anything);
    bor_program::run(rt, &mut host, words, input, output, errors)
}

// The words after the program's name, as clap takes them: a value that begins with a hyphen is
// joined with its option.
fn words<R: Env + AllocGlobal>(rt: &R) -> io::Result<Vec<String>> {
    let words: Vec<String> = env::args(rt)?.skip(1).collect(rt.alloc())?;
    Ok(joined(rt.alloc(), words.as_slice())?)
}

// Whether the words are `--version` or `-V` alone.
fn asks_for_version(words: &[String]) -> bool {
    match words.first() {
        Some(word) if words.len() == 1 => word.as_str() == "--version" || word.as_str() == "-V",
        _ => false,
    }
}

// Prints the version.
fn tell_version<O: Output, E: Write>(output: &mut O, errors: &mut E) -> Status {
    match write_text(output, VERSION.as_bytes()) {
        Ok(()) => Status::Done,
        Err(failure) => failure.tell(errors),
    }
}

// Tells on standard error why the words could not be read.
fn tell_unread<E: Write>(error: &io::Error, errors: &mut E) -> Status {
    if error.kind() == ErrorKind::OutOfMemory {
        return Failure::Memory.tell(errors);
    }
    let _ = writeln!(errors, "error: a word on the command line is not UTF-8");
    Status::Usage
}
