//! Why a command could not be done.

ghost use Rattle.std.specs.Prelude.{◌≡◌, ◌≢◌, ◌↔◌, ◌∷◌, ◌++◌, [], IsTrue, codes, map};
ghost use Rattle.std.specs.Io.KnownBytes.{Appends};
ghost use Rattle.std.specs.IoError.{error_kind};
ghost use Rattle.bor_program.specs.Failures.{IsReadingOf, IsWantOfMemory, failure_line, failure_of, texts_joined};
ghost use Rattle.bor_program.specs.Streams.{AppendsPart};
ghost use Rattle.bor_program.specs.declared.failure.Failure.TheVariants.{OtherVersion};

use crate::output::write_part;
use crate::status::Status;
use bor_desk::operations::StoreFault;
use bor_words::Source;
use itoa::Buffer;
use std::alloc::AllocError;
use std::io::{Error, ErrorKind, Write};

/// Why a command could not be done, though what it asks for is allowed.
#[derive(Clone, Copy, Debug, PartialEq, Eq)]
pub enum Failure<'a> {
    /// The input can't be read, or not to its end.
    Unreadable(Source<'a>),
    /// There is no register in the file of this name.
    NoRegister(&'a str),
    /// The register in the file of this name is of this version, which isn't that of the program's
    /// tables.
    OtherVersion(&'a str, i64),
    /// The file of this name has tables of another program, with names of a register's.
    Taken(&'a str),
    /// A register is in the file of this name already.
    Registered(&'a str),
    /// The first line of the file of this name is no token.
    NoToken(&'a str),
    /// Memory is wanting.
    Memory,
    /// The store failed, or the file is no database.
    Store,
    /// The port can't be listened on.
    Unlistening,
    /// Standard output can't be written.
    Unwritable,
}

impl<'a> Failure<'a> {
    /// The failure of opening or reading `source` with this error.
    pub fn of_reading(source: Source<'a>, error: &Error) -> Self
        ensures memory { (result ≡ Failure.Memory)
            ↔ (error_kind error.now ≡ ErrorKind.OutOfMemory) }
        ensures unreadable { error_kind error.now ≢ ErrorKind.OutOfMemory
            → result ≡ Failure.Unreadable source.entry }
        ensures source { IsReadingOf source.entry result }
    {
        match error.kind() {
            ErrorKind::OutOfMemory => Failure::Memory,
            _ => Failure::Unreadable(source),
        }
    }

    /// Tells the failure in one line on standard error, as far as it can be written, and nothing
    /// where it is standard output that can't be.
    pub fn tell<E: Write>(self, errors: &mut E) -> Status
        ensures status { result ≡ Status.Failed }
        ensures line { AppendsPart (E.contents errors.old) (E.contents errors.new)
            (failure_line self.entry) }
    {
        let _ = match self {
            Failure::Unreadable(source) => {
                write_named(errors, "bor: cannot read ", source.name(), "\n")
            }
            Failure::NoRegister(path) => write_named(errors, "bor: no register in ", path, "\n"),
            Failure::OtherVersion(path, version) => write_version(errors, path, version),
            Failure::Taken(path) => {
                write_named(errors, "bor: ", path, " is not free for a register\n")
            }
            Failure::Registered(path) => {
                write_named(errors, "bor: a register is in ", path, " already\n")
            }
            Failure::NoToken(name) => write_named(errors, "bor: no token in ", name, "\n"),
            Failure::Memory => write_part(errors, "bor: out of memory\n".as_bytes()),
            Failure::Store => write_part(errors, "bor: store failed\n".as_bytes()),
            Failure::Unlistening => write_part(errors, "bor: cannot listen\n".as_bytes()),
            Failure::Unwritable => true,
        };
        Status::Failed
    }
}

// Writes that the register in the file of this name is of another version.
fn write_version<E: Write>(errors: &mut E, path: &str, version: i64) -> bool
    ensures { AppendsPart (E.contents errors.old) (E.contents errors.new)
        (failure_line (OtherVersion path.entry version)) }
{
    let mut digits = Buffer::new();
    let version = digits.format(version);
    let texts = ["bor: register of version ", version, " in ", path, "\n"];
    write_texts(errors, &texts)
}

// Writes a name with the texts before and after it.
fn write_named<E: Write>(errors: &mut E, before: &str, name: &str, after: &str) -> bool
    ensures { AppendsPart (E.contents errors.old) (E.contents errors.new)
        (before.now ++ (name.now ++ after.now)) }
{
    write_texts(errors, &[before, name, after])
}

// Writes the texts as far as they can be written, and tells whether all were.
fn write_texts<E: Write>(errors: &mut E, texts: &[&str]) -> bool
    ensures part { AppendsPart (E.contents errors.old) (E.contents errors.new)
        (texts_joined (map (λ text. text.now) texts.now)) }
    ensures whole { IsTrue result
        → Appends (E.contents errors.old) (E.contents errors.new)
        (texts_joined (map (λ text. text.now) texts.now)) }
{
    for text in texts {
        if !write_part(errors, text.as_bytes()) {
            return false;
        }
    }
    true
}

impl From<StoreFault> for Failure<'_> {
    ghost from_gives = { λ fault failure. failure ≡ failure_of fault };

    fn from(fault: StoreFault) -> Self {
        match fault {
            StoreFault::Memory => Failure::Memory,
            StoreFault::Store | StoreFault::Damaged => Failure::Store,
        }
    }
}

impl From<AllocError> for Failure<'_> {
    ghost from_gives = { λ _ failure. IsWantOfMemory failure };

    fn from(_error: AllocError) -> Self {
        Failure::Memory
    }
}
