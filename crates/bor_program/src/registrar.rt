//! The registrar's token of a register that is set up.

ghost use Rattle.std.specs.Prelude.{◌≡◌, IfErr, IfOk};
ghost use Rattle.bor_terms.specs.Texts.{is_token};
ghost use Rattle.bor_wire.specs.Spelling.Parts.{text_in};
ghost use Rattle.bor_program.specs.Inputs.{IsReadOf};
ghost use Rattle.bor_program.specs.Registrars.{IsTokenOf, IsUntold, first_line, front_limit};

use crate::failure::Failure;
use crate::host::NamedFiles;
use bor_http::incoming::split_at_first;
use bor_terms::{Day, Token};
use bor_words::{RegistrarSource, Source};
use std::alloc::{AllocError, Global};
use std::io::{self, Read};

// More than the longest token and the end of its line.
const FRONT: u64 = 128;

/// The request of `bor exchange`, with the registrar's token.
#[derive(Drop)]
pub struct Exchanging<'a> {
    /// The register's file. Without one the register is a new one in memory.
    pub db: Option<&'a str>,
    /// The registrar's token of a register that is set up.
    pub registrar: Token,
    /// The day of a register that is set up.
    pub day: Day,
    /// The files, each with one request.
    pub files: Vec<&'a str>,
}

/// The token that the words tell: it itself, or the first line of the file that they name.
///
/// # Errors
///
/// `Unreadable`: the file can't be read. `NoToken`: its first line is no token. `Memory`.
pub fn token_told<'a, R: NamedFiles + AllocGlobal>(
    rt: &R,
    source: RegistrarSource<'a>,
) -> Result<Token, Failure<'a>>
    ensures ok { IfOk result
        (IsTokenOf (IsReadOf (R.opens rt.now) R.File.remaining) source.entry) }
    ensures err { IfErr result
        (IsUntold (IsReadOf (R.opens rt.now) R.File.remaining) source.entry) }
{
    match source {
        RegistrarSource::Token(token) => Ok(token),
        RegistrarSource::File(name) => token_in_file(rt, name),
    }
}

// The token in the file of this name.
fn token_in_file<'a, R: NamedFiles + AllocGlobal>(
    rt: &R,
    name: &'a str,
) -> Result<Token, Failure<'a>>
    ensures ok { IfOk result (IsTokenOf (IsReadOf (R.opens rt.now) R.File.remaining)
        (RegistrarSource.File name.entry)) }
    ensures err { IfErr result (IsUntold (IsReadOf (R.opens rt.now) R.File.remaining)
        (RegistrarSource.File name.entry)) }
{
    match read_front(rt, name) {
        Ok(bytes) => match token_of(rt.alloc(), first_line(bytes.as_slice()))? {
            Some(token) => Ok(token),
            None => Err(Failure::NoToken(name)),
        },
        Err(error) => Err(Failure::of_reading(Source::File(name), &error)),
    }
}

// The front of the file of this name, which has its first line where that may be a token.
fn read_front<R: NamedFiles + AllocGlobal>(rt: &R, name: &str) -> io::Result<Vec<u8>>
    ensures { IfOk result (λ read.
        IsReadOf (R.opens rt.now) R.File.remaining front_limit name.entry read.items) }
{
    let mut bytes = Vec::new(rt.alloc());
    let file = rt.open_named(name)?;
    file.take(FRONT).read_to_end(&mut bytes)?;
    Ok(bytes)
}

// The first line of bytes, without the end of the line.
fn first_line(bytes: &[u8]) -> &[u8]
    ensures { result.now ≡ first_line bytes.now }
{
    let (line, _) = split_at_first(bytes, b'\n');
    let (line, _) = split_at_first(line, b'\r');
    line
}

// The token that bytes are, if they are one.
fn token_of(alloc: Global, bytes: &[u8]) -> Result<Option<Token>, AllocError>
    ensures { IfOk result (λ found. found ≡ text_in is_token bytes.now) }
{
    match str::from_utf8(bytes) {
        Ok(text) => Token::read(alloc, text),
        Err(_) => Ok(None),
    }
}
