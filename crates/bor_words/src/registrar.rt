//! The place of the registrar's token: a word or a file.

ghost use Rattle.std.specs.Prelude.{◌≡◌, true, IfErr, IfOk, OnOk, codes};
ghost use Rattle.clap.specs.Words.{first_of, found_of, rows_of};
ghost use Rattle.bor_words.specs.Asked.{IsRegistrar};
ghost use Rattle.bor_words.specs.Unread.{IsUnfitRegistrar};
ghost use Rattle.bor_words.specs.Values.{is_registrar};

use crate::matches::optional;
use crate::unread::Unread;
use crate::values::token;
use bor_terms::Token;
use clap::ArgMatches;
use std::alloc::Global;

/// The place of the registrar's token of a register that is set up.
#[derive(Drop, PartialEq, Eq)]
pub enum RegistrarSource<'a> {
    /// This is the token.
    Token(Token),
    /// It is the first line of the file of this name.
    File(&'a str),
}

impl<'a> RegistrarSource<'a> {
    /// Reads the words that were found behind the command's name.
    pub(crate) fn read(alloc: Global, found: &ArgMatches<'a>) -> Result<Self, Unread<'a>>
        ensures ok { IfOk result (IsRegistrar (rows_of (found_of found.now))) }
        ensures fits { OnOk result
            (is_registrar (first_of (codes "registrar") (rows_of (found_of found.now)))
            (first_of (codes "registrar-file") (rows_of (found_of found.now))) ≡ true) }
        ensures err { IfErr result (IsUnfitRegistrar (rows_of (found_of found.now))) }
    {
        match (
            optional(found, "registrar"),
            optional(found, "registrar-file"),
        ) {
            (Some(text), None) => Ok(RegistrarSource::Token(token(alloc, text)?)),
            (None, Some(name)) => Ok(RegistrarSource::File(name)),
            (None, None) => Err(Unread::NoRegistrar),
            (Some(_), Some(_)) => Err(Unread::TwoRegistrars),
        }
    }
}
