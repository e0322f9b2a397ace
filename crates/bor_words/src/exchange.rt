//! The words of `bor exchange`.

ghost use Rattle.std.specs.Prelude.{◌≡◌, None, IfErr, IfOk, OnOk};
ghost use Rattle.clap.specs.Words.{found_of, rows_of};
ghost use Rattle.bor_words.specs.Asked.{IsExchange};
ghost use Rattle.bor_words.specs.Unread.{IsUnfitAmong};
ghost use Rattle.bor_words.specs.Values.{exchange_values, first_unfit};

use crate::matches::{files_named, optional};
use crate::registrar::RegistrarSource;
use crate::unread::Unread;
use crate::values::day;
use bor_terms::Day;
use clap::ArgMatches;
use std::alloc::Global;

/// The request of `bor exchange`: to answer the requests in files, each in the register that the
/// one before it left.
#[derive(Drop, PartialEq, Eq)]
pub struct Exchange<'a> {
    /// The register's file. Without one the register is a new one in memory.
    pub db: Option<&'a str>,
    /// Where the registrar's token of a register that is set up stands.
    pub registrar: RegistrarSource<'a>,
    /// The day of a register that is set up.
    pub day: Day,
    /// The files, each with one request.
    pub files: Vec<&'a str>,
}

impl<'a> Exchange<'a> {
    /// Reads the words that were found behind the command's name.
    pub(crate) fn read(alloc: Global, found: &ArgMatches<'a>) -> Result<Self, Unread<'a>>
        ensures ok { IfOk result (IsExchange (rows_of (found_of found.now))) }
        ensures fits { OnOk result
            (first_unfit (exchange_values (rows_of (found_of found.now))) ≡ None) }
        ensures err { IfErr result
            (IsUnfitAmong (rows_of (found_of found.now))
            (exchange_values (rows_of (found_of found.now)))) }
    {
        let registrar = RegistrarSource::read(alloc, found)?;
        let day = day(found, "day")?;
        Ok(Exchange {
            db: optional(found, "db"),
            registrar,
            day,
            files: files_named(alloc, found)?,
        })
    }
}
