//! The words of `bor init`.

ghost use Rattle.std.specs.Prelude.{◌≡◌, None, IfErr, IfOk, OnOk};
ghost use Rattle.clap.specs.Words.{found_of, rows_of};
ghost use Rattle.bor_words.specs.Asked.{IsInit};
ghost use Rattle.bor_words.specs.Unread.{IsUnfitAmong};
ghost use Rattle.bor_words.specs.Values.{first_unfit, init_values};

use crate::matches::given;
use crate::registrar::RegistrarSource;
use crate::unread::Unread;
use crate::values::day;
use bor_terms::Day;
use clap::ArgMatches;
use std::alloc::Global;

/// The request of `bor init`: to set up a register in a file that has none.
#[derive(Drop, PartialEq, Eq)]
pub struct Init<'a> {
    /// The register's file.
    pub db: &'a str,
    /// Where the registrar's token stands.
    pub registrar: RegistrarSource<'a>,
    /// The register's day.
    pub day: Day,
}

impl<'a> Init<'a> {
    /// Reads the words that were found behind the command's name.
    pub(crate) fn read(alloc: Global, found: &ArgMatches<'a>) -> Result<Self, Unread<'a>>
        ensures ok { IfOk result (IsInit (rows_of (found_of found.now))) }
        ensures fits { OnOk result
            (first_unfit (init_values (rows_of (found_of found.now))) ≡ None) }
        ensures err { IfErr result
            (IsUnfitAmong (rows_of (found_of found.now))
            (init_values (rows_of (found_of found.now)))) }
    {
        let registrar = RegistrarSource::read(alloc, found)?;
        let day = day(found, "day")?;
        Ok(Init {
            db: given(found, "db"),
            registrar,
            day,
        })
    }
}
