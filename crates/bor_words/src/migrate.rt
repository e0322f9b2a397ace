//! The words of `bor migrate`.

ghost use Rattle.std.specs.Prelude.{◌≡◌};
ghost use Rattle.clap.specs.Words.{found_of, rows_of};
ghost use Rattle.bor_words.specs.Asked.{IsMigrate};

use crate::matches::given;
use clap::ArgMatches;

/// The request of `bor migrate`: to move a register to the tables of this program.
#[derive(Clone, Copy, PartialEq, Eq)]
pub struct Migrate<'a> {
    /// The register's file.
    pub db: &'a str,
}

impl<'a> Migrate<'a> {
    /// Reads the words that were found behind the command's name.
    pub(crate) fn read(found: &ArgMatches<'a>) -> Self
        ensures { IsMigrate (rows_of (found_of found.now)) result }
    {
        Migrate {
            db: given(found, "db"),
        }
    }
}
