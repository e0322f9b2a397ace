//! The words of `bor serve`.

ghost use Rattle.std.specs.Prelude.{◌≡◌, None, IfErr, IfOk, OnOk};
ghost use Rattle.clap.specs.Words.{found_of, rows_of};
ghost use Rattle.bor_words.specs.Asked.{IsServe};
ghost use Rattle.bor_words.specs.Unread.{IsUnfitAmong};
ghost use Rattle.bor_words.specs.Values.{first_unfit, serve_values};

use crate::matches::{given, is_set};
use crate::unread::Unread;
use crate::values::{connections, memory, port};
use clap::ArgMatches;

/// The request of `bor serve`: to answer requests over HTTP, one after the other.
#[derive(Clone, Copy, PartialEq, Eq)]
pub struct Serve<'a> {
    /// The register's file.
    pub db: &'a str,
    /// The port on 127.0.0.1, from 1 on.
    pub port: u16,
    /// After so many connections it ends: at most 1,000,000.
    pub connections: u32,
    /// How many megabytes the register in memory may take: at most 1,000,000, and none at 0.
    pub memory: u32,
    /// Whether a line is printed for each request.
    pub log: bool,
}

impl<'a> Serve<'a> {
    /// Reads the words that were found behind the command's name.
    pub(crate) fn read(found: &ArgMatches<'a>) -> Result<Self, Unread<'a>>
        ensures ok { IfOk result (IsServe (rows_of (found_of found.now))) }
        ensures fits { OnOk result
            (first_unfit (serve_values (rows_of (found_of found.now))) ≡ None) }
        ensures err { IfErr result
            (IsUnfitAmong (rows_of (found_of found.now))
            (serve_values (rows_of (found_of found.now)))) }
    {
        Ok(Serve {
            db: given(found, "db"),
            port: port(found)?,
            connections: connections(found)?,
            memory: memory(found)?,
            log: is_set(found, "log"),
        })
    }
}
