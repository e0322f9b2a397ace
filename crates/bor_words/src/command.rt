//! The commands that the words on the command line ask for.

ghost use Rattle.std.specs.Prelude.{◌≡◌, [], None, IfOk, IfErr, OnOk, map, option_map};
ghost use Rattle.clap.specs.Words.{HasKind, fault_of, subcommand_rows_of};
ghost use Rattle.bor_words.specs.Asked.{IsAsked, IsCommand};
ghost use Rattle.bor_words.specs.Unread.{IsFaultOfWords, IsUnfitAmong};
ghost use Rattle.bor_words.specs.Values.{first_unfit, values_of};
ghost use Rattle.bor_words.specs.Words.{bor_app, entered_by, name_at, entered_rows};

use crate::exchange::Exchange;
use crate::init::Init;
use crate::matches::{behind, optional};
use crate::migrate::Migrate;
use crate::parser::parser;
use crate::report::Report;
use crate::serve::Serve;
use crate::source::Source;
use crate::unread::Unread;
use clap::{ArgMatches, Error};
use std::alloc::Global;
use std::convert::AsStr;

/// A command of `bor`.
#[derive(Drop, PartialEq, Eq)]
pub enum Command<'a> {
    /// Lodge the file into an empty register, and print what becomes of it.
    Check(Source<'a>),
    /// Set up a register in a file.
    Init(Init<'a>),
    /// Answer the requests in files.
    Exchange(Exchange<'a>),
    /// Answer requests over HTTP.
    Serve(Serve<'a>),
    /// Print who stands behind an entity.
    Report(Report<'a>),
    /// Move a register of an earlier version to the tables of this program.
    Migrate(Migrate<'a>),
}

impl<'a> Command<'a> {
    /// The command that the words after the program's name ask for.
    ///
    /// # Errors
    ///
    /// Clap's answer to a request for help or to words that ask for nothing; the first value that
    /// doesn't fit its word; or want of memory.
    pub fn read<S: AsStr>(alloc: Global, words: &'a [S]) -> Result<Self, Unread<'a>>
        ensures ok { OnOk result (IsCommand (map S.text words.entry.now)) }
        ensures asked { IfOk result (IsAsked (entered_by (map S.text words.entry.now))) }
        ensures err { IfErr result (IsFaultOfWords (map S.text words.entry.now)) }
    {
        match parsed(alloc, words) {
            Ok(matches) => Command::of(alloc, &matches),
            Err(error) => Err(Unread::Answered(error)),
        }
    }

    // The command that clap found.
    fn of(alloc: Global, matches: &ArgMatches<'a>) -> Result<Self, Unread<'a>>
        ensures fits { OnOk result
            (first_unfit (values_of (subcommand_rows_of matches.now)) ≡ None) }
        ensures asked { IfOk result (IsAsked (subcommand_rows_of matches.now)) }
        ensures err { IfErr result
            (IsUnfitAmong (entered_rows (subcommand_rows_of matches.now))
            (values_of (subcommand_rows_of matches.now))) }
    {
        if let Some(found) = behind(matches, "exchange") {
            return Ok(Command::Exchange(Exchange::read(alloc, found)?));
        }
        if let Some(found) = behind(matches, "serve") {
            return Ok(Command::Serve(Serve::read(found)?));
        }
        if let Some(found) = behind(matches, "report") {
            return Ok(Command::Report(Report::read(alloc, found)?));
        }
        if let Some(found) = behind(matches, "init") {
            return Ok(Command::Init(Init::read(alloc, found)?));
        }
        if let Some(found) = behind(matches, "migrate") {
            return Ok(Command::Migrate(Migrate::read(found)));
        }
        Ok(Command::Check(Source::of(name_given(matches))))
    }
}

// The words that clap finds after the program's name.
fn parsed<'a, S: AsStr>(alloc: Global, words: &'a [S]) -> Result<ArgMatches<'a>, Error>
    ensures clean { OnOk result (fault_of bor_app (map S.text words.entry.now) ≡ []) }
    ensures found { IfOk result (λ matches.
        subcommand_rows_of matches ≡ entered_by (map S.text words.entry.now)) }
    ensures err { IfErr result (HasKind (fault_of bor_app (map S.text words.entry.now))) }
{
    parser(alloc)?.try_get_matches_from(words)
}

// The source that is named behind check.
fn name_given<'a>(matches: &ArgMatches<'a>) -> Option<&'a str>
    ensures { option_map (λ name. name.now) result ≡ name_at (subcommand_rows_of matches.now) }
{
    optional(behind(matches, "check")?, "FILE")
}
