//! The words that clap found, by their names.

ghost use Rattle.std.specs.Prelude.{◌≡◌, IfOk, map, option_map};
ghost use Rattle.clap.specs.Words.{first_of, found_of, rows_of, subcommand_rows_of};
ghost use Rattle.bor_words.specs.Words.{files_named, found_behind, given, is_set};

use clap::ArgMatches;
use std::alloc::{AllocError, Global};

/// The words that were found behind the command of this name, where it was entered.
pub fn behind<'m, 'a>(matches: &'m ArgMatches<'a>, name: &str) -> Option<&'m ArgMatches<'a>>
    ensures { option_map (λ m. rows_of (found_of m.now)) result
        ≡ found_behind name.now (subcommand_rows_of matches.now) }
{
    matches.subcommand_matches(name)
}

/// The value of a word, where one was given.
pub fn optional<'a>(found: &ArgMatches<'a>, word: &str) -> Option<&'a str>
    ensures { option_map (λ text. text.now) result
        ≡ first_of word.now (rows_of (found_of found.now)) }
{
    found.get_str(word)
}

/// The value of a word; nothing where it was left out.
pub fn given<'a>(found: &ArgMatches<'a>, word: &str) -> &'a str
    ensures { result.now ≡ given word.now (rows_of (found_of found.now)) }
{
    optional(found, word).unwrap_or("")
}

/// Whether a word that takes no value was given.
pub fn is_set(found: &ArgMatches<'_>, word: &str) -> bool
    ensures { result ≡ is_set word.now (rows_of (found_of found.now)) }
{
    match optional(found, word) {
        Some(text) => text == "true",
        None => false,
    }
}

/// The files that were named.
pub fn files_named<'a>(alloc: Global, found: &ArgMatches<'a>) -> Result<Vec<&'a str>, AllocError>
    ensures { IfOk result (λ files.
        map (λ file. file.now) files.items ≡ files_named (rows_of (found_of found.now))) }
{
    match found.get_strs("FILE") {
        Some(names) => Vec::from_slice(alloc, names),
        None => Ok(Vec::new(alloc)),
    }
}
