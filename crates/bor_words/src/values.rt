//! The values of words, each read as what it has to be.

ghost use Rattle.std.specs.Prelude.{◌≡◌, Some, is_some, IfErr, IfOk, OnOk, true, codes, option_and_then};
ghost use Rattle.bor_terms.specs.Texts.{is_agent_name, is_ident, is_token};
ghost use Rattle.bor_terms.specs.Day.{day_of};
ghost use Rattle.clap.specs.Words.{first_of, found_of, rows_of};
ghost use Rattle.bor_words.specs.Words.{given};
ghost use Rattle.bor_words.specs.Values.{connections_of, is_date, memory_of, port_of};
ghost use Rattle.bor_words.specs.Unread.{IsUnfitAt, IsUnfitToken};

use crate::matches::{given, optional};
use crate::numbers::number_within;
use crate::unread::{Unfit, Unread};
use bor_terms::{AgentName, Day, Ident, Token};
use clap::ArgMatches;
use std::alloc::Global;

const A_DAY: &str = "a day, YYYY-MM-DD";

const A_NAME: &str = "an agent's name, 1 to 32 of a-z, 0-9 and -";

const AN_IDENT: &str = "an identifier, 1 to 255 bytes without control characters";

const A_PORT: &str = "a port, 1 to 65535";

const A_COUNT: &str = "a number of connections, 0 to 1000000";

const A_SIZE: &str = "a number of megabytes, 0 to 1000000";

fn unfit<'a>(word: &'static str, value: &'a str, fitting: &'static str) -> Unread<'a>
    ensures { result ≡ Unread.Unfit
        (record { word = word.entry; value = value.entry; fitting = fitting.entry }) }
{
    Unread::Unfit(Unfit {
        word,
        value,
        fitting,
    })
}

/// The registrar's token that was given.
pub fn token<'a>(alloc: Global, text: &str) -> Result<Token, Unread<'a>>
    ensures value { IfOk result (λ read. read ≡ text.now) }
    ensures fits { OnOk result (is_token text.now ≡ true) }
    ensures err { IfErr result (IsUnfitToken text.now) }
{
    match Token::read(alloc, text)? {
        Some(token) => Ok(token),
        None => Err(Unread::UnfitToken),
    }
}

/// The agent's name that was given for this word.
pub fn agent_name<'a>(
    alloc: Global,
    found: &ArgMatches<'a>,
    word: &'static str,
) -> Result<AgentName, Unread<'a>>
    ensures value { IfOk result (λ read. read ≡ given word.now (rows_of (found_of found.now))) }
    ensures fits { OnOk result
        (is_agent_name (given word.now (rows_of (found_of found.now))) ≡ true) }
    ensures err { IfErr result
        (IsUnfitAt word.now (given word.now (rows_of (found_of found.now)))
        (is_agent_name (given word.now (rows_of (found_of found.now))))) }
{
    let text = given(found, word);
    match AgentName::read(alloc, text)? {
        Some(name) => Ok(name),
        None => Err(unfit(word, text, A_NAME)),
    }
}

/// The identifier that was given for this word.
pub fn ident<'a>(
    alloc: Global,
    found: &ArgMatches<'a>,
    word: &'static str,
) -> Result<Ident, Unread<'a>>
    ensures value { IfOk result (λ read. read ≡ given word.now (rows_of (found_of found.now))) }
    ensures fits { OnOk result (is_ident (given word.now (rows_of (found_of found.now))) ≡ true) }
    ensures err { IfErr result
        (IsUnfitAt word.now (given word.now (rows_of (found_of found.now)))
        (is_ident (given word.now (rows_of (found_of found.now))))) }
{
    let text = given(found, word);
    match Ident::read(alloc, text)? {
        Some(ident) => Ok(ident),
        None => Err(unfit(word, text, AN_IDENT)),
    }
}

/// The day that was given for this word.
pub fn day<'a>(found: &ArgMatches<'a>, word: &'static str) -> Result<Day, Unread<'a>>
    ensures value { IfOk result (λ day.
        Some day ≡ day_of (given word.now (rows_of (found_of found.now)))) }
    ensures err { IfErr result
        (IsUnfitAt word.now (given word.now (rows_of (found_of found.now)))
        (is_some (day_of (given word.now (rows_of (found_of found.now)))))) }
{
    let text = given(found, word);
    match Day::read(text) {
        Some(day) => Ok(day),
        None => Err(unfit(word, text, A_DAY)),
    }
}

/// The day that was given for this word, if it was given.
pub fn date<'a>(found: &ArgMatches<'a>, word: &'static str) -> Result<Option<Day>, Unread<'a>>
    ensures value { IfOk result (λ date.
        date ≡ option_and_then day_of (first_of word.now (rows_of (found_of found.now)))) }
    ensures fits { OnOk result (is_date (first_of word.now (rows_of (found_of found.now))) ≡ true) }
    ensures err { IfErr result
        (IsUnfitAt word.now (given word.now (rows_of (found_of found.now)))
        (is_date (first_of word.now (rows_of (found_of found.now))))) }
{
    let Some(text) = optional(found, word) else {
        return Ok(None);
    };
    match Day::read(text) {
        Some(day) => Ok(Some(day)),
        None => Err(unfit(word, text, A_DAY)),
    }
}

/// The port that was given.
pub fn port<'a>(found: &ArgMatches<'a>) -> Result<u16, Unread<'a>>
    ensures value { IfOk result (λ port.
        Some port ≡ port_of (given (codes "port") (rows_of (found_of found.now)))) }
    ensures err { IfErr result
        (IsUnfitAt (codes "port") (given (codes "port") (rows_of (found_of found.now)))
        (is_some (port_of (given (codes "port") (rows_of (found_of found.now)))))) }
{
    let text = given(found, "port");
    match number_within(text, 1, 65_535) {
        Some(port) => Ok(port as u16),
        None => Err(unfit("port", text, A_PORT)),
    }
}

/// The number of connections that was given.
pub fn connections<'a>(found: &ArgMatches<'a>) -> Result<u32, Unread<'a>>
    ensures value { IfOk result (λ count.
        Some count ≡ connections_of (given (codes "connections") (rows_of (found_of found.now)))) }
    ensures err { IfErr result
        (IsUnfitAt (codes "connections")
        (given (codes "connections") (rows_of (found_of found.now)))
        (is_some (connections_of
        (given (codes "connections") (rows_of (found_of found.now)))))) }
{
    let text = given(found, "connections");
    match number_within(text, 0, 1_000_000) {
        Some(count) => Ok(count),
        None => Err(unfit("connections", text, A_COUNT)),
    }
}

/// The megabytes that were given, or 256.
pub fn memory<'a>(found: &ArgMatches<'a>) -> Result<u32, Unread<'a>>
    ensures value { IfOk result (λ size.
        Some size ≡ memory_of (first_of (codes "memory") (rows_of (found_of found.now)))) }
    ensures err { IfErr result
        (IsUnfitAt (codes "memory") (given (codes "memory") (rows_of (found_of found.now)))
        (is_some (memory_of (first_of (codes "memory") (rows_of (found_of found.now)))))) }
{
    let Some(text) = optional(found, "memory") else {
        return Ok(256);
    };
    match number_within(text, 0, 1_000_000) {
        Some(size) => Ok(size),
        None => Err(unfit("memory", text, A_SIZE)),
    }
}
