//! The line that a server tells of each request that it answered, where it is asked to.
//!
//! ```
//! let entry = Entry { at: Moment::now(&rt), asked: asked_by(&paths, input), status, bytes, millis, agent: None };
//! write_entry(alloc, &entry, &mut errors);       // 2024-02-01T12:34:56Z GET /chains 200 187 3 -
//! ```
//!
//! No field of an [`Entry`] can hold a token, a key, a query or a body, and none of a [`Note`].

ghost use Rattle.std.specs.Prelude.{◌≡◌, ◌↔◌, ◌+◌, ◌/◌, ◌%◌, ◌≤◌, ◌++◌, pos, IfOk, IfSome, IsSome, OnOk, length};
ghost use Rattle.bor_wire.specs.Sent.{bytes_sent, status_sent};
ghost use Rattle.bor_program.specs.Logging.{agent_shown, asked_at, asked_of, asked_path_word, asked_text, clock_text, entry_line, method_word, moment_text, numbers_text};
ghost use Rattle.bor_program.specs.Streams.{AppendsPart};

use crate::output::write_part;
use bor_http::incoming::{Path, split_at_first};
use bor_http::routes::{Paths, Route, line_of, route_at};
use bor_terms::{AgentName, Day};
use bor_wire::Reply;
use itoa::Buffer;
use std::alloc::{AllocError, Global};
use std::io::Write;
use std::time::{Clock, SystemTime};

const SECONDS_A_DAY: u64 = 86_400;

// 9999-12-31, in days since 1970-01-01.
const LAST_DAY: u64 = 2_932_896;

// The first room for a line, in which most fit.
const FIRST_ROOM: usize = 128;

/// The request of some bytes, as far as the log may show it.
#[derive(Clone, Copy, PartialEq, Eq)]
pub enum Asked {
    /// A path by one of its methods.
    Route(Route),
    /// A path, by another method.
    Path(Path),
    /// No path that there is; or the bytes don't begin with the line of a request.
    Nothing,
}

/// A second of time, in UTC.
#[derive(Clone, Copy, PartialEq, Eq)]
pub struct Moment {
    /// The day.
    pub day: Day,
    /// So many seconds of it have passed.
    pub second: u32,
}

/// The note of a request that was answered, until its line is written.
#[derive(Drop)]
pub struct Note {
    /// The request.
    pub asked: Asked,
    /// The status of the reply.
    pub status: u16,
    /// The bytes of the whole reply.
    pub bytes: u64,
    /// The agent whose token the request had, if there is one.
    pub agent: Option<AgentName>,
}

impl Note {
    /// The note of a request that asked for this, had this agent's token and got this reply. No
    /// memory is taken.
    pub fn of(asked: Asked, agent: Option<AgentName>, reply: &Reply) -> Note
        ensures asked { result.asked ≡ asked }
        ensures status { result.status ≡ status_sent reply.now }
        ensures bytes { result.bytes ≡ length (bytes_sent reply.now) }
        ensures agent { result.agent ≡ agent }
    {
        Note {
            asked,
            status: reply.status(),
            bytes: reply.bytes().len() as u64,
            agent,
        }
    }
}

/// A request that was answered.
#[derive(Drop)]
pub struct Entry<'a> {
    /// When the line is made, before the server waits again.
    pub at: Moment,
    /// The request.
    pub asked: Asked,
    /// The status of the reply.
    pub status: u16,
    /// The bytes of the whole reply.
    pub bytes: u64,
    /// From when the server saw that something had come until the line is made, in milliseconds:
    /// what other clients were answered meanwhile counts too.
    pub millis: u64,
    /// The agent whose token the request had, if there is one.
    pub agent: Option<&'a AgentName>,
}

impl Moment {
    /// The second that began so many seconds after 1970-01-01T00:00:00Z, up to the end of the year
    /// 9999.
    pub fn of_seconds(seconds: u64) -> Option<Moment>
        ensures day { IfSome result (λ moment. moment.day ≡ pos (seconds / 86_400)) }
        ensures second { IfSome result (λ moment. moment.second ≡ seconds % 86_400) }
        ensures some { IsSome result ↔ (seconds / 86_400 ≤ 2_932_896) }
    {
        let days = seconds / SECONDS_A_DAY;
        if days > LAST_DAY {
            return None;
        }
        Some(Moment {
            day: Day::from_number(days as i32)?,
            second: (seconds % SECONDS_A_DAY) as u32,
        })
    }

    /// The second that it is; the first one of 1970 where the clock can't be read.
    pub fn now<R: Clock>(rt: &R) -> Moment {
        match Moment::of_seconds(seconds_now(rt)) {
            Some(moment) => moment,
            None => Moment {
                day: Day::from_number(0).unwrap(),
                second: 0,
            },
        }
    }
}

// How many seconds have passed since 1970, by the clock.
fn seconds_now<R: Clock>(rt: &R) -> u64 {
    match SystemTime::now(rt) {
        Ok(now) => match now.duration_since(SystemTime::UNIX_EPOCH) {
            Ok(passed) => passed.as_secs(),
            Err(_) => 0,
        },
        Err(_) => 0,
    }
}

// ---- what was asked for

// The request of a path by a method.
fn asked_at(path: Option<Path>, method: &[u8]) -> Asked
    ensures { result ≡ asked_at path method.now }
{
    match path {
        Some(path) => match route_at(path, method) {
            Some(route) => Asked::Route(route),
            None => Asked::Path(path),
        },
        None => Asked::Nothing,
    }
}

/// The request of the first line of an input. No memory is taken.
#[tactic(auto, unfolding(crate::specs::Logging::asked_of))]
pub fn asked_by(paths: &Paths, input: &[u8]) -> Asked
    ensures { result ≡ asked_of input.now }
{
    let (line, _) = split_at_first(input, b'\n');
    let (method, rest) = split_at_first(line, b' ');
    let (target, _) = split_at_first(rest, b' ');
    let (path, _) = split_at_first(target, b'?');
    asked_at(paths.find_bytes(path), method)
}

impl Asked {
    // The method and the path, each a hyphen where it isn't shown.
    fn words(self) -> (&'static str, &'static str)
        ensures method { result.0.now ≡ method_word self }
        ensures path { result.1.now ≡ asked_path_word self }
    {
        match self {
            Asked::Route(route) => {
                let (path, method) = line_of(route);
                (method, path.as_str())
            }
            Asked::Path(path) => ("-", path.as_str()),
            Asked::Nothing => ("-", "-"),
        }
    }
}

// ---- the line

// The last digit of a number.
fn digit(number: u32) -> u8
    ensures { result ≡ 48 + number % 10 }
{
    48 + (number % 10) as u8
}

// So many seconds after midnight, as hours, minutes and seconds.
fn clock_text(second: u32) -> [u8; 8]
    ensures { result ≡ clock_text second }
{
    let (hours, minutes, seconds) = (second / 3_600, second / 60 % 60, second % 60);
    [
        digit(hours / 10),
        digit(hours),
        b':',
        digit(minutes / 10),
        digit(minutes),
        b':',
        digit(seconds / 10),
        digit(seconds),
    ]
}

// Adds a moment to a line, as ISO 8601 has it.
fn add_moment(line: &mut Vec<u8>, at: Moment) -> Result<(), AllocError>
    ensures { OnOk result (line.new.items ≡ line.old.items ++ moment_text at) }
{
    line.extend_from_slice(&at.day.text())?;
    line.extend_from_slice(b"T")?;
    line.extend_from_slice(&clock_text(at.second))?;
    line.extend_from_slice(b"Z")
}

// Adds the method and the path, with a space between them.
fn add_asked(line: &mut Vec<u8>, asked: Asked) -> Result<(), AllocError>
    ensures { OnOk result (line.new.items ≡ line.old.items ++ asked_text asked) }
{
    let (method, path) = asked.words();
    line.extend_from_slice(method.as_bytes())?;
    line.extend_from_slice(b" ")?;
    line.extend_from_slice(path.as_bytes())
}

// Adds three numbers in decimal digits, with spaces between them.
fn add_numbers(line: &mut Vec<u8>, status: u16, bytes: u64, millis: u64) -> Result<(), AllocError>
    ensures { OnOk result (line.new.items ≡ line.old.items ++ numbers_text status bytes millis) }
{
    let mut digits = Buffer::new();
    line.extend_from_slice(digits.format(status).as_bytes())?;
    line.extend_from_slice(b" ")?;
    line.extend_from_slice(digits.format(bytes).as_bytes())?;
    line.extend_from_slice(b" ")?;
    line.extend_from_slice(digits.format(millis).as_bytes())
}

// The agent's name, or a hyphen.
fn agent_text<'a>(agent: Option<&'a AgentName>) -> &'a str
    ensures { result.now ≡ agent_shown agent.entry }
{
    match agent {
        Some(name) => name.as_str(),
        None => "-",
    }
}

/// The line of a request that was answered: day and time, the method and the path, the reply's
/// status and bytes, milliseconds, and the agent.
///
/// # Errors
///
/// Memory is wanting.
pub fn entry_line(alloc: Global, entry: &Entry<'_>) -> Result<Vec<u8>, AllocError>
    ensures { IfOk result (λ line. line.items ≡ entry_line entry.now) }
{
    let mut line = Vec::with_capacity(alloc, FIRST_ROOM)?;
    add_moment(&mut line, entry.at)?;
    line.extend_from_slice(b" ")?;
    add_asked(&mut line, entry.asked)?;
    line.extend_from_slice(b" ")?;
    add_numbers(&mut line, entry.status, entry.bytes, entry.millis)?;
    line.extend_from_slice(b" ")?;
    line.extend_from_slice(agent_text(entry.agent).as_bytes())?;
    line.extend_from_slice(b"\n")?;
    Ok(line)
}

/// Writes the line of a request that was answered, as far as it can be written; nothing where
/// memory is wanting.
pub fn write_entry<E: Write>(alloc: Global, entry: &Entry<'_>, errors: &mut E)
    ensures { AppendsPart (E.contents errors.old) (E.contents errors.new) (entry_line entry.now) }
{
    if let Ok(line) = entry_line(alloc, entry) {
        let _ = write_part(errors, &line);
    }
}
