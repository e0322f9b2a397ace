//! The program where its streams, its memory or its store fail.

use crate::asking::{ALDER, keep_of_two, request};
use crate::checks::{holds, holds_at};
use crate::failing_keep::FailingKeep;
use crate::machine::Machine;
use crate::streams::{Drip, Gate};
use bor_desk::operations::StoreFault;
use bor_program::{Failure, OpenRegister, Status, exchange_on, report_on, run};
use bor_wire::UNAVAILABLE;
use bor_words::{CHECK_HELP, Command, HELP, Report, Unread, help_for};
use std::alloc::Global;
use std::io::ErrorKind;
use std::process::Abort;
use std::rt::Files;
use std::time::Clock;

const REPORT: [&str; 11] = [
    "report",
    "--db",
    "a.db",
    "--viewer",
    "alder",
    "--agent",
    "alder",
    "--declaration",
    "c1",
    "--record",
    "e1",
];

const SERVE: [&str; 7] = [
    "serve",
    "--db",
    "a.db",
    "--port",
    "80",
    "--connections",
    "0",
];

const MIGRATE: [&str; 3] = ["migrate", "--db", "a.db"];

const INIT: [&str; 7] = [
    "init",
    "--db",
    "a.db",
    "--registrar",
    "registrar-token-0001",
    "--day",
    "2024-02-01",
];

const EXCHANGE: [&str; 8] = [
    "exchange",
    "--db",
    "a.db",
    "--registrar",
    "registrar-token-0001",
    "--day",
    "2024-02-01",
    "nowhere.http",
];

// A run on these words, at a machine that has memory or none for a register, fails.
fn fails<R: Files + Clock + AllocGlobal + Abort>(
    rt: &R,
    is_starved: bool,
    words: &[&str],
    mut input: Drip<'_>,
    output: &mut Gate,
    errors: &mut Gate,
) {
    let alloc = rt.alloc();
    let mut machine = Machine::new(alloc, is_starved);
    let status = run(rt, &mut machine, words, &mut input, output, errors);
    holds_at(rt, "status of words", words.len(), status == 3);
}

// A run on these words with an empty list on standard input fails, writes this much of the text, and tells
// nothing.
fn fails_untold<R: Files + Clock + AllocGlobal + Abort>(
    rt: &R,
    words: &[&str],
    mut output: Gate,
    text: &[u8],
) {
    let mut errors = Gate::open(rt.alloc());
    let input = Drip::new(b"[]", 2);
    fails(rt, false, words, input, &mut output, &mut errors);
    holds_at(rt, "output", text.len(), output.has(text));
    holds_at(rt, "no line", text.len(), errors.has(b""));
}

// Words and the text that is printed, of which the output takes nothing or nine bytes, or hands nothing on.
#[test]
fn an_output_that_fails_is_not_told(rt: HostRuntime) {
    let cases: [(&[&str], &str); 6] = [
        (&[], "refused NoStatements\n"),
        (&["--help"], HELP),
        (&["help", "check"], CHECK_HELP),
        (&REPORT, "refused NoEntity\n"),
        (&SERVE, "listening 127.0.0.1:80\n"),
        (&MIGRATE, "version 2\n"),
    ];
    for (words, text) in cases {
        let text = text.as_bytes();
        for room in [0, 9] {
            let front = text.get(..room).unwrap_or(&[]);
            fails_untold(&rt, words, Gate::new(rt.alloc(), room), front);
        }
        let mut output = Gate::open(rt.alloc());
        output.flushes = false;
        fails_untold(&rt, words, output, text);
    }
}

// A register is set up where an output hands nothing on. That ends as failed, and isn't told.
#[test]
fn a_register_is_set_up_where_an_output_hands_nothing_on(rt: HostRuntime) {
    let alloc = rt.alloc();
    let mut machine = Machine::new(alloc, false);
    let mut input = Drip::new(b"", 1);
    let mut output = Gate::open(alloc);
    output.flushes = false;
    let mut errors = Gate::open(alloc);
    let status = run(
        &rt,
        &mut machine,
        &INIT,
        &mut input,
        &mut output,
        &mut errors,
    );
    holds(&rt, "status", status == 3);
    holds(&rt, "set up", machine.has_closed);
    holds(&rt, "untold", output.has(b"") && errors.has(b""));
}

// A run on these words ends as failed, prints nothing, and tells this line alone, of which standard error
// takes so many bytes.
fn fails_by_line<R: Files + Clock + AllocGlobal + Abort>(
    rt: &R,
    is_starved: bool,
    words: &[&str],
    input: Drip<'_>,
    (room, line): (usize, &[u8]),
) {
    let mut output = Gate::open(rt.alloc());
    let mut errors = Gate::new(rt.alloc(), room);
    fails(rt, is_starved, words, input, &mut output, &mut errors);
    holds_at(rt, "no output", room, output.has(b""));
    holds_at(rt, "a line", room, errors.has(line));
}

#[test]
fn an_input_that_breaks_off_is_told(rt: HostRuntime) {
    let cases: [(ErrorKind, &[u8]); 2] = [
        (
            ErrorKind::ConnectionReset,
            b"bor: cannot read standard input\n",
        ),
        (ErrorKind::OutOfMemory, b"bor: out of memory\n"),
    ];
    for (kind, line) in cases {
        let mut input = Drip::failing(b"[{", 1, kind);
        input.first = Some(ErrorKind::Interrupted);
        fails_by_line(&rt, false, &[], input, (100, line));
    }
}

#[test]
fn a_register_for_which_there_is_no_memory_is_told(rt: HostRuntime) {
    let cases: [&[&str]; 5] = [&REPORT, &SERVE, &MIGRATE, &EXCHANGE, &INIT];
    for words in cases {
        let input = Drip::new(b"", 1);
        fails_by_line(&rt, true, words, input, (100, b"bor: out of memory\n"));
    }
}

#[test]
fn a_line_that_cannot_be_written_whole_is_cut_off(rt: HostRuntime) {
    let line = b"bor: cannot read nowhere.json\n";
    for room in 0..line.len() {
        let words = ["check", "nowhere.json"];
        let input = Drip::new(b"[]", 2);
        fails_by_line(&rt, false, &words, input, (room, &line[..room]));
    }
}

// The reply to the enrolment of a name that is taken.
const TAKEN: &[u8] =
    b"HTTP/1.1 409 Conflict\r\nContent-Type: application/json\r\nContent-Length: 23\r\nConnection: close\r\n\r\n{\"refusal\":\"NameTaken\"}";

// An exchange of alder's enrolment over a register ends so, and prints this where the output takes so many
// bytes.
fn ends_by<K: OpenRegister>(
    rt: &impl Abort,
    alloc: Global,
    register: &mut K,
    (room, text): (usize, &[u8]),
    wanted: Result<Status, Failure<'_>>,
) {
    let inputs = [request(rt, alloc, ALDER)];
    let mut output = Gate::new(alloc, room);
    let ended = exchange_on(alloc, register, &inputs, &mut output);
    holds_at(rt, "end", room, ended == wanted);
    holds_at(rt, "output", room, output.has(text));
}

#[test]
fn replies_that_are_cut_off_are_a_failure(rt: HostRuntime) {
    let alloc = rt.alloc();
    let mut register = keep_of_two(&rt, alloc);
    for room in 0..TAKEN.len() {
        let front = (room, &TAKEN[..room]);
        ends_by(&rt, alloc, &mut register, front, Err(Failure::Unwritable));
    }
}

#[test]
fn replies_of_a_register_that_fails_end_as_failed(rt: HostRuntime) {
    let alloc = rt.alloc();
    let list = keep_of_two(&rt, alloc);
    let mut failing = FailingKeep::new(alloc, list, 0, StoreFault::Store);
    let replies = (1000, UNAVAILABLE);
    ends_by(&rt, alloc, &mut failing, replies, Ok(Status::Failed));
}

// The request of the words of a report.
fn asked<'a>(rt: &impl Abort, alloc: Global, words: &'a [&'a str]) -> Report<'a> {
    match Command::read(alloc, words) {
        Ok(Command::Report(asked)) => asked,
        _ => panic!(rt; "no report"),
    }
}

// A report over a register fails by this call so, and prints nothing.
fn fails_at(
    rt: &impl Abort,
    alloc: Global,
    asked: &Report<'_>,
    (calls, fault): (u32, StoreFault),
    failure: Failure<'_>,
) {
    let keep = keep_of_two(rt, alloc);
    let mut failing = FailingKeep::new(alloc, keep, calls, fault);
    let mut output = Gate::open(alloc);
    let ended = report_on(alloc, &mut failing, asked, &mut output);
    holds(rt, "end", ended == Err(failure));
    holds(rt, "no output", output.has(b""));
}

// The register's day is asked for, and then the entity.
#[test]
fn a_report_of_a_store_that_fails_prints_nothing(rt: HostRuntime) {
    let alloc = rt.alloc();
    let asked = asked(&rt, alloc, &REPORT);
    for calls in 0..2 {
        fails_at(
            &rt,
            alloc,
            &asked,
            (calls, StoreFault::Memory),
            Failure::Memory,
        );
        fails_at(
            &rt,
            alloc,
            &asked,
            (calls, StoreFault::Store),
            Failure::Store,
        );
        fails_at(
            &rt,
            alloc,
            &asked,
            (calls, StoreFault::Damaged),
            Failure::Store,
        );
    }
}

// The page by which clap answers these words.
fn page_of(rt: &impl Abort, alloc: Global, words: &[&str]) -> String {
    match Command::read(alloc, words) {
        Err(unread @ Unread::Answered(_)) => format!(in alloc; "{unread}").expect(rt, "memory"),
        _ => panic!(rt; "no page"),
    }
}

// The help on a command is the page that clap tells of it.
#[test]
fn the_help_on_a_command_is_its_page(rt: HostRuntime) {
    let cases: [&[&str]; 7] = [
        &["help", "check"],
        &["init", "--help"],
        &["exchange", "--help"],
        &["serve", "-h"],
        &["report", "--db", "a.db", "--help"],
        &["migrate", "--help"],
        &["help", "exchange"],
    ];
    for (place, words) in cases.iter().enumerate() {
        let page = page_of(&rt, rt.alloc(), words);
        holds_at(&rt, "a page", place, help_for(words) == page.as_str());
        holds_at(&rt, "in the help", place, HELP.contains(page.as_str()));
    }
}

// All of the help begins with the page that clap tells of the program, up to its options: of
// `--version` clap isn't told.
#[test]
fn the_help_begins_with_the_commands(rt: HostRuntime) {
    let cases: [&[&str]; 3] = [&["help"], &["--help"], &["-h", "check"]];
    for (place, words) in cases.iter().enumerate() {
        let page = page_of(&rt, rt.alloc(), words);
        let help = help_for(words);
        let (commands, _) = page.as_str().split_once("Options:").expect(&rt, "options");
        holds_at(&rt, "the front", place, help.starts_with(commands));
        holds_at(&rt, "the whole", place, help == HELP);
    }
}
