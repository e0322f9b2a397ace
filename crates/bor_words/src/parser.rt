//! The words that clap is given.

ghost use Rattle.std.specs.Prelude.{◌≡◌, IfOk, false, map};
ghost use Rattle.clap.specs.Words.{app_of, rule_of};
ghost use Rattle.clap.specs.declared.builder.command.Command.TheViews.{out-Command as fields_of};
ghost use Rattle.bor_words.specs.Tables.{app_at, local_rule, local_shape, rule_at, rule_in, shape_in};
ghost use Rattle.bor_words.specs.Words.{bor_app, files_rule, flag_rule, option_rule, required_rule};

use clap::{Arg, ArgAction, Command as Parser};
use std::alloc::{AllocError, Global};

// A command, with the words that it takes.
#[derive(Clone, Copy)]
struct CommandWords<'a> {
    name: &'a str,
    about: &'a str,
    after_help: &'a str,
    words: &'a [Word<'a>],
}

// A word that a command takes: its name, the name of its value, and its help.
#[derive(Clone, Copy)]
enum Word<'a> {
    Optional(&'a str, &'a str, &'a str),
    Required(&'a str, &'a str, &'a str),
    // It takes no value.
    Flag(&'a str, &'a str),
    // A file, which may be left out.
    File(&'a str),
    // One file or more.
    Files(&'a str),
}

const COMMANDS: [CommandWords<'static>; 6] = [
    CommandWords {
        name: "check",
        about: "Checks a BODS file, and prints what a register would make of it",
        after_help: "Example:
  bor check filing.json",
        words: &[Word::File("The file; without it, or for -, standard input is read")],
    },
    CommandWords {
        name: "init",
        about: "Sets up a new register in a file that has none",
        after_help: "Example:
  bor init --db register.db --registrar-file token --day 2024-02-01",
        words: &[
            Word::Required(
                "db",
                "PATH",
                "The register's file, which is made where there is none",
            ),
            REGISTRAR,
            REGISTRAR_FILE,
            FIRST_DAY,
        ],
    },
    CommandWords {
        name: "exchange",
        about: "Answers HTTP requests in files, one after the other, and prints the replies",
        after_help: "Example:
  bor exchange --db register.db --registrar registrar-token-0001 --day 2024-02-01 enrol.http lodge.http",
        words: &[
            Word::Optional(
                "db",
                "PATH",
                "The register's file, which is made where there is none; without it, the register is a new one in memory",
            ),
            REGISTRAR,
            REGISTRAR_FILE,
            FIRST_DAY,
            Word::Files("The files, each with one HTTP request"),
        ],
    },
    CommandWords {
        name: "serve",
        about: "Answers HTTP requests on 127.0.0.1, one after the other",
        after_help: "Example:
  bor serve --db register.db --port 8080 --connections 1000",
        words: &[
            REGISTER,
            Word::Required("port", "PORT", "The port: 1 to 65535"),
            Word::Required(
                "connections",
                "COUNT",
                "After how many connections it ends: 0 to 1000000",
            ),
            Word::Optional(
                "memory",
                "MB",
                "How much memory the register may take beside its file, in MB: 0 to 1000000; without it, 256",
            ),
            Word::Flag(
                "log",
                "A line for each request on standard error, with no token, key or body",
            ),
        ],
    },
    CommandWords {
        name: "report",
        about: "Prints which persons hold an entity, directly or through a chain, as an agent sees it",
        after_help: "Example:
  bor report --db register.db --viewer alder --agent alder --declaration c1 --record e1",
        words: &[
            REGISTER,
            Word::Required(
                "viewer",
                "AGENT",
                "Who asks: an agent's name, 1 to 32 of a-z, 0-9 and -",
            ),
            Word::Required(
                "agent",
                "AGENT",
                "The agent that lodged the entity: an agent's name, 1 to 32 of a-z, 0-9 and -",
            ),
            Word::Required(
                "declaration",
                "IDENT",
                "The declaration's subject: an identifier, 1 to 255 bytes without control characters",
            ),
            Word::Required(
                "record",
                "IDENT",
                "The entity's record: an identifier, 1 to 255 bytes without control characters",
            ),
            Word::Optional(
                "date",
                "DAY",
                "The date: a day, YYYY-MM-DD; without it, the register's day",
            ),
            Word::Flag(
                "evidence",
                "Tells why, too: each person's line ends with the first link of its chain, and below is a line for each link, with the next one",
            ),
        ],
    },
    CommandWords {
        name: "migrate",
        about: "Moves a register of version 1 to version 2, in which an interest counts within its dates",
        after_help: "Example:
  bor migrate --db register.db",
        words: &[REGISTER],
    },
];

const REGISTER: Word<'static> = Word::Required("db", "PATH", "The register's file");

const REGISTRAR: Word<'static> = Word::Optional(
    "registrar",
    "TOKEN",
    "The registrar's token of a new register: 16 to 64 visible ASCII characters",
);

const REGISTRAR_FILE: Word<'static> = Word::Optional(
    "registrar-file",
    "FILE",
    "The file whose first line is that token, in place of --registrar",
);

const FIRST_DAY: Word<'static> = Word::Required(
    "day",
    "DAY",
    "The day of a new register: a day, YYYY-MM-DD",
);

// `--name VALUE`, which may be left out.
fn option<'a>(alloc: Global, name: &'a str, value: &'a str, help: &'a str) -> Arg<'a>
    ensures rule { rule_of result ≡ option_rule name.entry.now }
    ensures local { result.global ≡ false }
{
    Arg::new(alloc, name)
        .long(name)
        .value_name(value)
        .help(help)
}

// `--name VALUE`, which has to be there.
fn required<'a>(alloc: Global, name: &'a str, value: &'a str, help: &'a str) -> Arg<'a>
    ensures rule { rule_of result ≡ required_rule name.entry.now }
    ensures local { result.global ≡ false }
{
    option(alloc, name, value, help).required(true)
}

// `--name`, which takes no value.
fn flag<'a>(alloc: Global, name: &'a str, help: &'a str) -> Arg<'a>
    ensures rule { rule_of result ≡ flag_rule name.entry.now }
    ensures local { result.global ≡ false }
{
    Arg::new(alloc, name)
        .long(name)
        .action(ArgAction::SetTrue)
        .help(help)
}

// One file or more.
fn files<'a>(alloc: Global, help: &'a str) -> Arg<'a>
    ensures rule { rule_of result ≡ files_rule }
    ensures local { result.global ≡ false }
{
    Arg::new(alloc, "FILE")
        .action(ArgAction::Append)
        .required(true)
        .help(help)
}

impl<'a> Word<'a> {
    // The word as clap takes it.
    fn argument(self, alloc: Global) -> Arg<'a>
        ensures rule { rule_of result ≡ rule_at self.entry }
        ensures local { result.global ≡ false }
    {
        match self {
            Word::Optional(name, value, help) => option(alloc, name, value, help),
            Word::Required(name, value, help) => required(alloc, name, value, help),
            Word::Flag(name, help) => flag(alloc, name, help),
            Word::File(help) => Arg::new(alloc, "FILE").help(help),
            Word::Files(help) => files(alloc, help),
        }
    }
}

fn arguments<'a>(alloc: Global, words: &[Word<'a>]) -> Result<Vec<Arg<'a>>, AllocError>
    ensures { IfOk result (λ made. map rule_in made.items ≡ map local_rule words.now) }
{
    let mut made = Vec::new(alloc);
    for word in words {
        made.push(word.argument(alloc))?;
    }
    Ok(made)
}

fn command<'a>(alloc: Global, command: &CommandWords<'a>) -> Result<Parser<'a>, AllocError>
    ensures app { IfOk result (λ parser. app_of parser ≡ app_at command.now) }
    ensures local { IfOk result (λ parser. (fields_of parser).has_globals ≡ false) }
{
    let arguments = arguments(alloc, command.words)?;
    Parser::new(alloc, command.name)
        .about(command.about)
        .after_help(command.after_help)
        .args(arguments)
}

fn commands<'a>(alloc: Global, commands: &[CommandWords<'a>]) -> Result<Vec<Parser<'a>>, AllocError>
    ensures { IfOk result (λ made. map shape_in made.items ≡ map local_shape commands.now) }
{
    let mut made = Vec::new(alloc);
    for words in commands {
        made.push(command(alloc, words)?)?;
    }
    Ok(made)
}

/// The words that `bor` takes.
pub fn parser<'a>(alloc: Global) -> Result<Parser<'a>, AllocError>
    ensures { IfOk result (λ parser. app_of parser ≡ bor_app) }
{
    let commands = commands(alloc, &COMMANDS)?;
    Parser::new(alloc, "bor")
        .bin_name("bor")?
        .no_binary_name(true)
        .about("A register of beneficial ownership")
        .after_help("Without a command, standard input is checked. The pages of the commands:")
        .subcommands(commands)
}
