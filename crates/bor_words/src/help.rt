//! The help.

ghost use Rattle.std.specs.Prelude.{◌≡◌, map, option_map};
ghost use Rattle.bor_words.specs.Help.{help_for, page_of, topic_of, word_at};

use std::convert::AsStr;

// Of pages with names, the one of a name; of the program, all of them.
macro_rules! page {
    (program, program $program:literal $($name:ident $page:literal)*) => {
        concat!($program $(, "\n", $page)*)
    };
    (check, check $page:literal $($rest:tt)*) => {
        $page
    };
    (init, init $page:literal $($rest:tt)*) => {
        $page
    };
    (exchange, exchange $page:literal $($rest:tt)*) => {
        $page
    };
    (serve, serve $page:literal $($rest:tt)*) => {
        $page
    };
    (report, report $page:literal $($rest:tt)*) => {
        $page
    };
    (migrate, migrate $page:literal $($rest:tt)*) => {
        $page
    };
    ($of:ident, $other:ident $page:literal $($rest:tt)*) => {
        page!($of, $($rest)*)
    };
}

// The texts that clap prints of the program, and of each command.
macro_rules! help {
    ($of:ident) => {
        page!(
            $of,
            program "A register of beneficial ownership

Usage: bor [COMMAND]

Commands:
  check     Checks a BODS file, and prints what a register would make of it
  init      Sets up a new register in a file that has none
  exchange  Answers HTTP requests in files, one after the other, and prints the replies
  serve     Answers HTTP requests on 127.0.0.1, one after the other
  report    Prints which persons hold an entity, directly or through a chain, as an agent sees it
  migrate   Moves a register of version 1 to version 2, in which an interest counts within its dates
  help      Print this message or the help of the given subcommand(s)

Options:
  -h, --help     Print help
  -V, --version  Print version

Without a command, standard input is checked. The pages of the commands:
"
            check "Checks a BODS file, and prints what a register would make of it

Usage: bor check [FILE]

Arguments:
  [FILE]  The file; without it, or for -, standard input is read

Options:
  -h, --help  Print help

Example:
  bor check filing.json
"
            init "Sets up a new register in a file that has none

Usage: bor init [OPTIONS] --db <PATH> --day <DAY>

Options:
      --db <PATH>              The register's file, which is made where there is none
      --registrar <TOKEN>      The registrar's token of a new register: 16 to 64 visible ASCII characters
      --registrar-file <FILE>  The file whose first line is that token, in place of --registrar
      --day <DAY>              The day of a new register: a day, YYYY-MM-DD
  -h, --help                   Print help

Example:
  bor init --db register.db --registrar-file token --day 2024-02-01
"
            exchange "Answers HTTP requests in files, one after the other, and prints the replies

Usage: bor exchange [OPTIONS] --day <DAY> <FILE>...

Arguments:
  <FILE>...  The files, each with one HTTP request

Options:
      --db <PATH>              The register's file, which is made where there is none; without it, the register is a new one in memory
      --registrar <TOKEN>      The registrar's token of a new register: 16 to 64 visible ASCII characters
      --registrar-file <FILE>  The file whose first line is that token, in place of --registrar
      --day <DAY>              The day of a new register: a day, YYYY-MM-DD
  -h, --help                   Print help

Example:
  bor exchange --db register.db --registrar registrar-token-0001 --day 2024-02-01 enrol.http lodge.http
"
            serve "Answers HTTP requests on 127.0.0.1, one after the other

Usage: bor serve [OPTIONS] --db <PATH> --port <PORT> --connections <COUNT>

Options:
      --db <PATH>            The register's file
      --port <PORT>          The port: 1 to 65535
      --connections <COUNT>  After how many connections it ends: 0 to 1000000
      --memory <MB>          How much memory the register may take beside its file, in MB: 0 to 1000000; without it, 256
      --log                  A line for each request on standard error, with no token, key or body
  -h, --help                 Print help

Example:
  bor serve --db register.db --port 8080 --connections 1000
"
            report "Prints which persons hold an entity, directly or through a chain, as an agent sees it

Usage: bor report [OPTIONS] --db <PATH> --viewer <AGENT> --agent <AGENT> --declaration <IDENT> --record <IDENT>

Options:
      --db <PATH>            The register's file
      --viewer <AGENT>       Who asks: an agent's name, 1 to 32 of a-z, 0-9 and -
      --agent <AGENT>        The agent that lodged the entity: an agent's name, 1 to 32 of a-z, 0-9 and -
      --declaration <IDENT>  The declaration's subject: an identifier, 1 to 255 bytes without control characters
      --record <IDENT>       The entity's record: an identifier, 1 to 255 bytes without control characters
      --date <DAY>           The date: a day, YYYY-MM-DD; without it, the register's day
      --evidence             Tells why, too: each person's line ends with the first link of its chain, and below is a line for each link, with the next one
  -h, --help                 Print help

Example:
  bor report --db register.db --viewer alder --agent alder --declaration c1 --record e1
"
            migrate "Moves a register of version 1 to version 2, in which an interest counts within its dates

Usage: bor migrate --db <PATH>

Options:
      --db <PATH>  The register's file
  -h, --help       Print help

Example:
  bor migrate --db register.db
"
        )
    };
}

/// All of the help: what clap tells of the program, and then of each command.
pub const HELP: &str = help!(program);

/// The page of `bor check`.
pub const CHECK_HELP: &str = help!(check);

/// The page of `bor init`.
pub const INIT_HELP: &str = help!(init);

/// The page of `bor exchange`.
pub const EXCHANGE_HELP: &str = help!(exchange);

/// The page of `bor serve`.
pub const SERVE_HELP: &str = help!(serve);

/// The page of `bor report`.
pub const REPORT_HELP: &str = help!(report);

/// The page of `bor migrate`.
pub const MIGRATE_HELP: &str = help!(migrate);

/// The text that is printed where these words ask for help: the page of the command that the first
/// of them names, or the one behind `help`; all of the help where that is none.
pub fn help_for<S: AsStr>(words: &[S]) -> &'static str
    ensures { result.now ≡ help_for (map S.text words.now) }
{
    page_of(topic_of(words)).unwrap_or(HELP)
}

// The subject that help is asked on.
fn topic_of<S: AsStr>(words: &[S]) -> &str
    ensures { result.now ≡ topic_of (map S.text words.now) }
{
    let first = word_at(words, 0);
    if first == "help" {
        word_at(words, 1)
    } else {
        first
    }
}

// The word in this place; nothing where there are fewer.
fn word_at<S: AsStr>(words: &[S], place: usize) -> &str
    ensures { result.now ≡ word_at (map S.text words.now) place }
{
    match words.get(place) {
        Some(word) => word.as_str(),
        None => "",
    }
}

// The page of the command of this name, if there is one.
fn page_of(topic: &str) -> Option<&'static str>
    ensures { option_map (λ page. page.now) result ≡ page_of topic.now }
{
    match topic {
        "check" => Some(CHECK_HELP),
        "init" => Some(INIT_HELP),
        "exchange" => Some(EXCHANGE_HELP),
        "serve" => Some(SERVE_HELP),
        "report" => Some(REPORT_HELP),
        "migrate" => Some(MIGRATE_HELP),
        _ => None,
    }
}
