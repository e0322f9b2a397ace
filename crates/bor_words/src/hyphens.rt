//! Values that begin with a hyphen, as clap takes them: joined with their options.

ghost use Rattle.std.specs.Prelude.{◌≡◌, ◌==◌, ◌++◌, ◌∷◌, ◌&&◌, IfOk, MatchOption, OnOk, codes, false, map, string_bytes, true};
ghost use Rattle.std.specs.List.{before_first};
ghost use Rattle.bor_words.specs.Joined.{begin_with_value, is_among, is_flag, is_value, joined, joined_behind, report_options, serve_options, setup_options, takes_value};

use std::alloc::{AllocError, Global};
use std::convert::AsStr;

/// The words after the program's name, as clap takes them: an option's value that begins with a
/// hyphen is joined with the option by `=`. A word that is an option of the command is no value,
/// and behind `--` each word stays.
pub fn joined<S: AsStr>(alloc: Global, words: &[S]) -> Result<Vec<String>, AllocError>
    ensures { IfOk result (λ more. map string_bytes more.items ≡ joined (map S.text words.now)) }
{
    let Some((command, behind)) = words.split_first() else {
        return Ok(Vec::new(alloc));
    };
    let command = command.as_str();
    let mut all = Vec::new(alloc);
    all.push(String::from_str(alloc, command)?)?;
    push_joined(alloc, command, behind, &mut all)?;
    Ok(all)
}

// Adds the words behind the name of this command.
fn push_joined<S: AsStr>(
    alloc: Global,
    command: &str,
    words: &[S],
    all: &mut Vec<String>,
) -> Result<(), AllocError>
    ensures { OnOk result (map string_bytes all.new.items
        ≡ map string_bytes all.old.items ++ joined_behind command.now (map S.text words.now)) }
{
    let mut left = words;
    while let Some((word, behind)) = left.split_first() {
        let word = word.as_str();
        if word == "--" {
            return push_words(alloc, left, all);
        }
        match value_behind(command, word, behind) {
            Some((value, more)) => {
                all.push(with_value(alloc, word, value)?)?;
                left = more;
            }
            None => {
                all.push(String::from_str(alloc, word)?)?;
                left = behind;
            }
        }
    }
    Ok(())
}

// Adds the words as they are.
fn push_words<S: AsStr>(alloc: Global, words: &[S], all: &mut Vec<String>) -> Result<(), AllocError>
    ensures { OnOk result (map string_bytes all.new.items
        ≡ map string_bytes all.old.items ++ map S.text words.now) }
{
    for word in words {
        all.push(String::from_str(alloc, word.as_str())?)?;
    }
    Ok(())
}

// The option, its value and `=` between them.
fn with_value(alloc: Global, option: &str, value: &str) -> Result<String, AllocError>
    ensures { IfOk result (λ word. string_bytes word ≡ option.now ++ codes "=" ++ value.now) }
{
    let mut word = String::from_str(alloc, option)?;
    word.push_str("=")?;
    word.push_str(value)?;
    Ok(word)
}

// Where the word is an option that takes a value, and the next word is a value that begins with a
// hyphen: that value, and the words behind it.
fn value_behind<'w, S: AsStr>(
    command: &str,
    word: &str,
    words: &'w [S],
) -> Option<(&'w str, &'w [S])>
    ensures { MatchOption result
        ((takes_value command.now word.now && begin_with_value command.now (map S.text words.now))
        ≡ false)
        (λ found. (takes_value command.now word.now ≡ true)
        × (is_value command.now found.0.now ≡ true)
        × (map S.text words.now ≡ found.0.now ∷ map S.text found.1.now)) }
{
    if !takes_value(command, word) {
        return None;
    }
    let (value, more) = words.split_first()?;
    let value = value.as_str();
    if is_value(command, value) {
        Some((value, more))
    } else {
        None
    }
}

// Whether the word begins with a hyphen and may be an option's value.
#[tactic(auto, unfolding(crate::specs::Joined::is_value))]
fn is_value(command: &str, word: &str) -> bool
    ensures { result ≡ is_value command.now word.now }
{
    if !word.starts_with('-') {
        return false;
    }
    if word == "--" {
        return false;
    }
    let name = name_of(word);
    if takes_value(command, name) {
        return false;
    }
    !is_flag(command, name)
}

// What stands before the first `=`.
fn name_of(word: &str) -> &str
    ensures { result.now ≡ before_first (λ c. c == 61) word.now }
{
    match word.split_once('=') {
        Some((name, _)) => name,
        None => word,
    }
}

// Whether the word is an option of this command that takes a value.
#[tactic(auto, unfolding(crate::specs::Joined::takes_value))]
fn takes_value(command: &str, word: &str) -> bool
    ensures { result ≡ takes_value command.now word.now }
{
    match command {
        "init" => is_of_setup(word),
        "exchange" => is_of_setup(word),
        "serve" => is_of_server(word),
        "report" => is_of_report(word),
        "migrate" => word == "--db",
        _ => false,
    }
}

fn is_of_setup(word: &str) -> bool
    ensures { result ≡ is_among setup_options word.now }
{
    matches!(word, "--db" | "--registrar" | "--registrar-file" | "--day")
}

fn is_of_server(word: &str) -> bool
    ensures { result ≡ is_among serve_options word.now }
{
    matches!(word, "--db" | "--port" | "--connections" | "--memory")
}

fn is_of_report(word: &str) -> bool
    ensures { result ≡ is_among report_options word.now }
{
    matches!(
        word,
        "--db" | "--viewer" | "--agent" | "--declaration" | "--record" | "--date"
    )
}

// Whether the word is an option of this command that takes no value.
#[tactic(auto, unfolding(crate::specs::Joined::is_flag))]
fn is_flag(command: &str, word: &str) -> bool
    ensures { result ≡ is_flag command.now word.now }
{
    match word {
        "-h" | "--help" => true,
        "--log" => command == "serve",
        "--evidence" => command == "report",
        _ => false,
    }
}
