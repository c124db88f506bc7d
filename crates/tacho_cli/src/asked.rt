//! What arguments ask for without the parser.

ghost use Rattle.std.specs.Prelude.{◌≡◌, map, option_map, string_bytes};
ghost use Rattle.std.specs.List.{list_any};
ghost use Rattle.tacho_cli.specs.Asked.{early_alone, early_asked, early_of, early_with, files_in, help_on, is_flag, is_help, names_command};

use crate::words::act_of;

/// What arguments ask for without the parser.
#[derive(Clone, Copy)]
pub enum Asked<'a> {
    /// Prints the commands.
    Help,
    /// Prints how the command with this name is used.
    HelpOf(&'a str),
    /// Prints the version.
    Version,
    /// Imports card files.
    Files {
        archive: &'a str,
        part: &'a str,
        files: &'a [String],
    },
}

/// What the arguments of a command line ask for without the parser, if they do. The first is the program's name.
#[tactic(auto, using(crate::proofs::AskedLemmas::none_early))]
pub fn asked_early<'a>(words: &'a [String]) -> Option<Asked<'a>>
    ensures { option_map early_asked result ≡ early_of (map string_bytes words.entry.now) }
{
    match words {
        [_, word] => asked_alone(word),
        [_, word, next, rest @ ..] => asked_with(word, next, rest),
        _ => None,
    }
}

/// What one argument asks for.
fn asked_alone<'a>(word: &'a str) -> Option<Asked<'a>>
    ensures { option_map early_asked result ≡ early_alone word.entry.now }
{
    match word {
        "help" | "--help" | "-h" => Some(Asked::Help),
        "--version" | "-V" => Some(Asked::Version),
        _ => None,
    }
}

/// What several arguments ask for.
fn asked_with<'a>(word: &'a str, next: &'a str, words: &'a [String]) -> Option<Asked<'a>>
    ensures { option_map early_asked result ≡ early_with word.entry.now next.entry.now (map string_bytes words.entry.now) }
{
    if word == "help" {
        help_asked(next, words)
    } else if is_command(word) && asks_help(next) {
        Some(Asked::HelpOf(word))
    } else if word == "import" {
        files_asked(next, words)
    } else {
        None
    }
}

/// Whether an argument is another name of `help`.
fn asks_help(word: &str) -> bool
    ensures { result ≡ is_help word.now }
{
    word == "--help" || word == "-h"
}

/// Whether a command has this name.
fn is_command(word: &str) -> bool
    ensures { result ≡ names_command word.now }
{
    act_of(word).is_some()
}

/// Whether an argument begins with a hyphen.
fn begins_with_hyphen(word: &str) -> bool
    ensures { result ≡ is_flag word.now }
{
    word.as_bytes().first() == Some(&b'-')
}

/// Whether one of the arguments begins with a hyphen.
fn any_flag(words: &[String]) -> bool
    ensures { result ≡ list_any is_flag (map string_bytes words.now) }
{
    words.iter().any(|word| begins_with_hyphen(word))
}

/// The command that follows `help`.
#[tactic(auto, using(crate::proofs::AskedLemmas::help_more))]
fn help_asked<'a>(name: &'a str, words: &'a [String]) -> Option<Asked<'a>>
    ensures { option_map early_asked result ≡ help_on name.entry.now (map string_bytes words.entry.now) }
{
    match words {
        [] => is_command(name).then_some(Asked::HelpOf(name)),
        _ => None,
    }
}

/// The archive, the part and the files that follow `import`.
fn files_asked<'a>(archive: &'a str, words: &'a [String]) -> Option<Asked<'a>>
    ensures { option_map early_asked result ≡ files_in archive.entry.now (map string_bytes words.entry.now) }
{
    if words.len() < 2 || begins_with_hyphen(archive) || any_flag(words) {
        return None;
    }
    Some(Asked::Files {
        archive,
        part: &words[0],
        files: &words[1..],
    })
}
