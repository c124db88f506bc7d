ghost use Rattle.std.specs.Prelude.{◌≡◌, [], IfOk, IfErr, Some, codes, false, map, option_map, string_bytes};
ghost use Rattle.clap.specs.Words.{app_of, fault_of, first_of, found_of, kind_of, new_app, rows_of, rule_of, subcommand_of, takes};
ghost use Rattle.clap.specs.declared.builder.command.Command.TheViews.{out-Command as fields_of};
ghost use Rattle.tacho_desk.specs.Commands.{all_commands, name_of, row_of};
ghost use Rattle.tacho_cli.specs.Words.{act_named, needs_subcommand, day_text, next_text, other_text, tacho_app, with_table, with_words, word_rule};
ghost use Rattle.tacho_cli.specs.Words.{IsActUsage, IsJob, IsJobOf, IsNumbered, IsPortUsage, IsRefusal, IsUsage};

use crate::help::{error_text, row_named};
use crate::job::{DeskJob, Job};
use clap::error::ErrorKind;
use clap::{Arg, ArgMatches, Command, Error};
use std::alloc::{AllocError, Global};
use tacho_desk::{Act, Argument, Command as Row, Wish, command_table};
use tacho_sheet::read_number;

/// Why a command line names no job.
#[derive(Debug, Drop)]
pub enum Usage {
    /// The arguments name no job. The value is the text that shows the usage.
    Words(String),
    /// PORT isn't a number from 1 to 65535, or COUNT isn't one from 1 to 1,000,000.
    Numbers,
    /// The parser of arguments gave no answer, because it was out of memory.
    Parser,
    /// Out of memory.
    Memory,
}

impl From<AllocError> for Usage {
    ghost use Rattle.std.specs.Prelude.{◌≡◌};
    ghost use Rattle.tacho_cli.specs.declared.words.Usage.TheVariants.{Memory};

    ghost from_gives = { λ _ e. e ≡ Memory };

    fn from(_: AllocError) -> Usage {
        Usage::Memory
    }
}

/// The greatest port; below, the greatest number of connections to answer.
const LAST_PORT: u32 = 65_535;

const LAST_COUNT: u32 = 1_000_000;

/// An argument. It is required, unless its name is in brackets.
fn word<'a>(alloc: Global, id: &'a str) -> Arg<'a>
    ensures rule { rule_of result ≡ word_rule id.entry.now }
    ensures global { result.global ≡ false }
{
    Arg::new(alloc, id).required(id.as_bytes().first() != Some(&b'['))
}

/// A command with its arguments.
fn leaf<'a>(alloc: Global, name: &'a str, arguments: &[Argument]) -> Result<Command<'a>, AllocError>
    ensures app { IfOk result (λ c. app_of c ≡ with_words (new_app name.entry.now) (map name_of arguments.now)) }
    ensures local { IfOk result (λ c. (fields_of c).has_globals ≡ false) }
{
    let mut command = Command::new(alloc, name);
    for argument in arguments {
        let id: &'a str = argument.name();
        command = command.arg(word(alloc, id))?;
    }
    Ok(command)
}

/// The command of a table.
fn command_of<'a>(alloc: Global, table: &[Row]) -> Result<Command<'a>, AllocError>
    ensures { IfOk result (λ c. app_of c ≡ with_table (needs_subcommand (new_app (codes "tacho")))
        (map row_of table.now)) }
{
    let mut command = Command::new(alloc, "tacho").subcommand_required(true);
    for row in table {
        let leaf = leaf(alloc, row.name, row.arguments)?;
        command = command.subcommand(leaf)?;
    }
    Ok(command)
}

/// The command line of the program.
fn tacho<'a>(alloc: Global) -> Result<Command<'a>, AllocError>
    ensures { IfOk result (λ command. app_of command ≡ tacho_app) }
{
    command_of(alloc, command_table())
}

/// What the subcommand with a name does.
pub(crate) fn act_of(name: &str) -> Option<Act>
    ensures { result ≡ act_named name.now all_commands }
{
    row_named(name).map(|row| row.act)
}

/// The text of an argument, if there is one.
fn text_of<'a>(words: &ArgMatches<'a>, id: &str) -> Option<&'a str>
    ensures { option_map (λ text. text.now) result ≡ first_of id.now (rows_of (found_of words.now)) }
{
    words.get_str(id)
}

/// The text of an argument that the parser requires.
fn required<'a>(words: &ArgMatches<'a>, id: &str) -> Result<&'a str, Usage>
    ensures text { IfOk result (λ text. first_of id.now (rows_of (found_of words.now)) ≡ Some text.now) }
    ensures usage { IfErr result (λ usage. usage ≡ Usage.Parser) }
{
    text_of(words, id).ok_or(Usage::Parser)
}

/// The day among the arguments: a date, or the first day of a period.
fn day_of<'a>(words: &ArgMatches<'a>) -> Option<&'a str>
    ensures { option_map (λ text. text.now) result ≡ day_text (rows_of (found_of words.now)) }
{
    let date = text_of(words, "DATE").or(text_of(words, "[DATE]"));
    date.or(text_of(words, "FROM"))
}

/// The argument that may come after the other one: a time, the last number of a range, or the past of a period. An empty text if there is none.
fn next_of<'a>(words: &ArgMatches<'a>) -> &'a str
    ensures { result.now ≡ next_text (rows_of (found_of words.now)) }
{
    let next = text_of(words, "TIME").or(text_of(words, "[LAST]"));
    next.or(text_of(words, "PAST")).unwrap_or("")
}

/// The argument other than the archive and the driver: a part, a number, a day or a month. An empty text if there is none.
fn other_of<'a>(words: &ArgMatches<'a>) -> &'a str
    ensures { result.now ≡ other_text (rows_of (found_of words.now)) }
{
    let number = text_of(words, "PART").or(text_of(words, "NUMBER"));
    number
        .or(day_of(words))
        .or(text_of(words, "MONTH"))
        .unwrap_or("")
}

/// Makes the job of a subcommand from its arguments. Fails with `Usage::Numbers` if the port or the count isn't a valid number.
fn job_of<'a>(act: Act, words: &ArgMatches<'a>) -> Result<Job<'a>, Usage>
    ensures job { IfOk result (IsJobOf act (rows_of (found_of words.now))) }
    ensures usage { IfErr result (IsActUsage act (rows_of (found_of words.now))) }
{
    let archive = required(words, "ARCHIVE");
    let part = required(words, "PART");
    match act {
        Act::Dump => Ok(Job::Dump),
        Act::Holder => Ok(Job::Holder),
        Act::Card => Ok(Job::Card { part: part? }),
        Act::Init => Ok(Job::Init { archive: archive? }),
        Act::Migrate => Ok(Job::Migrate { archive: archive? }),
        Act::Check => Ok(Job::Check { archive: archive? }),
        Act::Carry => Ok(Job::Carry {
            archive: archive?,
            new: required(words, "NEW")?,
            date: required(words, "DATE")?,
        }),
        Act::AtDesk(want) => {
            let driver = text_of(words, "DRIVER").or(text_of(words, "[DRIVER]"));
            Ok(Job::AtDesk(DeskJob {
                archive: archive?,
                wish: Wish {
                    want,
                    driver: driver.unwrap_or("").as_bytes(),
                    word: other_of(words).as_bytes(),
                    next: next_of(words).as_bytes(),
                },
            }))
        }
        Act::Serve => {
            let (port, count) = port_and_count(words)?;
            Ok(Job::Serve {
                archive: archive?,
                key: required(words, "KEY")?,
                port,
                count,
            })
        }
        Act::Listen => {
            let (port, count) = port_and_count(words)?;
            Ok(Job::Listen {
                archive: archive?,
                port,
                count,
            })
        }
        Act::Version => Ok(Job::Version),
    }
}

/// Reads the port, 1 to 65535, and the count, 1 to 1,000,000. Fails with `Usage::Numbers` if one of them isn't a valid number.
fn port_and_count(words: &ArgMatches<'_>) -> Result<(u16, u32), Usage>
    ensures numbers { IfOk result (λ n. IsNumbered (rows_of (found_of words.now)) (codes "PORT") 65535 n.0
        × IsNumbered (rows_of (found_of words.now)) (codes "COUNT") 1000000 n.1) }
    ensures usage { IfErr result (IsPortUsage (rows_of (found_of words.now))) }
{
    let port = required(words, "PORT")?;
    let port = read_number(port.as_bytes(), LAST_PORT).ok_or(Usage::Numbers)?;
    let count = required(words, "COUNT")?;
    let count = read_number(count.as_bytes(), LAST_COUNT).ok_or(Usage::Numbers)?;
    Ok((port as u16, count))
}

/// Converts an error of the parser for these arguments: what is wrong and the usage, unless the parser was out of memory.
fn refusal(alloc: Global, error: &Error, words: &[String]) -> Usage
    ensures { IsRefusal (kind_of error.now) result }
{
    if matches!(error.kind(), ErrorKind::OutOfMemory) {
        return Usage::Parser;
    }
    match error_text(alloc, error, words) {
        Ok(text) => Usage::Words(text),
        Err(_) => Usage::Memory,
    }
}

/// Parses the arguments of a command line, the first of which is the program's name. Returns the job that they name, or why they name none.
pub fn parse<'a>(alloc: Global, words: &'a [String]) -> Result<Job<'a>, Usage>
    ensures taken { IfOk result (λ _. fault_of tacho_app (map string_bytes words.entry.now) ≡ []) }
    ensures job { IfOk result (IsJob (subcommand_of tacho_app (map string_bytes words.entry.now))) }
    ensures usage { IfErr result (IsUsage (takes tacho_app (map string_bytes words.entry.now))
        (subcommand_of tacho_app (map string_bytes words.entry.now))) }
{
    let command = tacho(alloc)?;
    let matches = match command.try_get_matches_from(words) {
        Ok(matches) => matches,
        Err(error) => return Err(refusal(alloc, &error, words)),
    };
    let Some((name, inner)) = matches.subcommand() else {
        return Err(Usage::Parser);
    };
    match act_of(name) {
        Some(act) => job_of(act, inner),
        None => Err(Usage::Parser),
    }
}
