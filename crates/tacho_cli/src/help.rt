//! How the program and its commands are used. No contract is on these texts; the tests show them.

ghost use Rattle.std.specs.Prelude.{◌≡◌, option_map};
ghost use Rattle.tacho_desk.specs.Commands.{all_commands};
ghost use Rattle.tacho_cli.specs.Words.{act_named};

use clap::Error;
use clap::error::ErrorKind;
use std::alloc::{AllocError, Global};
use tacho_desk::{Act, Argument, Command as Row, Want, command_table};

/// The commands, one per line.
pub fn help_text(alloc: Global) -> Result<String, AllocError> {
    let mut text = String::from_str(
        alloc,
        "Archives the hours that driver cards record, and checks them against the rules on driving and rest\n\n\
         Usage: tacho COMMAND [ARGUMENT...]\n\nCommands:\n",
    )?;
    for row in command_table() {
        write!(text, "  {:9}  {}\n", row.name, row.about)?;
    }
    text.push_str(
        "  help       Prints these commands, or with the name of a command how it is used\n",
    )?;
    Ok(text)
}

/// How the command with a name is used: what it does, and its arguments.
pub fn help_of(alloc: Global, name: &str) -> Result<String, AllocError> {
    let mut text = String::new(alloc);
    if let Some(row) = row_named(name) {
        write!(text, "{}\n\nUsage: ", row.about)?;
        push_usage(&mut text, row)?;
        for (place, argument) in row.arguments.iter().enumerate() {
            text.push_str(if place == 0 { "\nArguments:\n" } else { "" })?;
            write!(text, "  {:8}  {}\n", argument.name(), meaning_of(*argument))?;
        }
    }
    Ok(text)
}

/// What the parser says is wrong with these arguments, and the usage. After an unknown argument, also how a file is given to a command that
/// reads its input.
pub(crate) fn error_text(
    alloc: Global,
    error: &Error,
    words: &[String],
) -> Result<String, AllocError> {
    if matches!(error.kind(), ErrorKind::MissingSubcommand) {
        return usage_text(alloc, "no command was given", words);
    }
    let whole = error.to_string(alloc)?;
    let mut text = usage_text(alloc, cause_in(&whole), words)?;
    if matches!(error.kind(), ErrorKind::UnknownArgument) {
        if let Some(input) = row_in(words).and_then(|row| input_of(row.act)) {
            write!(
                text,
                "       {input} is read from standard input: put < before the name of a file\n"
            )?;
        }
    }
    Ok(text)
}

/// The cause in the text of an error of the parser: what follows `error: `, as far as the first empty line, without the usage after it.
fn cause_in(text: &str) -> &str {
    let first = text.split_once("\n\n").map_or(text, |parts| parts.0);
    first.strip_prefix("error: ").unwrap_or(first)
}

/// What is wrong with these arguments, in one line, and the usage of their command, or of the program if there is none.
pub fn usage_text(alloc: Global, cause: &str, words: &[String]) -> Result<String, AllocError> {
    let mut text = String::from_str(alloc, "tacho:")?;
    for part in cause.lines() {
        write!(text, " {}", part.trim_ascii())?;
    }
    text.push_str("\nusage: ")?;
    match row_in(words) {
        Some(row) => push_usage(&mut text, row)?,
        None => text.push_str(
            "tacho COMMAND [ARGUMENT...]\n       tacho help lists the commands\n",
        )?,
    }
    Ok(text)
}

/// The command that these arguments name.
fn row_in(words: &[String]) -> Option<&'static Row> {
    row_named(words.get(1)?)
}

/// The command with a name.
pub(crate) fn row_named(name: &str) -> Option<&'static Row>
    ensures { option_map (λ row. row.act) (option_map (λ row. row.now) result) ≡ act_named name.now all_commands }
{
    command_table().iter().find(|row| row.name == name)
}

/// The usage of a command.
fn push_usage(text: &mut String, row: &Row) -> Result<(), AllocError> {
    push_words(text, row)?;
    match input_of(row.act) {
        Some(input) => write!(text, " < {input}\n")?,
        None => text.push_str("\n")?,
    }
    if matches!(row.act, Act::AtDesk(Want::Import)) {
        text.push_str("       ")?;
        push_words(text, row)?;
        text.push_str(" FILE...\n")?;
    }
    Ok(())
}

/// A command, and the names of its arguments.
fn push_words(text: &mut String, row: &Row) -> Result<(), AllocError> {
    write!(text, "tacho {}", row.name)?;
    for argument in row.arguments {
        write!(text, " {}", argument.name())?;
    }
    Ok(())
}

/// What a command reads from its input, if it has one.
pub(crate) fn input_of(act: Act) -> Option<&'static str> {
    match act {
        Act::AtDesk(Want::Register | Want::Enter) => Some("CSV"),
        Act::Dump
        | Act::Holder
        | Act::Card
        | Act::Listen
        | Act::AtDesk(Want::Import | Want::Key | Want::Name) => Some("FILE"),
        _ => None,
    }
}

/// The description of an argument for the user.
fn meaning_of(argument: Argument) -> &'static str {
    match argument {
        Argument::Archive => "The path of the archive",
        Argument::New => "The path of the new archive, where no file may be",
        Argument::Driver | Argument::AnyDriver => "The driver's number, 1 to 999999",
        Argument::Part => {
            "The blocks of the card file that are read: first (first generation), second (second generation), or both"
        }
        Argument::Number => {
            "The number of the entry or the card file, as it was printed when it was added"
        }
        Argument::AnyLast => "The number of the last entry, to withdraw all from the first to it",
        Argument::Date => "A Monday, as 2024-03-04",
        Argument::AnyDate => "A day, as 2024-03-04: only gaps before it are printed",
        Argument::From => "The first day of a period, as 2024-03-01",
        Argument::Past => "The day after its last, at most 366 days later",
        Argument::Since => "A day, as 2024-03-07: what reaches it or lies after it is carried",
        Argument::Month => "A month, as 2024-03",
        Argument::DateOfTime => "A day, as 2024-03-07",
        Argument::Time => "The time of that day in UTC, as 12:00",
        Argument::Key => "The office's key: 8 to 64 letters, digits and hyphens",
        Argument::Port => "The port on 127.0.0.1, 1 to 65535",
        Argument::Count => "The number of connections to answer, 1 to 1000000",
    }
}
