ghost use Rattle.std.specs.Prelude.{◌≡◌, ◌++◌, flat_map, map, IfOk, OnOk, string_bytes};
ghost use Rattle.tacho_state.specs.Numbers.{part_number};
ghost use Rattle.tacho_state.specs.Files.{told_file};
ghost use Rattle.tacho_state.specs.Summaries.{told_summary};
ghost use Rattle.tacho_sheet.specs.Text.{entry_line, file_line, kept_word, part_word, summary_line};

use crate::lines::push_bytes;
use std::alloc::{AllocError, Global};
use tacho_card::Part;
use tacho_state::{DriverSummary, Entry, FileSummary};
use tacho_time::write_day;

/// Writes a driver's entries: for each its number, start, past, activity, `kept` or `withdrawn`, and author and note in double quotes,
/// separated by blanks, and a line feed.
pub fn entry_text(alloc: Global, entries: &[Entry]) -> Result<String, AllocError>
    ensures { IfOk result (λ text. string_bytes text ≡ flat_map entry_line entries.now) }
{
    let mut text = String::new(alloc);
    for entry in entries {
        push_entry(&mut text, entry)?;
    }
    Ok(text)
}

/// Appends the line of an entry, as `entry_text` does for each.
pub fn push_entry(text: &mut String, entry: &Entry) -> Result<(), AllocError>
    ensures { OnOk result (string_bytes text.new ≡ string_bytes text.old ++ entry_line entry.now) }
{
    let number = entry.number;
    let start = entry.line.start();
    let past = entry.line.past();
    let activity = entry.line.activity().name();
    let kept = word_of(entry.withdrawn);
    let author = entry.line.author();
    let note = entry.line.note();
    writeln!(
        text,
        "{number} {start} {past} {activity} {kept} \"{author}\" \"{note}\""
    )
}

/// `withdrawn` or `kept`.
fn word_of(withdrawn: bool) -> &'static str
    ensures { result.now ≡ kept_word withdrawn }
{
    if withdrawn { "withdrawn" } else { "kept" }
}

/// Writes the list of drivers: for each the number, the holder in 30 hexadecimal digits, the base, the number of downloads, the number of
/// entries (including withdrawn ones), and the name, separated by blanks, and a line feed.
pub fn driver_text(alloc: Global, drivers: &[DriverSummary]) -> Result<String, AllocError>
    ensures { IfOk result (λ text. string_bytes text ≡ flat_map summary_line (map told_summary drivers.now)) }
{
    let mut text = String::new(alloc);
    for driver in drivers {
        push_driver(&mut text, driver)?;
    }
    Ok(text)
}

/// Appends the line of a driver.
fn push_driver(text: &mut String, driver: &DriverSummary) -> Result<(), AllocError>
    ensures { OnOk result (string_bytes text.new ≡ string_bytes text.old ++ summary_line (told_summary driver.now)) }
{
    let number = driver.number;
    let downloads = driver.downloads;
    let entries = driver.entries;
    let name = driver.name.as_str();
    write!(text, "{number} ")?;
    push_bytes(text, &driver.holder)?;
    text.push_str(" ")?;
    write_day(text, driver.base)?;
    writeln!(text, " {downloads} {entries} {name}")
}

/// Writes the list of a driver's card files: for each the number, the part that was read, the length in bytes, the first minute and the
/// minute after the last, and the SHA-256 digest in 64 hexadecimal digits, separated by blanks, and a line feed.
pub fn file_text(alloc: Global, files: &[FileSummary]) -> Result<String, AllocError>
    ensures { IfOk result (λ text. string_bytes text ≡ flat_map file_line (map told_file files.now)) }
{
    let mut text = String::new(alloc);
    for file in files {
        push_file(&mut text, file)?;
    }
    Ok(text)
}

/// Appends the line of a card file.
fn push_file(text: &mut String, file: &FileSummary) -> Result<(), AllocError>
    ensures { OnOk result (string_bytes text.new ≡ string_bytes text.old ++ file_line (told_file file.now)) }
{
    let number = file.number;
    let part = word_of_part(file.part);
    let length = file.length;
    let first = file.first;
    let past = file.past;
    write!(text, "{number} {part} {length} {first} {past} ")?;
    push_bytes(text, &file.digest)?;
    text.push_str("\n")
}

/// `both`, `first` or `second`.
fn word_of_part(part: Part) -> &'static str
    ensures { result.now ≡ part_word (part_number part) }
{
    match part {
        Part::Both => "both",
        Part::First => "first",
        Part::Second => "second",
    }
}
