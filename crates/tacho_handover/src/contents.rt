ghost use Rattle.std.specs.Prelude.{◌≡◌, ◌≤◌, ◌+◌, ◌++◌, List, IfOk, OnOk, drop, filter, flat_map, length, string_bytes, take};
ghost use Rattle.arrayvec.specs.ArrayVec.{array_vec_len};
ghost use Rattle.tacho_line.specs.declared.gap.Gap.{Gap as GapValue};
ghost use Rattle.tacho_line.specs.Line.{AreGaps};
ghost use Rattle.tacho_state.specs.Files.{told_file};
ghost use Rattle.tacho_state.specs.Summaries.{told_summary};
ghost use Rattle.tacho_sheet.specs.Text.{entry_line};
ghost use Rattle.tacho_tar.specs.Tar.{Member};
ghost use Rattle.tacho_handover.specs.Contents.{card_name as name_of_card, card_signs, contents_text, file_line, has_minute_of, missing_line, safe_sign, short_day};

use arrayvec::ArrayVec;
use itoa::Buffer;
use sha2::{Digest, Sha256};
use std::alloc::{AllocError, Global};
use std::slice;
use tacho_line::{Gap, Line};
use tacho_sheet::{driver_text, push_bytes, push_entry};
use tacho_state::{DriverSummary, Entry, FileSummary};
use tacho_time::{Day, Minute, day_line};

/// The most bytes that the name of a card file can have.
const ROOM: usize = 64;

/// The name of a card file.
pub(crate) type FileName = ArrayVec<u8, 64>;

/// Appends bytes, for which there is room.
fn put(name: &mut FileName, bytes: &[u8])
    requires { array_vec_len name.old + length bytes.now ≤ ROOM }
    ensures items { name.new.items ≡ name.old.items ++ bytes.now }
    ensures len { array_vec_len name.new ≡ array_vec_len name.old + length bytes.now }
{
    if name.try_extend_from_slice(bytes).is_err() {
        unreachable!()
    }
}

/// A letter or a digit as it is, and `_` for any other sign.
fn safe_sign(sign: u8) -> u8
    ensures { result ≡ safe_sign sign }
{
    if sign.is_ascii_alphanumeric() {
        sign
    } else {
        b'_'
    }
}

/// The 14 bytes after the first one of a holder, or as many as there are.
fn signs_of(holder: &[u8]) -> &[u8]
    ensures signs { result.now ≡ take 14 (drop 1 holder.now) }
    ensures short { length result.now ≤ 14 }
{
    let end = holder.len().min(15);
    &holder[end.min(1)..end]
}

/// Appends the 14 signs of a card's number.
fn put_card(name: &mut FileName, holder: &[u8])
    requires { array_vec_len name.old + 14 ≤ ROOM }
    ensures items { name.new.items ≡ name.old.items ++ card_signs holder.now }
    ensures len { array_vec_len name.new ≤ array_vec_len name.old + 14 }
{
    for sign in signs_of(holder) {
        put(name, &[safe_sign(*sign)]);
    }
}

/// Appends a day as `YYYYMMDD`.
fn put_day(name: &mut FileName, day: Day)
    requires { array_vec_len name.old + 10 ≤ ROOM }
    ensures items { name.new.items ≡ name.old.items ++ short_day day }
    ensures len { array_vec_len name.new ≤ array_vec_len name.old + 10 }
{
    let text = day_line(day);
    for sign in text.as_str().as_bytes() {
        if *sign != b'-' {
            put(name, &[*sign]);
        }
    }
}

/// The name of a card file: its number, the card's number, and the days of its first and its last minute.
pub(crate) fn card_name(holder: &[u8], file: &FileSummary) -> FileName
    ensures { result.items ≡ name_of_card holder.now (told_file file.now) }
{
    let last = Minute::new(file.past.number().saturating_sub(1));
    let mut digits = Buffer::new();
    let mut name = FileName::new();
    put(&mut name, digits.format(file.number).as_bytes());
    put(&mut name, b"-");
    put_card(&mut name, holder);
    put(&mut name, b"-");
    put_day(&mut name, file.first.day());
    put(&mut name, b"-");
    put_day(&mut name, last.day());
    put(&mut name, b".ddd");
    name
}

/// Writes the lines of the entries that have a minute from `start` to before `past`, also of those withdrawn.
pub fn entries_text(
    alloc: Global,
    entries: &[Entry],
    start: Minute,
    past: Minute,
) -> Result<String, AllocError>
    ensures { IfOk result (λ text. string_bytes text ≡ flat_map entry_line (filter (has_minute_of start past) entries.now)) }
{
    let mut text = String::new(alloc);
    for entry in entries {
        if entry.line.start().max(start) < entry.line.past().min(past) {
            push_entry(&mut text, entry)?;
        }
    }
    Ok(text)
}

/// Writes a line for each maximal range of minutes from `start` to before `past` that the line doesn't hold.
pub fn missing_text(
    alloc: Global,
    line: &Line,
    start: Minute,
    past: Minute,
) -> Result<String, AllocError>
    ensures { IfOk result (λ text. (gaps : List GapValue) × AreGaps line.now start past gaps × (string_bytes text ≡ flat_map missing_line gaps)) }
{
    let gaps = line.gaps(alloc, start, past)?;
    missing_lines(alloc, &gaps)
}

/// Writes the line of each gap.
fn missing_lines(alloc: Global, gaps: &[Gap]) -> Result<String, AllocError>
    ensures { IfOk result (λ text. string_bytes text ≡ flat_map missing_line gaps.now) }
{
    let mut text = String::new(alloc);
    for gap in gaps {
        push_gap(&mut text, gap)?;
    }
    Ok(text)
}

/// Appends the line of a gap.
fn push_gap(text: &mut String, gap: &Gap) -> Result<(), AllocError>
    ensures { OnOk result (string_bytes text.new ≡ string_bytes text.old ++ missing_line gap.now) }
{
    let start = gap.start;
    let past = gap.past;
    writeln!(text, "NOT HELD {start} {past}")
}

/// Appends the line of a file of the handover: its name, its length in bytes, and its SHA-256 digest.
pub(crate) fn push_file(
    alloc: Global,
    lines: &mut Vec<u8>,
    name: &[u8],
    content: &[u8],
) -> Result<(), AllocError>
    ensures { OnOk result (lines.new.items ≡ lines.old.items ++ file_line (record { name = name.now; content = content.now })) }
{
    let mut length = Buffer::new();
    let mut digest = String::new(alloc);
    push_bytes(&mut digest, Sha256::digest(content).as_slice())?;
    lines.extend_from_slice(b"FILE ")?;
    lines.extend_from_slice(name)?;
    lines.extend_from_slice(b" ")?;
    lines.extend_from_slice(length.format(content.len()).as_bytes())?;
    lines.extend_from_slice(b" ")?;
    lines.extend_from_slice(digest.as_bytes())?;
    lines.extend_from_slice(b"\n")
}

/// Writes the contents of a handover: the driver, the days of the period, the program's line, the lines of the files, and what isn't held.
pub(crate) fn contents_of(
    alloc: Global,
    program: &[u8],
    driver: &DriverSummary,
    from: Day,
    past: Day,
    lines: &[u8],
    missing: &[u8],
) -> Result<Vec<u8>, AllocError>
    ensures { IfOk result (λ contents. (members : List Member) (gaps : List GapValue) → lines.now ≡ flat_map file_line members → missing.now ≡ flat_map missing_line gaps
        → contents.items ≡ contents_text program.now (told_summary driver.now) from past members gaps) }
{
    let listed = driver_text(alloc, slice::from_ref(driver))?;
    let mut contents = Vec::new(alloc);
    contents.extend_from_slice(b"DRIVER ")?;
    contents.extend_from_slice(listed.as_bytes())?;
    contents.extend_from_slice(b"FROM ")?;
    contents.extend_from_slice(day_line(from).as_str().as_bytes())?;
    contents.extend_from_slice(b" PAST ")?;
    contents.extend_from_slice(day_line(past).as_str().as_bytes())?;
    contents.extend_from_slice(b"\nPROGRAM ")?;
    contents.extend_from_slice(program)?;
    contents.extend_from_slice(lines)?;
    contents.extend_from_slice(missing)?;
    Ok(contents)
}
