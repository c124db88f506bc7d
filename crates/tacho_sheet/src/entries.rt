ghost use Rattle.std.specs.Prelude.{◌≡◌, ◌⊎◌, ◌<◌, ◌^◌, ◌&&◌, ℕ, List, IfOk, IsErrAnd, MatchOption, MatchResult, bytes_eq, codes, length, false, true};
ghost use Rattle.csv.specs.Records.{fields_of};
ghost use Rattle.tacho_time.specs.Reading.{minute_at};
ghost use Rattle.tacho_state.specs.Batch.{IsBatch};
ghost use Rattle.tacho_state.specs.Limits.{IsName, IsNote};
ghost use Rattle.tacho_sheet.specs.Rows.{AreLeft, HasLeft, Row, IsReaderFault};
ghost use Rattle.tacho_sheet.specs.Entries.{check_times, check_author, is_author, is_note as is_note_text, row_answer, head_of, lines_from, lines_told, IsRead};

use crate::fault::SheetFault;
use crate::rows::{five_fields, row_reader, three_fields};
use crate::words::{read_activity, read_left_out};
use csv::{ByteRecord, Reader};
use std::alloc::Global;
use tacho_state::{Column, EntryLine, is_name, is_note};
use tacho_time::{Activity, Minute};

/// The columns that a text of hours has.
#[derive(Clone, Copy)]
pub(crate) enum Head {
    /// `start,past,activity`: the author is the office, and there is no note.
    Three,
    /// `start,past,activity,author,note`.
    Five,
}

/// The most minutes that a line can have: 366 days.
const LONGEST: u32 = 527_040;

/// The author of hours whose row has none.
const OFFICE: &[u8] = b"office";

/// Reads the minutes and the activity of a row that comes after a row that ends at `before`. Reports the first fault of E3 to E7.
fn worked_of_words(
    row: u64,
    before: Minute,
    start: &[u8],
    past: &[u8],
    word: &[u8],
) -> Result<(Minute, Minute, Activity), SheetFault>
    ensures { result ≡ check_times row before word.now (minute_at start.now) (minute_at past.now) }
{
    let (Ok(start), Ok(past)) = (Minute::read(start), Minute::read(past)) else {
        return Err(SheetFault::Time(row));
    };
    if start >= past || start < before {
        return Err(SheetFault::Order(row));
    }
    if let Some(left_out) = read_left_out(word) {
        return Err(SheetFault::LeftOut(row, left_out));
    }
    let Some(activity) = read_activity(word) else {
        return Err(SheetFault::Activity(row));
    };
    if past.number() - start.number() > LONGEST {
        return Err(SheetFault::TooLong(row));
    }
    Ok((start, past, activity))
}

/// Reads an author.
fn read_author(text: &[u8]) -> Option<&str>
    ensures { MatchOption result (is_author text.now ≡ false)
        (λ author. (author.now ≡ text.now) × (is_author text.now ≡ true) × IsName author.now) }
{
    let Ok(author) = str::from_utf8(text) else {
        return None;
    };
    if is_name(author) { Some(author) } else { None }
}

/// Reads a note.
fn read_note(text: &[u8]) -> Option<&str>
    ensures { MatchOption result (is_note_text text.now ≡ false)
        (λ note. (note.now ≡ text.now) × (is_note_text text.now ≡ true) × IsNote note.now) }
{
    let Ok(note) = str::from_utf8(text) else {
        return None;
    };
    if is_note(note) { Some(note) } else { None }
}

/// Makes a line of hours. Its author and its note are within their limits.
fn signed_line(
    alloc: Global,
    start: Minute,
    past: Minute,
    activity: Activity,
    author: &str,
    note: &str,
) -> Result<EntryLine, SheetFault>
    requires { IsName author.now × IsNote note.now }
    ensures { MatchResult result
        (λ line. line ≡ record { start = start; past = past; activity = activity; author = author.now; note = note.now })
        (λ fault. fault ≡ SheetFault.Memory) }
{
    let Ok(author) = String::from_str(alloc, author) else {
        return Err(SheetFault::Memory);
    };
    let Ok(note) = String::from_str(alloc, note) else {
        return Err(SheetFault::Memory);
    };
    match EntryLine::new(start, past, activity, author, note) {
        Ok(line) => Ok(line),
        Err(_) => unreachable!(),
    }
}

/// Reads the line from a row's texts. The row before ends at `before`. Reports the first fault of E3 to E7, then E10.
fn line_of_words(
    alloc: Global,
    row: u64,
    before: Minute,
    start: &[u8],
    past: &[u8],
    word: &[u8],
    author: &[u8],
    note: &[u8],
) -> Result<EntryLine, SheetFault>
    ensures { IsErrAnd result (λ fault. fault ≡ SheetFault.Memory)
        ⊎ (result ≡ check_author row author.now note.now (check_times row before word.now (minute_at start.now) (minute_at past.now))) }
{
    let (start, past, activity) = worked_of_words(row, before, start, past, word)?;
    let Some(author) = read_author(author) else {
        return Err(SheetFault::Text(row, Column::Author));
    };
    let Some(note) = read_note(note) else {
        return Err(SheetFault::Text(row, Column::Note));
    };
    signed_line(alloc, start, past, activity, author, note)
}

/// Reads the line of a row under a head. The row before ends at `before`. Reports the row's first fault.
fn line_of_row(
    alloc: Global,
    head: Head,
    row: u64,
    before: Minute,
    fields: &ByteRecord,
) -> Result<EntryLine, SheetFault>
    ensures { IsErrAnd result (λ fault. fault ≡ SheetFault.Memory) ⊎ (result ≡ row_answer head row before (fields_of fields.now)) }
{
    match head {
        Head::Three => {
            let Some((start, past, word)) = three_fields(fields) else {
                return Err(SheetFault::Fields(row));
            };
            line_of_words(alloc, row, before, start, past, word, OFFICE, b"")
        }
        Head::Five => {
            let Some((start, past, word, author, note)) = five_fields(fields) else {
                return Err(SheetFault::Fields(row));
            };
            line_of_words(alloc, row, before, start, past, word, author, note)
        }
    }
}

/// The head that the record is, if it is one.
fn head_row(fields: &ByteRecord) -> Option<Head>
    ensures { result ≡ head_of (fields_of fields.now) }
{
    if let Some((start, past, word)) = three_fields(fields) {
        if are_three_names(start, past, word) {
            return Some(Head::Three);
        }
    }
    if let Some((start, past, word, author, note)) = five_fields(fields) {
        if are_three_names(start, past, word) && are_two_names(author, note) {
            return Some(Head::Five);
        }
    }
    None
}

/// True if the texts are the names of the first three columns.
fn are_three_names(start: &[u8], past: &[u8], word: &[u8]) -> bool
    ensures { result ≡ (bytes_eq start.now (codes "start") && (bytes_eq past.now (codes "past") && bytes_eq word.now (codes "activity"))) }
{
    start == b"start".as_slice() && past == b"past".as_slice() && word == b"activity".as_slice()
}

/// True if the texts are the names of the last two columns.
fn are_two_names(author: &[u8], note: &[u8]) -> bool
    ensures { result ≡ (bytes_eq author.now (codes "author") && bytes_eq note.now (codes "note")) }
{
    author == b"author".as_slice() && note == b"note".as_slice()
}

/// Reads the lines of the rows after a head, or reports their first fault. Each row is read into `fields`.
fn lines_of_rows(
    alloc: Global,
    reader: &mut Reader<&[u8]>,
    fields: &mut ByteRecord,
    head: Head,
) -> Result<Vec<EntryLine>, SheetFault>
    requires { (text : List ℕ) × HasLeft reader.old text × (length text < 2 ^ 63) }
    ensures { IsErrAnd result IsReaderFault
        ⊎ ((rows : List Row) × AreLeft reader.old rows × (lines_told result ≡ lines_from head 2 0 rows)) }
{
    let mut lines = Vec::new(alloc);
    let mut before = Minute::new(0);
    let mut row = 2;
    while reader.read_byte_record(fields)? {
        let line = line_of_row(alloc, head, row, before, fields)?;
        before = line.past();
        if lines.push(line).is_err() {
            return Err(SheetFault::Memory);
        }
        row += 1;
    }
    Ok(lines)
}

/// Reads the hours that a text of CSV enters: the head `start,past,activity` or `start,past,activity,author,note`, and a row for each line.
/// Reports the first fault: E1 to E7, E10. Fails with E8 if the reader of CSV refuses the text.
pub fn read_entries(alloc: Global, text: &[u8]) -> Result<Vec<EntryLine>, SheetFault>
    ensures read { IsErrAnd result IsReaderFault ⊎ IsRead text.now (lines_told result) }
    ensures batch { IfOk result (λ lines. IsBatch lines.items) }
{
    let mut reader = row_reader(alloc, text);
    let mut fields = ByteRecord::new(alloc);
    if !reader.read_byte_record(&mut fields)? {
        return Err(SheetFault::Head);
    }
    let Some(head) = head_row(&fields) else {
        return Err(SheetFault::Head);
    };
    lines_of_rows(alloc, &mut reader, &mut fields, head)
}
