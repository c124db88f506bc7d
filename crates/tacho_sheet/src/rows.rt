ghost use Rattle.std.specs.Prelude.{◌≡◌, None, Some, IfOk, IfErr, MatchOption, map};
ghost use Rattle.tacho_sheet.specs.Rows.{HasLeft, IsReaderFault, five_of, three_of};
ghost use Rattle.csv.specs.Reading.{AreRecords, default_config, reader_state, strip_bom};
ghost use Rattle.csv.specs.Records.{fields_of};
ghost use Rattle.csv.specs.declared.parser.State.TheVariants as st;

use crate::fault::SheetFault;
use csv::{ByteRecord, Error, ErrorKind, Reader, ReaderBuilder};
use std::alloc::Global;

impl From<Error> for SheetFault {
    ghost use Rattle.std.specs.Prelude.{◌≡◌};
    ghost use Rattle.csv.specs.Reading.{error_kind};
    ghost use Rattle.tacho_sheet.specs.Rows.{IsReaderFault, reader_fault};

    ghost from_gives = { λ error fault. IsReaderFault fault × (fault ≡ reader_fault (error_kind error)) };

    fn from(error: Error) -> SheetFault {
        match error.into_kind() {
            ErrorKind::OutOfMemory => SheetFault::Memory,
            _ => SheetFault::Csv,
        }
    }
}

/// A reader of the records of a text, including its head, after a byte order mark is removed.
pub(crate) fn row_reader(alloc: Global, text: &[u8]) -> Reader<&[u8]>
    ensures text { HasLeft result (strip_bom text.now) }
    ensures state { reader_state result ≡ st.StartRecord }
{
    ReaderBuilder::new()
        .has_headers(false)
        .flexible(true)
        .from_reader(alloc, text)
}

/// Reads every record of a text, including its head, after a byte order mark is removed. It isn't inlined, so that the reader's buffers of
/// 8 KB are on the stack only until it returns.
#[inline(never)]
pub(crate) fn read_rows(alloc: Global, text: &[u8]) -> Result<Vec<ByteRecord>, SheetFault>
    ensures fault { IfErr result IsReaderFault }
    ensures rows { IfOk result (λ v. AreRecords default_config st.StartRecord (strip_bom text.now) (map fields_of v.items)) }
{
    let mut rows = Vec::new(alloc);
    for row in row_reader(alloc, text).into_byte_records() {
        if rows.push(row?).is_err() {
            return Err(SheetFault::Memory);
        }
    }
    Ok(rows)
}

/// The fields of a record, if it has three.
pub(crate) fn three_fields(fields: &ByteRecord) -> Option<(&[u8], &[u8], &[u8])>
    ensures { MatchOption result (three_of (fields_of fields.now) ≡ None)
        (λ t. three_of (fields_of fields.now) ≡ Some (t.0.now, t.1.now, t.2.now)) }
{
    if fields.len() != 3 {
        return None;
    }
    let first = fields.get(0)?;
    let second = fields.get(1)?;
    let third = fields.get(2)?;
    Some((first, second, third))
}

/// The fields of a record, if it has five.
pub(crate) fn five_fields(fields: &ByteRecord) -> Option<(&[u8], &[u8], &[u8], &[u8], &[u8])>
    ensures { MatchOption result (five_of (fields_of fields.now) ≡ None)
        (λ f. five_of (fields_of fields.now)
        ≡ Some (f.0.now, f.1.now, f.2.now, f.3.now, f.4.now)) }
{
    if fields.len() != 5 {
        return None;
    }
    let first = fields.get(0)?;
    let second = fields.get(1)?;
    let third = fields.get(2)?;
    let fourth = fields.get(3)?;
    let fifth = fields.get(4)?;
    Some((first, second, third, fourth, fifth))
}
