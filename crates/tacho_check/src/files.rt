//! A driver's stored card files, which are read again.

ghost use Rattle.std.specs.Prelude.{◌≡◌, ◌≢◌, ◌++◌, None, IfOk, OnOk};
ghost use Rattle.tacho_check.specs.Files.{IsOwnContent, IsContentOf, IsReadingOf, IsGivenBy};
ghost use Rattle.tacho_check.specs.Parsed.{IsParsed};
ghost use Rattle.tacho_check.specs.Typed.{ShowsFile, IsFile};

use crate::cells::{bytes_at, number_at};
use crate::parsing::{FromRow, Numbered};
use sqlite::Row;
use std::alloc::Global;
use tacho_card::Part;
use tacho_state::{CardContent, StoreFault, content_of, part_of};
use tacho_tables::TableFault;
use tacho_time::Span;

/// A stored card file: its number among the driver's downloads, the number of the part that was read, and its bytes.
#[derive(Drop)]
pub struct FileRow {
    pub number: u64,
    pub part: u64,
    pub file: Vec<u8>,
}

impl FromRow for FileRow {
    ghost is_of = { IsParsed ShowsFile IsFile };

    fn from_row(alloc: Global, row: &Row) -> Result<Option<FileRow>, TableFault> {
        let Some(number) = number_at(row, 0) else {
            return Ok(None);
        };
        let Some(part) = number_at(row, 1) else {
            return Ok(None);
        };
        let Some(bytes) = bytes_at(row, 2) else {
            return Ok(None);
        };
        let Ok(file) = Vec::from_slice(alloc, bytes) else {
            return Err(TableFault::Memory);
        };
        Ok(Some(FileRow { number, part, file }))
    }
}

impl Numbered for FileRow {
    ghost number_of = { λ f. f.number };

    fn number(&self) -> u64 {
        self.number
    }
}

/// Returns no spans for a fault of a card file; out of memory stays.
fn refused(fault: &StoreFault) -> Result<Option<Vec<Span>>, TableFault>
    ensures { IfOk result (λ found. (found ≡ None) × (fault.now ≢ StoreFault.Memory)) }
{
    match fault {
        StoreFault::Memory => Err(TableFault::Memory),
        _ => Ok(None),
    }
}

/// Returns the spans of a card file, if it is of this holder's card.
fn own_spans(holder: &[u8], content: CardContent) -> Option<Vec<Span>>
    ensures { IsOwnContent holder.now content result }
{
    if content.holder.as_slice() == holder {
        Some(content.spans)
    } else {
        None
    }
}

/// Returns what a holder's card file gives for a part; none if the file has a fault, or is of another holder.
fn content(
    alloc: Global,
    holder: &[u8],
    part: Part,
    file: &[u8],
) -> Result<Option<Vec<Span>>, TableFault>
    ensures { IfOk result (IsContentOf holder.now part file.now) }
{
    match content_of(alloc, part, file) {
        Ok(content) => Ok(own_spans(holder, content)),
        Err(fault) => refused(&fault),
    }
}

/// Reads a stored card file of a holder again; none if no archive keeps such a file.
fn reading(alloc: Global, holder: &[u8], row: &FileRow) -> Result<Option<Vec<Span>>, TableFault>
    ensures { IfOk result (IsReadingOf holder.now row.now) }
{
    let Some(part) = part_of(row.part) else {
        return Ok(None);
    };
    content(alloc, holder, part, &row.file)
}

/// Appends spans.
fn append(given: &mut Vec<Span>, spans: &[Span]) -> Result<(), TableFault>
    ensures { OnOk result (given.new.items ≡ given.old.items ++ spans.now) }
{
    match given.extend_from_slice(spans) {
        Ok(()) => Ok(()),
        Err(_) => Err(TableFault::Memory),
    }
}

/// Returns what stored card files of a holder give together, one after the other; none if no archive keeps one of them.
#[tactic(auto, using(crate::proofs::FileLemmas::begins))]
pub fn given_by(
    alloc: Global,
    holder: &[u8],
    rows: &[FileRow],
) -> Result<Option<Vec<Span>>, TableFault>
    ensures { IfOk result (IsGivenBy holder.now rows.now) }
{
    let mut given = Vec::new(alloc);
    for row in rows {
        let found = reading(alloc, holder, row)?;
        match found {
            None => return Ok(None),
            Some(spans) => append(&mut given, &spans)?,
        }
    }
    Ok(Some(given))
}
