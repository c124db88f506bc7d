//! A driver's stored entries, and what they give.

ghost use Rattle.std.specs.Prelude.{◌≡◌, ◌↔◌, ◌++◌, OnOk, IsTrue};
ghost use Rattle.tacho_check.specs.Hours.{hours_span, kept_hours, entered_hours, HasHours};
ghost use Rattle.tacho_check.specs.Parsed.{IsParsed};
ghost use Rattle.tacho_check.specs.Typed.{ShowsEntry, AreHours};

use crate::cells::{minute_at, number_at, text_at};
use crate::parsing::{FromRow, Numbered};
use sqlite::Row;
use std::alloc::Global;
use tacho_state::{activity_of, is_name, is_note};
use tacho_tables::TableFault;
use tacho_time::{Activity, FIRST_DAY, LAST_DAY, Mark, Minute, Span};

/// A stored entry, without its author and its note: its number among the driver's entries, its minutes, what the driver did in them, and
/// whether it is withdrawn.
#[derive(Clone, Copy)]
pub struct HoursRow {
    pub number: u64,
    pub start: Minute,
    pub past: Minute,
    pub activity: Activity,
    pub withdrawn: bool,
}

impl FromRow for HoursRow {
    ghost is_of = { IsParsed ShowsEntry AreHours };

    fn from_row(_alloc: Global, row: &Row) -> Result<Option<HoursRow>, TableFault> {
        Ok(hours_of(row))
    }
}

impl Numbered for HoursRow {
    ghost number_of = { λ h. h.number };

    fn number(&self) -> u64 {
        self.number
    }
}

/// True if an entry can have these minutes: they lie within the years that are read, and are at least one and at most 366 days.
fn are_hours(start: Minute, past: Minute) -> bool
    ensures { IsTrue result ↔ HasHours start past }
{
    let (start, past) = (start.number(), past.number());
    start >= 1_440 * FIRST_DAY
        && start < past
        && past - start <= 527_040
        && past <= 1_440 * (LAST_DAY + 1)
}

/// Returns the hours of a row of number, start, past, mark, withdrawn, author and note; none if no entry within its limits has such a row.
fn hours_of(row: &Row) -> Option<HoursRow>
    ensures { IsParsed ShowsEntry AreHours row.now result }
{
    let number = number_at(row, 0)?;
    let start = minute_at(row, 1)?;
    let past = minute_at(row, 2)?;
    let mark = number_at(row, 3)?;
    let withdrawn = number_at(row, 4)?;
    let author = text_at(row, 5)?;
    let note = text_at(row, 6)?;
    if !are_hours(start, past) {
        return None;
    }
    if mark >= 4 || withdrawn >= 2 {
        return None;
    }
    if !is_name(author) || !is_note(note) {
        return None;
    }
    Some(HoursRow {
        number,
        start,
        past,
        activity: activity_of(mark),
        withdrawn: withdrawn != 0,
    })
}

/// Returns the span of a row: the driver is alone.
fn span_of(row: &HoursRow) -> Span
    ensures { result ≡ hours_span row.now }
{
    Span {
        start: row.start,
        past: row.past,
        mark: Mark {
            activity: row.activity,
            crew: false,
        },
    }
}

/// Appends what a row gives: nothing, if it is withdrawn.
fn append(given: &mut Vec<Span>, row: &HoursRow) -> Result<(), TableFault>
    ensures { OnOk result (given.new.items ≡ given.old.items ++ kept_hours row.now) }
{
    if !row.withdrawn {
        given.push(span_of(row))?;
    }
    Ok(())
}

/// Appends what the rows that aren't withdrawn give.
pub fn enter(given: &mut Vec<Span>, rows: &[HoursRow]) -> Result<(), TableFault>
    ensures { OnOk result (given.new.items ≡ given.old.items ++ entered_hours rows.now) }
{
    for row in rows {
        append(given, row)?;
    }
    Ok(())
}
