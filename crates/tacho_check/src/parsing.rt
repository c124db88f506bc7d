//! Rows that were read, as typed rows.

ghost use Rattle.std.specs.Prelude.{◌≡◌, ◌↔◌, ℕ, map, IfOk, IsPermutation, IsTrue, Option as Maybe};
ghost use Rattle.sqlite.specs.Order.{Row as Values};
ghost use Rattle.tacho_check.specs.Parsed.{AreParsed, AreNumbered, IsCounted, IsParsed, NeverFall};
ghost use Rattle.tacho_check.specs.Typed.{IsSpan, ShowsSpan};

use crate::cells::{minute_at, number_at};
use sqlite::Row;
use std::alloc::Global;
use tacho_state::mark_of;
use tacho_tables::TableFault;
use tacho_time::Span;

/// A typed row of a table.
pub trait FromRow: Sized {
    /// The typed row that a row shows; none if no state within its limits has one that is shown so.
    ghost is_of: { Values → Maybe Self → Type 0 };

    /// Returns the typed row that a row shows.
    fn from_row(alloc: Global, row: &Row) -> Result<Option<Self>, TableFault>
        ensures { IfOk result (is_of row.now) };
}

/// A typed row with a number among those of its driver.
pub trait Numbered: FromRow {
    /// The number.
    ghost number_of: { Self → ℕ };

    /// Returns the number.
    fn number(&self) -> u64
        ensures { result ≡ number_of self.now };
}

/// Returns the typed rows that rows show, in the same order; none if one of the rows shows none.
pub fn parsed<T: FromRow + Drop>(alloc: Global, rows: &[Row]) -> Result<Option<Vec<T>>, TableFault>
    ensures { IfOk result (AreParsed T.is_of rows.now) }
{
    let mut found = Vec::new(alloc);
    for row in rows {
        let next = T::from_row(alloc, row)?;
        match next {
            None => return Ok(None),
            Some(one) => found.push(one)?,
        }
    }
    Ok(Some(found))
}

/// Sorts typed rows by their numbers.
fn in_order<T: Numbered>(rows: Vec<T>) -> Vec<T>
    ensures same { IsPermutation rows.items result.items }
    ensures sorted { NeverFall 0 (map T.number_of result.items) }
{
    let mut sorted = rows;
    sorted.sort_unstable_by_key(
        |row: &T| -> u64
            ensures { result ≡ T.number_of row.now }
        { row.number() },
    );
    sorted
}

/// Returns true if there are as many rows as are counted, numbered from 1 on.
fn are_counted<T: Numbered>(rows: &[T], count: u64) -> bool
    ensures { IsTrue result ↔ IsCounted count (map T.number_of rows.now) }
{
    let mut number = 0u64;
    for row in rows {
        number += 1;
        if row.number() != number {
            return false;
        }
    }
    rows.len() as u64 == count
}

/// Returns the typed rows that rows show, in the order of their numbers; none if a row shows none, or if they aren't as many as are
/// counted, numbered from 1 on.
pub fn counted<T: Numbered + Drop>(
    alloc: Global,
    rows: &[Row],
    count: u64,
) -> Result<Option<Vec<T>>, TableFault>
    ensures { IfOk result (AreNumbered T.is_of T.number_of count rows.now) }
{
    let found = parsed(alloc, rows)?;
    let Some(unordered) = found else {
        return Ok(None);
    };
    let ordered = in_order(unordered);
    if !are_counted(&ordered, count) {
        return Ok(None);
    }
    Ok(Some(ordered))
}

impl FromRow for Span {
    ghost is_of = { IsParsed ShowsSpan IsSpan };

    fn from_row(_alloc: Global, row: &Row) -> Result<Option<Span>, TableFault> {
        Ok(span_of(row))
    }
}

/// Returns the span of a row of start, past and mark; none if the row shows no span of the calendar.
fn span_of(row: &Row) -> Option<Span>
    ensures { IsParsed ShowsSpan IsSpan row.now result }
{
    let start = minute_at(row, 0)?;
    let past = minute_at(row, 1)?;
    let number = number_at(row, 2)?;
    let mark = mark_of(number)?;
    Some(Span { start, past, mark })
}
