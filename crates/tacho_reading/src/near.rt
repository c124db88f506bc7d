//! The rows of a driver near a range: those that have a minute in it; they aren't cut to it. No two rows share a minute, so at most one of
//! them begins before the range. The others are found by their starts.

ghost use Rattle.std.specs.Prelude.{◌≡◌, MatchResult};
ghost use Rattle.tacho_tables.specs.Calls.{Finds};
ghost use Rattle.tacho_tables.specs.Spans.{spans_in};
ghost use Rattle.tacho_reading.specs.Standing.{IsReadNear};
ghost use Rattle.tacho_reading.specs.Apart.{AreRowsApart, IsLineNear, driver_rows, near_from};
ghost use Rattle.tacho_reading.specs.Calls.{Tells};
ghost use Rattle.tacho_reading.specs.Kept.{HasGivenUp};

use crate::fault::store_fault;
use crate::spans::line_of_stored;
use sqlite::{Alter, Transaction};
use std::alloc::Global;
use tacho_line::Line;
use tacho_state::StoreFault;
use tacho_tables::{SpanTable, StoredSpan, TableFault, spans};

/// Returns where the first row near a range begins, from the latest row that begins before the range.
pub fn first_start(before: Option<StoredSpan>, start: u32, past: u32) -> u32
    ensures { result ≡ near_from start past before }
{
    match before {
        Some(span) if span.start < past && start < span.past => span.start,
        _ => start,
    }
}

/// Reads a driver's rows near a range: what their downloads give there, or what they hold there.
pub fn rows_near<S: Alter>(
    alloc: Global,
    tx: &mut Transaction<'_, S>,
    table: SpanTable,
    driver: u32,
    start: u32,
    past: u32,
) -> Result<Vec<StoredSpan>, TableFault>
    ensures { Finds S.Store tx.old.conn tx.new.conn result (λ t found. AreRowsApart (driver_rows driver (spans_in table t))
        → IsReadNear (spans_in table t) driver start past found.items) }
{
    let before = spans::last_before(tx, table, driver, start)?;
    spans::begun(
        alloc,
        tx,
        table,
        driver,
        first_start(before, start, past),
        past,
    )
}

/// Reads the line of a driver's rows near a range. A row that no archive writes, or two rows that contradict, are a store failure.
pub fn line_near<S: Alter>(
    alloc: Global,
    tx: &mut Transaction<'_, S>,
    table: SpanTable,
    driver: u32,
    start: u32,
    past: u32,
) -> Result<Line, StoreFault>
    ensures { Tells S.Store tx.old.conn tx.new.conn result
        (λ db s. MatchResult result (IsLineNear db s table driver start past) HasGivenUp) }
{
    let rows = rows_near(alloc, tx, table, driver, start, past).map_err(store_fault)?;
    line_of_stored(alloc, &rows)
}
