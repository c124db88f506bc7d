//! A pass over stretches that is fed what a driver holds, one row at a time. The rows that have a minute in a range are kept as well.

ghost use Rattle.std.specs.Prelude.{◌≡◌, ◌++◌, ◌∷◌, [], false, filter, OnOk, IfErr};
ghost use Rattle.sqlite.specs.State.{HasCleanDisk};
ghost use Rattle.sqlite.specs.Held.{state};
ghost use Rattle.tacho_tables.specs.Tables.{Tables, HasTables, IsArchive};
ghost use Rattle.tacho_reading.specs.Kept.{HasGivenUp};
ghost use Rattle.tacho_reading.specs.Standing.{stored_span};
ghost use Rattle.tacho_reading.specs.Taken.{ReadsRows, ReadsSettled};
ghost use Rattle.tacho_stretches.specs.Pass.{passing};
ghost use Rattle.tacho_reading.specs.Stretching.{HasTakenOn, HasTakenRows, HasTakenHeld, is_stored_near};

use crate::fault::store_fault;
use crate::spans::span_of;
use sqlite::{Alter, Connection, Rows};
use std::alloc::AllocError;
use tacho_state::StoreFault;
use tacho_stretches::{FoundStretches, StretchPass};
use tacho_tables::{StoredSpan, held, next_span};
use tacho_time::Minute;

/// Feeds the pass the span of one row. A row that no archive writes, or that begins before the last one ended, is a store failure.
fn take(
    row: &StoredSpan,
    pass: &mut StretchPass,
    found: &mut FoundStretches,
) -> Result<(), StoreFault>
    ensures took { OnOk result (HasTakenOn (passing pass.old found.old) (passing pass.new found.new) (stored_span row.now ∷ [])) }
    ensures refused { IfErr result HasGivenUp }
{
    let Some(span) = span_of(row) else {
        return Err(StoreFault::Store);
    };
    if !pass.can_take(&span) {
        return Err(StoreFault::Store);
    }
    pass.feed(span, found)?;
    Ok(())
}

/// Keeps a row if it has a minute in a range.
fn keep(
    row: &StoredSpan,
    start: Minute,
    past: Minute,
    near: &mut Vec<StoredSpan>,
) -> Result<(), AllocError>
    ensures { OnOk result (near.new.items ≡ near.old.items ++ filter (is_stored_near start past) (row.now ∷ [])) }
{
    if row.start < past.number() && start.number() < row.past {
        near.push(*row)?;
    }
    Ok(())
}

/// Feeds the pass the spans of the remaining rows of a query on start, past and mark, and keeps the rows that have a minute in a range.
fn take_rows<S: Alter>(
    rows: &mut Rows<'_, S>,
    start: Minute,
    past: Minute,
    pass: &mut StretchPass,
    found: &mut FoundStretches,
    near: &mut Vec<StoredSpan>,
) -> Result<(), StoreFault>
    ensures reads { ReadsRows S.Store result rows.old.conn rows.new.conn }
    ensures refused { IfErr result HasGivenUp }
    ensures took { HasCleanDisk (state S.Store rows.new.conn.now)
        → OnOk result (HasTakenRows S.Store rows.old.conn.now rows.new.conn.now start past (passing pass.old found.old) (passing pass.new found.new) near.old.items near.new.items) }
{
    'rows: for _ in 0..u64::MAX {
        let next = next_span(rows).map_err(store_fault)?;
        let Some(row) = next else {
            return Ok(());
        };
        take(&row, pass, found)?;
        keep(&row, start, past, near)?;
    }
    Err(StoreFault::Store)
}

/// Feeds the pass what a driver holds, from the rows that begin at `first` or later, and keeps the rows that have a minute in the range.
/// Each row is read once.
pub fn take_held<S: Alter>(
    conn: &mut Connection<S>,
    driver: u32,
    first: u32,
    start: Minute,
    past: Minute,
    pass: &mut StretchPass,
    found: &mut FoundStretches,
    near: &mut Vec<StoredSpan>,
) -> Result<(), StoreFault>
    requires settled { conn.old.in_transaction ≡ false }
    ensures reads { ReadsSettled S.Store result conn.old conn.new }
    ensures refused { IfErr result HasGivenUp }
    ensures took { HasCleanDisk (state S.Store conn.new) → IsArchive (state S.Store conn.old).now
        → (t : Tables) → HasTables (state S.Store conn.old).now.trees t
        → OnOk result (HasTakenHeld driver first start past t.held (passing pass.old found.old) (passing pass.new found.new) near.old.items near.new.items) }
{
    // For the proof alone: nothing is pending, so what is seen is what was committed.
    let _settled = conn.is_autocommit();
    let mut rows = match held::onward(conn, driver, first) {
        Ok(rows) => rows,
        Err(_) => return Err(StoreFault::Store),
    };
    take_rows(&mut rows, start, past, pass, found, near)
}
