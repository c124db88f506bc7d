//! A scan that is fed what a driver holds, one row at a time.

ghost use Rattle.std.specs.Prelude.{◌≡◌, ◌≤◌, false, IfOk, IfErr};
ghost use Rattle.sqlite.specs.State.{HasCleanDisk};
ghost use Rattle.sqlite.specs.Held.{state};
ghost use Rattle.tacho_law.specs.Limits.{latest};
ghost use Rattle.tacho_rules.specs.Scan.{IsAt};
ghost use Rattle.tacho_tables.specs.Tables.{Tables, HasTables, IsArchive};
ghost use Rattle.tacho_reading.specs.Taken.{cut, IsStepOf, IsRefusalOf, HasFed, AreFed, EndsAt, ReadsRows, ReadsSettled};

use crate::fault::store_fault;
use crate::spans::span_of;
use sqlite::{Alter, Connection, Rows};
use tacho_line::{Cause, Horizon};
use tacho_pass::Found;
use tacho_rules::Scan;
use tacho_rules::limits::LATEST;
use tacho_state::StoreFault;
use tacho_tables::{StoredSpan, held, next_span};
use tacho_time::{Minute, Span};

/// The effect of one row on a scan.
#[derive(Clone, Copy)]
pub enum Step {
    /// The row was taken; the scan is now at this minute.
    On(Minute),
    /// The row stops the scan at the minute where it was.
    Stop(Cause),
}

/// Returns a span without its minutes before the base.
fn cut(span: Span, base: Minute) -> Span
    ensures { result ≡ cut base span }
{
    if span.start.number() < base.number() {
        return Span {
            start: base,
            past: span.past,
            mark: span.mark,
        };
    }
    span
}

/// Feeds a scan, which is at `minute`, the span of one row, cut at the base. A row that no archive writes, or that begins before `minute`,
/// is a store failure, and then nothing has changed.
fn take(
    row: &StoredSpan,
    base: Minute,
    minute: Minute,
    scan: &mut Scan,
    found: &mut Found,
) -> Result<Step, StoreFault>
    requires at { IsAt scan.old minute }
    requires from_base { base ≤ minute }
    requires in_range { minute ≤ latest }
    ensures step { IfOk result (IsStepOf base minute row.now scan.old found.old scan.new found.new) }
    ensures refused { IfErr result (IsRefusalOf base minute row.now scan.old found.old scan.new found.new) }
{
    let Some(span) = span_of(row) else {
        return Err(StoreFault::Store);
    };
    if row.past <= row.start || row.past > LATEST {
        return Err(StoreFault::Store);
    }
    let Span { start, past, mark } = cut(span, base);
    if start.number() < minute.number() {
        return Err(StoreFault::Store);
    }
    if row.past <= base.number() {
        return Ok(Step::On(minute));
    }
    if start.number() > minute.number() {
        return Ok(Step::Stop(Cause::Unknown));
    }
    if mark.crew {
        return Ok(Step::Stop(Cause::Crew));
    }
    scan.feed(Span { start, past, mark }, found)?;
    Ok(Step::On(past))
}

/// Feeds a scan, which is at the base, the spans of the next rows of a query on start, past and mark, cut at the base, up to the horizon:
/// where the rows end, or where the next row begins after a gap or is crew. After a fault, the scan has failed (out of memory), or it is at
/// the end of the rows that it took.
pub fn feed_rows<S: Alter>(
    rows: &mut Rows<'_, S>,
    base: Minute,
    scan: &mut Scan,
    found: &mut Found,
) -> Result<Horizon, StoreFault>
    requires at { IsAt scan.old base }
    requires in_range { base ≤ latest }
    ensures reads { ReadsRows S.Store result rows.old.conn rows.new.conn }
    ensures ends { EndsAt base scan.old found.old scan.new found.new result }
    ensures fed { HasCleanDisk (state S.Store rows.new.conn.now)
        → IfOk result (HasFed S.Store rows.old.conn.now rows.new.conn.now base scan.old found.old scan.new found.new) }
{
    let mut minute = base;
    'rows: for _ in 0..u64::MAX {
        let next = next_span(rows).map_err(store_fault)?;
        let Some(row) = next else {
            return Ok(Horizon {
                minute,
                cause: Cause::Unknown,
            });
        };
        match take(&row, base, minute, scan, found)? {
            Step::On(past) => minute = past,
            Step::Stop(cause) => return Ok(Horizon { minute, cause }),
        }
    }
    Err(StoreFault::Store)
}

/// Feeds a scan, which is at the base, what a driver holds from there up to the horizon. It reads the driver's rows that begin at `start`
/// or later, and at most one row more than it takes. After a fault, the scan has failed (out of memory), or it is at the end of the rows
/// that it took.
pub fn feed_held<S: Alter>(
    conn: &mut Connection<S>,
    driver: u32,
    start: u32,
    base: Minute,
    scan: &mut Scan,
    found: &mut Found,
) -> Result<Horizon, StoreFault>
    requires settled { conn.old.in_transaction ≡ false }
    requires at { IsAt scan.old base }
    requires in_range { base ≤ latest }
    ensures reads { ReadsSettled S.Store result conn.old conn.new }
    ensures ends { EndsAt base scan.old found.old scan.new found.new result }
    ensures fed { HasCleanDisk (state S.Store conn.new) → IsArchive (state S.Store conn.old).now
        → (t : Tables) → HasTables (state S.Store conn.old).now.trees t
        → IfOk result (AreFed driver start base t.held scan.old found.old scan.new found.new) }
{
    // For the proof alone: nothing is pending, so what is seen is what was committed.
    let _settled = conn.is_autocommit();
    let mut rows = match held::onward(conn, driver, start) {
        Ok(rows) => rows,
        Err(_) => return Err(StoreFault::Store),
    };
    feed_rows(&mut rows, base, scan, found)
}
