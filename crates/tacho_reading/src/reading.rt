ghost use Rattle.std.specs.Prelude.{◌≡◌, ◌≤◌, false, Err, IfOk, MatchOption, Ok, map, string_bytes};
ghost use Rattle.sqlite.specs.State.{HasCleanDisk};
ghost use Rattle.sqlite.specs.Held.{state};
ghost use Rattle.tacho_line.specs.Line.{mark_at};
ghost use Rattle.tacho_law.specs.Limits.{latest};
ghost use Rattle.tacho_law.specs.Line.{IsBase};
ghost use Rattle.tacho_state.specs.State.{State};
ghost use Rattle.tacho_state.specs.Steps.{owner, name_reading, key_reading, line_reading, entries_reading, file_reading, report_reading};
ghost use Rattle.tacho_state.specs.Reported.{AreStretchesOf, IsHeldWithin, IsHeldFromBase, IsDriverReport};
ghost use Rattle.tacho_stretches.specs.Stretches.{judged_of};
ghost use Rattle.tacho_state.specs.Summaries.{AreSummaries, driver_reading, told_summary};
ghost use Rattle.tacho_state.specs.Acts.{Answers};
ghost use Rattle.tacho_reading.specs.Calls.{Tells};
ghost use Rattle.tacho_reading.specs.Kept.{SeesWhileOpen, ReadsOn};
ghost use Rattle.tacho_reading.specs.Begun.{IsBegun};

use crate::fault::store_fault;
use crate::feeding::feed_held;
use crate::finding::{driver_with, known, number_with_key};
use crate::near::{first_start, line_near};
use crate::read_within;
use crate::spans::{line_of_stored, listed_entries, summaries_of, summary_of};
use crate::stretching::take_held;
use sqlite::{Alter, Connection, Transaction};
use std::alloc::Global;
use tacho_line::Line;
use tacho_pass::Found;
use tacho_rules::limits::LATEST;
use tacho_rules::{Report, Scan};
use tacho_state::{DriverSummary, Entry, StoreFault, base_of};
use tacho_stretches::{FoundStretches, Stretch, StretchPass};
use tacho_tables::{SpanTable, StoredFile, downloads, drivers, entries, held, spans};
use tacho_time::{GREATEST_MINUTE, Minute};

/// Reads the number of the driver with this key, within a transaction.
fn who_in<S: Alter>(tx: &mut Transaction<'_, S>, key: &[u8]) -> Result<Option<u32>, StoreFault>
    ensures { Tells S.Store tx.old.conn tx.new.conn result
        (λ _ s. Answers (λ found. found) result (owner key.now s)) }
{
    number_with_key(tx, key)
}

/// Reads the number of the driver with this key, if there is one.
pub fn who<S: Alter>(conn: &mut Connection<S>, key: &[u8]) -> Result<Option<u32>, StoreFault>
    requires { conn.old.in_transaction ≡ false }
    ensures autocommit { conn.new.in_transaction ≡ false }
    ensures reads { ReadsOn S.Store (λ found. found) conn.old conn.new result (owner key.now) }
{
    read_within!(conn, tx, who_in(&mut tx, key))
}

/// Reads all drivers, within a transaction.
fn drivers_in<S: Alter>(
    alloc: Global,
    tx: &mut Transaction<'_, S>,
) -> Result<Vec<DriverSummary>, StoreFault>
    ensures { Tells S.Store tx.old.conn tx.new.conn result
        (λ _ s. Answers {B = Unit {0}} (λ _. tt) result (Ok tt) × IfOk result (λ found. AreSummaries s (map told_summary found.items))) }
{
    let rows = drivers::all(alloc, tx).map_err(store_fault)?;
    summaries_of(alloc, rows)
}

/// Reads all drivers, the lowest number first.
pub fn drivers<S: Alter>(
    alloc: Global,
    conn: &mut Connection<S>,
) -> Result<Vec<DriverSummary>, StoreFault>
    requires { conn.old.in_transaction ≡ false }
    ensures autocommit { conn.new.in_transaction ≡ false }
    ensures reads { ReadsOn S.Store {B = Unit {0}} (λ _. tt) conn.old conn.new result (λ _. Ok tt) }
    ensures drivers { HasCleanDisk (state S.Store conn.new) → (s : State) → SeesWhileOpen (state S.Store conn.old) s
        → IfOk result (λ found. AreSummaries s (map told_summary found.items)) }
{
    read_within!(conn, tx, drivers_in(alloc, &mut tx))
}

/// Reads what is listed of a driver, within a transaction: S4. A row without a base day, which no archive writes, is a store failure.
fn driver_in<S: Alter>(
    tx: &mut Transaction<'_, S>,
    driver: u32,
) -> Result<DriverSummary, StoreFault>
    ensures { Tells S.Store tx.old.conn tx.new.conn result
        (λ _ s. Answers (λ found. told_summary found) result (driver_reading driver s)) }
{
    let stored = driver_with(tx, driver)?;
    summary_of(stored).ok_or(StoreFault::Store)
}

/// Reads what is listed of a driver: S4.
pub fn driver<S: Alter>(conn: &mut Connection<S>, driver: u32) -> Result<DriverSummary, StoreFault>
    requires { conn.old.in_transaction ≡ false }
    ensures autocommit { conn.new.in_transaction ≡ false }
    ensures reads { ReadsOn S.Store (λ found. told_summary found) conn.old conn.new result (driver_reading driver) }
{
    read_within!(conn, tx, driver_in(&mut tx, driver))
}

/// Reads a driver's key, within a transaction: S4.
fn key_in<S: Alter>(tx: &mut Transaction<'_, S>, driver: u32) -> Result<String, StoreFault>
    ensures { Tells S.Store tx.old.conn tx.new.conn result
        (λ _ s. Answers (λ key. string_bytes key) result (key_reading driver s)) }
{
    let found = drivers::secret_of(tx, driver).map_err(store_fault)?;
    known(found)
}

/// Reads a driver's key: S4.
pub fn key<S: Alter>(conn: &mut Connection<S>, driver: u32) -> Result<String, StoreFault>
    requires { conn.old.in_transaction ≡ false }
    ensures autocommit { conn.new.in_transaction ≡ false }
    ensures reads { ReadsOn S.Store (λ key. string_bytes key) conn.old conn.new result (key_reading driver) }
{
    read_within!(conn, tx, key_in(&mut tx, driver))
}

/// Reads a driver's name, within a transaction: S4.
fn name_in<S: Alter>(tx: &mut Transaction<'_, S>, driver: u32) -> Result<String, StoreFault>
    ensures { Tells S.Store tx.old.conn tx.new.conn result
        (λ _ s. Answers (λ name. string_bytes name) result (name_reading driver s)) }
{
    let stored = driver_with(tx, driver)?;
    Ok(stored.name)
}

/// Reads a driver's name: S4.
pub fn name<S: Alter>(conn: &mut Connection<S>, driver: u32) -> Result<String, StoreFault>
    requires { conn.old.in_transaction ≡ false }
    ensures autocommit { conn.new.in_transaction ≡ false }
    ensures reads { ReadsOn S.Store (λ name. string_bytes name) conn.old conn.new result (name_reading driver) }
{
    read_within!(conn, tx, name_in(&mut tx, driver))
}

/// Returns the bytes of the download that a look-up found: S10 if it found none.
fn known_file(found: Option<StoredFile>) -> Result<Vec<u8>, StoreFault>
    ensures { MatchOption found (result ≡ Err StoreFault.UnknownDownload) (λ stored. result ≡ Ok stored.file) }
{
    let Some(stored) = found else {
        return Err(StoreFault::UnknownDownload);
    };
    Ok(stored.file)
}

/// Reads the bytes of a driver's download, within a transaction: S4, S10.
fn download_in<S: Alter>(
    tx: &mut Transaction<'_, S>,
    driver: u32,
    number: u32,
) -> Result<Vec<u8>, StoreFault>
    ensures { Tells S.Store tx.old.conn tx.new.conn result
        (λ _ s. Answers (λ bytes. bytes.items) result (file_reading driver number s)) }
{
    driver_with(tx, driver)?;
    let found = downloads::file(tx, driver, number).map_err(store_fault)?;
    known_file(found)
}

/// Reads the bytes of a driver's download: S4, S10.
pub fn download<S: Alter>(
    conn: &mut Connection<S>,
    driver: u32,
    number: u32,
) -> Result<Vec<u8>, StoreFault>
    requires { conn.old.in_transaction ≡ false }
    ensures autocommit { conn.new.in_transaction ≡ false }
    ensures reads { ReadsOn S.Store (λ bytes. bytes.items) conn.old conn.new result (file_reading driver number) }
{
    read_within!(conn, tx, download_in(&mut tx, driver, number))
}

/// Reads a driver's timeline, within a transaction: S4.
fn line_in<S: Alter>(
    alloc: Global,
    tx: &mut Transaction<'_, S>,
    driver: u32,
) -> Result<Line, StoreFault>
    ensures { Tells S.Store tx.old.conn tx.new.conn result
        (λ _ s. Answers (λ line. mark_at line) result (line_reading driver s)) }
{
    driver_with(tx, driver)?;
    let rows = held::of_driver(alloc, tx, driver).map_err(store_fault)?;
    line_of_stored(alloc, &rows)
}

/// Reads a driver's timeline: S4.
pub fn line<S: Alter>(
    alloc: Global,
    conn: &mut Connection<S>,
    driver: u32,
) -> Result<Line, StoreFault>
    requires { conn.old.in_transaction ≡ false }
    ensures autocommit { conn.new.in_transaction ≡ false }
    ensures reads { ReadsOn S.Store (λ line. mark_at line) conn.old conn.new result (line_reading driver) }
{
    read_within!(conn, tx, line_in(alloc, &mut tx, driver))
}

/// Reads what a driver holds in a range, within a transaction: S4. Reads only the rows near the range.
fn line_within_in<S: Alter>(
    alloc: Global,
    tx: &mut Transaction<'_, S>,
    driver: u32,
    start: Minute,
    past: Minute,
) -> Result<Line, StoreFault>
    ensures { Tells S.Store tx.old.conn tx.new.conn result
        (λ _ s. Answers (λ _. tt) result (report_reading driver s) × IfOk result (IsHeldWithin driver start past s)) }
{
    driver_with(tx, driver)?;
    line_near(
        alloc,
        tx,
        SpanTable::Held,
        driver,
        start.number(),
        past.number(),
    )
}

/// Reads what a driver holds in a range: S4.
pub fn line_within<S: Alter>(
    alloc: Global,
    conn: &mut Connection<S>,
    driver: u32,
    start: Minute,
    past: Minute,
) -> Result<Line, StoreFault>
    requires { conn.old.in_transaction ≡ false }
    ensures autocommit { conn.new.in_transaction ≡ false }
    ensures reads { ReadsOn S.Store (λ _. tt) conn.old conn.new result (report_reading driver) }
    ensures within { HasCleanDisk (state S.Store conn.new) → (s : State) → SeesWhileOpen (state S.Store conn.old) s
        → IfOk result (IsHeldWithin driver start past s) }
{
    read_within!(
        conn,
        tx,
        line_within_in(alloc, &mut tx, driver, start, past)
    )
}

/// Reads a driver's entries, within a transaction: S4.
fn entries_in<S: Alter>(
    alloc: Global,
    tx: &mut Transaction<'_, S>,
    driver: u32,
) -> Result<Vec<Entry>, StoreFault>
    ensures { Tells S.Store tx.old.conn tx.new.conn result
        (λ _ s. Answers (λ entries. entries.items) result (entries_reading driver s)) }
{
    driver_with(tx, driver)?;
    let rows = entries::of_driver(alloc, tx, driver).map_err(store_fault)?;
    listed_entries(alloc, rows)
}

/// Reads a driver's entries, ordered by number: S4.
pub fn entries<S: Alter>(
    alloc: Global,
    conn: &mut Connection<S>,
    driver: u32,
) -> Result<Vec<Entry>, StoreFault>
    requires { conn.old.in_transaction ≡ false }
    ensures autocommit { conn.new.in_transaction ≡ false }
    ensures reads { ReadsOn S.Store (λ entries. entries.items) conn.old conn.new result (entries_reading driver) }
{
    read_within!(conn, tx, entries_in(alloc, &mut tx, driver))
}

/// Where to begin to read a driver's rows.
#[derive(Clone, Copy)]
pub struct Beginning {
    /// The first minute that is examined.
    pub base: Minute,
    /// The start of the first row to be read, or an earlier minute.
    pub start: u32,
}

/// Finds where the rows begin that end after a driver's base, or after minute `from` if that is earlier, within a transaction: S4. Returns
/// S12 if the base isn't a Monday from 2000-01-03 to the end of 2099: no archive has such a base.
fn begin_in<S: Alter>(
    tx: &mut Transaction<'_, S>,
    driver: u32,
    from: Minute,
) -> Result<Beginning, StoreFault>
    ensures base { IfOk result (λ begin. IsBase begin.base × (begin.base ≤ latest)) }
    ensures begun { Tells S.Store tx.old.conn tx.new.conn result
        (λ db s. Answers (λ _. tt) result (report_reading driver s) × IfOk result (IsBegun db driver from s)) }
{
    let stored = driver_with(tx, driver)?;
    let Some(base) = base_of(stored.base) else {
        return Err(StoreFault::Store);
    };
    let first = base.number().min(from.number());
    let before = spans::last_before(tx, SpanTable::Held, driver, first).map_err(store_fault)?;
    Ok(Beginning {
        base,
        start: first_start(before, first, first + 1),
    })
}

/// Finds where the rows begin that end after a driver's base, or after minute `from` if that is earlier: S4.
fn begin<S: Alter>(
    conn: &mut Connection<S>,
    driver: u32,
    from: Minute,
) -> Result<Beginning, StoreFault>
    requires { conn.old.in_transaction ≡ false }
    ensures autocommit { conn.new.in_transaction ≡ false }
    ensures base { IfOk result (λ begin. IsBase begin.base × (begin.base ≤ latest)) }
    ensures reads { ReadsOn S.Store (λ _. tt) conn.old conn.new result (report_reading driver) }
    ensures begun { HasCleanDisk (state S.Store conn.new) → (s : State) → SeesWhileOpen (state S.Store conn.old) s
        → IfOk result (IsBegun (state S.Store conn.new).now.trees driver from s) }
{
    read_within!(conn, tx, begin_in(&mut tx, driver, from))
}

/// Returns the report of a driver from their base: S4. Reads the driver's rows one at a time, from the base up to the horizon.
pub fn report<S: Alter>(
    alloc: Global,
    conn: &mut Connection<S>,
    driver: u32,
) -> Result<Report, StoreFault>
    requires { conn.old.in_transaction ≡ false }
    ensures autocommit { conn.new.in_transaction ≡ false }
    ensures reads { ReadsOn S.Store (λ _. tt) conn.old conn.new result (report_reading driver) }
    ensures report { HasCleanDisk (state S.Store conn.new) → (s : State) → SeesWhileOpen (state S.Store conn.old) s
        → IfOk result (IsDriverReport driver s) }
{
    let Beginning { base, start } = begin(conn, driver, Minute::new(LATEST))?;
    let mut scan = Scan::new(base);
    let mut found = Found::empty(alloc);
    let horizon = feed_held(conn, driver, start, base, &mut scan, &mut found)?;
    Ok(scan.finish(horizon, found)?)
}

/// Returns the stretches of a driver from their base: S4. Reads the driver's rows one at a time, each once, from the base on.
pub fn stretches<S: Alter>(
    alloc: Global,
    conn: &mut Connection<S>,
    driver: u32,
) -> Result<Vec<Stretch>, StoreFault>
    requires { conn.old.in_transaction ≡ false }
    ensures autocommit { conn.new.in_transaction ≡ false }
    ensures reads { ReadsOn S.Store (λ _. tt) conn.old conn.new result (report_reading driver) }
    ensures stretches { HasCleanDisk (state S.Store conn.new) → (s : State) → SeesWhileOpen (state S.Store conn.old) s
        → IfOk result (λ found. AreStretchesOf driver s (map judged_of found.items)) }
{
    let end = Minute::new(LATEST);
    let (_, found) = line_and_stretches(alloc, conn, driver, end, end)?;
    Ok(found)
}

/// Returns what a driver holds in a range, and the driver's stretches: S4. Reads the driver's rows one at a time, each once, from the base
/// on, or from the range on if that is earlier. Keeps the rows that have a minute in the range.
pub fn line_and_stretches<S: Alter>(
    alloc: Global,
    conn: &mut Connection<S>,
    driver: u32,
    start: Minute,
    past: Minute,
) -> Result<(Line, Vec<Stretch>), StoreFault>
    requires { conn.old.in_transaction ≡ false }
    ensures autocommit { conn.new.in_transaction ≡ false }
    ensures reads { ReadsOn S.Store (λ _. tt) conn.old conn.new result (report_reading driver) }
    ensures within { HasCleanDisk (state S.Store conn.new) → (s : State) → SeesWhileOpen (state S.Store conn.old) s
        → IfOk result (λ found. IsHeldWithin driver start past s found.0) }
    ensures stretches { HasCleanDisk (state S.Store conn.new) → (s : State) → SeesWhileOpen (state S.Store conn.old) s
        → IfOk result (λ found. AreStretchesOf driver s (map judged_of found.1.items)) }
{
    let Beginning { base, start: first } = begin(conn, driver, start)?;
    let mut pass = StretchPass::new(base);
    let mut found = FoundStretches::empty(alloc);
    let mut near = Vec::new(alloc);
    take_held(
        conn, driver, first, start, past, &mut pass, &mut found, &mut near,
    )?;
    let line = line_of_stored(alloc, &near)?;
    Ok((line, pass.finish(found)?))
}

/// Returns what a driver holds from the base on, and the driver's stretches: S4. Reads no row that ends before the base.
pub fn line_and_stretches_from_base<S: Alter>(
    alloc: Global,
    conn: &mut Connection<S>,
    driver: u32,
) -> Result<(Line, Vec<Stretch>), StoreFault>
    requires { conn.old.in_transaction ≡ false }
    ensures autocommit { conn.new.in_transaction ≡ false }
    ensures reads { ReadsOn S.Store (λ _. tt) conn.old conn.new result (report_reading driver) }
    ensures held { HasCleanDisk (state S.Store conn.new) → (s : State) → SeesWhileOpen (state S.Store conn.old) s
        → IfOk result (λ found. IsHeldFromBase driver s found.0) }
    ensures stretches { HasCleanDisk (state S.Store conn.new) → (s : State) → SeesWhileOpen (state S.Store conn.old) s
        → IfOk result (λ found. AreStretchesOf driver s (map judged_of found.1.items)) }
{
    let end = Minute::new(GREATEST_MINUTE);
    let begin = begin(conn, driver, end)?;
    line_and_stretches(alloc, conn, driver, begin.base, end)
}
