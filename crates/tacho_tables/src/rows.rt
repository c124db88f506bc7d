ghost use Rattle.std.specs.Prelude.{◌≡◌, IfOk};
ghost use Rattle.sqlite.specs.Held.{state};
ghost use Rattle.sqlite.specs.State.{HasCleanDisk, IsUnchanged};
ghost use Rattle.sqlite.specs.Order.{Row as Values};
ghost use Rattle.sqlite.specs.Values.{bound};
ghost use Rattle.tacho_tables.specs.Calls.{ReadsText, IsFirst, AreMade};
ghost use Rattle.tacho_tables.specs.Next.{Tells, GivesNext, IsAsked};

use crate::fault::TableFault;
use crate::statement::read;
use sqlite::{Alter, Row, Rows, Transaction};
use sqlite_value::value::ValueRef;
use std::alloc::Global;

/// Minutes from `start` to before `past`, and the number of the driver's mark in them.
#[derive(Clone, Copy, Debug, PartialEq, Eq)]
pub struct StoredSpan {
    pub start: u32,
    pub past: u32,
    pub mark: u32,
}

/// A card file, and the part that was read from it: 0 both generations, 1 the first, 2 the second.
#[derive(Debug, Drop)]
pub struct StoredFile {
    pub part: u32,
    pub file: Vec<u8>,
}

/// Hours entered by hand: their number among the driver's entries, their minutes from `start` to before `past`, the number of the mark, 1
/// if they are withdrawn (else 0), their author and their note.
#[derive(Debug, Drop)]
pub struct StoredEntry {
    pub number: u32,
    pub start: u32,
    pub past: u32,
    pub mark: u32,
    pub withdrawn: u32,
    pub author: String,
    pub note: String,
}

/// What is stored of a driver, except for the key.
#[derive(Debug, Drop)]
pub struct StoredDriver {
    pub number: u32,
    /// The first 15 bytes of the card's identification.
    pub holder: Vec<u8>,
    /// The number of the day from which the driver is examined.
    pub base: u32,
    pub name: String,
    /// How many numbers were given out to the driver's downloads.
    pub downloads: u32,
    /// How many numbers were given out to the driver's entries.
    pub entries: u32,
}

/// A value that is made of a row that a reading shows.
pub(crate) trait FromRow: Sized {
    /// What the row shows.
    ghost Shown: { Type 0 };

    /// The row's columns.
    ghost columns: { Shown → Values };

    /// What the value and what the row shows have in common.
    ghost Told: { Type 0 };

    ghost told: { Self → Told };

    ghost meant: { Shown → Told };

    /// Returns the value of a row.
    fn from_row(row: &Row) -> Result<Self, TableFault>
        ensures { IfOk result (λ it. (x : Shown) → row.now ≡ columns x → told it ≡ meant x) };
}

/// Returns the span of a row whose first columns are start, past and mark.
fn told_span(row: &Row) -> Result<StoredSpan, TableFault>
    ensures { IfOk result (λ s. Tells row.now s) }
{
    Ok(StoredSpan {
        start: row.get(0)?,
        past: row.get(1)?,
        mark: row.get(2)?,
    })
}

/// Moves to the next row of a query on start, past and mark, and returns its span, if there is one.
pub fn next_span<S: Alter>(rows: &mut Rows<'_, S>) -> Result<Option<StoredSpan>, TableFault>
    ensures same_reference { rows.new.conn.ghost_name ≡ rows.old.conn.ghost_name }
    ensures asked { IsAsked S.Store rows.old.conn.now rows.new.conn.now }
    ensures gives { HasCleanDisk (state S.Store rows.new.conn.now)
        → IfOk result (λ next. GivesNext S.Store rows.old.conn.now rows.new.conn.now next
        × IsUnchanged (state S.Store rows.old.conn.now) (state S.Store rows.new.conn.now)) }
{
    rows.advance()?;
    let Some(row) = rows.get() else {
        return Ok(None);
    };
    let span = told_span(row)?;
    Ok(Some(span))
}

/// Runs a reading, and returns the value of its first row, if there is one.
pub(crate) fn first<S: Alter, T: FromRow + Drop>(
    tx: &mut Transaction<'_, S>,
    sql: &str,
    values: &[ValueRef<'_>],
) -> Result<Option<T>, TableFault>
    ensures { ReadsText S.Store tx.old.conn tx.new.conn result sql.now (bound values.now) (IsFirst T.columns T.told T.meant) }
{
    let rows = read(tx, sql, values)?;
    let Some(row) = rows.first() else {
        return Ok(None);
    };
    Ok(Some(T::from_row(row)?))
}

/// Runs a reading, and returns the values of its rows.
pub(crate) fn all<S: Alter, T: FromRow + Drop>(
    alloc: Global,
    tx: &mut Transaction<'_, S>,
    sql: &str,
    values: &[ValueRef<'_>],
) -> Result<Vec<T>, TableFault>
    ensures { ReadsText S.Store tx.old.conn tx.new.conn result sql.now (bound values.now)
        (λ rows found. AreMade T.columns T.told T.meant rows found.items) }
{
    let rows = read(tx, sql, values)?;
    made(alloc, &rows)
}

/// Returns the values of rows.
fn made<T: FromRow + Drop>(alloc: Global, rows: &[Row]) -> Result<Vec<T>, TableFault>
    ensures { IfOk result (λ found. AreMade T.columns T.told T.meant rows.now found.items) }
{
    let mut found = Vec::new(alloc);
    for row in rows {
        found.push(T::from_row(row)?)?;
    }
    Ok(found)
}

impl FromRow for StoredSpan {
    ghost use Rattle.tacho_tables.specs.Rows.{SpanRow};
    ghost use Rattle.tacho_tables.specs.declared.rows.StoredSpan.{StoredSpan as Span};
    ghost use Rattle.tacho_tables.specs.Tables.{span_of, span_shown};

    ghost Shown = { SpanRow };

    ghost columns = { span_shown };

    ghost Told = { Span };

    ghost told = { λ s. s };

    ghost meant = { span_of };

    fn from_row(row: &Row) -> Result<StoredSpan, TableFault> {
        told_span(row)
    }
}

impl FromRow for StoredFile {
    ghost use Rattle.std.specs.Prelude.{ℕ, List};
    ghost use Rattle.tacho_tables.specs.Rows.{DownloadRow};
    ghost use Rattle.tacho_tables.specs.Tables.{file_shown};

    ghost Shown = { DownloadRow };

    ghost columns = { file_shown };

    ghost Told = { ℕ × List ℕ };

    ghost told = { λ it. (it.part, it.file.items) };

    ghost meant = { λ r. (r.part, r.file) };

    fn from_row(row: &Row) -> Result<StoredFile, TableFault> {
        Ok(StoredFile {
            part: row.get(0)?,
            file: row.get(1)?,
        })
    }
}

/// A number alone.
impl FromRow for u32 {
    ghost use Rattle.std.specs.Prelude.{ℕ, pos, [], ◌∷◌};
    ghost use Rattle.sqlite.specs.declared.types.Value.TheVariants.{Int};

    ghost Shown = { ℕ };

    ghost columns = { λ n. Int (pos n) ∷ [] };

    ghost Told = { ℕ };

    ghost told = { λ n. n };

    ghost meant = { λ n. n };

    fn from_row(row: &Row) -> Result<u32, TableFault> {
        Ok(row.get(0)?)
    }
}

/// A text alone.
impl FromRow for String {
    ghost use Rattle.std.specs.Prelude.{ℕ, List, [], ◌∷◌, string_bytes};
    ghost use Rattle.sqlite.specs.declared.types.Value.TheVariants.{Text};

    ghost Shown = { List ℕ };

    ghost columns = { λ t. Text t ∷ [] };

    ghost Told = { List ℕ };

    ghost told = { λ text. string_bytes text };

    ghost meant = { λ t. t };

    fn from_row(row: &Row) -> Result<String, TableFault> {
        Ok(row.get(0)?)
    }
}

impl FromRow for StoredDriver {
    ghost use Rattle.tacho_tables.specs.Rows.{DriverRow};
    ghost use Rattle.tacho_tables.specs.Tables.{ListedDriver, driver_shown, listed_driver, told_driver};

    ghost Shown = { DriverRow };

    ghost columns = { driver_shown };

    ghost Told = { ListedDriver };

    ghost told = { told_driver };

    ghost meant = { listed_driver };

    fn from_row(row: &Row) -> Result<StoredDriver, TableFault> {
        Ok(StoredDriver {
            number: row.get(0)?,
            holder: row.get(1)?,
            base: row.get(2)?,
            name: row.get(3)?,
            downloads: row.get(4)?,
            entries: row.get(5)?,
        })
    }
}

impl FromRow for StoredEntry {
    ghost use Rattle.tacho_tables.specs.Rows.{EntryRow};
    ghost use Rattle.tacho_tables.specs.Tables.{ListedEntry, entry_shown, listed_entry, told_entry};

    ghost Shown = { EntryRow };

    ghost columns = { entry_shown };

    ghost Told = { ListedEntry };

    ghost told = { told_entry };

    ghost meant = { listed_entry };

    fn from_row(row: &Row) -> Result<StoredEntry, TableFault> {
        Ok(StoredEntry {
            number: row.get(0)?,
            start: row.get(1)?,
            past: row.get(2)?,
            mark: row.get(3)?,
            withdrawn: row.get(4)?,
            author: row.get(5)?,
            note: row.get(6)?,
        })
    }
}
