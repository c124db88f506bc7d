//! The rows of `held`: the spans that a driver holds.

ghost use Rattle.std.specs.Prelude.{◌≡◌, not, map, filter, IfOk, IsPermutation};
ghost use Rattle.tacho_tables.specs.Calls.{Finds, Changes};
ghost use Rattle.std.specs.Borrow.{sem, RestsIfErr};
ghost use Rattle.sqlite.specs.contracts.connection.Connection.{the_row};
ghost use Rattle.tacho_tables.specs.Next.{IsAsked, BeginsOnward};
ghost use Rattle.tacho_tables.specs.Tables.{is_begun, is_of, span_of};

use crate::fault::TableFault;
use crate::rows::{StoredSpan, all};
use crate::statement::run;
use sqlite::{Alter, Connection, Error, Rows, Transaction, params};
use std::alloc::Global;

/// Reads all spans of a driver.
pub fn of_driver<S: Alter>(
    alloc: Global,
    tx: &mut Transaction<'_, S>,
    driver: u32,
) -> Result<Vec<StoredSpan>, TableFault>
    ensures { Finds S.Store tx.old.conn tx.new.conn result
        (λ a found. IsPermutation (map span_of (filter (is_of driver) a.held)) found.items) }
{
    all(
        alloc,
        tx,
        "SELECT start, past, mark FROM held WHERE driver = ?1 ORDER BY start",
        params![driver],
    )
}

/// Removes the spans of a driver that begin from `start` to before `past`.
pub fn delete_begun<S: Alter>(
    tx: &mut Transaction<'_, S>,
    driver: u32,
    start: u32,
    past: u32,
) -> Result<(), TableFault>
    ensures { Changes S.Store tx.old.conn tx.new.conn result
        (λ a. record a { held = filter (λ r. not (is_begun driver start past r)) a.held }) }
{
    run(
        tx,
        "DELETE FROM held WHERE driver = ?1 AND ?2 <= start AND start < ?3",
        params![driver, start, past],
    )
}

/// Begins to read the spans of a driver that begin at `start` or later, ordered by start, one at a time.
pub fn onward<S: Alter>(
    conn: &mut Connection<S>,
    driver: u32,
    start: u32,
) -> Result<Rows<'_, S>, Error>
    ensures* refused { sem 𝓛 (RestsIfErr (the_row S.row S.Store) conn.entry (λ rows. rows.conn.ghost_name) result
        (IsAsked S.Store conn.old)) }
    ensures same_reference { IfOk result (λ rows. rows.conn.ghost_name ≡ conn.entry.ghost_name) }
    ensures begun { IfOk result (λ rows. BeginsOnward S.Store conn.old rows.conn.now driver start) }
{
    conn.query(
        "SELECT start, past, mark FROM held WHERE driver = ?1 AND ?2 <= start ORDER BY start",
        params![driver, start],
    )
}
