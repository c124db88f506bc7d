//! Whether the tables of an archive represent a state within its limits.

ghost use Rattle.std.specs.Prelude.{◌≡◌, false, Err, IfOk, IfErr, OnOk};
ghost use Rattle.sqlite.specs.Held.{state};
ghost use Rattle.sqlite.specs.State.{HasCleanDisk};
ghost use Rattle.sqlite.specs.Tree.{Trees};
ghost use Rattle.sqlite_trees.specs.View.{IsClean};
ghost use Rattle.tacho_state.specs.declared.fault.StoreFault.TheVariants.{Store};
ghost use Rattle.tacho_tables.specs.Schema.{IsArchiveSchema};
ghost use Rattle.tacho_tables.specs.Tables.{IsArchive};
ghost use Rattle.tacho_tables.specs.Ask.{LearnsIfReadable};
ghost use Rattle.tacho_tables.specs.Readable.{AreAllNumbered, IsReadable};
ghost use Rattle.tacho_reading.specs.Kept.{HasGivenUp};
ghost use Rattle.tacho_check.specs.Checked.{IsChecked, Checks};

use crate::current::ask_current;
use crate::judgement::judge_driver;
use crate::numbers::driver_numbers;
use crate::table::Unsound;
use sqlite::{Alter, Connection, Transaction};
use sqlite_trees::store::Store;
use std::alloc::Global;
use tacho_reading::fault::store_fault;
use tacho_reading::read_within;
use tacho_state::StoreFault;
use tacho_tables::{TableFault, opening};

/// Judges the rows of all drivers in the order of their numbers, within a transaction.
fn check_in<S: Alter>(
    alloc: Global,
    tx: &mut Transaction<'_, S>,
) -> Result<Option<Unsound>, TableFault>
    ensures { LearnsIfReadable S.Store tx.old.conn tx.new.conn result IsChecked }
{
    let numbers = driver_numbers(alloc, tx)?;
    for number in &numbers {
        let driver = *number;
        let found = judge_driver(alloc, tx, driver)?;
        if let Some(table) = found {
            return Ok(Some(Unsound { driver, table }));
        }
    }
    Ok(None)
}

/// Likewise, with the fault as a store reports it.
fn checked_in<S: Alter>(
    alloc: Global,
    tx: &mut Transaction<'_, S>,
) -> Result<Option<Unsound>, StoreFault>
    ensures asks { LearnsIfReadable S.Store tx.old.conn tx.new.conn result IsChecked }
    ensures refused { IfErr result HasGivenUp }
{
    check_in(alloc, tx).map_err(store_fault)
}

/// Likewise, outside a transaction.
fn check_drivers<S: Alter>(
    alloc: Global,
    conn: &mut Connection<S>,
) -> Result<Option<Unsound>, StoreFault>
    requires { conn.old.in_transaction ≡ false }
    ensures autocommit { conn.new.in_transaction ≡ false }
    ensures refused { IfErr result HasGivenUp }
    ensures checks { Checks S.Store conn.old conn.new result
        (λ layout db found. IsReadable layout db → IsChecked layout db found) }
{
    read_within!(conn, tx, checked_in(alloc, &mut tx))
}

/// Likewise, once `meta` and the table of schema 1 are known to be as they have to be: else it fails with S12.
fn check_rows<S: Alter>(
    alloc: Global,
    conn: &mut Connection<S>,
) -> Result<Option<Unsound>, StoreFault>
    requires { conn.old.in_transaction ≡ false }
    ensures autocommit { conn.new.in_transaction ≡ false }
    ensures refused { IfErr result HasGivenUp }
    ensures checks { Checks S.Store conn.old conn.new result
        (λ layout db found. AreAllNumbered layout db → IsChecked layout db found) }
{
    ask_current(conn)?;
    check_drivers(alloc, conn)
}

/// Reads all rows of an archive, and returns none if they represent a state within its limits. Else it returns the first driver, by number,
/// whose rows are those of no such state, and the first of that driver's tables for which this is so. Fails with S12 if the store's schema
/// isn't that of an archive, `meta` isn't that of a state, or `entries`, the table of schema 1, has rows. It takes the connection, and
/// returns its store, which has the same rows, and in which a crash leaves what it would have left before the call. Only the store itself
/// says that it is whole, and then no row number occurs twice, as the tables of a state require.
pub fn check<S: Alter + Drop>(
    alloc: Global,
    mut conn: Connection<S>,
) -> (Result<Option<Unsound>, StoreFault>, S)
    requires { conn.in_transaction ≡ false }
    ensures refused { IfErr result.0 HasGivenUp }
    ensures checked { IsClean (S.Store.view result.1) → IfOk result.0 (λ found. (is : IsArchive (state S.Store conn).now)
        × IsChecked is.layout (state S.Store conn).now.trees found) }
    ensures unknown { ¬ IsArchiveSchema (state S.Store conn).now.schema → result.0 ≡ Err Store }
    ensures clean { IsClean (S.Store.view result.1) → HasCleanDisk (state S.Store conn) }
    ensures same { IsClean (S.Store.view result.1) → OnOk result.0 ((S.Store.view result.1).trees ≡ (state S.Store conn).now.trees) }
    ensures crash { IsClean (S.Store.view result.1)
        → (db : Trees) → S.Store.recovers result.1 db → (state S.Store conn).may_leave db }
{
    // For the proof alone: the schema that the connection has read is that of the stored tables.
    let _sound = conn.schema();
    if !opening::has_archive(&conn) {
        return (Err(StoreFault::Store), conn.into_store());
    }
    let found = check_rows(alloc, &mut conn);
    // For the proof alone: nothing is pending, so what is seen is what was committed.
    let _settled = conn.is_autocommit();
    let store = conn.into_store();
    if store.is_broken() {
        return (Err(StoreFault::Store), store);
    }
    (found, store)
}
