//! Whether `meta` and the table of schema 1 are as a state's archive has them.

ghost use Rattle.std.specs.Prelude.{◌≡◌, ◌↔◌, [], ◌∷◌, false, IsTrue, IfErr, OnOk};
ghost use Rattle.sqlite.specs.Held.{state};
ghost use Rattle.tacho_tables.specs.Schema.{current_version};
ghost use Rattle.tacho_tables.specs.Tables.{IsVersion, HasNoOldEntries};
ghost use Rattle.tacho_tables.specs.Ask.{Learns, IsCarriedOver};
ghost use Rattle.tacho_reading.specs.Kept.{HasGivenUp};
ghost use Rattle.tacho_check.specs.Checked.{Checks};
ghost use Rattle.tacho_check.specs.Current.{current_shown};

use sqlite::{Alter, Connection, Row, Transaction};
use tacho_reading::fault::store_fault;
use tacho_state::StoreFault;
use tacho_tables::asking::{meta_rows, old_entry_rows};
use tacho_tables::making::CURRENT_VERSION;
use tacho_tables::{TableFault, opening};

/// Asks whether a row has id 1 and the current version.
fn ask_row(row: &Row) -> Result<(), TableFault>
    ensures { OnOk result (row.now ≡ current_shown) }
{
    if row.column_count() != 2 {
        return Err(TableFault::Store);
    }
    let id: i64 = row.get(0)?;
    let version: i64 = row.get(1)?;
    if id != 1 || version != i64::from(CURRENT_VERSION) {
        return Err(TableFault::Store);
    }
    Ok(())
}

/// Asks whether there is one row, with id 1 and the current version.
fn ask_rows(rows: &[Row]) -> Result<(), TableFault>
    ensures { OnOk result (rows.now ≡ current_shown ∷ []) }
{
    match rows {
        [row] => ask_row(row),
        _ => Err(TableFault::Store),
    }
}

/// Asks whether `meta` has its one row, with the current version.
fn ask_meta<S: Alter>(tx: &mut Transaction<'_, S>) -> Result<(), TableFault>
    ensures { Learns S.Store tx.old.conn tx.new.conn result (λ layout db _. IsVersion current_version db) }
{
    let rows = meta_rows(tx)?;
    ask_rows(&rows)
}

/// Asks whether there are no rows.
fn ask_no_rows(rows: &[Row]) -> Result<(), TableFault>
    ensures { OnOk result (rows.now ≡ []) }
{
    match rows {
        [] => Ok(()),
        _ => Err(TableFault::Store),
    }
}

/// Asks whether `entries`, the table of schema 1, has no rows.
fn ask_old_entries<S: Alter>(tx: &mut Transaction<'_, S>) -> Result<(), TableFault>
    requires { IsCarriedOver (state S.Store tx.old.conn.now) }
    ensures { Learns S.Store tx.old.conn tx.new.conn result (λ layout db _. HasNoOldEntries layout db) }
{
    let rows = old_entry_rows(tx)?;
    ask_no_rows(&rows)
}

/// Asks of an archive that was migrated whether `entries` and `meta` are as they have to be.
fn ask_migrated<S: Alter>(tx: &mut Transaction<'_, S>) -> Result<(), TableFault>
    requires { IsCarriedOver (state S.Store tx.old.conn.now) }
    ensures { Learns S.Store tx.old.conn tx.new.conn result
        (λ layout db _. IsVersion current_version db × HasNoOldEntries layout db) }
{
    ask_old_entries(tx)?;
    ask_meta(tx)
}

/// Asks whether `meta` is as it has to be, and `entries` if the archive was carried over.
fn ask_current_in<S: Alter>(tx: &mut Transaction<'_, S>, is_carried: bool) -> Result<(), TableFault>
    requires { IsTrue is_carried ↔ IsCarriedOver (state S.Store tx.old.conn.now) }
    ensures { Learns S.Store tx.old.conn tx.new.conn result
        (λ layout db _. IsVersion current_version db × HasNoOldEntries layout db) }
{
    if is_carried {
        ask_migrated(tx)
    } else {
        ask_meta(tx)
    }
}

/// Asks whether `meta` has its one row, with the current version, and whether `entries`, the table of schema 1 that a migrated archive keeps, has
/// no rows. It changes nothing. Fails with S12 if not.
pub fn ask_current<S: Alter>(conn: &mut Connection<S>) -> Result<(), StoreFault>
    requires { conn.old.in_transaction ≡ false }
    ensures autocommit { conn.new.in_transaction ≡ false }
    ensures refused { IfErr result HasGivenUp }
    ensures current { Checks S.Store conn.old conn.new result
        (λ layout db _. IsVersion current_version db × HasNoOldEntries layout db) }
{
    let is_carried = opening::is_carried_over(conn);
    // For the proof alone: nothing is pending, so what is seen is what was committed.
    let _settled = conn.is_autocommit();
    let mut tx = conn.transaction();
    let found = ask_current_in(&mut tx, is_carried);
    tx.rollback();
    match opening::ask(conn) {
        Ok(()) => found.map_err(store_fault),
        Err(fault) => Err(store_fault(fault)),
    }
}
