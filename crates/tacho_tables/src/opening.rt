//! Questions to a connection before its tables are made or used.

ghost use Rattle.std.specs.Prelude.{◌≡◌, ◌↔◌, [], false, IsErr, IsTrue};
ghost use Rattle.sqlite.specs.State.{HasCleanDisk, Survives};
ghost use Rattle.sqlite.specs.Held.{state};
ghost use Rattle.tacho_tables.specs.Schema.{no_schema, Carried, IsArchiveSchema, archive_schema, old_schema};
ghost use Rattle.tacho_tables.specs.Calls.{Asks};

use crate::fault::TableFault;
use crate::schema::{is_carried, is_made, is_old};
use sqlite::{Alter, Connection};

/// True if the store has tables.
pub fn has_tables<S: Alter>(conn: &Connection<S>) -> bool
    ensures { (result ≡ false) ↔ ((state S.Store conn.now).now.schema.tables ≡ []) }
{
    !conn.schema().tables.is_empty()
}

/// True if the store's schema is that of an archive that was carried over from schema 1.
pub fn is_carried_over<S: Alter>(conn: &Connection<S>) -> bool
    ensures { IsTrue result ↔ ((state S.Store conn.now).now.schema ≡ archive_schema Carried) }
{
    is_carried(conn.schema())
}

/// True if the store's schema is that of an archive of schema 2, whole: its tables in their order with all that their definitions say, and
/// nothing else.
pub fn has_archive<S: Alter>(conn: &Connection<S>) -> bool
    ensures { IsTrue result ↔ IsArchiveSchema (state S.Store conn.now).now.schema }
{
    is_made(conn.schema()) || is_carried(conn.schema())
}

/// True if the store's schema is schema 1, whole.
pub fn has_old_archive<S: Alter>(conn: &Connection<S>) -> bool
    ensures { IsTrue result ↔ ((state S.Store conn.now).now.schema ≡ old_schema) }
{
    is_old(conn.schema())
}

/// Prepares a statement on the table that holds the version, and reads nothing. It succeeds only if the store is open and has that table.
pub fn ask<S: Alter>(conn: &mut Connection<S>) -> Result<(), TableFault>
    ensures asks { Asks S.Store conn.old conn.new result }
    ensures missing { HasCleanDisk (state S.Store conn.new) → (state S.Store conn.old).now.schema ≡ no_schema
        → IsErr result }
{
    conn.prepare("SELECT version FROM meta WHERE id = 1")?;
    Ok(())
}
