//! How the tables are made.

ghost use Rattle.std.specs.Prelude.{◌≡◌, [], ◌∷◌, IfOk, OnOk, IsErr};
ghost use Rattle.sqlite.specs.State.{HasCleanDisk, KeepsCommit};
ghost use Rattle.sqlite.specs.Held.{state};
ghost use Rattle.tacho_tables.specs.Schema.{Made, Carried, no_schema, with_downloads, archive_schema, old_schema, entry_rows, entry_rows_text};
ghost use Rattle.tacho_tables.specs.Calls.{Stays, ReadsOf};
ghost use Rattle.tacho_tables.specs.Making.{AreEmpty, Copies, IsCreate, HasMade, IsVersioned, TellsVersion};
ghost use Rattle.tacho_tables.specs.Tables.{HasTables, IsArchive, Carries, no_rows};

use crate::fault::TableFault;
use crate::rows::first;
use crate::statement::run;
use sqlite::{Alter, Transaction, params};

/// The version of the schema that an archive has, after it was made or migrated.
pub const CURRENT_VERSION: u32 = 2;

/// The version of the schema from which archives are migrated.
pub const OLD_VERSION: u32 = 1;

/// Makes one table.
fn make_table<S: Alter>(tx: &mut Transaction<'_, S>, text: &str) -> Result<(), TableFault>
    ensures stays { Stays S.Store tx.old.conn tx.new.conn }
    ensures made { HasCleanDisk (state S.Store tx.new.conn.now) → (schema : _) (table : _)
        → (state S.Store tx.old.conn.now).now.schema ≡ schema → IsCreate schema text.now table
        → OnOk result (HasMade schema table (state S.Store tx.old.conn.now) (state S.Store tx.new.conn.now)) }
    ensures keeps { HasCleanDisk (state S.Store tx.new.conn.now)
        → KeepsCommit (state S.Store tx.old.conn.now) (state S.Store tx.new.conn.now) }
{
    run(tx, text, &[])
}

/// Makes the first three tables.
fn make_first<S: Alter>(tx: &mut Transaction<'_, S>) -> Result<(), TableFault>
    ensures stays { Stays S.Store tx.old.conn tx.new.conn }
    ensures made { HasCleanDisk (state S.Store tx.new.conn.now) → (state S.Store tx.old.conn.now).now.schema ≡ no_schema
        → OnOk result (((state S.Store tx.new.conn.now).now.schema ≡ with_downloads)
        × AreEmpty (0 ∷ 1 ∷ 4 ∷ []) (state S.Store tx.new.conn.now).now.trees) }
    ensures keeps { HasCleanDisk (state S.Store tx.new.conn.now)
        → KeepsCommit (state S.Store tx.old.conn.now) (state S.Store tx.new.conn.now) }
{
    make_table(
        tx,
        "CREATE TABLE meta (id INTEGER PRIMARY KEY, version INTEGER NOT NULL) STRICT",
    )?;
    make_table(
        tx,
        "CREATE TABLE drivers (driver INTEGER PRIMARY KEY, holder BLOB NOT NULL UNIQUE, secret TEXT NOT NULL UNIQUE, base INTEGER NOT NULL, name TEXT NOT NULL, downloads INTEGER NOT NULL, entries INTEGER NOT NULL) STRICT",
    )?;
    make_table(
        tx,
        "CREATE TABLE downloads (driver INTEGER NOT NULL REFERENCES drivers(driver), number INTEGER NOT NULL, part INTEGER NOT NULL, file BLOB NOT NULL, PRIMARY KEY (driver, number)) STRICT",
    )
}

/// Makes the table of entries.
fn make_entry_rows<S: Alter>(tx: &mut Transaction<'_, S>) -> Result<(), TableFault>
    ensures stays { Stays S.Store tx.old.conn tx.new.conn }
    ensures made { HasCleanDisk (state S.Store tx.new.conn.now) → (schema : _)
        → (state S.Store tx.old.conn.now).now.schema ≡ schema → IsCreate schema entry_rows_text entry_rows
        → OnOk result (HasMade schema entry_rows (state S.Store tx.old.conn.now) (state S.Store tx.new.conn.now)) }
    ensures keeps { HasCleanDisk (state S.Store tx.new.conn.now)
        → KeepsCommit (state S.Store tx.old.conn.now) (state S.Store tx.new.conn.now) }
{
    make_table(
        tx,
        "CREATE TABLE entry_rows (driver INTEGER NOT NULL REFERENCES drivers(driver), number INTEGER NOT NULL, start INTEGER NOT NULL, past INTEGER NOT NULL, mark INTEGER NOT NULL, withdrawn INTEGER NOT NULL CHECK (withdrawn IN (0, 1)), author TEXT NOT NULL, note TEXT NOT NULL, PRIMARY KEY (driver, number)) STRICT",
    )
}

/// Makes the other three tables.
fn make_rest<S: Alter>(tx: &mut Transaction<'_, S>) -> Result<(), TableFault>
    ensures stays { Stays S.Store tx.old.conn tx.new.conn }
    ensures made { HasCleanDisk (state S.Store tx.new.conn.now)
        → (state S.Store tx.old.conn.now).now.schema ≡ with_downloads
        → AreEmpty (0 ∷ 1 ∷ 4 ∷ []) (state S.Store tx.old.conn.now).now.trees
        → OnOk result (((state S.Store tx.new.conn.now).now.schema ≡ archive_schema Made)
        × AreEmpty (0 ∷ 1 ∷ 4 ∷ 6 ∷ 8 ∷ 10 ∷ []) (state S.Store tx.new.conn.now).now.trees) }
    ensures keeps { HasCleanDisk (state S.Store tx.new.conn.now)
        → KeepsCommit (state S.Store tx.old.conn.now) (state S.Store tx.new.conn.now) }
{
    make_table(
        tx,
        "CREATE TABLE card_spans (driver INTEGER NOT NULL REFERENCES drivers(driver), start INTEGER NOT NULL, past INTEGER NOT NULL, mark INTEGER NOT NULL, PRIMARY KEY (driver, start)) STRICT",
    )?;
    make_entry_rows(tx)?;
    make_table(
        tx,
        "CREATE TABLE held (driver INTEGER NOT NULL REFERENCES drivers(driver), start INTEGER NOT NULL, past INTEGER NOT NULL, mark INTEGER NOT NULL, PRIMARY KEY (driver, start)) STRICT",
    )
}

/// Makes the six tables in a store without tables, and the row that says which schema they have.
pub fn make_all<S: Alter>(tx: &mut Transaction<'_, S>) -> Result<(), TableFault>
    ensures stays { Stays S.Store tx.old.conn tx.new.conn }
    ensures made { HasCleanDisk (state S.Store tx.new.conn.now) → (state S.Store tx.old.conn.now).now.schema ≡ no_schema
        → OnOk result (IsArchive (state S.Store tx.new.conn.now).now
        × HasTables (state S.Store tx.new.conn.now).now.trees no_rows) }
    ensures keeps { HasCleanDisk (state S.Store tx.new.conn.now)
        → KeepsCommit (state S.Store tx.old.conn.now) (state S.Store tx.new.conn.now) }
{
    make_first(tx)?;
    make_rest(tx)?;
    run(
        tx,
        "INSERT INTO meta (id, version) VALUES (1, ?1)",
        params![CURRENT_VERSION],
    )
}

/// Copies each entry of schema 1.
fn copy_entries<S: Alter>(tx: &mut Transaction<'_, S>) -> Result<(), TableFault>
    ensures stays { Stays S.Store tx.old.conn tx.new.conn }
    ensures copied { HasCleanDisk (state S.Store tx.new.conn.now)
        → (state S.Store tx.old.conn.now).now.schema ≡ archive_schema Carried
        → OnOk result (Copies (state S.Store tx.old.conn.now).now (state S.Store tx.new.conn.now).now) }
    ensures keeps { HasCleanDisk (state S.Store tx.new.conn.now)
        → KeepsCommit (state S.Store tx.old.conn.now) (state S.Store tx.new.conn.now) }
{
    run(
        tx,
        "INSERT INTO entry_rows (driver, number, start, past, mark, withdrawn, author, note) SELECT driver, number, start, past, mark, withdrawn, 'office', '' FROM entries",
        &[],
    )
}

/// Carries the tables of schema 1 over to schema 2. It makes `entry_rows`, copies each entry there with the office as its author and no
/// note, empties `entries` (the table itself stays), and sets the version.
pub fn carry<S: Alter>(tx: &mut Transaction<'_, S>) -> Result<(), TableFault>
    ensures stays { Stays S.Store tx.old.conn tx.new.conn }
    ensures carried { HasCleanDisk (state S.Store tx.new.conn.now) → (state S.Store tx.old.conn.now).now.schema ≡ old_schema
        → OnOk result (Carries (state S.Store tx.old.conn.now).now (state S.Store tx.new.conn.now).now) }
    ensures keeps { HasCleanDisk (state S.Store tx.new.conn.now)
        → KeepsCommit (state S.Store tx.old.conn.now) (state S.Store tx.new.conn.now) }
{
    make_entry_rows(tx)?;
    copy_entries(tx)?;
    run(tx, "DELETE FROM entries", &[])?;
    run(
        tx,
        "UPDATE meta SET version = ?1 WHERE id = 1",
        params![CURRENT_VERSION],
    )
}

/// Reads the version of the tables' schema; none if its row is missing. In a store without tables it returns `TableFault::Store`.
pub fn version<S: Alter>(tx: &mut Transaction<'_, S>) -> Result<Option<u32>, TableFault>
    ensures reads { ReadsOf S.Store tx.old.conn tx.new.conn result IsVersioned }
    ensures found { HasCleanDisk (state S.Store tx.new.conn.now)
        → IsVersioned (state S.Store tx.old.conn.now).now
        → IfOk result (TellsVersion (state S.Store tx.old.conn.now).now.trees) }
    ensures missing { HasCleanDisk (state S.Store tx.new.conn.now)
        → (state S.Store tx.old.conn.now).now.schema ≡ no_schema → IsErr result }
{
    first(tx, "SELECT version FROM meta WHERE id = 1", &[])
}
