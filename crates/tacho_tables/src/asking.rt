//! Readings of rows as they are stored, whatever they are: those of one driver in each table, the numbers of all drivers, `meta`, and
//! the table of schema 1.

ghost use Rattle.std.specs.Prelude.{◌≡◌, map};
ghost use Rattle.sqlite.specs.Held.{state};
ghost use Rattle.tacho_tables.specs.Schema.{meta_rows as meta_tree, driver_rows as driver_tree, old_entry_tree};
ghost use Rattle.tacho_tables.specs.Ask.{LearnsIfReadable, Learns, Show, AreFirst, own_in, shown_of, own_text, number_shown, IsCarriedOver, meta_shown, old_entry_shown};

use crate::fault::TableFault;
use crate::statement::read;
use crate::table::TableName;
use sqlite::{Alter, Row, Transaction, params};

/// Returns the SQL that reads a driver's rows of a table: of `drivers` all columns, of the other tables all but the driver and the row's
/// hidden number.
fn text_of(table: TableName) -> &'static str
    ensures { result.now ≡ own_text table }
{
    match table {
        TableName::Drivers => {
            "SELECT driver, holder, secret, base, name, downloads, entries FROM drivers WHERE driver = ?1"
        }
        TableName::Downloads => "SELECT number, part, file FROM downloads WHERE driver = ?1",
        TableName::CardSpans => "SELECT start, past, mark FROM card_spans WHERE driver = ?1",
        TableName::EntryRows => {
            "SELECT number, start, past, mark, withdrawn, author, note FROM entry_rows WHERE driver = ?1"
        }
        TableName::Held => "SELECT start, past, mark FROM held WHERE driver = ?1",
    }
}

/// Reads a driver's rows of a table.
pub fn own_rows<S: Alter>(
    tx: &mut Transaction<'_, S>,
    driver: i64,
    table: TableName,
) -> Result<Vec<Row>, TableFault>
    ensures { LearnsIfReadable S.Store tx.old.conn tx.new.conn result
        (λ layout db found. Show (shown_of table) (own_in layout db driver table) found.items) }
{
    read(tx, text_of(table), params![driver])
}

/// Reads the number of each row of `drivers`.
pub fn number_rows<S: Alter>(tx: &mut Transaction<'_, S>) -> Result<Vec<Row>, TableFault>
    ensures { LearnsIfReadable S.Store tx.old.conn tx.new.conn result
        (λ layout db found. Show number_shown (db driver_tree) found.items) }
{
    read(tx, "SELECT driver FROM drivers", &[])
}

/// Reads id and version of `meta`. Two rows are enough to know whether there is one.
pub fn meta_rows<S: Alter>(tx: &mut Transaction<'_, S>) -> Result<Vec<Row>, TableFault>
    ensures { Learns S.Store tx.old.conn tx.new.conn result
        (λ layout db found. AreFirst 2 (map meta_shown (db meta_tree)) found.items) }
{
    read(tx, "SELECT id, version FROM meta LIMIT 2", &[])
}

/// Reads the drivers of `entries`, the table of schema 1. One row is enough to know whether there are any.
pub fn old_entry_rows<S: Alter>(tx: &mut Transaction<'_, S>) -> Result<Vec<Row>, TableFault>
    requires { IsCarriedOver (state S.Store tx.old.conn.now) }
    ensures { Learns S.Store tx.old.conn tx.new.conn result
        (λ layout db found. AreFirst 1 (map old_entry_shown (db old_entry_tree)) found.items) }
{
    read(tx, "SELECT driver FROM entries LIMIT 1", &[])
}
