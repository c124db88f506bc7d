//! The stored rows of one driver.

ghost use Rattle.tacho_tables.specs.Ask.{LearnsIfReadable, own_in};
ghost use Rattle.tacho_check.specs.Own.{AreOwnRows};

use sqlite::{Alter, Row, Transaction};
use tacho_tables::asking::own_rows;
use tacho_tables::{TableFault, TableName};

/// A driver's rows of each table, as they were read.
#[derive(Drop)]
pub struct OwnRows {
    pub drivers: Vec<Row>,
    pub downloads: Vec<Row>,
    pub card_spans: Vec<Row>,
    pub entry_rows: Vec<Row>,
    pub held: Vec<Row>,
}

/// Reads a driver's rows of all tables.
pub fn read_own<S: Alter>(tx: &mut Transaction<'_, S>, driver: i64) -> Result<OwnRows, TableFault>
    ensures { LearnsIfReadable S.Store tx.old.conn tx.new.conn result (λ layout db found. AreOwnRows (own_in layout db driver) found) }
{
    let drivers = own_rows(tx, driver, TableName::Drivers)?;
    let downloads = own_rows(tx, driver, TableName::Downloads)?;
    let card_spans = own_rows(tx, driver, TableName::CardSpans)?;
    let entry_rows = own_rows(tx, driver, TableName::EntryRows)?;
    let held = own_rows(tx, driver, TableName::Held)?;
    Ok(OwnRows {
        drivers,
        downloads,
        card_spans,
        entry_rows,
        held,
    })
}
