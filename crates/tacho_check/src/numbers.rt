//! The numbers of all drivers.

ghost use Rattle.std.specs.Prelude.{◌≡◌};
ghost use Rattle.tacho_tables.specs.Schema.{driver_rows};
ghost use Rattle.tacho_tables.specs.Ask.{LearnsIfReadable};
ghost use Rattle.tacho_check.specs.Numbers.{IsDriverNumber, AreAllNumbers};

use crate::parsing::{FromRow, parsed};
use sqlite::types::ValueRef;
use sqlite::{Alter, Row, Transaction};
use std::alloc::Global;
use tacho_tables::TableFault;
use tacho_tables::asking::number_rows;

impl FromRow for i64 {
    ghost is_of = { IsDriverNumber };

    fn from_row(_alloc: Global, row: &Row) -> Result<Option<i64>, TableFault> {
        Ok(Some(row.get(0)?))
    }
}

/// Reads the numbers of all drivers, the lowest first.
pub fn driver_numbers<S: Alter>(
    alloc: Global,
    tx: &mut Transaction<'_, S>,
) -> Result<Vec<i64>, TableFault>
    ensures { LearnsIfReadable S.Store tx.old.conn tx.new.conn result
        (λ layout db found. AreAllNumbers (db driver_rows) found.items) }
{
    let rows = number_rows(tx)?;
    let Some(mut numbers) = parsed::<i64>(alloc, &rows)? else {
        return Err(TableFault::Store);
    };
    numbers.sort_unstable();
    Ok(numbers)
}
