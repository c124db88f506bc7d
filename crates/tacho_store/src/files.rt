ghost use Rattle.std.specs.Prelude.{◌≡◌, ◌≢◌, false, map, Err, IfOk, IfErr, IfSome, IsNone};
ghost use Rattle.tacho_card.specs.declared.file.Part.{Part};
ghost use Rattle.tacho_state.specs.Content.{HasContent};
ghost use Rattle.tacho_state.specs.Numbers.{part_number};
ghost use Rattle.tacho_state.specs.Files.{files_reading, listed_file, told_file};
ghost use Rattle.tacho_state.specs.State.{Driver, driver_of};
ghost use Rattle.tacho_state.specs.Steps.{Content};
ghost use Rattle.tacho_state.specs.Acts.{Answers};
ghost use Rattle.tacho_reading.specs.Calls.{Tells};
ghost use Rattle.tacho_reading.specs.Kept.{HasGivenUp, ReadsOn};
ghost use Rattle.tacho_store.specs.Listing.{IsFileOf};

use sqlite::{Alter, Connection, Transaction};
use std::alloc::Global;
use tacho_reading::fault::store_fault;
use tacho_reading::finding::driver_with;
use tacho_reading::read_within;
use tacho_state::{FileSummary, StoreFault, content_of, file_summary, part_of};
use tacho_tables::{StoredFile, downloads};

/// Returns the fault of a reading that meets a stored card file with this fault. Out of memory stays; any other fault is a store failure.
fn fault_of_stored(fault: StoreFault) -> StoreFault
    ensures refused { HasGivenUp result }
    ensures memory { fault ≡ StoreFault.Memory → result ≡ StoreFault.Memory }
{
    match fault {
        StoreFault::Memory => StoreFault::Memory,
        _ => StoreFault::Store,
    }
}

/// Describes a stored card file, which is read again for its spans. A file that no archive keeps is a store failure.
fn summary_of(alloc: Global, number: u32, stored: &StoredFile) -> Result<FileSummary, StoreFault>
    ensures summary { IfOk result (λ it. (content : Content) → HasContent stored.now.part stored.now.file.items content
        → told_file it ≡ listed_file number (record {
          part = stored.now.part;
          file = stored.now.file.items;
          spans = content.spans;
        })) }
    ensures refused { IfErr result HasGivenUp }
    ensures part { ((part : Part) → part_number part ≢ stored.now.part) → result ≡ Err StoreFault.Store }
    ensures cause { result ≡ Err StoreFault.Store → (content : Content)
        → ¬ HasContent stored.now.part stored.now.file.items content }
{
    let Some(part) = part_of(u64::from(stored.part)) else {
        return Err(StoreFault::Store);
    };
    match content_of(alloc, part, &stored.file) {
        Ok(content) => Ok(file_summary(number, part, &stored.file, &content.spans)),
        Err(fault) => Err(fault_of_stored(fault)),
    }
}

/// Describes a driver's card file with this number, within a transaction. A number that isn't one of the driver's is a store failure.
fn file_in<S: Alter>(
    alloc: Global,
    tx: &mut Transaction<'_, S>,
    driver: u32,
    number: u32,
) -> Result<FileSummary, StoreFault>
    ensures told { Tells S.Store tx.old.conn tx.new.conn result (λ _ s. (d : Driver) → driver_of driver s ≡ Some d
        → IfOk result (IsFileOf d number)) }
    ensures refused { IfErr result HasGivenUp }
{
    let found = downloads::file(tx, driver, number).map_err(store_fault)?;
    let Some(stored) = found else {
        return Err(StoreFault::Store);
    };
    summary_of(alloc, number, &stored)
}

/// Lists a driver's card files, within a transaction: S4.
fn files_in<S: Alter>(
    alloc: Global,
    tx: &mut Transaction<'_, S>,
    driver: u32,
) -> Result<Vec<FileSummary>, StoreFault>
    ensures { Tells S.Store tx.old.conn tx.new.conn result
        (λ _ s. Answers (λ files. map told_file files.items) result (files_reading driver s)) }
{
    let stored = driver_with(tx, driver)?;
    let mut files = Vec::new(alloc);
    for number in 1..=stored.downloads {
        let file = file_in(alloc, tx, driver, number)?;
        files.push(file)?;
    }
    Ok(files)
}

/// Lists a driver's card files ordered by number: S4. Only one file at a time is in memory.
pub fn files<S: Alter>(
    alloc: Global,
    conn: &mut Connection<S>,
    driver: u32,
) -> Result<Vec<FileSummary>, StoreFault>
    requires { conn.old.in_transaction ≡ false }
    ensures autocommit { conn.new.in_transaction ≡ false }
    ensures reads { ReadsOn S.Store (λ files. map told_file files.items) conn.old conn.new result (files_reading driver) }
{
    read_within!(conn, tx, files_in(alloc, &mut tx, driver))
}
