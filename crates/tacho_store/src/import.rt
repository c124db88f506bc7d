ghost use Rattle.std.specs.Prelude.{◌≡◌, ℕ, None, Some, Ok, map, false};
ghost use Rattle.sqlite.specs.State.{HasCleanDisk, IsUnchanged};
ghost use Rattle.sqlite.specs.Held.{state};
ghost use Rattle.tacho_time.specs.Spans.{IsCanonical};
ghost use Rattle.tacho_state.specs.State.{State, Driver, driver_of};
ghost use Rattle.tacho_state.specs.declared.imported.Imported.TheVariants.{Repeated};
ghost use Rattle.tacho_state.specs.Steps.{import_step};
ghost use Rattle.tacho_state.specs.Content.{FileTells};
ghost use Rattle.tacho_state.specs.Numbers.{part_number};
ghost use Rattle.tacho_state.specs.Acts.{caller_number, IsOfNoFile};
ghost use Rattle.tacho_tables.specs.Tables.{row_of, IsArchive};
ghost use Rattle.tacho_tables.specs.Calls.{Changes};
ghost use Rattle.tacho_reading.specs.Calls.{Tells, Steps, StepsGiven};
ghost use Rattle.tacho_reading.specs.Kept.{ActsOn, SeesWhileOpen, IsSame};
ghost use Rattle.tacho_store.specs.Importing.{importer, IsImporter, AreDecided, AreToAdd, AreToImport, import_turn, content_told, tables_after_download};

use crate::news::{News, news_of};
use crate::refusals::{ask_holder, numbers_from};
use sqlite::{Alter, Connection, Transaction};
use std::alloc::Global;
use tacho_card::Part;
use tacho_reading::act_within;
use tacho_reading::fault::store_fault;
use tacho_reading::finding::{driver_with, known, number_with_holder};
use tacho_reading::near::line_near;
use tacho_reading::spans::{range_of, stored};
use tacho_state::{Caller, CardContent, Imported, StoreFault, number_of_part};
use tacho_tables::{SpanTable, StoredSpan, TableFault, downloads, drivers, spans};
use tacho_time::Span;

/// The driver to whom an import belongs, and the count of their downloads.
#[derive(Clone, Copy)]
pub struct Importer {
    pub number: u32,
    pub downloads: u32,
}

/// Finds the driver whose card has the holder: S4.
fn importer_by_holder<S: Alter>(
    tx: &mut Transaction<'_, S>,
    holder: &[u8],
) -> Result<Importer, StoreFault>
    ensures { Tells S.Store tx.old.conn tx.new.conn result (λ _ s. IsImporter s result (importer None holder.now s)) }
{
    let found = number_with_holder(tx, holder)?;
    let number = known(found)?;
    let driver = driver_with(tx, number)?;
    Ok(Importer {
        number,
        downloads: driver.downloads,
    })
}

/// Finds the driver with the number, whose card must have the holder: S4, S5.
fn importer_by_number<S: Alter>(
    tx: &mut Transaction<'_, S>,
    number: u32,
    holder: &[u8],
) -> Result<Importer, StoreFault>
    ensures { Tells S.Store tx.old.conn tx.new.conn result
        (λ _ s. IsImporter s result (importer (Some number) holder.now s)) }
{
    let driver = driver_with(tx, number)?;
    ask_holder(&driver.holder, holder)?;
    Ok(Importer {
        number,
        downloads: driver.downloads,
    })
}

/// Finds the driver to whom an import belongs: S4, S5.
fn importer_of<S: Alter>(
    tx: &mut Transaction<'_, S>,
    caller: Caller,
    holder: &[u8],
) -> Result<Importer, StoreFault>
    ensures { Tells S.Store tx.old.conn tx.new.conn result
        (λ _ s. IsImporter s result (importer (caller_number caller) holder.now s)) }
{
    match caller {
        Caller::Office => importer_by_holder(tx, holder),
        Caller::Driver(number) => importer_by_number(tx, number, holder),
    }
}

/// What of a file's spans is new to a driver, computed from the rows near them. None if downloads give all of them. S6.
fn news_near<S: Alter>(
    alloc: Global,
    tx: &mut Transaction<'_, S>,
    driver: u32,
    spans: &[Span],
) -> Result<Option<News>, StoreFault>
    requires { IsCanonical spans.now }
    ensures { Tells S.Store tx.old.conn tx.new.conn result (λ db s. (d : Driver) → driver_of driver s ≡ Some d
        → AreDecided db s driver d spans.now result) }
{
    let (start, past) = range_of(spans);
    let card_line = line_near(alloc, tx, SpanTable::CardSpans, driver, start, past)?;
    let line = line_near(alloc, tx, SpanTable::Held, driver, start, past)?;
    news_of(alloc, &card_line, &line, spans)
}

/// Writes a download, its number as the driver's count, and what is new of its spans.
fn write_download<S: Alter>(
    tx: &mut Transaction<'_, S>,
    driver: u32,
    number: u32,
    part: u32,
    file: &[u8],
    cards: &[StoredSpan],
    helds: &[StoredSpan],
) -> Result<(), TableFault>
    ensures { Changes S.Store tx.old.conn tx.new.conn result
        (tables_after_download driver number part file.now (map (row_of driver) cards.now) (map (row_of driver) helds.now)) }
{
    drivers::set_downloads(tx, driver, number)?;
    downloads::insert(tx, driver, number, part, file)?;
    spans::insert_all(tx, SpanTable::CardSpans, driver, cards)?;
    spans::insert_all(tx, SpanTable::Held, driver, helds)
}

/// Adds a driver's download. `news` is what is new of its spans. S14. Allocates all memory before the first write.
fn add_download<S: Alter>(
    alloc: Global,
    tx: &mut Transaction<'_, S>,
    importer: Importer,
    part: Part,
    file: &[u8],
    news: &News,
) -> Result<Imported, StoreFault>
    ensures steps { StepsGiven S.Store tx.old.conn tx.new.conn result
        (AreToAdd importer part file.now news.now) (λ done. done)
        (λ p. import_turn part file.now p.1 p.0) }
    ensures added { (number : ℕ) → result ≡ Ok (Repeated number) → ⊥ }
{
    let number = numbers_from(importer.downloads, 1)?;
    let cards = stored(alloc, &news.card_spans)?;
    let helds = stored(alloc, &news.held)?;
    let driver = importer.number;
    write_download(
        tx,
        driver,
        number,
        number_of_part(part),
        file,
        &cards,
        &helds,
    )
    .map_err(store_fault)?;
    Ok(Imported::Added { driver, number })
}

/// Imports a file's spans for a driver: S6, S14.
fn import_spans<S: Alter>(
    alloc: Global,
    tx: &mut Transaction<'_, S>,
    importer: Importer,
    part: Part,
    file: &[u8],
    spans: &[Span],
) -> Result<Imported, StoreFault>
    requires { IsCanonical spans.now }
    ensures steps { StepsGiven S.Store tx.old.conn tx.new.conn result
        (AreToImport importer part file.now spans.now) (λ done. done)
        (λ p. import_turn part file.now spans.now p.0) }
    ensures repeated { HasCleanDisk (state S.Store tx.new.conn.now)
        → IsArchive (state S.Store tx.old.conn.now).now
        → (number : ℕ) → result ≡ Ok (Repeated number)
        → IsUnchanged (state S.Store tx.old.conn.now) (state S.Store tx.new.conn.now) }
{
    match news_near(alloc, tx, importer.number, spans)? {
        None => Ok(Imported::Repeated {
            driver: importer.number,
        }),
        Some(news) => add_download(alloc, tx, importer, part, file, &news),
    }
}

/// Imports the content of a card file, within a transaction: S4, S5, S6, S14.
fn import_in<S: Alter>(
    alloc: Global,
    tx: &mut Transaction<'_, S>,
    caller: Caller,
    part: Part,
    file: &[u8],
    content: &CardContent,
) -> Result<Imported, StoreFault>
    requires canonical { IsCanonical content.now.spans.items }
    requires tells { FileTells part file.now (Ok (content_told content.now)) }
    ensures steps { Steps S.Store tx.old.conn tx.new.conn result (λ done. done)
        (import_step (caller_number caller) (part_number part) file.now (Ok (content_told content.now))) }
    ensures repeated { HasCleanDisk (state S.Store tx.new.conn.now)
        → IsArchive (state S.Store tx.old.conn.now).now
        → (number : ℕ) → result ≡ Ok (Repeated number)
        → IsUnchanged (state S.Store tx.old.conn.now) (state S.Store tx.new.conn.now) }
{
    let importer = importer_of(tx, caller, &content.holder)?;
    import_spans(alloc, tx, importer, part, file, &content.spans)
}

/// Imports the content of a card file: S4, S5, S6, S14.
#[tactic(auto, using(crate::proofs::StepsLemmas::undone_keeps))]
pub fn import<S: Alter>(
    alloc: Global,
    conn: &mut Connection<S>,
    caller: Caller,
    part: Part,
    file: &[u8],
    content: &CardContent,
) -> Result<Imported, StoreFault>
    requires open { conn.old.in_transaction ≡ false }
    requires canonical { IsCanonical content.now.spans.items }
    requires tells { FileTells part file.now (Ok (content_told content.now)) }
    ensures autocommit { conn.new.in_transaction ≡ false }
    ensures acts { ActsOn S.Store (λ done. done) conn.old conn.new result
        (import_step (caller_number caller) (part_number part) file.now (Ok (content_told content.now))) }
    ensures repeated { HasCleanDisk (state S.Store conn.new) → (s : State) (number : ℕ)
        → SeesWhileOpen (state S.Store conn.old) s
        → result ≡ Ok (Repeated number) → IsSame (state S.Store conn.old) (state S.Store conn.new) }
    ensures of_no_file { IsOfNoFile result }
{
    act_within!(
        conn,
        tx,
        import_in(alloc, &mut tx, caller, part, file, content)
    )
}
