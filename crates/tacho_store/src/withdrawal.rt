ghost use Rattle.std.specs.Prelude.{◌≡◌, ◌≤◌, ◌++◌, map, Err, filter, not, false, IfOk, IfErr};
ghost use Rattle.tacho_time.specs.OrMemory.{OrMemory};
ghost use Rattle.tacho_time.specs.Spans.{Gives, IsCanonicalOf};
ghost use Rattle.tacho_line.specs.Line.{IsWithin};
ghost use Rattle.tacho_state.specs.Steps.{withdraw_range_step, withdraw_step};
ghost use Rattle.tacho_tables.specs.Calls.{Finds};
ghost use Rattle.tacho_tables.specs.Tables.{is_row_near, row_of};
ghost use Rattle.tacho_reading.specs.Standing.{stored_span, HaveNoLine};
ghost use Rattle.tacho_reading.specs.Calls.{Tells, Steps, ChangesWhere};
ghost use Rattle.tacho_state.specs.Acts.{IsOfNoFile};
ghost use Rattle.tacho_reading.specs.Kept.{ActsOn};
ghost use Rattle.tacho_reading.specs.Apart.{AreRowsApart, driver_rows};
ghost use Rattle.tacho_store.specs.Withdrawing.{IsEntry, AreRowsFor, HaveNoRows, AreRenewed, Renews};

use crate::refusals::kept_entry;
use sqlite::{Alter, Connection, Transaction};
use std::alloc::Global;
use tacho_reading::act_within;
use tacho_reading::fault::store_fault;
use tacho_reading::finding::driver_with;
use tacho_reading::near::{first_start, rows_near};
use tacho_reading::spans::{fault_of_rows, minute_of, spans_of, stored};
use tacho_state::{StoreFault, inside_of, outside_of};
use tacho_tables::{SpanTable, StoredEntry, StoredSpan, TableFault, entries, held, spans};
use tacho_time::{Minute, Span};

/// Finds a driver's entry that is not withdrawn: S4, S7, S8.
fn entry_with<S: Alter>(
    tx: &mut Transaction<'_, S>,
    driver: u32,
    number: u32,
) -> Result<StoredEntry, StoreFault>
    ensures { Tells S.Store tx.old.conn tx.new.conn result (λ _ s. IsEntry s driver number result) }
{
    driver_with(tx, driver)?;
    let found = entries::by_number(tx, driver, number).map_err(store_fault)?;
    kept_entry(found)
}

/// What stored rows of cards and of entries give in a range. A contradiction between two of them is a store failure.
fn given_inside(
    alloc: Global,
    cards: &[StoredSpan],
    others: &[StoredSpan],
    start: Minute,
    past: Minute,
) -> Result<Vec<Span>, StoreFault>
    ensures inside { IfOk result (λ inside. IsCanonicalOf (λ m k. IsWithin start past m
        × Gives (map stored_span cards.now ++ map stored_span others.now) m k) inside.items) }
    ensures fault { IfErr result (λ fault. OrMemory StoreFault.Memory fault (fault ≡ StoreFault.Store)) }
    ensures cause { result ≡ Err StoreFault.Store → HaveNoLine (cards.now ++ others.now) }
{
    let card_spans = spans_of(alloc, cards)?;
    let entered = spans_of(alloc, others)?;
    match inside_of(alloc, &card_spans, &entered, start, past) {
        Ok(inside) => Ok(inside),
        Err(fault) => Err(fault_of_rows(fault)),
    }
}

/// The rows that replace those near an entry: the parts of held rows outside it, and inside it what cards and other entries give.
fn rows_for(
    alloc: Global,
    cards: &[StoredSpan],
    others: &[StoredSpan],
    helds: &[StoredSpan],
    start: u32,
    past: u32,
) -> Result<Vec<StoredSpan>, StoreFault>
    ensures rows { IfOk result (λ rows. AreRowsFor cards.now others.now helds.now start past rows.items) }
    ensures fault { IfErr result (λ fault. OrMemory StoreFault.Memory fault (fault ≡ StoreFault.Store)) }
    ensures cause { result ≡ Err StoreFault.Store → HaveNoRows cards.now others.now helds.now start past }
{
    let Some(first) = minute_of(start) else {
        return Err(StoreFault::Store);
    };
    let Some(end) = minute_of(past) else {
        return Err(StoreFault::Store);
    };
    let held_spans = spans_of(alloc, helds)?;
    let mut spans = outside_of(alloc, &held_spans, first, end)?;
    let inside = given_inside(alloc, cards, others, first, end)?;
    spans.extend_from_slice(&inside)?;
    Ok(stored(alloc, &spans)?)
}

/// The rows that replace a driver's held rows near a range, by what the tables have near it.
fn rows_in_place<S: Alter>(
    alloc: Global,
    tx: &mut Transaction<'_, S>,
    driver: u32,
    start: u32,
    past: u32,
) -> Result<Vec<StoredSpan>, StoreFault>
    ensures found { Finds S.Store tx.old.conn tx.new.conn result
        (λ t rows. AreRowsApart (driver_rows driver t.card_spans) → AreRowsApart (driver_rows driver t.held)
        → AreRenewed t driver start past rows.items) }
    ensures fault { IfErr result (λ fault. OrMemory StoreFault.Memory fault (fault ≡ StoreFault.Store)) }
{
    let cards = rows_near(alloc, tx, SpanTable::CardSpans, driver, start, past).map_err(
        store_fault,
    )?;
    let others = entries::kept_near(alloc, tx, driver, start, past).map_err(store_fault)?;
    let helds = rows_near(alloc, tx, SpanTable::Held, driver, start, past).map_err(store_fault)?;
    rows_for(alloc, &cards, &others, &helds, start, past)
}

/// Removes a driver's held rows near a range.
fn delete_near<S: Alter>(
    tx: &mut Transaction<'_, S>,
    driver: u32,
    start: u32,
    past: u32,
) -> Result<(), TableFault>
    ensures { ChangesWhere S.Store tx.old.conn tx.new.conn result (λ t. AreRowsApart (driver_rows driver t.held))
        (λ t. record t { held = filter (λ r. not (is_row_near driver start past r)) t.held }) }
{
    let before = spans::last_before(tx, SpanTable::Held, driver, start)?;
    held::delete_begun(tx, driver, first_start(before, start, past), past)
}

/// Replaces a driver's held rows near a range.
fn rewrite<S: Alter>(
    tx: &mut Transaction<'_, S>,
    driver: u32,
    start: u32,
    past: u32,
    rows: &[StoredSpan],
) -> Result<(), TableFault>
    ensures { ChangesWhere S.Store tx.old.conn tx.new.conn result (λ t. AreRowsApart (driver_rows driver t.held))
        (λ t. record t {
          held = map (row_of driver) rows.now ++ filter
              (λ r. not (is_row_near driver start past r)) t.held;
        }) }
{
    delete_near(tx, driver, start, past)?;
    spans::insert_all(tx, SpanTable::Held, driver, rows)
}

/// Withdraws one of a driver's entries, within a transaction: S4, S7, S8.
fn withdraw_one<S: Alter>(
    alloc: Global,
    tx: &mut Transaction<'_, S>,
    driver: u32,
    number: u32,
) -> Result<(), StoreFault>
    ensures { Renews S.Store driver tx.old.conn tx.new.conn result (withdraw_step driver number) }
{
    let entry = entry_with(tx, driver, number)?;
    entries::withdraw(tx, driver, number).map_err(store_fault)?;
    let rows = rows_in_place(alloc, tx, driver, entry.start, entry.past)?;
    rewrite(tx, driver, entry.start, entry.past, &rows).map_err(store_fault)
}

/// Withdraws a driver's entries from number `first` to `last`, within a transaction: S4, S7, S8.
fn withdraw_in<S: Alter>(
    alloc: Global,
    tx: &mut Transaction<'_, S>,
    driver: u32,
    first: u32,
    last: u32,
) -> Result<(), StoreFault>
    requires { first ≤ last }
    ensures { Steps S.Store tx.old.conn tx.new.conn result (λ _. tt) (withdraw_range_step driver first last) }
{
    for number in first..last {
        withdraw_one(alloc, tx, driver, number)?;
    }
    withdraw_one(alloc, tx, driver, last)
}

/// Withdraws a driver's entries from number `first` to `last`: S4, S7, S8.
#[tactic(auto, using(crate::proofs::StepsLemmas::undone_keeps))]
pub fn withdraw<S: Alter>(
    alloc: Global,
    conn: &mut Connection<S>,
    driver: u32,
    first: u32,
    last: u32,
) -> Result<(), StoreFault>
    requires settled { conn.old.in_transaction ≡ false }
    requires range { first ≤ last }
    ensures autocommit { conn.new.in_transaction ≡ false }
    ensures of_no_file { IsOfNoFile result }
    ensures acts { ActsOn S.Store (λ _. tt) conn.old conn.new result (withdraw_range_step driver first last) }
{
    act_within!(conn, tx, withdraw_in(alloc, &mut tx, driver, first, last))
}
