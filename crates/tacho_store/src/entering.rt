ghost use Rattle.std.specs.Prelude.{◌≡◌, ℕ, ◌+◌, ◌<◌, ◌^◌, ◌∷◌, ◌++◌, Some, length, map, false, IfOk};
ghost use Rattle.tacho_state.specs.Acts.{IsOfNoFile};
ghost use Rattle.tacho_state.specs.Batch.{IsBatch, entry_of, batch_of};
ghost use Rattle.tacho_state.specs.Disjoint.{AreInRange};
ghost use Rattle.tacho_state.specs.State.{Driver, driver_of, entry_span, entered_spans};
ghost use Rattle.tacho_state.specs.Steps.{enter_own, enter_step};
ghost use Rattle.tacho_tables.specs.Tables.{new_entry_row, row_of};
ghost use Rattle.tacho_tables.specs.Calls.{Changes};
ghost use Rattle.tacho_reading.specs.Calls.{Tells, Steps, StepsGiven};
ghost use Rattle.tacho_reading.specs.Kept.{ActsOn};
ghost use Rattle.tacho_reading.specs.Finding.{IsFound};
ghost use Rattle.tacho_reading.specs.Standing.{entry_row, rows_of_entries};
ghost use Rattle.tacho_store.specs.Entering.{AreNumbered, AreToEnter, enter_turn, tables_after_batch};

use crate::news::gains_of;
use crate::refusals::numbers_from;
use sqlite::{Alter, Connection, Transaction};
use std::alloc::{AllocError, Global};
use tacho_reading::act_within;
use tacho_reading::fault::store_fault;
use tacho_reading::finding::driver_with;
use tacho_reading::near::line_near;
use tacho_reading::spans::{stored, stored_row};
use tacho_state::{Entered, EntryLine, StoreFault};
use tacho_tables::entries::NewEntry;
use tacho_tables::{SpanTable, StoredSpan, TableFault, drivers, entries, spans};
use tacho_time::{Mark, Span};

/// The span that a line gives. Its mark is single.
fn span_of_line(line: &EntryLine) -> Span
    ensures { result ≡ entry_span (entry_of line.now) }
{
    Span {
        start: line.start(),
        past: line.past(),
        mark: Mark {
            activity: line.activity(),
            crew: false,
        },
    }
}

/// The spans that the lines of a batch give, one for each line.
fn spans_of_lines(alloc: Global, lines: &[EntryLine]) -> Result<Vec<Span>, AllocError>
    ensures { IfOk result (λ spans. spans.items ≡ entered_spans (batch_of lines.now)) }
{
    let mut spans = Vec::new(alloc);
    for line in lines {
        spans.push(span_of_line(line))?;
    }
    Ok(spans)
}

/// The range from the first start of a batch to its last past, or from 0 to 0 if it has no lines.
fn range_of_lines(lines: &[EntryLine]) -> (u32, u32)
    requires { IsBatch lines.now }
    ensures { AreInRange result.0 result.1 (entered_spans (batch_of lines.now)) }
{
    match (lines.first(), lines.last()) {
        (Some(first), Some(last)) => (first.start().number(), last.past().number()),
        _ => (0, 0),
    }
}

/// What a batch gives that the driver doesn't hold, computed from the rows near it: S6.
fn gains_near<S: Alter>(
    alloc: Global,
    tx: &mut Transaction<'_, S>,
    driver: u32,
    lines: &[EntryLine],
    spans: &[Span],
) -> Result<Vec<Span>, StoreFault>
    requires batch { IsBatch lines.now }
    requires spans { spans.now ≡ entered_spans (batch_of lines.now) }
    ensures { Tells S.Store tx.old.conn tx.new.conn result (λ db s. (d : Driver) → driver_of driver s ≡ Some d
        → IsFound (λ gains. AreNumbered db s driver d (batch_of lines.now) gains.items) (enter_own (batch_of lines.now) d) result) }
{
    let (start, past) = range_of_lines(lines);
    let line = line_near(alloc, tx, SpanTable::Held, driver, start, past)?;
    gains_of(alloc, &line, spans)
}

/// The new entry of a line, with its number.
fn new_entry(number: u32, line: &EntryLine) -> NewEntry<'_>
    ensures { (driver : ℕ) → new_entry_row driver result ≡ entry_row driver number (entry_of line.now) }
{
    NewEntry {
        number,
        span: stored_row(&span_of_line(line)),
        author: line.author(),
        note: line.note(),
    }
}

/// Adds a batch's lines as a driver's entries, numbered from `first`. While at least four lines remain, one statement adds four.
fn insert_lines<S: Alter>(
    tx: &mut Transaction<'_, S>,
    driver: u32,
    first: u32,
    lines: &[EntryLine],
) -> Result<(), TableFault>
    requires { first + length lines.now < 2 ^ 32 }
    ensures { Changes S.Store tx.old.conn tx.new.conn result
        (λ a. record a { entries = rows_of_entries driver first (batch_of lines.now) ++ a.entries }) }
{
    let (fours, rest) = lines.as_chunks::<4>();
    let mut number = first;
    for [a, b, c, d] in fours {
        let four = [
            new_entry(number, a),
            new_entry(number + 1, b),
            new_entry(number + 2, c),
            new_entry(number + 3, d),
        ];
        entries::insert_four(tx, driver, &four)?;
        number += 4;
    }
    for line in rest {
        entries::insert(tx, driver, &new_entry(number, line))?;
        number += 1;
    }
    Ok(())
}

/// Writes a batch: the driver's new count of entries, the rows of the lines, numbered from `first`, and the rows of what the driver holds
/// in addition.
fn write_batch<S: Alter>(
    tx: &mut Transaction<'_, S>,
    driver: u32,
    first: u32,
    count: u32,
    lines: &[EntryLine],
    helds: &[StoredSpan],
) -> Result<(), TableFault>
    requires { first + length lines.now < 2 ^ 32 }
    ensures { Changes S.Store tx.old.conn tx.new.conn result
        (tables_after_batch driver count (rows_of_entries driver first (batch_of lines.now)) (map (row_of driver) helds.now)) }
{
    drivers::set_entries(tx, driver, count)?;
    insert_lines(tx, driver, first, lines)?;
    spans::insert_all(tx, SpanTable::Held, driver, helds)
}

/// Adds the lines of a batch to a driver who has `given` entries: S14. Allocates all memory before the first write.
fn add_batch<S: Alter>(
    alloc: Global,
    tx: &mut Transaction<'_, S>,
    driver: u32,
    given: u32,
    lines: &[EntryLine],
    gains: &[Span],
) -> Result<Entered, StoreFault>
    ensures steps { StepsGiven S.Store tx.old.conn tx.new.conn result (AreToEnter driver given lines.now gains.now)
        (λ done. done.first) (enter_turn lines.now) }
    ensures count { IfOk result (λ done. done.count ≡ length lines.now) }
{
    let first = numbers_from(given, lines.len())?;
    let count = lines.len() as u32;
    let helds = stored(alloc, gains)?;
    write_batch(tx, driver, first, given + count, lines, &helds).map_err(store_fault)?;
    Ok(Entered { first, count })
}

/// Enters a batch, within a transaction: S4, S6, S14.
fn enter_in<S: Alter>(
    alloc: Global,
    tx: &mut Transaction<'_, S>,
    driver: u32,
    lines: &[EntryLine],
) -> Result<Entered, StoreFault>
    requires { IsBatch lines.now }
    ensures steps { Steps S.Store tx.old.conn tx.new.conn result
        (λ done. done.first) (enter_step driver (batch_of lines.now)) }
    ensures count { IfOk result (λ done. done.count ≡ length lines.now) }
{
    let found = driver_with(tx, driver)?;
    let spans = spans_of_lines(alloc, lines)?;
    let gains = gains_near(alloc, tx, driver, lines, &spans)?;
    add_batch(alloc, tx, driver, found.entries, lines, &gains)
}

/// Enters a batch of hours: S4, S6, S14.
#[tactic(auto, using(crate::proofs::StepsLemmas::undone_keeps))]
pub fn enter<S: Alter>(
    alloc: Global,
    conn: &mut Connection<S>,
    driver: u32,
    lines: &[EntryLine],
) -> Result<Entered, StoreFault>
    requires open { conn.old.in_transaction ≡ false }
    requires batch { IsBatch lines.now }
    ensures autocommit { conn.new.in_transaction ≡ false }
    ensures of_no_file { IsOfNoFile result }
    ensures acts { ActsOn S.Store (λ done. done.first) conn.old conn.new result (enter_step driver (batch_of lines.now)) }
    ensures count { IfOk result (λ done. done.count ≡ length lines.now) }
{
    act_within!(conn, tx, enter_in(alloc, &mut tx, driver, lines))
}
