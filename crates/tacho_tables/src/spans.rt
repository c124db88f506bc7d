//! The rows of the two tables of spans.

ghost use Rattle.std.specs.Prelude.{◌≡◌, ◌++◌, ◌∷◌, map, filter, IsPermutation, MatchOption, []};
ghost use Rattle.tacho_tables.specs.Rows.{SpanRow};
ghost use Rattle.tacho_tables.specs.Calls.{Finds, Changes};
ghost use Rattle.tacho_tables.specs.Tables.{IsLatest, is_before, is_begun, row_of, span_of};
ghost use Rattle.tacho_tables.specs.Spans.{spans_in, with_span_rows, before_text, begun_text, insert_text, eight_text};

use crate::fault::TableFault;
use crate::rows::{StoredSpan, all, first};
use crate::statement::run;
use sqlite::{Alter, Transaction, params};
use std::alloc::Global;

/// A table of drivers' spans.
#[derive(Clone, Copy, Debug, PartialEq, Eq)]
pub enum SpanTable {
    /// `card_spans`: the spans that accepted downloads give.
    CardSpans,
    /// `held`: the spans that a driver holds.
    Held,
}

impl SpanTable {
    /// The SQL that reads the latest span that begins before a minute.
    fn before_text(self) -> &'static str
        ensures { result.now ≡ before_text self }
    {
        match self {
            SpanTable::CardSpans => {
                "SELECT start, past, mark FROM card_spans WHERE driver = ?1 AND start < ?2 ORDER BY start DESC LIMIT 1"
            }
            SpanTable::Held => {
                "SELECT start, past, mark FROM held WHERE driver = ?1 AND start < ?2 ORDER BY start DESC LIMIT 1"
            }
        }
    }

    /// The SQL that reads the spans that begin in a range.
    fn begun_text(self) -> &'static str
        ensures { result.now ≡ begun_text self }
    {
        match self {
            SpanTable::CardSpans => {
                "SELECT start, past, mark FROM card_spans WHERE driver = ?1 AND ?2 <= start AND start < ?3 ORDER BY start"
            }
            SpanTable::Held => {
                "SELECT start, past, mark FROM held WHERE driver = ?1 AND ?2 <= start AND start < ?3 ORDER BY start"
            }
        }
    }

    /// The SQL that adds a span.
    fn insert_text(self) -> &'static str
        ensures { result.now ≡ insert_text self }
    {
        match self {
            SpanTable::CardSpans => {
                "INSERT INTO card_spans (driver, start, past, mark) VALUES (?1, ?2, ?3, ?4)"
            }
            SpanTable::Held => {
                "INSERT INTO held (driver, start, past, mark) VALUES (?1, ?2, ?3, ?4)"
            }
        }
    }

    /// The SQL that adds eight spans.
    fn eight_text(self) -> &'static str
        ensures { result.now ≡ eight_text self }
    {
        match self {
            SpanTable::CardSpans => {
                "INSERT INTO card_spans (driver, start, past, mark) VALUES (?1, ?2, ?3, ?4), (?1, ?5, ?6, ?7), (?1, ?8, ?9, ?10), (?1, ?11, ?12, ?13), (?1, ?14, ?15, ?16), (?1, ?17, ?18, ?19), (?1, ?20, ?21, ?22), (?1, ?23, ?24, ?25)"
            }
            SpanTable::Held => {
                "INSERT INTO held (driver, start, past, mark) VALUES (?1, ?2, ?3, ?4), (?1, ?5, ?6, ?7), (?1, ?8, ?9, ?10), (?1, ?11, ?12, ?13), (?1, ?14, ?15, ?16), (?1, ?17, ?18, ?19), (?1, ?20, ?21, ?22), (?1, ?23, ?24, ?25)"
            }
        }
    }
}

/// Reads the latest of a driver's spans that begin before a minute, if there is one.
pub fn last_before<S: Alter>(
    tx: &mut Transaction<'_, S>,
    table: SpanTable,
    driver: u32,
    minute: u32,
) -> Result<Option<StoredSpan>, TableFault>
    ensures { Finds S.Store tx.old.conn tx.new.conn result
        (λ a found. MatchOption found (filter (is_before driver minute) (spans_in table a) ≡ []) (λ span. (r : SpanRow)
        × IsLatest r (filter (is_before driver minute) (spans_in table a)) × (span ≡ span_of r))) }
{
    first(tx, table.before_text(), params![driver, minute])
}

/// Reads the spans of a driver that begin from `start` to before `past`.
pub fn begun<S: Alter>(
    alloc: Global,
    tx: &mut Transaction<'_, S>,
    table: SpanTable,
    driver: u32,
    start: u32,
    past: u32,
) -> Result<Vec<StoredSpan>, TableFault>
    ensures { Finds S.Store tx.old.conn tx.new.conn result
        (λ a found. IsPermutation (map span_of (filter (is_begun driver start past) (spans_in table a))) found.items) }
{
    all(alloc, tx, table.begun_text(), params![driver, start, past])
}

/// Adds a span to a driver.
fn insert<S: Alter>(
    tx: &mut Transaction<'_, S>,
    table: SpanTable,
    driver: u32,
    span: &StoredSpan,
) -> Result<(), TableFault>
    ensures { Changes S.Store tx.old.conn tx.new.conn result
        (λ a. with_span_rows table (row_of driver span.now ∷ spans_in table a) a) }
{
    run(
        tx,
        table.insert_text(),
        params![driver, span.start, span.past, span.mark],
    )
}

/// Adds eight spans to a driver in one statement.
fn insert_eight<S: Alter>(
    tx: &mut Transaction<'_, S>,
    table: SpanTable,
    driver: u32,
    spans: &[StoredSpan; 8],
) -> Result<(), TableFault>
    ensures { Changes S.Store tx.old.conn tx.new.conn result
        (λ a. with_span_rows table (map (row_of driver) spans.now ++ spans_in table a) a) }
{
    let [a, b, c, d, e, f, g, h] = spans;
    run(
        tx,
        table.eight_text(),
        params![
            driver, a.start, a.past, a.mark, b.start, b.past, b.mark, c.start, c.past, c.mark,
            d.start, d.past, d.mark, e.start, e.past, e.mark, f.start, f.past, f.mark, g.start,
            g.past, g.mark, h.start, h.past, h.mark
        ],
    )
}

/// Adds spans to a driver, eight per statement while eight are left, then one per statement.
pub fn insert_all<S: Alter>(
    tx: &mut Transaction<'_, S>,
    table: SpanTable,
    driver: u32,
    spans: &[StoredSpan],
) -> Result<(), TableFault>
    ensures { Changes S.Store tx.old.conn tx.new.conn result
        (λ a. with_span_rows table (map (row_of driver) spans.now ++ spans_in table a) a) }
{
    let (eights, rest) = spans.as_chunks::<8>();
    for eight in eights {
        insert_eight(tx, table, driver, eight)?;
    }
    for span in rest {
        insert(tx, table, driver, span)?;
    }
    Ok(())
}
