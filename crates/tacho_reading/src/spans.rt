ghost use Rattle.std.specs.Prelude.{◌≡◌, ◌↔◌, ◌<◌, ◌≤◌, ℕ, All, Err, map, IfOk, IfErr, IfSome, IsNone};
ghost use Rattle.tacho_time.specs.OrMemory.{OrMemory};
ghost use Rattle.tacho_time.specs.Spans.{Gives, IsCanonical, IsCanonicalOf};
ghost use Rattle.tacho_state.specs.Disjoint.{AreInRange};
ghost use Rattle.tacho_state.specs.Summaries.{told_summary};
ghost use Rattle.tacho_tables.specs.Tables.{row_of, told_driver, told_entry};
ghost use Rattle.tacho_reading.specs.Standing.{stored_span, span_row, listed_as, summary_of_listed, HasBaseDay, IsFit, IsListed, HaveNoLine};

use std::alloc::{AllocError, Global};
use tacho_line::Line;
use tacho_state::{
    DriverSummary, Entry, EntryLine, StoreFault, activity_of, line_of, mark_of, number_of_mark,
};
use tacho_tables::{StoredDriver, StoredEntry, StoredSpan};
use tacho_time::{Day, GREATEST_DAY, GREATEST_MINUTE, Minute, Span, SpanFault};

/// Returns the minute with this number, if there is one.
pub fn minute_of(number: u32) -> Option<Minute>
    ensures some { IfSome result (λ minute. minute ≡ number) }
    ensures none { IsNone result ↔ (GREATEST_MINUTE < number) }
{
    if number > GREATEST_MINUTE {
        return None;
    }
    Some(Minute::new(number))
}

/// Returns the span of a stored row, if an archive can have written the row.
pub fn span_of(row: &StoredSpan) -> Option<Span>
    ensures some { IfSome result (λ span. span ≡ stored_span row.now) }
    ensures none { IsNone result ↔ (¬ IsFit row.now) }
{
    Some(Span {
        start: minute_of(row.start)?,
        past: minute_of(row.past)?,
        mark: mark_of(u64::from(row.mark))?,
    })
}

/// Returns the spans of stored rows. A row that no archive writes is a store failure.
pub fn spans_of(alloc: Global, rows: &[StoredSpan]) -> Result<Vec<Span>, StoreFault>
    ensures spans { IfOk result (λ spans. spans.items ≡ map stored_span rows.now) }
    ensures fault { IfErr result (λ fault. OrMemory StoreFault.Memory fault (fault ≡ StoreFault.Store)) }
    ensures cause { result ≡ Err StoreFault.Store → ¬ All IsFit rows.now }
{
    let mut spans = Vec::new(alloc);
    for row in rows {
        let Some(span) = span_of(row) else {
            return Err(StoreFault::Store);
        };
        spans.push(span)?;
    }
    Ok(spans)
}

/// Returns the fault of stored rows, from the fault of their spans.
pub fn fault_of_rows(fault: SpanFault) -> StoreFault
    ensures cause { OrMemory StoreFault.Memory result
        ((result ≡ StoreFault.Store) × ((minute : ℕ) × (fault ≡ SpanFault.Contradiction minute))) }
    ensures contradiction { (minute : ℕ) → fault ≡ SpanFault.Contradiction minute → result ≡ StoreFault.Store }
{
    match fault {
        SpanFault::Contradiction(_) => StoreFault::Store,
        SpanFault::Memory => StoreFault::Memory,
    }
}

/// Returns the line of stored rows, in any order. A row that no archive writes (a minute past 68,428,800, a mark over 7), or two rows that
/// contradict, are a store failure.
pub fn line_of_stored(alloc: Global, rows: &[StoredSpan]) -> Result<Line, StoreFault>
    ensures line { IfOk result (λ line. IsCanonicalOf (Gives (map stored_span rows.now)) line) }
    ensures fault { IfErr result (λ fault. OrMemory StoreFault.Memory fault (fault ≡ StoreFault.Store)) }
    ensures cause { result ≡ Err StoreFault.Store → HaveNoLine rows.now }
{
    let spans = spans_of(alloc, rows)?;
    match line_of(alloc, &spans) {
        Ok(line) => Ok(line),
        Err(fault) => Err(fault_of_rows(fault)),
    }
}

/// Returns the entry of a stored row, if an archive can have written the row.
fn listed_entry(row: StoredEntry) -> Option<Entry>
    ensures some { IfSome result (λ entry. entry ≡ listed_as (told_entry row)) }
    ensures none { IsNone result ↔ (¬ IsListed (told_entry row)) }
{
    let start = minute_of(row.start)?;
    let past = minute_of(row.past)?;
    if row.mark >= 4 {
        return None;
    }
    let activity = activity_of(u64::from(row.mark));
    let Ok(line) = EntryLine::new(start, past, activity, row.author, row.note) else {
        return None;
    };
    Some(Entry {
        number: row.number,
        line,
        withdrawn: row.withdrawn != 0,
    })
}

/// Returns the entries of stored rows. A row that no archive writes is a store failure.
pub fn listed_entries(alloc: Global, rows: Vec<StoredEntry>) -> Result<Vec<Entry>, StoreFault>
    ensures entries { IfOk result (λ entries. entries.items ≡ map listed_as (map told_entry rows.items)) }
    ensures fault { IfErr result (λ fault. OrMemory StoreFault.Memory fault (fault ≡ StoreFault.Store)) }
    ensures cause { result ≡ Err StoreFault.Store → ¬ All IsListed (map told_entry rows.items) }
{
    let mut entries = Vec::new(alloc);
    for row in rows {
        let Some(entry) = listed_entry(row) else {
            return Err(StoreFault::Store);
        };
        entries.push(entry)?;
    }
    Ok(entries)
}

/// Returns the day with this number, if there is one.
fn day_of(number: u32) -> Option<Day>
    ensures some { IfSome result (λ day. day ≡ number) }
    ensures none { IsNone result ↔ (GREATEST_DAY < number) }
{
    if number > GREATEST_DAY {
        return None;
    }
    Some(Day::new(number))
}

/// Returns what is listed of a stored driver, if an archive can have written the row.
pub(crate) fn summary_of(row: StoredDriver) -> Option<DriverSummary>
    ensures some { IfSome result (λ summary. told_summary summary ≡ summary_of_listed (told_driver row)) }
    ensures none { IsNone result ↔ (¬ HasBaseDay (told_driver row)) }
{
    Some(DriverSummary {
        number: row.number,
        holder: row.holder,
        base: day_of(row.base)?,
        downloads: row.downloads,
        entries: row.entries,
        name: row.name,
    })
}

/// Returns what is listed of stored drivers. A row that no archive writes is a store failure.
pub fn summaries_of(
    alloc: Global,
    rows: Vec<StoredDriver>,
) -> Result<Vec<DriverSummary>, StoreFault>
    ensures drivers { IfOk result (λ drivers. map told_summary drivers.items ≡ map summary_of_listed (map told_driver rows.items)) }
    ensures fault { IfErr result (λ fault. OrMemory StoreFault.Memory fault (fault ≡ StoreFault.Store)) }
    ensures cause { result ≡ Err StoreFault.Store → ¬ All HasBaseDay (map told_driver rows.items) }
{
    let mut drivers = Vec::new(alloc);
    for row in rows {
        let Some(summary) = summary_of(row) else {
            return Err(StoreFault::Store);
        };
        drivers.push(summary)?;
    }
    Ok(drivers)
}

/// Returns the stored form of a span.
pub fn stored_row(span: &Span) -> StoredSpan
    ensures { (n : ℕ) → row_of n result ≡ span_row n span.now }
{
    StoredSpan {
        start: span.start.number(),
        past: span.past.number(),
        mark: number_of_mark(span.mark),
    }
}

/// Returns the stored form of spans.
pub fn stored(alloc: Global, spans: &[Span]) -> Result<Vec<StoredSpan>, AllocError>
    ensures { IfOk result (λ rows. (n : ℕ) → map (row_of n) rows.items ≡ map (span_row n) spans.now) }
{
    let mut rows = Vec::new(alloc);
    for span in spans {
        rows.push(stored_row(span))?;
    }
    Ok(rows)
}

/// Returns the range from the first minute of canonical spans to before the past of the last, or 0 and 0 if there are none.
pub fn range_of(spans: &[Span]) -> (u32, u32)
    requires { IsCanonical spans.now }
    ensures { AreInRange result.0 result.1 spans.now }
{
    match (spans.first(), spans.last()) {
        (Some(first), Some(last)) => (first.start.number(), last.past.number()),
        _ => (0, 0),
    }
}
