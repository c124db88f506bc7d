//! The judgement of one driver, from their stored rows as they were read.

ghost use Rattle.std.specs.Prelude.{◌≡◌, ◌↔◌, ℕ, ℤ, pos, List, [], IfOk, IsTrue};
ghost use Rattle.sqlite.specs.Order.{Row as Values};
ghost use Rattle.sqlite.specs.Tree.{Trees};
ghost use Rattle.tacho_tables.specs.Ask.{LearnsIfReadable, own_in, three_shown, seven_shown};
ghost use Rattle.tacho_tables.specs.Readable.{IsReadable};
ghost use Rattle.tacho_tables.specs.Rows.{DriverRow};
ghost use Rattle.tacho_tables.specs.Schema.{Layout, downloads as download_table, spans as span_table, entry_rows as entry_table};
ghost use Rattle.tacho_tables.specs.declared.table.TableName.{TableName as Name};
ghost use Rattle.tacho_check.specs.Judged.{IsAgreed, AreAgreed, AreDownloads, AreEntries, AreKept, IsReadDriver, IsJudged};
ghost use Rattle.tacho_check.specs.Own.{AreOwnRows};
ghost use Rattle.tacho_check.specs.Typed.{AreShown};

use crate::files::{FileRow, given_by};
use crate::hours::{HoursRow, enter};
use crate::keeping::{canonical, keeps};
use crate::own::{OwnRows, read_own};
use crate::parsing::{counted, parsed};
use crate::registered::{Basis, basis_of};
use sqlite::{Alter, Row, Transaction};
use std::alloc::Global;
use tacho_tables::{TableFault, TableName};
use tacho_time::Span;

/// Returns the spans, if they give no minute two marks.
fn agreed(alloc: Global, spans: Vec<Span>) -> Result<Option<Vec<Span>>, TableFault>
    ensures { IfOk result (IsAgreed spans.items) }
{
    let list = canonical(alloc, &spans)?;
    match list {
        Some(_) => Ok(Some(spans)),
        None => Ok(None),
    }
}

/// Returns what card files of a holder give together, if they give no minute two marks.
#[tactic(auto, using(crate::proofs::AgreedLemmas::unread_agree, crate::proofs::AgreedLemmas::given_agree))]
fn agreed_files(
    alloc: Global,
    holder: &[u8],
    files: &[FileRow],
) -> Result<Option<Vec<Span>>, TableFault>
    ensures { IfOk result (AreAgreed holder.now files.now) }
{
    let found = given_by(alloc, holder, files)?;
    match found {
        None => Ok(None),
        Some(given) => agreed(alloc, given),
    }
}

/// Returns what a driver's downloads give; none if a driver with this holder and count can't have these rows.
fn downloaded(
    alloc: Global,
    holder: &[u8],
    count: u64,
    rows: &[Row],
) -> Result<Option<Vec<Span>>, TableFault>
    ensures { IfOk result (λ given. (n : ℕ) (own : List Values) → AreShown n download_table.columns three_shown own rows.now
        → AreDownloads n holder.now count own given) }
{
    let found = counted(alloc, rows, count)?;
    match found {
        None => Ok(None),
        Some(files) => agreed_files(alloc, holder, &files),
    }
}

/// Returns true if rows of spans keep exactly what others give.
fn kept(alloc: Global, rows: &[Row], given: &[Span]) -> Result<bool, TableFault>
    ensures { IfOk result (λ kept. (n : ℕ) (own : List Values) → AreShown n (span_table []).columns three_shown own rows.now
        → (IsTrue kept ↔ AreKept n own given.now)) }
{
    let found = parsed(alloc, rows)?;
    match found {
        None => Ok(false),
        Some(spans) => keeps(alloc, &spans, given),
    }
}

/// Returns what downloads and entries give together; none if a driver with this count of entries can't have these rows of entries.
fn held_by(
    alloc: Global,
    count: u64,
    rows: &[Row],
    given: Vec<Span>,
) -> Result<Option<Vec<Span>>, TableFault>
    ensures { IfOk result (λ all. (n : ℕ) (own : List Values) → AreShown n entry_table.columns seven_shown own rows.now
        → AreEntries n count own given.items all) }
{
    let found = counted::<HoursRow>(alloc, rows, count)?;
    let Some(hours) = found else {
        return Ok(None);
    };
    let mut all = given;
    enter(&mut all, &hours)?;
    agreed(alloc, all)
}

/// Returns the first table whose rows aren't those of a state within its limits, for a driver with a row in `drivers`.
fn first_wrong(alloc: Global, basis: Basis, rows: &OwnRows) -> Result<Option<TableName>, TableFault>
    ensures { IfOk result (λ found. (own : Name → List Values) (r : DriverRow) → IsReadDriver own r basis rows.now
        → IsJudged own (pos r.driver) found) }
{
    let downloads = downloaded(alloc, &basis.holder, basis.downloads, &rows.downloads)?;
    let Some(given) = downloads else {
        return Ok(Some(TableName::Downloads));
    };
    if !kept(alloc, &rows.card_spans, &given)? {
        return Ok(Some(TableName::CardSpans));
    }
    let together = held_by(alloc, basis.entries, &rows.entry_rows, given)?;
    let Some(all) = together else {
        return Ok(Some(TableName::EntryRows));
    };
    if !kept(alloc, &rows.held, &all)? {
        return Ok(Some(TableName::Held));
    }
    Ok(None)
}

/// Returns the first table that has rows, for a driver without a row in `drivers`.
fn first_with_rows(rows: &OwnRows) -> Option<TableName>
    ensures { (own : Name → List Values) (n : ℤ) → own TableName.Drivers ≡ [] → AreOwnRows own rows.now → IsJudged own n result }
{
    if !rows.downloads.is_empty() {
        Some(TableName::Downloads)
    } else if !rows.card_spans.is_empty() {
        Some(TableName::CardSpans)
    } else if !rows.entry_rows.is_empty() {
        Some(TableName::EntryRows)
    } else if !rows.held.is_empty() {
        Some(TableName::Held)
    } else {
        None
    }
}

/// Returns the first table at which no state within its limits has a driver's rows, or none.
fn judge(alloc: Global, rows: &OwnRows) -> Result<Option<TableName>, TableFault>
    ensures { IfOk result (λ found. (layout : Layout) (db : Trees) (n : ℤ) → IsReadable layout db
        → AreOwnRows (own_in layout db n) rows.now → IsJudged (own_in layout db n) n found) }
{
    match rows.drivers.as_slice() {
        [] => Ok(first_with_rows(rows)),
        [row] => match basis_of(row) {
            None => Ok(Some(TableName::Drivers)),
            Some(basis) => first_wrong(alloc, basis, rows),
        },
        _ => Ok(Some(TableName::Drivers)),
    }
}

/// Judges the stored rows of a driver: returns the first table at which no state within its limits has them, or none.
pub fn judge_driver<S: Alter>(
    alloc: Global,
    tx: &mut Transaction<'_, S>,
    driver: i64,
) -> Result<Option<TableName>, TableFault>
    ensures { LearnsIfReadable S.Store tx.old.conn tx.new.conn result (λ layout db found. IsJudged (own_in layout db driver) driver found) }
{
    let rows = read_own(tx, driver)?;
    judge(alloc, &rows)
}
