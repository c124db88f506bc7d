ghost use Rattle.std.specs.Prelude.{◌≡◌};

use crate::same::assert_same;
use sqlite::{Alter, Connection, Transaction};
use std::alloc::Global;
use std::process::Abort;
use std::test::Fail;
use tacho_tables::entries::NewEntry;
use tacho_tables::{
    SpanTable, StoredDriver, StoredEntry, StoredFile, StoredSpan, TableFault, downloads, drivers,
    entries, held, making, spans,
};

/// Makes a span for a test.
fn span(start: u32, past: u32, mark: u32) -> StoredSpan
    ensures { result ≡ record { start = start; past = past; mark = mark } }
{
    StoredSpan { start, past, mark }
}

/// Makes a new entry for a test.
fn new_entry<'a>(number: u32, span: StoredSpan, author: &'a str, note: &'a str) -> NewEntry<'a> {
    NewEntry {
        number,
        span,
        author,
        note,
    }
}

#[test]
fn version_is_two_once_made(rt: HostRuntime) -> Result<(), Fail> {
    let mut conn = Connection::open_in_memory(rt.alloc())?;
    let mut tx = conn.transaction();
    assert_same(&rt, making::version(&mut tx), Err(TableFault::Store));
    making::make_all(&mut tx)?;
    assert_same(&rt, making::version(&mut tx)?, Some(2));
    Ok(())
}

#[test]
fn drivers_are_found_and_changed(rt: HostRuntime) -> Result<(), Fail> {
    let mut conn = Connection::open_in_memory(rt.alloc())?;
    let mut tx = conn.transaction();
    making::make_all(&mut tx)?;
    drivers::insert(&mut tx, 17, &[0x0d, 0x44], "anna-key-1", 19_786, "Anna")?;
    drivers::insert(&mut tx, 18, &[0x0d, 0x45], "bert-key-1", 19_787, "Bert")?;
    let secret = drivers::secret_of(&mut tx, 18)?;
    assert!(&rt;
        secret.is_some_and(|secret| secret.as_str() == "bert-key-1"),
        "Bert"
    );
    assert!(&rt; drivers::secret_of(&mut tx, 19)?.is_none(), "nobody");
    assert_same(
        &rt,
        drivers::number_by_secret(&mut tx, b"bert-key-1")?,
        Some(18),
    );
    assert_same(
        &rt,
        drivers::number_by_secret(&mut tx, b"bert-key-2")?,
        None,
    );
    assert_same(
        &rt,
        drivers::number_by_holder(&mut tx, &[0x0d, 0x44])?,
        Some(17),
    );
    assert_same(&rt, drivers::number_by_holder(&mut tx, &[0x0d])?, None);
    drivers::set_base(&mut tx, 17, 19_790)?;
    drivers::set_downloads(&mut tx, 18, 2)?;
    assert!(rt;
        is_driver(
            drivers::by_number(&mut tx, 17)?,
            &[0x0d, 0x44],
            19_790,
            "Anna",
            0
        )
    );
    assert!(rt;
        is_driver(
            drivers::by_number(&mut tx, 18)?,
            &[0x0d, 0x45],
            19_787,
            "Bert",
            2
        )
    );
    assert!(rt; drivers::by_number(&mut tx, 19)?.is_none());
    Ok(())
}

/// True if there is a driver with these values, without entries.
fn is_driver(
    found: Option<StoredDriver>,
    holder: &[u8],
    base: u32,
    name: &str,
    count: u32,
) -> bool {
    match found {
        None => false,
        Some(driver) => {
            driver.holder.as_slice() == holder
                && driver.base == base
                && driver.name.as_str() == name
                && driver.downloads == count
                && driver.entries == 0
        }
    }
}

#[test]
fn keys_are_changed_but_never_shared(rt: HostRuntime) -> Result<(), Fail> {
    let mut conn = Connection::open_in_memory(rt.alloc())?;
    let mut tx = conn.transaction();
    making::make_all(&mut tx)?;
    drivers::insert(&mut tx, 17, &[0x0d, 0x44], "anna-key-1", 19_786, "Anna")?;
    drivers::insert(&mut tx, 18, &[0x0d, 0x45], "bert-key-1", 19_787, "Bert")?;
    drivers::set_key(&mut tx, 18, "bert-key-2")?;
    drivers::set_key(&mut tx, 17, "anna-key-1")?;
    assert_same(
        &rt,
        drivers::set_key(&mut tx, 18, "anna-key-1"),
        Err(TableFault::Store),
    );
    assert_same(
        &rt,
        drivers::number_by_secret(&mut tx, b"anna-key-1")?,
        Some(17),
    );
    assert_same(
        &rt,
        drivers::number_by_secret(&mut tx, b"bert-key-1")?,
        None,
    );
    assert_same(
        &rt,
        drivers::number_by_secret(&mut tx, b"bert-key-2")?,
        Some(18),
    );
    Ok(())
}

#[test]
fn held_spans_by_where_they_begin(rt: HostRuntime) -> Result<(), Fail> {
    let alloc = rt.alloc();
    let mut conn = Connection::open_in_memory(alloc)?;
    let mut tx = conn.transaction();
    making::make_all(&mut tx)?;
    drivers::insert(&mut tx, 17, &[0x0d, 0x44], "anna-key-1", 19_786, "Anna")?;
    spans::insert_all(
        &mut tx,
        SpanTable::Held,
        17,
        &[span(300, 400, 1), span(100, 200, 3), span(200, 210, 2)],
    )?;
    let middle = spans::begun(alloc, &mut tx, SpanTable::Held, 17, 200, 300)?;
    assert_same(&rt, middle.as_slice(), [span(200, 210, 2)].as_slice());
    let all = spans::begun(alloc, &mut tx, SpanTable::Held, 17, 100, 301)?;
    assert_same(
        &rt,
        all.as_slice(),
        [span(100, 200, 3), span(200, 210, 2), span(300, 400, 1)].as_slice(),
    );
    assert!(rt; spans::begun(alloc, &mut tx, SpanTable::Held, 18, 100, 301)?.is_empty());
    assert!(rt; spans::begun(alloc, &mut tx, SpanTable::CardSpans, 17, 100, 301)?.is_empty());
    Ok(())
}

/// Asserts that spans are added to both tables, each once.
fn assert_added(rt: &impl Abort, alloc: Global, all: &[StoredSpan]) -> Result<(), Fail> {
    let mut conn = Connection::open_in_memory(alloc)?;
    let mut tx = conn.transaction();
    making::make_all(&mut tx)?;
    drivers::insert(&mut tx, 17, &[0x0d, 0x44], "anna-key-1", 19_786, "Anna")?;
    spans::insert_all(&mut tx, SpanTable::Held, 17, all)?;
    spans::insert_all(&mut tx, SpanTable::CardSpans, 17, all)?;
    let held = spans::begun(alloc, &mut tx, SpanTable::Held, 17, 0, 1_000)?;
    assert!(rt; held.as_slice() == all);
    let given = spans::begun(alloc, &mut tx, SpanTable::CardSpans, 17, 0, 1_000)?;
    assert!(rt; given.as_slice() == all);
    Ok(())
}

// Eight spans are added by one statement.
#[test]
fn as_many_spans_are_added_as_are_given(rt: HostRuntime) -> Result<(), Fail> {
    let all = [
        span(0, 9, 0),
        span(10, 19, 1),
        span(20, 29, 2),
        span(30, 39, 3),
        span(40, 49, 4),
        span(50, 59, 5),
        span(60, 69, 6),
        span(70, 79, 7),
        span(80, 89, 0),
        span(90, 99, 1),
        span(100, 109, 2),
        span(110, 119, 3),
        span(120, 129, 4),
        span(130, 139, 5),
        span(140, 149, 6),
        span(150, 159, 7),
        span(160, 169, 0),
    ];
    assert_added(&rt, rt.alloc(), &all[..8])?;
    assert_added(&rt, rt.alloc(), &all[..9])?;
    assert_added(&rt, rt.alloc(), &all)
}

#[test]
fn the_latest_span_before_a_minute(rt: HostRuntime) -> Result<(), Fail> {
    let mut conn = Connection::open_in_memory(rt.alloc())?;
    let mut tx = conn.transaction();
    making::make_all(&mut tx)?;
    drivers::insert(&mut tx, 17, &[0x0d, 0x44], "anna-key-1", 19_786, "Anna")?;
    let spans = [span(300, 400, 1), span(100, 200, 3), span(200, 210, 2)];
    spans::insert_all(&mut tx, SpanTable::Held, 17, &spans)?;
    spans::insert_all(&mut tx, SpanTable::CardSpans, 17, &spans[1..])?;
    assert_same(
        &rt,
        spans::last_before(&mut tx, SpanTable::Held, 17, 100)?,
        None,
    );
    assert_same(
        &rt,
        spans::last_before(&mut tx, SpanTable::Held, 17, 101)?,
        Some(span(100, 200, 3)),
    );
    assert_same(
        &rt,
        spans::last_before(&mut tx, SpanTable::Held, 17, 300)?,
        Some(span(200, 210, 2)),
    );
    assert_same(
        &rt,
        spans::last_before(&mut tx, SpanTable::Held, 17, 900)?,
        Some(span(300, 400, 1)),
    );
    assert_same(
        &rt,
        spans::last_before(&mut tx, SpanTable::Held, 18, 900)?,
        None,
    );
    assert_same(
        &rt,
        spans::last_before(&mut tx, SpanTable::CardSpans, 17, 900)?,
        Some(span(200, 210, 2)),
    );
    Ok(())
}

#[test]
fn card_spans_and_a_download(rt: HostRuntime) -> Result<(), Fail> {
    let mut conn = Connection::open_in_memory(rt.alloc())?;
    let mut tx = conn.transaction();
    making::make_all(&mut tx)?;
    drivers::insert(&mut tx, 17, &[0x0d, 0x44], "anna-key-1", 19_786, "Anna")?;
    spans::insert_all(
        &mut tx,
        SpanTable::CardSpans,
        17,
        &[span(100, 200, 3), span(200, 210, 2)],
    )?;
    let first = spans::begun(rt.alloc(), &mut tx, SpanTable::CardSpans, 17, 0, 200)?;
    assert_same(&rt, first.as_slice(), [span(100, 200, 3)].as_slice());
    downloads::insert(&mut tx, 17, 1, 0, &[1, 2, 3])?;
    downloads::insert(&mut tx, 17, 2, 2, &[4])?;
    assert!(rt; is_file(downloads::file(&mut tx, 17, 1)?, 0, &[1, 2, 3]));
    assert!(rt; is_file(downloads::file(&mut tx, 17, 2)?, 2, &[4]));
    assert!(rt; downloads::file(&mut tx, 17, 3)?.is_none());
    assert_same(
        &rt,
        downloads::insert(&mut tx, 18, 1, 0, &[1]),
        Err(TableFault::Store),
    );
    Ok(())
}

/// True if there is a file with this part and these bytes.
fn is_file(found: Option<StoredFile>, part: u32, bytes: &[u8]) -> bool {
    match found {
        None => false,
        Some(stored) => stored.part == part && stored.file.as_slice() == bytes,
    }
}

// `checks/failing_tables.py` runs it with each allocation refused in turn.
#[test]
fn a_reading_is_right_or_fails(rt: HostRuntime) -> Result<(), Fail> {
    let mut conn = Connection::open_in_memory(rt.alloc())?;
    let mut tx = conn.transaction();
    making::make_all(&mut tx)?;
    drivers::insert(&mut tx, 17, &[0x0d, 0x44], "anna-key-1", 19_786, "Anna")?;
    spans::insert_all(
        &mut tx,
        SpanTable::Held,
        17,
        &[span(300, 400, 1), span(100, 200, 3)],
    )?;
    downloads::insert(&mut tx, 17, 1, 0, &[1, 2, 3])?;
    tx.commit()?;
    let mut tx = conn.transaction();
    assert!(rt; has_right_spans(rt.alloc(), &mut tx));
    assert!(rt; has_right_file(&mut tx));
    tx.rollback();
    let mut tx = conn.transaction();
    assert!(rt; has_right_spans(rt.alloc(), &mut tx));
    assert!(rt; has_right_file(&mut tx));
    Ok(())
}

/// True if the spans that are read are those of the test, or can't be read.
fn has_right_spans<S: Alter>(alloc: Global, tx: &mut Transaction<'_, S>) -> bool
    ensures { tx.new.conn.ghost_name ≡ tx.old.conn.ghost_name }
{
    match spans::begun(alloc, tx, SpanTable::Held, 17, 100, 301) {
        Ok(spans) => spans.as_slice() == [span(100, 200, 3), span(300, 400, 1)].as_slice(),
        Err(_) => true,
    }
}

/// True if the file that is read is that of the test, or can't be read.
fn has_right_file<S: Alter>(tx: &mut Transaction<'_, S>) -> bool
    ensures { tx.new.conn.ghost_name ≡ tx.old.conn.ghost_name }
{
    match downloads::file(tx, 17, 1) {
        Ok(found) => is_file(found, 0, &[1, 2, 3]),
        Err(_) => true,
    }
}

#[test]
fn four_entries_are_added_at_once(rt: HostRuntime) -> Result<(), Fail> {
    let mut conn = Connection::open_in_memory(rt.alloc())?;
    let mut tx = conn.transaction();
    making::make_all(&mut tx)?;
    drivers::insert(&mut tx, 17, &[0x0d, 0x44], "anna-key-1", 19_786, "Anna")?;
    let four = [
        new_entry(1, span(100, 200, 0), "Anna", "ill"),
        new_entry(2, span(200, 300, 1), "Bert", ""),
        new_entry(3, span(300, 400, 2), "office", "lost card"),
        new_entry(4, span(400, 500, 3), "Cem", "fault"),
    ];
    entries::insert_four(&mut tx, 17, &four)?;
    let found = entries::of_driver(rt.alloc(), &mut tx, 17)?;
    assert!(rt; found.len() == 4);
    for (entry, wanted) in found.iter().zip(&four) {
        assert!(rt;
            is_entry(
                entry,
                wanted.number,
                wanted.span,
                0,
                wanted.author,
                wanted.note
            )
        );
    }
    Ok(())
}

#[test]
fn entries_are_found_and_withdrawn(rt: HostRuntime) -> Result<(), Fail> {
    let mut conn = Connection::open_in_memory(rt.alloc())?;
    let mut tx = conn.transaction();
    making::make_all(&mut tx)?;
    drivers::insert(&mut tx, 17, &[0x0d, 0x44], "anna-key-1", 19_786, "Anna")?;
    drivers::insert(&mut tx, 18, &[0x0d, 0x45], "bert-key-1", 19_787, "Bert")?;
    entries::insert(&mut tx, 17, &new_entry(1, span(100, 200, 0), "Anna", "ill"))?;
    entries::insert(&mut tx, 17, &new_entry(2, span(200, 300, 2), "office", ""))?;
    entries::insert(
        &mut tx,
        18,
        &new_entry(1, span(150, 250, 1), "Bert", "lost card"),
    )?;
    drivers::set_entries(&mut tx, 17, 2)?;
    entries::withdraw(&mut tx, 17, 1)?;
    let first = entries::by_number(&mut tx, 17, 1)?;
    assert!(rt; first.is_some_and(|it| is_entry(&it, 1, span(100, 200, 0), 1, "Anna", "ill")));
    assert!(rt; entries::by_number(&mut tx, 17, 3)?.is_none());
    assert!(rt; are_both(&entries::of_driver(rt.alloc(), &mut tx, 17)?));
    let near = entries::kept_near(rt.alloc(), &mut tx, 17, 0, 201)?;
    assert_same(&rt, near.as_slice(), [span(200, 300, 2)].as_slice());
    assert!(rt; entries::kept_near(rt.alloc(), &mut tx, 17, 0, 200)?.is_empty());
    Ok(())
}

/// True if these are the two entries of the test.
fn are_both(found: &[StoredEntry]) -> bool {
    match found {
        [first, second] => {
            is_entry(first, 1, span(100, 200, 0), 1, "Anna", "ill")
                && is_entry(second, 2, span(200, 300, 2), 0, "office", "")
        }
        _ => false,
    }
}

/// True if an entry is this one.
fn is_entry(
    entry: &StoredEntry,
    number: u32,
    span: StoredSpan,
    withdrawn: u32,
    author: &str,
    note: &str,
) -> bool {
    (entry.number, entry.withdrawn) == (number, withdrawn)
        && (entry.start, entry.past, entry.mark) == (span.start, span.past, span.mark)
        && (entry.author.as_str(), entry.note.as_str()) == (author, note)
}

#[test]
fn held_spans_that_begin_in_a_range_are_deleted(rt: HostRuntime) -> Result<(), Fail> {
    let mut conn = Connection::open_in_memory(rt.alloc())?;
    let mut tx = conn.transaction();
    making::make_all(&mut tx)?;
    drivers::insert(&mut tx, 17, &[0x0d, 0x44], "anna-key-1", 19_786, "Anna")?;
    spans::insert_all(
        &mut tx,
        SpanTable::Held,
        17,
        &[span(100, 200, 3), span(200, 210, 2), span(300, 400, 1)],
    )?;
    held::delete_begun(&mut tx, 17, 200, 300)?;
    let left = held::of_driver(rt.alloc(), &mut tx, 17)?;
    assert_same(
        &rt,
        left.as_slice(),
        [span(100, 200, 3), span(300, 400, 1)].as_slice(),
    );
    Ok(())
}
