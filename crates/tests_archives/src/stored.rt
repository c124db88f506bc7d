//! What an archive answers if rows were written into its tables by other means.

ghost use Rattle.std.specs.Prelude.{◌≤◌};

use crate::archives::adopted;
use crate::rows::{ANNA, DAY, FIRST, REGISTER_ANNA};
use crate::same::assert_same;
use crate::step::{file, take};
use sqlite::{Alter, MemStore};
use std::alloc::Global;
use std::process::Abort;
use std::test::Fail;
use tacho_card::Part;
use tacho_state::{Caller, Imported, Keeper, StoreFault};
use tacho_store::{Archive, open_memory};
use tacho_tables::{SpanTable, StoredSpan, spans};
use tacho_time::{Activity, Mark, Minute, Span};

/// The first minute of Monday 2024-03-04.
const MONDAY: u32 = 28_491_840;

/// Makes a row whose minutes are counted from that Monday.
fn row(start: u32, past: u32, mark: u32) -> StoredSpan
    requires start { start ≤ 10000 }
    requires past { past ≤ 10000 }
{
    StoredSpan {
        start: MONDAY + start,
        past: MONDAY + past,
        mark,
    }
}

/// Returns the rows of what the card file `DAY` gives.
fn rows_of_day() -> [StoredSpan; 4] {
    [
        row(0, 480, 0),
        row(480, 510, 2),
        row(510, 1020, 3),
        row(1440, 1920, 0),
    ]
}

/// Makes a span whose minutes are counted from that Monday.
fn span(start: u32, past: u32, activity: Activity, crew: bool) -> Span
    requires start { start ≤ 10000 }
    requires past { past ≤ 10000 }
{
    Span {
        start: Minute::new(MONDAY + start),
        past: Minute::new(MONDAY + past),
        mark: Mark { activity, crew },
    }
}

/// Registers a driver in an archive, and adds these rows of what their downloads give and of what they hold.
fn filled<S: Alter + Drop>(
    rt: &impl Abort,
    alloc: Global,
    mut archive: Archive<S>,
    cards: &[StoredSpan],
    helds: &[StoredSpan],
) -> Result<Archive<S>, Fail> {
    take(rt, alloc, &mut archive, "stored rows", &[REGISTER_ANNA])?;
    let mut conn = archive.close();
    let mut tx = conn.transaction();
    spans::insert_all(&mut tx, SpanTable::CardSpans, 17, cards)?;
    spans::insert_all(&mut tx, SpanTable::Held, 17, helds)?;
    tx.commit()?;
    Ok(adopted(conn)?)
}

/// Makes such an archive in memory.
fn archive_of(
    rt: &impl Abort,
    alloc: Global,
    cards: &[StoredSpan],
    helds: &[StoredSpan],
) -> Result<Archive<MemStore>, Fail> {
    filled(rt, alloc, open_memory(alloc)?, cards, helds)
}

#[test]
fn spans_come_back_from_their_rows(rt: HostRuntime) -> Result<(), Fail> {
    let helds = [row(10, 20, 2), row(20, 40, 5), row(50, 60, 3)];
    let line = archive_of(&rt, rt.alloc(), &[], &helds)?.line(rt.alloc(), 17)?;
    let wanted = [
        span(10, 20, Activity::Work, false),
        span(20, 40, Activity::Available, true),
        span(50, 60, Activity::Drive, false),
    ];
    assert_same(&rt, line.spans(), wanted.as_slice());
    Ok(())
}

#[test]
fn rows_that_no_archive_writes_are_refused(rt: HostRuntime) -> Result<(), Fail> {
    let late = StoredSpan {
        start: MONDAY,
        past: 68_428_801,
        mark: 2,
    };
    for helds in [
        [row(10, 20, 2), row(30, 40, 8)],
        [row(10, 20, 2), late],
        [row(10, 20, 2), row(19, 40, 3)],
    ] {
        let refused = archive_of(&rt, rt.alloc(), &[], &helds)?
            .line(rt.alloc(), 17)
            .err();
        assert_same(&rt, refused, Some(StoreFault::Store));
    }
    Ok(())
}

/// Returns the answer to an import of the day, if the tables have these rows.
fn imported(
    rt: &impl Abort,
    alloc: Global,
    cards: &[StoredSpan],
    helds: &[StoredSpan],
) -> Result<Result<Imported, StoreFault>, Fail> {
    let mut archive = archive_of(rt, alloc, cards, helds)?;
    let file = file(alloc, &[ANNA, FIRST, DAY])?;
    Ok(archive.import(alloc, Caller::Office, Part::Both, &file))
}

#[test]
fn what_is_new_is_told(rt: HostRuntime) -> Result<(), Fail> {
    let alloc = rt.alloc();
    let day = rows_of_day();
    let part = [row(490, 500, 2)];
    let other = [row(1000, 1100, 2)];
    let added = Imported::Added {
        driver: 17,
        number: 1,
    };
    let repeated = Imported::Repeated { driver: 17 };
    let contradiction = StoreFault::Contradiction(Minute::new(MONDAY + 1000));
    assert_same(&rt, imported(&rt, alloc, &day, &day)?, Ok(repeated));
    assert_same(&rt, imported(&rt, alloc, &[], &[])?, Ok(added));
    assert_same(&rt, imported(&rt, alloc, &[], &part)?, Ok(added));
    assert_same(&rt, imported(&rt, alloc, &[], &day)?, Ok(added));
    assert_same(
        &rt,
        imported(&rt, alloc, &part, &other)?,
        Err(contradiction),
    );
    assert_same(
        &rt,
        imported(&rt, alloc, &other, &other)?,
        Err(contradiction),
    );
    assert_same(
        &rt,
        imported(&rt, alloc, &other, &[])?,
        Err(StoreFault::Store),
    );
    Ok(())
}
