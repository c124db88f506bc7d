//! What a check finds: nothing in what calls leave, and the first unsound rows once rows were changed by other means.

ghost use Rattle.std.specs.Prelude.{◌≡◌, false, IfOk};

use crate::rows::{ANNA, DAY, FIRST, NIGHT_HOURS, REGISTER_ANNA, REGISTER_BERT, ROWS};
use crate::same::assert_same;
use crate::step::Step::{Adds, Enter, Holds, Withdraw};
use crate::step::{Step, take};
use sqlite::{Alter, Connection};
use std::alloc::Global;
use std::process::Abort;
use std::test::Fail;
use tacho_card::Part;
use tacho_check::{TableName, Unsound, check, check_text};
use tacho_state::{Caller, StoreFault};
use tacho_store::{Archive, open_memory};
use tacho_time::Activity;

/// Wednesday's first five hours, and Thursday's.
const TWO_NIGHTS: &str = "start,past,activity\n\
    2024-03-06 00:00,2024-03-06 05:00,rest\n\
    2024-03-07 00:00,2024-03-07 05:00,rest\n";

/// Bert has Monday's first five hours. Anna has a card file and two entries, and the second is withdrawn.
const TWO_DRIVERS: &[Step] = &[
    REGISTER_BERT,
    REGISTER_ANNA,
    Enter(18, NIGHT_HOURS, Ok((1, 1))),
    Adds(Caller::Office, Part::Both, &[ANNA, FIRST, DAY], 17, 1),
    Enter(17, TWO_NIGHTS, Ok((1, 2))),
    Withdraw(17, 2, 2, Ok(())),
    Holds(
        17,
        &[
            (0, 480, Activity::Rest),
            (480, 510, Activity::Work),
            (510, 1020, Activity::Drive),
            (1440, 1920, Activity::Rest),
            (2880, 3180, Activity::Rest),
        ],
    ),
];

/// Changes of the tables after which they represent a state within its limits.
const SOUND: &[&str] = &[
    "UPDATE drivers SET base = 10959, name = 'Carla' WHERE driver = 17",
    "UPDATE drivers SET base = 47478, secret = '12345678' WHERE driver = 18",
    // Rows that touch may have the same mark. Monday 00:00 is minute 28,491,840.
    "UPDATE card_spans SET past = 28492000 WHERE driver = 17 AND start = 28491840; \
     INSERT INTO card_spans (driver, start, past, mark) VALUES (17, 28492000, 28492320, 0)",
    "UPDATE held SET past = 28492000 WHERE driver = 18; \
     INSERT INTO held (driver, start, past, mark) VALUES (18, 28492000, 28492140, 0)",
    // A withdrawn entry gives nothing, so its minutes may be any within the limits.
    "UPDATE entry_rows SET start = 15780960, past = 15780961, mark = 3 WHERE driver = 17 AND number = 2",
    "UPDATE entry_rows SET start = 67847040, past = 68374080 WHERE driver = 17 AND number = 2",
    "UPDATE entry_rows SET author = 'x', note = 'y' WHERE driver = 17",
    // A file that gives a part of what another one gives.
    "UPDATE drivers SET downloads = 2 WHERE driver = 17; \
     INSERT INTO downloads (driver, number, part, file) VALUES (17, 2, 0, \
     x'05200000110d443132333435363738393031323330300504000016000000000000001265e50f0000010000000011e019fe')",
];

/// Changes of the tables, and the first driver and table after each whose rows no state within its limits has.
const UNSOUND: &[(&str, i64, TableName)] = &[
    // A driver's own columns.
    (
        "INSERT INTO drivers (driver, holder, secret, base, name, downloads, entries) \
         VALUES (0, x'0d4431323334353637383930313239', 'carl-key-1', 19786, 'Carl', 0, 0)",
        0,
        TableName::Drivers,
    ),
    (
        "INSERT INTO drivers (driver, holder, secret, base, name, downloads, entries) \
         VALUES (1000000, x'0d4431323334353637383930313239', 'carl-key-1', 19786, 'Carl', 0, 0)",
        1_000_000,
        TableName::Drivers,
    ),
    (
        "UPDATE drivers SET holder = x'0d44313233343536373839303132' WHERE driver = 17",
        17,
        TableName::Drivers,
    ),
    (
        "UPDATE drivers SET secret = 'short-1' WHERE driver = 17",
        17,
        TableName::Drivers,
    ),
    // A Tuesday, and Mondays before and after the years that are read.
    (
        "UPDATE drivers SET base = base + 1 WHERE driver = 18",
        18,
        TableName::Drivers,
    ),
    (
        "UPDATE drivers SET base = 10952 WHERE driver = 18",
        18,
        TableName::Drivers,
    ),
    (
        "UPDATE drivers SET base = 47485 WHERE driver = 18",
        18,
        TableName::Drivers,
    ),
    (
        "UPDATE drivers SET name = '' WHERE driver = 17",
        17,
        TableName::Drivers,
    ),
    (
        "UPDATE drivers SET name = 'Berg, Anna' WHERE driver = 17",
        17,
        TableName::Drivers,
    ),
    (
        "UPDATE drivers SET name = CAST(x'416e6eff' AS TEXT) WHERE driver = 17",
        17,
        TableName::Drivers,
    ),
    (
        "UPDATE drivers SET downloads = 1000001 WHERE driver = 17",
        17,
        TableName::Drivers,
    ),
    (
        "UPDATE drivers SET downloads = 1000000 WHERE driver = 17",
        17,
        TableName::Downloads,
    ),
    (
        "UPDATE drivers SET entries = 1000001 WHERE driver = 17",
        17,
        TableName::Drivers,
    ),
    // The card is of another holder.
    (
        "UPDATE drivers SET holder = x'0d4431323334353637383930313239' WHERE driver = 17",
        17,
        TableName::Downloads,
    ),
    // An entry's minutes, also of a withdrawn one.
    (
        "UPDATE entry_rows SET start = 15780959, past = 15780961 WHERE driver = 17 AND number = 2",
        17,
        TableName::EntryRows,
    ),
    (
        "UPDATE entry_rows SET start = 68374079, past = 68374081 WHERE driver = 17 AND number = 2",
        17,
        TableName::EntryRows,
    ),
    (
        "UPDATE entry_rows SET start = 28000000, past = 28527041 WHERE driver = 17 AND number = 2",
        17,
        TableName::EntryRows,
    ),
    // And its texts.
    (
        "UPDATE entry_rows SET author = '' WHERE driver = 17 AND number = 2",
        17,
        TableName::EntryRows,
    ),
    (
        "UPDATE entry_rows SET note = 'a\"b' WHERE driver = 17 AND number = 2",
        17,
        TableName::EntryRows,
    ),
    (
        "UPDATE entry_rows SET note = CAST(x'c3' AS TEXT) WHERE driver = 17 AND number = 2",
        17,
        TableName::EntryRows,
    ),
    (
        "UPDATE drivers SET base = -1 WHERE driver = 18",
        18,
        TableName::Drivers,
    ),
    (
        "UPDATE drivers SET downloads = -1 WHERE driver = 17",
        17,
        TableName::Drivers,
    ),
    (
        "UPDATE drivers SET entries = -1 WHERE driver = 17",
        17,
        TableName::Drivers,
    ),
    (
        "UPDATE drivers SET downloads = 2 WHERE driver = 17",
        17,
        TableName::Downloads,
    ),
    (
        "UPDATE drivers SET downloads = 1 WHERE driver = 18",
        18,
        TableName::Downloads,
    ),
    ("DELETE FROM downloads", 17, TableName::Downloads),
    ("UPDATE downloads SET number = 2", 17, TableName::Downloads),
    ("UPDATE downloads SET part = 3", 17, TableName::Downloads),
    // The file has no activity data of the second generation.
    ("UPDATE downloads SET part = 2", 17, TableName::Downloads),
    (
        "UPDATE downloads SET file = x'05'",
        17,
        TableName::Downloads,
    ),
    // A file that contradicts the first from Monday 08:00 on.
    (
        "UPDATE drivers SET downloads = 2 WHERE driver = 17; \
         INSERT INTO downloads (driver, number, part, file) VALUES (17, 2, 0, \
         x'05200000110d44313233343536373839303132333030\
         0504000028000000140000001465e50f0000010000000011ea1a0823f20014001065e6608000020000080011e0')",
        17,
        TableName::Downloads,
    ),
    // A file that gives less.
    (
        "UPDATE downloads SET file = \
         x'05200000110d443132333435363738393031323330300504000016000000000000001265e50f0000010000000011e019fe'",
        17,
        TableName::CardSpans,
    ),
    ("DELETE FROM card_spans", 17, TableName::CardSpans),
    (
        "UPDATE card_spans SET past = past + 1 WHERE start = 28491840",
        17,
        TableName::CardSpans,
    ),
    (
        "UPDATE card_spans SET past = past + 1 WHERE start = 28493280",
        17,
        TableName::CardSpans,
    ),
    (
        "UPDATE card_spans SET start = start + 1 WHERE start = 28491840",
        17,
        TableName::CardSpans,
    ),
    // As if another driver had been there.
    (
        "UPDATE card_spans SET mark = mark + 4 WHERE start = 28491840",
        17,
        TableName::CardSpans,
    ),
    (
        "UPDATE card_spans SET mark = 8 WHERE start = 28491840",
        17,
        TableName::CardSpans,
    ),
    (
        "INSERT INTO card_spans (driver, start, past, mark) VALUES (18, 28491840, 28492140, 0)",
        18,
        TableName::CardSpans,
    ),
    (
        "UPDATE drivers SET entries = 1 WHERE driver = 17",
        17,
        TableName::EntryRows,
    ),
    (
        "DELETE FROM entry_rows WHERE driver = 17 AND number = 1",
        17,
        TableName::EntryRows,
    ),
    (
        "UPDATE entry_rows SET number = 3 WHERE driver = 17 AND number = 2",
        17,
        TableName::EntryRows,
    ),
    // Also a withdrawn entry isn't empty, and of a driver who was alone.
    (
        "UPDATE entry_rows SET past = start WHERE driver = 17 AND number = 2",
        17,
        TableName::EntryRows,
    ),
    (
        "UPDATE entry_rows SET mark = 4 WHERE driver = 17 AND number = 2",
        17,
        TableName::EntryRows,
    ),
    (
        "UPDATE entry_rows SET start = -1 WHERE driver = 17 AND number = 2",
        17,
        TableName::EntryRows,
    ),
    // Hours that contradict the card file at Monday 00:00.
    (
        "UPDATE entry_rows SET start = 28491840, past = 28491841, mark = 1 WHERE driver = 17 AND number = 1",
        17,
        TableName::EntryRows,
    ),
    (
        "UPDATE entry_rows SET withdrawn = 1 WHERE driver = 17 AND number = 1",
        17,
        TableName::Held,
    ),
    (
        "UPDATE entry_rows SET withdrawn = 0 WHERE driver = 17 AND number = 2",
        17,
        TableName::Held,
    ),
    (
        "UPDATE entry_rows SET past = past + 1 WHERE driver = 18",
        18,
        TableName::Held,
    ),
    ("DELETE FROM held WHERE driver = 18", 18, TableName::Held),
    (
        "UPDATE held SET past = past - 1 WHERE driver = 18",
        18,
        TableName::Held,
    ),
    (
        "UPDATE held SET past = 9223372036854775807 WHERE driver = 18",
        18,
        TableName::Held,
    ),
    (
        "UPDATE held SET start = -1 WHERE driver = 18",
        18,
        TableName::Held,
    ),
    (
        "UPDATE held SET mark = 1 WHERE driver = 18",
        18,
        TableName::Held,
    ),
    // The first of two tables.
    (
        "DELETE FROM held; DELETE FROM card_spans",
        17,
        TableName::CardSpans,
    ),
    (
        "DELETE FROM held; DELETE FROM entry_rows",
        17,
        TableName::EntryRows,
    ),
    // The lower number of two drivers, whichever tables these are.
    ("UPDATE held SET past = past + 1", 17, TableName::Held),
    (
        "UPDATE drivers SET base = -1 WHERE driver = 18; DELETE FROM held WHERE driver = 17",
        17,
        TableName::Held,
    ),
    (
        "UPDATE drivers SET base = -1 WHERE driver = 17; DELETE FROM held WHERE driver = 18",
        17,
        TableName::Drivers,
    ),
];

/// Statements that make an archive of schema 1, in which Anna has an entry of Monday's first five hours.
const OLD: &str = "\
    CREATE TABLE meta (id INTEGER PRIMARY KEY, version INTEGER NOT NULL) STRICT; \
    CREATE TABLE drivers (driver INTEGER PRIMARY KEY, holder BLOB NOT NULL UNIQUE, secret TEXT NOT NULL UNIQUE, \
    base INTEGER NOT NULL, name TEXT NOT NULL, downloads INTEGER NOT NULL, entries INTEGER NOT NULL) STRICT; \
    CREATE TABLE downloads (driver INTEGER NOT NULL REFERENCES drivers(driver), number INTEGER NOT NULL, \
    part INTEGER NOT NULL, file BLOB NOT NULL, PRIMARY KEY (driver, number)) STRICT; \
    CREATE TABLE card_spans (driver INTEGER NOT NULL REFERENCES drivers(driver), start INTEGER NOT NULL, \
    past INTEGER NOT NULL, mark INTEGER NOT NULL, PRIMARY KEY (driver, start)) STRICT; \
    CREATE TABLE entries (driver INTEGER NOT NULL REFERENCES drivers(driver), number INTEGER NOT NULL, \
    start INTEGER NOT NULL, past INTEGER NOT NULL, mark INTEGER NOT NULL, \
    withdrawn INTEGER NOT NULL CHECK (withdrawn IN (0, 1)), PRIMARY KEY (driver, number)) STRICT; \
    CREATE TABLE held (driver INTEGER NOT NULL REFERENCES drivers(driver), start INTEGER NOT NULL, \
    past INTEGER NOT NULL, mark INTEGER NOT NULL, PRIMARY KEY (driver, start)) STRICT; \
    INSERT INTO meta (id, version) VALUES (1, 1); \
    INSERT INTO drivers (driver, holder, secret, base, name, downloads, entries) \
    VALUES (17, x'0d4431323334353637383930313233', 'anna-key-1', 19786, 'Anna Berg', 0, 1); \
    INSERT INTO entries (driver, number, start, past, mark, withdrawn) VALUES (17, 1, 28491840, 28492140, 0, 0); \
    INSERT INTO held (driver, start, past, mark) VALUES (17, 28491840, 28492140, 0)";

/// Changes of the tables of that archive once it is migrated, and the first table after each whose rows no state has, if there is one.
const MIGRATED: &[(&str, Option<TableName>)] = &[
    ("UPDATE entry_rows SET author = 'x'", None),
    ("UPDATE drivers SET base = -1", Some(TableName::Drivers)),
    (
        "UPDATE drivers SET downloads = 1",
        Some(TableName::Downloads),
    ),
    (
        "INSERT INTO card_spans (driver, start, past, mark) VALUES (17, 28491840, 28492140, 0)",
        Some(TableName::CardSpans),
    ),
    ("DELETE FROM entry_rows", Some(TableName::EntryRows)),
    ("UPDATE entry_rows SET withdrawn = 1", Some(TableName::Held)),
    ("DELETE FROM held", Some(TableName::Held)),
];

/// What a check finds, and the line that is printed of it.
const LINES: &[(i64, TableName, &str)] = &[
    (17, TableName::Drivers, "unsound 17 drivers\n"),
    (999_999, TableName::Downloads, "unsound 999999 downloads\n"),
    (0, TableName::CardSpans, "unsound 0 card_spans\n"),
    (-1, TableName::EntryRows, "unsound -1 entry_rows\n"),
    (
        i64::MIN,
        TableName::Held,
        "unsound -9223372036854775808 held\n",
    ),
];

/// Asserts what a check of an archive's store finds.
fn assert_found<S: Alter + Drop>(
    rt: &impl Abort,
    alloc: Global,
    conn: Connection<S>,
    place: &str,
    wanted: Option<Unsound>,
) -> Result<(), Fail>
    requires { conn.in_transaction ≡ false }
{
    let (found, _) = check(alloc, conn);
    let found = found?;
    assert!(rt; found == wanted, "{place}: {found:?}");
    Ok(())
}

/// Takes steps on a new archive in memory, and asserts that a check finds nothing.
fn assert_sound_after(
    rt: &impl Abort,
    alloc: Global,
    row: &str,
    steps: &[Step],
) -> Result<(), Fail> {
    let mut archive = open_memory(alloc)?;
    take(rt, alloc, &mut archive, row, steps)?;
    assert_found(rt, alloc, archive.close(), row, None)
}

#[test]
fn a_new_archive_is_sound(rt: HostRuntime) -> Result<(), Fail> {
    assert_sound_after(&rt, rt.alloc(), "a new archive", &[])
}

#[test]
fn what_calls_leave_is_sound(rt: HostRuntime) -> Result<(), Fail> {
    for (row, steps) in ROWS {
        assert_sound_after(&rt, rt.alloc(), row, steps)?;
    }
    Ok(())
}

/// Changes the tables of an archive's store.
fn changed<S: Alter + Drop>(
    rt: &impl Abort,
    mut conn: Connection<S>,
    change: &str,
) -> Result<Connection<S>, Fail>
    ensures { IfOk result (λ conn. conn.in_transaction ≡ false) }
{
    conn.execute_batch(change)?;
    assert!(rt; conn.is_autocommit());
    Ok(conn)
}

/// Asserts what a check finds after a change of the tables of two drivers.
fn assert_found_after<S: Alter + Drop>(
    rt: &impl Abort,
    alloc: Global,
    mut archive: Archive<S>,
    change: &str,
    wanted: Option<Unsound>,
) -> Result<(), Fail> {
    take(rt, alloc, &mut archive, change, TWO_DRIVERS)?;
    let conn = changed(rt, archive.close(), change)?;
    assert_found(rt, alloc, conn, change, wanted)
}

#[test]
fn rows_that_a_state_has_are_sound(rt: HostRuntime) -> Result<(), Fail> {
    for change in SOUND {
        assert_found_after(&rt, rt.alloc(), open_memory(rt.alloc())?, change, None)?;
    }
    Ok(())
}

#[test]
fn the_first_unsound_rows_are_found(rt: HostRuntime) -> Result<(), Fail> {
    for &(change, driver, table) in UNSOUND {
        let wanted = Some(Unsound { driver, table });
        assert_found_after(&rt, rt.alloc(), open_memory(rt.alloc())?, change, wanted)?;
    }
    Ok(())
}

/// Makes that archive of schema 1 in a store, and migrates it.
fn migrated<S: Alter + Drop>(rt: &impl Abort, conn: Connection<S>) -> Result<Connection<S>, Fail>
    ensures { IfOk result (λ conn. conn.in_transaction ≡ false) }
{
    let conn = changed(rt, conn, OLD)?;
    match Archive::migrate(conn) {
        Ok(archive) => Ok(archive.close()),
        Err(refused) => Err(refused.0)?,
    }
}

#[test]
fn a_migrated_archive_is_checked_too(rt: HostRuntime) -> Result<(), Fail> {
    let alloc = rt.alloc();
    for &(change, table) in MIGRATED {
        let conn = migrated(&rt, Connection::open_in_memory(alloc)?)?;
        let conn = changed(&rt, conn, change)?;
        let wanted = table.map(|table| Unsound { driver: 17, table });
        assert_found(&rt, alloc, conn, change, wanted)?;
    }
    Ok(())
}

/// Asserts that a check of a store fails with S12.
fn assert_refused<S: Alter + Drop>(
    rt: &impl Abort,
    alloc: Global,
    conn: Connection<S>,
    place: &str,
) -> Result<(), Fail>
    requires { conn.in_transaction ≡ false }
{
    let (found, _) = check(alloc, conn);
    assert!(rt; found == Err(StoreFault::Store), "{place}: {found:?}");
    Ok(())
}

/// Changes of `meta` and of `entries`, after which a migrated archive is that of no state.
const OTHER: &[&str] = &[
    "DELETE FROM meta",
    "UPDATE meta SET version = 1",
    "UPDATE meta SET version = 3",
    "UPDATE meta SET id = 2",
    "INSERT INTO meta (id, version) VALUES (2, 2)",
    "INSERT INTO entries (driver, number, start, past, mark, withdrawn) VALUES (17, 1, 28491840, 28492140, 0, 0)",
];

#[test]
fn meta_and_entries_have_to_be_as_a_migration_leaves_them(rt: HostRuntime) -> Result<(), Fail> {
    let alloc = rt.alloc();
    for change in OTHER {
        let conn = migrated(&rt, Connection::open_in_memory(alloc)?)?;
        let conn = changed(&rt, conn, change)?;
        assert_refused(&rt, alloc, conn, change)?;
    }
    Ok(())
}

#[test]
fn a_store_without_tables_is_refused(rt: HostRuntime) -> Result<(), Fail> {
    let conn = Connection::open_in_memory(rt.alloc())?;
    assert_refused(&rt, rt.alloc(), conn, "no tables")
}

#[test]
fn an_archive_of_schema_1_is_refused(rt: HostRuntime) -> Result<(), Fail> {
    let conn = changed(&rt, Connection::open_in_memory(rt.alloc())?, OLD)?;
    assert_refused(&rt, rt.alloc(), conn, "schema 1")
}

#[test]
fn what_is_found_is_told_in_a_line(rt: HostRuntime) -> Result<(), Fail> {
    assert_same(&rt, check_text(rt.alloc(), None)?.as_str(), "sound\n");
    for &(driver, table, line) in LINES {
        let text = check_text(rt.alloc(), Some(Unsound { driver, table }))?;
        assert_same(&rt, text.as_str(), line);
    }
    Ok(())
}
