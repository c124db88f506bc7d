//! Archives of schema 1: how they are refused, what a migration makes of them, and what a crash leaves of a migration.

ghost use Rattle.std.specs.Prelude.{◌≡◌, false, IfErr, IfOk};

use crate::commands::{Command, take, told};
use crate::disks::{Fused, closed, copies, empty, given_up, go_on, open, opened, restarted};
use crate::rows::ANNA;
use crate::stops::{KINDS, Kind, MOST, Outcome, ROOMY, assert_many, assert_met};
use sqlite::{Alter, Connection, MemStore, Options};
use sqlite_disk::{Disk, Files};
use std::alloc::Global;
use std::process::Abort;
use std::test::Fail;
use tacho_shelf::Shelf;
use tacho_state::StoreFault;
use tacho_store::Archive;

/// Statements that make an archive of schema 1: its tables, and Anna, with a weekend's rest that was entered and withdrawn.
const OLD: [&str; 9] = [
    "CREATE TABLE meta (id INTEGER PRIMARY KEY, version INTEGER NOT NULL) STRICT",
    "CREATE TABLE drivers (driver INTEGER PRIMARY KEY, holder BLOB NOT NULL UNIQUE, secret TEXT NOT NULL UNIQUE, base INTEGER NOT NULL, name TEXT NOT NULL, downloads INTEGER NOT NULL, entries INTEGER NOT NULL) STRICT",
    "CREATE TABLE downloads (driver INTEGER NOT NULL REFERENCES drivers(driver), number INTEGER NOT NULL, part INTEGER NOT NULL, file BLOB NOT NULL, PRIMARY KEY (driver, number)) STRICT",
    "CREATE TABLE card_spans (driver INTEGER NOT NULL REFERENCES drivers(driver), start INTEGER NOT NULL, past INTEGER NOT NULL, mark INTEGER NOT NULL, PRIMARY KEY (driver, start)) STRICT",
    "CREATE TABLE entries (driver INTEGER NOT NULL REFERENCES drivers(driver), number INTEGER NOT NULL, start INTEGER NOT NULL, past INTEGER NOT NULL, mark INTEGER NOT NULL, withdrawn INTEGER NOT NULL CHECK (withdrawn IN (0, 1)), PRIMARY KEY (driver, number)) STRICT",
    "CREATE TABLE held (driver INTEGER NOT NULL REFERENCES drivers(driver), start INTEGER NOT NULL, past INTEGER NOT NULL, mark INTEGER NOT NULL, PRIMARY KEY (driver, start)) STRICT",
    "INSERT INTO meta (id, version) VALUES (1, 1)",
    "INSERT INTO drivers (driver, holder, secret, base, name, downloads, entries) VALUES (17, x'0d4431323334353637383930313233', 'anna-key-1', 19786, 'Anna Berg', 0, 1)",
    "INSERT INTO entries (driver, number, start, past, mark, withdrawn) VALUES (17, 1, 28499040, 28501920, 0, 1)",
];

/// The statement that makes the table of schema 2 that schema 1 doesn't have.
const ENTRY_ROWS: &str =
    "CREATE TABLE entry_rows (driver INTEGER NOT NULL REFERENCES drivers(driver), number INTEGER NOT NULL, start INTEGER NOT NULL, past INTEGER NOT NULL, mark INTEGER NOT NULL, withdrawn INTEGER NOT NULL CHECK (withdrawn IN (0, 1)), author TEXT NOT NULL, note TEXT NOT NULL, PRIMARY KEY (driver, number)) STRICT";

/// The statement that says that an archive is of schema 2.
const IS_NEW: &str = "INSERT INTO meta (id, version) VALUES (1, 2)";

/// A store in which the statements were run.
fn executed<S: Alter + Drop>(
    rt: &impl Abort,
    mut conn: Connection<S>,
    statements: &[&str],
) -> Result<Connection<S>, Fail>
    ensures { IfOk result (λ conn. conn.in_transaction ≡ false) }
{
    for statement in statements {
        conn.execute(*statement, &[])?;
    }
    assert!(rt; conn.is_autocommit());
    Ok(conn)
}

/// A store in memory in which the statements were run.
fn store_of(
    rt: &impl Abort,
    alloc: Global,
    statements: &[&str],
) -> Result<Connection<MemStore>, Fail>
    ensures { IfOk result (λ conn. conn.in_transaction ≡ false) }
{
    executed(rt, Connection::open_in_memory(alloc)?, statements)
}

/// A store in memory in which all statements except the one at this index were run.
fn store_without(
    rt: &impl Abort,
    alloc: Global,
    statements: &[&str],
    left_out: usize,
) -> Result<Connection<MemStore>, Fail>
    ensures { IfOk result (λ conn. conn.in_transaction ≡ false) }
{
    let mut conn = Connection::open_in_memory(alloc)?;
    for (place, statement) in statements.iter().enumerate() {
        if place != left_out {
            conn.execute(*statement, &[])?;
        }
    }
    assert!(rt; conn.is_autocommit());
    Ok(conn)
}

/// The archive of a store, migrated if it is of schema 1.
fn migrated<S: Alter + Drop>(conn: Connection<S>) -> Result<Archive<S>, Fail>
    requires { conn.in_transaction ≡ false }
{
    Ok(Archive::migrate(conn).map_err(|refused| refused.0)?)
}

/// The driver's name and the weekend, after the migration.
const WEEKEND: [Command; 2] = [
    (
        "drivers",
        "",
        "17 0d4431323334353637383930313233 2024-03-04 0 1 Anna Berg\n",
        0,
    ),
    (
        "entries 17",
        "",
        "1 2024-03-09 00:00 2024-03-11 00:00 rest withdrawn \"office\" \"\"\n",
        0,
    ),
];

/// A day off after it, which Eva Lund enters.
const DAY_OFF: [Command; 3] = [
    (
        "enter 17",
        "start,past,activity,author,note\n2024-03-11 00:00,2024-03-12 00:00,rest,Eva Lund,day off\n",
        "entered 2 to 2\n",
        0,
    ),
    (
        "spans 17 2024-03",
        "",
        "start,past,activity,manning\n2024-03-11 00:00,2024-03-12 00:00,rest,single\n",
        0,
    ),
    (
        "entries 17",
        "",
        "1 2024-03-09 00:00 2024-03-11 00:00 rest withdrawn \"office\" \"\"\n2 2024-03-11 00:00 2024-03-12 00:00 rest kept \"Eva Lund\" \"day off\"\n",
        0,
    ),
];

/// Commands that lead to the same archive as the migration.
const OF_OLD: [Command; 3] = [
    ANNA,
    (
        "enter 17",
        "start,past,activity\n2024-03-09 00:00,2024-03-11 00:00,rest\n",
        "entered 1 to 1\n",
        0,
    ),
    ("withdraw 17 1", "", "withdrawn 1\n", 0),
];

/// Asserts that a store has no archive of schema 2, and which fault is reported. Returns the store.
fn refused(
    rt: &impl Abort,
    made: Result<Archive<MemStore>, (StoreFault, Connection<MemStore>)>,
    wanted: StoreFault,
) -> Result<Connection<MemStore>, Fail>
    requires { IfErr made (λ e. e.1.in_transaction ≡ false) }
    ensures { IfOk result (λ conn. conn.in_transaction ≡ false) }
{
    match made {
        Ok(_) => Err("the store was taken")?,
        Err((fault, conn)) => {
            assert!(rt; fault == wanted, "{fault:?}");
            Ok(conn)
        }
    }
}

#[test]
fn an_old_archive_is_carried_over(rt: HostRuntime) -> Result<(), Fail> {
    let alloc = rt.alloc();
    let conn = store_of(&rt, alloc, &OLD)?;
    let conn = refused(&rt, Archive::adopt(conn), StoreFault::OldSchema)?;
    let mut archive = migrated(conn)?;
    take(&rt, alloc, &mut archive, "carried over", &WEEKEND)?;
    take(&rt, alloc, &mut archive, "carried over", &DAY_OFF)
}

#[test]
fn an_archive_is_carried_over_once(rt: HostRuntime) -> Result<(), Fail> {
    let alloc = rt.alloc();
    let archive = migrated(store_of(&rt, alloc, &OLD)?)?;
    let mut archive = migrated(archive.close())?;
    let withdraw = ("withdraw 17 1", "", "S8 already withdrawn\n", 1);
    take(&rt, alloc, &mut archive, "carried over twice", &[withdraw])?;
    take(&rt, alloc, &mut archive, "carried over twice", &WEEKEND)
}

/// Asserts that a store has no archive to migrate, and keeps this many tables.
fn assert_left_alone(rt: &impl Abort, conn: Connection<MemStore>, tables: usize) -> Result<(), Fail>
    requires { conn.in_transaction ≡ false }
{
    let conn = refused(rt, Archive::migrate(conn), StoreFault::Store)?;
    assert!(rt; conn.schema().tables.len() == tables);
    Ok(())
}

#[test]
fn a_store_without_an_archive_is_not_carried_over(rt: HostRuntime) -> Result<(), Fail> {
    let note = "CREATE TABLE note (a INTEGER) STRICT";
    assert_left_alone(&rt, store_of(&rt, rt.alloc(), &[])?, 0)?;
    assert_left_alone(&rt, store_of(&rt, rt.alloc(), &[note])?, 1)
}

/// Asserts that a store has no archive, neither one to open nor one to migrate.
fn assert_no_archive(rt: &impl Abort, conn: Connection<MemStore>) -> Result<(), Fail>
    requires { conn.in_transaction ≡ false }
{
    let conn = refused(rt, Archive::adopt(conn), StoreFault::Store)?;
    refused(rt, Archive::migrate(conn), StoreFault::Store)?;
    Ok(())
}

#[test]
fn an_archive_that_lacks_a_table_is_none(rt: HostRuntime) -> Result<(), Fail> {
    let alloc = rt.alloc();
    let [
        meta,
        drivers,
        downloads,
        card_spans,
        entries,
        held,
        is_old,
        ..
    ] = OLD;
    let old = [meta, drivers, downloads, card_spans, entries, held, is_old];
    let new = [
        meta, drivers, downloads, card_spans, ENTRY_ROWS, held, IS_NEW,
    ];
    refused(
        &rt,
        Archive::adopt(store_of(&rt, alloc, &old)?),
        StoreFault::OldSchema,
    )?;
    migrated(store_of(&rt, alloc, &new)?)?;
    for left_out in 2..6 {
        assert_no_archive(&rt, store_without(&rt, alloc, &old, left_out)?)?;
        assert_no_archive(&rt, store_without(&rt, alloc, &new, left_out)?)?;
    }
    Ok(())
}

/// Two files, in whose store the statements were run.
fn filled<D: Disk + Drop>(
    rt: &impl Abort,
    alloc: Global,
    files: Files<D>,
    statements: &[&str],
) -> Result<Files<D>, Fail> {
    let conn = opened(rt, alloc, files, ROOMY)?;
    Ok(closed(executed(rt, conn, statements)?))
}

/// Migrates a store's archive. Returns whether that was done, and the store's connection.
fn carry_in<S: Alter + Drop>(
    rt: &impl Abort,
    conn: Connection<S>,
) -> Result<(bool, Connection<S>), Fail>
    requires { conn.in_transaction ≡ false }
{
    match Archive::migrate(conn) {
        Ok(archive) => Ok((true, archive.close())),
        Err(refused) => {
            assert!(rt; matches!(refused.0, StoreFault::Store), "{:?}", refused.0);
            Ok((false, refused.1))
        }
    }
}

/// Likewise for two files, up to a crash. Returns whether that was done, and the files.
fn carry<D: Disk + Drop>(
    rt: &impl Abort,
    alloc: Global,
    files: Files<D>,
    options: Options,
) -> Result<(bool, Files<D>), Fail> {
    let conn = match open(rt, alloc, files, options) {
        Ok(conn) => conn,
        Err(files) => return Ok((false, files)),
    };
    let (is_done, conn) = carry_in(rt, conn)?;
    let files = if is_done {
        closed(conn)
    } else {
        given_up(conn)
    };
    Ok((is_done, files))
}

/// Asserts that a store's archive is as it was before the migration, or migrated, and that it can be migrated then.
fn judge_in<S: Alter + Drop>(
    rt: &impl Abort,
    alloc: Global,
    conn: Connection<S>,
    row: &str,
    wanted: &str,
) -> Result<Outcome, Fail>
    requires { conn.in_transaction ≡ false }
{
    let (mut archive, outcome) = match Archive::adopt(conn) {
        Ok(mut archive) => {
            let text = told(alloc, &mut archive)?;
            assert!(rt; text.as_str() == wanted, "{row}: {text}");
            (migrated(archive.close())?, Outcome::Behind)
        }
        Err(refused) => {
            assert!(rt;
                matches!(refused.0, StoreFault::OldSchema),
                "{row}: {:?}",
                refused.0
            );
            (migrated(refused.1)?, Outcome::Before)
        }
    };
    let text = told(alloc, &mut archive)?;
    assert!(rt; text.as_str() == wanted, "{row}, and again: {text}");
    Ok(outcome)
}

/// Likewise for the files that a crash has left. Also asserts that they are migrated if the migration was done.
fn judge<D: Disk + Drop>(
    rt: &impl Abort,
    alloc: Global,
    files: Files<D>,
    row: &str,
    options: Options,
    wanted: &str,
    is_done: bool,
) -> Result<Outcome, Fail> {
    let conn = opened(rt, alloc, files, options)?;
    let outcome = judge_in(rt, alloc, conn, row, wanted)?;
    if is_done {
        assert!(rt; outcome == Outcome::Behind, "{row}: it was done");
        return Ok(Outcome::Closed);
    }
    Ok(outcome)
}

/// What a crash after `calls` calls leaves of a migration: of what was written, and of what was synced. None if no crash happens.
fn stop(
    rt: &impl Abort,
    alloc: Global,
    old: &Files<Fused>,
    wanted: &str,
    kind: Kind,
    calls: u64,
) -> Result<Option<[Outcome; 2]>, Fail> {
    let row = format!(in alloc; "{}, {calls} calls", kind.name)?;
    let files = copies(alloc, old, kind.stopping, calls)?;
    let (is_done, mut files) = carry(rt, alloc, files, kind.options)?;
    if go_on(&mut files) {
        assert!(rt; is_done, "{row}: it was not done");
        return Ok(None);
    }
    let (written, synced) = restarted(alloc, files)?;
    let written = judge(rt, alloc, written, &row, kind.options, wanted, is_done)?;
    let synced = judge(rt, alloc, synced, &row, kind.options, wanted, is_done)?;
    Ok(Some([written, synced]))
}

/// What each crash of a kind leaves of a migration, up to the first run without a crash.
fn outcomes(
    rt: &impl Abort,
    alloc: Global,
    old: &Files<Fused>,
    wanted: &str,
    kind: Kind,
) -> Result<Vec<[Outcome; 2]>, Fail> {
    let mut outcomes = Vec::new(alloc);
    for calls in 0..MOST {
        match stop(rt, alloc, old, wanted, kind, calls)? {
            Some(left) => outcomes.push(left)?,
            None => return Ok(outcomes),
        }
    }
    Err("each run was stopped")?
}

/// The outcomes that must occur for what was written, at least.
const WRITTEN: &[Outcome] = &[Outcome::Before, Outcome::Behind, Outcome::Closed];

/// The outcomes that must occur for what was synced.
const SYNCED: &[Outcome] = &[Outcome::Before, Outcome::Closed];

/// The contents of the old archive after the migration.
fn told_of_old(rt: &impl Abort, alloc: Global) -> Result<String, Fail> {
    let mut shelf = Shelf::new(alloc);
    take(rt, alloc, &mut shelf, "shelf", &OF_OLD)?;
    told(alloc, &mut shelf)
}

#[test]
fn a_crash_of_a_migration_leaves_the_old_archive_or_the_new(rt: HostRuntime) -> Result<(), Fail> {
    let alloc = rt.alloc();
    let old = filled(&rt, alloc, empty(alloc)?, &OLD)?;
    let wanted = told_of_old(&rt, alloc)?;
    let mut met = Vec::new(alloc);
    for kind in KINDS {
        let outcomes = outcomes(&rt, alloc, &old, &wanted, kind)?;
        assert_many(&rt, kind.name, &outcomes, kind.stops_of_migration);
        met.extend_from_slice(&outcomes)?;
    }
    assert_met(&rt, &met, 0, WRITTEN);
    assert_met(&rt, &met, 1, SYNCED);
    Ok(())
}
