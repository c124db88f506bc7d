ghost use Rattle.std.specs.Prelude.{◌≡◌, false, IfOk, IfErr};

use crate::rows::{A_DAY_IS_ADDED, NIGHT_HOURS, REGISTER_ANNA, ROWS};
use crate::same::assert_same;
use crate::step::{Step, take};
use sqlite::{Alter, Connection, FileStore};
use sqlite_disk::Disk;
use std::alloc::Global;
use std::fs;
use std::process::Abort;
use std::test::Fail;
use tacho_shelf::Shelf;
use tacho_state::{Keeper, StoreFault};
use tacho_store::{Archive, open_memory};
use tacho_time::Activity;

/// The folder of a test's files.
const FOLDER: &str = "tests_archives_test";

/// A file of a test.
const PATH: &str = "tests_archives_test/archive.db";

/// How many entries of the same hours a test makes.
const SAME: u32 = 1_000;

/// Adopts the archive of a store.
pub(crate) fn adopted<S: Alter + Drop>(conn: Connection<S>) -> Result<Archive<S>, StoreFault>
    requires { conn.in_transaction ≡ false }
{
    match Archive::adopt(conn) {
        Ok(archive) => Ok(archive),
        Err(refused) => Err(refused.0),
    }
}

/// Makes an archive in a store.
pub(crate) fn created<S: Alter + Drop>(conn: Connection<S>) -> Result<Archive<S>, StoreFault>
    requires { conn.in_transaction ≡ false }
{
    match Archive::create(conn) {
        Ok(archive) => Ok(archive),
        Err(refused) => Err(refused.0),
    }
}

/// Returns the connection that a refusal hands back. Asserts that it is the expected refusal.
pub(crate) fn handed_back<S: Alter + Drop>(
    rt: &impl Abort,
    made: Result<Archive<S>, (StoreFault, Connection<S>)>,
    wanted: StoreFault,
) -> Result<Connection<S>, Fail>
    requires { IfErr made (λ e. e.1.in_transaction ≡ false) }
    ensures { IfOk result (λ conn. conn.in_transaction ≡ false) }
{
    match made {
        Ok(_) => Err("the store was taken")?,
        Err((fault, conn)) => {
            assert_same(rt, fault, wanted);
            Ok(conn)
        }
    }
}

#[test]
fn rows_over_a_shelf(rt: HostRuntime) -> Result<(), Fail> {
    for (row, steps) in ROWS {
        take(&rt, rt.alloc(), &mut Shelf::new(rt.alloc()), row, steps)?;
    }
    Ok(())
}

#[test]
fn rows_over_an_archive(rt: HostRuntime) -> Result<(), Fail> {
    for (row, steps) in ROWS {
        take(&rt, rt.alloc(), &mut open_memory(rt.alloc())?, row, steps)?;
    }
    Ok(())
}

/// Takes steps on an archive, closes it, and takes the other steps on the archive that is adopted from its store.
fn take_in_two<S: Alter + Drop>(
    rt: &impl Abort,
    alloc: Global,
    mut archive: Archive<S>,
    row: &str,
    before: &[Step],
    after: &[Step],
) -> Result<(), Fail> {
    take(rt, alloc, &mut archive, row, before)?;
    take(rt, alloc, &mut adopted(archive.close())?, row, after)
}

/// Takes a row's steps on archives; each archive is closed and adopted again before another one of the steps.
fn take_reopened(rt: &impl Abort, alloc: Global, row: &str, steps: &[Step]) -> Result<(), Fail> {
    for place in 0..=steps.len() {
        let (before, after) = steps.split_at(place);
        take_in_two(rt, alloc, open_memory(alloc)?, row, before, after)?;
    }
    Ok(())
}

#[test]
fn rows_over_an_archive_that_is_adopted_again(rt: HostRuntime) -> Result<(), Fail> {
    for (row, steps) in ROWS {
        take_reopened(&rt, rt.alloc(), row, steps)?;
    }
    Ok(())
}

/// Makes an archive in a store, takes steps on it, and returns the store.
fn created_and_taken<S: Alter + Drop>(
    rt: &impl Abort,
    alloc: Global,
    conn: Connection<S>,
    row: &str,
    steps: &[Step],
) -> Result<Connection<S>, Fail>
    requires { conn.in_transaction ≡ false }
{
    let mut archive = created(conn)?;
    take(rt, alloc, &mut archive, row, steps)?;
    Ok(archive.close())
}

/// Takes steps on the archive of a store, and returns the store.
fn adopted_and_taken<S: Alter + Drop>(
    rt: &impl Abort,
    alloc: Global,
    conn: Connection<S>,
    row: &str,
    steps: &[Step],
) -> Result<Connection<S>, Fail>
    requires { conn.in_transaction ≡ false }
{
    let mut archive = adopted(conn)?;
    take(rt, alloc, &mut archive, row, steps)?;
    Ok(archive.close())
}

/// Makes an archive in a file, takes steps on it, and closes the file.
fn create_and_take<D: Disk + Drop>(
    rt: &impl Abort,
    alloc: Global,
    conn: Connection<FileStore<D>>,
    row: &str,
    steps: &[Step],
) -> Result<(), Fail>
    requires { conn.in_transaction ≡ false }
{
    created_and_taken(rt, alloc, conn, row, steps)?.close()?;
    Ok(())
}

/// Takes steps on the archive of a file, and closes the file.
fn adopt_and_take<D: Disk + Drop>(
    rt: &impl Abort,
    alloc: Global,
    conn: Connection<FileStore<D>>,
    row: &str,
    steps: &[Step],
) -> Result<(), Fail>
    requires { conn.in_transaction ≡ false }
{
    adopted_and_taken(rt, alloc, conn, row, steps)?.close()?;
    Ok(())
}

#[test]
fn rows_over_a_file_that_is_opened_again(rt: HostRuntime) -> Result<(), Fail> {
    let _ = fs::remove_dir_all(&rt, FOLDER);
    for (row, steps) in ROWS {
        fs::create_dir(&rt, FOLDER)?;
        let (before, after) = steps.split_at(steps.len() / 2);
        let conn = Connection::open(&rt, PATH)?;
        create_and_take(&rt, rt.alloc(), conn, row, before)?;
        let conn = Connection::open(&rt, PATH)?;
        adopt_and_take(&rt, rt.alloc(), conn, row, after)?;
        fs::remove_dir_all(&rt, FOLDER)?;
    }
    Ok(())
}

/// Asserts that no second archive can be made in an archive's store, and that the first is still there after the attempt.
fn assert_not_made_twice<S: Alter + Drop>(
    rt: &impl Abort,
    alloc: Global,
    mut archive: Archive<S>,
) -> Result<(), Fail> {
    let row = "made twice";
    let (before, after) = A_DAY_IS_ADDED.split_at(3);
    take(rt, alloc, &mut archive, row, before)?;
    let conn = handed_back(rt, Archive::create(archive.close()), StoreFault::Store)?;
    take(rt, alloc, &mut adopted(conn)?, row, after)
}

#[test]
fn an_archive_is_not_made_twice(rt: HostRuntime) -> Result<(), Fail> {
    assert_not_made_twice(&rt, rt.alloc(), open_memory(rt.alloc())?)
}

/// Asserts that no archive is adopted from a store without tables, and that one can then be made in it.
fn assert_made_later<S: Alter + Drop>(
    rt: &impl Abort,
    alloc: Global,
    conn: Connection<S>,
) -> Result<(), Fail>
    requires { conn.in_transaction ≡ false }
{
    let conn = handed_back(rt, Archive::adopt(conn), StoreFault::Store)?;
    take(rt, alloc, &mut created(conn)?, "made later", A_DAY_IS_ADDED)
}

#[test]
fn a_store_without_tables_has_no_archive(rt: HostRuntime) -> Result<(), Fail> {
    let conn = Connection::open_in_memory(rt.alloc())?;
    assert_made_later(&rt, rt.alloc(), conn)
}

/// Adds a table to a store.
fn with_table<S: Alter + Drop>(
    rt: &impl Abort,
    mut conn: Connection<S>,
) -> Result<Connection<S>, Fail>
    ensures { IfOk result (λ conn. conn.in_transaction ≡ false) }
{
    conn.execute_batch("CREATE TABLE note (a INTEGER) STRICT")?;
    assert!(rt; conn.is_autocommit());
    Ok(conn)
}

/// Asserts that a store has this many tables.
fn assert_tables<S: Alter + Drop>(
    rt: &impl Abort,
    mut conn: Connection<S>,
    wanted: i64,
) -> Result<(), Fail> {
    let row = conn.query_row("SELECT count(*) FROM sqlite_master", &[])?;
    let count: i64 = row.get(0)?;
    assert_same(rt, count, wanted);
    Ok(())
}

/// Adds a table to a store, and asserts that no archive is made in it or adopted from it.
fn assert_left_alone<S: Alter + Drop>(rt: &impl Abort, conn: Connection<S>) -> Result<(), Fail> {
    let conn = with_table(rt, conn)?;
    let conn = handed_back(rt, Archive::create(conn), StoreFault::Store)?;
    let conn = handed_back(rt, Archive::adopt(conn), StoreFault::Store)?;
    assert_tables(rt, conn, 1)
}

#[test]
fn a_store_with_other_tables_has_no_archive(rt: HostRuntime) -> Result<(), Fail> {
    assert_left_alone(&rt, Connection::open_in_memory(rt.alloc())?)
}

/// Asserts the version of a store's tables, and changes it with a statement.
fn with_version<S: Alter + Drop>(
    rt: &impl Abort,
    mut conn: Connection<S>,
    found: u32,
    change: &str,
) -> Result<Connection<S>, Fail>
    ensures { IfOk result (λ conn. conn.in_transaction ≡ false) }
{
    let row = conn.query_row("SELECT version FROM meta", &[])?;
    let version: u32 = row.get(0)?;
    assert_same(rt, version, found);
    conn.execute(change, &[])?;
    assert!(rt; conn.is_autocommit());
    Ok(conn)
}

/// Sets the version of an archive's tables to another one, asserts that they are left alone, and sets it back.
fn assert_of_its_version<S: Alter + Drop>(
    rt: &impl Abort,
    alloc: Global,
    mut archive: Archive<S>,
) -> Result<(), Fail> {
    let row = "version 3";
    let (before, after) = A_DAY_IS_ADDED.split_at(3);
    take(rt, alloc, &mut archive, row, before)?;
    let to_three = "UPDATE meta SET version = 3 WHERE id = 1";
    let conn = with_version(rt, archive.close(), 2, to_three)?;
    let conn = handed_back(rt, Archive::adopt(conn), StoreFault::Store)?;
    let to_two = "UPDATE meta SET version = 2 WHERE id = 1";
    let conn = with_version(rt, conn, 3, to_two)?;
    take(rt, alloc, &mut adopted(conn)?, row, after)
}

#[test]
fn tables_of_another_version_are_left_alone(rt: HostRuntime) -> Result<(), Fail> {
    assert_of_its_version(&rt, rt.alloc(), open_memory(rt.alloc())?)
}

/// Enters the same hours many times, and withdraws them in another order. Asserts that they are held until the last is withdrawn.
fn withdraw_one_by_one<K: Keeper>(
    rt: &impl Abort,
    alloc: Global,
    keeper: &mut K,
) -> Result<(), Fail> {
    let row = "the same hours";
    take(rt, alloc, keeper, row, &[REGISTER_ANNA])?;
    for number in 1..=SAME {
        let enter = Step::Enter(17, NIGHT_HOURS, Ok((number, 1)));
        take(rt, alloc, keeper, row, &[enter])?;
    }
    let held = Step::Holds(17, &[(0, 300, Activity::Rest)]);
    for place in 0..SAME {
        // Each number comes exactly once, because 387 and the count have no common divisor.
        let number = place * 387 % SAME + 1;
        let withdraw = Step::Withdraw(17, number, number, Ok(()));
        take(rt, alloc, keeper, row, &[held, withdraw])?;
    }
    take(rt, alloc, keeper, row, &[Step::Holds(17, &[])])
}

#[test]
fn the_same_hours_over_a_shelf(rt: HostRuntime) -> Result<(), Fail> {
    withdraw_one_by_one(&rt, rt.alloc(), &mut Shelf::new(rt.alloc()))
}

#[test]
fn the_same_hours_over_an_archive(rt: HostRuntime) -> Result<(), Fail> {
    withdraw_one_by_one(&rt, rt.alloc(), &mut open_memory(rt.alloc())?)
}
