//! Crashes: archives on two disks, one of which fails after a number of calls, and what is found when the files are opened again.

ghost use Rattle.std.specs.Prelude.{◌≡◌, false};

use crate::commands::{Command, is_answered, take, told};
use crate::disks::{Stopping, closed, copies, empty, given_up, go_on, open, opened, restarted};
use crate::rows::{A_DAY, ANNA, ANOTHER_DAY, NOON, REGISTRATION};
use sqlite::{Alter, Connection, Options};
use sqlite_disk::{Disk, Files};
use std::alloc::Global;
use std::process::Abort;
use std::test::Fail;
use tacho_shelf::Shelf;
use tacho_state::{Keeper, StoreFault};
use tacho_store::Archive;

/// The most calls that a run makes.
pub(crate) const MOST: u64 = 10_000;

/// What a crash has left of the command that it interrupted.
#[derive(Clone, Copy, Debug, PartialEq, Eq)]
pub(crate) enum Outcome {
    /// The archive is as it was before the command.
    Before,
    /// The command was done.
    Behind,
    /// Both are the same, because the command changes nothing.
    Unchanged,
    /// There was no command: the files were being closed.
    Closed,
}

/// A store, its disk that fails, and the least number of crashes, in the script and in a migration.
#[derive(Clone, Copy)]
pub(crate) struct Kind {
    pub(crate) name: &'static str,
    pub(crate) stopping: Stopping,
    pub(crate) options: Options,
    stops: usize,
    pub(crate) stops_of_migration: usize,
}

/// The options of the program's store, but with less memory, as these archives don't need more. Its log is copied into the tables' file
/// when it is closed.
pub(crate) const ROOMY: Options = Options {
    cache_pages: 50,
    spill_pages: 50,
    checkpoint_frames: 1000,
    seed: 7,
};

/// A store that reads pages again for each command, writes some to its log before they are committed, and copies them into the tables' file
/// after most commands.
const NARROW: Options = Options {
    cache_pages: 2,
    spill_pages: 2,
    checkpoint_frames: 3,
    seed: 7,
};

/// Each store and disk.
pub(crate) const KINDS: [Kind; 4] = [
    Kind {
        name: "log of a roomy store",
        stopping: Stopping::Log,
        options: ROOMY,
        stops: 80,
        stops_of_migration: 40,
    },
    Kind {
        name: "tables of a roomy store",
        stopping: Stopping::Tables,
        options: ROOMY,
        stops: 20,
        stops_of_migration: 30,
    },
    Kind {
        name: "log of a narrow store",
        stopping: Stopping::Log,
        options: NARROW,
        stops: 200,
        stops_of_migration: 40,
    },
    Kind {
        name: "tables of a narrow store",
        stopping: Stopping::Tables,
        options: NARROW,
        stops: 80,
        stops_of_migration: 30,
    },
];

/// A day's rest.
const SATURDAY: &str = "start,past,activity\n2024-03-09 00:00,2024-03-10 00:00,rest\n";

/// Two days' rest.
const TWO_DAYS: &str =
    "start,past,activity\n2024-03-09 00:00,2024-03-10 00:00,rest\n2024-03-10 00:00,2024-03-11 00:00,rest\n";

/// The commands that are interrupted. Each except the entries is repeated, and the last one is refused.
const SCRIPT: [Command; 19] = [
    ANNA,
    ("register", REGISTRATION, "S1 driver taken\n", 1),
    ("import both", NOON, "added driver 17 number 1\n", 0),
    ("import both", NOON, "repeated driver 17\n", 0),
    ("enter 17", SATURDAY, "entered 1 to 1\n", 0),
    ("withdraw 17 1", "", "withdrawn 1\n", 0),
    ("withdraw 17 1", "", "S8 already withdrawn\n", 1),
    ("import both", A_DAY, "added driver 17 number 2\n", 0),
    ("import both", A_DAY, "repeated driver 17\n", 0),
    ("base 17 2024-03-11", "", "base 2024-03-11\n", 0),
    ("base 17 2024-03-11", "", "base 2024-03-11\n", 0),
    ("key 17", "anna-key-2", "key 17\n", 0),
    ("key 17", "anna-key-2", "key 17\n", 0),
    ("enter 17", TWO_DAYS, "entered 2 to 3\n", 0),
    ("withdraw 17 2 3", "", "withdrawn 2 to 3\n", 0),
    ("withdraw 17 2 3", "", "S8 already withdrawn\n", 1),
    ("name 17", "Anna Lind\n", "name 17\n", 0),
    ("name 17", "Anna Lind\n", "name 17\n", 0),
    (
        "import both",
        ANOTHER_DAY,
        "S6 contradiction at 2024-03-04 08:00\n",
        1,
    ),
];

/// What is shown for a store without tables.
const NOTHING: &str = "no archive\n";

/// The contents before each command of the script, and after the last one. Making the archive is the first command.
fn states(rt: &impl Abort, alloc: Global) -> Result<Vec<String>, Fail> {
    let mut shelf = Shelf::new(alloc);
    let mut states = Vec::new(alloc);
    states.push(String::from_str(alloc, NOTHING)?)?;
    states.push(told(alloc, &mut shelf)?)?;
    for command in SCRIPT {
        take(rt, alloc, &mut shelf, "shelf", &[command])?;
        states.push(told(alloc, &mut shelf)?)?;
    }
    Ok(states)
}

/// Gives an archive the commands of the script from one on. Returns how many commands of the script are done when its store fails, or at
/// the end.
fn done_of_script<K: Keeper>(
    rt: &impl Abort,
    alloc: Global,
    keeper: &mut K,
    row: &str,
    from: usize,
) -> Result<usize, Fail> {
    for (place, command) in SCRIPT.iter().enumerate().skip(from) {
        if !is_answered(rt, alloc, keeper, row, *command)? {
            return Ok(place);
        }
    }
    Ok(SCRIPT.len())
}

/// Makes an archive in a store and gives it the script. Returns how many commands were done, where making the archive is the first, and the
/// store's connection.
fn run_in<S: Alter + Drop>(
    rt: &impl Abort,
    alloc: Global,
    conn: Connection<S>,
    row: &str,
) -> Result<(usize, Connection<S>), Fail>
    requires { conn.in_transaction ≡ false }
{
    match Archive::create(conn) {
        Ok(mut archive) => {
            let done = done_of_script(rt, alloc, &mut archive, row, 0)?;
            Ok((done.saturating_add(1), archive.close()))
        }
        Err(refused) => {
            assert!(rt;
                matches!(refused.0, StoreFault::Store),
                "{row}: {:?}",
                refused.0
            );
            Ok((0, refused.1))
        }
    }
}

/// Likewise in two files, up to a crash. Returns how many commands were done, and the files.
fn run<D: Disk + Drop>(
    rt: &impl Abort,
    alloc: Global,
    files: Files<D>,
    row: &str,
    options: Options,
) -> Result<(usize, Files<D>), Fail> {
    let conn = match open(rt, alloc, files, options) {
        Ok(conn) => conn,
        Err(files) => return Ok((0, files)),
    };
    let (done, conn) = run_in(rt, alloc, conn, row)?;
    let files = if done > SCRIPT.len() {
        closed(conn)
    } else {
        given_up(conn)
    };
    Ok((done, files))
}

/// The archive of a store, and its contents. If there are no tables, that is shown instead, and the archive is made.
fn found<S: Alter + Drop>(
    rt: &impl Abort,
    alloc: Global,
    conn: Connection<S>,
) -> Result<(Archive<S>, String), Fail>
    requires { conn.in_transaction ≡ false }
{
    match Archive::adopt(conn) {
        Ok(mut archive) => {
            let text = told(alloc, &mut archive)?;
            Ok((archive, text))
        }
        Err(refused) => {
            assert!(rt;
                matches!(refused.0, StoreFault::Store),
                "no tables: {:?}",
                refused.0
            );
            let archive = Archive::create(refused.1).map_err(|refused| refused.0)?;
            Ok((archive, String::from_str(alloc, NOTHING)?))
        }
    }
}

/// What is left of the command after the first `done` commands, if the archive has these contents. Any other text fails the test.
fn outcome_of(
    rt: &impl Abort,
    row: &str,
    states: &[String],
    done: usize,
    text: &str,
) -> Result<Outcome, Fail> {
    let before = states.get(done).ok_or("a state")?;
    let is_before = text == before.as_str();
    let Some(behind) = states.get(done.saturating_add(1)) else {
        assert!(rt; is_before, "{row}, all done: {text}");
        return Ok(Outcome::Closed);
    };
    let is_after = text == behind.as_str();
    assert!(rt; is_before || is_after, "{row}, {done} done: {text}");
    Ok(match (is_before, is_after) {
        (true, true) => Outcome::Unchanged,
        (true, false) => Outcome::Before,
        _ => Outcome::Behind,
    })
}

/// Asserts the contents of a store's archive after `done` commands, and gives it the rest of the script.
fn judge_in<S: Alter + Drop>(
    rt: &impl Abort,
    alloc: Global,
    conn: Connection<S>,
    row: &str,
    states: &[String],
    done: usize,
) -> Result<(Outcome, Connection<S>), Fail>
    requires { conn.in_transaction ≡ false }
{
    let (mut archive, text) = found(rt, alloc, conn)?;
    let outcome = outcome_of(rt, row, states, done, &text)?;
    // Making the archive is no command of the script.
    let from = if outcome == Outcome::Behind {
        done
    } else {
        done.saturating_sub(1)
    };
    let all = done_of_script(rt, alloc, &mut archive, row, from)?;
    assert!(rt; all == SCRIPT.len(), "{row}, {done} done: S12 of {all}");
    Ok((outcome, archive.close()))
}

/// Likewise in two files, which are closed then.
fn judge_at<D: Disk + Drop>(
    rt: &impl Abort,
    alloc: Global,
    files: Files<D>,
    row: &str,
    options: Options,
    states: &[String],
    done: usize,
) -> Result<(Outcome, Files<D>), Fail> {
    let conn = opened(rt, alloc, files, options)?;
    let (outcome, conn) = judge_in(rt, alloc, conn, row, states, done)?;
    Ok((outcome, closed(conn)))
}

/// Asserts the contents of the files that a crash has left after `done` commands. Also asserts that the rest of the script leads to the
/// state after all commands, which is found when the files are opened again.
fn judge<D: Disk + Drop>(
    rt: &impl Abort,
    alloc: Global,
    files: Files<D>,
    row: &str,
    options: Options,
    states: &[String],
    done: usize,
) -> Result<Outcome, Fail> {
    let (outcome, files) = judge_at(rt, alloc, files, row, options, states, done)?;
    let all = SCRIPT.len().saturating_add(1);
    judge_at(rt, alloc, files, row, options, states, all)?;
    Ok(outcome)
}

/// What a crash after `calls` calls leaves of the script: of what was written, and of what was synced. None if no crash happens.
fn stop(
    rt: &impl Abort,
    alloc: Global,
    states: &[String],
    kind: Kind,
    calls: u64,
) -> Result<Option<[Outcome; 2]>, Fail> {
    let row = format!(in alloc; "{}, {calls} calls", kind.name)?;
    let files = copies(alloc, &empty(alloc)?, kind.stopping, calls)?;
    let (done, mut files) = run(rt, alloc, files, &row, kind.options)?;
    if go_on(&mut files) {
        assert!(rt; done > SCRIPT.len(), "{row}: {done} done");
        return Ok(None);
    }
    let (written, synced) = restarted(alloc, files)?;
    let written = judge(rt, alloc, written, &row, kind.options, states, done)?;
    let synced = judge(rt, alloc, synced, &row, kind.options, states, done)?;
    Ok(Some([written, synced]))
}

/// What each crash of a kind leaves of the script, up to the first run without a crash.
fn outcomes(
    rt: &impl Abort,
    alloc: Global,
    states: &[String],
    kind: Kind,
) -> Result<Vec<[Outcome; 2]>, Fail> {
    let mut outcomes = Vec::new(alloc);
    for calls in 0..MOST {
        match stop(rt, alloc, states, kind, calls)? {
            Some(left) => outcomes.push(left)?,
            None => return Ok(outcomes),
        }
    }
    Err("each run was stopped")?
}

/// The outcomes that must occur for what was written, at least.
const WRITTEN: &[Outcome] = &[
    Outcome::Before,
    Outcome::Behind,
    Outcome::Unchanged,
    Outcome::Closed,
];

/// The outcomes that must occur for what was synced.
const SYNCED: &[Outcome] = &[Outcome::Before, Outcome::Unchanged, Outcome::Closed];

/// Asserts that there were at least this many crashes.
pub(crate) fn assert_many(rt: &impl Abort, name: &str, outcomes: &[[Outcome; 2]], least: usize) {
    let stops = outcomes.len();
    assert!(rt; least <= stops, "{name}: {stops} stops");
}

/// Asserts that outcomes occurred, for what was written (0) or for what was synced (1).
pub(crate) fn assert_met(
    rt: &impl Abort,
    outcomes: &[[Outcome; 2]],
    place: usize,
    wanted: &[Outcome],
) {
    for &one in wanted {
        let is_met = outcomes.iter().any(|left| left.get(place) == Some(&one));
        assert!(rt; is_met, "none is {one:?}");
    }
}

#[test]
fn a_crash_leaves_the_state_before_a_command_or_after_it(rt: HostRuntime) -> Result<(), Fail> {
    let alloc = rt.alloc();
    let states = states(&rt, alloc)?;
    let mut met = Vec::new(alloc);
    for kind in KINDS {
        let outcomes = outcomes(&rt, alloc, &states, kind)?;
        assert_many(&rt, kind.name, &outcomes, kind.stops);
        met.extend_from_slice(&outcomes)?;
    }
    assert_met(&rt, &met, 0, WRITTEN);
    assert_met(&rt, &met, 1, SYNCED);
    Ok(())
}
