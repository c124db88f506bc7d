//! How an archive is checked.

ghost use Rattle.std.specs.Prelude.{◌≡◌, ◌⊎◌, Err, false, Result, Option};
ghost use Rattle.sqlite.specs.Held.{state};
ghost use Rattle.sqlite.specs.Tree.{Trees};
ghost use Rattle.sqlite_trees.specs.View.{IsClean};
ghost use Rattle.tacho_state.specs.declared.fault.StoreFault.{StoreFault as Refusal};
ghost use Rattle.tacho_state.specs.declared.fault.StoreFault.TheVariants.{Memory};
ghost use Rattle.tacho_check.specs.declared.table.Unsound.{Unsound as Named};
ghost use Rattle.tacho_jobs.specs.Ended.{EndsWith, reported};
ghost use Rattle.tacho_jobs.specs.Jobs.{IsCheckOf, check_reply, check_status};

use crate::ended::{Ended, refuse};
use sqlite::{Alter, Connection};
use std::alloc::Global;
use tacho_check::{Unsound, check, check_text};
use tacho_cli::tell_answer;
use tacho_desk::Text;
use tacho_state::StoreFault;
use tacho_store::find_archive;
use tacho_time::Sink;

/// The program's status after the line of what a check has found was written with this status: 1 if rows are unsound, unless the line can't
/// be written.
fn status_of(told: u8, found: Option<Unsound>) -> u8
    ensures done { told ≡ 0 → result ≡ check_status found }
    ensures failed { told ≡ 3 → result ≡ 3 }
{
    match found {
        Some(_) if told == 0 => 1,
        _ => told,
    }
}

/// Writes what a check has found, with the status 1 if rows are unsound. Otherwise writes the line of the fault.
fn end_check<W: Sink>(
    alloc: Global,
    writer: &mut W,
    found: Result<Option<Unsound>, StoreFault>,
) -> Ended
    ensures { (answer : Result (Option Named) Refusal) × ((answer ≡ found) ⊎ (answer ≡ Err Memory))
        × EndsWith check_reply (W.has_failed writer.new) (W.written writer.old) (W.written writer.new) result (reported answer) }
{
    let found = match found {
        Ok(found) => found,
        Err(fault) => return refuse(writer, fault),
    };
    let Ok(text) = check_text(alloc, found) else {
        return refuse(writer, StoreFault::Memory);
    };
    let told = tell_answer(writer, &Ok(Text::Long(text)));
    Ended {
        status: status_of(told, found),
        fault: None,
        has_short_key: false,
    }
}

/// `tacho check`: reads all rows of an archive of schema 2, and writes whether they are those of a state within its limits: `sound`, or the
/// first driver and table where they aren't. Otherwise writes the line of the fault: S13 if the store has schema 1, S12 if it has neither
/// schema or fails, M1 if memory runs out. Takes the connection, and returns its store, whose rows are as they were.
#[inline(never)]
pub fn check_at<S: Alter + Drop, W: Sink>(
    alloc: Global,
    mut conn: Connection<S>,
    writer: &mut W,
) -> (Ended, S)
    requires { conn.in_transaction ≡ false }
    ensures checked { (answer : Result (Option Named) Refusal)
        × IsCheckOf (state S.Store conn) (IsClean (S.Store.view result.1)) answer
        × EndsWith check_reply (W.has_failed writer.new) (W.written writer.old) (W.written writer.new) result.0 (reported answer) }
    ensures crash { IsClean (S.Store.view result.1)
        → (db : Trees) → S.Store.recovers result.1 db → (state S.Store conn).may_leave db }
{
    if let Err(fault) = find_archive(&mut conn) {
        return (refuse(writer, fault), conn.into_store());
    }
    let (found, store) = check(alloc, conn);
    (end_check(alloc, writer, found), store)
}
