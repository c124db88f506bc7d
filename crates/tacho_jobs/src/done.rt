//! A task at an archive.

ghost use Rattle.std.specs.Prelude.{◌≡◌, ◌⊎◌, Err, false};
ghost use Rattle.sqlite.specs.Held.{state};
ghost use Rattle.tacho_state.specs.declared.fault.StoreFault.{StoreFault as Refusal};
ghost use Rattle.tacho_sheet.specs.declared.fault.Fault.{Fault as FaultValue};
ghost use Rattle.tacho_sheet.specs.Fault.{fault_of_store};
ghost use Rattle.tacho_desk.specs.Told.{answer_of};
ghost use Rattle.tacho_desk.specs.Wants.{takes_input as has_text};
ghost use Rattle.tacho_desk.specs.Words.{wish_in};
ghost use Rattle.tacho_cli.specs.Office.{OfficeWants};
ghost use Rattle.tacho_jobs.specs.Ended.{EndsWith, told_reply};
ghost use Rattle.tacho_jobs.specs.Jobs.{DoneAt, HasSeenKey, IsNotOpened, IsTaskDone};

use crate::ended::{Ended, end, refuse};
use sqlite::{Alter, Connection};
use std::alloc::Global;
use tacho_cli::{DeskJob, answer_at_desk};
use tacho_desk::{Fault, Text, Want};
use tacho_state::Keeper;
use tacho_store::Archive;
use tacho_time::{Sink, Source};

/// The bytes below which others may guess a driver's key.
const SAFE_KEY: usize = 20;

/// The number at the end of a line.
fn last_number(line: &[u8]) -> Option<u32> {
    let (_, number) = str::from_utf8(line).ok()?.trim_end().rsplit_once(' ')?;
    number.parse().ok()
}

/// Reads the key that a command has given a driver, whose number its text ends with. True if it has fewer than 20 bytes.
fn has_short_key<K: Keeper>(
    alloc: Global,
    keeper: &mut K,
    want: Want,
    answer: &Result<Text, Fault>,
) -> bool
    ensures { HasSeenKey K.stands K.is_clean K.is_live K.leaves K.is_same keeper.old keeper.new result }
{
    let Ok(told) = answer else {
        return false;
    };
    if !matches!(want, Want::Register | Want::Key) {
        return false;
    }
    let Some(driver) = last_number(told.bytes()) else {
        return false;
    };
    match keeper.key(alloc, driver) {
        Ok(key) => key.len() < SAFE_KEY,
        Err(_) => false,
    }
}

/// Does a task at an archive, as the office, and writes its text or the line of its fault.
fn do_task<K: Keeper, R: Source, W: Sink>(
    alloc: Global,
    keeper: &mut K,
    job: DeskJob<'_>,
    reader: &mut R,
    writer: &mut W,
) -> Ended
    requires reader { R.has_failed reader.old ≡ false }
    ensures done { IsTaskDone K.stands K.is_clean K.is_live K.leaves K.is_same keeper.old keeper.new (wish_in job.entry.wish)
        (R.unread reader.old) (R.has_failed reader.new) (W.has_failed writer.new) (W.written writer.old) (W.written writer.new) result }
    ensures alone { has_text job.entry.wish.want ≡ false → reader.new ≡ reader.old }
    ensures words { (fault : FaultValue) → OfficeWants (wish_in job.entry.wish) (Err fault) → reader.new ≡ reader.old }
{
    let answer = answer_at_desk(alloc, job, keeper, reader);
    let ended = end(writer, &answer);
    let is_short = has_short_key(alloc, keeper, job.wish.want, &answer);
    Ended {
        has_short_key: is_short,
        ..ended
    }
}

/// Does a task at the archive of a store, as the office: reads its arguments and its input, acts, and writes its text or the line of its fault
/// (`tacho_cli::perform`). If the archive can't be opened (S12, S13, M1), the line of that fault is written, and the reader isn't touched.
#[inline(never)]
pub fn do_at<S: Alter + Drop, R: Source, W: Sink>(
    alloc: Global,
    conn: Connection<S>,
    job: DeskJob<'_>,
    reader: &mut R,
    writer: &mut W,
) -> (Ended, Connection<S>)
    requires autocommit { conn.in_transaction ≡ false }
    requires reader { R.has_failed reader.old ≡ false }
    ensures autocommit { result.1.in_transaction ≡ false }
    ensures done { ((cause : Refusal) × IsNotOpened (state S.Store conn) (state S.Store result.1) cause
        × EndsWith told_reply (W.has_failed writer.new) (W.written writer.old) (W.written writer.new) result.0 (Err (fault_of_store cause))
        × (reader.new ≡ reader.old))
        ⊎ DoneAt ⟦<Archive<S> as Keeper>⟧.stands ⟦<Archive<S> as Keeper>⟧.is_clean ⟦<Archive<S> as Keeper>⟧.is_live
        ⟦<Archive<S> as Keeper>⟧.leaves (state S.Store conn) (state S.Store result.1)
        (λ before after. IsTaskDone ⟦<Archive<S> as Keeper>⟧.stands ⟦<Archive<S> as Keeper>⟧.is_clean ⟦<Archive<S> as Keeper>⟧.is_live
        ⟦<Archive<S> as Keeper>⟧.leaves ⟦<Archive<S> as Keeper>⟧.is_same before after (wish_in job.entry.wish)
        (R.unread reader.old) (R.has_failed reader.new) (W.has_failed writer.new) (W.written writer.old) (W.written writer.new) result.0) }
    ensures alone { has_text job.entry.wish.want ≡ false → reader.new ≡ reader.old }
    ensures words { (fault : FaultValue) → OfficeWants (wish_in job.entry.wish) (Err fault) → reader.new ≡ reader.old }
{
    let mut archive = match Archive::adopt(conn) {
        Ok(archive) => archive,
        Err(refusal) => return (refuse(writer, refusal.0), refusal.1),
    };
    let ended = do_task(alloc, &mut archive, job, reader, writer);
    (ended, archive.close())
}
