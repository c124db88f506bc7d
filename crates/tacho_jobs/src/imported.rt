//! An import of card files at an archive.

ghost use Rattle.std.specs.Prelude.{◌≡◌, ◌⊎◌, Err, false, map, string_bytes};
ghost use Rattle.sqlite.specs.Held.{state};
ghost use Rattle.tacho_state.specs.declared.fault.StoreFault.{StoreFault as Refusal};
ghost use Rattle.tacho_sheet.specs.Fault.{fault_of_store};
ghost use Rattle.tacho_jobs.specs.Ended.{EndsWith, told_reply};
ghost use Rattle.tacho_jobs.specs.Jobs.{AreFilesDone, DoneAt, IsNotOpened};

use crate::ended::{Ended, refuse};
use sqlite::{Alter, Connection};
use std::alloc::Global;
use tacho_cli::{CardFiles, import_files};
use tacho_desk::{Fault, part_of};
use tacho_state::Keeper;
use tacho_store::Archive;
use tacho_time::Sink;

/// Imports card files at an archive, as the office.
fn import_all<K: Keeper, F: CardFiles, W: Sink>(
    alloc: Global,
    keeper: &mut K,
    part: &str,
    names: &[String],
    files: &F,
    writer: &mut W,
) -> Ended
    requires { W.has_failed writer.old ≡ false }
    ensures { AreFilesDone K.stands K.is_clean K.is_live K.leaves (F.gives files.now) keeper.old keeper.new part.now (map string_bytes names.now)
        (W.has_failed writer.new) (W.written writer.old) (W.written writer.new) result }
{
    let status = import_files(alloc, keeper, part, names, files, writer);
    let fault = match part_of(part.as_bytes()) {
        Some(_) => None,
        None => Some(Fault::Part),
    };
    Ended {
        status,
        fault,
        has_short_key: false,
    }
}

/// `tacho import` with files: imports each at the archive of a store (`tacho_cli::import_files`). If the archive can't be opened (S12, S13,
/// M1), the line of that fault is written, and no file is read.
#[inline(never)]
pub fn import_at<S: Alter + Drop, F: CardFiles, W: Sink>(
    alloc: Global,
    conn: Connection<S>,
    part: &str,
    names: &[String],
    files: &F,
    writer: &mut W,
) -> (Ended, Connection<S>)
    requires autocommit { conn.in_transaction ≡ false }
    requires writer { W.has_failed writer.old ≡ false }
    ensures autocommit { result.1.in_transaction ≡ false }
    ensures done { ((cause : Refusal) × IsNotOpened (state S.Store conn) (state S.Store result.1) cause
        × EndsWith told_reply (W.has_failed writer.new) (W.written writer.old) (W.written writer.new) result.0 (Err (fault_of_store cause)))
        ⊎ DoneAt ⟦<Archive<S> as Keeper>⟧.stands ⟦<Archive<S> as Keeper>⟧.is_clean ⟦<Archive<S> as Keeper>⟧.is_live
        ⟦<Archive<S> as Keeper>⟧.leaves (state S.Store conn) (state S.Store result.1)
        (λ before after. AreFilesDone ⟦<Archive<S> as Keeper>⟧.stands ⟦<Archive<S> as Keeper>⟧.is_clean ⟦<Archive<S> as Keeper>⟧.is_live
        ⟦<Archive<S> as Keeper>⟧.leaves (F.gives files.now) before after part.now (map string_bytes names.now)
        (W.has_failed writer.new) (W.written writer.old) (W.written writer.new) result.0) }
{
    let mut archive = match Archive::adopt(conn) {
        Ok(archive) => archive,
        Err(refusal) => return (refuse(writer, refusal.0), refusal.1),
    };
    let ended = import_all(alloc, &mut archive, part, names, files, writer);
    (ended, archive.close())
}
