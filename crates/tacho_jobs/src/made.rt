//! How an archive is made, and migrated.

ghost use Rattle.std.specs.Prelude.{◌≡◌, codes, false, Result};
ghost use Rattle.tacho_state.specs.declared.fault.StoreFault.{StoreFault as Refusal};
ghost use Rattle.tacho_jobs.specs.Ended.{EndsWith, line_reply, reported};
ghost use Rattle.tacho_jobs.specs.Jobs.{IsInit, IsMigration};

use crate::ended::{Ended, end, refuse};
use sqlite::{Alter, Connection};
use tacho_desk::Text;
use tacho_store::Archive;
use tacho_time::Sink;

/// `tacho init`: makes an archive without drivers in a store without tables, and writes `created`. Otherwise writes the line of the fault:
/// S12 if the store has tables or fails, M1 if memory runs out. Then the store is as it was.
#[inline(never)]
pub fn init_at<S: Alter + Drop, W: Sink>(
    conn: Connection<S>,
    writer: &mut W,
) -> (Ended, Connection<S>)
    requires { conn.in_transaction ≡ false }
    ensures autocommit { result.1.in_transaction ≡ false }
    ensures made { (answer : Result (Unit {0}) Refusal) × IsInit S.Store conn result.1 answer
        × EndsWith (line_reply (codes "created\n")) (W.has_failed writer.new) (W.written writer.old) (W.written writer.new) result.0 (reported answer) }
{
    match Archive::create(conn) {
        Ok(archive) => {
            let conn = archive.close();
            (end(writer, &Ok(Text::Fixed(b"created\n"))), conn)
        }
        Err(refusal) => (refuse(writer, refusal.0), refusal.1),
    }
}

/// `tacho migrate`: migrates an archive of schema 1 to schema 2, leaves one of schema 2 as it is, and writes `migrated`. Otherwise writes the
/// line of the fault: S12 if the store has neither schema or fails, M1 if memory runs out. Then the store is as it was.
#[inline(never)]
pub fn migrate_at<S: Alter + Drop, W: Sink>(
    conn: Connection<S>,
    writer: &mut W,
) -> (Ended, Connection<S>)
    requires { conn.in_transaction ≡ false }
    ensures autocommit { result.1.in_transaction ≡ false }
    ensures migrated { (answer : Result (Unit {0}) Refusal) × IsMigration S.Store conn result.1 answer
        × EndsWith (line_reply (codes "migrated\n")) (W.has_failed writer.new) (W.written writer.old) (W.written writer.new) result.0 (reported answer) }
{
    match Archive::migrate(conn) {
        Ok(archive) => {
            let conn = archive.close();
            (end(writer, &Ok(Text::Fixed(b"migrated\n"))), conn)
        }
        Err(refusal) => (refuse(writer, refusal.0), refusal.1),
    }
}
