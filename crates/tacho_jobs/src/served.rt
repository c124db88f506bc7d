//! A service at an archive that is opened.

ghost use Rattle.std.specs.Prelude.{◌≡◌, ◌≢◌, ◌⊎◌, [], ℕ, Ok, Err, Some, Result, IfErr, IfSome, IsErr, MatchOption, false, true};
ghost use Rattle.sqlite.specs.Held.{state};
ghost use Rattle.tacho_state.specs.Acts.{OnlyRead};
ghost use Rattle.tacho_state.specs.State.{State};
ghost use Rattle.tacho_state.specs.Steps.{owner};
ghost use Rattle.tacho_state.specs.declared.fault.StoreFault.{StoreFault as Refusal};
ghost use Rattle.tacho_state.specs.declared.fault.StoreFault.TheVariants.{KeyTaken, Store};
ghost use Rattle.tacho_sheet.specs.declared.fault.Fault.{Fault as FaultValue};
ghost use Rattle.tacho_sheet.specs.Fault.{fault_of_store};
ghost use Rattle.tacho_jobs.specs.Ended.{EndsWith, line_reply, told_reply};
ghost use Rattle.tacho_jobs.specs.Jobs.{DoneAt, IsKeyRefusal, IsNotOpened, IsService, IsServiceFault, key_taken};

use crate::ended::{Ended, end, refuse};
use sqlite::{Alter, Connection};
use tacho_desk::{Fault, Text};
use tacho_http::PageFile;
use tacho_serve::{OfficeKey, Place, ServeFault, serve};
use tacho_state::{Keeper, StoreFault};
use tacho_store::Archive;
use tacho_time::Sink;

/// Asks whether a driver has the office's key. Then a service with page files may not begin (S2), and another one does after the place was
/// told.
fn ask_key<K: Keeper, P: Place>(
    rt: &HostRuntime,
    keeper: &mut K,
    key: &OfficeKey<'_>,
    listens: bool,
    place: &mut P,
) -> Result<(), StoreFault>
    ensures read { OnlyRead K.stands K.is_clean K.leaves K.is_same keeper.old keeper.new }
    ensures taken { listens ≡ true → K.is_clean keeper.new → (s : State) → K.stands keeper.old s → (n : ℕ) → owner key.now s ≡ Ok (Some n)
        → IsErr result }
    ensures refused { K.is_clean keeper.new → (s : State) → K.stands keeper.old s → IfErr result IsKeyRefusal }
    ensures only { result ≡ Err KeyTaken → K.is_clean keeper.new → (s : State) → K.stands keeper.old s
        → (listens ≡ true) × ((n : ℕ) × (owner key.now s ≡ Ok (Some n))) }
{
    match keeper.who(key.text().as_bytes()) {
        Ok(None) => Ok(()),
        Ok(Some(_)) if listens => Err(StoreFault::KeyTaken),
        Ok(Some(_)) => {
            place.warn(rt);
            Ok(())
        }
        Err(fault) => Err(fault),
    }
}

/// The fault that is reported of a service which ended early.
fn fault_of(fault: ServeFault) -> Fault
    ensures faults { IsServiceFault result }
    ensures free { result ≢ key_taken }
{
    match fault {
        ServeFault::Device => Fault::Device,
        ServeFault::Store => Fault::from(StoreFault::Store),
        ServeFault::Memory => Fault::Memory,
    }
}

/// `tacho serve`, and `tacho listen` with page files: answers `count` connections on a port of 127.0.0.1 at the archive of a store
/// (`tacho_serve::serve`), and writes nothing, or the line of the fault: S12 or S13 if the archive can't be opened, S2 if a driver has the
/// office's key and there are page files, X2 if the port failed, M1 if memory ran out, S12 if the store failed during service, or somebody
/// else changed its files. After the last fault no connection is returned, so that nothing is written to what is in the files' place.
#[inline(never)]
pub fn serve_at<S: Alter + Drop, P: Place, W: Sink>(
    rt: &HostRuntime,
    conn: Connection<S>,
    key: &OfficeKey<'_>,
    port: u16,
    count: u32,
    files: &[PageFile],
    place: &mut P,
    writer: &mut W,
) -> (Ended, Option<Connection<S>>)
    requires { conn.in_transaction ≡ false }
    ensures autocommit { IfSome result.1 (λ after. after.in_transaction ≡ false) }
    ensures served { MatchOption result.1
        (EndsWith told_reply (W.has_failed writer.new) (W.written writer.old) (W.written writer.new) result.0 (Err (fault_of_store Store)))
        (λ after. ((cause : Refusal) × IsNotOpened (state S.Store conn) (state S.Store after) cause
        × EndsWith told_reply (W.has_failed writer.new) (W.written writer.old) (W.written writer.new) result.0 (Err (fault_of_store cause)))
        ⊎ DoneAt ⟦<Archive<S> as Keeper>⟧.stands ⟦<Archive<S> as Keeper>⟧.is_clean ⟦<Archive<S> as Keeper>⟧.is_live
        ⟦<Archive<S> as Keeper>⟧.leaves (state S.Store conn) (state S.Store after)
        (λ old new. (answer : Result (Unit {0}) FaultValue)
        × IsService ⟦<Archive<S> as Keeper>⟧.stands ⟦<Archive<S> as Keeper>⟧.is_clean ⟦<Archive<S> as Keeper>⟧.is_live
        ⟦<Archive<S> as Keeper>⟧.leaves files.now key.now old new answer
        × EndsWith (line_reply []) (W.has_failed writer.new) (W.written writer.old) (W.written writer.new) result.0 answer)) }
{
    let mut archive = match Archive::adopt(conn) {
        Ok(archive) => archive,
        Err(refusal) => return (refuse(writer, refusal.0), Some(refusal.1)),
    };
    if let Err(fault) = ask_key(rt, &mut archive, key, !files.is_empty(), place) {
        return (refuse(writer, fault), Some(archive.close()));
    }
    place.note(rt);
    match serve(rt, &mut archive, place, key, files, port, count) {
        Ok(()) => (end(writer, &Ok(Text::Fixed(b""))), Some(archive.close())),
        Err(ServeFault::Store) => (refuse(writer, StoreFault::Store), None),
        Err(fault) => (end(writer, &Err(fault_of(fault))), Some(archive.close())),
    }
}
