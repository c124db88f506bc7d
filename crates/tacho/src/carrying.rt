//! `tacho carry`: a new archive of what is needed of an archive from a day on.

use crate::advice::{NOT_CARRIED, NOT_MADE, TAKEN, advice_on};
use crate::archive::{FileConnection, announce, connect};
use sqlite::{Alter, Connection};
use tacho_carry::{Carried, carry};
use tacho_cli::{carry_day, tell_answer, tell_carried};
use tacho_desk::Fault;
use tacho_disk::{Fresh, NotFresh, cause_of};
use tacho_state::StoreFault;
use tacho_store::Archive;
use tacho_time::{Day, Device};

/// Why an archive isn't carried over.
#[derive(Clone, Copy)]
enum Failed {
    /// A fault of the old archive.
    Old(StoreFault),
    /// A fault of the new archive.
    New(StoreFault),
    /// A fault of one of the two, while drivers were carried.
    Between(StoreFault),
    /// The new archive's place is taken.
    Taken,
}

/// Why a new archive can't be made or put in its place.
fn not_fresh(fault: NotFresh) -> Failed {
    match fault {
        NotFresh::Taken => Failed::Taken,
        NotFresh::Failed => Failed::New(StoreFault::Store),
        NotFresh::Memory => Failed::New(StoreFault::Memory),
    }
}

/// Whether an archive of schema 2 is there. Returns the connection.
fn adopted<S: Alter + Drop>(conn: Connection<S>) -> (Result<(), StoreFault>, Connection<S>) {
    if !conn.is_autocommit() {
        return (Err(StoreFault::Store), conn);
    }
    match Archive::adopt(conn) {
        Ok(archive) => (Ok(()), archive.close()),
        Err(refusal) => (Err(refusal.0), refusal.1),
    }
}

/// Carries the drivers of one archive into another, which is made in an empty file. Returns both connections.
fn carry_over<S: Alter + Drop>(
    rt: &HostRuntime,
    old: Connection<S>,
    new: Connection<S>,
    from: Day,
) -> (Result<Carried, Failed>, Connection<S>, Connection<S>) {
    if !old.is_autocommit() || !new.is_autocommit() {
        return (Err(Failed::Old(StoreFault::Store)), old, new);
    }
    let mut old = match Archive::adopt(old) {
        Ok(archive) => archive,
        Err(refusal) => return (Err(Failed::Old(refusal.0)), refusal.1, new),
    };
    let mut new = match Archive::create(new) {
        Ok(archive) => archive,
        Err(refusal) => return (Err(Failed::New(refusal.0)), old.close(), refusal.1),
    };
    let done = match carry(rt.alloc(), &mut old, &mut new, from) {
        Ok(done) => Ok(done),
        Err(fault) => Err(Failed::Between(fault)),
    };
    (done, old.close(), new.close())
}

/// What was carried, if the new archive's file is closed.
fn once_closed(done: Result<Carried, Failed>, is_closed: bool) -> Result<Carried, Failed> {
    match done {
        Ok(done) if is_closed => Ok(done),
        Ok(_) => Err(Failed::New(StoreFault::Store)),
        Err(failed) => Err(failed),
    }
}

/// Makes the new archive, and closes it. Returns the old archive's connection.
fn fill(
    rt: &HostRuntime,
    old: FileConnection,
    new: FileConnection,
    from: Day,
) -> (Result<Carried, Failed>, FileConnection) {
    let (done, old, new) = carry_over(rt, old, new, from);
    let is_closed = new.close().is_ok();
    (once_closed(done, is_closed), old)
}

/// Makes the new archive in its unfinished file. Returns the old archive's connection.
fn fill_part(
    rt: &HostRuntime,
    old: FileConnection,
    part: &str,
    from: Day,
) -> (Result<Carried, Failed>, FileConnection) {
    match connect(rt, part) {
        Ok((_, new)) => fill(rt, old, new, from),
        Err(fault) => (Err(Failed::New(fault)), old),
    }
}

/// Puts the new archive in its place if it was made. Nothing of it is left after a failure.
fn put(
    rt: &HostRuntime,
    fresh: &Fresh<'_>,
    done: Result<Carried, Failed>,
) -> Result<Carried, Failed> {
    let done = match done {
        Ok(done) => match fresh.put(rt) {
            Ok(()) => Ok(done),
            Err(fault) => Err(not_fresh(fault)),
        },
        Err(failed) => Err(failed),
    };
    if done.is_err() {
        fresh.remove(rt);
    }
    done
}

/// Makes the new archive, and puts it in its place once it is closed. Returns the old archive's connection.
fn make(
    rt: &HostRuntime,
    old: FileConnection,
    new: &str,
    from: Day,
) -> (Result<Carried, Failed>, FileConnection) {
    match Fresh::new(rt, new) {
        Ok(fresh) => {
            let (done, old) = fill_part(rt, old, fresh.part(), from);
            (put(rt, &fresh, done), old)
        }
        Err(fault) => (Err(not_fresh(fault)), old),
    }
}

/// Carries the archive of a connection over to a new one. Returns the connection.
fn carry_from(
    rt: &HostRuntime,
    old: FileConnection,
    new: &str,
    from: Day,
) -> (Result<Carried, Failed>, FileConnection) {
    let (found, old) = adopted(old);
    match found {
        Ok(()) => make(rt, old, new, from),
        Err(fault) => (Err(Failed::Old(fault)), old),
    }
}

/// Carries the archive at a path over to a new one. The old one is only read: its connection is dropped, and not closed, so that nothing is
/// copied from its log into its file.
fn carry_files(rt: &HostRuntime, path: &str, new: &str, from: Day) -> Result<Carried, Failed> {
    match connect(rt, path) {
        Ok((_, old)) => carry_from(rt, old, new, from).0,
        Err(fault) => Err(Failed::Old(fault)),
    }
}

/// The fault whose line is printed.
fn fault_of(failed: &Failed) -> Fault {
    match failed {
        Failed::Old(fault) | Failed::New(fault) | Failed::Between(fault) => Fault::from(*fault),
        Failed::Taken => Fault::from(StoreFault::Store),
    }
}

/// Whether it is a fault of the new archive.
fn is_of_new(failed: &Failed) -> bool {
    matches!(failed, Failed::New(_) | Failed::Taken)
}

/// The sentence for a person.
fn sentence_of(rt: &HostRuntime, path: &str, failed: &Failed) -> &'static str {
    match failed {
        Failed::Old(StoreFault::Store) => cause_of(rt, path, false),
        Failed::New(StoreFault::Store) => NOT_MADE,
        Failed::Between(StoreFault::Store) => NOT_CARRIED,
        Failed::Taken => TAKEN,
        Failed::Old(fault) | Failed::New(fault) | Failed::Between(fault) => {
            advice_on(Fault::from(*fault))
        }
    }
}

/// Prints the line of a fault, and a sentence for a person on standard error. Returns the program's status.
fn refuse(rt: &HostRuntime, path: &str, new: &str, failed: &Failed) -> u8 {
    let status = tell_answer(&mut Device::new(rt.stdout()), &Err(fault_of(failed)));
    let sentence = sentence_of(rt, path, failed);
    if is_of_new(failed) {
        let _ = eprint!(rt; "tacho: {new}: {sentence}\n");
    } else {
        let _ = eprint!(rt; "tacho: {path}: {sentence}\n");
    }
    status
}

/// Carries the archive at a path over to a new one, from a day on. Prints how many drivers were carried. Returns the program's status.
fn carry_at(rt: &HostRuntime, path: &str, new: &str, from: Day) -> u8 {
    announce(rt, path);
    match carry_files(rt, path, new, from) {
        Ok(done) => tell_carried(&mut Device::new(rt.stdout()), done),
        Err(failed) => refuse(rt, path, new, &failed),
    }
}

/// Prints the line of a fault of the day, and a sentence for a person on standard error. Returns the program's status.
fn refuse_day(rt: &HostRuntime, path: &str, fault: &Fault) -> u8 {
    let status = tell_answer(&mut Device::new(rt.stdout()), &Err(*fault));
    let _ = eprint!(rt; "tacho: {path}: {}\n", advice_on(*fault));
    status
}

/// Reads the day, and carries the archive at a path over to a new one from that day on. After a fault its line is printed, and a sentence for
/// a person on standard error. Returns the program's status.
#[inline(never)]
pub fn carry_on(rt: &HostRuntime, path: &str, new: &str, date: &str) -> u8 {
    match carry_day(date) {
        Ok(from) => carry_at(rt, path, new, from),
        Err(fault) => refuse_day(rt, path, &fault),
    }
}
