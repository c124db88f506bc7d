//! The file of an archive, and the jobs that are done there.
//!
//! The jobs are those of `tacho_jobs`. A function on an archive is generic over its store, and takes and returns the connection by value. Only
//! `open_file` and `at_file` name the file's store: there each call of a function that is generic over a store is proved again, which takes 15
//! to 50 times as long.

ghost use Rattle.std.specs.Prelude.{◌≡◌, false};

use crate::advice::{LOST, NO_PORT, OFFICE_KEY, SHORT_KEY, advice_on};
use sqlite::{Alter, Connection, Error, ErrorCode, File, FileStore};
use std::alloc::Global;
use std::fs;
use std::io::IsTerminal;
use tacho_cli::{CardFiles, DeskJob, read_input};
use tacho_desk::Fault;
use tacho_disk::{NotOwned, Watched, cause_of, make_own, own_place};
use tacho_http::PageFile;
use tacho_jobs::{Ended, check_at, do_at, import_at, init_at, migrate_at, refuse, serve_at};
use tacho_pages::page_files;
use tacho_serve::{OfficeKey, Place};
use tacho_state::StoreFault;
use tacho_time::Device;

/// A connection to a file.
pub(crate) type FileConnection = Connection<FileStore<File>>;

/// The megabytes above which a file is large.
const LARGE: u64 = 20;

/// What is done at the archive in a file.
#[derive(Clone, Copy)]
pub enum Work<'a> {
    /// Makes the archive, in a new file.
    Create,
    /// Migrates it to schema 2.
    Migrate,
    /// Checks whether its tables represent a state.
    Check,
    /// Does a task, with standard input and output.
    Task(DeskJob<'a>),
    /// Imports the card files with these names.
    Import {
        part: &'a str,
        names: &'a [String],
    },
    /// Answers `count` connections on a port of 127.0.0.1, with the office's key and those of drivers.
    Serve {
        key: &'a OfficeKey<'a>,
        port: u16,
        count: u32,
    },
    /// Does the same, and serves the pages. Prints the address of the office's page if somebody waits at a terminal.
    Listen {
        key: &'a OfficeKey<'a>,
        port: u16,
        count: u32,
    },
}

/// The card files of the file system.
#[derive(Clone, Copy)]
struct Cards<'a> {
    rt: &'a HostRuntime,
}

impl CardFiles for Cards<'_> {
    ghost gives = { λ files name read. Unit {0} };

    fn read(&self, alloc: Global, name: &str) -> Result<Vec<u8>, Fault> {
        match fs::File::open(self.rt, name) {
            Ok(file) => read_input(alloc, &mut Device::new(file)),
            Err(_) => Err(Fault::Device),
        }
    }
}

/// The files of an open archive at a path, and the port on which page files are served, if they are.
#[derive(Drop)]
struct Files<'a> {
    path: &'a str,
    watched: Watched<'a>,
    page_port: Option<u16>,
}

impl Place for Files<'_> {
    fn note(&mut self, rt: &HostRuntime) {
        self.watched.note(rt);
    }

    fn warn(&mut self, rt: &HostRuntime) {
        let _ = eprint!(rt; "tacho: {}: {OFFICE_KEY}\n", self.path);
    }

    fn begin(&mut self, rt: &HostRuntime) {
        if let Some(port) = self.page_port {
            show_address(rt, port);
        }
    }

    fn is_unchanged(&mut self, rt: &HostRuntime) -> bool {
        self.watched.are_unchanged(rt)
    }
}

/// Tells who waits at a terminal where the office's page is.
fn show_address(rt: &HostRuntime, port: u16) {
    if rt.stderr().is_terminal() {
        let _ = eprint!(rt; "tacho: http://127.0.0.1:{port}/office/\n");
    }
}

/// Answers `count` connections on a port of 127.0.0.1, at the archive of a connection to the file with this path, which has no links.
fn serve_files<S: Alter + Drop>(
    rt: &HostRuntime,
    conn: Connection<S>,
    path: &str,
    key: &OfficeKey<'_>,
    port: u16,
    count: u32,
    files: &[PageFile],
) -> (Ended, Option<Connection<S>>)
    requires { conn.in_transaction ≡ false }
{
    let mut writer = Device::new(rt.stdout());
    let Ok(watched) = Watched::new(rt, path) else {
        return (refuse(&mut writer, StoreFault::Memory), Some(conn));
    };
    let page_port = if files.is_empty() { None } else { Some(port) };
    let mut place = Files {
        path,
        watched,
        page_port,
    };
    serve_at(rt, conn, key, port, count, files, &mut place, &mut writer)
}

/// Checks the archive of a connection. A check leaves no connection to close: it changes nothing, so there is nothing to write back.
fn check_file<S: Alter + Drop>(
    rt: &HostRuntime,
    conn: Connection<S>,
) -> (Ended, Option<Connection<S>>)
    requires { conn.in_transaction ≡ false }
{
    let (ended, _store) = check_at(rt.alloc(), conn, &mut Device::new(rt.stdout()));
    (ended, None)
}

/// Does the work at the archive of a connection to the file with this path, which has no links. Returns the connection, unless the work was a
/// check, or the files are lost.
#[inline(never)]
fn at_connection<S: Alter + Drop>(
    rt: &HostRuntime,
    conn: Connection<S>,
    path: &str,
    work: Work<'_>,
) -> (Ended, Option<Connection<S>>) {
    let mut reader = Device::new(rt.stdin());
    let mut writer = Device::new(rt.stdout());
    if !conn.is_autocommit() {
        return (refuse(&mut writer, StoreFault::Store), Some(conn));
    }
    let (ended, conn) = match work {
        Work::Check => return check_file(rt, conn),
        Work::Create => init_at(conn, &mut writer),
        Work::Migrate => migrate_at(conn, &mut writer),
        Work::Task(job) => do_at(rt.alloc(), conn, job, &mut reader, &mut writer),
        Work::Import { part, names } => {
            import_at(rt.alloc(), conn, part, names, &Cards { rt }, &mut writer)
        }
        Work::Serve { key, port, count } => {
            return serve_files(rt, conn, path, key, port, count, &[]);
        }
        Work::Listen { key, port, count } => {
            return serve_files(rt, conn, path, key, port, count, &page_files());
        }
    };
    (ended, Some(conn))
}

/// The fault of files that aren't the user's.
fn not_owned(fault: NotOwned) -> StoreFault {
    match fault {
        NotOwned::File => StoreFault::Store,
        NotOwned::Memory => StoreFault::Memory,
    }
}

/// Opens an archive's file: a new one if the archive is to be made, otherwise an existing one. A new file gets checksums of its pages, by which
/// later opens find what was changed in it. Returns the file's path without links, too.
fn open_file(
    rt: &HostRuntime,
    path: &str,
    work: Work<'_>,
) -> Result<(String, FileConnection), StoreFault> {
    if matches!(work, Work::Create) {
        make_own(rt, path).map_err(not_owned)?;
    }
    connect(rt, path)
}

/// Opens an archive's file, which is there and belongs to the user. Returns its path without links, too.
pub(crate) fn connect(
    rt: &HostRuntime,
    path: &str,
) -> Result<(String, FileConnection), StoreFault> {
    let place = own_place(rt, path).map_err(not_owned)?;
    match Connection::open_with_sums(rt, &place) {
        Ok(conn) => Ok((place, conn)),
        Err(Error::SqliteFailure(ErrorCode::OutOfMemory)) => Err(StoreFault::Memory),
        Err(_) => Err(StoreFault::Store),
    }
}

/// Tells who waits at a terminal that a large file is opened, which takes seconds.
pub(crate) fn announce(rt: &HostRuntime, path: &str) {
    let Ok(found) = fs::metadata(rt, path) else {
        return;
    };
    let megabytes = found.len() / 1_000_000;
    if megabytes > LARGE && rt.stderr().is_terminal() {
        let _ = eprint!(rt; "tacho: opening {path}, {megabytes} MB\n");
    }
}

/// The sentence for a person after a job that ended with a fault. `is_lost` says that the files were lost during service.
fn sentence_of(
    rt: &HostRuntime,
    path: &str,
    work: Work<'_>,
    fault: Fault,
    is_lost: bool,
) -> &'static str {
    let serves = matches!(work, Work::Serve { .. } | Work::Listen { .. });
    match fault {
        Fault::Device if serves => NO_PORT,
        Fault::Store(StoreFault::Store) if serves && is_lost => LOST,
        Fault::Store(StoreFault::Store) => cause_of(rt, path, matches!(work, Work::Create)),
        fault => advice_on(fault),
    }
}

/// Writes a sentence for a person on standard error, if a job failed, or if it gave a driver a key that others may guess.
fn advise(rt: &HostRuntime, path: &str, work: Work<'_>, ended: &Ended, is_lost: bool) {
    if let Some(fault) = ended.fault {
        let sentence = sentence_of(rt, path, work, fault, is_lost);
        let _ = eprint!(rt; "tacho: {path}: {sentence}\n");
    } else if ended.has_short_key {
        let _ = eprint!(rt; "tacho: {path}: {SHORT_KEY}\n");
    }
}

/// Does the work at the archive in a file, and returns the program's status. What was done is durable, even if the file's log can't be written
/// back to the file at close: the next open does that. After a fault standard error gets a sentence for a person.
pub fn at_file(rt: &HostRuntime, path: &str, work: Work<'_>) -> u8 {
    announce(rt, path);
    let (ended, is_lost) = match open_file(rt, path, work) {
        Ok((place, conn)) => match at_connection(rt, conn, &place, work) {
            (ended, Some(conn)) => {
                let _ = conn.close();
                (ended, false)
            }
            (ended, None) => (ended, true),
        },
        Err(fault) => (refuse(&mut Device::new(rt.stdout()), fault), false),
    };
    advise(rt, path, work, &ended, is_lost);
    ended.status
}
