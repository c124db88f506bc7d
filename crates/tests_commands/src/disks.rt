//! Two disks in memory below a store, one of which takes only a given number of calls.

ghost use Rattle.std.specs.Prelude.{◌≡◌, false, IfOk};

use sqlite::{Connection, FileStore, Options};
use sqlite_disk::{Crash, Disk, Files, Fuse, Memory};
use std::alloc::Global;
use std::process::Abort;
use std::test::Fail;

/// A disk in memory that takes a given number of calls, and fails each later one.
pub(crate) type Fused = Fuse<Memory>;

/// The number of calls for a disk that never fails.
const ALL: u64 = u64::MAX;

/// The file whose disk fails.
#[derive(Clone, Copy)]
pub(crate) enum Stopping {
    Log,
    Tables,
}

/// A disk that has these bytes, and takes this number of calls.
fn disk(alloc: Global, bytes: &[u8], calls: u64) -> Result<Fused, Fail> {
    let mut memory = Memory::new(alloc);
    memory.write_at(0, bytes)?;
    memory.sync()?;
    Ok(Fuse::new(memory, calls))
}

/// Two empty files, on disks that take every call.
pub(crate) fn empty(alloc: Global) -> Result<Files<Fused>, Fail> {
    Ok(Files {
        log: disk(alloc, b"", ALL)?,
        db: disk(alloc, b"", ALL)?,
    })
}

/// Copies of two files, one of them on a disk that takes `calls` calls.
pub(crate) fn copies(
    alloc: Global,
    files: &Files<Fused>,
    stopping: Stopping,
    calls: u64,
) -> Result<Files<Fused>, Fail> {
    let (of_log, of_db) = match stopping {
        Stopping::Log => (calls, ALL),
        Stopping::Tables => (ALL, calls),
    };
    Ok(Files {
        log: disk(alloc, files.log.inner().bytes(), of_log)?,
        db: disk(alloc, files.db.inner().bytes(), of_db)?,
    })
}

/// What a crash may leave of two files, on disks that take every call: everything that was written, and what each file had when it was last
/// synced.
pub(crate) fn restarted(
    alloc: Global,
    mut files: Files<Fused>,
) -> Result<(Files<Fused>, Files<Fused>), Fail> {
    let written = copies(alloc, &files, Stopping::Log, ALL)?;
    files.log.crash();
    files.db.crash();
    Ok((written, files))
}

/// True if both disks still take calls.
pub(crate) fn go_on<D: Disk>(files: &mut Files<D>) -> bool {
    files.may_be_used() && files.log.len().is_ok() && files.db.len().is_ok()
}

/// Opens the store of two files, or returns the files if a disk failed.
pub(crate) fn open<D: Disk + Drop>(
    rt: &impl Abort,
    alloc: Global,
    files: Files<D>,
    options: Options,
) -> Result<Connection<FileStore<D>>, Files<D>>
    ensures { IfOk result (λ conn. conn.in_transaction ≡ false) }
{
    assert!(rt; files.may_be_used(), "a disk that has not stopped");
    match Connection::open_files_with(alloc, files, options, true) {
        Ok(conn) => Ok(conn),
        Err(refused) => Err(refused.1.into_files()),
    }
}

/// Opens the store of two files on disks that don't fail.
pub(crate) fn opened<D: Disk + Drop>(
    rt: &impl Abort,
    alloc: Global,
    files: Files<D>,
    options: Options,
) -> Result<Connection<FileStore<D>>, Fail>
    ensures { IfOk result (λ conn. conn.in_transaction ≡ false) }
{
    match open(rt, alloc, files, options) {
        Ok(conn) => Ok(conn),
        Err(_) => Err("the files are not opened")?,
    }
}

/// Closes a connection, and returns its files.
pub(crate) fn closed<D: Disk + Drop>(conn: Connection<FileStore<D>>) -> Files<D> {
    match conn.close_files() {
        Ok(files) => files,
        Err(refused) => refused.1.close(),
    }
}

/// Gives a connection up, and returns its files. Nothing further is written to them.
pub(crate) fn given_up<D: Disk + Drop>(conn: Connection<FileStore<D>>) -> Files<D> {
    conn.into_store().close()
}
