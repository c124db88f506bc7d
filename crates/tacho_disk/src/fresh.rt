//! The file of an archive that is made beside its place, and is put there once it is complete.

use crate::owned::OWNER_ALONE;
use std::alloc::AllocError;
use std::fs;
use std::io::ErrorKind;
use std::os::unix::fs::OpenOptionsExt;

/// Why an archive can't be made or put in its place.
#[derive(Clone, Copy)]
pub enum NotFresh {
    /// A file of one of its names is there.
    Taken,
    /// The system refused it.
    Failed,
    /// Out of memory.
    Memory,
}

impl From<AllocError> for NotFresh {
    fn from(_: AllocError) -> NotFresh {
        NotFresh::Memory
    }
}

/// A new archive's place, and the file in which it is made: its name with `.part` after it.
#[derive(Drop)]
pub struct Fresh<'a> {
    path: &'a str,
    part: String,
    log: String,
}

impl<'a> Fresh<'a> {
    /// Makes an empty file beside an archive's place, which only its owner reads and writes. There may be no file there, no log, and neither of
    /// an unfinished archive.
    pub fn new(rt: &HostRuntime, path: &'a str) -> Result<Fresh<'a>, NotFresh> {
        let place_log = format!(in rt.alloc(); "{path}-wal")?;
        let part = format!(in rt.alloc(); "{path}.part")?;
        let log = format!(in rt.alloc(); "{path}.part-wal")?;
        for name in [path, &place_log, &log] {
            if fs::symlink_metadata(rt, name).is_ok() {
                return Err(NotFresh::Taken);
            }
        }
        let mut options = fs::File::options();
        let made = options
            .write(true)
            .create_new(true)
            .mode(OWNER_ALONE)
            .open(rt, &part);
        match made {
            Ok(_) => Ok(Fresh { path, part, log }),
            Err(error) => match error.kind() {
                ErrorKind::AlreadyExists => Err(NotFresh::Taken),
                ErrorKind::OutOfMemory => Err(NotFresh::Memory),
                _ => Err(NotFresh::Failed),
            },
        }
    }

    /// The path of the file in which the archive is made.
    pub fn part(&self) -> &str {
        &self.part
    }

    /// Puts the archive, which is closed and complete, in its place.
    pub fn put(&self, rt: &HostRuntime) -> Result<(), NotFresh> {
        // At close everything was copied from the log into the file.
        let _ = fs::remove_file(rt, &self.log);
        if fs::rename(rt, &self.part, self.path).is_err() {
            return Err(NotFresh::Failed);
        }
        // So that the name outlasts a power failure.
        if let Ok(folder) = fs::File::open(rt, folder_of(self.path)) {
            let _ = folder.sync_all();
        }
        Ok(())
    }

    /// Removes what was made.
    pub fn remove(&self, rt: &HostRuntime) {
        let _ = fs::remove_file(rt, &self.part);
        let _ = fs::remove_file(rt, &self.log);
    }
}

/// The folder of a path.
fn folder_of(path: &str) -> &str {
    match path.rsplit_once('/') {
        None => ".",
        Some(("", _)) => "/",
        Some((folder, _)) => folder,
    }
}
