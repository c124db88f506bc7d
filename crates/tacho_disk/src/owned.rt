//! The files of an archive, which belong to the user who runs the program, and which only they read and write: they contain the keys of
//! drivers.

use std::alloc::AllocError;
use std::fs::{self, Metadata, Permissions};
use std::io::{self, ErrorKind};
use std::os::unix::fs::{MetadataExt, OpenOptionsExt, PermissionsExt};

/// The mode of a new file.
pub(crate) const OWNER_ALONE: u32 = 0o600;

/// A folder of the system that belongs to the user who runs the program.
const PROCESS: &str = "/proc/self";

/// Why a file can't be made or used.
#[derive(Clone, Copy)]
pub enum NotOwned {
    /// It isn't there, isn't a regular file, has a second link, or belongs to another user; or a log has no file.
    File,
    /// Out of memory.
    Memory,
}

impl From<AllocError> for NotOwned {
    fn from(_: AllocError) -> NotOwned {
        NotOwned::Memory
    }
}

impl From<io::Error> for NotOwned {
    fn from(error: io::Error) -> NotOwned {
        match error.kind() {
            ErrorKind::OutOfMemory => NotOwned::Memory,
            _ => NotOwned::File,
        }
    }
}

/// The number of the user who runs the program.
pub(crate) fn user_of_process(rt: &HostRuntime) -> io::Result<u32> {
    Ok(fs::metadata(rt, PROCESS)?.uid())
}

/// The file that a path names, if there is one. It has to be a regular file of this user: a link isn't followed.
fn own_at(rt: &HostRuntime, path: &str, user: u32) -> Result<Option<Metadata>, NotOwned> {
    match fs::symlink_metadata(rt, path) {
        Ok(found) if found.is_file() && found.uid() == user => Ok(Some(found)),
        Ok(_) => Err(NotOwned::File),
        Err(error) if error.kind() == ErrorKind::NotFound => Ok(None),
        Err(error) => Err(NotOwned::from(error)),
    }
}

/// The path of an archive without links. Its file, and its log if it has one, have to be regular files of the user who runs the program.
pub fn own_place(rt: &HostRuntime, path: &str) -> Result<String, NotOwned> {
    let place = fs::canonicalize(rt, path)?.into_string();
    let log = format!(in rt.alloc(); "{place}-wal")?;
    let user = user_of_process(rt)?;
    own_at(rt, &log, user)?;
    match own_at(rt, &place, user)? {
        Some(_) => Ok(place),
        None => Err(NotOwned::File),
    }
}

/// Makes an empty file for a new archive, which only its owner reads and writes. If there is an empty file already, that one is taken, and an
/// empty log too; they get that mode. Nothing is changed if one of them isn't a regular file of the user with one link, or if there is a log
/// that isn't empty without its file. If the file isn't empty, the store reports it.
pub fn make_own(rt: &HostRuntime, path: &str) -> Result<(), NotOwned> {
    let log = format!(in rt.alloc(); "{path}-wal")?;
    let user = user_of_process(rt)?;
    match (own_at(rt, path, user)?, own_at(rt, &log, user)?) {
        (Some(file), _) if file.len() > 0 => Ok(()),
        (None, Some(log_file)) if log_file.len() > 0 => Err(NotOwned::File),
        (file, log_file) if has_second_link(&file) || has_second_link(&log_file) => {
            Err(NotOwned::File)
        }
        (file, log_file) => {
            match file {
                Some(file) => close_to_others(rt, path, &file)?,
                None => make_empty(rt, path)?,
            }
            match log_file {
                Some(log_file) => close_to_others(rt, &log, &log_file),
                None => Ok(()),
            }
        }
    }
}

/// True if a file has a second link.
fn has_second_link(found: &Option<Metadata>) -> bool {
    match found {
        Some(found) => found.nlink() != 1,
        None => false,
    }
}

/// Makes an empty file with that mode.
fn make_empty(rt: &HostRuntime, path: &str) -> Result<(), NotOwned> {
    let mut options = fs::File::options();
    options
        .write(true)
        .create_new(true)
        .mode(OWNER_ALONE)
        .open(rt, path)?;
    Ok(())
}

/// Gives a file that mode. The mode is given to the file that is open, if it is the one that was found: meanwhile another one may have got the
/// path.
fn close_to_others(rt: &HostRuntime, path: &str, found: &Metadata) -> Result<(), NotOwned> {
    let file = fs::File::open(rt, path)?;
    if !is_same(found, &file.metadata()?) {
        return Err(NotOwned::File);
    }
    file.set_permissions(Permissions::from_mode(OWNER_ALONE))?;
    Ok(())
}

/// True if a file that is open is the one that was found, and has one link.
fn is_same(found: &Metadata, opened: &Metadata) -> bool {
    opened.dev() == found.dev()
        && opened.ino() == found.ino()
        && opened.uid() == found.uid()
        && opened.nlink() == 1
}
