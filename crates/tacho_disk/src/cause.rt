//! Why an archive's file can't be used, for a person. The system is asked after the failure, so the cause is only probable.

use crate::owned::user_of_process;
use std::fs::{self, Metadata};
use std::io::{ErrorKind, Read};
use std::os::unix::fs::MetadataExt;

/// The first bytes of a database of SQLite.
const MAGIC: &[u8; 16] = b"SQLite format 3\0";

/// The sentence if a file or a log belongs to another user.
const OF_ANOTHER: &str =
    "it or its log belongs to another user; run the command as that user, as root by runuser -u tacho -- tacho";

/// The sentence if there is a log, and the file is gone.
const ALONE: &str =
    "the file is gone, and its log is there, which was not changed; put the file back";

/// The system's error numbers: too many open files, in the system or in the program, and a file system that can only be read.
const ENFILE: i32 = 23;

const EMFILE: i32 = 24;

const EROFS: i32 = 30;

/// The probable cause for which the archive at a path can't be used, or made if `makes`.
pub fn cause_of(rt: &HostRuntime, path: &str, makes: bool) -> &'static str {
    if user_of_process(rt).is_err() {
        return "the system does not say who runs the program: /proc is not there";
    }
    if let Some(cause) = cause_of_log(rt, path) {
        return cause;
    }
    match fs::metadata(rt, path) {
        Ok(found) if is_of_another(rt, &found) => OF_ANOTHER,
        Ok(found) if makes && found.len() > 0 => {
            "there is a file already, which was not changed; init makes a new archive"
        }
        Ok(found) if !found.is_file() => "it is not a file",
        Ok(found) if found.nlink() > 1 => {
            "it has a second link, beside which its log would be missed; remove one"
        }
        Ok(_) => cause_of_file(rt, path),
        Err(error) => match error.kind() {
            ErrorKind::NotFound if fs::symlink_metadata(rt, path).is_ok() => {
                "it is a link to a file that is not there"
            }
            ErrorKind::NotFound if makes => "its folder does not exist, or may not be written",
            ErrorKind::NotFound => "there is no such file; tacho init makes an archive",
            ErrorKind::PermissionDenied => "you have no permission to read its folder",
            _ => "it cannot be found",
        },
    }
}

/// The probable cause if it lies in the log beside the file.
fn cause_of_log(rt: &HostRuntime, path: &str) -> Option<&'static str> {
    let Ok(log) = format!(in rt.alloc(); "{path}-wal") else {
        return None;
    };
    let Ok(found) = fs::symlink_metadata(rt, &log) else {
        return None;
    };
    if !found.is_file() {
        return Some("its log, with -wal after its name, is not a file");
    }
    if is_of_another(rt, &found) {
        return Some(OF_ANOTHER);
    }
    match fs::symlink_metadata(rt, path) {
        Err(error) if error.kind() == ErrorKind::NotFound => Some(ALONE),
        _ => None,
    }
}

/// True if a file belongs to another user than the one who runs the program.
fn is_of_another(rt: &HostRuntime, found: &Metadata) -> bool {
    match user_of_process(rt) {
        Ok(user) => found.uid() != user,
        Err(_) => false,
    }
}

/// The probable cause if the path names a file.
fn cause_of_file(rt: &HostRuntime, path: &str) -> &'static str {
    if has_journal(rt, path) {
        return "another program has left a journal beside it, in the middle of a change: restore a backup";
    }
    let opened = fs::File::options().read(true).write(true).open(rt, path);
    match opened {
        Ok(mut file) => {
            let mut head = [0u8; 16];
            if file.read_exact(&mut head).is_err() || head != *MAGIC {
                "it is not an archive"
            } else {
                "probably another program has it open (is the service running? then ask it by a request); or it is damaged, or its disk is full"
            }
        }
        Err(error) => match error.raw_os_error() {
            Some(EROFS) => "its disk can only be read",
            Some(ENFILE | EMFILE) => "too many files are open",
            _ => "you have no permission to read and write it",
        },
    }
}

/// Whether a rollback journal is beside the file, as SQLite leaves it after a crash in another mode.
fn has_journal(rt: &HostRuntime, path: &str) -> bool {
    match format!(in rt.alloc(); "{path}-journal") {
        Ok(journal) => matches!(fs::exists(rt, &journal), Ok(true)),
        Err(_) => false,
    }
}
