//! The files of an open archive, which nobody else changes.

ghost use Rattle.std.specs.Prelude.{◌≡◌, ◌↔◌, true};

use std::alloc::AllocError;
use std::fs;
use std::io::{self, ErrorKind, Read, Seek, SeekFrom};
use std::os::unix::fs::MetadataExt;

/// How many bytes of a log are noted: its head, which is a new one each time that the log begins anew.
const HEAD: usize = 32;

/// What is noted of a file: the device that it is on, its number there, its length in bytes, and when anything of it was last changed. Of a
/// log its first bytes too, or zeros if it is shorter.
#[derive(Clone, Copy)]
struct Note {
    device: u64,
    number: u64,
    length: u64,
    seconds: i64,
    nanoseconds: i64,
    head: [u8; HEAD],
}

/// What is noted of an archive: its file, and its log, which is there as long as the archive is open.
#[derive(Clone, Copy)]
struct Notes {
    file: Note,
    log: Note,
}

/// True if two notes are the same.
fn is_same(before: &Note, now: &Note) -> bool
    ensures { (result ≡ true) ↔ (before.now ≡ now.now) }
{
    before.device == now.device
        && before.number == now.number
        && before.length == now.length
        && before.seconds == now.seconds
        && before.nanoseconds == now.nanoseconds
        && before.head == now.head
}

/// True if two notes of an archive are the same.
fn are_same(before: &Notes, now: &Notes) -> bool
    ensures { (result ≡ true) ↔ (before.now ≡ now.now) }
{
    is_same(&before.file, &now.file) && is_same(&before.log, &now.log)
}

/// Notes a file. A link isn't followed, and only a regular file can be noted.
fn note_of(rt: &HostRuntime, path: &str) -> io::Result<Note> {
    let found = fs::symlink_metadata(rt, path)?;
    if !found.is_file() {
        return Err(io::Error::from(ErrorKind::InvalidInput));
    }
    Ok(Note {
        device: found.dev(),
        number: found.ino(),
        length: found.len(),
        seconds: found.ctime(),
        nanoseconds: found.ctime_nsec(),
        head: [0; HEAD],
    })
}

/// The first bytes of a log of this length in bytes, or zeros if it is shorter.
fn head_of(log: &mut fs::File, length: u64) -> io::Result<[u8; HEAD]> {
    let mut head = [0; HEAD];
    if length >= 32 {
        log.seek(SeekFrom::Start(0))?;
        log.read_exact(&mut head)?;
    }
    Ok(head)
}

/// The files of an open archive, and what was last noted of them. The log stays open here too, so that it can be read when the program may open
/// no more files. If its path names another file, the note has another number.
#[derive(Drop)]
pub struct Watched<'a> {
    path: &'a str,
    log_path: String,
    log: Option<fs::File>,
    notes: Option<Notes>,
}

impl<'a> Watched<'a> {
    /// Notes the files of the archive that has just been opened at a path, whose links are resolved.
    pub fn new(rt: &HostRuntime, path: &'a str) -> Result<Watched<'a>, AllocError> {
        let log_path = format!(in rt.alloc(); "{path}-wal")?;
        let log = fs::File::open(rt, &log_path).ok();
        let mut watched = Watched {
            path,
            log_path,
            log,
            notes: None,
        };
        watched.note(rt);
        Ok(watched)
    }

    /// What can be noted of the files now.
    fn notes_now(&mut self, rt: &HostRuntime) -> io::Result<Notes> {
        let file = note_of(rt, self.path)?;
        let log = note_of(rt, &self.log_path)?;
        let Some(open) = &mut self.log else {
            return Err(io::Error::from(ErrorKind::NotFound));
        };
        let head = head_of(open, log.length)?;
        let log = Note { head, ..log };
        Ok(Notes { file, log })
    }

    /// Notes the files after the archive itself has written to them.
    pub fn note(&mut self, rt: &HostRuntime) {
        self.notes = self.notes_now(rt).ok();
    }

    /// True if nobody has changed, replaced or moved the files since they were noted. False also if they can't be noted now, or couldn't then.
    pub fn are_unchanged(&mut self, rt: &HostRuntime) -> bool {
        match (self.notes, self.notes_now(rt)) {
            (Some(before), Ok(now)) => are_same(&before, &now),
            _ => false,
        }
    }
}
