ghost use Rattle.std.specs.Prelude.{◌≡◌, IfOk, MatchResult, string_bytes};
ghost use Rattle.tacho_state.specs.Limits.{IsName, IsNote};
ghost use Rattle.tacho_state.specs.Batch.{Hours, IsFirstBadText};

use crate::driver::Column;
use crate::limits::{is_name, is_note};
use std::alloc::{AllocError, Global};
use std::marker::Model;
use tacho_time::{Activity, Minute};

/// Hours of one activity that are entered by hand: minutes from `start` to before `past`, their author and their note. Author and note are
/// within their limits.
#[derive(Debug, Drop)]
pub struct EntryLine {
    start: Minute,
    past: Minute,
    activity: Activity,
    author: String,
    note: String,
}

impl Model for EntryLine {
    ghost use Rattle.std.specs.Prelude.{string_bytes};
    ghost use Rattle.tacho_state.specs.Limits.{IsName, IsNote};
    ghost use Rattle.tacho_state.specs.Batch.{Hours};

    ghost Value = { Hours };

    ghost view = { λ l. record { start = l.start; past = l.past; activity = l.activity; author = string_bytes l.author; note = string_bytes l.note } };

    ghost invariant = { λ l. IsName (string_bytes l.author) × IsNote (string_bytes l.note) };
}

impl EntryLine {
    ghost use Rattle.std.specs.Prelude.{◌≡◌, IfOk};

    /// Makes hours with this author and note, or returns the first of the two that is out of its limits: an author has 1 to 64 bytes, a
    /// note at most 200, both without control characters, commas and double quotes. Allocates no memory.
    pub fn new(
        start: Minute,
        past: Minute,
        activity: Activity,
        author: String,
        note: String,
    ) -> Result<EntryLine, Column>
        ensures { let line : Hours = record { start = start; past = past; activity = activity; author = string_bytes author; note = string_bytes note } in
            MatchResult result (λ made. (made ≡ line) × IsName line.author × IsNote line.note) (IsFirstBadText line) }
    {
        if !is_name(&author) {
            return Err(Column::Author);
        }
        if !is_note(&note) {
            return Err(Column::Note);
        }
        Ok(EntryLine {
            start,
            past,
            activity,
            author,
            note,
        })
    }

    /// Returns the first minute.
    pub fn start(&self) -> Minute
        ensures { result ≡ self.now.start }
    {
        self.start
    }

    /// Returns the minute after the last.
    pub fn past(&self) -> Minute
        ensures { result ≡ self.now.past }
    {
        self.past
    }

    /// Returns the driver's activity.
    pub fn activity(&self) -> Activity
        ensures { result ≡ self.now.activity }
    {
        self.activity
    }

    /// Returns the author.
    pub fn author(&self) -> &str
        ensures { result.now ≡ self.now.author }
    {
        &self.author
    }

    /// Returns the note, which may be empty.
    pub fn note(&self) -> &str
        ensures { result.now ≡ self.now.note }
    {
        &self.note
    }

    /// Makes a copy of these hours.
    pub fn copy(&self, alloc: Global) -> Result<EntryLine, AllocError>
        ensures { IfOk result (λ line. line ≡ self.now) }
    {
        let author = String::from_str(alloc, &self.author)?;
        let note = String::from_str(alloc, &self.note)?;
        Ok(EntryLine {
            start: self.start,
            past: self.past,
            activity: self.activity,
            author,
            note,
        })
    }
}

/// An entry of a driver. A withdrawn entry stays listed, and gives nothing.
#[derive(Debug, Drop)]
pub struct Entry {
    pub number: u32,
    pub line: EntryLine,
    pub withdrawn: bool,
}

/// The result of an `enter`: the number of the first entry, and how many there are. If there are none, `first` is the number of the
/// driver's next entry.
#[derive(Clone, Copy, Debug, PartialEq, Eq)]
pub struct Entered {
    pub first: u32,
    pub count: u32,
}
