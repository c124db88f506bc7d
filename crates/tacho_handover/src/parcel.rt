ghost use Rattle.std.specs.Prelude.{◌≡◌, ◌+◌, ◌++◌, ◌∷◌, [], ℕ, List, Ok, IfErr, IfOk, OnOk};
ghost use Rattle.tacho_state.specs.State.{Download};
ghost use Rattle.tacho_state.specs.Files.{listed_file, told_file};
ghost use Rattle.tacho_state.specs.Summaries.{told_summary};
ghost use Rattle.tacho_sheet.specs.Fault.{IsFailure};
ghost use Rattle.tacho_tar.specs.Tar.{Member};
ghost use Rattle.tacho_handover.specs.Parcel.{HasFiles, HasMembers, IsClosed};

use crate::contents::{card_name, contents_of, push_file};
use crate::covering::{add_within, spans_of};
use std::alloc::{AllocError, Global};
use std::marker::Model;
use tacho_line::Line;
use tacho_sheet::Fault;
use tacho_state::{DriverSummary, FileSummary, StoreFault};
use tacho_tar::{TarFault, push_end, push_member};
use tacho_time::{Day, Minute};

/// Room for what is in the tar file besides the card files and the texts of `room_for`.
const SPARE: usize = 4096;

/// Room for a card file besides its bytes: its header, the rest of its last block, and its line in the contents.
const SPARE_FOR_EACH: usize = 1280;

/// Room in bytes for a tar file of card files and of texts, which have `texts` bytes together.
pub fn room_for(files: &[FileSummary], texts: usize) -> usize {
    let mut room = texts.saturating_add(SPARE);
    for file in files {
        room = room
            .saturating_add(file.length)
            .saturating_add(SPARE_FOR_EACH);
    }
    room
}

/// What was made, or S12 for a file that a tar file can't have, since no archive keeps such a file.
fn fault_of_tar<T>(made: Result<T, TarFault>) -> Result<T, Fault>
    ensures made { IfOk result (λ value. made ≡ Ok value) }
    ensures failure { IfErr result IsFailure }
{
    match made {
        Ok(value) => Ok(value),
        Err(TarFault::Memory) => Err(Fault::Memory),
        Err(TarFault::Name | TarFault::Size) => Err(Fault::Store(StoreFault::Store)),
    }
}

/// A handover that is being made: its period, what its card files give there, the tar file so far, and the lines of its files in the contents.
#[derive(Drop)]
pub struct Parcel {
    start: Minute,
    past: Minute,
    held: Line,
    tar: Vec<u8>,
    lines: Vec<u8>,
}

impl Model for Parcel {
    ghost use Rattle.tacho_handover.specs.Parcel.{Parcel as Made};

    ghost Value = { Made };

    ghost view = { λ p. record { start = p.start; past = p.past; held = p.held; tar = p.tar.items; lines = p.lines.items } };
}

impl Parcel {
    /// Begins the handover of a period from `start` to before `past`, with room for a tar file of `room` bytes.
    pub fn new(
        alloc: Global,
        start: Minute,
        past: Minute,
        room: usize,
    ) -> Result<Parcel, AllocError>
        ensures files { IfOk result (λ p. (holder : List ℕ) (i : ℕ) → HasFiles holder i [] p) }
        ensures start { IfOk result (λ p. p.start ≡ start) }
        ensures past { IfOk result (λ p. p.past ≡ past) }
    {
        Ok(Parcel {
            start,
            past,
            held: Line::empty(alloc),
            tar: Vec::with_capacity(alloc, room)?,
            lines: Vec::new(alloc),
        })
    }

    /// Adds a file to the tar file, and its line to the contents.
    fn add(&mut self, alloc: Global, name: &[u8], content: &[u8]) -> Result<(), TarFault>
        ensures added { OnOk result ((members : List Member) → HasMembers members self.old
            → HasMembers (members ++ record { name = name.now; content = content.now } ∷ []) self.new) }
        ensures start { self.new.start ≡ self.old.start }
        ensures past { self.new.past ≡ self.old.past }
        ensures held { self.new.held ≡ self.old.held }
    {
        push_member(&mut self.tar, name, content)?;
        push_file(alloc, &mut self.lines, name, content)?;
        Ok(())
    }

    /// Takes the next older card file if it gives something of the period that the newer ones don't give. Fails with S12 if no archive keeps
    /// such a file.
    pub fn offer(
        &mut self,
        alloc: Global,
        holder: &[u8],
        file: &FileSummary,
        bytes: &[u8],
    ) -> Result<(), Fault>
        ensures offered { OnOk result ((i : ℕ) (newer : List Download) (d : Download) → HasFiles holder.now (i + 1) newer self.old
            → told_file file.now ≡ listed_file i d → bytes.now ≡ d.file → HasFiles holder.now i (d ∷ newer) self.new) }
        ensures start { self.new.start ≡ self.old.start }
        ensures past { self.new.past ≡ self.old.past }
        ensures failure { IfErr result IsFailure }
    {
        let spans = spans_of(alloc, file.part, bytes)?;
        if add_within(alloc, &mut self.held, &spans, self.start, self.past)? {
            let name = card_name(holder, file);
            fault_of_tar(self.add(alloc, &name, bytes))?;
        }
        Ok(())
    }

    /// Adds the entries and the contents. Returns the tar file. `from` and `past` are the days of the period.
    pub fn close(
        self,
        alloc: Global,
        program: &[u8],
        driver: &DriverSummary,
        from: Day,
        past: Day,
        entries: &[u8],
        missing: &[u8],
    ) -> Result<Vec<u8>, Fault>
        ensures closed { IfOk result (λ tar. IsClosed self program.now (told_summary driver.now) from past entries.now missing.now tar.items) }
        ensures failure { IfErr result IsFailure }
    {
        fault_of_tar(self.end(alloc, program, driver, from, past, entries, missing))
    }

    /// The same, or the fault of a tar file.
    fn end(
        mut self,
        alloc: Global,
        program: &[u8],
        driver: &DriverSummary,
        from: Day,
        past: Day,
        entries: &[u8],
        missing: &[u8],
    ) -> Result<Vec<u8>, TarFault>
        ensures { IfOk result (λ tar. IsClosed self program.now (told_summary driver.now) from past entries.now missing.now tar.items) }
    {
        self.add(alloc, b"entries.txt", entries)?;
        let contents = contents_of(alloc, program, driver, from, past, &self.lines, missing)?;
        push_member(&mut self.tar, b"contents.txt", &contents)?;
        push_end(&mut self.tar)?;
        Ok(self.tar)
    }
}
