ghost use Rattle.std.specs.Prelude.{◌≡◌, ◌≢◌, ℕ, Err, IfOk};
ghost use Rattle.tacho_time.specs.OrMemory.{OrMemory};
ghost use Rattle.tacho_time.specs.Spans.{Gives, IsCanonicalOf, Conflicts};
ghost use Rattle.tacho_state.specs.Acts.{IsOfNoFile};
ghost use Rattle.tacho_state.specs.State.{driver_of, driver_with_key, holding};
ghost use Rattle.std.specs.Option.{option_copied};
ghost use Rattle.tacho_shelf.specs.Shelf.{IsIndexOf, numbered};

use crate::hours::{Hours, add_spans, hours_of};
use std::alloc::{AllocError, Global};
use std::marker::Model;
use tacho_card::Part;
use tacho_line::{Line, LineFault};
use tacho_state::{
    Driver, DriverSummary, Entered, Entry, EntryLine, FileSummary, Imported, StoreFault,
    file_summary, first_number, is_monday, line_of, stretches_of,
};
use tacho_stretches::Stretch;
use tacho_time::{Day, Span, SpanFault};

/// A card file that was accepted, and the spans that it gives.
#[derive(Drop)]
pub(crate) struct Download {
    part: Part,
    pub(crate) file: Vec<u8>,
    spans: Vec<Span>,
}

impl Model for Download {
    ghost use Rattle.tacho_state.specs.State.{Download as Accepted};
    ghost use Rattle.tacho_state.specs.Numbers.{part_number};

    ghost Value = { Accepted };

    ghost view = { λ d. record { part = part_number d.part; file = d.file.items; spans = d.spans.items } };
}

/// A driver, with their downloads and entries ordered by number. Downloads and entries don't contradict each other, and there are at most
/// as many of each as there are numbers.
#[derive(Drop)]
pub(crate) struct Row {
    pub(crate) number: u32,
    pub(crate) holder: Vec<u8>,
    pub(crate) key: String,
    pub(crate) base: Day,
    pub(crate) name: String,
    downloads: Vec<Download>,
    entries: Vec<Hours>,
}

impl Model for Row {
    ghost use Rattle.std.specs.Prelude.{string_bytes};
    ghost use Rattle.tacho_state.specs.State.{Driver as Registered};
    ghost use Rattle.tacho_shelf.specs.Shelf.{AreKept};

    ghost Value = { Registered };

    ghost view = { λ d. record {
      number = d.number;
      holder = d.holder.items;
      key = string_bytes d.key;
      base = d.base;
      name = string_bytes d.name;
      downloads = d.downloads.items;
      entries = d.entries.items;
    } };

    ghost invariant = { λ d. AreKept d.downloads.items d.entries.items };
}

impl Row {
    ghost use Rattle.std.specs.Prelude.{◌≡◌, ◌*◌, ◌+◌, ◌-◌, ◌<◌, ◌≤◌, ℕ, ◌++◌, length, All, None, Ok, Err, string_bytes, IfOk, IfErr, OnOk, MatchResult, map};
    ghost use Rattle.std.specs.Option.{option_copied};
    ghost use Rattle.tacho_time.specs.Spans.{Gives, IsCanonical, IsCanonicalOf, Conflicts};
    ghost use Rattle.tacho_line.specs.Line.{first_empty, mark_at};
    ghost use Rattle.tacho_stretches.specs.Stretches.{AreStretches, judged_of};
    ghost use Rattle.tacho_state.specs.Batch.{IsEntryLine, batch_of};
    ghost use Rattle.tacho_state.specs.Least.{least_conflict, is_within};
    ghost use Rattle.tacho_state.specs.State.{Held, given_spans, held_mark, held_spans, download_from};
    ghost use Rattle.tacho_state.specs.Steps.{import_own, enter_own, withdraw_own, withdraw_from, rebase_own, rekey_own, rename_own, numbered_from};
    ghost use Rattle.tacho_state.specs.Numbers.{part_number};
    ghost use Rattle.tacho_state.specs.Acts.{IsOfNoFile};
    ghost use Rattle.tacho_state.specs.declared.imported.Imported.TheVariants.{Repeated};
    ghost use Rattle.tacho_state.specs.Files.{listed_from, told_file};
    ghost use Rattle.tacho_state.specs.Summaries.{summary_of, told_summary};
    ghost use Rattle.tacho_shelf.specs.Shelf.{IsOwnStep, IsLeast, IsEntered, AreKept, new_driver};

    /// Makes a driver who is registered now.
    pub(crate) fn new(alloc: Global, driver: &Driver) -> Result<Row, AllocError>
        ensures { IfOk result (λ row. row ≡ new_driver driver.now) }
    {
        Ok(Row {
            number: driver.number(),
            holder: Vec::from_slice(alloc, driver.holder())?,
            key: String::from_str(alloc, driver.key())?,
            base: driver.base(),
            name: String::from_str(alloc, driver.name())?,
            downloads: Vec::new(alloc),
            entries: Vec::new(alloc),
        })
    }

    /// Returns the spans of all downloads.
    fn given_spans(&self, alloc: Global) -> Result<Vec<Span>, AllocError>
        ensures given { IfOk result (λ spans. spans.items ≡ given_spans self.now.downloads) }
        ensures kept { AreKept self.now.downloads self.now.entries }
    {
        let mut spans = Vec::new(alloc);
        for download in &self.downloads {
            spans.extend_from_slice(&download.spans)?;
        }
        Ok(spans)
    }

    /// Returns the line of what the driver holds.
    pub(crate) fn line(&self, alloc: Global) -> Result<Line, AllocError>
        ensures line { IfOk result (λ line. IsCanonicalOf (Held self.now) line) }
        ensures marks { IfOk result (λ line. mark_at line ≡ held_mark self.now) }
    {
        let mut spans = self.given_spans(alloc)?;
        add_spans(&mut spans, &self.entries)?;
        Ok(agreed_line(alloc, &spans)?)
    }

    /// Returns the line of what the driver holds, and its stretches from their base.
    pub(crate) fn line_and_stretches(
        &self,
        alloc: Global,
    ) -> Result<(Line, Vec<Stretch>), StoreFault>
        ensures line { IfOk result (λ found. mark_at found.0 ≡ held_mark self.now) }
        ensures stretches { IfOk result (λ found. AreStretches (held_spans self.now) (1440 * self.now.base) (map judged_of found.1.items)) }
        ensures fault { IfErr result (λ fault. OrMemory StoreFault.Memory fault (fault ≡ StoreFault.Store)) }
    {
        let line = self.line(alloc)?;
        let stretches = stretches_of(alloc, &line, self.base.number())?;
        Ok((line, stretches))
    }

    /// Returns what is listed of the driver.
    pub(crate) fn summary(&self, alloc: Global) -> Result<DriverSummary, AllocError>
        ensures { IfOk result (λ summary. told_summary summary ≡ summary_of self.now) }
    {
        Ok(DriverSummary {
            number: self.number,
            holder: Vec::from_slice(alloc, &self.holder)?,
            base: self.base,
            downloads: self.downloads.len() as u32,
            entries: self.entries.len() as u32,
            name: String::from_str(alloc, &self.name)?,
        })
    }

    /// Returns the driver's download with this number.
    #[tactic(auto, using(crate::proofs::PlaceLemmas::download_numbered))]
    pub(crate) fn download(&self, number: u32) -> Option<&Download>
        ensures { option_copied result ≡ download_from 1 number self.now.downloads }
    {
        numbered(&self.downloads, number)
    }

    /// Lists the driver's card files ordered by number.
    pub(crate) fn files(&self, alloc: Global) -> Result<Vec<FileSummary>, AllocError>
        ensures { IfOk result (λ files. map told_file files.items ≡ listed_from 1 self.now.downloads) }
    {
        let mut files = Vec::new(alloc);
        let mut number = 1u32;
        for download in &self.downloads {
            files.push(file_summary(number, download.part, &download.file, &download.spans))?;
            number += 1;
        }
        Ok(files)
    }

    /// True if the downloads already give all that the spans give.
    fn has_given(&self, alloc: Global, spans: &[Span]) -> Result<bool, AllocError>
        requires { first_empty spans.now ≡ None }
        ensures { IfOk result (λ given. is_within spans.now (given_spans self.now.downloads) ≡ given) }
    {
        let given = self.given_spans(alloc)?;
        let line = agreed_line(alloc, &given)?;
        match line.gains(alloc, spans) {
            Ok(gains) => Ok(gains.is_empty()),
            Err(LineFault::Contradiction(_)) => Ok(false),
            Err(LineFault::EmptySpan(_)) => unreachable!(),
            Err(LineFault::Memory) => Err(AllocError),
        }
    }

    /// Fails with the least minute at which the spans contradict what the driver holds, or each other: S6.
    fn check(&self, alloc: Global, spans: &[Span]) -> Result<(), StoreFault>
        requires { first_empty spans.now ≡ None }
        ensures told { MatchResult result (λ _. least_conflict (held_spans self.now ++ spans.now) ≡ None)
            (IsLeast (least_conflict (held_spans self.now ++ spans.now))) }
        ensures agreed { OnOk result ((m : ℕ) → ¬ (Conflicts (Gives (held_spans self.now ++ spans.now)) m)) }
        ensures of_no_file { IsOfNoFile result }
    {
        let line = self.line(alloc)?;
        match line.gains(alloc, spans) {
            Ok(_) => Ok(()),
            Err(fault) => Err(gain_fault(fault)),
        }
    }

    /// Imports a file from which these spans of a part were read: S6, S14. All memory is allocated before the driver changes.
    pub(crate) fn import(
        &mut self,
        alloc: Global,
        part: Part,
        file: &[u8],
        spans: Vec<Span>,
    ) -> Result<Imported, StoreFault>
        requires { IsCanonical spans.items }
        ensures step { IsOwnStep (λ done. done) (import_own (part_number part) file.now spans.items) self.old self.new result }
        ensures repeated { (number : ℕ) → result ≡ Ok (Repeated number) → self.new ≡ self.old }
    {
        if self.has_given(alloc, &spans)? {
            return Ok(Imported::Repeated {
                driver: self.number,
            });
        }
        self.check(alloc, &spans)?;
        let Some(number) = first_number(self.downloads.len() as u32, 1) else {
            return Err(StoreFault::Full);
        };
        let file = Vec::from_slice(alloc, file)?;
        self.downloads.push(Download { part, file, spans })?;
        Ok(Imported::Added {
            driver: self.number,
            number,
        })
    }

    /// Enters all of a batch or none: S6, S14. All memory is allocated before the driver changes.
    pub(crate) fn enter(
        &mut self,
        alloc: Global,
        lines: &[EntryLine],
    ) -> Result<Entered, StoreFault>
        requires { All IsEntryLine lines.now }
        ensures step { IsOwnStep (λ done. done.first) (enter_own (batch_of lines.now)) self.old self.new result }
        ensures count { IfOk result (λ done. done.count ≡ length lines.now) }
    {
        let mut batch = hours_of(alloc, lines)?;
        let mut spans = Vec::new(alloc);
        add_spans(&mut spans, &batch)?;
        self.check(alloc, &spans)?;
        let Ok(count) = u32::try_from(batch.len()) else {
            return Err(StoreFault::Full);
        };
        let Some(first) = first_number(self.entries.len() as u32, count) else {
            return Err(StoreFault::Full);
        };
        self.entries.append(&mut batch)?;
        Ok(Entered { first, count })
    }

    /// Fails if an entry can't be withdrawn: S7, S8.
    #[tactic(auto, using(crate::proofs::PlaceLemmas::entry_numbered))]
    fn check_entry(&self, number: u32) -> Result<(), StoreFault>
        ensures told { MatchResult result (λ _. IsEntered self.now.entries number) (λ fault. withdraw_own number self.now ≡ Err fault) }
        ensures of_no_file { IsOfNoFile result }
    {
        let Some(hours) = numbered(&self.entries, number) else {
            return Err(StoreFault::UnknownEntry);
        };
        if hours.withdrawn {
            return Err(StoreFault::AlreadyWithdrawn);
        }
        Ok(())
    }

    /// Marks an entry as withdrawn, which isn't withdrawn yet. It is a function of its own so that the invariant holds after each entry.
    fn mark(&mut self, number: u32)
        requires { IsEntered self.old.entries number }
        ensures { withdraw_own number self.old ≡ Ok (tt, self.new) }
    {
        let place = (number - 1) as usize;
        self.entries[place].withdraw();
    }

    /// Withdraws the entries from number `first` to `last`, all of them or none: S7, S8. All are checked before the first is marked, so
    /// that a refusal changes nothing.
    pub(crate) fn withdraw(&mut self, first: u32, last: u32) -> Result<(), StoreFault>
        requires { first ≤ last }
        ensures { IsOwnStep (λ _. tt) (withdraw_from first (last + 1 - first)) self.old self.new result }
    {
        for number in first..=last {
            if let Err(fault) = self.check_entry(number) {
                return Err(fault);
            }
        }
        for number in first..=last {
            self.mark(number);
        }
        Ok(())
    }

    /// Returns the driver's entries ordered by number, including withdrawn ones.
    pub(crate) fn entries(&self, alloc: Global) -> Result<Vec<Entry>, AllocError>
        ensures { IfOk result (λ entries. entries.items ≡ numbered_from 1 self.now.entries) }
    {
        let mut entries = Vec::new(alloc);
        let mut number = 1u32;
        for hours in &self.entries {
            entries.push(Entry {
                number,
                line: hours.line.copy(alloc)?,
                withdrawn: hours.withdrawn,
            })?;
            number += 1;
        }
        Ok(entries)
    }

    /// Sets the day from which the driver is examined: S9.
    pub(crate) fn rebase(&mut self, base: Day) -> Result<(), StoreFault>
        ensures { IsOwnStep (λ _. tt) (rebase_own base) self.old self.new result }
    {
        if !is_monday(base) {
            return Err(StoreFault::NotMonday);
        }
        self.base = base;
        Ok(())
    }

    /// Sets the driver's key.
    pub(crate) fn rekey(&mut self, alloc: Global, key: &str) -> Result<(), StoreFault>
        ensures { IsOwnStep (λ _. tt) (rekey_own key.now) self.old self.new result }
    {
        self.key = String::from_str(alloc, key)?;
        Ok(())
    }

    /// Sets the driver's name.
    pub(crate) fn rename(&mut self, alloc: Global, name: &str) -> Result<(), StoreFault>
        ensures { IsOwnStep (λ _. tt) (rename_own name.now) self.old self.new result }
    {
        self.name = String::from_str(alloc, name)?;
        Ok(())
    }
}

/// Returns the record with this number. Numbers begin at 1.
fn numbered<T>(records: &[T], number: u32) -> Option<&T>
    ensures { option_copied result ≡ numbered number records.now }
{
    let place = number.checked_sub(1)?;
    records.get(place as usize)
}

/// Makes the line of spans that give no minute two marks.
fn agreed_line(alloc: Global, spans: &[Span]) -> Result<Line, AllocError>
    requires { (m : ℕ) → ¬ (Conflicts (Gives spans.now) m) }
    ensures { IfOk result (IsCanonicalOf (Gives spans.now)) }
{
    match line_of(alloc, spans) {
        Ok(line) => Ok(line),
        Err(SpanFault::Memory) => Err(AllocError),
        Err(SpanFault::Contradiction(_)) => unreachable!(),
    }
}

/// Converts the fault of spans without gains; no span is empty.
fn gain_fault(fault: LineFault) -> StoreFault
    requires { (place : ℕ) → fault ≢ LineFault.EmptySpan place }
    ensures contradiction { (m : ℕ) → fault ≡ LineFault.Contradiction m → result ≡ StoreFault.Contradiction m }
    ensures memory { fault ≡ LineFault.Memory → result ≡ StoreFault.Memory }
    ensures of_no_file { IsOfNoFile {A = Unit {0}} (Err result) }
{
    match fault {
        LineFault::Contradiction(minute) => StoreFault::Contradiction(minute),
        LineFault::EmptySpan(_) => unreachable!(),
        LineFault::Memory => StoreFault::Memory,
    }
}

/// Returns the place of the driver with this number.
pub(crate) fn place_of(rows: &[Row], number: u32) -> Option<usize>
    ensures { IsIndexOf rows.now (driver_of number rows.now) result }
{
    rows.iter().position(|row| row.number == number)
}

/// Returns the place of the driver whose key has these bytes.
pub(crate) fn place_of_key(rows: &[Row], key: &[u8]) -> Option<usize>
    ensures { IsIndexOf rows.now (driver_with_key key.now rows.now) result }
{
    rows.iter().position(|row| row.key.as_bytes() == key)
}

/// Returns the place of the driver whose card has this holder.
pub(crate) fn place_of_holder(rows: &[Row], holder: &[u8]) -> Option<usize>
    ensures { IsIndexOf rows.now (holding holder.now rows.now) result }
{
    rows.iter().position(|row| row.holder.as_slice() == holder)
}
