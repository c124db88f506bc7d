ghost use Rattle.std.specs.Prelude.{◌≡◌, ◌⊎◌, ◌∷◌, ◌≤◌, ℕ, List, Result, Ok, Err, IfOk, length, map, string_bytes};
ghost use Rattle.tacho_line.specs.Line.{mark_at};
ghost use Rattle.tacho_card.specs.declared.fault.CardFault.{CardFault};
ghost use Rattle.tacho_state.specs.State.{State};
ghost use Rattle.tacho_state.specs.Steps.{Content, register_step, import_step, enter_step, withdraw_range_step, rebase_step, rekey_step, rename_step, owner, name_reading, key_reading, line_reading, entries_reading, file_reading, report_reading};
ghost use Rattle.tacho_state.specs.Reported.{AreStretchesOf, IsHeldWithin, IsHeldFromBase, IsDriverReport};
ghost use Rattle.tacho_stretches.specs.Stretches.{judged_of};
ghost use Rattle.tacho_state.specs.Batch.{IsBatch, batch_of};
ghost use Rattle.tacho_state.specs.Limits.{IsKey, IsName};
ghost use Rattle.tacho_state.specs.Registration.{IsReadDay};
ghost use Rattle.tacho_state.specs.Content.{FileTells};
ghost use Rattle.tacho_state.specs.Numbers.{part_number};
ghost use Rattle.tacho_state.specs.Files.{files_reading, told_file};
ghost use Rattle.tacho_state.specs.Summaries.{AreSummaries, driver_reading, told_summary};
ghost use Rattle.tacho_state.specs.Acts.{Acts, Reads, IsOfNoFile, caller_number};
ghost use Rattle.tacho_state.specs.declared.imported.Imported.TheVariants.{Repeated};
ghost use Rattle.tacho_state.specs.declared.fault.StoreFault.TheVariants.{Memory, Card};

use crate::caller::Caller;
use crate::driver::Driver;
use crate::entry::{Entered, Entry, EntryLine};
use crate::fault::StoreFault;
use crate::file::FileSummary;
use crate::imported::Imported;
use crate::summary::DriverSummary;
use std::alloc::Global;
use tacho_card::Part;
use tacho_line::Line;
use tacho_rules::Report;
use tacho_stretches::Stretch;
use tacho_time::{Day, Minute};

/// An archive, in whatever way it is kept. Each call changes its state by a step (`Acts`) or reads it (`Reads`).
pub trait Keeper {
    /// The archive has this state.
    ghost stands: { Self → State → Type 0 };

    /// The archive holds what was written to it.
    ghost is_clean: { Self → Type 0 };

    /// The archive can be written to. Only a failure of the store ends this.
    ghost is_live: { Self → Type 0 };

    /// The archive that a crash leaves now has one of these states.
    ghost leaves: { Self → List State → Type 0 };

    /// No row differs between the two archives, while the second can be read.
    ghost is_same: { Self → Self → Type 0 };

    /// No row of the driver with this number differs between the two archives, while the second can be read.
    ghost is_same_of: { ℕ → Self → Self → Type 0 };

    /// A state may be added to those that a crash may leave.
    ghost leaves_more: { (keeper : Self) (s : State) (states : List State) → leaves keeper states → leaves keeper (s ∷ states) };

    /// No row of an archive differs from itself.
    ghost same_self: { (keeper : Self) → is_same keeper keeper };

    /// If no row changed from the first to the second, nor from the second to the third, none changed from the first to the third.
    ghost same_then: { (first second third : Self) → (is_live third → is_live second) → is_same first second → is_same second third
        → is_same first third };

    /// Adds a driver: S1, S2, S3, S9.
    fn register(&mut self, driver: &Driver) -> Result<(), StoreFault>
        ensures of_no_file { IsOfNoFile result }
        ensures registered { Acts stands is_clean is_live leaves is_same is_same_of (λ _. tt) self.old self.new result
            (register_step driver.now.number driver.now.holder driver.now.key driver.now.base driver.now.name) };

    /// Imports a card file, from which this part is read: S11 first; then S4, S5, S6, S14.
    fn import(
        &mut self,
        alloc: Global,
        caller: Caller,
        part: Part,
        file: &[u8],
    ) -> Result<Imported, StoreFault>
        // A file with a fault is refused with that fault (or memory ran out while it was read), whatever the archive's state; the archive
        // is not accessed.
        ensures unreadable { (fault : CardFault) → FileTells part file.now (Err fault)
            → ((result ≡ Err Memory) ⊎ (result ≡ Err (Card fault))) × (self.new ≡ self.old) }
        // Only a file with a fault is refused so.
        ensures readable { (fault : CardFault) → result ≡ Err (Card fault) → FileTells part file.now (Err fault) }
        // A file that is repeated changes no row.
        ensures repeated { is_clean self.new → (s : State) (number : ℕ) → stands self.old s → result ≡ Ok (Repeated number)
            → is_same self.old self.new }
        ensures imported { (content : Result Content CardFault) → FileTells part file.now content
            → Acts stands is_clean is_live leaves is_same is_same_of (λ done. done) self.old self.new result
            (import_step (caller_number caller) (part_number part) file.now content) };

    /// Enters a batch of hours, all of them or none: S4, S6, S14. The new entries are numbered on from the driver's last entry.
    fn enter(
        &mut self,
        alloc: Global,
        driver: u32,
        lines: &[EntryLine],
    ) -> Result<Entered, StoreFault>
        requires { IsBatch lines.now }
        ensures of_no_file { IsOfNoFile result }
        ensures entered { Acts stands is_clean is_live leaves is_same is_same_of (λ done. done.first) self.old self.new result
            (enter_step driver (batch_of lines.now)) }
        ensures count { IfOk result (λ done. done.count ≡ length lines.now) };

    /// Withdraws the entries of a driver from number `first` to `last`, all of them or none; they stay listed: S4, and S7 or S8 for the least
    /// number that can't be withdrawn. The driver still holds what downloads and other entries give.
    fn withdraw(
        &mut self,
        alloc: Global,
        driver: u32,
        first: u32,
        last: u32,
    ) -> Result<(), StoreFault>
        requires { first ≤ last }
        ensures of_no_file { IsOfNoFile result }
        ensures withdrawn { Acts stands is_clean is_live leaves is_same is_same_of (λ _. tt) self.old self.new result
            (withdraw_range_step driver first last) };

    /// Sets the day, from 2000-01-03 to 2099-12-31, from which a driver is examined: S4, S9.
    fn rebase(&mut self, driver: u32, base: Day) -> Result<(), StoreFault>
        requires { IsReadDay base }
        ensures of_no_file { IsOfNoFile result }
        ensures rebased { Acts stands is_clean is_live leaves is_same is_same_of (λ _. tt) self.old self.new result (rebase_step driver base) };

    /// Sets the key, of 8 to 64 letters, digits and hyphens, of a driver: S2 if another driver has it, S4.
    fn rekey(&mut self, driver: u32, key: &str) -> Result<(), StoreFault>
        requires { IsKey key.now }
        ensures of_no_file { IsOfNoFile result }
        ensures rekeyed { Acts stands is_clean is_live leaves is_same is_same_of (λ _. tt) self.old self.new result (rekey_step driver key.now) };

    /// Sets the name, of 1 to 64 bytes without control characters, commas and double quotes, of a driver: S4.
    fn rename(&mut self, driver: u32, name: &str) -> Result<(), StoreFault>
        requires { IsName name.now }
        ensures of_no_file { IsOfNoFile result }
        ensures renamed { Acts stands is_clean is_live leaves is_same is_same_of (λ _. tt) self.old self.new result (rename_step driver name.now) };

    /// Returns the number of the driver with this key, if there is one.
    fn who(&mut self, key: &[u8]) -> Result<Option<u32>, StoreFault>
        ensures { Reads stands is_clean is_live leaves is_same (λ found. found) self.old self.new result (owner key.now) };

    /// Lists all drivers, the lowest number first.
    fn drivers(&mut self, alloc: Global) -> Result<Vec<DriverSummary>, StoreFault>
        ensures reads { Reads {B = Unit {0}} stands is_clean is_live leaves is_same (λ _. tt) self.old self.new result (λ _. Ok tt) }
        ensures drivers { is_clean self.new → (s : State) → stands self.old s
            → IfOk result (λ drivers. AreSummaries s (map told_summary drivers.items)) };

    /// Returns what the list of all drivers says of one driver: S4.
    fn driver(&mut self, alloc: Global, driver: u32) -> Result<DriverSummary, StoreFault>
        ensures { Reads stands is_clean is_live leaves is_same (λ found. told_summary found) self.old self.new result (driver_reading driver) };

    /// Returns the name of a driver: S4.
    fn name(&mut self, alloc: Global, driver: u32) -> Result<String, StoreFault>
        ensures { Reads stands is_clean is_live leaves is_same (λ name. string_bytes name) self.old self.new result (name_reading driver) };

    /// Returns the key of a driver: S4.
    fn key(&mut self, alloc: Global, driver: u32) -> Result<String, StoreFault>
        ensures { Reads stands is_clean is_live leaves is_same (λ key. string_bytes key) self.old self.new result (key_reading driver) };

    /// Returns the timeline of a driver: S4.
    fn line(&mut self, alloc: Global, driver: u32) -> Result<Line, StoreFault>
        ensures { Reads stands is_clean is_live leaves is_same (λ line. mark_at line) self.old self.new result (line_reading driver) };

    /// Returns what a driver holds in a range: a timeline that gives each minute of the range the mark of the driver's own timeline: S4. At
    /// other minutes it may give anything, so that rows far from the range needn't be read.
    fn line_within(
        &mut self,
        alloc: Global,
        driver: u32,
        start: Minute,
        past: Minute,
    ) -> Result<Line, StoreFault>
        ensures reads { Reads stands is_clean is_live leaves is_same (λ _. tt) self.old self.new result (report_reading driver) }
        ensures within { is_clean self.new → (s : State) → stands self.old s → IfOk result (IsHeldWithin driver start past s) };

    /// Lists the entries of a driver ordered by number, including withdrawn ones: S4.
    fn entries(&mut self, alloc: Global, driver: u32) -> Result<Vec<Entry>, StoreFault>
        ensures { Reads stands is_clean is_live leaves is_same (λ entries. entries.items) self.old self.new result (entries_reading driver) };

    /// Returns the bytes of a driver's download: S4, S10.
    fn download(&mut self, alloc: Global, driver: u32, number: u32) -> Result<Vec<u8>, StoreFault>
        ensures { Reads stands is_clean is_live leaves is_same (λ bytes. bytes.items) self.old self.new result (file_reading driver number) };

    /// Lists the card files of a driver ordered by number: S4.
    fn files(&mut self, alloc: Global, driver: u32) -> Result<Vec<FileSummary>, StoreFault>
        ensures { Reads stands is_clean is_live leaves is_same (λ files. map told_file files.items) self.old self.new result (files_reading driver) };

    /// Returns the report of a driver's timeline from the base: S4.
    fn report(&mut self, alloc: Global, driver: u32) -> Result<Report, StoreFault>
        ensures reads { Reads stands is_clean is_live leaves is_same (λ _. tt) self.old self.new result (report_reading driver) }
        ensures report { is_clean self.new → (s : State) → stands self.old s → IfOk result (IsDriverReport driver s) };

    /// Returns the stretches of a driver's timeline: the reports from the base, and after each horizon from the next Monday whose first
    /// minute is held without a second driver: S4.
    fn stretches(&mut self, alloc: Global, driver: u32) -> Result<Vec<Stretch>, StoreFault>
        ensures reads { Reads stands is_clean is_live leaves is_same (λ _. tt) self.old self.new result (report_reading driver) }
        ensures stretches { is_clean self.new → (s : State) → stands self.old s
            → IfOk result (λ stretches. AreStretchesOf driver s (map judged_of stretches.items)) };

    /// Returns what a driver holds in a range, as `line_within` does, and the driver's stretches, in one reading: S4.
    fn line_and_stretches(
        &mut self,
        alloc: Global,
        driver: u32,
        start: Minute,
        past: Minute,
    ) -> Result<(Line, Vec<Stretch>), StoreFault>
        ensures reads { Reads stands is_clean is_live leaves is_same (λ _. tt) self.old self.new result (report_reading driver) }
        ensures within { is_clean self.new → (s : State) → stands self.old s
            → IfOk result (λ found. IsHeldWithin driver start past s found.0) }
        ensures stretches { is_clean self.new → (s : State) → stands self.old s
            → IfOk result (λ found. AreStretchesOf driver s (map judged_of found.1.items)) };

    /// Returns what a driver holds from the base on, and the driver's stretches, in one reading: S4. The timeline gives each minute from the
    /// base on the mark of the driver's own timeline. At earlier minutes it may give anything, so that rows before the base needn't be read.
    fn line_and_stretches_from_base(
        &mut self,
        alloc: Global,
        driver: u32,
    ) -> Result<(Line, Vec<Stretch>), StoreFault>
        ensures reads { Reads stands is_clean is_live leaves is_same (λ _. tt) self.old self.new result (report_reading driver) }
        ensures held { is_clean self.new → (s : State) → stands self.old s → IfOk result (λ found. IsHeldFromBase driver s found.0) }
        ensures stretches { is_clean self.new → (s : State) → stands self.old s
            → IfOk result (λ found. AreStretchesOf driver s (map judged_of found.1.items)) };
}
