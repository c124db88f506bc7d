ghost use Rattle.std.specs.Prelude.{◌≡◌, [], Ok, None, Some, MatchResult};
ghost use Rattle.tacho_state.specs.State.{driver_of, driver_with_key};
ghost use Rattle.tacho_state.specs.Steps.{is_another, owner};
ghost use Rattle.tacho_state.specs.Acts.{IsOfNoFile, caller_number};
ghost use Rattle.tacho_shelf.specs.Shelf.{IsIndexOf, IsOwnerAt, IsOwnerFault};

use crate::row::{Row, place_of, place_of_holder, place_of_key};
use std::alloc::Global;
use std::marker::Model;
use tacho_card::Part;
use tacho_line::Line;
use tacho_rules::Report;
use tacho_state::{
    Caller, Driver, DriverSummary, Entered, Entry, EntryLine, FileSummary, Imported, Keeper,
    StoreFault, content_of, is_monday, report_of,
};
use tacho_stretches::Stretch;
use tacho_time::{Day, Minute};

/// An archive in memory. No two of its drivers have the same number.
#[derive(Drop)]
pub struct Shelf {
    alloc: Global,
    drivers: Vec<Row>,
}

/// No driver has the number that was asked for.
#[derive(Clone, Copy)]
struct NoDriver;

impl From<NoDriver> for StoreFault {
    ghost use Rattle.std.specs.Prelude.{◌≡◌};
    ghost use Rattle.tacho_state.specs.declared.fault.StoreFault.TheVariants.{UnknownDriver};

    ghost from_gives = { λ _ fault. fault ≡ UnknownDriver };

    fn from(_: NoDriver) -> StoreFault {
        StoreFault::UnknownDriver
    }
}

impl Model for Shelf {
    ghost use Rattle.tacho_state.specs.State.{State};
    ghost use Rattle.tacho_shelf.specs.Shelf.{AreNumbered};

    ghost Value = { State };

    ghost view = { λ shelf. shelf.drivers.items };

    ghost invariant = { λ shelf. AreNumbered shelf.drivers.items };
}

impl Shelf {
    /// Makes an archive without drivers. All its memory will come from this allocator; it allocates none yet.
    pub fn new(alloc: Global) -> Shelf
        ensures { result ≡ [] }
    {
        Shelf {
            alloc,
            drivers: Vec::new(alloc),
        }
    }

    /// Returns the place of the driver with this number.
    fn place(&self, driver: u32) -> Result<usize, NoDriver>
        ensures { MatchResult result (λ i. IsIndexOf self.now (driver_of driver self.now) (Some i))
            (λ _. driver_of driver self.now ≡ None) }
    {
        place_of(&self.drivers, driver).ok_or(NoDriver)
    }

    /// Returns the driver with this number.
    fn row(&self, driver: u32) -> Result<&Row, NoDriver>
        ensures { MatchResult result (λ row. driver_of driver self.now ≡ Some row.now) (λ _. driver_of driver self.now ≡ None) }
    {
        let place = self.place(driver)?;
        Ok(&self.drivers[place])
    }

    /// True if a driver with another number has this key.
    fn is_key_of_another(&self, driver: u32, key: &[u8]) -> bool
        ensures { result ≡ is_another driver (driver_with_key key.now self.now) }
    {
        match self.number_with_key(key) {
            Some(number) => number != driver,
            None => false,
        }
    }

    /// Returns the number of the driver with this key, if there is one.
    fn number_with_key(&self, key: &[u8]) -> Option<u32>
        ensures { owner key.now self.now ≡ Ok result }
    {
        let place = place_of_key(&self.drivers, key)?;
        let row = &self.drivers[place];
        Some(row.number)
    }

    /// Returns the place of the card's owner: for the office the driver with this holder, for a driver the caller, if they have this
    /// holder: S4, S5.
    fn owner(&self, caller: Caller, holder: &[u8]) -> Result<usize, StoreFault>
        ensures told { MatchResult result (IsOwnerAt self.now (caller_number caller) holder.now)
            (IsOwnerFault self.now (caller_number caller) holder.now) }
        ensures of_no_file { IsOfNoFile result }
    {
        match caller {
            Caller::Office => Ok(place_of_holder(&self.drivers, holder).ok_or(NoDriver)?),
            Caller::Driver(number) => {
                let place = self.place(number)?;
                let row = &self.drivers[place];
                if row.holder.as_slice() != holder {
                    return Err(StoreFault::NotYourCard);
                }
                Ok(place)
            }
        }
    }
}

impl Keeper for Shelf {
    ghost use Rattle.std.specs.Prelude.{◌≡◌};
    ghost use Rattle.std.proofs.Common.{inr, refl, ◌∙◌};
    ghost use Rattle.tacho_state.specs.State.{driver_of, driver_with_key};
    ghost use Rattle.tacho_shelf.specs.Among.{IsAmong};

    ghost stands = { λ shelf s. shelf ≡ s };

    ghost is_clean = { λ _. Unit {0} };

    ghost is_live = { λ _. Unit {0} };

    ghost leaves = { IsAmong };

    ghost is_same = { λ old new. new ≡ old };

    ghost is_same_of = { λ n old new. driver_of n new ≡ driver_of n old };

    ghost leaves_more = { λ shelf s states among. inr among };

    ghost same_self = { λ shelf. refl };

    ghost same_then = { λ first second third was_live was is. is ∙ was };

    fn register(&mut self, driver: &Driver) -> Result<(), StoreFault> {
        if place_of(&self.drivers, driver.number()).is_some() {
            return Err(StoreFault::DriverTaken);
        }
        if place_of_key(&self.drivers, driver.key().as_bytes()).is_some() {
            return Err(StoreFault::KeyTaken);
        }
        if place_of_holder(&self.drivers, driver.holder()).is_some() {
            return Err(StoreFault::HolderTaken);
        }
        if !is_monday(driver.base()) {
            return Err(StoreFault::NotMonday);
        }
        let row = Row::new(self.alloc, driver)?;
        self.drivers.push(row)?;
        Ok(())
    }

    fn import(
        &mut self,
        alloc: Global,
        caller: Caller,
        part: Part,
        file: &[u8],
    ) -> Result<Imported, StoreFault> {
        let content = content_of(alloc, part, file)?;
        let place = self.owner(caller, &content.holder)?;
        self.drivers[place].import(alloc, part, file, content.spans)
    }

    fn enter(
        &mut self,
        alloc: Global,
        driver: u32,
        lines: &[EntryLine],
    ) -> Result<Entered, StoreFault> {
        let place = self.place(driver)?;
        self.drivers[place].enter(alloc, lines)
    }

    fn withdraw(
        &mut self,
        alloc: Global,
        driver: u32,
        first: u32,
        last: u32,
    ) -> Result<(), StoreFault> {
        let place = self.place(driver)?;
        self.drivers[place].withdraw(first, last)
    }

    fn rebase(&mut self, driver: u32, base: Day) -> Result<(), StoreFault> {
        let place = self.place(driver)?;
        self.drivers[place].rebase(base)
    }

    fn rekey(&mut self, driver: u32, key: &str) -> Result<(), StoreFault> {
        if self.is_key_of_another(driver, key.as_bytes()) {
            return Err(StoreFault::KeyTaken);
        }
        let place = self.place(driver)?;
        self.drivers[place].rekey(self.alloc, key)
    }

    fn rename(&mut self, driver: u32, name: &str) -> Result<(), StoreFault> {
        let place = self.place(driver)?;
        self.drivers[place].rename(self.alloc, name)
    }

    fn who(&mut self, key: &[u8]) -> Result<Option<u32>, StoreFault> {
        Ok(self.number_with_key(key))
    }

    fn drivers(&mut self, alloc: Global) -> Result<Vec<DriverSummary>, StoreFault> {
        let mut found = Vec::new(alloc);
        for row in &self.drivers {
            found.push(row.summary(alloc)?)?;
        }
        found.sort_unstable_by_key(|summary| summary.number);
        Ok(found)
    }

    fn driver(&mut self, alloc: Global, driver: u32) -> Result<DriverSummary, StoreFault> {
        Ok(self.row(driver)?.summary(alloc)?)
    }

    fn name(&mut self, alloc: Global, driver: u32) -> Result<String, StoreFault> {
        let row = self.row(driver)?;
        Ok(String::from_str(alloc, &row.name)?)
    }

    fn key(&mut self, alloc: Global, driver: u32) -> Result<String, StoreFault> {
        let row = self.row(driver)?;
        Ok(String::from_str(alloc, &row.key)?)
    }

    fn line(&mut self, alloc: Global, driver: u32) -> Result<Line, StoreFault> {
        Ok(self.row(driver)?.line(alloc)?)
    }

    /// Returns the whole timeline, which has the right marks in each range.
    fn line_within(
        &mut self,
        alloc: Global,
        driver: u32,
        start: Minute,
        past: Minute,
    ) -> Result<Line, StoreFault> {
        Ok(self.row(driver)?.line(alloc)?)
    }

    fn entries(&mut self, alloc: Global, driver: u32) -> Result<Vec<Entry>, StoreFault> {
        Ok(self.row(driver)?.entries(alloc)?)
    }

    fn download(&mut self, alloc: Global, driver: u32, number: u32) -> Result<Vec<u8>, StoreFault> {
        let Some(download) = self.row(driver)?.download(number) else {
            return Err(StoreFault::UnknownDownload);
        };
        Ok(Vec::from_slice(alloc, &download.file)?)
    }

    fn files(&mut self, alloc: Global, driver: u32) -> Result<Vec<FileSummary>, StoreFault> {
        Ok(self.row(driver)?.files(alloc)?)
    }

    fn report(&mut self, alloc: Global, driver: u32) -> Result<Report, StoreFault> {
        let row = self.row(driver)?;
        let line = row.line(alloc)?;
        report_of(alloc, &line, row.base.number())
    }

    fn stretches(&mut self, alloc: Global, driver: u32) -> Result<Vec<Stretch>, StoreFault> {
        let (_, stretches) = self.row(driver)?.line_and_stretches(alloc)?;
        Ok(stretches)
    }

    fn line_and_stretches(
        &mut self,
        alloc: Global,
        driver: u32,
        start: Minute,
        past: Minute,
    ) -> Result<(Line, Vec<Stretch>), StoreFault> {
        self.row(driver)?.line_and_stretches(alloc)
    }

    fn line_and_stretches_from_base(
        &mut self,
        alloc: Global,
        driver: u32,
    ) -> Result<(Line, Vec<Stretch>), StoreFault> {
        self.row(driver)?.line_and_stretches(alloc)
    }
}
