ghost use Rattle.tacho_desk.specs.Doing.{AsksOnly, CarriesOut};
ghost use Rattle.tacho_desk.specs.Tasks.{Does, IsFaulty, IsSound, want_of};
ghost use Rattle.tacho_desk.specs.Told.{answer_of};
ghost use Rattle.tacho_desk.specs.Wants.{is_command, looks_ahead};

use crate::day::ReadDay;
use crate::period::Period;
use crate::range::EntryRange;
use crate::text::Text;
use crate::want::{MonthOfAll, MonthReading, Reading};
use crate::{all, commands, handover, readings};
use std::alloc::Global;
use tacho_card::Part;
use tacho_sheet::Fault;
use tacho_state::{Caller, Keeper};
use tacho_time::{Minute, Month};

/// What is to be done at an archive, with its arguments read.
#[derive(Clone, Copy)]
pub enum Task {
    /// Adds a driver, given as CSV.
    Register,
    /// Imports a card file, read by a part.
    Import {
        caller: Caller,
        part: Part,
    },
    /// Enters a driver's hours, given as CSV.
    Enter {
        driver: u32,
    },
    /// Withdraws a driver's entry.
    Withdraw {
        driver: u32,
        number: u32,
    },
    /// Withdraws a range of a driver's entries, all of them or none.
    WithdrawRange {
        driver: u32,
        range: EntryRange,
    },
    /// Sets a driver's base.
    Base {
        driver: u32,
        day: ReadDay,
    },
    /// Sets a driver's key, given as a line.
    Key {
        driver: u32,
    },
    /// Sets a driver's name, given as a line.
    Name {
        driver: u32,
    },
    /// Reads the form for the minutes that a driver doesn't hold, as far as a day if one is named.
    Form {
        driver: u32,
        before: Option<ReadDay>,
    },
    /// Reads a text about a driver.
    Reading {
        driver: u32,
        reading: Reading,
    },
    /// Reads a text about a driver's month.
    MonthReading {
        driver: u32,
        month: Month,
        reading: MonthReading,
    },
    /// Reads a text about a month of all drivers.
    MonthOfAll {
        month: Month,
        reading: MonthOfAll,
    },
    /// Reads the forecast for a driver from a minute on.
    Ahead {
        driver: u32,
        minute: Minute,
    },
    /// Reads the forecast for all drivers from a minute on.
    Forecast {
        minute: Minute,
    },
    /// Reads a card file of the archive.
    File {
        driver: u32,
        number: u32,
    },
    /// Hands over what the archive has of a driver and a period.
    Handover {
        driver: u32,
        period: Period,
    },
    /// Lists all drivers.
    Drivers,
    /// Reads what is listed of one driver.
    Driver {
        driver: u32,
    },
    /// Reads the version of the program.
    Version,
}

/// Does a task at an archive, with its input. A refusal, running out of memory, and a store failure leave the state as it was. What a
/// command answered with success is durable. The archive is accessed only if the input is valid, and then the answer is no fault of the
/// input, whatever the store does. Only E8 may be answered for any text of CSV.
pub fn carry_out<K: Keeper>(
    alloc: Global,
    keeper: &mut K,
    task: Task,
    input: &[u8],
) -> Result<Text, Fault>
    ensures serves { CarriesOut K.stands K.is_clean K.is_live K.leaves K.is_same keeper.old keeper.new (is_command (want_of task)) (answer_of result)
        (Does task input.now) }
    ensures asks { AsksOnly keeper.old keeper.new (looks_ahead (want_of task)) (IsSound task input.now) (IsFaulty task input.now)
        (answer_of result) }
{
    match task {
        Task::Register => commands::register(alloc, keeper, input),
        Task::Import { caller, part } => commands::import(alloc, keeper, caller, part, input),
        Task::Enter { driver } => commands::enter(alloc, keeper, driver, input),
        Task::Withdraw { driver, number } => commands::withdraw(alloc, keeper, driver, number),
        Task::WithdrawRange { driver, range } => {
            commands::withdraw_range(alloc, keeper, driver, range)
        }
        Task::Base { driver, day } => commands::rebase(keeper, driver, day),
        Task::Key { driver } => commands::rekey(keeper, driver, input),
        Task::Name { driver } => commands::rename(keeper, driver, input),
        Task::Form { driver, before } => readings::form(alloc, keeper, driver, before),
        Task::Reading { driver, reading } => readings::show(alloc, keeper, driver, reading),
        Task::MonthReading {
            driver,
            month,
            reading,
        } => readings::show_month(alloc, keeper, driver, month, reading),
        Task::MonthOfAll { month, reading } => all::show_month(alloc, keeper, month, reading),
        Task::Ahead { driver, minute } => readings::ahead(alloc, keeper, driver, minute),
        Task::Forecast { minute } => all::forecast(alloc, keeper, minute),
        Task::File { driver, number } => readings::file(alloc, keeper, driver, number),
        Task::Handover { driver, period } => handover::handover(alloc, keeper, driver, period),
        Task::Drivers => readings::drivers(alloc, keeper),
        Task::Driver { driver } => readings::driver(alloc, keeper, driver),
        Task::Version => readings::version(keeper),
    }
}
