ghost use Rattle.std.specs.Prelude.{◌≡◌, IfOk, MatchResult};
ghost use Rattle.tacho_time.specs.Reading.{day_at, minute_at};
ghost use Rattle.tacho_sheet.specs.Number.{HasNoNumber, IsNumberText};
ghost use Rattle.tacho_desk.specs.Tasks.{want_of};
ghost use Rattle.tacho_desk.specs.declared.task.Task.TheVariants as task;
ghost use Rattle.tacho_desk.specs.Words.{HasNoDriver, IsDriver, IsDriversTask, IsTask, IsWithdrawal, by_part, by_time, day_if_named, period_task, minute_text_of, most_number, part_of as part_named};

use crate::day::ReadDay;
use crate::period::Period;
use crate::range::EntryRange;
use crate::task::Task;
use crate::want::{Want, Wish};
use arrayvec::ArrayVec;
use tacho_card::Part;
use tacho_sheet::{Fault, read_number};
use tacho_state::Caller;
use tacho_time::{Minute, Month, TimeFault};

/// The greatest number of a driver.
const LAST_DRIVER: u32 = 999_999;

/// The greatest number of an entry or a download.
const LAST_NUMBER: u32 = 1_000_000;

/// A text is no number of a driver, an entry or a download.
#[derive(Clone, Copy)]
struct BadNumber;

impl From<BadNumber> for Fault {
    ghost use Rattle.std.specs.Prelude.{◌≡◌};
    ghost use Rattle.tacho_sheet.specs.declared.fault.Fault.TheVariants.{Number};

    ghost from_gives = { λ _ gives. gives ≡ Number };

    fn from(_: BadNumber) -> Fault {
        Fault::Number
    }
}

/// The driver whom a task is about. For the office, the argument is the driver's number, 1 to 999,999 without leading zeros. For a driver,
/// it is that driver.
fn driver_of(caller: Caller, text: &[u8]) -> Result<u32, BadNumber>
    ensures { MatchResult result (IsDriver caller text.now) (λ _. HasNoDriver caller text.now) }
{
    match caller {
        Caller::Office => read_number(text, LAST_DRIVER).ok_or(BadNumber),
        Caller::Driver(number) => Ok(number),
    }
}

/// The number of an entry or a download, 1 to 1,000,000 without leading zeros.
fn number_of(text: &[u8]) -> Result<u32, BadNumber>
    ensures { MatchResult result (IsNumberText most_number text.now) (λ _. HasNoNumber most_number text.now) }
{
    read_number(text, LAST_NUMBER).ok_or(BadNumber)
}

/// Reads a minute from its day and its time: Z1 to Z3 of both together.
fn minute_of(day: &[u8], time: &[u8]) -> Result<Minute, TimeFault>
    ensures { result ≡ minute_at (minute_text_of day.now time.now) }
{
    let mut text = ArrayVec::<u8, 16>::new();
    for part in [day, b" ".as_slice(), time] {
        if text.try_extend_from_slice(part).is_err() {
            return Err(TimeFault::Shape);
        }
    }
    Minute::read(&text)
}

/// Reads the name of a part of a card file: `both`, `first` or `second`.
pub fn part_of(word: &[u8]) -> Option<Part>
    ensures { result ≡ part_named word.now }
{
    if word == b"both".as_slice() {
        Some(Part::Both)
    } else if word == b"first".as_slice() {
        Some(Part::First)
    } else if word == b"second".as_slice() {
        Some(Part::Second)
    } else {
        None
    }
}

/// The caller's import by the part that the argument names: `both`, `first` or `second`. Fails with P1 otherwise.
fn import_of(caller: Caller, text: &[u8]) -> Result<Task, Fault>
    ensures { result ≡ by_part (part_named text.now) (λ part. task.Import caller part) }
{
    match part_of(text) {
        Some(part) => Ok(Task::Import { caller, part }),
        None => Err(Fault::Part),
    }
}

/// The withdrawal of the entry with the first number; if there is a second one, of all entries from the first to it. Fails with N2 if the
/// second is less than the first.
fn withdrawal_of(driver: u32, first: &[u8], last: &[u8]) -> Result<Task, Fault>
    ensures task { IsWithdrawal driver first.now last.now result }
    ensures want { IfOk result (λ task. want_of task ≡ Want.Withdraw) }
{
    let number = number_of(first)?;
    if last.is_empty() {
        return Ok(Task::Withdraw { driver, number });
    }
    let last = number_of(last)?;
    match EntryRange::new(number, last) {
        Some(range) => Ok(Task::WithdrawRange { driver, range }),
        None => Err(Fault::Order),
    }
}

/// The day with this text, or none if the text is empty: Z1 to Z3.
fn day_if_named(text: &[u8]) -> Result<Option<ReadDay>, TimeFault>
    ensures { result ≡ day_if_named text.now }
{
    if text.is_empty() {
        return Ok(None);
    }
    Ok(Some(ReadDay::read(text)?))
}

/// The handover of a driver and the period from one day to before another: Z1 to Z3 of each, and Z4 if the period has no day or more than 366.
fn handover_of(driver: u32, from: &[u8], past: &[u8]) -> Result<Task, Fault>
    ensures task { result ≡ by_time (day_at from.now) (λ first. by_time (day_at past.now) (λ end. period_task driver first end)) }
    ensures want { IfOk result (λ task. want_of task ≡ Want.Handover) }
{
    let from = ReadDay::read(from)?;
    let past = ReadDay::read(past)?;
    match Period::new(from, past) {
        Some(period) => Ok(Task::Handover { driver, period }),
        None => Err(Fault::Period),
    }
}

/// The list of all drivers, if the office names none. Otherwise what is listed of one driver.
fn drivers_of(caller: Caller, text: &[u8]) -> Result<Task, Fault>
    ensures task { IsDriversTask caller text.now result }
    ensures want { IfOk result (λ task. want_of task ≡ Want.Drivers) }
{
    if matches!(caller, Caller::Office) && text.is_empty() {
        return Ok(Task::Drivers);
    }
    let driver = driver_of(caller, text)?;
    Ok(Task::Driver { driver })
}

/// Makes the task that a caller asks for. Reads its arguments from left to right: the driver's number (N1), which only the office gives, then
/// a part (P1), the number of an entry or a download, or those of a range of entries (N1, N2), a day, a month, a minute or a period (Z1 to Z4).
pub fn task_of(caller: Caller, wish: Wish<'_>) -> Result<Task, Fault>
    ensures task { IsTask wish.entry.want caller wish.entry.driver.now wish.entry.word.now wish.entry.next.now result }
    ensures want { IfOk result (λ task. want_of task ≡ wish.entry.want) }
{
    let Wish {
        want,
        driver,
        word,
        next,
    } = wish;
    match want {
        Want::Register => Ok(Task::Register),
        Want::Import => import_of(caller, word),
        Want::Enter => {
            let driver = driver_of(caller, driver)?;
            Ok(Task::Enter { driver })
        }
        Want::Withdraw => {
            let driver = driver_of(caller, driver)?;
            withdrawal_of(driver, word, next)
        }
        Want::Base => {
            let driver = driver_of(caller, driver)?;
            let day = ReadDay::read(word)?;
            Ok(Task::Base { driver, day })
        }
        Want::Key => {
            let driver = driver_of(caller, driver)?;
            Ok(Task::Key { driver })
        }
        Want::Name => {
            let driver = driver_of(caller, driver)?;
            Ok(Task::Name { driver })
        }
        Want::Form => {
            let driver = driver_of(caller, driver)?;
            let before = day_if_named(word)?;
            Ok(Task::Form { driver, before })
        }
        Want::Reading(reading) => {
            let driver = driver_of(caller, driver)?;
            Ok(Task::Reading { driver, reading })
        }
        Want::MonthReading(reading) => {
            let driver = driver_of(caller, driver)?;
            let month = Month::read(word)?;
            Ok(Task::MonthReading {
                driver,
                month,
                reading,
            })
        }
        Want::File => {
            let driver = driver_of(caller, driver)?;
            let number = number_of(word)?;
            Ok(Task::File { driver, number })
        }
        Want::Handover => {
            let driver = driver_of(caller, driver)?;
            handover_of(driver, word, next)
        }
        Want::Drivers => drivers_of(caller, driver),
        Want::Version => Ok(Task::Version),
        Want::Ahead => {
            let driver = driver_of(caller, driver)?;
            let minute = minute_of(word, next)?;
            Ok(Task::Ahead { driver, minute })
        }
        Want::Forecast => {
            let minute = minute_of(word, next)?;
            Ok(Task::Forecast { minute })
        }
        Want::MonthOfAll(reading) => {
            let month = Month::read(word)?;
            Ok(Task::MonthOfAll { month, reading })
        }
    }
}
