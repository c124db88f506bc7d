ghost use Rattle.std.specs.Prelude.{◌≡◌, ◌<◌, ◌≤◌, ◌^◌, length, IfSome};
ghost use Rattle.tacho_time.specs.Reading.{digits_at, date_at, day_of_date as date_day, minute_of_parts as parts_minute, AreWritten};

use crate::day::{Day, FIRST_DAY, LAST_DAY};
use crate::fault::TimeFault;
use crate::minute::Minute;
use jiff_core::civil::Date;

/// The year, month and day of a date, as they were written. The calendar may not have it.
#[derive(Clone, Copy)]
pub(crate) struct DateParts {
    year: u16,
    month: u16,
    day: u16,
}

/// Returns the number that at most four digits spell.
pub(crate) fn digits(text: &[u8]) -> Option<u16>
    requires { length text.now ≤ 4 }
    ensures value { result ≡ digits_at text.now }
    ensures bound { IfSome result (λ n. n < 10 ^ length text.now) }
{
    let mut number = 0u16;
    for byte in text {
        if !byte.is_ascii_digit() {
            return None;
        }
        number = number * 10 + (*byte - b'0') as u16;
    }
    Some(number)
}

/// Reads ten bytes `YYYY-MM-DD`, whether or not the calendar has that date.
pub(crate) fn date_parts(text: &[u8]) -> Option<DateParts>
    ensures value { result ≡ date_at text.now }
    ensures bound { IfSome result AreWritten }
{
    if text.len() != 10 || text[4] != b'-' || text[7] != b'-' {
        return None;
    }
    let year = digits(&text[..4])?;
    let month = digits(&text[5..7])?;
    let day = digits(&text[8..])?;
    Some(DateParts { year, month, day })
}

/// Returns the day of a date, if the date exists and is in the range that can be read.
pub(crate) fn day_of_date(date: DateParts) -> Result<Day, TimeFault>
    requires { AreWritten date }
    ensures { result ≡ date_day date.year date.month date.day }
{
    let DateParts { year, month, day } = date;
    let Ok(date) = Date::new(year as i16, month as i8, day as i8) else {
        return Err(TimeFault::NoSuchDate);
    };
    let number = date.to_unix_epoch_day();
    if number < FIRST_DAY as i32 || number > LAST_DAY as i32 {
        return Err(TimeFault::OutOfRange);
    }
    Ok(Day::new(number as u32))
}

/// Returns the minute of a date and a time of day, if they exist and are in the range that can be read.
pub(crate) fn minute_of_parts(date: DateParts, hour: u16, minute: u16) -> Result<Minute, TimeFault>
    requires { AreWritten date }
    ensures { result ≡ parts_minute (Some date) (Some hour) (Some minute) }
{
    if hour >= 24 || minute >= 60 {
        return Err(TimeFault::NoSuchDate);
    }
    let day = day_of_date(date)?;
    Ok(Minute::new(1440 * day.number() + 60 * hour as u32 + minute as u32))
}
