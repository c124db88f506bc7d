ghost use Rattle.std.specs.Prelude.{◌≡◌, ℕ, ◌+◌, ◌*◌, ◌/◌, ◌%◌, ◌<◌, ◌≤◌, pos, ◌*ℤ◌, MatchOption};
ghost use Rattle.tacho_time.specs.Reading.{month_at, month_start};

use crate::day::Day;
use crate::fault::TimeFault;
use crate::minute::Minute;
use crate::read;
use jiff_core::civil::Date;
use std::marker::Model;

/// The number of 2000-01.
const FIRST: u32 = 24_000;

/// A month of the years 2000 to 2099, by its number: twelve times its year, and the number of months of that year before it.
#[derive(Clone, Copy, Debug, PartialEq, Eq, PartialOrd, Ord)]
pub struct Month {
    number: u32,
}

impl Model for Month {
    ghost Value = { ℕ };

    ghost view = { λ month. month.number };

    ghost invariant = { λ month. (24000 ≤ month.number) × (month.number < 25200) };

    ghost inverse = { λ n. record { number = n } };
}

impl Month {
    /// Reads seven bytes `YYYY-MM`, from 2000-01 to 2099-12.
    pub fn read(text: &[u8]) -> Result<Month, TimeFault>
        ensures { result ≡ month_at text.now }
    {
        if text.len() != 7 || text[4] != b'-' {
            return Err(TimeFault::Shape);
        }
        let Some(year) = read::digits(&text[..4]) else {
            return Err(TimeFault::Shape);
        };
        let Some(month) = read::digits(&text[5..]) else {
            return Err(TimeFault::Shape);
        };
        if month < 1 || month > 12 {
            return Err(TimeFault::NoSuchDate);
        }
        if year < 2000 || year > 2099 {
            return Err(TimeFault::OutOfRange);
        }
        Ok(Month {
            number: 12 * year as u32 + (month as u32 - 1),
        })
    }

    /// Returns the month's year, from 2000 to 2099.
    pub fn year(self) -> u32
        ensures { result ≡ self / 12 }
    {
        self.number / 12
    }

    /// Returns the month's number in its year, from 1 for January.
    pub fn month(self) -> u32
        ensures { result ≡ self % 12 + 1 }
    {
        self.number % 12 + 1
    }

    /// Returns the month before this one, or `None` for 2000-01.
    pub fn before(self) -> Option<Month>
        ensures { MatchOption result (self ≡ 24000) (λ month. month + 1 ≡ self) }
    {
        if self.number == FIRST {
            return None;
        }
        Some(Month {
            number: self.number - 1,
        })
    }
}

/// Returns the minutes of a month: the first minute of its first day, and that of the next month's first day, which is no longer in it.
pub fn month_range(month: Month) -> (Minute, Minute)
    ensures start { pos result.0 ≡ pos 1440 *ℤ month_start month }
    ensures past { pos result.1 ≡ pos 1440 *ℤ month_start (month + 1) }
    ensures order { result.0 < result.1 }
{
    let start = first_day(month.number).number();
    let past = first_day(month.number + 1).number();
    (Minute::new(1440 * start), Minute::new(1440 * past))
}

/// Returns the first day of the month with this number. The number may also be that of the month after the last one.
fn first_day(number: u32) -> Day
    requires low { 24000 ≤ number }
    requires high { number ≤ 25200 }
    ensures { pos result ≡ month_start number }
{
    let date = Date {
        year: (number / 12) as i16,
        month: (number % 12 + 1) as u8,
        day: 1,
    };
    Day::new(date.to_unix_epoch_day() as u32)
}
