ghost use Rattle.std.specs.Prelude.{◌≡◌, ℕ, ◌≤◌, ◌/◌, ◌%◌};
ghost use Rattle.tacho_time.specs.Reading.{minute_at};
ghost use Rattle.tacho_time.specs.Limits.{greatest_minute};

use crate::day::Day;
use crate::fault::TimeFault;
use crate::read;
use std::marker::Model;

/// The greatest number of a minute: the first of 2100-02-08.
pub const GREATEST_MINUTE: u32 = 68_428_800;

/// A whole number of minutes since 1970-01-01 00:00 UTC, to 2100-02-08 00:00 (68,428,800).
#[derive(Clone, Copy, Debug, PartialEq, Eq, PartialOrd, Ord)]
pub struct Minute {
    number: u32,
}

impl Model for Minute {
    ghost Value = { ℕ };

    ghost view = { λ minute. minute.number };

    ghost invariant = { λ minute. minute.number ≤ greatest_minute };

    ghost inverse = { λ n. record { number = n } };
}

impl Minute {
    /// Returns the minute with this number.
    pub fn new(number: u32) -> Minute
        requires { number ≤ greatest_minute }
        ensures { result ≡ number }
    {
        Minute { number }
    }

    /// Returns the minute's number.
    pub fn number(self) -> u32
        ensures value { result ≡ self }
        ensures bound { result ≤ greatest_minute }
    {
        self.number
    }

    /// Returns the day that contains the minute.
    pub fn day(self) -> Day
        ensures { result ≡ self / 1440 }
    {
        Day::new(self.number / 1440)
    }

    /// Returns how many minutes of the same day come before it.
    pub fn of_day(self) -> u32
        ensures { result ≡ self % 1440 }
    {
        self.number % 1440
    }

    /// Reads sixteen bytes `YYYY-MM-DD HH:MM`, from 2000-01-03 00:00 to 2099-12-31 23:59 UTC.
    pub fn read(text: &[u8]) -> Result<Minute, TimeFault>
        ensures { result ≡ minute_at text.now }
    {
        if text.len() != 16 || text[10] != b' ' || text[13] != b':' {
            return Err(TimeFault::Shape);
        }
        let Some(date) = read::date_parts(&text[..10]) else {
            return Err(TimeFault::Shape);
        };
        let Some(hour) = read::digits(&text[11..13]) else {
            return Err(TimeFault::Shape);
        };
        let Some(minute) = read::digits(&text[14..]) else {
            return Err(TimeFault::Shape);
        };
        read::minute_of_parts(date, hour, minute)
    }
}
