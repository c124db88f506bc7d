ghost use Rattle.std.specs.Prelude.{◌≡◌, ℕ, ◌≤◌};
ghost use Rattle.tacho_time.specs.Reading.{day_at};
ghost use Rattle.tacho_time.specs.Limits.{greatest_day};

use crate::fault::TimeFault;
use crate::read;
use std::marker::Model;

/// The first day that is read: 2000-01-03, a Monday.
pub const FIRST_DAY: u32 = 10_959;

/// The last day that is read: 2099-12-31.
pub const LAST_DAY: u32 = 47_481;

/// The greatest number of a day: that of 2100-02-08.
pub const GREATEST_DAY: u32 = 47_520;

/// A day in UTC, by its number from 1970-01-01 (day 0) to 2100-02-08 (day 47,520).
#[derive(Clone, Copy, Debug, PartialEq, Eq, PartialOrd, Ord)]
pub struct Day {
    number: u32,
}

impl Model for Day {
    ghost Value = { ℕ };

    ghost view = { λ day. day.number };

    ghost invariant = { λ day. day.number ≤ greatest_day };

    ghost inverse = { λ n. record { number = n } };
}

impl Day {
    /// Returns the day with this number.
    pub fn new(number: u32) -> Day
        requires { number ≤ greatest_day }
        ensures { result ≡ number }
    {
        Day { number }
    }

    /// Returns the day's number.
    pub fn number(self) -> u32
        ensures value { result ≡ self }
        ensures bound { result ≤ greatest_day }
    {
        self.number
    }

    /// Reads ten bytes `YYYY-MM-DD`, from 2000-01-03 to 2099-12-31.
    pub fn read(text: &[u8]) -> Result<Day, TimeFault>
        ensures { result ≡ day_at text.now }
    {
        let Some(date) = read::date_parts(text) else {
            return Err(TimeFault::Shape);
        };
        read::day_of_date(date)
    }
}
