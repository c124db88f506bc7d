ghost use Rattle.std.specs.Prelude.{◌≡◌, ℕ, ◌+◌, ◌*◌, ◌%◌, ◌<◌, ◌≤◌};
ghost use Rattle.jiff_core.specs.Weekday.{monday_zero};
ghost use Rattle.tacho_time.specs.Limits.{greatest_week};

use crate::day::Day;
use crate::minute::Minute;
use jiff_core::civil::Weekday;
use std::marker::Model;

/// The first minute of week 0: 1970-01-05 was a Monday.
const FIRST_MONDAY: u32 = 5760;

/// The number of minutes in a week.
const MINUTES_OF_WEEK: u32 = 10_080;

/// A week from Monday 00:00 to Sunday 24:00 UTC, by its number from that of 1970-01-05 (week 0) to
/// that of 2100-02-08 (week 6,788).
#[derive(Clone, Copy, Debug, PartialEq, Eq, PartialOrd, Ord)]
pub struct Week {
    number: u32,
}

impl Model for Week {
    ghost Value = { ℕ };

    ghost view = { λ week. week.number };

    ghost invariant = { λ week. week.number ≤ greatest_week };

    ghost inverse = { λ n. record { number = n } };
}

impl Week {
    /// Returns the week with this number.
    pub fn new(number: u32) -> Week
        requires { number ≤ greatest_week }
        ensures { result ≡ number }
    {
        Week { number }
    }

    /// Returns the week's number.
    pub fn number(self) -> u32
        ensures value { result ≡ self }
        ensures bound { result ≤ greatest_week }
    {
        self.number
    }
}

/// Returns the week that contains a minute. The minute is 1970-01-05 00:00 or later.
pub fn week_of(minute: Minute) -> Week
    requires { 5760 ≤ minute }
    ensures from { 5760 + 10080 * result ≤ minute }
    ensures before { minute < 5760 + 10080 * (result + 1) }
{
    Week::new((minute.number() - FIRST_MONDAY) / MINUTES_OF_WEEK)
}

/// Returns the first minute of a week: its Monday at 00:00.
pub fn first_minute(week: Week) -> Minute
    ensures { result ≡ 5760 + 10080 * week }
{
    Minute::new(FIRST_MONDAY + MINUTES_OF_WEEK * week.number())
}

/// Returns the next week.
pub fn next_week(week: Week) -> Week
    requires { week < greatest_week }
    ensures { result ≡ week + 1 }
{
    Week::new(week.number() + 1)
}

/// Returns the weekday of a day. Day 0 was a Thursday.
pub fn weekday(day: Day) -> Weekday
    ensures { monday_zero result ≡ (day + 3) % 7 }
{
    Weekday::from_index(((day.number() + 3) % 7) as u8)
}
