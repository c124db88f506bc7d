use crate::day::ReadDay;
use std::marker::Model;
use tacho_time::{Day, Minute};

/// The most days of a period: 527,040 minutes.
const MOST_DAYS: u32 = 366;

/// The days of a period: from the first to before the last. It has 1 to 366 days.
#[derive(Clone, Copy)]
pub struct Period {
    from: ReadDay,
    past: ReadDay,
}

impl Model for Period {
    ghost use Rattle.std.specs.Prelude.{◌≡◌, true};
    ghost use Rattle.tacho_desk.specs.Range.{Days, is_period};

    ghost Value = { Days };

    ghost view = { λ period. record { from = period.from; past = period.past } };

    ghost invariant = { λ period. is_period period.from period.past ≡ true };

    ghost inverse = { λ d. record { from = d.from; past = d.past } };
}

impl Period {
    ghost use Rattle.std.specs.Prelude.{◌≡◌, ◌*◌, true, false, MatchOption};
    ghost use Rattle.tacho_desk.specs.Range.{Days, is_period};

    /// Makes a period of the days from `from` to before `past`. None if it has no day, or more than 366 of them.
    pub fn new(from: ReadDay, past: ReadDay) -> Option<Period>
        ensures { MatchOption result (is_period from past ≡ false) (λ period. (period ≡ record { from = from; past = past }) × (is_period from past ≡ true)) }
    {
        let days = past.day().number().saturating_sub(from.day().number());
        if days == 0 || days > MOST_DAYS {
            return None;
        }
        Some(Period { from, past })
    }

    /// The first day.
    pub fn from(self) -> Day
        ensures { result ≡ self.from }
    {
        self.from.day()
    }

    /// The day after the last.
    pub fn past(self) -> Day
        ensures { result ≡ self.past }
    {
        self.past.day()
    }

    /// The first minute.
    pub fn start(self) -> Minute
        ensures { result ≡ 1440 * self.from }
    {
        self.from.first_minute()
    }

    /// The minute after the last.
    pub fn end(self) -> Minute
        ensures { result ≡ 1440 * self.past }
    {
        self.past.first_minute()
    }
}
