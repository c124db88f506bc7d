use std::marker::Model;
use tacho_time::{Day, Minute, TimeFault};

/// A day that was read: from 2000-01-03 to 2099-12-31.
#[derive(Clone, Copy)]
pub struct ReadDay {
    day: Day,
}

impl Model for ReadDay {
    ghost use Rattle.std.specs.Prelude.{ℕ};
    ghost use Rattle.tacho_state.specs.Registration.{IsReadDay};

    ghost Value = { ℕ };

    ghost view = { λ read. read.day };

    ghost invariant = { λ read. IsReadDay read.day };

    ghost inverse = { λ n. record { day = n } };
}

impl ReadDay {
    ghost use Rattle.std.specs.Prelude.{◌≡◌, ◌*◌};
    ghost use Rattle.tacho_time.specs.Reading.{day_at};
    ghost use Rattle.tacho_state.specs.Registration.{IsReadDay};

    /// Reads ten bytes `YYYY-MM-DD`: Z1 to Z3.
    pub fn read(text: &[u8]) -> Result<ReadDay, TimeFault>
        ensures { result ≡ day_at text.now }
    {
        let day = Day::read(text)?;
        Ok(ReadDay { day })
    }

    /// The day.
    pub fn day(self) -> Day
        ensures value { result ≡ self }
        ensures limits { IsReadDay result }
    {
        self.day
    }

    /// The first minute of the day.
    pub fn first_minute(self) -> Minute
        ensures { result ≡ 1440 * self }
    {
        Minute::new(self.day.number() * 1440)
    }
}
