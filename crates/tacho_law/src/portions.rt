ghost use Rattle.std.specs.Prelude.{◌≤◌, ◌↔◌, IsTrue};
ghost use Rattle.tacho_law.specs.Days.{HasPortion};
ghost use Rattle.tacho_law.specs.Limits.{minutes_of_day};
ghost use Rattle.tacho_time.specs.Limits.{greatest_minute};

use crate::days::DutyDay;
use crate::limits::MINUTES_OF_DAY;

/// Returns true if the daily rest has `minutes` minutes within 24 hours of the day's start (Article 8(2) of Regulation (EC) No 561/2006).
pub fn has_portion(day: DutyDay, minutes: u32) -> bool
    requires started { day.start ≤ greatest_minute }
    requires ended { day.past ≤ greatest_minute }
    requires bounded { minutes ≤ minutes_of_day }
    ensures { IsTrue result ↔ HasPortion day minutes }
{
    day.past + minutes <= day.rest.past.min(day.start + MINUTES_OF_DAY)
}
