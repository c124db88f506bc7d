ghost use Rattle.std.specs.Prelude.{◌<◌, ◌≤◌, ◌↔◌, All, AllPairs, Contains, IsTrue};
ghost use Rattle.tacho_law.specs.declared.run.Run.{Run as RunValue};
ghost use Rattle.tacho_law.specs.Runs.{AreRuns};
ghost use Rattle.tacho_law.specs.Days.{HasRegularRest, HasReducedRest};
ghost use Rattle.tacho_time.specs.Limits.{greatest_minute};

use tacho_law::limits::{DAILY_REST, REGULAR_DAILY_REST, WEEKLY_REST};
use tacho_law::{DutyDay, Run, has_portion};

/// True if one of the runs is between two minutes.
fn has_run_between(runs: &[Run], from: u32, to: u32) -> bool
    requires { AreRuns runs.now }
    ensures { IsTrue result ↔ ((run : RunValue) × Contains runs.now run × (from ≤ run.start) × (run.past ≤ to)) }
{
    let first = runs.partition_point(|run| run.start < from);
    first < runs.len() && runs[first].past <= to
}

/// True if the daily rest of a duty day is regular (Article 4(g) of Regulation (EC) No 561/2006). `parts` are the rests of three hours or
/// more.
pub fn is_regular(day: DutyDay, parts: &[Run]) -> bool
    requires started { day.start ≤ greatest_minute }
    requires ended { day.past ≤ greatest_minute }
    requires parts { AreRuns parts.now }
    ensures { IsTrue result ↔ HasRegularRest parts.now day }
{
    has_portion(day, REGULAR_DAILY_REST)
        || (has_portion(day, DAILY_REST) && has_run_between(parts, day.start, day.past))
}

/// True if the daily rest of a duty day is reduced (Article 4(g) and Article 8(4) of Regulation (EC) No 561/2006). `parts` are the rests of
/// three hours or more.
pub fn is_reduced(day: DutyDay, parts: &[Run]) -> bool
    requires started { day.start ≤ greatest_minute }
    requires ended { day.past ≤ greatest_minute }
    requires rests { day.rest.start < day.rest.past }
    requires parts { AreRuns parts.now }
    ensures { IsTrue result ↔ HasReducedRest parts.now day }
{
    if is_regular(day, parts) {
        return false;
    }
    has_portion(day, DAILY_REST) && day.rest.past - day.rest.start < WEEKLY_REST
}
