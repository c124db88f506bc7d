ghost use Rattle.std.specs.Prelude.{◌≡◌, ◌≢◌, ◌<◌, ◌≤◌, ◌⊎◌, ◌↔◌, ℕ, AllPairs, Contains, IsTrue};
ghost use Rattle.tacho_law.specs.declared.run.Run.{Run as RunValue};
ghost use Rattle.tacho_law.specs.Runs.{IsRestRun, Before, AreRestsOf};
ghost use Rattle.tacho_periods.specs.Rests.{AreInTime};
ghost use Rattle.tacho_law.specs.Line.{Line};
ghost use Rattle.tacho_law.specs.Weeks.{IsInWeek};
ghost use Rattle.tacho_law.specs.Debts.{IsMainRest};
ghost use Rattle.tacho_law.specs.Limits.{weekly_rest, regular_weekly_rest, first_week, latest};
ghost use Rattle.tacho_periods.specs.MainRests.{IsBetter};
ghost use Rattle.tacho_law.specs.MainRests.{IsKept};

use tacho_law::limits::{DAILY_REST, FIRST_WEEK, REGULAR_WEEKLY_REST, WEEKLY_REST};
use tacho_law::{Run, known_minutes};
use tacho_time::{Minute, Week, first_minute, week_of};

/// Returns the rests that have a minute from `from` to before `to`.
pub fn touching(rests: &[Run], from: u32, to: u32) -> &[Run]
    requires in_time { AreInTime rests.now }
    requires range { from ≤ to }
    ensures each { (run : RunValue) → Contains result.now run
        ↔ (Contains rests.now run × (run.start < to) × (from < run.past)) }
    ensures in_order { AllPairs Before result.now }
{
    let first = rests.partition_point(|rest| rest.past <= from);
    let past = rests.partition_point(|rest| rest.start < to);
    &rests[first..past]
}

/// True if a rest has more minutes before the horizon than another one, or as many and starts earlier.
fn is_better(rest: Run, other: Run, horizon: u32) -> bool
    ensures { IsTrue result ↔ IsBetter horizon rest other }
{
    let minutes = known_minutes(rest, horizon);
    let least = known_minutes(other, horizon);
    least < minutes || (least == minutes && rest.start < other.start)
}

/// True if one of the weekly rests that start in a week is better than a rest.
fn is_outdone(weekly: &[Run], horizon: u32, week: Week, rest: Run) -> bool
    requires in_time { AreInTime weekly.now }
    requires in_range { week ≤ 6787 }
    ensures { IsTrue result ↔ ((other : RunValue) × Contains weekly.now other × IsInWeek week other.start
        × IsBetter horizon other rest) }
{
    let start = first_minute(week).number();
    let end = first_minute(Week::new(week.number() + 1)).number();
    for other in touching(weekly, start, end) {
        if start <= other.start && is_better(*other, rest, horizon) {
            return true;
        }
    }
    false
}

/// True if a rest is the main rest of the week in which it starts: of the rests with 24 hours before the horizon, the one with the most
/// minutes before it, and of equals the earliest (Article 8(6b)). `weekly` are the weekly rests.
pub fn is_main(weekly: &[Run], horizon: u32, rest: Run) -> bool
    requires in_time { AreInTime weekly.now }
    requires in_range { rest.start ≤ latest }
    ensures week { IsTrue result → first_week ≤ rest.start }
    ensures main { (line : Line) → AreRestsOf line weekly_rest weekly.now → IsRestRun line rest
        → (IsTrue result ↔ ((w : ℕ) × IsMainRest line horizon w rest)) }
{
    if rest.start < FIRST_WEEK || known_minutes(rest, horizon) < WEEKLY_REST {
        return false;
    }
    !is_outdone(weekly, horizon, week_of(Minute::new(rest.start)), rest)
}

/// Returns what a rest keeps of its minutes: 45 hours if it is the main rest of its week, else 9 hours (Article 8(7)).
pub fn kept_minutes(weekly: &[Run], horizon: u32, rest: Run) -> u32
    requires in_time { AreInTime weekly.now }
    requires in_range { rest.start ≤ latest }
    ensures most { result ≤ regular_weekly_rest }
    ensures kept { (line : Line) → AreRestsOf line weekly_rest weekly.now → IsRestRun line rest
        → IsKept line horizon rest result }
{
    if is_main(weekly, horizon, rest) {
        REGULAR_WEEKLY_REST
    } else {
        DAILY_REST
    }
}
