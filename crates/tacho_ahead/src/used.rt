ghost use Rattle.std.specs.Prelude.{◌≡◌, ◌+◌, ◌<◌, ◌≤◌, ◌↔◌, ◌∷◌, ◌++◌, [], ℕ, Contains, IsTrue, IfOk};
ghost use Rattle.tacho_time.specs.declared.span.Activity.TheVariants.{Drive};
ghost use Rattle.tacho_time.specs.Limits.{greatest_week};
ghost use Rattle.tacho_law.specs.declared.run.Run.{Run as RunValue};
ghost use Rattle.tacho_law.specs.Breaches.{IsExtended};
ghost use Rattle.tacho_law.specs.Days.{IsReduced, EarlierDay};
ghost use Rattle.tacho_law.specs.Driving.{driving};
ghost use Rattle.tacho_law.specs.Exactly.{HasCount};
ghost use Rattle.tacho_law.specs.Limits.{driving_in_day, first_part_of_daily_rest, latest, weekly_rest};
ghost use Rattle.tacho_law.specs.Line.{line_of, IsExamined, Joined, Line};
ghost use Rattle.tacho_law.specs.Runs.{AreRestRuns, AreRestsOf, AreRuns, Before, minutes_of};
ghost use Rattle.tacho_law.specs.Weeks.{week_start, IsInWeek};
ghost use Rattle.tacho_periods.specs.DutyDays.{AreDutyDays};
ghost use Rattle.tacho_ahead.specs.DaysInTime.{AreInTime};
ghost use Rattle.tacho_ahead.specs.Plans.{single};
ghost use Rattle.tacho_ahead.specs.Used.{IsReducedLately, IsRestSince, IsUsedOf};

use std::alloc::{AllocError, Global};
use tacho_law::limits::{DRIVING_IN_DAY, FIRST_PART_OF_DAILY_REST, WEEKLY_REST};
use tacho_law::{DutyDay, Run};
use tacho_pass::is_rest;
use tacho_periods::{Examined, driving_minutes, duty_days, is_reduced, long_rests, rest_runs};
use tacho_time::{Activity, Mark, Minute, Span, Week, first_minute, next_week, week_of};

/// What a driver has used of the limits when a forecast begins. Amounts are in minutes.
#[derive(Clone, Copy, Debug, PartialEq, Eq)]
pub struct Used {
    /// The start of the last rest; `None` if nothing but rest is examined.
    pub rest_since: Option<Minute>,
    /// The start of the duty day that goes on, or begins, at the start of the forecast.
    pub day_since: Minute,
    /// How many daily rests were reduced since the last weekly rest (Article 8(4) of Regulation (EC) No 561/2006).
    pub reduced: u32,
    /// How many days in the week of today, before today, have more than nine hours of driving (Article 6(1)).
    pub extended: u32,
    /// The driving in the week before that of the start.
    pub driven_before: u32,
    /// The driving in the week of the start.
    pub driven_in_week: u32,
}

/// Returns the end of the last span that isn't rest, if there is one.
fn rest_since(spans: &[Span]) -> Option<Minute>
    ensures { (base past : ℕ) → Joined spans.now base past → IsRestSince (line_of spans.now) result }
{
    let last = spans.iter().rposition(|span| !is_rest(span.mark.activity))?;
    Some(spans[last].past)
}

/// Returns the driving in a week, in minutes.
fn driven_in(examined: &Examined<'_>, week: Week) -> u32
    requires examined { IsExamined examined.now.spans.now examined.now.base examined.now.past }
    requires in_range { week < greatest_week }
    ensures { result ≡ driving (line_of examined.now.spans.now) (week_start week) (week_start (week + 1)) }
{
    let start = first_minute(week).number();
    let end = first_minute(next_week(week)).number();
    driving_minutes(examined, start, end)
}

/// Returns the last of the runs that have ended by a minute. One of them has.
fn last_ended(runs: &[Run], minute: u32) -> Run
    requires runs { AreRuns runs.now }
    requires some { (run : RunValue) × Contains runs.now run × (run.past ≤ minute) }
    ensures among { Contains runs.now result }
    ensures ended { result.past ≤ minute }
    ensures last { (run : RunValue) → Contains runs.now run → run.past ≤ minute → run.start ≤ result.start }
{
    runs[runs.partition_point(|run| run.past <= minute) - 1]
}

/// Returns how many of the days have a reduced daily rest that doesn't end before a weekly rest. `parts` are the rests of three hours or
/// more.
fn reduced_since(days: &[DutyDay], parts: &[Run], weekly: Run) -> u32
    requires days { AreInTime days.now }
    requires parts { AreRuns parts.now }
    ensures { (line : Line) → AreDutyDays line days.now → AreRestsOf line first_part_of_daily_rest parts.now
        → HasCount (λ day. IsReduced line day × ¬ (Before day.rest weekly)) EarlierDay result }
{
    let mut count = 0;
    for day in days {
        if weekly.start <= day.rest.past && is_reduced(*day, parts) {
            count += 1;
        }
    }
    count
}

/// Returns how many of the days between rest runs have a reduced daily rest, with no weekly rest after it that has ended by a minute. A
/// weekly rest has.
fn reduced_lately(
    alloc: Global,
    runs: &[Run],
    days: &[DutyDay],
    minute: u32,
) -> Result<u32, AllocError>
    requires line { (line : Line) × AreRestRuns line runs.now }
    requires days { AreInTime days.now }
    requires some { (run : RunValue) × Contains runs.now run × (weekly_rest ≤ minutes_of run) × (run.past ≤ minute) }
    ensures { IfOk result (λ count. (line : Line) → AreRestRuns line runs.now → AreDutyDays line days.now
        → HasCount (IsReducedLately line minute) EarlierDay count) }
{
    let parts = long_rests(alloc, runs, FIRST_PART_OF_DAILY_REST)?;
    let weekly = long_rests(alloc, runs, WEEKLY_REST)?;
    Ok(reduced_since(days, &parts, last_ended(&weekly, minute)))
}

/// True if a day begins in a range of minutes and has more than nine hours of driving (Article 6(1) of Regulation (EC) No 561/2006).
fn is_extended_within(examined: &Examined<'_>, day: DutyDay, from: u32, to: u32) -> bool
    requires { IsExamined examined.now.spans.now examined.now.base examined.now.past }
    ensures { IsTrue result ↔ (from ≤ day.start) × (day.start < to)
        × (driving_in_day < driving (line_of examined.now.spans.now) day.start day.past) }
{
    from <= day.start
        && day.start < to
        && driving_minutes(examined, day.start, day.past) > DRIVING_IN_DAY
}

/// Returns how many of the days are extended, in the week of a minute and before it.
fn extended_before(examined: &Examined<'_>, days: &[DutyDay], today: Minute) -> u32
    requires examined { IsExamined examined.now.spans.now examined.now.base examined.now.past }
    requires days { AreDutyDays (line_of examined.now.spans.now) days.now }
    requires from { 5760 ≤ today }
    ensures { (week : ℕ) × IsInWeek week today
        × HasCount (λ day. IsExtended (line_of examined.now.spans.now) week day × (day.start < today)) EarlierDay result }
{
    let start = first_minute(week_of(today)).number();
    let mut count = 0;
    for day in days {
        if is_extended_within(examined, *day, start, today.number()) {
            count += 1;
        }
    }
    count
}

/// Returns what is used at the end of spans that follow one another from a Monday to `start`.
pub(crate) fn used_of(
    alloc: Global,
    mut spans: Vec<Span>,
    monday: Minute,
    start: Minute,
) -> Result<Used, AllocError>
    requires examined { IsExamined spans.items monday start }
    requires within { start + 1 ≤ latest }
    ensures { IfOk result (IsUsedOf (line_of spans.items) (line_of (spans.items ++ single start (start + 1) Drive ∷ [])) start) }
{
    let rest_since = rest_since(&spans);
    let held = Examined {
        spans: &spans,
        base: monday,
        past: start,
    };
    let week = week_of(start);
    let driven_before = driven_in(&held, Week::new(week.number() - 1));
    let driven_in_week = driven_in(&held, week);
    let past = Minute::new(start.number() + 1);
    spans.push(Span {
        start,
        past,
        mark: Mark {
            activity: Activity::Drive,
            crew: false,
        },
    })?;
    let examined = Examined {
        spans: &spans,
        base: monday,
        past,
    };
    let runs = rest_runs(alloc, &examined)?;
    let days = duty_days(alloc, &runs)?;
    let today = Minute::new(days[days.len() - 1].start);
    let reduced = reduced_lately(alloc, &runs, &days, start.number())?;
    Ok(Used {
        rest_since,
        day_since: today,
        reduced,
        extended: extended_before(&examined, &days, today),
        driven_before,
        driven_in_week,
    })
}
