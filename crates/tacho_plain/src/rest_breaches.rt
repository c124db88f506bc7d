ghost use Rattle.std.specs.Prelude.{◌≤◌, IfOk};
ghost use Rattle.tacho_law.specs.Line.{line_of, IsBase, IsExamined, Line};
ghost use Rattle.tacho_law.specs.Runs.{AreRestsOf};
ghost use Rattle.tacho_choice.specs.Weeks.{IsInWeeks};
ghost use Rattle.tacho_periods.specs.Rests.{AreInTime};
ghost use Rattle.tacho_law.specs.Breaches.{AreRestBreaches, IsLate, IsLacking};
ghost use Rattle.tacho_law.specs.SoFar.{AreCollected};
ghost use Rattle.tacho_law.specs.Limits.{weekly_rest, latest};

use crate::choices::{can_serve, weeks_of_rests};
use crate::compensation::{debts_of, overdue};
use std::alloc::{AllocError, Global};
use tacho_law::limits::{DAILY_REST, SIX_DAYS, WEEKLY_REST};
use tacho_law::{Breach, Kind, Run, put_in_order};
use tacho_pass::Found;
use tacho_periods::{Examined, long_rests, rest_runs};
use tacho_time::{Minute, Span, Week, first_minute, week_of};

/// Finds the breaches of weekly rests that start too late (Article 8(6)), in order of time.
fn late_rests(alloc: Global, weekly: &[Run]) -> Result<Vec<Breach>, AllocError>
    requires { AreInTime weekly.now }
    ensures { IfOk result (λ found. (line : Line) → AreRestsOf line weekly_rest weekly.now
        → AreCollected (IsLate line) found.items) }
{
    let mut found = Vec::new(alloc);
    for i in 1..weekly.len() {
        let since = weekly[i - 1].past;
        let latest = since + SIX_DAYS;
        let start = weekly[i].start;
        if latest < start {
            found.push(Breach {
                kind: Kind::B8,
                moment: Minute::new(latest),
                since: Minute::new(since),
                amount: start - latest,
            })?;
        }
    }
    Ok(found)
}

/// Finds the weeks up to which no choice of a week for each weekly rest serves, week by week, and starts again from each week at which none
/// did (Articles 8(6), first subparagraph, and 8(9)).
fn lacking_weeks(
    alloc: Global,
    weekly: &[Run],
    base: Minute,
    horizon: Minute,
) -> Result<Vec<Breach>, AllocError>
    requires in_time { AreInTime weekly.now }
    requires base { IsBase base }
    requires range { base ≤ horizon }
    requires in_range { horizon ≤ latest }
    ensures { IfOk result (λ found. (line : Line) → AreRestsOf line weekly_rest weekly.now → IsInWeeks line
        → AreCollected (IsLacking line base horizon) found.items) }
{
    let first = week_of(base).number();
    let past = week_of(horizon).number();
    let weeks = weeks_of_rests(alloc, weekly, first, past)?;
    let mut found = Vec::new(alloc);
    let mut start = 0;
    for at in 1..weeks.len() {
        if !can_serve(&weeks, start, at) {
            let number = first + at as u32;
            found.push(Breach {
                kind: Kind::B9,
                moment: first_minute(Week::new(number + 1)),
                since: first_minute(Week::new(number - 1)),
                amount: 0,
            })?;
            start = at;
        }
    }
    Ok(found)
}

/// Returns the breaches of the rules on weekly rests (Article 8(6) and (6b)) from `base` to before `past`, in order of time, and the debts
/// ordered by week, each with its payer.
pub fn rests(alloc: Global, spans: &[Span], base: Minute, past: Minute) -> Result<Found, AllocError>
    requires { IsExamined spans.now base past }
    ensures { IfOk result (λ found. AreRestBreaches
        (line_of spans.now) base past found.breaches.items found.debts.items) }
{
    let examined = &Examined { spans, base, past };
    let runs = rest_runs(alloc, examined)?;
    let daily = long_rests(alloc, &runs, DAILY_REST)?;
    let weekly = long_rests(alloc, &runs, WEEKLY_REST)?;
    let last = runs[runs.len() - 1];
    let debts = debts_of(alloc, &daily, &weekly, past.number(), last)?;
    let mut breaches = late_rests(alloc, &weekly)?;
    let mut lacking = lacking_weeks(alloc, &weekly, base, past)?;
    breaches.append(&mut lacking)?;
    let mut unpaid = overdue(alloc, &debts, past.number())?;
    breaches.append(&mut unpaid)?;
    put_in_order(&mut breaches);
    Ok(Found { breaches, debts })
}
