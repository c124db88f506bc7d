ghost use Rattle.std.specs.Prelude.{◌≤◌, ◌+◌, IfOk, MatchOption};
ghost use Rattle.tacho_law.specs.Line.{line_of, IsExamined};
ghost use Rattle.tacho_law.specs.Driving.{driving};
ghost use Rattle.tacho_law.specs.Breaches.{AreWeekBreaches, IsDrivingBreach};
ghost use Rattle.tacho_plain.specs.WeekBreaches.{AreOfWeeks};

use std::alloc::{AllocError, Global};
use tacho_law::limits::{DRIVING_IN_TWO_WEEKS, DRIVING_IN_WEEK};
use tacho_law::{Breach, Kind, put_in_order};
use tacho_periods::{Examined, Excess, excess_between};
use tacho_time::{Minute, Span, Week, first_minute, week_of};

/// Returns the breach from `since` to before `to`, if more than `most` minutes are driving.
fn breach_between(
    examined: &Examined<'_>,
    kind: Kind,
    since: Minute,
    to: Minute,
    most: u32,
) -> Option<Breach>
    requires { IsExamined examined.now.spans.now examined.now.base examined.now.past }
    ensures { MatchOption result
        (driving (line_of examined.now.spans.now) since to ≤ most)
        (λ breach. IsDrivingBreach (line_of examined.now.spans.now) kind most since to breach) }
{
    let Excess { moment, amount } = excess_between(examined, since.number(), to.number(), most)?;
    Some(Breach {
        kind,
        moment,
        since,
        amount,
    })
}

/// Finds the breaches of the weeks from one number to before another, each week alone and with the next one, week by week.
fn breaches_of_weeks(
    alloc: Global,
    examined: &Examined<'_>,
    first: u32,
    end: u32,
) -> Result<Vec<Breach>, AllocError>
    requires examined { IsExamined examined.now.spans.now examined.now.base examined.now.past }
    requires within { end ≤ 6787 }
    requires nonempty { first ≤ end }
    ensures { IfOk result (λ found. AreOfWeeks (line_of examined.now.spans.now) first end found.items) }
{
    let mut found = Vec::new(alloc);
    for number in first..end {
        let start = first_minute(Week::new(number));
        let next = first_minute(Week::new(number + 1));
        let after = first_minute(Week::new(number + 2));
        let week = breach_between(examined, Kind::B6, start, next, DRIVING_IN_WEEK);
        if let Some(breach) = week {
            found.push(breach)?;
        }
        let two = breach_between(examined, Kind::B7, start, after, DRIVING_IN_TWO_WEEKS);
        if let Some(breach) = two {
            found.push(breach)?;
        }
    }
    Ok(found)
}

/// Returns the breaches of the rules on driving in a week and in two (Article 6(2) and (3)) from `base` to before `past`, in order of time.
/// Each week is judged together with the next one, and the week before the base with the base's week.
pub fn weeks(
    alloc: Global,
    spans: &[Span],
    base: Minute,
    past: Minute,
) -> Result<Vec<Breach>, AllocError>
    requires { IsExamined spans.now base past }
    ensures { IfOk result (λ found. AreWeekBreaches (line_of spans.now) found.items) }
{
    let examined = &Examined { spans, base, past };
    let first = week_of(base).number() - 1;
    let end = week_of(past).number() + 1;
    let mut found = breaches_of_weeks(alloc, examined, first, end)?;
    put_in_order(&mut found);
    Ok(found)
}
