ghost use Rattle.std.specs.Prelude.{◌<◌, ◌≤◌, All, AllPairs, IfOk, MatchOption};
ghost use Rattle.tacho_law.specs.Line.{line_of, IsExamined};
ghost use Rattle.tacho_law.specs.Runs.{AreRuns};
ghost use Rattle.tacho_law.specs.Driving.{driving};
ghost use Rattle.tacho_law.specs.Order.{AreBreaches};
ghost use Rattle.tacho_law.specs.Breaches.{IsBreakBreach, AreBreakBreaches};
ghost use Rattle.tacho_law.specs.Limits.{driving_before_break};
ghost use Rattle.tacho_plain.specs.BreakBreaches.{IsLongPeriod};

use std::alloc::{AllocError, Global};
use tacho_law::limits::DRIVING_BEFORE_BREAK;
use tacho_law::{Breach, Kind, Run};
use tacho_periods::{Examined, Excess, complete_breaks, driving_minute, excess_between, rest_runs};
use tacho_time::{Minute, Span};

/// Returns the breach from `from` to before `to`, if there are too many driving minutes.
fn breach_between(examined: &Examined<'_>, from: u32, to: u32) -> Option<Breach>
    requires { IsExamined examined.now.spans.now examined.now.base examined.now.past }
    ensures { MatchOption result
        (driving (line_of examined.now.spans.now) from to ≤ driving_before_break)
        (λ breach. IsLongPeriod (line_of examined.now.spans.now) from to breach) }
{
    let Excess { moment, amount } = excess_between(examined, from, to, DRIVING_BEFORE_BREAK)?;
    let since = driving_minute(examined, from, to, 1)?;
    Some(Breach {
        kind: Kind::B1,
        moment,
        since: Minute::new(since),
        amount,
    })
}

/// Finds the breaches between neighbouring complete breaks, in order of time.
fn long_periods(
    alloc: Global,
    examined: &Examined<'_>,
    breaks: &[Run],
) -> Result<Vec<Breach>, AllocError>
    requires examined { IsExamined examined.now.spans.now examined.now.base examined.now.past }
    requires breaks { AreRuns breaks.now }
    ensures { IfOk result (λ found. AreBreaches
        (λ breach. IsBreakBreach (line_of examined.now.spans.now) breaks.now breach.kind breach) found.items) }
{
    let mut found = Vec::new(alloc);
    for i in 1..breaks.len() {
        let from = breaks[i - 1].past;
        let to = breaks[i].start;
        if let Some(breach) = breach_between(examined, from, to) {
            found.push(breach)?;
        }
    }
    Ok(found)
}

/// Returns the breaches of the rule on breaks (Article 7) from `base` to before `past`, in order of time.
pub fn breaks(
    alloc: Global,
    spans: &[Span],
    base: Minute,
    past: Minute,
) -> Result<Vec<Breach>, AllocError>
    requires { IsExamined spans.now base past }
    ensures { IfOk result (λ found. AreBreakBreaches (line_of spans.now) found.items) }
{
    let examined = &Examined { spans, base, past };
    let runs = rest_runs(alloc, examined)?;
    let breaks = complete_breaks(alloc, &runs)?;
    long_periods(alloc, examined, &breaks)
}
