//! The rules in turn, each over all spans.

ghost use Rattle.std.specs.Prelude.{◌≤◌, All};
ghost use Rattle.tacho_law.specs.Line.{IsBase};
ghost use Rattle.tacho_law.specs.Limits.{latest};

use std::alloc::{AllocError, Global};
use tacho_law::put_in_order;
use tacho_line::Line;
use tacho_rules::Report;
use tacho_time::Minute;

/// Returns the report of a line like `examine`, but by the plain passes: breaks, days, weeks and rests.
pub(crate) fn examine_plainly(
    alloc: Global,
    line: &Line,
    base: Minute,
) -> Result<Report, AllocError>
    requires monday { IsBase base }
    requires in_range { base ≤ latest }
    requires within { All (λ span. span.past ≤ latest) line.now }
{
    let horizon = line.horizon(base);
    let past = horizon.minute;
    let held = line.slice(alloc, base, past)?;
    let spans = held.as_slice();
    let mut breaches = tacho_plain::breaks(alloc, spans, base, past)?;
    let mut of_days = tacho_plain::days(alloc, spans, base, past)?;
    let mut of_weeks = tacho_plain::weeks(alloc, spans, base, past)?;
    let mut of_rests = tacho_plain::rests(alloc, spans, base, past)?;
    breaches.append(&mut of_days)?;
    breaches.append(&mut of_weeks)?;
    breaches.append(&mut of_rests.breaches)?;
    put_in_order(&mut breaches);
    Ok(Report {
        horizon,
        breaches,
        debts: of_rests.debts,
    })
}
