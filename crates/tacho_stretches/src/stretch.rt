ghost use Rattle.std.specs.Prelude.{◌≡◌, ◌≤◌, All, IfOk, map};
ghost use Rattle.tacho_law.specs.Line.{IsBase};
ghost use Rattle.tacho_law.specs.Limits.{latest};
ghost use Rattle.tacho_stretches.specs.Stretches.{AreStretches, judged_of, unseen_to};

use crate::end::end_of_held;
use crate::start::next_start;
use std::alloc::{AllocError, Global};
use tacho_line::Line;
use tacho_rules::{Report, examine};
use tacho_time::Minute;

/// An examination from a Monday to its horizon, and what isn't examined after it.
#[derive(Drop)]
pub struct Stretch {
    /// The first minute of the Monday.
    pub monday: Minute,
    /// The report of the timeline from there to the horizon.
    pub report: Report,
    /// The end of the range that begins at the horizon and isn't examined: the next stretch, or the end of what is held. `None` if there is
    /// no such range.
    pub unseen: Option<Minute>,
}

/// Returns the stretches of a timeline: the report from a base, the first minute of a Monday; then, after each horizon, the report from the
/// next Monday whose first minute is held without a second driver. Minutes are in UTC. Fails only if memory runs out.
pub fn stretches(alloc: Global, line: &Line, base: Minute) -> Result<Vec<Stretch>, AllocError>
    requires monday { IsBase base }
    requires in_range { base ≤ latest }
    requires within { All (λ span. span.past ≤ latest) line.now }
    ensures { IfOk result (λ stretches. AreStretches line.now base (map judged_of stretches.items)) }
{
    let spans = line.spans();
    let end = end_of_held(spans, base);
    let mut stretches = Vec::new(alloc);
    let mut monday = base;
    'from: loop {
        let report = examine(alloc, line, monday)?;
        let horizon = horizon_of(&report);
        let next = next_start(spans, horizon);
        let unseen = unseen_after(end, horizon, &next);
        stretches.push(Stretch {
            monday,
            report,
            unseen,
        })?;
        let Some(start) = next else {
            return Ok(stretches);
        };
        monday = start;
    }
}

/// Returns the horizon of a report.
pub(crate) fn horizon_of(report: &Report) -> Minute
    ensures { result ≡ report.now.horizon.minute }
{
    report.horizon.minute
}

/// Returns the end of the range after a horizon that isn't examined, if there is such a range.
pub(crate) fn unseen_after(end: Minute, horizon: Minute, next: &Option<Minute>) -> Option<Minute>
    ensures { result ≡ unseen_to end horizon next.now }
{
    match next {
        Some(monday) => Some(*monday),
        None if horizon < end => Some(end),
        None => None,
    }
}
