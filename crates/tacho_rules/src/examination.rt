ghost use Rattle.std.specs.Prelude.{◌≤◌, All, IfOk, IsTrue};
ghost use Rattle.tacho_law.specs.Line.{IsBase};
ghost use Rattle.tacho_law.specs.Limits.{latest};
ghost use Rattle.tacho_rules.specs.Report.{IsReport};

use crate::report::Report;
use crate::scan::Scan;
use std::alloc::{AllocError, Global};
use tacho_law::limits::{FIRST_BASE, LATEST};
use tacho_line::Line;
use tacho_pass::Found;
use tacho_time::{Minute, first_minute, week_of};

/// True if a timeline can be examined from a base: the base is the first minute of a Monday from 2000-01-03 to the end of 2099, and no span
/// goes past that end. Minutes are in UTC.
pub fn can_be_examined(line: &Line, base: Minute) -> bool
    ensures monday { IsTrue result → IsBase base }
    ensures in_range { IsTrue result → base ≤ latest }
    ensures within { IsTrue result → All (λ span. span.past ≤ latest) line.now }
    ensures all { IsBase base → base ≤ latest → All (λ span. span.past ≤ latest) line.now → IsTrue result }
{
    FIRST_BASE <= base.number()
        && base.number() <= LATEST
        && first_minute(week_of(base)) == base
        && line.spans().iter().all(|span| span.past.number() <= LATEST)
}

/// Returns the report of a timeline from a base, the first minute of a Monday, to its horizon: every breach of the rules on driving and
/// rest hours (Articles 6, 7 and 8 of Regulation (EC) No 561/2006) once, and every debt. Minutes are in UTC.
pub fn examine(alloc: Global, line: &Line, base: Minute) -> Result<Report, AllocError>
    requires monday { IsBase base }
    requires in_range { base ≤ latest }
    requires within { All (λ span. span.past ≤ latest) line.now }
    ensures { IfOk result (λ report. IsReport line.now base report.horizon report.breaches.items report.debts.items) }
{
    let horizon = line.horizon(base);
    let spans = line.meeting(base, horizon.minute);
    let mut scan = Scan::new(base);
    let mut found = Found::empty(alloc);
    scan.feed_within(spans, base, horizon.minute, &mut found)?;
    scan.finish(horizon, found)
}
