ghost use Rattle.std.specs.Prelude.{IfOk};
ghost use Rattle.tacho_law.specs.Line.{line_of, IsExamined};
ghost use Rattle.tacho_evidence.specs.Periods.{ArePeriods};

use std::alloc::{AllocError, Global};
use tacho_law::limits::{FIRST_PART_OF_DAILY_REST, WEEKLY_REST};
use tacho_law::{DutyDay, Run};
use tacho_periods::{Examined, complete_breaks, duty_days, long_rests, rest_runs};

/// The periods of an examined line that evidence names, each list in order of time.
#[derive(Drop)]
pub(crate) struct Periods {
    /// All rest runs.
    pub(crate) runs: Vec<Run>,
    /// The complete breaks.
    pub(crate) breaks: Vec<Run>,
    /// The duty days.
    pub(crate) days: Vec<DutyDay>,
    /// The rest runs of three hours or more.
    pub(crate) parts: Vec<Run>,
    /// The weekly rests.
    pub(crate) weekly: Vec<Run>,
}

/// Finds the periods of an examined line.
pub(crate) fn periods_of(alloc: Global, examined: &Examined<'_>) -> Result<Periods, AllocError>
    requires { IsExamined examined.now.spans.now examined.now.base examined.now.past }
    ensures { IfOk result (ArePeriods (line_of examined.now.spans.now)) }
{
    let runs = rest_runs(alloc, examined)?;
    Ok(Periods {
        breaks: complete_breaks(alloc, &runs)?,
        days: duty_days(alloc, &runs)?,
        parts: long_rests(alloc, &runs, FIRST_PART_OF_DAILY_REST)?,
        weekly: long_rests(alloc, &runs, WEEKLY_REST)?,
        runs,
    })
}
