ghost use Rattle.std.specs.Prelude.{◌<◌, All, AllPairs, IfOk};
ghost use Rattle.tacho_law.specs.Runs.{AreRuns, AreRestRuns, AreRestsOf};
ghost use Rattle.tacho_law.specs.Line.{Line};
ghost use Rattle.tacho_periods.specs.DutyDays.{AreDutyDays};

use std::alloc::{AllocError, Global};
use tacho_law::limits::DAILY_REST;
use tacho_law::{DutyDay, Run};

/// Returns the rest runs of at least `least` minutes, in order of time (Article 4(g) and (h) of Regulation (EC) No 561/2006).
pub fn long_rests(alloc: Global, runs: &[Run], least: u32) -> Result<Vec<Run>, AllocError>
    requires { AreRuns runs.now }
    ensures { IfOk result (λ rests. (line : Line) → AreRestRuns line runs.now → AreRestsOf line least rests.items) }
{
    let mut rests = Vec::new(alloc);
    for run in runs {
        if run.past - run.start >= least {
            rests.push(*run)?;
        }
    }
    Ok(rests)
}

/// Returns the duty days between rest runs, in order of time (Article 8 of Regulation (EC) No 561/2006).
pub fn duty_days(alloc: Global, runs: &[Run]) -> Result<Vec<DutyDay>, AllocError>
    requires { AreRuns runs.now }
    ensures { IfOk result (λ days. (line : Line) → AreRestRuns line runs.now → AreDutyDays line days.items) }
{
    let rests = long_rests(alloc, runs, DAILY_REST)?;
    let mut days = Vec::new(alloc);
    for i in 1..rests.len() {
        let rest = rests[i];
        days.push(DutyDay {
            start: rests[i - 1].past,
            past: rest.start,
            rest,
        })?;
    }
    Ok(days)
}
