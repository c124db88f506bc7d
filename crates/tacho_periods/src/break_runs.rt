ghost use Rattle.std.specs.Prelude.{◌≤◌, ◌<◌, ◌↔◌, ◌⊎◌, All, AllPairs, IfOk, IsTrue};
ghost use Rattle.tacho_law.specs.Runs.{AreRuns};
ghost use Rattle.tacho_law.specs.Breaks.{AreCompleteBreaks};
ghost use Rattle.tacho_law.specs.Limits.{whole_break, last_part_of_break};

use std::alloc::{AllocError, Global};
use tacho_law::Run;
use tacho_law::limits::{FIRST_PART_OF_BREAK, LAST_PART_OF_BREAK, WHOLE_BREAK};

/// True if a run of this many minutes completes a break, with or without a first part before it.
fn completes(minutes: u32, has_first_part: bool) -> bool
    ensures { IsTrue result ↔ ((whole_break ≤ minutes) ⊎ ((last_part_of_break ≤ minutes) × IsTrue has_first_part)) }
{
    minutes >= WHOLE_BREAK || (minutes >= LAST_PART_OF_BREAK && has_first_part)
}

/// Returns the complete breaks among rest runs, in order of time: 45 minutes, or 15 and then 30 (Article 7 of Regulation (EC) No 561/2006).
pub fn complete_breaks(alloc: Global, runs: &[Run]) -> Result<Vec<Run>, AllocError>
    requires { AreRuns runs.now }
    ensures { IfOk result (λ breaks. AreCompleteBreaks runs.now breaks.items) }
{
    let mut breaks = Vec::new(alloc);
    let mut has_first_part = false;
    for run in runs {
        let minutes = run.past - run.start;
        if completes(minutes, has_first_part) {
            breaks.push(*run)?;
            has_first_part = false;
        } else if minutes >= FIRST_PART_OF_BREAK {
            has_first_part = true;
        }
    }
    Ok(breaks)
}
