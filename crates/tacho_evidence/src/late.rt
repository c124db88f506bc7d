ghost use Rattle.std.specs.Prelude.{◌≤◌, ◌<◌, All, IfOk, drop, length, take};
ghost use Rattle.tacho_law.specs.Breaches.{IsB8};
ghost use Rattle.tacho_law.specs.Limits.{weekly_rest};
ghost use Rattle.tacho_law.specs.Line.{line_of, IsExamined};
ghost use Rattle.tacho_law.specs.Runs.{AreRestsOf, AreRuns};
ghost use Rattle.tacho_evidence.specs.Evidence.{IsLateEvidence};

use crate::line::EvidenceLine;
use std::alloc::{AllocError, Global};
use tacho_law::{Breach, Run};
use tacho_periods::Examined;

/// Returns how many of the first runs end before a minute. No run after them does.
fn ended_before(runs: &[Run], minute: u32) -> usize
    requires { AreRuns runs.now }
    ensures within { result ≤ length runs.now }
    ensures ended { All (λ run. run.past < minute) (take result runs.now) }
    ensures later { All (λ run. minute ≤ run.past) (drop result runs.now) }
{
    runs.partition_point(|run| run.past < minute)
}

/// Lists the evidence for a breach B8, from the weekly rests of the examined line.
pub(crate) fn late_lines(
    alloc: Global,
    examined: &Examined<'_>,
    weekly: &[Run],
    breach: &Breach,
) -> Result<Vec<EvidenceLine>, AllocError>
    requires examined { IsExamined examined.now.spans.now examined.now.base examined.now.past }
    requires weekly { AreRestsOf (line_of examined.now.spans.now) weekly_rest weekly.now }
    requires breach { IsB8 (line_of examined.now.spans.now) breach.now }
    ensures { IfOk result (λ lines. IsLateEvidence (line_of examined.now.spans.now) breach.now lines.items) }
{
    // The range that is judged begins with the end of the earlier rest. The next one is late.
    let earlier = ended_before(weekly, breach.since.number());
    let mut lines = Vec::new(alloc);
    lines.push(EvidenceLine::Weekly(weekly[earlier]))?;
    lines.push(EvidenceLine::Weekly(weekly[earlier + 1]))?;
    Ok(lines)
}
