ghost use Rattle.std.specs.Prelude.{◌≡◌, ◌↔◌, ◌<◌, ◌≤◌, ◌++◌, List, All, AllPairs, Contains, IfOk, IsTrue, drop, length, map, take};
ghost use Rattle.tacho_law.specs.Breaches.{IsB1};
ghost use Rattle.tacho_law.specs.Breaks.{AreCompleteBreaks};
ghost use Rattle.tacho_law.specs.Exactly.{AreExactly};
ghost use Rattle.tacho_law.specs.Limits.{first_part_of_break};
ghost use Rattle.tacho_law.specs.Line.{line_of, IsExamined};
ghost use Rattle.tacho_law.specs.Runs.{minutes_of, AreRestRuns, AreRuns, Before};
ghost use Rattle.tacho_evidence.specs.declared.line.EvidenceLine.{EvidenceLine as LineValue};
ghost use Rattle.tacho_evidence.specs.declared.line.EvidenceLine.TheVariants.{Rest};
ghost use Rattle.tacho_evidence.specs.Evidence.{AreByTime, IsBreakEvidence};

use crate::driven::{DrivenSpan, driving_spans};
use crate::line::EvidenceLine;
use std::alloc::{AllocError, Global};
use tacho_law::limits::FIRST_PART_OF_BREAK;
use tacho_law::{Breach, Run};
use tacho_periods::{Examined, touching};

/// Returns how many of the first runs have begun by a minute. No run after them has.
fn begun_by(runs: &[Run], minute: u32) -> usize
    requires { AreRuns runs.now }
    ensures within { result ≤ length runs.now }
    ensures begun { All (λ run. run.start ≤ minute) (take result runs.now) }
    ensures later { All (λ run. minute < run.start) (drop result runs.now) }
{
    runs.partition_point(|run| run.start <= minute)
}

/// True if a run is between two others, and long enough for the first part of a break.
fn is_between(run: Run, earlier: Run, later: Run) -> bool
    requires { run.start ≤ run.past }
    ensures { IsTrue result ↔ ((first_part_of_break ≤ minutes_of run) × Before earlier run × Before run later) }
{
    run.past - run.start >= FIRST_PART_OF_BREAK
        && earlier.past < run.start
        && run.past < later.start
}

/// Lists the rests between two runs that are long enough for the first part of a break, in order of time.
fn rests_between(
    alloc: Global,
    runs: &[Run],
    earlier: Run,
    later: Run,
) -> Result<Vec<Run>, AllocError>
    requires { AreRuns runs.now }
    ensures { IfOk result (λ rests. AreExactly (λ run. Contains runs.now run × ((first_part_of_break ≤ minutes_of run) × Before earlier run
        × Before run later)) Before rests.items) }
{
    let mut rests = Vec::new(alloc);
    for run in runs {
        if is_between(*run, earlier, later) {
            rests.push(*run)?;
        }
    }
    Ok(rests)
}

/// Appends the lines of rests.
fn append_rests(lines: &mut Vec<EvidenceLine>, rests: &[Run]) -> Result<(), AllocError>
    ensures { IfOk result (λ _. lines.new.items ≡ lines.old.items ++ map Rest rests.now) }
{
    for rest in rests {
        lines.push(EvidenceLine::Rest(*rest))?;
    }
    Ok(())
}

/// Appends the lines of driving spans and rests, in order of time. Both lists are in order.
fn append_by_time(
    lines: &mut Vec<EvidenceLine>,
    drives: &[DrivenSpan],
    rests: &[Run],
) -> Result<(), AllocError>
    requires drives { AllPairs (λ a b. a.run.start ≤ b.run.start) drives.now }
    requires rests { AreRuns rests.now }
    ensures { IfOk result (λ _. (middle : List LineValue) × AreByTime drives.now rests.now middle
        × (lines.new.items ≡ lines.old.items ++ middle)) }
{
    let mut rested = 0;
    for drive in drives {
        let next = begun_by(rests, drive.run.start);
        append_rests(lines, &rests[rested..next])?;
        lines.push(EvidenceLine::Drive(*drive))?;
        rested = next;
    }
    append_rests(lines, &rests[rested..])
}

/// Lists the evidence for a breach B1, from the rest runs and the complete breaks of the examined line.
pub(crate) fn break_lines(
    alloc: Global,
    examined: &Examined<'_>,
    runs: &[Run],
    breaks: &[Run],
    breach: &Breach,
) -> Result<Vec<EvidenceLine>, AllocError>
    requires examined { IsExamined examined.now.spans.now examined.now.base examined.now.past }
    requires runs { AreRestRuns (line_of examined.now.spans.now) runs.now }
    requires breaks { AreCompleteBreaks runs.now breaks.now }
    requires breach { IsB1 (line_of examined.now.spans.now) breaks.now breach.now }
    ensures { IfOk result (λ lines. IsBreakEvidence (line_of examined.now.spans.now) breaks.now breach.now lines.items) }
{
    let next = begun_by(breaks, breach.moment.number());
    let earlier = breaks[next - 1];
    let later = breaks[next];
    let base = examined.base.number();
    let past = examined.past.number();
    let drives = driving_spans(alloc, examined.spans, base, past, earlier.past, later.start)?;
    let near = touching(runs, earlier.past, later.start);
    let rests = rests_between(alloc, near, earlier, later)?;
    let mut lines = Vec::new(alloc);
    lines.push(EvidenceLine::Break(earlier))?;
    append_by_time(&mut lines, &drives, &rests)?;
    lines.push(EvidenceLine::Break(later))?;
    Ok(lines)
}
