ghost use Rattle.std.specs.Prelude.{◌≡◌, ◌≤◌, ◌<◌, ◌↔◌, [], ◌∷◌, ◌++◌, ◌-◌, ◌+◌, All, IfOk, IsTrue, List, Contains};
ghost use Rattle.tacho_law.specs.declared.run.Run.{Run as RunValue};
ghost use Rattle.tacho_law.specs.Limits.{weekly_rest};
ghost use Rattle.tacho_law.specs.Line.{line_of, IsExamined, Line};
ghost use Rattle.tacho_law.specs.Runs.{AreRestsOf};
ghost use Rattle.tacho_law.specs.Weeks.{week_start};
ghost use Rattle.tacho_periods.specs.Rests.{AreInTime};
ghost use Rattle.tacho_time.specs.Limits.{greatest_week};
ghost use Rattle.tacho_evidence.specs.declared.line.EvidenceLine.{EvidenceLine as LineValue};
ghost use Rattle.tacho_evidence.specs.Anew.{IsAnew, IsNextFailure};
ghost use Rattle.tacho_evidence.specs.Evidence.{AreRestLines, AreWeekLines, IsChoiceEvidence, IsWeekLine};

use crate::line::EvidenceLine;
use std::alloc::{AllocError, Global};
use tacho_law::{Breach, Run};
use tacho_periods::{Examined, touching};
use tacho_time::{Minute, Week, first_minute, next_week, week_of};

/// True if one of the rests contains each minute from `start` to before `past`.
fn contains_range(rests: &[Run], start: u32, past: u32) -> bool
    requires in_time { AreInTime rests.now }
    requires range { start < past }
    ensures { IsTrue result ↔ ((run : RunValue) × Contains rests.now run × (run.start ≤ start) × (past ≤ run.past)) }
{
    let place = rests.partition_point(|rest| rest.past < past);
    place < rests.len() && rests[place].start <= start
}

/// Returns the line of a week. `weekly` are the weekly rests.
fn line_of_week(weekly: &[Run], week: Week) -> EvidenceLine
    requires in_time { AreInTime weekly.now }
    requires in_range { week < greatest_week }
    ensures { (line : Line) → AreRestsOf line weekly_rest weekly.now → IsWeekLine line week result }
{
    let monday = first_minute(week).number();
    let next = first_minute(next_week(week)).number();
    if contains_range(weekly, monday, next) {
        EvidenceLine::WeekAtRest(monday)
    } else {
        EvidenceLine::Week(monday)
    }
}

/// Appends the lines of the weeks from one number to before another.
fn append_weeks(
    lines: &mut Vec<EvidenceLine>,
    weekly: &[Run],
    first: u32,
    past: u32,
) -> Result<(), AllocError>
    requires in_time { AreInTime weekly.now }
    requires range { first ≤ past }
    requires in_range { past ≤ greatest_week }
    ensures { IfOk result (λ _. (line : Line) → AreRestsOf line weekly_rest weekly.now → (weeks : List LineValue)
        × AreWeekLines line first (past - first) weeks × (lines.new.items ≡ lines.old.items ++ weeks)) }
{
    for number in first..past {
        lines.push(line_of_week(weekly, Week::new(number)))?;
    }
    Ok(())
}

/// Returns the line of a weekly rest with a minute in the weeks from one to another.
fn line_of_rest(rest: Run, first: Week, last: Week) -> EvidenceLine
    requires nonempty { rest.start < rest.past }
    requires range { first ≤ last }
    requires in_range { last < greatest_week }
    requires after { week_start first < rest.past }
    requires before { rest.start < week_start (last + 1) }
    ensures { AreRestLines first last (rest ∷ []) (result ∷ []) }
{
    let from = first_minute(first);
    let to = Minute::new(first_minute(next_week(last)).number() - 1);
    let begins = rest.start.max(from.number());
    let ends = (rest.past - 1).min(to.number());
    EvidenceLine::WeeklyIn {
        rest,
        first: first_minute(week_of(Minute::new(begins))).number(),
        last: first_minute(week_of(Minute::new(ends))).number(),
    }
}

/// Appends the lines of weekly rests with a minute in the weeks from one to another.
fn append_weekly(
    lines: &mut Vec<EvidenceLine>,
    rests: &[Run],
    first: Week,
    last: Week,
) -> Result<(), AllocError>
    requires nonempty { All (λ (rest : RunValue). rest.start < rest.past) rests.now }
    requires range { first ≤ last }
    requires in_range { last < greatest_week }
    requires after { All (λ (rest : RunValue). week_start first < rest.past) rests.now }
    requires before { All (λ (rest : RunValue). rest.start < week_start (last + 1)) rests.now }
    ensures { IfOk result (λ _. (counted : List LineValue) × AreRestLines first last rests.now counted
        × (lines.new.items ≡ lines.old.items ++ counted)) }
{
    for rest in rests {
        lines.push(line_of_rest(*rest, first, last))?;
    }
    Ok(())
}

/// Lists the evidence for a breach B9. `weekly` are the weekly rests of the examined line, and `anew` is the week from which the choice was
/// made anew.
pub(crate) fn choice_lines(
    alloc: Global,
    examined: &Examined<'_>,
    weekly: &[Run],
    anew: Week,
    breach: &Breach,
) -> Result<Vec<EvidenceLine>, AllocError>
    requires examined { IsExamined examined.now.spans.now examined.now.base examined.now.past }
    requires weekly { AreRestsOf (line_of examined.now.spans.now) weekly_rest weekly.now }
    requires anew { IsAnew (line_of examined.now.spans.now) examined.now.base examined.now.past anew }
    requires breach { IsNextFailure (line_of examined.now.spans.now) examined.now.past anew breach.now }
    ensures { IfOk result (λ lines. IsChoiceEvidence (line_of examined.now.spans.now) examined.now.base examined.now.past breach.now
        lines.items) }
{
    let last = next_week(week_of(breach.since));
    let past = next_week(last);
    let rests = touching(
        weekly,
        first_minute(anew).number(),
        first_minute(past).number(),
    );
    let mut lines = Vec::new(alloc);
    lines.push(EvidenceLine::From(first_minute(anew).number()))?;
    append_weeks(&mut lines, weekly, anew.number(), past.number())?;
    append_weekly(&mut lines, rests, anew, last)?;
    Ok(lines)
}
