ghost use Rattle.std.specs.Prelude.{◌≡◌, ◌<◌, ◌≤◌, ◌↔◌, ◌++◌, List, Contains, IfOk, IsTrue, map};
ghost use Rattle.tacho_law.specs.declared.run.Run.{Run as RunValue};
ghost use Rattle.tacho_law.specs.declared.days.DutyDay.{DutyDay as DayValue};
ghost use Rattle.tacho_law.specs.Breaches.{IsB2, IsB3, IsB4, IsB5};
ghost use Rattle.tacho_law.specs.Days.{EarlierDay};
ghost use Rattle.tacho_law.specs.Exactly.{AreExactly};
ghost use Rattle.tacho_law.specs.Limits.{first_part_of_daily_rest, weekly_rest};
ghost use Rattle.tacho_law.specs.Line.{line_of, IsExamined, Line};
ghost use Rattle.tacho_law.specs.Runs.{minutes_of, AreRuns, AreRestRuns, AreRestsOf, Before};
ghost use Rattle.tacho_law.specs.Weeks.{IsInWeek};
ghost use Rattle.tacho_periods.specs.DutyDays.{AreDutyDays};
ghost use Rattle.tacho_evidence.specs.declared.driven.DrivenSpan.{DrivenSpan as DrivenSpanValue};
ghost use Rattle.tacho_evidence.specs.declared.line.EvidenceLine.TheVariants.{Drive, Rest};
ghost use Rattle.tacho_evidence.specs.DaysInTime.{AreInTime};
ghost use Rattle.tacho_evidence.specs.Driven.{AreDriven};
ghost use Rattle.tacho_evidence.specs.Evidence.{IsDailyRestEvidence, IsDayEvidence, IsExtendedEvidence, IsExtendedUpTo, IsReducedEvidence, IsReducedSince};
ghost use Rattle.tacho_evidence.specs.Evidence.{extended_lines as lines_of_extended, reduced_lines as lines_of_reduced};

use crate::driven::driving_spans;
use crate::line::EvidenceLine;
use std::alloc::{AllocError, Global};
use tacho_law::limits::{DRIVING_IN_DAY, FIRST_PART_OF_DAILY_REST, MINUTES_OF_DAY};
use tacho_law::{Breach, DutyDay, Run};
use tacho_periods::{Examined, driving_minutes, is_reduced, touching};
use tacho_time::{Week, first_minute, week_of};

/// Returns the duty day that begins at a minute, where there is one.
fn day_from(days: &[DutyDay], start: u32) -> DutyDay
    requires days { AreInTime days.now }
    requires there { (day : DayValue) × Contains days.now day × (day.start ≡ start) }
    ensures among { Contains days.now result }
    ensures begins { result.start ≡ start }
{
    days[days.partition_point(|day| day.start < start)]
}

/// Returns the duty days that begin from a minute up to another.
fn begun_within(days: &[DutyDay], from: u32, to: u32) -> &[DutyDay]
    requires days { AreInTime days.now }
    requires range { from ≤ to }
    ensures each { (day : DayValue) → Contains result.now day
        ↔ (Contains days.now day × (from ≤ day.start) × (day.start ≤ to)) }
    ensures in_time { AreInTime result.now }
{
    let first = days.partition_point(|day| day.start < from);
    let past = days.partition_point(|day| day.start <= to);
    &days[first..past]
}

/// Returns the duty days that end after a minute and by another.
fn ended_within(days: &[DutyDay], since: u32, moment: u32) -> &[DutyDay]
    requires days { AreInTime days.now }
    requires range { since ≤ moment }
    ensures each { (day : DayValue) → Contains result.now day
        ↔ (Contains days.now day × (since < day.past) × (day.past ≤ moment)) }
    ensures in_time { AreInTime result.now }
{
    let first = days.partition_point(|day| day.past <= since);
    let past = days.partition_point(|day| day.past <= moment);
    &days[first..past]
}

/// Returns the rest run that ends at a minute, where there is one.
fn rest_until(runs: &[Run], past: u32) -> Run
    requires runs { AreRuns runs.now }
    requires there { (run : RunValue) × Contains runs.now run × (run.past ≡ past) }
    ensures among { Contains runs.now result }
    ensures ends { result.past ≡ past }
{
    runs[runs.partition_point(|run| run.past < past)]
}

/// Appends the driving spans of a duty day, with their totals.
fn append_driving(
    alloc: Global,
    lines: &mut Vec<EvidenceLine>,
    examined: &Examined<'_>,
    day: DutyDay,
) -> Result<(), AllocError>
    requires { IsExamined examined.now.spans.now examined.now.base examined.now.past }
    ensures { IfOk result (λ _. (spans : List DrivenSpanValue)
        × AreDriven (line_of examined.now.spans.now) day.start day.past spans
        × (lines.new.items ≡ lines.old.items ++ map Drive spans)) }
{
    let base = examined.base.number();
    let past = examined.past.number();
    let spans = driving_spans(alloc, examined.spans, base, past, day.start, day.past)?;
    for span in &spans {
        lines.push(EvidenceLine::Drive(*span))?;
    }
    Ok(())
}

/// True if a rest run has three hours or more, and is within a duty day.
fn is_rest_within(run: Run, day: DutyDay) -> bool
    requires { run.start < run.past }
    ensures { IsTrue result ↔ (day.start ≤ run.start) × (run.past ≤ day.past) × (first_part_of_daily_rest ≤ minutes_of run) }
{
    day.start <= run.start
        && run.past <= day.past
        && run.past - run.start >= FIRST_PART_OF_DAILY_REST
}

/// Appends the rest runs of three hours or more within a duty day.
fn append_rests(lines: &mut Vec<EvidenceLine>, runs: &[Run], day: DutyDay) -> Result<(), AllocError>
    requires { AreRuns runs.now }
    ensures { IfOk result (λ _. (rests : List RunValue)
        × AreExactly (λ run. Contains runs.now run × ((day.start ≤ run.start) × (run.past ≤ day.past)
        × (first_part_of_daily_rest ≤ minutes_of run))) Before rests
        × (lines.new.items ≡ lines.old.items ++ map Rest rests)) }
{
    for run in runs {
        if is_rest_within(*run, day) {
            lines.push(EvidenceLine::Rest(*run))?;
        }
    }
    Ok(())
}

/// Lists the evidence for a breach B2, from the rest runs and the duty days of the examined line.
pub(crate) fn daily_rest_lines(
    alloc: Global,
    examined: &Examined<'_>,
    runs: &[Run],
    days: &[DutyDay],
    breach: &Breach,
) -> Result<Vec<EvidenceLine>, AllocError>
    requires examined { IsExamined examined.now.spans.now examined.now.base examined.now.past }
    requires runs { AreRestRuns (line_of examined.now.spans.now) runs.now }
    requires days { AreDutyDays (line_of examined.now.spans.now) days.now }
    requires breach { IsB2 (line_of examined.now.spans.now) breach.now }
    ensures { IfOk result (λ lines. IsDailyRestEvidence (line_of examined.now.spans.now) breach.now lines.items) }
{
    let day = day_from(days, breach.since.number());
    let limit = day.start + MINUTES_OF_DAY;
    let mut lines = Vec::new(alloc);
    lines.push(EvidenceLine::Day {
        start: day.start,
        past: day.past,
    })?;
    lines.push(EvidenceLine::Limit(limit))?;
    append_rests(&mut lines, touching(runs, day.start, day.past), day)?;
    lines.push(EvidenceLine::DailyRest {
        rest: day.rest,
        limit,
    })?;
    Ok(lines)
}

/// Appends the reduced daily rests after a weekly rest that start by a minute, counted. `parts` are the rests of three hours or more.
fn append_reduced(
    lines: &mut Vec<EvidenceLine>,
    days: &[DutyDay],
    parts: &[Run],
    weekly: Run,
    moment: u32,
) -> Result<(), AllocError>
    requires days { AreInTime days.now }
    requires parts { AreRuns parts.now }
    requires range { weekly.past ≤ moment }
    ensures { IfOk result (λ _. (line : Line) → AreDutyDays line days.now
        → AreRestsOf line first_part_of_daily_rest parts.now → (reduced : List DayValue)
        × AreExactly (IsReducedSince line weekly moment) EarlierDay reduced
        × (lines.new.items ≡ lines.old.items ++ lines_of_reduced 1 reduced)) }
{
    let mut ordinal = 0;
    for day in ended_within(days, weekly.past, moment) {
        if is_reduced(*day, parts) {
            ordinal += 1;
            lines.push(EvidenceLine::Reduced {
                ordinal,
                rest: day.rest,
                day: day.start,
            })?;
        }
    }
    Ok(())
}

/// Lists the evidence for a breach B3, from the weekly rests, the duty days and the rests of three hours or more of the examined line.
pub(crate) fn reduced_lines(
    alloc: Global,
    examined: &Examined<'_>,
    weekly: &[Run],
    days: &[DutyDay],
    parts: &[Run],
    breach: &Breach,
) -> Result<Vec<EvidenceLine>, AllocError>
    requires examined { IsExamined examined.now.spans.now examined.now.base examined.now.past }
    requires weekly { AreRestsOf (line_of examined.now.spans.now) weekly_rest weekly.now }
    requires days { AreDutyDays (line_of examined.now.spans.now) days.now }
    requires parts { AreRestsOf (line_of examined.now.spans.now) first_part_of_daily_rest parts.now }
    requires breach { IsB3 (line_of examined.now.spans.now) breach.now }
    ensures { IfOk result (λ lines. IsReducedEvidence (line_of examined.now.spans.now) breach.now lines.items) }
{
    let last = rest_until(weekly, breach.since.number());
    let mut lines = Vec::new(alloc);
    lines.push(EvidenceLine::Weekly(last))?;
    append_reduced(&mut lines, days, parts, last, breach.moment.number())?;
    Ok(lines)
}

/// Lists the evidence for a breach B4, from the duty days of the examined line.
pub(crate) fn day_lines(
    alloc: Global,
    examined: &Examined<'_>,
    days: &[DutyDay],
    breach: &Breach,
) -> Result<Vec<EvidenceLine>, AllocError>
    requires examined { IsExamined examined.now.spans.now examined.now.base examined.now.past }
    requires days { AreDutyDays (line_of examined.now.spans.now) days.now }
    requires breach { IsB4 (line_of examined.now.spans.now) breach.now }
    ensures { IfOk result (λ lines. IsDayEvidence (line_of examined.now.spans.now) breach.now lines.items) }
{
    let day = day_from(days, breach.since.number());
    let mut lines = Vec::new(alloc);
    lines.push(EvidenceLine::Day {
        start: day.start,
        past: day.past,
    })?;
    append_driving(alloc, &mut lines, examined, day)?;
    Ok(lines)
}

/// Appends the extended days of a week up to the one that begins at a minute of it, counted, with their driving.
fn append_extended(
    lines: &mut Vec<EvidenceLine>,
    examined: &Examined<'_>,
    days: &[DutyDay],
    week: Week,
    since: u32,
) -> Result<(), AllocError>
    requires examined { IsExamined examined.now.spans.now examined.now.base examined.now.past }
    requires days { AreDutyDays (line_of examined.now.spans.now) days.now }
    requires week { IsInWeek week since }
    ensures { IfOk result (λ _. (extended : List DayValue)
        × AreExactly (IsExtendedUpTo (line_of examined.now.spans.now) week since) EarlierDay extended
        × (lines.new.items ≡ lines.old.items ++ lines_of_extended (line_of examined.now.spans.now) 1 extended)) }
{
    let start = first_minute(week).number();
    let mut ordinal = 0;
    for day in begun_within(days, start, since) {
        let drive = driving_minutes(examined, day.start, day.past);
        if drive > DRIVING_IN_DAY {
            ordinal += 1;
            lines.push(EvidenceLine::Extended {
                ordinal,
                start: day.start,
                past: day.past,
                drive,
            })?;
        }
    }
    Ok(())
}

/// Lists the evidence for a breach B5, from the duty days of the examined line.
pub(crate) fn extended_lines(
    alloc: Global,
    examined: &Examined<'_>,
    days: &[DutyDay],
    breach: &Breach,
) -> Result<Vec<EvidenceLine>, AllocError>
    requires examined { IsExamined examined.now.spans.now examined.now.base examined.now.past }
    requires days { AreDutyDays (line_of examined.now.spans.now) days.now }
    requires breach { IsB5 (line_of examined.now.spans.now) breach.now }
    ensures { IfOk result (λ lines. IsExtendedEvidence (line_of examined.now.spans.now) breach.now lines.items) }
{
    let since = breach.since.number();
    let week = week_of(breach.since);
    let day = day_from(days, since);
    let mut lines = Vec::new(alloc);
    lines.push(EvidenceLine::Week(first_minute(week).number()))?;
    append_extended(&mut lines, examined, days, week, since)?;
    append_driving(alloc, &mut lines, examined, day)?;
    Ok(lines)
}
