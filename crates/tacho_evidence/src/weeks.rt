ghost use Rattle.std.specs.Prelude.{◌≡◌, ◌+◌, ◌*◌, ◌<◌, ◌≤◌, ◌∷◌, ◌++◌, All, IfOk, map};
ghost use Rattle.tacho_law.specs.Breaches.{IsB6, IsB7};
ghost use Rattle.tacho_law.specs.Driving.{driving};
ghost use Rattle.tacho_law.specs.Limits.{latest, minutes_of_day};
ghost use Rattle.tacho_law.specs.Line.{line_of, IsExamined};
ghost use Rattle.tacho_evidence.specs.declared.line.EvidenceLine.TheVariants.{Drive, WeekDrive};
ghost use Rattle.tacho_evidence.specs.Driven.{AreDriven};
ghost use Rattle.tacho_evidence.specs.Evidence.{date_of as date_with, IsTwoWeeksEvidence, IsWeekEvidence};
ghost use Rattle.tacho_evidence.specs.Totals.{dates, raised};
ghost use Rattle.tacho_time.specs.Limits.{greatest_minute};

use crate::driven::{DrivenSpan, driving_spans};
use crate::line::EvidenceLine;
use std::alloc::{AllocError, Global};
use tacho_law::Breach;
use tacho_law::limits::MINUTES_OF_DAY;
use tacho_periods::{Examined, driving_minutes};
use tacho_time::{Minute, Week, first_minute, next_week, week_of};

/// The number of days in a week.
const DAYS: u32 = 7;

/// Returns the first minute of a minute's date.
fn date_of(minute: Minute) -> u32
    ensures { result ≡ date_with minute }
{
    minute.number() - minute.number() % MINUTES_OF_DAY
}

/// Lists the driving spans of a date, with totals from its first minute on.
fn spans_of(
    alloc: Global,
    examined: &Examined<'_>,
    date: u32,
) -> Result<Vec<DrivenSpan>, AllocError>
    requires examined { IsExamined examined.now.spans.now examined.now.base examined.now.past }
    requires in_time { date ≤ latest }
    ensures { IfOk result (λ spans. AreDriven (line_of examined.now.spans.now) date (date + minutes_of_day) spans.items) }
{
    let base = examined.base.number();
    let past = examined.past.number();
    driving_spans(
        alloc,
        examined.spans,
        base,
        past,
        date,
        date + MINUTES_OF_DAY,
    )
}

/// Appends the lines of driving spans, with their totals raised by the driving before them.
fn append_spans(
    lines: &mut Vec<EvidenceLine>,
    spans: &[DrivenSpan],
    before: u32,
) -> Result<(), AllocError>
    requires before { before ≤ greatest_minute }
    requires totals { All (λ span. span.total ≤ greatest_minute) spans.now }
    ensures { IfOk result (λ _. lines.new.items ≡ lines.old.items ++ map Drive (map (raised before) spans.now)) }
{
    for span in spans {
        lines.push(EvidenceLine::Drive(DrivenSpan {
            run: span.run,
            total: before + span.total,
        }))?;
    }
    Ok(())
}

/// Appends the lines of the seven dates of a week, with totals from `origin` on, and after the line of one date those of its driving spans.
fn append_dates(
    lines: &mut Vec<EvidenceLine>,
    examined: &Examined<'_>,
    origin: u32,
    date: u32,
    spans: &[DrivenSpan],
    monday: u32,
) -> Result<(), AllocError>
    requires examined { IsExamined examined.now.spans.now examined.now.base examined.now.past }
    requires since { origin ≤ monday }
    requires in_time { monday + 10080 ≤ greatest_minute }
    requires totals { All (λ span. span.total ≤ greatest_minute) spans.now }
    ensures { IfOk result (λ _. lines.new.items ≡ lines.old.items
        ++ dates (line_of examined.now.spans.now) origin date spans.now monday 7) }
{
    // The driving before each date.
    let mut total = driving_minutes(examined, origin, monday);
    for day in 0..DAYS {
        let start = monday + MINUTES_OF_DAY * day;
        let drive = driving_minutes(examined, start, start + MINUTES_OF_DAY);
        if drive > 0 {
            lines.push(EvidenceLine::Date {
                date: start,
                drive,
                total: total + drive,
            })?;
        }
        if start == date {
            append_spans(lines, spans, total)?;
        }
        total += drive;
    }
    Ok(())
}

/// Lists the evidence for a breach B6.
pub(crate) fn week_lines(
    alloc: Global,
    examined: &Examined<'_>,
    breach: &Breach,
) -> Result<Vec<EvidenceLine>, AllocError>
    requires examined { IsExamined examined.now.spans.now examined.now.base examined.now.past }
    requires breach { IsB6 (line_of examined.now.spans.now) breach.now }
    ensures { IfOk result (λ lines. IsWeekEvidence (line_of examined.now.spans.now) breach.now lines.items) }
{
    let monday = breach.since.number();
    let date = date_of(breach.moment);
    let spans = spans_of(alloc, examined, date)?;
    let mut lines = Vec::new(alloc);
    lines.push(EvidenceLine::Week(monday))?;
    append_dates(&mut lines, examined, monday, date, &spans, monday)?;
    Ok(lines)
}

/// Appends the lines of one of two weeks: its driving, and its dates.
fn append_week(
    lines: &mut Vec<EvidenceLine>,
    examined: &Examined<'_>,
    origin: u32,
    date: u32,
    spans: &[DrivenSpan],
    week: Week,
) -> Result<(), AllocError>
    requires examined { IsExamined examined.now.spans.now examined.now.base examined.now.past }
    requires since { origin ≤ 5760 + 10080 * week }
    requires in_time { 5760 + 10080 * (week + 1) ≤ greatest_minute }
    requires totals { All (λ span. span.total ≤ greatest_minute) spans.now }
    ensures { IfOk result (λ _. lines.new.items ≡ lines.old.items
        ++ WeekDrive (5760 + 10080 * week) (driving (line_of examined.now.spans.now) (5760 + 10080 * week) (5760 + 10080 * (week + 1)))
        ∷ dates (line_of examined.now.spans.now) origin date spans.now (5760 + 10080 * week) 7) }
{
    let monday = first_minute(week).number();
    let next = first_minute(next_week(week)).number();
    lines.push(EvidenceLine::WeekDrive {
        week: monday,
        drive: driving_minutes(examined, monday, next),
    })?;
    append_dates(lines, examined, origin, date, spans, monday)
}

/// Lists the evidence for a breach B7.
pub(crate) fn two_weeks_lines(
    alloc: Global,
    examined: &Examined<'_>,
    breach: &Breach,
) -> Result<Vec<EvidenceLine>, AllocError>
    requires examined { IsExamined examined.now.spans.now examined.now.base examined.now.past }
    requires breach { IsB7 (line_of examined.now.spans.now) breach.now }
    ensures { IfOk result (λ lines. IsTwoWeeksEvidence (line_of examined.now.spans.now) breach.now lines.items) }
{
    let origin = breach.since.number();
    let date = date_of(breach.moment);
    let spans = spans_of(alloc, examined, date)?;
    let week = week_of(breach.since);
    let mut lines = Vec::new(alloc);
    append_week(&mut lines, examined, origin, date, &spans, week)?;
    append_week(&mut lines, examined, origin, date, &spans, next_week(week))?;
    Ok(lines)
}
