ghost use Rattle.std.specs.Prelude.{◌≡◌, ◌+◌, ◌*◌, ◌^◌, ◌<◌, ◌++◌, codes, flat_map, map, min, OnOk, string_bytes};
ghost use Rattle.tacho_law.specs.Limits.{minutes_of_day, minutes_of_week};
ghost use Rattle.tacho_evidence.specs.declared.line.EvidenceLine.TheVariants.{Drive, Day as DayLine, Limit, DailyRest, Reduced, WeekDrive, Date, Extended, WeekAtRest, WeeklyIn, Owes, Room};
ghost use Rattle.tacho_evidence.specs.OfReport.{shown_of};
ghost use Rattle.tacho_sheet.specs.Evidence.{date_text, evidence_line, mondays_text, run_text, shown_text};

use crate::reports::push_breach;
use crate::sheet::digit_of;
use std::alloc::AllocError;
use std::fmt;
use tacho_evidence::{DrivenSpan, Evidence, EvidenceLine};
use tacho_law::Run;
use tacho_time::{Day, GREATEST_MINUTE, Minute, day_line};

/// The minutes of a day, and of a week.
const MINUTES_OF_DAY: u32 = 1440;

const MINUTES_OF_WEEK: u32 = 10_080;

/// A minute, or `-` where there is none.
#[derive(Clone, Copy)]
struct Time {
    minute: u32,
}

impl fmt::Display for Time {
    ghost use Rattle.std.specs.Prelude.{Some};
    ghost use Rattle.tacho_sheet.specs.Evidence.{time_text};

    ghost output = { λ time. Some (time_text time.minute) };

    fn fmt<W: fmt::Write>(&self, f: &mut fmt::Formatter<W>) -> fmt::Result {
        if self.minute == 0 || GREATEST_MINUTE < self.minute {
            return f.write_str("-");
        }
        let minute = Minute::new(self.minute);
        write!(f, "{minute}")
    }
}

/// The day of a minute.
#[derive(Clone, Copy)]
struct DateOf {
    minute: u32,
}

impl fmt::Display for DateOf {
    ghost use Rattle.std.specs.Prelude.{Some};
    ghost use Rattle.tacho_sheet.specs.Evidence.{date_text};

    ghost output = { λ date. Some (date_text date.minute) };

    fn fmt<W: fmt::Write>(&self, f: &mut fmt::Formatter<W>) -> fmt::Result {
        if GREATEST_MINUTE < self.minute {
            return f.write_str("-");
        }
        f.write_str(day_line(Day::new(self.minute / MINUTES_OF_DAY)).as_str())
    }
}

/// A length in hours and minutes.
#[derive(Clone, Copy)]
pub(crate) struct Length {
    pub(crate) minutes: u32,
}

impl fmt::Display for Length {
    ghost use Rattle.std.specs.Prelude.{Some};
    ghost use Rattle.tacho_sheet.specs.Reports.{amount_text};

    ghost output = { λ length. Some (amount_text length.minutes) };

    fn fmt<W: fmt::Write>(&self, f: &mut fmt::Formatter<W>) -> fmt::Result {
        let hours = self.minutes / 60;
        let tens = digit_of(self.minutes % 60 / 10);
        let ones = digit_of(self.minutes % 60 % 10);
        write!(f, "{hours}:{tens}{ones}")
    }
}

/// What is left of a length after another one, with a sign if it is below zero.
#[derive(Clone, Copy)]
struct Signed {
    has: u32,
    lacks: u32,
}

impl fmt::Display for Signed {
    ghost use Rattle.std.specs.Prelude.{Some};
    ghost use Rattle.tacho_sheet.specs.Evidence.{signed_text};

    ghost output = { λ signed. Some (signed_text signed.has signed.lacks) };

    fn fmt<W: fmt::Write>(&self, f: &mut fmt::Formatter<W>) -> fmt::Result {
        if self.lacks <= self.has {
            let length = Length {
                minutes: self.has - self.lacks,
            };
            return write!(f, "{length}");
        }
        let length = Length {
            minutes: self.lacks - self.has,
        };
        write!(f, "-{length}")
    }
}

/// A run's start, past and length.
#[derive(Clone, Copy)]
struct RunText {
    run: Run,
}

impl fmt::Display for RunText {
    ghost use Rattle.std.specs.Prelude.{Some};
    ghost use Rattle.tacho_sheet.specs.Evidence.{run_text};

    ghost output = { λ text. Some (run_text text.run) };

    fn fmt<W: fmt::Write>(&self, f: &mut fmt::Formatter<W>) -> fmt::Result {
        let start = Time {
            minute: self.run.start,
        };
        let past = Time {
            minute: self.run.past,
        };
        if self.run.start == 0 || GREATEST_MINUTE < self.run.past {
            return write!(f, "{start} {past} -");
        }
        let length = Length {
            minutes: self.run.past.saturating_sub(self.run.start),
        };
        write!(f, "{start} {past} {length}")
    }
}

/// Appends breaches, each with its evidence.
pub(crate) fn push_evidence(text: &mut String, found: &[Evidence]) -> Result<(), AllocError>
    ensures { OnOk result (string_bytes text.new ≡ string_bytes text.old ++ flat_map shown_text (map shown_of found.now)) }
{
    for evidence in found {
        push_shown(text, evidence)?;
    }
    Ok(())
}

/// Appends the line of a breach, and the lines of its evidence.
fn push_shown(text: &mut String, evidence: &Evidence) -> Result<(), AllocError>
    ensures { OnOk result (string_bytes text.new ≡ string_bytes text.old ++ shown_text (shown_of evidence.now)) }
{
    push_breach(text, &evidence.breach)?;
    push_lines(text, &evidence.lines)
}

/// Appends lines of evidence.
fn push_lines(text: &mut String, lines: &[EvidenceLine]) -> Result<(), AllocError>
    ensures { OnOk result (string_bytes text.new ≡ string_bytes text.old ++ flat_map evidence_line lines.now) }
{
    for line in lines {
        push_line(text, line)?;
    }
    Ok(())
}

/// Appends a line of evidence, indented by two blanks.
fn push_line(text: &mut String, line: &EvidenceLine) -> Result<(), AllocError>
    ensures { OnOk result (string_bytes text.new ≡ string_bytes text.old ++ evidence_line line.now) }
{
    match *line {
        EvidenceLine::Break(run) => push_run(text, "break", run),
        EvidenceLine::Rest(run) => push_run(text, "rest", run),
        EvidenceLine::Drive(span) => push_drive(text, span),
        EvidenceLine::Day { start, past } => push_day(text, start, past),
        EvidenceLine::Limit(minute) => push_limit(text, minute),
        EvidenceLine::DailyRest { rest, limit } => push_daily_rest(text, rest, limit),
        EvidenceLine::Weekly(run) => push_run(text, "weekly", run),
        EvidenceLine::Reduced { ordinal, rest, day } => push_reduced(text, ordinal, rest, day),
        EvidenceLine::Week(week) => push_week(text, "week", week),
        EvidenceLine::WeekDrive { week, drive } => push_week_drive(text, week, drive),
        EvidenceLine::Date { date, drive, total } => push_date(text, date, drive, total),
        EvidenceLine::Extended {
            ordinal,
            start,
            past,
            drive,
        } => push_extended(text, ordinal, start, past, drive),
        EvidenceLine::From(week) => push_week(text, "from", week),
        EvidenceLine::WeekAtRest(week) => push_week_at_rest(text, week),
        EvidenceLine::WeeklyIn { rest, first, last } => push_weekly_in(text, rest, first, last),
        EvidenceLine::Owes {
            week,
            amount,
            deadline,
        } => push_owes(text, week, amount, deadline),
        EvidenceLine::Main(run) => push_run(text, "main", run),
        EvidenceLine::Room { rest, has, keeps } => push_room(text, rest, has, keeps),
    }
}

/// Appends the line of a run, which begins with a word.
fn push_run(text: &mut String, word: &str, run: Run) -> Result<(), AllocError>
    ensures { OnOk result (string_bytes text.new ≡ string_bytes text.old
        ++ (codes "  " ++ ((word.now ++ (codes " " ++ run_text run)) ++ codes "\n"))) }
{
    let run = RunText { run };
    writeln!(text, "  {word} {run}")
}

/// Appends the line of a driving span.
fn push_drive(text: &mut String, span: DrivenSpan) -> Result<(), AllocError>
    ensures { OnOk result (string_bytes text.new ≡ string_bytes text.old ++ evidence_line (Drive span)) }
{
    let run = RunText { run: span.run };
    let total = Length {
        minutes: span.total,
    };
    writeln!(text, "  drive {run} {total}")
}

/// Appends the line of a duty day.
fn push_day(text: &mut String, start: u32, past: u32) -> Result<(), AllocError>
    ensures { OnOk result (string_bytes text.new ≡ string_bytes text.old ++ evidence_line (DayLine start past)) }
{
    let start = Time { minute: start };
    let past = Time { minute: past };
    writeln!(text, "  day {start} {past}")
}

/// Appends the line of the end of a duty day's 24 hours.
fn push_limit(text: &mut String, minute: u32) -> Result<(), AllocError>
    ensures { OnOk result (string_bytes text.new ≡ string_bytes text.old ++ evidence_line (Limit minute)) }
{
    let minute = Time { minute };
    writeln!(text, "  limit {minute}")
}

/// Appends the line of a daily rest, with its part up to the limit.
fn push_daily_rest(text: &mut String, rest: Run, limit: u32) -> Result<(), AllocError>
    ensures { OnOk result (string_bytes text.new ≡ string_bytes text.old ++ evidence_line (DailyRest rest limit)) }
{
    let run = RunText { run: rest };
    let portion = Signed {
        has: rest.past.min(limit),
        lacks: rest.start,
    };
    writeln!(text, "  rest {run} portion {portion}")
}

/// Returns a minute, or the end of the 24 hours that begin with a day if that is earlier.
fn end_within_day(minute: u32, day: u32) -> u32
    ensures { result ≡ min minute (day + minutes_of_day) }
{
    minute.min(day.saturating_add(MINUTES_OF_DAY))
}

/// Appends the line of a reduced daily rest, with its part in the 24 hours from the start of its duty day.
fn push_reduced(text: &mut String, ordinal: u32, rest: Run, day: u32) -> Result<(), AllocError>
    ensures { OnOk result (string_bytes text.new ≡ string_bytes text.old ++ evidence_line (Reduced ordinal rest day)) }
{
    let run = RunText { run: rest };
    let start = Time { minute: day };
    let portion = Signed {
        has: end_within_day(rest.past, day),
        lacks: rest.start,
    };
    writeln!(
        text,
        "  reduced {ordinal} {run} day {start} portion {portion}"
    )
}

/// Appends the line of a week, which begins with a word.
fn push_week(text: &mut String, word: &str, week: u32) -> Result<(), AllocError>
    ensures { OnOk result (string_bytes text.new ≡ string_bytes text.old
        ++ (codes "  " ++ ((word.now ++ (codes " " ++ date_text week)) ++ codes "\n"))) }
{
    let monday = DateOf { minute: week };
    writeln!(text, "  {word} {monday}")
}

/// Appends the line of a week that is wholly at rest.
fn push_week_at_rest(text: &mut String, week: u32) -> Result<(), AllocError>
    ensures { OnOk result (string_bytes text.new ≡ string_bytes text.old ++ evidence_line (WeekAtRest week)) }
{
    let monday = DateOf { minute: week };
    writeln!(text, "  week {monday} at rest")
}

/// Appends the line of a week and its driving.
fn push_week_drive(text: &mut String, week: u32, drive: u32) -> Result<(), AllocError>
    ensures { OnOk result (string_bytes text.new ≡ string_bytes text.old ++ evidence_line (WeekDrive week drive)) }
{
    let monday = DateOf { minute: week };
    let drive = Length { minutes: drive };
    writeln!(text, "  week {monday} drive {drive}")
}

/// Appends the line of a day of the calendar.
fn push_date(text: &mut String, date: u32, drive: u32, total: u32) -> Result<(), AllocError>
    ensures { OnOk result (string_bytes text.new ≡ string_bytes text.old ++ evidence_line (Date date drive total)) }
{
    let date = DateOf { minute: date };
    let drive = Length { minutes: drive };
    let total = Length { minutes: total };
    writeln!(text, "  date {date} drive {drive} {total}")
}

/// Appends the line of an extended day.
fn push_extended(
    text: &mut String,
    ordinal: u32,
    start: u32,
    past: u32,
    drive: u32,
) -> Result<(), AllocError>
    ensures { OnOk result (string_bytes text.new ≡ string_bytes text.old ++ evidence_line (Extended ordinal start past drive)) }
{
    let start = Time { minute: start };
    let past = Time { minute: past };
    let drive = Length { minutes: drive };
    writeln!(text, "  day {ordinal} {start} {past} drive {drive}")
}

/// Appends the line of a debt.
fn push_owes(text: &mut String, week: u32, amount: u32, deadline: u32) -> Result<(), AllocError>
    ensures { OnOk result (string_bytes text.new ≡ string_bytes text.old ++ evidence_line (Owes week amount deadline)) }
{
    let monday = DateOf { minute: week };
    let amount = Length { minutes: amount };
    let deadline = Time { minute: deadline };
    writeln!(text, "  owes {monday} {amount} by {deadline}")
}

/// Appends the line of a rest that comes after a main rest, with its room.
fn push_room(text: &mut String, rest: Run, has: u32, keeps: u32) -> Result<(), AllocError>
    ensures { OnOk result (string_bytes text.new ≡ string_bytes text.old ++ evidence_line (Room rest has keeps)) }
{
    let run = RunText { run: rest };
    let room = Signed { has, lacks: keeps };
    writeln!(text, "  rest {run} room {room}")
}

/// Appends the line of a weekly rest, with the weeks from the one to the other.
fn push_weekly_in(text: &mut String, rest: Run, first: u32, last: u32) -> Result<(), AllocError>
    ensures { OnOk result (string_bytes text.new ≡ string_bytes text.old ++ evidence_line (WeeklyIn rest first last)) }
{
    let run = RunText { run: rest };
    write!(text, "  weekly {run} in")?;
    let weeks = last.saturating_sub(first) / MINUTES_OF_WEEK + 1;
    push_mondays(text, first, weeks)?;
    text.push_str("\n")
}

/// Appends weeks by their Mondays, each after a blank.
fn push_mondays(text: &mut String, first: u32, weeks: u32) -> Result<(), AllocError>
    requires { first + minutes_of_week * weeks < 2 ^ 32 + minutes_of_week }
    ensures { OnOk result (string_bytes text.new ≡ string_bytes text.old ++ mondays_text first weeks) }
{
    for place in 0..weeks {
        let monday = DateOf {
            minute: first + MINUTES_OF_WEEK * place,
        };
        write!(text, " {monday}")?;
    }
    Ok(())
}
