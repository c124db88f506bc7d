//! The forecast for a driver.

ghost use Rattle.std.specs.Prelude.{◌≡◌, ◌⊎◌, ◌++◌, ◌+◌, ◌≤◌, ℕ, List, IfOk, IfSome, OnOk, None, Ok, Err, map, string_bytes};
ghost use Rattle.tacho_time.specs.Limits.{greatest_minute};
ghost use Rattle.tacho_time.specs.declared.fault.TimeFault.TheVariants.{OutOfRange};
ghost use Rattle.tacho_time.specs.declared.span.Span.{Span as SpanValue};
ghost use Rattle.tacho_line.specs.Line.{AgreeWithin};
ghost use Rattle.tacho_law.specs.Weeks.{IsInWeek};
ghost use Rattle.tacho_stretches.specs.Stretches.{judged_of, AreStretches};
ghost use Rattle.tacho_ahead.specs.Plans.{IsInTime, IsOpen};
ghost use Rattle.tacho_sheet.specs.Ahead.{driven_line, limit_line, limit_lines, used_lines, IsAheadText, IsForecast, IsTooLate};
ghost use Rattle.tacho_sheet.specs.Fault.{time_fault};
ghost use Rattle.tacho_sheet.specs.Reports.{horizon_line};
ghost use Rattle.tacho_sheet.specs.Stretches.{block};
ghost use Rattle.tacho_sheet.specs.Why.{CanBeExamined};
ghost use Rattle.tacho_sheet.specs.declared.fault.Fault.{Fault as FaultValue};
ghost use Rattle.tacho_sheet.specs.declared.fault.Fault.TheVariants as fault;

use crate::evidence::Length;
use crate::fault::Fault;
use crate::reports::{name_of_kind, push_breaches, push_debts, push_horizon};
use crate::stretches::push_block;
use std::alloc::{AllocError, Global};
use std::fmt;
use tacho_ahead::{Limits, Used, is_in_time, is_open, look_ahead};
use tacho_law::Kind;
use tacho_line::Line;
use tacho_rules::can_be_examined;
use tacho_stretches::Stretch;
use tacho_time::{Day, Minute, TimeFault, Week, week_of, write_day};

/// A minute, or `-` if there is none.
#[derive(Clone, Copy)]
struct Since {
    minute: Option<Minute>,
}

impl fmt::Display for Since {
    ghost use Rattle.std.specs.Prelude.{Some};
    ghost use Rattle.tacho_sheet.specs.Ahead.{since_text};

    ghost output = { λ since. Some (since_text since.minute) };

    fn fmt<W: fmt::Write>(&self, f: &mut fmt::Formatter<W>) -> fmt::Result {
        match self.minute {
            Some(minute) => write!(f, "{minute}"),
            None => f.write_str("-"),
        }
    }
}

/// Writes the last stretch of a driver and, if nothing is held after it, the forecast from the later of a minute and the horizon on. `line`
/// holds what the driver holds from the base of the stretches on. Fails with Z3 if the forecast would go past 2099. Returns `None` if the
/// line can't be examined, or the stretches aren't its own.
pub fn ahead_text(
    alloc: Global,
    line: &Line,
    stretches: &[Stretch],
    minute: Minute,
) -> Result<Option<String>, Fault>
    ensures text { IfOk result (λ answer. IfSome answer (λ text. (held : List SpanValue) (base : ℕ)
        → AreStretches held base (map judged_of stretches.now) → AgreeWithin base greatest_minute line.now held
        → IsAheadText held (map judged_of stretches.now) minute (string_bytes text))) }
    ensures none { result ≡ Ok None → (held : List SpanValue) (base : ℕ) → AreStretches held base (map judged_of stretches.now)
        → AgreeWithin base greatest_minute line.now held → ¬ (CanBeExamined line.now base) }
    ensures err { (f : FaultValue) → result ≡ Err f
        → (f ≡ fault.Memory) ⊎ ((f ≡ time_fault OutOfRange) × IsTooLate (map judged_of stretches.now) minute) }
{
    let Some(last) = stretches.last() else {
        return Ok(None);
    };
    let mut text = last_text(alloc, last)?;
    if last.unseen.is_some() {
        return Ok(Some(text));
    }
    let start = minute.max(last.report.horizon.minute);
    if !is_in_time(start) {
        return Err(Fault::Time(TimeFault::OutOfRange));
    }
    if !can_be_examined(line, last.monday) || !is_open(line, last.monday, start) {
        return Ok(None);
    }
    push_forecast(alloc, &mut text, line, last.monday, start)?;
    Ok(Some(text))
}

/// Writes a stretch: its Monday, its horizon, and what isn't examined after it.
fn last_text(alloc: Global, last: &Stretch) -> Result<String, AllocError>
    ensures { IfOk result (λ text. string_bytes text ≡ block (horizon_line last.now.report.horizon) (judged_of last.now)) }
{
    let mut horizon = String::new(alloc);
    push_horizon(&mut horizon, last.report.horizon)?;
    let mut text = String::new(alloc);
    push_block(&mut text, last, &horizon)?;
    Ok(text)
}

/// Appends the forecast from `start` on for what a line holds from a Monday on.
fn push_forecast(
    alloc: Global,
    text: &mut String,
    line: &Line,
    monday: Minute,
    start: Minute,
) -> Result<(), AllocError>
    requires examined { CanBeExamined line.now monday }
    requires open { IsOpen line.now monday start }
    requires early { IsInTime start }
    ensures { OnOk result ((forecast : List ℕ) × (string_bytes text.new ≡ string_bytes text.old ++ forecast)
        × IsForecast line.now monday start forecast) }
{
    let outlook = look_ahead(alloc, line, monday, start)?;
    push_used(text, start, &outlook.used)?;
    push_breaches(text, &outlook.coming)?;
    push_debts(text, &outlook.debts, start)?;
    push_limits(text, start, &outlook.limits)
}

/// Appends the start, and what is used.
fn push_used(text: &mut String, start: Minute, used: &Used) -> Result<(), AllocError>
    requires { 15840 ≤ start }
    ensures { OnOk result ((week : ℕ) → IsInWeek (week + 1) start
        → string_bytes text.new ≡ string_bytes text.old ++ used_lines start week used.now) }
{
    let since = Since {
        minute: used.rest_since,
    };
    let day = used.day_since;
    let reduced = used.reduced;
    let extended = used.extended;
    write!(
        text,
        "START {start}\nREST SINCE {since}\nDAY SINCE {day}\nREDUCED {reduced}\nEXTENDED {extended}\n"
    )?;
    let week = week_of(start);
    push_driven(text, Week::new(week.number() - 1), used.driven_before)?;
    push_driven(text, week, used.driven_in_week)
}

/// Appends a week by its Monday, and its driving.
fn push_driven(text: &mut String, week: Week, minutes: u32) -> Result<(), AllocError>
    ensures { OnOk result (string_bytes text.new ≡ string_bytes text.old ++ driven_line week minutes) }
{
    let driven = Length { minutes };
    text.push_str("DRIVEN ")?;
    write_day(text, Day::new(4 + 7 * week.number()))?;
    writeln!(text, " {driven}")
}

/// Appends the limits, by rule.
fn push_limits(text: &mut String, start: Minute, limits: &Limits) -> Result<(), AllocError>
    ensures { OnOk result (string_bytes text.new ≡ string_bytes text.old ++ limit_lines start limits.now) }
{
    push_limit(text, start, Kind::B1, limits.breaks)?;
    push_limit(text, start, Kind::B2, limits.daily_rest)?;
    push_limit(text, start, Kind::B3, limits.reduced_rest)?;
    push_limit(text, start, Kind::B4, limits.extended_day)?;
    push_limit(text, start, Kind::B5, limits.third_day)?;
    push_limit(text, start, Kind::B6, limits.week)?;
    push_limit(text, start, Kind::B7, limits.two_weeks)?;
    push_limit(text, start, Kind::B8, limits.late_rest)?;
    push_limit(text, start, Kind::B9, limits.missing_rest)
}

/// Appends a rule's limit, if it has one, and how much is left until then.
fn push_limit(
    text: &mut String,
    start: Minute,
    kind: Kind,
    limit: Option<Minute>,
) -> Result<(), AllocError>
    ensures { OnOk result (string_bytes text.new ≡ string_bytes text.old ++ limit_line start kind limit) }
{
    let Some(until) = limit else {
        return Ok(());
    };
    let name = name_of_kind(kind);
    let left = Length {
        minutes: until.number().saturating_sub(start.number()),
    };
    writeln!(text, "{name} until {until} left {left}")
}
