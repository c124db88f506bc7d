//! The forecast for all drivers.

ghost use Rattle.std.specs.Prelude.{◌≡◌, ◌++◌, ◌/◌, [], ◌∷◌, ℕ, List, IfOk, IfSome, OnOk, None, Ok, codes, decimal, map, string_bytes};
ghost use Rattle.tacho_time.specs.Limits.{greatest_minute};
ghost use Rattle.tacho_time.specs.Text.{day_text};
ghost use Rattle.tacho_time.specs.declared.span.Span.{Span as SpanValue};
ghost use Rattle.tacho_line.specs.Line.{AgreeWithin};
ghost use Rattle.tacho_ahead.specs.Ahead.{limit_of};
ghost use Rattle.tacho_stretches.specs.Stretches.{judged_of, AreStretches};
ghost use Rattle.tacho_state.specs.Summaries.{told_summary};
ghost use Rattle.tacho_sheet.specs.Ahead.{limited};
ghost use Rattle.tacho_sheet.specs.Cells.{cells_text, minute_cell};
ghost use Rattle.tacho_sheet.specs.Forecast.{forecast_head as head_of_forecast, outlook_cells, IsForecastRow};
ghost use Rattle.tacho_sheet.specs.Why.{CanBeExamined};

use crate::cells::{MinuteCell, held_cell};
use std::alloc::{AllocError, Global};
use tacho_ahead::{Limits, Used, is_in_time, is_open, look_ahead};
use tacho_line::Line;
use tacho_rules::can_be_examined;
use tacho_state::DriverSummary;
use tacho_stretches::{Stretch, range_of};
use tacho_time::{Minute, write_day};

/// The head of the forecast for all drivers, as CSV.
pub fn forecast_head(alloc: Global) -> Result<String, AllocError>
    ensures { IfOk result (λ text. string_bytes text ≡ head_of_forecast) }
{
    String::from_str(
        alloc,
        "driver,name,from,held,start,B1,B2,B3,B4,B5,B6,B7,B8,B9,reduced,extended,before,week\n",
    )
}

/// Appends a driver's row of the forecast: number and name; the Monday of the last stretch; the end of what is held; and the forecast from
/// the later of a minute and the horizon on: its start, the minute until which driving can go on by each rule, and what is used. The cells
/// from the start on are empty if something is held after the last stretch, or if the forecast would go past 2099. `line` holds what the
/// driver holds from the base of the stretches on. Returns `None` if the line can't be examined, or the stretches aren't its own.
pub fn push_forecast(
    alloc: Global,
    text: &mut String,
    driver: &DriverSummary,
    line: &Line,
    stretches: &[Stretch],
    minute: Minute,
) -> Result<Option<()>, AllocError>
    ensures row { IfOk result (λ answer. IfSome answer (λ _. (held : List SpanValue) (base : ℕ)
        → AreStretches held base (map judged_of stretches.now) → AgreeWithin base greatest_minute line.now held
        → (row : List ℕ) × (string_bytes text.new ≡ string_bytes text.old ++ row)
        × IsForecastRow (told_summary driver.now) held base (map judged_of stretches.now) minute row)) }
    ensures none { result ≡ Ok None → (held : List SpanValue) (base : ℕ) → AreStretches held base (map judged_of stretches.now)
        → AgreeWithin base greatest_minute line.now held → ¬ (CanBeExamined line.now base) }
{
    let Some(last) = stretches.last() else {
        return Ok(None);
    };
    let (base, end) = range_of(stretches);
    push_front(text, driver, last.monday, held_cell(base, end))?;
    let start = minute.max(last.report.horizon.minute);
    if last.unseen.is_some() || !is_in_time(start) {
        text.push_str(",,,,,,,,,,,,,,\n")?;
        return Ok(Some(()));
    }
    if !can_be_examined(line, last.monday) || !is_open(line, last.monday, start) {
        return Ok(None);
    }
    let outlook = look_ahead(alloc, line, last.monday, start)?;
    push_outlook(text, start, &outlook.limits, &outlook.used)?;
    Ok(Some(()))
}

/// Appends a driver's number and name, the day of a Monday, and the end of what is held.
fn push_front(
    text: &mut String,
    driver: &DriverSummary,
    monday: Minute,
    held: MinuteCell,
) -> Result<(), AllocError>
    ensures { OnOk result (string_bytes text.new ≡ string_bytes text.old ++ (decimal driver.now.number
        ++ cells_text ((told_summary driver.now).name ∷ day_text (monday / 1440) ∷ minute_cell held.minute ∷ []))) }
{
    let number = driver.number;
    let name = driver.name.as_str();
    write!(text, "{number},{name},")?;
    write_day(text, monday.day())?;
    write!(text, ",{held}")
}

/// Appends the cells of a forecast, and the end of the line.
fn push_outlook(
    text: &mut String,
    start: Minute,
    limits: &Limits,
    used: &Used,
) -> Result<(), AllocError>
    ensures { OnOk result (string_bytes text.new
        ≡ string_bytes text.old ++ (cells_text (outlook_cells start limits.now used.now) ++ codes "\n")) }
{
    write!(text, ",{start}")?;
    push_limits(text, limits)?;
    let reduced = used.reduced;
    let extended = used.extended;
    let before = used.driven_before;
    let week = used.driven_in_week;
    writeln!(text, ",{reduced},{extended},{before},{week}")
}

/// Appends the minutes until which driving can go on, by rule.
fn push_limits(text: &mut String, limits: &Limits) -> Result<(), AllocError>
    ensures { OnOk result (string_bytes text.new
        ≡ string_bytes text.old ++ cells_text (map (λ kind. minute_cell (limit_of limits.now kind)) limited)) }
{
    push_limit(text, limits.breaks)?;
    push_limit(text, limits.daily_rest)?;
    push_limit(text, limits.reduced_rest)?;
    push_limit(text, limits.extended_day)?;
    push_limit(text, limits.third_day)?;
    push_limit(text, limits.week)?;
    push_limit(text, limits.two_weeks)?;
    push_limit(text, limits.late_rest)?;
    push_limit(text, limits.missing_rest)
}

/// Appends the cell of a minute.
fn push_limit(text: &mut String, limit: Option<Minute>) -> Result<(), AllocError>
    ensures { OnOk result (string_bytes text.new ≡ string_bytes text.old ++ (codes "," ++ minute_cell limit)) }
{
    let cell = MinuteCell { minute: limit };
    write!(text, ",{cell}")
}
