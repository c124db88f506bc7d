ghost use Rattle.std.specs.Prelude.{◌≡◌, ◌+◌, ◌-◌, ◌*◌, ◌<◌, ◌≤◌, ◌++◌, ◌&&◌, nat_le, nat_lt, flat_map, replicate, IfOk, OnOk, string_bytes};
ghost use Rattle.jiff_core.specs.Weekday.{monday_zero};
ghost use Rattle.tacho_time.specs.Text.{month_text, two_digits};
ghost use Rattle.tacho_sheet.specs.Reports.{amount_text, breach_line, breaches_within, day_lines, right_aligned, weekday_name, IsMonthSheet};
ghost use Rattle.tacho_sheet.specs.Amounts.{amounts_line, head_text, line_of_day, AreAmounts};

use crate::amounts::{Amounts, amounts_of_day};
use crate::reports::{push_breach, push_horizon};
use jiff_core::civil::Weekday;
use std::alloc::{AllocError, Global};
use tacho_law::Breach;
use tacho_line::Line;
use tacho_rules::Report;
use tacho_time::{Day, Minute, Month, month_range, weekday, write_day};

/// Writes the sheet of a driver's month: the driver's number and name, the month, a line for each day with its amounts, the sums, and the
/// breaches whose moment is in the month. The last line has the first minute that isn't examined, and why.
pub fn month_sheet(
    alloc: Global,
    number: u32,
    name: &str,
    line: &Line,
    report: &Report,
    month: Month,
) -> Result<String, AllocError>
    ensures { IfOk result (λ text.
        IsMonthSheet number name.now line.now report.now.breaches.items report.now.horizon month (string_bytes text)) }
{
    let (start, past) = month_range(month);
    let mut text = head(alloc, number, name, month)?;
    let total = push_days(alloc, &mut text, line, start.day(), past.day())?;
    text.push_str("TOTAL         ")?;
    push_amounts(alloc, &mut text, &total)?;
    text.push_str("\n")?;
    push_breaches(&mut text, &report.breaches, start, past)?;
    push_horizon(&mut text, report.horizon)?;
    Ok(text)
}

/// Writes the lines before the days: driver, month, and the names of the columns.
fn head(alloc: Global, number: u32, name: &str, month: Month) -> Result<String, AllocError>
    ensures { IfOk result (λ text. string_bytes text ≡ head_text number name.now month) }
{
    let mut text = format!(in alloc; "DRIVER {number} {name}\nMONTH ")?;
    push_month(&mut text, month)?;
    text.push_str("\nDATE       DAY   REST  AVAIL   WORK  DRIVE   CREW   NONE\n")?;
    Ok(text)
}

/// Appends `YYYY-MM`.
pub(crate) fn push_month(text: &mut String, month: Month) -> Result<(), AllocError>
    ensures { OnOk result (string_bytes text.new ≡ string_bytes text.old ++ month_text month) }
{
    let year = month.year();
    push_two_digits(text, year / 100)?;
    push_two_digits(text, year % 100)?;
    text.push_str("-")?;
    push_two_digits(text, month.month())?;
    Ok(())
}

/// Appends the lines of the days from one to before another, and returns the sums of their amounts.
fn push_days(
    alloc: Global,
    text: &mut String,
    line: &Line,
    first: Day,
    past: Day,
) -> Result<Amounts, AllocError>
    requires { first ≤ past }
    ensures text { OnOk result (string_bytes text.new ≡ string_bytes text.old ++ day_lines line.now first (past - first)) }
    ensures total { IfOk result (AreAmounts line.now (1440 * first) (1440 * (past - first))) }
{
    let mut total = Amounts::zero();
    for number in first.number()..past.number() {
        let day = Day::new(number);
        let amounts = amounts_of_day(alloc, line, day)?;
        push_day(alloc, text, day, &amounts)?;
        total.add_all(&amounts);
    }
    Ok(total)
}

/// Appends the line of a day: its date, its day of the week, and its amounts.
fn push_day(alloc: Global, text: &mut String, day: Day, amounts: &Amounts) -> Result<(), AllocError>
    ensures { OnOk result (string_bytes text.new ≡ string_bytes text.old ++ line_of_day day amounts.now) }
{
    write_day(text, day)?;
    text.push_str(" ")?;
    text.push_str(name_of_weekday(weekday(day)))?;
    push_amounts(alloc, text, amounts)?;
    text.push_str("\n")?;
    Ok(())
}

/// Appends the six amounts, each right-aligned in seven columns.
fn push_amounts(alloc: Global, text: &mut String, amounts: &Amounts) -> Result<(), AllocError>
    ensures { OnOk result (string_bytes text.new ≡ string_bytes text.old ++ amounts_line amounts.now) }
{
    push_right(alloc, text, amounts.rest)?;
    push_right(alloc, text, amounts.available)?;
    push_right(alloc, text, amounts.work)?;
    push_right(alloc, text, amounts.drive)?;
    push_right(alloc, text, amounts.crew)?;
    push_right(alloc, text, amounts.lacking)?;
    Ok(())
}

/// Appends an amount, right-aligned in seven columns.
fn push_right(alloc: Global, text: &mut String, minutes: u32) -> Result<(), AllocError>
    ensures { OnOk result (string_bytes text.new ≡ string_bytes text.old ++ right_aligned (amount_text minutes)) }
{
    let amount = text_of_amount(alloc, minutes)?;
    push_blanks(text, 7_usize.saturating_sub(amount.len()))?;
    text.push_str(&amount)?;
    Ok(())
}

/// Writes an amount in hours and minutes.
fn text_of_amount(alloc: Global, minutes: u32) -> Result<String, AllocError>
    ensures { IfOk result (λ text. string_bytes text ≡ amount_text minutes) }
{
    let mut text = String::new(alloc);
    push_amount(&mut text, minutes)?;
    Ok(text)
}

/// Appends an amount in hours and minutes.
pub(crate) fn push_amount(text: &mut String, minutes: u32) -> Result<(), AllocError>
    ensures { OnOk result (string_bytes text.new ≡ string_bytes text.old ++ amount_text minutes) }
{
    let hours = minutes / 60;
    write!(text, "{hours}:")?;
    push_two_digits(text, minutes % 60)
}

/// Appends blanks.
fn push_blanks(text: &mut String, count: usize) -> Result<(), AllocError>
    ensures { OnOk result (string_bytes text.new ≡ string_bytes text.old ++ replicate count 32) }
{
    for _ in 0..count {
        text.push_str(" ")?;
    }
    Ok(())
}

/// Appends a number below 100 in two digits.
fn push_two_digits(text: &mut String, number: u32) -> Result<(), AllocError>
    requires { number < 100 }
    ensures { OnOk result (string_bytes text.new ≡ string_bytes text.old ++ two_digits number) }
{
    text.push(digit_of(number / 10))?;
    text.push(digit_of(number % 10))?;
    Ok(())
}

/// The digit of a number below ten.
pub(crate) fn digit_of(number: u32) -> char
    requires { number < 10 }
    ensures digit { result ≡ 48 + number }
    ensures ascii { result < 128 }
{
    char::from(b'0' + number as u8)
}

/// The first three letters of a day of the week.
pub(crate) fn name_of_weekday(weekday: Weekday) -> &'static str
    ensures { result.now ≡ weekday_name (monday_zero weekday) }
{
    match weekday {
        Weekday::Monday => "Mon",
        Weekday::Tuesday => "Tue",
        Weekday::Wednesday => "Wed",
        Weekday::Thursday => "Thu",
        Weekday::Friday => "Fri",
        Weekday::Saturday => "Sat",
        Weekday::Sunday => "Sun",
    }
}

/// Appends the lines of the breaches whose moment is from `start` to before `past`.
fn push_breaches(
    text: &mut String,
    breaches: &[Breach],
    start: Minute,
    past: Minute,
) -> Result<(), AllocError>
    ensures { OnOk result (string_bytes text.new
        ≡ string_bytes text.old ++ flat_map breach_line (breaches_within start past breaches.now)) }
{
    for breach in breaches {
        if is_within(breach.moment, start, past) {
            push_breach(text, breach)?;
        }
    }
    Ok(())
}

/// True if a minute is from `start` to before `past`.
pub(crate) fn is_within(minute: Minute, start: Minute, past: Minute) -> bool
    ensures { result ≡ (nat_le start minute && nat_lt minute past) }
{
    start <= minute && minute < past
}
