ghost use Rattle.std.specs.Prelude.{◌≡◌, ◌+◌, ◌<◌, ◌≤◌, ◌++◌, OnOk, OnErr, string_bytes};
ghost use Rattle.arrayvec.specs.ArrayString.{array_string_len};
ghost use Rattle.tacho_time.specs.Text.{two_digits, day_text, minute_text, span_line};

use crate::day::Day;
use crate::minute::Minute;
use crate::span::Span;
use arrayvec::ArrayString;
use jiff_core::civil::Date;
use std::alloc::{AllocError, Global};
use std::fmt;

/// A buffer for one line. No line of this crate is longer.
pub type Line = ArrayString<64>;

/// How many days before 1970-01-01 the calendar of `jiff` begins.
pub(crate) const DAYS_TO_EPOCH: u32 = 4_371_587;

fn push_two_digits(line: &mut Line, number: u32)
    requires digits { number < 100 }
    requires room { array_string_len line.old + 2 ≤ 64 }
    ensures text { line.new.bytes ≡ line.old.bytes ++ two_digits number }
    ensures len { array_string_len line.new ≡ array_string_len line.old + 2 }
{
    line.push(char::from(b'0' + (number / 10) as u8));
    line.push(char::from(b'0' + (number % 10) as u8));
}

fn push_day(line: &mut Line, day: Day)
    requires room { array_string_len line.old + 10 ≤ 64 }
    ensures text { line.new.bytes ≡ line.old.bytes ++ day_text day }
    ensures len { array_string_len line.new ≡ array_string_len line.old + 10 }
{
    let date = Date::from_days_since_min(day.number() + DAYS_TO_EPOCH);
    let year = date.year.unsigned_abs() as u32;
    push_two_digits(line, year / 100);
    push_two_digits(line, year % 100);
    line.push_str("-");
    push_two_digits(line, date.month as u32);
    line.push_str("-");
    push_two_digits(line, date.day as u32);
}

fn push_minute(line: &mut Line, minute: Minute)
    requires room { array_string_len line.old + 16 ≤ 64 }
    ensures text { line.new.bytes ≡ line.old.bytes ++ minute_text minute }
    ensures len { array_string_len line.new ≡ array_string_len line.old + 16 }
{
    push_day(line, minute.day());
    line.push_str(" ");
    push_two_digits(line, minute.of_day() / 60);
    line.push_str(":");
    push_two_digits(line, minute.number() % 60);
}

/// Returns a day as `YYYY-MM-DD`, without allocating memory.
pub fn day_line(day: Day) -> Line
    ensures text { result.bytes ≡ day_text day }
    ensures len { array_string_len result ≡ 10 }
{
    let mut line = Line::new();
    push_day(&mut line, day);
    line
}

/// Returns a minute as `YYYY-MM-DD HH:MM`, in UTC, without allocating memory.
pub fn minute_line(minute: Minute) -> Line
    ensures text { result.bytes ≡ minute_text minute }
    ensures len { array_string_len result ≡ 16 }
{
    let mut line = Line::new();
    push_minute(&mut line, minute);
    line
}

/// Appends `YYYY-MM-DD`.
pub fn write_day(text: &mut String, day: Day) -> Result<(), AllocError>
    ensures ok { OnOk result (string_bytes text.new ≡ string_bytes text.old ++ day_text day) }
    ensures err { OnErr result (string_bytes text.new ≡ string_bytes text.old) }
{
    text.push_str(day_line(day).as_str())
}

/// Appends `YYYY-MM-DD HH:MM`, in UTC.
pub fn write_minute(text: &mut String, minute: Minute) -> Result<(), AllocError>
    ensures ok { OnOk result (string_bytes text.new ≡ string_bytes text.old ++ minute_text minute) }
    ensures err { OnErr result (string_bytes text.new ≡ string_bytes text.old) }
{
    text.push_str(minute_line(minute).as_str())
}

/// Appends the line of a span: start, past, activity and manning, with spaces between them, and a line feed.
pub fn write_span(text: &mut String, span: &Span) -> Result<(), AllocError>
    ensures ok { OnOk result (string_bytes text.new ≡ string_bytes text.old ++ span_line span.now) }
    ensures err { OnErr result (string_bytes text.new ≡ string_bytes text.old) }
{
    let mut line = Line::new();
    push_minute(&mut line, span.start);
    line.push_str(" ");
    push_minute(&mut line, span.past);
    line.push_str(" ");
    line.push_str(span.mark.activity.name());
    line.push_str(" ");
    line.push_str(span.mark.manning());
    line.push_str("\n");
    text.push_str(line.as_str())
}

impl fmt::Display for Minute {
    ghost use Rattle.std.specs.Prelude.{Some};
    ghost use Rattle.tacho_time.specs.Text.{minute_text};

    ghost output = { λ minute. Some (minute_text minute) };

    ghost styled_output = { λ minute spec. Some (minute_text minute) };

    fn fmt<W: fmt::Write>(&self, f: &mut fmt::Formatter<W>) -> fmt::Result {
        f.write_str(minute_line(*self).as_str())
    }
}
