//! Lines of spans, written as bytes. The text of the last minute is kept, since most spans begin at the minute at which the previous one
//! ended, and end on the day on which they began.

ghost use Rattle.std.specs.Prelude.{◌≡◌, ◌<◌, ◌++◌, ◌/◌, codes, flat_map, IfOk, OnOk, OnErr};
ghost use Rattle.tacho_time.specs.Text.{two_digits, minute_text, activity_name, manning_name, span_line};

use crate::day::Day;
use crate::minute::Minute;
use crate::span::{Activity, Mark, Span};
use crate::text::DAYS_TO_EPOCH;
use jiff_core::civil::Date;
use std::alloc::{AllocError, Global};

/// The most bytes that a line has, and the most spans for which memory is reserved at the start: more than a card file has.
const LINE: usize = 51;

const MOST: usize = 65_535;

/// A minute, its day, and its text with a space after it.
#[derive(Clone, Copy)]
struct MinuteText {
    minute: Minute,
    day: Day,
    bytes: [u8; 17],
    ghost on: { day ≡ minute / 1440 },
    ghost is: { bytes ≡ minute_text minute ++ codes " " },
}

/// A number below 100 in two digits.
fn two(number: u32) -> [u8; 2]
    requires { number < 100 }
    ensures { result ≡ two_digits number }
{
    [b'0' + (number / 10) as u8, b'0' + (number % 10) as u8]
}

impl MinuteText {
    ghost use Rattle.std.specs.Prelude.{◌≡◌};

    fn of(minute: Minute) -> MinuteText
        ensures { result.minute ≡ minute }
    {
        let day = minute.day();
        let date = Date::from_days_since_min(day.number() + DAYS_TO_EPOCH);
        let year = date.year.unsigned_abs() as u32;
        let century = two(year / 100);
        let of_century = two(year % 100);
        let month = two(date.month as u32);
        let of_month = two(date.day as u32);
        let hour = two(minute.of_day() / 60);
        let of_hour = two(minute.number() % 60);
        MinuteText {
            minute,
            day,
            bytes: [
                century[0],
                century[1],
                of_century[0],
                of_century[1],
                b'-',
                month[0],
                month[1],
                b'-',
                of_month[0],
                of_month[1],
                b' ',
                hour[0],
                hour[1],
                b':',
                of_hour[0],
                of_hour[1],
                b' ',
            ],
        }
    }

    /// Changes to another minute. On the same day, only the time is written again.
    fn turn(&mut self, minute: Minute)
        ensures { self.new.minute ≡ minute }
    {
        if minute.number() == self.minute.number() {
            return;
        }
        let day = minute.day();
        if day.number() != self.day.number() {
            *self = MinuteText::of(minute);
            return;
        }
        let hour = two(minute.of_day() / 60);
        let of_hour = two(minute.number() % 60);
        let mut bytes = self.bytes;
        bytes[11] = hour[0];
        bytes[12] = hour[1];
        bytes[14] = of_hour[0];
        bytes[15] = of_hour[1];
        *self = MinuteText { minute, day, bytes };
    }
}

/// Appends the end of a line: activity and manning, with a space between them, and a line feed.
fn push_mark(text: &mut Vec<u8>, mark: Mark) -> Result<(), AllocError>
    ensures { OnOk result (text.new.items ≡ text.old.items
        ++ activity_name mark.activity ++ codes " " ++ manning_name mark.crew ++ codes "\n") }
{
    match (mark.activity, mark.crew) {
        (Activity::Rest, false) => text.extend_from_slice(b"rest single\n"),
        (Activity::Rest, true) => text.extend_from_slice(b"rest crew\n"),
        (Activity::Available, false) => text.extend_from_slice(b"available single\n"),
        (Activity::Available, true) => text.extend_from_slice(b"available crew\n"),
        (Activity::Work, false) => text.extend_from_slice(b"work single\n"),
        (Activity::Work, true) => text.extend_from_slice(b"work crew\n"),
        (Activity::Drive, false) => text.extend_from_slice(b"drive single\n"),
        (Activity::Drive, true) => text.extend_from_slice(b"drive crew\n"),
    }
}

/// Appends the line of a span. `last` keeps the text of a minute, which mostly is that of the span's start; it is then that of its past.
fn push_line(text: &mut Vec<u8>, last: &mut MinuteText, span: &Span) -> Result<(), AllocError>
    ensures { OnOk result (text.new.items ≡ text.old.items ++ span_line span.now) }
{
    last.turn(span.start);
    text.extend_from_slice(&last.bytes)?;
    last.turn(span.past);
    text.extend_from_slice(&last.bytes)?;
    push_mark(text, span.mark)?;
    Ok(())
}

/// Returns the lines of spans: start, past, activity and manning, with spaces between them, and a line feed.
pub fn span_lines(alloc: Global, spans: &[Span]) -> Result<Vec<u8>, AllocError>
    ensures { IfOk result (λ text. text.items ≡ flat_map span_line spans.now) }
{
    let mut text = Vec::with_capacity(alloc, LINE * spans.len().min(MOST))?;
    let mut last = MinuteText::of(Minute::new(0));
    for span in spans {
        push_line(&mut text, &mut last, span)?;
    }
    Ok(text)
}
