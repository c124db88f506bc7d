//! Minutes and spans of March 2024, and lines that hold them.

use std::alloc::Global;
use std::test::Fail;
use tacho_line::{Line, LineFault};
use tacho_time::{Activity, Mark, Minute, Month, Span};

/// Friday, 1 March 2024, 00:00.
const MARCH: u32 = 28_487_520;

/// Returns a minute of a day of March 2024. Day 32 is 1 April, and day 0 is the last of February.
pub(crate) fn at(day: u32, minute: u32) -> Minute {
    Minute::new((MARCH - 1440) + 1440 * day.min(60) + minute.min(1440))
}

/// Returns a span within one day.
pub(crate) fn span(day: u32, from: u32, to: u32, activity: Activity, crew: bool) -> Span {
    Span {
        start: at(day, from),
        past: at(day, to),
        mark: Mark { activity, crew },
    }
}

/// Adds to a line what spans give that it doesn't hold.
pub(crate) fn learn(alloc: Global, line: &mut Line, spans: &[Span]) -> Result<(), LineFault> {
    let gains = line.gains(alloc, spans)?;
    line.add(&gains)?;
    Ok(())
}

/// Returns a line that holds these spans.
pub(crate) fn line_of(alloc: Global, spans: &[Span]) -> Result<Line, LineFault> {
    let mut line = Line::empty(alloc);
    learn(alloc, &mut line, spans)?;
    Ok(line)
}

/// Returns the month that a text names.
pub(crate) fn month(text: &[u8]) -> Result<Month, Fail> {
    match Month::read(text) {
        Ok(month) => Ok(month),
        Err(_) => Err(Fail::new("no month")),
    }
}
