//! Work on timelines and on texts, for measurements. The arguments after `measure` say which. With two numbers, a line with that many spans is
//! made, and that many days are added to it, one at a time. With `examine` and three numbers (days, pieces, times), a line of that many days,
//! whose shifts have that many pieces, is examined that many times; `plain` does the same with the plain passes. With `entries` and a number,
//! the hours in the CSV on standard input are read that many times.

use crate::hours;
use crate::years::{self, Way};
use std::alloc::Global;
use std::rt::Env;
use std::{env, io};
use tacho_line::{Line, LineFault};
use tacho_rules::limits::FIRST_BASE;
use tacho_time::{Activity, Mark, Minute, Span};

/// The most bytes that a text may have.
pub(crate) const LIMIT: usize = 1_048_576;

/// What is measured.
#[derive(Clone, Copy)]
pub(crate) enum Work {
    /// Adding days to a timeline.
    Adding,
    /// Examining a timeline, in one of two ways.
    Examining(Way),
    /// Reading entered hours.
    Reading,
}

/// Returns the span of an hour, `number` hours after the start. Two spans that touch have different marks.
fn hour(number: u32) -> Span {
    let start = Minute::new(FIRST_BASE + 60 * (number % 800_000));
    let past = Minute::new(FIRST_BASE + 60 * (number % 800_000) + 60);
    let activity = if number % 2 == 0 {
        Activity::Work
    } else {
        Activity::Drive
    };
    Span {
        start,
        past,
        mark: Mark {
            activity,
            crew: false,
        },
    }
}

/// Adds to a line what spans give that it doesn't hold.
pub(crate) fn add(alloc: Global, line: &mut Line, spans: &[Span]) -> Result<(), LineFault> {
    let gains = line.gains(alloc, spans)?;
    if line.add(&gains).is_err() {
        return Err(LineFault::Memory);
    }
    Ok(())
}

/// Returns the hours of a day, by the day's number from the start.
fn day(alloc: Global, number: u32) -> Result<Vec<Span>, LineFault> {
    let mut spans = Vec::new(alloc);
    for i in 0..24 {
        if spans
            .push(hour(number.wrapping_mul(24).wrapping_add(i)))
            .is_err()
        {
            return Err(LineFault::Memory);
        }
    }
    Ok(spans)
}

/// Returns a line whose spans are on every second day.
fn line_of(alloc: Global, count: u32) -> Result<Line, LineFault> {
    let mut spans = Vec::new(alloc);
    for i in 0..count {
        let number = (i / 24).wrapping_mul(48).wrapping_add(i % 24);
        if spans.push(hour(number)).is_err() {
            return Err(LineFault::Memory);
        }
    }
    let mut line = Line::empty(alloc);
    add(alloc, &mut line, &spans)?;
    Ok(line)
}

/// Adds days between a line's days, one at a time, and returns the line.
fn measured(alloc: Global, count: u32, days: u32) -> Result<Line, LineFault> {
    let mut line = line_of(alloc, count)?;
    for i in 0..days {
        let number = (i % (count / 24).max(1)).wrapping_mul(2).wrapping_add(1);
        add(alloc, &mut line, &day(alloc, number)?)?;
    }
    Ok(line)
}

/// Returns the number in the argument at a place, or 24 if there is none.
fn number(rt: &(impl Env + Alloc), place: usize) -> u32 {
    let Ok(words) = env::args(rt) else {
        return 24;
    };
    for (i, word) in words.enumerate() {
        if i == place {
            return word.parse::<u32>().unwrap_or(24);
        }
    }
    24
}

/// Returns the work that the argument after `measure` names.
pub(crate) fn asked(rt: &(impl Env + Alloc)) -> Work {
    let Ok(words) = env::args(rt) else {
        return Work::Adding;
    };
    for (i, word) in words.enumerate() {
        if i == 2 {
            return match word.as_str() {
                "examine" => Work::Examining(Way::Scan),
                "plain" => Work::Examining(Way::Passes),
                "entries" => Work::Reading,
                _ => Work::Adding,
            };
        }
    }
    Work::Adding
}

/// Adds days to a line, and prints the number of its spans.
pub(crate) fn tell_added(rt: &(impl Env + Alloc + Print), alloc: Global) -> io::Result<()> {
    match measured(alloc, number(rt, 2), number(rt, 3)) {
        Ok(line) => println!(rt; "{} spans", line.spans().len()),
        Err(fault) => println!(rt; "{fault}"),
    }
}

/// Examines a line, and prints the number of its spans and what was found.
pub(crate) fn tell_examined(
    rt: &(impl Env + Alloc + Print),
    alloc: Global,
    way: Way,
) -> io::Result<()> {
    match years::examined(alloc, way, number(rt, 3), number(rt, 4), number(rt, 5)) {
        Ok(count) => {
            println!(rt;
                "{} spans, {} breaches, {} debts, sum {}",
                count.spans, count.breaches, count.debts, count.sum
            )
        }
        Err(fault) => println!(rt; "{fault}"),
    }
}

/// Reads entered hours, and prints what was found.
pub(crate) fn tell_entered(
    rt: &(impl Env + Alloc + Print),
    alloc: Global,
    bytes: &[u8],
) -> io::Result<()> {
    match hours::entered(alloc, bytes, number(rt, 3)) {
        Ok(count) => {
            println!(rt;
                "{} lines, {} minutes, {} rests",
                count.lines, count.minutes, count.rests
            )
        }
        Err(fault) => println!(rt; "{fault}"),
    }
}
