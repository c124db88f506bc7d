use crate::measure::add;
use crate::passes::examine_plainly;
use std::alloc::{AllocError, Global};
use tacho_law::{Breach, Debt, Kind};
use tacho_line::{Line, LineFault};
use tacho_rules::limits::{FIRST_BASE, LATEST};
use tacho_rules::{Report, can_be_examined, examine};
use tacho_time::{Activity, Mark, Minute, Span};

/// The length of a shift in minutes.
const SHIFT: u32 = 360;

/// How a line is examined.
#[derive(Clone, Copy)]
pub(crate) enum Way {
    /// By the scan.
    Scan,
    /// By the plain passes.
    Passes,
}

/// What was found in a line, summed over all times that it was examined. `sum` depends on each number of each report, in order.
#[derive(Drop)]
pub(crate) struct Count {
    pub(crate) spans: usize,
    pub(crate) breaches: usize,
    pub(crate) debts: usize,
    pub(crate) sum: u64,
}

/// Returns the number of a kind, starting with 0 for B1.
fn number_of(kind: Kind) -> u32 {
    match kind {
        Kind::B1 => 0,
        Kind::B2 => 1,
        Kind::B3 => 2,
        Kind::B4 => 3,
        Kind::B5 => 4,
        Kind::B6 => 5,
        Kind::B7 => 6,
        Kind::B8 => 7,
        Kind::B9 => 8,
        Kind::B10 => 9,
    }
}

impl Count {
    /// Adds a number to the sum.
    fn take(&mut self, number: u32) {
        self.sum = self
            .sum
            .wrapping_mul(1_000_003)
            .wrapping_add(u64::from(number));
    }

    /// Adds a breach to the sum.
    fn take_breach(&mut self, breach: &Breach) {
        self.take(number_of(breach.kind));
        self.take(breach.moment.number());
        self.take(breach.since.number());
        self.take(breach.amount);
    }

    /// Adds a debt to the sum.
    fn take_debt(&mut self, debt: &Debt) {
        let payer = match debt.paid_by {
            Some(minute) => minute.number(),
            None => 0,
        };
        self.take(debt.week.number());
        self.take(debt.amount);
        self.take(debt.deadline.number());
        self.take(payer);
    }

    /// Adds the contents of a report.
    fn add(&mut self, report: &Report) {
        self.breaches = self.breaches.wrapping_add(report.breaches.len());
        self.debts = self.debts.wrapping_add(report.debts.len());
        for breach in &report.breaches {
            self.take_breach(breach);
        }
        for debt in &report.debts {
            self.take_debt(debt);
        }
    }
}

/// Returns the minute `number` minutes after the start.
fn minute(number: u32) -> Minute {
    Minute::new(FIRST_BASE.wrapping_add(number).min(LATEST))
}

/// Returns a span of a driver who is alone, in minutes after the start.
fn single(start: u32, past: u32, activity: Activity) -> Span {
    Span {
        start: minute(start),
        past: minute(past),
        mark: Mark {
            activity,
            crew: false,
        },
    }
}

/// Returns the activity of a piece of a shift, by the piece's number. Half of the pieces are driving.
fn activity_of(number: u32) -> Activity {
    match number % 4 {
        1 => Activity::Rest,
        3 => Activity::Work,
        _ => Activity::Drive,
    }
}

/// Adds a shift of six hours, divided into pieces.
fn add_shift(spans: &mut Vec<Span>, from: u32, pieces: u32) -> Result<(), AllocError> {
    let end = |number: u32| from.wrapping_add(SHIFT.wrapping_mul(number) / pieces.max(1));
    for i in 0..pieces {
        spans.push(single(end(i), end(i + 1), activity_of(i)))?;
    }
    Ok(())
}

/// Returns the start of a day's second shift, by the day's number from a Monday: 13:00; on Tuesdays and Thursdays 14:30, so that the rest
/// has nine and a half hours; and on one day in four weeks 15:30, so that the rest is too short.
fn second_shift(day: u32) -> u32 {
    match day % 28 {
        9 => 930,
        number if number % 7 == 1 || number % 7 == 3 => 870,
        _ => 780,
    }
}

/// Adds a day of two shifts, the first from 06:00 to 12:00.
fn add_day(spans: &mut Vec<Span>, day: u32, pieces: u32) -> Result<(), AllocError> {
    let at = |minutes: u32| day.wrapping_mul(1440).wrapping_add(minutes);
    let second = second_shift(day);
    let past = second.wrapping_add(SHIFT);
    spans.push(single(at(0), at(360), Activity::Rest))?;
    add_shift(spans, at(360), pieces)?;
    spans.push(single(at(720), at(second), Activity::Rest))?;
    add_shift(spans, at(second), pieces)?;
    spans.push(single(at(past), at(1440), Activity::Rest))?;
    Ok(())
}

/// Adds a day of rest.
fn add_free_day(spans: &mut Vec<Span>, day: u32) -> Result<(), AllocError> {
    let midnight = day.wrapping_mul(1440);
    let past = midnight.wrapping_add(1440);
    spans.push(single(midnight, past, Activity::Rest))?;
    Ok(())
}

/// Returns true if there is no work on a day, by its number from a Monday: on Sundays, and on every second Saturday, so that weekly rests
/// alternate between 35 and 59 hours.
fn is_free(day: u32) -> bool {
    day % 7 == 6 || day % 14 == 5
}

/// Returns a line of `days` days, whose shifts have `pieces` pieces.
fn line_of(alloc: Global, days: u32, pieces: u32) -> Result<Line, LineFault> {
    let mut spans = Vec::new(alloc);
    for day in 0..days {
        if is_free(day) {
            add_free_day(&mut spans, day)?;
        } else {
            add_day(&mut spans, day, pieces)?;
        }
    }
    let mut line = Line::empty(alloc);
    add(alloc, &mut line, &spans)?;
    Ok(line)
}

/// Makes a line of working days, examines it several times, and returns what was found.
pub(crate) fn examined(
    alloc: Global,
    way: Way,
    days: u32,
    pieces: u32,
    times: u32,
) -> Result<Count, LineFault> {
    let line = line_of(alloc, days, pieces)?;
    let base = Minute::new(FIRST_BASE);
    let mut count = Count {
        spans: line.spans().len(),
        breaches: 0,
        debts: 0,
        sum: 0,
    };
    if can_be_examined(&line, base) {
        for _ in 0..times {
            let report = match way {
                Way::Scan => examine(alloc, &line, base)?,
                Way::Passes => examine_plainly(alloc, &line, base)?,
            };
            count.add(&report);
        }
    }
    Ok(count)
}
