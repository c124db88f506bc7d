use crate::march::learn;
use std::alloc::{AllocError, Global};
use std::test::Fail;
use tacho_line::{Line, LineFault};
use tacho_rules::{Breach, Cause, Debt, Kind, can_be_examined, examine};
use tacho_time::{Activity, Mark, Minute, Span, week_of};

/// 2024-03-04 00:00, a Monday's first minute.
pub(crate) const BASE: u32 = 28_491_840;

/// An activity on days of March 2024, from one minute of the day to another. Day 32 is 1 April, and so on.
#[derive(Clone, Copy)]
pub(crate) struct Piece {
    first: u32,
    last: u32,
    from: u32,
    to: u32,
    activity: Activity,
}

/// Returns a minute of a day of March 2024, from the 4th to the 60th.
pub(crate) fn at(day: u32, minute: u32) -> Minute {
    Minute::new(BASE + 1440 * (day.min(60).saturating_sub(4)) + minute.min(1440))
}

/// Returns work on some days.
pub(crate) fn work(first: u32, last: u32, from: u32, to: u32) -> Piece {
    Piece {
        first,
        last,
        from,
        to,
        activity: Activity::Work,
    }
}

/// Returns driving on some days.
pub(crate) fn drive(first: u32, last: u32, from: u32, to: u32) -> Piece {
    Piece {
        first,
        last,
        from,
        to,
        activity: Activity::Drive,
    }
}

/// Returns the mark of a driver who is alone.
fn alone(activity: Activity) -> Mark {
    Mark {
        activity,
        crew: false,
    }
}

/// Returns the spans of a piece, one for each of its days.
fn spans_of(alloc: Global, piece: Piece) -> Result<Vec<Span>, AllocError> {
    let mut spans = Vec::new(alloc);
    for day in piece.first..piece.last.min(60) + 1 {
        spans.push(Span {
            start: at(day, piece.from),
            past: at(day, piece.to),
            mark: alone(piece.activity),
        })?;
    }
    Ok(spans)
}

/// Adds rest to a line where it holds nothing, from the base to a horizon.
fn add_rest(alloc: Global, line: &mut Line, horizon: Minute) -> Result<(), LineFault> {
    let gaps = line.gaps(alloc, Minute::new(BASE), horizon)?;
    for gap in &gaps {
        let rest = Span {
            start: gap.start,
            past: gap.past,
            mark: alone(Activity::Rest),
        };
        learn(alloc, line, &[rest])?;
    }
    Ok(())
}

/// Returns the line of pieces, with rest between them, from the base to a horizon.
pub(crate) fn line_of(alloc: Global, pieces: &[Piece], horizon: Minute) -> Result<Line, LineFault> {
    let mut line = Line::empty(alloc);
    for piece in pieces {
        learn(alloc, &mut line, &spans_of(alloc, *piece)?)?;
    }
    add_rest(alloc, &mut line, horizon)?;
    Ok(line)
}

/// Returns true if the report of pieces with rest between them has a horizon that isn't held, these breaches and these debts.
pub(crate) fn finds(
    alloc: Global,
    pieces: &[Piece],
    horizon: Minute,
    breaches: &[Breach],
    debts: &[Debt],
) -> Result<bool, Fail> {
    let line = line_of(alloc, pieces, horizon)?;
    let base = Minute::new(BASE);
    if !can_be_examined(&line, base) {
        return Err(Fail::new("a line that can't be examined"));
    }
    let report = examine(alloc, &line, base)?;
    Ok(
        report.horizon.minute == horizon
            && report.horizon.cause == Cause::Unknown
            && report.breaches.as_slice() == breaches
            && report.debts.as_slice() == debts,
    )
}

/// Returns a breach.
pub(crate) fn breach(kind: Kind, moment: Minute, since: Minute, amount: u32) -> Breach {
    Breach {
        kind,
        moment,
        since,
        amount,
    }
}

/// Returns a debt of the base's week.
pub(crate) fn debt(amount: u32, paid_by: Option<Minute>) -> Debt {
    Debt {
        week: week_of(Minute::new(BASE)),
        amount,
        deadline: at(32, 0),
        paid_by,
    }
}
