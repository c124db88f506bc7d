ghost use Rattle.std.specs.Prelude.{◌≡◌, All, IsTrue, false};
ghost use Rattle.tacho_law.specs.Line.{Joined, IsBase, IsExamined};

use crate::timeline::{numbers_of, spans_of};
use std::alloc::{AllocError, Global};
use std::{io, str};
use tacho_rules::limits::{FIRST_BASE, LATEST};
use tacho_rules::{Breach, Cause, Debt, Found, Horizon, Report, Scan};
use tacho_time::{Minute, Span, first_minute, week_of};

/// True if no span is crew.
fn are_single(spans: &[Span]) -> bool
    ensures { IsTrue result → All (λ span. span.mark.crew ≡ false) spans.now }
{
    spans.iter().all(|span| !span.mark.crew)
}

/// True if the spans follow one another from one minute to another, and none is empty.
fn are_joined(spans: &[Span], from: Minute, to: Minute) -> bool
    ensures { IsTrue result → Joined spans.now from to }
{
    let mut place = from;
    for span in spans {
        if span.start != place || span.past <= place {
            return false;
        }
        place = span.past;
    }
    place == to
}

/// True if a minute can be a base: it is the first minute of a Monday from the first base on.
fn is_base(minute: Minute) -> bool
    ensures { IsTrue result → IsBase minute }
{
    minute.number() >= FIRST_BASE && first_minute(week_of(minute)) == minute
}

/// True if these are the spans of an examined line from a base to before a minute.
fn are_examined(spans: &[Span], base: Minute, past: Minute) -> bool
    ensures { IsTrue result → IsExamined spans.now base past }
{
    if !is_base(base) || past.number() > LATEST {
        return false;
    }
    are_single(spans) && are_joined(spans, base, past)
}

/// Prints breaches.
pub(crate) fn print_breaches(rt: &impl Print, name: &str, breaches: &[Breach]) -> io::Result<()> {
    print!(rt; "{name}")?;
    for breach in breaches {
        let (moment, since) = (breach.moment.number(), breach.since.number());
        print!(rt; " {:?} {moment} {since} {}", breach.kind, breach.amount)?;
    }
    println!(rt; "")
}

/// Prints debts.
pub(crate) fn print_debts(rt: &impl Print, debts: &[Debt]) -> io::Result<()> {
    print!(rt; "debts")?;
    for debt in debts {
        let (week, deadline) = (debt.week.number(), debt.deadline.number());
        print!(rt; " {week} {} {deadline}", debt.amount)?;
        match debt.paid_by {
            Some(payer) => print!(rt; " {}", payer.number())?,
            None => print!(rt; " -")?,
        }
    }
    println!(rt; "")
}

/// Prints the breaches that a pass found.
fn print_pass(
    rt: &impl Print,
    name: &str,
    found: Result<Vec<Breach>, AllocError>,
) -> io::Result<()> {
    match found {
        Ok(breaches) => print_breaches(rt, name, &breaches),
        Err(_) => println!(rt; "Memory"),
    }
}

/// Prints the breaches and the debts that the pass on weekly rests found, one per line.
fn print_rests(rt: &impl Print, found: Result<Found, AllocError>) -> io::Result<()> {
    match found {
        Ok(found) => {
            print_breaches(rt, "rests", &found.breaches)?;
            print_debts(rt, &found.debts)
        }
        Err(_) => println!(rt; "Memory\nMemory"),
    }
}

/// Prints the breaches that each pass finds in spans from a base to before a minute, and the debts.
fn tell_breaches(
    rt: &impl Print,
    alloc: Global,
    spans: &[Span],
    base: Minute,
    past: Minute,
) -> io::Result<()> {
    if !are_examined(spans, base, past) {
        return println!(rt; "no examined line");
    }
    print_pass(rt, "breaks", tacho_plain::breaks(alloc, spans, base, past))?;
    print_pass(rt, "days", tacho_plain::days(alloc, spans, base, past))?;
    print_pass(rt, "weeks", tacho_plain::weeks(alloc, spans, base, past))?;
    print_rests(rt, tacho_plain::rests(alloc, spans, base, past))
}

/// Returns what a scan finds in spans from a base to before a minute.
fn scanned(alloc: Global, spans: &[Span], base: Minute, past: Minute) -> Result<Report, AllocError>
    requires { IsExamined spans.now base past }
{
    let mut scan = Scan::new(base);
    let mut found = Found::empty(alloc);
    scan.feed_within(spans, base, past, &mut found)?;
    let horizon = Horizon {
        minute: past,
        cause: Cause::Unknown,
    };
    scan.finish(horizon, found)
}

/// Prints the breaches that a scan finds in spans from a base to before a minute, and the debts.
fn tell_scan(
    rt: &impl Print,
    alloc: Global,
    spans: &[Span],
    base: Minute,
    past: Minute,
) -> io::Result<()> {
    if !are_examined(spans, base, past) {
        return println!(rt; "no examined line");
    }
    match scanned(alloc, spans, base, past) {
        Ok(report) => {
            print_breaches(rt, "scan", &report.breaches)?;
            print_debts(rt, &report.debts)
        }
        Err(_) => println!(rt; "Memory\nMemory"),
    }
}

/// Answers lines of input, each with the spans of an examined line, three numbers for each span: by a scan, or by the passes.
pub(crate) fn answer(
    rt: &impl Print,
    alloc: Global,
    bytes: &[u8],
    by_scan: bool,
) -> io::Result<()> {
    let Ok(text) = str::from_utf8(bytes) else {
        return println!(rt; "no text");
    };
    for words in text.lines() {
        let Ok(spans) = numbers_of(alloc, words).and_then(|numbers| spans_of(alloc, &numbers))
        else {
            println!(rt; "not read")?;
            continue;
        };
        let base = spans
            .first()
            .map_or(Minute::new(FIRST_BASE), |span| span.start);
        let past = spans.last().map_or(base, |span| span.past);
        if by_scan {
            tell_scan(rt, alloc, &spans, base, past)?;
        } else {
            tell_breaches(rt, alloc, &spans, base, past)?;
        }
    }
    Ok(())
}
