use crate::rules::{print_breaches, print_debts};
use crate::timeline::{gain, minute_of, numbers_of};
use std::alloc::Global;
use std::{io, str};
use tacho_line::{Line, LineFault};
use tacho_rules::{Report, can_be_examined, examine};
use tacho_time::Minute;

/// Makes a line that holds spans, from three numbers for each.
fn line_of(alloc: Global, numbers: &[u32]) -> Result<Line, LineFault> {
    let mut line = Line::empty(alloc);
    gain(alloc, &mut line, numbers)?;
    Ok(line)
}

/// Prints a report: its horizon, its breaches and its debts, one per line.
fn print_report(rt: &impl Print, report: &Report) -> io::Result<()> {
    let horizon = report.horizon;
    println!(rt; "horizon {} {:?}", horizon.minute.number(), horizon.cause)?;
    print_breaches(rt, "breaches", &report.breaches)?;
    print_debts(rt, &report.debts)
}

/// Prints the report of a line from a base.
fn tell_report(rt: &impl Print, alloc: Global, line: &Line, base: Minute) -> io::Result<()> {
    if !can_be_examined(line, base) {
        return println!(rt; "no examined line");
    }
    match examine(alloc, line, base) {
        Ok(report) => print_report(rt, &report),
        Err(_) => println!(rt; "Memory"),
    }
}

/// Prints the report of a timeline, from numbers: the base, and then three numbers for each span.
fn tell_line(rt: &impl Print, alloc: Global, numbers: &[u32]) -> io::Result<()> {
    let Some((base, others)) = numbers.split_first() else {
        return println!(rt; "no base");
    };
    match line_of(alloc, others) {
        Ok(line) => tell_report(rt, alloc, &line, minute_of(*base)),
        Err(fault) => println!(rt; "{fault:?}"),
    }
}

/// Answers lines of input, each with the base and the spans of a timeline: three numbers for each span.
pub(crate) fn answer(rt: &impl Print, alloc: Global, bytes: &[u8]) -> io::Result<()> {
    let Ok(text) = str::from_utf8(bytes) else {
        return println!(rt; "no text");
    };
    for words in text.lines() {
        match numbers_of(alloc, words) {
            Ok(numbers) => tell_line(rt, alloc, &numbers)?,
            Err(_) => println!(rt; "not read")?,
        }
    }
    Ok(())
}
