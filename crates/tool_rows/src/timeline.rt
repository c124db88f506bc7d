use std::alloc::{AllocError, Global};
use std::{io, str};
use tacho_line::{Line, LineFault};
use tacho_time::{Activity, GREATEST_MINUTE, Mark, Minute, Span};

/// Returns the mark of a number: 0 rest, 1 available, 2 work, 3 drive, plus 4 for crew.
fn mark_of(number: u32) -> Mark {
    let activity = match number % 4 {
        0 => Activity::Rest,
        1 => Activity::Available,
        2 => Activity::Work,
        _ => Activity::Drive,
    };
    Mark {
        activity,
        crew: number / 4 % 2 == 1,
    }
}

/// Returns the number of a mark.
fn number_of(mark: Mark) -> u32 {
    let activity = match mark.activity {
        Activity::Rest => 0,
        Activity::Available => 1,
        Activity::Work => 2,
        Activity::Drive => 3,
    };
    if mark.crew { activity + 4 } else { activity }
}

/// Returns the minute with this number, or the last minute if the number is greater.
pub(crate) fn minute_of(number: u32) -> Minute {
    Minute::new(number.min(GREATEST_MINUTE))
}

/// Returns the numbers among the words of a line.
pub(crate) fn numbers_of(alloc: Global, line: &str) -> Result<Vec<u32>, AllocError> {
    let mut numbers = Vec::new(alloc);
    for word in line.split_whitespace() {
        if let Ok(number) = word.parse::<u32>() {
            numbers.push(number)?;
        }
    }
    Ok(numbers)
}

/// Makes spans from numbers: start, past and mark of each.
pub(crate) fn spans_of(alloc: Global, numbers: &[u32]) -> Result<Vec<Span>, AllocError> {
    let mut spans = Vec::new(alloc);
    for chunk in numbers.chunks(3) {
        if let [start, past, mark] = chunk {
            spans.push(Span {
                start: minute_of(*start),
                past: minute_of(*past),
                mark: mark_of(*mark),
            })?;
        }
    }
    Ok(spans)
}

/// Prints spans as numbers.
fn print_spans(rt: &impl Print, name: &str, spans: &[Span]) -> io::Result<()> {
    print!(rt; "{name}")?;
    for span in spans {
        let (start, past, mark) = (
            span.start.number(),
            span.past.number(),
            number_of(span.mark),
        );
        print!(rt; " {start} {past} {mark}")?;
    }
    println!(rt; "")
}

/// Adds the gains of spans to a line, and returns them.
pub(crate) fn gain(
    alloc: Global,
    line: &mut Line,
    numbers: &[u32],
) -> Result<Vec<Span>, LineFault> {
    let Ok(spans) = spans_of(alloc, numbers) else {
        return Err(LineFault::Memory);
    };
    let gains = line.gains(alloc, &spans)?;
    if line.add(&gains).is_err() {
        return Err(LineFault::Memory);
    }
    Ok(gains)
}

/// Prints the gains of spans, and adds them to a line.
fn tell_gains(rt: &impl Print, alloc: Global, line: &mut Line, numbers: &[u32]) -> io::Result<()> {
    match gain(alloc, line, numbers) {
        Ok(gains) => print_spans(rt, "gains", &gains),
        Err(fault) => println!(rt; "{fault:?}"),
    }
}

/// Prints what a line holds from one minute to before another, the gaps there, the horizon from the first of them, and the mark at it.
fn tell_range(rt: &impl Print, alloc: Global, line: &Line, from: u32, to: u32) -> io::Result<()> {
    let (start, past) = (minute_of(from), minute_of(to));
    match line.slice(alloc, start, past) {
        Ok(spans) => print_spans(rt, "slice", &spans)?,
        Err(_) => println!(rt; "Memory")?,
    }
    match line.gaps(alloc, start, past) {
        Ok(gaps) => {
            print!(rt; "gaps")?;
            for gap in &gaps {
                let (start, past) = (gap.start.number(), gap.past.number());
                print!(rt; " {start} {past}")?;
            }
            println!(rt; "")?;
        }
        Err(_) => println!(rt; "Memory")?,
    }
    let horizon = line.horizon(start);
    println!(rt; "horizon {} {:?}", horizon.minute.number(), horizon.cause)?;
    match line.at(start) {
        Some(mark) => println!(rt; "at {}", number_of(mark)),
        None => println!(rt; "at nothing"),
    }
}

/// Answers commands, one per line: three numbers for each span to be added, or two numbers that ask for a range.
pub(crate) fn answer(rt: &impl Print, alloc: Global, bytes: &[u8]) -> io::Result<()> {
    let mut line = Line::empty(alloc);
    let Ok(text) = str::from_utf8(bytes) else {
        return println!(rt; "no text");
    };
    for command in text.lines() {
        let Ok(numbers) = numbers_of(alloc, command) else {
            println!(rt; "not read")?;
            continue;
        };
        match numbers.as_slice() {
            [from, to] => tell_range(rt, alloc, &line, *from, *to)?,
            others => tell_gains(rt, alloc, &mut line, others)?,
        }
    }
    print_spans(rt, "line", line.spans())
}
