//! Prints answers of the libraries, for checks that compare them with slow programs in another language. The argument says which answers.
//! With `measure` it does work of the libraries, for the benchmark.
#![tactic(auto)]

mod card;
mod hours;
mod measure;
mod passes;
mod reports;
mod rules;
mod sheet;
mod timeline;
mod years;

use measure::Work;
use std::alloc::Global;
use std::rt::Env;
use std::{env, io};
use tacho_card::Part;
use tacho_time::{Device, read_all};

/// The greatest length of an input in bytes.
const LIMIT: usize = 262_144;

/// What is asked for.
#[derive(Clone, Copy)]
enum Question {
    /// The spans of a part of a card file.
    Card(Part),
    /// The answers of a timeline to commands, one per line.
    Timeline,
    /// The breaches in examined lines, one line of input each, by the passes of `tacho_plain`.
    Rules,
    /// The breaches in examined lines, one line of input each, by a scan.
    Scan,
    /// The reports of timelines, one line of input each.
    Reports,
    /// The hours that a CSV text enters.
    Entries,
    /// The driver that a CSV text registers.
    Driver,
    /// What work came to.
    Measure(Work),
}

/// Returns the question that the first known argument names, or `Timeline` if there is none.
fn asked(rt: &(impl Env + Alloc)) -> io::Result<Question> {
    for word in env::args(rt)? {
        match word.as_str() {
            "both" => return Ok(Question::Card(Part::Both)),
            "first" => return Ok(Question::Card(Part::First)),
            "second" => return Ok(Question::Card(Part::Second)),
            "rules" => return Ok(Question::Rules),
            "scan" => return Ok(Question::Scan),
            "reports" => return Ok(Question::Reports),
            "entries" => return Ok(Question::Entries),
            "driver" => return Ok(Question::Driver),
            "measure" => return Ok(Question::Measure(measure::asked(rt))),
            _ => (),
        }
    }
    Ok(Question::Timeline)
}

/// Answers a question about an input.
fn answer(
    rt: &(impl Env + Alloc + Print),
    alloc: Global,
    question: Question,
    bytes: &[u8],
) -> io::Result<()> {
    match question {
        Question::Card(part) => card::answer(rt, alloc, bytes, part),
        Question::Timeline => timeline::answer(rt, alloc, bytes),
        Question::Rules => rules::answer(rt, alloc, bytes, false),
        Question::Scan => rules::answer(rt, alloc, bytes, true),
        Question::Reports => reports::answer(rt, alloc, bytes),
        Question::Entries => sheet::tell_entries(rt, alloc, bytes),
        Question::Driver => sheet::tell_driver(rt, alloc, bytes),
        Question::Measure(Work::Adding) => measure::tell_added(rt, alloc),
        Question::Measure(Work::Examining(way)) => measure::tell_examined(rt, alloc, way),
        Question::Measure(Work::Reading) => measure::tell_entered(rt, alloc, bytes),
    }
}

/// The greatest length of the input of a question in bytes.
fn limit_of(question: Question) -> usize {
    match question {
        Question::Measure(_) => measure::LIMIT,
        _ => LIMIT,
    }
}

fn main(rt: HostRuntime) -> io::Result<()> {
    let question = asked(&rt)?;
    match read_all(rt.alloc(), &mut Device::new(rt.stdin()), limit_of(question)) {
        Ok(bytes) => answer(&rt, rt.alloc(), question, &bytes),
        Err(_) => println!(rt; "not read"),
    }
}
