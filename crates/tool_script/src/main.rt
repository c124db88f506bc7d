//! Runs commands at an archive, for the checks and for the benchmark.
//!
//! The arguments of the command line name the archive: `archive FILE` is the archive in that file, which is made if it doesn't exist;
//! `memory` is an archive over SQLite in memory; `shelf` is one without SQL. The program prints `status 0` once the archive is open, or
//! `status 3` if it can't be opened.
//!
//! A command is a line of standard input: the arguments of the program `tacho` without the program's name, and with any text in place of
//! the archive. If the command reads an input, ` < ` and the path of a file follow: `enter - 17 < hours.csv`. Its output is printed as it
//! is, and then a line with its status: `status 2` if the line names no command, or its file can't be read.
//!
//! Two further commands are not those of `tacho`. `own - 17 both < day.ddd` imports a card file for the driver, as the driver does it.
//! `examined - 17 19793` prints what `breaches - 17` prints if the driver's base is the day with that number since 1970-01-01. But it first
//! reads what the driver holds from that day on as one line, and then examines it, so that the two ways can be measured next to each other.
//! With `whole` at the end it reads all that the driver holds.
#![tactic(auto)]

use sqlite::{Alter, Connection};
use std::alloc::{AllocError, Global};
use std::io::{self, BufRead, BufReader, Write};
use std::{env, fs};
use tacho_card::Part;
use tacho_cli::{parse, perform};
use tacho_rules::limits::LATEST;
use tacho_sheet::{Fault, breach_text, fault_line, imported_line};
use tacho_shelf::Shelf;
use tacho_state::{Caller, Keeper, StoreFault, base_of, report_of};
use tacho_store::{Archive, open_memory};
use tacho_tables::opening;
use tacho_time::{Device, Minute};

/// How much of what a driver holds is read to be examined.
#[derive(Clone, Copy)]
enum Extent {
    /// From the base on.
    FromBase,
    /// All of it.
    Whole,
}

/// Splits a line at its blanks, and puts the program's name first.
fn words_of(alloc: Global, line: &str) -> Result<Vec<String>, AllocError> {
    let mut words = Vec::new(alloc);
    words.push(String::from_str(alloc, "tacho")?)?;
    for word in line.split(' ') {
        words.push(String::from_str(alloc, word)?)?;
    }
    Ok(words)
}

/// Prints why a command was refused, and returns the status.
fn refuse(rt: &HostRuntime, fault: StoreFault) -> io::Result<u8> {
    let has_failed = matches!(&fault, StoreFault::Store | StoreFault::Memory);
    print!(rt; "{}", fault_line(Fault::Store(fault)).as_str())?;
    Ok(if has_failed { 3 } else { 1 })
}

/// Imports a card file for a driver, as the driver does it. `words` are the driver's number and the part. Returns the status.
fn import_own<K: Keeper>(
    rt: &HostRuntime,
    keeper: &mut K,
    words: &str,
    file: &[u8],
) -> io::Result<u8> {
    let (driver, part) = match words.split_once(' ') {
        Some((driver, "first")) => (driver, Part::First),
        Some((driver, "second")) => (driver, Part::Second),
        Some((driver, "both")) => (driver, Part::Both),
        _ => return Ok(2),
    };
    let Ok(driver) = driver.parse::<u32>() else {
        return Ok(2);
    };
    match keeper.import(rt.alloc(), Caller::Driver(driver), part, file) {
        Ok(imported) => {
            rt.stdout().write_all(imported_line(imported).as_slice())?;
            Ok(0)
        }
        Err(fault) => refuse(rt, fault),
    }
}

/// The text of a driver's breaches from a day on. Reads one line first, and then examines it.
fn examined<K: Keeper>(
    alloc: Global,
    keeper: &mut K,
    driver: u32,
    day: u32,
    extent: Extent,
) -> Result<String, StoreFault> {
    let Some(base) = base_of(day) else {
        return Err(StoreFault::NotMonday);
    };
    let line = match extent {
        Extent::FromBase => keeper.line_within(alloc, driver, base, Minute::new(LATEST))?,
        Extent::Whole => keeper.line(alloc, driver)?,
    };
    let report = report_of(alloc, &line, day)?;
    Ok(breach_text(alloc, &report)?)
}

/// Prints the breaches of a driver. `words` are the driver's number and the number of a day. Returns the status.
fn tell_examined<K: Keeper>(rt: &HostRuntime, keeper: &mut K, words: &str) -> io::Result<u8> {
    let (words, extent) = match words.strip_suffix(" whole") {
        Some(words) => (words, Extent::Whole),
        None => (words, Extent::FromBase),
    };
    let Some((driver, day)) = words.split_once(' ') else {
        return Ok(2);
    };
    let (Ok(driver), Ok(day)) = (driver.parse::<u32>(), day.parse::<u32>()) else {
        return Ok(2);
    };
    match examined(rt.alloc(), keeper, driver, day, extent) {
        Ok(text) => {
            rt.stdout().write_all(text.as_bytes())?;
            Ok(0)
        }
        Err(fault) => refuse(rt, fault),
    }
}

/// Runs the command of a line, and returns its status.
fn obey<K: Keeper>(rt: &HostRuntime, keeper: &mut K, line: &str) -> io::Result<u8> {
    let (line, path) = line.split_once(" < ").unwrap_or((line, "/dev/null"));
    let input = fs::read(rt, path)?;
    if let Some(words) = line.strip_prefix("own - ") {
        return import_own(rt, keeper, words, &input);
    }
    if let Some(words) = line.strip_prefix("examined - ") {
        return tell_examined(rt, keeper, words);
    }
    let words = words_of(rt.alloc(), line)?;
    let Ok(job) = parse(rt.alloc(), &words) else {
        return Ok(2);
    };
    if !job.at_desk() {
        return Ok(2);
    }
    let mut reader = Device::new(input.as_slice());
    let mut writer = Device::new(rt.stdout());
    Ok(perform(rt.alloc(), job, keeper, &mut reader, &mut writer))
}

/// Runs the commands of standard input, and prints the status of each.
fn obey_all<K: Keeper>(rt: &HostRuntime, keeper: &mut K) -> io::Result<()> {
    println!(rt; "status 0")?;
    for line in BufReader::new(rt.alloc(), rt.reader())?.lines(rt.alloc()) {
        let status = obey(rt, keeper, line?.as_str()).unwrap_or(2);
        println!(rt; "status {status}")?;
    }
    Ok(())
}

/// Runs the commands at an archive.
fn obey_kept<S: Alter + Drop>(rt: &HostRuntime, mut archive: Archive<S>) -> io::Result<()> {
    obey_all(rt, &mut archive)
}

/// Runs the commands at the archive of a connection, or at a new one if there are no tables. Does nothing if neither can be opened.
fn obey_in<S: Alter + Drop>(
    rt: &HostRuntime,
    conn: Connection<S>,
) -> (Option<io::Result<()>>, Connection<S>) {
    if !conn.is_autocommit() {
        return (None, conn);
    }
    let taken = if opening::has_tables(&conn) {
        Archive::adopt(conn)
    } else {
        Archive::create(conn)
    };
    match taken {
        Ok(mut archive) => {
            let done = obey_all(rt, &mut archive);
            (Some(done), archive.close())
        }
        Err(refused) => (None, refused.1),
    }
}

/// Runs the commands at the archive in a file, and closes the file.
fn obey_at(rt: &HostRuntime, path: &str) -> io::Result<()> {
    let conn = match Connection::open_with_sums(rt, path) {
        Ok(conn) => conn,
        Err(_) => return println!(rt; "status 3"),
    };
    let (done, conn) = obey_in(rt, conn);
    let closed = conn.close();
    match done {
        None => println!(rt; "status 3"),
        Some(done) if closed.is_ok() => done,
        Some(_) => println!(rt; "not closed"),
    }
}

fn main(rt: HostRuntime) -> io::Result<()> {
    let words: Vec<String> = env::args(&rt)?.collect(rt.alloc())?;
    match (
        words.get(1).map(String::as_str),
        words.get(2).map(String::as_str),
    ) {
        (Some("archive"), Some(path)) => obey_at(&rt, path),
        (Some("shelf"), None) => obey_all(&rt, &mut Shelf::new(rt.alloc())),
        (Some("memory"), None) => match open_memory(rt.alloc()) {
            Ok(archive) => obey_kept(&rt, archive),
            Err(_) => println!(rt; "status 3"),
        },
        _ => println!(rt; "status 2"),
    }
}
