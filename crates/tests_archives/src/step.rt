//! Steps: what an archive is asked to do, and what it has to answer, whatever archive it is.

ghost use Rattle.tacho_state.specs.Registration.{IsReadDay};

use std::alloc::Global;
use std::process::Abort;
use std::test::Fail;
use tacho_card::{CardFault, Part};
use tacho_line::Line;
use tacho_rules::{Cause, Horizon, Kind, Report};
use tacho_sheet::read_entries;
use tacho_state::{Caller, Driver, Entered, Entry, Imported, Keeper, StoreFault, is_key, is_name};
use tacho_stretches::Stretch;
use tacho_time::{Activity, Day, Mark, Minute, Span};

/// Monday 2024-03-04, from which the days of steps are counted.
const MONDAY: u32 = 19_786;

/// A card file's blocks, in hexadecimal digits.
pub(crate) type Blocks = &'static [&'static str];

/// Spans of a driver who is alone: each from a minute to before another one. Minutes are counted from Monday 00:00.
pub(crate) type Pieces = &'static [(u16, u16, Activity)];

/// Whether an entry was withdrawn.
#[derive(Clone, Copy)]
pub(crate) enum Standing {
    /// The entry gives its hours.
    Kept,
    /// The entry was withdrawn.
    Withdrawn,
}

/// Entries of a driver: number, start, past and activity of each, with minutes counted from Monday 00:00.
pub(crate) type Listed = &'static [(u32, u16, u16, Activity, Standing)];

/// Breaches of the rules: the kind and the moment of each, a minute counted from Monday 00:00.
pub(crate) type Breaches = &'static [(Kind, u16)];

/// A stretch: its Monday, its horizon and the cause, the end of the range after it that isn't examined, and the number of breaches. Minutes
/// are counted from Monday 00:00.
pub(crate) type Judged = (u16, u16, Cause, Option<u16>, usize);

/// Why an archive refuses, by code. Minutes are counted from Monday 00:00.
#[derive(Clone, Copy)]
pub(crate) enum Code {
    /// The driver's number is taken.
    S1,
    /// The key is taken.
    S2,
    /// The card's holder is taken.
    S3,
    /// No driver has this number, or the card's holder.
    S4,
    /// The card is another driver's.
    S5,
    /// The least minute that would have two marks.
    S6(u16),
    /// No entry has the number.
    S7,
    /// The entry is withdrawn already.
    S8,
    /// The day isn't a Monday.
    S9,
    /// No download has the number.
    S10,
    /// No number is left.
    S14,
    /// S11: the block at this offset goes past the file's end.
    C1(usize),
    /// S11: the file has no identification.
    C3,
    /// S11: the file has no activity data of the part.
    C6,
    /// S11: the least minute to which the file gives two marks.
    C14(u16),
}

/// What an archive is asked to do, and what it has to answer.
#[derive(Clone, Copy)]
pub(crate) enum Step {
    /// A driver is registered: their number, their card's holder, their key, and how many days after Monday their base is.
    Register(u32, [u8; 15], &'static str, u8, Result<(), Code>),
    /// A file of these blocks, from which this part is read, is added as the driver's download with this number: driver, number.
    Adds(Caller, Part, Blocks, u32, u32),
    /// An import does nothing, because the driver's downloads already give everything.
    Repeats(Caller, Part, Blocks, u32),
    /// An import is refused.
    Refuses(Caller, Part, Blocks, Code),
    /// The hours in a CSV text are entered for a driver. The answer is the first entry's number, and how many there are.
    Enter(u32, &'static str, Result<(u32, u32), Code>),
    /// The entries of a driver from one number to another are withdrawn.
    Withdraw(u32, u32, u32, Result<(), Code>),
    /// A driver's base is set to another day.
    Rebase(u32, u8, Result<(), Code>),
    /// A driver's key is set to another one.
    Rekey(u32, &'static str, Result<(), Code>),
    /// A driver's name is set to another one.
    Rename(u32, &'static str, Result<(), Code>),
    /// A key is of this driver, or of none.
    IsOf(&'static [u8], Option<u32>),
    /// A driver is listed: their number, how many days after Monday their base is, and how many downloads and entries they have.
    IsListed(u32, u8, u32, u32),
    /// A driver has this name.
    HasName(u32, &'static str),
    /// A driver has this key.
    HasKey(u32, &'static str),
    /// A driver's timeline is exactly these spans.
    Holds(u32, Pieces),
    /// A driver's entries are exactly these.
    Lists(u32, Listed),
    /// A driver has a download with this number: a file of these blocks.
    Has(u32, u32, Blocks),
    /// A driver is examined up to this minute, which isn't held, and has exactly these breaches and no debts. Minutes are counted from
    /// Monday 00:00.
    Reports(u32, u16, Breaches),
    /// A driver has exactly these stretches.
    Stretches(u32, &'static [Judged]),
    /// A driver holds exactly these spans in a range, and has exactly these stretches. The range goes from a minute to before another one,
    /// counted from Monday 00:00.
    InRange(u32, (u16, u16), Pieces, &'static [Judged]),
    /// The reading of what is listed of a driver is refused.
    IsNotListed(u32, Code),
    /// The reading of a driver's name is refused.
    HasNoName(u32, Code),
    /// The reading of a driver's key is refused.
    HasNoKey(u32, Code),
    /// The reading of a driver's timeline is refused.
    HasNoLine(u32, Code),
    /// The reading of a driver's entries is refused.
    HasNoEntries(u32, Code),
    /// The reading of a driver's report is refused.
    HasNoReport(u32, Code),
    /// The reading of a driver's stretches is refused.
    HasNoStretches(u32, Code),
    /// The reading of a range and of a driver's stretches is refused.
    HasNoRange(u32, (u16, u16), Code),
    /// The reading of a driver's download with this number is refused.
    Lacks(u32, u32, Code),
}

/// Takes a row's steps, and asserts the answer to each.
pub(crate) fn take<K: Keeper>(
    rt: &impl Abort,
    alloc: Global,
    keeper: &mut K,
    row: &str,
    steps: &[Step],
) -> Result<(), Fail> {
    for (number, &step) in steps.iter().enumerate() {
        let place = format!(in alloc; "{row}, step {number}")?;
        take_one(rt, alloc, keeper, &place, step)?;
    }
    Ok(())
}

/// Takes one step, and asserts its answer.
fn take_one<K: Keeper>(
    rt: &impl Abort,
    alloc: Global,
    keeper: &mut K,
    place: &str,
    step: Step,
) -> Result<(), Fail> {
    match step {
        Step::Register(number, holder, key, day, wanted) => {
            let driver = driver(alloc, number, holder, key, day)?;
            let answer = keeper.register(&driver);
            assert_answered(rt, place, answer, wanted.map_err(refusal_of));
        }
        Step::Adds(caller, part, blocks, driver, number) => {
            let answer = keeper.import(alloc, caller, part, &file(alloc, blocks)?);
            assert_answered(rt, place, answer, Ok(Imported::Added { driver, number }));
        }
        Step::Repeats(caller, part, blocks, driver) => {
            let answer = keeper.import(alloc, caller, part, &file(alloc, blocks)?);
            assert_answered(rt, place, answer, Ok(Imported::Repeated { driver }));
        }
        Step::Refuses(caller, part, blocks, code) => {
            let answer = keeper.import(alloc, caller, part, &file(alloc, blocks)?);
            assert_answered(rt, place, answer, Err(refusal_of(code)));
        }
        Step::Enter(driver, text, wanted) => {
            let lines = read_entries(alloc, text.as_bytes())?;
            let answer = keeper.enter(alloc, driver, &lines);
            assert_answered(rt, place, answer, entered(wanted));
        }
        Step::Withdraw(driver, first, last, wanted) => {
            assert!(rt; first <= last, "{place}: the numbers");
            let answer = keeper.withdraw(alloc, driver, first, last);
            assert_answered(rt, place, answer, wanted.map_err(refusal_of));
        }
        Step::Rebase(driver, day, wanted) => {
            let answer = keeper.rebase(driver, day_of(day));
            assert_answered(rt, place, answer, wanted.map_err(refusal_of));
        }
        Step::Rekey(driver, key, wanted) => {
            assert!(rt; is_key(key), "{place}: the key");
            let answer = keeper.rekey(driver, key);
            assert_answered(rt, place, answer, wanted.map_err(refusal_of));
        }
        Step::Rename(driver, name, wanted) => {
            assert!(rt; is_name(name), "{place}: the name");
            let answer = keeper.rename(driver, name);
            assert_answered(rt, place, answer, wanted.map_err(refusal_of));
        }
        reading => take_reading(rt, alloc, keeper, place, reading)?,
    }
    Ok(())
}

/// Takes a step that reads, and asserts what is read.
fn take_reading<K: Keeper>(
    rt: &impl Abort,
    alloc: Global,
    keeper: &mut K,
    place: &str,
    step: Step,
) -> Result<(), Fail> {
    match step {
        Step::IsOf(key, wanted) => {
            assert!(rt; keeper.who(key)? == wanted, "{place}");
        }
        Step::IsListed(driver, day, downloads, entries) => {
            let found = keeper.driver(alloc, driver)?;
            let listed = (found.number, found.base, found.downloads, found.entries);
            assert!(rt;
                listed == (driver, day_of(day), downloads, entries),
                "{place}"
            );
        }
        Step::HasName(driver, name) => {
            assert!(rt; keeper.name(alloc, driver)?.as_str() == name, "{place}");
        }
        Step::HasKey(driver, key) => {
            assert!(rt; keeper.key(alloc, driver)?.as_str() == key, "{place}");
        }
        Step::Holds(driver, pieces) => {
            assert_held(rt, alloc, place, &keeper.line(alloc, driver)?, pieces)?;
        }
        Step::Lists(driver, listed) => {
            assert_listed(rt, place, &keeper.entries(alloc, driver)?, listed);
        }
        Step::Has(driver, number, blocks) => {
            assert_read(
                rt,
                alloc,
                place,
                &keeper.download(alloc, driver, number)?,
                blocks,
            )?;
        }
        Step::Reports(driver, until, breaches) => {
            let report = keeper.report(alloc, driver)?;
            assert_reported(rt, alloc, place, &report, until, breaches)?;
        }
        Step::Stretches(driver, judged) => {
            assert_judged(rt, place, &keeper.stretches(alloc, driver)?, judged);
            let (_, found) = keeper.line_and_stretches_from_base(alloc, driver)?;
            assert_judged(rt, place, &found, judged);
        }
        Step::InRange(driver, range, pieces, judged) => {
            let (start, past) = range_of(range);
            let (line, found) = keeper.line_and_stretches(alloc, driver, start, past)?;
            assert_held_within(rt, alloc, place, &line, (start, past), pieces)?;
            assert_judged(rt, place, &found, judged);
        }
        reading => take_refused(rt, alloc, keeper, place, reading)?,
    }
    Ok(())
}

/// Takes a step that reads, and asserts that it is refused.
fn take_refused<K: Keeper>(
    rt: &impl Abort,
    alloc: Global,
    keeper: &mut K,
    place: &str,
    step: Step,
) -> Result<(), Fail> {
    match step {
        Step::IsNotListed(driver, code) => {
            assert_refused(rt, place, keeper.driver(alloc, driver).err(), code);
        }
        Step::HasNoName(driver, code) => {
            assert_refused(rt, place, keeper.name(alloc, driver).err(), code);
        }
        Step::HasNoKey(driver, code) => {
            assert_refused(rt, place, keeper.key(alloc, driver).err(), code);
        }
        Step::HasNoLine(driver, code) => {
            assert_refused(rt, place, keeper.line(alloc, driver).err(), code);
        }
        Step::HasNoEntries(driver, code) => {
            assert_refused(rt, place, keeper.entries(alloc, driver).err(), code);
        }
        Step::HasNoReport(driver, code) => {
            assert_refused(rt, place, keeper.report(alloc, driver).err(), code);
        }
        Step::HasNoStretches(driver, code) => {
            assert_refused(rt, place, keeper.stretches(alloc, driver).err(), code);
            let found = keeper.line_and_stretches_from_base(alloc, driver);
            assert_refused(rt, place, found.err(), code);
        }
        Step::HasNoRange(driver, range, code) => {
            let (start, past) = range_of(range);
            let found = keeper.line_and_stretches(alloc, driver, start, past);
            assert_refused(rt, place, found.err(), code);
        }
        Step::Lacks(driver, number, code) => {
            let found = keeper.download(alloc, driver, number);
            assert_refused(rt, place, found.err(), code);
        }
        _ => Err("a step that is taken already")?,
    }
    Ok(())
}

/// Asserts that a command was answered as expected.
fn assert_answered<T: PartialEq + Drop>(
    rt: &impl Abort,
    place: &str,
    answer: Result<T, StoreFault>,
    wanted: Result<T, StoreFault>,
) {
    assert!(rt; answer == wanted, "{place}");
}

/// Returns the expected answer of a batch, from the number of the first entry and how many there are.
fn entered(wanted: Result<(u32, u32), Code>) -> Result<Entered, StoreFault> {
    match wanted {
        Ok((first, count)) => Ok(Entered { first, count }),
        Err(code) => Err(refusal_of(code)),
    }
}

/// Asserts that a timeline has exactly these pieces.
fn assert_held(
    rt: &impl Abort,
    alloc: Global,
    place: &str,
    line: &Line,
    pieces: Pieces,
) -> Result<(), Fail> {
    let spans = spans_of(alloc, pieces)?;
    assert!(rt; line.spans() == spans.as_slice(), "{place}");
    Ok(())
}

/// Asserts that a timeline has exactly these pieces from a minute to before another one.
fn assert_held_within(
    rt: &impl Abort,
    alloc: Global,
    place: &str,
    line: &Line,
    range: (Minute, Minute),
    pieces: Pieces,
) -> Result<(), Fail> {
    let held = line.slice(alloc, range.0, range.1)?;
    let spans = spans_of(alloc, pieces)?;
    assert!(rt; held.as_slice() == spans.as_slice(), "{place}");
    Ok(())
}

/// Asserts that entries are those of a list.
fn assert_listed(rt: &impl Abort, place: &str, found: &[Entry], listed: Listed) {
    assert!(rt; found.len() == listed.len(), "{place}");
    for (entry, wanted) in found.iter().zip(listed) {
        assert!(rt; is_listed(entry, *wanted), "{place}");
    }
}

/// True if an entry is this one of a list, the office is its author, and its note is empty.
fn is_listed(entry: &Entry, wanted: (u32, u16, u16, Activity, Standing)) -> bool {
    let (number, start, past, activity, standing) = wanted;
    let line = &entry.line;
    entry.number == number
        && entry.withdrawn == matches!(standing, Standing::Withdrawn)
        && (line.start(), line.past()) == (minute_of(start), minute_of(past))
        && line.activity() == activity
        && (line.author(), line.note()) == ("office", "")
}

/// Asserts that a download is a file of these blocks.
fn assert_read(
    rt: &impl Abort,
    alloc: Global,
    place: &str,
    found: &[u8],
    blocks: Blocks,
) -> Result<(), Fail> {
    let file = file(alloc, blocks)?;
    assert!(rt; found == file.as_slice(), "{place}");
    Ok(())
}

/// Asserts that a report ends at a minute that isn't held, and has these breaches and no debts.
fn assert_reported(
    rt: &impl Abort,
    alloc: Global,
    place: &str,
    report: &Report,
    until: u16,
    breaches: Breaches,
) -> Result<(), Fail> {
    let horizon = Horizon {
        minute: minute_of(until),
        cause: Cause::Unknown,
    };
    assert!(rt; report.horizon == horizon, "{place}");
    let mut found = Vec::new(alloc);
    for breach in &report.breaches {
        found.push((breach.kind, breach.moment))?;
    }
    let wanted = moments_of(alloc, breaches)?;
    assert!(rt; found.as_slice() == wanted.as_slice(), "{place}");
    assert!(rt; report.debts.is_empty(), "{place}");
    Ok(())
}

/// Asserts that stretches are those of a list.
fn assert_judged(rt: &impl Abort, place: &str, found: &[Stretch], judged: &[Judged]) {
    assert!(rt; found.len() == judged.len(), "{place}");
    for (stretch, wanted) in found.iter().zip(judged) {
        assert!(rt; is_judged(stretch, *wanted), "{place}");
    }
}

/// True if a stretch is this one of a list.
fn is_judged(stretch: &Stretch, wanted: Judged) -> bool {
    let (monday, until, cause, unseen, breaches) = wanted;
    let horizon = Horizon {
        minute: minute_of(until),
        cause,
    };
    stretch.monday == minute_of(monday)
        && stretch.report.horizon == horizon
        && stretch.report.breaches.len() == breaches
        && stretch.unseen == unseen.map(minute_of)
}

/// Returns the kinds and the moments of breaches.
fn moments_of(alloc: Global, breaches: Breaches) -> Result<Vec<(Kind, Minute)>, Fail> {
    let mut moments = Vec::new(alloc);
    for &(kind, moment) in breaches {
        moments.push((kind, minute_of(moment)))?;
    }
    Ok(moments)
}

/// Asserts that a reading was refused with this code.
fn assert_refused(rt: &impl Abort, place: &str, fault: Option<StoreFault>, code: Code) {
    assert!(rt; fault == Some(refusal_of(code)), "{place}");
}

/// Makes a driver's registration. The name contains the number.
fn driver(
    alloc: Global,
    number: u32,
    holder: [u8; 15],
    key: &str,
    day: u8,
) -> Result<Driver, Fail> {
    let key = String::from_str(alloc, key)?;
    let name = format!(in alloc; "Driver {number}")?;
    Ok(Driver::new(number, holder, key, day_of(day), name)?)
}

/// Returns the bytes of blocks.
pub(crate) fn file(alloc: Global, blocks: &[&str]) -> Result<Vec<u8>, Fail> {
    let mut bytes = Vec::new(alloc);
    for block in blocks {
        bytes.extend_from_slice(&hex::decode(alloc, *block)?)?;
    }
    Ok(bytes)
}

/// Returns the spans of pieces.
fn spans_of(alloc: Global, pieces: Pieces) -> Result<Vec<Span>, Fail> {
    let mut spans = Vec::new(alloc);
    for &(start, past, activity) in pieces {
        spans.push(Span {
            start: minute_of(start),
            past: minute_of(past),
            mark: Mark {
                activity,
                crew: false,
            },
        })?;
    }
    Ok(spans)
}

/// Returns the refusal with this code.
fn refusal_of(code: Code) -> StoreFault {
    match code {
        Code::S1 => StoreFault::DriverTaken,
        Code::S2 => StoreFault::KeyTaken,
        Code::S3 => StoreFault::HolderTaken,
        Code::S4 => StoreFault::UnknownDriver,
        Code::S5 => StoreFault::NotYourCard,
        Code::S6(minute) => StoreFault::Contradiction(minute_of(minute)),
        Code::S7 => StoreFault::UnknownEntry,
        Code::S8 => StoreFault::AlreadyWithdrawn,
        Code::S9 => StoreFault::NotMonday,
        Code::S10 => StoreFault::UnknownDownload,
        Code::S14 => StoreFault::Full,
        Code::C1(offset) => StoreFault::Card(CardFault::Truncated(offset)),
        Code::C3 => StoreFault::Card(CardFault::NoIdentification),
        Code::C6 => StoreFault::Card(CardFault::NoActivity),
        Code::C14(minute) => StoreFault::Card(CardFault::SelfContradiction(minute_of(minute))),
    }
}

/// Returns the range between two minutes that are counted from Monday 00:00.
fn range_of(range: (u16, u16)) -> (Minute, Minute) {
    (minute_of(range.0), minute_of(range.1))
}

/// Returns the minute that is this many minutes after Monday 00:00.
fn minute_of(minutes: u16) -> Minute {
    Minute::new(MONDAY * 1440 + u32::from(minutes))
}

/// Returns the day that is this many days after Monday.
pub fn day_of(days: u8) -> Day
    ensures { IsReadDay result }
{
    Day::new(MONDAY + u32::from(days))
}
