//! Command lines on an archive, and what they write.

use std::alloc::{AllocError, Global};
use std::process::Abort;
use std::test::Fail;
use tacho_cli::{parse, perform};
use tacho_state::Keeper;
use tacho_time::Device;

/// A command line without the names of the program and the archive, its input, what it writes, and its status. If an input or an output
/// begins with `hex:`, it is the bytes that the digits give.
pub(crate) type Command = (&'static str, &'static str, &'static str, u8);

/// What is written if the archive's store fails, and the status.
const STOPPED: (&[u8], u8) = (b"S12 store failed\n", 3);

/// Command lines that read what an archive has of driver 17 in March 2024, and that it has no driver 18.
const READINGS: [&str; 10] = [
    "drivers",
    "entries 17",
    "files 17",
    "spans 17 2024-03",
    "gaps 17 2024-03",
    "sheet 17 2024-03",
    "breaches 17",
    "why 17 2024-03",
    "owed 17",
    "entries 18",
];

/// Command lines that read files.
const FILES: [&str; 4] = ["file 17 1", "file 17 2", "file 17 3", "file 18 1"];

/// The bytes of an input, or of what is written.
fn bytes_of(alloc: Global, text: &str) -> Result<Vec<u8>, Fail> {
    if let Some(digits) = text.strip_prefix("hex:") {
        return Ok(hex::decode(alloc, digits)?);
    }
    let mut bytes = Vec::new(alloc);
    bytes.extend_from_slice(text.as_bytes())?;
    Ok(bytes)
}

/// The arguments of a command line, with the names of the program and the archive.
fn words_of(alloc: Global, line: &str) -> Result<Vec<String>, AllocError> {
    let mut words = Vec::new(alloc);
    words.push(String::from_str(alloc, "tacho")?)?;
    for (place, word) in line.split(' ').enumerate() {
        words.push(String::from_str(alloc, word)?)?;
        if place == 0 {
            words.push(String::from_str(alloc, "a.db")?)?;
        }
    }
    Ok(words)
}

/// What a command line writes, and its status.
fn answer_to<K: Keeper>(
    alloc: Global,
    keeper: &mut K,
    line: &str,
    input: &str,
) -> Result<(Vec<u8>, u8), Fail> {
    let words = words_of(alloc, line)?;
    let job = parse(alloc, &words).map_err(|_| "words that name a job")?;
    if !job.at_desk() {
        return Err("a job at an archive")?;
    }
    let input = bytes_of(alloc, input)?;
    let mut reader = Device::new(input.as_slice());
    let mut writer = Device::new(Vec::new(alloc));
    let status = perform(alloc, job, keeper, &mut reader, &mut writer);
    Ok((writer.into_inner(), status))
}

/// Runs a command line. Returns true if the answer is the expected one, and false if the archive's store failed. Any other answer fails the
/// test.
pub(crate) fn is_answered<K: Keeper>(
    rt: &impl Abort,
    alloc: Global,
    keeper: &mut K,
    row: &str,
    command: Command,
) -> Result<bool, Fail> {
    let (line, input, output, status) = command;
    let (written, answered) = answer_to(alloc, keeper, line, input)?;
    if (written.as_slice(), answered) == STOPPED {
        return Ok(false);
    }
    let wanted = bytes_of(alloc, output)?;
    assert!(rt; written == wanted, "{row}: what {line} writes");
    assert!(rt; answered == status, "{row}: status {answered} of {line}");
    Ok(true)
}

/// Runs command lines, each of which must be answered as expected.
pub(crate) fn take<K: Keeper>(
    rt: &impl Abort,
    alloc: Global,
    keeper: &mut K,
    row: &str,
    commands: &[Command],
) -> Result<(), Fail> {
    for &command in commands {
        let is_answered = is_answered(rt, alloc, keeper, row, command)?;
        assert!(rt; is_answered, "{row}: S12 of {}", command.0);
    }
    Ok(())
}

/// Everything that can be read of an archive: what each reading writes, with its status, and whether a key is driver 17's.
pub(crate) fn told<K: Keeper>(alloc: Global, keeper: &mut K) -> Result<String, Fail> {
    let mut text = String::new(alloc);
    for line in READINGS {
        let (written, status) = answer_to(alloc, keeper, line, "")?;
        let written = String::from_utf8_lossy(alloc, &written)?;
        writeln!(text, "{line}, {status}:\n{written}")?;
    }
    for line in FILES {
        let (file, status) = answer_to(alloc, keeper, line, "")?;
        writeln!(text, "{line}, {status}: {file:?}")?;
    }
    let is_annas = keeper.who(b"anna-key-1")? == Some(17);
    writeln!(text, "anna-key-1: {is_annas}")?;
    Ok(text)
}
