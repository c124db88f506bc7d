//! Readers and writers that fail at each of their calls: what is answered, and what is kept. Each is tried twice: alone, and as a stream of
//! std in a device.

ghost use Rattle.std.specs.Prelude.{◌≡◌, false};

use crate::desk;
use crate::faulty::{Faulty, Quirk, Stream};
use crate::requests::{CASES, Case, OFFICE, archive, archive_after, ask, holds, reply_with, same};
use std::alloc::Global;
use std::process::Abort;
use std::test::Fail;
use tacho_cli::{DeskJob, Job};
use tacho_desk::{Reading, Want, Wish};
use tacho_http::{IoFault, Served, answer};
use tacho_shelf::Shelf;
use tacho_state::Keeper;
use tacho_time::{Device, Sink, Source};

/// The drivers of an archive, and the entries and the timeline of driver 17, if that driver exists.
fn told(alloc: Global, shelf: &mut Shelf) -> Result<String, Fail> {
    let mut text = String::new(alloc);
    let drivers = shelf.drivers(alloc)?;
    for driver in drivers.iter() {
        writeln!(text, "{driver:?}")?;
    }
    let Ok(entries) = shelf.entries(alloc, 17) else {
        return Ok(text);
    };
    for entry in entries.iter() {
        writeln!(text, "{entry:?}")?;
    }
    let line = shelf.line(alloc, 17)?;
    for span in line.spans() {
        writeln!(text, "{span:?}")?;
    }
    Ok(text)
}

/// Fails the test if the contents of two archives differ.
fn alike(
    rt: &impl Abort,
    alloc: Global,
    row: &str,
    call: usize,
    shelf: &mut Shelf,
    mut wanted: Shelf,
) -> Result<(), Fail> {
    let found = told(alloc, shelf)?;
    let wanted = told(alloc, &mut wanted)?;
    same(rt, row, call, found.as_bytes(), wanted.as_bytes());
    Ok(())
}

/// Makes the request of a case, whose reader fails at a call. Nothing is written, the archive is as it was before, and the request can be
/// made again.
fn fail_to_read<R: Source>(
    rt: &impl Abort,
    alloc: Global,
    place: usize,
    case: Case,
    call: usize,
    reader: &mut R,
) -> Result<(), Fail>
    requires { R.has_failed reader.old ≡ false }
{
    let (request, wanted, _) = case;
    let row = format!(in alloc; "case {place}, failing read")?;
    let mut shelf = archive_after(alloc, place)?;
    let mut writer = Device::new(Vec::new(alloc));
    let result = answer(alloc, &mut shelf, OFFICE, reader, &mut writer);
    holds(rt, &row, call, matches!(result, Err(IoFault::Read)));
    same(rt, &row, call, &writer.into_inner(), b"");
    alike(
        rt,
        alloc,
        &row,
        call,
        &mut shelf,
        archive_after(alloc, place)?,
    )?;
    same(rt, &row, call, &ask(alloc, &mut shelf, request)?, wanted);
    Ok(())
}

/// Makes the request of a case, which is acted on whether or not its reply is written.
fn act<R: Source, W: Sink>(
    rt: &impl Abort,
    alloc: Global,
    place: usize,
    case: Case,
    call: usize,
    reader: &mut R,
    writer: &mut W,
) -> Result<Result<Served, IoFault>, Fail>
    requires reader { R.has_failed reader.old ≡ false }
    requires writer { W.has_failed writer.old ≡ false }
{
    let (request, _, again) = case;
    let row = format!(in alloc; "case {place}, call")?;
    let mut shelf = archive_after(alloc, place)?;
    let result = answer(alloc, &mut shelf, OFFICE, reader, writer);
    let wanted = archive_after(alloc, place.saturating_add(1))?;
    alike(rt, alloc, &row, call, &mut shelf, wanted)?;
    same(rt, &row, call, &ask(alloc, &mut shelf, request)?, again);
    Ok(result)
}

/// Fails the test unless the whole reply was written, or, by a writer that failed, a prefix of it.
fn begins(
    rt: &impl Abort,
    place: usize,
    call: usize,
    outcome: Result<Served, IoFault>,
    written: &[u8],
    reply: &[u8],
) {
    let is_whole = written.len() == reply.len();
    let is_told = match outcome {
        Ok(_) => is_whole,
        Err(fault) => fault == IoFault::Write && !is_whole,
    };
    assert!(rt;
        is_told && reply.starts_with(written),
        "case {place}, failing write {call}"
    );
}

#[test]
fn a_failed_reader_changes_nothing(rt: HostRuntime) -> Result<(), Fail> {
    let alloc = rt.alloc();
    for (place, &case) in CASES.iter().enumerate() {
        let (request, wanted, _) = case;
        // Each group of seven bytes needs a call, and no call is made after them.
        let needed = request.len().div_ceil(7);
        for call in 0..needed {
            let mut reader = Faulty::new(alloc, request, 7, call);
            fail_to_read(&rt, alloc, place, case, call, &mut reader)?;
            let mut reader = Device::new(Stream::new(alloc, request, 7, Quirk::Fails, call));
            fail_to_read(&rt, alloc, place, case, call, &mut reader)?;
            // The stream would have continued after that call.
            holds(&rt, "calls", call, reader.into_inner().calls == call + 1);
        }
        let mut reader = Faulty::new(alloc, request, 7, needed);
        let mut writer = Device::new(Vec::new(alloc));
        let result = act(&rt, alloc, place, case, needed, &mut reader, &mut writer)?;
        begins(&rt, place, needed, result, &writer.into_inner(), wanted);
        holds(&rt, "calls", needed, result.is_ok());
    }
    Ok(())
}

/// Requests whose heads are refused, each with a body: the request line, the key, the field for the body's length, and the status and the
/// text of the reply.
static REFUSED_HEADS: [(&str, &str, &str, &str, &str); 6] = [
    (
        "POST /drivers/17/withdraw/1",
        "office-key-1",
        "content-length: 1",
        "400 Bad Request",
        "bad request\n",
    ),
    (
        "POST /drivers/17/entries",
        "nobodys-key-1",
        "content-length: 5",
        "403 Forbidden",
        "forbidden\n",
    ),
    (
        "POST /drivers/17/entries",
        "anna-key-1",
        "content-length: 5",
        "403 Forbidden",
        "forbidden\n",
    ),
    (
        "POST /nothing",
        "office-key-1",
        "content-length: 5",
        "404 Not Found",
        "not found\n",
    ),
    (
        "PUT /drivers/17/entries",
        "office-key-1",
        "content-length: 5",
        "405 Method Not Allowed",
        "method not allowed\n",
    ),
    (
        "POST /drivers/17/entries",
        "office-key-1",
        "content-length: 262145",
        "413 Payload Too Large",
        "too large\n",
    ),
];

#[test]
fn the_body_of_a_refused_head_is_not_asked_for(rt: HostRuntime) -> Result<(), Fail> {
    let alloc = rt.alloc();
    for (place, (line, key, length, status, text)) in REFUSED_HEADS.iter().enumerate() {
        let head = format!(in alloc; "{line} HTTP/1.1\r\nx-key: {key}\r\n{length}\r\n\r\n")?;
        // One byte per call; the first call after the head fails.
        let mut reader = Faulty::new(alloc, head.as_bytes(), 1, head.len());
        let mut writer = Device::new(Vec::new(alloc));
        let mut shelf = archive(alloc)?;
        let result = answer(alloc, &mut shelf, OFFICE, &mut reader, &mut writer);
        holds(&rt, line, place, result.is_ok());
        let wanted = reply_with(alloc, status, text)?;
        same(&rt, line, place, &writer.into_inner(), wanted.as_bytes());
    }
    Ok(())
}

#[test]
fn a_failed_writer_has_a_beginning(rt: HostRuntime) -> Result<(), Fail> {
    let alloc = rt.alloc();
    for (place, &case) in CASES.iter().enumerate() {
        let (request, wanted, _) = case;
        // Each call takes five bytes, or fewer at the end of the reply's head and at the end of its body.
        let most = wanted.len().div_ceil(5) + 1;
        for call in 0..most + 1 {
            let mut writer = Faulty::new(alloc, b"", 5, call);
            let mut reader = Device::new(request);
            let result = act(&rt, alloc, place, case, call, &mut reader, &mut writer)?;
            begins(&rt, place, call, result, &writer.written, wanted);
            holds(&rt, "calls", call, call < most || result.is_ok());
        }
    }
    Ok(())
}

#[test]
fn a_failed_stream_has_a_beginning(rt: HostRuntime) -> Result<(), Fail> {
    let alloc = rt.alloc();
    for (place, &case) in CASES.iter().enumerate() {
        let (request, wanted, _) = case;
        let most = wanted.len().div_ceil(5) + 1;
        for call in 0..most + 1 {
            for quirk in [Quirk::Fails, Quirk::MovesNone] {
                let mut writer = Device::new(Stream::new(alloc, b"", 5, quirk, call));
                let mut reader = Device::new(request);
                let result = act(&rt, alloc, place, case, call, &mut reader, &mut writer)?;
                let stream = writer.into_inner();
                begins(&rt, place, call, result, &stream.written, wanted);
                // The stream would have continued after that call.
                holds(
                    &rt,
                    "calls",
                    call,
                    result.is_ok() || stream.calls == call + 1,
                );
                holds(&rt, "calls", call, result.is_err() || stream.calls <= call);
                holds(&rt, "calls", call, call < most || result.is_ok());
            }
        }
    }
    Ok(())
}

#[test]
fn short_calls_go_on(rt: HostRuntime) -> Result<(), Fail> {
    let alloc = rt.alloc();
    for (place, &case) in CASES.iter().enumerate() {
        let (request, wanted, _) = case;
        for call in 0..request.len().div_ceil(7).max(wanted.len().div_ceil(5)) {
            let mut reader = Device::new(Stream::new(alloc, request, 7, Quirk::MovesOne, call));
            let mut writer = Device::new(Stream::new(alloc, b"", 5, Quirk::MovesOne, call));
            let result = act(&rt, alloc, place, case, call, &mut reader, &mut writer)?;
            begins(
                &rt,
                place,
                call,
                result,
                &writer.into_inner().written,
                wanted,
            );
            holds(&rt, "short call", call, result.is_ok());
        }
    }
    Ok(())
}

/// A job at an archive after the cases of jobs, its text, and its text when it is done again.
type Printed = (Job<'static>, &'static [u8], &'static [u8]);

/// Jobs that print what is kept, and one that changes the archive.
static BEHIND: [Printed; 5] = [
    (
        Job::AtDesk(DeskJob {
            archive: "a.db",
            wish: Wish {
                want: Want::Reading(Reading::Breaches),
                driver: b"17",
                word: b"",
                next: b"",
            },
        }),
        b"B1 Art 7 at 2024-03-04 13:00 since 2024-03-04 08:30 amount 240\nEXAMINED TO 2024-03-04 17:00 unknown\n",
        b"B1 Art 7 at 2024-03-04 13:00 since 2024-03-04 08:30 amount 240\nEXAMINED TO 2024-03-04 17:00 unknown\n",
    ),
    (
        Job::AtDesk(DeskJob {
            archive: "a.db",
            wish: Wish {
                want: Want::Reading(Reading::Entries),
                driver: b"17",
                word: b"",
                next: b"",
            },
        }),
        b"1 2024-03-06 00:00 2024-03-06 08:00 rest kept \"office\" \"\"\n",
        b"1 2024-03-06 00:00 2024-03-06 08:00 rest kept \"office\" \"\"\n",
    ),
    (
        Job::AtDesk(DeskJob {
            archive: "a.db",
            wish: Wish {
                want: Want::File,
                driver: b"17",
                word: b"1",
                next: b"",
            },
        }),
        b"\x05\x20\x00\x00\x11\x0dD123456789012300\x05\x04\x00\x00\x28\x00\x00\x00\x14\x00\x00\x00\x14\x65\xe5\x0f\x00\x00\x01\x00\x64\x00\x00\x11\xe0\x19\xfe\x23\xfc\x00\x14\x00\x10\x65\xe6\x60\x80\x00\x02\x00\x00\x00\x00\x11\xe0",
        b"\x05\x20\x00\x00\x11\x0dD123456789012300\x05\x04\x00\x00\x28\x00\x00\x00\x14\x00\x00\x00\x14\x65\xe5\x0f\x00\x00\x01\x00\x64\x00\x00\x11\xe0\x19\xfe\x23\xfc\x00\x14\x00\x10\x65\xe6\x60\x80\x00\x02\x00\x00\x00\x00\x11\xe0",
    ),
    (
        Job::AtDesk(DeskJob {
            archive: "a.db",
            wish: Wish {
                want: Want::Drivers,
                driver: b"",
                word: b"",
                next: b"",
            },
        }),
        b"17 0d4431323334353637383930313233 2024-03-04 1 1 Anna Lind\n",
        b"17 0d4431323334353637383930313233 2024-03-04 1 1 Anna Lind\n",
    ),
    (
        Job::AtDesk(DeskJob {
            archive: "a.db",
            wish: Wish {
                want: Want::Withdraw,
                driver: b"17",
                word: b"1",
                next: b"",
            },
        }),
        b"withdrawn 1\n",
        b"S8 already withdrawn\n",
    ),
];

/// Does a job at an archive after `count` cases of jobs. The writer has a quirk at each of its calls in turn. The job is done in any case.
fn write_by_jobs(
    rt: &impl Abort,
    alloc: Global,
    count: usize,
    job: Job<'static>,
    input: &[u8],
    text: &[u8],
    again: &[u8],
) -> Result<(), Fail> {
    let row = format!(in alloc; "{job:?}, call")?;
    // Each group of five bytes needs a call.
    let needed = text.len().div_ceil(5);
    for call in 0..needed + 1 {
        for quirk in [Quirk::Fails, Quirk::MovesNone, Quirk::MovesOne] {
            let mut shelf = desk::archive_after(alloc, count)?;
            let mut reader = Device::new(input);
            let mut writer = Device::new(Stream::new(alloc, b"", 5, quirk, call));
            let status = desk::performed(alloc, &mut shelf, job, &mut reader, &mut writer)?;
            let is_whole = call == needed || matches!(quirk, Quirk::MovesOne);
            let length = if is_whole { text.len() } else { 5 * call };
            let wanted = text.iter().take(length).copied();
            let stream = writer.into_inner();
            holds(rt, &row, call, wanted.eq(stream.written.iter().copied()));
            holds(rt, &row, call, status == if is_whole { 0 } else { 3 });
            // The stream would have continued after that call.
            holds(rt, &row, call, is_whole || stream.calls == call + 1);
            let (written, _) = desk::answer(alloc, &mut shelf, job, input)?;
            same(rt, &row, call, &written, again);
        }
    }
    Ok(())
}

#[test]
fn jobs_have_acted_where_a_stream_fails(rt: HostRuntime) -> Result<(), Fail> {
    let alloc = rt.alloc();
    for (place, (job, input, text, again)) in desk::CASES.iter().enumerate() {
        let (text, again) = (text.as_bytes(), again.as_bytes());
        write_by_jobs(&rt, alloc, place, *job, input, text, again)?;
    }
    for (job, text, again) in BEHIND.iter() {
        write_by_jobs(&rt, alloc, desk::CASES.len(), *job, b"", text, again)?;
    }
    Ok(())
}

#[test]
fn jobs_change_nothing_where_a_stream_is_not_read(rt: HostRuntime) -> Result<(), Fail> {
    let alloc = rt.alloc();
    for (place, (job, input, text, _)) in desk::CASES.iter().enumerate() {
        let row = format!(in alloc; "{job:?}, call")?;
        // Each group of seven bytes needs a call, and the end needs one more.
        for call in 0..input.len().div_ceil(7) + 1 {
            let mut shelf = desk::archive_after(alloc, place)?;
            let mut reader = Device::new(Stream::new(alloc, input, 7, Quirk::Fails, call));
            let mut writer = Device::new(Vec::new(alloc));
            let status = desk::performed(alloc, &mut shelf, *job, &mut reader, &mut writer)?;
            holds(&rt, &row, call, status == 3);
            same(&rt, &row, call, &writer.into_inner(), b"X2 device failed\n");
            // The stream would have continued after that call.
            holds(&rt, &row, call, reader.into_inner().calls == call + 1);
            let before = desk::archive_after(alloc, place)?;
            alike(&rt, alloc, &row, call, &mut shelf, before)?;
            let (written, status) = desk::answer(alloc, &mut shelf, *job, input)?;
            same(&rt, &row, call, &written, text.as_bytes());
            holds(&rt, &row, call, status == 0);
        }
    }
    Ok(())
}

#[test]
fn jobs_read_on_where_a_stream_gives_one_byte(rt: HostRuntime) -> Result<(), Fail> {
    let alloc = rt.alloc();
    for (place, (job, input, text, _)) in desk::CASES.iter().enumerate() {
        let row = format!(in alloc; "{job:?}, call")?;
        for call in 0..input.len().div_ceil(7) {
            let mut shelf = desk::archive_after(alloc, place)?;
            let mut reader = Device::new(Stream::new(alloc, input, 7, Quirk::MovesOne, call));
            let mut writer = Device::new(Vec::new(alloc));
            let status = desk::performed(alloc, &mut shelf, *job, &mut reader, &mut writer)?;
            same(&rt, &row, call, &writer.into_inner(), text.as_bytes());
            holds(&rt, &row, call, status == 0);
        }
    }
    Ok(())
}
