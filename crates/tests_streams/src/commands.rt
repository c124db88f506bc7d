use crate::faulty::Faulty;
use crate::same::assert_same;
use std::alloc::{AllocError, Global};
use std::process::Abort;
use std::test::Fail;
use tacho_cli::{
    Asked, DeskJob, Job, Usage, asked_early, card, dump, help_of, help_text, holder, parse,
};
use tacho_desk::{MonthOfAll, MonthReading, Reading, Want, Wish};
use tacho_time::{Device, Source};

/// Two days: rest, work and drive on 4 March 2024, and rest on the 5th, whose last word is still open.
const TWO_DAYS: &str =
    "00000014 0000001465e50f0000010064000011e019fe23fc 0014001065e6608000020000000011e0";

const TWO_DAYS_LINES: &str = "\
2024-03-04 00:00 2024-03-04 08:00 rest single
2024-03-04 08:00 2024-03-04 08:30 work single
2024-03-04 08:30 2024-03-04 17:00 drive single
2024-03-05 00:00 2024-03-05 08:00 rest single
";

const ONE_REST: &str = "2024-03-04 00:00 2024-03-04 08:00 rest single\n";

/// The bytes that hexadecimal digits give; blanks are ignored.
fn bytes_of(rt: &impl Abort, alloc: Global, digits: &str) -> Vec<u8> {
    let mut bytes = Vec::new(alloc);
    let mut high = None;
    for digit in digits.chars() {
        let Some(value) = digit.to_digit(16) else {
            continue;
        };
        match high {
            None => high = Some(value),
            Some(first) => {
                let byte = (first % 16 * 16 + value % 16) as u8;
                bytes.push(byte).expect(rt, "memory");
                high = None;
            }
        }
    }
    bytes
}

/// What `dump` writes for an input in memory, and its status.
fn dumped(alloc: Global, input: &[u8]) -> (Vec<u8>, u8) {
    let mut reader = Device::new(input);
    let mut writer = Device::new(Vec::new(alloc));
    let status = dump(alloc, &mut reader, &mut writer);
    (writer.into_inner(), status)
}

#[test]
fn inputs_have_a_limit(rt: HostRuntime) -> Result<(), Fail> {
    let mut input = vec![in rt.alloc(); 0u8; 65_535]?;
    let (text, status) = dumped(rt.alloc(), &input);
    assert_same(&rt, text.as_slice(), b"".as_slice());
    assert_same(&rt, status, 0);
    input.push(0)?;
    let (text, status) = dumped(rt.alloc(), &input);
    assert_same(&rt, text.as_slice(), b"X1 too large\n".as_slice());
    assert_same(&rt, status, 1);

    let mut file = bytes_of(&rt, rt.alloc(), IDENTIFICATION);
    file.resize(262_144, 0)?;
    let (text, status) = held(rt.alloc(), &file);
    assert_same(
        &rt,
        text.as_slice(),
        b"C1 truncated block at 262142\n".as_slice(),
    );
    assert_same(&rt, status, 1);
    let (text, status) = listed(rt.alloc(), "both", &file);
    assert_same(
        &rt,
        text.as_slice(),
        b"C1 truncated block at 262142\n".as_slice(),
    );
    assert_same(&rt, status, 1);
    file.push(0)?;
    let (text, status) = listed(rt.alloc(), "both", &file);
    assert_same(&rt, text.as_slice(), b"X1 too large\n".as_slice());
    assert_same(&rt, status, 1);
    let (text, status) = held(rt.alloc(), &file);
    assert_same(&rt, text.as_slice(), b"X1 too large\n".as_slice());
    assert_same(&rt, status, 1);
    Ok(())
}

/// The identification of a card, in its block: `D1234567890123`, and two indices.
const IDENTIFICATION: &str = "05200000110d44313233343536373839303132333030";

const HOLDER_LINE: &str = "0d4431323334353637383930313233\n";

/// What `holder` writes for an input in memory, and its status.
fn held(alloc: Global, input: &[u8]) -> (Vec<u8>, u8) {
    let mut reader = Device::new(input);
    let mut writer = Device::new(Vec::new(alloc));
    let status = holder(alloc, &mut reader, &mut writer);
    (writer.into_inner(), status)
}

/// What `card` writes for an input in memory, read by the part with this name, and its status.
fn listed(alloc: Global, part: &str, input: &[u8]) -> (Vec<u8>, u8) {
    let mut reader = Device::new(input);
    let mut writer = Device::new(Vec::new(alloc));
    let status = card(alloc, part, &mut reader, &mut writer);
    (writer.into_inner(), status)
}

/// Two days in the block of the first generation; and then 4 March in that block, and 5 March in the block of the second generation.
const TWO_DAYS_IN_ONE: &str =
    "0504000028 00000014 0000001465e50f0000010064000011e019fe23fc 0014001065e6608000020000000011e0";

const A_DAY_IN_EACH: &str = "0504000018 00000000 0000001465e50f0000010064000011e019fe23fc \
    0504020014 00000000 0000001065e6608000020000000011e0";

const FIRST_DAY_LINES: &str = "\
2024-03-04 00:00 2024-03-04 08:00 rest single
2024-03-04 08:00 2024-03-04 08:30 work single
2024-03-04 08:30 2024-03-04 17:00 drive single
";

const SECOND_DAY_LINE: &str = "2024-03-05 00:00 2024-03-05 08:00 rest single\n";

/// Parts, the bytes of a file after the identification, and the text and the status of `card`.
static FILES: [(&str, &str, &str, u8); 12] = [
    ("both", TWO_DAYS_IN_ONE, TWO_DAYS_LINES, 0),
    ("first", TWO_DAYS_IN_ONE, TWO_DAYS_LINES, 0),
    ("second", TWO_DAYS_IN_ONE, "C6 no activity data\n", 1),
    ("both", A_DAY_IN_EACH, TWO_DAYS_LINES, 0),
    ("first", A_DAY_IN_EACH, FIRST_DAY_LINES, 0),
    ("second", A_DAY_IN_EACH, SECOND_DAY_LINE, 0),
    // The two generations give different marks to one minute.
    (
        "both",
        "0504000014 00000000 0000001065e50f0000010000000011e0 0504020014 00000000 0000001065e50f0000010000180011e0",
        "C14 file contradicts itself at 2024-03-04 00:00\n",
        1,
    ),
    // A file with a fault, a file without activity data, and a file whose activity data are too short.
    ("both", "05040100", "C1 truncated block at 22\n", 1),
    ("first", "", "C6 no activity data\n", 1),
    (
        "both",
        "0504000004 00000000",
        "C7 activity data too short\n",
        1,
    ),
    // No part has these names.
    ("Both", TWO_DAYS_IN_ONE, "P1 bad part\n", 1),
    ("", "05040100", "P1 bad part\n", 1),
];

#[test]
fn cards_are_listed(rt: HostRuntime) -> Result<(), Fail> {
    for (part, digits, lines, status) in FILES {
        let mut input = bytes_of(&rt, rt.alloc(), IDENTIFICATION);
        input.extend_from_slice(&bytes_of(&rt, rt.alloc(), digits))?;
        let (text, answered) = listed(rt.alloc(), part, &input);
        assert!(rt; text.as_slice() == lines.as_bytes(), "{part} of {digits}");
        assert!(rt; answered == status, "{part} of {digits}");
    }
    Ok(())
}

#[test]
fn a_bad_part_is_refused_before_the_input(rt: HostRuntime) -> Result<(), Fail> {
    let mut reader = Faulty::new(rt.alloc(), b"", 7, 0);
    let mut writer = Device::new(Vec::new(rt.alloc()));
    let status = card(rt.alloc(), "third", &mut reader, &mut writer);
    let text = writer.into_inner();
    assert_same(&rt, text.as_slice(), b"P1 bad part\n".as_slice());
    assert_same(&rt, status, 1);
    assert!(rt; !Source::failed(&reader));
    Ok(())
}

#[test]
fn readers_fail_at_each_call(rt: HostRuntime) -> Result<(), Fail> {
    let input = bytes_of(&rt, rt.alloc(), TWO_DAYS);
    // Forty bytes in pieces of seven need six calls, and one more for the end.
    for calls in 0..9 {
        let mut reader = Faulty::new(rt.alloc(), &input, 7, calls);
        let mut writer = Device::new(Vec::new(rt.alloc()));
        let status = dump(rt.alloc(), &mut reader, &mut writer);
        let (lines, wanted) = if calls < 7 {
            ("X2 device failed\n", 3)
        } else {
            (TWO_DAYS_LINES, 0)
        };
        assert!(rt;
            writer.into_inner().as_slice() == lines.as_bytes(),
            "of {calls} calls"
        );
        assert!(rt; status == wanted, "of {calls} calls");
    }
    let input = bytes_of(&rt, rt.alloc(), IDENTIFICATION);
    // Twenty-two bytes in pieces of seven need four calls, and one more for the end.
    for calls in 0..7 {
        let mut reader = Faulty::new(rt.alloc(), &input, 7, calls);
        let mut writer = Device::new(Vec::new(rt.alloc()));
        let status = holder(rt.alloc(), &mut reader, &mut writer);
        let (lines, wanted) = if calls < 5 {
            ("X2 device failed\n", 3)
        } else {
            (HOLDER_LINE, 0)
        };
        assert!(rt;
            writer.into_inner().as_slice() == lines.as_bytes(),
            "of {calls} calls"
        );
        assert!(rt; status == wanted, "of {calls} calls");
    }
    Ok(())
}

#[test]
fn writers_fail_at_each_call(rt: HostRuntime) -> Result<(), Fail> {
    let input = bytes_of(&rt, rt.alloc(), TWO_DAYS);
    let lines = TWO_DAYS_LINES.as_bytes();
    // The lines in pieces of fifty bytes need four calls.
    for calls in 0..6 {
        let mut reader = Device::new(input.as_slice());
        let mut writer = Faulty::new(rt.alloc(), b"", 50, calls);
        let status = dump(rt.alloc(), &mut reader, &mut writer);
        let front = lines.len().min(calls * 50);
        assert!(rt;
            writer.written.as_slice() == &lines[..front],
            "of {calls} calls"
        );
        assert!(rt; status == if calls < 4 { 3 } else { 0 }, "of {calls} calls");
    }
    Ok(())
}

/// Arguments, and the job that they name.
static JOBS: [(&[&str], Job<'static>); 40] = [
    (&["tacho", "dump"], Job::Dump),
    (&["tacho", "holder"], Job::Holder),
    (&["tacho", "card", "first"], Job::Card { part: "first" }),
    (&["tacho", "init", "a.db"], Job::Init { archive: "a.db" }),
    (
        &["tacho", "migrate", "a.db"],
        Job::Migrate { archive: "a.db" },
    ),
    (&["tacho", "check", "a.db"], Job::Check { archive: "a.db" }),
    (
        &["tacho", "carry", "a.db", "b.db", "2024-03-04"],
        Job::Carry {
            archive: "a.db",
            new: "b.db",
            date: "2024-03-04",
        },
    ),
    (
        &["tacho", "register", "a.db"],
        Job::AtDesk(DeskJob {
            archive: "a.db",
            wish: Wish {
                want: Want::Register,
                driver: b"",
                word: b"",
                next: b"",
            },
        }),
    ),
    (
        &["tacho", "import", "a.db", "second"],
        Job::AtDesk(DeskJob {
            archive: "a.db",
            wish: Wish {
                want: Want::Import,
                driver: b"",
                word: b"second",
                next: b"",
            },
        }),
    ),
    (
        &["tacho", "enter", "a.db", "17"],
        Job::AtDesk(DeskJob {
            archive: "a.db",
            wish: Wish {
                want: Want::Enter,
                driver: b"17",
                word: b"",
                next: b"",
            },
        }),
    ),
    (
        &["tacho", "withdraw", "a.db", "17", "3"],
        Job::AtDesk(DeskJob {
            archive: "a.db",
            wish: Wish {
                want: Want::Withdraw,
                driver: b"17",
                word: b"3",
                next: b"",
            },
        }),
    ),
    (
        &["tacho", "withdraw", "a.db", "17", "3", "672"],
        Job::AtDesk(DeskJob {
            archive: "a.db",
            wish: Wish {
                want: Want::Withdraw,
                driver: b"17",
                word: b"3",
                next: b"672",
            },
        }),
    ),
    (
        &["tacho", "base", "a.db", "17", "2024-03-11"],
        Job::AtDesk(DeskJob {
            archive: "a.db",
            wish: Wish {
                want: Want::Base,
                driver: b"17",
                word: b"2024-03-11",
                next: b"",
            },
        }),
    ),
    (
        &["tacho", "key", "a.db", "17"],
        Job::AtDesk(DeskJob {
            archive: "a.db",
            wish: Wish {
                want: Want::Key,
                driver: b"17",
                word: b"",
                next: b"",
            },
        }),
    ),
    (
        &["tacho", "name", "a.db", "17"],
        Job::AtDesk(DeskJob {
            archive: "a.db",
            wish: Wish {
                want: Want::Name,
                driver: b"17",
                word: b"",
                next: b"",
            },
        }),
    ),
    (
        &["tacho", "spans", "a.db", "17", "2024-03"],
        Job::AtDesk(DeskJob {
            archive: "a.db",
            wish: Wish {
                want: Want::MonthReading(MonthReading::Spans),
                driver: b"17",
                word: b"2024-03",
                next: b"",
            },
        }),
    ),
    (
        &["tacho", "gaps", "a.db", "17", "2024-03"],
        Job::AtDesk(DeskJob {
            archive: "a.db",
            wish: Wish {
                want: Want::MonthReading(MonthReading::Gaps),
                driver: b"17",
                word: b"2024-03",
                next: b"",
            },
        }),
    ),
    (
        &["tacho", "sheet", "a.db", "17", "2024-03"],
        Job::AtDesk(DeskJob {
            archive: "a.db",
            wish: Wish {
                want: Want::MonthReading(MonthReading::Sheet),
                driver: b"17",
                word: b"2024-03",
                next: b"",
            },
        }),
    ),
    (
        &["tacho", "breaches", "a.db", "17"],
        Job::AtDesk(DeskJob {
            archive: "a.db",
            wish: Wish {
                want: Want::Reading(Reading::Breaches),
                driver: b"17",
                word: b"",
                next: b"",
            },
        }),
    ),
    (
        &["tacho", "why", "a.db", "17", "2024-03"],
        Job::AtDesk(DeskJob {
            archive: "a.db",
            wish: Wish {
                want: Want::MonthReading(MonthReading::Why),
                driver: b"17",
                word: b"2024-03",
                next: b"",
            },
        }),
    ),
    (
        &["tacho", "owed", "a.db", "17"],
        Job::AtDesk(DeskJob {
            archive: "a.db",
            wish: Wish {
                want: Want::Reading(Reading::Owed),
                driver: b"17",
                word: b"",
                next: b"",
            },
        }),
    ),
    (
        &["tacho", "entries", "a.db", "17"],
        Job::AtDesk(DeskJob {
            archive: "a.db",
            wish: Wish {
                want: Want::Reading(Reading::Entries),
                driver: b"17",
                word: b"",
                next: b"",
            },
        }),
    ),
    (
        &["tacho", "file", "a.db", "17", "3"],
        Job::AtDesk(DeskJob {
            archive: "a.db",
            wish: Wish {
                want: Want::File,
                driver: b"17",
                word: b"3",
                next: b"",
            },
        }),
    ),
    (
        &["tacho", "files", "a.db", "17"],
        Job::AtDesk(DeskJob {
            archive: "a.db",
            wish: Wish {
                want: Want::Reading(Reading::Files),
                driver: b"17",
                word: b"",
                next: b"",
            },
        }),
    ),
    (
        &["tacho", "drivers", "a.db"],
        Job::AtDesk(DeskJob {
            archive: "a.db",
            wish: Wish {
                want: Want::Drivers,
                driver: b"",
                word: b"",
                next: b"",
            },
        }),
    ),
    (
        &["tacho", "drivers", "a.db", "17"],
        Job::AtDesk(DeskJob {
            archive: "a.db",
            wish: Wish {
                want: Want::Drivers,
                driver: b"17",
                word: b"",
                next: b"",
            },
        }),
    ),
    (
        &["tacho", "stretches", "a.db", "17"],
        Job::AtDesk(DeskJob {
            archive: "a.db",
            wish: Wish {
                want: Want::Reading(Reading::Stretches),
                driver: b"17",
                word: b"",
                next: b"",
            },
        }),
    ),
    (
        &["tacho", "debts", "a.db", "17"],
        Job::AtDesk(DeskJob {
            archive: "a.db",
            wish: Wish {
                want: Want::Reading(Reading::Debts),
                driver: b"17",
                word: b"",
                next: b"",
            },
        }),
    ),
    (
        &["tacho", "form", "a.db", "17"],
        Job::AtDesk(DeskJob {
            archive: "a.db",
            wish: Wish {
                want: Want::Form,
                driver: b"17",
                word: b"",
                next: b"",
            },
        }),
    ),
    (
        &["tacho", "form", "a.db", "17", "2024-04-01"],
        Job::AtDesk(DeskJob {
            archive: "a.db",
            wish: Wish {
                want: Want::Form,
                driver: b"17",
                word: b"2024-04-01",
                next: b"",
            },
        }),
    ),
    (
        &[
            "tacho",
            "handover",
            "a.db",
            "17",
            "2024-03-01",
            "2024-04-01",
        ],
        Job::AtDesk(DeskJob {
            archive: "a.db",
            wish: Wish {
                want: Want::Handover,
                driver: b"17",
                word: b"2024-03-01",
                next: b"2024-04-01",
            },
        }),
    ),
    (
        &["tacho", "ahead", "a.db", "17", "2024-03-07", "12:00"],
        Job::AtDesk(DeskJob {
            archive: "a.db",
            wish: Wish {
                want: Want::Ahead,
                driver: b"17",
                word: b"2024-03-07",
                next: b"12:00",
            },
        }),
    ),
    (
        &["tacho", "forecast", "a.db", "2024-03-07", "12:00"],
        Job::AtDesk(DeskJob {
            archive: "a.db",
            wish: Wish {
                want: Want::Forecast,
                driver: b"",
                word: b"2024-03-07",
                next: b"12:00",
            },
        }),
    ),
    (
        &["tacho", "standing", "a.db", "2024-03"],
        Job::AtDesk(DeskJob {
            archive: "a.db",
            wish: Wish {
                want: Want::MonthOfAll(MonthOfAll::Standing),
                driver: b"",
                word: b"2024-03",
                next: b"",
            },
        }),
    ),
    (
        &["tacho", "overview", "a.db", "2024-03"],
        Job::AtDesk(DeskJob {
            archive: "a.db",
            wish: Wish {
                want: Want::MonthOfAll(MonthOfAll::Overview),
                driver: b"",
                word: b"2024-03",
                next: b"",
            },
        }),
    ),
    (
        &["tacho", "incidents", "a.db", "2024-03"],
        Job::AtDesk(DeskJob {
            archive: "a.db",
            wish: Wish {
                want: Want::MonthOfAll(MonthOfAll::Incidents),
                driver: b"",
                word: b"2024-03",
                next: b"",
            },
        }),
    ),
    (
        &["tacho", "serve", "a.db", "office-key-1", "1", "1000000"],
        Job::Serve {
            archive: "a.db",
            key: "office-key-1",
            port: 1,
            count: 1_000_000,
        },
    ),
    (
        &["tacho", "serve", "a.db", "", "65535", "1"],
        Job::Serve {
            archive: "a.db",
            key: "",
            port: 65_535,
            count: 1,
        },
    ),
    (
        &["tacho", "listen", "a.db", "8017", "1000"],
        Job::Listen {
            archive: "a.db",
            port: 8_017,
            count: 1_000,
        },
    ),
    (&["tacho", "version"], Job::Version),
];

/// Ports and counts, one of which isn't a valid number.
static NO_NUMBERS: [(&str, &str); 10] = [
    ("0", "1"),
    ("65536", "1"),
    ("080", "1"),
    ("port", "1"),
    ("", "1"),
    ("1", "0"),
    ("1", "1000001"),
    ("1", "01"),
    ("1", "many"),
    ("1", ""),
];

/// The arguments of a command line.
fn strings(alloc: Global, words: &[&str]) -> Result<Vec<String>, AllocError> {
    let mut given = Vec::new(alloc);
    for word in words {
        given.push(String::from_str(alloc, *word)?)?;
    }
    Ok(given)
}

#[test]
fn words_name_jobs(rt: HostRuntime) -> Result<(), Fail> {
    let alloc = rt.alloc();
    for (words, job) in JOBS {
        let given = strings(alloc, words)?;
        let named = parse(alloc, &given).map_err(|_| "words that name a job")?;
        assert_same(&rt, named, job);
        let has_archive = !matches!(
            job,
            Job::Dump | Job::Holder | Job::Card { .. } | Job::Version
        );
        assert_same(&rt, named.archive(), has_archive.then_some("a.db"));
        assert_same(
            &rt,
            named.at_desk(),
            has_archive
                && !matches!(
                    job,
                    Job::Init { .. }
                        | Job::Migrate { .. }
                        | Job::Check { .. }
                        | Job::Carry { .. }
                        | Job::Serve { .. }
                        | Job::Listen { .. }
                ),
        );
    }
    Ok(())
}

#[test]
fn ports_and_counts_are_numbers(rt: HostRuntime) -> Result<(), Fail> {
    let alloc = rt.alloc();
    for (port, count) in NO_NUMBERS {
        let words = ["tacho", "serve", "a.db", "office-key-1", port, count];
        let given = strings(alloc, &words)?;
        let is_refused = matches!(parse(alloc, &given), Err(Usage::Numbers));
        assert!(rt; is_refused, "serve, of {port} and {count}");
        let words = ["tacho", "listen", "a.db", port, count];
        let given = strings(alloc, &words)?;
        let is_refused = matches!(parse(alloc, &given), Err(Usage::Numbers));
        assert!(rt; is_refused, "listen, of {port} and {count}");
    }
    Ok(())
}

const HELP: &str = "\
Archives the hours that driver cards record, and checks them against the rules on driving and rest

Usage: tacho COMMAND [ARGUMENT...]

Commands:
  dump       Prints the spans in the value of an EF Driver_Activity_Data (0504), one per line
  holder     Prints the holder in a card file, as 30 hexadecimal digits
  card       Prints the spans in a card file, one per line
  init       Creates an archive without drivers, in a new or empty file
  migrate    Converts an archive of an earlier schema to this program's; make a backup first
  check      Checks all rows of an archive: prints sound, or unsound with the first driver and table whose rows can't be right
  carry      Makes an archive in a new file of what is needed from a day on; the old archive doesn't change
  register   Adds a driver: CSV with the head driver,holder,key,base,name
  import     Adds a driver's card file
  enter      Enters a driver's hours by hand: CSV with the head start,past,activity or start,past,activity,author,note
  withdraw   Withdraws an entry, or all from one number to another; they stay listed and give no more hours
  base       Sets the Monday from which a driver's hours are examined
  key        Sets a driver's key, the only line of its input
  name       Sets a driver's name, the only line of its input
  spans      Prints the spans of a driver's month as CSV
  gaps       Prints the gaps in a driver's month, for which the archive has no hours
  sheet      Prints the sheet of a driver's month, with its totals and breaches
  chart      Draws a driver's month as SVG, with a row for each day, and the breaches
  breaches   Prints a driver's breaches up to the end of the first examination
  why        Prints the breaches of a driver's month, each with the evidence for it
  owed       Prints the rest that a driver owes or has paid, up to the end of the first examination
  entries    Prints a driver's entries, also those withdrawn
  file       Prints a card file as it was imported
  files      Prints a driver's card files, one per line: number, part, length in bytes, first minute, past, and SHA-256
  handover   Prints a tar file for an inspection: a driver's card files that cover the days from FROM to before PAST, their entries, and a list of contents
  drivers    Prints the drivers, or one of them, one per line: number, holder, base, how many card files and entries, and name
  stretches  Prints a driver's breaches by all examinations, and what isn't examined
  debts      Prints the rest that a driver owes or has paid, by all examinations
  ahead      Prints how much is left until the limit of each rule if a driver drives on from a minute, and what is used and owed by then
  forecast   Prints for all drivers, as CSV, the minute of the limit of each rule if they drive on from a minute, and what is used by then
  standing   Prints all drivers as CSV: how far each is held and examined, gaps, the breaches of a month and of the month before, and open debts
  overview   Prints a month of all drivers as CSV: what is held, how much of it is examined, and how many breaches there are of each rule
  incidents  Prints the breaches of a month of all drivers as CSV
  form       Prints a driver's gaps as CSV, to fill in and enter; with a date, those before that day
  serve      Answers COUNT connections on PORT of 127.0.0.1, one request each: the office's with KEY, drivers' with their own keys
  listen     Does the same as serve, with the office's key as the only line of its input
  version    Prints the version of this program, the schema of the archives that it makes, and the logic in which it is proved
  help       Prints these commands, or with the name of a command how it is used
";

const HELP_OF_DUMP: &str = "\
Prints the spans in the value of an EF Driver_Activity_Data (0504), one per line

Usage: tacho dump < FILE
";

const HELP_OF_IMPORT: &str = "\
Adds a driver's card file

Usage: tacho import ARCHIVE PART < FILE
       tacho import ARCHIVE PART FILE...

Arguments:
  ARCHIVE   The path of the archive
  PART      The blocks of the card file that are read: first (first generation), second (second generation), or both
";

const HELP_OF_AHEAD: &str = "\
Prints how much is left until the limit of each rule if a driver drives on from a minute, and what is used and owed by then

Usage: tacho ahead ARCHIVE DRIVER DATE TIME

Arguments:
  ARCHIVE   The path of the archive
  DRIVER    The driver's number, 1 to 999999
  DATE      A day, as 2024-03-07
  TIME      The time of that day in UTC, as 12:00
";

const HELP_OF_HANDOVER: &str = "\
Prints a tar file for an inspection: a driver's card files that cover the days from FROM to before PAST, their entries, and a list of contents

Usage: tacho handover ARCHIVE DRIVER FROM PAST

Arguments:
  ARCHIVE   The path of the archive
  DRIVER    The driver's number, 1 to 999999
  FROM      The first day of a period, as 2024-03-01
  PAST      The day after its last, at most 366 days later
";

const HELP_OF_DRIVERS: &str = "\
Prints the drivers, or one of them, one per line: number, holder, base, how many card files and entries, and name

Usage: tacho drivers ARCHIVE [DRIVER]

Arguments:
  ARCHIVE   The path of the archive
  [DRIVER]  The driver's number, 1 to 999999
";

const HELP_OF_WITHDRAW: &str = "\
Withdraws an entry, or all from one number to another; they stay listed and give no more hours

Usage: tacho withdraw ARCHIVE DRIVER NUMBER [LAST]

Arguments:
  ARCHIVE   The path of the archive
  DRIVER    The driver's number, 1 to 999999
  NUMBER    The number of the entry or the card file, as it was printed when it was added
  [LAST]    The number of the last entry, to withdraw all from the first to it
";

const HELP_OF_FORM: &str = "\
Prints a driver's gaps as CSV, to fill in and enter; with a date, those before that day

Usage: tacho form ARCHIVE DRIVER [DATE]

Arguments:
  ARCHIVE   The path of the archive
  DRIVER    The driver's number, 1 to 999999
  [DATE]    A day, as 2024-03-04: only gaps before it are printed
";

/// Arguments that name no job, and what is printed for them.
const MISUSES: &[(&[&str], &str)] = &[
    (
        &["tacho"],
        "tacho: no command was given
usage: tacho COMMAND [ARGUMENT...]
       tacho help lists the commands
",
    ),
    (
        &["tacho", "weigh"],
        "tacho: unrecognized subcommand 'weigh'
usage: tacho COMMAND [ARGUMENT...]
       tacho help lists the commands
",
    ),
    (
        &["tacho", "overview", "a.db"],
        "tacho: the following required arguments were not provided: <MONTH>
usage: tacho overview ARCHIVE MONTH
",
    ),
    (
        &["tacho", "dump", "week.0504"],
        "tacho: unexpected argument 'week.0504' found
usage: tacho dump < FILE
       FILE is read from standard input: put < before the name of a file
",
    ),
    (
        &["tacho", "enter", "a.db", "17", "hours.csv"],
        "tacho: unexpected argument 'hours.csv' found
usage: tacho enter ARCHIVE DRIVER < CSV
       CSV is read from standard input: put < before the name of a file
",
    ),
    (
        &["tacho", "stretches", "a.db", "17", "2024-03"],
        "tacho: unexpected argument '2024-03' found
usage: tacho stretches ARCHIVE DRIVER
",
    ),
    (
        &["tacho", "incidents", "a.db", "17", "2024-03"],
        "tacho: unexpected argument '2024-03' found
usage: tacho incidents ARCHIVE MONTH
",
    ),
];

/// What is printed for arguments that name no job.
fn told(rt: &impl Abort, alloc: Global, words: &[&str]) -> Result<String, AllocError> {
    let given = strings(alloc, words)?;
    match parse(alloc, &given) {
        Err(Usage::Words(text)) => Ok(text),
        _ => panic!(rt; "words that name a job"),
    }
}

#[test]
fn misuses_show_the_usage(rt: HostRuntime) -> Result<(), Fail> {
    let alloc = rt.alloc();
    for &(words, text) in MISUSES {
        let shown = told(&rt, alloc, words)?;
        assert_same(&rt, shown.as_str(), text);
    }
    Ok(())
}

#[test]
fn help_lists_commands_and_arguments(rt: HostRuntime) -> Result<(), Fail> {
    let alloc = rt.alloc();
    assert_same(&rt, help_text(alloc)?.as_str(), HELP);
    assert_same(&rt, help_of(alloc, "dump")?.as_str(), HELP_OF_DUMP);
    assert_same(&rt, help_of(alloc, "withdraw")?.as_str(), HELP_OF_WITHDRAW);
    assert_same(&rt, help_of(alloc, "form")?.as_str(), HELP_OF_FORM);
    assert_same(&rt, help_of(alloc, "import")?.as_str(), HELP_OF_IMPORT);
    assert_same(&rt, help_of(alloc, "drivers")?.as_str(), HELP_OF_DRIVERS);
    assert_same(&rt, help_of(alloc, "ahead")?.as_str(), HELP_OF_AHEAD);
    assert_same(&rt, help_of(alloc, "handover")?.as_str(), HELP_OF_HANDOVER);
    Ok(())
}

/// What arguments ask for without the parser: `h` help, `v` the version, the name of a command, or `f` and how many files.
const EARLY: &[(&[&str], &str, usize)] = &[
    (&["tacho"], "", 0),
    (&["tacho", "help"], "h", 0),
    (&["tacho", "--help"], "h", 0),
    (&["tacho", "-h"], "h", 0),
    (&["tacho", "-V"], "v", 0),
    (&["tacho", "--version"], "v", 0),
    (&["tacho", "version"], "", 0),
    (&["tacho", "help", "base"], "base", 0),
    (&["tacho", "base", "--help"], "base", 0),
    (&["tacho", "base", "-h", "17"], "base", 0),
    (&["tacho", "help", "weigh"], "", 0),
    (&["tacho", "help", "base", "key"], "", 0),
    (&["tacho", "weigh", "-h"], "", 0),
    (&["tacho", "import", "a.db", "both"], "", 0),
    (&["tacho", "import", "a.db", "both", "a.ddd"], "f", 1),
    (
        &["tacho", "import", "a.db", "both", "a.ddd", "b.ddd"],
        "f",
        2,
    ),
    (
        &["tacho", "import", "a.db", "both", "a.ddd", "--all"],
        "",
        0,
    ),
    (&["tacho", "enter", "a.db", "17", "a.csv"], "", 0),
];

#[test]
fn some_arguments_need_no_parser(rt: HostRuntime) -> Result<(), Fail> {
    for &(words, name, count) in EARLY {
        let given = strings(rt.alloc(), words)?;
        let found = match asked_early(&given) {
            None => ("", 0),
            Some(Asked::Help) => ("h", 0),
            Some(Asked::HelpOf(name)) => (name, 0),
            Some(Asked::Version) => ("v", 0),
            Some(Asked::Files { files, .. }) => ("f", files.len()),
        };
        assert_same(&rt, found, (name, count));
    }
    Ok(())
}
