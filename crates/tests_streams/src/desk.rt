//! Jobs at an archive, whose reader or writer fails at each of its calls.

ghost use Rattle.std.specs.Prelude.{◌≡◌, false};

use crate::faulty::Faulty;
use std::alloc::Global;
use std::test::Fail;
use tacho_cli::{DeskJob, Job, perform};
use tacho_desk::{MonthOfAll, MonthReading, Reading, Want, Wish};
use tacho_shelf::Shelf;
use tacho_time::{Device, Sink, Source};

/// A job, its input, its text, and its text when it is done again.
pub(crate) type Case = (Job<'static>, &'static [u8], &'static str, &'static str);

/// Jobs that have an input, in sequence.
pub(crate) static CASES: [Case; 5] = [
    (
        Job::AtDesk(DeskJob {
            archive: "a.db",
            wish: Wish {
                want: Want::Register,
                driver: b"",
                word: b"",
                next: b"",
            },
        }),
        b"driver,holder,key,base,name\n17,0d4431323334353637383930313233,anna-key-1,2024-03-04,Anna Berg\n",
        "registered 17\n",
        "S1 driver taken\n",
    ),
    (
        Job::AtDesk(DeskJob {
            archive: "a.db",
            wish: Wish {
                want: Want::Import,
                driver: b"",
                word: b"both",
                next: b"",
            },
        }),
        b"\x05\x20\x00\x00\x11\x0dD123456789012300\x05\x04\x00\x00\x28\x00\x00\x00\x14\x00\x00\x00\x14\x65\xe5\x0f\x00\x00\x01\x00\x64\x00\x00\x11\xe0\x19\xfe\x23\xfc\x00\x14\x00\x10\x65\xe6\x60\x80\x00\x02\x00\x00\x00\x00\x11\xe0",
        "added driver 17 number 1\n",
        "repeated driver 17\n",
    ),
    (
        Job::AtDesk(DeskJob {
            archive: "a.db",
            wish: Wish {
                want: Want::Enter,
                driver: b"17",
                word: b"",
                next: b"",
            },
        }),
        b"start,past,activity\n2024-03-06 00:00,2024-03-06 08:00,rest\n",
        "entered 1 to 1\n",
        "entered 2 to 2\n",
    ),
    (
        Job::AtDesk(DeskJob {
            archive: "a.db",
            wish: Wish {
                want: Want::Key,
                driver: b"17",
                word: b"",
                next: b"",
            },
        }),
        b"anna-key-2\r\n",
        "key 17\n",
        "key 17\n",
    ),
    (
        Job::AtDesk(DeskJob {
            archive: "a.db",
            wish: Wish {
                want: Want::Name,
                driver: b"17",
                word: b"",
                next: b"",
            },
        }),
        b"Anna Lind\n",
        "name 17\n",
        "name 17\n",
    ),
];

/// Does a job at an archive, and returns its status.
pub(crate) fn performed<R: Source, W: Sink>(
    alloc: Global,
    shelf: &mut Shelf,
    job: Job<'_>,
    reader: &mut R,
    writer: &mut W,
) -> Result<u8, Fail>
    requires reader { R.has_failed reader.old ≡ false }
    requires writer { W.has_failed writer.old ≡ false }
{
    if !job.at_desk() {
        return Err("a job at an archive")?;
    }
    Ok(perform(alloc, job, shelf, reader, writer))
}

/// What a job with this input writes, and its status, if no device fails.
pub(crate) fn answer(
    alloc: Global,
    shelf: &mut Shelf,
    job: Job<'_>,
    input: &[u8],
) -> Result<(Vec<u8>, u8), Fail> {
    let mut writer = Device::new(Vec::new(alloc));
    let status = performed(alloc, shelf, job, &mut Device::new(input), &mut writer)?;
    Ok((writer.into_inner(), status))
}

/// An archive at which the first `count` cases were done.
pub(crate) fn archive_after(alloc: Global, count: usize) -> Result<Shelf, Fail> {
    let mut shelf = Shelf::new(alloc);
    for (job, input, _, _) in CASES.iter().take(count) {
        answer(alloc, &mut shelf, *job, *input)?;
    }
    Ok(shelf)
}

/// Jobs that have no input.
static WITHOUT_INPUT: [Job<'static>; 18] = [
    Job::AtDesk(DeskJob {
        archive: "a.db",
        wish: Wish {
            want: Want::Base,
            driver: b"17",
            word: b"2024-03-04",
            next: b"",
        },
    }),
    Job::AtDesk(DeskJob {
        archive: "a.db",
        wish: Wish {
            want: Want::MonthReading(MonthReading::Spans),
            driver: b"17",
            word: b"2024-03",
            next: b"",
        },
    }),
    Job::AtDesk(DeskJob {
        archive: "a.db",
        wish: Wish {
            want: Want::MonthReading(MonthReading::Gaps),
            driver: b"17",
            word: b"2024-03",
            next: b"",
        },
    }),
    Job::AtDesk(DeskJob {
        archive: "a.db",
        wish: Wish {
            want: Want::MonthReading(MonthReading::Sheet),
            driver: b"17",
            word: b"2024-03",
            next: b"",
        },
    }),
    Job::AtDesk(DeskJob {
        archive: "a.db",
        wish: Wish {
            want: Want::Reading(Reading::Breaches),
            driver: b"17",
            word: b"",
            next: b"",
        },
    }),
    Job::AtDesk(DeskJob {
        archive: "a.db",
        wish: Wish {
            want: Want::Reading(Reading::Owed),
            driver: b"17",
            word: b"",
            next: b"",
        },
    }),
    Job::AtDesk(DeskJob {
        archive: "a.db",
        wish: Wish {
            want: Want::Reading(Reading::Entries),
            driver: b"17",
            word: b"",
            next: b"",
        },
    }),
    Job::AtDesk(DeskJob {
        archive: "a.db",
        wish: Wish {
            want: Want::File,
            driver: b"17",
            word: b"1",
            next: b"",
        },
    }),
    Job::AtDesk(DeskJob {
        archive: "a.db",
        wish: Wish {
            want: Want::Handover,
            driver: b"17",
            word: b"2024-03-01",
            next: b"2024-04-01",
        },
    }),
    Job::AtDesk(DeskJob {
        archive: "a.db",
        wish: Wish {
            want: Want::Withdraw,
            driver: b"17",
            word: b"1",
            next: b"",
        },
    }),
    Job::AtDesk(DeskJob {
        archive: "a.db",
        wish: Wish {
            want: Want::Drivers,
            driver: b"",
            word: b"",
            next: b"",
        },
    }),
    Job::AtDesk(DeskJob {
        archive: "a.db",
        wish: Wish {
            want: Want::Reading(Reading::Stretches),
            driver: b"17",
            word: b"",
            next: b"",
        },
    }),
    Job::AtDesk(DeskJob {
        archive: "a.db",
        wish: Wish {
            want: Want::Reading(Reading::Debts),
            driver: b"17",
            word: b"",
            next: b"",
        },
    }),
    Job::AtDesk(DeskJob {
        archive: "a.db",
        wish: Wish {
            want: Want::Form,
            driver: b"17",
            word: b"",
            next: b"",
        },
    }),
    Job::AtDesk(DeskJob {
        archive: "a.db",
        wish: Wish {
            want: Want::MonthOfAll(MonthOfAll::Standing),
            driver: b"",
            word: b"2024-03",
            next: b"",
        },
    }),
    Job::AtDesk(DeskJob {
        archive: "a.db",
        wish: Wish {
            want: Want::Forecast,
            driver: b"",
            word: b"2024-03-07",
            next: b"12:00",
        },
    }),
    Job::AtDesk(DeskJob {
        archive: "a.db",
        wish: Wish {
            want: Want::MonthOfAll(MonthOfAll::Overview),
            driver: b"",
            word: b"2024-03",
            next: b"",
        },
    }),
    Job::AtDesk(DeskJob {
        archive: "a.db",
        wish: Wish {
            want: Want::MonthOfAll(MonthOfAll::Incidents),
            driver: b"",
            word: b"2024-03",
            next: b"",
        },
    }),
];

#[test]
fn jobs_without_an_input_ask_no_reader(rt: HostRuntime) -> Result<(), Fail> {
    let mut shelf = archive_after(rt.alloc(), CASES.len())?;
    for job in &WITHOUT_INPUT {
        let mut reader = Faulty::new(rt.alloc(), b"", 7, 0);
        let mut writer = Device::new(Vec::new(rt.alloc()));
        let status = performed(rt.alloc(), &mut shelf, *job, &mut reader, &mut writer)?;
        assert!(rt; status == 0, "{status} of {job:?}");
        assert!(rt; !Source::failed(&reader), "{job:?}");
    }
    Ok(())
}

/// Jobs that have an input but bad arguments, and the line of the fault.
static WRONG_ARGUMENTS: [(Job<'static>, &str); 4] = [
    (
        Job::AtDesk(DeskJob {
            archive: "a.db",
            wish: Wish {
                want: Want::Import,
                driver: b"",
                word: b"whole",
                next: b"",
            },
        }),
        "P1 bad part\n",
    ),
    (
        Job::AtDesk(DeskJob {
            archive: "a.db",
            wish: Wish {
                want: Want::Enter,
                driver: b"017",
                word: b"",
                next: b"",
            },
        }),
        "N1 bad number\n",
    ),
    (
        Job::AtDesk(DeskJob {
            archive: "a.db",
            wish: Wish {
                want: Want::Enter,
                driver: b"1000000",
                word: b"",
                next: b"",
            },
        }),
        "N1 bad number\n",
    ),
    (
        Job::AtDesk(DeskJob {
            archive: "a.db",
            wish: Wish {
                want: Want::Name,
                driver: b"",
                word: b"",
                next: b"",
            },
        }),
        "N1 bad number\n",
    ),
];

#[test]
fn jobs_with_wrong_arguments_ask_no_reader(rt: HostRuntime) -> Result<(), Fail> {
    let mut shelf = archive_after(rt.alloc(), CASES.len())?;
    for (job, line) in &WRONG_ARGUMENTS {
        let mut reader = Faulty::new(rt.alloc(), b"", 7, 0);
        let mut writer = Device::new(Vec::new(rt.alloc()));
        let status = performed(rt.alloc(), &mut shelf, *job, &mut reader, &mut writer)?;
        assert!(rt; status == 1, "{status} of {job:?}");
        assert!(rt;
            writer.into_inner().as_slice() == line.as_bytes(),
            "{job:?}"
        );
        assert!(rt; !Source::failed(&reader), "{job:?}");
    }
    Ok(())
}

#[test]
fn readers_fail_at_each_call(rt: HostRuntime) -> Result<(), Fail> {
    for (place, (job, input, text, _)) in CASES.iter().enumerate() {
        // Each group of seven bytes needs a call, including the last one, and the end needs one more.
        let needed = input.len().div_ceil(7) + 1;
        for calls in 0..needed + 2 {
            let mut shelf = archive_after(rt.alloc(), place)?;
            let mut reader = Faulty::new(rt.alloc(), *input, 7, calls);
            let mut writer = Device::new(Vec::new(rt.alloc()));
            let status = performed(rt.alloc(), &mut shelf, *job, &mut reader, &mut writer)?;
            let written = writer.into_inner();
            if calls >= needed {
                assert!(rt; written.as_slice() == text.as_bytes(), "of {calls} calls");
                assert!(rt; status == 0, "of {calls} calls");
                continue;
            }
            assert!(rt;
                written.as_slice() == b"X2 device failed\n".as_slice(),
                "of {calls} calls"
            );
            assert!(rt; status == 3, "of {calls} calls");
            // The archive is as it was before, so the job can be done.
            let (written, status) = answer(rt.alloc(), &mut shelf, *job, *input)?;
            assert!(rt;
                written.as_slice() == text.as_bytes(),
                "after {calls} calls"
            );
            assert!(rt; status == 0, "after {calls} calls");
        }
    }
    Ok(())
}

#[test]
fn writers_fail_at_each_call(rt: HostRuntime) -> Result<(), Fail> {
    for (place, (job, input, text, again)) in CASES.iter().enumerate() {
        let needed = text.len().div_ceil(5);
        for calls in 0..needed + 2 {
            let mut shelf = archive_after(rt.alloc(), place)?;
            let mut writer = Faulty::new(rt.alloc(), b"", 5, calls);
            let status = performed(
                rt.alloc(),
                &mut shelf,
                *job,
                &mut Device::new(*input),
                &mut writer,
            )?;
            let wanted = text.as_bytes().iter().take(5 * calls).copied();
            assert!(rt;
                wanted.eq(writer.written.iter().copied()),
                "of {calls} calls"
            );
            assert!(rt;
                status == if calls < needed { 3 } else { 0 },
                "of {calls} calls"
            );
            // The job was done.
            let (written, _) = answer(rt.alloc(), &mut shelf, *job, *input)?;
            assert!(rt;
                written.as_slice() == again.as_bytes(),
                "after {calls} calls"
            );
        }
    }
    Ok(())
}

/// What is done at an archive before its drivers are listed: the tasks, drivers and other arguments, and the inputs.
static BEFORE_THE_LIST: [(Want, &str, &str, &[u8]); 7] = [
    (
        Want::Register,
        "",
        "",
        b"driver,holder,key,base,name\n17,0d4431323334353637383930313233,anna-key-1,2024-03-04,Anna Berg\n",
    ),
    (
        Want::Register,
        "",
        "",
        b"driver,holder,key,base,name\n5,0d4431323334353637383930313234,ben-key-12,2024-03-11,Ben Olsen\n",
    ),
    (
        Want::Register,
        "",
        "",
        b"driver,holder,key,base,name\n100,1144ff00a0b0c0d0e0f00102030405,cara-key-1,2024-01-01,Cara\n",
    ),
    (
        Want::Import,
        "",
        "both",
        b"\x05\x20\x00\x00\x11\x0dD123456789012300\x05\x04\x00\x00\x28\x00\x00\x00\x14\x00\x00\x00\x14\x65\xe5\x0f\x00\x00\x01\x00\x64\x00\x00\x11\xe0\x19\xfe\x23\xfc\x00\x14\x00\x10\x65\xe6\x60\x80\x00\x02\x00\x00\x00\x00\x11\xe0",
    ),
    (
        Want::Enter,
        "17",
        "",
        b"start,past,activity\n2024-03-06 00:00,2024-03-06 08:00,rest\n2024-03-06 08:00,2024-03-06 09:00,work\n",
    ),
    (Want::Withdraw, "17", "1", b""),
    // An entry of another driver.
    (
        Want::Enter,
        "5",
        "",
        b"start,past,activity\n2024-03-06 00:00,2024-03-06 08:00,rest\n",
    ),
];

const DRIVERS: &str = "\
5 0d4431323334353637383930313234 2024-03-11 0 1 Ben Olsen
17 0d4431323334353637383930313233 2024-03-04 1 2 Anna Berg
100 1144ff00a0b0c0d0e0f00102030405 2024-01-01 0 0 Cara
";

/// The list of all drivers.
pub(crate) const LIST: Job<'static> = Job::AtDesk(DeskJob {
    archive: "a.db",
    wish: Wish {
        want: Want::Drivers,
        driver: b"",
        word: b"",
        next: b"",
    },
});

#[test]
fn drivers_are_listed_by_their_numbers(rt: HostRuntime) -> Result<(), Fail> {
    let mut shelf = Shelf::new(rt.alloc());
    let (written, status) = answer(rt.alloc(), &mut shelf, LIST, b"")?;
    assert!(rt; written.is_empty() && status == 0, "of no drivers");
    for (want, driver, word, input) in BEFORE_THE_LIST {
        let job = Job::AtDesk(DeskJob {
            archive: "a.db",
            wish: Wish {
                want,
                driver: driver.as_bytes(),
                word: word.as_bytes(),
                next: b"",
            },
        });
        let (_, status) = answer(rt.alloc(), &mut shelf, job, input)?;
        assert!(rt; status == 0, "{want:?}");
    }
    let (written, status) = answer(rt.alloc(), &mut shelf, LIST, b"")?;
    assert!(rt; written.as_slice() == DRIVERS.as_bytes());
    assert!(rt; status == 0);
    Ok(())
}
