//! What is handed over for an inspection, as commands on an archive.

use crate::desk::answer;
use crate::readings::archive_of_two;
use std::process::Abort;
use std::test::Fail;
use tacho_cli::{DeskJob, Job};
use tacho_desk::{Want, Wish};

/// The driver's number, the first day, the day after the last, and the expected refusal: the arguments from left to right, the period, and then
/// the archive.
static REFUSED: [(&str, &str, &str, &str); 12] = [
    ("0", "2024-3-4", "2024-3-5", "N1 bad number\n"),
    ("17", "2024-3-4", "2024-02-30", "Z1 not of the shape\n"),
    ("17", "2024-02-30", "2024-3-5", "Z2 no such date\n"),
    ("17", "1999-12-31", "2024-3-5", "Z3 out of range\n"),
    ("17", "2024-03-04", "2024-3-5", "Z1 not of the shape\n"),
    ("17", "2024-03-04", "", "Z1 not of the shape\n"),
    ("17", "2024-03-04", "2024-02-30", "Z2 no such date\n"),
    ("17", "2024-03-04", "2100-01-01", "Z3 out of range\n"),
    ("17", "2024-03-04", "2024-03-04", "Z4 period\n"),
    ("17", "2024-03-04", "2024-03-03", "Z4 period\n"),
    ("18", "2024-03-04", "2025-03-06", "Z4 period\n"),
    ("18", "2024-03-04", "2025-03-05", "S4 unknown driver\n"),
];

/// The job that asks for a handover.
fn job_of<'a>(driver: &'a str, from: &'a str, past: &'a str) -> Job<'a> {
    Job::AtDesk(DeskJob {
        archive: "a.db",
        wish: Wish {
            want: Want::Handover,
            driver: driver.as_bytes(),
            word: from.as_bytes(),
            next: past.as_bytes(),
        },
    })
}

#[test]
fn a_period_is_refused_by_its_first_fault(rt: HostRuntime) -> Result<(), Fail> {
    let mut shelf = archive_of_two(rt.alloc())?;
    for (driver, from, past, line) in REFUSED {
        let (written, status) = answer(rt.alloc(), &mut shelf, job_of(driver, from, past), b"")?;
        assert!(rt;
            written.as_slice() == line.as_bytes(),
            "of {driver}, {from} {past}"
        );
        assert!(rt; status == 1, "of {driver}, {from} {past}");
    }
    Ok(())
}

/// The tar file of a day that a driver entered by hand as far as 17:00: its bytes that aren't NUL, each run of them with its offset.
static A_DAY: [(usize, &[u8]); 22] = [
    (0, b"entries.txt"),
    (100, b"0000644"),
    (108, b"0000000"),
    (116, b"0000000"),
    (124, b"00000000257"),
    (136, b"00000000000"),
    (148, b"010163"),
    (155, b" 0"),
    (257, b"ustar"),
    (263, b"00"),
    (
        512,
        b"1 2024-03-04 00:00 2024-03-04 08:00 rest kept \"office\" \"\"\n\
          2 2024-03-04 08:00 2024-03-04 08:30 work kept \"office\" \"\"\n\
          3 2024-03-04 08:30 2024-03-04 17:00 drive kept \"office\" \"\"\n",
    ),
    (1024, b"contents.txt"),
    (1124, b"0000644"),
    (1132, b"0000000"),
    (1140, b"0000000"),
    (1148, b"00000000367"),
    (1160, b"00000000000"),
    (1172, b"010351"),
    (1179, b" 0"),
    (1281, b"ustar"),
    (1287, b"00"),
    (
        1536,
        b"DRIVER 17 0d4431323334353637383930313233 2024-03-04 0 5 Anna Berg\n\
          FROM 2024-03-04 PAST 2024-03-05\n\
          PROGRAM tacho 1.1.0\n\
          FILE entries.txt 175 43bfbcb097b8ca9671b576d017629b2abe8c20d0effe9aab762dc3a1552d2948\n\
          NOT HELD 2024-03-04 17:00 2024-03-05 00:00\n",
    ),
];

/// The length of that tar file.
const LENGTH: usize = 3072;

#[test]
fn a_handover_is_a_tar_file(rt: HostRuntime) -> Result<(), Fail> {
    let mut shelf = archive_of_two(rt.alloc())?;
    let job = job_of("17", "2024-03-04", "2024-03-05");
    let (written, status) = answer(rt.alloc(), &mut shelf, job, b"")?;
    let mut wanted = Vec::new(rt.alloc());
    for (offset, run) in A_DAY {
        wanted.resize(offset, 0)?;
        wanted.extend_from_slice(run)?;
    }
    wanted.resize(LENGTH, 0)?;
    assert!(rt; written.as_slice() == wanted.as_slice());
    assert!(rt; status == 0);
    Ok(())
}
