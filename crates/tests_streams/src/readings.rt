//! The texts of stretches, of all drivers, and of the form for gaps, as commands on an archive.

use crate::desk::{answer, performed};
use crate::faulty::Faulty;
use std::alloc::Global;
use std::process::Abort;
use std::test::Fail;
use tacho_cli::{DeskJob, Job};
use tacho_desk::{MonthOfAll, MonthReading, Reading, Want, Wish};
use tacho_shelf::Shelf;
use tacho_time::Device;

/// What is asked for, the driver's number, the other argument, and the expected text and status.
type Asked = (Want, &'static str, &'static str, &'static str, u8);

const STRETCHES: Want = Want::Reading(Reading::Stretches);

const DEBTS: Want = Want::Reading(Reading::Debts);

const FORM: Want = Want::Form;

const OVERVIEW: Want = Want::MonthOfAll(MonthOfAll::Overview);

const INCIDENTS: Want = Want::MonthOfAll(MonthOfAll::Incidents);

const STANDING: Want = Want::MonthOfAll(MonthOfAll::Standing);

/// Commands on an archive without drivers.
static OF_NOBODY: [Asked; 8] = [
    (
        STANDING,
        "",
        "2024-03",
        "driver,name,files,held,horizon,cause,gaps,unknown,first,last_month,breaches,debts,owes,by\n",
        0,
    ),
    (
        OVERVIEW,
        "",
        "2024-03",
        "driver,name,rest,available,work,drive,crew,none,examined,B1,B2,B3,B4,B5,B6,B7,B8,B9,B10\n",
        0,
    ),
    (
        INCIDENTS,
        "",
        "2024-03",
        "driver,name,kind,article,moment,since,amount\n",
        0,
    ),
    (STRETCHES, "17", "", "S4 unknown driver\n", 1),
    (DEBTS, "17", "", "S4 unknown driver\n", 1),
    (FORM, "17", "", "S4 unknown driver\n", 1),
    (STRETCHES, "999999", "", "S4 unknown driver\n", 1),
    (FORM, "1", "", "S4 unknown driver\n", 1),
];

/// Commands with bad arguments, on any archive. The driver is checked before the month.
static IN_WRONG_WORDS: [Asked; 28] = [
    (STRETCHES, "0", "", "N1 bad number\n", 1),
    (STRETCHES, "017", "", "N1 bad number\n", 1),
    (STRETCHES, "1000000", "", "N1 bad number\n", 1),
    (STRETCHES, "", "", "N1 bad number\n", 1),
    (DEBTS, "-17", "", "N1 bad number\n", 1),
    (DEBTS, "17 ", "", "N1 bad number\n", 1),
    (FORM, "anna", "", "N1 bad number\n", 1),
    (FORM, "2024-03", "", "N1 bad number\n", 1),
    (FORM, "0", "2024-02-30", "N1 bad number\n", 1),
    (FORM, "17", "2024-3-4", "Z1 not of the shape\n", 1),
    (FORM, "17", "2024-02-30", "Z2 no such date\n", 1),
    (FORM, "17", "2000-01-02", "Z3 out of range\n", 1),
    (OVERVIEW, "", "", "Z1 not of the shape\n", 1),
    (OVERVIEW, "", "2024-3", "Z1 not of the shape\n", 1),
    (OVERVIEW, "", "2024-03-04", "Z1 not of the shape\n", 1),
    (OVERVIEW, "", "2024-13", "Z2 no such date\n", 1),
    (OVERVIEW, "", "2024-00", "Z2 no such date\n", 1),
    (OVERVIEW, "", "2100-01", "Z3 out of range\n", 1),
    (INCIDENTS, "", "17", "Z1 not of the shape\n", 1),
    (INCIDENTS, "", "march", "Z1 not of the shape\n", 1),
    (INCIDENTS, "", "2024-13", "Z2 no such date\n", 1),
    (INCIDENTS, "", "1999-12", "Z3 out of range\n", 1),
    (INCIDENTS, "", "2100-01", "Z3 out of range\n", 1),
    (STANDING, "", "2024-03-04", "Z1 not of the shape\n", 1),
    (STANDING, "", "2024-13", "Z2 no such date\n", 1),
    (STANDING, "", "1999-12", "Z3 out of range\n", 1),
    (
        Want::MonthReading(MonthReading::Sheet),
        "017",
        "2024-13",
        "N1 bad number\n",
        1,
    ),
    (
        Want::MonthReading(MonthReading::Sheet),
        "17",
        "2024-13",
        "Z2 no such date\n",
        1,
    ),
];

/// Commands on an archive with two drivers: one holds hours of two Mondays, the other none.
static OF_TWO: [Asked; 19] = [
    (
        STRETCHES,
        "17",
        "",
        "\
FROM 2024-03-04
B1 Art 7 at 2024-03-04 13:00 since 2024-03-04 08:30 amount 240
EXAMINED TO 2024-03-04 17:00 unknown
NOT EXAMINED 2024-03-04 17:00 2024-03-11 00:00
FROM 2024-03-11
EXAMINED TO 2024-03-11 11:00 unknown
",
        0,
    ),
    (
        DEBTS,
        "17",
        "",
        "\
FROM 2024-03-04
EXAMINED TO 2024-03-04 17:00 unknown
NOT EXAMINED 2024-03-04 17:00 2024-03-11 00:00
FROM 2024-03-11
EXAMINED TO 2024-03-11 11:00 unknown
",
        0,
    ),
    (
        FORM,
        "17",
        "",
        "\
start,past,activity,author,note
2024-03-04 17:00,2024-03-11 00:00,,,
",
        0,
    ),
    // A day cuts the gap, ends before it, or comes after all that is held.
    (
        FORM,
        "17",
        "2024-03-06",
        "\
start,past,activity,author,note
2024-03-04 17:00,2024-03-06 00:00,,,
",
        0,
    ),
    (
        FORM,
        "17",
        "2024-03-04",
        "start,past,activity,author,note\n",
        0,
    ),
    (
        FORM,
        "17",
        "2000-01-03",
        "start,past,activity,author,note\n",
        0,
    ),
    (
        FORM,
        "17",
        "2099-12-31",
        "\
start,past,activity,author,note
2024-03-04 17:00,2024-03-11 00:00,,,
",
        0,
    ),
    (
        STRETCHES,
        "5",
        "",
        "\
FROM 2024-03-11
EXAMINED TO 2024-03-11 00:00 unknown
",
        0,
    ),
    (
        DEBTS,
        "5",
        "",
        "\
FROM 2024-03-11
EXAMINED TO 2024-03-11 00:00 unknown
",
        0,
    ),
    (FORM, "5", "", "start,past,activity,author,note\n", 0),
    (
        FORM,
        "5",
        "2024-03-18",
        "start,past,activity,author,note\n",
        0,
    ),
    (STRETCHES, "6", "", "S4 unknown driver\n", 1),
    // The lower number comes first, although it was registered last.
    (
        OVERVIEW,
        "",
        "2024-03",
        "\
driver,name,rest,available,work,drive,crew,none,examined,B1,B2,B3,B4,B5,B6,B7,B8,B9,B10
5,Ben Olsen,0,0,0,0,0,44640,0,0,0,0,0,0,0,0,0,0,0
17,Anna Berg,900,0,30,750,0,42960,1680,1,0,0,0,0,0,0,0,0,0
",
        0,
    ),
    (
        INCIDENTS,
        "",
        "2024-03",
        "\
driver,name,kind,article,moment,since,amount
17,Anna Berg,B1,Art 7,2024-03-04 13:00,2024-03-04 08:30,240
",
        0,
    ),
    (
        OVERVIEW,
        "",
        "2024-02",
        "\
driver,name,rest,available,work,drive,crew,none,examined,B1,B2,B3,B4,B5,B6,B7,B8,B9,B10
5,Ben Olsen,0,0,0,0,0,41760,0,0,0,0,0,0,0,0,0,0,0
17,Anna Berg,0,0,0,0,0,41760,0,0,0,0,0,0,0,0,0,0,0
",
        0,
    ),
    (
        INCIDENTS,
        "",
        "2024-04",
        "driver,name,kind,article,moment,since,amount\n",
        0,
    ),
    (
        STANDING,
        "",
        "2024-03",
        "\
driver,name,files,held,horizon,cause,gaps,unknown,first,last_month,breaches,debts,owes,by
5,Ben Olsen,0,,2024-03-11 00:00,unknown,0,0,,0,0,0,0,
17,Anna Berg,0,2024-03-11 11:00,2024-03-11 11:00,unknown,1,9060,2024-03-04 17:00,0,1,0,0,
",
        0,
    ),
    (
        STANDING,
        "",
        "2024-04",
        "\
driver,name,files,held,horizon,cause,gaps,unknown,first,last_month,breaches,debts,owes,by
5,Ben Olsen,0,,2024-03-11 00:00,unknown,0,0,,0,0,0,0,
17,Anna Berg,0,2024-03-11 11:00,2024-03-11 11:00,unknown,1,9060,2024-03-04 17:00,1,0,0,0,
",
        0,
    ),
    (
        STANDING,
        "",
        "2000-01",
        "\
driver,name,files,held,horizon,cause,gaps,unknown,first,last_month,breaches,debts,owes,by
5,Ben Olsen,0,,2024-03-11 00:00,unknown,0,0,,0,0,0,0,
17,Anna Berg,0,2024-03-11 11:00,2024-03-11 11:00,unknown,1,9060,2024-03-04 17:00,0,0,0,0,
",
        0,
    ),
];

/// Two drivers, the greater number first.
static DRIVERS: [&[u8]; 2] = [
    b"driver,holder,key,base,name\n17,0d4431323334353637383930313233,anna-key-1,2024-03-04,Anna Berg\n",
    b"driver,holder,key,base,name\n5,0d4431323334353637383930313234,ben-key-12,2024-03-11,Ben Olsen\n",
];

/// Hours of two Mondays.
const HOURS: &[u8] = b"start,past,activity\n\
    2024-03-04 00:00,2024-03-04 08:00,rest\n\
    2024-03-04 08:00,2024-03-04 08:30,work\n\
    2024-03-04 08:30,2024-03-04 17:00,drive\n\
    2024-03-11 00:00,2024-03-11 07:00,rest\n\
    2024-03-11 07:00,2024-03-11 11:00,drive\n";

/// The job that asks for this.
fn job_of(want: Want, driver: &'static str, word: &'static str) -> Job<'static> {
    Job::AtDesk(DeskJob {
        archive: "a.db",
        wish: Wish {
            want,
            driver: driver.as_bytes(),
            word: word.as_bytes(),
            next: b"",
        },
    })
}

/// An archive with the two drivers and the hours.
pub(crate) fn archive_of_two(alloc: Global) -> Result<Shelf, Fail> {
    let mut shelf = Shelf::new(alloc);
    for driver in DRIVERS {
        answer(alloc, &mut shelf, job_of(Want::Register, "", ""), driver)?;
    }
    answer(alloc, &mut shelf, job_of(Want::Enter, "17", ""), HOURS)?;
    Ok(shelf)
}

/// Asserts the text and the status that an archive answers.
fn assert_answered(
    rt: &impl Abort,
    alloc: Global,
    shelf: &mut Shelf,
    asked: Asked,
) -> Result<(), Fail> {
    let (want, driver, word, text, wanted) = asked;
    let (written, status) = answer(alloc, shelf, job_of(want, driver, word), b"")?;
    assert!(rt;
        written.as_slice() == text.as_bytes(),
        "{want:?} of {driver} and {word}"
    );
    assert!(rt; status == wanted, "{want:?} of {driver} and {word}");
    Ok(())
}

/// The driver's number, a day, a time, and the expected text and status of the forecast.
static FORECASTS: [(&str, &str, &str, &str, u8); 9] = [
    (
        "17",
        "2024-03-11",
        "11:00",
        "\
FROM 2024-03-11
EXAMINED TO 2024-03-11 11:00 unknown
START 2024-03-11 11:00
REST SINCE 2024-03-11 11:00
DAY SINCE 2024-03-11 07:00
REDUCED 0
EXTENDED 0
DRIVEN 2024-03-04 0:00
DRIVEN 2024-03-11 4:00
B1 Art 7 until 2024-03-11 11:30 left 0:30
B2 Art 8(2) until 2024-03-11 22:00 left 11:00
B4 Art 6(1) until 2024-03-11 17:00 left 6:00
B6 Art 6(2) until 2024-03-13 15:00 left 52:00
B7 Art 6(3) until 2024-03-15 01:00 left 86:00
B8 Art 8(6) until 2024-03-17 07:00 left 140:00
B9 Art 8(6) until 2024-03-24 23:59 left 324:59
",
        0,
    ),
    (
        "5",
        "2024-03-11",
        "12:00",
        "\
FROM 2024-03-11
EXAMINED TO 2024-03-11 00:00 unknown
START 2024-03-11 12:00
REST SINCE -
DAY SINCE 2024-03-11 12:00
REDUCED 0
EXTENDED 0
DRIVEN 2024-03-04 0:00
DRIVEN 2024-03-11 0:00
B1 Art 7 until 2024-03-11 16:30 left 4:30
B2 Art 8(2) until 2024-03-12 03:00 left 15:00
B4 Art 6(1) until 2024-03-11 22:00 left 10:00
B6 Art 6(2) until 2024-03-13 20:00 left 56:00
B7 Art 6(3) until 2024-03-15 06:00 left 90:00
B8 Art 8(6) until 2024-03-17 12:00 left 144:00
B9 Art 8(6) until 2024-03-24 23:59 left 323:59
",
        0,
    ),
    ("17", "2024-03-11", "7:00", "Z1 not of the shape\n", 1),
    ("17", "2024-02-30", "07:00", "Z2 no such date\n", 1),
    ("17", "2024-03-11", "24:00", "Z2 no such date\n", 1),
    ("17", "1999-12-31", "07:00", "Z3 out of range\n", 1),
    ("5", "2099-10-29", "13:00", "Z3 out of range\n", 1),
    ("6", "2024-03-11", "07:00", "S4 unknown driver\n", 1),
    ("0", "2024-03-11", "7:00", "N1 bad number\n", 1),
];

#[test]
fn a_forecast_is_of_a_minute(rt: HostRuntime) -> Result<(), Fail> {
    let mut shelf = archive_of_two(rt.alloc())?;
    for (driver, word, time, text, wanted) in FORECASTS {
        let job = Job::AtDesk(DeskJob {
            archive: "a.db",
            wish: Wish {
                want: Want::Ahead,
                driver: driver.as_bytes(),
                word: word.as_bytes(),
                next: time.as_bytes(),
            },
        });
        let (written, status) = answer(rt.alloc(), &mut shelf, job, b"")?;
        assert!(rt;
            written.as_slice() == text.as_bytes(),
            "of {driver}, {word} {time}"
        );
        assert!(rt; status == wanted, "of {driver}, {word} {time}");
    }
    Ok(())
}

/// A day, a time, and the expected text and status of the forecast for all drivers. Past 2099 the cells are empty.
static FORECASTS_OF_ALL: [(&str, &str, &str, u8); 5] = [
    (
        "2024-03-11",
        "11:00",
        "\
driver,name,from,held,start,B1,B2,B3,B4,B5,B6,B7,B8,B9,reduced,extended,before,week
5,Ben Olsen,2024-03-11,,2024-03-11 11:00,2024-03-11 15:30,2024-03-12 02:00,,2024-03-11 21:00,,2024-03-13 19:00,2024-03-15 05:00,2024-03-17 11:00,2024-03-24 23:59,0,0,0,0
17,Anna Berg,2024-03-11,2024-03-11 11:00,2024-03-11 11:00,2024-03-11 11:30,2024-03-11 22:00,,2024-03-11 17:00,,2024-03-13 15:00,2024-03-15 01:00,2024-03-17 07:00,2024-03-24 23:59,0,0,0,240
",
        0,
    ),
    (
        "2099-10-29",
        "13:00",
        "\
driver,name,from,held,start,B1,B2,B3,B4,B5,B6,B7,B8,B9,reduced,extended,before,week
5,Ben Olsen,2024-03-11,,,,,,,,,,,,,,,
17,Anna Berg,2024-03-11,2024-03-11 11:00,,,,,,,,,,,,,,
",
        0,
    ),
    ("2024-03-11", "7:00", "Z1 not of the shape\n", 1),
    ("2024-02-30", "07:00", "Z2 no such date\n", 1),
    ("1999-12-31", "07:00", "Z3 out of range\n", 1),
];

#[test]
fn a_forecast_of_all_drivers_has_a_row_for_each(rt: HostRuntime) -> Result<(), Fail> {
    let mut shelf = archive_of_two(rt.alloc())?;
    for (word, time, text, wanted) in FORECASTS_OF_ALL {
        let job = Job::AtDesk(DeskJob {
            archive: "a.db",
            wish: Wish {
                want: Want::Forecast,
                driver: b"",
                word: word.as_bytes(),
                next: time.as_bytes(),
            },
        });
        let (written, status) = answer(rt.alloc(), &mut shelf, job, b"")?;
        assert!(rt; written.as_slice() == text.as_bytes(), "of {word} {time}");
        assert!(rt; status == wanted, "of {word} {time}");
    }
    Ok(())
}

#[test]
fn of_no_drivers_heads_are_told(rt: HostRuntime) -> Result<(), Fail> {
    let mut shelf = Shelf::new(rt.alloc());
    for asked in OF_NOBODY {
        assert_answered(&rt, rt.alloc(), &mut shelf, asked)?;
    }
    Ok(())
}

#[test]
fn wrong_words_are_told_before_the_archive_is_asked(rt: HostRuntime) -> Result<(), Fail> {
    let mut empty = Shelf::new(rt.alloc());
    let mut shelf = archive_of_two(rt.alloc())?;
    for asked in IN_WRONG_WORDS {
        assert_answered(&rt, rt.alloc(), &mut empty, asked)?;
        assert_answered(&rt, rt.alloc(), &mut shelf, asked)?;
    }
    Ok(())
}

#[test]
fn readings_of_two_drivers_are_told(rt: HostRuntime) -> Result<(), Fail> {
    let mut shelf = archive_of_two(rt.alloc())?;
    for asked in OF_TWO {
        assert_answered(&rt, rt.alloc(), &mut shelf, asked)?;
    }
    Ok(())
}

/// Asserts that the text is written up to the point at which the writer fails. The writer takes seven bytes per call.
fn assert_cut(rt: &impl Abort, alloc: Global, shelf: &mut Shelf, asked: Asked) -> Result<(), Fail> {
    let (want, driver, word, text, wanted) = asked;
    let needed = text.len().div_ceil(7);
    for calls in 0..needed.saturating_add(2) {
        let mut writer = Faulty::new(alloc, b"", 7, calls);
        let job = job_of(want, driver, word);
        let status = performed(
            alloc,
            shelf,
            job,
            &mut Device::new(b"".as_slice()),
            &mut writer,
        )?;
        let front = text
            .as_bytes()
            .iter()
            .take(calls.saturating_mul(7))
            .copied();
        assert!(rt;
            front.eq(writer.written.iter().copied()),
            "{want:?} of {calls} calls"
        );
        assert!(rt;
            status == if calls < needed { 3 } else { wanted },
            "{want:?} of {calls} calls"
        );
    }
    Ok(())
}

#[test]
fn writers_fail_at_each_call(rt: HostRuntime) -> Result<(), Fail> {
    let mut shelf = archive_of_two(rt.alloc())?;
    for asked in OF_TWO {
        assert_cut(&rt, rt.alloc(), &mut shelf, asked)?;
    }
    Ok(())
}

/// Inputs from driver 17's form: without an activity, without an author, and filled in.
static FILLED: [(&[u8], &str, u8); 3] = [
    (
        b"start,past,activity,author,note\n2024-03-04 17:00,2024-03-11 00:00,,,\n",
        "E6 no such activity in row 2\n",
        1,
    ),
    (
        b"start,past,activity,author,note\n2024-03-04 17:00,2024-03-11 00:00,rest,,\n",
        "E10 bad author in row 2\n",
        1,
    ),
    (
        b"start,past,activity,author,note\n2024-03-04 17:00,2024-03-11 00:00,rest,Eva Lund,\n",
        "entered 6 to 6\n",
        0,
    ),
];

#[test]
fn a_form_is_filled_in(rt: HostRuntime) -> Result<(), Fail> {
    let alloc = rt.alloc();
    let mut shelf = archive_of_two(alloc)?;
    for (text, told, wanted) in FILLED {
        let (written, status) = answer(alloc, &mut shelf, job_of(Want::Enter, "17", ""), text)?;
        assert!(rt; written.as_slice() == told.as_bytes(), "{told}");
        assert!(rt; status == wanted, "{told}");
    }
    // No gap is left, and there is one stretch.
    let head = "start,past,activity,author,note\n";
    assert_answered(&rt, alloc, &mut shelf, (FORM, "17", "", head, 0))?;
    let whole = "FROM 2024-03-04\nEXAMINED TO 2024-03-11 11:00 unknown\n";
    assert_answered(&rt, alloc, &mut shelf, (DEBTS, "17", "", whole, 0))?;
    Ok(())
}
