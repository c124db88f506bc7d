use crate::same::assert_same;
use std::alloc::Global;
use std::test::Fail;
use tacho_card::{CardFault, Part};
use tacho_sheet::{
    Fault, LeftOut, SheetFault, base_line, entered_line, entry_text, fault_line, file_text,
    imported_line, key_line, name_line, read_driver, read_entries, read_key_line, read_name_line,
    read_number, registered_line, withdrawn_line, withdrawn_range_line,
};
use tacho_state::{Column, Entered, Entry, EntryLine, Imported, StoreFault, file_summary};
use tacho_time::{Activity, Day, Mark, Minute, Span, TimeFault};

// `checks/failing_sheet.py` runs each test with each of its allocations refused in turn. So a test returns an error by `?` if it runs out
// of memory, and asserts everything else.

/// Monday, 4 March 2024, 00:00.
const MONDAY: u32 = 28_491_840;

/// Returns a line of rest that the office enters without a note. An Err means out of memory.
fn rest(alloc: Global, start: u32, past: u32) -> Result<EntryLine, Fail> {
    let author = String::from_str(alloc, "office")?;
    let note = String::from_str(alloc, "")?;
    let (start, past) = (
        Minute::new(start % 68_428_801),
        Minute::new(past % 68_428_801),
    );
    Ok(EntryLine::new(start, past, Activity::Rest, author, note)?)
}

/// Returns true if there is a line, and it is one of rest that the office enters without a note.
fn is_rest(line: Option<&EntryLine>, start: u32, past: u32) -> bool {
    line.is_some_and(|line| {
        (line.start().number(), line.past().number()) == (start, past)
            && line.activity() == Activity::Rest
            && (line.author(), line.note()) == ("office", "")
    })
}

/// Returns the fault of a text. An Err means out of memory.
fn fault_of(alloc: Global, text: &str) -> Result<Option<SheetFault>, SheetFault> {
    match read_entries(alloc, text.as_bytes()) {
        Ok(_) => Ok(None),
        Err(SheetFault::Memory) => Err(SheetFault::Memory),
        Err(fault) => Ok(Some(fault)),
    }
}

/// Returns the fault of a driver's text. An Err means out of memory.
fn driver_fault_of(alloc: Global, text: &str) -> Result<Option<SheetFault>, SheetFault> {
    match read_driver(alloc, text.as_bytes()) {
        Ok(_) => Ok(None),
        Err(SheetFault::Memory) => Err(SheetFault::Memory),
        Err(fault) => Ok(Some(fault)),
    }
}

#[test]
fn entries_are_read(rt: HostRuntime) -> Result<(), Fail> {
    let alloc = rt.alloc();
    let texts = [
        "start,past,activity\n2024-03-04 00:00,2024-03-04 12:00,rest\n2024-03-04 12:00,2024-03-04 12:01,rest\n",
        // As a spreadsheet saves it: a byte order mark, CR LF, quotes; and blank lines.
        "\u{feff}start,past,activity\r\n2024-03-04 00:00,2024-03-04 12:00,rest\r\n2024-03-04 12:00,2024-03-04 12:01,rest\r\n",
        "\"start\",\"past\",\"activity\"\n\"2024-03-04 00:00\",\"2024-03-04 12:00\",\"rest\"\n\n2024-03-04 12:00,2024-03-04 12:01,rest",
        "\u{feff}\r\n\"start\",\"past\",\"activity\"\r\n\r\n\"2024-03-04 00:00\",\"2024-03-04 12:00\",\"rest\"\r\n\r\n\"2024-03-04 12:00\",\"2024-03-04 12:01\",\"rest\"\r\n\r\n",
        // CR alone as the end of a line.
        "start,past,activity\r2024-03-04 00:00,2024-03-04 12:00,rest\r\r2024-03-04 12:00,2024-03-04 12:01,rest\r",
        // A quote that is never closed ends at the end of the text.
        "start,past,activity\n2024-03-04 00:00,2024-03-04 12:00,rest\n2024-03-04 12:00,2024-03-04 12:01,\"rest",
    ];
    for text in texts {
        let lines = read_entries(alloc, text.as_bytes())?;
        assert!(rt; lines.len() == 2, "of {text}");
        assert!(rt; is_rest(lines.first(), MONDAY, MONDAY + 720), "of {text}");
        assert!(rt;
            is_rest(lines.get(1), MONDAY + 720, MONDAY + 721),
            "of {text}"
        );
    }
    // 366 days.
    let text = "start,past,activity\n2024-01-01 00:00,2025-01-01 00:00,rest\n";
    let lines = read_entries(alloc, text.as_bytes())?;
    assert_same(&rt, lines.len(), 1);
    assert!(rt; is_rest(lines.first(), 28_401_120, 28_928_160));
    Ok(())
}

#[test]
fn many_entries_are_read(rt: HostRuntime) -> Result<(), Fail> {
    let alloc = rt.alloc();
    let mut text = String::from_str(alloc, "start,past,activity\n")?;
    for i in 0..40_u32 {
        let start = Minute::new(MONDAY + 720 * i);
        let past = Minute::new(MONDAY + 720 * i + 720);
        writeln!(text, "{start},{past},rest")?;
    }
    let lines = read_entries(alloc, text.as_bytes())?;
    assert_same(&rt, lines.len(), 40);
    for i in 0..40_u32 {
        let (start, past) = (MONDAY + 720 * i, MONDAY + 720 * i + 720);
        assert!(rt; is_rest(lines.get(i as usize), start, past), "of {i}");
    }
    Ok(())
}

#[test]
fn authors_and_notes_are_read(rt: HostRuntime) -> Result<(), Fail> {
    let alloc = rt.alloc();
    for (author, note) in [
        ("Eva Lund", "day off"),
        ("E", ""),
        ("\u{00c5}sa", "f\u{00f6}rs\u{00e4}ljning; 'ill'"),
        (" ", " "),
    ] {
        let text = format!(in alloc;
            "start,past,activity,author,note\n2024-03-04 00:00,2024-03-04 12:00,rest,{author},{note}\n"
        )?;
        let lines = read_entries(alloc, text.as_bytes())?;
        assert!(rt; lines.len() == 1, "of {author}");
        let line = &lines[0];
        assert!(rt;
            (line.author(), line.note()) == (author, note),
            "of {author}"
        );
        assert!(rt; line.past().number() == MONDAY + 720, "of {author}");
    }
    Ok(())
}

/// Returns a text of `count` letters. An Err means out of memory.
fn letters(alloc: Global, count: usize) -> Result<String, Fail> {
    let mut text = String::new(alloc);
    for _ in 0..count {
        text.push_str("a")?;
    }
    Ok(text)
}

#[test]
fn authors_and_notes_have_their_lengths(rt: HostRuntime) -> Result<(), Fail> {
    let alloc = rt.alloc();
    for (author, note, wanted) in [
        (0, 0, Some(Column::Author)),
        (1, 0, None),
        (64, 200, None),
        (65, 200, Some(Column::Author)),
        (64, 201, Some(Column::Note)),
        (65, 201, Some(Column::Author)),
    ] {
        let (author, note) = (letters(alloc, author)?, letters(alloc, note)?);
        let text = format!(in alloc;
            "start,past,activity,author,note\n2024-03-04 00:00,2024-03-04 12:00,rest,{author},{note}\n"
        )?;
        let fault = wanted.map(|column| SheetFault::Text(2, column));
        assert!(rt; fault_of(alloc, &text)? == fault, "of {text}");
        let line = EntryLine::new(
            Minute::new(MONDAY),
            Minute::new(MONDAY + 720),
            Activity::Rest,
            author,
            note,
        );
        assert!(rt; line.err() == wanted, "of {text}");
    }
    Ok(())
}

#[test]
fn a_head_alone_is_an_empty_batch(rt: HostRuntime) -> Result<(), Fail> {
    let texts = [
        "start,past,activity\n",
        "start,past,activity",
        "\u{feff}start,past,activity\r\n\r\n",
    ];
    for text in texts {
        assert!(rt;
            read_entries(rt.alloc(), text.as_bytes())?.is_empty(),
            "of {text}"
        );
    }
    Ok(())
}

/// Texts of entries with another head.
const WRONG_HEADS: &[&str] = &[
    "",
    "\n\r\n\r",
    "\u{feff}",
    "start,past\n",
    "start,past,Activity\n",
    "start,past,activity,\n",
    "start;past;activity\n",
    "past,start,activity\n",
    // The second byte order mark is part of the first field.
    "\u{feff}\u{feff}start,past,activity\n",
    // A quote that is never closed takes the rest of the text into its field.
    "start,past,\"activity\n2024-03-04 00:00,2024-03-04 12:00,rest\n",
];

/// Rows of three columns, and the first fault that they have.
const FAULTY_ROWS: &[(&str, SheetFault)] = &[
    (
        "2024-03-04 00:00,2024-03-04 12:00,rest,work\n",
        SheetFault::Fields(2),
    ),
    ("2024-03-04 00:00,2024-03-04 12:00\n", SheetFault::Fields(2)),
    // A line with a space isn't blank.
    (" \n", SheetFault::Fields(2)),
    ("2024-03-04,2024-03-04 12:00,rest\n", SheetFault::Time(2)),
    (
        "2024-03-04 00:00,2024-02-30 12:00,crew\n",
        SheetFault::Time(2),
    ),
    // A comma or a line end within quotes belongs to the field.
    (
        "\"2024-03-04 00:00,x\",2024-03-04 12:00,rest\n",
        SheetFault::Time(2),
    ),
    (
        "2024-03-04 00:00,\"2024-03-04 12:00\r\n\",rest\n",
        SheetFault::Time(2),
    ),
    (
        "2024-03-04 00:00,2024-03-04 12:00,\"re\nst\"\n",
        SheetFault::Activity(2),
    ),
    // Two quotes within quotes are one.
    (
        "2024-03-04 00:00,2024-03-04 12:00,\"re\"\"st\"\n",
        SheetFault::Activity(2),
    ),
    // A quote that is never closed takes the line end into its field.
    (
        "2024-03-04 00:00,2024-03-04 12:00,\"rest\n",
        SheetFault::Activity(2),
    ),
    (
        "2024-03-04 00:00,2024-03-04 00:00,rest\n",
        SheetFault::Order(2),
    ),
    // A time that can't be read is reported before the order, even if the start is before the past of the previous row.
    (
        "2024-03-04 00:00,2024-03-04 12:00,rest\n2024-03-04 11:59,noon,rest\n",
        SheetFault::Time(3),
    ),
    // A start one minute before the past of the previous row is reported before an unknown activity.
    (
        "2024-03-04 00:00,2024-03-04 12:00,rest\n2024-03-04 11:59,2024-03-04 12:01,crew\n",
        SheetFault::Order(3),
    ),
    // The blank line isn't counted.
    (
        "\n2024-03-04 00:00,2024-03-04 12:00,rest\n2024-03-04 12:00,2024-03-04 12:01,lunch\n",
        SheetFault::Activity(3),
    ),
    (
        "2024-03-04 00:00,2024-03-04 12:00,Rest\n",
        SheetFault::Activity(2),
    ),
    (
        "2024-03-04 00:00,2024-03-04 12:00, rest\n",
        SheetFault::Activity(2),
    ),
    (
        "2024-01-01 00:00,2026-01-01 00:00,ferry\n",
        SheetFault::LeftOut(2, LeftOut::Ferry),
    ),
    (
        "2024-03-04 00:00,2024-03-04 12:00,crew\n",
        SheetFault::LeftOut(2, LeftOut::Crew),
    ),
    (
        "2024-03-04 00:00,2024-03-04 12:00,out\n",
        SheetFault::LeftOut(2, LeftOut::Out),
    ),
    (
        "2024-03-04 00:00,2024-03-04 12:00,derogation\n",
        SheetFault::LeftOut(2, LeftOut::Derogation),
    ),
    (
        "2024-01-01 00:00,2025-01-01 00:01,rest\n",
        SheetFault::TooLong(2),
    ),
];

#[test]
fn the_first_fault_is_told(rt: HostRuntime) -> Result<(), Fail> {
    let alloc = rt.alloc();
    for &text in WRONG_HEADS {
        assert!(rt;
            fault_of(alloc, text)? == Some(SheetFault::Head),
            "of {text}"
        );
    }
    for &(row, fault) in FAULTY_ROWS {
        let text = format!(in alloc; "start,past,activity\n{row}")?;
        assert!(rt; fault_of(alloc, &text)? == Some(fault), "of {row}");
    }
    Ok(())
}

/// Rows of five columns, and the first fault that they have.
const FAULTY_ROWS_WITH_NOTES: &[(&str, SheetFault)] = &[
    (
        "2024-03-04 00:00,2024-03-04 12:00,rest\n",
        SheetFault::Fields(2),
    ),
    (
        "2024-03-04 00:00,2024-03-04 12:00,rest,Eva\n",
        SheetFault::Fields(2),
    ),
    (
        "2024-01-01 00:00,2025-01-01 00:01,rest,,\n",
        SheetFault::TooLong(2),
    ),
    (
        "2024-03-04 00:00,2024-03-04 12:00,lunch,,\n",
        SheetFault::Activity(2),
    ),
    (
        "2024-03-04 00:00,2024-03-04 12:00,rest,,\"a,b\"\n",
        SheetFault::Text(2, Column::Author),
    ),
    (
        "2024-03-04 00:00,2024-03-04 12:00,rest,\"Lund, Eva\",\n",
        SheetFault::Text(2, Column::Author),
    ),
    (
        "2024-03-04 00:00,2024-03-04 12:00,rest,Eva,\"a,b\"\n",
        SheetFault::Text(2, Column::Note),
    ),
    (
        "2024-03-04 00:00,2024-03-04 12:00,rest,Eva,\"a \"\"b\"\"\"\n",
        SheetFault::Text(2, Column::Note),
    ),
    (
        "2024-03-04 00:00,2024-03-04 12:00,rest,Eva,a\tb\n",
        SheetFault::Text(2, Column::Note),
    ),
    (
        "2024-03-04 00:00,2024-03-04 12:00,rest,Eva,a\u{7f}b\n",
        SheetFault::Text(2, Column::Note),
    ),
    (
        "2024-03-04 00:00,2024-03-04 12:00,rest,Eva,\n2024-03-04 12:00,2024-03-04 13:00,rest,,\n",
        SheetFault::Text(3, Column::Author),
    ),
];

#[test]
fn the_first_fault_of_five_columns_is_told(rt: HostRuntime) -> Result<(), Fail> {
    let alloc = rt.alloc();
    for &(row, fault) in FAULTY_ROWS_WITH_NOTES {
        let text = format!(in alloc; "start,past,activity,author,note\n{row}")?;
        assert!(rt; fault_of(alloc, &text)? == Some(fault), "of {row}");
    }
    for head in [
        "start,past,activity,author\n",
        "start,past,activity,note,author\n",
        "start,past,activity,author,note,\n",
        "start,past,activity,Author,note\n",
    ] {
        assert!(rt;
            fault_of(alloc, head)? == Some(SheetFault::Head),
            "of {head}"
        );
    }
    Ok(())
}

#[test]
fn a_fault_of_a_text_has_its_line(rt: HostRuntime) -> Result<(), Fail> {
    let alloc = rt.alloc();
    let rows = [
        (
            "start,past,activity\n2024-01-01 00:00,2025-01-01 00:01,rest\n",
            "E7 too long in row 2\n",
        ),
        (
            "start,past,activity\n2024-01-01 00:00,2024-01-01 00:01,ferry\n",
            "E5 left out in row 2: ferry\n",
        ),
    ];
    for (text, line) in rows {
        let fault = fault_of(alloc, text)?;
        assert!(rt; fault.is_some());
        if let Some(fault) = fault {
            assert_same(&rt, fault_line(Fault::Sheet(fault)).as_str(), line);
        }
    }
    Ok(())
}

#[test]
fn a_driver_is_read(rt: HostRuntime) -> Result<(), Fail> {
    let text =
        "driver,holder,key,base,name\n17,010203040506070809000102030405,anna-key-1,2024-03-04,Anna Berg\n";
    let driver = read_driver(rt.alloc(), text.as_bytes())?;
    assert_same(&rt, driver.number(), 17);
    assert_same(
        &rt,
        driver.holder(),
        [1, 2, 3, 4, 5, 6, 7, 8, 9, 0, 1, 2, 3, 4, 5].as_slice(),
    );
    assert_same(&rt, driver.key(), "anna-key-1");
    assert_same(&rt, driver.base().number(), 19_786);
    assert_same(&rt, driver.name(), "Anna Berg");
    Ok(())
}

/// A driver's text of more than 256 bytes: each column is in quotes, key and name have the greatest length, and there are blank lines.
const LONG_DRIVER: &str =
    "\u{feff}\r\n\"driver\",\"holder\",\"key\",\"base\",\"name\"\r\n\r\n\"999999\",\"010203040506070809000102030405\",\"anna-key-1-anna-key-1-anna-key-1-anna-key-1-anna-key-1-anna-key-\",\"2024-03-04\",\"Anna Berg Anna Berg Anna Berg Anna Berg Anna Berg Anna Berg Anna\"\r\n\r\n\r\n\r\n\r\n\r\n\r\n\r\n\r\n\r\n\r\n\r\n\r\n\r\n\r\n\r\n\r\n\r\n\r\n\r\n\r\n\r\n\r\n\r\n";

#[test]
fn a_long_text_of_a_driver_is_read(rt: HostRuntime) -> Result<(), Fail> {
    assert!(rt; LONG_DRIVER.len() > 256);
    let driver = read_driver(rt.alloc(), LONG_DRIVER.as_bytes())?;
    assert_same(&rt, driver.number(), 999_999);
    assert_same(
        &rt,
        driver.key(),
        "anna-key-1-anna-key-1-anna-key-1-anna-key-1-anna-key-1-anna-key-",
    );
    assert_same(
        &rt,
        driver.name(),
        "Anna Berg Anna Berg Anna Berg Anna Berg Anna Berg Anna Berg Anna",
    );
    Ok(())
}

/// Rows of drivers with one or several bad columns, and the leftmost of these: a number, the holder's digits, a key, a base and a name.
const BAD_COLUMNS: &[(&str, Column)] = &[
    (
        "017,010203040506070809000102030405,anna,Monday,",
        Column::Driver,
    ),
    (
        "1000000,010203040506070809000102030405,anna-key-1,2024-03-04,Anna",
        Column::Driver,
    ),
    (
        "17,0102030405060708090001020304AF,anna,Monday,",
        Column::Holder,
    ),
    (
        "17,01020304050607080900010203040,anna,Monday,",
        Column::Holder,
    ),
    (
        "17,010203040506070809000102030405,anna,Monday,",
        Column::Key,
    ),
    (
        "17,010203040506070809000102030405,anna-key-1,Monday,",
        Column::Base,
    ),
    (
        "17,010203040506070809000102030405,anna-key-1,2024-03-04,",
        Column::Name,
    ),
    // If two columns are bad, the left one is reported.
    ("017,,anna-key-1,2024-03-04,Anna", Column::Driver),
    (
        "017,0d4431303030303030303037303031,anna,2024-03-04,Anna",
        Column::Driver,
    ),
    (
        "017,0d4431303030303030303037303031,anna-key-1,Monday,Anna",
        Column::Driver,
    ),
    (
        "017,0d4431303030303030303037303031,anna-key-1,2024-03-04,",
        Column::Driver,
    ),
    ("17,,anna,2024-03-04,Anna", Column::Holder),
    ("17,,anna-key-1,Monday,Anna", Column::Holder),
    ("17,,anna-key-1,2024-03-04,", Column::Holder),
    (
        "17,0d4431303030303030303037303031,anna,Monday,Anna",
        Column::Key,
    ),
    (
        "17,0d4431303030303030303037303031,anna,2024-03-04,",
        Column::Key,
    ),
    (
        "17,0d4431303030303030303037303031,anna-key-1,Monday,",
        Column::Base,
    ),
    // A holder in capital letters, and one of fourteen bytes.
    (
        "17,0D4431303030303030303037303031,anna,2024-03-04,Anna",
        Column::Holder,
    ),
    (
        "17,0D4431303030303030303037303031,anna-key-1,Monday,Anna",
        Column::Holder,
    ),
    (
        "17,0D4431303030303030303037303031,anna-key-1,2024-03-04,",
        Column::Holder,
    ),
    (
        "17,0d44313030303030303030373030,anna,2024-03-04,Anna",
        Column::Holder,
    ),
    (
        "17,0d44313030303030303030373030,anna-key-1,Monday,Anna",
        Column::Holder,
    ),
    (
        "17,0d44313030303030303030373030,anna-key-1,2024-03-04,",
        Column::Holder,
    ),
];

#[test]
fn the_leftmost_bad_column_is_told(rt: HostRuntime) -> Result<(), Fail> {
    let alloc = rt.alloc();
    for &(row, column) in BAD_COLUMNS {
        let text = format!(in alloc; "driver,holder,key,base,name\n{row}\n")?;
        let fault = SheetFault::Column(column);
        assert_same(&rt, driver_fault_of(alloc, &text)?, Some(fault));
    }
    Ok(())
}

#[test]
fn the_first_fault_of_a_text_of_drivers_is_told(rt: HostRuntime) -> Result<(), Fail> {
    let alloc = rt.alloc();
    let texts = [
        ("", SheetFault::Head),
        ("driver,holder,key,base\n", SheetFault::Head),
        ("driver,holder,key,base,name\n", SheetFault::Fields(2)),
        ("driver,holder,key,base,name\n17\n", SheetFault::Fields(2)),
        (
            "driver,holder,key,base,name\n17,010203040506070809000102030405,anna-key-1,2024-03-04,Anna Berg\n18\n",
            SheetFault::Fields(3),
        ),
        (
            "driver,holder,key,base,name\n17,01,anna-key-1,2024-03-04,Anna Berg\n18\n",
            SheetFault::Column(Column::Holder),
        ),
    ];
    for (text, fault) in texts {
        assert!(rt; driver_fault_of(alloc, text)? == Some(fault), "of {text}");
    }
    Ok(())
}

#[test]
fn numbers_are_read(rt: HostRuntime) -> Result<(), Fail> {
    let rows = [
        ("1", Some(1)),
        ("999999", Some(999_999)),
        ("1000000", None),
        ("0", None),
        ("01", None),
        ("+1", None),
        ("", None),
        (" 1", None),
        ("99999999999999999999", None),
    ];
    for (text, number) in rows {
        assert_same(&rt, read_number(text.as_bytes(), 999_999), number);
    }
    Ok(())
}

#[test]
fn commands_that_were_done_have_lines(rt: HostRuntime) {
    let added = Imported::Added {
        driver: 17,
        number: u32::MAX,
    };
    let many = Entered {
        first: u32::MAX,
        count: u32::MAX,
    };
    let rows = [
        (registered_line(17), "registered 17\n"),
        (withdrawn_line(1), "withdrawn 1\n"),
        (withdrawn_range_line(1, 672), "withdrawn 1 to 672\n"),
        (withdrawn_range_line(3, 3), "withdrawn 3 to 3\n"),
        (
            withdrawn_range_line(0, u32::MAX),
            "withdrawn 0 to 4294967295\n",
        ),
        (key_line(17), "key 17\n"),
        (name_line(u32::MAX), "name 4294967295\n"),
        (imported_line(added), "added driver 17 number 4294967295\n"),
        (
            imported_line(Imported::Repeated { driver: 0 }),
            "repeated driver 0\n",
        ),
        (
            entered_line(Entered { first: 1, count: 3 }),
            "entered 1 to 3\n",
        ),
        (
            entered_line(Entered { first: 4, count: 1 }),
            "entered 4 to 4\n",
        ),
        (
            entered_line(Entered { first: 9, count: 0 }),
            "entered none\n",
        ),
        (entered_line(many), "entered 4294967295 to 8589934589\n"),
        (base_line(Day::new(19_786)), "base 2024-03-04\n"),
    ];
    for (line, text) in &rows {
        assert_same(&rt, line.as_slice(), text.as_bytes());
    }
}

#[test]
fn a_line_has_a_key_or_a_name(rt: HostRuntime) {
    let rows = [
        ("Anna Lind", Some("Anna Lind")),
        ("Anna Lind\n", Some("Anna Lind")),
        ("Anna Lind\r\n", Some("Anna Lind")),
        ("\u{00c5}sa \u{00d6}", Some("\u{00c5}sa \u{00d6}")),
        (" ", Some(" ")),
        ("", None),
        ("\n", None),
        ("Anna Lind\n\n", None),
        ("Anna\nLind", None),
        ("Anna Lind\r", None),
        ("Lind, Anna", None),
        ("Anna \"Lind\"", None),
        ("Anna\tLind", None),
        (
            "0123456789012345678901234567890123456789012345678901234567890123",
            Some("0123456789012345678901234567890123456789012345678901234567890123"),
        ),
        (
            "01234567890123456789012345678901234567890123456789012345678901234",
            None,
        ),
    ];
    for (text, name) in rows {
        assert_same(&rt, read_name_line(text.as_bytes()).ok(), name);
    }
    let bad_name = Err(SheetFault::Column(Column::Name));
    assert_same(&rt, read_name_line(b"\xff"), bad_name);
    assert_same(&rt, read_key_line(b"anna-key-1\r\n"), Ok("anna-key-1"));
    let bad_key = Err(SheetFault::Column(Column::Key));
    assert_same(&rt, read_key_line(b"anna-key-1\r"), bad_key);
    assert_same(&rt, read_key_line(b"anna-ke"), bad_key);
}

#[test]
fn entries_are_printed(rt: HostRuntime) -> Result<(), Fail> {
    let alloc = rt.alloc();
    let author = String::from_str(alloc, "Eva Lund")?;
    let note = String::from_str(alloc, "day off")?;
    let (start, past) = (Minute::new(MONDAY + 360), Minute::new(MONDAY + 1_080));
    let entries = [
        Entry {
            number: 1,
            line: rest(alloc, MONDAY, MONDAY + 720)?,
            withdrawn: true,
        },
        Entry {
            number: 2,
            line: EntryLine::new(start, past, Activity::Work, author, note)?,
            withdrawn: false,
        },
    ];
    let text = entry_text(alloc, &entries)?;
    assert_same(
        &rt,
        text.as_str(),
        "1 2024-03-04 00:00 2024-03-04 12:00 rest withdrawn \"office\" \"\"\n2 2024-03-04 06:00 2024-03-04 18:00 work kept \"Eva Lund\" \"day off\"\n",
    );
    Ok(())
}

/// Returns a span of rest from one minute after Monday's first to before another.
fn rest_span(start: u32, past: u32) -> Span {
    Span {
        start: Minute::new(MONDAY + start % 10_080),
        past: Minute::new(MONDAY + past % 10_080),
        mark: Mark {
            activity: Activity::Rest,
            crew: false,
        },
    }
}

/// The digests are those of the examples of FIPS 180-4.
#[test]
fn card_files_are_listed(rt: HostRuntime) -> Result<(), Fail> {
    let long = "abcdbcdecdefdefgefghfghighijhijkijkljklmklmnlmnomnopnopq";
    let spans = [rest_span(0, 480), rest_span(600, 1_439)];
    let one = [rest_span(1_440, 1_441)];
    let files = [
        file_summary(1, Part::Both, "abc".as_bytes(), &spans),
        file_summary(2, Part::First, "".as_bytes(), &one),
        file_summary(1_000_000, Part::Second, long.as_bytes(), &spans),
    ];
    let text = file_text(rt.alloc(), &files)?;
    assert_same(
        &rt,
        text.as_str(),
        "\
1 both 3 2024-03-04 00:00 2024-03-04 23:59 ba7816bf8f01cfea414140de5dae2223b00361a396177a9cb410ff61f20015ad
2 first 0 2024-03-05 00:00 2024-03-05 00:01 e3b0c44298fc1c149afbf4c8996fb92427ae41e4649b934ca495991b7852b855
1000000 second 56 2024-03-04 00:00 2024-03-04 23:59 248d6a61d20638b8e5c026930c3e6039a33ce45964ff2167f6ecedd419db06c1
",
    );
    Ok(())
}

/// Returns true if the fault has this line.
fn has_line(fault: Fault, line: &str) -> bool {
    fault_line(fault).as_str() == line
}

/// Returns the faults of cards and their lines.
fn card_lines() -> [(CardFault, &'static str); 16] {
    [
        (CardFault::Truncated(261), "C1 truncated block at 261\n"),
        (CardFault::Twice(0x0504, 0), "C2 block 0504 00 twice\n"),
        (CardFault::Twice(0x9abc, 0xef), "C2 block 9abc ef twice\n"),
        (CardFault::NoIdentification, "C3 no identification\n"),
        (
            CardFault::ShortIdentification,
            "C4 identification too short\n",
        ),
        (CardFault::TwoCards, "C5 two cards\n"),
        (CardFault::NoActivity, "C6 no activity data\n"),
        (CardFault::ShortActivity, "C7 activity data too short\n"),
        (CardFault::Pointer, "C8 pointer out of the buffer\n"),
        (CardFault::RecordLength(0), "C9 record length at 0\n"),
        (CardFault::Chain(20), "C10 chain broken at 20\n"),
        (
            CardFault::DayRange(65_530),
            "C11 day out of range at 65530\n",
        ),
        (CardFault::WordMinute(14), "C12 word minute at 14\n"),
        (CardFault::WordOrder(16), "C13 word order at 16\n"),
        (
            CardFault::SelfContradiction(Minute::new(MONDAY)),
            "C14 file contradicts itself at 2024-03-04 00:00\n",
        ),
        (CardFault::Memory, "M1 no memory\n"),
    ]
}

/// The faults of a time, and their lines.
const TIME_LINES: &[(TimeFault, &str)] = &[
    (TimeFault::Shape, "Z1 not of the shape\n"),
    (TimeFault::NoSuchDate, "Z2 no such date\n"),
    (TimeFault::OutOfRange, "Z3 out of range\n"),
];

/// The faults of a text of CSV, and their lines.
const SHEET_LINES: &[(SheetFault, &str)] = &[
    (SheetFault::Head, "E1 wrong head\n"),
    (SheetFault::Fields(2), "E2 wrong fields in row 2\n"),
    (SheetFault::Time(3), "E3 bad time in row 3\n"),
    (SheetFault::Order(10), "E4 wrong order in row 10\n"),
    (
        SheetFault::LeftOut(2, LeftOut::Crew),
        "E5 left out in row 2: crew\n",
    ),
    (
        SheetFault::LeftOut(2, LeftOut::Ferry),
        "E5 left out in row 2: ferry\n",
    ),
    (
        SheetFault::LeftOut(2, LeftOut::Out),
        "E5 left out in row 2: out\n",
    ),
    (
        SheetFault::LeftOut(2, LeftOut::Derogation),
        "E5 left out in row 2: derogation\n",
    ),
    (
        SheetFault::Activity(100),
        "E6 no such activity in row 100\n",
    ),
    (SheetFault::TooLong(2), "E7 too long in row 2\n"),
    (SheetFault::Csv, "E8 csv refused\n"),
    (
        SheetFault::Column(Column::Driver),
        "E9 bad value for driver\n",
    ),
    (
        SheetFault::Column(Column::Holder),
        "E9 bad value for holder\n",
    ),
    (SheetFault::Column(Column::Key), "E9 bad value for key\n"),
    (SheetFault::Column(Column::Base), "E9 bad value for base\n"),
    (SheetFault::Column(Column::Name), "E9 bad value for name\n"),
    (
        SheetFault::Text(2, Column::Author),
        "E10 bad author in row 2\n",
    ),
    (
        SheetFault::Text(12, Column::Note),
        "E10 bad note in row 12\n",
    ),
    (SheetFault::Memory, "M1 no memory\n"),
];

#[test]
fn faults_have_lines(rt: HostRuntime) {
    for &(fault, line) in TIME_LINES {
        assert!(rt; has_line(Fault::Time(fault), line), "of {line}");
    }
    for (fault, line) in card_lines() {
        assert!(rt; has_line(Fault::Card(fault), line), "of {line}");
    }
    let refusals = [
        (StoreFault::DriverTaken, "S1 driver taken\n"),
        (StoreFault::KeyTaken, "S2 key taken\n"),
        (StoreFault::HolderTaken, "S3 holder taken\n"),
        (StoreFault::UnknownDriver, "S4 unknown driver\n"),
        (StoreFault::NotYourCard, "S5 not your card\n"),
        (
            StoreFault::Contradiction(Minute::new(MONDAY + 719)),
            "S6 contradiction at 2024-03-04 11:59\n",
        ),
        (StoreFault::UnknownEntry, "S7 unknown entry\n"),
        (StoreFault::AlreadyWithdrawn, "S8 already withdrawn\n"),
        (StoreFault::NotMonday, "S9 not a Monday\n"),
        (StoreFault::UnknownDownload, "S10 unknown download\n"),
        (StoreFault::Store, "S12 store failed\n"),
        (StoreFault::OldSchema, "S13 old archive\n"),
        (StoreFault::Full, "S14 full\n"),
        (StoreFault::Memory, "M1 no memory\n"),
    ];
    for (fault, line) in refusals {
        assert!(rt; has_line(Fault::Store(fault), line), "of {line}");
    }
    for &(fault, line) in SHEET_LINES {
        assert!(rt; has_line(Fault::Sheet(fault), line), "of {line}");
    }
    let others = [
        (Fault::Number, "N1 bad number\n"),
        (Fault::Order, "N2 wrong order\n"),
        (Fault::Period, "Z4 period\n"),
        (Fault::Part, "P1 bad part\n"),
        (Fault::TooLarge, "X1 too large\n"),
        (Fault::Device, "X2 device failed\n"),
        (Fault::Memory, "M1 no memory\n"),
    ];
    for (fault, line) in others {
        assert!(rt; has_line(fault, line), "of {line}");
    }
}

#[test]
fn refused_cards_have_the_lines_of_their_faults(rt: HostRuntime) {
    for (fault, line) in card_lines() {
        let refusal = Fault::Store(StoreFault::Card(fault));
        assert!(rt; has_line(refusal, line), "of {line}");
    }
}
