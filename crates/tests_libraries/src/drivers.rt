use crate::same::assert_same;
use std::alloc::Global;
use std::test::Fail;
use tacho_line::Line;
use tacho_state::{
    Column, Driver, StoreFault, first_number, is_key, is_name, line_of, outside_of, report_of,
};
use tacho_time::{Activity, Day, Mark, Minute, Span};

const WORK: Mark = Mark {
    activity: Activity::Work,
    crew: false,
};

const REST: Mark = Mark {
    activity: Activity::Rest,
    crew: false,
};

const DRIVE: Mark = Mark {
    activity: Activity::Drive,
    crew: false,
};

/// Returns a span within the first 255 minutes.
fn span(start: u8, past: u8, mark: Mark) -> Span {
    Span {
        start: Minute::new(start as u32),
        past: Minute::new(past as u32),
        mark,
    }
}

#[test]
fn parts_outside_a_range_stay(rt: HostRuntime) -> Result<(), Fail> {
    let spans = [span(10, 40, WORK), span(40, 60, DRIVE)];
    let parts = outside_of(rt.alloc(), &spans, Minute::new(20), Minute::new(50))?;
    let wanted = [span(10, 20, WORK), span(50, 60, DRIVE)];
    assert_same(&rt, parts.as_slice(), wanted.as_slice());
    Ok(())
}

/// Returns why a line of rest up to a minute has no report from a day on, or none if it has one.
fn hindrance(alloc: Global, past: Minute, base: u32) -> Result<Option<StoreFault>, Fail> {
    let rest = Span {
        start: Minute::new(0),
        past,
        mark: REST,
    };
    let line: Line = line_of(alloc, &[rest])?;
    Ok(report_of(alloc, &line, base).err())
}

#[test]
fn a_base_is_a_monday_until_2099(rt: HostRuntime) -> Result<(), Fail> {
    let alloc = rt.alloc();
    let last = Minute::new(68_374_080);
    assert_same(&rt, hindrance(alloc, last, 10_959)?, None);
    assert_same(&rt, hindrance(alloc, last, 47_478)?, None);
    for base in [0, 4, 10_952, 10_960, 47_485, u32::MAX] {
        assert_same(&rt, hindrance(alloc, last, base)?, Some(StoreFault::Store));
    }
    assert_same(
        &rt,
        hindrance(alloc, Minute::new(68_374_081), 10_959)?,
        Some(StoreFault::Store),
    );
    Ok(())
}

#[test]
fn a_report_is_from_its_base(rt: HostRuntime) -> Result<(), Fail> {
    let alloc = rt.alloc();
    let rest = Span {
        start: Minute::new(1440 * 19_786),
        past: Minute::new(1440 * 19_790),
        mark: REST,
    };
    let line: Line = line_of(alloc, &[rest])?;
    let held = report_of(alloc, &line, 19_786)?;
    assert_same(&rt, held.horizon.minute, Minute::new(1440 * 19_790));
    let later = report_of(alloc, &line, 19_793)?;
    assert_same(&rt, later.horizon.minute, Minute::new(1440 * 19_793));
    assert!(rt; later.breaches.is_empty() && later.debts.is_empty());
    Ok(())
}

/// Returns a driver with these columns, and with a valid day and holder.
fn driver(
    alloc: Global,
    number: u32,
    key: &str,
    name: &str,
) -> Result<Result<Driver, Column>, Fail> {
    let key = String::from_str(alloc, key)?;
    let name = String::from_str(alloc, name)?;
    Ok(Driver::new(number, [0; 15], key, Day::new(19_786), name))
}

#[test]
fn the_first_bad_column_is_told(rt: HostRuntime) -> Result<(), Fail> {
    let alloc = rt.alloc();
    assert!(rt; driver(alloc, 17, "anna-key-1", "Anna Berg")?.is_ok());
    assert_same(
        &rt,
        driver(alloc, 0, "anna", "")?.err(),
        Some(Column::Driver),
    );
    assert_same(
        &rt,
        driver(alloc, 1_000_000, "anna-key-1", "Anna Berg")?.err(),
        Some(Column::Driver),
    );
    assert_same(&rt, driver(alloc, 17, "anna", "")?.err(), Some(Column::Key));
    assert_same(
        &rt,
        driver(alloc, 17, "anna-key-1", "")?.err(),
        Some(Column::Name),
    );
    assert_same(
        &rt,
        driver(alloc, 17, "anna-key-1", "Berg, Anna")?.err(),
        Some(Column::Name),
    );
    Ok(())
}

#[test]
fn keys_and_names_have_their_limits(rt: HostRuntime) {
    for (text, wanted) in [
        ("anna-key-1", true),
        ("12345678", true),
        ("1234567", false),
        ("anna key 1", false),
        (
            "0123456789012345678901234567890123456789012345678901234567890123",
            true,
        ),
        (
            "01234567890123456789012345678901234567890123456789012345678901234",
            false,
        ),
    ] {
        assert!(rt; is_key(text) == wanted, "of {text}");
    }
    for (text, wanted) in [
        ("Anna Berg", true),
        ("", false),
        ("Anna \"A\" Berg", false),
        ("Anna\tBerg", false),
        ("Anna\u{7f}Berg", false),
    ] {
        assert!(rt; is_name(text) == wanted, "of {text}");
    }
}

#[test]
fn numbers_end_at_a_million(rt: HostRuntime) {
    assert_same(&rt, first_number(0, 1), Some(1));
    assert_same(&rt, first_number(999_999, 1), Some(1_000_000));
    assert_same(&rt, first_number(1_000_000, 1), None);
    assert_same(&rt, first_number(1_000_000, 0), Some(1_000_001));
}
