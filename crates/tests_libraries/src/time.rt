use crate::same::assert_same;
use std::test::Fail;
use tacho_time::{
    Day, Minute, Month, TimeFault, Week, Weekday, first_minute, month_range, next_week, week_of,
    weekday,
};

/// Returns the number of the day that a text is read as.
fn day(text: &str) -> Result<u32, TimeFault> {
    Ok(Day::read(text.as_bytes())?.number())
}

/// Returns the number of the minute that a text is read as.
fn minute(text: &str) -> Result<u32, TimeFault> {
    Ok(Minute::read(text.as_bytes())?.number())
}

/// Returns the year and the month that a text is read as.
fn month(text: &str) -> Result<(u32, u32), TimeFault> {
    let month = Month::read(text.as_bytes())?;
    Ok((month.year(), month.month()))
}

#[test]
fn days_are_read(rt: HostRuntime) -> Result<(), Fail> {
    for (text, wanted) in [
        ("2024-02-29", Ok(19_782)),
        ("2000-01-03", Ok(10_959)),
        ("2099-12-31", Ok(47_481)),
        ("2023-02-29", Err(TimeFault::NoSuchDate)),
        ("2100-02-29", Err(TimeFault::NoSuchDate)),
        ("2024-00-01", Err(TimeFault::NoSuchDate)),
        ("2024-01-00", Err(TimeFault::NoSuchDate)),
        ("2024-3-04", Err(TimeFault::Shape)),
        ("2024-03-0x", Err(TimeFault::Shape)),
        ("2024-03-04 ", Err(TimeFault::Shape)),
        ("2024/03/04", Err(TimeFault::Shape)),
        ("", Err(TimeFault::Shape)),
        ("2000-01-02", Err(TimeFault::OutOfRange)),
        ("2100-01-01", Err(TimeFault::OutOfRange)),
        ("0000-01-01", Err(TimeFault::OutOfRange)),
    ] {
        assert!(rt; day(text) == wanted, "at {text}");
    }
    Ok(())
}

#[test]
fn minutes_are_read(rt: HostRuntime) -> Result<(), Fail> {
    for (text, wanted) in [
        ("2024-03-04 00:00", Ok(28_491_840)),
        ("2024-03-04 23:59", Ok(28_493_279)),
        ("2024-03-04 24:00", Err(TimeFault::NoSuchDate)),
        ("2024-03-04 23:60", Err(TimeFault::NoSuchDate)),
        ("2024-02-30 00:00", Err(TimeFault::NoSuchDate)),
        // "No such date" is reported before "out of range".
        ("1999-12-31 24:00", Err(TimeFault::NoSuchDate)),
        ("1999-12-31 23:59", Err(TimeFault::OutOfRange)),
        ("2024-03-04T00:00", Err(TimeFault::Shape)),
        ("2024-03-04 0:000", Err(TimeFault::Shape)),
        ("2024-03-04", Err(TimeFault::Shape)),
    ] {
        assert!(rt; minute(text) == wanted, "at {text}");
    }
    Ok(())
}

#[test]
fn months_are_read(rt: HostRuntime) -> Result<(), Fail> {
    for (text, wanted) in [
        ("2024-02", Ok((2024, 2))),
        ("2000-01", Ok((2000, 1))),
        ("2099-12", Ok((2099, 12))),
        ("2024-00", Err(TimeFault::NoSuchDate)),
        ("2024-13", Err(TimeFault::NoSuchDate)),
        ("1999-12", Err(TimeFault::OutOfRange)),
        ("2100-01", Err(TimeFault::OutOfRange)),
        ("2024-2", Err(TimeFault::Shape)),
        ("2024_02", Err(TimeFault::Shape)),
    ] {
        assert!(rt; month(text) == wanted, "at {text}");
    }
    Ok(())
}

#[test]
fn a_month_has_its_minutes(rt: HostRuntime) -> Result<(), Fail> {
    for (text, start, past) in [
        // Days 19,754 to 19,783.
        ("2024-02", 28_445_760, 28_487_520),
        // Days 10,957 to 10,988.
        ("2000-01", 15_778_080, 15_822_720),
        // Days 47,451 to 47,482.
        ("2099-12", 68_329_440, 68_374_080),
    ] {
        let Ok(month) = Month::read(text.as_bytes()) else {
            panic!(rt; "not read");
        };
        let (first, next) = month_range(month);
        assert!(rt; first.number() == start, "at {text}");
        assert!(rt; next.number() == past, "at {text}");
    }
    Ok(())
}

#[test]
fn a_week_begins_on_monday(rt: HostRuntime) -> Result<(), Fail> {
    // 2024-03-04.
    let monday = Minute::new(28_491_840);
    let week = week_of(monday);
    assert_same(&rt, week, Week::new(2826));
    assert_same(&rt, first_minute(week), monday);
    assert_same(&rt, week_of(Minute::new(28_491_839)), Week::new(2825));
    assert_same(&rt, next_week(Week::new(2825)).number(), 2826);
    assert_same(&rt, weekday(monday.day()), Weekday::Monday);
    assert_same(&rt, weekday(Day::new(0)), Weekday::Thursday);
    Ok(())
}

#[test]
fn a_minute_is_written_alike_in_each_style(rt: HostRuntime) -> Result<(), Fail> {
    let minute = Minute::new(28_491_840);
    for text in [
        format!(in rt.alloc(); "{minute}")?,
        format!(in rt.alloc(); "{minute:20}")?,
        format!(in rt.alloc(); "{minute:>20}")?,
    ] {
        assert_same(&rt, text.as_str(), "2024-03-04 00:00");
    }
    Ok(())
}
