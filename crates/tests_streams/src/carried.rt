use crate::faulty::Faulty;
use crate::same::assert_same;
use std::test::Fail;
use tacho_carry::Carried;
use tacho_cli::{carry_day, tell_carried};
use tacho_desk::Fault;
use tacho_time::TimeFault;

/// Texts of the day from which an archive is carried over, and what they are read as.
const DAYS: [(&str, Result<u32, TimeFault>); 6] = [
    ("2024-03-04", Ok(19_786)),
    ("2000-01-03", Ok(10_959)),
    ("2099-12-31", Ok(47_481)),
    ("2024-3-4", Err(TimeFault::Shape)),
    ("2024-02-30", Err(TimeFault::NoSuchDate)),
    ("2100-01-01", Err(TimeFault::OutOfRange)),
];

#[test]
fn days_are_read(rt: HostRuntime) -> Result<(), Fail> {
    for (text, wanted) in DAYS {
        match (carry_day(text), wanted) {
            (Ok(day), Ok(number)) => assert_same(&rt, day.number(), number),
            (Err(Fault::Time(fault)), Err(wanted)) => assert_same(&rt, fault, wanted),
            _ => Err("another answer")?,
        }
    }
    Ok(())
}

/// How many drivers were carried of how many, and the line.
const LINES: [(usize, usize, &str); 4] = [
    (0, 0, "carried 0 of 0 drivers\n"),
    (12, 14, "carried 12 of 14 drivers\n"),
    (1, 1, "carried 1 of 1 drivers\n"),
    (
        18_446_744_073_709_551_615,
        18_446_744_073_709_551_615,
        "carried 18446744073709551615 of 18446744073709551615 drivers\n",
    ),
];

#[test]
fn what_was_carried_is_written(rt: HostRuntime) -> Result<(), Fail> {
    for (carried, all, line) in LINES {
        let mut writer = Faulty::new(rt.alloc(), b"", 100, 100);
        let status = tell_carried(&mut writer, Carried { carried, all });
        assert_same(&rt, status, 0);
        assert!(&rt; writer.written.as_slice() == line.as_bytes(), "{line}");
        let mut writer = Faulty::new(rt.alloc(), b"", 5, 1);
        assert_same(&rt, tell_carried(&mut writer, Carried { carried, all }), 3);
    }
    Ok(())
}
