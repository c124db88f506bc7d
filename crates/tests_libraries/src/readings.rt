use crate::march::{at, line_of, month, span};
use crate::pieces::breach;
use crate::same::assert_same;
use std::alloc::Global;
use std::test::Fail;
use tacho_law::{Breach, Debt, Kind};
use tacho_line::{Cause, Horizon, Line, LineFault};
use tacho_rules::Report;
use tacho_sheet::{
    debt_text, form_text, incident_head, overview_head, push_incidents, push_overview, stretch_text,
};
use tacho_stretches::Stretch;
use tacho_time::{Activity, Minute, Week};

// `checks/failing_sheet.py` runs each test with each of its allocations refused in turn. So a test returns an error by `?` if it runs out
// of memory, and asserts everything else.

/// Monday, 26 February 2024, 00:00.
const FEBRUARY: u32 = 28_481_760;

/// 2100-01-01 00:00.
const LATEST: u32 = 68_374_080;

/// Returns a debt of a week.
fn debt(week: u32, amount: u32, deadline: Minute, paid_by: Option<Minute>) -> Debt {
    Debt {
        week: Week::new(week.min(3000)),
        amount,
        deadline,
        paid_by,
    }
}

/// Returns a horizon that isn't held.
fn unknown(minute: Minute) -> Horizon {
    Horizon {
        minute,
        cause: Cause::Unknown,
    }
}

/// Returns a stretch with these breaches.
fn stretch(
    alloc: Global,
    monday: Minute,
    horizon: Horizon,
    breaches: &[Breach],
    unseen: Option<Minute>,
) -> Result<Stretch, Fail> {
    Ok(Stretch {
        monday,
        report: Report {
            horizon,
            breaches: Vec::from_slice(alloc, breaches)?,
            debts: Vec::new(alloc),
        },
        unseen,
    })
}

/// Returns a stretch with these debts.
fn owing(
    alloc: Global,
    monday: Minute,
    minute: Minute,
    debts: &[Debt],
    unseen: Option<Minute>,
) -> Result<Stretch, Fail> {
    Ok(Stretch {
        monday,
        report: Report {
            horizon: unknown(minute),
            breaches: Vec::new(alloc),
            debts: Vec::from_slice(alloc, debts)?,
        },
        unseen,
    })
}

/// Returns rest, work and driving on Monday the 4th, and rest and driving on the next Monday.
fn two_mondays(alloc: Global) -> Result<Line, LineFault> {
    let spans = [
        span(4, 0, 480, Activity::Rest, false),
        span(4, 480, 510, Activity::Work, false),
        span(4, 510, 1020, Activity::Drive, false),
        span(11, 0, 420, Activity::Rest, false),
        span(11, 420, 660, Activity::Drive, false),
    ];
    line_of(alloc, &spans)
}

/// Returns the stretches of these two Mondays.
fn of_two_mondays(alloc: Global) -> Result<[Stretch; 2], Fail> {
    let late = breach(Kind::B1, at(4, 780), at(4, 510), 240);
    Ok([
        stretch(
            alloc,
            at(4, 0),
            unknown(at(4, 1020)),
            &[late],
            Some(at(11, 0)),
        )?,
        stretch(alloc, at(11, 0), unknown(at(11, 660)), &[], None)?,
    ])
}

#[test]
fn stretches_are_printed(rt: HostRuntime) -> Result<(), Fail> {
    let alloc = rt.alloc();
    let text = stretch_text(alloc, &of_two_mondays(alloc)?)?;
    assert_same(
        &rt,
        text.as_str(),
        "FROM 2024-03-04\nB1 Art 7 at 2024-03-04 13:00 since 2024-03-04 08:30 amount 240\nEXAMINED TO 2024-03-04 17:00 unknown\nNOT EXAMINED 2024-03-04 17:00 2024-03-11 00:00\nFROM 2024-03-11\nEXAMINED TO 2024-03-11 11:00 unknown\n",
    );
    let crew = Horizon {
        minute: at(5, 360),
        cause: Cause::Crew,
    };
    let last = [stretch(alloc, at(4, 0), crew, &[], Some(at(5, 900)))?];
    let text = stretch_text(alloc, &last)?;
    assert_same(
        &rt,
        text.as_str(),
        "FROM 2024-03-04\nEXAMINED TO 2024-03-05 06:00 crew\nNOT EXAMINED 2024-03-05 06:00 2024-03-05 15:00\n",
    );
    // If nothing is held, the horizon is the base.
    let alone = [stretch(alloc, at(4, 0), unknown(at(4, 0)), &[], None)?];
    let text = stretch_text(alloc, &alone)?;
    assert_same(
        &rt,
        text.as_str(),
        "FROM 2024-03-04\nEXAMINED TO 2024-03-04 00:00 unknown\n",
    );
    Ok(())
}

#[test]
fn debts_of_stretches_are_printed(rt: HostRuntime) -> Result<(), Fail> {
    let alloc = rt.alloc();
    // The first stretch's horizon is a minute before the deadline, and the second one's is long after it.
    let open = [debt(2826, 1260, at(32, 0), None)];
    // The second stretch's horizon is the minute of the first deadline.
    let others = [
        debt(2830, 345, at(60, 0), None),
        debt(2831, 900, at(60, 1440), None),
        debt(2832, 60, at(60, 1440), Some(at(58, 61))),
    ];
    let stretches = [
        owing(alloc, at(4, 0), at(31, 1439), &open, Some(at(32, 0)))?,
        owing(alloc, at(32, 0), at(60, 0), &others, None)?,
    ];
    let text = debt_text(alloc, &stretches)?;
    assert_same(
        &rt,
        text.as_str(),
        "FROM 2024-03-04\nWEEK 2024-03-04 owes 1260 by 2024-04-01 00:00 open\nEXAMINED TO 2024-03-31 23:59 unknown\nNOT EXAMINED 2024-03-31 23:59 2024-04-01 00:00\nFROM 2024-04-01\nWEEK 2024-04-01 owes 345 by 2024-04-29 00:00 late\nWEEK 2024-04-08 owes 900 by 2024-04-30 00:00 open\nWEEK 2024-04-15 owes 60 by 2024-04-30 00:00 paid 2024-04-27 01:01\nEXAMINED TO 2024-04-29 00:00 unknown\n",
    );
    // Breaches aren't listed there, and debts aren't listed among the breaches.
    let text = debt_text(alloc, &of_two_mondays(alloc)?)?;
    assert_same(
        &rt,
        text.as_str(),
        "FROM 2024-03-04\nEXAMINED TO 2024-03-04 17:00 unknown\nNOT EXAMINED 2024-03-04 17:00 2024-03-11 00:00\nFROM 2024-03-11\nEXAMINED TO 2024-03-11 11:00 unknown\n",
    );
    let text = stretch_text(alloc, &stretches)?;
    assert_same(
        &rt,
        text.as_str(),
        "FROM 2024-03-04\nEXAMINED TO 2024-03-31 23:59 unknown\nNOT EXAMINED 2024-03-31 23:59 2024-04-01 00:00\nFROM 2024-04-01\nEXAMINED TO 2024-04-29 00:00 unknown\n",
    );
    Ok(())
}

/// Returns stretches over the month's two ends, with breaches at its first and last minutes and at the minutes next to them.
fn over_the_ends(alloc: Global) -> Result<[Stretch; 2], Fail> {
    let first = [
        breach(Kind::B2, at(0, 1439), at(0, 0), 1),
        breach(Kind::B6, at(1, 0), at(0, 0), 2),
    ];
    let second = [
        breach(Kind::B4, at(31, 1439), at(31, 0), 3),
        breach(Kind::B2, at(32, 0), at(31, 0), 4),
    ];
    Ok([
        stretch(
            alloc,
            Minute::new(FEBRUARY),
            unknown(at(1, 10)),
            &first,
            Some(at(25, 0)),
        )?,
        stretch(alloc, at(25, 0), unknown(at(33, 0)), &second, None)?,
    ])
}

/// Returns what is held near the month's two ends and within the month.
fn near_the_ends(alloc: Global) -> Result<Line, LineFault> {
    let spans = [
        span(0, 0, 1440, Activity::Rest, false),
        span(1, 0, 10, Activity::Rest, false),
        span(2, 0, 60, Activity::Drive, true),
        span(3, 0, 5, Activity::Available, false),
        span(31, 1430, 1440, Activity::Drive, false),
        span(32, 0, 480, Activity::Rest, false),
    ];
    line_of(alloc, &spans)
}

#[test]
fn an_overview_is_printed(rt: HostRuntime) -> Result<(), Fail> {
    let alloc = rt.alloc();
    let mut text = overview_head(alloc)?;
    let march = month(b"2024-03")?;
    push_overview(
        alloc,
        &mut text,
        17,
        "Anna Berg",
        &two_mondays(alloc)?,
        &of_two_mondays(alloc)?,
        march,
    )?;
    // The first stretch has 10 minutes in the month, and the second has seven days.
    push_overview(
        alloc,
        &mut text,
        999_999,
        "Bo",
        &near_the_ends(alloc)?,
        &over_the_ends(alloc)?,
        march,
    )?;
    assert_same(
        &rt,
        text.as_str(),
        "driver,name,rest,available,work,drive,crew,none,examined,B1,B2,B3,B4,B5,B6,B7,B8,B9,B10\n17,Anna Berg,900,0,30,750,0,42960,1680,1,0,0,0,0,0,0,0,0,0\n999999,Bo,10,5,0,10,60,44555,10090,0,0,0,1,0,1,0,0,0,0\n",
    );
    Ok(())
}

/// Returns a driver's row of a month, from what is near the ends of March.
fn row_of(alloc: Global, text: &[u8]) -> Result<String, Fail> {
    let mut row = String::new(alloc);
    let (line, stretches) = (near_the_ends(alloc)?, over_the_ends(alloc)?);
    push_overview(alloc, &mut row, 1, "Bo", &line, &stretches, month(text)?)?;
    Ok(row)
}

#[test]
fn an_overview_is_cut_at_the_ends_of_the_month(rt: HostRuntime) -> Result<(), Fail> {
    let alloc = rt.alloc();
    // Four days of February and one of April are examined.
    assert_same(
        &rt,
        row_of(alloc, b"2024-02")?.as_str(),
        "1,Bo,1440,0,0,0,0,40320,5760,0,1,0,0,0,0,0,0,0,0\n",
    );
    assert_same(
        &rt,
        row_of(alloc, b"2024-04")?.as_str(),
        "1,Bo,480,0,0,0,0,42720,1440,0,1,0,0,0,0,0,0,0,0\n",
    );
    assert_same(
        &rt,
        row_of(alloc, b"2024-05")?.as_str(),
        "1,Bo,0,0,0,0,0,44640,0,0,0,0,0,0,0,0,0,0,0\n",
    );
    Ok(())
}

/// Returns stretches, one of which ends with the month's last minute; the next one begins with the next month's first minute.
fn beside_the_end(alloc: Global) -> Result<[Stretch; 3], Fail> {
    let late = breach(Kind::B10, at(32, 0), at(4, 0), 1260);
    Ok([
        stretch(alloc, at(4, 0), unknown(at(4, 0)), &[], Some(at(25, 0)))?,
        stretch(
            alloc,
            at(25, 0),
            unknown(at(31, 1439)),
            &[],
            Some(at(32, 0)),
        )?,
        stretch(alloc, at(32, 0), unknown(at(32, 1)), &[late], None)?,
    ])
}

#[test]
fn a_stretch_is_of_the_months_in_which_it_has_minutes(rt: HostRuntime) -> Result<(), Fail> {
    let alloc = rt.alloc();
    let (line, stretches) = (Line::empty(alloc), beside_the_end(alloc)?);
    let mut text = String::new(alloc);
    let (march, april) = (month(b"2024-03")?, month(b"2024-04")?);
    push_overview(alloc, &mut text, 1, "Bo", &line, &stretches, march)?;
    push_overview(alloc, &mut text, 1, "Bo", &line, &stretches, april)?;
    assert_same(
        &rt,
        text.as_str(),
        "1,Bo,0,0,0,0,0,44640,10079,0,0,0,0,0,0,0,0,0,0\n1,Bo,0,0,0,0,0,43200,1,0,0,0,0,0,0,0,0,0,1\n",
    );
    Ok(())
}

#[test]
fn incidents_are_printed(rt: HostRuntime) -> Result<(), Fail> {
    let alloc = rt.alloc();
    let mut text = incident_head(alloc)?;
    let march = month(b"2024-03")?;
    push_incidents(&mut text, 17, "Anna Berg", &of_two_mondays(alloc)?, march)?;
    push_incidents(&mut text, 999_999, "Bo", &over_the_ends(alloc)?, march)?;
    assert_same(
        &rt,
        text.as_str(),
        "driver,name,kind,article,moment,since,amount\n17,Anna Berg,B1,Art 7,2024-03-04 13:00,2024-03-04 08:30,240\n999999,Bo,B6,Art 6(2),2024-03-01 00:00,2024-02-29 00:00,2\n999999,Bo,B4,Art 6(1),2024-03-31 23:59,2024-03-31 00:00,3\n",
    );
    Ok(())
}

#[test]
fn incidents_are_cut_at_the_ends_of_the_month(rt: HostRuntime) -> Result<(), Fail> {
    let alloc = rt.alloc();
    let stretches = over_the_ends(alloc)?;
    let mut text = String::new(alloc);
    push_incidents(&mut text, 1, "Bo", &stretches, month(b"2024-02")?)?;
    assert_same(
        &rt,
        text.as_str(),
        "1,Bo,B2,Art 8(2),2024-02-29 23:59,2024-02-29 00:00,1\n",
    );
    let mut text = String::new(alloc);
    push_incidents(&mut text, 1, "Bo", &stretches, month(b"2024-04")?)?;
    assert_same(
        &rt,
        text.as_str(),
        "1,Bo,B2,Art 8(2),2024-04-01 00:00,2024-03-31 00:00,4\n",
    );
    let mut text = String::new(alloc);
    push_incidents(&mut text, 1, "Bo", &stretches, month(b"2024-05")?)?;
    assert_same(&rt, text.as_str(), "");
    Ok(())
}

#[test]
fn each_rule_has_its_column_and_its_row(rt: HostRuntime) -> Result<(), Fail> {
    let alloc = rt.alloc();
    let breaches = [
        breach(Kind::B1, at(4, 780), at(4, 510), 240),
        breach(Kind::B2, at(5, 0), at(4, 480), 1),
        breach(Kind::B3, at(6, 0), at(4, 480), 2),
        breach(Kind::B4, at(7, 0), at(4, 480), 3),
        breach(Kind::B5, at(8, 0), at(4, 480), 4),
    ];
    let others = [
        breach(Kind::B6, at(12, 0), at(11, 480), 5),
        breach(Kind::B7, at(13, 0), at(11, 480), 6),
        breach(Kind::B8, at(14, 0), at(11, 480), 7),
        breach(Kind::B9, at(15, 0), at(11, 480), 0),
        breach(Kind::B10, at(16, 0), at(11, 480), 1260),
        breach(Kind::B10, at(16, 1), at(11, 480), 1),
    ];
    let stretches = [
        stretch(
            alloc,
            at(4, 0),
            unknown(at(9, 0)),
            &breaches,
            Some(at(11, 0)),
        )?,
        stretch(alloc, at(11, 0), unknown(at(17, 0)), &others, None)?,
    ];
    let mut text = String::new(alloc);
    push_incidents(&mut text, 7, "Bo", &stretches, month(b"2024-03")?)?;
    assert_same(
        &rt,
        text.as_str(),
        "7,Bo,B1,Art 7,2024-03-04 13:00,2024-03-04 08:30,240\n7,Bo,B2,Art 8(2),2024-03-05 00:00,2024-03-04 08:00,1\n7,Bo,B3,Art 8(4),2024-03-06 00:00,2024-03-04 08:00,2\n7,Bo,B4,Art 6(1),2024-03-07 00:00,2024-03-04 08:00,3\n7,Bo,B5,Art 6(1),2024-03-08 00:00,2024-03-04 08:00,4\n7,Bo,B6,Art 6(2),2024-03-12 00:00,2024-03-11 08:00,5\n7,Bo,B7,Art 6(3),2024-03-13 00:00,2024-03-11 08:00,6\n7,Bo,B8,Art 8(6),2024-03-14 00:00,2024-03-11 08:00,7\n7,Bo,B9,Art 8(6),2024-03-15 00:00,2024-03-11 08:00,0\n7,Bo,B10,Art 8(6b),2024-03-16 00:00,2024-03-11 08:00,1260\n7,Bo,B10,Art 8(6b),2024-03-16 00:01,2024-03-11 08:00,1\n",
    );
    let mut text = String::new(alloc);
    let line = Line::empty(alloc);
    push_overview(
        alloc,
        &mut text,
        7,
        "Bo",
        &line,
        &stretches,
        month(b"2024-03")?,
    )?;
    // Five days and six.
    assert_same(
        &rt,
        text.as_str(),
        "7,Bo,0,0,0,0,0,44640,15840,1,1,1,1,1,1,1,1,1,2\n",
    );
    Ok(())
}

/// Minutes from Monday the 4th on that aren't held, and the rows of the form.
const GAPS: &[(u32, &str)] = &[
    (0, ""),
    (1, "2024-03-04 00:00,2024-03-04 00:01,,,\n"),
    (527_039, "2024-03-04 00:00,2025-03-04 23:59,,,\n"),
    (527_040, "2024-03-04 00:00,2025-03-05 00:00,,,\n"),
    (
        527_041,
        "2024-03-04 00:00,2025-03-05 00:00,,,\n2025-03-05 00:00,2025-03-05 00:01,,,\n",
    ),
    (
        1_054_080,
        "2024-03-04 00:00,2025-03-05 00:00,,,\n2025-03-05 00:00,2026-03-06 00:00,,,\n",
    ),
    (
        1_054_081,
        "2024-03-04 00:00,2025-03-05 00:00,,,\n2025-03-05 00:00,2026-03-06 00:00,,,\n2026-03-06 00:00,2026-03-06 00:01,,,\n",
    ),
];

#[test]
fn a_form_has_rows_of_366_days(rt: HostRuntime) -> Result<(), Fail> {
    let alloc = rt.alloc();
    let base = at(4, 0);
    for &(minutes, rows) in GAPS {
        let end = Minute::new(base.number().saturating_add(minutes).min(LATEST));
        let text = form_text(alloc, &Line::empty(alloc), base, end)?;
        let wanted = format!(in alloc; "start,past,activity,author,note\n{rows}")?;
        assert_same(&rt, text.as_str(), wanted.as_str());
    }
    Ok(())
}

#[test]
fn a_form_is_printed(rt: HostRuntime) -> Result<(), Fail> {
    let alloc = rt.alloc();
    let line = two_mondays(alloc)?;
    let text = form_text(alloc, &line, at(4, 0), at(11, 660))?;
    assert_same(
        &rt,
        text.as_str(),
        "start,past,activity,author,note\n2024-03-04 17:00,2024-03-11 00:00,,,\n",
    );
    // Gaps at the base and before the end; minutes with a second driver are held.
    let held = [
        span(4, 1, 60, Activity::Rest, false),
        span(4, 60, 120, Activity::Drive, true),
        span(5, 0, 1, Activity::Work, false),
    ];
    let text = form_text(alloc, &line_of(alloc, &held)?, at(4, 0), at(5, 2))?;
    assert_same(
        &rt,
        text.as_str(),
        "start,past,activity,author,note\n2024-03-04 00:00,2024-03-04 00:01,,,\n2024-03-04 02:00,2024-03-05 00:00,,,\n2024-03-05 00:01,2024-03-05 00:02,,,\n",
    );
    // No gap.
    let text = form_text(alloc, &line, at(4, 0), at(4, 1020))?;
    assert_same(&rt, text.as_str(), "start,past,activity,author,note\n");
    let text = form_text(alloc, &line, at(25, 0), at(25, 0))?;
    assert_same(&rt, text.as_str(), "start,past,activity,author,note\n");
    Ok(())
}
