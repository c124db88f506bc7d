use crate::march::{line_of, month};
use std::alloc::{AllocError, Global};
use std::process::Abort;
use std::test::Fail;
use tacho_line::Line;
use tacho_rules::can_be_examined;
use tacho_sheet::why_text;
use tacho_stretches::{Stretch, stretches};
use tacho_time::Activity::{Drive, Rest, Work};
use tacho_time::{Activity, Mark, Minute, Span};

// `checks/failing_sheet.py` runs each test with each of its allocations refused in turn. So a test returns an error by `?` if it runs out
// of memory, and asserts everything else.

/// 2024-03-04 00:00, a Monday's first minute.
const MONDAY: u32 = 28_491_840;

/// An activity from one minute to another, counted from that Monday.
type Piece = (u16, u16, Activity);

/// A line's name, its pieces, and what is printed for March 2024.
type Row = (&'static str, &'static [Piece], &'static str);

/// Lines and their evidence, worked out by hand.
static ROWS: [Row; 5] = [
    ("nothing", &[], ""),
    (
        "no breach",
        &[(0, 480, Rest), (480, 750, Drive), (750, 1440, Rest)],
        "",
    ),
    // Four hours, a rest of half an hour, and 45 minutes: 15 minutes too many. The rest of 14 minutes isn't listed.
    (
        "driving on both sides of a rest",
        &[
            (0, 480, Rest),
            (480, 600, Drive),
            (600, 614, Rest),
            (614, 734, Drive),
            (734, 764, Rest),
            (764, 809, Drive),
            (809, 1440, Rest),
        ],
        "\
B1 Art 7 at 2024-03-04 13:14 since 2024-03-04 08:00 amount 15
  break - 2024-03-04 08:00 -
  drive 2024-03-04 08:00 2024-03-04 10:00 2:00 2:00
  drive 2024-03-04 10:14 2024-03-04 12:14 2:00 4:00
  rest 2024-03-04 12:14 2024-03-04 12:44 0:30
  drive 2024-03-04 12:44 2024-03-04 13:29 0:45 4:45
  break 2024-03-04 13:29 - -
",
    ),
    // Work from 08:00 to 09:00 of the next day, but for a rest of three hours: the daily rest begins an hour after the 24 hours have ended.
    (
        "a day without a daily rest",
        &[
            (0, 480, Rest),
            (480, 900, Work),
            (900, 1080, Rest),
            (1080, 1980, Work),
            (1980, 2880, Rest),
        ],
        "\
B2 Art 8(2) at 2024-03-04 23:00 since 2024-03-04 08:00 amount 600
  day 2024-03-04 08:00 2024-03-05 09:00
  limit 2024-03-05 08:00
  rest 2024-03-04 15:00 2024-03-04 18:00 3:00
  rest 2024-03-05 09:00 - - portion -1:00
",
    ),
    // After the gap of a day the driver is examined anew from the next Monday on: each stretch has its own evidence.
    (
        "two stretches",
        &[
            (0, 480, Rest),
            (480, 751, Drive),
            (751, 1440, Rest),
            (10_080, 10_500, Rest),
            (10_500, 10_772, Drive),
        ],
        "\
B1 Art 7 at 2024-03-04 12:30 since 2024-03-04 08:00 amount 1
  break - 2024-03-04 08:00 -
  drive 2024-03-04 08:00 2024-03-04 12:31 4:31 4:31
  break 2024-03-04 12:31 - -
B1 Art 7 at 2024-03-11 11:30 since 2024-03-11 07:00 amount 2
  break - 2024-03-11 07:00 -
  drive 2024-03-11 07:00 2024-03-11 11:32 4:32 4:32
  break 2024-03-11 11:32 - -
",
    ),
];

/// Returns a minute, counted from the Monday.
fn at(minute: u16) -> Minute {
    Minute::new(MONDAY + u32::from(minute))
}

/// Returns the spans of pieces.
fn spans_of(alloc: Global, pieces: &[Piece]) -> Result<Vec<Span>, AllocError> {
    let mut spans = Vec::new(alloc);
    for &(start, past, activity) in pieces {
        spans.push(Span {
            start: at(start),
            past: at(past),
            mark: Mark {
                activity,
                crew: false,
            },
        })?;
    }
    Ok(spans)
}

/// Returns the stretches of a line from the Monday on.
fn stretches_of(alloc: Global, line: &Line) -> Result<Vec<Stretch>, Fail> {
    let base = at(0);
    if !can_be_examined(line, base) {
        return Err(Fail::new("a line that can't be examined"));
    }
    Ok(stretches(alloc, line, base)?)
}

#[test]
fn breaches_have_their_evidence(rt: HostRuntime) -> Result<(), Fail> {
    let alloc = rt.alloc();
    let march = month(b"2024-03")?;
    for (name, pieces, wanted) in &ROWS {
        let line = line_of(alloc, &spans_of(alloc, pieces)?)?;
        let found = stretches_of(alloc, &line)?;
        match why_text(alloc, &line, &found, march)? {
            Some(text) => assert!(&rt; text.as_str() == *wanted, "of {name}: {text}"),
            None => return Err(Fail::new("a stretch that can't be examined")),
        }
    }
    Ok(())
}

/// A line that doesn't end by the end of 2099 can't be examined: the stretches aren't its own.
#[test]
fn stretches_of_another_line_have_no_evidence(rt: HostRuntime) -> Result<(), Fail> {
    let alloc = rt.alloc();
    let pieces = [(0, 480, Rest), (480, 751, Drive)];
    let found = stretches_of(alloc, &line_of(alloc, &spans_of(alloc, &pieces)?)?)?;
    let late = Span {
        start: Minute::new(68_374_080),
        past: Minute::new(68_374_081),
        mark: Mark {
            activity: Rest,
            crew: false,
        },
    };
    let line = line_of(alloc, &[late])?;
    let march = month(b"2024-03")?;
    assert!(&rt;
        why_text(alloc, &line, &found, march)?.is_none(),
        "a text of a line that is too long"
    );
    Ok(())
}
