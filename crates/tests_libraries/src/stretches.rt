use crate::march::line_of;
use crate::same::assert_same;
use std::alloc::{AllocError, Global};
use std::process::Abort;
use std::test::Fail;
use tacho_law::{Breach, Debt, Kind};
use tacho_line::{Cause, Horizon, Line};
use tacho_rules::can_be_examined;
use tacho_stretches::{FoundStretches, Stretch, StretchPass, range_of, stretches};
use tacho_time::Activity::{Drive, Rest, Work};
use tacho_time::{Activity, GREATEST_MINUTE, Mark, Minute, Span, Week};

// `checks/failing_sheet.py` runs each test with each of its allocations refused in turn. So a test returns an error by `?` if it runs out
// of memory, and asserts everything else.

/// 2024-03-04 00:00, a Monday's first minute.
const MONDAY: u32 = 28_491_840;

/// 2100-01-01 00:00: no span may end after it.
const LATEST: u32 = 68_374_080;

/// An activity from one minute to another, and whether there is a second driver. Here and below, minutes are counted from that Monday.
type Piece = (u16, u16, Activity, bool);

/// A stretch: its Monday, its horizon and the horizon's cause, the end of what isn't examined after it, and the number of its breaches.
type Judged = (u16, u16, Cause, Option<u16>, usize);

/// A line's name, its pieces, a base, the stretches from there on, and the end of what is held.
type Row = (&'static str, &'static [Piece], u16, &'static [Judged], u16);

/// Lines and their stretches.
static ROWS: [Row; 14] = [
    ("nothing", &[], 0, &[(0, 0, Cause::Unknown, None, 0)], 0),
    (
        "a span before the base",
        &[(0, 360, Rest, false), (360, 631, Drive, false)],
        10_080,
        &[(10_080, 10_080, Cause::Unknown, None, 0)],
        10_080,
    ),
    (
        "a span that ends at the base",
        &[(0, 10_080, Rest, false)],
        10_080,
        &[(10_080, 10_080, Cause::Unknown, None, 0)],
        10_080,
    ),
    // 271 of the 300 minutes of driving come after the base.
    (
        "a span over the base",
        &[(10_051, 10_351, Drive, false)],
        10_080,
        &[(10_080, 10_351, Cause::Unknown, None, 1)],
        10_351,
    ),
    (
        "a gap within a week",
        &[
            (0, 480, Rest, false),
            (480, 510, Work, false),
            (510, 1020, Drive, false),
            (10_080, 10_500, Rest, false),
            (10_500, 10_740, Drive, false),
        ],
        0,
        &[
            (0, 1020, Cause::Unknown, Some(10_080), 1),
            (10_080, 10_740, Cause::Unknown, None, 0),
        ],
        10_740,
    ),
    (
        "a Monday within work",
        &[
            (0, 720, Rest, false),
            (9720, 10_260, Drive, false),
            (10_260, 10_320, Work, false),
            (10_320, 10_471, Drive, false),
            (10_471, 11_520, Rest, false),
        ],
        0,
        &[
            (0, 720, Cause::Unknown, Some(10_080), 0),
            (10_080, 11_520, Cause::Unknown, None, 1),
        ],
        11_520,
    ),
    (
        "a base that isn't held",
        &[(1440, 11_520, Rest, false), (11_880, 12_180, Drive, false)],
        0,
        &[
            (0, 0, Cause::Unknown, Some(10_080), 0),
            (10_080, 11_520, Cause::Unknown, Some(12_180), 0),
        ],
        12_180,
    ),
    (
        "a horizon at a Monday",
        &[
            (0, 360, Rest, false),
            (360, 631, Drive, false),
            (631, 10_080, Rest, false),
            (10_081, 20_520, Rest, false),
            (20_520, 20_791, Drive, false),
        ],
        0,
        &[
            (0, 10_080, Cause::Unknown, Some(20_160), 1),
            (20_160, 20_791, Cause::Unknown, None, 1),
        ],
        20_791,
    ),
    (
        "crew from a Monday's first minute on",
        &[
            (0, 1440, Rest, false),
            (10_080, 10_380, Drive, true),
            (10_380, 11_520, Rest, false),
            (20_160, 20_460, Rest, false),
            (20_460, 20_731, Drive, false),
        ],
        0,
        &[
            (0, 1440, Cause::Unknown, Some(20_160), 0),
            (20_160, 20_731, Cause::Unknown, None, 1),
        ],
        20_731,
    ),
    (
        "crew within a week",
        &[
            (0, 4680, Rest, false),
            (4680, 5220, Drive, true),
            (5220, 5520, Work, true),
            (5520, 10_440, Rest, false),
            (10_440, 10_800, Drive, false),
        ],
        0,
        &[
            (0, 4680, Cause::Crew, Some(10_080), 0),
            (10_080, 10_800, Cause::Unknown, None, 1),
        ],
        10_800,
    ),
    (
        "crew at the end",
        &[(0, 10_080, Rest, false), (10_080, 10_380, Drive, true)],
        0,
        &[(0, 10_080, Cause::Crew, Some(10_380), 0)],
        10_380,
    ),
    (
        "a base that is held as crew",
        &[(0, 10_080, Rest, false), (10_080, 10_380, Drive, true)],
        10_080,
        &[(10_080, 10_080, Cause::Crew, Some(10_380), 0)],
        10_380,
    ),
    (
        "a Monday's first minute alone",
        &[(0, 720, Rest, false), (10_080, 10_081, Work, false)],
        0,
        &[
            (0, 720, Cause::Unknown, Some(10_080), 0),
            (10_080, 10_081, Cause::Unknown, None, 0),
        ],
        10_081,
    ),
    // The rest from the sixth day on contains two Mondays.
    (
        "three stretches",
        &[
            (0, 720, Rest, false),
            (8000, 25_000, Rest, false),
            (30_240, 30_600, Rest, false),
            (30_600, 30_871, Drive, false),
            (30_871, 30_931, Drive, true),
        ],
        0,
        &[
            (0, 720, Cause::Unknown, Some(10_080), 0),
            (10_080, 25_000, Cause::Unknown, Some(30_240), 0),
            (30_240, 30_871, Cause::Crew, Some(30_931), 1),
        ],
        30_931,
    ),
];

/// Returns a minute, counted from the Monday.
fn at(minute: u16) -> Minute {
    Minute::new(MONDAY + u32::from(minute))
}

/// Returns a span of a driver.
fn span(start: Minute, past: Minute, activity: Activity, crew: bool) -> Span {
    Span {
        start,
        past,
        mark: Mark { activity, crew },
    }
}

/// Returns the spans of pieces.
fn spans_of(alloc: Global, pieces: &[Piece]) -> Result<Vec<Span>, AllocError> {
    let mut spans = Vec::new(alloc);
    for &(start, past, activity, crew) in pieces {
        spans.push(span(at(start), at(past), activity, crew))?;
    }
    Ok(spans)
}

/// Returns the stretches of a line from a base on.
fn stretches_of(alloc: Global, line: &Line, base: Minute) -> Result<Vec<Stretch>, Fail> {
    if !can_be_examined(line, base) {
        return Err(Fail::new("a line that can't be examined"));
    }
    Ok(stretches(alloc, line, base)?)
}

/// Returns the stretches that a pass finds from a base on, if it is fed these spans of a line one at a time.
fn passed(alloc: Global, line: &Line, base: Minute, spans: &[Span]) -> Result<Vec<Stretch>, Fail> {
    if !can_be_examined(line, base) {
        return Err(Fail::new("a line that can't be examined"));
    }
    let mut pass = StretchPass::new(base);
    let mut found = FoundStretches::empty(alloc);
    for span in spans {
        if !pass.can_take(span) {
            return Err(Fail::new("a span that can't be taken"));
        }
        pass.feed(*span, &mut found)?;
    }
    Ok(pass.finish(found)?)
}

/// Adds a span, cut into pieces of `every` minutes.
fn push_cut(pieces: &mut Vec<Span>, whole: Span, every: u32) -> Result<(), AllocError> {
    let mut start = whole.start;
    for _ in 0..whole.past.number().saturating_sub(start.number()) {
        if whole.past <= start {
            break;
        }
        let past = Minute::new(start.number().saturating_add(every).min(LATEST)).min(whole.past);
        pieces.push(span(start, past, whole.mark.activity, whole.mark.crew))?;
        start = past;
    }
    Ok(())
}

/// Returns the same spans, cut into pieces of `every` minutes.
fn cut(alloc: Global, spans: &[Span], every: u32) -> Result<Vec<Span>, AllocError> {
    let mut pieces = Vec::new(alloc);
    for whole in spans {
        push_cut(&mut pieces, *whole, every)?;
    }
    Ok(pieces)
}

/// Returns true if a stretch is this one of a list.
fn is_judged(stretch: &Stretch, wanted: Judged) -> bool {
    let (monday, until, cause, unseen, breaches) = wanted;
    let horizon = Horizon {
        minute: at(until),
        cause,
    };
    stretch.monday == at(monday)
        && stretch.report.horizon == horizon
        && stretch.report.breaches.len() == breaches
        && stretch.unseen == unseen.map(at)
}

/// Ends the test unless the stretches are those of a list.
fn assert_judged(rt: &impl Abort, name: &str, found: &[Stretch], judged: &[Judged]) {
    assert!(rt; found.len() == judged.len(), "of {name}");
    for (stretch, wanted) in found.iter().zip(judged) {
        assert!(rt; is_judged(stretch, *wanted), "of {name}");
    }
}

/// Returns true if two stretches are the same, with their breaches and debts.
fn is_alike(stretch: &Stretch, other: &Stretch) -> bool {
    stretch.monday == other.monday
        && stretch.unseen == other.unseen
        && stretch.report.horizon == other.report.horizon
        && stretch.report.breaches.as_slice() == other.report.breaches.as_slice()
        && stretch.report.debts.as_slice() == other.report.debts.as_slice()
}

/// Ends the test unless two lists of stretches are the same.
fn assert_alike(rt: &impl Abort, name: &str, found: &[Stretch], others: &[Stretch]) {
    assert!(rt; found.len() == others.len(), "of {name}");
    for (stretch, other) in found.iter().zip(others) {
        assert!(rt; is_alike(stretch, other), "of {name}");
    }
}

/// Ends the test unless a pass finds the stretches of a line, however its spans are cut.
fn assert_passed(
    rt: &impl Abort,
    alloc: Global,
    name: &str,
    line: &Line,
    base: Minute,
) -> Result<(), Fail> {
    let wanted = stretches_of(alloc, line, base)?;
    let found = passed(alloc, line, base, line.spans())?;
    assert_alike(rt, name, &found, &wanted);
    // Pieces that end at each midnight and each Monday, and pieces that don't.
    for every in [1440, 997] {
        let found = passed(alloc, line, base, &cut(alloc, line.spans(), every)?)?;
        assert_alike(rt, name, &found, &wanted);
    }
    Ok(())
}

/// Ends the test unless a row's line has the row's stretches, a pass finds them too, and together they cover the minutes from the base to
/// the end.
fn assert_row(rt: &impl Abort, alloc: Global, row: Row) -> Result<(), Fail> {
    let (name, pieces, base, judged, end) = row;
    let line = line_of(alloc, &spans_of(alloc, pieces)?)?;
    let found = stretches_of(alloc, &line, at(base))?;
    assert_judged(rt, name, &found, judged);
    assert!(rt; range_of(&found) == (at(base), at(end)), "of {name}");
    assert_passed(rt, alloc, name, &line, at(base))
}

#[test]
fn lines_have_their_stretches(rt: HostRuntime) -> Result<(), Fail> {
    for row in ROWS {
        assert_row(&rt, rt.alloc(), row)?;
    }
    Ok(())
}

/// The work of four weeks. The first one has a rest of 24 hours and no longer one, and no later rest pays.
const UNPAID: &[(u16, u16)] = &[
    (360, 420),
    (1800, 1860),
    (3240, 3300),
    (4680, 4740),
    (6120, 6180),
    (7560, 7620),
    (9060, 9120),
    (10_440, 10_500),
    (11_880, 11_940),
    (13_320, 13_380),
    (14_760, 14_820),
    (16_200, 16_260),
    (18_960, 19_020),
    (20_520, 20_580),
    (21_960, 22_020),
    (23_400, 23_460),
    (24_840, 24_900),
    (26_280, 26_340),
    (29_040, 29_100),
    (30_600, 30_660),
    (32_040, 32_100),
    (33_480, 33_540),
    (34_920, 34_980),
    (36_360, 36_420),
    (39_120, 39_180),
    (40_260, 40_320),
];

/// Returns the spans of work, with rest before each, from the Monday on.
fn worked(alloc: Global, work: &[(u16, u16)]) -> Result<Vec<Span>, AllocError> {
    let mut spans = Vec::new(alloc);
    let mut rested = 0;
    for &(start, past) in work {
        spans.push(span(at(rested), at(start), Rest, false))?;
        spans.push(span(at(start), at(past), Work, false))?;
        rested = past;
    }
    Ok(spans)
}

#[test]
fn a_debt_is_of_its_stretch(rt: HostRuntime) -> Result<(), Fail> {
    let alloc = rt.alloc();
    let mut spans = worked(alloc, UNPAID)?;
    // Two weeks later there are three days of rest, which would pay.
    spans.push(span(at(50_400), at(54_720), Rest, false))?;
    let line = line_of(alloc, &spans)?;
    assert_passed(&rt, alloc, "a debt", &line, at(0))?;
    let found = stretches_of(alloc, &line, at(0))?;
    let wanted = [
        (0, 40_320, Cause::Unknown, Some(50_400), 1),
        (50_400, 54_720, Cause::Unknown, None, 0),
    ];
    assert_judged(&rt, "a debt", &found, &wanted);
    assert!(rt; found.len() == 2);
    let late = Breach {
        kind: Kind::B10,
        moment: at(40_320),
        since: at(0),
        amount: 1260,
    };
    let debt = Debt {
        week: Week::new(2826),
        amount: 1260,
        deadline: at(40_320),
        paid_by: None,
    };
    assert_same(&rt, found[0].report.breaches.as_slice(), [late].as_slice());
    assert_same(&rt, found[0].report.debts.as_slice(), [debt].as_slice());
    assert_same(&rt, found[1].report.debts.len(), 0);
    Ok(())
}

#[test]
fn the_last_stretch_ends_with_2099(rt: HostRuntime) -> Result<(), Fail> {
    let alloc = rt.alloc();
    // From 2099-12-21 to the next day, and from the 28th to the end of the 31st.
    let base = Minute::new(68_358_240);
    let spans = [
        span(base, Minute::new(68_359_680), Rest, false),
        span(Minute::new(68_368_320), Minute::new(LATEST), Rest, false),
    ];
    let line = line_of(alloc, &spans)?;
    assert_passed(&rt, alloc, "2099", &line, base)?;
    let found = stretches_of(alloc, &line, base)?;
    assert!(rt; found.len() == 2);
    assert_same(&rt, found[0].unseen, Some(Minute::new(68_368_320)));
    assert_same(&rt, found[1].monday, Minute::new(68_368_320));
    assert_same(&rt, found[1].report.horizon.minute, Minute::new(LATEST));
    assert_same(&rt, range_of(&found), (base, Minute::new(LATEST)));
    Ok(())
}

#[test]
fn no_stretches_speak_of_no_minutes(rt: HostRuntime) {
    assert_same(&rt, range_of(&[]), (Minute::new(0), Minute::new(0)));
}

/// The minutes of a span, and whether a pass can take it after a span from minute 1,000 to before minute 2,000.
const NEXT: &[(u32, u32, bool)] = &[
    (2000, 2001, true),
    (2000, LATEST, true),
    (68_374_079, LATEST, true),
    // No minute.
    (2000, 2000, false),
    (2001, 2000, false),
    // Starts before the end of the last span.
    (1999, 2001, false),
    (1000, 2000, false),
    (0, 500, false),
    // Ends after 2099.
    (2000, 68_374_081, false),
    (LATEST, 68_374_081, false),
];

/// Returns a minute, or the last possible minute if the number is too large.
fn minute(number: u32) -> Minute {
    Minute::new(number.min(GREATEST_MINUTE))
}

/// Returns true if a pass from the Monday on that was fed a span from minute 1,000 to before minute 2,000 can take this one.
fn takes_next(alloc: Global, next: &Span) -> Result<bool, Fail> {
    let base = at(0);
    if !can_be_examined(&Line::empty(alloc), base) {
        return Err(Fail::new("a base that can't be examined"));
    }
    let first = span(Minute::new(1000), Minute::new(2000), Work, false);
    let mut pass = StretchPass::new(base);
    let mut found = FoundStretches::empty(alloc);
    if !pass.can_take(&first) {
        return Err(Fail::new("a span that can't be taken"));
    }
    pass.feed(first, &mut found)?;
    Ok(pass.can_take(next))
}

#[test]
fn spans_come_in_order(rt: HostRuntime) -> Result<(), Fail> {
    for &(start, past, wanted) in NEXT {
        for crew in [false, true] {
            let next = span(minute(start), minute(past), Rest, crew);
            let taken = takes_next(rt.alloc(), &next)?;
            assert!(rt; taken == wanted, "of {start} to {past}");
        }
    }
    Ok(())
}
