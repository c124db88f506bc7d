ghost use Rattle.std.specs.Prelude.{◌≤◌};

use crate::march::learn;
use crate::same::assert_same;
use std::alloc::Global;
use std::test::Fail;
use tacho_line::{Cause, Gap, Horizon, Line, LineFault};
use tacho_time::{Activity, Mark, Minute, Span};

/// The first minute of 2024-03-04, a Monday.
const A: u32 = 28_491_840;

fn minute(number: u32) -> Minute
    requires { number ≤ 10000 }
{
    Minute::new(A + number)
}

/// Returns a span from one minute of the week to another.
fn span(start: u32, past: u32, activity: Activity, crew: bool) -> Span
    requires start { start ≤ 10000 }
    requires past { past ≤ 10000 }
{
    Span {
        start: minute(start),
        past: minute(past),
        mark: Mark { activity, crew },
    }
}

/// Returns a span of a driver who is alone.
fn single(start: u32, past: u32, activity: Activity) -> Span
    requires start { start ≤ 10000 }
    requires past { past ≤ 10000 }
{
    span(start, past, activity, false)
}

/// Returns a line with a rest, some work, and driving up to minute 1020.
fn monday(alloc: Global) -> Result<Line, LineFault> {
    let mut line = Line::empty(alloc);
    let spans = [
        single(0, 480, Activity::Rest),
        single(480, 510, Activity::Work),
        single(510, 1020, Activity::Drive),
    ];
    learn(alloc, &mut line, &spans)?;
    Ok(line)
}

#[test]
fn gains_are_what_is_not_held(rt: HostRuntime) -> Result<(), Fail> {
    let line = monday(rt.alloc())?;
    let spans = [
        single(1200, 1440, Activity::Rest),
        single(1020, 1260, Activity::Rest),
    ];
    let gains = line.gains(rt.alloc(), &spans)?;
    let wanted = [single(1020, 1440, Activity::Rest)];
    assert_same(&rt, gains.as_slice(), wanted.as_slice());
    let own = line.gains(rt.alloc(), line.spans())?;
    assert_same(&rt, own.len(), 0);
    Ok(())
}

#[test]
fn spans_that_touch_become_one(rt: HostRuntime) -> Result<(), Fail> {
    let mut line = monday(rt.alloc())?;
    let spans = [
        single(1020, 1100, Activity::Drive),
        single(1200, 1300, Activity::Rest),
    ];
    learn(rt.alloc(), &mut line, &spans)?;
    let wanted = [
        single(0, 480, Activity::Rest),
        single(480, 510, Activity::Work),
        single(510, 1100, Activity::Drive),
        single(1200, 1300, Activity::Rest),
    ];
    assert_same(&rt, line.spans(), wanted.as_slice());
    let within = line.slice(rt.alloc(), minute(500), minute(1210))?;
    let wanted = [
        single(500, 510, Activity::Work),
        single(510, 1100, Activity::Drive),
        single(1200, 1210, Activity::Rest),
    ];
    assert_same(&rt, within.as_slice(), wanted.as_slice());
    assert_same(
        &rt,
        line.slice(rt.alloc(), minute(500), minute(500))?.len(),
        0,
    );
    assert_same(
        &rt,
        line.at(minute(1099)),
        Some(single(0, 1, Activity::Drive).mark),
    );
    assert_same(&rt, line.at(minute(1100)), None);
    Ok(())
}

#[test]
fn a_horizon_is_the_first_break(rt: HostRuntime) -> Result<(), Fail> {
    let mut line = monday(rt.alloc())?;
    let unknown = Horizon {
        minute: minute(1020),
        cause: Cause::Unknown,
    };
    assert!(rt; line.horizon(minute(0)) == unknown);
    assert!(rt; line.horizon(minute(1020)) == unknown);
    let gaps = line.gaps(rt.alloc(), minute(0), minute(1440))?;
    let wanted = [Gap {
        start: minute(1020),
        past: minute(1440),
    }];
    assert_same(&rt, gaps.as_slice(), wanted.as_slice());
    let spans = [span(1020, 1440, Activity::Drive, true)];
    learn(rt.alloc(), &mut line, &spans)?;
    let crew = Horizon {
        minute: minute(1020),
        cause: Cause::Crew,
    };
    assert!(rt; line.horizon(minute(0)) == crew);
    Ok(())
}
